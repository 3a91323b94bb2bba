// Names of 0, 1, 128 and 129 bytes, entities of 0 and 1, a full region, damaged bytes.
use volume::{
    BundleRef, Damage, Fault, Refusal, Span, append, append_within, check as recognise, example,
    find,
};

const BYTES: [u8; 129] = [b'n'; 129];

// What `append` answers for an entity and a name of these lengths in a region of `size` bytes.
fn tried(size: usize, entity: usize, name: usize) -> Result<usize, Refusal> {
    let mut region = [0xEEu8; 256];
    if size > region.len() || entity > BYTES.len() || name > BYTES.len() {
        return Err(Refusal::NoRoom);
    }
    let bundle = BundleRef {
        name: &BYTES[0..name],
        entity: &BYTES[0..entity],
    };
    append(&mut region[0..size], 0, bundle)
}

#[test]
fn lengths(rt: HostRuntime) {
    assert_eq!(rt; tried(256, 1, 0), Err(Refusal::EmptyName));
    assert_eq!(rt; tried(256, 1, 1), Ok(18));
    assert_eq!(rt; tried(256, 1, 128), Ok(145));
    assert_eq!(rt; tried(256, 1, 129), Err(Refusal::LongName));
    assert_eq!(rt; tried(256, 0, 1), Err(Refusal::EmptyEntity));
    assert_eq!(rt; tried(18, 1, 1), Ok(18));
    assert_eq!(rt; tried(17, 1, 1), Err(Refusal::NoRoom));
}

#[test]
fn within_one_region(rt: HostRuntime) {
    let mut region = [7u8; 64];
    let entity = Span { start: 3, len: 5 };
    let volume = Span { start: 8, len: 0 };
    assert_eq!(rt; append_within(&mut region, volume, entity, b"/a"), Ok(23));
    assert_eq!(rt; region[31], 7);
    let late = Span { start: 4, len: 5 };
    assert_eq!(rt;
        append_within(&mut region, volume, late, b"/a"),
        Err(Refusal::Outside)
    );
    let huge = Span {
        start: usize::MAX,
        len: usize::MAX,
    };
    assert_eq!(rt;
        append_within(&mut region, huge, entity, b"/a"),
        Err(Refusal::NoRoom)
    );
    assert_eq!(rt;
        append_within(&mut region, volume, huge, b"/a"),
        Err(Refusal::Outside)
    );
}

// The example with one byte set to another value.
fn damaged(at: usize, byte: u8) -> Result<usize, Damage> {
    let mut bytes = example();
    if at < bytes.len() {
        bytes[at] = byte;
    }
    recognise(&bytes)
}

#[test]
fn damage(rt: HostRuntime) {
    assert_eq!(rt; damaged(0, 0xFF), Ok(1));
    let table = [
        (3, 0xFF, Fault::TooFar),
        (10, 2, Fault::NoEntity),
        (10, 4, Fault::TooFar),
        (11, 1, Fault::NameLength),
        (12, 0, Fault::NameLength),
        (12, 129, Fault::NameLength),
        (13, 1, Fault::NoZeros),
        (14, 1, Fault::NoZeros),
        (15, b'h', Fault::NoMark),
        (18, b'l', Fault::NoMark),
    ];
    for (at, byte, fault) in table {
        assert_eq!(rt; damaged(at, byte), Err(Damage { end: 19, fault }));
    }
}

#[test]
fn cut_short(rt: HostRuntime) {
    let bytes = example();
    assert_eq!(rt; recognise(&bytes[0..0]), Ok(0));
    assert_eq!(rt;
        recognise(&bytes[0..15]),
        Err(Damage {
            end: 15,
            fault: Fault::NoTrailer,
        })
    );
    assert_eq!(rt;
        recognise(&bytes[1..19]),
        Err(Damage {
            end: 18,
            fault: Fault::TooFar,
        })
    );
    assert!(rt; find(&bytes, b"/").is_ok());
}
