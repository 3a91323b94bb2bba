// Reading a volume back from its last byte.
ghost use Rattle.std.specs.Prelude.{◌≡◌, List};
ghost use Rattle.volume.specs.Bundles.{Bundle, Unique, Volume, newest};
ghost use Rattle.volume.specs.Reads.{Counted, Damaged, Ends, Faulty, NoBundle, Searched, Trailed, answer, placed};

use crate::bundle::{BundleRef, Damage, Fault, Found, LONGEST_NAME, TRAILER};
use crate::walk::newest_first;

// The two numbers of a trailer.
struct Trailer {
    distance: usize,
    name_len: usize,
}

// The trailer in which the bytes end.
fn read_trailer(bytes: &[u8]) -> Result<Trailer, Fault>
    ensures { elim result [ Ok t ↦ Trailed bytes.now t.distance t.name_len | Err e ↦ Faulty bytes.now e ] }
{
    let trailer = bytes.last_chunk::<TRAILER>().ok_or(Fault::NoTrailer)?;
    if !bytes.ends_with(b"HALL") {
        return Err(Fault::NoMark);
    }
    if !bytes.ends_with(b"\0\0HALL") {
        return Err(Fault::NoZeros);
    }
    let [d0, d1, d2, d3, d4, d5, d6, d7, n0, n1, ..] = *trailer;
    Ok(Trailer {
        distance: usize::from_be_bytes([d0, d1, d2, d3, d4, d5, d6, d7]),
        name_len: u16::from_be_bytes([n0, n1]) as usize,
    })
}

// The bundle in which the bytes end.
pub fn last(bytes: &[u8]) -> Result<Found<'_>, Fault>
    ensures { elim result [ Ok f ↦ Ends bytes.now (placed f) | Err e ↦ NoBundle bytes.now e ] }
{
    let Trailer { distance, name_len } = read_trailer(bytes)?;
    if name_len == 0 || name_len > LONGEST_NAME {
        return Err(Fault::NameLength);
    }
    if distance <= name_len {
        return Err(Fault::NoEntity);
    }
    let body = bytes.len() - TRAILER;
    if distance > body {
        return Err(Fault::TooFar);
    }
    let at = body - distance;
    let middle = body - name_len;
    let bundle = BundleRef {
        name: &bytes[middle..body],
        entity: &bytes[at..middle],
    };
    Ok(Found { at, bundle })
}

// The number of bundles of a volume, or where the bytes are none.
pub fn check(bytes: &[u8]) -> Result<usize, Damage>
    ensures unique { Unique }
    ensures exact { elim result [ Ok n ↦ Counted bytes.now n | Err d ↦ Damaged bytes.now d ] }
{
    let mut count: usize = 0;
    for found in newest_first(bytes) {
        found?;
        count += 1;
    }
    Ok(count)
}

// The newest bundle of a name; bytes before it are not looked at.
pub fn find<'a>(bytes: &'a [u8], name: &[u8]) -> Result<Option<Found<'a>>, Damage>
    ensures searched { Searched bytes.now name.now result }
    ensures newest { (bs : List Bundle) → Volume bytes.now bs → answer result ≡ Some (newest name.now bs) }
{
    for found in newest_first(bytes) {
        let found = found?;
        if found.bundle.name == name {
            return Ok(Some(found));
        }
    }
    Ok(None)
}
