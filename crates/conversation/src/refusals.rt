// Every number from 1 to 23 that can come.
use crate::account::{print_making, tell};
use crate::closing::NO_REASON;
use crate::requests::{Request, Upload};
use crate::steps::Step;
use crate::stories::USUAL;
use page_store::PageStore;
use session::Settings;
use volume_store::VolumeStore;

const A: Upload<'static> = Upload {
    path: "/a",
    serial: 1,
};

// A second session for the same name.
const AGAIN: Upload<'static> = Upload {
    path: "/a",
    serial: 2,
};

static UNREAD: [Step<'static>; 9] = [
    Step::Cramped(Request::Ping),
    Step::Send(Request::Text(
        "a head without its end",
        "BITS_POST /a HTTP/1.1\r\nContent-Length: 0\r\n",
    )),
    Step::Send(Request::Text(
        "a line without a colon",
        "BITS_POST /a HTTP/1.1\r\nContent-Length 0\r\n\r\n",
    )),
    Step::Send(Request::Text(
        "Content-Length twice",
        "BITS_POST /a HTTP/1.1\r\nContent-Length: 0\r\ncontent-length: 0\r\n\r\n",
    )),
    Step::Send(Request::Text(
        "no BITS-Packet-Type",
        "BITS_POST /a HTTP/1.1\r\nContent-Length: 0\r\n\r\n",
    )),
    Step::Send(Request::Text(
        "BITS-Packet-Type: HELLO",
        "BITS_POST /a HTTP/1.1\r\nContent-Length: 0\r\nBITS-Packet-Type: HELLO\r\n\r\n",
    )),
    Step::Send(Request::Text(
        "CREATE-SESSION with another protocol",
        "BITS_POST /a HTTP/1.1\r\nContent-Length: 0\r\nBITS-Packet-Type: CREATE-SESSION\r\nBITS-Supported-Protocols: {00000000-0000-0000-0000-000000000001}\r\n\r\n",
    )),
    Step::Send(Request::Create(Upload {
        path: "/folder/",
        serial: 1,
    })),
    Step::Send(Request::Close(A)),
];

static RECEIVING: [Step<'static>; 8] = [
    Step::Send(Request::Create(A)),
    Step::Send(Request::Close(A)),
    Step::Send(Request::Fragment(A, "0-9/5", 10, "0123456789")),
    Step::Send(Request::Fragment(A, "0-9/101", 10, "0123456789")),
    Step::Send(Request::Fragment(A, "0-32768/32769", 32769, "")),
    Step::Send(Request::Fragment(A, "1-9/10", 9, "123456789")),
    Step::Send(Request::Fragment(A, "0-64/65", 65, "")),
    Step::Send(Request::Fragment(A, "0-9/10", 10, "0123")),
];

static APPROVING: [Step<'static>; 15] = [
    Step::Send(Request::Create(A)),
    Step::Send(Request::Create(AGAIN)),
    Step::Send(Request::Fragment(A, "0-9/10", 10, "0123456789")),
    Step::Send(Request::Fragment(A, "0-9/10", 10, "0123456789")),
    Step::Send(Request::Close(A)),
    Step::No(NO_REASON),
    Step::Send(Request::Fragment(A, "0-0/10", 1, "0")),
    Step::Yes("two words"),
    Step::Send(Request::Fragment(A, "0-0/10", 1, "0")),
    Step::Yes(""),
    Step::Send(Request::Close(A)),
    Step::Send(Request::Create(A)),
    Step::Send(Request::Fragment(AGAIN, "0-3/4", 4, "more")),
    Step::Yes(""),
    Step::Send(Request::Close(AGAIN)),
];

static ONE: [Step<'static>; 2] = [Step::Send(Request::Create(A)), Step::Send(Request::Ping)];

static SEVENTEEN: [Step<'static>; 17] = [Step::Send(Request::Create(A)); 17];

static WHOLE: [Step<'static>; 3] = [
    Step::Send(Request::Create(A)),
    Step::Send(Request::Fragment(A, "0-9/10", 10, "0123456789")),
    Step::Send(Request::Close(A)),
];

// Steps over 16 slots of 64 bytes and a volume with room for `room` bytes.
fn over(
    rt: &HostRuntime,
    title: &str,
    room: usize,
    settings: Settings,
    steps: &[Step<'_>],
) -> anyhow::Result<()> {
    println!(rt; "\n== {title}\n")?;
    let region = vec![in rt.alloc(); 0u8; room.saturating_add(1024)]?;
    let store = VolumeStore::new(region, 64, 0)?;
    tell(rt, store, settings, steps)?;
    Ok(())
}

fn print_other_settings(rt: &HostRuntime) -> anyhow::Result<()> {
    let off = Settings {
        uploads: false,
        ..USUAL
    };
    over(rt, "Uploads off: 6", 200, off, &ONE)?;
    let last = Settings {
        first_serial: u64::MAX,
        ..USUAL
    };
    over(rt, "The next serial is 2^64 - 1: 17", 200, last, &ONE)?;
    over(rt, "16 sessions and one more: 16", 200, USUAL, &SEVENTEEN)?;
    let unasked = Settings {
        approver: false,
        ..USUAL
    };
    over(
        rt,
        "A volume of 27 bytes where 28 are needed: 18 for a close",
        27,
        unasked,
        &WHOLE,
    )
}

fn print_broken(rt: &HostRuntime) -> anyhow::Result<()> {
    let none = Settings {
        maximum: 0,
        ..USUAL
    };
    over(rt, "Broken settings: 23", 200, none, &ONE)?;
    match PageStore::new(vec![in rt.alloc(); 0u8; 4095]?) {
        Ok(_) => println!(rt; "a page store")?,
        Err(bad) => print_making(rt, "A page store over 4095 bytes", bad.outcome())?,
    }
    println!(rt;
        "Number 22 does not come: it is for a store that refuses what it said it would take, and these keep their word."
    )?;
    Ok(())
}

pub(crate) fn print(rt: &HostRuntime) -> anyhow::Result<()> {
    over(
        rt,
        "Refused before a session is found: 1 to 5 and 7 to 9",
        200,
        USUAL,
        &UNREAD,
    )?;
    over(
        rt,
        "Refused while a session is receiving: 11 to 14, 18; and 19",
        200,
        USUAL,
        &RECEIVING,
    )?;
    over(
        rt,
        "The approver's refusals and the name that stands: 10, 20, 21, 15",
        200,
        USUAL,
        &APPROVING,
    )?;
    print_other_settings(rt)?;
    print_broken(rt)
}
