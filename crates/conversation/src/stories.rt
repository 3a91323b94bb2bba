// The stories that are told.
use crate::account::tell;
use crate::refusals;
use crate::requests::{Request, SITE, Upload};
use crate::steps::Step;
use anyhow::anyhow;
use page_store::PageStore;
use session::Settings;
use std::io::Write;
use store::Store;
use volume::list;
use volume_store::VolumeStore;

// What most stories run under: the approver is told, and nothing is overwritten.
pub const USUAL: Settings = Settings {
    site: SITE,
    first_serial: 1,
    maximum: 100,
    uploads: true,
    overwriting: false,
    approver: true,
};

const SCRIPT: Upload<'static> = Upload {
    path: "/hall-4/june-1",
    serial: 1,
};

// 30 bytes, sent over a line that drops inside the second fragment; then the laptop starts too far, is told the count,
// and goes on with some bytes that are kept already.
static SENT: [Step<'static>; 9] = [
    Step::Send(Request::Ping),
    Step::Send(Request::Create(SCRIPT)),
    Step::Send(Request::Fragment(SCRIPT, "0-9/30", 10, "Hall 4, Ju")),
    Step::Send(Request::Fragment(SCRIPT, "10-19/30", 10, "ne, ")),
    Step::Send(Request::Fragment(SCRIPT, "20-29/30", 10, " 1, page 1")),
    Step::Send(Request::Fragment(SCRIPT, "12-23/30", 12, ", script 1, ")),
    Step::Send(Request::Fragment(SCRIPT, "24-29/30", 6, "page 1")),
    Step::Yes("/replies/june-1"),
    Step::Send(Request::Close(SCRIPT)),
];

// Each bundle of a volume, found from the last byte back.
fn print_volume(rt: &HostRuntime, bytes: &[u8]) -> anyhow::Result<()> {
    println!(rt;
        "The volume has {} bytes. From the last one back:",
        bytes.len()
    )?;
    let all = list(rt.alloc(), bytes).map_err(|_| anyhow!("the volume is not listed"))?;
    for found in &all {
        let bundle = found.bundle;
        print!(rt;
            "  at {}, {} bytes under the name ",
            found.at,
            bundle.entity.len()
        )?;
        rt.stdout().write_all(bundle.name)?;
        print!(rt; ": ")?;
        rt.stdout().write_all(bundle.entity)?;
        println!(rt)?;
    }
    Ok(())
}

fn over_volume(rt: &HostRuntime) -> anyhow::Result<()> {
    println!(rt; "== Sent, resumed, approved and closed, over a volume that has one bundle\n")?;
    let mut region = vec![in rt.alloc(); 0u8; 1200]?;
    region[1024..1043].copy_from_slice(&volume::example());
    let store = VolumeStore::new(region, 64, 19)?;
    let store = tell(rt, store, USUAL, &SENT)?;
    print_volume(rt, store.volume())
}

// What stands under a name, in parts of 16 bytes.
fn print_name<S: Store>(rt: &HostRuntime, store: &S, name: &str) -> anyhow::Result<()> {
    let Some(length) = store.published_length(name.as_bytes()) else {
        println!(rt; "Nothing stands under {name}.")?;
        return Ok(());
    };
    println!(rt; "{length} bytes stand under {name}. In parts of 16:")?;
    for at in (0..length).step_by(16) {
        let mut page = [0; 16];
        let n = store.copy(name.as_bytes(), at, &mut page).unwrap_or(0);
        print!(rt; "  {n} bytes: ")?;
        rt.stdout().write_all(&page[..n])?;
        println!(rt)?;
    }
    Ok(())
}

// A story over two pages, and what then stands under a name.
fn over_pages(rt: &HostRuntime, title: &str, steps: &[Step<'_>], name: &str) -> anyhow::Result<()> {
    println!(rt; "\n== {title}\n")?;
    let region = vec![in rt.alloc(); 0u8; 8192]?;
    let store = PageStore::new(region)?;
    let store = tell(rt, store, USUAL, steps)?;
    print_name(rt, &store, name)
}

const LEFT: Upload<'static> = Upload {
    path: "/hall-4/left",
    serial: 1,
};

const STOPPED: Upload<'static> = Upload {
    path: "/hall-4/stopped",
    serial: 2,
};

const ANEW: Upload<'static> = Upload {
    path: "/hall-4/left",
    serial: 3,
};

// Session 1 is left alone at clock 1,000; session 2 is cancelled while it is at the approver.
static ENDED: [Step<'static>; 14] = [
    Step::Tick(1000),
    Step::Send(Request::Create(LEFT)),
    Step::Send(Request::Fragment(LEFT, "0-4/10", 5, "first")),
    Step::Send(Request::Create(STOPPED)),
    Step::Send(Request::Fragment(STOPPED, "0-4/5", 5, "whole")),
    Step::Send(Request::Cancel(STOPPED)),
    Step::Yes(""),
    Step::Yes(""),
    Step::Tick(1210599),
    Step::Tick(900),
    Step::Tick(1210600),
    Step::Send(Request::Fragment(LEFT, "5-9/10", 5, " half")),
    Step::Send(Request::Create(ANEW)),
    Step::Send(Request::Fragment(ANEW, "0-9/10", 10, "first half")),
];

pub(crate) fn print(rt: &HostRuntime) -> anyhow::Result<()> {
    over_volume(rt)?;
    over_pages(rt, "The same over pages", &SENT, SCRIPT.path)?;
    refusals::print(rt)?;
    over_pages(
        rt,
        "A cancelled session, and one that is left alone for 14 days",
        &ENDED,
        STOPPED.path,
    )
}
