// One connection served by a new intake over a new volume store.
ghost use Rattle.std.specs.Prelude.{◌≤◌};

use ack::LEAST_PAGE;
use connection::{Serving, serve};
use desk::settle;
use intake_core::{Intake, Notice, Verdict};
use session::Settings;
use std::io::{Read, Write};
use store::Store;
use volume_store::VolumeStore;

// The most bytes that are read.
const MOST: u64 = 65536;

// The bytes of the store's region.
const REGION: usize = 65536;

// The most bytes of a bundle, and the bytes of a slot.
const BUNDLE: usize = 2048;

// The bytes that are written at once.
const OUT: usize = 4096;

const SETTINGS: Settings = Settings {
    site: 1,
    first_serial: 1,
    maximum: BUNDLE as u64,
    uploads: true,
    overwriting: false,
    approver: false,
};

// Answers a notice with a yes; the acknowledgement's length. With the approver off there is none.
fn approve<S: Store>(
    intake: &mut Intake<S>,
    notice: Option<Notice>,
    page: &mut [u8; LEAST_PAGE],
) -> usize
    ensures { result ≤ 1024 }
{
    // two arms, since a notice cannot be let go with a closure
    match notice {
        Some(notice) => settle(intake, notice, Verdict::Yes(b""), page).length,
        None => 0,
    }
}

// Serves all of the input, and writes the acknowledgements in order.
fn answer<S: Store>(rt: &HostRuntime, intake: &mut Intake<S>, input: &[u8]) -> anyhow::Result<()> {
    let mut out = [0; OUT];
    let mut page = [0; LEAST_PAGE];
    let mut left = input;
    while !left.is_empty() {
        let Serving {
            used,
            length,
            notice,
        } = serve(intake, left, &mut out);
        // a notice is answered even where nothing more can be written
        let told = approve(intake, notice, &mut page);
        rt.stdout().write_all(&out[..length])?;
        rt.stdout().write_all(&page[..told])?;
        left = &left[used..];
    }
    Ok(())
}

pub(crate) fn run(rt: &HostRuntime) -> anyhow::Result<()> {
    let mut input = Vec::new(rt.alloc());
    rt.stdin().take(MOST).read_to_end(&mut input)?;
    let region = vec![in rt.alloc(); 0u8; REGION]?;
    let store = VolumeStore::new(region, BUNDLE, 0)?;
    let mut intake = Intake::new(store, SETTINGS)?;
    let answered = answer(rt, &mut intake, input.as_slice());
    let _store = intake.into_store();
    answered
}
