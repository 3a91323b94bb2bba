// The intake for a caller outside that measures it: prepared messages go, round after round, to one new intake over
// a new store.
#![tactic(auto)]

ghost use Rattle.std.specs.Prelude.{◌≡◌, ◌*◌, ◌<◌, ◌≤◌, length, drop, slice_set};
ghost use Rattle.intake_bench.specs.Lines.{Counting, Telling, Told};

use ack::LEAST_PAGE;
use desk::settle;
use intake_core::{Intake, Notice, Reply, Verdict};
use page_store::PageStore;
use session::Settings;
use std::alloc::Global;
use store::Store;
use volume_store::VolumeStore;

// The bytes of a session's id.
const ID: usize = 38;

#[repr(C)]
pub struct Plan {
    // the bytes of the store's region, and of one slot where the store has slots of one size
    pub region: usize,
    pub capacity: usize,
    pub site: u64,
    pub first_serial: u64,
    // the most bytes of a bundle
    pub maximum: u64,
    pub uploads: bool,
    pub overwriting: bool,
    // where the id stands in the acknowledgement of a creation, and in each message but the first
    pub told_at: usize,
    pub id_at: usize,
    pub rounds: u64,
}

// What one message came to.
#[repr(C)]
#[derive(Clone, Copy)]
pub struct Line {
    pub number: u64,
    pub used: usize,
    pub length: usize,
}

impl Plan {
    fn settings(&self) -> Settings {
        Settings {
            site: self.site,
            first_serial: self.first_serial,
            maximum: self.maximum,
            uploads: self.uploads,
            overwriting: self.overwriting,
            approver: false,
        }
    }
}

// The part of `n` bytes from `at` on, or nothing.
fn part(bytes: &mut [u8], at: usize, n: usize) -> &mut [u8]
    ensures { length result.now ≤ n }
{
    bytes
        .get_mut(at..)
        .and_then(|rest| rest.get_mut(..n))
        .unwrap_or(&mut [])
}

// The page for the acknowledgement of message `i`: its own where there are so many, else the first.
fn page_at(pages: &mut [u8], i: usize) -> &mut [u8]
    ensures { length result.now ≤ 1024 }
{
    let own = if i < pages.len() / LEAST_PAGE { i } else { 0 };
    part(pages, own * LEAST_PAGE, LEAST_PAGE)
}

fn put_id(message: &mut [u8], at: usize, id: &[u8; ID]) {
    let rest = message.get_mut(at..).unwrap_or(&mut []);
    if let Some(place) = rest.first_chunk_mut() {
        *place = *id;
    }
}

fn id_in(page: &[u8], at: usize) -> Option<[u8; ID]> {
    page.get(at..)?.first_chunk().copied()
}

// Writes line `i`, if there is one; `get_mut` would say nothing of the lines after it.
fn note(lines: &mut [Line], i: usize, line: Line)
    ensures { lines.new ≡ slice_set lines.old i line }
{
    if i < lines.len() {
        lines[i] = line;
    }
}

// Spends a notice with a yes, if there is one: with the approver never told there is none.
fn approve<S: Store>(intake: &mut Intake<S>, notice: Option<Notice>) {
    if let Some(notice) = notice {
        settle(intake, notice, Verdict::Yes(b""), &mut [0; LEAST_PAGE]);
    }
}

// Sends one message, and gives its line.
fn tell<S: Store>(intake: &mut Intake<S>, message: &[u8], page: &mut [u8]) -> Line
    requires { length page.old ≤ 1024 }
    ensures { Told (length message.now) result }
{
    let Reply {
        outcome,
        used,
        length,
        notice,
    } = intake.message(message, page);
    approve(intake, notice);
    Line {
        number: u64::from(outcome.report().number),
        used,
        length,
    }
}

// One round; how many messages came to number 0. C's messages lie end to end, so that the lengths say where each one
// begins, and its pages do too.
fn send<S: Store>(
    intake: &mut Intake<S>,
    plan: &Plan,
    input: &mut [u8],
    lengths: &[usize],
    pages: &mut [u8],
    lines: &mut [Line],
) -> u64
    ensures most { result ≤ length lengths.now }
    ensures kept { drop (length lengths.now) lines.new ≡ drop (length lengths.now) lines.old }
    ensures told { Telling lengths.now (length lengths.now) lines.new }
    ensures counted { Counting lines.new (length lengths.now) result }
{
    let mut id = None;
    let mut at = 0usize;
    let mut done = 0u64;
    for (i, size) in lengths.iter().enumerate() {
        let message = part(input, at, *size);
        if let Some(id) = &id {
            put_id(message, plan.id_at, id);
        }
        let page = page_at(pages, i);
        let line = tell(intake, message, page);
        if i == 0 && line.number == 0 {
            id = id_in(page, plan.told_at);
        }
        done += u64::from(line.number == 0);
        note(lines, i, line);
        at = at.wrapping_add(*size);
    }
    done
}

// All rounds, to one new intake.
fn send_all<S: Store + Drop>(
    store: S,
    plan: &Plan,
    input: &mut [u8],
    lengths: &[usize],
    pages: &mut [u8],
    lines: &mut [Line],
) -> u64
    ensures most { result ≤ plan.now.rounds * length lengths.now }
    ensures kept { drop (length lengths.now) lines.new ≡ drop (length lengths.now) lines.old }
    ensures told { 0 < result → Telling lengths.now (length lengths.now) lines.new }
    ensures counted { 0 < result → plan.now.rounds ≡ 1 → Counting lines.new (length lengths.now) result }
{
    let Ok(mut intake) = Intake::new(store, plan.settings()) else {
        return 0;
    };
    let mut done = 0u64;
    for _round in 0..plan.rounds {
        done = done.wrapping_add(send(&mut intake, plan, input, lengths, pages, lines));
    }
    let _store = intake.into_store();
    done
}

// The rounds over a page store: how many messages came to number 0, or 0 where no intake could be made. The lines tell
// of the messages of the last round, as far as they reach; lines behind those stay. C passes a pointer for each part, and
// its names say which store is meant, so the parameters and the clauses stand here twice.
#[unsafe(no_mangle)]
pub extern "C" fn intake_bench_pages(
    heap: Global,
    plan: &Plan,
    input: &mut [u8],
    lengths: &[usize],
    pages: &mut [u8],
    lines: &mut [Line],
) -> u64
    ensures most { result ≤ plan.now.rounds * length lengths.now }
    ensures kept { drop (length lengths.now) lines.new ≡ drop (length lengths.now) lines.old }
    ensures told { 0 < result → Telling lengths.now (length lengths.now) lines.new }
    ensures counted { 0 < result → plan.now.rounds ≡ 1 → Counting lines.new (length lengths.now) result }
{
    let Ok(region) = Vec::from_elem(heap, 0u8, plan.region) else {
        return 0;
    };
    let Ok(store) = PageStore::new(region) else {
        return 0;
    };
    send_all(store, plan, input, lengths, pages, lines)
}

// The same over a volume store.
#[unsafe(no_mangle)]
pub extern "C" fn intake_bench_volume(
    heap: Global,
    plan: &Plan,
    input: &mut [u8],
    lengths: &[usize],
    pages: &mut [u8],
    lines: &mut [Line],
) -> u64
    ensures most { result ≤ plan.now.rounds * length lengths.now }
    ensures kept { drop (length lengths.now) lines.new ≡ drop (length lengths.now) lines.old }
    ensures told { 0 < result → Telling lengths.now (length lengths.now) lines.new }
    ensures counted { 0 < result → plan.now.rounds ≡ 1 → Counting lines.new (length lengths.now) result }
{
    let Ok(region) = Vec::from_elem(heap, 0u8, plan.region) else {
        return 0;
    };
    let Ok(store) = VolumeStore::new(region, plan.capacity, 0) else {
        return 0;
    };
    send_all(store, plan, input, lengths, pages, lines)
}
