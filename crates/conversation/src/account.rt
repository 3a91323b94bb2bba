// A story run and told: for each call a line, and below it the acknowledgement.
use crate::closing::close;
use crate::steps::{Step, calls_of, texts_of};
use ack::LEAST_PAGE;
use anyhow::anyhow;
use outcome::{Outcome, Report};
use runs::{Halted, Line, Ran, run};
use session::Settings;
use std::fmt::Display;
use std::str::from_utf8;
use store::Store;

// What was done, and the number, layer and place that it came to.
fn print_outcome(rt: &impl Print, what: &impl Display, outcome: Outcome) -> anyhow::Result<()> {
    let Report {
        number,
        layer,
        place,
        ..
    } = outcome.report();
    print!(rt; "{what}: number {number}, layer {layer}, place {place}")?;
    Ok(())
}

// The same where a store or an intake was to be made, which has no input and no page.
pub(crate) fn print_making(rt: &impl Print, what: &str, outcome: Outcome) -> anyhow::Result<()> {
    print_outcome(rt, &what, outcome)?;
    println!(rt)?;
    Ok(())
}

// The lines of an acknowledgement; the blank line at its end stays blank.
fn print_ack(rt: &impl Print, ack: &[u8]) -> anyhow::Result<()> {
    if ack.is_empty() {
        println!(rt; "    no acknowledgement\n")?;
    }
    for line in from_utf8(ack)?.lines() {
        if line.is_empty() {
            println!(rt)?;
        } else {
            println!(rt; "    {line}")?;
        }
    }
    Ok(())
}

// A call that has no outcome.
fn print_silent(rt: &impl Print, step: &Step<'_>, what: &str, count: usize) -> anyhow::Result<()> {
    println!(rt; "{step}: {what}: {count}\n")?;
    Ok(())
}

// What follows a call's first line.
fn print_told(rt: &impl Print, notice: Option<u64>, ack: &[u8]) -> anyhow::Result<()> {
    if let Some(serial) = notice {
        println!(rt; "    a notice for session {serial} lies on the desk")?;
    }
    print_ack(rt, ack)
}

fn print_call(rt: &impl Print, step: &Step<'_>, line: &Line, ack: &[u8]) -> anyhow::Result<()> {
    match *line {
        Line::Message {
            outcome,
            used,
            notice,
            ..
        } => {
            print_outcome(rt, step, outcome)?;
            println!(rt; ", {used} bytes used")?;
            print_told(rt, notice, ack)
        }
        Line::Answer {
            serial,
            outcome,
            notice,
            ..
        } => {
            print_outcome(rt, step, outcome)?;
            println!(rt; ", 0 bytes used\n    on the notice for session {serial}")?;
            print_told(rt, notice, ack)
        }
        Line::Tick { ended } => print_silent(rt, step, "sessions ended", ended),
        Line::Skipped => print_silent(rt, step, "not given, notices on the desk", 0),
    }
}

// The calls with their acknowledgements, which stand one behind the other at the front of the pages.
fn print_calls(
    rt: &impl Print,
    steps: &[Step<'_>],
    lines: &[Line],
    pages: &[u8],
) -> anyhow::Result<()> {
    let mut left = pages;
    for (step, line) in steps.iter().zip(lines) {
        let ack = left.split_off(..line.length()).unwrap_or(&[]);
        print_call(rt, step, line, ack)?;
    }
    Ok(())
}

// Runs the steps on a new intake over a store and prints the account; the store after it.
pub(crate) fn tell<S: Store + Drop>(
    rt: &HostRuntime,
    store: S,
    settings: Settings,
    steps: &[Step<'_>],
) -> anyhow::Result<S> {
    let heap = rt.alloc();
    let texts = texts_of(heap, steps)?;
    let calls = calls_of(heap, steps, texts.as_slice())?;
    let mut pages = vec![in heap; 0u8; steps.len().saturating_mul(LEAST_PAGE)]?;
    match run(heap, store, settings, calls.as_slice(), &mut pages) {
        Ok(
            Ran {
                intake,
                desk,
                lines,
            },
        ) => {
            let left = desk.len();
            let store = close(intake, desk);
            print_calls(rt, steps, lines.as_slice(), pages.as_slice())?;
            if left > 0 {
                println!(rt; "Notices left on the desk, each answered with a no: {left}\n")?;
            }
            Ok(store)
        }
        Err(Halted::BadSetting(store)) => {
            print_making(rt, "A new intake", Outcome::BadSetting)?;
            Ok(store)
        }
        Err(Halted::NoMemory(_store)) => Err(anyhow!("no memory for the run")),
    }
}
