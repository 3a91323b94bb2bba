// What is printed of a call.
use outcome::{Outcome, Report};
use std::io;
use std::str::from_utf8;

// One line: what was sent, number, layer, place, the bytes used and the bytes of the acknowledgement.
pub(crate) fn show(
    rt: &impl Print,
    what: &str,
    outcome: Outcome,
    used: usize,
    length: usize,
) -> io::Result<()> {
    let Report {
        number,
        layer,
        place,
        ..
    } = outcome.report();
    println!(rt; "{what}: {number}, {layer}, place {place}, used {used}, acknowledgement {length}")
}

// The lines of an acknowledgement that begin with `start`, behind two spaces.
pub(crate) fn show_lines(rt: &impl Print, bytes: &[u8], start: &str) -> anyhow::Result<()> {
    let text = from_utf8(bytes)?;
    for line in text.lines().filter(|line| line.starts_with(start)) {
        println!(rt; "  {line}")?;
    }
    Ok(())
}
