// Runs tables of requests, whole and damaged, and compares the number and the place that each gives.
#![tactic(auto)]

ghost use Rattle.std.specs.Prelude.{◌≡◌, MatchResult};
ghost use Rattle.packet.specs.Faults.{number_of, place_of};
ghost use Rattle.packet.specs.Packets.{packet_of};

use crate::tables::Case;
use packet::read_packet;
use std::alloc::{AllocError, Global};
use std::convert::AsSlice;
use std::{fmt, io};

mod tables;

// What reading gave, as the tables have it: a number, 0 for a packet, and a place.
#[derive(Clone, Copy, PartialEq, Eq)]
struct Outcome {
    number: u8,
    place: usize,
}

fn read_as(input: &[u8]) -> Outcome
    ensures { MatchResult (packet_of input.now) (λ _. (result.number ≡ 0) × (result.place ≡ 0)) (λ e. (result.number ≡ number_of e) × (result.place ≡ place_of e)) }
{
    match read_packet(input) {
        Ok(_) => Outcome {
            number: 0,
            place: 0,
        },
        Err(fault) => Outcome {
            number: fault.number(),
            place: fault.place(),
        },
    }
}

impl fmt::Display for Outcome {
    fn fmt<W: fmt::Write>(&self, f: &mut fmt::Formatter<W>) -> fmt::Result {
        write!(f, "{} at {}", self.number, self.place)
    }
}

fn check(rt: &impl Print, name: &str, input: &[u8], wanted: Outcome) -> io::Result<bool> {
    let got = read_as(input);
    let right = got == wanted;
    if right {
        println!(rt; "{name}: {got}")?;
    } else {
        println!(rt; "{name}: {got}, WRONG, wanted {wanted}")?;
    }
    Ok(right)
}

// How many cases are wrong.
fn run<I: AsSlice<u8>>(rt: &impl Print, cases: &[Case<I>]) -> io::Result<usize> {
    let mut wrong: usize = 0;
    for case in cases {
        let wanted = Outcome {
            number: case.number,
            place: case.place,
        };
        if !check(rt, case.name, case.input.as_slice(), wanted)? {
            wrong += 1;
        }
    }
    Ok(wrong)
}

const PING: &[u8] = b"BITS_POST /a HTTP/1.1\r\nContent-Length: 0\r\nBITS-Packet-Type: PING\r\n";

// A ping with `fields` fields more.
fn many_fields(heap: Global, fields: usize) -> Result<Vec<u8>, AllocError> {
    let more = b"X: y\r\n".repeat(heap, fields)?;
    [PING, more.as_slice(), b"\r\n"].concat(heap)
}

// A ping whose path has `size` bytes.
fn long_path(heap: Global, size: usize) -> Result<Vec<u8>, AllocError> {
    let path = b"p".repeat(heap, size.saturating_sub(1))?;
    let rest = b" HTTP/1.1\r\nContent-Length: 0\r\nBITS-Packet-Type: PING\r\n\r\n";
    [b"BITS_POST /", path.as_slice(), rest].concat(heap)
}

// A ping with a value of `size` bytes among blanks.
fn long_value(heap: Global, size: usize) -> Result<Vec<u8>, AllocError> {
    let value = b"v".repeat(heap, size)?;
    [PING, b"X:   ", value.as_slice(), b" \t \r\n\r\n"].concat(heap)
}

// A ping with two long values.
fn long_head(heap: Global, first: usize, second: usize) -> Result<Vec<u8>, AllocError> {
    let x = b"v".repeat(heap, first)?;
    let y = b"v".repeat(heap, second)?;
    [
        PING,
        b"X:",
        x.as_slice(),
        b"\r\nY:",
        y.as_slice(),
        b"\r\n\r\n",
    ]
    .concat(heap)
}

// The limits, one byte or field to each side.
fn run_limits(rt: &impl Print, heap: Global) -> anyhow::Result<usize> {
    let cases = [
        Case::new("64 fields", many_fields(heap, 62)?, 0, 0),
        Case::new("65 fields", many_fields(heap, 63)?, 3, 438),
        Case::new("path of 128 bytes", long_path(heap, 128)?, 0, 0),
        Case::new("path of 129 bytes", long_path(heap, 129)?, 3, 0),
        Case::new("value of 4096 bytes", long_value(heap, 4096)?, 0, 0),
        Case::new("value of 4097 bytes", long_value(heap, 4097)?, 3, 66),
    ];
    Ok(run(rt, &cases)?)
}

fn run_sizes(rt: &impl Print, heap: Global) -> anyhow::Result<usize> {
    let mut cut = long_head(heap, 4041, 4076)?;
    cut.truncate(8191);
    let cases = [
        Case::new("head of 8192 bytes", long_head(heap, 4040, 4076)?, 0, 0),
        Case::new("head of 8193 bytes", long_head(heap, 4041, 4076)?, 3, 0),
        Case::new("8191 bytes without an end", cut, 2, 0),
    ];
    Ok(run(rt, &cases)?)
}

fn main(rt: HostRuntime) -> anyhow::Result<()> {
    let good = run(&rt, &tables::GOOD)?;
    let text = run(&rt, &tables::TEXT)?;
    let fields = run(&rt, &tables::FIELDS)?;
    let protocols = run(&rt, &tables::PROTOCOLS)?;
    let limits = run_limits(&rt, rt.alloc())?;
    let sizes = run_sizes(&rt, rt.alloc())?;
    println!(rt; "wrong: {good}, {text}, {fields}, {protocols}, {limits}, {sizes}")?;
    Ok(())
}
