// A request: the known fields of its head judged in order, and the typed packet that they give.
#![tactic(auto)]

ghost use Rattle.std.specs.Prelude.{◌≡◌, ◌+◌, ◌≤◌, length, take, IfOk};
ghost use Rattle.packet.specs.declared.Fault.TheVariants.{Text};
ghost use Rattle.packet.specs.Faults.{number_of, place_of};
ghost use Rattle.packet.specs.Packets.{packet_of, seen};
ghost use Rattle.packet.specs.Laws.{Exact, Passed, Caseless};

use crate::judging::judge;
use head::read_head;
use std::error::Error;
use std::fmt;

mod judging;
mod protocols;
mod ranges;
mod request;

pub use crate::judging::Action;
pub use crate::ranges::Range;
pub use crate::request::Packet;

// What is wrong with a request.
#[derive(Clone, Copy, Debug, PartialEq, Eq)]
pub enum Fault {
    // its head
    Text(head::Fault),
    // a known field, by the offset of its line; 0 where it is missing, since that is the place that is told then
    Field(usize),
}

impl Fault {
    // Its number among all outcomes. A method, not a conversion: a number alone is no fault.
    pub fn number(self) -> u8
        ensures { result ≡ number_of self }
    {
        match self {
            Fault::Text(fault) => fault.number(),
            Fault::Field(_) => 5,
        }
    }

    // The offset of its line.
    pub fn place(self) -> usize
        ensures { result ≡ place_of self }
    {
        match self {
            Fault::Text(fault) => fault.place(),
            Fault::Field(at) => at,
        }
    }
}

impl fmt::Display for Fault {
    fn fmt<W: fmt::Write>(&self, f: &mut fmt::Formatter<W>) -> fmt::Result {
        match self {
            Fault::Text(fault) => fault.fmt(f),
            Fault::Field(0) => f.write_str("a field that the request needs is missing"),
            Fault::Field(_) => f.write_str("a field that the request needs has a bad value"),
        }
    }
}

impl Error for Fault {}

impl From<head::Fault> for Fault {
    ghost from_gives = { λ e r. r ≡ Text e };

    fn from(fault: head::Fault) -> Fault {
        Fault::Text(fault)
    }
}

fn body_of(rest: &[u8], announced: u64) -> &[u8]
    ensures { result.now ≡ take announced rest.now }
{
    let present = announced.min(rest.len() as u64) as usize;
    &rest[..present]
}

fn parse(input: &[u8]) -> Result<Packet<'_>, Fault>
    ensures { seen result ≡ packet_of input.now }
{
    let head = read_head(input)?;
    let judged = judge(head.fields)?;
    Ok(Packet {
        path: head.path,
        action: judged.action,
        head_size: head.size,
        content_length: judged.length,
        body: body_of(&input[head.size..], judged.length),
    })
}

// Reads the request that `input` begins with.
pub fn read_packet(input: &[u8]) -> Result<Packet<'_>, Fault>
    ensures value { seen result ≡ packet_of input.now }
    ensures within { IfOk result (λ p. p.head_size + length p.body.now ≤ length input.now) }
    ensures exact { Exact input.now (seen result) }
    ensures passed { Passed input.now (seen result) }
    ensures caseless { Caseless input.now (seen result) }
{
    parse(input)
}
