// The head of a request: where it ends, its request line, its fields; and what is wrong with it, with its line's offset.
#![tactic(auto)]

ghost use Rattle.std.specs.Prelude.{◌≡◌, ◌≤◌, length, IfOk};
ghost use Rattle.head.specs.Faults.{number_of, place_of};
ghost use Rattle.head.specs.Heads.{head_of, seen};
ghost use Rattle.head.specs.Laws.{Exact, NoHead, Fenced, Caseless};

use crate::fields::read_fields;
use crate::lines::{line_length, read_path};
use crate::marks::head_mark;
use std::error::Error;
use std::fmt;

mod fields;
mod lines;
mod marks;

pub use crate::fields::{Fields, Known};

// What is wrong with a head, with the offset of the line where it lies.
#[derive(Clone, Copy, Debug, PartialEq, Eq)]
pub enum Fault {
    // no empty line yet
    Unfinished,
    // the first bad line
    Malformed(usize),
    // the first known field that stands again
    Repeated(usize),
}

impl Fault {
    // Its number among all outcomes. A method, not a conversion: a number alone is no fault.
    pub fn number(self) -> u8
        ensures { result ≡ number_of self }
    {
        match self {
            Fault::Unfinished => 2,
            Fault::Malformed(_) => 3,
            Fault::Repeated(_) => 4,
        }
    }

    // The offset of its line.
    pub fn place(self) -> usize
        ensures { result ≡ place_of self }
    {
        match self {
            Fault::Unfinished => 0,
            Fault::Malformed(at) | Fault::Repeated(at) => at,
        }
    }
}

impl fmt::Display for Fault {
    fn fmt<W: fmt::Write>(&self, f: &mut fmt::Formatter<W>) -> fmt::Result {
        f.write_str(match self {
            Fault::Unfinished => "the head has no empty line yet",
            Fault::Malformed(_) =>
                "a line of the head is bad, or the head does not end within 8192 bytes",
            Fault::Repeated(_) => "a known field stands again",
        })
    }
}

impl Error for Fault {}

#[derive(Clone, Copy)]
pub struct Head<'a> {
    pub path: &'a [u8],
    pub fields: Fields<'a>,
    // with its empty line
    pub size: usize,
}

fn parse(input: &[u8]) -> Result<Head<'_>, Fault>
    ensures { seen result ≡ head_of input.now }
{
    let mark = head_mark(input)?;
    let body = &input[..mark];
    let first = line_length(body);
    let path = read_path(&body[..first]).ok_or(Fault::Malformed(0))?;
    let fields = read_fields(body, first)?;
    // told after all lines are read: a bad line comes first
    if let Some(at) = fields.repeated {
        return Err(Fault::Repeated(at));
    }
    Ok(Head {
        path,
        fields,
        size: mark + 4,
    })
}

// Reads the head that `input` begins with.
pub fn read_head(input: &[u8]) -> Result<Head<'_>, Fault>
    ensures value { seen result ≡ head_of input.now }
    ensures within { IfOk result (λ h. h.size ≤ length input.now) }
    ensures exact { Exact input.now (seen result) }
    ensures unfinished { NoHead input.now (seen result) }
    ensures fenced { Fenced input.now (seen result) }
    ensures caseless { Caseless input.now (seen result) }
{
    parse(input)
}
