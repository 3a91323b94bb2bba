// The parts of a volume, as code holds them.
ghost use Rattle.std.specs.Prelude.{◌≡◌, ◌+◌, nat_le};

use std::error::Error;
use std::fmt;

// A script's bytes and the name that they are kept under.
#[derive(Clone, Copy, PartialEq, Eq, Debug)]
pub struct BundleRef<'a> {
    pub name: &'a [u8],
    pub entity: &'a [u8],
}

// A bundle and the offset of its first byte in the volume.
#[derive(Clone, Copy, PartialEq, Eq, Debug)]
pub struct Found<'a> {
    pub at: usize,
    pub bundle: BundleRef<'a>,
}

// Why bytes end in no bundle.
#[derive(Clone, Copy, PartialEq, Eq, Debug)]
pub enum Fault {
    // fewer than the 16 bytes of a trailer
    NoTrailer,
    // the last four bytes are not HALL
    NoMark,
    // the two bytes before the mark are not zero
    NoZeros,
    // the name's length is 0 or over 128
    NameLength,
    // the distance leaves no byte for the entity
    NoEntity,
    // the distance reaches before the first byte
    TooFar,
}

impl fmt::Display for Fault {
    fn fmt<W: fmt::Write>(&self, f: &mut fmt::Formatter<W>) -> fmt::Result {
        f.write_str(match self {
            Fault::NoTrailer => "fewer than the 16 bytes of a trailer are left",
            Fault::NoMark => "the trailer does not end in HALL",
            Fault::NoZeros => "the two bytes before HALL are not zero",
            Fault::NameLength => "the trailer gives a name of 0 or more than 128 bytes",
            Fault::NoEntity => "the trailer's distance leaves no byte for the entity",
            Fault::TooFar => "the trailer's distance reaches before the first byte",
        })
    }
}

impl Error for Fault {}

// Where a walk back from the end stopped: the bytes from `end` on are sound.
#[derive(Clone, Copy, PartialEq, Eq, Debug)]
pub struct Damage {
    pub end: usize,
    pub fault: Fault,
}

impl fmt::Display for Damage {
    fn fmt<W: fmt::Write>(&self, f: &mut fmt::Formatter<W>) -> fmt::Result {
        let Damage { end, fault } = self;
        write!(f, "no bundle ends at offset {end}: {fault}")
    }
}

impl Error for Damage {}

// The bytes that close a bundle.
pub const TRAILER: usize = 16;

pub const LONGEST_NAME: usize = 128;

// A stretch of a region. One that passes the last number can be said too, and is refused.
#[derive(Clone, Copy, PartialEq, Eq, Debug)]
pub struct Span {
    pub start: usize,
    pub len: usize,
}

impl Span {
    // Whether it ends at `at` or before.
    pub(crate) fn ends_by(self, at: usize) -> bool
        ensures { result ≡ nat_le (self.start + self.len) at }
    {
        self.start
            .checked_add(self.len)
            .is_some_and(|end| end <= at)
    }
}

// Why a bundle is not written; tested in this order.
#[derive(Clone, Copy, PartialEq, Eq, Debug)]
pub enum Refusal {
    EmptyEntity,
    EmptyName,
    // the name has more than 128 bytes
    LongName,
    // the entity does not lie before the volume
    Outside,
    // entity, name and trailer are longer than the rest of the region
    NoRoom,
}

impl fmt::Display for Refusal {
    fn fmt<W: fmt::Write>(&self, f: &mut fmt::Formatter<W>) -> fmt::Result {
        f.write_str(match self {
            Refusal::EmptyEntity => "the entity on standard input is empty: send at least one byte",
            Refusal::EmptyName => "the name is empty: give 1 to 128 bytes",
            Refusal::LongName => "the name has more than 128 bytes: give 1 to 128",
            Refusal::Outside => "the entity does not lie before the volume",
            Refusal::NoRoom => "the bundle does not fit: give it another volume",
        })
    }
}

impl Error for Refusal {}
