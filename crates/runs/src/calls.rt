// What is run, and what is told of it.
ghost use Rattle.std.specs.Prelude.{◌≡◌};
ghost use Rattle.runs.specs.Log.{length_in, size_of};

use intake_core::{Intake, Notice, Verdict};
use outcome::Outcome;
use store::Store;

// A call to be made: a value and no closure, since the law speaks of lists of calls. Its page has the bytes asked for, or those that are left of the pages lent to the run.
#[derive(Clone, Copy)]
pub enum Call<'a> {
    Message {
        page: usize,
        input: &'a [u8],
    },
    // the verdict on the notice at a place of the desk, where the oldest lies at 0
    Answer {
        page: usize,
        at: usize,
        verdict: Verdict<'a>,
    },
    Tick {
        reading: u64,
    },
}

impl Call<'_> {
    // The bytes of the page that it asks for.
    pub(crate) fn page(&self) -> usize
        ensures { result ≡ size_of self.now }
    {
        match *self {
            Call::Message { page, .. } | Call::Answer { page, .. } => page,
            Call::Tick { .. } => 0,
        }
    }
}

// What a call came to. `page` is the length of its page, `length` that of its acknowledgement, `notice` the serial of a
// notice that was put on the desk.
#[derive(Clone, Copy)]
pub enum Line {
    Message {
        page: usize,
        outcome: Outcome,
        used: usize,
        length: usize,
        notice: Option<u64>,
    },
    Answer {
        page: usize,
        serial: u64,
        outcome: Outcome,
        length: usize,
        notice: Option<u64>,
    },
    Tick {
        ended: usize,
    },
    // no notice lay at that place, so no answer was given
    Skipped,
}

impl Line {
    // The length of the acknowledgement that it tells of.
    pub fn length(&self) -> usize
        ensures { result ≡ length_in self.now }
    {
        match *self {
            Line::Message { length, .. } | Line::Answer { length, .. } => length,
            Line::Tick { .. } | Line::Skipped => 0,
        }
    }
}

// What a run leaves: the intake, the desk of notices that are not answered yet, and a line for each call.
pub struct Ran<S: Store> {
    pub intake: Intake<S>,
    pub desk: Vec<Notice>,
    pub lines: Vec<Line>,
}

// Why nothing was run: the store comes back as it was in either case.
pub enum Halted<S: Store> {
    NoMemory(S),
    BadSetting(S),
}
