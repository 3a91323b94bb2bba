// The steps of a story, and the calls that they come to.
use crate::requests::Request;
use ack::LEAST_PAGE;
use intake_core::Verdict;
use runs::Call;
use std::alloc::{AllocError, Global};
use std::fmt;

// A value and no closure: each step is printed as well as made.
#[derive(Clone, Copy)]
pub enum Step<'a> {
    Send(Request<'a>),
    // with a page one byte too short
    Cramped(Request<'a>),
    // the verdict on the oldest notice of the desk: yes with a reply address, or no with a code
    Yes(&'a str),
    No(u32),
    Tick(u64),
}

impl fmt::Display for Step<'_> {
    fn fmt<W: fmt::Write>(&self, f: &mut fmt::Formatter<W>) -> fmt::Result {
        match *self {
            Step::Send(request) => write!(f, "{request}"),
            Step::Cramped(request) => write!(f, "{request}, with a page of 1023 bytes"),
            Step::Yes(address) => write!(f, "ANSWER yes, reply address '{address}'"),
            Step::No(code) => write!(f, "ANSWER no, code 0x{code:08X}"),
            Step::Tick(reading) => write!(f, "TICK {reading}"),
        }
    }
}

impl Step<'_> {
    // What the step hands in: a message's text, a yes's reply address, or nothing.
    fn text(&self, heap: Global) -> Result<String, AllocError> {
        match *self {
            Step::Send(request) | Step::Cramped(request) => request.text(heap),
            Step::Yes(address) => String::from_str(heap, address),
            Step::No(_) | Step::Tick(_) => Ok(String::new(heap)),
        }
    }

    // The call of the step that hands this text in.
    fn call<'a>(&self, text: &'a [u8]) -> Call<'a> {
        match *self {
            Step::Send(_) => Call::Message {
                page: LEAST_PAGE,
                input: text,
            },
            Step::Cramped(_) => Call::Message {
                page: LEAST_PAGE - 1,
                input: text,
            },
            Step::Yes(_) => Call::Answer {
                page: LEAST_PAGE,
                at: 0,
                verdict: Verdict::Yes(text),
            },
            Step::No(code) => Call::Answer {
                page: LEAST_PAGE,
                at: 0,
                verdict: Verdict::No(code),
            },
            Step::Tick(reading) => Call::Tick { reading },
        }
    }
}

pub(crate) fn texts_of(heap: Global, steps: &[Step<'_>]) -> Result<Vec<String>, AllocError> {
    steps.iter().map(|step| step.text(heap)).try_collect(heap)
}

pub(crate) fn calls_of<'a>(
    heap: Global,
    steps: &[Step<'_>],
    texts: &'a [String],
) -> Result<Vec<Call<'a>>, AllocError> {
    steps
        .iter()
        .zip(texts)
        .map(|(step, text)| step.call(text.as_bytes()))
        .collect(heap)
}
