// What a call came to: one named case for each number, and what each reports.
#![tactic(auto)]

ghost use Rattle.std.specs.Prelude.{◌≡◌, Some};
ghost use Rattle.outcome.specs.Outcomes.{by, context_of, name_of, number_of, of, phrase_of, report_of};

use std::fmt;

#[derive(Clone, Copy, Debug, PartialEq, Eq)]
pub enum Outcome {
    Done,
    ShortPage,
    UnfinishedHead,
    BadHead { line: usize },
    RepeatedField { line: usize },
    BadPacket { line: usize },
    UploadsOff,
    NoSharedProtocol,
    FolderDestination,
    NoSession,
    AtApprover,
    Incomplete,
    WrongRange { line: usize },
    TooLarge,
    Gap,
    DestinationStands,
    TooManySessions,
    SerialsSpent,
    StoreFull,
    CutBody,
    Rejected { code: u32 },
    BadReplyAddress,
    StoreRefused,
    BadSetting,
}

// Where a fault arose.
#[derive(Clone, Copy, Debug, PartialEq, Eq)]
pub enum Layer {
    Clear,
    Page,
    Text,
    Protocol,
    Session,
    Store,
    Approver,
    Making,
}

#[derive(Clone, Copy, Debug, PartialEq, Eq)]
pub enum Status {
    Ok = 200,
    BadRequest = 400,
    Forbidden = 403,
    BadRange = 416,
    ServerError = 500,
    NotImplemented = 501,
    Unavailable = 503,
}

// Who speaks in a refusal.
#[derive(Clone, Copy, Debug, PartialEq, Eq)]
pub enum Context {
    Intake = 5,
    Approver = 7,
}

#[derive(Clone, Copy, Debug, PartialEq, Eq)]
pub struct Refusal {
    pub status: Status,
    pub code: u32,
    pub context: Context,
}

// What is acknowledged.
#[derive(Clone, Copy, Debug, PartialEq, Eq)]
pub enum Answer {
    Silent,
    Accepted,
    Refused(Refusal),
}

#[derive(Clone, Copy, Debug, PartialEq, Eq)]
pub struct Report {
    pub number: u8,
    pub layer: Layer,
    pub place: usize,
    pub answer: Answer,
}

// Something in the message is wrong.
const INVALID: Answer = Answer::Refused(Refusal {
    status: Status::BadRequest,
    code: 0x80070057,
    context: Context::Intake,
});

// The protocol's codes are numbers, since a no of the approver's brings any other.
const DENIED: u32 = 0x80070005;

const NO_SESSION: u32 = 0x8020001f;

const AT_APPROVER: u32 = 0xa0000003;

const TOO_LARGE: u32 = 0x80200020;

const GAP: u32 = 0;

const CROWDED: u32 = 0xa0000001;

const SPENT: u32 = 0xa0000002;

const STORE_FULL: u32 = 0x80070112;

const UNEXPECTED: u32 = 0x8000ffff;

fn by(context: Context, status: Status, code: u32) -> Answer
    ensures { result ≡ by context status code }
{
    Answer::Refused(Refusal {
        status,
        code,
        context,
    })
}

fn refused(status: Status, code: u32) -> Answer
    ensures { result ≡ by Context.Intake status code }
{
    by(Context::Intake, status, code)
}

impl Outcome {
    // A report has all that its outcome has: no two outcomes share one.
    pub fn report(self) -> Report
        ensures value { result ≡ report_of self }
        ensures apart { (other : Outcome) → report_of other ≡ result → other ≡ self }
    {
        self.row()
    }

    // The numbers stand in the rows: no cast gives them, since some outcomes hold a line or a code.
    fn row(self) -> Report
        ensures { result ≡ report_of self }
    {
        use Context::Approver;
        use Status::{BadRange, Forbidden, NotImplemented, ServerError, Unavailable};
        let (number, layer, place, answer) = match self {
            Outcome::Done => (0, Layer::Clear, 0, Answer::Accepted),
            Outcome::ShortPage => (1, Layer::Page, 0, Answer::Silent),
            Outcome::UnfinishedHead => (2, Layer::Text, 0, Answer::Silent),
            Outcome::BadHead { line } => (3, Layer::Text, line, INVALID),
            Outcome::RepeatedField { line } => (4, Layer::Text, line, INVALID),
            Outcome::BadPacket { line } => (5, Layer::Protocol, line, INVALID),
            Outcome::UploadsOff => (6, Layer::Protocol, 0, refused(NotImplemented, DENIED)),
            Outcome::NoSharedProtocol => (7, Layer::Protocol, 0, INVALID),
            Outcome::FolderDestination => (8, Layer::Protocol, 0, INVALID),
            Outcome::NoSession => (9, Layer::Session, 0, refused(ServerError, NO_SESSION)),
            Outcome::AtApprover => (10, Layer::Session, 0, refused(Unavailable, AT_APPROVER)),
            Outcome::Incomplete => (11, Layer::Session, 0, INVALID),
            Outcome::WrongRange { line } => (12, Layer::Session, line, INVALID),
            Outcome::TooLarge => (13, Layer::Session, 0, refused(ServerError, TOO_LARGE)),
            Outcome::Gap => (14, Layer::Session, 0, refused(BadRange, GAP)),
            Outcome::DestinationStands => (15, Layer::Session, 0, refused(Forbidden, DENIED)),
            Outcome::TooManySessions => (16, Layer::Session, 0, refused(Unavailable, CROWDED)),
            Outcome::SerialsSpent => (17, Layer::Session, 0, refused(Unavailable, SPENT)),
            Outcome::StoreFull => (18, Layer::Store, 0, refused(ServerError, STORE_FULL)),
            Outcome::CutBody => (19, Layer::Session, 0, Answer::Silent),
            Outcome::Rejected { code } => (20, Layer::Approver, 0, by(Approver, ServerError, code)),
            Outcome::BadReplyAddress => (21, Layer::Approver, 0, INVALID),
            Outcome::StoreRefused => (22, Layer::Store, 0, refused(ServerError, UNEXPECTED)),
            Outcome::BadSetting => (23, Layer::Making, 0, Answer::Silent),
        };
        Report {
            number,
            layer,
            place,
            answer,
        }
    }
}

// What came of a call, in words.
impl fmt::Display for Outcome {
    fn fmt<W: fmt::Write>(&self, f: &mut fmt::Formatter<W>) -> fmt::Result {
        f.write_str(match self {
            Outcome::Done => "done",
            Outcome::ShortPage => "the page for the acknowledgement is too short",
            Outcome::UnfinishedHead => "the head has not ended yet",
            Outcome::BadHead { .. } => "the head is bad",
            Outcome::RepeatedField { .. } => "a known field stands twice",
            Outcome::BadPacket { .. } => "the packet is bad",
            Outcome::UploadsOff => "uploads are off",
            Outcome::NoSharedProtocol => "no protocol is shared",
            Outcome::FolderDestination => "the destination ends in a slash",
            Outcome::NoSession => "no live session matches",
            Outcome::AtApprover => "the session is at the approver",
            Outcome::Incomplete => "the session is still receiving",
            Outcome::WrongRange { .. } => "the range is wrong",
            Outcome::TooLarge => "too large",
            Outcome::Gap => "there is a gap before the fragment",
            Outcome::DestinationStands => "the destination stands already",
            Outcome::TooManySessions => "too many sessions are live",
            Outcome::SerialsSpent => "the serials are spent",
            Outcome::StoreFull => "the store is full",
            Outcome::CutBody => "the body is cut off",
            Outcome::Rejected { .. } => "the approver said no",
            Outcome::BadReplyAddress => "the reply address is bad",
            Outcome::StoreRefused => "the store broke its word",
            Outcome::BadSetting => "a setting is broken",
        })
    }
}

impl Layer {
    pub fn name(self) -> &'static str
        ensures { result.now ≡ name_of self }
    {
        match self {
            Layer::Clear => "clear",
            Layer::Page => "page",
            Layer::Text => "text",
            Layer::Protocol => "protocol",
            Layer::Session => "session",
            Layer::Store => "store",
            Layer::Approver => "approver",
            Layer::Making => "making",
        }
    }
}

impl fmt::Display for Layer {
    ghost output = { λ layer. Some (name_of layer) };

    fn fmt<W: fmt::Write>(&self, f: &mut fmt::Formatter<W>) -> fmt::Result {
        f.write_str(self.name())
    }
}

impl Status {
    pub fn number(self) -> u16
        ensures { result ≡ number_of self }
    {
        self as u16
    }

    // The reason phrase that the standard prints for the status, as the bytes that go into a page.
    pub fn phrase(self) -> &'static [u8]
        ensures { result.now ≡ phrase_of self }
    {
        match self {
            Status::Ok => b"OK",
            Status::BadRequest => b"Bad Request",
            Status::Forbidden => b"Forbidden",
            Status::BadRange => b"Requested range not satisfiable",
            Status::ServerError => b"Internal Server Error",
            Status::NotImplemented => b"Not Implemented",
            Status::Unavailable => b"Service Unavailable",
        }
    }
}

impl Context {
    pub fn number(self) -> u8
        ensures { result ≡ context_of self }
    {
        self as u8
    }
}
