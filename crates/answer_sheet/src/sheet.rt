// The sheet: every number, with each kind of call for which its acknowledgement differs.
ghost use Rattle.std.specs.Prelude.{◌≡◌, Some};

use ack::{Call, LEAST_PAGE, Progress, Stage, acknowledge};
use anyhow::Context;
use ids::SessionId;
use outcome::Outcome;
use reply::ReplyAddress;
use std::fmt;
use std::str::from_utf8;

const ID: SessionId = SessionId {
    site: 1,
    serial: 0x2a,
};

// The line above an acknowledgement.
#[derive(Clone, Copy)]
struct Head<'a> {
    outcome: Outcome,
    call: &'a Call,
}

// The sheet's own words, of a session that may not be there.
fn state(found: &Option<Progress>) -> &'static str {
    match found.as_ref().map(|progress| &progress.stage) {
        None => "no session",
        Some(Stage::Receiving) => "receiving",
        Some(Stage::AtApprover) => "at the approver",
        Some(Stage::Ready(_)) => "ready",
    }
}

impl fmt::Display for Head<'_> {
    fn fmt<W: fmt::Write>(&self, f: &mut fmt::Formatter<W>) -> fmt::Result {
        write!(f, "{}: {}", self.outcome.report().number, self.outcome)?;
        match self.call {
            Call::Unread => Ok(()),
            Call::Ping => write!(f, " (ping)"),
            Call::Create(_) => write!(f, " (create)"),
            Call::Fragment(_, found) => write!(f, " (fragment, {})", state(found)),
            Call::Close(_) => write!(f, " (close)"),
            Call::Cancel(_) => write!(f, " (cancel)"),
            Call::Answer(_, found) => write!(f, " (answer, {})", state(found)),
        }
    }
}

// Each line behind two spaces; the blank line as it is. No Display, since bytes that are no text are an error of their own.
fn print_bytes(rt: &impl Print, bytes: &[u8]) -> anyhow::Result<()> {
    let text = from_utf8(bytes)?;
    for line in text.lines() {
        if line.is_empty() {
            println!(rt; "")?;
        } else {
            println!(rt; "  {line}")?;
        }
    }
    Ok(())
}

fn show(rt: &impl Print, outcome: Outcome, call: &Call) -> anyhow::Result<()> {
    println!(rt; "{}", Head { outcome, call })?;
    let mut page = [0; LEAST_PAGE];
    match acknowledge(&mut page, outcome, call) {
        Ok(0) => println!(rt; "  (no acknowledgement)\n")?,
        Ok(length) => print_bytes(rt, &page[..length])?,
        Err(_) => println!(rt; "  (the page is too short)\n")?,
    }
    Ok(())
}

fn found(received: u64, stage: Stage) -> Option<Progress>
    ensures { result ≡ Some (record { received = received; stage = stage }) }
{
    Some(Progress { received, stage })
}

fn ready(address: &[u8]) -> anyhow::Result<Stage> {
    let address = ReplyAddress::new(address).context("no reply address")?;
    Ok(Stage::Ready(address))
}

fn print_accepted(rt: &impl Print) -> anyhow::Result<()> {
    let ready_alone = found(200, ready(b"")?);
    let with_reply = found(200, ready(b"/replies/42")?);
    let calls = [
        Call::Create(ID),
        Call::Fragment(ID, found(150, Stage::Receiving)),
        Call::Fragment(ID, ready_alone),
        Call::Fragment(ID, found(200, Stage::AtApprover)),
        Call::Answer(ID, ready_alone),
        Call::Answer(ID, with_reply),
        Call::Close(ID),
        Call::Cancel(ID),
        Call::Ping,
    ];
    for call in &calls {
        show(rt, Outcome::Done, call)?;
    }
    Ok(())
}

fn print_unread(rt: &impl Print) -> anyhow::Result<()> {
    let line = 40;
    let outcomes = [
        Outcome::ShortPage,
        Outcome::UnfinishedHead,
        Outcome::BadHead { line },
        Outcome::RepeatedField { line },
        Outcome::BadPacket { line },
    ];
    for outcome in outcomes {
        show(rt, outcome, &Call::Unread)?;
    }
    Ok(())
}

fn print_refused(rt: &impl Print) -> anyhow::Result<()> {
    let line = 120;
    let code = 0x80004005;
    let create = Call::Create(ID);
    let close = Call::Close(ID);
    let fragment = Call::Fragment(ID, found(100, Stage::Receiving));
    let answer = Call::Answer(ID, found(200, Stage::Receiving));
    let away = Call::Fragment(ID, found(200, Stage::AtApprover));
    let with_reply = Call::Fragment(ID, found(200, ready(b"/replies/42")?));
    let refused = [
        (Outcome::UploadsOff, create),
        (Outcome::NoSharedProtocol, create),
        (Outcome::FolderDestination, create),
        (Outcome::NoSession, Call::Fragment(ID, None)),
        (Outcome::AtApprover, away),
        (Outcome::AtApprover, close),
        (Outcome::Incomplete, close),
        (Outcome::WrongRange { line }, fragment),
        (Outcome::TooLarge, with_reply),
        (Outcome::Gap, fragment),
        (Outcome::DestinationStands, create),
        (Outcome::TooManySessions, create),
        (Outcome::SerialsSpent, create),
        (Outcome::StoreFull, fragment),
        (Outcome::StoreFull, close),
        (Outcome::CutBody, fragment),
        (Outcome::Rejected { code }, answer),
        (Outcome::BadReplyAddress, answer),
        (Outcome::StoreRefused, fragment),
        (Outcome::BadSetting, Call::Unread),
    ];
    for (outcome, call) in &refused {
        show(rt, *outcome, call)?;
    }
    Ok(())
}

pub fn print(rt: &impl Print) -> anyhow::Result<()> {
    print_accepted(rt)?;
    print_unread(rt)?;
    print_refused(rt)
}
