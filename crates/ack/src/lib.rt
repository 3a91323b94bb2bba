// Acknowledgements: which lines the outcome of a call asks for, and every byte of them.
#![tactic(auto)]

ghost use Rattle.std.specs.Prelude.{◌≡◌, ◌<◌, ◌≤◌, ◌++◌, length, drop, IfSome, IfOk, Ok, Err};
ghost use Rattle.std.specs.Option.{option_map};
ghost use Rattle.ack.specs.Back.{Sound};
ghost use Rattle.ack.specs.Lines.{told_by};
ghost use Rattle.ack.specs.Told.{accepted, ack_of, refused_as};
ghost use Rattle.ack.specs.Text.{ack_bytes, least_page};

use outcome::{Answer, Outcome, Refusal};
use page::Writer;
use write::{Lines, NOTHING};

mod told;
mod write;

pub use told::{Call, Progress, Stage};

// The least page that acknowledgements are written into.
pub const LEAST_PAGE: usize = 1024;

fn accepted(call: &Call) -> Option<Lines<'_>>
    ensures { option_map told_by result ≡ accepted call.now }
{
    match call {
        Call::Unread | Call::Ping => Some(NOTHING),
        Call::Create(id) => Some(Lines {
            opened: true,
            id: Some(*id),
            ..NOTHING
        }),
        Call::Fragment(_, Some(progress)) if progress.stage.is_away() => None,
        Call::Fragment(id, found) | Call::Answer(id, found) => Some(Lines {
            id: Some(*id),
            found: found.as_ref(),
            ..NOTHING
        }),
        Call::Close(id) | Call::Cancel(id) => Some(Lines {
            id: Some(*id),
            ..NOTHING
        }),
    }
}

fn refused(refusal: Refusal, call: &Call) -> Lines<'_>
    ensures { told_by result ≡ refused_as refusal call.now }
{
    let found = match call {
        Call::Fragment(_, found) | Call::Answer(_, found) => found.as_ref(),
        Call::Unread | Call::Ping | Call::Create(_) | Call::Close(_) | Call::Cancel(_) => None,
    };
    Lines {
        refusal: Some(refusal),
        found,
        ..NOTHING
    }
}

fn lines_of(outcome: Outcome, call: &Call) -> Option<Lines<'_>>
    ensures { option_map told_by result ≡ ack_of outcome call.now }
{
    match outcome.report().answer {
        Answer::Silent => None,
        Answer::Accepted => accepted(call),
        Answer::Refused(refusal) => Some(refused(refusal, call)),
    }
}

// Writes the acknowledgement of a call that came to an outcome, and gives its length, which is 0 where nothing is
// acknowledged: a count, which callers add up. A page that is too short is refused and not changed.
pub fn acknowledge(page: &mut [u8], outcome: Outcome, call: &Call) -> Result<usize, Outcome>
    ensures short { length page.old < least_page → (result ≡ Err Outcome.ShortPage) × (page.new ≡ page.old) }
    ensures length { least_page ≤ length page.old → result ≡ Ok (length (ack_bytes (ack_of outcome call.now))) }
    ensures within { IfOk result (λ n. n ≤ length page.old) }
    ensures page { least_page ≤ length page.old → page.new ≡ ack_bytes (ack_of outcome call.now) ++ drop (length (ack_bytes (ack_of outcome call.now))) page.old }
    ensures laws { least_page ≤ length page.old → IfSome (ack_of outcome call.now) Sound }
{
    if page.len() < LEAST_PAGE {
        return Err(Outcome::ShortPage);
    }
    let Some(lines) = lines_of(outcome, call) else {
        return Ok(0);
    };
    let mut writer = Writer::new(page, 0);
    lines.put(&mut writer);
    Ok(writer.at)
}
