// What a message or an answer came to.
ghost use Rattle.std.specs.Prelude.{◌≡◌, ◌≤◌, ◌++◌, length, drop};
ghost use Rattle.ack.specs.Text.{ack_bytes};
ghost use Rattle.ack.specs.Told.{ack_of};
ghost use Rattle.session.specs.Sessions.{row_of};
ghost use Rattle.intake_core.specs.Worlds.{Shows};

use crate::notice::Notice;
use ack::{Call, Progress, acknowledge};
use outcome::Outcome;
use session::Session;

pub struct Reply {
    // its report has the number, the layer and the place
    pub outcome: Outcome,
    // the bytes of the input that are done with
    pub used: usize,
    // the bytes of the acknowledgement, at the front of the page
    pub length: usize,
    // of a message: a session has newly gone to the approver; of an answer: handed back, as the page was too short;
    // one field, since either way it is the duty that the caller now has
    pub notice: Option<Notice>,
}

// What is told of the session in a row.
pub(crate) fn progress_of(row: &Option<Session>) -> Option<Progress>
    ensures { Shows result (row_of row.now) }
{
    row.as_ref().map(Session::progress)
}

// The length of the acknowledgement that was written at the front of the page.
pub(crate) fn written(page: &mut [u8], outcome: Outcome, call: &Call) -> usize
    requires { 1024 ≤ length page.old }
    ensures length { result ≡ length (ack_bytes (ack_of outcome call.now)) }
    ensures fits { result ≤ length page.old }
    ensures page { page.new ≡ ack_bytes (ack_of outcome call.now) ++ drop (length (ack_bytes (ack_of outcome call.now))) page.old }
{
    acknowledge(page, outcome, call).unwrap()
}
