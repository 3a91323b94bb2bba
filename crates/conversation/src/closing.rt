// The end of a run: every notice that is left gets its answer.
ghost use Rattle.std.specs.Prelude.{◌≡◌};

use ack::LEAST_PAGE;
use desk::settle;
use intake_core::{Intake, Notice, Verdict};
use store::Store;

// The code of a no that gives no reason.
pub const NO_REASON: u32 = 0x80004005;

// Answers each notice on the desk with a no, ends the intake and gives its store back as it was.
pub(crate) fn close<S: Store>(mut intake: Intake<S>, mut desk: Vec<Notice>) -> S
    ensures { result ≡ intake.store }
{
    // an iterator may be let go with notices left in it, so a `for` does not take them
    while let Some(notice) = desk.pop() {
        settle(
            &mut intake,
            notice,
            Verdict::No(NO_REASON),
            &mut [0; LEAST_PAGE],
        );
    }
    desk.destroy_empty();
    intake.into_store()
}
