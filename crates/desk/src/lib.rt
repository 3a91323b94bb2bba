// Answers to notices, each on a page that suffices, so that none is handed back.
#![tactic(auto)]

ghost use Rattle.std.specs.Prelude.{◌≡◌, ◌≤◌, ◌++◌, length, drop};
ghost use Rattle.ack.specs.Text.{ack_bytes};
ghost use Rattle.session.specs.Steps.{AnswerDone, answer_outcome};
ghost use Rattle.session.specs.Told.{answer_ack};
ghost use Rattle.intake_core.specs.Verdicts.{word_of};
ghost use Rattle.intake_core.specs.Worlds.{world_of};

use ack::LEAST_PAGE;
use intake_core::{Intake, Notice, Reply, Verdict};
use outcome::Outcome;
use store::Store;

// What an answer came to, and the bytes of its acknowledgement, at the front of the page.
#[derive(Clone, Copy)]
pub struct Settled {
    pub outcome: Outcome,
    pub length: usize,
}

// Answers a notice with a verdict.
pub fn settle<S: Store>(
    intake: &mut Intake<S>,
    notice: Notice,
    verdict: Verdict<'_>,
    page: &mut [u8; LEAST_PAGE],
) -> Settled
    ensures outcome { result.outcome ≡ answer_outcome (world_of S.Store.meaning intake.old) 1024 notice.serial (word_of verdict.entry) }
    ensures done { AnswerDone (world_of S.Store.meaning intake.old) 1024 notice.serial (word_of verdict.entry) (world_of S.Store.meaning intake.new) }
    ensures store { intake.new.store ≡ intake.old.store }
    ensures settings { intake.new.settings ≡ intake.old.settings }
    ensures page { let told = ack_bytes (answer_ack intake.old.settings (world_of S.Store.meaning intake.old) 1024 notice.serial (word_of verdict.entry) (world_of S.Store.meaning intake.new)) in page.new ≡ told ++ drop (length told) page.old }
    ensures length { result.length ≡ length (ack_bytes (answer_ack intake.old.settings (world_of S.Store.meaning intake.old) 1024 notice.serial (word_of verdict.entry) (world_of S.Store.meaning intake.new))) }
    ensures fits { result.length ≤ 1024 }
{
    let Reply {
        outcome,
        used: _,
        length,
        notice: again,
    } = intake.answer(notice, verdict, page);
    let None = again else {
        unreachable();
    };
    Settled { outcome, length }
}
