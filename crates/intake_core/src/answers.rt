// The approver's answers.
ghost use Rattle.std.specs.Prelude.{◌≡◌, ◌≤◌, [], ◌∷◌, ◌++◌, map, length, drop, if◌then◌else◌, nat_lt};
ghost use Rattle.std.specs.Option.{option_map};
ghost use Rattle.ack.specs.Text.{ack_bytes};
ghost use Rattle.session.specs.Rules.{is_asked, ruled};
ghost use Rattle.session.specs.Sessions.{index_of, phase_of, row_of};
ghost use Rattle.session.specs.Steps.{AnswerDone, answer_outcome, word_outcome, word_phase};
ghost use Rattle.session.specs.Told.{answer_ack};
ghost use Rattle.intake_core.specs.Verdicts.{Answered, word_of};
ghost use Rattle.intake_core.specs.Worlds.{noticed, world_of};

use crate::intake::Intake;
use crate::notice::Notice;
use crate::replies::{Reply, progress_of, written};
use ack::{Call, LEAST_PAGE, Progress, Stage};
use ids::SessionId;
use outcome::Outcome;
use reply::ReplyAddress;
use session::{Session, Wanted, first_row, ruled_session};
use store::Store;

// The approver's verdict: a yes with a reply address, or a no with a code. A no is an answer and no error, so this is no `Result`.
#[derive(Clone, Copy)]
pub enum Verdict<'a> {
    Yes(&'a [u8]),
    No(u32),
}

impl Verdict<'_> {
    // What the verdict makes of the session that it is about, and what the answer comes to.
    fn ruling(self) -> (Stage, Outcome)
        ensures stage { phase_of result.0 ≡ word_phase (word_of self.entry) }
        ensures outcome { result.1 ≡ word_outcome (word_of self.entry) }
    {
        match self {
            Verdict::Yes(bytes) => ReplyAddress::new(bytes).map_or(
                (Stage::Receiving, Outcome::BadReplyAddress),
                |address| (Stage::Ready(address), Outcome::Done),
            ),
            Verdict::No(code) => (Stage::Receiving, Outcome::Rejected { code }),
        }
    }
}

// The session in a row goes to a stage.
fn rule(row: &mut Option<Session>, stage: Stage)
    ensures { row_of row.new ≡ option_map (ruled (phase_of stage)) (row_of row.old) }
{
    *row = row.map(|session| ruled_session(session, stage));
}

impl<S: Store> Intake<S> {
    // The verdict on the session that waits under a serial, and how far that session is after it.
    fn hear(&mut self, serial: u64, verdict: Verdict<'_>) -> (Outcome, Option<Progress>)
        ensures heard { Answered (world_of S.Store.meaning self.old) (index_of (is_asked serial) (map row_of self.old.rows)) (word_of verdict.entry) result.0 result.1 (world_of S.Store.meaning self.new) }
        ensures store { self.new.store ≡ self.old.store }
        ensures settings { self.new.settings ≡ self.old.settings }
    {
        let Some(i) = first_row(&self.rows, Wanted::Asked(serial)) else {
            return (Outcome::NoSession, None);
        };
        let (stage, outcome) = verdict.ruling();
        rule(&mut self.rows[i], stage);
        (outcome, progress_of(&self.rows[i]))
    }

    // The approver's answer to a notice. A page that is too short gets the notice back; else the notice is spent.
    pub fn answer(&mut self, notice: Notice, verdict: Verdict<'_>, page: &mut [u8]) -> Reply
        ensures outcome { result.outcome ≡ answer_outcome (world_of S.Store.meaning self.old) (length page.old) notice.serial (word_of verdict.entry) }
        ensures done { AnswerDone (world_of S.Store.meaning self.old) (length page.old) notice.serial (word_of verdict.entry) (world_of S.Store.meaning self.new) }
        ensures store { self.new.store ≡ self.old.store }
        ensures settings { self.new.settings ≡ self.old.settings }
        ensures page { page.new ≡ ack_bytes (answer_ack self.old.settings (world_of S.Store.meaning self.old) (length page.old) notice.serial (word_of verdict.entry) (world_of S.Store.meaning self.new)) ++ drop (length (ack_bytes (answer_ack self.old.settings (world_of S.Store.meaning self.old) (length page.old) notice.serial (word_of verdict.entry) (world_of S.Store.meaning self.new)))) page.old }
        ensures length { result.length ≡ length (ack_bytes (answer_ack self.old.settings (world_of S.Store.meaning self.old) (length page.old) notice.serial (word_of verdict.entry) (world_of S.Store.meaning self.new))) }
        ensures fits { result.length ≤ length page.old }
        ensures used { result.used ≡ 0 }
        ensures notice { noticed result.notice ≡ (if nat_lt (length page.old) 1024 then notice.serial ∷ [] else []) }
    {
        if page.len() < LEAST_PAGE {
            return Reply {
                outcome: Outcome::ShortPage,
                used: 0,
                length: 0,
                notice: Some(notice),
            };
        }
        let serial = notice.spend();
        let (outcome, found) = self.hear(serial, verdict);
        let id = SessionId {
            site: self.settings.site,
            serial,
        };
        let length = written(page, outcome, &Call::Answer(id, found));
        Reply {
            outcome,
            used: 0,
            length,
            notice: None,
        }
    }
}
