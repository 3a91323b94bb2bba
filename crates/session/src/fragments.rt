// A fragment of a bundle: why it is not taken, and what it makes of a session's record.
ghost use Rattle.std.specs.Prelude.{◌≡◌, ◌+◌, ◌≤◌};
ghost use Rattle.std.specs.Result.{result_err};
ghost use Rattle.session.specs.Rules.{after_fragment, fragment_fault, grown, phase_at, too_large, wrong_range};
ghost use Rattle.session.specs.Sessions.{live, mapped_ok, phase_of};

use crate::records::{Session, Settings};
use ack::Stage;
use outcome::Outcome;
use packet::Range;
use reply::ReplyAddress;

// The most bytes of a fragment's body.
pub const MOST_BODY: u64 = 32768;

#[derive(Clone, Copy)]
pub struct Fragment {
    pub range: Range,
    // the line that the range stands in
    pub line: usize,
    // the bytes of body announced, and those that came
    pub announced: u64,
    pub present: usize,
}

impl Fragment {
    // The range runs backward or past the total, is not as long as the body announced, or the session has another total.
    fn is_wrong_range(&self, total: Option<u64>) -> bool
        ensures { result ≡ wrong_range total self.now.range self.now.announced }
    {
        let Range {
            first,
            last,
            total: whole,
        } = self.range;
        if last < first || whole <= last {
            return true;
        }
        self.announced != last - first + 1 || total.is_some_and(|t| t != whole)
    }

    fn is_too_large(&self, settings: &Settings) -> bool
        ensures { result ≡ too_large settings.now self.now.range self.now.announced }
    {
        self.announced > MOST_BODY || self.range.total > settings.maximum
    }
}

impl Settings {
    // The state after a whole fragment of a session that now holds `received` of `total` bytes.
    fn stage_at(&self, stage: Stage, received: u64, total: u64) -> Stage
        ensures { phase_of result ≡ phase_at self.now (phase_of stage) received total }
    {
        if !stage.is_receiving() || received != total {
            return stage;
        }
        if self.approver {
            Stage::AtApprover
        } else {
            Stage::Ready(ReplyAddress::empty())
        }
    }
}

impl Session {
    // Why a fragment is not taken, where its slot has `room` more bytes.
    fn fragment_fault(
        &self,
        settings: &Settings,
        fragment: &Fragment,
        room: usize,
    ) -> Result<(), Outcome>
        ensures { result_err result ≡ fragment_fault settings.now (live self.now) fragment.now.range fragment.now.line fragment.now.announced room }
    {
        let Range { first, last, .. } = fragment.range;
        if self.stage.is_away() {
            return Err(Outcome::AtApprover);
        }
        if fragment.is_wrong_range(self.total) {
            return Err(Outcome::WrongRange {
                line: fragment.line,
            });
        }
        if fragment.is_too_large(settings) {
            return Err(Outcome::TooLarge);
        }
        if self.received < first {
            return Err(Outcome::Gap);
        }
        if last >= self.received && last - self.received >= room as u64 {
            return Err(Outcome::StoreFull);
        }
        Ok(())
    }

    // The record after a fragment was taken whose body came with `present` bytes, whole or cut.
    fn grown(
        &self,
        settings: &Settings,
        clock: u64,
        range: Range,
        present: u64,
        whole: bool,
    ) -> Session
        requires { range.first + present ≤ range.total }
        ensures { live result ≡ grown settings.now clock (live self.now) range present whole }
    {
        let received = self.received.max(range.first + present);
        let cut = Session {
            received,
            total: Some(range.total),
            ..*self
        };
        if !whole {
            return cut;
        }
        Session {
            stage: settings.stage_at(self.stage, received, range.total),
            stamp: clock,
            ..cut
        }
    }

    // What a fragment makes of the record, or why it is not taken.
    pub fn judge_fragment(
        &self,
        settings: &Settings,
        clock: u64,
        fragment: &Fragment,
        room: usize,
    ) -> Result<Session, Outcome>
        ensures { mapped_ok live result ≡ after_fragment settings.now clock (live self.now) fragment.now.range fragment.now.line fragment.now.announced fragment.now.present room }
    {
        self.fragment_fault(settings, fragment, room)?;
        let present = fragment.announced.min(fragment.present as u64);
        let whole = present == fragment.announced;
        Ok(self.grown(settings, clock, fragment.range, present, whole))
    }
}
