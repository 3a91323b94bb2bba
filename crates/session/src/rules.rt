// The rules of a session's record: why a creation or a close is not taken, its verdict and its age.
ghost use Rattle.std.specs.Prelude.{◌≡◌};
ghost use Rattle.std.specs.Result.{result_err};
ghost use Rattle.session.specs.Rules.{close_fault, create_fault, ready_fault, forbidden, is_expired, is_folder, opened, ruled};
ghost use Rattle.session.specs.Sessions.{live, path_of, phase_of, row_of};

use crate::destination::Destination;
use crate::records::{Session, Settings};
use ack::Stage;
use outcome::Outcome;

// Seconds after its last message of number 0 at which a session ends: 14 days.
pub const LIFETIME: u64 = 1209600;

fn is_folder(path: &[u8]) -> bool
    ensures { result ≡ is_folder path.now }
{
    path.ends_with(b"/")
}

impl Settings {
    // Whether a destination that stands may not be overwritten.
    fn is_forbidden(&self, stands: bool) -> bool
        ensures { result ≡ forbidden self.now stands }
    {
        stands && !self.overwriting
    }

    // Why a close is not taken.
    pub fn close_fault(&self, stage: &Stage, stands: bool, can_publish: bool) -> Result<(), Outcome>
        ensures { result_err result ≡ close_fault self.now (phase_of stage.now) stands can_publish }
    {
        match stage {
            Stage::Receiving => Err(Outcome::Incomplete),
            Stage::AtApprover => Err(Outcome::AtApprover),
            Stage::Ready(_) => self.ready_fault(stands, can_publish),
        }
    }

    fn ready_fault(&self, stands: bool, can_publish: bool) -> Result<(), Outcome>
        ensures { result_err result ≡ ready_fault self.now stands can_publish }
    {
        if self.is_forbidden(stands) {
            return Err(Outcome::DestinationStands);
        }
        if !can_publish {
            return Err(Outcome::StoreFull);
        }
        Ok(())
    }

    // Why no session is opened.
    pub fn create_fault(
        &self,
        shared: bool,
        path: &[u8],
        stands: bool,
        full: bool,
        next: u64,
    ) -> Result<(), Outcome>
        ensures { result_err result ≡ create_fault self.now shared path.now stands full next }
    {
        if !shared {
            return Err(Outcome::NoSharedProtocol);
        }
        if is_folder(path) {
            return Err(Outcome::FolderDestination);
        }
        if self.is_forbidden(stands) {
            return Err(Outcome::DestinationStands);
        }
        if full {
            return Err(Outcome::TooManySessions);
        }
        if next == u64::MAX {
            return Err(Outcome::SerialsSpent);
        }
        Ok(())
    }
}

// A session just opened.
pub fn opened_session(clock: u64, serial: u64, destination: Destination) -> Session
    ensures { live result ≡ opened clock serial (path_of destination) }
{
    Session {
        serial,
        destination,
        received: 0,
        total: None,
        stage: Stage::Receiving,
        stamp: clock,
    }
}

// The record after the approver's verdict.
pub fn ruled_session(session: Session, stage: Stage) -> Session
    ensures { live result ≡ ruled (phase_of stage) (live session) }
{
    Session { stage, ..session }
}

pub fn is_expired(clock: u64, row: &Option<Session>) -> bool
    ensures { result ≡ is_expired clock (row_of row.now) }
{
    row.as_ref()
        .is_some_and(|session| clock.saturating_sub(session.stamp) >= LIFETIME)
}
