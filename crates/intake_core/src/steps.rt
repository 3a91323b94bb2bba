// What a message makes of the session in one row and of the slot of that row.
ghost use Rattle.std.specs.Prelude.{◌≡◌, ◌<◌, ◌≤◌, length, drop, if◌then◌else◌};
ghost use Rattle.packet.specs.Packets.{request};
ghost use Rattle.session.specs.Plans.{is_whole};
ghost use Rattle.session.specs.Sessions.{live};
ghost use Rattle.intake_core.specs.Worlds.{Settled, Shut, Taken};

use crate::faults::Refused;
use ack::Stage;
use outcome::Outcome;
use packet::{Action, Packet, Range};
use session::{Fragment, Session, Settings};
use store::Store;

// The bytes past the first `skip`.
fn past(bytes: &[u8], skip: u64) -> &[u8]
    ensures { result.now ≡ drop skip bytes.now }
{
    &bytes[skip.min(bytes.len() as u64) as usize..]
}

// Whether all announced bytes came.
fn outcome_of(packet: &Packet<'_>) -> Outcome
    ensures { result ≡ (if is_whole (request packet.now) then Outcome.Done else Outcome.CutBody) }
{
    if packet.body.len() as u64 == packet.content_length {
        Outcome::Done
    } else {
        Outcome::CutBody
    }
}

// A slot of a store, lent with the settings and the clock that a message is judged by. Each method's clause `same_store`
// says that the store is still the one lent: a caller learns nothing of a store whose reference may have been exchanged.
#[derive(Drop)]
pub(crate) struct Slot<'a, S: Store> {
    pub(crate) settings: Settings,
    pub(crate) clock: u64,
    pub(crate) store: &'a mut S,
    pub(crate) number: usize,
}

impl<S: Store> Slot<'_, S> {
    // Adds what is new of a fragment's body and gives its session's new record, or says why not.
    fn take(
        &mut self,
        session: &Session,
        range: Range,
        at: usize,
        packet: &Packet<'_>,
    ) -> Result<Session, Refused>
        ensures taken { Taken S.Store.meaning S.Store.made self.old.settings self.old.clock self.old.number (request packet.now) range at (live session.now) self.old.store.now result self.new.store.now }
        ensures same_store { self.new.store.ghost_name ≡ self.old.store.ghost_name }
    {
        let fragment = Fragment {
            range,
            line: at,
            announced: packet.content_length,
            present: packet.body.len(),
        };
        let room = self.store.room(self.number);
        let grown = session.judge_fragment(&self.settings, self.clock, &fragment, room)?;
        let skip = session.received.saturating_sub(range.first);
        self.store.add(self.number, past(packet.body, skip))?;
        Ok(grown)
    }

    // Publishes the slot under the destination of its session, or says why not.
    fn publish(&mut self, session: &Session) -> Result<(), Refused>
        ensures shut { Shut S.Store.meaning S.Store.made self.old.settings self.old.number (live session.now) self.old.store.now result self.new.store.now }
        ensures same_store { self.new.store.ghost_name ≡ self.old.store.ghost_name }
    {
        let path = session.destination.as_bytes();
        let stands = self.store.published_length(path).is_some();
        let can = self.store.can_publish(self.number, path);
        self.settings.close_fault(&session.stage, stands, can)?;
        self.store.publish(self.number, path)?;
        Ok(())
    }

    // The slot's row is changed in place, by its session's state and the message together.
    pub(crate) fn settle(
        &mut self,
        row: &mut Option<Session>,
        packet: &Packet<'_>,
    ) -> Result<Outcome, Refused>
        ensures settled { Settled S.Store.meaning S.Store.made self.old.settings self.old.clock self.old.number (request packet.now) row.old self.old.store.now result row.new self.new.store.now }
        ensures same_store { self.new.store.ghost_name ≡ self.old.store.ghost_name }
    {
        let session = row.ok_or(Outcome::NoSession)?;
        match (&session.stage, &packet.action) {
            (Stage::AtApprover, Action::Fragment { .. } | Action::Close { .. }) => {
                Err(Outcome::AtApprover.into())
            }
            (Stage::Receiving, Action::Close { .. }) => Err(Outcome::Incomplete.into()),
            (Stage::Receiving | Stage::Ready(_), Action::Fragment { id: _, range, at }) => {
                *row = Some(self.take(&session, *range, *at, packet)?);
                Ok(outcome_of(packet))
            }
            (Stage::Ready(_), Action::Close { .. }) => {
                self.publish(&session)?;
                *row = None;
                Ok(Outcome::Done)
            }
            (_, Action::Cancel { .. }) => {
                self.store.clear(self.number);
                *row = None;
                Ok(Outcome::Done)
            }
            (_, Action::Create { .. } | Action::Ping) => Err(Outcome::NoSession.into()),
        }
    }
}
