// A message: read, judged and acted on, and acknowledged.
ghost use Rattle.std.specs.Prelude.{◌≡◌, ◌+◌, ◌<◌, ◌≤◌, true, ◌++◌, map, length, drop, Result, None, Ok, Err, IfSome, IfOk};
ghost use Rattle.ack.specs.Text.{ack_bytes};
ghost use Rattle.ack.specs.Told.{ack_of, handed_over};
ghost use Rattle.packet.specs.Packets.{packet_of, request};
ghost use Rattle.outcome.specs.declared.Outcome.{Outcome};
ghost use Rattle.session.specs.Plans.{found, plan_of, with_row};
ghost use Rattle.session.specs.Sessions.{row_of};
ghost use Rattle.session.specs.Steps.{MessageDone, message_outcome, message_used};
ghost use Rattle.session.specs.Told.{message_ack, message_changes, newly_away};
ghost use Rattle.intake_core.specs.declared.faults.Refused.{Refused};
ghost use Rattle.intake_core.specs.declared.messages.Acted.{Acted};
ghost use Rattle.intake_core.specs.Worlds.{Acting, Changed, Received, Shows, Visited, live_plan, notice_for, noticed, outcome_in, row_in, world_of};

use crate::faults::Refused;
use crate::intake::Intake;
use crate::notice::Notice;
use crate::replies::{Reply, progress_of, written};
use crate::steps::Slot;
use ack::{Call, LEAST_PAGE, Progress};
use ids::SessionId;
use outcome::Outcome;
use packet::{Action, Packet, read_packet};
use session::{ROWS, Session, Wanted, first_row};
use store::Store;

// What a request came to: its outcome, what is told of it, and a notice if its session has newly gone to the approver.
pub(crate) struct Acted {
    pub(crate) outcome: Outcome,
    pub(crate) call: Call,
    pub(crate) notice: Option<Notice>,
}

impl Acted {
    // No session has newly gone to the approver.
    fn unnoticed(outcome: Outcome, call: Call) -> Acted
        ensures outcome { result.outcome ≡ outcome }
        ensures call { result.call ≡ call }
        ensures notice { result.notice ≡ None }
    {
        Acted {
            outcome,
            call,
            notice: None,
        }
    }
}

impl<S: Store> Intake<S> {
    // The row of the session that an id and a path name.
    fn find(&self, id: SessionId, path: &[u8]) -> Option<usize>
        ensures value { result ≡ found self.now.settings (world_of S.Store.meaning self.now) id path.now }
        ensures within { IfSome result (λ i. i < 16) }
    {
        if id.site != self.settings.site {
            return None;
        }
        let serial = id.serial;
        first_row(&self.rows, Wanted::Named { serial, path })
    }

    // Lends a row to a request that found it.
    fn visit(&mut self, row: Option<usize>, packet: &Packet<'_>) -> Result<Outcome, Refused>
        requires inside { IfSome row (λ i. i < 16) }
        ensures visited { Visited S.Store.made self.old.settings (world_of S.Store.meaning self.old) (request packet.now) (with_row (world_of S.Store.meaning self.old) row (live_plan self.old.settings (world_of S.Store.meaning self.old) (request packet.now) packet.now.action)) self.old.store result (world_of S.Store.meaning self.new) self.new.store }
        ensures settings { self.new.settings ≡ self.old.settings }
    {
        let i = row.ok_or(Outcome::NoSession)?;
        let row = &mut self.rows[i];
        let mut slot = Slot {
            settings: self.settings,
            clock: self.clock,
            store: &mut self.store,
            number: i,
        };
        slot.settle(row, packet)
    }

    // A close or a cancellation.
    fn finish(&mut self, id: SessionId, packet: &Packet<'_>) -> Outcome
        ensures finished { (r : Result Outcome Refused) × (result ≡ outcome_in r) × Visited S.Store.made self.old.settings (world_of S.Store.meaning self.old) (request packet.now) (with_row (world_of S.Store.meaning self.old) (found self.old.settings (world_of S.Store.meaning self.old) id packet.now.path.now) (live_plan self.old.settings (world_of S.Store.meaning self.old) (request packet.now) packet.now.action)) self.old.store r (world_of S.Store.meaning self.new) self.new.store }
        ensures settings { self.new.settings ≡ self.old.settings }
    {
        let row = self.find(id, packet.path);
        outcome_in(self.visit(row, packet))
    }

    // What a request comes to. Only a ping is answered while uploads are off.
    fn perform(&mut self, packet: &Packet<'_>) -> Acted
        ensures acting { Acting S.Store.made self.old.settings (world_of S.Store.meaning self.old) (request packet.now) (plan_of self.old.settings (world_of S.Store.meaning self.old) (request packet.now)) self.old.store result (world_of S.Store.meaning self.new) self.new.store }
        ensures settings { self.new.settings ≡ self.old.settings }
    {
        match packet.action {
            Action::Ping => Acted::unnoticed(Outcome::Done, Call::Ping),
            _ if !self.settings.uploads => Acted::unnoticed(Outcome::UploadsOff, Call::Unread),
            Action::Create { shared } => {
                let id = SessionId {
                    site: self.settings.site,
                    serial: self.next,
                };
                Acted::unnoticed(outcome_in(self.create(shared, packet)), Call::Create(id))
            }
            // its session is told, and newly at the approver it is noticed
            Action::Fragment { id, .. } => {
                let row = self.find(id, packet.path);
                let result = self.visit(row, packet);
                let progress = progress_in(&self.rows, row);
                Acted {
                    outcome: outcome_in(result),
                    call: Call::Fragment(id, progress),
                    notice: notice_for(result, &progress, id.serial),
                }
            }
            Action::Close { id } => Acted::unnoticed(self.finish(id, packet), Call::Close(id)),
            Action::Cancel { id } => Acted::unnoticed(self.finish(id, packet), Call::Cancel(id)),
        }
    }

    // Acts on a request that was read, and tells what it came to. A function of its own, so that a message that cannot be
    // read does not pay for clearing the room that this needs.
    #[inline(never)]
    fn heed(&mut self, packet: &Packet<'_>, used: usize, page: &mut [u8]) -> Reply
        requires used { used ≡ packet.now.head_size + length packet.now.body.now }
        requires page { 1024 ≤ length page.old }
        ensures heeded { (a : Acted) × Received S.Store.made self.old.settings (world_of S.Store.meaning self.old) (Ok (request packet.now)) self.old.store (Ok (a, result.used)) (world_of S.Store.meaning self.new) self.new.store × (result.outcome ≡ a.outcome) × (result.length ≡ length (ack_bytes (ack_of a.outcome a.call))) × (page.new ≡ ack_bytes (ack_of a.outcome a.call) ++ drop (length (ack_bytes (ack_of a.outcome a.call))) page.old) × (noticed result.notice ≡ noticed a.notice) }
        ensures fits { result.length ≤ length page.old }
        ensures settings { self.new.settings ≡ self.old.settings }
    {
        let Acted {
            outcome,
            call,
            notice,
        } = self.perform(packet);
        Reply {
            outcome,
            used,
            length: written(page, outcome, &call),
            notice,
        }
    }

    // Reads a request and acts on it.
    fn receive(&mut self, input: &[u8], page: &mut [u8]) -> Result<Reply, Refused>
        requires { 1024 ≤ length page.old }
        ensures received { elim result [ Ok r ↦ (a : Acted) × Received S.Store.made self.old.settings (world_of S.Store.meaning self.old) (packet_of input.now) self.old.store (Ok (a, r.used)) (world_of S.Store.meaning self.new) self.new.store × (r.outcome ≡ a.outcome) × (r.length ≡ length (ack_bytes (ack_of a.outcome a.call))) × (page.new ≡ ack_bytes (ack_of a.outcome a.call) ++ drop (length (ack_bytes (ack_of a.outcome a.call))) page.old) × (noticed r.notice ≡ noticed a.notice) | Err e ↦ Received S.Store.made self.old.settings (world_of S.Store.meaning self.old) (packet_of input.now) self.old.store (Err e) (world_of S.Store.meaning self.new) self.new.store × (page.new ≡ page.old) ] }
        ensures within { IfOk result (λ r. r.used ≤ length input.now) }
        ensures fits { IfOk result (λ r. r.length ≤ length page.old) }
        ensures settings { self.new.settings ≡ self.old.settings }
    {
        let packet = read_packet(input)?;
        let used = packet.head_size + packet.body.len();
        Ok(self.heed(&packet, used, page))
    }

    // A message, whole, damaged or broken off: one outcome, and its acknowledgement at the front of the page.
    pub fn message(&mut self, input: &[u8], page: &mut [u8]) -> Reply
        ensures outcome { result.outcome ≡ message_outcome self.old.settings (world_of S.Store.meaning self.old) (length page.old) input.now }
        ensures done { MessageDone self.old.settings (world_of S.Store.meaning self.old) (length page.old) input.now (world_of S.Store.meaning self.new) }
        ensures account { Changed S.Store.made self.old.store (message_changes self.old.settings (world_of S.Store.meaning self.old) (length page.old) input.now) self.new.store }
        ensures settings { self.new.settings ≡ self.old.settings }
        ensures page { page.new ≡ (ack_bytes (message_ack self.old.settings (world_of S.Store.meaning self.old) (length page.old) input.now (world_of S.Store.meaning self.new))) ++ drop (length (ack_bytes (message_ack self.old.settings (world_of S.Store.meaning self.old) (length page.old) input.now (world_of S.Store.meaning self.new)))) page.old }
        ensures length { result.length ≡ length (ack_bytes (message_ack self.old.settings (world_of S.Store.meaning self.old) (length page.old) input.now (world_of S.Store.meaning self.new))) }
        ensures fits { result.length ≤ length page.old }
        ensures used { result.used ≡ message_used (length page.old) input.now }
        ensures within { result.used ≤ length input.now }
        ensures notice { noticed result.notice ≡ newly_away (map row_of self.old.rows) (map row_of self.new.rows) }
    {
        if page.len() < LEAST_PAGE {
            return Reply {
                outcome: Outcome::ShortPage,
                used: 0,
                length: 0,
                notice: None,
            };
        }
        match self.receive(input, page) {
            Ok(reply) => reply,
            Err(Refused { outcome }) => Reply {
                outcome,
                used: input.len(),
                length: written(page, outcome, &Call::Unread),
                notice: None,
            },
        }
    }
}

// What is told of the session in a row, if there is one.
fn progress_in(rows: &[Option<Session>; ROWS], row: Option<usize>) -> Option<Progress>
    requires { IfSome row (λ i. i < 16) }
    ensures { Shows result (row_in (map row_of rows.now) row) }
{
    progress_of(&rows[row?])
}

fn outcome_in(res: Result<Outcome, Refused>) -> Outcome
    ensures { result ≡ outcome_in res }
{
    res.unwrap_or_else(|refused| refused.outcome)
}

// A notice for a session that a whole fragment has brought to the approver.
fn notice_for(
    res: Result<Outcome, Refused>,
    found: &Option<Progress>,
    serial: u64,
) -> Option<Notice>
    ensures { noticed result ≡ notice_for res (handed_over found.now) serial }
{
    let away = found
        .as_ref()
        .is_some_and(|progress| progress.stage.is_away());
    (away && matches!(res, Ok(Outcome::Done))).then(|| Notice::hand_out(serial))
}
