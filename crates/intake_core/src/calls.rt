// The calls of an intake.
ghost use Rattle.std.specs.Prelude.{◌≡◌, ℕ, ◌<◌, ◌≤◌, List, [], map, length, replicate, None, Some, Ok, Err, codes};
ghost use Rattle.session.specs.Plans.{create_plan};
ghost use Rattle.session.specs.Sessions.{path_of};
ghost use Rattle.session.specs.Steps.{Opened, Started};
ghost use Rattle.store.specs.Meaning.Change.{clearing};
ghost use Rattle.intake_core.specs.Worlds.{Changed, Created, clearings, world_of};

use crate::faults::Refused;
use crate::intake::Intake;
use outcome::Outcome;
use packet::Packet;
use session::{Destination, ROWS, Settings, Wanted, first_row, opened_session};
use std::error::Error;
use std::fmt;
use store::Store;

// A setting is broken: the store is given back as it was.
#[derive(Drop)]
#[derive_where(Debug)]
pub struct BadSetting<S: Store> {
    #[derive_where(skip)]
    pub store: S,
    pub outcome: Outcome,
}

impl<S: Store> fmt::Display for BadSetting<S> {
    ghost output = { λ _. Some (codes "a setting is broken") };

    fn fmt<W: fmt::Write>(&self, f: &mut fmt::Formatter<W>) -> fmt::Result {
        f.write_str("a setting is broken")
    }
}

impl<S: Store + Drop> Error for BadSetting<S> {}

fn cleared<S: Store>(mut store: S) -> S
    ensures names { (n : List ℕ) → (S.Store.meaning result).catalog n ≡ (S.Store.meaning store).catalog n }
    ensures account { Changed S.Store.made store (clearings 16) result }
    ensures emptied { (i : ℕ) → i < 16 → (S.Store.meaning result).held i ≡ [] }
{
    for i in 0..ROWS {
        store.clear(i);
    }
    store
}

impl<S: Store> Intake<S> {
    // An intake with no session over a store whose slots are cleared, its clock at 0; a maximum of 0 is refused and the
    // store given back.
    pub fn new(store: S, settings: Settings) -> Result<Intake<S>, BadSetting<S>>
        ensures account { elim result [ Ok k ↦ (k.settings ≡ settings) × Changed S.Store.made store (clearings 16) k.store | Err e ↦ (e.store ≡ store) × (e.outcome ≡ Outcome.BadSetting) ] }
        ensures started { elim result [ Ok k ↦ Started settings (S.Store.meaning store) (world_of S.Store.meaning k) | Err e ↦ settings.maximum ≡ 0 ] }
    {
        if settings.maximum == 0 {
            return Err(BadSetting {
                store,
                outcome: Outcome::BadSetting,
            });
        }
        let store = cleared(store);
        Ok(Intake {
            settings,
            rows: [None; ROWS],
            next: settings.first_serial,
            clock: 0,
            store,
        })
    }

    // Ends the intake and gives its store back.
    pub fn into_store(self) -> S
        ensures { result ≡ self.store }
    {
        let Intake {
            settings: _,
            rows: _,
            next: _,
            clock: _,
            store,
        } = self;
        store
    }

    // Opens a session in a free row.
    fn open(&mut self, row: usize, destination: Destination)
        requires inside { row < 16 }
        requires more { self.old.next < 18446744073709551615 }
        ensures opened { Opened (world_of S.Store.meaning self.old) (path_of destination) row (world_of S.Store.meaning self.new) }
        ensures account { S.Store.made self.old.store (clearing row) self.new.store }
        ensures settings { self.new.settings ≡ self.old.settings }
    {
        let serial = self.next;
        self.store.clear(row);
        self.rows[row] = Some(opened_session(self.clock, serial, destination));
        self.next = serial + 1;
    }

    // Opens a session for a request's path in the lowest free row, or says why not.
    pub(crate) fn create(&mut self, shared: bool, packet: &Packet<'_>) -> Result<Outcome, Refused>
        ensures created { Created S.Store.made (create_plan self.old.settings (world_of S.Store.meaning self.old) shared packet.now.path.now) (world_of S.Store.meaning self.old) packet.now.path.now self.old.store result (world_of S.Store.meaning self.new) self.new.store }
        ensures settings { self.new.settings ≡ self.old.settings }
    {
        let path = packet.path;
        let stands = self.store.published_length(path).is_some();
        let free = first_row(&self.rows, Wanted::Free);
        let full = free.is_none();
        self.settings
            .create_fault(shared, path, stands, full, self.next)?;
        // `create_fault` has told a full table already; the type asks again
        let row = free.ok_or(Outcome::TooManySessions)?;
        self.open(row, Destination::new(path).unwrap());
        Ok(Outcome::Done)
    }
}
