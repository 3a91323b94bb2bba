// The clock of an intake.
ghost use Rattle.std.specs.Prelude.{◌≡◌, max, map};
ghost use Rattle.session.specs.Sessions.{row_of};
ghost use Rattle.session.specs.Steps.{Ticked};
ghost use Rattle.intake_core.specs.Ticks.{Swept, sweeps};
ghost use Rattle.intake_core.specs.Worlds.{Changed, world_of};

use crate::intake::Intake;
use session::{ROWS, Session, is_expired};
use store::Store;

impl<S: Store> Intake<S> {
    // Moves the clock to the larger reading, ends each session whose last message of number 0 is 14 days old, clears
    // its slot, and gives the number ended.
    pub fn tick(&mut self, reading: u64) -> usize
        ensures done { Ticked (world_of S.Store.meaning self.old) reading result (world_of S.Store.meaning self.new) }
        ensures account { Changed S.Store.made self.old.store (sweeps (max self.old.clock reading) (map row_of self.old.rows) 16) self.new.store }
        ensures settings { self.new.settings ≡ self.old.settings }
    {
        self.clock = self.clock.max(reading);
        sweep(self.clock, &mut self.rows, &mut self.store)
    }
}

// Ends the sessions that have expired, clears their slots, and gives the number ended. A row's number is its slot's.
fn sweep<S: Store>(clock: u64, rows: &mut [Option<Session>; ROWS], store: &mut S) -> usize
    ensures { Swept S.Store.meaning S.Store.made clock (map row_of rows.old) store.old result (map row_of rows.new) store.new }
{
    let mut ended: usize = 0;
    for (slot, row) in rows.iter_mut().enumerate() {
        if is_expired(clock, row) {
            store.clear(slot);
            *row = None;
            ended += 1;
        }
    }
    ended
}
