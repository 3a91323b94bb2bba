// The table of session records: the first row that is wanted.
ghost use Rattle.std.specs.Prelude.{◌≡◌, ◌<◌, map, IfSome};
ghost use Rattle.session.specs.Sessions.{index_of, row_of};
ghost use Rattle.session.specs.Wanted.{is_wanted};

use crate::records::Session;
use store::SLOTS;

// The rows of a table: each has the slot of its number.
pub const ROWS: usize = SLOTS;

// What a row is searched for. A value and no closure: the search is then one equation with a named test.
#[derive(Clone, Copy)]
pub enum Wanted<'a> {
    // no session
    Free,
    // the session of a serial and a path
    Named { serial: u64, path: &'a [u8] },
    // the session of a serial, at the approver
    Asked(u64),
}

fn is_wanted(row: &Option<Session>, wanted: Wanted<'_>) -> bool
    ensures { result ≡ is_wanted wanted.entry (row_of row.now) }
{
    match wanted {
        Wanted::Free => row.is_none(),
        Wanted::Named { serial, path } => row
            .as_ref()
            .is_some_and(|s| s.serial == serial && s.destination.as_bytes() == path),
        Wanted::Asked(serial) => row
            .as_ref()
            .is_some_and(|s| s.serial == serial && s.stage.is_away()),
    }
}

// The lowest row that is wanted.
pub fn first_row(rows: &[Option<Session>; ROWS], wanted: Wanted<'_>) -> Option<usize>
    ensures value { result ≡ index_of (is_wanted wanted.entry) (map row_of rows.now) }
    ensures within { IfSome result (λ i. i < 16) }
{
    rows.iter().position(|row| is_wanted(row, wanted))
}
