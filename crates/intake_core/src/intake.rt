// What an intake holds.
use session::{ROWS, Session, Settings};
use store::Store;

pub struct Intake<S: Store> {
    // never changed: each method's clause `settings` says so, since passing them beside the rest would be longer
    pub(crate) settings: Settings,
    // a plain table, since a message is lent one row and writes it whole
    pub(crate) rows: [Option<Session>; ROWS],
    pub(crate) next: u64,
    pub(crate) clock: u64,
    pub(crate) store: S,
}
