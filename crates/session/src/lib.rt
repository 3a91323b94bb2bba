// A session of an upload: its record, the table of records, and the rules that decide what a message does to it.
#![tactic(auto)]

mod destination;
mod fragments;
mod paths;
mod records;
mod rules;
mod table;

pub use destination::Destination;
pub use fragments::{Fragment, MOST_BODY};
pub use records::{Session, Settings};
pub use rules::{LIFETIME, is_expired, opened_session, ruled_session};
pub use table::{ROWS, Wanted, first_row};
