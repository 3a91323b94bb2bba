// The volume: bundles written one behind the other and read back from the last byte.
#![tactic(auto)]

mod bundle;
mod read;
mod sample;
mod walk;
mod whole;
mod write;

pub use bundle::{BundleRef, Damage, Fault, Found, LONGEST_NAME, Refusal, Span, TRAILER};
pub use read::{check, find, last};
pub use sample::example;
pub use walk::{Bundles, newest_first};
pub use whole::{Lost, Unlisted, Unwritten, list, round_trip, write_all};
pub use write::{append, append_within};
