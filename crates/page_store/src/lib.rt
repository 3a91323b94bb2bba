// A store over a region cut into pages: a slot or a name owns as few pages as its bytes need.
#![tactic(auto)]

mod calls;
mod chain;
mod name;
mod pages;
mod state;
mod stretch;
mod table;
mod transfer;

pub use state::PageStore;
pub use store::BadRegion;
