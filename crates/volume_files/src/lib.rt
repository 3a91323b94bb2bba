// The commands of the volume tool: volumes in files, added to so that an interrupted add leaves the old file.
#![tactic(auto)]

mod command;
mod files;
mod grow;
mod trouble;

pub use command::{Command, read_command};
pub use files::obey;
pub use grow::{Unadded, grown};
pub use trouble::{Trouble, What};
