// The intake: setting up, message, answer and tick, over any store that keeps its meaning.
#![tactic(auto)]

mod answers;
mod calls;
mod faults;
mod intake;
mod messages;
mod notice;
mod replies;
mod steps;
mod ticks;

pub use answers::Verdict;
pub use calls::BadSetting;
pub use intake::Intake;
pub use notice::Notice;
pub use replies::Reply;
