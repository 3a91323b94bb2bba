// A store over a volume: slots at the front of the region, the volume behind them.
#![tactic(auto)]

mod calls;
mod state;

pub use state::VolumeStore;
pub use store::BadRegion;
