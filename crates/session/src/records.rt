// The records that an intake keeps.
ghost use Rattle.std.specs.Prelude.{◌≡◌};

use crate::destination::Destination;
use ack::{Progress, Stage};

#[derive(Clone, Copy)]
pub struct Settings {
    pub site: u64,
    pub first_serial: u64,
    // the most bytes of a bundle
    pub maximum: u64,
    pub uploads: bool,
    pub overwriting: bool,
    // whether the approver is told of a whole bundle
    pub approver: bool,
}

#[derive(Clone, Copy)]
pub struct Session {
    pub serial: u64,
    pub destination: Destination,
    // the bytes kept so far
    pub received: u64,
    pub total: Option<u64>,
    pub stage: Stage,
    // the clock at its last message of number 0
    pub stamp: u64,
}

impl Session {
    // How far the session is.
    pub fn progress(&self) -> Progress
        ensures received { result.received ≡ self.now.received }
        ensures stage { result.stage ≡ self.now.stage }
    {
        Progress {
            received: self.received,
            stage: self.stage,
        }
    }
}
