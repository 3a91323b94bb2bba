// The duty to have a whole bundle approved. It cannot be let go: only an answer spends it.
ghost use Rattle.std.specs.Prelude.{◌≡◌};

// A plain number, so that nothing of the intake is borrowed while the approver thinks.
pub struct Notice {
    serial: u64,
}

impl Notice {
    pub(crate) fn hand_out(serial: u64) -> Notice
        ensures { result.serial ≡ serial }
    {
        Notice { serial }
    }

    pub(crate) fn spend(self) -> u64
        ensures { result ≡ self.serial }
    {
        let Notice { serial } = self;
        serial
    }

    // The serial of the session that waits for an answer.
    pub fn serial(&self) -> u64
        ensures { result ≡ self.now.serial }
    {
        self.serial
    }
}
