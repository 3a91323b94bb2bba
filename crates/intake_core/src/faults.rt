// The faults of the layers below, as outcomes: number and place are kept.
ghost use Rattle.std.specs.Prelude.{◌≡◌};
ghost use Rattle.outcome.specs.declared.Outcome.TheVariants.{StoreRefused};
ghost use Rattle.session.specs.Steps.{fault_outcome};

use outcome::Outcome;

// Why a call is refused. The faults of all layers pass up in it, number and place kept.
#[derive(Clone, Copy)]
pub(crate) struct Refused {
    pub(crate) outcome: Outcome,
}

impl From<packet::Fault> for Refused {
    ghost from_gives = { λ e r. r.outcome ≡ fault_outcome e };

    fn from(fault: packet::Fault) -> Refused {
        let outcome = match fault {
            packet::Fault::Text(head::Fault::Unfinished) => Outcome::UnfinishedHead,
            packet::Fault::Text(head::Fault::Malformed(line)) => Outcome::BadHead { line },
            packet::Fault::Text(head::Fault::Repeated(line)) => Outcome::RepeatedField { line },
            packet::Fault::Field(line) => Outcome::BadPacket { line },
        };
        Refused { outcome }
    }
}

impl From<Outcome> for Refused {
    ghost from_gives = { λ e r. r.outcome ≡ e };

    fn from(outcome: Outcome) -> Refused {
        Refused { outcome }
    }
}

impl From<store::Refusal> for Refused {
    ghost from_gives = { λ _ r. r.outcome ≡ StoreRefused };

    fn from(_: store::Refusal) -> Refused {
        Refused {
            outcome: Outcome::StoreRefused,
        }
    }
}
