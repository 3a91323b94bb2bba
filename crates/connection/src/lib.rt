// The bytes that came over one connection: the messages in them, one behind another.
#![tactic(auto)]

ghost use Rattle.std.specs.Prelude.{◌<◌, ◌≤◌, length};
ghost use Rattle.connection.specs.Serving.{Served};
ghost use Rattle.intake_core.specs.Worlds.{noticed};

use ack::LEAST_PAGE;
use intake_core::{Intake, Notice, Reply};
use store::Store;

// How far a connection was served.
pub struct Serving {
    // the bytes of the input that are done with
    pub used: usize,
    // the bytes of the acknowledgements, at the front of `out`
    pub length: usize,
    // the last message has sent its session to the approver
    pub notice: Option<Notice>,
}

// Serves message after message, each on all the input that is left and with the rest of `out` as its page. It stops
// when nothing of the input is left, when a notice is handed out, or when less than a page of `out` is left.
pub fn serve<S: Store>(intake: &mut Intake<S>, input: &[u8], out: &mut [u8]) -> Serving
    ensures served { Served S.Store.meaning S.Store.made input.now out.old intake.old result.used result.length (noticed result.notice) out.new intake.new }
    ensures within { result.used ≤ length input.now }
    ensures put { result.length ≤ length out.old }
    ensures progress { 0 < length input.now → 1024 ≤ length out.old → 0 < result.used }
{
    // the caller is told both counts, so nothing is gained by slices that shrink
    let mut used = 0;
    let mut length = 0;
    while used < input.len() && out.len() - length >= LEAST_PAGE {
        let Reply {
            outcome: _,
            used: own,
            length: told,
            notice,
        } = intake.message(&input[used..], &mut out[length..]);
        used += own;
        length += told;
        if let Some(notice) = notice {
            return Serving {
                used,
                length,
                notice: Some(notice),
            };
        }
    }
    Serving {
        used,
        length,
        notice: None,
    }
}
