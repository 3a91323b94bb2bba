// The list of protocols that a sender offers: ids with blanks and commas between them.
ghost use Rattle.std.specs.Prelude.{◌≡◌, false, ◌||◌, length};
ghost use Rattle.packet.specs.Protocols.{ours, ids_from, after_from, protocols_of};

use ids::{SessionId, read_id};
use text::{Kind, lead};

// {7df0354d-249b-430f-820d-3d2a9bef4931}
const OURS: SessionId = SessionId {
    site: 0x7df0_354d_249b_430f,
    serial: 0x820d_3d2a_9bef_4931,
};

const ID_SIZE: usize = 38;

// Two functions in turn, as the list is: an id, then what parts it from the next.
// Reads an id and what follows it; `found` says whether ours came before.
#[cycle(read_after_read_ids)]
fn read_ids(s: &[u8], found: bool) -> Option<bool>
    ensures { result ≡ ids_from (length s.now) found s.now }
{
    let (id, rest) = s.split_at_checked(ID_SIZE)?;
    let ours = read_id(id)? == OURS;
    read_after(rest, found || ours)
}

// Reads what follows an id: the end, or a separator and the next.
#[cycle(read_after_read_ids)]
fn read_after(s: &[u8], found: bool) -> Option<bool>
    ensures { result ≡ after_from (length s.now) found s.now }
{
    if s.is_empty() {
        return Some(found);
    }
    let n = lead(Kind::Divider, s);
    if n == 0 {
        return None;
    }
    read_ids(&s[n..], found)
}

pub(crate) fn read_protocols(value: &[u8]) -> Option<bool>
    ensures { result ≡ protocols_of value.now }
{
    read_ids(value, false)
}
