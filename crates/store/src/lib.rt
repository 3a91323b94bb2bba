// What every store of uploaded bundles shows of itself: 16 slots to stage bytes in, and a catalog of published names.
#![tactic(auto)]

ghost use Rattle.std.specs.Prelude.{◌≡◌, ℕ, ◌+◌, ◌^◌, ◌<◌, ◌≤◌, false, List, [], length, is_ok, nat_le, Some, codes};
ghost use Rattle.store.specs.Answers.{Accepted, Refused, length_of, copied, filled, text_of, Within};
ghost use Rattle.store.specs.Meaning.Change.{adding, clearing, publishing};
ghost use Rattle.store.specs.Meaning.{Meaning, Change, Added, Cleared, Published, nameable};
ghost use Rattle.store.specs.Whole.{Stored, Untouched};

use outcome::Outcome;
use std::error::Error;
use std::fmt;

// slots of the staging area
pub const SLOTS: usize = 16;

// Whether bytes can name what is published.
pub fn is_name(name: &[u8]) -> bool
    ensures { result ≡ nameable name.now }
{
    (1..=128).contains(&name.len())
}

// Why a store refused a call.
#[derive(Clone, Copy, Debug, PartialEq, Eq)]
pub enum Refusal {
    // more bytes than the slot has room for
    NoRoom,
    // the slot cannot be published under that name now
    Unpublishable,
    // nothing is published under that name
    Absent,
}

impl fmt::Display for Refusal {
    ghost output = { λ r. Some (text_of r) };

    fn fmt<W: fmt::Write>(&self, f: &mut fmt::Formatter<W>) -> fmt::Result {
        f.write_str(match self {
            Refusal::NoRoom => "no room",
            Refusal::Unpublishable => "cannot be published",
            Refusal::Absent => "nothing under that name",
        })
    }
}

impl Error for Refusal {}

// A region over which no store can be made.
#[derive(Debug, Drop)]
pub struct BadRegion {
    pub region: Vec<u8>,
}

impl fmt::Display for BadRegion {
    ghost output = { λ _. Some (codes "no store fits the region") };

    fn fmt<W: fmt::Write>(&self, f: &mut fmt::Formatter<W>) -> fmt::Result {
        f.write_str("no store fits the region")
    }
}

impl Error for BadRegion {}

impl BadRegion {
    // What making such a store comes to: a broken setting.
    pub fn outcome(&self) -> Outcome
        ensures { result ≡ Outcome.BadSetting }
    {
        Outcome::BadSetting
    }
}

// One interface and two makers, so that all above is written once.
pub trait Store {
    // what the store means
    ghost meaning: { Self → Meaning };

    // the store's own full account of one change, to the last byte that it keeps
    ghost made: { Self → Change → Self → Type 0 };

    fn len(&self, slot: usize) -> usize
        ensures { result ≡ length ((meaning self.now).held slot) };

    fn room(&self, slot: usize) -> usize
        ensures { result ≡ (meaning self.now).room slot };

    fn published_length(&self, name: &[u8]) -> Option<usize>
        ensures { result ≡ length_of ((meaning self.now).catalog name.now) };

    fn can_publish(&self, slot: usize, name: &[u8]) -> bool
        ensures { result ≡ (meaning self.now).publishable slot name.now };

    // `len`, `add`, `clear` and `publish` are each maker's own: a shared body would go over steps that only
    // some slots allow, and no public call may ask that of its caller.
    fn add(&mut self, slot: usize, bytes: &[u8]) -> Result<(), Refusal>
        ensures verdict { is_ok result ≡ nat_le (length bytes.now) ((meaning self.old).room slot) }
        ensures added { Accepted result (Added (meaning self.old) slot bytes.now (meaning self.new)) }
        ensures account { Accepted result (made self.old (adding slot bytes.now) self.new) }
        ensures refused { Refused result Refusal.NoRoom (self.new ≡ self.old) };

    fn clear(&mut self, slot: usize)
        ensures cleared { Cleared (meaning self.old) slot (meaning self.new) }
        ensures account { made self.old (clearing slot) self.new };

    fn publish(&mut self, slot: usize, name: &[u8]) -> Result<(), Refusal>
        ensures verdict { is_ok result ≡ (meaning self.old).publishable slot name.now }
        ensures published { Accepted result (Published (meaning self.old) slot name.now (meaning self.new)) }
        ensures account { Accepted result (made self.old (publishing slot name.now) self.new) }
        ensures refused { Refused result Refusal.Unpublishable (self.new ≡ self.old) };

    fn copy(&self, name: &[u8], offset: usize, page: &mut [u8]) -> Result<usize, Refusal>
        ensures answer { result ≡ copied ((meaning self.now).catalog name.now) offset (length page.old) }
        ensures page { page.new ≡ filled ((meaning self.now).catalog name.now) offset page.old }
        ensures within { Within result (length page.old) };

    // what a slot holds and could still take fits a 64-bit count
    ghost fits: { (s : Self) (k : ℕ) → length ((meaning s).held k) + (meaning s).room k < 2 ^ 64 };

    // there are 16 slots: any other is empty and takes nothing
    ghost beyond: { (s : Self) (k : ℕ) → 16 ≤ k → ((meaning s).held k ≡ []) × ((meaning s).room k ≡ 0) };

    // an empty slot cannot be published
    ghost unfilled: { (s : Self) (k : ℕ) (n : List ℕ) → (meaning s).held k ≡ [] → (meaning s).publishable k n ≡ false };

    // nor can any slot under a name that is not of 1 to 128 bytes
    ghost unnamed: { (s : Self) (k : ℕ) (n : List ℕ) → nameable n ≡ false → (meaning s).publishable k n ≡ false };
}

// Puts a whole bundle under a name by way of a slot, whose old bytes are lost.
pub fn store_whole<S: Store>(
    store: &mut S,
    slot: usize,
    name: &[u8],
    bytes: &[u8],
) -> Result<(), Refusal>
    ensures stored { Accepted result (Stored (S.Store.meaning store.old) slot name.now bytes.now (S.Store.meaning store.new)) }
    ensures kept { is_ok result ≡ false → Untouched (S.Store.meaning store.old) slot (S.Store.meaning store.new) }
{
    store.clear(slot);
    store.add(slot, bytes)?;
    store.publish(slot, name)
}
