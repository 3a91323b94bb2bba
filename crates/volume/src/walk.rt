// The walk back over a volume, bundle by bundle from its last byte.
ghost use Rattle.std.specs.Prelude.{◌≡◌};

use crate::bundle::{Damage, Found};
use crate::read::last;

// The bundles of a volume that are not told yet, newest first; damage is told once, and nothing after it.
#[derive(Clone, Copy, PartialEq, Eq, Debug)]
pub struct Bundles<'a> {
    left: &'a [u8],
}

// The bundles of a volume, from the one that was written last.
pub fn newest_first(bytes: &[u8]) -> Bundles<'_>
    ensures { result.left.now ≡ bytes.now }
{
    Bundles { left: bytes }
}

impl<'a> Iterator for Bundles<'a> {
    ghost use Rattle.std.specs.Iterator.{item_count};
    ghost use Rattle.volume.specs.Reads.{Steps};

    type Item = Result<Found<'a>, Damage>;

    ghost next_gives = { Steps };

    ghost remaining = { item_count (λ s. s.left.now) };

    fn next(&mut self) -> Option<Self::Item> {
        if self.left.is_empty() {
            return None;
        }
        let end = self.left.len();
        match last(self.left) {
            Ok(found) => {
                self.left = &self.left[..found.at];
                Some(Ok(found))
            }
            Err(fault) => {
                self.left = &[];
                Some(Err(Damage { end, fault }))
            }
        }
    }
}
