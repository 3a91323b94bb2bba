// Whole lists of bundles: all of a volume read, and all of one written.
ghost use Rattle.std.specs.Prelude.{◌≡◌, length};
ghost use Rattle.volume.specs.Lists.{Back, Read, Written};
ghost use Rattle.volume.specs.declared.whole.Unlisted.TheVariants.{Damaged, Memory};

use crate::bundle::{BundleRef, Damage, Found, Refusal};
use crate::walk::newest_first;
use crate::write::append;
use std::alloc::{AllocFailed, Global};
use std::error::Error;
use std::fmt;

// Why a volume is not listed.
#[derive(Clone, Copy, PartialEq, Eq, Debug)]
pub enum Unlisted {
    Damaged(Damage),
    Memory,
}

impl fmt::Display for Unlisted {
    fn fmt<W: fmt::Write>(&self, f: &mut fmt::Formatter<W>) -> fmt::Result {
        match self {
            Unlisted::Damaged(damage) => write!(f, "{damage}"),
            Unlisted::Memory => f.write_str("there is not enough memory"),
        }
    }
}

impl Error for Unlisted {}

// The first bundle of a list that was not written, and why.
#[derive(Clone, Copy, PartialEq, Eq, Debug)]
pub struct Unwritten {
    pub index: usize,
    pub refusal: Refusal,
}

impl From<Damage> for Unlisted {
    ghost from_gives = { λ d e. e ≡ Damaged d };

    fn from(damage: Damage) -> Unlisted {
        Unlisted::Damaged(damage)
    }
}

impl<T: Drop> From<AllocFailed<T>> for Unlisted {
    ghost from_gives = { λ _ e. e ≡ Memory };

    fn from(_failed: AllocFailed<T>) -> Unlisted {
        Unlisted::Memory
    }
}

// The bundles of a volume, newest first.
pub fn list<'a>(heap: Global, bytes: &'a [u8]) -> Result<Vec<Found<'a>>, Unlisted>
    ensures { Read bytes.now result }
{
    let mut all = Vec::new(heap);
    for found in newest_first(bytes) {
        all.push(found?)?;
    }
    Ok(all)
}

// Writes the bundles to an empty volume at the start of a region; its used length.
pub fn write_all(region: &mut [u8], bundles: &[BundleRef<'_>]) -> Result<usize, Unwritten>
    ensures { Written region.old bundles.now region.new result }
{
    let mut used = 0;
    for (index, bundle) in bundles.iter().enumerate() {
        used = append(region, used, *bundle).map_err(|refusal| Unwritten { index, refusal })?;
    }
    Ok(used)
}

// Why a list of bundles did not come back.
#[derive(Clone, Copy, PartialEq, Eq, Debug)]
pub enum Lost {
    Unwritten(Unwritten),
    Unlisted(Unlisted),
}

// Writes the bundles to an empty volume and reads them back from its end: the same, newest first.
pub fn round_trip<'a>(
    heap: Global,
    region: &'a mut [u8],
    bundles: &[BundleRef<'_>],
) -> Result<Vec<Found<'a>>, Lost>
    ensures { Back (length region.old) bundles.now result }
{
    let used = write_all(region, bundles).map_err(Lost::Unwritten)?;
    list(heap, &region[..used]).map_err(Lost::Unlisted)
}
