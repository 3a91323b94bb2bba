// The bytes of a volume with one bundle more.
ghost use Rattle.volume.specs.Reads.{seen};
ghost use Rattle.std.specs.Prelude.{◌≡◌, IfSome};
ghost use Rattle.volume_files.specs.Grown.{Grown, Widened, size_with};
ghost use Rattle.volume_files.specs.declared.grow.Unadded.TheVariants.{Damaged, Refused, Memory};

use std::alloc::{AllocError, Global};
use volume::{BundleRef, Damage, Refusal, TRAILER, append, check};

// Why a bundle is not added.
#[derive(Clone, Copy, PartialEq, Eq, Debug)]
pub enum Unadded {
    Damaged(Damage),
    Refused(Refusal),
    Memory,
}

impl From<Damage> for Unadded {
    ghost from_gives = { λ damage e. e ≡ Damaged damage };

    fn from(damage: Damage) -> Unadded {
        Unadded::Damaged(damage)
    }
}

impl From<Refusal> for Unadded {
    ghost from_gives = { λ refusal e. e ≡ Refused refusal };

    fn from(refusal: Refusal) -> Unadded {
        Unadded::Refused(refusal)
    }
}

impl From<AllocError> for Unadded {
    ghost from_gives = { λ _ e. e ≡ Memory };

    fn from(_error: AllocError) -> Unadded {
        Unadded::Memory
    }
}

fn size_with(old: &[u8], bundle: BundleRef<'_>) -> Option<usize>
    ensures { IfSome result (λ n. n ≡ size_with old.now (seen bundle.entry)) }
{
    let body = bundle.entity.len().checked_add(bundle.name.len())?;
    old.len().checked_add(body.checked_add(TRAILER)?)
}

// The old bytes as a region with room for the bundle behind them.
fn widened(heap: Global, old: &[u8], bundle: BundleRef<'_>) -> Result<Vec<u8>, AllocError>
    ensures { Widened old.now (seen bundle.entry) result }
{
    let size = size_with(old, bundle).ok_or(AllocError)?;
    let mut region = Vec::from_slice(heap, old)?;
    region.resize(size, 0)?;
    Ok(region)
}

// The bytes of a volume with one bundle more. Each step hands both on to the next; nothing else is kept of them.
pub fn grown(heap: Global, old: &[u8], bundle: BundleRef<'_>) -> Result<Vec<u8>, Unadded>
    ensures { Grown old.now (seen bundle.entry) result }
{
    check(old)?;
    let mut region = widened(heap, old, bundle)?;
    append(region.as_mut_slice(), old.len(), bundle)?;
    Ok(region)
}
