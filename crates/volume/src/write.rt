// Writing one bundle more behind a volume.
ghost use Rattle.std.specs.Prelude.{◌≡◌, ◌+◌, ◌≤◌, true, ◌++◌, length, take, drop, nat_le, is_some, IfSome};
ghost use Rattle.std.specs.Result.{result_err};
ghost use Rattle.volume.specs.Bundles.{trailer};
ghost use Rattle.volume.specs.Reads.{seen};
ghost use Rattle.volume.specs.Writes.{Appended, Put, refusal};

use crate::bundle::{BundleRef, LONGEST_NAME, Refusal, Span, TRAILER};

// The bytes that close a bundle.
fn trailer_bytes(distance: usize, name_len: u16) -> [u8; TRAILER]
    ensures { result ≡ trailer distance name_len }
{
    let [d0, d1, d2, d3, d4, d5, d6, d7] = distance.to_be_bytes();
    let [n0, n1] = name_len.to_be_bytes();
    [
        d0, d1, d2, d3, d4, d5, d6, d7, n0, n1, 0, 0, b'H', b'A', b'L', b'L',
    ]
}

// Writes `s` at `at`; just past it. More than the slice copy alone: the `Put` of two writes in a row join into one.
fn put(region: &mut [u8], at: usize, s: &[u8]) -> usize
    requires { at + length s.now ≤ length region.old }
    ensures { Put region.old at s.now region.new result }
{
    let end = at + s.len();
    region[at..end].copy_from_slice(s);
    end
}

// Writes name and trailer behind an entity that ends at `at`; just past them.
fn close(region: &mut [u8], at: usize, entity_len: usize, name: &[u8]) -> usize
    requires short { length name.now ≤ 128 }
    requires fits { at + (length name.now + 16) ≤ length region.old }
    requires inside { entity_len ≤ at }
    ensures { Put region.old at (name.now ++ trailer (entity_len + length name.now) (length name.now)) region.new result }
{
    let distance = entity_len + name.len();
    let trailer = trailer_bytes(distance, name.len() as u16);
    let at = put(region, at, name);
    put(region, at, &trailer)
}

// What a region of `size` bytes has left behind a volume and a bundle of these lengths, where it has room for them.
fn room(size: usize, volume: Span, entity_len: usize, name_len: usize) -> Option<usize>
    requires { name_len ≤ 128 }
    ensures fits { is_some result ≡ nat_le (volume.start + volume.len + (entity_len + name_len + 16)) size }
    ensures left { IfSome result (λ n. volume.start + volume.len + (entity_len + name_len + 16) + n ≡ size) }
{
    size.checked_sub(volume.start)?
        .checked_sub(volume.len)?
        .checked_sub(entity_len)?
        .checked_sub(name_len + TRAILER)
}

// Whether a bundle of these lengths may be written; `before` says that its entity lies before the volume.
fn judge(
    before: bool,
    size: usize,
    volume: Span,
    entity_len: usize,
    name_len: usize,
) -> Result<(), Refusal>
    ensures { result_err result ≡ refusal before size (volume.start + volume.len) entity_len name_len }
{
    if entity_len == 0 {
        return Err(Refusal::EmptyEntity);
    }
    if name_len == 0 {
        return Err(Refusal::EmptyName);
    }
    if name_len > LONGEST_NAME {
        return Err(Refusal::LongName);
    }
    if !before {
        return Err(Refusal::Outside);
    }
    room(size, volume, entity_len, name_len).ok_or(Refusal::NoRoom)?;
    Ok(())
}

// One bundle more behind the volume of `used` bytes at the start of a region; the new used length.
pub fn append(region: &mut [u8], used: usize, bundle: BundleRef<'_>) -> Result<usize, Refusal>
    ensures verdict { result_err result ≡ refusal true (length region.old) (0 + used) (length (seen bundle.entry).entity) (length (seen bundle.entry).name) }
    ensures done { elim result [ Ok end ↦ Appended region.old 0 used (seen bundle.entry) region.new end | Err e ↦ region.new ≡ region.old ] }
{
    let BundleRef { name, entity } = bundle;
    let volume = Span {
        start: 0,
        len: used,
    };
    judge(true, region.len(), volume, entity.len(), name.len())?;
    let at = put(region, used, entity);
    Ok(close(region, at, entity.len(), name))
}

// The same, with the volume anywhere in the region and the entity a stretch before it; the new used length.
pub fn append_within(
    region: &mut [u8],
    volume: Span,
    entity: Span,
    name: &[u8],
) -> Result<usize, Refusal>
    ensures verdict { result_err result ≡ refusal (nat_le (entity.start + entity.len) volume.start) (length region.old) (volume.start + volume.len) entity.len (length name.now) }
    ensures done { elim result [ Ok end ↦ Appended region.old volume.start volume.len (record { entity = take entity.len (drop entity.start region.old); name = name.now }) region.new end | Err e ↦ region.new ≡ region.old ] }
{
    let before = entity.ends_by(volume.start);
    judge(before, region.len(), volume, entity.len, name.len())?;
    let at = volume.start + volume.len;
    region.copy_within(entity.start..entity.start + entity.len, at);
    let end = close(region, at + entity.len, entity.len, name);
    Ok(end - volume.start)
}
