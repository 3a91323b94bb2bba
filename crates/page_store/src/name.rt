// The rows of a catalog: a name of 1 to 128 bytes, or none.
ghost use Rattle.std.specs.Prelude.{◌≡◌, ◌<◌, length, IfSome};
ghost use Rattle.page_store.specs.Names.{row_with, vacancy};

use inline_bytes::InlineBytes;

// The rows: names that can stand.
pub const NAMES: usize = 32;

// The first row with that name.
pub(crate) fn find(rows: &[Option<InlineBytes<128>>], name: &[u8]) -> Option<usize>
    ensures row { result ≡ row_with rows.now name.now }
    ensures within { IfSome result (λ e. e < length rows.now) }
{
    rows.iter()
        .position(|row| matches!(row, Some(held) if held.as_slice() == name))
}

// The first row without one.
pub(crate) fn vacant(rows: &[Option<InlineBytes<128>>]) -> Option<usize>
    ensures { result ≡ vacancy rows.now }
{
    rows.iter().position(|row| row.is_none())
}
