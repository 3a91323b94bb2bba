// A region of pages, who owns which, how many bytes each owner holds, and the names that stand.
ghost use Rattle.std.specs.Prelude.{◌≡◌, ◌*◌, length, vec_len};
ghost use Rattle.page_store.specs.State.{Sparing, Nothing, Named, Single};

use crate::name::NAMES;
use crate::table::{FREE, Table};
use inline_bytes::InlineBytes;

#[derive(Drop)]
pub struct PageStore {
    pub(crate) region: Vec<u8>,
    pub(crate) table: Table,
    // apart from the chains, so that moving pages cannot touch them; the free pages have none
    pub(crate) lengths: [usize; FREE],
    // row r is owner 16 + r
    pub(crate) names: [Option<InlineBytes<128>>; NAMES],
    ghost fills: { vec_len region ≡ 4096 * table.pages },
    ghost held: { length lengths ≡ 48 },
    ghost rows: { length names ≡ 32 },
    ghost sparing: { Sparing table.chains lengths },
    ghost nothing: { Nothing lengths names },
    ghost named: { Named names },
    ghost single: { Single names },
}
