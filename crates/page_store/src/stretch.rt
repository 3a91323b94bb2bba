// A walk over some of an owner's bytes, page by page.
ghost use Rattle.std.specs.Prelude.{◌≡◌, ◌*◌, ◌/◌, ◌<◌, ◌≤◌, slice_index};
ghost use Rattle.page_store.specs.Owners.{pages_in, count_in};

use crate::table::Table;

#[derive(Drop)]
pub struct Stretches<'a> {
    pub(crate) table: &'a Table,
    pub(crate) owner: usize,
    pub(crate) start: usize,
    pub(crate) at: usize,
    pub(crate) end: usize,
    pub(crate) page: usize,
    ghost owned: { owner < 49 },
    ghost after: { start ≤ at },
    ghost before: { at ≤ end },
    ghost room: { end ≤ 4096 * count_in table.now owner },
    ghost here: { at < end → (page ≡ slice_index (pages_in table.now owner) (at / 4096)) × (page < table.now.pages) },
}
