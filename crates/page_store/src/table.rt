// Which pages each owner has: 16 slots, 32 names, and the free pages as the last.
ghost use Rattle.std.specs.Prelude.{◌≡◌, ◌≤◌, length};
ghost use Rattle.page_store.specs.Pages.{Once, Whole, Tails};

use crate::chain::Chain;

// bytes in a page
pub const PAGE: usize = 4096;

// the most pages
pub const PAGES: usize = 1024;

// the owners: slots, names, and the free pages as the last; an owner's number is its place in the table
pub const OWNERS: usize = 49;

// the owner of the free pages
pub const FREE: usize = 48;

#[derive(Drop)]
pub struct Table {
    pub pages: usize,
    // links by page number: the table is part of the store's fixed memory
    pub next: [u16; PAGES],
    pub chains: [Chain; OWNERS],
    ghost few: { pages ≤ 1024 },
    ghost links: { length next ≡ 1024 },
    ghost owners: { length chains ≡ 49 },
    ghost once: { Once pages next chains },
    ghost whole: { Whole pages chains },
    ghost tails: { Tails next chains },
}
