// The pages of an owner, and moving them to another.
ghost use Rattle.std.specs.Prelude.{◌≡◌, ℕ, ◌+◌, ◌-◌, ◌*◌, ◌/◌, ◌<◌, ◌≤◌, length, ◌≢◌, slice_index};
ghost use Rattle.page_store.specs.Owners.{pages_in, count_in, Spliced};
ghost use Rattle.page_store.specs.Pages.{Movable, Fewest, start_page};

use crate::chain::Chain;
use crate::table::{FREE, OWNERS, PAGE, PAGES, Table};
use std::array;

// Links from each page to the one after it.
fn links() -> [u16; PAGES]
    ensures long { length result ≡ 1024 }
    ensures link { (k : ℕ) → k < 1024 → slice_index result k ≡ k + 1 }
{
    array::from_fn(|p| p as u16 + 1)
}

impl Table {
    // A table of so many pages, all of them free.
    pub(crate) fn new(pages: usize) -> Table
        requires { (1 ≤ pages) × (pages ≤ 1024) }
        ensures pages { result.pages ≡ pages }
        ensures free { count_in result 48 ≡ pages }
        ensures unowned { (k : ℕ) → (k ≢ 48) → count_in result k ≡ 0 }
    {
        let next = links();
        let mut chains = [Chain::default(); OWNERS];
        chains[FREE] = Chain {
            head: 0,
            tail: (pages - 1) as u16,
            count: pages,
        };
        Table {
            pages,
            next,
            chains,
        }
    }

    // The page at place `i` of an owner.
    pub(crate) fn page_at(&self, owner: usize, i: usize) -> u16
        requires { (owner < 49) × (i < count_in self.now owner) }
        ensures page { result ≡ slice_index (pages_in self.now owner) i }
        ensures within { result < self.now.pages }
    {
        let mut page = self.chains[owner].head;
        for _ in 0..i {
            page = self.next[page as usize];
        }
        page
    }

    // The last of an owner's first `m` pages.
    fn last_of(&self, owner: usize, m: usize) -> u16
        requires { (owner < 49) × ((0 < m) × (m ≤ count_in self.now owner)) }
        ensures page { result ≡ slice_index (pages_in self.now owner) (m - 1) }
        ensures within { result < self.now.pages }
    {
        let chain = self.chains[owner];
        if m == chain.count {
            chain.tail
        } else {
            self.page_at(owner, m - 1)
        }
    }

    // Moves the first `m` pages of `from` to the end of `to`.
    pub(crate) fn splice(&mut self, to: usize, from: usize, m: usize)
        requires { Movable self.old.chains to from m }
        ensures moved { Spliced self.old to from m self.new }
        ensures same { self.new.pages ≡ self.old.pages }
    {
        if m == 0 {
            return;
        }
        let giver = self.chains[from];
        let taker = self.chains[to];
        let cut = self.last_of(from, m);
        let rest = self.next[cut as usize];
        let head = if taker.count == 0 {
            giver.head
        } else {
            self.next[taker.tail as usize] = giver.head;
            taker.head
        };
        self.chains[to] = Chain {
            head,
            tail: cut,
            count: taker.count + m,
        };
        self.chains[from] = Chain {
            head: rest,
            tail: giver.tail,
            count: giver.count - m,
        };
    }

    // Has a slot or name that holds `len` bytes own the pages for `n` more, and gives the page where the first of them comes to lie.
    pub(crate) fn reserve(&mut self, owner: usize, len: usize, n: usize) -> u16
        requires owner { owner < 48 }
        requires fewest { Fewest (count_in self.old owner) len }
        requires some { 0 < n }
        requires room { len + n ≤ 4096 * (count_in self.old owner + count_in self.old 48) }
        ensures moved { Spliced self.old owner 48 (count_in self.new owner - count_in self.old owner) self.new }
        ensures fewest { Fewest (count_in self.new owner) (len + n) }
        ensures first { result ≡ slice_index (pages_in self.new owner) (len / 4096) }
        ensures same { self.new.pages ≡ self.old.pages }
    {
        let chain = self.chains[owner];
        let need = (len + n - 1) / PAGE + 1 - chain.count;
        let first = first_page(chain, self.chains[FREE], len);
        self.splice(owner, FREE, need);
        first
    }
}

// The page where the next byte of a chain with `len` bytes comes to lie, when free pages are put behind it.
fn first_page(chain: Chain, free: Chain, len: usize) -> u16
    ensures { result ≡ start_page chain free len }
{
    if len % PAGE == 0 {
        free.head
    } else {
        chain.tail
    }
}
