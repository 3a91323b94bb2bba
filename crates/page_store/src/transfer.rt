// Bytes between a page store's region and a slice, page by page: a slice read and the region written, or the reverse.
ghost use Rattle.std.specs.Prelude.{◌≡◌, ℕ, ◌+◌, ◌-◌, ◌*◌, ◌<◌, length, slice_index};
ghost use Rattle.std.specs.Iterator.{at_most};
ghost use Rattle.page_store.specs.Bytes.{Written, Reachable, place};
ghost use Rattle.page_store.specs.Owners.{pages_in, count_in};
ghost use Rattle.page_store.specs.Stretches.{Goes};

use crate::stretch::Stretches;
use crate::table::{PAGE, Table};
use std::ops::Range;

impl<'a> Stretches<'a> {
    // From byte `at` of an owner on, the first of `len` on page `first`.
    pub(crate) fn new(
        table: &'a Table,
        owner: usize,
        at: usize,
        first: u16,
        len: usize,
    ) -> Stretches<'a>
        requires owner { owner < 49 }
        requires reach { Reachable (pages_in table.now owner) (count_in table.now owner) at first len }
        ensures table { result.table.now ≡ table.now }
        ensures owner { result.owner ≡ owner }
        ensures start { result.start ≡ at }
        ensures at { result.at ≡ at }
        ensures end { result.end ≡ at + len }
    {
        Stretches {
            table,
            owner,
            start: at,
            at,
            end: at + len,
            page: first as usize,
        }
    }
}

impl Iterator for Stretches<'_> {
    // a part of the bytes to move, and where it lies in the region
    type Item = (Range<usize>, Range<usize>);

    ghost next_gives = { Goes };

    ghost remaining = { λ s. at_most (s.end - s.at) };

    fn next(&mut self) -> Option<(Range<usize>, Range<usize>)> {
        if self.at == self.end {
            return None;
        }
        let offset = self.at % PAGE;
        let n = (PAGE - offset).min(self.end - self.at);
        let part = self.at - self.start..self.at - self.start + n;
        let from = self.page * PAGE + offset;
        self.page = self.table.next[self.page] as usize;
        self.at += n;
        Some((part, from..from + n))
    }
}

// Writes bytes as those that a walk goes over.
pub(crate) fn write(walk: Stretches, region: &mut [u8], bytes: &[u8])
    requires region { length region.old ≡ 4096 * walk.table.now.pages }
    requires begins { walk.at ≡ walk.start }
    requires ends { walk.end ≡ walk.start + length bytes.now }
    ensures { Written region.old (pages_in walk.entry.table.now walk.entry.owner) walk.entry.start bytes.now region.new }
{
    for (part, place) in walk {
        region[place].copy_from_slice(&bytes[part]);
    }
}

// Fills a slice with the bytes that a walk goes over.
pub(crate) fn read(walk: Stretches, region: &[u8], out: &mut [u8])
    requires region { length region.now ≡ 4096 * walk.table.now.pages }
    requires begins { walk.at ≡ walk.start }
    requires ends { walk.end ≡ walk.start + length out.old }
    ensures { (j : ℕ) → j < length out.old → slice_index out.new j ≡ slice_index region.now (place (pages_in walk.entry.table.now walk.entry.owner) (walk.entry.start + j)) }
{
    for (part, place) in walk {
        out[part].copy_from_slice(&region[place]);
    }
}
