// What a page store does.
ghost use Rattle.std.specs.Prelude.{◌≡◌, ◌+◌, ◌*◌, ◌/◌, ◌<◌, ◌≤◌, length, is_ok, if◌then◌else◌, Some, Ok, Err, IfSome, vec_len, nat_lt};
ghost use Rattle.page_store.specs.Examples.{Two-pages};
ghost use Rattle.page_store.specs.Names.{target};
ghost use Rattle.page_store.specs.Pages.{total};
ghost use Rattle.page_store.specs.Store.{meaning_of, Accounted, Adding, Clearing, Publishing, Empty, fillable, entry, pages_at, room_of, row_for};
ghost use Rattle.page_store.specs.Stores.{law-fits, held_out, room_out, law-unfilled, law-unnamed};

use crate::name::{NAMES, find, vacant};
use crate::state::PageStore;
use crate::stretch::Stretches;
use crate::table::{FREE, PAGE, PAGES, Table};
use crate::transfer::{read, write};
use inline_bytes::InlineBytes;
use store::{BadRegion, Refusal, SLOTS, Store, is_name};

impl PageStore {
    // An empty store over a region, or the region again if pages do not fill it.
    pub fn new(region: Vec<u8>) -> Result<PageStore, BadRegion>
        ensures verdict { is_ok result ≡ fillable (vec_len region) }
        ensures answer { elim result [ Ok s ↦ (s.region ≡ region) × Empty s | Err b ↦ b.region ≡ region ] }
    {
        let len = region.len();
        if len % PAGE != 0 || len < PAGE || len > PAGES * PAGE {
            return Err(BadRegion { region });
        }
        Ok(PageStore {
            region,
            table: Table::new(len / PAGE),
            lengths: [0; FREE],
            names: [None; NAMES],
        })
    }

    // The row of a name that stands.
    fn row_of(&self, name: &[u8]) -> Option<usize>
        ensures row { result ≡ entry self.now.names name.now }
        ensures within { IfSome result (λ e. e < 32) }
    {
        if is_name(name) {
            find(&self.names, name)
        } else {
            None
        }
    }

    // The row to publish a name in: its own or one without a name.
    fn target(&self, name: &[u8]) -> Option<usize>
        ensures { result ≡ target self.now.names name.now }
    {
        find(&self.names, name).or_else(|| vacant(&self.names))
    }

    // The row to publish a slot's bytes in, if they can be published under that name now.
    fn row_for(&self, slot: usize, name: &[u8]) -> Option<usize>
        ensures { result ≡ row_for self.now slot name.now }
    {
        if is_name(name) && slot < SLOTS && self.lengths[slot] > 0 {
            self.target(name)
        } else {
            None
        }
    }

    // How many pages a slot owns: of two pages, a slot of 4,100 bytes owns both, and its room is what they have left.
    pub fn owned_pages(&self, slot: usize) -> usize
        ensures owned { result ≡ (if nat_lt slot 16 then length (pages_at self.now slot) else 0) }
        ensures example { Two-pages }
    {
        if slot < SLOTS {
            self.table.chains[slot].count
        } else {
            0
        }
    }

    // How many pages are free: with those of the slots and of the names that stand they are all pages.
    pub fn free_pages(&self) -> usize
        ensures free { result ≡ length (pages_at self.now 48) }
        ensures whole { total (λ k. length (pages_at self.now k)) 48 + result ≡ vec_len self.now.region / 4096 }
    {
        self.table.chains[FREE].count
    }

    // Puts bytes, at least one, behind those of a slot that has room for them.
    fn put(&mut self, slot: usize, bytes: &[u8])
        requires slot { slot < 16 }
        requires some { 0 < length bytes.now }
        requires room { length bytes.now ≤ room_of self.old slot }
        ensures { Adding self.old slot bytes.now self.new }
    {
        let len = self.lengths[slot];
        let first = self.table.reserve(slot, len, bytes.len());
        let walk = Stretches::new(&self.table, slot, len, first, bytes.len());
        write(walk, &mut self.region, bytes);
        self.lengths[slot] = len + bytes.len();
    }

    // Frees a slot's pages.
    fn release(&mut self, slot: usize)
        requires { slot < 16 }
        ensures { Clearing self.old slot self.new }
    {
        let n = self.table.chains[slot].count;
        self.table.splice(FREE, slot, n);
        self.lengths[slot] = 0;
    }

    // Hands a slot's pages over to a row, which frees those that it had, and names the row.
    fn hand_over(&mut self, slot: usize, row: usize, name: &[u8])
        requires { row_for self.old slot name.now ≡ Some row }
        ensures { Publishing self.old slot row name.now self.new }
    {
        let owner = SLOTS + row;
        let old = self.table.chains[owner].count;
        self.table.splice(FREE, owner, old);
        let n = self.table.chains[slot].count;
        self.table.splice(owner, slot, n);
        self.lengths[owner] = self.lengths[slot];
        self.lengths[slot] = 0;
        self.names[row] = InlineBytes::new(name);
    }
}

impl Store for PageStore {
    ghost meaning = { meaning_of };

    ghost made = { Accounted };

    ghost fits = { λ s k. law-fits s k };

    ghost beyond = { λ s k h. (held_out s k h, room_out s k h) };

    ghost unfilled = { λ s k n e. law-unfilled s k n e };

    ghost unnamed = { λ s k n e. law-unnamed s k n e };

    fn len(&self, slot: usize) -> usize {
        if slot < SLOTS { self.lengths[slot] } else { 0 }
    }

    fn room(&self, slot: usize) -> usize {
        if slot < SLOTS {
            PAGE * (self.owned_pages(slot) + self.free_pages()) - self.lengths[slot]
        } else {
            0
        }
    }

    fn published_length(&self, name: &[u8]) -> Option<usize> {
        let row = self.row_of(name)?;
        Some(self.lengths[SLOTS + row])
    }

    fn can_publish(&self, slot: usize, name: &[u8]) -> bool {
        self.row_for(slot, name).is_some()
    }

    fn add(&mut self, slot: usize, bytes: &[u8]) -> Result<(), Refusal> {
        if bytes.len() > self.room(slot) {
            return Err(Refusal::NoRoom);
        }
        if !bytes.is_empty() {
            self.put(slot, bytes);
        }
        Ok(())
    }

    fn clear(&mut self, slot: usize) {
        if slot < SLOTS {
            self.release(slot);
        }
    }

    fn publish(&mut self, slot: usize, name: &[u8]) -> Result<(), Refusal> {
        let row = self.row_for(slot, name).ok_or(Refusal::Unpublishable)?;
        self.hand_over(slot, row, name);
        Ok(())
    }

    fn copy(&self, name: &[u8], offset: usize, page: &mut [u8]) -> Result<usize, Refusal> {
        let row = self.row_of(name).ok_or(Refusal::Absent)?;
        let owner = SLOTS + row;
        let n = self.lengths[owner].saturating_sub(offset).min(page.len());
        if n > 0 {
            let first = self.table.page_at(owner, offset / PAGE);
            let walk = Stretches::new(&self.table, owner, offset, first, n);
            read(walk, &self.region, &mut page[..n]);
        }
        Ok(n)
    }
}
