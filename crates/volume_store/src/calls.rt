// What a volume store does.
ghost use Rattle.std.specs.Prelude.{◌≡◌, ◌+◌, ◌*◌, ◌<◌, ◌≤◌, ◌&&◌, List, ◌++◌, length, take, drop, Ok, Err, vec_len, nat_le};
ghost use Rattle.store.specs.Answers.{portion};
ghost use Rattle.volume.specs.Bundles.{Bundle, Volume, newest};
ghost use Rattle.volume_store.specs.State.{length_of};
ghost use Rattle.volume_store.specs.Store.{meaning_of, Accounted, Can, Adding, Clearing, Publishing, Opened, Fitting, entity_of, viewed, volume_of};
ghost use Rattle.volume_store.specs.Stores.{law-fits, held_out, room_out, law-unfilled, law-unnamed};

use crate::state::VolumeStore;
use store::{BadRegion, Refusal, SLOTS, Store, is_name};
use volume::{Span, TRAILER, append_within, check, find};

// Whether 16 slots and the used bytes fit a region of that length.
fn fits(len: usize, capacity: usize, used: usize) -> bool
    ensures { result ≡ (nat_le 1 capacity && nat_le (16 * capacity + used) len) }
{
    1 <= capacity && capacity <= len / SLOTS && used <= len - SLOTS * capacity
}

// The entity that stands under a name in a volume.
fn entity_in<'a>(bytes: &'a [u8], name: &[u8]) -> Option<&'a [u8]>
    ensures { (bs : List Bundle) → Volume bytes.now bs → viewed result ≡ entity_of (newest name.now bs) }
{
    find(bytes, name)
        .ok()
        .flatten()
        .map(|found| found.bundle.entity)
}

// Fills the front of a page with bytes from an offset on; how many.
fn fill(page: &mut [u8], bytes: &[u8], offset: usize) -> usize
    ensures count { result ≡ portion bytes.now offset (length page.old) }
    ensures page { page.new ≡ take result (drop offset bytes.now) ++ drop result page.old }
{
    let rest = bytes.get(offset..).unwrap_or(&[]);
    let n = rest.len().min(page.len());
    page[..n].copy_from_slice(&rest[..n]);
    n
}

impl VolumeStore {
    // A store over a region: 16 slots of `capacity` bytes, empty, and behind them a volume of `used` bytes.
    pub fn new(region: Vec<u8>, capacity: usize, used: usize) -> Result<VolumeStore, BadRegion>
        ensures { elim result [ Ok s ↦ Opened region.items capacity used s | Err b ↦ (b.region ≡ region) × (Fitting region.items capacity used → ⊥) ] }
    {
        if !fits(region.len(), capacity, used) {
            return Err(BadRegion { region });
        }
        let base = SLOTS * capacity;
        if check(&region[base..base + used]).is_err() {
            return Err(BadRegion { region });
        }
        Ok(VolumeStore {
            region,
            capacity,
            lengths: [0; SLOTS],
            used,
        })
    }

    // The bytes of the volume, to be read from the last one.
    pub fn volume(&self) -> &[u8]
        ensures { result.now ≡ volume_of self.now }
    {
        let base = SLOTS * self.capacity;
        &self.region[base..base + self.used]
    }

    // Puts bytes behind those of a slot that has room for them.
    fn stage(&mut self, slot: usize, bytes: &[u8])
        requires slot { slot < 16 }
        requires room { length_of self.old.lengths slot + length bytes.now ≤ self.old.capacity }
        ensures { Adding self.old slot bytes.now self.new }
    {
        let len = self.lengths[slot];
        let at = slot * self.capacity + len;
        self.region[at..at + bytes.len()].copy_from_slice(bytes);
        self.lengths[slot] = len + bytes.len();
    }

    fn release(&mut self, slot: usize)
        requires { slot < 16 }
        ensures { Clearing self.old slot self.new }
    {
        self.lengths[slot] = 0;
    }

    // Whether a bundle of these lengths goes behind the volume.
    fn takes(&self, entity: usize, name: usize) -> bool
        requires { (entity ≤ self.now.capacity) × (name ≤ 128) }
        ensures { result ≡ nat_le (16 * self.now.capacity + self.now.used + (entity + name + 16)) (vec_len self.now.region) }
    {
        let rest = self.region.len() - SLOTS * self.capacity - self.used;
        entity + name + TRAILER <= rest
    }

    // Writes a slot's bytes as a bundle behind the volume, and empties the slot.
    fn seal(&mut self, slot: usize, name: &[u8])
        requires { Can self.old slot name.now }
        ensures { Publishing self.old slot name.now self.new }
    {
        let volume = Span {
            start: SLOTS * self.capacity,
            len: self.used,
        };
        let entity = Span {
            start: slot * self.capacity,
            len: self.lengths[slot],
        };
        let Ok(end) = append_within(&mut self.region, volume, entity, name) else {
            unreachable!()
        };
        self.used = end;
        self.lengths[slot] = 0;
    }
}

impl Store for VolumeStore {
    ghost meaning = { meaning_of };

    ghost made = { Accounted };

    ghost fits = { λ s k. law-fits s k };

    ghost beyond = { λ s k h. (held_out s k h, room_out s k h) };

    ghost unfilled = { λ s k n e. law-unfilled s k n e };

    ghost unnamed = { λ s k n e. law-unnamed s k n e };

    fn len(&self, slot: usize) -> usize {
        if slot < SLOTS { self.lengths[slot] } else { 0 }
    }

    fn room(&self, slot: usize) -> usize {
        if slot < SLOTS {
            self.capacity - self.lengths[slot]
        } else {
            0
        }
    }

    fn published_length(&self, name: &[u8]) -> Option<usize> {
        entity_in(self.volume(), name).map(|entity| entity.len())
    }

    fn can_publish(&self, slot: usize, name: &[u8]) -> bool {
        is_name(name)
            && slot < SLOTS
            && self.lengths[slot] > 0
            && self.takes(self.lengths[slot], name.len())
    }

    fn add(&mut self, slot: usize, bytes: &[u8]) -> Result<(), Refusal> {
        if bytes.len() > self.room(slot) {
            return Err(Refusal::NoRoom);
        }
        if !bytes.is_empty() {
            self.stage(slot, bytes);
        }
        Ok(())
    }

    fn clear(&mut self, slot: usize) {
        if slot < SLOTS {
            self.release(slot);
        }
    }

    fn publish(&mut self, slot: usize, name: &[u8]) -> Result<(), Refusal> {
        if !self.can_publish(slot, name) {
            return Err(Refusal::Unpublishable);
        }
        self.seal(slot, name);
        Ok(())
    }

    fn copy(&self, name: &[u8], offset: usize, page: &mut [u8]) -> Result<usize, Refusal> {
        let entity = entity_in(self.volume(), name).ok_or(Refusal::Absent)?;
        Ok(fill(page, entity, offset))
    }
}
