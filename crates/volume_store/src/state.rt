// 16 slots of the same size at the front of a region, and a volume behind them.
ghost use Rattle.std.specs.Prelude.{◌≡◌, ◌+◌, ◌*◌, ◌≤◌, length, vec_len};
ghost use Rattle.volume_store.specs.Readings.{Holds};
ghost use Rattle.volume_store.specs.State.{Within, volume_bytes};

use store::SLOTS;

#[derive(Drop)]
pub struct VolumeStore {
    pub(crate) region: Vec<u8>,
    pub(crate) capacity: usize,
    // how many bytes of each slot are used: all slots are parts of the one region
    pub(crate) lengths: [usize; SLOTS],
    pub(crate) used: usize,
    ghost held: { length lengths ≡ 16 },
    ghost within: { Within capacity lengths },
    ghost fits: { 16 * capacity + used ≤ vec_len region },
    ghost volume: { ∥ Holds (volume_bytes region.items capacity used) ∥₁ },
}
