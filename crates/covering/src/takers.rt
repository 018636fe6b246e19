ghost use Rattle.std.specs.Prelude.{◌≡◌, ℕ, ◌<◌, if◌then◌else◌, bit_or, slice_index};
ghost use Rattle.masks.specs.Masks.{has};
ghost use Rattle.covering.specs.Matching.{Turned};

use crate::bits::single;
use masks::members;

/// Takes the sensors `who` in as takers of each of the slots.
pub fn add_takers(takers: &mut [u64; 64], slots: u64, who: u64)
    ensures { (v : ℕ) → v < 64 → slice_index takers.new v ≡ (if has slots v then bit_or (slice_index takers.old v) who else slice_index takers.old v) }
{
    for v in members(slots) {
        takers[v as usize] |= who;
    }
}

/// For each claimed slot the sensors that have it as a candidate.
pub fn takers_of(cands: &[u64; 64], sensors: u64, claimed: u64) -> [u64; 64]
    ensures { Turned cands.now sensors claimed 0 result }
{
    let mut takers = [0; 64];
    for i in members(sensors) {
        add_takers(&mut takers, cands[i as usize] & claimed, single(i));
    }
    takers
}
