ghost use Rattle.std.specs.Prelude.{◌≡◌, ℕ, not, slice_index};
ghost use Rattle.masks.specs.Masks.{has};
ghost use Rattle.model.specs.Board.{room as room_of};
ghost use Rattle.model.specs.Box.{cand, lo as low_of, hi as high_of, live};
ghost use Rattle.board.specs.Model.{board, model};

use crate::domains::{Domains, MOST_SENSORS};
use masks::contains;

impl Domains {
    // How many sensors the board has.
    pub fn sensors(&self) -> u8
        ensures { result ≡ (board self.now).sensors }
    {
        self.sensors
    }

    pub fn slots(&self) -> u8
        ensures { result ≡ (board self.now).slots }
    {
        self.slots
    }

    pub fn sets(&self) -> u8
        ensures { result ≡ (board self.now).sets }
    {
        self.sets
    }

    // Whether a set holds slots.
    pub fn of_slots(&self, set: u8) -> bool
        ensures { result ≡ has (board self.now).kinds set }
    {
        contains(self.kinds, set)
    }

    // How many numbers there are of the kind that a set holds.
    pub fn room(&self, set: u8) -> u8
        ensures { result ≡ room_of (board self.now) set }
    {
        let Domains { sensors, slots, .. } = *self;
        if self.of_slots(set) { slots } else { sensors }
    }

    // The candidates of a sensor; none for a number that is no sensor.
    pub fn candidates(&self, sensor: u8) -> u64
        ensures { result ≡ cand (model self.now) sensor }
    {
        self.cands.get(sensor as usize).copied().unwrap_or(0)
    }

    // The candidates of all sensors; none beyond the last.
    pub fn all_candidates(&self) -> [u64; MOST_SENSORS]
        ensures { (i : ℕ) → slice_index result i ≡ cand (model self.now) i }
    {
        self.cands
    }

    // The lower bound of a set; empty for a number that is no set.
    pub fn lower(&self, set: u8) -> u64
        ensures { result ≡ low_of (model self.now) set }
    {
        self.lo.get(set as usize).copied().unwrap_or(0)
    }

    // The upper bound of a set; empty for a number that is no set.
    pub fn upper(&self, set: u8) -> u64
        ensures { result ≡ high_of (model self.now) set }
    {
        self.hi.get(set as usize).copied().unwrap_or(0)
    }

    // Whether the box is the dead one.
    pub fn is_dead(&self) -> bool
        ensures { result ≡ not (live (board self.now) (model self.now)) }
    {
        self.cands[0] == 0
    }
}
