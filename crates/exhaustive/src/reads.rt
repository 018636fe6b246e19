// What is read of a small board and of a layout.
ghost use Rattle.std.specs.Prelude.{◌≡◌};
ghost use Rattle.exhaustive.specs.Small.{single, meeting, inside, slot_at, set_at};

use crate::small::{Layout, Size};

// The mask of one number below three. Masks are read anew here, apart from the planner's.
pub fn only(i: u8) -> u64
    ensures { result ≡ single i }
{
    match i {
        0 => 0b001,
        1 => 0b010,
        _ => 0b100,
    }
}

// Whether two masks share a member.
pub fn meets(a: u64, b: u64) -> bool
    ensures { result ≡ meeting a b }
{
    a & b != 0
}

// Whether every member of a is one of b.
pub fn is_in(a: u64, b: u64) -> bool
    ensures { result ≡ inside a b }
{
    a & b == a
}

impl Layout {
    // The slot of a sensor, as a mask.
    pub fn slot(&self, sensor: u8) -> u64
        ensures { result ≡ slot_at self.now sensor }
    {
        match sensor {
            0 => self.slots[0],
            1 => self.slots[1],
            _ => self.slots[2],
        }
    }

    pub fn members(&self, set: u8) -> u64
        ensures { result ≡ set_at self.now set }
    {
        match set {
            0 => self.sets[0],
            _ => self.sets[1],
        }
    }
}

impl Size {
    // Set 0 holds sensors and set 1 slots.
    pub fn is_mixed(&self) -> bool {
        !self.of_slots(0) && self.of_slots(1)
    }

    // The first number that is no mask of sensors.
    pub fn sensors_end(&self) -> u64 {
        end(self.sensors)
    }

    // The first number that is no mask of slots.
    pub fn slots_end(&self) -> u64 {
        end(self.slots)
    }

    // The first number that is no mask of what a set holds.
    pub fn set_end(&self, set: u8) -> u64 {
        if self.of_slots(set) {
            self.slots_end()
        } else {
            self.sensors_end()
        }
    }

    fn of_slots(&self, set: u8) -> bool {
        meets(self.kinds, only(set))
    }
}

fn end(numbers: u8) -> u64 {
    match numbers {
        0 => 1,
        1 => 2,
        2 => 4,
        _ => 8,
    }
}
