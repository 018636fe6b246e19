ghost use Rattle.std.specs.Prelude.{◌≡◌};
ghost use Rattle.model.specs.Box.{dead};
ghost use Rattle.model.specs.Settled.{Progress};
ghost use Rattle.model.specs.Entries.{narrow, limit as limiting, claim as claiming, bar as barring};
ghost use Rattle.board.specs.Model.{board, model};

use crate::domains::{Domains, MOST_SENSORS, MOST_SETS};
use masks::{is_within, take_out};

// The three ways in which a box is narrowed. Each touches one word and tests just that; each tells whether it changed the box.
// What names nothing on the board changes nothing. A claim and a bar differ in the bound, the operation and the test, so they are two.
// Each says in clauses that the board stays and that a change makes the box smaller: no type of the box could, as it does not know the box before.
impl Domains {
    // Keeps the candidates of a sensor that are in the mask.
    pub fn limit(&mut self, sensor: u8, mask: u64) -> bool
        ensures board { board self.new ≡ board self.old }
        ensures model { model self.new ≡ narrow (board self.old) (limiting sensor mask) (model self.old) }
        ensures moved { Progress (board self.old) result (model self.old) (model self.new) }
    {
        if sensor >= self.sensors {
            return false;
        }
        let i = sensor as usize;
        let was = self.cands[i];
        let left = was & mask;
        if left == was {
            return false;
        }
        if left == 0 {
            self.kill();
        } else {
            self.cands[i] = left;
        }
        true
    }

    // Adds the mask to the lower bound of a set.
    pub fn claim(&mut self, set: u8, mask: u64) -> bool
        ensures board { board self.new ≡ board self.old }
        ensures model { model self.new ≡ narrow (board self.old) (claiming set mask) (model self.old) }
        ensures moved { Progress (board self.old) result (model self.old) (model self.new) }
    {
        if set >= self.sets {
            return false;
        }
        if self.is_dead() {
            return false;
        }
        let j = set as usize;
        let was = self.lo[j];
        let more = was | mask;
        if more == was {
            return false;
        }
        if is_within(more, self.hi[j]) {
            self.lo[j] = more;
        } else {
            self.kill();
        }
        true
    }

    // Takes the mask out of the upper bound of a set.
    pub fn bar(&mut self, set: u8, mask: u64) -> bool
        ensures board { board self.new ≡ board self.old }
        ensures model { model self.new ≡ narrow (board self.old) (barring set mask) (model self.old) }
        ensures moved { Progress (board self.old) result (model self.old) (model self.new) }
    {
        if set >= self.sets {
            return false;
        }
        let j = set as usize;
        let was = self.hi[j];
        let left = take_out(was, mask);
        if left == was {
            return false;
        }
        if is_within(self.lo[j], left) {
            self.hi[j] = left;
        } else {
            self.kill();
        }
        true
    }

    // Makes it the dead box of its board. Rare, and kept out of line: what narrows a box is called thousands of times.
    #[cold]
    #[inline(never)]
    fn kill(&mut self)
        ensures board { board self.new ≡ board self.old }
        ensures model { model self.new ≡ dead (board self.old) }
    {
        self.cands = [0; MOST_SENSORS];
        self.lo = [0; MOST_SETS];
        self.hi = [0; MOST_SETS];
    }
}
