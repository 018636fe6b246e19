ghost use Rattle.std.specs.Prelude.{ℕ, bit_and};
ghost use Rattle.covering.specs.Covering.{candidate};
ghost use Rattle.covering.specs.Paired.{AllBusy};
ghost use Rattle.covering.specs.Notes.{NotesOf, sensor_of};
ghost use Rattle.spares.specs.Free.{Offered, Freed};

use covering::bits::{drop_one, split};
use covering::notes::{NONE, Notes};
use masks::members;

// Notes and candidates are lent side by side: a struct of the two would only lend them once more.

/// The claimed slots that a sensor without a slot has as a candidate. Done as soon as these are all.
fn offered(notes: &Notes, cands: &[u64; 64]) -> u64
    ensures { Offered cands.now notes.now.pairs.owner (bit_and notes.now.pairs.sensors notes.now.pairs.idle) notes.now.pairs.claimed 0 result }
{
    let claimed = notes.pairs.claimed;
    let mut found = 0;
    for i in members(notes.pairs.sensors & notes.pairs.idle) {
        if found == claimed {
            return found;
        }
        let own = cands[i as usize] & claimed;
        if notes.pairs.owner[i as usize] == NONE {
            found |= own;
        }
    }
    found
}

/// The claimed slots whose sensor some covering leaves out. A sensor without a slot can take a slot of its candidates over, and the sensor that
/// had it is then left out; or that one takes a slot over in turn. Done as soon as these are all.
/// It looks at idle sensors alone, so it is exact where all others have a slot.
pub fn spared(notes: &Notes, cands: &[u64; 64]) -> u64
    ensures { (sensors claimed : ℕ) → NotesOf (candidate cands.now) sensors claimed notes.now → AllBusy notes.now.pairs → Freed (candidate cands.now) sensors claimed (sensor_of notes.now) result result }
{
    let claimed = notes.pairs.claimed;
    let mut free = offered(notes, cands);
    let mut left = claimed;
    // `free` grows as it is gone through: no walk over the members of a mask that stands still.
    while let Some((v, _)) = split(free & left) {
        if free == claimed {
            return free;
        }
        left = drop_one(left, v);
        free |= cands[notes.pairs.notes[v as usize] as usize] & claimed;
    }
    free
}
