ghost use Rattle.std.specs.Prelude.{◌≡◌, ℕ, Bool, true};
ghost use Rattle.masks.specs.Masks.{has};
ghost use Rattle.covering.specs.Covering.{candidate};
ghost use Rattle.covering.specs.Paired.{AllBusy};
ghost use Rattle.covering.specs.Notes.{NotesOf, sensor_of};
ghost use Rattle.covering.specs.Roles.{Plays};
ghost use Rattle.spares.specs.Rows.{Rowed};
ghost use Rattle.spares.specs.Spares.{SparesOf};

use crate::close::close;
use crate::free::spared;
use crate::turn::turn;
use covering::notes::{NONE, Note, Notes};
use masks::{contains, members, take_out};

/// What the coverings do with every sensor, read off one of them. Arrays of fixed length, since there is no heap.
#[derive(Clone, Copy)]
pub struct Spares {
    /// For each sensor its slot in that covering, or `NONE`.
    pub owner: [Note; 64],
    /// The slots whose sensor every covering uses.
    pub bound: u64,
    /// For each of these the slots among which its sensor has its own.
    pub groups: [u64; 64],
}

/// For each of the slots those among them that its sensor has as candidates.
fn rows(notes: &Notes, cands: &[u64; 64], slots: u64) -> [u64; 64]
    requires { (v : ℕ) → has slots v ≡ true → has notes.now.pairs.claimed v ≡ true }
    ensures { Rowed cands.now (sensor_of notes.now) slots 0 result }
{
    let mut rows = [0; 64];
    for v in members(slots) {
        rows[v as usize] = cands[notes.pairs.notes[v as usize] as usize] & slots;
    }
    rows
}

/// Looks at all sensors at once, in a covering where all sensors but the idle ones have a slot.
pub fn spare_all(notes: &Notes, cands: &[u64; 64]) -> Spares
    ensures { (sensors claimed : ℕ) → NotesOf (candidate cands.now) sensors claimed notes.now → AllBusy notes.now.pairs → SparesOf (candidate cands.now) sensors claimed result }
{
    let bound = take_out(notes.pairs.claimed, spared(notes, cands));
    if bound == 0 {
        return Spares {
            owner: notes.pairs.owner,
            bound,
            groups: [0; 64],
        };
    }
    let mut groups = turn(&rows(notes, cands, bound));
    close(&mut groups, bound);
    Spares {
        owner: notes.pairs.owner,
        bound,
        groups,
    }
}

/// The group of a sensor i that every covering uses; None where some covering leaves i out, as each does a number that is none of the sensors.
pub fn role(spares: &Spares, i: u8) -> Option<u64>
    ensures { (can : ℕ → ℕ → Bool) (sensors claimed : ℕ) → SparesOf can sensors claimed spares.now → Plays can sensors claimed i result }
{
    if i >= NONE {
        return None;
    }
    let u = spares.owner[i as usize];
    if contains(spares.bound, u) {
        Some(spares.groups[u as usize])
    } else {
        None
    }
}
