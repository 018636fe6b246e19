ghost use Rattle.std.specs.Prelude.{ℕ, Bool, IfOk, MatchResult};
ghost use Rattle.covering.specs.Paired.{AllBusy};
ghost use Rattle.covering.specs.Covering.{candidate, Short, Uncoverable};
ghost use Rattle.covering.specs.Notes.{NotesOf};
ghost use Rattle.covering.specs.Roles.{Plays};

use crate::bits::drop_one;
use crate::flip::flip;
use crate::notes::{NONE, Notes, Pairs};
use crate::search::search;
use crate::takers::takers_of;
use masks::members;

/// A covering of the claimed slots by the sensors, or a group of claimed slots that is short of sensors.
/// Which covering and which group may vary. In the covering, all sensors but the idle ones have a slot.
pub fn cover(cands: &[u64; 64], sensors: u64, claimed: u64) -> Result<Notes, u64>
    ensures covers { MatchResult result (λ n. NotesOf (candidate cands.now) sensors claimed n) (λ z. Short (candidate cands.now) sensors claimed z × Uncoverable (candidate cands.now) sensors claimed) }
    ensures busy { IfOk result (λ n. AllBusy n.pairs) }
{
    let takers = takers_of(cands, sensors, claimed);
    let mut pairs = Pairs {
        takers,
        sensors,
        claimed: 0,
        idle: sensors,
        notes: [NONE; 64],
        owner: [NONE; 64],
    };
    let mut from = [NONE; 64];
    for w in members(claimed) {
        // A group is half of the answer and no error to be passed on: both arms are written out.
        match search(&pairs, sensors, w, &mut from) {
            Ok(free) => flip(&mut pairs, &from, free, w),
            Err(group) => return Err(group),
        }
    }
    Ok(Notes { pairs })
}

/// The group of a sensor i that every covering uses: the slots that coverings give i are its candidates in the group. None where some covering
/// leaves i out; a number that is none of the sensors is left out. Which group may vary.
pub fn spare(notes: &Notes, i: u8) -> Option<u64>
    ensures { (can : ℕ → ℕ → Bool) (sensors claimed : ℕ) → NotesOf can sensors claimed notes.now → Plays can sensors claimed i result }
{
    if i >= NONE {
        return None;
    }
    let u = notes.pairs.owner[i as usize];
    if u == NONE {
        return None;
    }
    let mut from = [NONE; 64];
    let Err(group) = search(&notes.pairs, drop_one(notes.pairs.sensors, i), u, &mut from) else {
        return None;
    };
    Some(group)
}
