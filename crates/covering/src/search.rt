ghost use Rattle.std.specs.Prelude.{◌<◌, MatchResult};
ghost use Rattle.covering.specs.Search.{Owners, Led, Stuck};

use crate::bits::{drop_one, split, split_by, with};
use crate::notes::{NONE, Note, Pairs};
use masks::take_out;

/// Looks among the sensors for a free one, from the bare slot w, and leaves in `from` the slot that each sensor was seen from.
/// Without one, the slots reached are the group. Which sensor and which group may vary.
pub fn search(pairs: &Pairs, sensors: u64, w: Note, from: &mut [Note; 64]) -> Result<Note, u64>
    requires low { w < 64 }
    requires owners { Owners pairs.now.owner sensors w }
    ensures { MatchResult result (λ t. Led pairs.now.takers pairs.now.owner sensors w from.new t) (λ z. Stuck pairs.now.takers pairs.now.owner sensors w z) }
{
    let mut unseen = sensors;
    let mut reached = with(0, w);
    let mut pending = reached;
    // `pending` grows while it is worked off, and idle sensors go first: neither is a walk over the members of a mask that stands still.
    let free = 'search: loop {
        let Some((u, _)) = split(pending) else {
            break None;
        };
        let mut fresh = pairs.takers[u as usize] & unseen;
        unseen = take_out(unseen, fresh);
        while let Some((i, others)) = split_by(fresh, pairs.idle) {
            fresh = others;
            from[i as usize] = u;
            let v = pairs.owner[i as usize];
            if v == NONE {
                break 'search Some(i);
            }
            reached = with(reached, v);
            pending = with(pending, v);
        }
        pending = drop_one(pending, u);
    };
    free.ok_or(reached)
}
