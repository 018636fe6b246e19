ghost use Rattle.std.specs.Prelude.{◌≡◌, ◌^◌, ◌<◌, false, bit_or};
ghost use Rattle.masks.specs.Masks.{has};
ghost use Rattle.covering.specs.Paired.{Matched, AllBusy};
ghost use Rattle.covering.specs.Search.{Led};

use crate::bits::{drop_one, with};
use crate::notes::{NONE, Note, Pairs};

/// Claims slot w: each slot on the way back from the free sensor takes the sensor that was seen from it. A way has at most 64 sensors.
pub fn flip(pairs: &mut Pairs, from: &[Note; 64], free: Note, w: Note)
    requires low { w < 64 }
    requires unclaimed { has pairs.old.claimed w ≡ false }
    requires held { Matched pairs.old }
    requires led { Led pairs.old.takers pairs.old.owner pairs.old.sensors w from.now free }
    ensures same { (pairs.new.takers ≡ pairs.old.takers) × (pairs.new.sensors ≡ pairs.old.sensors) }
    ensures more { pairs.new.claimed ≡ bit_or pairs.old.claimed (2 ^ w) }
    ensures busy { AllBusy pairs.old → AllBusy pairs.new }
    ensures held { Matched pairs.new }
{
    let mut i = free;
    // A walk along `from`, which shows no end of its own: the count bounds it, and is no index.
    for _step in 0..NONE {
        let u = from[i as usize];
        let was = pairs.notes[u as usize];
        pairs.notes[u as usize] = i;
        pairs.owner[i as usize] = u;
        if u == w {
            break;
        }
        i = was;
    }
    pairs.idle = drop_one(pairs.idle, free);
    pairs.claimed = with(pairs.claimed, w);
}
