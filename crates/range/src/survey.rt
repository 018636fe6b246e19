ghost use Rattle.range.specs.Survey.{Able, Sure};

use covering::bits::with;
use masks::{is_single, members};

/// Those of the sensors that have a candidate among the slots.
pub fn able(cands: &[u64; 64], sensors: u64, slots: u64) -> u64
    ensures { Able cands.now sensors slots 0 result }
{
    let mut found = 0;
    // This loop and that of `sure` share the walk alone: they differ in the test and in what they gather.
    for i in members(sensors) {
        if cands[i as usize] & slots != 0 {
            found = with(found, i);
        }
    }
    found
}

/// The slots that are the last one of the slots for some of the sensors.
pub fn sure(cands: &[u64; 64], sensors: u64, slots: u64) -> u64
    ensures { Sure cands.now sensors slots 0 result }
{
    let mut found = 0;
    for i in members(sensors) {
        let own = cands[i as usize] & slots;
        if is_single(own) {
            found |= own;
        }
    }
    found
}
