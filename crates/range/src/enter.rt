ghost use Rattle.std.specs.Prelude.{◌≡◌, ℕ, bit_or};
ghost use Rattle.model.specs.Settled.{Progress};
ghost use Rattle.board.specs.Model.{board, model};
ghost use Rattle.range.specs.Entered.{Limited, Confined, Entered};
ghost use Rattle.range.specs.Survey.{Sure};

use crate::judge::Verdict;
use crate::range::Range;
use crate::read::Reading;
use crate::survey::sure;
use board::domains::Domains;
use masks::{members, take_out};

/// Limits each of the sensors to its slots.
pub fn limit_all(d: &mut Domains, sensors: u64, keep: &[u64; 64]) -> bool
    ensures board { board d.new ≡ board d.old }
    ensures model { Limited (board d.old) sensors keep.now 0 (model d.old) (model d.new) }
    ensures moved { Progress (board d.old) result (model d.old) (model d.new) }
{
    let mut moved = false;
    for i in members(sensors) {
        moved |= d.limit(i, keep[i as usize]);
    }
    moved
}

/// Takes what is not in the mask out of the upper bound of a set.
pub fn confine(d: &mut Domains, set: u8, mask: u64) -> bool
    ensures board { board d.new ≡ board d.old }
    ensures model { Confined (board d.old) set mask (model d.old) (model d.new) }
    ensures moved { Progress (board d.old) result (model d.old) (model d.new) }
{
    let outside = take_out(d.upper(set), mask);
    d.bar(set, outside)
}

impl Range {
    /// Enters what the coverings leave, and that set s lies within the sensors, and that t holds the slots that are the last one for a sensor in lo S.
    pub(crate) fn enter(&self, d: &mut Domains, was: &Reading, verdict: &Verdict) -> bool
        ensures board { board d.new ≡ board d.old }
        ensures model { (single : ℕ) × Sure was.now.cands was.now.lower was.now.upper 0 single × Entered (board d.old) self.now.s self.now.t was.now.sensors verdict.now.keep verdict.now.bound (bit_or was.now.claimed verdict.now.near) single (model d.old) (model d.new) }
        ensures moved { Progress (board d.old) result (model d.old) (model d.new) }
    {
        let single = sure(&was.cands, was.lower, was.upper);
        let limited = limit_all(d, was.sensors, &verdict.keep);
        let s_cut = confine(d, self.s, was.sensors);
        let s_raised = d.claim(self.s, verdict.bound);
        let t_cut = confine(d, self.t, was.claimed | verdict.near);
        let t_raised = d.claim(self.t, single);
        limited | s_cut | s_raised | t_cut | t_raised
    }
}
