ghost use Rattle.board.specs.Model.{model};
ghost use Rattle.range.specs.Survey.{Read};

use crate::range::Range;
use crate::survey::able;
use board::domains::Domains;

/// What a run reads before it writes: all candidates, lo S, lo T, hi T, and the sensors that may be in S.
#[derive(Clone, Copy)]
pub struct Reading {
    pub cands: [u64; 64],
    pub lower: u64,
    pub claimed: u64,
    pub upper: u64,
    pub sensors: u64,
}

impl Range {
    /// Reads what the rule needs. The sensors that may be in S are those of g and hi S with a candidate in hi T.
    pub(crate) fn read(&self, d: &Domains) -> Reading
        ensures { Read self.now.g self.now.s self.now.t (model d.now) result.cands result.lower result.claimed result.upper result.sensors }
    {
        let cands = d.all_candidates();
        let upper = d.upper(self.t);
        let sensors = able(&cands, d.upper(self.s) & self.g, upper);
        Reading {
            cands,
            lower: d.lower(self.s),
            claimed: d.lower(self.t),
            upper,
            sensors,
        }
    }
}
