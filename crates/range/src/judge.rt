ghost use Rattle.std.specs.Prelude.{ℕ, Bool, MatchOption, is_some};
ghost use Rattle.covering.specs.Covering.{candidate, Short};
ghost use Rattle.covering.specs.Roles.{Plays};
ghost use Rattle.range.specs.Judged.{Looked, Judged};

use crate::read::Reading;
use covering::bits::with;
use covering::cover::cover;
use masks::{contains, members};
use spares::spares::{role, spare_all};

/// What the coverings leave: for each sensor its slots, the sensors that every covering uses, and the slots that the others have.
#[derive(Clone, Copy)]
pub struct Verdict {
    pub keep: [u64; 64],
    pub bound: u64,
    pub near: u64,
}

impl Reading {
    /// What sensor i with the candidates `own` keeps. One that every covering uses has its group as `role`, and keeps the slots that coverings
    /// give it; of the others those in lo S keep the slots of hi T, and the rest keep all.
    pub fn kept(&self, role: Option<u64>, own: u64, i: u8) -> u64
        ensures { (can : ℕ → ℕ → Bool) (sensors claimed : ℕ) → Plays can sensors claimed i role → Looked can sensors claimed self.now.lower self.now.upper own result i (is_some role) }
    {
        match role {
            Some(group) => own & group,
            None if contains(self.lower, i) => own & self.upper,
            None => own,
        }
    }

    /// Looks at each of the sensors, if they cover the claimed slots.
    pub fn judge(&self) -> Option<Verdict>
        ensures { MatchOption result ((z : ℕ) × Short (candidate self.now.cands) self.now.sensors self.now.claimed z) (λ v. Judged self.now.cands self.now.sensors self.now.claimed self.now.lower self.now.upper 0 v.keep v.bound v.near) }
    {
        let Ok(notes) = cover(&self.cands, self.sensors, self.claimed) else {
            return None;
        };
        let spares = spare_all(&notes, &self.cands);
        let mut keep = self.cands;
        let mut bound = 0;
        let mut near = 0;
        for i in members(self.sensors) {
            let own = self.cands[i as usize];
            let role = role(&spares, i);
            keep[i as usize] = self.kept(role, own, i);
            if role.is_some() {
                bound = with(bound, i);
            } else {
                near |= own & self.upper;
            }
        }
        Some(Verdict { keep, bound, near })
    }
}
