ghost use Rattle.std.specs.Prelude.{◌≡◌};
ghost use Rattle.model.specs.Entries.{narrow, narrowed};
ghost use Rattle.model.specs.Settled.{Progress};
ghost use Rattle.board.specs.Model.{board, model};
ghost use Rattle.sets.specs.Counts.{count_fault, count_holds, count_run, count_out, count_in, count_entries};
ghost use Rattle.model.proofs.Asked.{tight-lawful, tight-restful};

use crate::bounds::bound;
use crate::fits::fit_set;
use board::domains::Domains;
use board::refusal::Refusal;
use masks::take_out;
use rule::Rule;

// Set a has least to most members.
// Each kind has a file of one shape. It differs from Row in the relation.
#[derive(Clone, Copy)]
pub struct Count {
    pub a: u8,
    pub least: u8,
    pub most: u8,
}

impl Rule for Count {
    ghost fault = { count_fault };

    ghost holds = { count_holds };

    ghost run = { count_run };

    ghost lawful = { tight-lawful count_fault count_holds };

    ghost restful = { tight-restful count_fault count_holds };

    fn fit(&self, d: &Domains) -> Result<(), Refusal> {
        fit_set(d, self.a)?;
        if self.most < self.least || self.most > 64 {
            return Err(Refusal::Count);
        }
        Ok(())
    }

    #[tactic(auto, using(crate::proofs::CountRuns::count_runs), unfolding(model::specs::Laws::asked))]
    fn narrow(&self, d: &mut Domains) -> bool {
        self.fit(d).is_ok() && self.fill(d)
    }
}

impl Count {
    // Set a takes no more once it has the most, and all it can once that is the least.
    fn fill(&self, d: &mut Domains) -> bool
        ensures board { board d.new ≡ board d.old }
        ensures model { model d.new ≡ narrowed (narrow (board d.old)) (count_entries self.now (model d.old)) (model d.old) }
        ensures moved { Progress (board d.old) result (model d.old) (model d.new) }
    {
        let lo = d.lower(self.a);
        let hi = d.upper(self.a);
        bound(
            d,
            self.a,
            surplus(lo, hi, self.most),
            lacking(hi, self.least),
        )
    }
}

// What the upper bound must lose: all but the lower one where that has the most already, all where it has more.
#[tactic(auto, unfolding(crate::specs::Counts::count_out))]
fn surplus(lo: u64, hi: u64, most: u8) -> u64
    ensures { result ≡ count_out lo hi most }
{
    let sure = lo.count_ones();
    if sure < most as u32 {
        0
    } else if sure == most as u32 {
        take_out(hi, lo)
    } else {
        hi
    }
}

// What the lower bound must gain: the upper one where that has just the least, every number where it has fewer.
#[tactic(auto, unfolding(crate::specs::Counts::count_in))]
fn lacking(hi: u64, least: u8) -> u64
    ensures { result ≡ count_in hi least }
{
    let open = hi.count_ones();
    if open > least as u32 {
        0
    } else if open == least as u32 {
        hi
    } else {
        u64::MAX
    }
}
