ghost use Rattle.std.specs.Prelude.{◌≡◌};
ghost use Rattle.model.specs.Entries.{narrow, narrowed};
ghost use Rattle.model.specs.Settled.{Progress};
ghost use Rattle.board.specs.Model.{board, model};
ghost use Rattle.sets.specs.Rows.{row_fault, row_holds, row_run, row_out, row_in, row_entries};
ghost use Rattle.model.proofs.Asked.{tight-lawful, tight-restful};

use crate::bounds::bound;
use crate::fits::fit_set;
use board::domains::Domains;
use board::refusal::Refusal;
use masks::{is_single, lowest, past, stretch, take_out};
use rule::Rule;

// Set a has members, and they are consecutive numbers.
// Each kind has a file of one shape. It differs from Count in the relation.
#[derive(Clone, Copy)]
pub struct Row {
    pub a: u8,
}

impl Rule for Row {
    ghost fault = { row_fault };

    ghost holds = { row_holds };

    ghost run = { row_run };

    ghost lawful = { tight-lawful row_fault row_holds };

    ghost restful = { tight-restful row_fault row_holds };

    fn fit(&self, d: &Domains) -> Result<(), Refusal> {
        fit_set(d, self.a)
    }

    #[tactic(auto, using(crate::proofs::RowRuns::row_runs), unfolding(model::specs::Laws::asked))]
    fn narrow(&self, d: &mut Domains) -> bool {
        self.fit(d).is_ok() && self.close(d)
    }
}

impl Row {
    // Set a gains what lies between its members, and loses what no row through them reaches.
    fn close(&self, d: &mut Domains) -> bool
        ensures board { board d.new ≡ board d.old }
        ensures model { model d.new ≡ narrowed (narrow (board d.old)) (row_entries self.now (model d.old)) (model d.old) }
        ensures moved { Progress (board d.old) result (model d.old) (model d.new) }
    {
        let lo = d.lower(self.a);
        let hi = d.upper(self.a);
        bound(d, self.a, out_of_reach(lo, hi), inner(lo, hi))
    }
}

// The members of the upper bound that no row through the lower one reaches.
#[tactic(auto, unfolding(crate::specs::Rows::row_out))]
fn out_of_reach(lo: u64, hi: u64) -> u64
    ensures { result ≡ row_out lo hi }
{
    if lo == 0 {
        return 0;
    }
    let gaps_before = take_out(stretch(0, lowest(lo)), hi);
    let gaps_after = take_out(stretch(past(lo), 64), hi);
    take_out(hi, stretch(past(gaps_before), lowest(gaps_after)))
}

// What every row between the bounds has: what lies between the members of the lower one. Where it has none, the one member of the upper one;
// and where that has none, so that there is no row, every number.
#[tactic(auto, unfolding(crate::specs::Rows::row_in))]
fn inner(lo: u64, hi: u64) -> u64
    ensures { result ≡ row_in lo hi }
{
    if lo != 0 {
        stretch(lowest(lo), past(lo))
    } else if hi == 0 {
        u64::MAX
    } else if is_single(hi) {
        hi
    } else {
        0
    }
}
