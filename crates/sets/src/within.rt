ghost use Rattle.std.specs.Prelude.{◌≡◌};
ghost use Rattle.model.specs.Entries.{narrow, narrowed};
ghost use Rattle.model.specs.Settled.{Progress};
ghost use Rattle.board.specs.Model.{board, model};
ghost use Rattle.sets.specs.Withins.{within_fault, within_holds, within_run, within_entries};
ghost use Rattle.model.proofs.Asked.{tight-lawful, tight-restful};

use crate::fits::fit_pair;
use board::domains::Domains;
use board::refusal::Refusal;
use masks::take_out;
use rule::Rule;

// Set a lies in set b.
// Each kind has a file of one shape. It differs from Apart in the relation.
#[derive(Clone, Copy)]
pub struct Within {
    pub a: u8,
    pub b: u8,
}

impl Rule for Within {
    ghost fault = { within_fault };

    ghost holds = { within_holds };

    ghost run = { within_run };

    ghost lawful = { tight-lawful within_fault within_holds };

    ghost restful = { tight-restful within_fault within_holds };

    fn fit(&self, d: &Domains) -> Result<(), Refusal> {
        fit_pair(d, self.a, self.b)
    }

    #[tactic(auto, using(crate::proofs::WithinRuns::within_runs), unfolding(model::specs::Laws::asked))]
    fn narrow(&self, d: &mut Domains) -> bool {
        self.fit(d).is_ok() && self.squeeze(d)
    }
}

impl Within {
    // Set a loses what b cannot have, and b gains what a surely has.
    fn squeeze(&self, d: &mut Domains) -> bool
        ensures board { board d.new ≡ board d.old }
        ensures model { model d.new ≡ narrowed (narrow (board d.old)) (within_entries self.now (model d.old)) (model d.old) }
        ensures moved { Progress (board d.old) result (model d.old) (model d.new) }
    {
        let outside = take_out(d.upper(self.a), d.upper(self.b));
        let sure = d.lower(self.a);
        let cut = d.bar(self.a, outside);
        let raised = d.claim(self.b, sure);
        cut | raised
    }
}
