ghost use Rattle.std.specs.Prelude.{◌≡◌};
ghost use Rattle.model.specs.Entries.{narrow, narrowed};
ghost use Rattle.model.specs.Settled.{Progress};
ghost use Rattle.board.specs.Model.{board, model};
ghost use Rattle.sets.specs.Aparts.{apart_fault, apart_holds, apart_run, apart_entries};
ghost use Rattle.model.proofs.Asked.{tight-lawful, tight-restful};

use crate::fits::fit_pair;
use board::domains::Domains;
use board::refusal::Refusal;
use rule::Rule;

// Sets a and b share no member.
// Each kind has a file of one shape. It differs from Within in the relation.
#[derive(Clone, Copy)]
pub struct Apart {
    pub a: u8,
    pub b: u8,
}

impl Rule for Apart {
    ghost fault = { apart_fault };

    ghost holds = { apart_holds };

    ghost run = { apart_run };

    ghost lawful = { tight-lawful apart_fault apart_holds };

    ghost restful = { tight-restful apart_fault apart_holds };

    fn fit(&self, d: &Domains) -> Result<(), Refusal> {
        fit_pair(d, self.a, self.b)
    }

    #[tactic(auto, using(crate::proofs::ApartRuns::apart_runs), unfolding(model::specs::Laws::asked))]
    fn narrow(&self, d: &mut Domains) -> bool {
        self.fit(d).is_ok() && self.part(d)
    }
}

impl Apart {
    // Each set loses what the other surely has.
    fn part(&self, d: &mut Domains) -> bool
        ensures board { board d.new ≡ board d.old }
        ensures model { model d.new ≡ narrowed (narrow (board d.old)) (apart_entries self.now (model d.old)) (model d.old) }
        ensures moved { Progress (board d.old) result (model d.old) (model d.new) }
    {
        let sure_a = d.lower(self.a);
        let sure_b = d.lower(self.b);
        let cut_a = d.bar(self.a, sure_b);
        let cut_b = d.bar(self.b, sure_a);
        cut_a | cut_b
    }
}
