ghost use Rattle.std.specs.Prelude.{◌≡◌};
ghost use Rattle.model.specs.Entries.{narrow, narrowed};
ghost use Rattle.model.specs.Settled.{Progress};
ghost use Rattle.board.specs.Model.{board, model};
ghost use Rattle.sets.specs.Bounds.{bound_entries};

use board::domains::Domains;

// Set a loses one mask and gains another.
pub fn bound(d: &mut Domains, a: u8, out: u64, sure: u64) -> bool
    ensures board { board d.new ≡ board d.old }
    ensures model { model d.new ≡ narrowed (narrow (board d.old)) (bound_entries a out sure) (model d.old) }
    ensures moved { Progress (board d.old) result (model d.old) (model d.new) }
{
    let cut = d.bar(a, out);
    let raised = d.claim(a, sure);
    cut | raised
}
