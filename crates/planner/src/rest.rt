ghost use Rattle.std.specs.Prelude.{◌≡◌, true, false};
ghost use Rattle.model.specs.Calls.{does, settle as settling};
ghost use Rattle.board.specs.Model.{model};
ghost use Rattle.plan.specs.States.{state_of, settled_of};
ghost use Rattle.plan.specs.Trust.{Trusted};
ghost use Rattle.kinds.specs.SheetRules.{sheet_fault, sheet_holds, sheet_run};
ghost use Rattle.planner.specs.Support.{Supports};

use kinds::SheetRule;
use plan::draft::Draft;
use plan::settled::Settled;

// Settles a draft of sheet rules. Whatever mix of calls led to it:
// - the answers and the listing depend only on the entries and rules that were accepted, not on their order or repeats;
// - nothing is struck that a layout uses which keeps them all, and a layout that alone is left keeps them all;
// - unless it is a dead end, no choice is left that a Range rule does not support, or a Roots rule whose slot set is decided.
pub fn settle<'a>(draft: Draft<'a, SheetRule>) -> Settled<'a, SheetRule>
    ensures lent { result.places.ghost_name ≡ draft.entry.places.ghost_name }
    ensures places { (result.places.now ≡ draft.entry.places.now) × (result.count ≡ draft.entry.count) }
    ensures plan { settled_of result ≡ does sheet_fault sheet_run settling (state_of draft.entry) }
    ensures trusted { Trusted sheet_fault sheet_holds sheet_run (state_of draft.entry) (model result.plan) }
    ensures supports { Supports (state_of draft.entry) (model result.plan) }
{
    draft.settle()
}
