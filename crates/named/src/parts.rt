ghost use Rattle.std.specs.Prelude.{◌≡◌, false, [], ◌∷◌};
ghost use Rattle.model.specs.Calls.{post};
ghost use Rattle.board.specs.Model.{board};
ghost use Rattle.plan.specs.States.{SameLoan, state_of};
ghost use Rattle.named.specs.Parts.{afterwards, is_calls, range_calls, count_rule};

use kinds::SheetRule;
use masks::{all_below, take_out};
use plan::draft::Draft;
use range::range::Range;
use sets::count::Count;

// Enters that a set is the mask: a claim of the mask and a bar of the other numbers.
pub(crate) fn enter_is(draft: &mut Draft<'_, SheetRule>, set: u8, mask: u64)
    ensures lent { SameLoan draft.old draft.new }
    ensures plan { state_of draft.new ≡ afterwards (is_calls (board draft.old.plan) set mask) (state_of draft.old) }
{
    let others = take_out(all_below(draft.kind_size(set)), mask);
    let _ = draft.claim(set, mask);
    let _ = draft.bar(set, others);
}

// Enters that s is the sensors of g, and t their slots.
pub(crate) fn enter_range(draft: &mut Draft<'_, SheetRule>, g: u64, s: u8, t: u8)
    ensures lent { SameLoan draft.old draft.new }
    ensures plan { state_of draft.new ≡ afterwards (range_calls (board draft.old.plan) g s t) (state_of draft.old) }
{
    enter_is(draft, s, g);
    let _ = draft.post(SheetRule::Range(Range { g, s, t }));
}

// Enters that a has p to q members.
pub(crate) fn enter_count(draft: &mut Draft<'_, SheetRule>, a: u8, p: u8, q: u8)
    ensures lent { SameLoan draft.old draft.new }
    ensures plan { state_of draft.new ≡ afterwards (post (count_rule a p q) ∷ []) (state_of draft.old) }
{
    let _ = draft.post(SheetRule::Count(Count {
        a,
        least: p,
        most: q,
    }));
}
