ghost use Rattle.std.specs.Prelude.{◌≡◌, false, ◌≢◌};
ghost use Rattle.board.specs.Numbers.{outcome};
ghost use Rattle.board.specs.Model.{board};
ghost use Rattle.plan.specs.States.{SameLoan, Unchanged, state_of, free_places};
ghost use Rattle.named.specs.Causes.{all_different_causes, n_value_causes, among_causes};
ghost use Rattle.named.specs.Meanings.{AllDifferentMeans, NValueMeans, AmongMeans};
ghost use Rattle.named.specs.Parts.{Whole, all_different_calls, n_value_calls, among_calls};

use crate::causes::{beyond, check_pair, no_range};
use crate::parts::{enter_count, enter_is, enter_range};
use board::refusal::Refusal;
use kinds::SheetRule;
use plan::draft::Draft;
use roots::roots::Roots;

// No two sensors of g share a slot. Names a sensor set s and a slot set t as helpers.
// Masks and sets stay parameters: a struct for the helper sets would ask each caller to make one, for one call.
pub fn all_different(draft: &mut Draft<'_, SheetRule>, g: u64, s: u8, t: u8) -> Result<(), Refusal>
    ensures lent { SameLoan draft.old draft.new }
    ensures whole { Whole (all_different_causes (board draft.old.plan) (free_places (state_of draft.old)) g s t) (all_different_calls (board draft.old.plan) g s t) (outcome result) (state_of draft.old) (state_of draft.new) }
    ensures refused { (outcome result ≢ 0) → Unchanged draft.old draft.new }
    ensures means { outcome result ≡ 0 → AllDifferentMeans (board draft.old.plan) g s t }
{
    let size = g.count_ones() as u8;
    n_value(draft, g, size, size, s, t)
}

// The sensors of g are on p to q slots. Names a sensor set s and a slot set t as helpers.
pub fn n_value(
    draft: &mut Draft<'_, SheetRule>,
    g: u64,
    p: u8,
    q: u8,
    s: u8,
    t: u8,
) -> Result<(), Refusal>
    ensures lent { SameLoan draft.old draft.new }
    ensures whole { Whole (n_value_causes (board draft.old.plan) (free_places (state_of draft.old)) g p q s t) (n_value_calls (board draft.old.plan) g p q s t) (outcome result) (state_of draft.old) (state_of draft.new) }
    ensures refused { (outcome result ≢ 0) → Unchanged draft.old draft.new }
    ensures means { outcome result ≡ 0 → NValueMeans (board draft.old.plan) g p q s t }
{
    check_pair(draft, beyond(g, draft.sensors()), no_range(p, q), s, t)?;
    enter_range(draft, g, s, t);
    enter_count(draft, t, p, q);
    Ok(())
}

// Of the sensors of g, p to q are on slots of v. Names a sensor set s and a slot set t as helpers.
// It has other causes than `n_value` and makes other calls; what they share are functions.
pub fn among(
    draft: &mut Draft<'_, SheetRule>,
    g: u64,
    v: u64,
    p: u8,
    q: u8,
    s: u8,
    t: u8,
) -> Result<(), Refusal>
    ensures lent { SameLoan draft.old draft.new }
    ensures whole { Whole (among_causes (board draft.old.plan) (free_places (state_of draft.old)) g v p q s t) (among_calls (board draft.old.plan) g v p q s t) (outcome result) (state_of draft.old) (state_of draft.new) }
    ensures refused { (outcome result ≢ 0) → Unchanged draft.old draft.new }
    ensures means { outcome result ≡ 0 → AmongMeans (board draft.old.plan) g v p q s t }
{
    let mask = beyond(g, draft.sensors()) || beyond(v, draft.slots());
    check_pair(draft, mask, no_range(p, q), s, t)?;
    enter_is(draft, t, v);
    let _ = draft.post(SheetRule::Roots(Roots { g, s, t }));
    enter_count(draft, s, p, q);
    Ok(())
}
