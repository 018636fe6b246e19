ghost use Rattle.std.specs.Prelude.{◌≡◌, false, ◌≢◌};
ghost use Rattle.model.specs.Refusals.{refusal};
ghost use Rattle.board.specs.Numbers.{outcome};
ghost use Rattle.board.specs.Model.{board};
ghost use Rattle.plan.specs.States.{SameLoan, Unchanged, state_of, free_places};
ghost use Rattle.named.specs.Causes.{two_groups_causes};
ghost use Rattle.named.specs.Meanings.{DisjointMeans, UsesMeans};
ghost use Rattle.named.specs.Parts.{Whole, afterwards, disjoint_calls, groups_calls, uses_calls};

use crate::causes::{beyond, check_four};
use crate::parts::enter_range;
use board::refusal::Refusal;
use kinds::SheetRule;
use plan::draft::Draft;
use sets::apart::Apart;
use sets::within::Within;

// The sensors of g and those of h have no slot in common. Names the sensor sets s and u and the slot sets t and w as helpers.
// Masks and sets stay parameters: a struct for the helper sets would ask each caller to make one, for one call.
pub fn disjoint(
    draft: &mut Draft<'_, SheetRule>,
    g: u64,
    h: u64,
    s: u8,
    t: u8,
    u: u8,
    w: u8,
) -> Result<(), Refusal>
    ensures lent { SameLoan draft.old draft.new }
    ensures whole { Whole (two_groups_causes (board draft.old.plan) (free_places (state_of draft.old)) g h s t u w) (disjoint_calls (board draft.old.plan) g h s t u w) (outcome result) (state_of draft.old) (state_of draft.new) }
    ensures refused { (outcome result ≢ 0) → Unchanged draft.old draft.new }
    ensures means { outcome result ≡ 0 → DisjointMeans (board draft.old.plan) g h s t u w }
{
    let apart = SheetRule::Apart(Apart { a: t, b: w });
    enter_groups(draft, g, h, s, t, u, w, apart)
}

// Each slot of the sensors of h is a slot of the sensors of g. Names the sensor sets s and u and the slot sets t and w as helpers.
pub fn uses(
    draft: &mut Draft<'_, SheetRule>,
    g: u64,
    h: u64,
    s: u8,
    t: u8,
    u: u8,
    w: u8,
) -> Result<(), Refusal>
    ensures lent { SameLoan draft.old draft.new }
    ensures whole { Whole (two_groups_causes (board draft.old.plan) (free_places (state_of draft.old)) g h s t u w) (uses_calls (board draft.old.plan) g h s t u w) (outcome result) (state_of draft.old) (state_of draft.new) }
    ensures refused { (outcome result ≢ 0) → Unchanged draft.old draft.new }
    ensures means { outcome result ≡ 0 → UsesMeans (board draft.old.plan) g h s t u w }
{
    let within = SheetRule::Within(Within { a: w, b: t });
    enter_groups(draft, g, h, s, t, u, w, within)
}

// The slots of two groups, and a rule on the two slot sets.
fn enter_groups(
    draft: &mut Draft<'_, SheetRule>,
    g: u64,
    h: u64,
    s: u8,
    t: u8,
    u: u8,
    w: u8,
    rule: SheetRule,
) -> Result<(), Refusal>
    ensures lent { SameLoan draft.old draft.new }
    ensures answer { outcome result ≡ refusal (two_groups_causes (board draft.old.plan) (free_places (state_of draft.old)) g h s t u w) }
    ensures accepted { outcome result ≡ 0 → state_of draft.new ≡ afterwards (groups_calls (board draft.old.plan) g h s t u w rule) (state_of draft.old) }
    ensures refused { (outcome result ≢ 0) → Unchanged draft.old draft.new }
{
    let mask = beyond(g, draft.sensors()) || beyond(h, draft.sensors());
    check_four(draft, mask, s, t, u, w)?;
    enter_range(draft, g, s, t);
    enter_range(draft, h, u, w);
    let _ = draft.post(rule);
    Ok(())
}
