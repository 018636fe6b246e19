ghost use Rattle.std.specs.Prelude.{◌≡◌, false, ◌||◌, ◌==◌, nat_lt, if◌then◌else◌};
ghost use Rattle.model.specs.Refusals.{refusal};
ghost use Rattle.board.specs.Numbers.{number, outcome};
ghost use Rattle.board.specs.Model.{board};
ghost use Rattle.plan.specs.States.{state_of, free_places};
ghost use Rattle.named.specs.Causes.{six, absent as absent_of, misfit as misfit_of, beyond as beyond_of, no_range as no_range_of, repeated as repeated_of};

use board::refusal::Refusal;
use kinds::SheetRule;
use masks::is_below;
use plan::draft::Draft;

// The refusal, where its cause is there.
fn refuse(there: bool, why: Refusal) -> Result<(), Refusal>
    ensures { outcome result ≡ (if there then number why else 0) }
{
    if there { Err(why) } else { Ok(()) }
}

// Whether one of two sets is not there.
fn absent(draft: &Draft<'_, SheetRule>, s: u8, t: u8) -> bool
    ensures { result ≡ absent_of (board draft.now.plan) s t }
{
    s >= draft.sets() || t >= draft.sets()
}

// Whether s is no sensor set, or t no slot set.
fn misfit(draft: &Draft<'_, SheetRule>, s: u8, t: u8) -> bool
    ensures { result ≡ misfit_of (board draft.now.plan) s t }
{
    draft.of_slots(s) || !draft.of_slots(t)
}

// Whether a mask has a number at n or above.
pub(crate) fn beyond(mask: u64, n: u8) -> bool
    ensures { result ≡ beyond_of n mask }
{
    !is_below(mask, n)
}

// Whether p to q is no range of counts.
pub(crate) fn no_range(p: u8, q: u8) -> bool
    ensures { result ≡ no_range_of p q }
{
    q < p || 64 < q
}

// Whether one of four sets is named twice.
fn repeated(s: u8, t: u8, u: u8, w: u8) -> bool
    ensures { result ≡ repeated_of s t u w }
{
    s == t || u == w || s == u || t == w || s == w || t == u
}

// The refusal of a constraint with a sensor set, a slot set and two rules. The flags are causes that the caller found.
pub(crate) fn check_pair(
    draft: &Draft<'_, SheetRule>,
    mask: bool,
    count: bool,
    s: u8,
    t: u8,
) -> Result<(), Refusal>
    ensures { outcome result ≡ refusal (six (absent_of (board draft.now.plan) s t) mask (misfit_of (board draft.now.plan) s t) (s == t) count (nat_lt (free_places (state_of draft.now)) 2)) }
{
    refuse(absent(draft, s, t), Refusal::Set)?;
    refuse(mask, Refusal::Mask)?;
    refuse(misfit(draft, s, t), Refusal::Kind)?;
    refuse(s == t, Refusal::Twice)?;
    refuse(count, Refusal::Count)?;
    refuse(draft.free() < 2, Refusal::Room)
}

// The refusal of a constraint with two sensor sets, their slot sets and three rules. The flag is a cause that the caller found.
// A function of its own: it asks two pairs of sets where `check_pair` asks one, and no count.
pub(crate) fn check_four(
    draft: &Draft<'_, SheetRule>,
    mask: bool,
    s: u8,
    t: u8,
    u: u8,
    w: u8,
) -> Result<(), Refusal>
    ensures { outcome result ≡ refusal (six (absent_of (board draft.now.plan) s t || absent_of (board draft.now.plan) u w) mask (misfit_of (board draft.now.plan) s t || misfit_of (board draft.now.plan) u w) (repeated_of s t u w) false (nat_lt (free_places (state_of draft.now)) 3)) }
{
    refuse(absent(draft, s, t) || absent(draft, u, w), Refusal::Set)?;
    refuse(mask, Refusal::Mask)?;
    refuse(misfit(draft, s, t) || misfit(draft, u, w), Refusal::Kind)?;
    refuse(repeated(s, t, u, w), Refusal::Twice)?;
    refuse(draft.free() < 3, Refusal::Room)
}
