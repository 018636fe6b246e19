// Where rules hold. Nothing here calls the planner.
ghost use Rattle.std.specs.Prelude.{◌≡◌, Bool, ◌&&◌, ◌==◌};
ghost use Rattle.exhaustive.specs.declared.small.Layout.{Layout};
ghost use Rattle.exhaustive.specs.Small.{set_at, inside};
ghost use Rattle.exhaustive.specs.Relations.{slot_in_lem, slots_of, root_in_lem, roots_of_lem, counted, rowed, sheet_kept, part_kept};

use crate::reads::{is_in, meets, only};
use crate::small::Layout;
use kinds::SheetRule;
use roots::implication::Implication;

// What is asked of a layout.
pub trait Relation {
    ghost kept: { Self → Layout → Bool };

    fn holds(&self, x: &Layout) -> bool
        ensures { result ≡ kept self.now x.now };
}

impl Relation for SheetRule {
    ghost kept = { sheet_kept };

    fn holds(&self, x: &Layout) -> bool {
        match *self {
            SheetRule::Range(r) => is_range(r.g, x.members(r.s), x.members(r.t), x),
            SheetRule::Roots(r) => x.members(r.s) == roots_of(x, r.g, x.members(r.t)),
            SheetRule::Within(r) => is_in(x.members(r.a), x.members(r.b)),
            SheetRule::Apart(r) => !meets(x.members(r.a), x.members(r.b)),
            SheetRule::Count(r) => is_counted(x.members(r.a), r.least, r.most),
            SheetRule::Row(r) => is_row(x.members(r.a)),
        }
    }
}

impl Relation for Implication {
    ghost kept = { part_kept };

    fn holds(&self, x: &Layout) -> bool {
        match *self {
            Implication::Excluded { sensor, s } => !meets(x.members(s), only(sensor)),
            Implication::Implies { sensor, s, t } => {
                !meets(x.members(s), only(sensor)) || meets(x.slot(sensor), x.members(t))
            }
            Implication::ImpliedBy { sensor, s, t } => {
                !meets(x.slot(sensor), x.members(t)) || meets(x.members(s), only(sensor))
            }
        }
    }
}

// S lies within g, and t is exactly the slots of its sensors.
fn is_range(g: u64, s: u64, t: u64, x: &Layout) -> bool
    ensures { result ≡ (inside s g && t == slots_of x.now s) }
{
    is_in(s, g) && t == slots_of(x, s)
}

// The slots of the sensors in s.
fn slots_of(x: &Layout, s: u64) -> u64
    ensures { result ≡ slots_of x.now s }
{
    slot_in(x, s, 0) | slot_in(x, s, 1) | slot_in(x, s, 2)
}

fn slot_in(x: &Layout, s: u64, i: u8) -> u64
    ensures { result ≡ slot_in_lem x.now s i }
{
    if meets(s, only(i)) { x.slot(i) } else { 0 }
}

// The sensors of g whose slot is in t.
fn roots_of(x: &Layout, g: u64, t: u64) -> u64
    ensures { result ≡ roots_of_lem x.now g t }
{
    root_in(x, g, t, 0) | root_in(x, g, t, 1) | root_in(x, g, t, 2)
}

fn root_in(x: &Layout, g: u64, t: u64, i: u8) -> u64
    ensures { result ≡ root_in_lem x.now g t i }
{
    if meets(g, only(i)) && meets(x.slot(i), t) {
        only(i)
    } else {
        0
    }
}

fn is_counted(m: u64, least: u8, most: u8) -> bool
    ensures { result ≡ counted m least most }
{
    least as u32 <= m.count_ones() && m.count_ones() <= most as u32
}

// Below three, only 0 and 2 without 1 leave a gap.
fn is_row(m: u64) -> bool
    ensures { result ≡ rowed m }
{
    m != 0 && m != 0b101
}
