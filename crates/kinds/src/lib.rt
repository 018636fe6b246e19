#![tactic(auto)]

ghost use Rattle.std.specs.Prelude.{◌≡◌};
ghost use Rattle.kinds.specs.SheetRules.{sheet_fault, sheet_holds, sheet_run};
ghost use Rattle.kinds.specs.SheetLaws.{sheet_lawful, sheet_restful};

use board::domains::Domains;
use board::refusal::Refusal;
use range::range::Range;
use roots::roots::Roots;
use rule::Rule;
use sets::apart::Apart;
use sets::count::Count;
use sets::row::Row;
use sets::within::Within;

// A rule of a sheet: one of the kinds, and a kind itself. An enum and no `dyn`, since there is no heap and the kinds are these six.
#[derive(Clone, Copy)]
pub enum SheetRule {
    Range(Range),
    Roots(Roots),
    Within(Within),
    Apart(Apart),
    Count(Count),
    Row(Row),
}

// What a list of rules has at a place that is not used.
impl Default for SheetRule {
    ghost use Rattle.kinds.specs.declared.SheetRule.TheVariants as kind;

    ghost is_default = { λ r. r ≡ kind.Row (record { a = 0 }) };

    fn default() -> SheetRule {
        SheetRule::Row(Row { a: 0 })
    }
}

impl Rule for SheetRule {
    ghost fault = { sheet_fault };

    ghost holds = { sheet_holds };

    ghost run = { sheet_run };

    ghost lawful = { sheet_lawful };

    ghost restful = { sheet_restful };

    fn fit(&self, d: &Domains) -> Result<(), Refusal> {
        match self {
            SheetRule::Range(r) => r.fit(d),
            SheetRule::Roots(r) => r.fit(d),
            SheetRule::Within(r) => r.fit(d),
            SheetRule::Apart(r) => r.fit(d),
            SheetRule::Count(r) => r.fit(d),
            SheetRule::Row(r) => r.fit(d),
        }
    }

    #[tactic(auto, unfolding(model::specs::Laws::asked))]
    fn narrow(&self, d: &mut Domains) -> bool {
        match self {
            SheetRule::Range(r) => r.narrow(d),
            SheetRule::Roots(r) => r.narrow(d),
            SheetRule::Within(r) => r.narrow(d),
            SheetRule::Apart(r) => r.narrow(d),
            SheetRule::Count(r) => r.narrow(d),
            SheetRule::Row(r) => r.narrow(d),
        }
    }
}
