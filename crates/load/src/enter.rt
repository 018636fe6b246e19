//! The second pass: the records of a checked file are entered.
ghost use Rattle.std.specs.Prelude.{◌≡◌, None};
ghost use Rattle.load.specs.Acts.{verdict, taken};
ghost use Rattle.load.specs.Walks.{walks_on};
ghost use Rattle.plan.specs.States.{SameLoan, state_of};
ghost use Rattle.load.specs.Loads.{first_fault, closing};

use crate::act::Act;
use board::refusal::Refusal;
use kinds::SheetRule;
use plan::draft::Draft;
use sheet::Reader;

#[tactic(auto, unfolding(crate::specs::Acts::verdict, crate::specs::Acts::taken))]
fn enter(act: Act, draft: &mut Draft<'_, SheetRule>) -> Result<(), Refusal>
    ensures lent { SameLoan draft.old draft.new }
    ensures plan { verdict act (state_of draft.old) ≡ 0 → state_of draft.new ≡ taken act (state_of draft.old) }
{
    match act {
        Act::New { n, m, k, kinds } => draft.new(n, m, k, kinds),
        Act::Name { .. } => Ok(()),
        Act::Limit { sensor, mask } => draft.limit(sensor, mask),
        Act::Claim { set, mask } => draft.claim(set, mask),
        Act::Bar { set, mask } => draft.bar(set, mask),
        Act::Post(rule) => draft.post(rule),
    }
}

/// Enters the records that a reader has still to read.
pub(crate) fn enter_records(mut reader: Reader<'_>, draft: &mut Draft<'_, SheetRule>)
    ensures lent { SameLoan draft.old draft.new }
    ensures plan { first_fault (state_of draft.old) (walks_on reader.entry) ≡ None → state_of draft.new ≡ closing (state_of draft.old) (walks_on reader.entry) }
{
    while let Ok(Some(one)) = reader.next() {
        let _ = enter(Act::from(one), draft);
    }
}
