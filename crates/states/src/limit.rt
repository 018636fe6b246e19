use plan::draft::Draft;
use sets::within::Within;

pub fn enters_limit(places: &mut [Within]) -> bool {
    let draft = Draft::begin(places);
    let mut plan = draft.settle().reopen();
    plan.limit(0, 1).is_ok()
}
