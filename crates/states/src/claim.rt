use plan::draft::Draft;
use sets::within::Within;

pub fn enters_claim(places: &mut [Within]) -> bool {
    let draft = Draft::begin(places);
    let mut plan = draft.settle().reopen();
    plan.claim(0, 1).is_ok()
}
