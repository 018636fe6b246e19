use plan::draft::Draft;
use sets::within::Within;

pub fn enters_bar(places: &mut [Within]) -> bool {
    let draft = Draft::begin(places);
    let mut plan = draft.settle().reopen();
    plan.bar(0, 1).is_ok()
}
