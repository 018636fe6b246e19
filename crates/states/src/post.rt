use plan::draft::Draft;
use sets::within::Within;

pub fn enters_post(places: &mut [Within]) -> bool {
    let draft = Draft::begin(places);
    let mut plan = draft.settle().reopen();
    plan.post(Within { a: 0, b: 1 }).is_ok()
}
