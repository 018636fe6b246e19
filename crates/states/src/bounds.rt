use plan::draft::Draft;
use sets::within::Within;

pub fn reads_bounds(places: &mut [Within]) -> bool {
    let draft = Draft::begin(places);
    let plan = draft.settle();
    plan.bounds(0).is_ok()
}
