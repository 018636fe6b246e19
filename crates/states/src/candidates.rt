use plan::draft::Draft;
use sets::within::Within;

pub fn reads_candidates(places: &mut [Within]) -> bool {
    let draft = Draft::begin(places);
    let plan = draft.settle();
    plan.candidates(0).is_ok()
}
