use plan::draft::Draft;
use sets::within::Within;

pub fn reads_dead(places: &mut [Within]) -> bool {
    let draft = Draft::begin(places);
    let plan = draft.settle();
    plan.dead()
}
