use plan::draft::Draft;
use sets::within::Within;

pub fn reads_listing(places: &mut [Within], out: &mut [u8]) -> bool {
    let draft = Draft::begin(places);
    let plan = draft.settle();
    plan.listing(out).is_ok()
}
