//! Named constraints at their bounds.
use board::refusal::Refusal;
use kinds::SheetRule;
use named::groups::disjoint;
use named::values::{all_different, n_value};
use plan::draft::Draft;

// No sensor at all differs from itself, and uses no slot.
#[test]
fn empty_groups(rt: HostRuntime) {
    let mut places = [SheetRule::default(); 16];
    let mut draft = Draft::begin(&mut places);
    assert_eq!(rt; draft.new(2, 2, 4, 0b1010), Ok(()));
    assert_eq!(rt; all_different(&mut draft, 0, 0, 1), Ok(()));
    assert_eq!(rt; disjoint(&mut draft, 0, 0b11, 0, 1, 2, 3), Ok(()));
    let settled = draft.settle();
    assert!(rt; !settled.dead());
    let mut draft = settled.reopen();
    assert_eq!(rt; n_value(&mut draft, 0, 1, 2, 0, 1), Ok(()));
    assert!(rt; draft.settle().dead());
}

// Both rules need a place, and where they have not, neither is entered.
#[test]
fn all_or_nothing(rt: HostRuntime) {
    let mut places = [SheetRule::default(); 3];
    let mut draft = Draft::begin(&mut places);
    assert_eq!(rt; draft.new(2, 2, 2, 0b10), Ok(()));
    assert_eq!(rt; all_different(&mut draft, 0b11, 0, 1), Ok(()));
    assert_eq!(rt; all_different(&mut draft, 0b01, 0, 1), Err(Refusal::Room));
    assert_eq!(rt; draft.free(), 1);
    assert_eq!(rt; all_different(&mut draft, 0b111, 0, 1), Err(Refusal::Mask));
    assert!(rt; !draft.settle().dead());
}
