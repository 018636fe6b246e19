//! The answers to a mix of calls: as results and as numbers, as far as there are places for them.
use board::refusal::Refusal;
use kinds::SheetRule;
use mix::{Step, play};
use plan::draft::Draft;

const STEPS: [Step<SheetRule>; 4] = [
    Step::Limit {
        sensor: 1,
        mask: 0b11,
    },
    Step::Limit { sensor: 2, mask: 1 },
    Step::Claim { set: 0, mask: 1 },
    Step::Settle,
];

#[test]
fn answers_either_way(rt: HostRuntime) {
    let mut places = [SheetRule::default(); 1];
    let mut draft = Draft::begin(&mut places);
    assert_eq!(rt; draft.new(2, 2, 0, 0), Ok(()));
    let mut results = [Ok(()); 3];
    let draft = play(draft, &STEPS, &mut results);
    assert_eq!(rt; results, [Ok(()), Err(Refusal::Sensor), Err(Refusal::Set)]);
    let mut numbers = [9u8; 5];
    let draft = play(draft, &STEPS, &mut numbers);
    assert_eq!(rt; numbers, [0, 2, 3, 0, 9]);
    assert_eq!(rt; draft.settle().candidates(1), Ok(0b11));
}
