#![tactic(auto)]

// The numbers at which an answer turns.
#[cfg(test)]
mod files;
#[cfg(test)]
mod mixes;
#[cfg(test)]
mod parts;
#[cfg(test)]
mod records;

#[cfg(test)]
mod tests {
    use board::refusal::Refusal;
    use kinds::SheetRule;
    use plan::draft::Draft;
    use plan::settled::Bounds;
    use sets::count::Count;
    use sets::row::Row;
    use sets::within::Within;

    const ROW: SheetRule = SheetRule::Row(Row { a: 0 });

    #[test]
    fn boards(rt: HostRuntime) {
        let mut places = [SheetRule::default(); 1];
        let mut draft = Draft::begin(&mut places);
        assert_eq!(rt; draft.new(64, 64, 32, u32::MAX), Ok(()));
        assert_eq!(rt; draft.new(65, 64, 32, 0), Err(Refusal::Board));
        assert_eq!(rt; draft.new(64, 65, 32, 0), Err(Refusal::Board));
        assert_eq!(rt; draft.new(64, 64, 33, 0), Err(Refusal::Board));
        assert_eq!(rt; draft.new(0, 1, 0, 0), Err(Refusal::Board));
        assert_eq!(rt; draft.new(1, 0, 0, 0), Err(Refusal::Board));
        assert_eq!(rt; draft.new(1, 1, 3, 0b1000), Err(Refusal::Board));
        assert_eq!(rt; draft.new(1, 1, 3, 0b111), Ok(()));
    }

    #[test]
    fn entries(rt: HostRuntime) {
        let mut places = [SheetRule::default(); 1];
        let mut draft = Draft::begin(&mut places);
        assert_eq!(rt; draft.new(2, 3, 2, 0b10), Ok(()));
        assert_eq!(rt; draft.limit(2, 1), Err(Refusal::Sensor));
        assert_eq!(rt; draft.limit(1, 0b1000), Err(Refusal::Mask));
        assert_eq!(rt; draft.limit(1, 0b111), Ok(()));
        assert_eq!(rt; draft.claim(2, 1), Err(Refusal::Set));
        assert_eq!(rt; draft.claim(0, 0b100), Err(Refusal::Mask));
        assert_eq!(rt; draft.claim(1, 0b100), Ok(()));
        assert_eq!(rt; draft.bar(0, 0b11), Ok(()));
        let settled = draft.settle();
        assert_eq!(rt; settled.candidates(2), Err(Refusal::Sensor));
        assert_eq!(rt; settled.bounds(2), Err(Refusal::Set));
        assert_eq!(rt;
            settled.bounds(1),
            Ok(Bounds {
                lower: 0b100,
                upper: 0b111,
            })
        );
    }

    // A dead draft takes entries and rules as any other, and stays dead.
    #[test]
    fn dead_draft(rt: HostRuntime) {
        let mut places = [SheetRule::default(); 1];
        let mut draft = Draft::begin(&mut places);
        assert_eq!(rt; draft.new(2, 3, 1, 0), Ok(()));
        assert_eq!(rt; draft.limit(0, 0), Ok(()));
        assert_eq!(rt; draft.claim(0, 0b11), Ok(()));
        assert_eq!(rt; draft.claim(0, 0b100), Err(Refusal::Mask));
        assert_eq!(rt; draft.post(ROW), Ok(()));
        let settled = draft.settle();
        assert!(rt; settled.dead());
        assert_eq!(rt; settled.bounds(0), Ok(Bounds { lower: 0, upper: 0 }));
    }

    #[test]
    fn rules(rt: HostRuntime) {
        let mut places = [SheetRule::default(); 300];
        let mut draft = Draft::begin(&mut places);
        assert_eq!(rt; draft.new(2, 2, 3, 0b100), Ok(()));
        assert_eq!(rt;
            draft.post(SheetRule::Within(Within { a: 0, b: 3 })),
            Err(Refusal::Set)
        );
        assert_eq!(rt;
            draft.post(SheetRule::Within(Within { a: 0, b: 2 })),
            Err(Refusal::Kind)
        );
        assert_eq!(rt;
            draft.post(SheetRule::Within(Within { a: 1, b: 1 })),
            Err(Refusal::Twice)
        );
        assert_eq!(rt;
            draft.post(SheetRule::Count(Count {
                a: 0,
                least: 2,
                most: 1,
            })),
            Err(Refusal::Count)
        );
        assert_eq!(rt;
            draft.post(SheetRule::Count(Count {
                a: 0,
                least: 0,
                most: 65,
            })),
            Err(Refusal::Count)
        );
        for _ in 0..256 {
            assert_eq!(rt; draft.post(ROW), Ok(()));
        }
        assert_eq!(rt; draft.post(ROW), Err(Refusal::Room));
        assert_eq!(rt;
            draft.post(SheetRule::Within(Within { a: 1, b: 1 })),
            Err(Refusal::Twice)
        );
    }

    // A table holds no more rules than it has places.
    #[test]
    fn one_place(rt: HostRuntime) {
        let mut places = [SheetRule::default(); 1];
        let mut draft = Draft::begin(&mut places);
        assert_eq!(rt; draft.new(2, 2, 1, 0), Ok(()));
        assert_eq!(rt; draft.post(ROW), Ok(()));
        assert_eq!(rt; draft.post(ROW), Err(Refusal::Room));
    }

    #[test]
    fn short_output(rt: HostRuntime) {
        let mut places = [SheetRule::default(); 1];
        let draft = Draft::begin(&mut places);
        let settled = draft.settle();
        let mut short = [7u8; 11];
        assert_eq!(rt; settled.listing(&mut short), Err(Refusal::Output));
        assert_eq!(rt; short[0], 7);
        let mut enough = [7u8; 13];
        assert_eq!(rt; settled.listing(&mut enough), Ok(12));
        assert_eq!(rt; enough[12], 7);
    }
}
