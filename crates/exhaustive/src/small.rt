// Boards of up to three sensors, three slots and two sets, with their layouts and boxes as plain values.

// How many sensors and slots there are, and which of the two sets hold slots.
#[derive(Clone, Copy)]
pub struct Size {
    pub sensors: u8,
    pub slots: u8,
    pub kinds: u64,
}

// The slot of each sensor, as a mask of one, and the members of each set.
// A sensor that the board does not have stands on slot 0, and no rule looks at it.
#[derive(Clone, Copy)]
pub struct Layout {
    pub slots: [u64; 3],
    pub sets: [u64; 2],
}

// The candidates of each sensor and the bounds of each set: lower and upper bounds apart, as the planner's box has them.
#[derive(Clone, Copy, PartialEq, Eq)]
pub struct Small {
    pub cands: [u64; 3],
    pub lo: [u64; 2],
    pub hi: [u64; 2],
}

// The box of no layout: none of them uses a slot or takes a number in, and all of them, being none, have every number.
pub const NOTHING: Small = Small {
    cands: [0; 3],
    lo: [u64::MAX; 2],
    hi: [0; 2],
};
