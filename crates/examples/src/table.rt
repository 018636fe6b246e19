// The worked examples as values that programs can run.
ghost use Rattle.std.specs.Prelude.{◌≡◌, map};
ghost use Rattle.examples.specs.Cases.{cases};
ghost use Rattle.examples.specs.Table.{as_case};

use kinds::SheetRule;
use range::range::Range;
use roots::roots::Roots;
use sets::apart::Apart;
use sets::count::Count;
use sets::row::Row;
use sets::within::Within;

// How many examples there are.
pub const EXAMPLES: usize = 18;

// How many slots each board has.
pub const SLOTS: u8 = 5;

// The candidates of each sensor, the lower bounds and the upper bounds of the sets, in two lists as in the definitions; zeros beyond the board.
#[derive(Clone, Copy)]
pub struct Boxed(pub [u64; 6], pub [u64; 2], pub [u64; 2]);

// A board of five slots, a rule, a box, and what the rule's run makes of the box.
#[derive(Clone, Copy)]
pub struct Example {
    // what it shows
    pub shows: &'static str,
    pub sensors: u8,
    pub sets: u8,
    pub kinds: u32,
    pub rule: SheetRule,
    pub given: Boxed,
    pub gives: Boxed,
}

// A dead end.
const DEAD: Boxed = Boxed([0; 6], [0; 2], [0; 2]);

// The examples, one for each case of the theorem, in the same order.
pub fn table() -> [Example; EXAMPLES]
    ensures { map as_case result ≡ cases }
{
    [
        Example {
            shows: "Range: the one sensor that can take a claimed slot takes it, and the slots that no sensor has left go",
            sensors: 2,
            sets: 2,
            kinds: 0b10,
            rule: SheetRule::Range(Range {
                g: 0b11,
                s: 0,
                t: 1,
            }),
            given: Boxed(
                [0b01010, 0b10100, 0, 0, 0, 0],
                [0b11, 0b00100],
                [0b11, 0b11111],
            ),
            gives: Boxed(
                [0b01010, 0b00100, 0, 0, 0, 0],
                [0b11, 0b00100],
                [0b11, 0b01110],
            ),
        },
        Example {
            shows: "Range: two claimed slots take two sensors, whichever way round",
            sensors: 3,
            sets: 2,
            kinds: 0b10,
            rule: SheetRule::Range(Range {
                g: 0b111,
                s: 0,
                t: 1,
            }),
            given: Boxed(
                [0b00110, 0b11100, 0b11000, 0, 0, 0],
                [0b111, 0b11000],
                [0b111, 0b11110],
            ),
            gives: Boxed(
                [0b00110, 0b11000, 0b11000, 0, 0, 0],
                [0b111, 0b11000],
                [0b111, 0b11110],
            ),
        },
        Example {
            shows: "Range: the only sensor that can serve a claimed slot is in S",
            sensors: 1,
            sets: 2,
            kinds: 0b10,
            rule: SheetRule::Range(Range { g: 0b1, s: 0, t: 1 }),
            given: Boxed([0b00001, 0, 0, 0, 0, 0], [0b0, 0b00001], [0b1, 0b00011]),
            gives: Boxed([0b00001, 0, 0, 0, 0, 0], [0b1, 0b00001], [0b1, 0b00001]),
        },
        Example {
            shows: "Range: no sensor of G, and one claimed for S",
            sensors: 1,
            sets: 2,
            kinds: 0b10,
            rule: SheetRule::Range(Range { g: 0b0, s: 0, t: 1 }),
            given: Boxed([0b11111, 0, 0, 0, 0, 0], [0b1, 0b00000], [0b1, 0b11111]),
            gives: DEAD,
        },
        Example {
            shows: "Range: two claimed slots with one sensor between them",
            sensors: 2,
            sets: 2,
            kinds: 0b10,
            rule: SheetRule::Range(Range {
                g: 0b11,
                s: 0,
                t: 1,
            }),
            given: Boxed(
                [0b00011, 0b00100, 0, 0, 0, 0],
                [0b11, 0b00011],
                [0b11, 0b00111],
            ),
            gives: DEAD,
        },
        Example {
            shows: "Range: three claimed slots that share two sensors, while another sensor stands elsewhere",
            sensors: 3,
            sets: 2,
            kinds: 0b10,
            rule: SheetRule::Range(Range {
                g: 0b111,
                s: 0,
                t: 1,
            }),
            given: Boxed(
                [0b00111, 0b00111, 0b01000, 0, 0, 0],
                [0b111, 0b00111],
                [0b111, 0b01111],
            ),
            gives: DEAD,
        },
        Example {
            shows: "Range: a claimed slot that is nobody's candidate",
            sensors: 1,
            sets: 2,
            kinds: 0b10,
            rule: SheetRule::Range(Range { g: 0b1, s: 0, t: 1 }),
            given: Boxed([0b00001, 0, 0, 0, 0, 0], [0b0, 0b00010], [0b1, 0b00011]),
            gives: DEAD,
        },
        Example {
            shows: "Roots: it leaves a slot that has no support: slot 3 of sensor 1",
            sensors: 4,
            sets: 2,
            kinds: 0b10,
            rule: SheetRule::Roots(Roots {
                g: 0b1111,
                s: 0,
                t: 1,
            }),
            given: Boxed(
                [0b00110, 0b11000, 0b01010, 0b01100, 0, 0],
                [0b1100, 0b00000],
                [0b1100, 0b11110],
            ),
            gives: Boxed(
                [0b00110, 0b11000, 0b01010, 0b01100, 0, 0],
                [0b1100, 0b00000],
                [0b1100, 0b11110],
            ),
        },
        Example {
            shows: "Roots: sensors surely in S keep what T may have",
            sensors: 2,
            sets: 2,
            kinds: 0b10,
            rule: SheetRule::Roots(Roots {
                g: 0b11,
                s: 0,
                t: 1,
            }),
            given: Boxed(
                [0b01110, 0b01110, 0, 0, 0, 0],
                [0b11, 0b00000],
                [0b11, 0b01010],
            ),
            gives: Boxed(
                [0b01010, 0b01010, 0, 0, 0, 0],
                [0b11, 0b00000],
                [0b11, 0b01010],
            ),
        },
        Example {
            shows: "Roots: a sensor that is only possible in S keeps its candidates outside hi of T",
            sensors: 1,
            sets: 2,
            kinds: 0b10,
            rule: SheetRule::Roots(Roots { g: 0b1, s: 0, t: 1 }),
            given: Boxed([0b01110, 0, 0, 0, 0, 0], [0b0, 0b00000], [0b1, 0b01010]),
            gives: Boxed([0b01110, 0, 0, 0, 0, 0], [0b0, 0b00000], [0b1, 0b01010]),
        },
        Example {
            shows: "Count: a set of two that may have two",
            sensors: 2,
            sets: 1,
            kinds: 0b0,
            rule: SheetRule::Count(Count {
                a: 0,
                least: 2,
                most: 2,
            }),
            given: Boxed([0b00001, 0b00001, 0, 0, 0, 0], [0b00, 0], [0b11, 0]),
            gives: Boxed([0b00001, 0b00001, 0, 0, 0, 0], [0b11, 0], [0b11, 0]),
        },
        Example {
            shows: "Count: a set of none that has one",
            sensors: 2,
            sets: 1,
            kinds: 0b0,
            rule: SheetRule::Count(Count {
                a: 0,
                least: 0,
                most: 0,
            }),
            given: Boxed([0b00001, 0b00001, 0, 0, 0, 0], [0b10, 0], [0b11, 0]),
            gives: DEAD,
        },
        Example {
            shows: "Count: a set of 64 on a board of two sensors",
            sensors: 2,
            sets: 1,
            kinds: 0b0,
            rule: SheetRule::Count(Count {
                a: 0,
                least: 64,
                most: 64,
            }),
            given: Boxed([0b00001, 0b00001, 0, 0, 0, 0], [0b00, 0], [0b11, 0]),
            gives: DEAD,
        },
        Example {
            shows: "Row: a row is filled, and what it cannot reach goes",
            sensors: 6,
            sets: 1,
            kinds: 0b0,
            rule: SheetRule::Row(Row { a: 0 }),
            given: Boxed(
                [0b00001, 0b00001, 0b00001, 0b00001, 0b00001, 0b00001],
                [0b001010, 0],
                [0b101111, 0],
            ),
            gives: Boxed(
                [0b00001, 0b00001, 0b00001, 0b00001, 0b00001, 0b00001],
                [0b001110, 0],
                [0b001111, 0],
            ),
        },
        Example {
            shows: "Row: a gap that cannot be filled",
            sensors: 6,
            sets: 1,
            kinds: 0b0,
            rule: SheetRule::Row(Row { a: 0 }),
            given: Boxed(
                [0b00001, 0b00001, 0b00001, 0b00001, 0b00001, 0b00001],
                [0b001010, 0],
                [0b001010, 0],
            ),
            gives: DEAD,
        },
        Example {
            shows: "Row: no member is no row",
            sensors: 6,
            sets: 1,
            kinds: 0b0,
            rule: SheetRule::Row(Row { a: 0 }),
            given: Boxed(
                [0b00001, 0b00001, 0b00001, 0b00001, 0b00001, 0b00001],
                [0b000000, 0],
                [0b000000, 0],
            ),
            gives: DEAD,
        },
        Example {
            shows: "Apart: what one set has the other cannot",
            sensors: 4,
            sets: 2,
            kinds: 0b00,
            rule: SheetRule::Apart(Apart { a: 0, b: 1 }),
            given: Boxed(
                [0b00001, 0b00001, 0b00001, 0b00001, 0, 0],
                [0b0100, 0b0000],
                [0b0100, 0b1100],
            ),
            gives: Boxed(
                [0b00001, 0b00001, 0b00001, 0b00001, 0, 0],
                [0b0100, 0b0000],
                [0b0100, 0b1000],
            ),
        },
        Example {
            shows: "Within: a set inside another: the one loses, the other gains",
            sensors: 4,
            sets: 2,
            kinds: 0b00,
            rule: SheetRule::Within(Within { a: 0, b: 1 }),
            given: Boxed(
                [0b00001, 0b00001, 0b00001, 0b00001, 0, 0],
                [0b0100, 0b0000],
                [0b1111, 0b1100],
            ),
            gives: Boxed(
                [0b00001, 0b00001, 0b00001, 0b00001, 0, 0],
                [0b0100, 0b0100],
                [0b1100, 0b1100],
            ),
        },
    ]
}
