ghost use Rattle.std.specs.Prelude.{◌≡◌};
ghost use Rattle.sheet.specs.Steps.{meant};
ghost use Rattle.load.specs.Acts.{act_of_lem};

use kinds::SheetRule;
use plan::draft::KindWord;
use range::range::Range;
use roots::roots::Roots;
use sets::apart::Apart;
use sets::count::Count;
use sets::row::Row;
use sets::within::Within;
use sheet::Record;

/// What a record asks of a planner. A list of its own beside the steps of a mix and of a job: these cannot name a sensor, and can settle, or ask nothing.
#[derive(Clone, Copy)]
pub(crate) enum Act {
    New {
        n: u8,
        m: u8,
        k: u8,
        kinds: KindWord,
    },
    Name {
        sensor: u8,
    },
    Limit {
        sensor: u8,
        mask: u64,
    },
    Claim {
        set: u8,
        mask: u64,
    },
    Bar {
        set: u8,
        mask: u64,
    },
    Post(SheetRule),
}

impl From<Record<'_>> for Act {
    ghost from_gives = { λ one act. act ≡ act_of_lem (meant one) };

    fn from(one: Record<'_>) -> Act {
        match one {
            Record::Head { n, m, k, kinds } => Act::New { n, m, k, kinds },
            Record::Name { sensor, .. } => Act::Name { sensor },
            Record::Limit { sensor, mask } => Act::Limit { sensor, mask },
            Record::Claim { set, mask } => Act::Claim { set, mask },
            Record::Bar { set, mask } => Act::Bar { set, mask },
            Record::Range { g, s, t } => Act::Post(SheetRule::Range(Range { g, s, t })),
            Record::Roots { g, s, t } => Act::Post(SheetRule::Roots(Roots { g, s, t })),
            Record::Within { a, b } => Act::Post(SheetRule::Within(Within { a, b })),
            Record::Apart { a, b } => Act::Post(SheetRule::Apart(Apart { a, b })),
            Record::Count { a, p, q } => Act::Post(SheetRule::Count(Count {
                a,
                least: p,
                most: q,
            })),
            Record::Row { a } => Act::Post(SheetRule::Row(Row { a })),
        }
    }
}
