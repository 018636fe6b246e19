#![tactic(auto)]

// The same entries in several orders, with settles in between and refused calls among them: the listings are equal.
use anyhow::Context;
use board::refusal::Refusal;
use kinds::SheetRule;
use mix::{Step, play};
use plan::draft::Draft;
use planner::rest::settle;
use range::range::Range;
use sets::count::Count;
use text::listing::LONGEST_LISTING;

type Entry = Step<SheetRule>;

const FIRST: Entry = Step::Limit {
    sensor: 0,
    mask: 0b01010,
};

const SECOND: Entry = Step::Limit {
    sensor: 1,
    mask: 0b10100,
};

const ALL: Entry = Step::Claim {
    set: 0,
    mask: 0b111,
};

const SLOT: Entry = Step::Claim {
    set: 1,
    mask: 0b00100,
};

const RANGE: Entry = Step::Post(SheetRule::Range(Range {
    g: 0b111,
    s: 0,
    t: 1,
}));

const COUNT: Entry = Step::Post(SheetRule::Count(Count {
    a: 1,
    least: 2,
    most: 2,
}));

const NOWHERE: Entry = Step::Limit { sensor: 9, mask: 0 };

const TWISTED: Entry = Step::Post(SheetRule::Range(Range {
    g: 0b111,
    s: 1,
    t: 0,
}));

fn main(rt: HostRuntime) -> anyhow::Result<()> {
    let mut first = [0u8; LONGEST_LISTING];
    let mut other = [0u8; LONGEST_LISTING];
    let a = list(
        &rt,
        "as it comes",
        &[FIRST, SECOND, ALL, SLOT, RANGE, COUNT],
        &mut first,
    )?;
    let b = list(
        &rt,
        "rules first, settled in between",
        &[
            COUNT,
            RANGE,
            Step::Settle,
            SLOT,
            Step::Settle,
            ALL,
            SECOND,
            FIRST,
        ],
        &mut other,
    )?;
    compare(&rt, a, b)?;
    let c = list(
        &rt,
        "repeated, with refused calls",
        &[
            NOWHERE,
            ALL,
            ALL,
            TWISTED,
            RANGE,
            FIRST,
            Step::Settle,
            RANGE,
            SECOND,
            SLOT,
            COUNT,
            NOWHERE,
        ],
        &mut other,
    )?;
    compare(&rt, a, c)?;
    rt.print(std::str::from_utf8(a)?)?;
    Ok(())
}

// Plays the steps on a new plan of three sensors, five slots, a set of sensors and a set of slots; tells each answer, settles and lists.
fn list<'a>(
    rt: &impl Print,
    title: &str,
    steps: &[Entry],
    out: &'a mut [u8],
) -> anyhow::Result<&'a [u8]> {
    println!(rt; "{title}")?;
    let mut places = [SheetRule::default(); 8];
    let mut draft = Draft::begin(&mut places);
    draft.new(3, 5, 2, 0b10).context("no such board")?;
    let mut answers = [Ok(()); 16];
    let draft = play(draft, steps, &mut answers);
    for (step, answer) in steps.iter().zip(&answers) {
        tell(rt, step, *answer)?;
    }
    let settled = settle(draft);
    let end = settled.listing(out).context("the output is too short")?;
    Ok(&out[..end])
}

// A step, and the number of its refusal or 0. The words are this program's, so a step has no `Display`.
fn tell(rt: &impl Print, step: &Entry, answer: Result<(), Refusal>) -> anyhow::Result<()> {
    let number = answer.err().map_or(0, u8::from);
    match *step {
        Step::Limit { sensor, mask } => println!(rt;
            "  limit sensor {sensor} to {mask:#b}: {number}"
        )?,
        Step::Claim { set, mask } => println!(rt; "  claim {mask:#b} for set {set}: {number}")?,
        Step::Bar { set, mask } => println!(rt; "  bar {mask:#b} from set {set}: {number}")?,
        Step::Post(_) => println!(rt; "  post a rule: {number}")?,
        Step::Settle => rt.println("  settle, reopen")?,
    }
    Ok(())
}

fn compare(rt: &impl Print, a: &[u8], b: &[u8]) -> anyhow::Result<()> {
    if a == b {
        rt.println("the listing is the same")?;
    } else {
        rt.println("the listing is ANOTHER")?;
    }
    Ok(())
}
