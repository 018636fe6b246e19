#![tactic(auto)]

// A small job from start to finish: a board is described, entries are made and rules posted, the plan is settled and listed.
use anyhow::Context;
use board::refusal::Refusal;
use kinds::SheetRule;
use named::values::all_different;
use plan::draft::Draft;
use roots::roots::Roots;
use sets::count::Count;
use sets::row::Row;
use sets::within::Within;
use text::listing::LONGEST_LISTING;

fn main(rt: HostRuntime) -> anyhow::Result<()> {
    let mut places = [SheetRule::default(); 8];
    let mut draft = Draft::begin(&mut places);
    describe(&rt, &mut draft)?;
    enter(&rt, &mut draft)?;
    let settled = draft.settle();
    rt.println("settled")?;
    let mut out = [0u8; LONGEST_LISTING];
    let end = settled
        .listing(&mut out)
        .context("the output is too short")?;
    rt.print(std::str::from_utf8(&out[..end])?)?;
    Ok(())
}

// Four sensors and five slots. Sets 0 and 1 hold sensors: those on the fast bus, and those that are sampled together. Set 2 holds slots: the fast ones.
// Sets 3 and 4, of sensors and of slots, are helpers.
fn describe(rt: &impl Print, draft: &mut Draft<'_, SheetRule>) -> anyhow::Result<()> {
    tell(
        rt,
        "new 4 5 5, sets 2 and 4 hold slots",
        draft.new(4, 5, 5, 0b10100),
    )?;
    tell(rt, "limit sensor 0 to 1 3", draft.limit(0, 0b01010))?;
    tell(rt, "limit sensor 1 to 2 4", draft.limit(1, 0b10100))?;
    tell(rt, "limit sensor 4 to 0", draft.limit(4, 0b00001))?;
    tell(rt, "claim 0 2 for set 1", draft.claim(1, 0b0101))?;
    tell(rt, "bar 0 4 from set 2", draft.bar(2, 0b10001))?;
    tell(rt, "bar 5 from set 2", draft.bar(2, 0b100000))
}

fn enter(rt: &impl Print, draft: &mut Draft<'_, SheetRule>) -> anyhow::Result<()> {
    tell(
        rt,
        "post set 1 within set 0",
        draft.post(SheetRule::Within(Within { a: 1, b: 0 })),
    )?;
    tell(
        rt,
        "post set 1 within set 2",
        draft.post(SheetRule::Within(Within { a: 1, b: 2 })),
    )?;
    tell(
        rt,
        "post roots 0 1 2 3, set 0, set 2",
        draft.post(SheetRule::Roots(Roots {
            g: 0b1111,
            s: 0,
            t: 2,
        })),
    )?;
    tell(
        rt,
        "post count of set 1, 2 to 3",
        draft.post(SheetRule::Count(Count {
            a: 1,
            least: 2,
            most: 3,
        })),
    )?;
    tell(
        rt,
        "post row of set 1",
        draft.post(SheetRule::Row(Row { a: 1 })),
    )?;
    tell(
        rt,
        "all of 0 1 2 different, by sets 3 and 4",
        all_different(draft, 0b0111, 3, 4),
    )
}

// An action and what was answered.
fn tell(rt: &impl Print, action: &str, answer: Result<(), Refusal>) -> anyhow::Result<()> {
    match answer {
        Ok(()) => println!(rt; "{action}: accepted")?,
        Err(refusal) => println!(rt; "{action}: refused {refusal}")?,
    }
    Ok(())
}
