//! The worked examples through the planner's own calls, and a sheet from its bytes to its listing.
#![tactic(auto)]

use anyhow::Context;
use board::refusal::Refusal;
use examples::table::{Boxed, Example, SLOTS, table};
use kinds::SheetRule;
use masks::{all_below, take_out};
use plan::draft::Draft;
use plan::settled::Settled;
use planner::printing::print_sheet;
use planner::rest::settle;
use std::io::Write;
use text::listing::LONGEST_LISTING;

// samples/two-buses.hex, a record to a line
const TWO_BUSES: &[u8] = b"\
    \x01\
    \x00\x08\x01\x02\x05\x02\x00\x00\x00\x02\
    \x00\x07\x02\x00\x6E\x6F\x72\x74\x68\
    \x00\x07\x02\x01\x73\x6F\x75\x74\x68\
    \x00\x0A\x03\x00\x00\x00\x00\x00\x00\x00\x00\x0A\
    \x00\x0A\x03\x01\x00\x00\x00\x00\x00\x00\x00\x14\
    \x00\x0A\x04\x00\x00\x00\x00\x00\x00\x00\x00\x03\
    \x00\x0A\x04\x01\x00\x00\x00\x00\x00\x00\x00\x04\
    \x00\x0B\x06\x00\x00\x00\x00\x00\x00\x00\x03\x00\x01";

fn main(rt: HostRuntime) -> anyhow::Result<()> {
    for example in &table() {
        println!(rt; "{}", example.shows)?;
        try_example(&rt, example)?;
    }
    rt.println("The sheet of two sensors on a bus")?;
    list_sheet(&rt)
}

fn try_example(rt: &HostRuntime, example: &Example) -> anyhow::Result<()> {
    let mut places = [example.rule; 1];
    let mut draft = Draft::begin(&mut places);
    enter(&mut draft, example).context("the example is refused")?;
    let settled = settle(draft);
    if is_expected(rt, &settled, example)? {
        rt.println("  as expected")?;
    }
    Ok(())
}

// Enters the board, the box and the rule.
fn enter(draft: &mut Draft<'_, SheetRule>, example: &Example) -> Result<(), Refusal> {
    draft.new(example.sensors, SLOTS, example.sets, example.kinds)?;
    let Boxed(candidates, lower, upper) = example.given;
    for (sensor, mask) in (0..example.sensors).zip(candidates) {
        draft.limit(sensor, mask)?;
    }
    for (set, (least, most)) in (0..example.sets).zip(lower.into_iter().zip(upper)) {
        let all = all_below(draft.kind_size(set));
        draft.bar(set, take_out(all, most))?;
        draft.claim(set, least)?;
    }
    draft.post(example.rule)
}

// Tells whatever is not as the example has it; whether all is.
fn is_expected(
    rt: &HostRuntime,
    settled: &Settled<'_, SheetRule>,
    example: &Example,
) -> anyhow::Result<bool> {
    let Boxed(candidates, lower, upper) = example.gives;
    let mut same = settled.dead() == (candidates[0] == 0);
    if !same {
        rt.println("  dead where it should live, or alive where it should be dead")?;
    }
    for (sensor, expected) in (0..example.sensors).zip(candidates) {
        let found = settled.candidates(sensor).context("no such sensor")?;
        same &= tell(rt, "candidates of sensor", sensor, found, expected)?;
    }
    for (set, (least, most)) in (0..example.sets).zip(lower.into_iter().zip(upper)) {
        let found = settled.bounds(set).context("no such set")?;
        same &= tell(rt, "lower bound of set", set, found.lower, least)?;
        same &= tell(rt, "upper bound of set", set, found.upper, most)?;
    }
    Ok(same)
}

// Tells a mask that is not the expected one; whether it is.
fn tell(
    rt: &HostRuntime,
    what: &str,
    number: u8,
    found: u64,
    expected: u64,
) -> anyhow::Result<bool> {
    if found != expected {
        println!(rt; "  {what} {number}: {found:#b}, expected {expected:#b}")?;
    }
    Ok(found == expected)
}

fn list_sheet(rt: &HostRuntime) -> anyhow::Result<()> {
    let mut places = [SheetRule::default(); 8];
    let mut out = [0u8; LONGEST_LISTING];
    let end = print_sheet(TWO_BUSES, &mut places, &mut out).context("the output is too short")?;
    rt.stdout().write_all(&out[..end])?;
    Ok(())
}
