//! Every box of small boards: what the planner makes of it, beside a search over its layouts.
#![tactic(auto)]

mod compare;
mod enumerate;
mod laws;
mod planned;
mod reads;
mod relations;
mod small;

use anyhow::Context;
use compare::{Tally, Trial};
use enumerate::Enumeration;
use laws::{parts, rules};
use small::Size;

// Of three sensors and three slots, where there are 250,047 boxes, every so many is tried.
const STRIDE: u64 = 11;

fn main(rt: HostRuntime) -> anyhow::Result<()> {
    for kinds in [0b10, 0b00, 0b11] {
        for sensors in 1..4 {
            for slots in 1..4 {
                let size = Size {
                    sensors,
                    slots,
                    kinds,
                };
                try_board(&rt, size, 0)?;
            }
        }
    }
    rt.println(
        "The same with an enumeration that forgets layouts, to show that a difference is seen:",
    )?;
    let size = Size {
        sensors: 2,
        slots: 2,
        kinds: 0b10,
    };
    try_board(&rt, size, 1)
}

fn try_board(rt: &HostRuntime, size: Size, first: u64) -> anyhow::Result<()> {
    let rules = rules(rt.alloc(), size)?;
    let parts = parts(rt.alloc(), size)?;
    let trial = Trial {
        size,
        rules: &rules,
        parts: &parts,
        every: if size.sensors == 3 && size.slots == 3 {
            STRIDE
        } else {
            1
        },
        search: Enumeration {
            sensors: size.sensors,
            first,
        },
    };
    let mut tally = Tally::default();
    trial.all_boxes(&mut tally).context("no such board")?;
    tell(rt, size, tally)
}

fn tell(rt: &HostRuntime, size: Size, tally: Tally) -> anyhow::Result<()> {
    let sets = match size.kinds {
        0b00 => "two sets of sensors",
        0b11 => "two sets of slots",
        _ => "a set of sensors and a set of slots",
    };
    let (n, m) = (size.sensors, size.slots);
    let (tried, boxes) = (tally.tried, tally.boxes);
    let (comparisons, differences) = (tally.comparisons, tally.differences);
    println!(rt;
        "{n} by {m}, {sets}: {tried} of {boxes} boxes, {comparisons} comparisons, {differences} differences"
    )?;
    if let Some(first) = tally.first {
        println!(rt; "  the first at box {first}")?;
    }
    Ok(())
}
