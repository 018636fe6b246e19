//! The exercises of docs/COURSE.md: for each the bytes of its sheet and the listing.
#![tactic(auto)]

mod sheets;

use anyhow::Context;
use kinds::SheetRule;
use planner::printing::print_sheet;
use sheets::{BOARD, ENTRIES, FAST, FAST_TWO, MENDED, TOO_FEW};
use std::io::Write;
use text::listing::LONGEST_LISTING;

// How many rules a sheet of the course may have.
const PLACES: usize = 8;

fn main(rt: HostRuntime) -> anyhow::Result<()> {
    exercise(&rt, "1. A board", BOARD)?;
    exercise(&rt, "1. Limits, a claim and a bar", ENTRIES)?;
    exercise(&rt, "2. Three slots for two sensors", TOO_FEW)?;
    exercise(&rt, "2. A third sensor", MENDED)?;
    exercise(&rt, "3. Which sensors are on fast slots", FAST)?;
    exercise(&rt, "3. Just two of them", FAST_TWO)?;
    Ok(())
}

fn exercise(rt: &HostRuntime, title: &str, file: &[u8]) -> anyhow::Result<()> {
    println!(rt; "{title}")?;
    print_bytes(rt, file)?;
    let mut places = [SheetRule::default(); PLACES];
    let mut out = [0u8; LONGEST_LISTING];
    let end = print_sheet(file, &mut places, &mut out).context("the output is too short")?;
    rt.stdout().write_all(&out[..end])?;
    Ok(())
}

// Sixteen bytes to a line, in hexadecimal.
fn print_bytes(rt: &HostRuntime, bytes: &[u8]) -> anyhow::Result<()> {
    for row in bytes.chunks(16) {
        for byte in row {
            print!(rt; " {byte:02X}")?;
        }
        rt.println("")?;
    }
    Ok(())
}
