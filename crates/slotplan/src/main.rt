//! Reads a sheet on standard input and prints what is left open, or why the sheet is refused.
#![tactic(auto)]

ghost use Rattle.std.specs.Prelude.{◌≤◌, length, IfOk};

use anyhow::Context;
use kinds::SheetRule;
use plan::draft::MOST_PLACES;
use planner::printing::print_sheet;
use sheet::LONGEST;
use std::io::{Read, Write};
use std::{env, io};
use text::listing::LONGEST_LISTING;

const HELP: &str = "usage: slotplan < SHEET
Reads a sheet file: how many sensors, slots and sets there are, what is ruled out, and the rules.
Prints which slots each sensor may still get, and for each set what it must and what it may hold;
or 'dead end' where nothing is left, or 'refused N at P': refusal N, at byte P of the file.
It takes no arguments. docs/SHEET.md has the format, docs/REFUSALS.md the numbers.
";

fn main(rt: HostRuntime) -> anyhow::Result<()> {
    if env::args(&rt)?.count() > 1 {
        rt.print(HELP)?;
        return Ok(());
    }
    // One byte more than a sheet may have shows that it is too long.
    let mut file = [0u8; LONGEST + 1];
    let len = read_up_to(&mut rt.stdin(), &mut file)?;
    let mut places = [SheetRule::default(); MOST_PLACES];
    let mut out = [0u8; LONGEST_LISTING];
    let end = print_sheet(&file[..len], &mut places, &mut out).context("the output is too short")?;
    rt.stdout().write_all(&out[..end])?;
    Ok(())
}

// Reads to the end of the input, or until the bytes are full; tells how many were read.
// No method reads to the end into fixed memory: read_to_end wants a Vec, and read_exact an input that is long enough.
fn read_up_to(input: &mut impl Read, bytes: &mut [u8]) -> io::Result<usize>
    ensures { IfOk result (λ n. n ≤ length bytes.new) }
{
    let mut len = 0;
    while len < bytes.len() {
        let got = input.read(&mut bytes[len..])?;
        if got == 0 {
            break;
        }
        len += got;
    }
    Ok(len)
}
