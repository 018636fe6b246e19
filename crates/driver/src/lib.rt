//! The planner as a library for other languages: what `driver_c` exports to C, under the same names.
#![tactic(auto)]

ghost use Rattle.std.specs.Prelude.{◌≡◌, ◌≤◌, length};
ghost use Rattle.model.specs.Box.{cand};
ghost use Rattle.text.specs.Lines.{longest_listing};
ghost use Rattle.board.specs.Model.{model};
ghost use Rattle.driver.specs.Exports.{text_of, Exported, accepted, accepted_of, first_of, joined};

pub mod job;

use kinds::SheetRule;
use load::load::load;
use plan::draft::{Draft, MOST_PLACES};
use plan::settled::Settled;
use planner::printing::print_sheet;
use sets::row::Row;
use text::listing;

// What a place without a rule has; a const cannot call `default`. It is no table of them: each call would copy that onto its stack once more.
const NO_RULE: SheetRule = SheetRule::Row(Row { a: 0 });

// How many bytes the longest listing has.
pub fn slotplan_longest() -> usize
    ensures { result ≡ longest_listing }
{
    listing::LONGEST_LISTING
}

// Loads a sheet file, settles it, and writes the listing, or the line of the refusal, at the front of the output; the text's length.
// Where the output is too short, 0, and the output is left as it was. One of the longest listing's length never is.
// A number, since C calls it.
pub fn slotplan_print(file: &[u8], out: &mut [u8]) -> usize
    ensures printed { Exported (text_of file.now) result out.old out.new }
    ensures enough { length (text_of file.now) ≤ longest_listing }
{
    let mut places = [NO_RULE; MOST_PLACES];
    print_sheet(file, &mut places, out).unwrap_or(0)
}

// Loads and settles a sheet file so many times, for timing; the candidates that it leaves to sensor 0, none where it is refused, joined by exclusive or.
pub fn slotplan_runs(file: &[u8], times: u32) -> u64
    ensures { result ≡ joined times (first_of file.now) }
{
    (0..times).fold(0, |sum, _time| sum ^ first_left(file))
}

// Loads a sheet file so many times and settles it never, for timing; how many of the loads were accepted.
pub fn slotplan_loads(file: &[u8], times: u32) -> u32
    ensures { result ≡ accepted_of file.now times }
{
    // a count of turns, and no index
    let mut accepted = 0;
    for _time in 0..times {
        if is_loaded(file) {
            accepted += 1;
        }
    }
    accepted
}

// The candidates that a file leaves to sensor 0.
fn first_left(file: &[u8]) -> u64
    ensures { result ≡ first_of file.now }
{
    let mut places = [NO_RULE; MOST_PLACES];
    let mut draft = Draft::begin(&mut places);
    // a match, since a closure for `map_or` would have to take the draft
    match load(file, &mut draft) {
        Ok(()) => first_of(&draft.settle()),
        Err(_) => 0,
    }
}

// The candidates of sensor 0, which every board has.
fn first_of(plan: &Settled<'_, SheetRule>) -> u64
    ensures { result ≡ cand (model plan.now.plan) 0 }
{
    plan.candidates(0).unwrap_or(0)
}

// Whether a file can be loaded.
fn is_loaded(file: &[u8]) -> bool
    ensures { result ≡ accepted file.now }
{
    let mut places = [NO_RULE; MOST_PLACES];
    let mut draft = Draft::begin(&mut places);
    load(file, &mut draft).is_ok()
}
