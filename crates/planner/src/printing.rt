ghost use Rattle.std.specs.Prelude.{◌≡◌, ◌<◌, ◌≤◌, length, None};
ghost use Rattle.text.specs.Lines.{longest_listing};
ghost use Rattle.text.specs.Printed.{Printed};
ghost use Rattle.load.specs.Loads.{load_fault, sheet_text};
ghost use Rattle.planner.specs.Sheets.{SheetTrusted, settled_box};

use crate::rest::settle;
use board::refusal::Refusal;
use kinds::SheetRule;
use load::load::load;
use plan::draft::Draft;
use text::refused::refused;

// From file to listing: loads a sheet over the places, settles it, and writes the listing at the front of the output, or the line of the refusal;
// tells the length. Where the output is too short, that is refused, and the output left as it was; one of the longest listing's length never is. No text is empty.
// A length and no slice of the output, as std's `read` gives it.
// All that is promised of a mix of calls is promised here of the sheet's own entries.
pub fn print_sheet(file: &[u8], places: &mut [SheetRule], out: &mut [u8]) -> Result<usize, Refusal>
    ensures printed { Printed (sheet_text file.now (length places.old)) result out.old out.new }
    ensures enough { length (sheet_text file.now (length places.old)) ≤ longest_listing }
    ensures some { 0 < length (sheet_text file.now (length places.old)) }
    ensures trusted { load_fault file.now (length places.old) ≡ None → SheetTrusted file.now (length places.old) (settled_box file.now (length places.old)) }
{
    let mut draft = Draft::begin(places);
    match load(file, &mut draft) {
        Ok(()) => settle(draft).listing(out),
        Err(fault) => refused(u8::from(fault.cause), fault.position, out),
    }
}
