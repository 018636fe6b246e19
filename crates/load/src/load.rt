ghost use Rattle.std.specs.Prelude.{◌≡◌, length, None, ◌≢◌};
ghost use Rattle.plan.specs.States.{SameLoan, Unchanged, state_of};
ghost use Rattle.load.specs.Loads.{Loaded, fault_of, load_fault};

use crate::check::check;
use crate::enter::enter_records;
pub use crate::fault::{LoadCause, LoadFault};
use kinds::SheetRule;
use plan::draft::Draft;
use sheet::Reader;

/// Loads a sheet into a draft. All records are checked before the first is entered, so a refusal leaves the draft and all
/// its places as they were.
pub fn load(file: &[u8], draft: &mut Draft<'_, SheetRule>) -> Result<(), LoadFault>
    ensures lent { SameLoan draft.old draft.new }
    ensures answer { fault_of result ≡ load_fault file.now (length draft.old.places.now) }
    ensures accepted { fault_of result ≡ None → Loaded file.now (length draft.old.places.now) (state_of draft.new) }
    ensures refused { (fault_of result ≢ None) → Unchanged draft.old draft.new }
{
    check(file, draft.places())?;
    if let Ok(reader) = Reader::open(file) {
        enter_records(reader, draft);
    }
    Ok(())
}
