//! Reads and writes sheet files.
#![tactic(auto)]

ghost use Rattle.sheet.specs.Files.{Undone};
ghost use Rattle.sheet.specs.Refusals.{Refusals, Writes};

mod fault;
mod fields;
mod format;
mod kind;
mod reader;
mod writer;

pub use fault::Fault;
pub use format::{Cause, LONGEST, Record};
pub use reader::Reader;
pub use writer::Writer;

/// Reading and writing undo each other, for records and for whole files.
pub fn undoing_stands()
    ensures { Undone }
{}

/// Each refusal, of the reader and of the writer, is given exactly where it should be.
pub fn refusals_stand()
    ensures reader { Refusals }
    ensures writer { Writes }
{}
