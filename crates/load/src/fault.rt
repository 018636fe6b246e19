//! Why a file is refused, and where.
ghost use Rattle.std.specs.Prelude.{◌≡◌, ◌++◌, Some, codes, decimal};
ghost use Rattle.load.specs.Loads.{cause_number};

use board::refusal::Refusal;
use sheet::Cause;
use std::error::Error;
use std::fmt;

/// Why a file is refused: a record that no reader takes, or one that no plan takes.
#[derive(Clone, Copy, Debug, PartialEq, Eq)]
pub enum LoadCause {
    Sheet(Cause),
    Plan(Refusal),
}

impl From<LoadCause> for u8 {
    ghost from_gives = { λ cause n. n ≡ cause_number cause };

    fn from(cause: LoadCause) -> u8 {
        match cause {
            LoadCause::Sheet(cause) => u8::from(cause),
            LoadCause::Plan(refusal) => u8::from(refusal),
        }
    }
}

/// Why a file is refused, and the position of the faulty record's length field.
#[derive(Clone, Copy, Debug, PartialEq, Eq)]
pub struct LoadFault {
    pub cause: LoadCause,
    pub position: u32,
}

impl fmt::Display for LoadFault {
    ghost output = { λ f. Some (codes "refused " ++ (decimal (cause_number f.cause) ++ (codes " at " ++ decimal f.position))) };

    fn fmt<W: fmt::Write>(&self, f: &mut fmt::Formatter<W>) -> fmt::Result {
        let number = u8::from(self.cause);
        write!(f, "refused {number} at {}", self.position)
    }
}

impl Error for LoadFault {}
