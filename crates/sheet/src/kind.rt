//! The kinds of records, and how long a record of each kind is.
ghost use Rattle.std.specs.Prelude.{◌≡◌};
ghost use Rattle.sheet.specs.Layout.{plain, flaw, lengths_of};
ghost use Rattle.sheet.specs.Steps.{refused};
ghost use Rattle.sheet.specs.Kinds.{code_of, Decodes};

use crate::format::{Cause, MASK_WIDTH, WORD_WIDTH};

/// What a record says, by the number that stands for it in a file.
#[derive(Clone, Copy, Debug, PartialEq, Eq)]
pub(crate) enum Kind {
    Head = 1,
    Name = 2,
    Limit = 3,
    Claim = 4,
    Bar = 5,
    Range = 6,
    Roots = 7,
    Within = 8,
    Apart = 9,
    Count = 10,
    Row = 11,
}

impl TryFrom<u8> for Kind {
    type Error = Cause;

    ghost try_from_gives = { Decodes };

    fn try_from(code: u8) -> Result<Self, Cause> {
        match code {
            1 => Ok(Kind::Head),
            2 => Ok(Kind::Name),
            3 => Ok(Kind::Limit),
            4 => Ok(Kind::Claim),
            5 => Ok(Kind::Bar),
            6 => Ok(Kind::Range),
            7 => Ok(Kind::Roots),
            8 => Ok(Kind::Within),
            9 => Ok(Kind::Apart),
            10 => Ok(Kind::Count),
            11 => Ok(Kind::Row),
            _ => Err(Cause::Kind),
        }
    }
}

impl From<Kind> for u8 {
    ghost from_gives = { λ kind code. code ≡ code_of kind };

    fn from(kind: Kind) -> u8 {
        kind as u8
    }
}

/// The least and the greatest length of each record kind, by its number; the first pair is for no kind. One constant table, which the reader and the
/// writer use and a page can show.
const LENGTHS: [(usize, usize); 12] = [
    (0, 0),
    (4 + WORD_WIDTH, 4 + WORD_WIDTH),
    (3, 34),
    (2 + MASK_WIDTH, 2 + MASK_WIDTH),
    (2 + MASK_WIDTH, 2 + MASK_WIDTH),
    (2 + MASK_WIDTH, 2 + MASK_WIDTH),
    (3 + MASK_WIDTH, 3 + MASK_WIDTH),
    (3 + MASK_WIDTH, 3 + MASK_WIDTH),
    (3, 3),
    (3, 3),
    (4, 4),
    (2, 2),
];

// Whether every byte is one that a name may have.
fn printable(text: &[u8]) -> bool
    ensures { result ≡ plain text.now }
{
    text.iter().all(|b| matches!(b, 0x20..=0x7e))
}

impl Kind {
    // The least and the greatest length.
    #[tactic(auto, unfolding(crate::specs::Layout::word_width, crate::specs::Layout::mask_width))]
    fn lengths(self) -> (usize, usize)
        ensures { lengths_of (code_of self) ≡ Some result }
    {
        LENGTHS[self as usize]
    }

    /// Refuses a length, then a name's text.
    pub(crate) fn check(self, len: usize, text: &[u8]) -> Result<(), Cause>
        ensures { refused result ≡ flaw (code_of self) len text.now }
    {
        let (least, greatest) = self.lengths();
        if len < least || len > greatest {
            return Err(Cause::Size);
        }
        if self == Kind::Name && !printable(text) {
            return Err(Cause::Text);
        }
        Ok(())
    }
}
