//! Records and refusals.
ghost use Rattle.std.specs.Prelude.{◌≡◌};
ghost use Rattle.sheet.specs.Steps.{number};

/// The version byte.
pub const VERSION: u8 = 1;
/// How many bytes a file has at most.
pub const LONGEST: usize = 32768;
/// How many bytes the kind word takes.
pub const WORD_WIDTH: usize = 4;
/// How many bytes a mask takes.
pub const MASK_WIDTH: usize = 8;

/// One record of a sheet file. A name's text is part of the file's bytes.
#[derive(Clone, Copy, Debug, PartialEq, Eq)]
pub enum Record<'a> {
    Head { n: u8, m: u8, k: u8, kinds: u32 },
    Name { sensor: u8, text: &'a [u8] },
    Limit { sensor: u8, mask: u64 },
    Claim { set: u8, mask: u64 },
    Bar { set: u8, mask: u64 },
    Range { g: u64, s: u8, t: u8 },
    Roots { g: u64, s: u8, t: u8 },
    Within { a: u8, b: u8 },
    Apart { a: u8, b: u8 },
    Count { a: u8, p: u8, q: u8 },
    Row { a: u8 },
}

/// Why a file or a record is refused, by the number that it is known by.
#[derive(Clone, Copy, Debug, PartialEq, Eq)]
pub enum Cause {
    Room = 9,
    File = 10,
    Length = 11,
    Kind = 12,
    Size = 13,
    Text = 14,
    Order = 15,
}

impl From<Cause> for u8 {
    ghost from_gives = { λ cause n. n ≡ number cause };

    fn from(cause: Cause) -> u8 {
        cause as u8
    }
}
