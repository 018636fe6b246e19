ghost use Rattle.std.specs.Prelude.{◌≡◌, Some, decimal};
ghost use Rattle.model.specs.Refusals.{earlier as first};
ghost use Rattle.board.specs.Numbers.{number, outcome};

use std::error::Error;
use std::fmt;

// Why a call is refused, by the number that it is known by. Of several causes the one with the least number counts.
#[derive(Clone, Copy, PartialEq, Eq, PartialOrd, Ord, Debug)]
pub enum Refusal {
    // n, m, k or the kind word is out of range
    Board = 1,
    // no such sensor
    Sensor = 2,
    // no such set
    Set = 3,
    // a mask has a number that is not on the board
    Mask = 4,
    // a set of the wrong kind, or sets of two kinds
    Kind = 5,
    // one set named twice
    Twice = 6,
    // least and greatest count do not make a range
    Count = 7,
    // too few free places
    Room = 8,
    // the output is too short
    Output = 9,
}

impl From<Refusal> for u8 {
    ghost from_gives = { λ refusal n. n ≡ number refusal };

    fn from(refusal: Refusal) -> u8 {
        refusal as u8
    }
}

impl fmt::Display for Refusal {
    ghost output = { λ refusal. Some (decimal (number refusal)) };

    fn fmt<W: fmt::Write>(&self, f: &mut fmt::Formatter<W>) -> fmt::Result {
        u8::from(*self).fmt(f)
    }
}

impl Error for Refusal {}

// Of two answers the refusal that counts first.
pub fn earlier(a: Result<(), Refusal>, b: Result<(), Refusal>) -> Result<(), Refusal>
    ensures { outcome result ≡ first (outcome a) (outcome b) }
{
    match (a, b) {
        (Err(x), Err(y)) => Err(x.min(y)),
        (Ok(()), other) | (other, Ok(())) => other,
    }
}
