ghost use Rattle.model.specs.Board.{Sized, board_of};
ghost use Rattle.board.specs.Shape.{Long, Padded, Fitted, Canon};

// The most sensors, slots and sets of a board.
pub const MOST_SENSORS: usize = 64;

pub const MOST_SLOTS: usize = 64;

pub const MOST_SETS: usize = 32;

// A board with its box: the candidates of each sensor and the bounds of each set, as masks.
// It is the dead box, all zeros, or a live box on the board, with zeros beyond. The arrays are of fixed length, since there is no heap and a box is
// copied; the bounds stand in two, as in the definitions: an entry touches one of them.
#[derive(Clone, Copy)]
pub struct Domains {
    pub(crate) sensors: u8,
    pub(crate) slots: u8,
    pub(crate) sets: u8,
    // the sets that hold slots
    pub(crate) kinds: u64,
    pub(crate) cands: [u64; MOST_SENSORS],
    pub(crate) lo: [u64; MOST_SETS],
    pub(crate) hi: [u64; MOST_SETS],
    ghost sized: { Sized sensors slots sets kinds },
    ghost long: { Long cands lo hi },
    ghost padded: { Padded (board_of sensors slots sets kinds) cands lo hi },
    ghost fitted: { Fitted (board_of sensors slots sets kinds) cands hi },
    ghost canon: { Canon (board_of sensors slots sets kinds) cands lo hi },
}
