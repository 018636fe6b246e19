ghost use Rattle.std.specs.Prelude.{◌≡◌, ◌≤◌, ◌++◌, IfOk, if◌then◌else◌, drop, replicate};
ghost use Rattle.masks.specs.Masks.{has};
ghost use Rattle.model.specs.Board.{Sized, board_of};
ghost use Rattle.model.specs.Box.{full};
ghost use Rattle.model.specs.Refusals.{refusal};
ghost use Rattle.model.specs.Calls.{new_causes};
ghost use Rattle.board.specs.Numbers.{outcome};
ghost use Rattle.board.specs.Model.{board, model};

use crate::domains::{Domains, MOST_SENSORS, MOST_SETS, MOST_SLOTS};
use crate::refusal::Refusal;
use masks::{all_below, contains, is_below};

impl Domains {
    // The box of a new plan: all slots are candidates, every lower bound is empty, every upper bound is full. Four numbers, here and above: a struct
    // would ask each caller to make one.
    pub fn new(n: u8, m: u8, k: u8, kinds: u64) -> Result<Domains, Refusal>
        ensures refusal { outcome result ≡ refusal (new_causes n m k kinds) }
        ensures made { IfOk result (λ d. (board d ≡ board_of n m k kinds) × (model d ≡ full (board_of n m k kinds))) }
    {
        if n == 0 || n as usize > MOST_SENSORS {
            return Err(Refusal::Board);
        }
        if m == 0 || m as usize > MOST_SLOTS {
            return Err(Refusal::Board);
        }
        if k as usize > MOST_SETS || !is_below(kinds, k) {
            return Err(Refusal::Board);
        }
        Ok(fresh(n, m, k, kinds))
    }

    // The box of a new plan for one sensor, one slot and no set.
    pub fn least() -> Domains
        ensures { (board result ≡ board_of 1 1 0 0) × (model result ≡ full (board_of 1 1 0 0)) }
    {
        fresh(1, 1, 0, 0)
    }
}

// All numbers of the kind that a set holds.
fn all_of(kinds: u64, set: u8, slots: u64, sensors: u64) -> u64
    ensures { result ≡ (if has kinds set then slots else sensors) }
{
    if contains(kinds, set) { slots } else { sensors }
}

// The mask at the first n places, nothing at the others.
fn front(n: u8, mask: u64) -> [u64; MOST_SENSORS]
    requires { n ≤ 64 }
    ensures { result ≡ replicate n mask ++ drop n (replicate 64 0) }
{
    let mut row = [0; MOST_SENSORS];
    row[..n as usize].fill(mask);
    row
}

fn fresh(n: u8, m: u8, k: u8, kinds: u64) -> Domains
    requires { Sized n m k kinds }
    ensures { (board result ≡ board_of n m k kinds) × (model result ≡ full (board_of n m k kinds)) }
{
    let slots = all_below(m);
    let sensors = all_below(n);
    let cands = front(n, slots);
    let mut hi = [0; MOST_SETS];
    // j is the set that `kinds` is asked for, and not just its place
    for j in 0..k {
        hi[j as usize] = all_of(kinds, j, slots, sensors);
    }
    Domains {
        sensors: n,
        slots: m,
        sets: k,
        kinds,
        cands,
        lo: [0; MOST_SETS],
        hi,
    }
}
