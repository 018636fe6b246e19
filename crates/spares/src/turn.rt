ghost use Rattle.std.specs.Prelude.{◌≡◌, ℕ, ◌<◌, ◌&&◌, ◌||◌, nat_lt, slice_index};
ghost use Rattle.masks.specs.Masks.{has};

use covering::bits::single;
use covering::takers::add_takers;
use masks::take_out;

/// Takes the numbers of `one` in at the slots of a, and those of `other` at the slots of b. Where these are the same, one write does for both.
fn add_two(turned: &mut [u64; 64], a: u64, one: u64, b: u64, other: u64)
    ensures { (u v : ℕ) → u < 64 → has (slice_index turned.new u) v ≡ ((has (slice_index turned.old u) v || (has a u && has one v)) || (has b u && has other v)) }
{
    add_takers(turned, a & b, one | other);
    add_takers(turned, take_out(a, b), one);
    add_takers(turned, take_out(b, a), other);
}

/// For each number those whose row has it, two rows at a time.
pub fn turn(rows: &[u64; 64]) -> [u64; 64]
    ensures { (u v : ℕ) → u < 64 → has (slice_index result u) v ≡ (nat_lt v 64 && has (slice_index rows.now v) u) }
{
    let mut turned = [0; 64];
    // Counted, since the numbers of the two rows are what is taken in; chunks of two rows would have to be numbered as well.
    for two in 0..32u8 {
        let i = 2 * two;
        let j = i + 1;
        add_two(
            &mut turned,
            rows[i as usize],
            single(i),
            rows[j as usize],
            single(j),
        );
    }
    turned
}
