ghost use Rattle.std.specs.Prelude.{◌≡◌, ◌%◌, ◌^◌, ◌<◌, MatchOption, bit_or};
ghost use Rattle.masks.specs.Masks.{without, Parted};

use crate::notes::Note;
use masks::take_out;

/// A member of the mask and the others, if it has one. Which member may vary.
pub fn split(mask: u64) -> Option<(Note, u64)>
    ensures { MatchOption result (mask ≡ 0) (λ p. Parted mask p.0 p.1) }
{
    // A step of `members`, written out: a walk that is made for one step and taken apart again is no plainer, and makes dense Range rules a seventh slower.
    if mask == 0 {
        None
    } else {
        Some((mask.trailing_zeros() as Note, mask & (mask - 1)))
    }
}

/// The same, where a member that `rather` has too comes first.
pub fn split_by(mask: u64, rather: u64) -> Option<(Note, u64)>
    ensures { MatchOption result (mask ≡ 0) (λ p. Parted mask p.0 p.1) }
{
    match split(mask & rather) {
        Some((i, _)) => Some((i, drop_one(mask, i))),
        None => split(mask),
    }
}

/// The mask of the one number i, which counts modulo 64.
pub fn single(i: Note) -> u64
    ensures { result ≡ 2 ^ (i % 64) }
{
    1 << (i % 64)
}

/// The mask with number i taken in, which counts modulo 64.
pub fn with(mask: u64, i: Note) -> u64
    ensures any { result ≡ bit_or mask (2 ^ (i % 64)) }
    ensures low { i < 64 → result ≡ bit_or mask (2 ^ i) }
{
    mask | single(i)
}

/// The mask with number i taken out, which counts modulo 64.
pub fn drop_one(mask: u64, i: Note) -> u64
    ensures any { result ≡ without mask (2 ^ (i % 64)) }
    ensures low { i < 64 → result ≡ without mask (2 ^ i) }
{
    take_out(mask, single(i))
}
