#![tactic(auto)]

ghost use Rattle.std.specs.Prelude.{◌≡◌, ◌^◌, ◌==◌, count_ones, nat_lt};
ghost use Rattle.masks.specs.Masks.{Masks, has, without, within, numbers, lowest as least_of, past as past_of, stretch as stretch_of};

pub mod iter;

// The laws of masks as finite sets hold.
pub fn masks_stand()
    ensures { Masks }
{}

// Whether number i is a member.
pub fn contains(mask: u64, i: u8) -> bool
    ensures { result ≡ has mask i }
{
    i < 64 && (mask >> i) & 1 == 1
}

// The members of a that b does not have.
pub fn take_out(a: u64, b: u64) -> u64
    ensures { result ≡ without a b }
{
    a & !b
}

// Whether every member of a is one of b.
pub fn is_within(a: u64, b: u64) -> bool
    ensures { result ≡ within a b }
{
    a & b == a
}

// Whether there is just one member.
pub fn is_single(mask: u64) -> bool
    ensures { result ≡ (count_ones mask == 1) }
{
    mask.count_ones() == 1
}

// The numbers below n, those below 64 where n is more.
pub fn all_below(n: u8) -> u64
    ensures { result ≡ numbers n }
{
    if n >= 64 { u64::MAX } else { (1 << n) - 1 }
}

// Whether there is no member at n or above.
pub fn is_below(mask: u64, n: u8) -> bool
    ensures { result ≡ nat_lt mask (2 ^ n) }
{
    n >= 64 || mask >> n == 0
}

// The least member; 64 where there is none.
pub fn lowest(mask: u64) -> u8
    ensures { result ≡ least_of mask }
{
    mask.trailing_zeros() as u8
}

// The number after the greatest member; 0 where there is none.
pub fn past(mask: u64) -> u8
    ensures { result ≡ past_of mask }
{
    (64 - mask.leading_zeros()) as u8
}

// The numbers from `start` on, up to `end` and without it; none from 64 on.
pub fn stretch(start: u8, end: u8) -> u64
    ensures { result ≡ stretch_of start end }
{
    take_out(all_below(end), all_below(start))
}

// The members, rising, for a `for`.
pub fn members(mask: u64) -> iter::Members
    ensures { result.left ≡ mask }
{
    iter::Members { left: mask }
}
