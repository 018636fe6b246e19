ghost use Rattle.std.specs.Prelude.{◌≡◌, MatchOption, count_ones};
ghost use Rattle.std.specs.Iterator.{at_most};
ghost use Rattle.masks.specs.Masks.{Parted, lowest as least_of};

use crate::lowest;

/// The members of a mask, rising. Made by `members`.
#[derive(Clone, Copy)]
pub struct Members {
    /// The mask of those that are still to come.
    pub left: u64,
}

impl Iterator for Members {
    type Item = u8;

    // the least of those to come, which leaves the others; none from where none is to come
    ghost next_gives = { λ s r t. MatchOption r ((s.left ≡ 0) × (t.left ≡ 0)) (λ i. (i ≡ least_of s.left) × Parted s.left i t.left) };

    ghost remaining = { λ s. at_most (count_ones s.left) };

    #[inline]
    fn next(&mut self) -> Option<u8> {
        if self.left == 0 {
            return None;
        }
        let least = lowest(self.left);
        self.left &= self.left - 1;
        Some(least)
    }
}
