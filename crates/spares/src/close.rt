ghost use Rattle.std.specs.Prelude.{◌≡◌, ℕ, ◌<◌, ◌≤◌, slice_index};
ghost use Rattle.masks.specs.Masks.{past as past_of};
ghost use Rattle.spares.specs.Closure.{joined, Closing};

use covering::notes::Note;
use masks::{contains, members, past};

/// The mask `own`, with the members of `row` if it has k.
fn join(own: u64, k: Note, row: u64) -> u64
    ensures { result ≡ joined own k row }
{
    if contains(own, k) { own | row } else { own }
}

/// Each number below `end` that leads to k leads to what k leads to.
fn pass(next: &mut [u64; 64], k: Note, end: usize)
    requires low { k < 64 }
    requires short { end ≤ 64 }
    ensures { (u : ℕ) → u < end → slice_index next.new u ≡ joined (slice_index next.old u) k (slice_index next.old k) }
{
    let row = next[k as usize];
    for own in &mut next[..end] {
        *own = join(*own, k, row);
    }
}

/// For each number of `among` all that it leads to, by way of these numbers.
pub fn close(next: &mut [u64; 64], among: u64)
    ensures { Closing (past_of among) next.old among 0 next.new }
{
    let end = past(among) as usize;
    for k in members(among) {
        pass(next, k, end);
    }
}
