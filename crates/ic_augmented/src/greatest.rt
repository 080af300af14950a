//! Each place stores a number, and the greatest number in the subtree there.
//!
//! ```text
//! set_value(&mut summed, place, 20); // the end of an interval, say, whose start is its key
//! tree.insert_keyed(&mut summed, object)?;
//! propagate(&mut summed, place);
//! ```

ghost use Rattle.std.specs.Prelude.{◌≡◌, max, IfSome};

use crate::augmented_table::{AugmentedTable, Summarize};
use std::alloc::Global;

/// A table that stores a number for each place, and the greatest number in the subtree there. A number is 0 until another one is set. The numbers are for
/// example the ends of intervals, or the lengths of regions.
pub type Greatest<A = Global> = AugmentedTable<u64, u64, A>;

// The greater of two numbers.
#[inline]
fn greater(a: u64, b: u64) -> u64
    ensures { result ≡ max a b }
{
    if a < b { b } else { a }
}

/// The summary of a subtree is the greatest of its numbers.
impl Summarize<u64> for u64 {
    ghost use Rattle.ic_augmented.specs.Changes.{Rejoins};
    ghost use Rattle.ic_augmented.specs.Greatest.{greatest_of};
    ghost use Rattle.ic_augmented.specs.GreatestLaws.{greatest_tells};

    ghost initial = { 0 };

    ghost join = { greatest_of };

    fn initial() -> u64 {
        0
    }

    #[inline]
    fn join(self, left: Option<u64>, right: Option<u64>) -> u64
        ensures { result ≡ greatest_of self left right }
    {
        greater(self, greater(left.unwrap_or(0), right.unwrap_or(0)))
    }

    #[inline]
    fn rejoin(self, was: u64, from: u64, to: u64) -> Option<u64>
        ensures { IfSome result (Rejoins (greatest_of self) from to was) }
    {
        if to < from {
            return None;
        }
        Some(greater(was, to))
    }

    #[inline]
    fn is_same(a: &u64, b: &u64) -> bool {
        *a == *b
    }

    ghost tells = { greatest_tells };
}
