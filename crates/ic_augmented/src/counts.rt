//! Each place stores the number of members in the subtree there.
//!
//! ```text
//! let mut summed = Augmented { links, summaries: Counts::new(alloc) };
//! summed.summaries.cover(1000)?;
//! ```

ghost use Rattle.std.specs.Prelude.{◌≡◌, IfSome};

use crate::augmented_table::{AugmentedTable, Summarize};
use std::alloc::Global;

/// A table that stores for each place how many members the subtree there has.
pub type Counts<A = Global> = AugmentedTable<(), u64, A>;

/// Places have no value of their own, and each member counts as one. A count that would exceed `u64::MAX` is
/// `u64::MAX`.
impl Summarize<u64> for () {
    ghost use Rattle.ic_augmented.specs.Changes.{Rejoins};
    ghost use Rattle.ic_augmented.specs.Counts.{counted};
    ghost use Rattle.std.proofs.Common.{refl};

    ghost initial = { tt };

    ghost join = { counted };

    fn initial() {}

    #[inline]
    fn join(self, left: Option<u64>, right: Option<u64>) -> u64
        ensures { result ≡ counted self left right }
    {
        let below = left.unwrap_or(0).saturating_add(right.unwrap_or(0));
        below.saturating_add(1)
    }

    #[inline]
    fn rejoin(self, was: u64, from: u64, to: u64) -> Option<u64>
        ensures { IfSome result (Rejoins (counted self) from to was) }
    {
        // A count of `u64::MAX` may be too low, so the new count cannot be computed from it.
        if was == u64::MAX {
            return None;
        }
        was.checked_sub(from)?.checked_add(to)
    }

    // An inserted member changes each count above it, so a test whether two counts differ would only cost time.
    #[inline]
    fn is_same(a: &u64, b: &u64) -> bool {
        let _ = a;
        let _ = b;
        false
    }

    ghost tells = { λ x y e. refl };
}
