//! Values that wait for a deadline, and the order of these values by deadline.
//!
//! ```text
//! impl HasDeadline for Timer {
//!     fn deadline(&self) -> &u64 {
//!         &self.deadline
//!     }
//! }
//! ```

ghost use Rattle.std.specs.Prelude.{◌≡◌, ℕ, ⊤};

use ic_rbtree::KeyAdapter;
use std::alloc::AllocError;
use std::marker::PhantomData;

/// A value that waits for a deadline.
pub trait HasDeadline {
    // The time from which the value is due.
    ghost deadline: { Self → ℕ };

    /// Returns the time from which the value is due. O(1).
    fn deadline(&self) -> &u64
        ensures { result.now ≡ deadline self.now };
}

/// The order of deadlines, by which a tree sorts the waiting values.
pub struct ByDeadline<T> {
    of: PhantomData<T>,
}

impl<T> ByDeadline<T> {
    /// Makes the order of deadlines. O(1).
    #[inline]
    pub fn new() -> ByDeadline<T> {
        ByDeadline { of: PhantomData }
    }
}

impl<T> Clone for ByDeadline<T> {
    ghost is_clone = { λ a copy. copy ≡ a };

    ghost is_infallible = { λ _. ⊤ };

    fn clone(&self) -> Result<Self, AllocError> {
        Ok(*self)
    }
}

impl<T> Copy for ByDeadline<T> {}

impl<T: HasDeadline> KeyAdapter for ByDeadline<T> {
    type Value = T;

    type Key = u64;

    ghost key_of = { λ a timer. T.deadline timer };

    #[inline]
    fn get_key<'v>(&self, timer: &'v T) -> &'v u64 {
        timer.deadline()
    }
}
