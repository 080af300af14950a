//! The adapter of a tree that has no keys of its own. The caller passes a probe to each search, and the probe makes the comparisons.
//!
//! ```text
//! let tree = RBTree::new(Unkeyed::new()); // searched by `find_by`, which compares by its probe
//! ```

ghost use Rattle.std.specs.Prelude.{◌≡◌, ⊤};

use ic_rbtree::KeyAdapter;
use std::alloc::AllocError;
use std::marker::PhantomData;

/// An adapter without keys: the key of every value is `()`.
pub struct Unkeyed<T> {
    of: PhantomData<T>,
}

impl<T> Unkeyed<T> {
    #[inline]
    pub(crate) fn new() -> Unkeyed<T> {
        Unkeyed { of: PhantomData }
    }
}

impl<T> Clone for Unkeyed<T> {
    ghost is_clone = { λ adapter copy. copy ≡ adapter };

    ghost is_infallible = { λ _. ⊤ };

    /// Returns a copy of the adapter. This method never fails.
    fn clone(&self) -> Result<Self, AllocError> {
        Ok(*self)
    }
}

impl<T> Copy for Unkeyed<T> {}

impl<T> KeyAdapter for Unkeyed<T> {
    type Value = T;

    type Key = ();

    ghost key_of = { λ adapter value. tt };

    #[inline]
    fn get_key<'v>(&self, value: &'v T) -> &'v () {
        let _ = value;
        &()
    }
}
