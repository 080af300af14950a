//! This file defines a trait of sources in which values are found by place, for example the objects in a store, or the elements
//! of an array.
//!
//! ```text
//! let deadlines: Vec<u64> = ..;
//! deadlines.value(third) // &deadlines[2]
//! ```

ghost use Rattle.std.specs.Prelude.{◌≡◌, true, Some};
ghost use Rattle.ic_unsafe_ref.specs.Objects.{object_at, is_placed, at_indexes};

use crate::hint::assert_unchecked;
use crate::{Objects, Place};
use std::alloc::Allocator;

/// A source of values that are found by place. A source can be [`Objects`], or a table of your own. A source can also be a slice
/// or a `Vec`, in which the value of a place is at the place's index.
///
/// Searches and inserts by keys read values only through this trait. You can therefore store keys in a separate array, so that
/// one load reads a key.
pub trait Values<V> {
    ghost use Rattle.ic_unsafe_ref.specs.Objects.{Objects};

    // `values` describes the source as a store, which has each value at its place.
    ghost values: { Self → Objects V };

    /// The value at `place`. The call requires that the place has a value. The call makes one look-up. O(1).
    fn value(&self, place: Place) -> &V
        requires placed { is_placed (values self.now) place ≡ true }
        ensures { object_at (values self.now) place ≡ Some result.now };
}

impl<V, A: Allocator> Values<V> for Objects<V, A> {
    ghost values = { λ objects. objects };

    #[inline]
    fn value(&self, place: Place) -> &V {
        let value = self.get(place);
        assert_unchecked(value, value.is_some()).unwrap()
    }
}

// The element of the array at the index of the place.
#[inline]
fn value_in<V>(values: &[V], place: Place) -> &V
    requires placed { is_placed (at_indexes values.now) place ≡ true }
    ensures { object_at (at_indexes values.now) place ≡ Some result.now }
{
    &values[place.index()]
}

impl<V> Values<V> for &[V] {
    ghost values = { λ values. at_indexes values.now };

    #[inline]
    fn value(&self, place: Place) -> &V {
        value_in(*self, place)
    }
}

impl<V, A: Allocator> Values<V> for Vec<V, A> {
    ghost values = { λ values. at_indexes values.items };

    #[inline]
    fn value(&self, place: Place) -> &V {
        value_in(self.as_slice(), place)
    }
}
