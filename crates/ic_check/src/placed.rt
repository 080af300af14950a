//! Values by place, with a test whether a place has a value.
//!
//! ```text
//! objects.tells_placed(place) // false where the place is vacant, and beyond all
//! ```

ghost use Rattle.std.specs.Prelude.{◌≡◌};
ghost use Rattle.ic_unsafe_ref.specs.Objects.{at_indexes, is_placed};

use ic_link_ops::{LentTable, LinkValue, PlainTable, Words};
use ic_unsafe_ref::{Objects, Place, Values};
use std::alloc::Allocator;

/// A source of values by place that can also test whether any place has a value.
///
/// The sources are [`Objects`], slices and `Vec`s, in which the value of a place is at the place's index, and plain and lent tables with values beside their
/// links.
pub trait TellsPlaced<V>: Values<V> {
    /// Returns whether `place` has a value. The call requires nothing of the place. It makes one look-up, O(1).
    fn tells_placed(&self, place: Place) -> bool
        ensures { result ≡ is_placed (Self.values self.now) place };
}

impl<V, A: Allocator> TellsPlaced<V> for Objects<V, A> {
    #[inline]
    fn tells_placed(&self, place: Place) -> bool {
        self.is_placed(place)
    }
}

// Returns whether the slice `values` has an entry for the index of the place.
#[inline]
fn is_in_range<V>(values: &[V], place: Place) -> bool
    ensures { result ≡ is_placed (at_indexes values.now) place }
{
    place.index() < values.len()
}

impl<V> TellsPlaced<V> for &[V] {
    #[inline]
    fn tells_placed(&self, place: Place) -> bool {
        is_in_range(*self, place)
    }
}

impl<V, A: Allocator> TellsPlaced<V> for Vec<V, A> {
    #[inline]
    fn tells_placed(&self, place: Place) -> bool {
        is_in_range(self.as_slice(), place)
    }
}

impl<W: Words, A: Allocator, V: LinkValue> TellsPlaced<V> for PlainTable<W, A, V> {
    #[inline]
    fn tells_placed(&self, place: Place) -> bool {
        place.index() < PlainTable::covers(self)
    }
}

impl<W: Words, V: LinkValue> TellsPlaced<V> for LentTable<'_, W, V> {
    #[inline]
    fn tells_placed(&self, place: Place) -> bool {
        place.index() < LentTable::covers(self)
    }
}
