//! Tables that refuse to link a place only if they already link this place.
//!
//! ```text
//! links.acquire_link(place) // false exactly if the place is linked in this table
//! ```

ghost use Rattle.std.specs.Prelude.{◌≡◌};
ghost use Rattle.ic_link_ops.specs.Tables.{IsCovered};

use ic_link_ops::{AcceptsUnlinked, LentTable, LinkValue, PlainTable, Words};
use ic_unsafe_ref::Place;
use std::alloc::Allocator;

/// A table that refuses to link a place only if it already links this place.
///
/// Plain tables have this property, and lent views of their links have it.
pub trait PlainLinkOps: AcceptsUnlinked {
    /// Returns the number of places that the table covers. A place is covered if its index is smaller than this number.
    fn covers(&self) -> usize
        ensures { result ≡ (Self.table self.now).extent.places };

    /// Returns whether `place` is linked. The call requires that the table covers the place. O(1).
    fn is_linked(&self, place: Place) -> bool
        requires covered { IsCovered (Self.table self.now) place }
        ensures { result ≡ Self.linked ((Self.table self.now).entry place) };
}

impl<W: Words, A: Allocator, V: LinkValue> PlainLinkOps for PlainTable<W, A, V> {
    #[inline]
    fn covers(&self) -> usize {
        PlainTable::covers(self)
    }

    #[inline]
    fn is_linked(&self, place: Place) -> bool {
        PlainTable::is_linked(self, place)
    }
}

impl<W: Words, V: LinkValue> PlainLinkOps for LentTable<'_, W, V> {
    #[inline]
    fn covers(&self) -> usize {
        LentTable::covers(self)
    }

    #[inline]
    fn is_linked(&self, place: Place) -> bool {
        LentTable::is_linked(self, place)
    }
}
