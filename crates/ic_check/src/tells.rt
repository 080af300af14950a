//! Tables that can test whether any place is linked.
//!
//! ```text
//! links.tells_linked(place) // false, too, where the place is not covered
//! ```

ghost use Rattle.std.specs.Prelude.{◌≡◌};

use ic_atomic::{AtomicLinkOps, PlainLinkOps};
use ic_link_ops::{LentTable, LinkOps, LinkValue, PlainTable, Words};
use ic_unsafe_ref::Place;
use std::alloc::Allocator;

/// A table that can return how many places it covers, and whether any place is linked. A place that the table does not cover is not linked.
///
/// Plain tables of every kind, lent tables and tables of claimed links have these calls.
pub trait TellsLinks: LinkOps {
    /// Returns the number of places that the table covers. A place is covered if its index is smaller than this number. O(1).
    fn covered_places(&self) -> usize
        ensures { result ≡ (Self.table self.now).extent.places };

    /// Returns whether the place is linked. The call requires nothing of the place. O(1).
    fn tells_linked(&self, place: Place) -> bool
        ensures { result ≡ Self.linked ((Self.table self.now).entry place) };
}

impl<W: Words, A: Allocator, V: LinkValue> TellsLinks for PlainTable<W, A, V> {
    #[inline]
    fn covered_places(&self) -> usize {
        PlainTable::covers(self)
    }

    #[inline]
    fn tells_linked(&self, place: Place) -> bool {
        place.index() < PlainTable::covers(self) && PlainTable::is_linked(self, place)
    }
}

impl<W: Words, V: LinkValue> TellsLinks for LentTable<'_, W, V> {
    #[inline]
    fn covered_places(&self) -> usize {
        LentTable::covers(self)
    }

    #[inline]
    fn tells_linked(&self, place: Place) -> bool {
        place.index() < LentTable::covers(self) && LentTable::is_linked(self, place)
    }
}

impl<L: PlainLinkOps, A: Allocator> TellsLinks for AtomicLinkOps<'_, L, A> {
    #[inline]
    fn covered_places(&self) -> usize {
        AtomicLinkOps::covers(self)
    }

    #[inline]
    fn tells_linked(&self, place: Place) -> bool {
        place.index() < AtomicLinkOps::covers(self) && AtomicLinkOps::holds(self, place)
    }
}
