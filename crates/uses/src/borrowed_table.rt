//! A view of a borrowed table of links. The view implements the link traits, so that a list works over the view as over the table.
//!
//! ```text
//! let mut view = BorrowedTable::new(&mut links);
//! list.push_back(&mut view, object)?; // when the view ends, `links` has what it showed
//! ```

ghost use Rattle.std.specs.Prelude.{◌≡◌, ◌∷◌, List, [], OnOk, OnErr, IfErr};
ghost use Rattle.ic_link_ops.specs.Prelude.{Place, insert, at_back, IsCovered, ChangesOnlyIn, acquires};
ghost use Rattle.ic_link_ops.specs.LinkedList.{Represents, RepresentsSome};

use ic_link_ops::linked_list::LinkedListOps;
use ic_link_ops::{AlreadyLinked, LinkOps};
use ic_linked_list::LinkedList;
use ic_unsafe_ref::{Place, UnsafeRef};

/// A view of a table of links. The view exists while the table is borrowed. No call makes it a view of another table.
pub struct BorrowedTable<'a, L> {
    links: &'a mut L,
}

impl<L> Drop for BorrowedTable<'_, L> {
    fn drop(self)
        ensures links { self.exit.0.now ≡ self.entry.links.now }
    {
        let BorrowedTable { links: _ } = self;
    }
}

impl<'a, L> BorrowedTable<'a, L> {
    ghost use Rattle.uses.specs.BorrowedTables.{IsBorrowed};

    /// Makes a view of the table. O(1).
    #[inline]
    pub fn new(links: &'a mut L) -> BorrowedTable<'a, L>
        ensures { IsBorrowed links.entry result }
    {
        BorrowedTable { links }
    }
}

impl<L: LinkOps> LinkOps for BorrowedTable<'_, L> {
    ghost use Rattle.uses.specs.BorrowedTables.{borrowed, named, links_of};
    ghost use Rattle.ic_link_ops.specs.StepLaws.{trace_within};

    type Entry = L::Entry;

    ghost table = { borrowed L.table };

    ghost linked = { L.linked };

    ghost CanName = { L.CanName };

    ghost Trace = { λ old new s. L.Trace (links_of old) (links_of new) s };

    ghost Refused = { λ old new p. L.Refused (links_of old) (links_of new) p × (borrowed L.table new ≡ borrowed L.table old) };

    #[inline]
    fn acquire_link(&mut self, place: Place) -> bool {
        self.links.acquire_link(place)
    }

    #[inline]
    fn release_link(&mut self, place: Place) {
        self.links.release_link(place);
    }

    ghost linked_is_covered = { λ t p h. L.linked_is_covered (links_of t) p h };

    ghost covered_has_name = { λ t p covered. L.covered_has_name (links_of t) p covered };

    ghost does_nothing = { λ t. L.does_nothing (links_of t) };

    ghost does_on = { λ a b c s t h k. L.does_on (links_of a) (links_of b) (links_of c) s t h k };

    ghost does_replay = { λ old new s h. trace_within L.linked (named L.table old) (named L.table new) s
        (L.table (links_of old)) (L.table (links_of new)) (L.does_replay (links_of old) (links_of new) s h) };

    ghost refused_keeps = { λ old new p h. h.1 };
}

impl<L: LinkedListOps> LinkedListOps for BorrowedTable<'_, L> {
    ghost neighbors = { L.neighbors };

    #[inline]
    fn next(&self, place: Place) -> Option<Place> {
        self.links.next(place)
    }

    #[inline]
    fn prev(&self, place: Place) -> Option<Place> {
        self.links.prev(place)
    }

    #[inline]
    fn set_next(&mut self, place: Place, next: Option<Place>) {
        self.links.set_next(place, next);
    }

    #[inline]
    fn set_prev(&mut self, place: Place, prev: Option<Place>) {
        self.links.set_prev(place, prev);
    }

    ghost linked_alike = { L.linked_alike };
}

/// Inserts an unlinked object at the back of a list through a view of the table. Afterwards the table has the entries that the view had.
///
/// It requires that the table covers the object's place and represents a sequence for the list. If the object is already linked, the caller gets it
/// back, and no entry has changed. O(1).
pub fn push_back<T, L: LinkedListOps>(
    list: &mut LinkedList<T>,
    links: &mut L,
    object: UnsafeRef<T>,
) -> Result<(), AlreadyLinked<T>>
    requires covered { IsCovered (L.table links.old) object }
    requires shown { RepresentsSome L.neighbors (L.table links.old) list.old }
    ensures inserted { (s : List Place) → Represents L.neighbors (L.table links.old) list.old s
        → OnOk result (Represents L.neighbors (L.table links.new) list.new (insert (at_back s) object)) }
    ensures acquired { OnOk result (L.Trace links.old links.new (acquires object ∷ [])) }
    ensures refused { OnErr result (L.Refused links.old links.new object) }
    ensures unchanged { IfErr result (λ refused. (refused.0 ≡ object) × (list.new ≡ list.old)) }
    ensures frame { (s : List Place) → Represents L.neighbors (L.table links.old) list.old s
        → ChangesOnlyIn (L.table links.old) (L.table links.new) (object ∷ s) }
{
    let mut view = BorrowedTable::new(links);
    list.push_back(&mut view, object)
}
