//! A table of links that is one of two tables, for a program that chooses between the two when it runs.
//!
//! ```text
//! let mut links = EitherTable::Second(large);
//! list.push_back(&mut links, object)?; // it is the second one still
//! ```

ghost use Rattle.std.specs.Prelude.{◌≡◌, ◌∷◌, List, [], OnOk, OnErr, IfErr};
ghost use Rattle.ic_link_ops.specs.Prelude.{Place, insert, at_back, IsCovered, ChangesOnlyIn, acquires};
ghost use Rattle.ic_link_ops.specs.LinkedList.{Represents, RepresentsSome};

use ic_link_ops::linked_list::LinkedListOps;
use ic_link_ops::{AlreadyLinked, LinkOps};
use ic_linked_list::LinkedList;
use ic_unsafe_ref::{Place, UnsafeRef};

/// One of two tables of links. No call changes which of the two it is.
#[derive(Drop)]
pub enum EitherTable<L> {
    /// The first of the two tables.
    First(L),
    /// The second of the two tables.
    Second(L),
}

impl<L: LinkOps> LinkOps for EitherTable<L> {
    ghost use Rattle.uses.specs.EitherTables.{one_of, Alike, covered, has_name, replay, kept, nothing, on};

    type Entry = L::Entry;

    ghost table = { one_of L.table };

    ghost linked = { L.linked };

    ghost CanName = { L.CanName };

    ghost Trace = { Alike L.Trace };

    ghost Refused = { Alike L.Refused };

    #[inline]
    fn acquire_link(&mut self, place: Place) -> bool {
        match self {
            EitherTable::First(links) => links.acquire_link(place),
            EitherTable::Second(links) => links.acquire_link(place),
        }
    }

    #[inline]
    fn release_link(&mut self, place: Place) {
        match self {
            EitherTable::First(links) => links.release_link(place),
            EitherTable::Second(links) => links.release_link(place),
        }
    }

    ghost linked_is_covered = { covered L.table L.linked L.linked_is_covered };

    ghost covered_has_name = { has_name L.table L.CanName L.covered_has_name };

    ghost does_nothing = { nothing L.Trace L.does_nothing };

    ghost does_on = { on L.Trace L.does_on };

    ghost does_replay = { replay L.table L.linked L.Trace L.does_replay };

    ghost refused_keeps = { kept L.table L.Refused L.refused_keeps };
}

impl<L: LinkedListOps> LinkedListOps for EitherTable<L> {
    ghost neighbors = { L.neighbors };

    #[inline]
    fn next(&self, place: Place) -> Option<Place> {
        match self {
            EitherTable::First(links) => links.next(place),
            EitherTable::Second(links) => links.next(place),
        }
    }

    #[inline]
    fn prev(&self, place: Place) -> Option<Place> {
        match self {
            EitherTable::First(links) => links.prev(place),
            EitherTable::Second(links) => links.prev(place),
        }
    }

    #[inline]
    fn set_next(&mut self, place: Place, next: Option<Place>) {
        match self {
            EitherTable::First(links) => links.set_next(place, next),
            EitherTable::Second(links) => links.set_next(place, next),
        }
    }

    #[inline]
    fn set_prev(&mut self, place: Place, prev: Option<Place>) {
        match self {
            EitherTable::First(links) => links.set_prev(place, prev),
            EitherTable::Second(links) => links.set_prev(place, prev),
        }
    }

    ghost linked_alike = { L.linked_alike };
}

impl<L: LinkedListOps> EitherTable<L> {
    ghost use Rattle.uses.specs.EitherTables.{one_of, variant, Alike};

    /// Inserts an unlinked object at the back of a list whose links this table has. Afterwards the table is still the same variant, `First` or `Second`.
    ///
    /// It requires that the table covers the object's place and represents a sequence for the list. If the object is already linked, the caller gets
    /// it back, and no entry has changed. O(1).
    pub fn push_back<T>(
        &mut self,
        list: &mut LinkedList<T>,
        object: UnsafeRef<T>,
    ) -> Result<(), AlreadyLinked<T>>
        requires covered { IsCovered (one_of L.table self.old) object }
        requires shown { RepresentsSome L.neighbors (one_of L.table self.old) list.old }
        ensures same { variant self.new ≡ variant self.old }
        ensures inserted { (s : List Place) → Represents L.neighbors (one_of L.table self.old) list.old s
            → OnOk result (Represents L.neighbors (one_of L.table self.new) list.new (insert (at_back s) object)) }
        ensures acquired { OnOk result (Alike L.Trace self.old self.new (acquires object ∷ [])) }
        ensures refused { OnErr result (Alike L.Refused self.old self.new object) }
        ensures unchanged { IfErr result (λ refused. (refused.0 ≡ object) × (list.new ≡ list.old)) }
        ensures frame { (s : List Place) → Represents L.neighbors (one_of L.table self.old) list.old s
            → ChangesOnlyIn (one_of L.table self.old) (one_of L.table self.new) (object ∷ s) }
    {
        list.push_back(self, object)
    }
}
