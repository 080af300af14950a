//! A ring, and its calls.
//!
//! ```text
//! ring.push_back(&mut links, object)?;
//! let first = ring.pop_front(&mut links);
//! ```

ghost use Rattle.std.specs.Prelude.{◌≡◌, ◌∷◌, ◌↔◌, List, [], IsTrue, IfSome, IfNone, OnSome, drop};
ghost use Rattle.ic_link_ops.specs.Prelude.{Place, first, last, but_last, at_front, at_back, IsCovered, ChangesOnly, ChangesOnlyIn, acquires, releases_each};
ghost use Rattle.ic_ring.specs.Rings.{Represents, InRing, OthersStay};
ghost use Rattle.ic_ring.specs.RingEdits.{Pushes, Pops};

use crate::beside::{insert_between, unlink};
use crate::surgery::{next_of, prev_of};
use ic_link_ops::linked_list::LinkedListOps;
use ic_link_ops::{AlreadyLinked, LinkOps};
use ic_unsafe_ref::{Place, UnsafeRef};
use std::marker::{Model, PhantomData};

/// A ring of objects. The ring is given by its head, which is a place of the table without an object. Rings are good for queues.
///
/// The head never changes, so no call writes the ring itself. Contracts name only the head. The ring has the members that the table represents for
/// the head.
pub struct Ring<T> {
    head: Place,
    of: PhantomData<T>,
}

impl<T> Model for Ring<T> {
    ghost use Rattle.ic_unsafe_ref.specs.declared.place.Place.{Place};

    ghost Value = { Place };

    ghost view = { λ r. r.head };
}

impl<T> Drop for Ring<T> {
    fn drop(self) {
        let Ring { head: _, of: _ } = self;
    }
}

impl<T> Ring<T> {
    /// Makes a ring with the given head and no members, unless the head's link is refused. O(1), and it takes no memory.
    ///
    /// The call requires that the table covers the head. The head is linked to itself, so no list or ring of the table accepts it. If the head's link
    /// is refused, nothing has changed. Linux: `INIT_LIST_HEAD`.
    #[inline]
    pub fn open<L: LinkedListOps>(links: &mut L, head: Place) -> Option<Ring<T>>
        requires covered { IsCovered (L.table links.old) head }
        ensures opened { IfSome result (λ ring. (ring ≡ head) × Represents L.neighbors (L.table links.new) head []) }
        ensures acquired { OnSome result (L.Trace links.old links.new (acquires head ∷ [])) }
        ensures refused { IfNone result (L.Refused links.old links.new head) }
        ensures others { OthersStay L.neighbors (L.table links.old) (L.table links.new) [] }
        ensures frame { ChangesOnly (L.table links.old) (L.table links.new) head }
    {
        if !links.link_between(head, Some(head), Some(head)) {
            return None;
        }
        Some(Ring::from_head(head))
    }

    /// The ring with the given head, for callers who store the heads of their rings themselves. O(1).
    ///
    /// The call requires nothing of the head: the ring has the members, if any, that a table represents for the head. [`Ring::head`] returns the
    /// head.
    #[inline]
    pub fn from_head(head: Place) -> Ring<T>
        ensures { result ≡ head }
    {
        Ring {
            head,
            of: PhantomData,
        }
    }

    /// The place of the head of the ring. O(1).
    #[inline]
    pub fn head(&self) -> Place
        ensures { result ≡ self.now }
    {
        self.head
    }

    /// The first member, or `None` in an empty ring. O(1).
    #[inline]
    pub fn first<L: LinkedListOps>(&self, links: &L) -> Option<Place>
        requires shown { InRing L.neighbors (L.table links.now) self.now }
        ensures { (s : List Place) → Represents L.neighbors (L.table links.now) self.now s → result ≡ first s }
    {
        let place = next_of(links, self.head);
        if place == self.head {
            None
        } else {
            Some(place)
        }
    }

    /// The last member, or `None` in an empty ring. O(1).
    #[inline]
    pub fn last<L: LinkedListOps>(&self, links: &L) -> Option<Place>
        requires shown { InRing L.neighbors (L.table links.now) self.now }
        ensures { (s : List Place) → Represents L.neighbors (L.table links.now) self.now s → result ≡ last s }
    {
        let place = prev_of(links, self.head);
        if place == self.head {
            None
        } else {
            Some(place)
        }
    }

    /// Whether the ring has no members. O(1).
    #[inline]
    pub fn is_empty<L: LinkedListOps>(&self, links: &L) -> bool
        requires shown { InRing L.neighbors (L.table links.now) self.now }
        ensures { (s : List Place) → Represents L.neighbors (L.table links.now) self.now s → (IsTrue result ↔ (s ≡ [])) }
    {
        self.first(links).is_none()
    }

    /// Inserts the object at the back of the ring, unless its link is refused. O(1), and it takes no memory.
    ///
    /// The call requires that the table covers the object's place. If the link is refused, the object is returned and nothing has changed. A plain
    /// table refuses the link exactly if the object is linked in this table. Linux: `list_add_tail`.
    #[inline]
    pub fn push_back<L: LinkedListOps>(
        &self,
        links: &mut L,
        object: UnsafeRef<T>,
    ) -> Result<(), AlreadyLinked<T>>
        requires covered { IsCovered (L.table links.old) object }
        requires shown { InRing L.neighbors (L.table links.old) self.now }
        ensures { Pushes L.neighbors L.table L.Trace L.Refused at_back self.now links.old object result links.new }
    {
        let last = prev_of(&*links, self.head);
        if !insert_between(links, last, object.place(), self.head) {
            return Err(AlreadyLinked(object));
        }
        Ok(())
    }

    /// Inserts the object at the front of the ring, unless its link is refused. O(1), and it takes no memory.
    ///
    /// The call requires and returns what [`Ring::push_back`] does. The call is good for stacks. Linux: `list_add`.
    #[inline]
    pub fn push_front<L: LinkedListOps>(
        &self,
        links: &mut L,
        object: UnsafeRef<T>,
    ) -> Result<(), AlreadyLinked<T>>
        requires covered { IsCovered (L.table links.old) object }
        requires shown { InRing L.neighbors (L.table links.old) self.now }
        ensures { Pushes L.neighbors L.table L.Trace L.Refused at_front self.now links.old object result links.new }
    {
        let first = next_of(&*links, self.head);
        if !insert_between(links, self.head, object.place(), first) {
            return Err(AlreadyLinked(object));
        }
        Ok(())
    }

    /// Removes the object at the front of the ring and returns it, or `None` if the ring is empty. O(1).
    #[inline]
    pub fn pop_front<L: LinkedListOps>(&self, links: &mut L) -> Option<UnsafeRef<T>>
        requires shown { InRing L.neighbors (L.table links.old) self.now }
        ensures { Pops L.neighbors L.table L.Trace first (drop 1) self.now links.old result links.new }
    {
        let front = self.first(&*links)?;
        let next = next_of(&*links, front);
        unlink(links, self.head, front, next);
        Some(UnsafeRef::new(front))
    }

    /// Removes the object at the back of the ring and returns it, or `None` if the ring is empty. O(1).
    #[inline]
    pub fn pop_back<L: LinkedListOps>(&self, links: &mut L) -> Option<UnsafeRef<T>>
        requires shown { InRing L.neighbors (L.table links.old) self.now }
        ensures { Pops L.neighbors L.table L.Trace last but_last self.now links.old result links.new }
    {
        let back = self.last(&*links)?;
        let prev = prev_of(&*links, back);
        unlink(links, prev, back, self.head);
        Some(UnsafeRef::new(back))
    }

    /// Removes all objects from the ring. Each member is unlinked, and the head is linked to itself. O(n), and it takes no memory.
    pub fn clear<L: LinkedListOps>(&self, links: &mut L)
        requires shown { InRing L.neighbors (L.table links.old) self.now }

        ensures empty { Represents L.neighbors (L.table links.new) self.now [] }
        ensures released { (s : List Place) → Represents L.neighbors (L.table links.old) self.now s → L.Trace links.old links.new (releases_each s) }
        ensures others { OthersStay L.neighbors (L.table links.old) (L.table links.new) (self.now ∷ []) }
        ensures frame { (s : List Place) → Represents L.neighbors (L.table links.old) self.now s
            → ChangesOnlyIn (L.table links.old) (L.table links.new) (self.now ∷ s) }
    {
        while self.pop_front(links).is_some() {}
    }
}
