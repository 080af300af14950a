//! Walks over the objects of a ring.
//!
//! ```text
//! for task in ready.iter(&links, &tasks) {
//!     task.run();
//! }
//! let newest = ready.iter(&links, &tasks).next_back();
//! ```

ghost use Rattle.std.specs.Prelude.{◌≡◌, List, Option, Some, ⊤};
ghost use Rattle.ic_link_ops.specs.Prelude.{Place, RepresentsPlaced, values_at, GivesFirst, GivesLast};
ghost use Rattle.ic_ring.specs.Rings.{Represents};

use crate::ring::Ring;
use crate::surgery::{next_of, prev_of};
use ic_cursors::DebugWalk;
use ic_link_ops::LinkOps;
use ic_link_ops::linked_list::LinkedListOps;
use ic_unsafe_ref::{Objects, Place, Values};
use std::alloc::AllocError;
use std::marker::PhantomData;

/// A walk over the objects of a ring: `next` returns them from the front, and `next_back` from the back.
///
/// The walk stores the first remaining place, and the place after the last remaining place, which is at first the head. If both places are the same,
/// no object is left.
pub struct Iter<'a, T, L, O = Objects<T>> {
    links: &'a L,
    objects: &'a O,
    of: PhantomData<&'a T>,
    front: Place,
    end: Place,
}

impl<T, L, O> Drop for Iter<'_, T, L, O> {
    fn drop(self) {
        let Iter {
            links: _,
            objects: _,
            of: _,
            front: _,
            end: _,
        } = self;
    }
}

impl<'a, T, L: LinkedListOps, O: Values<T>> Iterator for Iter<'a, T, L, O> {
    type Item = &'a T;

    ghost use Rattle.std.specs.Iterator.{item_count};
    ghost use Rattle.ic_ring.specs.Iter.{objects_left, CanWalk};

    ghost can_next = { CanWalk L.neighbors L.table O.values };

    ghost next_gives = { GivesFirst (objects_left L.neighbors L.table O.values) };

    ghost remaining = { item_count (objects_left L.neighbors L.table O.values) };

    /// Returns the next object, or `None` if no object is left. The call reads one entry and makes one look-up of the object: O(1).
    fn next(&mut self) -> Option<&'a T> {
        let place = self.front;
        if place == self.end {
            return None;
        }
        let objects: &'a O = self.objects;
        let value = objects.value(place);
        self.front = next_of(self.links, place);
        Some(value)
    }
}

impl<'a, T, L: LinkedListOps, O: Values<T>> DoubleEndedIterator for Iter<'a, T, L, O> {
    ghost use Rattle.ic_ring.specs.Iter.{objects_left, CanWalk};

    ghost can_next_back = { CanWalk L.neighbors L.table O.values };

    ghost next_back_gives = { GivesLast (objects_left L.neighbors L.table O.values) };

    /// Returns the next object from the back, or `None` if no object is left. The call costs as much as `next`: O(1).
    fn next_back(&mut self) -> Option<&'a T> {
        if self.front == self.end {
            return None;
        }
        let place = prev_of(self.links, self.end);
        let objects: &'a O = self.objects;
        let value = objects.value(place);
        self.end = place;
        Some(value)
    }
}

impl<T, L, O> Clone for Iter<'_, T, L, O> {
    ghost is_clone = { λ t copy. copy ≡ t };

    ghost is_infallible = { λ _. ⊤ };

    /// A second walk over the objects that this walk has not returned yet. The call never fails.
    fn clone(&self) -> Result<Self, AllocError> {
        Ok(Iter {
            links: self.links,
            objects: self.objects,
            of: PhantomData,
            front: self.front,
            end: self.end,
        })
    }
}

impl<T> Ring<T> {
    ghost use Rattle.ic_ring.specs.Iter.{objects_left, CanWalk};

    /// A walk over the objects of the ring, from the front and from the back. The call requires that an object is at each member. O(1).
    pub fn iter<'a, L: LinkedListOps, O: Values<T>>(
        &self,
        links: &'a L,
        objects: &'a O,
    ) -> Iter<'a, T, L, O>
        requires placed { RepresentsPlaced (Represents L.neighbors (L.table links.now) self.now) (O.values objects.now) }
        ensures walks { (s : List Place) → Represents L.neighbors (L.table links.now) self.now s
            → objects_left L.neighbors L.table O.values result ≡ values_at (O.values objects.now) s }
        ensures can_walk { CanWalk L.neighbors L.table O.values result }
    {
        Iter {
            links,
            objects,
            of: PhantomData,
            front: next_of(links, self.head()),
            end: self.head(),
        }
    }

    /// A value that prints the objects of the ring, in order: `{:?}` writes `[10, 20]`, and `{:#?}` writes each object on lines of its own. The call requires
    /// that an object is at each member. The call takes O(1) and no memory.
    pub fn debug<'a, L: LinkedListOps, O: Values<T>>(
        &self,
        links: &'a L,
        objects: &'a O,
    ) -> DebugWalk<Iter<'a, T, L, O>>
        requires placed { RepresentsPlaced (Represents L.neighbors (L.table links.now) self.now) (O.values objects.now) }
        ensures lists { (s : List Place) → Represents L.neighbors (L.table links.now) self.now s
            → objects_left L.neighbors L.table O.values result ≡ values_at (O.values objects.now) s }
    {
        DebugWalk::new(self.iter(links, objects))
    }
}
