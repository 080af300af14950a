//! Walks over the objects of a list.
//!
//! ```text
//! for task in list.iter(&links, &objects) {
//!     task.run();
//! }
//! let newest = list.iter(&links, &objects).next_back();
//! ```

ghost use Rattle.std.specs.Prelude.{◌≡◌, List, Option, Some, ⊤};
ghost use Rattle.ic_link_ops.specs.Prelude.{Place, RepresentsPlaced, values_at, is_end, GivesFirst, GivesLast, RepresentsChain};

use crate::LinkList;
use crate::kind::{BidirectionalLinks, DoubleEnded, ForwardLinks, ListKind};
use ic_cursors::DebugWalk;
use ic_link_ops::LinkOps;
use ic_unsafe_ref::{Objects, Place, Values};
use std::alloc::AllocError;
use std::marker::PhantomData;

/// A walk over the objects of a list. `next` returns objects from the front. `next_back` returns objects from the back, if the kind stores both ends
/// and its entries can be read from back to front.
///
/// The walk stores the first and the last of the remaining members, the place before the first, and the place after the last. When `next` and `next_back`
/// meet, no member is left. In a list that does not store its last member, the walk ends at the member that no member follows.
pub struct Iter<'a, K, T, L, O = Objects<T>> {
    links: &'a L,
    objects: &'a O,
    of: PhantomData<&'a T>,
    kind: PhantomData<&'a K>,
    before: Option<Place>,
    head: Option<Place>,
    tail: Option<Place>,
    after: Option<Place>,
}

impl<K, T, L, O> Drop for Iter<'_, K, T, L, O> {
    fn drop(self) {
        let Iter {
            links: _,
            objects: _,
            of: _,
            kind: _,
            before: _,
            head: _,
            tail: _,
            after: _,
        } = self;
    }
}

// Whether `place` is `end`, the member at which a walk ends. If `end` is `None`, the result is false.
#[inline]
fn is_at(end: Option<Place>, place: Place) -> bool
    ensures { result ≡ is_end end place }
{
    match end {
        None => false,
        Some(end) => end == place,
    }
}

impl<'a, K: ForwardLinks<L>, T, L: LinkOps, O: Values<T>> Iterator for Iter<'a, K, T, L, O> {
    type Item = &'a T;

    ghost use Rattle.std.specs.Iterator.{item_count};
    ghost use Rattle.ic_chain.specs.Iter.{objects_left, CanWalk};

    ghost can_next = { CanWalk K.keeps_last K.Between L.table O.values };

    ghost next_gives = { GivesFirst (objects_left K.step L.table O.values) };

    ghost remaining = { item_count (objects_left K.step L.table O.values) };

    /// Returns the next object, or `None` if no object is left. The call reads one entry and makes one look-up of the object: O(1).
    fn next(&mut self) -> Option<&'a T> {
        let place = self.head?;
        let objects: &'a O = self.objects;
        let value = objects.value(place);
        if is_at(self.tail, place) {
            self.head = None;
            self.tail = None;
        } else {
            self.head = K::next(self.links, place, self.before);
            self.before = Some(place);
        }
        Some(value)
    }
}

impl<'a, K: DoubleEnded + BidirectionalLinks<L>, T, L: LinkOps, O: Values<T>> DoubleEndedIterator
    for Iter<'a, K, T, L, O> {
    ghost use Rattle.ic_chain.specs.Iter.{objects_left, CanWalk};

    ghost can_next_back = { CanWalk K.keeps_last K.Between L.table O.values };

    ghost next_back_gives = { GivesLast (objects_left K.step L.table O.values) };

    /// Returns the next object from the back, or `None` if no object is left. The call costs as much as `next`: O(1).
    fn next_back(&mut self) -> Option<&'a T> {
        let place = self.tail?;
        let objects: &'a O = self.objects;
        let value = objects.value(place);
        if is_at(self.head, place) {
            self.head = None;
            self.tail = None;
        } else {
            self.tail = K::prev(self.links, place, self.after);
            self.after = Some(place);
        }
        Some(value)
    }
}

impl<K, T, L, O> Clone for Iter<'_, K, T, L, O> {
    ghost is_clone = { λ t copy. copy ≡ t };

    ghost is_infallible = { λ _. ⊤ };

    /// A second walk over the objects that this walk has not returned yet. The call never fails.
    fn clone(&self) -> Result<Self, AllocError> {
        Ok(Iter {
            links: self.links,
            objects: self.objects,
            of: PhantomData,
            kind: PhantomData,
            before: self.before,
            head: self.head,
            tail: self.tail,
            after: self.after,
        })
    }
}

impl<K: ListKind, T> LinkList<K, T> {
    ghost use Rattle.ic_chain.specs.Iter.{objects_left, CanWalk};

    /// A walk over the objects of the list from the front. It can also go from the back if the kind stores both ends and its entries can be read from
    /// back to front. The call requires that an object is at each member. O(1).
    pub fn iter<'a, L: LinkOps, O: Values<T>>(
        &self,
        links: &'a L,
        objects: &'a O,
    ) -> Iter<'a, K, T, L, O>
    where
        K: ForwardLinks<L>,
        requires placed { RepresentsPlaced (RepresentsChain K.Between K.kept (L.table links.now) self.now) (O.values objects.now) }
        ensures walks { (s : List Place) → RepresentsChain K.Between K.kept (L.table links.now) self.now s
            → objects_left K.step L.table O.values result ≡ values_at (O.values objects.now) s }
        ensures can_walk { CanWalk K.keeps_last K.Between L.table O.values result }
    {
        Iter {
            links,
            objects,
            of: PhantomData,
            kind: PhantomData,
            before: None,
            head: self.first(),
            tail: self.kept_last(),
            after: None,
        }
    }
    /// A value that prints the objects of the list, in order: `{:?}` writes `[10, 20]`, and `{:#?}` writes each object on lines of its own. The call requires
    /// that an object is at each member. The call takes O(1) and no memory.
    pub fn debug<'a, L: LinkOps, O: Values<T>>(
        &self,
        links: &'a L,
        objects: &'a O,
    ) -> DebugWalk<Iter<'a, K, T, L, O>>
    where
        K: ForwardLinks<L>,
        requires placed { RepresentsPlaced (RepresentsChain K.Between K.kept (L.table links.now) self.now) (O.values objects.now) }
        ensures lists { (s : List Place) → RepresentsChain K.Between K.kept (L.table links.now) self.now s
            → objects_left K.step L.table O.values result ≡ values_at (O.values objects.now) s }
    {
        DebugWalk::new(self.iter(links, objects))
    }
}
