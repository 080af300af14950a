//! The calls that parties make on collections over links whose places they claim.

ghost use Rattle.std.specs.Prelude.{◌≡◌};
ghost use Rattle.ic_link_ops.specs.Tables.{IsCovered};

use crate::collections::{ByValue, Collection};
use ic_atomic::{AtomicLinkOps, PlainLinkOps};
use ic_link_ops::LinkOps;
use ic_link_ops::linked_list::LinkedListOps;
use ic_link_ops::rbtree::RBTreeOps;
use ic_linked_list::LinkedList;
use ic_rbtree::RBTree;
use ic_unsafe_ref::{Place, UnsafeRef};
use std::alloc::Allocator;

// The number of turns in which a party tries a hundred places and then gives them up, a hundred times over.
const TURNS: usize = 10_100;

/// Links that can be read: how many places they cover, and which places are linked in them.
pub(crate) trait Links: LinkOps {
    /// Returns how many places are covered. A place is covered if its index is below this number.
    fn covers(&self) -> usize
        ensures { result ≡ (Self.table self.now).extent.places };

    /// Returns whether any party has linked the place.
    fn looks_linked(&mut self, place: Place) -> bool
        requires { IsCovered (Self.table self.old) place }
        ensures { Self.table self.new ≡ Self.table self.old };
}

impl<L: PlainLinkOps, A: Allocator> Links for AtomicLinkOps<'_, L, A> {
    fn covers(&self) -> usize {
        AtomicLinkOps::covers(self)
    }

    fn looks_linked(&mut self, place: Place) -> bool {
        self.is_linked(place)
    }
}

// Inserts the object at the place with this index, unless some party holds the place, and returns whether the object was inserted. If the links do not
// cover the place, the call empties the collection.
fn put<L: Links, C: Collection<L>>(collection: &mut C, links: &mut L, index: usize) -> bool
    requires { C.Represented (L.table links.old) collection.old }
    ensures { C.Represented (L.table links.new) collection.new }
{
    match Place::new(index) {
        Some(place) if index < links.covers() => {
            collection.put_or_empty(links, Some(UnsafeRef::new(place)))
        }
        _ => collection.put_or_empty(links, None),
    }
}

/// Returns whether exactly the first `count` places are linked, by whichever party.
pub(crate) fn are_linked<L: Links>(links: &mut L, count: usize) -> bool
    ensures { L.table links.new ≡ L.table links.old }
{
    let mut as_wanted = true;
    for index in 0..links.covers() {
        match Place::new(index) {
            Some(place) if index < links.covers() => as_wanted &= links.looks_linked(place)
                == (index < count),
            _ => as_wanted = false,
        }
    }
    as_wanted
}

/// Inserts the first seven objects, which the other party must not be able to insert until they are given up. Returns whether both parties see these places
/// linked, and whether the other party can insert the objects afterwards.
// Promise: two holders and one place.
pub(crate) fn are_seen<L: Links, C: Collection<L>, M: Links + LinkedListOps>(
    mut collection: C,
    links: &mut L,
    other: &mut M,
) -> bool
    requires { C.Represented (L.table links.old) collection }
{
    let mut list: LinkedList<u64> = LinkedList::new();
    let mut as_wanted = true;
    for index in 0..7 {
        as_wanted &= put(&mut collection, links, index) & !put(&mut list, other, index);
    }
    as_wanted &= are_linked(other, 7) & are_linked(links, 7);
    let _ = put(&mut collection, links, usize::MAX);
    as_wanted &= are_linked(other, 0) & put(&mut list, other, 0);
    let _ = put(&mut list, other, usize::MAX);
    as_wanted
}

/// Inserts the first seven objects into a tree, and clears the tree. Returns whether the other party sees exactly these seven places linked before the
/// tree is cleared, and no place linked afterwards.
// Promise: a tree over claims.
pub(crate) fn is_cleared<L: Links + RBTreeOps, M: Links>(links: &mut L, other: &mut M) -> bool {
    let mut tree = RBTree::new(ByValue);
    let mut as_wanted = true;
    for index in 0..7 {
        as_wanted &= put(&mut tree, links, index);
    }
    as_wanted &= are_linked(other, 7);
    tree.clear(links);
    as_wanted & are_linked(other, 0)
}

/// Inserts the first three objects into a list, and removes the first member, the last one and the remaining one. Returns the indices of their places.
pub(crate) fn take_off<L: Links + LinkedListOps>(links: &mut L) -> Option<[usize; 3]> {
    let mut list: LinkedList<u64> = LinkedList::new();
    let _ = put(&mut list, links, 0);
    let _ = put(&mut list, links, 1);
    let _ = put(&mut list, links, 2);
    let first = list.pop_front(links)?;
    let last = list.pop_back(links)?;
    let left = list.pop_front(links)?;
    Some([
        first.place().index(),
        last.place().index(),
        left.place().index(),
    ])
}

/// Tries to insert each of a hundred objects, and then empties the collection, a hundred times. The call returns whether it could insert any object.
pub(crate) fn take_turns<L: Links + Drop, C: Collection<L>>(mut collection: C, mut links: L) -> bool
    requires { C.Represented (L.table links) collection }
{
    let mut had_any = false;
    for turn in 0..TURNS {
        had_any |= put(&mut collection, &mut links, turn % 101);
    }
    had_any
}
