//! A walk over the objects of a tree.
//!
//! ```text
//! for task in tree.iter(&links, &objects) {
//!     task.run();
//! }
//! let latest = tree.iter(&links, &objects).next_back();
//! ```

ghost use Rattle.std.specs.Prelude.{◌≡◌, List, Option, Some, ⊤};
ghost use Rattle.std.specs.Iterator.{item_count};
ghost use Rattle.ic_link_ops.specs.Prelude.{Place, GivesFirst, GivesLast};
ghost use Rattle.ic_rbtree.specs.Kept.{RepresentsKept};
ghost use Rattle.ic_rbtree.specs.Tree.{head_of};

use crate::head::TreeHead;
use crate::readings::is_at;
use crate::steps::step;
use crate::{KeyAdapter, RBTree};
use ic_cursors::DebugWalk;
use ic_link_ops::rbtree::RBTreeOps;
use ic_link_ops::{LinkOps, Side};
use ic_unsafe_ref::{Objects, Place, Values};
use std::alloc::AllocError;
use std::marker::PhantomData;

/// A walk over the objects of a tree: `next` returns the objects from the front, and `next_back` from the back.
///
/// After `next` and `next_back` have together returned all objects, both return `None`. The bound `A::Key: 'a` holds for every key that is a part of its
/// object. Only callers that are generic in the adapter have to write this bound.
pub struct Iter<'a, A: KeyAdapter, L, O = Objects<<A as KeyAdapter>::Value>>
where
    A::Key: 'a,
{
    pub(crate) root: Option<Place>,
    pub(crate) links: &'a L,
    pub(crate) objects: &'a O,
    pub(crate) of: PhantomData<(&'a A, &'a A::Value)>,
    pub(crate) head: Option<Place>,
    pub(crate) tail: Option<Place>,
}

impl<A: KeyAdapter, L, O> Drop for Iter<'_, A, L, O> {
    fn drop(self) {
        let Iter {
            root: _,
            links: _,
            objects: _,
            of: _,
            head: _,
            tail: _,
        } = self;
    }
}

impl<'a, A: KeyAdapter, L: RBTreeOps, O: Values<A::Value>> Iterator for Iter<'a, A, L, O> {
    type Item = &'a A::Value;

    ghost use Rattle.std.specs.Iterator.{item_count};
    ghost use Rattle.ic_rbtree.specs.Iter.{objects_left, CanWalk};

    ghost can_next = { CanWalk L.node L.table O.values };

    ghost next_gives = { GivesFirst (objects_left L.node L.table O.values) };

    ghost remaining = { item_count (objects_left L.node L.table O.values) };

    /// The next object, or `None` if none is left. O(log n): one step in the tree, and one look-up of the object.
    fn next(&mut self) -> Option<&'a A::Value> {
        let place = self.head?;
        let objects: &'a O = self.objects;
        let value = objects.value(place);
        if is_at(self.tail, place) {
            self.head = None;
            self.tail = None;
        } else {
            self.head = step(self.links, self.root, Some(place), Side::Right);
        }
        Some(value)
    }
}

impl<'a, A: KeyAdapter, L: RBTreeOps, O: Values<A::Value>> DoubleEndedIterator
    for Iter<'a, A, L, O> {
    ghost use Rattle.ic_rbtree.specs.Iter.{objects_left, CanWalk};

    ghost can_next_back = { CanWalk L.node L.table O.values };

    ghost next_back_gives = { GivesLast (objects_left L.node L.table O.values) };

    /// The next object from the back, or `None` if none is left. It costs as much as `next`, O(log n).
    fn next_back(&mut self) -> Option<&'a A::Value> {
        let place = self.tail?;
        let objects: &'a O = self.objects;
        let value = objects.value(place);
        if is_at(self.head, place) {
            self.head = None;
            self.tail = None;
        } else {
            self.tail = step(self.links, self.root, Some(place), Side::Left);
        }
        Some(value)
    }
}

impl<A: KeyAdapter, L, O> Clone for Iter<'_, A, L, O> {
    ghost is_clone = { λ t copy. copy ≡ t };

    ghost is_infallible = { λ _. ⊤ };

    /// A second walk over the objects that this walk has not returned yet. The call never fails.
    fn clone(&self) -> Result<Self, AllocError> {
        Ok(Iter {
            root: self.root,
            links: self.links,
            objects: self.objects,
            of: PhantomData,
            head: self.head,
            tail: self.tail,
        })
    }
}

impl<A: KeyAdapter, L: RBTreeOps, O: Values<A::Value>> Iter<'_, A, L, O> {
    ghost use Rattle.ic_link_ops.specs.Sequences.{first};
    ghost use Rattle.ic_rbtree.specs.Iter.{rest_of, CanWalk};

    /// The place of the member that `next` would return, `None` if the walk is exhausted. O(1).
    #[inline]
    pub fn get_ptr(&self) -> Option<Place>
        requires can_walk { CanWalk L.node L.table O.values self.now }
        ensures { result ≡ first (rest_of L.node L.table self.now) }
    {
        self.head
    }
}

impl<A: KeyAdapter, E: TreeHead> RBTree<A, E> {
    ghost use Rattle.ic_link_ops.specs.PlacedObjects.{RepresentsPlaced, values_at};
    ghost use Rattle.ic_rbtree.specs.Iter.{objects_left, CanWalk};

    /// A walk over the objects of the tree, from either end. It requires that all members are placed. O(log n), or O(1) if the tree stores its ends.
    pub fn iter<'a, L: RBTreeOps, O: Values<A::Value>>(
        &'a self,
        links: &'a L,
        objects: &'a O,
    ) -> Iter<'a, A, L, O>
        requires placed { RepresentsPlaced (RepresentsKept E.kept L.node (L.table links.now) (head_of self.now)) (O.values objects.now) }
        ensures walks { (s : List Place) → RepresentsKept E.kept L.node (L.table links.now) (head_of self.now) s
            → objects_left L.node L.table O.values result ≡ values_at (O.values objects.now) s }
        ensures can_walk { CanWalk L.node L.table O.values result }
    {
        Iter {
            root: self.head.root(),
            links,
            objects,
            of: PhantomData,
            head: self.first(links),
            tail: self.last(links),
        }
    }

    /// A value that prints the objects of the tree, in order: `{:?}` writes `[10, 20]`, and `{:#?}` writes each object on lines of its own. It requires
    /// that all members are placed. The call takes O(log n), and no memory.
    pub fn debug<'a, L: RBTreeOps, O: Values<A::Value>>(
        &'a self,
        links: &'a L,
        objects: &'a O,
    ) -> DebugWalk<Iter<'a, A, L, O>>
        requires placed { RepresentsPlaced (RepresentsKept E.kept L.node (L.table links.now) (head_of self.now)) (O.values objects.now) }
        ensures lists { (s : List Place) → RepresentsKept E.kept L.node (L.table links.now) (head_of self.now) s
            → objects_left L.node L.table O.values result ≡ values_at (O.values objects.now) s }
    {
        DebugWalk::new(self.iter(links, objects))
    }
}
