//! A walk through a tree that removes the members.
//!
//! ```text
//! let mut rest = tree.into_iter(&mut links);
//! let first = rest.next();      // unlinked now
//! let last = rest.next_back();  // and so is this one
//! rest.finish();                // and all others
//! ```

ghost use Rattle.std.specs.Prelude.{◌≡◌, Some, List, [], ◌∷◌, IfSome, IfNone};
ghost use Rattle.std.specs.Iterator.{item_count};
ghost use Rattle.ic_link_ops.specs.Prelude.{Place, ChangesOnlyIn, releases, releases_each};
ghost use Rattle.ic_rbtree.specs.Closed.{IsNamed};
ghost use Rattle.ic_rbtree.specs.Ends.{end_on, others_on, RepresentsFrom, Hangs, CanDescend, IsOuter};
ghost use Rattle.ic_rbtree.specs.Kept.{RepresentsKept, RepresentsKeptSome};
ghost use Rattle.ic_rbtree.specs.Steps.{TraceStays};
ghost use Rattle.ic_rbtree.specs.Tree.{head_of};

use crate::head::TreeHead;
use crate::readings::{child, other};
use crate::repair::writers::{adopt, set_child};
use crate::steps::outermost;
use crate::{KeyAdapter, RBTree};
use ic_link_ops::rbtree::RBTreeOps;
use ic_link_ops::{LinkOps, PlaceWord, Side};
use ic_unsafe_ref::{Place, UnsafeRef};
use std::marker::PhantomData;

/// A walk that removes and returns the members of a tree: `next` takes the first, and `next_back` the last.
///
/// The walk unlinks each member that it returns, and no other. After [`next`](Self::next) and [`next_back`](Self::next_back) have together returned all
/// members, both return `None`. If the walk is dropped, the remaining members stay linked: call [`finish`](Self::finish) to unlink them.
pub struct IntoIter<'a, A, L> {
    front: PlaceWord,
    back: PlaceWord,
    links: &'a mut L,
    of: PhantomData<A>,
}

impl<A, L> Drop for IntoIter<'_, A, L> {
    fn drop(self)
        ensures links { self.exit.1.1.0.now ≡ self.entry.links.now }
    {
        let IntoIter {
            front: _,
            back: _,
            links: _,
            of: _,
        } = self;
    }
}

impl<'a, A: KeyAdapter, L: RBTreeOps> Iterator for IntoIter<'a, A, L> {
    type Item = UnsafeRef<A::Value>;

    ghost use Rattle.ic_rbtree.specs.IntoIter.{CanTake, TakesFirst, members_left};

    ghost can_next = { CanTake L.node L.table };

    ghost next_gives = { TakesFirst L.node L.table L.Trace };

    ghost remaining = { item_count (members_left L.node L.table) };

    /// Removes the first remaining member and returns it, or `None` if none is left. O(log n), and O(1) on average over
    /// the whole walk.
    ///
    /// If the removed member has a child, this child takes the position of the removed member, and keeps its color. The walk repairs no colors.
    #[inline]
    fn next(&mut self) -> Option<UnsafeRef<A::Value>> {
        let place = take_end(self.links, &mut self.front, &mut self.back, Side::Left)?;
        Some(UnsafeRef::new(place))
    }
}

impl<'a, A: KeyAdapter, L: RBTreeOps> DoubleEndedIterator for IntoIter<'a, A, L> {
    ghost use Rattle.ic_rbtree.specs.IntoIter.{CanTake, TakesLast};

    ghost can_next_back = { CanTake L.node L.table };

    ghost next_back_gives = { TakesLast L.node L.table L.Trace };

    /// Removes the last remaining member and returns it, as [`next`](Self::next) does with the first remaining member.
    #[inline]
    fn next_back(&mut self) -> Option<UnsafeRef<A::Value>> {
        let place = take_end(self.links, &mut self.back, &mut self.front, Side::Right)?;
        Some(UnsafeRef::new(place))
    }
}

impl<'a, A, L: RBTreeOps> IntoIter<'a, A, L> {
    ghost use Rattle.ic_rbtree.specs.IntoIter.{Leaves, CanTake};

    /// The table in its current state. O(1).
    #[inline]
    pub fn links(&self) -> &L
        ensures { result.now ≡ self.now.links.now }
    {
        self.links
    }

    /// Unlinks the members that the walk has not returned, from the first to the last. The call takes one step for each of these members, and no memory.
    /// O(n).
    pub fn finish(self)
        requires can_take { CanTake L.node L.table self }
        ensures released { (w : List Place) → Leaves L.node L.table self.entry w
            → L.Trace self.entry.links.now self.exit.1.1.0.now (releases_each w) }
        ensures frame { (w : List Place) → Leaves L.node L.table self.entry w
            → ChangesOnlyIn (L.table self.entry.links.now) (L.table self.exit.1.1.0.now) w }
    {
        let IntoIter {
            mut front,
            mut back,
            links,
            of: _,
        } = self;
        while let Some(_) = take_end(links, &mut front, &mut back, Side::Left) {}
    }
}

impl<A: KeyAdapter, E: TreeHead> RBTree<A, E> {
    ghost use Rattle.ic_rbtree.specs.IntoIter.{Leaves};

    /// A walk that removes the members, from either end. This call unlinks nothing yet. O(log n), or O(1) if the tree stores
    /// its ends.
    pub fn into_iter<'a, L: RBTreeOps>(self, links: &'a mut L) -> IntoIter<'a, A, L>
        requires shown { RepresentsKeptSome E.kept L.node (L.table links.old) (head_of self) }
        ensures tree { (s : List Place) → RepresentsKept E.kept L.node (L.table links.entry.now) (head_of self) s
            → Leaves L.node L.table result s }
        ensures links { result.links.now ≡ links.entry.now }
        ensures same_links { result.links.ghost_name ≡ links.entry.ghost_name }
    {
        let front = self.first(&*links);
        let back = self.last(&*links);
        IntoIter {
            front: PlaceWord::of(front),
            back: PlaceWord::of(back),
            links,
            of: PhantomData,
        }
    }
}

// Removes the outermost member on the side `side`, which is at `near`, and unlinks it. `far` is the outermost member on the other side.
//
// The removed member has no child on the side `side`, and its other child takes its position. No color is changed, and no root is stored.
fn take_end<L: RBTreeOps>(
    links: &mut L,
    near: &mut PlaceWord,
    far: &mut PlaceWord,
    side: Side,
) -> Option<Place>
    requires shown { (w : List Place) × RepresentsFrom L.node side (L.table links.old) near.old far.old w }
    ensures answer { (w : List Place) → RepresentsFrom L.node side (L.table links.old) near.old far.old w
        → result ≡ end_on side w }
    ensures removed { (w : List Place) → RepresentsFrom L.node side (L.table links.old) near.old far.old w
        → RepresentsFrom L.node side (L.table links.new) near.new far.new (others_on side w) }
    ensures released { IfSome result (λ p. L.Trace links.old links.new (releases p ∷ [])) }
    ensures empty { IfNone result ((near.new ≡ near.old) × (far.new ≡ far.old) × (links.new ≡ links.old)) }
    ensures frame { (w : List Place) → RepresentsFrom L.node side (L.table links.old) near.old far.old w
        → ChangesOnlyIn (L.table links.old) (L.table links.new) w }
{
    let place = near.get()?;
    let below = child(&*links, place, other(side));
    let parent = links.parent(place);
    adopt(links, below, parent);
    hang(links, parent, side, below);
    let next = outer(&*links, below, parent, side);
    *near = PlaceWord::of(next);
    *far = PlaceWord::of(next.and(far.get()));
    links.release_link(place);
    Some(place)
}

// Makes the subtree with the root `to` the child of `parent` on the side `side`, if there is a parent.
fn hang<L: RBTreeOps>(links: &mut L, parent: Option<Place>, side: Side, to: Option<Place>)
    requires parent { IsNamed L.node (L.table links.old) parent }
    requires named { IsNamed L.node (L.table links.old) to }
    ensures moved { Hangs L.node (L.table links.old) (L.table links.new) parent side to }
    ensures trace_stays { TraceStays L.Trace links.old links.new }
{
    if let Some(parent) = parent {
        set_child(links, parent, side, to);
    }
}

// Returns the outermost member on the side `side` of the subtree with the root `below`, or `parent` if `below` is none. The subtree is below `parent`, and no
// member of the tree is beyond the subtree on this side.
fn outer<L: RBTreeOps>(
    links: &L,
    below: Option<Place>,
    parent: Option<Place>,
    side: Side,
) -> Option<Place>
    requires { CanDescend L.node (L.table links.now) below }
    ensures { IsOuter L.node (L.table links.now) below parent side result }
{
    match below {
        Some(below) => Some(outermost(links, below, side)),
        None => parent,
    }
}
