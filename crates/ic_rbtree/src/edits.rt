//! What a tree implements for cursors: moves, and edits at a position. A replacement takes O(1), and every other call takes O(log n).
//!
//! The gap "after" a position is the gap after the position's member, or the first gap if the position is null. The gap "before" a position is the gap before
//! the position's member, or the last gap if the position is null. No edit compares keys. The traits `CursorOps` and `Bidirectional` document the calls.

ghost use Rattle.std.specs.Prelude.{◌≡◌, None, Option, List, [], ◌∷◌, ◌++◌};
ghost use Rattle.ic_link_ops.specs.Prelude.{Place, IsCovered, ChangesOnlyIn, site, IsValidCursor, HasMember, releases, InsertsBeside};
ghost use Rattle.ic_cursors.specs.Answers as answer;
ghost use Rattle.ic_link_ops.specs.declared.side.Side.TheVariants.{Left, Right};
ghost use Rattle.ic_rbtree.specs.Kept.{RepresentsKept, EndIs, HasEnds};
ghost use Rattle.ic_rbtree.specs.Sides.{IsBeside};
ghost use Rattle.ic_rbtree.specs.Tree.{head_of, adapter_of};

use crate::head::TreeHead;
use crate::linking::{insert, remove, replace};
use crate::steps::{insert_pos_beside, step};
use crate::{KeyAdapter, RBTree};
use ic_cursors::{Bidirectional, Collection, CursorOps};
use ic_link_ops::rbtree::RBTreeOps;
use ic_link_ops::{LinkOps, PlaceWord, Side};
use ic_unsafe_ref::{Place, UnsafeRef};

impl<A: KeyAdapter, E: TreeHead> RBTree<A, E> {
    /// The first member, `None` in an empty tree. O(log n), or O(1) if the tree stores its first member.
    ///
    /// It requires that the table represents the tree, unless the tree stores its ends.
    #[inline]
    pub fn first<L: RBTreeOps>(&self, links: &L) -> Option<Place>
        requires shown { HasEnds L.node (L.table links.now) (E.kept (head_of self.now)) }
        ensures { EndIs L.node Left (L.table links.now) (E.kept (head_of self.now)) result }
    {
        self.head.end(links, Side::Left)
    }

    /// The last member, `None` in an empty tree. O(log n), or O(1) if the tree stores its last member.
    ///
    /// It requires that the table represents the tree, unless the tree stores its ends.
    #[inline]
    pub fn last<L: RBTreeOps>(&self, links: &L) -> Option<Place>
        requires shown { HasEnds L.node (L.table links.now) (E.kept (head_of self.now)) }
        ensures { EndIs L.node Right (L.table links.now) (E.kept (head_of self.now)) result }
    {
        self.head.end(links, Side::Right)
    }

    /// Removes the object, which has to be a member, from the tree. The call compares no keys. O(log n).
    ///
    /// The other members stay in their order, and every other collection of the table stays as it is.
    #[inline]
    pub fn remove<L: RBTreeOps>(&mut self, links: &mut L, object: &UnsafeRef<A::Value>)
        requires member { HasMember (RepresentsKept E.kept L.node (L.table links.old) (head_of self.old)) object.now }
        ensures removed { (front back : List Place)
            → RepresentsKept E.kept L.node (L.table links.old) (head_of self.old) (front ++ object.now ∷ back)
            → RepresentsKept E.kept L.node (L.table links.new) (head_of self.new) (front ++ back) }
        ensures released { L.Trace links.old links.new (releases object.now ∷ []) }
        ensures adapter { adapter_of self.new ≡ adapter_of self.old }
        ensures frame { (s : List Place) → RepresentsKept E.kept L.node (L.table links.old) (head_of self.old) s
            → ChangesOnlyIn (L.table links.old) (L.table links.new) s }
    {
        remove(links, &mut self.head, object.place());
    }

    // Inserts `object` into the gap on the side `side` of the position `at`. Returns whether the link of `object` was acquired.
    #[inline]
    fn insert_beside<L: RBTreeOps>(
        &mut self,
        links: &mut L,
        at: &PlaceWord,
        side: Side,
        object: Place,
    ) -> bool
        requires covered { IsCovered (L.table links.old) object }
        requires stands { IsValidCursor (RepresentsKept E.kept L.node) L.table (site links.old (head_of self.old) at.now) }
        ensures inserted { InsertsBeside (RepresentsKept E.kept L.node) L.table L.Trace L.Refused (IsBeside side)
            (site links.old (head_of self.old) at.now) object (answer.inserted {T = A.Value} object result) (site links.new (head_of self.new) at.now) }
        ensures adapter { adapter_of self.new ≡ adapter_of self.old }
    {
        let (parent, below) = insert_pos_beside(&*links, self.head.root(), at.get(), side);
        insert(links, &mut self.head, parent, below, object)
    }
}

impl<A: KeyAdapter, E: TreeHead> Collection for RBTree<A, E> {
    type Object = A::Value;

    type Position = PlaceWord;

    type Head = E;

    ghost head_of = { head_of };

    ghost Keeps = { λ old new. adapter_of new ≡ adapter_of old };

    ghost null_of = { λ tree. None };

    #[inline]
    fn null_position(&self) -> PlaceWord {
        PlaceWord::of(None)
    }
}

impl<A: KeyAdapter, E: TreeHead, L: RBTreeOps> CursorOps<L> for RBTree<A, E> {
    ghost Represents = { RepresentsKept E.kept L.node };

    ghost IsValidAt = { λ links tree at. IsValidCursor (RepresentsKept E.kept L.node) L.table (site links (head_of tree) at) };

    #[inline]
    fn next_of(&self, links: &L, at: &PlaceWord) -> PlaceWord {
        PlaceWord::of(step(links, self.head.root(), at.get(), Side::Right))
    }

    #[inline]
    fn insert_after_at(&mut self, links: &mut L, at: &mut PlaceWord, object: Place) -> bool {
        self.insert_beside(links, at, Side::Right, object)
    }
}

impl<A: KeyAdapter, E: TreeHead, L: RBTreeOps> Bidirectional<L> for RBTree<A, E> {
    #[inline]
    fn prev_of(&self, links: &L, at: &PlaceWord) -> PlaceWord {
        PlaceWord::of(step(links, self.head.root(), at.get(), Side::Left))
    }

    #[inline]
    fn insert_before_at(&mut self, links: &mut L, at: &mut PlaceWord, object: Place) -> bool {
        self.insert_beside(links, at, Side::Left, object)
    }

    #[inline]
    fn remove_at(&mut self, links: &mut L, at: &mut PlaceWord) -> Option<Place> {
        let place = at.get()?;
        *at = self.next_of(&*links, at);
        remove(links, &mut self.head, place);
        Some(place)
    }

    #[inline]
    fn replace_at(&mut self, links: &mut L, at: &mut PlaceWord, object: Place) -> bool {
        let Some(out) = at.get() else {
            return false;
        };
        if !replace(links, &mut self.head, out, object) {
            return false;
        }
        *at = PlaceWord::of(Some(object));
        true
    }
}
