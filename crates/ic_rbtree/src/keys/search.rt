//! Searches that return a member at the border of a key or a bound. The calls for all kinds of cursors use these searches.

ghost use Rattle.std.specs.Prelude.{◌≡◌, List};
ghost use Rattle.ic_link_ops.specs.Prelude.{Place, first, last, RepresentsPlaced};
ghost use Rattle.ic_link_ops.specs.RedBlackTree.{Represents};
ghost use Rattle.ic_rbtree.specs.Comparing.{compared, compared_within, meets_lower, is_beyond, HasRoom, HasRoomWithin, Looks, LooksWithin};
ghost use Rattle.ic_rbtree.specs.Borders.{Finds, IsLowerBorder, IsUpperBorder};
ghost use Rattle.ic_rbtree.specs.Descents.{gap_in};
ghost use Rattle.ic_rbtree.specs.Kept.{RepresentsKept};
ghost use Rattle.ic_rbtree.specs.Tree.{head_of, root_in};

use crate::head::TreeHead;
use crate::keys::descent::descend;
use crate::{Bound, KeyAdapter, Probe, RBTree};
use ic_link_ops::rbtree::RBTreeOps;
use ic_link_ops::{LinkOps, PlaceWord, Side};
use ic_unsafe_ref::Values;

impl<A: KeyAdapter, E: TreeHead> RBTree<A, E> {
    // Returns the first member that is equal to the searched key, `None` if there is none.
    #[inline]
    pub(crate) fn first_equal<L: RBTreeOps, P: Probe<A::Value>, O: Values<A::Value>>(
        &self,
        links: &L,
        objects: &O,
        probe: &mut P,
    ) -> PlaceWord
        requires placed { RepresentsPlaced (RepresentsKept E.kept L.node (L.table links.now) (head_of self.now)) (O.values objects.now) }
        requires room { HasRoom (P.count probe.old) }
        ensures found { (s : List Place) → RepresentsKept E.kept L.node (L.table links.now) (head_of self.now) s
            → Finds (compared (P.order probe.old) (O.values objects.now)) s result }
        ensures looks { (s : List Place) → RepresentsKept E.kept L.node (L.table links.now) (head_of self.now) s
            → Looks P.order P.count probe.old probe.new s }
    {
        let root = self.head.root();
        let descent = descend(links, root, objects, probe, Side::Left);
        if !descent.is_equal() {
            return PlaceWord::of(None);
        }
        descent.back
    }

    // Returns the member after the gap that a descent for the lower bound reaches, `None` if there is none. The member, if any, meets the bound.
    #[inline]
    pub(crate) fn lower<L: RBTreeOps, P: Probe<A::Value>, O: Values<A::Value>>(
        &self,
        links: &L,
        objects: &O,
        bound: &mut Bound<P>,
    ) -> PlaceWord
        requires placed { RepresentsPlaced (RepresentsKept E.kept L.node (L.table links.now) (head_of self.now)) (O.values objects.now) }
        requires room { HasRoomWithin P.count bound.old }
        ensures border { (s : List Place) → RepresentsKept E.kept L.node (L.table links.now) (head_of self.now) s
            → IsLowerBorder (compared_within P.order (O.values objects.now) bound.old) s result }
        ensures lower { (s : List Place) (h : Represents L.node (L.table links.now) (root_in E.kept self.now) s)
            → result ≡ first (gap_in (meets_lower (compared_within P.order (O.values objects.now) bound.old)) h.tree).back }
        ensures looks { (s : List Place) → RepresentsKept E.kept L.node (L.table links.now) (head_of self.now) s
            → LooksWithin P.order P.count bound.old bound.new s }
    {
        let root = self.head.root();
        match bound {
            Bound::Included(probe) => descend(links, root, objects, probe, Side::Left).back,
            Bound::Excluded(probe) => descend(links, root, objects, probe, Side::Right).back,
            Bound::Unbounded => PlaceWord::of(self.first(links)),
        }
    }

    // Returns the member before the gap that a descent for the upper bound reaches, `None` if there is none. The member, if any, meets the bound.
    #[inline]
    pub(crate) fn upper<L: RBTreeOps, P: Probe<A::Value>, O: Values<A::Value>>(
        &self,
        links: &L,
        objects: &O,
        bound: &mut Bound<P>,
    ) -> PlaceWord
        requires placed { RepresentsPlaced (RepresentsKept E.kept L.node (L.table links.now) (head_of self.now)) (O.values objects.now) }
        requires room { HasRoomWithin P.count bound.old }
        ensures border { (s : List Place) → RepresentsKept E.kept L.node (L.table links.now) (head_of self.now) s
            → IsUpperBorder (compared_within P.order (O.values objects.now) bound.old) s result }
        ensures upper { (s : List Place) (h : Represents L.node (L.table links.now) (root_in E.kept self.now) s)
            → result ≡ last (gap_in (is_beyond (compared_within P.order (O.values objects.now) bound.old)) h.tree).front }
        ensures looks { (s : List Place) → RepresentsKept E.kept L.node (L.table links.now) (head_of self.now) s
            → LooksWithin P.order P.count bound.old bound.new s }
    {
        let root = self.head.root();
        match bound {
            Bound::Included(probe) => descend(links, root, objects, probe, Side::Right).front,
            Bound::Excluded(probe) => descend(links, root, objects, probe, Side::Left).front,
            Bound::Unbounded => PlaceWord::of(self.last(links)),
        }
    }
}
