//! Builds a tree in O(n) from objects that are pushed in order. The builder first chains the objects, and then makes a tree of the chain.
//!
//! ```text
//! let mut builder = RBTreeBuilder::new(ByDeadline);
//! builder.push_back(&mut links, object)?; // each after those before it, O(1)
//! let tree = builder.build(&mut links);   // O(n), and no look at a key
//! let builder = tree.into_builder(&mut links);
//! ```

ghost use Rattle.std.specs.Prelude.{◌≡◌, Some, None, OnOk, OnErr, IfErr, IfSome, IfNone, List, [], ◌∷◌};
ghost use Rattle.ic_link_ops.specs.Prelude.{Place, first, at_front, at_back, IsCovered, acquires, releases, no_members, list_head, Inserts, Removes};
ghost use Rattle.ic_link_ops.specs.RedBlackTree.{Represents, RepresentsSome};
ghost use Rattle.ic_rbtree.specs.Builder.{ends_of, builder_adapter_of};
ghost use Rattle.ic_rbtree.specs.Height.{IsLowest};
ghost use Rattle.ic_rbtree.specs.Tree.{root_in, root_of, adapter_of};
ghost use Rattle.ic_rbtree.specs.Vines.{RepresentsVine, RepresentsVineSome, Rearranges};

use crate::head::TreeHead;
use crate::nodes::NodeStore;
use crate::readings::child;
use crate::repair::TURNS;
use crate::vine::{end_beyond, hang_after, tree_to_vine, vine_length, vine_to_tree};
use crate::{KeyAdapter, RBTree};
use ic_link_ops::rbtree::RBTreeOps;
use ic_link_ops::{AlreadyLinked, LinkOps, PlaceWord, Side};
use ic_unsafe_ref::{Place, UnsafeRef};

/// Linked objects in the order in which they were pushed. The call `build` makes a tree of these objects.
///
/// The members form a vine: each member is stored as the right child of the member before it. The builder stores the first and the last member. It compares
/// no keys, so push the objects in the order of their keys to build a tree for calls that search by keys. A builder that is dropped leaves its members
/// linked.
pub struct RBTreeBuilder<A> {
    front: PlaceWord,
    back: PlaceWord,
    adapter: A,
}

impl<A: Drop> Drop for RBTreeBuilder<A> {
    fn drop(self) {
        let RBTreeBuilder {
            front: _,
            back: _,
            adapter: _,
        } = self;
    }
}

impl<A> RBTreeBuilder<A> {
    /// A builder without members, for a tree with this adapter. O(1).
    pub fn new(adapter: A) -> RBTreeBuilder<A>
        ensures empty { ends_of result ≡ no_members }
        ensures adapter { builder_adapter_of result ≡ adapter }
    {
        RBTreeBuilder::from_ends(adapter, None, None)
    }

    /// A builder with the adapter `adapter`, whose first member is `first` and whose last member is `last`. The call is for callers who chained the members
    /// themselves. It reads no links. O(1).
    #[inline]
    pub fn from_ends(adapter: A, first: Option<Place>, last: Option<Place>) -> RBTreeBuilder<A>
        ensures ends { ends_of result ≡ list_head first last }
        ensures adapter { builder_adapter_of result ≡ adapter }
    {
        RBTreeBuilder {
            front: PlaceWord::of(first),
            back: PlaceWord::of(last),
            adapter,
        }
    }

    /// The first member, `None` if there is none. It reads no links. O(1).
    #[inline]
    pub fn first(&self) -> Option<Place>
        ensures { result ≡ (ends_of self.now).head }
    {
        self.front.get()
    }

    /// The last member, `None` if there is none. It reads no links. O(1).
    #[inline]
    pub fn last(&self) -> Option<Place>
        ensures { result ≡ (ends_of self.now).tail }
    {
        self.back.get()
    }

    /// Makes a tree of all members in their order, with the builder's adapter. No tree with this number of members is
    /// lower.
    ///
    /// It requires that the table represents the members, as it does after [`new`](Self::new) and each [`push_back`](Self::push_back). No
    /// link is acquired or released, and a collection that shares no member with the builder stays as it was. It reads no key and takes no
    /// memory. O(n).
    pub fn build<N: NodeStore>(self, nodes: &mut N) -> RBTree<A>
        requires shown { RepresentsVineSome N.node (N.table nodes.old) (ends_of self) }
        ensures built { (s : List Place) → RepresentsVine N.node (N.table nodes.old) (ends_of self) s
            → Rearranges (Represents N.node) (N.table nodes.old) (N.table nodes.new) (root_of result) s }
        ensures lowest { (s : List Place) (h : Represents N.node (N.table nodes.new) (root_of result) s) → IsLowest h.tree }
        ensures keeps_links { N.KeepsLinks nodes.old nodes.new }
        ensures adapter { adapter_of result ≡ builder_adapter_of self }
    {
        let RBTreeBuilder {
            front,
            back: _,
            adapter,
        } = self;
        let first = front.get();
        let count = vine_length(&*nodes, first);
        let (root, _) = vine_to_tree(nodes, first, count, (count + 1).ilog2());
        RBTree::from_root(adapter, root)
    }
}

impl<A: KeyAdapter> RBTreeBuilder<A> {
    /// Inserts the object after all members, unless its link is refused.
    ///
    /// It requires that the object's place is covered. If the link is refused, the object is returned, and the builder and all
    /// links are as they were. O(1).
    pub fn push_back<L: RBTreeOps>(
        &mut self,
        links: &mut L,
        object: UnsafeRef<A::Value>,
    ) -> Result<(), AlreadyLinked<A::Value>>
        requires covered { IsCovered (L.table links.old) object }
        requires shown { RepresentsVineSome L.node (L.table links.old) (ends_of self.old) }
        ensures inserted { (s : List Place) → RepresentsVine L.node (L.table links.old) (ends_of self.old) s → OnOk result
            (Inserts (RepresentsVine L.node) (L.table links.old) (L.table links.new) (ends_of self.new) (at_back s) object) }
        ensures acquired { OnOk result (L.Trace links.old links.new (acquires object ∷ [])) }
        ensures adapter { builder_adapter_of self.new ≡ builder_adapter_of self.old }
        ensures refused { OnErr result (L.Refused links.old links.new object) }
        ensures unchanged { IfErr result (λ refused. (refused.0 ≡ object) × (self.new ≡ self.old)) }
    {
        let place = object.place();
        if !links.acquire_link(place) {
            return Err(AlreadyLinked(object));
        }
        hang_after(links, &mut self.front, self.back.get(), place);
        self.back = PlaceWord::of(Some(place));
        Ok(())
    }

    /// Removes the first member and returns it, or `None` if the builder has no members.
    ///
    /// It requires that the table represents the members. The other members stay in their order. It compares no keys. O(1).
    pub fn pop_front<L: RBTreeOps>(&mut self, links: &mut L) -> Option<UnsafeRef<A::Value>>
        requires shown { RepresentsVineSome L.node (L.table links.old) (ends_of self.old) }
        ensures answer { (s : List Place) → RepresentsVine L.node (L.table links.old) (ends_of self.old) s → result ≡ first s }
        ensures removed { (s : List Place) → RepresentsVine L.node (L.table links.old) (ends_of self.old) s
            → Removes (RepresentsVine L.node) (L.table links.old) (L.table links.new) (ends_of self.new) (at_front s) }
        ensures released { IfSome result (λ object. L.Trace links.old links.new (releases object ∷ [])) }
        ensures empty { IfNone result ((self.new ≡ self.old) × (links.new ≡ links.old)) }
        ensures adapter { builder_adapter_of self.new ≡ builder_adapter_of self.old }
    {
        let front = self.front.get()?;
        let next = child(&*links, front, Side::Right);
        let last = end_beyond(next, self.back.get());
        links.release_link(front);
        self.front = PlaceWord::of(next);
        self.back = PlaceWord::of(last);
        Some(UnsafeRef::new(front))
    }
}

impl<A: Copy, E: TreeHead> RBTree<A, E> {
    /// Makes a builder of the tree, with all its members in their order and its adapter. Use the builder to append members, or to rebuild the tree with the
    /// least height.
    ///
    /// It requires that the table represents the members. No link is acquired or released, and a collection that shares no member with the tree
    /// stays as it was. It reads no key and takes no memory. O(n).
    pub fn into_builder<N: NodeStore>(self, nodes: &mut N) -> RBTreeBuilder<A>
        requires shown { RepresentsSome N.node (N.table nodes.old) (root_in E.kept self) }
        ensures taken_apart { (s : List Place) → Represents N.node (N.table nodes.old) (root_in E.kept self) s
            → Rearranges (RepresentsVine N.node) (N.table nodes.old) (N.table nodes.new) (ends_of result) s }
        ensures keeps_links { N.KeepsLinks nodes.old nodes.new }
        ensures adapter { builder_adapter_of result ≡ adapter_of self }
    {
        let last = self.step(&*nodes, None, Side::Left);
        let first = tree_to_vine(nodes, self.head.root(), None, TURNS);
        RBTreeBuilder::from_ends(self.adapter, first, last)
    }
}
