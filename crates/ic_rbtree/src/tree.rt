//! The type of red-black trees, the calls that make a tree or read its root, and the edits that run over any store of nodes.
//!
//! ```text
//! let mut tree = RBTree::new(ByDeadline);
//! tree.cursor_mut(&mut links).insert_before(object)?; // the last member
//! ```

ghost use Rattle.std.specs.Prelude.{◌≡◌, ◌≢◌, ◌↔◌, Bool, Some, None, List, [], ◌∷◌, ◌++◌, IsTrue};
ghost use Rattle.ic_link_ops.specs.Prelude.{Place, Cut, join, insert, IsDistinct, RepresentsPlaced};
ghost use Rattle.ic_link_ops.specs.Frames.{across};
ghost use Rattle.ic_link_ops.specs.RedBlackTree.{Represents, RepresentsSome};
ghost use Rattle.ic_rbtree.specs.Closed.{IsIn, IsClosed, IsSafe, IsSafeBut, StaysClosed, ClosesAt, KeepsNodes};
ghost use Rattle.ic_rbtree.specs.Comparing.{compared, HasRoom, Looks};
ghost use Rattle.ic_rbtree.specs.Descents.{EndsAt};
ghost use Rattle.ic_rbtree.specs.Insertion.{Attaches};
ghost use Rattle.ic_rbtree.specs.Kept.{no_ends, TellsEnds, IsEmptied, IsBelow, RepresentsWithEnds};
ghost use Rattle.ic_rbtree.specs.Sides.{IsBeside};
ghost use Rattle.ic_rbtree.specs.Transplants.{TakesAway, TakesPlace};
ghost use Rattle.ic_rbtree.specs.Tree.{head_of, root_in, root_of, ends_of, adapter_of};

use crate::Probe;
use crate::bounded::step_bounded;
use crate::head::{Root, TreeHead, WithEnds};
use crate::keys::descent::{Descent, descend};
use crate::nodes::NodeStore;
use ic_link_ops::Side;
use ic_link_ops::rbtree::RBTreeOps;
use ic_unsafe_ref::{Place, Values};

/// A red-black tree of objects in an order. It stores its root, and the adapter that finds the keys.
///
/// A tree is good for objects in order that are inserted and removed anywhere. Its members are the sequence that the table represents for its root. The type
/// parameter `E` determines what the tree stores besides the root: nothing, or with [`WithEnds`](crate::WithEnds) its first and its last member.
pub struct RBTree<A, E = Root> {
    pub(crate) head: E,
    pub(crate) adapter: A,
}

/// A tree that also stores its first and its last member.
pub type RBTreeCached<A> = RBTree<A, WithEnds>;

impl<A: Drop, E: Drop> Drop for RBTree<A, E> {
    fn drop(self) {
        let RBTree {
            head: _,
            adapter: _,
        } = self;
    }
}

impl<A: Default, E: TreeHead> Default for RBTree<A, E> {
    ghost is_default = { λ t. IsEmptied (E.kept (head_of t)) × A.is_default (adapter_of t) };

    /// An empty tree with the adapter's default.
    fn default() -> RBTree<A, E> {
        RBTree::empty(A::default())
    }
}

impl<A> RBTree<A> {
    /// An empty tree with this adapter: every table represents the empty sequence for it. O(1).
    pub fn new(adapter: A) -> RBTree<A>
        ensures empty { root_of result ≡ None }
        ensures adapter { adapter_of result ≡ adapter }
    {
        RBTree::empty(adapter)
    }

    /// A tree with the adapter `adapter` and the root `root`, which [`RBTree::root`] has returned. It reads no links. O(1).
    ///
    /// The result has the same members as the tree that had this root. An edit through one of these two trees does not update the other tree.
    #[inline]
    pub fn from_root(adapter: A, root: Option<Place>) -> RBTree<A>
        ensures root { root_of result ≡ root }
        ensures adapter { adapter_of result ≡ adapter }
    {
        RBTree {
            head: Root::of(root),
            adapter,
        }
    }

    /// Turns the tree into a tree that also stores its first and its last member. The call finds these two members in the table. It requires that the table
    /// represents the tree. O(log n).
    pub fn keep_ends<L: RBTreeOps>(self, links: &L) -> RBTree<A, WithEnds>
        requires shown { RepresentsSome L.node (L.table links.now) (root_of self) }
        ensures root { (ends_of result).root ≡ root_of self }
        ensures ends { (s : List Place) → Represents L.node (L.table links.now) (root_of self) s → RepresentsWithEnds L.node (L.table links.now) (ends_of result) s }
        ensures adapter { adapter_of result ≡ adapter_of self }
    {
        let first = self.head.end(links, Side::Left);
        let last = self.head.end(links, Side::Right);
        let RBTree { head, adapter } = self;
        RBTree {
            head: WithEnds::of(head.root(), first, last),
            adapter,
        }
    }
}

impl<A> RBTree<A, WithEnds> {
    /// An empty tree with this adapter that stores its ends: every table represents the empty sequence for it. O(1).
    pub fn with_ends(adapter: A) -> RBTree<A, WithEnds>
        ensures empty { ends_of result ≡ no_ends }
        ensures adapter { adapter_of result ≡ adapter }
    {
        RBTree::empty(adapter)
    }

    /// Turns the tree into a tree that stores only its root. O(1).
    #[inline]
    pub fn forget_ends(self) -> RBTree<A>
        ensures root { root_of result ≡ (ends_of self).root }
        ensures adapter { adapter_of result ≡ adapter_of self }
    {
        let RBTree { head, adapter } = self;
        RBTree::from_root(adapter, head.root())
    }
}

impl<A, E: TreeHead> RBTree<A, E> {
    // An empty tree, which stores its ends or not, as `E` says.
    #[inline]
    pub(crate) fn empty(adapter: A) -> RBTree<A, E>
        ensures empty { IsEmptied (E.kept (head_of result)) }
        ensures adapter { adapter_of result ≡ adapter }
    {
        RBTree {
            head: E::empty(),
            adapter,
        }
    }

    /// The root, `None` if the tree has no members. It reads no links. O(1).
    #[inline]
    pub fn root(&self) -> Option<Place>
        ensures { result ≡ root_in E.kept self.now }
    {
        self.head.root()
    }

    /// Whether the tree has no members. It reads no links. O(1).
    #[inline]
    pub fn is_empty(&self) -> bool
        ensures { IsTrue result ↔ (root_in E.kept self.now ≡ None) }
    {
        self.head.root().is_none()
    }
}

impl<A: Copy, E> RBTree<A, E> {
    /// The adapter that the tree was made with. O(1).
    #[inline]
    pub fn adapter(&self) -> A
        ensures { result ≡ adapter_of self.now }
    {
        self.adapter
    }
}

// The layer under all other calls of a tree. The calls of this layer, except `descend`, run over any store of nodes. A set of places is closed if each place in
// the set is linked, and if the children and the parent of each are none or in the set. The root must also be none or in the set.
impl<A, E: TreeHead> RBTree<A, E> {
    /// Inserts `place` on the side `side` of `parent`, which has no child there, and repairs the colors. If there is no parent, the tree is empty.
    ///
    /// It requires a set that contains `place` and `parent` and is closed, except that the links of `place` may lead anywhere. The call terminates and
    /// leaves the required set closed, whatever the link words contain. If the table holds a tree, the result is that tree with `place` inserted. O(log n).
    #[inline(always)]
    pub fn attach<N: NodeStore>(
        &mut self,
        nodes: &mut N,
        parent: Option<Place>,
        side: Side,
        place: Place,
    )
        requires { IsSafeBut N.node (N.table nodes.old) (root_in E.kept self.old) place (Some place ∷ parent ∷ []) }
        ensures attached { Attaches N.node (N.table nodes.old) (N.table nodes.new) (root_in E.kept self.old) (root_in E.kept self.new) parent side place }
        ensures safe { ClosesAt N.node (N.table nodes.old) (N.table nodes.new) (root_in E.kept self.old) (root_in E.kept self.new) place (Some place ∷ parent ∷ []) }
        ensures linked { KeepsNodes N.node (N.table nodes.old) (N.table nodes.new) }
        ensures ends { (gap : Cut) → IsBelow parent side gap → IsDistinct (join gap) → TellsEnds (E.kept (head_of self.old)) (join gap)
            → TellsEnds (E.kept (head_of self.new)) (insert gap place) }
        ensures keeps_links { N.KeepsLinks nodes.old nodes.new }
        ensures adapter { adapter_of self.new ≡ adapter_of self.old }
    {
        self.head.attach(nodes, parent, side, place);
    }

    /// Removes the member at `place`, and repairs the colors. The place stays linked.
    ///
    /// It requires a closed set that contains `place`. The call terminates and leaves the required set closed, whatever the link words contain. If the
    /// table holds a tree, the result is that tree without `place`. O(log n).
    pub fn unlink<N: NodeStore>(&mut self, nodes: &mut N, place: Place)
        requires { IsSafe N.node (N.table nodes.old) (root_in E.kept self.old) (Some place ∷ []) }
        ensures taken { TakesAway N.node (N.table nodes.old) (N.table nodes.new) (root_in E.kept self.old) (root_in E.kept self.new) place }
        ensures safe { StaysClosed N.node (N.table nodes.old) (N.table nodes.new) (root_in E.kept self.old) (root_in E.kept self.new) (Some place ∷ []) [] }
        ensures linked { KeepsNodes N.node (N.table nodes.old) (N.table nodes.new) }
        ensures ends { (front back : List Place) → Represents N.node (N.table nodes.old) (root_in E.kept self.old) (front ++ place ∷ back)
            → TellsEnds (E.kept (head_of self.old)) (front ++ place ∷ back) → TellsEnds (E.kept (head_of self.new)) (front ++ back) }
        ensures keeps_links { N.KeepsLinks nodes.old nodes.new }
        ensures adapter { adapter_of self.new ≡ adapter_of self.old }
    {
        self.head.unlink(nodes, place);
    }

    /// Replaces the member at `place` by `new`, which gets the color of this member. Both places stay linked.
    ///
    /// It requires two different places, and a set that contains both and is closed, except that the links of `new` may lead anywhere. The call leaves the
    /// required set closed, whatever the link words contain. If the table holds a tree, the result is that tree with `new` instead of `place`. O(1).
    pub fn take_place<N: NodeStore>(&mut self, nodes: &mut N, place: Place, new: Place)
        requires safe { IsSafeBut N.node (N.table nodes.old) (root_in E.kept self.old) new (Some place ∷ Some new ∷ []) }
        requires apart { place ≢ new }
        ensures taken { TakesPlace N.node (N.table nodes.old) (N.table nodes.new) (root_in E.kept self.old) (root_in E.kept self.new) place new }
        ensures safe { ClosesAt N.node (N.table nodes.old) (N.table nodes.new) (root_in E.kept self.old) (root_in E.kept self.new) new (Some place ∷ Some new ∷ []) }
        ensures linked { KeepsNodes N.node (N.table nodes.old) (N.table nodes.new) }
        ensures ends { (front back : List Place) → IsDistinct (front ++ place ∷ back) → TellsEnds (E.kept (head_of self.old)) (front ++ place ∷ back)
            → TellsEnds (E.kept (head_of self.new)) (front ++ new ∷ back) }
        ensures keeps_links { N.KeepsLinks nodes.old nodes.new }
        ensures adapter { adapter_of self.new ≡ adapter_of self.old }
    {
        self.head.take_place(nodes, place, new);
    }

    /// The position to which a step to the side `side` leads from `current`. From a member the step leads to the next member on this side, or to null if there
    /// is none. From null it leads to the outermost member on the other side.
    ///
    /// It requires a closed set that contains the position. The call terminates, whatever the link words contain. O(log n), and O(1) on average over a walk.
    #[inline]
    pub fn step<N: NodeStore>(&self, nodes: &N, current: Option<Place>, side: Side) -> Option<Place>
        requires { IsSafe N.node (N.table nodes.now) (root_in E.kept self.now) (current ∷ []) }
        ensures { (gap : Cut) → Represents N.node (N.table nodes.now) (root_in E.kept self.now) (join gap) → IsBeside side gap current
            → IsBeside (across side) gap result }
    {
        step_bounded(nodes, self.head.root(), current, side)
    }

    /// Goes down from the root to the gap where the probe's key belongs. The gap is after the members that are less than the key, and before the members
    /// that are greater. At members that are equal, the descent goes to the side `equals`.
    ///
    /// It requires that all members are placed, and that the probe's count is at most `u64::MAX - 66`. O(log n): v comparisons in a
    /// tree of n members, with `2^v <= (n + 1)^2`, and `2^(v + 1) <= (n + 1)^2` if n is at least 1.
    #[inline]
    pub fn descend<L: RBTreeOps, V, P: Probe<V>, O: Values<V>>(
        &self,
        links: &L,
        values: &O,
        probe: &mut P,
        equals: Side,
    ) -> Descent
        requires placed { RepresentsPlaced (Represents L.node (L.table links.now) (root_in E.kept self.now)) (O.values values.now) }
        requires room { HasRoom (P.count probe.old) }
        ensures ends { (s : List Place) (h : Represents L.node (L.table links.now) (root_in E.kept self.now) s)
            → EndsAt L.node (L.table links.now) (compared (P.order probe.old) (O.values values.now)) equals h.tree result }
        ensures looks { (s : List Place) → Represents L.node (L.table links.now) (root_in E.kept self.now) s
            → Looks P.order P.count probe.old probe.new s }
    {
        descend(links, self.head.root(), values, probe, equals)
    }
}
