//! Calls that join two trees into one, or split one into two.
//!
//! ```text
//! early.append(&mut links, &mut late);            // all of `late` after all of `early`; `late` is empty now
//! early.join(&mut links, object, &mut later)?;    // the object after them, and then all of `later`
//! let later = early.split_off(&mut links, &object); // the object, and all after it
//! ```

ghost use Rattle.std.specs.Prelude.{◌≡◌, OnOk, OnErr, IfErr, List, [], ◌∷◌, ◌++◌};
ghost use Rattle.ic_link_ops.specs.Prelude.{Place, Cut, IsCovered, HasMember, acquires, Inserts, Splits};
ghost use Rattle.ic_rbtree.specs.Join.{RepresentsParts, RepresentsPartsSome, Appends};
ghost use Rattle.ic_rbtree.specs.Kept.{RepresentsKept, IsEmptied};
ghost use Rattle.ic_rbtree.specs.Tree.{head_of, adapter_of};

pub(crate) mod cut;
pub(crate) mod roots;

use crate::head::TreeHead;
use crate::join::cut::cut_at;
use crate::join::roots::join;
use crate::nodes::NodeStore;
use crate::steps::insert_pos_beside;
use crate::{KeyAdapter, RBTree};
use ic_link_ops::rbtree::RBTreeOps;
use ic_link_ops::{AlreadyLinked, LinkOps, Side};
use ic_unsafe_ref::UnsafeRef;

impl<A, E: TreeHead> RBTree<A, E> {
    /// Moves all members of `other` after those of this tree, in their order, and leaves `other` empty. It compares no
    /// keys.
    ///
    /// It requires that the two trees share no member. Trees that share no member with this tree and `other` stay as they are, and no link is acquired or
    /// released. The members of `other` come last, as in `LinkedList::append` of std. In contrast, `BTreeMap::append` of std puts each entry where its key
    /// belongs. O(log n).
    pub fn append<N: NodeStore>(&mut self, nodes: &mut N, other: &mut RBTree<A, E>)
        requires shown { RepresentsPartsSome (RepresentsKept E.kept N.node) (N.table nodes.old) (head_of self.old) (head_of other.old) }
        ensures appended { (gap : Cut) → RepresentsParts (RepresentsKept E.kept N.node) (N.table nodes.old) (head_of self.old) (head_of other.old) gap
            → Appends (RepresentsKept E.kept N.node) (N.table nodes.old) (N.table nodes.new) (head_of self.new) gap }
        ensures emptied { IsEmptied (E.kept (head_of other.new)) }
        ensures keeps_links { N.KeepsLinks nodes.old nodes.new }
        ensures adapter { adapter_of self.new ≡ adapter_of self.old }
        ensures other_adapter { adapter_of other.new ≡ adapter_of other.old }
    {
        let Some(place) = other.step(&*nodes, None, Side::Right) else {
            return;
        };
        other.unlink(nodes, place);
        let root = join(nodes, self.head.root(), place, other.head.root());
        self.head.join(root, place, &mut other.head);
    }
}

impl<A: KeyAdapter, E: TreeHead> RBTree<A, E> {
    /// Inserts the object after all members of this tree and moves all members of `other` after it, unless the object's link is refused. If the link is
    /// acquired, `other` is empty after the call. The call compares no keys.
    ///
    /// It requires that the object's place is covered, and that the two trees share no member. If the link is refused, the object is
    /// returned, and both trees and their links are as they were. O(log n).
    pub fn join<L: RBTreeOps>(
        &mut self,
        links: &mut L,
        object: UnsafeRef<A::Value>,
        other: &mut RBTree<A, E>,
    ) -> Result<(), AlreadyLinked<A::Value>>
        requires covered { IsCovered (L.table links.old) object }
        requires shown { RepresentsPartsSome (RepresentsKept E.kept L.node) (L.table links.old) (head_of self.old) (head_of other.old) }
        ensures joined { (gap : Cut) → RepresentsParts (RepresentsKept E.kept L.node) (L.table links.old) (head_of self.old) (head_of other.old) gap → OnOk result
            (Inserts (RepresentsKept E.kept L.node) (L.table links.old) (L.table links.new) (head_of self.new) gap object) }
        ensures emptied { OnOk result (IsEmptied (E.kept (head_of other.new))) }
        ensures acquired { OnOk result (L.Trace links.old links.new (acquires object ∷ [])) }
        ensures adapter { adapter_of self.new ≡ adapter_of self.old }
        ensures other_adapter { adapter_of other.new ≡ adapter_of other.old }
        ensures refused { OnErr result (L.Refused links.old links.new object) }
        ensures unchanged { IfErr result (λ refused. (refused.0 ≡ object) × (self.new ≡ self.old) × (other.new ≡ other.old)) }
    {
        let place = object.place();
        if !links.acquire_link(place) {
            return Err(AlreadyLinked(object));
        }
        let root = join(links, self.head.root(), place, other.head.root());
        self.head.join(root, place, &mut other.head);
        Ok(())
    }

    /// Splits the tree before the object: keeps the members before it, and returns a tree of the object and all members after it. The object has to be a
    /// member. The returned tree has the adapter of this tree. The call compares no keys, and no link is acquired or released.
    ///
    /// Trees that share no member with this tree stay as they are. O(log n): the call joins the subtrees beside the path from the object up to the root. Each
    /// join takes time proportional to a difference of heights (Cormen, Leiserson, Rivest and Stein, problem 13-2). The sum of these differences is at most a
    /// multiple of the tree's height. Each turn of the loop passes the heights on to the next turn, so that no turn measures a tree.
    pub fn split_off<L: RBTreeOps>(
        &mut self,
        links: &mut L,
        object: &UnsafeRef<A::Value>,
    ) -> RBTree<A, E>
        requires member { HasMember (RepresentsKept E.kept L.node (L.table links.old) (head_of self.old)) object.now }
        ensures split { (front back : List Place) → RepresentsKept E.kept L.node (L.table links.old) (head_of self.old) (front ++ object.now ∷ back)
            → Splits (RepresentsKept E.kept L.node) (L.table links.old) (L.table links.new) (head_of self.new) (head_of result) front (object.now ∷ back) }
        ensures trace_stays { L.Trace links.old links.new [] }
        ensures adapter { adapter_of self.new ≡ adapter_of self.old }
        ensures rest_adapter { adapter_of result ≡ adapter_of self.old }
    {
        let place = object.place();
        let (parent, side) = insert_pos_beside(&*links, self.head.root(), Some(place), Side::Left);
        let (front, back) = cut_at(links, parent, side);
        let rest = self.head.split(&*links, front, place, back);
        RBTree {
            head: rest,
            adapter: self.adapter,
        }
    }
}
