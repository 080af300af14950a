//! Tests whether a place is that of a member, by a climb from the place to the root.
//!
//! ```text
//! tree.contains(&links, place) // at most 66 places are climbed, whatever stale links say
//! ```

ghost use Rattle.std.specs.Prelude.{◌≡◌, ◌↔◌, ◌⊎◌, IsTrue, Some, List};
ghost use Rattle.ic_link_ops.specs.Prelude.{Place, IsMember, IsCovered, table_beside};
ghost use Rattle.ic_link_ops.specs.RedBlackTree.{Represents, RepresentsSome};
ghost use Rattle.ic_rbtree.specs.Members.{HasChild};
ghost use Rattle.ic_rbtree.specs.PlainTrees.{node_by};
ghost use Rattle.ic_rbtree.specs.Tree.{root_in};

use crate::head::TreeHead;
use crate::readings::is_at;
use crate::{KeyAdapter, RBTree};
use ic_link_ops::rbtree::RBTreeOps;
use ic_link_ops::{LinkValue, NodeWords, PlainTable};
use ic_unsafe_ref::Place;
use std::alloc::Allocator;

// The greatest number of members on a path down a tree. A path of v members in a tree of n members has 2^v <= (n + 1)^2, and there are fewer than 2^33
// places.
const LONGEST_PATH: usize = 66;

// Whether `parent` is covered and linked, and has `place` as a child.
fn has_child<W: NodeWords, M: Allocator, V: LinkValue>(
    links: &PlainTable<W, M, V>,
    parent: Place,
    place: Place,
) -> bool
    ensures { IsTrue result ↔ HasChild (node_by W.node) (table_beside W.width W.unlinked V.initial V.printed links.now) parent place }
{
    if parent.index() >= links.covers() || !links.is_linked(parent) {
        return false;
    }
    is_at(links.left(parent), place) || is_at(links.right(parent), place)
}

impl<A: KeyAdapter, E: TreeHead> RBTree<A, E> {
    /// Whether the object at `place` is a member. It requires that the place is covered. O(log n): it climbs at most 66 places.
    ///
    /// The call climbs along the parents to a place without a parent. At each step it tests whether the parent has the place below it as a child, and at the
    /// end whether the place is the root. Therefore it returns false for an object that `fast_clear` has left linked.
    pub fn contains<W: NodeWords, M: Allocator, V: LinkValue>(
        &self,
        links: &PlainTable<W, M, V>,
        place: Place,
    ) -> bool
        requires covered { IsCovered (table_beside W.width W.unlinked V.initial V.printed links.now) place }
        requires shown { RepresentsSome (node_by W.node) (table_beside W.width W.unlinked V.initial V.printed links.now) (root_in E.kept self.now) }
        ensures { (s : List Place) → Represents (node_by W.node) (table_beside W.width W.unlinked V.initial V.printed links.now) (root_in E.kept self.now) s
            → IsTrue result ↔ IsMember place s }
    {
        if !links.is_linked(place) {
            return false;
        }
        let mut place = place;
        let mut steps = 0;
        while steps < LONGEST_PATH {
            let Some(parent) = links.parent(place) else {
                return is_at(self.head.root(), place);
            };
            if !has_child(links, parent, place) {
                return false;
            }
            place = parent;
            steps += 1;
        }
        false
    }
}
