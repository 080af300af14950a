//! Two trees in order can be merged into one. A run is a sequence of members, each of which is the right child of the member before it.
//!
//! ```text
//! merge(&mut tree, &mut links, &objects, &mut ByKeys::new(ByDeadline), other); // all members of both, in order
//! ```

ghost use Rattle.std.specs.Prelude.{◌≡◌, ◌≤◌, ◌+◌, List, ◌++◌, length, true, IfSome};
ghost use Rattle.ic_link_ops.specs.Prelude.{Place, is_placed, IsDistinct, IsDisjoint};
ghost use Rattle.ic_link_ops.specs.RedBlackTree.{Represents};
ghost use Rattle.ic_rbtree.specs.Tree.{root_of, adapter_of};
ghost use Rattle.ic_tree_merges.specs.Merges.{compared_at};
ghost use Rattle.ic_tree_merges.specs.TwoTrees.{TwoRepresented, MergesTo, RepresentsLowest};
ghost use Rattle.ic_tree_merges.specs.Vines.{ends_of, takes_left, looks_between, IsRun, MergesRuns};

use crate::compares::Compares;
use crate::vine::Vine;
use ic_rbtree::{NodeStore, RBTree, RBTreeBuilder};
use ic_unsafe_ref::{Place, Values};
use std::cmp::Ordering;

// Whether a merge takes `left`, the first member of the left run, next. It does so if `right`, the first member of the right run, is not less, or if the right
// run is empty.
#[inline]
fn takes_left<V, O: Values<V>, C: Compares<V>>(
    objects: &O,
    order: &mut C,
    left: Option<Place>,
    right: Option<Place>,
) -> bool
    requires placed { IfSome left (λ p. is_placed (O.values objects.now) p ≡ true) }
    requires other_placed { IfSome right (λ p. is_placed (O.values objects.now) p ≡ true) }
    ensures taken { result ≡ takes_left (compared_at (C.order order.old) (O.values objects.now)) left right }
    ensures counted { C.looks order.new ≤ C.looks order.old + looks_between left right }
    ensures same { C.order order.new ≡ C.order order.old }
{
    let Some(place) = left else {
        return right.is_none();
    };
    let Some(other) = right else {
        return true;
    };
    match order.compare(objects.value(other), objects.value(place)) {
        Ordering::Less => false,
        Ordering::Equal => true,
        Ordering::Greater => true,
    }
}

// Makes one vine of the runs that begin with `first` and `second`. Among equal members, the members of the run from `first` go first.
pub(crate) fn merge_runs<V, N: NodeStore, O: Values<V>, C: Compares<V>>(
    nodes: &mut N,
    objects: &O,
    order: &mut C,
    first: Option<Place>,
    second: Option<Place>,
) -> Vine
    requires runs { (s u : List Place) × IsRun N.node (O.values objects.now) (N.table nodes.old) first s
        × IsRun N.node (O.values objects.now) (N.table nodes.old) second u × IsDistinct (s ++ u) }
    ensures merged { (s u : List Place) → IsRun N.node (O.values objects.now) (N.table nodes.old) first s
        → IsRun N.node (O.values objects.now) (N.table nodes.old) second u → IsDistinct (s ++ u)
        → MergesRuns N.node (compared_at (C.order order.old) (O.values objects.now)) (N.table nodes.old) (N.table nodes.new) (ends_of result) s u }
    ensures few { (s u : List Place) → IsRun N.node (O.values objects.now) (N.table nodes.old) first s
        → IsRun N.node (O.values objects.now) (N.table nodes.old) second u → IsDistinct (s ++ u)
        → C.looks order.new ≤ C.looks order.old + (length s + length u) }
    ensures same { C.order order.new ≡ C.order order.old }
    ensures keeps_links { N.KeepsLinks nodes.old nodes.new }
{
    let mut left = first;
    let mut right = second;
    let mut merged = Vine::new();
    for _count in 0..u64::MAX {
        if takes_left(objects, order, left, right) {
            let Some(place) = left else {
                return merged;
            };
            left = merged.push_back(nodes, place);
        } else {
            let Some(place) = right else {
                return merged;
            };
            right = merged.push_back(nodes, place);
        }
    }
    merged
}

/// Merges the tree `other` into `tree`, which then has all members of both trees. Among equal members, the members of `tree` go first.
///
/// It requires that the two trees share no member, and that `objects` has every member. If both trees were in order, the result is in order, and it has
/// the least height. The call takes no memory, and acquires and releases no link. Trees that share no member with these two stay as they are. It makes at
/// most n + m comparisons, and takes O(n + m).
pub fn merge<A: Copy + Drop, V, N: NodeStore, O: Values<V>, C: Compares<V>>(
    tree: &mut RBTree<A>,
    nodes: &mut N,
    objects: &O,
    order: &mut C,
    other: RBTree<A>,
)
    requires two { TwoRepresented (Represents N.node) (O.values objects.now) (N.table nodes.old) (root_of tree.old) (root_of other) }
    ensures merged { (s u : List Place) → Represents N.node (N.table nodes.old) (root_of tree.old) s → Represents N.node (N.table nodes.old) (root_of other) u
        → IsDisjoint s u → MergesTo (Represents N.node) (compared_at (C.order order.old) (O.values objects.now)) (N.table nodes.old) (N.table nodes.new)
        (root_of tree.new) s u }
    ensures lowest { RepresentsLowest N.node (N.table nodes.new) (root_of tree.new) }
    ensures few { (s u : List Place) → Represents N.node (N.table nodes.old) (root_of tree.old) s → Represents N.node (N.table nodes.old) (root_of other) u
        → IsDisjoint s u → C.looks order.new ≤ C.looks order.old + (length s + length u) }
    ensures same { C.order order.new ≡ C.order order.old }
    ensures keeps_links { N.KeepsLinks nodes.old nodes.new }
    ensures adapter { adapter_of tree.new ≡ adapter_of tree.old }
{
    let adapter = tree.adapter();
    let left = tree.take().into_builder(nodes);
    let right = other.into_builder(nodes);
    let front = left.first();
    let other_front = right.first();
    let merged = merge_runs(nodes, objects, order, front, other_front);
    let builder = RBTreeBuilder::from_ends(adapter, merged.first, merged.last);
    *tree = builder.build(nodes);
}
