//! The check whether a tree is in the order of its keys.
//!
//! ```text
//! is_sorted(&tree, &links, &objects) // true: from one member to the next no key falls
//! ```

ghost use Rattle.std.specs.Prelude.{◌≡◌, List, map};
ghost use Rattle.std.specs.Bool.{Decides};
ghost use Rattle.std.specs.declared.cmp.Ordering.TheVariants.{Greater};
ghost use Rattle.ic_link_ops.specs.Prelude.{Place, RepresentsPlaced, values_at};
ghost use Rattle.ic_link_ops.specs.RedBlackTree.{Represents};
ghost use Rattle.ic_rbtree.specs.Borders.{IsSorted};
ghost use Rattle.ic_rbtree.specs.Tree.{root_of, adapter_of};

use ic_link_ops::rbtree::RBTreeOps;
use ic_rbtree::{KeyAdapter, RBTree};
use ic_unsafe_ref::Values;
use std::cmp::Ordering;

/// Returns whether no member's key is less than the key of the member before it. In a tree in this order, `find` returns the first member with a given key.
///
/// The check requires that each member has an object. O(n) for n members, with at most n - 1 comparisons. The check takes no memory, because it makes two walks
/// that advance together.
pub fn is_sorted<A: KeyAdapter, L: RBTreeOps, O: Values<A::Value>>(
    tree: &RBTree<A>,
    links: &L,
    objects: &O,
) -> bool
    requires placed { RepresentsPlaced (Represents L.node (L.table links.now) (root_of tree.now)) (O.values objects.now) }
    ensures { (s : List Place) → Represents L.node (L.table links.now) (root_of tree.now) s
        → Decides result (IsSorted A.Key.cmp (map (A.key_of (adapter_of tree.now)) (values_at (O.values objects.now) s))) }
{
    let mut walk = tree.iter(links, objects);
    if walk.next().is_none() {
        return true;
    }
    let mut after = tree.iter(links, objects);
    while let Some(value) = walk.next() {
        let Some(last) = after.next() else {
            return true;
        };
        if falls(tree.adapter(), last, value) {
            return false;
        }
    }
    true
}

// Returns whether the key of the second value is less than the key of the first value.
fn falls<A: KeyAdapter>(adapter: A, first: &A::Value, second: &A::Value) -> bool
    ensures { Decides result (A.Key.cmp (A.key_of adapter first.now) (A.key_of adapter second.now) ≡ Greater) }
{
    match adapter.get_key(first).cmp(adapter.get_key(second)) {
        Ordering::Greater => true,
        Ordering::Less | Ordering::Equal => false,
    }
}
