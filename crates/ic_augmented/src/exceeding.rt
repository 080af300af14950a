//! This call finds the first member whose number exceeds a bound, by the greatest numbers of subtrees.
//!
//! ```text
//! let region = first_greater(&tree, &summed, length - 1)?; // the first region that is long enough
//! ```

ghost use Rattle.std.specs.Prelude.{◌≡◌, ◌≤◌, Option, List, filter};
ghost use Rattle.ic_link_ops.specs.Prelude.{Place, first, Table, Tree, top, in_order};
ghost use Rattle.ic_link_ops.specs.RedBlackTree.{IsTree, Represents};
ghost use Rattle.ic_rbtree.specs.Prelude.{height, root_in};
ghost use Rattle.ic_augmented.specs.Consistent.{RepresentsAugmented};
ghost use Rattle.ic_augmented.specs.Greatest.{greatest, number_at, is_greater};
ghost use Rattle.ic_augmented.specs.Augmented.{links_of, summaries_of};
ghost use Rattle.ic_augmented.specs.Summaries.{IsSummed};

use crate::augmented::Augmented;
use crate::greatest::Greatest;
use ic_rbtree::{NodeStore, RBTree, TreeHead};
use ic_unsafe_ref::Place;
use std::alloc::Allocator;

// The first member of the subtree at `place` whose number is greater than `bound`. Returns `None` if no member of the subtree has such a number.
fn first_greater_below<N: NodeStore, A: Allocator>(
    links: &N,
    numbers: &Greatest<A>,
    place: Option<Place>,
    bound: u64,
    turns: u32,
) -> Option<Place>
    requires { (u : Option Place) × (t : Tree) × IsTree N.node (Table.entry (N.table links.now)) u t × (place ≡ top t) }
    ensures { (u : Option Place) (t : Tree) → IsTree N.node (Table.entry (N.table links.now)) u t → place ≡ top t
        → IsSummed (greatest numbers.now) u t → height t ≤ turns
        → result ≡ first (filter (is_greater (number_at numbers.now) bound) (in_order t)) }
{
    let here = place?;
    if turns == 0 {
        return None;
    }
    let left = links.left(here);
    if bound < numbers.total(left) {
        return first_greater_below(links, numbers, left, bound, turns - 1);
    }
    if bound < numbers.value(here) {
        return Some(here);
    }
    let right = links.right(here);
    first_greater_below(links, numbers, right, bound, turns - 1)
}

/// The first member whose number is greater than `bound`, or `None` if no number is greater. The members need not be in the order of their numbers. O(log
/// n).
///
/// It requires that the links represent a tree. The result is right if the tree is summed.
pub fn first_greater<T, E: TreeHead, N: NodeStore, A: Allocator>(
    tree: &RBTree<T, E>,
    summed: &Augmented<N, Greatest<A>>,
    bound: u64,
) -> Option<Place>
    requires { (s : List Place) × Represents N.node (N.table (links_of summed.now)) (root_in E.kept tree.now) s }
    ensures { (s : List Place)
        → RepresentsAugmented N.node (greatest (summaries_of summed.now)) (N.table (links_of summed.now)) (root_in E.kept tree.now) s
        → result ≡ first (filter (is_greater (number_at (summaries_of summed.now)) bound) s) }
{
    first_greater_below(&summed.links, &summed.summaries, tree.root(), bound, 67)
}
