//! These calls find the intervals that overlap a given interval, by the greatest end in each subtree.
//!
//! ```text
//! let first = first_overlap(&tree, &summed, &summed.links, 5, 8)?; // the first that overlaps [5, 8)
//! let next = next_overlap(&summed, &summed.links, first, 5, 8); // and the one after it
//! ```

ghost use Rattle.std.specs.Prelude.{◌≡◌, ◌≤◌, Option, None, Some, List, ◌∷◌, ◌++◌, filter, length, map};
ghost use Rattle.std.specs.Ordering.{nat_cmp};
ghost use Rattle.ic_link_ops.specs.Prelude.{Place, first, Table, ArePlaced, Tree, top, in_order};
ghost use Rattle.ic_link_ops.specs.Frames.{Frame, plug, after};
ghost use Rattle.ic_link_ops.specs.RedBlackTree.{IsTree, Represents};
ghost use Rattle.ic_rbtree.specs.Prelude.{IsSorted, height, root_in};
ghost use Rattle.ic_augmented.specs.Consistent.{RepresentsAugmented};
ghost use Rattle.ic_augmented.specs.Greatest.{greatest, number_at};
ghost use Rattle.ic_augmented.specs.Intervals.{start_in, overlaps};
ghost use Rattle.ic_augmented.specs.Subtrees.{IsSubtree};
ghost use Rattle.ic_augmented.specs.Augmented.{links_of, summaries_of};
ghost use Rattle.ic_augmented.specs.Summaries.{IsSummed};

use crate::augmented::Augmented;
use crate::greatest::Greatest;
use crate::ranks::is_at;
use ic_rbtree::{NodeStore, RBTree, TreeHead};
use ic_unsafe_ref::{Place, Values};
use std::alloc::Allocator;

// The first member of the subtree at `place` whose interval overlaps `[from, to)`, or `None` if no interval of the subtree does.
fn first_overlap_below<N: NodeStore, O: Values<u64>, A: Allocator>(
    links: &N,
    ends: &Greatest<A>,
    starts: &O,
    place: Option<Place>,
    from: u64,
    to: u64,
    turns: u32,
) -> Option<Place>
    requires { (u : Option Place) × (t : Tree) × IsTree N.node (Table.entry (N.table links.now)) u t × (place ≡ top t) × ArePlaced (O.values starts.now) (in_order t) }
    ensures { (u : Option Place) (t : Tree) → IsTree N.node (Table.entry (N.table links.now)) u t → place ≡ top t
        → IsSummed (greatest ends.now) u t → IsSorted nat_cmp (map (start_in (O.values starts.now)) (in_order t)) → height t ≤ turns
        → result ≡ first (filter (overlaps (start_in (O.values starts.now)) (number_at ends.now) from to) (in_order t)) }
{
    let here = place?;
    if turns == 0 {
        return None;
    }
    let left = links.left(here);
    if from < ends.total(left) {
        return first_overlap_below(links, ends, starts, left, from, to, turns - 1);
    }
    if to <= *starts.value(here) {
        return None;
    }
    if from < ends.value(here) {
        return Some(here);
    }
    let right = links.right(here);
    first_overlap_below(links, ends, starts, right, from, to, turns - 1)
}

/// The first member whose interval overlaps `[from, to)`, which means that the interval starts before `to` and ends after `from`.
///
/// The end of each interval is the number at its place in the summaries. The start of each interval is the number that `starts` has for the member. It requires
/// that the links represent a tree with a start at each member. The result is right if the tree is summed, and in the order of the starts. It returns `None` if
/// no member overlaps. O(log n).
pub fn first_overlap<T, E: TreeHead, N: NodeStore, O: Values<u64>, A: Allocator>(
    tree: &RBTree<T, E>,
    summed: &Augmented<N, Greatest<A>>,
    starts: &O,
    from: u64,
    to: u64,
) -> Option<Place>
    requires { (s : List Place) × Represents N.node (N.table (links_of summed.now)) (root_in E.kept tree.now) s × ArePlaced (O.values starts.now) s }
    ensures { (s : List Place)
        → RepresentsAugmented N.node (greatest (summaries_of summed.now)) (N.table (links_of summed.now)) (root_in E.kept tree.now) s
        → IsSorted nat_cmp (map (start_in (O.values starts.now)) s)
        → result ≡ first (filter (overlaps (start_in (O.values starts.now)) (number_at (summaries_of summed.now)) from to) s) }
{
    first_overlap_below(
        &summed.links,
        &summed.summaries,
        starts,
        tree.root(),
        from,
        to,
        67,
    )
}

// The first member after the subtree at `place` whose interval overlaps `[from, to)`, or `None` if no later interval does.
fn first_overlap_after<N: NodeStore, O: Values<u64>, A: Allocator>(
    links: &N,
    ends: &Greatest<A>,
    starts: &O,
    place: Place,
    from: u64,
    to: u64,
    turns: u32,
) -> Option<Place>
    requires { (fs : List Frame) × (t : Tree) × IsSubtree N.node (N.table links.now) fs t × (top t ≡ Some place) × ArePlaced (O.values starts.now) (after fs) }
    ensures { (fs : List Frame) (t : Tree) → IsSubtree N.node (N.table links.now) fs t → IsSummed (greatest ends.now) None (plug fs t) → top t ≡ Some place
        → IsSorted nat_cmp (map (start_in (O.values starts.now)) (after fs)) → length fs ≤ turns
        → result ≡ first (filter (overlaps (start_in (O.values starts.now)) (number_at ends.now) from to) (after fs)) }
{
    if turns == 0 {
        return None;
    }
    let above = links.parent(place)?;
    let right = links.right(above);
    if is_at(right, place) {
        return first_overlap_after(links, ends, starts, above, from, to, turns - 1);
    }
    if to <= *starts.value(above) {
        return None;
    }
    if from < ends.value(above) {
        return Some(above);
    }
    if from < ends.total(right) {
        return first_overlap_below(links, ends, starts, right, from, to, 67);
    }
    first_overlap_after(links, ends, starts, above, from, to, turns - 1)
}

/// The first member after the member at `place` whose interval overlaps `[from, to)`.
///
/// It requires that `place` is a member of some tree, and that each member of this tree has a start. The result is right if the tree is summed, and in the
/// order of the starts. It returns `None` if no later member overlaps. To get all members that overlap, in order, call `first_overlap`, and then `next_overlap`
/// until it returns `None`. O(log n).
pub fn next_overlap<N: NodeStore, O: Values<u64>, A: Allocator>(
    summed: &Augmented<N, Greatest<A>>,
    starts: &O,
    place: Place,
    from: u64,
    to: u64,
) -> Option<Place>
    requires { (root : Option Place) × (front back : List Place)
        × Represents N.node (N.table (links_of summed.now)) root (front ++ place ∷ back) × ArePlaced (O.values starts.now) (front ++ place ∷ back) }
    ensures { (root : Option Place) (front back : List Place)
        → RepresentsAugmented N.node (greatest (summaries_of summed.now)) (N.table (links_of summed.now)) root (front ++ place ∷ back)
        → IsSorted nat_cmp (map (start_in (O.values starts.now)) (front ++ place ∷ back))
        → result ≡ first (filter (overlaps (start_in (O.values starts.now)) (number_at (summaries_of summed.now)) from to) back) }
{
    let links = &summed.links;
    let right = links.right(place);
    if from < summed.summaries.total(right) {
        return first_overlap_below(links, &summed.summaries, starts, right, from, to, 67);
    }
    first_overlap_after(links, &summed.summaries, starts, place, from, to, 67)
}
