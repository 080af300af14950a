//! These calls return the number of a tree's members, the member at a position, and the position of a member.
//!
//! ```text
//! nth(&tree, &summed, len(&tree, &summed) / 2) // the median
//! index_of(&summed, place) // how many stand before it
//! ```

ghost use Rattle.std.specs.Prelude.{◌≡◌, ◌≤◌, Option, Some, None, List, ◌∷◌, ◌++◌, length};
ghost use Rattle.std.specs.List.{slice_get};
ghost use Rattle.ic_link_ops.specs.Prelude.{Place, Table, HasMember, Tree, top, in_order, is_end};
ghost use Rattle.ic_link_ops.specs.Frames.{Frame, plug, before};
ghost use Rattle.ic_link_ops.specs.RedBlackTree.{IsTree, Represents};
ghost use Rattle.ic_rbtree.specs.Prelude.{height, root_in};
ghost use Rattle.ic_augmented.specs.Counts.{counts};
ghost use Rattle.ic_augmented.specs.Summaries.{IsSummed};
ghost use Rattle.ic_augmented.specs.Subtrees.{IsSubtree};
ghost use Rattle.ic_augmented.specs.Augmented.{links_of, summaries_of};
ghost use Rattle.ic_augmented.specs.Consistent.{RepresentsAugmented};

use crate::augmented::Augmented;
use crate::counts::Counts;
use ic_rbtree::{NodeStore, RBTree, TreeHead};
use ic_unsafe_ref::Place;
use std::alloc::Allocator;

/// The number of members of the tree, if the tree is summed. O(1).
#[inline]
pub fn len<T, E: TreeHead, N: NodeStore, A: Allocator>(
    tree: &RBTree<T, E>,
    summed: &Augmented<N, Counts<A>>,
) -> u64
    ensures { (s : List Place)
        → RepresentsAugmented N.node (counts (summaries_of summed.now)) (N.table (links_of summed.now)) (root_in E.kept tree.now) s
        → result ≡ length s }
{
    summed.summaries.total(tree.root())
}

// The member at `position` of the subtree at `place`, counted from 0. Returns `None` if the subtree has no such position.
fn nth_below<N: NodeStore, A: Allocator>(
    links: &N,
    summaries: &Counts<A>,
    place: Option<Place>,
    position: u64,
    turns: u32,
) -> Option<Place>
    requires { (u : Option Place) × (t : Tree) × IsTree N.node (Table.entry (N.table links.now)) u t × (place ≡ top t) }
    ensures { (u : Option Place) (t : Tree) → IsTree N.node (Table.entry (N.table links.now)) u t → place ≡ top t
        → IsSummed (counts summaries.now) u t → length (in_order t) ≤ 8589934591 → height t ≤ turns
        → result ≡ slice_get (in_order t) position }
{
    let here = place?;
    if turns == 0 {
        return None;
    }
    let left = links.left(here);
    let before = summaries.total(left);
    if position < before {
        return nth_below(links, summaries, left, position, turns - 1);
    }
    if position == before {
        return Some(here);
    }
    let right = links.right(here);
    nth_below(links, summaries, right, position - before - 1, turns - 1)
}

/// The member at a position, counted from 0, or `None` if the position is not less than the number of members. It requires that the tree is summed. O(log n).
pub fn nth<T, E: TreeHead, N: NodeStore, A: Allocator>(
    tree: &RBTree<T, E>,
    summed: &Augmented<N, Counts<A>>,
    position: u64,
) -> Option<Place>
    requires { (s : List Place) × RepresentsAugmented N.node (counts (summaries_of summed.now)) (N.table (links_of summed.now)) (root_in E.kept tree.now) s }
    ensures { (s : List Place)
        → RepresentsAugmented N.node (counts (summaries_of summed.now)) (N.table (links_of summed.now)) (root_in E.kept tree.now) s
        → result ≡ slice_get s position }
{
    nth_below(&summed.links, &summed.summaries, tree.root(), position, 67)
}

// Whether `end` is `place`.
#[inline]
pub(crate) fn is_at(end: Option<Place>, place: Place) -> bool
    ensures { result ≡ is_end end place }
{
    match end {
        Some(other) => other.index() == place.index(),
        None => false,
    }
}

// The number of members that come before the subtree at `place`.
fn count_before<N: NodeStore, A: Allocator>(
    links: &N,
    summaries: &Counts<A>,
    place: Place,
    turns: u32,
) -> u64
    requires { (fs : List Frame) × (t : Tree) × IsSubtree N.node (N.table links.now) fs t × (top t ≡ Some place) }
    ensures { (fs : List Frame) (t : Tree) → IsSubtree N.node (N.table links.now) fs t → IsSummed (counts summaries.now) None (plug fs t)
        → top t ≡ Some place → length fs ≤ turns → result ≡ length (before fs) }
{
    if turns == 0 {
        return 0;
    }
    let Some(above) = links.parent(place) else {
        return 0;
    };
    let before = count_before(links, summaries, above, turns - 1);
    if !is_at(links.right(above), place) {
        return before;
    }
    let beside = summaries.total(links.left(above));
    before.saturating_add(beside).saturating_add(1)
}

/// The position of the member at `place`, which is the number of members before it.
///
/// It requires that `place` is a member of some tree. The result is the position of the member if this tree is summed. O(log n).
pub fn index_of<N: NodeStore, A: Allocator>(summed: &Augmented<N, Counts<A>>, place: Place) -> u64
    requires { (root : Option Place) × HasMember (Represents N.node (N.table (links_of summed.now)) root) place }
    ensures { (root : Option Place) (front back : List Place)
        → RepresentsAugmented N.node (counts (summaries_of summed.now)) (N.table (links_of summed.now)) root (front ++ place ∷ back)
        → result ≡ length front }
{
    let before = count_before(&summed.links, &summed.summaries, place, 67);
    before.saturating_add(summed.summaries.total(summed.links.left(place)))
}
