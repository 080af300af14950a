//! The check of a tree.
//!
//! ```text
//! check_tree(&tree, &links) // Some(3): the table represents a red-black tree of three members
//! ```

ghost use Rattle.std.specs.Prelude.{◌≡◌, ◌<◌, ◌≤◌, ◌+◌, MatchOption};
ghost use Rattle.std.specs.Bool.{Decides};
ghost use Rattle.ic_link_ops.specs.RedBlackTree.{Represents};
ghost use Rattle.ic_link_ops.specs.Shape.{weight};
ghost use Rattle.ic_rbtree.specs.Tree.{root_of};
ghost use Rattle.ic_check.specs.Checked.{IsRepresented, RepresentsNone};
ghost use Rattle.ic_check.specs.Subtrees.{AreApart, AreNoRedPair, AreUnlike, IsJoined, HasPathUp, IsTreeBelow, HasNoTree};

use crate::kinds::is_same;
use crate::tells::TellsLinks;
use ic_link_ops::Color;
use ic_link_ops::rbtree::RBTreeOps;
use ic_rbtree::RBTree;
use ic_unsafe_ref::Place;

// The greatest height of a red-black tree: a red-black tree with n members and height h has 2^h <= (n + 1)^2, and there are fewer than 2^33 places.
const HIGHEST: u32 = 66;

// What the check finds out about a subtree: the number of its members, the number of black members on each path down, and the color of its root.
#[derive(Clone, Copy, Drop)]
struct Subtree {
    members: usize,
    blacks: u32,
    color: Color,
}

/// Returns the number of members that the table represents for the tree, or `None` if it represents no red-black tree with this root.
///
/// The check requires nothing of the words. Each child has to name the member above it as its parent, so the check visits no place twice. O(n) for n visited
/// members, with at most 67 nested calls. The check takes no memory.
pub fn check_tree<A, L: RBTreeOps + TellsLinks>(tree: &RBTree<A>, links: &L) -> Option<usize>
    ensures { MatchOption result (RepresentsNone (Represents L.node (L.table links.now) (root_of tree.now)))
        (IsRepresented (Represents L.node (L.table links.now) (root_of tree.now))) }
{
    let Some(found) = check_below(links, tree.root(), None, HIGHEST) else {
        return None;
    };
    match found.color {
        Color::Red => None,
        Color::Black => Some(found.members),
    }
}

// Checks the subtree with the root `place` below `parent`. The result is `None` if this subtree cannot be a part of a red-black tree, or has more than `levels`
// levels. A nested call is passed one level less, so at most 67 calls are nested.
fn check_below<L: RBTreeOps + TellsLinks>(
    links: &L,
    place: Option<Place>,
    parent: Option<Place>,
    levels: u32,
) -> Option<Subtree>
    requires path { HasPathUp L.node (L.table links.now).entry parent }
    requires low { levels ≤ 66 }
    ensures { MatchOption result (HasNoTree L.node (L.table links.now).entry levels parent place)
        (IsTreeBelow L.node (L.table links.now).entry levels parent place) }
{
    let Some(place) = place else {
        return Some(Subtree {
            members: 0,
            blacks: 0,
            color: Color::Black,
        });
    };
    if levels == 0 {
        return None;
    }
    if !links.tells_linked(place) {
        return None;
    }
    if !is_same(links.parent(place), parent) {
        return None;
    }
    let left = links.left(place);
    let right = links.right(place);
    if !are_apart(left, right) {
        return None;
    }
    let Some(left) = check_below(links, left, Some(place), levels - 1) else {
        return None;
    };
    let Some(right) = check_below(links, right, Some(place), levels - 1) else {
        return None;
    };
    join(links.color(place), left, right)
}

// Returns the result for a subtree whose root has the color `color`, from the results for the subtrees on its left and right. The result is `None` if such a
// subtree cannot be a part of a red-black tree.
fn join(color: Color, left: Subtree, right: Subtree) -> Option<Subtree>
    requires few { left.members + right.members ≤ 8589934591 }
    requires low { left.blacks < 4294967295 }
    ensures { MatchOption result (AreUnlike color left right) (IsJoined color left right) }
{
    if left.blacks != right.blacks {
        return None;
    }
    if !are_no_red_pair(color, left.color, right.color) {
        return None;
    }
    Some(Subtree {
        members: left.members + right.members + 1,
        blacks: weight_of(color) + left.blacks,
        color,
    })
}

// Returns whether two children are different places, if both exist.
fn are_apart(left: Option<Place>, right: Option<Place>) -> bool
    ensures { Decides result (AreApart left right) }
{
    left.is_none() || !is_same(left, right)
}

// Returns whether a member of the color `color` may have children of the colors `left` and `right`: a red member may not have a red child.
fn are_no_red_pair(color: Color, left: Color, right: Color) -> bool
    ensures { Decides result (AreNoRedPair color left right) }
{
    match color {
        Color::Black => true,
        Color::Red => match left {
            Color::Red => false,
            Color::Black => match right {
                Color::Red => false,
                Color::Black => true,
            },
        },
    }
}

// Returns 1 for a black member, and 0 for a red member.
fn weight_of(color: Color) -> u32
    ensures { result ≡ weight color }
{
    match color {
        Color::Red => 0,
        Color::Black => 1,
    }
}
