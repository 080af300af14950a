//! A vine is a tree without left children: linked places in order, each the right child of the place before it.
//!
//! These functions make a vine of a tree and a tree of a vine, in place and in O(n), as in Day, Stout and Warren's algorithm. These functions read only the
//! right children of a vine, not its colors and parents.
//!
//! ```text
//! let first = tree_to_vine(links, root, None, TURNS);
//! let count = vine_length(&*links, first);
//! let (root, _) = vine_to_tree(links, first, count, (count + 1).ilog2());
//! ```

ghost use Rattle.std.specs.Prelude.{◌≡◌, ◌≤◌, ◌+◌, ◌-◌, Option, Some, None, List, length};
ghost use Rattle.ic_link_ops.specs.Prelude.{Place, IsAbsent, at_back, Table, list_head, end_of, Inserts, weight, Tree, in_order};
ghost use Rattle.ic_link_ops.specs.SinglyLinkedList.{IsWalk};
ghost use Rattle.ic_rbtree.specs.Closed.{IsNode, IsNamed};
ghost use Rattle.ic_rbtree.specs.Height.{height};
ghost use Rattle.ic_rbtree.specs.Vines.{along, RepresentsVine, IsVineOf, IsTreeOf, BecomesTree, BecomesVine};

use crate::nodes::NodeStore;
use crate::repair::writers::{adopt, set_node};
use ic_link_ops::{Color, PlaceWord};
use ic_unsafe_ref::Place;

// Returns the number of members of the vine with the first member `first`.
pub(crate) fn vine_length<N: NodeStore>(links: &N, first: Option<Place>) -> u64
    requires { (s : List Place) × IsWalk (along N.node) (Table.entry (N.table links.now)) first s }
    ensures { (s : List Place) → IsWalk (along N.node) (Table.entry (N.table links.now)) first s → result ≡ length s }
{
    let mut at = first;
    for count in 0..u64::MAX {
        let Some(place) = at else {
            return count;
        };
        at = links.right(place);
    }
    u64::MAX
}

// Appends the linked place `place` to the vine with the first member `front` and the last member `back`.
pub(crate) fn hang_after<N: NodeStore>(
    links: &mut N,
    front: &mut PlaceWord,
    back: Option<Place>,
    place: Place,
)
    requires linked { IsNode N.node (N.table links.old) place }
    requires shown { (s : List Place) × RepresentsVine N.node (N.table links.old) (list_head front.old back) s }
    ensures hung { (s : List Place) → RepresentsVine N.node (N.table links.old) (list_head front.old back) s → IsAbsent place s
        → Inserts (RepresentsVine N.node) (N.table links.old) (N.table links.new) (list_head front.new (Some place)) (at_back s) place }
    ensures keeps_links { N.KeepsLinks links.old links.new }
{
    links.set_right(place, None);
    match back {
        Some(last) => links.set_right(last, Some(place)),
        None => *front = PlaceWord::of(Some(place)),
    }
}

// Returns one end of a vine after a removal at the opposite end. The vine had the end `end` before, and `neighbor` is the outermost member at the opposite end
// after the removal. If `neighbor` is `None`, the vine is empty, and the result is `None`.
#[inline]
pub(crate) fn end_beyond(neighbor: Option<Place>, end: Option<Place>) -> Option<Place>
    ensures { result ≡ end_of neighbor None end }
{
    match neighbor {
        None => None,
        Some(_) => end,
    }
}

// Returns the color of the root of a tree whose paths down have `height` black members, including the root. The color is red if `height` is 0, otherwise black.
fn color_at(height: u32) -> Color
    ensures { weight result + (height - 1) ≡ height }
{
    match height {
        0 => Color::Red,
        _ => Color::Black,
    }
}

// Makes a tree of the first `count` members of the vine that begins with `first`. Returns the root of the tree, and the member after these members. Each path
// down has `height` black members. At each member the sizes of the left and the right subtree differ by at most one, so all levels except the lowest are full.
// If the lowest level is not full, its members are red.
pub(crate) fn vine_to_tree<N: NodeStore>(
    links: &mut N,
    first: Option<Place>,
    count: u64,
    height: u32,
) -> (Option<Place>, Option<Place>)
    requires { (s : List Place) × (after : Option Place) × IsVineOf N.node (N.table links.old) first count height s after }
    ensures grown { (s : List Place) (after : Option Place) → IsVineOf N.node (N.table links.old) first count height s after
        → BecomesTree N.node (N.table links.old) (N.table links.new) result.0 result.1 height s after }
    ensures keeps_links { N.KeepsLinks links.old links.new }
{
    if count == 0 {
        return (None, first);
    }
    let before = (count - 1) / 2;
    let lower = height.saturating_sub(1);
    let (left, middle) = vine_to_tree(links, first, before, lower);
    let Some(place) = middle else {
        return (left, middle);
    };
    let next = links.right(place);
    let (right, rest) = vine_to_tree(links, next, count - 1 - before, lower);
    set_node(links, place, left, right, None, color_at(height));
    adopt(links, left, Some(place));
    adopt(links, right, Some(place));
    (Some(place), rest)
}

// Makes a vine of the members of the tree with this root, with `after` as the right child of the last member. The height of the tree is at most `turns`.
// Returns the first member of the vine.
pub(crate) fn tree_to_vine<N: NodeStore>(
    links: &mut N,
    root: Option<Place>,
    after: Option<Place>,
    turns: u32,
) -> Option<Place>
    requires tree { (up : Option Place) × (t : Tree) × IsTreeOf N.node (N.table links.old) root up t × (height t ≤ turns) }
    requires named { IsNamed N.node (N.table links.old) after }
    ensures laid { (up : Option Place) (t : Tree) → IsTreeOf N.node (N.table links.old) root up t → height t ≤ turns
        → BecomesVine N.node (N.table links.old) (N.table links.new) result (in_order t) after }
    ensures keeps_links { N.KeepsLinks links.old links.new }
{
    let Some(place) = root else {
        return after;
    };
    if turns == 0 {
        return after;
    }
    let left = links.left(place);
    let right = links.right(place);
    let next = tree_to_vine(links, right, after, turns - 1);
    links.set_right(place, next);
    tree_to_vine(links, left, Some(place), turns - 1)
}
