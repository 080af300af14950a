//! Steps from a position in a tree to a neighbor, and the insert position between the position and this neighbor.
//!
//! If a member has a child on the side of the step, its neighbor is the outermost member at or below this child, on the other side. Otherwise its neighbor is
//! above it: the lowest member whose subtree on the other side contains it.

ghost use Rattle.std.specs.Prelude.{◌≡◌, List, Option, Some, None};
ghost use Rattle.ic_link_ops.specs.Prelude.{Place, Cut, join, site, IsValidCursor};
ghost use Rattle.ic_link_ops.specs.Frames.{across};
ghost use Rattle.ic_link_ops.specs.RedBlackTree.{Represents, RepresentsSome};
ghost use Rattle.ic_rbtree.specs.Insertion.{IsInsertPos};
ghost use Rattle.ic_rbtree.specs.Sides.{IsBeside, nearest, IsInTree, IsOutermost, IsNearestAbove};

use crate::readings::{child, is_at, other};
use ic_link_ops::rbtree::RBTreeOps;
use ic_link_ops::{PlaceWord, Side};
use ic_unsafe_ref::Place;

// Returns the outermost member on the side `side`, at or below `place`.
#[inline]
pub(crate) fn outermost<L: RBTreeOps>(links: &L, place: Place, side: Side) -> Place
    requires { IsInTree L.node (L.table links.now) place }
    ensures { IsOutermost L.node (L.table links.now) place side result }
{
    let mut place = place;
    while let Some(below) = child(links, place, side) {
        place = below;
    }
    place
}

// Returns the lowest member above `place` that is on the side `side` of `place`, `None` if there is none.
#[inline]
pub(crate) fn above_on<L: RBTreeOps>(links: &L, place: Place, side: Side) -> Option<Place>
    requires { IsInTree L.node (L.table links.now) place }
    ensures { IsNearestAbove L.node (L.table links.now) place side result }
{
    let mut place = place;
    let mut parent = links.parent(place);
    while let Some(above) = parent {
        if !is_at(child(links, above, side), place) {
            return Some(above);
        }
        place = above;
        parent = links.parent(above);
    }
    None
}

// The outermost member on the side `side`, `None` in an empty tree.
#[inline]
pub(crate) fn end_on<L: RBTreeOps>(links: &L, root: Option<Place>, side: Side) -> Option<Place>
    requires shown { RepresentsSome L.node (L.table links.now) root }
    ensures end { (s : List Place) → Represents L.node (L.table links.now) root s → result ≡ nearest (across side) s }
{
    Some(outermost(links, root?, side))
}

// Returns the outermost member on the side `side`, for a cursor that moves from null. A cursor moves from null only once in a round through the tree, so this
// call is not inlined, and the code of a step from a member stays short.
#[cold]
#[inline(never)]
fn end_from_null<L: RBTreeOps>(links: &L, root: Option<Place>, side: Side) -> Option<Place>
    requires shown { RepresentsSome L.node (L.table links.now) root }
    ensures end { (s : List Place) → Represents L.node (L.table links.now) root s → result ≡ nearest (across side) s }
{
    end_on(links, root, side)
}

// Returns the position to which a step to the side `side` leads from `current`. From null the step leads to the outermost member on the other side.
#[inline]
pub(crate) fn step<L: RBTreeOps>(
    links: &L,
    root: Option<Place>,
    current: Option<Place>,
    side: Side,
) -> Option<Place>
    requires stands { IsValidCursor (Represents L.node) L.table (site links.now root current) }
    ensures leads { (gap : Cut) → Represents L.node (L.table links.now) root (join gap) → IsBeside side gap current
        → IsBeside (across side) gap result }
{
    let Some(place) = current else {
        return PlaceWord::of(end_from_null(links, root, other(side))).get();
    };
    // All branches compute the link word of the result.
    match child(links, place, side) {
        Some(below) => PlaceWord::of(Some(outermost(links, below, other(side)))).get(),
        None => PlaceWord::of(above_on(links, place, side)).get(),
    }
}

// Returns the insert position, a missing child, on the side `side` of the position `current`. The result is the member above the insert position, `None` in an
// empty tree, and the side of this member.
#[inline]
pub(crate) fn insert_pos_beside<L: RBTreeOps>(
    links: &L,
    root: Option<Place>,
    current: Option<Place>,
    side: Side,
) -> (Option<Place>, Side)
    requires stands { IsValidCursor (Represents L.node) L.table (site links.now root current) }
    ensures { (gap : Cut) → Represents L.node (L.table links.now) root (join gap) → IsBeside side gap current
        → IsInsertPos L.node (L.table links.now) result.0 result.1 gap }
{
    let below = match current {
        None => root,
        Some(place) => child(links, place, side),
    };
    match below {
        None => (current, side),
        Some(below) => {
            let end = other(side);
            (Some(outermost(links, below, end)), end)
        }
    }
}
