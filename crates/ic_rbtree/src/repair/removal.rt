//! Removes a member from a tree, and repairs the colors. The cases are numbered as in RB-DELETE-FIXUP of Cormen, Leiserson, Rivest and Stein. A subtree is
//! short if the paths through it have one black member too few. The other child of the short subtree's parent is its sibling, and the children of the sibling
//! are the nephews. The near nephew is on the side of the short subtree, and the far nephew is on the opposite side.

ghost use Rattle.std.specs.Prelude.{Option, Some, [], ◌∷◌};
ghost use Rattle.ic_unsafe_ref.specs.declared.place.Place.{Place};
ghost use Rattle.ic_rbtree.specs.Closed.{IsNode, IsNamed, IsSafe, StaysClosed, StaysClosedBut};
ghost use Rattle.ic_rbtree.specs.Removal.{FixesDeletion, BlackensSibling, RotatesNearNephew, RotatesFarNephew, ReddensSibling, FixesDeletionStep};
ghost use Rattle.ic_rbtree.specs.Transplants.{FillsGap, SplicesOut, TakesOut, TakesAway};

use crate::bounded::outermost_bounded;
use crate::nodes::NodeStore;
use crate::readings::{
    child, has_red_child, is_at, is_red, only_child, other, second_child, side_below,
};
use crate::repair::TURNS;
use crate::repair::writers::{change_child, rotate, set_color, set_parent_and_color, take_place};
use ic_link_ops::{Color, PlaceWord, Side};
use ic_unsafe_ref::Place;

// Case 1, the sibling of the short subtree is red: the sibling is rotated above `place`, and one of its children becomes the new sibling. The short subtree is
// on the side `side` of `place`. Returns its sibling after this, which is black.
#[inline(always)]
pub(crate) fn blacken_sibling<N: NodeStore>(
    links: &mut N,
    root: &mut PlaceWord,
    place: Place,
    side: Side,
) -> Option<Place>
    requires { IsSafe N.node (N.table links.old) root.old (Some place ∷ []) }
    ensures black_sibling { BlackensSibling N.node (N.table links.old) (N.table links.new) root.old root.new place side result }
    ensures safe { StaysClosed N.node (N.table links.old) (N.table links.new) root.old root.new (Some place ∷ []) (result ∷ []) }
    ensures keeps_links { N.KeepsLinks links.old links.new }
{
    let far = other(side);
    let sibling = child(&*links, place, far)?;
    if !is_red(&*links, Some(sibling)) {
        return Some(sibling);
    }
    rotate(links, root, place, sibling, side, Color::Red, Color::Black);
    child(&*links, place, far)
}

// Case 3, the far nephew is black and the near nephew is red: the near nephew is rotated above `sibling`. The short subtree is on the side `side`. Returns its
// sibling after this, whose far child is red.
#[inline(always)]
pub(crate) fn rotate_near_nephew<N: NodeStore>(
    links: &mut N,
    root: &mut PlaceWord,
    sibling: Place,
    side: Side,
) -> Option<Place>
    requires { IsSafe N.node (N.table links.old) root.old (Some sibling ∷ []) }
    ensures red_far_nephew { RotatesNearNephew N.node (N.table links.old) (N.table links.new) root.old root.new side sibling result }
    ensures safe { StaysClosed N.node (N.table links.old) (N.table links.new) root.old root.new (Some sibling ∷ []) (result ∷ []) }
    ensures keeps_links { N.KeepsLinks links.old links.new }
{
    let far = other(side);
    let outer = child(&*links, sibling, far);
    if is_red(&*links, outer) {
        return Some(sibling);
    }
    let near = child(&*links, sibling, side)?;
    rotate(links, root, sibling, near, far, Color::Red, Color::Black);
    Some(near)
}

// Case 4, the far nephew is red, if need be after case 3: the sibling is rotated above `place`, and gets the color of `place`. After this, the tree is right.
#[inline(always)]
pub(crate) fn rotate_far_nephew<N: NodeStore>(
    links: &mut N,
    root: &mut PlaceWord,
    place: Place,
    sibling: Place,
    side: Side,
)
    requires { IsSafe N.node (N.table links.old) root.old (Some place ∷ Some sibling ∷ []) }
    ensures restored { RotatesFarNephew N.node (N.table links.old) (N.table links.new) root.old root.new place side sibling }
    ensures safe { StaysClosed N.node (N.table links.old) (N.table links.new) root.old root.new (Some place ∷ Some sibling ∷ []) [] }
    ensures keeps_links { N.KeepsLinks links.old links.new }
{
    let Some(upper) = rotate_near_nephew(links, root, sibling, side) else {
        return;
    };
    let far = other(side);
    let Some(outer) = child(&*links, upper, far) else {
        return;
    };
    let color = links.color(place);
    set_color(links, outer, Color::Black);
    rotate(links, root, place, upper, side, Color::Black, color);
}

// Case 2, both nephews are black: `sibling` turns red. If its parent `place` is red, `place` turns black, and the tree is right. Returns whether `place` was
// red.
pub(crate) fn redden_sibling<N: NodeStore>(links: &mut N, place: Place, sibling: Place) -> bool
    requires place { IsNode N.node (N.table links.old) place }
    requires sibling { IsNode N.node (N.table links.old) sibling }
    ensures reddened { ReddensSibling N.node (N.table links.old) (N.table links.new) place sibling result }
    ensures safe { (root : Option Place) → StaysClosedBut N.node (N.table links.old) (N.table links.new) root root [] }
    ensures keeps_links { N.KeepsLinks links.old links.new }
{
    set_color(links, sibling, Color::Red);
    if is_red(&*links, Some(place)) {
        set_color(links, place, Color::Black);
        return true;
    }
    false
}

// One step of the repair, where the paths on the side `side` of the member `place` have one black member too few. Returns whether this step was the last.
#[inline(always)]
pub(crate) fn delete_fixup_on<N: NodeStore>(
    links: &mut N,
    root: &mut PlaceWord,
    place: Place,
    side: Side,
) -> bool
    requires { IsSafe N.node (N.table links.old) root.old (Some place ∷ []) }
    ensures restored { FixesDeletionStep N.node (N.table links.old) (N.table links.new) root.old root.new place side result }
    ensures safe { StaysClosed N.node (N.table links.old) (N.table links.new) root.old root.new (Some place ∷ []) [] }
    ensures keeps_links { N.KeepsLinks links.old links.new }
{
    let Some(sibling) = blacken_sibling(links, root, place, side) else {
        return true;
    };
    if has_red_child(&*links, sibling) {
        rotate_far_nephew(links, root, place, sibling, side);
        return true;
    }
    redden_sibling(links, place, sibling)
}

// One step of the repair, for either side of the member `place`. Each side has compiled code of its own.
pub(crate) fn delete_fixup_step<N: NodeStore>(
    links: &mut N,
    root: &mut PlaceWord,
    place: Place,
    side: Side,
) -> bool
    requires { IsSafe N.node (N.table links.old) root.old (Some place ∷ []) }
    ensures restored { FixesDeletionStep N.node (N.table links.old) (N.table links.new) root.old root.new place side result }
    ensures safe { StaysClosed N.node (N.table links.old) (N.table links.new) root.old root.new (Some place ∷ []) [] }
    ensures keeps_links { N.KeepsLinks links.old links.new }
{
    match side {
        Side::Left => delete_fixup_on(links, root, place, Side::Left),
        Side::Right => delete_fixup_on(links, root, place, Side::Right),
    }
}

/// Repairs a tree whose paths on the side `side` of `parent` have one black member too few, in O(log n): RB-DELETE-FIXUP.
#[inline(always)]
pub(crate) fn delete_fixup<N: NodeStore>(
    links: &mut N,
    root: &mut PlaceWord,
    parent: Option<Place>,
    side: Side,
)
    requires { IsSafe N.node (N.table links.old) root.old (parent ∷ []) }
    ensures restored { FixesDeletion N.node (N.table links.old) (N.table links.new) root.old root.new parent side }
    ensures safe { StaysClosed N.node (N.table links.old) (N.table links.new) root.old root.new (parent ∷ []) [] }
    ensures keeps_links { N.KeepsLinks links.old links.new }
{
    let mut parent = parent;
    let mut side = side;
    for _ in 0..TURNS {
        let Some(place) = parent else {
            return;
        };
        if delete_fixup_step(links, root, place, side) {
            return;
        }
        parent = links.parent(place);
        side = side_below(&*links, place, parent);
    }
}

// Gives `child`, the only child of a removed member, the new parent `parent`. The removed member had the color `color`. A child without a sibling is red, and
// its parent is black, so the child turns black. Returns whether the paths through the old position of the removed member then have one black member too few.
pub(crate) fn fill_gap<N: NodeStore>(
    links: &mut N,
    color: Color,
    child: Option<Place>,
    parent: Option<Place>,
) -> bool
    requires child { IsNamed N.node (N.table links.old) child }
    requires parent { IsNamed N.node (N.table links.old) parent }
    ensures filled { FillsGap N.node (N.table links.old) (N.table links.new) color child parent result }
    ensures safe { (root : Option Place) → StaysClosedBut N.node (N.table links.old) (N.table links.new) root root (parent ∷ []) }
    ensures keeps_links { N.KeepsLinks links.old links.new }
{
    if let Some(child) = child {
        set_parent_and_color(links, child, parent, Color::Black);
        return false;
    }
    match color {
        Color::Red => false,
        Color::Black => true,
    }
}

// Removes the member at `place`, which has at most one child. The child, if any, takes the member's position. Returns whether the paths through this position
// then have one black member too few. Also returns the parent above the position, and the side of the parent on which the position is.
#[inline(always)]
pub(crate) fn splice_out<N: NodeStore>(
    links: &mut N,
    root: &mut PlaceWord,
    place: Place,
) -> (bool, Option<Place>, Side)
    requires { IsSafe N.node (N.table links.old) root.old (Some place ∷ []) }
    ensures taken { SplicesOut N.node (N.table links.old) (N.table links.new) root.old root.new place result.0 result.1 result.2 }
    ensures safe { StaysClosed N.node (N.table links.old) (N.table links.new) root.old root.new (Some place ∷ []) (result.1 ∷ []) }
    ensures keeps_links { N.KeepsLinks links.old links.new }
{
    let child = only_child(&*links, place);
    let parent = links.parent(place);
    let color = links.color(place);
    let side = side_below(&*links, place, parent);
    change_child(links, root, parent, place, child);
    let short = fill_gap(links, color, child, parent);
    (short, parent, side)
}

// Removes the member at `place`, and leaves the repair of the colors to the caller. If the removed member has two children, the next member takes its position.
// Returns what `splice_out` returns.
#[inline(always)]
pub(crate) fn take_out<N: NodeStore>(
    links: &mut N,
    root: &mut PlaceWord,
    place: Place,
) -> (bool, Option<Place>, Side)
    requires { IsSafe N.node (N.table links.old) root.old (Some place ∷ []) }
    ensures taken { TakesOut N.node (N.table links.old) (N.table links.new) root.old root.new place result.0 result.1 result.2 }
    ensures safe { StaysClosed N.node (N.table links.old) (N.table links.new) root.old root.new (Some place ∷ []) (result.1 ∷ []) }
    ensures keeps_links { N.KeepsLinks links.old links.new }
{
    let Some(right) = second_child(&*links, place) else {
        return splice_out(links, root, place);
    };
    let next = outermost_bounded(&*links, right, Side::Left);
    let (short, parent, side) = splice_out(links, root, next);
    if is_at(Some(next), place) {
        return (short, parent, side);
    }
    take_place(links, root, place, next);
    if is_at(parent, place) {
        return (short, Some(next), side);
    }
    (short, parent, side)
}

// Removes the member at `place` from the tree, and leaves the place linked. If the removed member has two children, the next member takes its position.
pub(crate) fn unlink<N: NodeStore>(links: &mut N, root: &mut PlaceWord, place: Place)
    requires { IsSafe N.node (N.table links.old) root.old (Some place ∷ []) }
    ensures taken { TakesAway N.node (N.table links.old) (N.table links.new) root.old root.new place }
    ensures safe { StaysClosed N.node (N.table links.old) (N.table links.new) root.old root.new (Some place ∷ []) [] }
    ensures keeps_links { N.KeepsLinks links.old links.new }
{
    let (short, parent, side) = take_out(links, root, place);
    if short {
        delete_fixup(links, root, parent, side);
    }
}
