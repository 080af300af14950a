//! Functions that read the links and the color of a member, by sides.

ghost use Rattle.std.specs.Prelude.{◌≡◌, Some};
ghost use Rattle.ic_link_ops.specs.Prelude.{Place, is_end, node_at};
ghost use Rattle.ic_link_ops.specs.Frames.{across, child_on};
ghost use Rattle.ic_rbtree.specs.Removal.{red_at, red_below, AreRead};
ghost use Rattle.ic_rbtree.specs.Transplants.{or_else, IsSideBelow, both_of};
ghost use Rattle.ic_rbtree.specs.Insertion.{color_below, are_across};
ghost use Rattle.ic_rbtree.specs.Steps.{IsSideOf};
ghost use Rattle.ic_rbtree.specs.Closed.{IsNode};

use crate::nodes::NodeStore;
use ic_link_ops::{Color, PlaceWord, Side};
use ic_unsafe_ref::Place;

pub(crate) fn other(side: Side) -> Side
    ensures { result ≡ across side }
{
    match side {
        Side::Left => Side::Right,
        Side::Right => Side::Left,
    }
}

pub(crate) fn child<N: NodeStore>(links: &N, place: Place, side: Side) -> Option<Place>
    requires { IsNode N.node (N.table links.now) place }
    ensures { result ≡ child_on side (node_at N.node (N.table links.now) place) }
{
    match side {
        Side::Left => links.left(place),
        Side::Right => links.right(place),
    }
}

// Whether `end` is `place`. The function compares two words.
#[inline]
pub(crate) fn is_at(end: Option<Place>, place: Place) -> bool
    ensures { result ≡ is_end end place }
{
    Place::to_word(end) == Place::to_word(Some(place))
}

pub(crate) fn is_red<N: NodeStore>(links: &N, place: Option<Place>) -> bool
    requires { (q : Place) → place ≡ Some q → IsNode N.node (N.table links.now) q }
    ensures { result ≡ red_at N.node (N.table links.now) place }
{
    match place {
        None => false,
        Some(place) => match links.color(place) {
            Color::Red => true,
            Color::Black => false,
        },
    }
}

pub(crate) fn has_red_child<N: NodeStore>(links: &N, place: Place) -> bool
    requires { AreRead N.node (N.table links.now) place }
    ensures { result ≡ red_below N.node (N.table links.now) place }
{
    is_red(links, links.left(place)) || is_red(links, links.right(place))
}

// Returns the left child of `place`, or if there is no left child, the right child.
pub(crate) fn only_child<N: NodeStore>(links: &N, place: Place) -> Option<Place>
    requires { IsNode N.node (N.table links.now) place }
    ensures { result ≡ or_else (node_at N.node (N.table links.now) place).left
        (node_at N.node (N.table links.now) place).right }
{
    // Both branches compute the link word of the child that is returned.
    let only = match links.left(place) {
        Some(left) => PlaceWord::of(Some(left)),
        None => PlaceWord::of(links.right(place)),
    };
    only.get()
}

/// Returns the side of `parent` on which its child `place` is.
pub(crate) fn side_of<N: NodeStore>(links: &N, place: Place, parent: Place) -> Side
    requires { IsNode N.node (N.table links.now) parent }
    ensures { IsSideOf N.node (N.table links.now) place parent result }
{
    if is_at(links.left(parent), place) {
        Side::Left
    } else {
        Side::Right
    }
}

pub(crate) fn side_below<N: NodeStore>(links: &N, place: Place, parent: Option<Place>) -> Side
    requires { (q : Place) → parent ≡ Some q → IsNode N.node (N.table links.now) q }
    ensures { IsSideBelow N.node (N.table links.now) place parent result }
{
    match parent {
        Some(parent) => side_of(links, place, parent),
        None => Side::Left,
    }
}

// Returns the right child of `place` if it has both children, otherwise `None`.
pub(crate) fn second_child<N: NodeStore>(links: &N, place: Place) -> Option<Place>
    requires { IsNode N.node (N.table links.now) place }
    ensures { result ≡ both_of (node_at N.node (N.table links.now) place).left
        (node_at N.node (N.table links.now) place).right }
{
    match links.left(place) {
        Some(_) => links.right(place),
        None => None,
    }
}

// Returns the color that a repair gives to `place`: red if it has a parent, and black if it is the root.
pub(crate) fn color_here<N: NodeStore>(links: &N, place: Place) -> Color
    requires { IsNode N.node (N.table links.now) place }
    ensures { result ≡ color_below (node_at N.node (N.table links.now) place).parent }
{
    match links.parent(place) {
        Some(_) => Color::Red,
        None => Color::Black,
    }
}

// Whether the sides `one` and `other` are different.
pub(crate) fn is_across(one: Side, other: Side) -> bool
    ensures { result ≡ are_across one other }
{
    match one {
        Side::Left => match other {
            Side::Left => false,
            Side::Right => true,
        },
        Side::Right => match other {
            Side::Left => true,
            Side::Right => false,
        },
    }
}
