//! Functions that write children, parents and colors, also for a rotation and for the replacement of a member by a place.

ghost use Rattle.std.specs.Prelude.{◌≡◌, ◌≢◌, Option, Some, [], ◌∷◌};
ghost use Rattle.ic_link_ops.specs.Prelude.{Place, ChangesOnly, node_at};
ghost use Rattle.ic_link_ops.specs.Frames.{with_child};
ghost use Rattle.ic_rbtree.specs.Closed.{IsNode, IsNamed, IsSafe, IsSafeBut, StaysClosed, StaysClosedBut, ClosesAt};
ghost use Rattle.ic_rbtree.specs.Transplants.{TakesPlace};
ghost use Rattle.ic_rbtree.specs.Steps.{Adopts, ChangesChild, Rotates};

use crate::nodes::NodeStore;
use crate::readings::{child, other, side_of};
use ic_link_ops::{Color, PlaceWord, Side};
use ic_unsafe_ref::Place;

pub(crate) fn set_child<N: NodeStore>(links: &mut N, place: Place, side: Side, to: Option<Place>)
    requires linked { IsNode N.node (N.table links.old) place }
    requires named { IsNamed N.node (N.table links.old) to }
    ensures set { node_at N.node (N.table links.new) place
        ≡ with_child side (node_at N.node (N.table links.old) place) to }
    ensures frame { ChangesOnly (N.table links.old) (N.table links.new) place }
    ensures safe { (root : Option Place) → StaysClosedBut N.node (N.table links.old) (N.table links.new) root root (to ∷ []) }
    ensures keeps_links { N.KeepsLinks links.old links.new }
{
    match side {
        Side::Left => links.set_left(place, to),
        Side::Right => links.set_right(place, to),
    }
}

pub(crate) fn set_parent<N: NodeStore>(links: &mut N, place: Place, parent: Option<Place>)
    requires linked { IsNode N.node (N.table links.old) place }
    requires named { IsNamed N.node (N.table links.old) parent }
    ensures set { node_at N.node (N.table links.new) place
        ≡ record (node_at N.node (N.table links.old) place) { parent = parent } }
    ensures frame { ChangesOnly (N.table links.old) (N.table links.new) place }
    ensures safe { (root : Option Place) → StaysClosedBut N.node (N.table links.old) (N.table links.new) root root (parent ∷ []) }
    ensures keeps_links { N.KeepsLinks links.old links.new }
{
    links.set_parent(place, parent);
}

pub(crate) fn set_color<N: NodeStore>(links: &mut N, place: Place, color: Color)
    requires { IsNode N.node (N.table links.old) place }
    ensures set { node_at N.node (N.table links.new) place
        ≡ record (node_at N.node (N.table links.old) place) { color = color } }
    ensures frame { ChangesOnly (N.table links.old) (N.table links.new) place }
    ensures safe { (root : Option Place) → StaysClosedBut N.node (N.table links.old) (N.table links.new) root root [] }
    ensures keeps_links { N.KeepsLinks links.old links.new }
{
    links.set_color(place, color);
}

// Sets the parent and the color of a place, in one write.
pub(crate) fn set_parent_and_color<N: NodeStore>(
    links: &mut N,
    place: Place,
    parent: Option<Place>,
    color: Color,
)
    requires linked { IsNode N.node (N.table links.old) place }
    requires named { IsNamed N.node (N.table links.old) parent }
    ensures set { node_at N.node (N.table links.new) place
        ≡ record (node_at N.node (N.table links.old) place) { parent = parent; color = color } }
    ensures frame { ChangesOnly (N.table links.old) (N.table links.new) place }
    ensures safe { (root : Option Place) → StaysClosedBut N.node (N.table links.old) (N.table links.new) root root (parent ∷ []) }
    ensures keeps_links { N.KeepsLinks links.old links.new }
{
    links.set_parent_and_color(place, parent, color);
}

// Sets both children, the parent and the color of a place that is inserted.
#[inline]
pub(crate) fn set_node<N: NodeStore>(
    links: &mut N,
    place: Place,
    left: Option<Place>,
    right: Option<Place>,
    parent: Option<Place>,
    color: Color,
)
    requires linked { IsNode N.node (N.table links.old) place }
    requires left { IsNamed N.node (N.table links.old) left }
    requires right { IsNamed N.node (N.table links.old) right }
    requires parent { IsNamed N.node (N.table links.old) parent }
    ensures set { node_at N.node (N.table links.new) place
        ≡ record (node_at N.node (N.table links.old) place) { left = left; right = right; parent = parent; color = color } }
    ensures frame { ChangesOnly (N.table links.old) (N.table links.new) place }
    ensures safe { (root : Option Place) → ClosesAt N.node (N.table links.old) (N.table links.new) root root place (left ∷ right ∷ parent ∷ []) }
    ensures keeps_links { N.KeepsLinks links.old links.new }
{
    links.set_left(place, left);
    links.set_right(place, right);
    set_parent_and_color(links, place, parent, color);
}

// Sets the parent of `child`, which is the root of a subtree. If `child` is none, the function writes nothing.
pub(crate) fn adopt<N: NodeStore>(links: &mut N, child: Option<Place>, parent: Option<Place>)
    requires child { IsNamed N.node (N.table links.old) child }
    requires parent { IsNamed N.node (N.table links.old) parent }
    ensures moved { Adopts N.node (N.table links.old) (N.table links.new) child parent }
    ensures safe { (root : Option Place) → StaysClosedBut N.node (N.table links.old) (N.table links.new) root root (parent ∷ []) }
    ensures keeps_links { N.KeepsLinks links.old links.new }
{
    if let Some(child) = child {
        set_parent(links, child, parent);
    }
}

// Makes the subtree with the root `to` the child of `parent` instead of `was`. If there is no parent, `to` becomes the root of the tree.
pub(crate) fn change_child<N: NodeStore>(
    links: &mut N,
    root: &mut PlaceWord,
    parent: Option<Place>,
    was: Place,
    to: Option<Place>,
)
    requires parent { IsNamed N.node (N.table links.old) parent }
    requires named { IsNamed N.node (N.table links.old) to }
    ensures moved { ChangesChild N.node (N.table links.old) (N.table links.new) root.old root.new parent was to }
    ensures safe { StaysClosedBut N.node (N.table links.old) (N.table links.new) root.old root.new (to ∷ []) }
    ensures keeps_links { N.KeepsLinks links.old links.new }
{
    if let Some(parent) = parent {
        let side = side_of(&*links, was, parent);
        set_child(links, parent, side, to);
    } else {
        *root = PlaceWord::of(to);
    }
}

/// Rotates `place` down to the side `side`, and rotates `upper`, the child of `place` on the other side, above `place`. `place` gets the color `low`, and
/// `upper` gets the color `high`.
#[inline(always)]
pub(crate) fn rotate<N: NodeStore>(
    links: &mut N,
    root: &mut PlaceWord,
    place: Place,
    upper: Place,
    side: Side,
    low: Color,
    high: Color,
)
    requires { IsSafe N.node (N.table links.old) root.old (Some place ∷ Some upper ∷ []) }
    ensures rotated { Rotates N.node (N.table links.old) (N.table links.new) root.old root.new place upper side low high }
    ensures safe { StaysClosed N.node (N.table links.old) (N.table links.new) root.old root.new (Some place ∷ Some upper ∷ []) [] }
    ensures keeps_links { N.KeepsLinks links.old links.new }
{
    let inner = child(&*links, upper, side);
    let parent = links.parent(place);
    set_child(links, place, other(side), inner);
    adopt(links, inner, Some(place));
    set_parent_and_color(links, upper, parent, high);
    change_child(links, root, parent, place, Some(upper));
    set_child(links, upper, side, Some(place));
    set_parent_and_color(links, place, Some(upper), low);
}

/// Replaces the member at `place` by the place `new`, which was in no collection before.
pub(crate) fn take_place<N: NodeStore>(
    links: &mut N,
    root: &mut PlaceWord,
    place: Place,
    new: Place,
)
    requires safe { IsSafeBut N.node (N.table links.old) root.old new (Some place ∷ Some new ∷ []) }
    requires apart { place ≢ new }
    ensures taken { TakesPlace N.node (N.table links.old) (N.table links.new) root.old root.new place new }
    ensures safe { ClosesAt N.node (N.table links.old) (N.table links.new) root.old root.new new (Some place ∷ Some new ∷ []) }
    ensures keeps_links { N.KeepsLinks links.old links.new }
{
    let parent = links.parent(place);
    let left = links.left(place);
    let right = links.right(place);
    let color = links.color(place);
    change_child(links, root, parent, place, Some(new));
    adopt(links, left, Some(new));
    adopt(links, right, Some(new));
    set_node(links, new, left, right, parent, color);
}
