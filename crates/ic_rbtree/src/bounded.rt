//! Steps from a position in a tree to a neighbor. Each step ends after a fixed number of turns, whatever the link words contain.
//!
//! ```text
//! step_bounded(nodes, root, None, Side::Right) // the first member
//! ```

ghost use Rattle.std.specs.Prelude.{◌≡◌, Bool, Option, Some, None, List, [], ◌∷◌};
ghost use Rattle.ic_link_ops.specs.Prelude.{Place, Cut, join};
ghost use Rattle.ic_link_ops.specs.Frames.{across};
ghost use Rattle.ic_link_ops.specs.RedBlackTree.{Represents};
ghost use Rattle.ic_rbtree.specs.Closed.{IsIn, IsClosed, IsSafe, StaysClosed};
ghost use Rattle.ic_rbtree.specs.Sides.{IsBeside, IsOutermostWithin, IsNearestAboveWithin};
ghost use Rattle.ic_rbtree.specs.StepsTo.{ComesUpTo, IsBelow, StepEnds, StepsTo};

use crate::nodes::NodeStore;
use crate::readings::{child, other};
use crate::repair::TURNS;
use ic_link_ops::Side;
use ic_unsafe_ref::Place;

// Returns the outermost member on the side `side`, at or below the place `place`.
#[inline]
pub(crate) fn outermost_bounded<N: NodeStore>(nodes: &N, place: Place, side: Side) -> Place
    requires { (root : Option Place) × IsSafe N.node (N.table nodes.now) root (Some place ∷ []) }
    ensures outermost { IsOutermostWithin N.node (N.table nodes.now) place side result }
    ensures below { IsBelow N.node (N.table nodes.now) side place result }
    ensures safe { (root : Option Place) → StaysClosed N.node (N.table nodes.now) (N.table nodes.now) root root (Some place ∷ []) (Some result ∷ []) }
{
    let mut place = place;
    for _ in 0..TURNS {
        let Some(below) = child(nodes, place, side) else {
            return place;
        };
        place = below;
    }
    place
}

// Returns the lowest member above `place` that is on the side `side` of it, `None` if there is none. If the links form no tree, the climb may use up its turns.
// Then the result is the place that the last turn reached, and not `None`. Each turn reads the child and the parent of the member above one after the other,
// and is counted after the test. In this form a turn takes half as many instructions.
#[inline]
fn above_bounded<N: NodeStore>(nodes: &N, place: Place, side: Side) -> Option<Place>
    requires { (root : Option Place) × IsSafe N.node (N.table nodes.now) root (Some place ∷ []) }
    ensures nearest { IsNearestAboveWithin N.node (N.table nodes.now) place side result }
    ensures up { ComesUpTo N.node (N.table nodes.now) side place result }
    ensures safe { (root : Option Place) → StaysClosed N.node (N.table nodes.now) (N.table nodes.now) root root (Some place ∷ []) (result ∷ []) }
{
    let mut place = place;
    let mut parent = nodes.parent(place);
    let mut turns = TURNS;
    while let Some(above) = parent {
        if !nodes.is_child(place, above, side) {
            return Some(above);
        }
        if turns == 0 {
            return Some(above);
        }
        turns -= 1;
        place = above;
        parent = nodes.parent(above);
    }
    None
}

/// The position to which a step to the side `side` leads from `current`, in the tree with the root `root`. From a member the step leads to the next member on
/// this side, or to null if there is none. From null it leads to the outermost member on the other side.
///
/// It requires a closed set of places, out of which no link leads. The root and the position must be none or in this set, and then the result is, too. The call
/// terminates, whatever the link words contain. It returns a place only if the links lead to this place, and `None` only if the links end. O(log n), and O(1)
/// on average over a walk. [`RBTree::step`](crate::RBTree::step) is the same call for a tree.
#[inline]
pub fn step_bounded<N: NodeStore>(
    nodes: &N,
    root: Option<Place>,
    current: Option<Place>,
    side: Side,
) -> Option<Place>
    requires { IsSafe N.node (N.table nodes.now) root (current ∷ []) }
    ensures leads { (gap : Cut) → Represents N.node (N.table nodes.now) root (join gap) → IsBeside side gap current
        → IsBeside (across side) gap result }
    ensures reached { (y : Place) → result ≡ Some y → StepsTo N.node (N.table nodes.now) root side current y }
    ensures ended { result ≡ None → StepEnds N.node (N.table nodes.now) root side current }
    ensures safe { (S : Place → Bool) → IsClosed N.node (N.table nodes.now) root S → IsIn S current → IsIn S result }
{
    let below = match current {
        None => root,
        Some(place) => child(nodes, place, side),
    };
    match below {
        Some(below) => Some(outermost_bounded(nodes, below, other(side))),
        None => above_bounded(nodes, current?, side),
    }
}
