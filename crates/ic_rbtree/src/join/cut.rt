//! Splits a tree at an insert position, which is a missing child. On the path up from the insert position, each member is joined to one of the two parts,
//! together with its subtree that is not on the path.
//!
//! Each turn of the loop passes the black heights on to the next turn. A join takes time proportional to the difference between the heights of a part and
//! of the subtree that is joined to it. Before the join the part is at most one higher than the subtree, and after the join it is at least as high.
//! Therefore all joins of a part together take time proportional to the final height of the part, and a constant for each turn. This is O(log n), as in
//! Tarjan, Data Structures and Network Algorithms, chapter 4.
//!
//! ```text
//! let (front, back) = cut_at(nodes, parent, side); // the roots of both parts
//! ```

ghost use Rattle.std.specs.Prelude.{◌<◌, Option, Some, List};
ghost use Rattle.ic_link_ops.specs.Prelude.{node_at, Cut, join, Table};
ghost use Rattle.ic_rbtree.specs.Closed.{IsNamed};
ghost use Rattle.ic_rbtree.specs.Cuts.{CutUp, IsCutBelow, Detaches, CutsOff, AreCutApart};
ghost use Rattle.ic_rbtree.specs.Insertion.{IsInsertPos};
ghost use Rattle.ic_rbtree.specs.Pieces.{Piece, Represented};

use crate::join::roots::{Measured, join_measured, weight_of};
use crate::nodes::NodeStore;
use crate::readings::{child, other, side_below};
use crate::repair::TURNS;
use crate::repair::writers::set_parent_and_color;
use ic_link_ops::{Color, Side};
use ic_unsafe_ref::Place;

// Makes the subtree with the root `child` and the black height `height` a tree of its own, with a black root. If the root was red, the black height grows by
// one.
fn detach<N: NodeStore>(links: &mut N, child: Option<Place>, height: u32) -> Measured
    requires named { IsNamed N.node (N.table links.old) child }
    requires low { height < 4294967295 }
    ensures detached { Detaches N.node (N.table links.old) (N.table links.new) child height result }
    ensures keeps_links { N.KeepsLinks links.old links.new }
{
    let Some(place) = child else {
        return Measured {
            root: child,
            height,
        };
    };
    let weight = weight_of(&*links, place);
    set_parent_and_color(links, place, None, Color::Black);
    Measured {
        root: child,
        height: height + 1 - weight,
    }
}

// Cuts off the member `place` and its far subtree. The insert position is on the side `side` of `place`, and the far subtree, of the black height `height`, is
// on the other side. Joins the member and the far subtree to the part on their side, which is `left` or `right`. The insert position is then at the member's
// old position.
fn cut_off<N: NodeStore>(
    links: &mut N,
    place: Place,
    side: Side,
    height: u32,
    left: Measured,
    right: Measured,
) -> (Measured, Measured)
    requires { (root : Option Place) × (k : CutUp N.Entry) × IsCutBelow N.node (N.table links.old) root (Some place) side height left right k }
    ensures cut { CutsOff N.node (N.table links.old) (N.table links.new) place side height left right result.0 result.1 }
    ensures keeps_links { N.KeepsLinks links.old links.new }
{
    let rest = child(&*links, place, other(side));
    let rest = detach(links, rest, height);
    match side {
        Side::Left => (left, join_measured(links, right, place, rest)),
        Side::Right => (join_measured(links, rest, place, left), right),
    }
}

// Splits a tree at the insert position on the side `side` of `parent`. Returns the roots of the part before the insert position and of the part after it.
pub(crate) fn cut_at<N: NodeStore>(
    links: &mut N,
    parent: Option<Place>,
    side: Side,
) -> (Option<Place>, Option<Place>)
    requires { (base : Table N.Entry) × (root : Option Place) × (gap : Cut) × (ps : List Piece)
        × Represented N.node base (N.table links.old) root (join gap) ps × IsInsertPos N.node (N.table links.old) parent side gap }
    ensures cut { (base : Table N.Entry) (root : Option Place) (gap : Cut) (ps : List Piece)
        → Represented N.node base (N.table links.old) root (join gap) ps → IsInsertPos N.node (N.table links.old) parent side gap
        → AreCutApart N.node base (N.table links.new) result.0 result.1 gap ps }
    ensures keeps_links { N.KeepsLinks links.old links.new }
{
    let mut at = parent;
    let mut side = side;
    let mut height = 0;
    let mut left = Measured {
        root: None,
        height: 0,
    };
    let mut right = left;
    for _ in 0..TURNS {
        let Some(place) = at else {
            return (left.root, right.root);
        };
        at = links.parent(place);
        let above = side_below(&*links, place, at);
        let weight = weight_of(&*links, place);
        let parts = cut_off(links, place, side, height, left, right);
        height += weight;
        left = parts.0;
        right = parts.1;
        side = above;
    }
    (left.root, right.root)
}
