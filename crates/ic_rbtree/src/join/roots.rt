//! Trees given by their roots, and the join of two trees with a linked place between them.
//!
//! ```text
//! let root = join(nodes, left, place, right); // O(log n), and no look at a key
//! ```

ghost use Rattle.std.specs.Prelude.{◌≡◌, ◌≤◌, ◌<◌, ◌++◌, ◌∷◌, [], List, Option, Some};
ghost use Rattle.ic_link_ops.specs.Prelude.{Place, Table, node_at, weight, blacks, IsRight, Tree, in_order};
ghost use Rattle.ic_rbtree.specs.Closed.{IsNode};
ghost use Rattle.ic_link_ops.specs.Frames.{branch};
ghost use Rattle.ic_link_ops.specs.declared.color.Color.TheVariants.{Red};
ghost use Rattle.ic_rbtree.specs.Height.{height, turns};
ghost use Rattle.ic_rbtree.specs.Join.{Graft, IsGraft, Grafts, IsRootOf, EndsBlack, Pair, ArePair, AreMeasured, AreHigh, IsJoined};
ghost use Rattle.ic_rbtree.specs.Pieces.{Piece, ClimbState, Represented};

use crate::nodes::NodeStore;
use crate::readings::{child, other};
use crate::repair::TURNS;
use crate::repair::insertion::insert_fixup;
use crate::repair::writers::{adopt, set_child, set_color, set_parent};
use ic_link_ops::{Color, PlaceWord, Side};
use ic_unsafe_ref::Place;

// A tree given by its root, with the number of black members on each path down.
#[derive(Clone, Copy)]
pub(crate) struct Measured {
    pub(crate) root: Option<Place>,
    pub(crate) height: u32,
}

// Inserts the linked place `place` at the position of `near`, on the side `side` of `parent`. `near` becomes the child of `place` on the other side. `far`,
// which was a tree of its own, becomes the child of `place` on the side `side`. The function repairs the colors, and returns whether each path down has one
// black member more.
pub(crate) fn graft<N: NodeStore>(
    links: &mut N,
    root: &mut PlaceWord,
    parent: Option<Place>,
    side: Side,
    near: Option<Place>,
    place: Place,
    far: Option<Place>,
) -> bool
    requires { (k : Graft N.Entry) × IsGraft N.node (N.table links.old) root.old parent side near place far k }
    ensures grafted { Grafts N.node (N.table links.old) (N.table links.new) root.old root.new parent side near place far result }
    ensures keeps_links { N.KeepsLinks links.old links.new }
{
    set_child(links, place, side, far);
    set_child(links, place, other(side), near);
    set_parent(links, place, parent);
    adopt(links, near, Some(place));
    adopt(links, far, Some(place));
    match parent {
        None => {
            set_color(links, place, Color::Black);
            *root = PlaceWord::of(Some(place));
            true
        }
        Some(above) => {
            set_color(links, place, Color::Red);
            set_child(links, above, side, Some(place));
            insert_fixup(links, root, place, parent)
        }
    }
}

// Returns 1 for a black member, and 0 for a red member.
pub(crate) fn weight_of<N: NodeStore>(links: &N, place: Place) -> u32
    requires { IsNode N.node (N.table links.now) place }
    ensures { result ≡ weight (node_at N.node (N.table links.now) place).color }
{
    match links.color(place) {
        Color::Red => 0,
        Color::Black => 1,
    }
}

// Returns the number of black members on each path down in the tree with this root.
pub(crate) fn black_height<N: NodeStore>(links: &N, root: Option<Place>) -> u32
    requires { (t : Tree) × IsRootOf N.node (N.table links.now) root t × (height t < turns) }
    ensures { (t : Tree) → IsRootOf N.node (N.table links.now) root t → height t < turns → result ≡ blacks t }
{
    let mut at = root;
    let mut count = 0;
    for _ in 0..TURNS {
        let Some(place) = at else {
            return count;
        };
        count += weight_of(links, place);
        at = links.left(place);
    }
    count
}

// Goes down from `root` along the side `side` to the first subtree that has `want` black members on each path down, and whose root is black or missing. The
// whole tree has `count` black members on each path down. Returns the root of the subtree and the member above the subtree.
pub(crate) fn descend_spine<N: NodeStore>(
    links: &N,
    root: Option<Place>,
    side: Side,
    count: u32,
    want: u32,
) -> (Option<Place>, Option<Place>)
    requires { (base : Table N.Entry) × (t : Tree) × (ps : List Piece) × ClimbState N.node base (N.table links.now) root [] t ps × IsRight t
        × (count ≡ blacks t) × (want ≤ count) }
    ensures { (base : Table N.Entry) (t : Tree) (ps : List Piece) → ClimbState N.node base (N.table links.now) root [] t ps → IsRight t
        → count ≡ blacks t → want ≤ count → EndsBlack N.node base (N.table links.now) root side t ps result.0 result.1 want }
{
    let mut at = root;
    let mut above = None;
    let mut count = count;
    for _ in 0..TURNS {
        let Some(place) = at else {
            return (at, above);
        };
        let weight = weight_of(links, place);
        if weight == 1 && count == want {
            return (at, above);
        }
        above = at;
        count -= weight;
        at = child(links, place, side);
    }
    (at, above)
}

// Joins the trees `tall` and `low` with the linked place `place` between them. `tall` is at least as high as `low`, and `low` is on the side `side` of `place`.
pub(crate) fn join_higher<N: NodeStore>(
    links: &mut N,
    tall: Measured,
    side: Side,
    place: Place,
    low: Measured,
) -> Measured
    requires { (k : Pair N.Entry) × AreHigh N.node (N.table links.old) tall place low k }
    ensures joined { (k : Pair N.Entry) → AreHigh N.node (N.table links.old) tall place low k
        → IsJoined N.node k.base (N.table links.new) result (in_order (branch side Red k.two place k.one)) k.pieces }
    ensures keeps_links { N.KeepsLinks links.old links.new }
{
    let (near, parent) = descend_spine(&*links, tall.root, side, tall.height, low.height);
    let mut root = PlaceWord::of(tall.root);
    let grown = graft(links, &mut root, parent, side, near, place, low.root);
    Measured {
        root: root.get(),
        height: tall.height + u32::from(grown),
    }
}

// Joins two trees of known heights with a linked place between them, in time proportional to the difference of the
// heights.
pub(crate) fn join_measured<N: NodeStore>(
    links: &mut N,
    left: Measured,
    place: Place,
    right: Measured,
) -> Measured
    requires { (k : Pair N.Entry) × AreMeasured N.node (N.table links.old) left place right k }
    ensures joined { (k : Pair N.Entry) → AreMeasured N.node (N.table links.old) left place right k
        → IsJoined N.node k.base (N.table links.new) result (in_order k.one ++ place ∷ in_order k.two) k.pieces }
    ensures keeps_links { N.KeepsLinks links.old links.new }
{
    if right.height <= left.height {
        join_higher(links, left, Side::Right, place, right)
    } else {
        join_higher(links, right, Side::Left, place, left)
    }
}

// Joins two trees with a linked place between them.
pub(crate) fn join<N: NodeStore>(
    links: &mut N,
    left: Option<Place>,
    place: Place,
    right: Option<Place>,
) -> Option<Place>
    requires { (k : Pair N.Entry) × ArePair N.node (N.table links.old) left place right k }
    ensures joined { (k : Pair N.Entry) → ArePair N.node (N.table links.old) left place right k
        → Represented N.node k.base (N.table links.new) result (in_order k.one ++ place ∷ in_order k.two) k.pieces }
    ensures keeps_links { N.KeepsLinks links.old links.new }
{
    let left = Measured {
        root: left,
        height: black_height(&*links, left),
    };
    let right = Measured {
        root: right,
        height: black_height(&*links, right),
    };
    join_measured(links, left, place, right).root
}
