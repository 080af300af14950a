//! Inserts a place into a tree, and repairs the colors. The cases are numbered as in RB-INSERT-FIXUP of Cormen,
//! Leiserson, Rivest and Stein.

ghost use Rattle.std.specs.Prelude.{Option, Some, [], ◌∷◌};
ghost use Rattle.ic_unsafe_ref.specs.declared.place.Place.{Place};
ghost use Rattle.ic_rbtree.specs.Closed.{IsNode, IsSafe, IsSafeBut, StaysClosed, StaysClosedBut, ClosesAt};
ghost use Rattle.ic_rbtree.specs.Insertion.{FixesRedParent, FixesInsertion, FixesRedPair, FixesRedPairOn, Recolors, RotatesInnerGrandchild, Attaches};

use crate::nodes::NodeStore;
use crate::readings::{child, color_here, is_across, is_red, other, side_of};
use crate::repair::TURNS;
use crate::repair::writers::{rotate, set_child, set_color, set_node};
use ic_link_ops::{Color, PlaceWord, Side};
use ic_unsafe_ref::Place;

// Case 1, the uncle is red: `parent` and `uncle`, the children of `grand`, turn black, and `grand` turns red unless it is the root.
pub(crate) fn recolor<N: NodeStore>(links: &mut N, parent: Place, uncle: Place, grand: Place)
    requires parent { IsNode N.node (N.table links.old) parent }
    requires uncle { IsNode N.node (N.table links.old) uncle }
    requires grand { IsNode N.node (N.table links.old) grand }
    ensures recolored { Recolors N.node (N.table links.old) (N.table links.new) parent uncle grand }
    ensures safe { (root : Option Place) → StaysClosedBut N.node (N.table links.old) (N.table links.new) root root [] }
    ensures keeps_links { N.KeepsLinks links.old links.new }
{
    let color = color_here(&*links, grand);
    set_color(links, parent, Color::Black);
    set_color(links, uncle, Color::Black);
    set_color(links, grand, color);
}

// Case 2, `place` is an inner grandchild: it is rotated above `parent`, and then `parent` is an outer grandchild. `parent` is on the side `side` of the
// grandparent, so `place` is an inner grandchild if it is on the other side of `parent`. Returns the upper one of `place` and `parent`.
#[inline(always)]
pub(crate) fn rotate_inner_grandchild<N: NodeStore>(
    links: &mut N,
    root: &mut PlaceWord,
    place: Place,
    parent: Place,
    side: Side,
) -> Place
    requires { IsSafe N.node (N.table links.old) root.old (Some place ∷ Some parent ∷ []) }
    ensures outer_grandchild { RotatesInnerGrandchild N.node (N.table links.old) (N.table links.new) root.old root.new place parent side result }
    ensures safe { StaysClosed N.node (N.table links.old) (N.table links.new) root.old root.new (Some place ∷ Some parent ∷ []) (Some result ∷ []) }
    ensures keeps_links { N.KeepsLinks links.old links.new }
{
    let low = side_of(&*links, place, parent);
    if !is_across(low, side) {
        return parent;
    }
    rotate(links, root, parent, place, side, Color::Red, Color::Red);
    place
}

// One step of the repair, where `parent` is on the side `side` of `grand`. Returns the place of the next step, or `None` if this step was the last. If the
// uncle is red, the step is case 1. Otherwise the red child of `upper` is an outer grandchild, if need be after case 2, and case 3 rotates `upper` above
// `grand`.
#[inline(always)]
pub(crate) fn fix_red_pair_on<N: NodeStore>(
    links: &mut N,
    root: &mut PlaceWord,
    place: Place,
    parent: Place,
    grand: Place,
    side: Side,
) -> Option<Place>
    requires { IsSafe N.node (N.table links.old) root.old (Some place ∷ Some parent ∷ Some grand ∷ []) }
    ensures fixed { FixesRedPairOn N.node (N.table links.old) (N.table links.new) root.old root.new place parent grand side result }
    ensures safe { StaysClosed N.node (N.table links.old) (N.table links.new) root.old root.new (Some place ∷ Some parent ∷ Some grand ∷ []) (result ∷ []) }
    ensures keeps_links { N.KeepsLinks links.old links.new }
{
    let far = other(side);
    let uncle = child(&*links, grand, far);
    if is_red(&*links, uncle) {
        let red = uncle?;
        recolor(links, parent, red, grand);
        return Some(grand);
    }
    let upper = rotate_inner_grandchild(links, root, place, parent, side);
    rotate(links, root, grand, upper, far, Color::Red, Color::Black);
    None
}

// One step of the repair, for the side of `grand` on which `parent` is. Each side has compiled code of its own, which does not test the side again.
#[inline(always)]
pub(crate) fn fix_red_pair<N: NodeStore>(
    links: &mut N,
    root: &mut PlaceWord,
    place: Place,
    parent: Place,
    grand: Place,
) -> Option<Place>
    requires { IsSafe N.node (N.table links.old) root.old (Some place ∷ Some parent ∷ Some grand ∷ []) }
    ensures fixed { FixesRedPair N.node (N.table links.old) (N.table links.new) root.old root.new place parent grand result }
    ensures safe { StaysClosed N.node (N.table links.old) (N.table links.new) root.old root.new (Some place ∷ Some parent ∷ Some grand ∷ []) (result ∷ []) }
    ensures keeps_links { N.KeepsLinks links.old links.new }
{
    match side_of(&*links, parent, grand) {
        Side::Left => fix_red_pair_on(links, root, place, parent, grand, Side::Left),
        Side::Right => fix_red_pair_on(links, root, place, parent, grand, Side::Right),
    }
}

// One step of the repair at the red member `place`, whose parent `parent` may be black or none. Returns the place of the next step, or `None` if this step was
// the last.
#[inline(always)]
pub(crate) fn fix_red_parent<N: NodeStore>(
    links: &mut N,
    root: &mut PlaceWord,
    place: Place,
    parent: Option<Place>,
) -> Option<Place>
    requires { IsSafe N.node (N.table links.old) root.old (Some place ∷ parent ∷ []) }
    ensures fixed { FixesRedParent N.node (N.table links.old) (N.table links.new) root.old root.new place parent result }
    ensures safe { StaysClosed N.node (N.table links.old) (N.table links.new) root.old root.new (Some place ∷ parent ∷ []) (result ∷ []) }
    ensures keeps_links { N.KeepsLinks links.old links.new }
{
    let parent = parent?;
    if !is_red(&*links, Some(parent)) {
        return None;
    }
    let grand = links.parent(parent)?;
    fix_red_pair(links, root, place, parent, grand)
}

/// Repairs the colors above `place`, a member that was inserted red below `parent`, in O(log n): RB-INSERT-FIXUP. Returns whether the repair has reached the
/// root. If it has, each path down has one black member more.
#[inline(always)]
pub(crate) fn insert_fixup<N: NodeStore>(
    links: &mut N,
    root: &mut PlaceWord,
    place: Place,
    parent: Option<Place>,
) -> bool
    requires { IsSafe N.node (N.table links.old) root.old (Some place ∷ parent ∷ []) }
    ensures restored { FixesInsertion N.node (N.table links.old) (N.table links.new) root.old root.new place parent result }
    ensures safe { StaysClosed N.node (N.table links.old) (N.table links.new) root.old root.new (Some place ∷ parent ∷ []) [] }
    ensures keeps_links { N.KeepsLinks links.old links.new }
{
    let mut place = place;
    let mut parent = parent;
    for _ in 0..TURNS {
        let Some(upper) = fix_red_parent(links, root, place, parent) else {
            return parent.is_none();
        };
        place = upper;
        parent = links.parent(place);
    }
    false
}

// Inserts `place`, which is linked and in no collection, as the child of `parent` on the side `side`. If `parent` is none, the tree is empty.
#[inline(always)]
pub(crate) fn attach<N: NodeStore>(
    links: &mut N,
    root: &mut PlaceWord,
    parent: Option<Place>,
    side: Side,
    place: Place,
)
    requires { IsSafeBut N.node (N.table links.old) root.old place (Some place ∷ parent ∷ []) }
    ensures attached { Attaches N.node (N.table links.old) (N.table links.new) root.old root.new parent side place }
    ensures safe { ClosesAt N.node (N.table links.old) (N.table links.new) root.old root.new place (Some place ∷ parent ∷ []) }
    ensures keeps_links { N.KeepsLinks links.old links.new }
{
    match parent {
        None => {
            set_node(links, place, None, None, None, Color::Black);
            *root = PlaceWord::of(Some(place));
        }
        Some(above) => {
            set_node(links, place, None, None, parent, Color::Red);
            set_child(links, above, side, Some(place));
            insert_fixup(links, root, place, parent);
        }
    }
}
