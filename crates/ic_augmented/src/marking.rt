//! An edit of a tree inserts or removes one place. It writes to links and summaries by a `Marking`, which also records the edge. The edge is the place above
//! the summaries that the edit makes stale.
//!
//! ```text
//! let edge = attach_marking(&mut tree, &mut summed, parent, side, place); // its summary is as it was
//! let edge = unlink_marking(&mut tree, &mut summed, place);
//! ```

ghost use Rattle.std.specs.Prelude.{◌≡◌, ◌⊎◌, Bool, true, Some, None, List, [], ◌∷◌, ◌++◌};
ghost use Rattle.ic_link_ops.specs.Prelude.{Place, Cut, join, insert, IsDistinct};
ghost use Rattle.ic_link_ops.specs.RedBlackTree.{Represents};
ghost use Rattle.ic_rbtree.specs.Prelude.{AreIn, IsClosed, IsClosedBut, Attaches, TakesAway};
ghost use Rattle.ic_rbtree.specs.Kept.{TellsEnds, IsBelow};
ghost use Rattle.ic_rbtree.specs.Tree.{head_of, root_in, adapter_of};
ghost use Rattle.ic_augmented.specs.Beside.{StaysInside};
ghost use Rattle.ic_augmented.specs.Consistent.{KeepsEdge};
ghost use Rattle.ic_augmented.specs.Marking.{links_in, MarksOnly, MarksBelow};
ghost use Rattle.ic_augmented.specs.Augmented.{links_of, summaries_of};

use crate::augmented::Augmented;
use crate::stale::invalidate_from;
use crate::summaries::Summaries;
use ic_link_ops::Side;
use ic_rbtree::{Color, NodeStore, RBTree, TreeHead};
use ic_unsafe_ref::Place;
use std::marker::{Brand, PhantomData};

/// A fence is the set of places at which an edit may write. The caller of the edit chooses it.
pub(crate) trait Fence {
    ghost inside: { Place → Bool };
}

impl Fence for Brand {
    ghost inside = { λ q. true };
}

/// Links and summaries during an edit, together with the edge. The edge is the place, if any, whose child was written and whose summary was left as it
/// was.
///
/// A place outside the fence counts as not linked. An edit requires that each place which it writes is linked, so it writes only inside the
/// fence.
pub(crate) struct Marking<'a, N, M, F> {
    summed: &'a mut Augmented<N, M>,
    edge: Option<Place>,
    fence: PhantomData<F>,
}

impl<'a, N, M, F> Marking<'a, N, M, F> {
    ghost use Rattle.ic_augmented.specs.Marking.{edge_in, Borrows};

    // Borrows the links and the summaries of `summed`, and begins with the edge `edge`.
    #[inline]
    fn new(summed: &'a mut Augmented<N, M>, edge: Option<Place>) -> Marking<'a, N, M, F>
        ensures borrows { Borrows summed.entry result }
        ensures edge { edge_in result ≡ edge }
    {
        Marking {
            summed,
            edge,
            fence: PhantomData,
        }
    }
}

// Does what `invalidate_from` does, for a value that has both the links and the summaries.
#[inline]
fn invalidate_in<N: NodeStore, M: Summaries>(
    summed: &mut Augmented<N, M>,
    edge: Option<Place>,
    place: Place,
) -> Option<Place>
    ensures writable { ((M.summaries (summaries_of summed.new)).fresh place ≡ None) ⊎ (result ≡ Some place) }
    ensures covers { (q : Place) → M.Covers (summaries_of summed.old) q → M.Covers (summaries_of summed.new) q }
    ensures edge { KeepsEdge N.node (N.table (links_of summed.old)) (N.table (links_of summed.new)) (M.summaries (summaries_of summed.old)) (M.summaries (summaries_of summed.new)) edge result }
    ensures beside { (inside : Place → Bool) → inside place ≡ true
        → StaysInside (M.summaries (summaries_of summed.old)) (M.summaries (summaries_of summed.new)) edge result inside }
    ensures links { links_of summed.new ≡ links_of summed.old }
{
    invalidate_from(&summed.links, &mut summed.summaries, edge, place)
}

/// A write of a child at a place with a fresh summary makes this summary stale, or makes the place the edge. If the place becomes the edge, the summaries from
/// the old edge up to the place become stale.
impl<N: NodeStore, M: Summaries, F: Fence> NodeStore for Marking<'_, N, M, F> {
    ghost use Rattle.ic_augmented.specs.Fences.{fenced, fenced_node};
    ghost use Rattle.ic_augmented.specs.Marking.{summaries_in, edge_in};
    ghost use Rattle.ic_augmented.specs.MarkLaws.{marks_still, marks_on, inside_still, inside_on};
    ghost use Rattle.std.proofs.Common.{refl, ap, ◌&&◌, ◌∙◌};

    type Entry = (bool, N::Entry);

    ghost table = { λ t. fenced F.inside (N.table (links_in t)) };

    ghost node = { fenced_node N.node };

    ghost KeepsLinks = { MarksOnly N.KeepsLinks N.node N.table M.summaries M.Covers F.inside };

    #[inline]
    fn left(&self, place: Place) -> Option<Place> {
        self.summed.links.left(place)
    }

    #[inline]
    fn right(&self, place: Place) -> Option<Place> {
        self.summed.links.right(place)
    }

    #[inline]
    fn parent(&self, place: Place) -> Option<Place> {
        self.summed.links.parent(place)
    }

    #[inline]
    fn color(&self, place: Place) -> Color {
        self.summed.links.color(place)
    }

    #[inline]
    fn set_left(&mut self, place: Place, left: Option<Place>) {
        self.edge = invalidate_in(self.summed, self.edge, place);
        self.summed.links.set_left(place, left);
    }

    #[inline]
    fn set_right(&mut self, place: Place, right: Option<Place>) {
        self.edge = invalidate_in(self.summed, self.edge, place);
        self.summed.links.set_right(place, right);
    }

    #[inline]
    fn set_parent(&mut self, place: Place, parent: Option<Place>) {
        self.summed.links.set_parent(place, parent);
    }

    #[inline]
    fn set_color(&mut self, place: Place, color: Color) {
        self.summed.links.set_color(place, color);
    }

    #[inline]
    fn set_parent_and_color(&mut self, place: Place, parent: Option<Place>, color: Color) {
        self.summed.links.set_parent_and_color(place, parent, color);
    }

    ghost keeps_links_still = { λ t. record { name = refl; keeps_links = N.keeps_links_still (links_in t); consistent = λ s h. h; marks = marks_still (M.summaries (summaries_in t)); beside = inside_still (M.summaries (summaries_in t)) (edge_in t) F.inside; covers = λ q h. h; join = refl } };

    ghost keeps_links_on = { λ a b c x y. record { name = y.name ∙ x.name; keeps_links = N.keeps_links_on (links_in a) (links_in b) (links_in c) x.keeps_links y.keeps_links; consistent = λ s h. y.consistent s (x.consistent s h); marks = marks_on x.marks y.marks; beside = inside_on (edge_in a) (edge_in b) (edge_in c) F.inside x.marks x.beside y.beside; covers = λ q h. y.covers q (x.covers q h); join = y.join ∙ x.join } };

    ghost keeps_links_keeps = { λ old new x q. ap (λ is. F.inside q && is) (N.keeps_links_keeps (links_in old) (links_in new) x.keeps_links q) };
}

// Inserts `place`, as `RBTree::attach` does. The tree and `place` are inside the fence, and the call writes nothing outside the fence.
fn attach_inside<F: Fence, A, E: TreeHead, N: NodeStore, M: Summaries>(
    tree: &mut RBTree<A, E>,
    marking: &mut Marking<'_, N, M, F>,
    parent: Option<Place>,
    side: Side,
    place: Place,
)
    requires closed { IsClosedBut N.node (N.table (links_in marking.old)) (root_in E.kept tree.old) (Some place) F.inside }
    requires inside { AreIn F.inside (Some place ∷ parent ∷ []) }
    ensures attached { Attaches N.node (N.table (links_in marking.old)) (N.table (links_in marking.new)) (root_in E.kept tree.old) (root_in E.kept tree.new) parent side place }
    ensures ends { (gap : Cut) → IsBelow parent side gap → IsDistinct (join gap) → TellsEnds (E.kept (head_of tree.old)) (join gap)
        → TellsEnds (E.kept (head_of tree.new)) (insert gap place) }
    ensures keeps_links { MarksOnly N.KeepsLinks N.node N.table M.summaries M.Covers F.inside marking.old marking.new }
    ensures adapter { adapter_of tree.new ≡ adapter_of tree.old }
{
    tree.attach(marking, parent, side, place);
}

// Inserts `place`, as `RBTree::attach` does, and returns the edge, which is the place above the stale summaries. The edge's own summary is unchanged and may be
// wrong. If the parents that are stored inside the fence are inside the fence, too, no summary outside the fence changes. At first the edge is `parent`,
// because the edit writes its child in any case.
pub(crate) fn attach_marking<F: Fence, A, E: TreeHead, N: NodeStore, M: Summaries>(
    tree: &mut RBTree<A, E>,
    summed: &mut Augmented<N, M>,
    parent: Option<Place>,
    side: Side,
    place: Place,
) -> Option<Place>
    requires closed { IsClosedBut N.node (N.table (links_of summed.old)) (root_in E.kept tree.old) (Some place) F.inside }
    requires inside { AreIn F.inside (Some place ∷ parent ∷ []) }
    ensures attached { Attaches N.node (N.table (links_of summed.old)) (N.table (links_of summed.new)) (root_in E.kept tree.old) (root_in E.kept tree.new) parent side place }
    ensures ends { (gap : Cut) → IsBelow parent side gap → IsDistinct (join gap) → TellsEnds (E.kept (head_of tree.old)) (join gap)
        → TellsEnds (E.kept (head_of tree.new)) (insert gap place) }
    ensures marked { MarksBelow N.KeepsLinks N.node N.table M.summaries M.Covers F.inside summed.old summed.new result }
    ensures adapter { adapter_of tree.new ≡ adapter_of tree.old }
{
    let mut marking: Marking<'_, N, M, F> = Marking::new(summed, parent);
    attach_inside(tree, &mut marking, parent, side, place);
    let Marking {
        summed: _,
        edge,
        fence: _,
    } = marking;
    edge
}

// Removes the member `place`, as `RBTree::unlink` does. The tree is inside the fence, and the call writes nothing outside the fence.
fn unlink_inside<F: Fence, A, E: TreeHead, N: NodeStore, M: Summaries>(
    tree: &mut RBTree<A, E>,
    marking: &mut Marking<'_, N, M, F>,
    place: Place,
)
    requires closed { IsClosed N.node (N.table (links_in marking.old)) (root_in E.kept tree.old) F.inside }
    requires inside { F.inside place ≡ true }
    ensures taken { TakesAway N.node (N.table (links_in marking.old)) (N.table (links_in marking.new)) (root_in E.kept tree.old) (root_in E.kept tree.new) place }
    ensures ends { (front back : List Place) → Represents N.node (N.table (links_in marking.old)) (root_in E.kept tree.old) (front ++ place ∷ back)
        → TellsEnds (E.kept (head_of tree.old)) (front ++ place ∷ back) → TellsEnds (E.kept (head_of tree.new)) (front ++ back) }
    ensures keeps_links { MarksOnly N.KeepsLinks N.node N.table M.summaries M.Covers F.inside marking.old marking.new }
    ensures adapter { adapter_of tree.new ≡ adapter_of tree.old }
{
    tree.unlink(marking, place);
}

// Removes the member `place`, as `RBTree::unlink` does, and returns the edge, which is the place above the stale summaries. The edge's own summary is unchanged
// and may be wrong. If the parents that are stored inside the fence are inside the fence, too, no summary outside the fence changes.
pub(crate) fn unlink_marking<F: Fence, A, E: TreeHead, N: NodeStore, M: Summaries>(
    tree: &mut RBTree<A, E>,
    summed: &mut Augmented<N, M>,
    place: Place,
) -> Option<Place>
    requires closed { IsClosed N.node (N.table (links_of summed.old)) (root_in E.kept tree.old) F.inside }
    requires inside { F.inside place ≡ true }
    ensures taken { TakesAway N.node (N.table (links_of summed.old)) (N.table (links_of summed.new)) (root_in E.kept tree.old) (root_in E.kept tree.new) place }
    ensures ends { (front back : List Place) → Represents N.node (N.table (links_of summed.old)) (root_in E.kept tree.old) (front ++ place ∷ back)
        → TellsEnds (E.kept (head_of tree.old)) (front ++ place ∷ back) → TellsEnds (E.kept (head_of tree.new)) (front ++ back) }
    ensures marked { MarksBelow N.KeepsLinks N.node N.table M.summaries M.Covers F.inside summed.old summed.new result }
    ensures adapter { adapter_of tree.new ≡ adapter_of tree.old }
{
    let mut marked: Marking<'_, N, M, F> = Marking::new(summed, None);
    unlink_inside(tree, &mut marked, place);
    let Marking {
        summed: _,
        edge,
        fence: _,
    } = marked;
    edge
}
