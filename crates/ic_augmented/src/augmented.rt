//! Links and summaries together are a table of tree links like any other.
//!
//! ```text
//! let mut summed = Augmented { links, summaries };
//! tree.insert_keyed(&mut summed, object)?; // marks summaries as stale
//! ```

ghost use Rattle.ic_augmented.specs.Augmented.{links_of, summaries_of};

use crate::stale::invalidate_up;
use crate::summaries::Summaries;
use ic_link_ops::rbtree::RBTreeOps;
use ic_link_ops::{Color, LinkOps, LinkValues};
use ic_unsafe_ref::{Place, Values};

/// A table of links, and a table of the summaries beside them.
#[derive(Drop)]
pub struct Augmented<N, M> {
    pub links: N,
    pub summaries: M,
}

/// If a link is acquired or released, the summary of its place becomes stale, and so do the summaries above the place.
impl<L: RBTreeOps, M: Summaries> LinkOps for Augmented<L, M> {
    ghost use Rattle.std.specs.Prelude.{◌≡◌, [], ◌++◌};
    ghost use Rattle.ic_augmented.specs.MarkLaws.{marks_still, marks_on};
    ghost use Rattle.ic_augmented.specs.StepLaws.{right_still, right_on};
    ghost use Rattle.ic_augmented.specs.AugmentedSteps.{TraceAugmented};
    ghost use Rattle.std.proofs.Common.{refl, ap, ◌∙◌};

    type Entry = L::Entry;

    ghost table = { λ t. L.table (links_of t) };

    ghost linked = { L.linked };

    ghost CanName = { L.CanName };

    ghost Trace = { TraceAugmented L.Trace L.node L.table M.summaries M.Covers };

    ghost Refused = { λ old new place. L.Refused (links_of old) (links_of new) place × (summaries_of new ≡ summaries_of old) };

    #[inline]
    fn acquire_link(&mut self, place: Place) -> bool {
        if !self.links.acquire_link(place) {
            return false;
        }
        invalidate_up(&self.links, &mut self.summaries, place);
        true
    }

    #[inline]
    fn release_link(&mut self, place: Place) {
        self.links.release_link(place);
        invalidate_up(&self.links, &mut self.summaries, place);
    }

    ghost linked_is_covered = { λ t place is. L.linked_is_covered (links_of t) place is };

    ghost covered_has_name = { λ t place covered. L.covered_has_name (links_of t) place covered };

    ghost does_nothing = { λ t. record { links = L.does_nothing (links_of t); right = right_still L.node (L.table (links_of t)) (M.summaries (summaries_of t)); marks = marks_still (M.summaries (summaries_of t)); covers = λ q h. h; join = refl } };

    ghost does_on = { λ a b c s t x y. record { links = L.does_on (links_of a) (links_of b) (links_of c) s t x.links y.links; right = right_on L.node (L.table (links_of a)) (L.table (links_of b)) (L.table (links_of c)) (M.summaries (summaries_of a)) (M.summaries (summaries_of b)) (M.summaries (summaries_of c)) s t x.right y.right; marks = marks_on x.marks y.marks; covers = λ q h. y.covers q (x.covers q h); join = y.join ∙ x.join } };

    ghost does_replay = { λ old new s x. L.does_replay (links_of old) (links_of new) s x.links };

    ghost refused_keeps = { λ old new place x. L.refused_keeps (links_of old) (links_of new) place x.0 };
}

/// Each write of a child makes the summaries above the child stale.
impl<L: RBTreeOps, M: Summaries> RBTreeOps for Augmented<L, M> {
    ghost node = { L.node };

    #[inline]
    fn left(&self, place: Place) -> Option<Place> {
        self.links.left(place)
    }

    #[inline]
    fn right(&self, place: Place) -> Option<Place> {
        self.links.right(place)
    }

    #[inline]
    fn parent(&self, place: Place) -> Option<Place> {
        self.links.parent(place)
    }

    #[inline]
    fn color(&self, place: Place) -> Color {
        self.links.color(place)
    }

    #[inline]
    fn set_left(&mut self, place: Place, left: Option<Place>) {
        invalidate_up(&self.links, &mut self.summaries, place);
        self.links.set_left(place, left);
    }

    #[inline]
    fn set_right(&mut self, place: Place, right: Option<Place>) {
        invalidate_up(&self.links, &mut self.summaries, place);
        self.links.set_right(place, right);
    }

    #[inline]
    fn set_parent(&mut self, place: Place, parent: Option<Place>) {
        self.links.set_parent(place, parent);
    }

    #[inline]
    fn set_color(&mut self, place: Place, color: Color) {
        self.links.set_color(place, color);
    }

    #[inline]
    fn set_parent_and_color(&mut self, place: Place, parent: Option<Place>, color: Color) {
        self.links.set_parent_and_color(place, parent, color);
    }

    ghost linked_alike = { λ e. L.linked_alike e };
}

/// The values that are stored beside the links.
impl<V, L: Values<V>, M> Values<V> for Augmented<L, M> {
    ghost values = { λ t. L.values (links_of t) };

    #[inline]
    fn value(&self, place: Place) -> &V {
        self.links.value(place)
    }
}

/// If a value is set, the summary of its place becomes stale, and so do the summaries above the place.
impl<V, L: RBTreeOps + LinkValues<V>, M: Summaries> LinkValues<V> for Augmented<L, M> {
    ghost LinksAlike = { L.LinksAlike };

    #[inline]
    fn set_value(&mut self, place: Place, value: V) {
        self.links.set_value(place, value);
        invalidate_up(&self.links, &mut self.summaries, place);
    }

    ghost covered_has_value = { λ t place covered. L.covered_has_value (links_of t) place covered };

    ghost values_stay = { λ old new same. L.values_stay (links_of old) (links_of new) same };
}
