//! The descent from the root to the gap where a key belongs, with one comparison for each member on the path.

ghost use Rattle.std.specs.Prelude.{◌≡◌, ◌+◌, ◌<◌, true, IsSome, cond, List};
ghost use Rattle.std.specs.Bool.{OnTrue};
ghost use Rattle.std.specs.Ordering.{is_eq};
ghost use Rattle.std.specs.declared.cmp.Ordering.{Ordering};
ghost use Rattle.ic_link_ops.specs.Prelude.{Place, is_placed, RepresentsPlaced};
ghost use Rattle.ic_link_ops.specs.RedBlackTree.{Represents};
ghost use Rattle.ic_rbtree.specs.Comparing.{compared, goes_left, HasRoom, Looks};
ghost use Rattle.ic_rbtree.specs.Descents.{at_root, passed, is_equal, EndsAt};

use crate::Probe;
use crate::readings::is_at;
use ic_link_ops::rbtree::RBTreeOps;
use ic_link_ops::{PlaceWord, Side};
use ic_unsafe_ref::{Place, Values};
use std::cmp::Ordering;

/// The state of a search from the root: the gap between two members that the search has reached.
#[derive(Drop)]
pub struct Descent {
    /// The member below which the gap is, `None` in an empty tree.
    pub parent: PlaceWord,
    /// The side of the member `parent` on which the gap is.
    pub side: Side,
    /// The member before the gap.
    pub front: PlaceWord,
    /// The member after the gap.
    pub back: PlaceWord,
    /// The last member that compared equal, which may be after the gap.
    pub(crate) equal: PlaceWord,
}

// Whether a descent goes left at a member with which the searched key compares as `order`. At an equal member the descent goes to the side `equals`.
#[inline]
fn goes_left(order: Ordering, equals: Side) -> bool
    ensures { result ≡ goes_left equals order }
{
    match equals {
        Side::Left => order.is_le(),
        Side::Right => order.is_lt(),
    }
}

// How the searched key compares with the object of a member.
#[inline]
fn compare_at<V, P: Probe<V>, O: Values<V>>(objects: &O, probe: &mut P, place: Place) -> Ordering
    requires placed { is_placed (O.values objects.now) place ≡ true }
    requires room { P.count probe.old < 18446744073709551615 }
    ensures answer { result ≡ compared (P.order probe.old) (O.values objects.now) place }
    ensures counted { P.count probe.new ≡ P.count probe.old + 1 }
    ensures same { P.order probe.new ≡ P.order probe.old }
{
    probe.compare(objects.value(place))
}

impl Descent {
    /// Whether the member after the gap compared equal. The call compares only places. O(1).
    #[inline]
    pub fn is_equal(&self) -> bool
        ensures { result ≡ is_equal self.now }
    {
        match self.back.get() {
            Some(place) => is_at(self.equal.get(), place),
            None => false,
        }
    }

    // The state of a descent at the root, before it has compared any member.
    #[inline]
    pub(crate) fn new() -> Descent
        ensures { result ≡ at_root }
    {
        Descent {
            parent: PlaceWord::of(None),
            side: Side::Left,
            front: PlaceWord::of(None),
            back: PlaceWord::of(None),
            equal: PlaceWord::of(None),
        }
    }

    // Compares the searched key with the member at `place`, and goes down to the left or to the right of this member. Returns whether the descent went
    // left.
    #[inline]
    pub(crate) fn compare<V, P: Probe<V>, O: Values<V>>(
        &mut self,
        objects: &O,
        probe: &mut P,
        place: Place,
        equals: Side,
    ) -> bool
        requires placed { is_placed (O.values objects.now) place ≡ true }
        requires room { P.count probe.old < 18446744073709551615 }
        ensures passed { self.new ≡ passed self.old place result (is_eq (compared (P.order probe.old) (O.values objects.now) place)) }
        ensures left { result ≡ goes_left equals (compared (P.order probe.old) (O.values objects.now) place) }
        ensures counted { P.count probe.new ≡ P.count probe.old + 1 }
        ensures same { P.order probe.new ≡ P.order probe.old }
    {
        let order = compare_at(objects, probe, place);
        let left = goes_left(order, equals);
        self.pass(place, left, order.is_eq());
        left
    }

    // Updates the state as the descent goes down from the member at `place`: to the left if `left` is true, otherwise to the right.
    #[inline]
    fn pass(&mut self, place: Place, left: bool, equal: bool)
        ensures { self.new ≡ passed self.old place left equal }
    {
        self.parent = PlaceWord::of(Some(place));
        if equal {
            self.equal = PlaceWord::of(Some(place));
        }
        if left {
            self.side = Side::Left;
            self.back = PlaceWord::of(Some(place));
        } else {
            self.side = Side::Right;
            self.front = PlaceWord::of(Some(place));
        }
    }
}

// Returns `left` if `takes_left` is true, otherwise `right`. The function selects one of two link words, for which the processor needs no branch.
#[inline]
fn pick(takes_left: bool, left: Option<Place>, right: Option<Place>) -> Option<Place>
    ensures { result ≡ cond takes_left left right }
{
    let picked = if takes_left {
        PlaceWord::of(left)
    } else {
        PlaceWord::of(right)
    };
    picked.get()
}

// Whether `left` and `right`, the children of a member, both exist.
#[inline]
fn are_some(left: Option<Place>, right: Option<Place>) -> bool
    ensures { OnTrue result (IsSome left × IsSome right) }
{
    left.is_some() && right.is_some()
}

// Goes down from the root to a gap. The descent goes left at members that are greater than the searched key, right at members that are less, and to the
// side `equals` at members that are equal.
//
// The loop loads both children and selects one, so the processor has no branch to predict. For random keys it would mispredict half of the branches. When
// `are_some` is called, the selected child is missing, so the result is always false. This call makes the compiler keep both loads. Without the call the
// compiler would merge them into one load from a selected address.
#[inline]
pub(crate) fn descend<L: RBTreeOps, V, P: Probe<V>, O: Values<V>>(
    links: &L,
    root: Option<Place>,
    objects: &O,
    probe: &mut P,
    equals: Side,
) -> Descent
    requires placed { RepresentsPlaced (Represents L.node (L.table links.now) root) (O.values objects.now) }
    requires room { HasRoom (P.count probe.old) }
    ensures ends { (s : List Place) (h : Represents L.node (L.table links.now) root s)
        → EndsAt L.node (L.table links.now) (compared (P.order probe.old) (O.values objects.now)) equals h.tree result }
    ensures looks { (s : List Place) → Represents L.node (L.table links.now) root s
        → Looks P.order P.count probe.old probe.new s }
{
    let mut descent = Descent::new();
    let mut at = root;
    while let Some(place) = at {
        let left = links.left(place);
        let right = links.right(place);
        let goes_left = descent.compare(objects, probe, place, equals);
        let Some(next) = pick(goes_left, left, right) else {
            if are_some(left, right) {
                return Descent::new();
            }
            return descent;
        };
        at = Some(next);
    }
    descent
}
