//! An insert position is a missing child, where an object belongs by its key. These functions return the member above the insert position, `None` in an empty
//! tree, and the side of this member.
//!
//! ```text
//! let (parent, side) = insert_pos_for(&links, &head, &objects, &mut probe); // a descent, or first a look at the last member if it is kept
//! let (parent, side) = insert_pos_near(&links, &head, hint, &objects, &mut probe); // two looks, or two at most and a descent
//! ```

ghost use Rattle.std.specs.Prelude.{◌≡◌, ◌+◌, ◌<◌, ◌≤◌, true, ℕ, Option, Some, IfSome, IfNone, List};
ghost use Rattle.ic_link_ops.specs.Prelude.{Place, is_placed, Cut, join, IsAfter, IsBefore, IsLinked, HasMember, RepresentsPlaced};
ghost use Rattle.ic_link_ops.specs.RedBlackTree.{Represents};
ghost use Rattle.ic_rbtree.specs.Borders.{less_at};
ghost use Rattle.ic_rbtree.specs.Comparing.{compared, HasRoom};
ghost use Rattle.ic_rbtree.specs.InsertPositions.{less_there, after_there, looks_there, IsInOrder, BelongsBefore, HintedLooks};
ghost use Rattle.ic_rbtree.specs.Insertion.{IsInsertPos};
ghost use Rattle.ic_rbtree.specs.Kept.{RepresentsKept, HasRoomFor, InsertLooks};

use crate::Probe;
use crate::bounded::step_bounded;
use crate::head::TreeHead;
use crate::keys::descent::descend;
use ic_link_ops::Side;
use ic_link_ops::rbtree::RBTreeOps;
use ic_unsafe_ref::{Place, Values};

// Whether the searched key is less than the key of the object at `at`. If `at` is null, the result is false, without a comparison.
#[inline]
fn is_less<V, P: Probe<V>, O: Values<V>>(objects: &O, probe: &mut P, at: Option<Place>) -> bool
    requires placed { IfSome at (λ p. is_placed (O.values objects.now) p ≡ true) }
    requires room { P.count probe.old < 18446744073709551615 }
    ensures less { result ≡ less_there (compared (P.order probe.old) (O.values objects.now)) at }
    ensures counted { P.count probe.new ≡ P.count probe.old + looks_there at }
    ensures same { P.order probe.new ≡ P.order probe.old }
{
    match at {
        Some(place) => probe.compare(objects.value(place)).is_lt(),
        None => false,
    }
}

// Whether the searched key is at least the key of the object at `at`. If `at` is null, the result is false, without a comparison.
#[inline]
fn is_after<V, P: Probe<V>, O: Values<V>>(objects: &O, probe: &mut P, at: Option<Place>) -> bool
    requires placed { IfSome at (λ p. is_placed (O.values objects.now) p ≡ true) }
    requires room { P.count probe.old < 18446744073709551615 }
    ensures after { result ≡ after_there (compared (P.order probe.old) (O.values objects.now)) at }
    ensures counted { P.count probe.new ≡ P.count probe.old + looks_there at }
    ensures same { P.order probe.new ≡ P.order probe.old }
{
    match at {
        Some(place) => !probe.compare(objects.value(place)).is_lt(),
        None => false,
    }
}

// The insert position where the searched key belongs. If the tree stores its last member, this member is compared first. If the searched key is not less, the
// insert position is after this member. Otherwise a descent finds the insert position.
#[inline]
pub(crate) fn insert_pos_for<E: TreeHead, L: RBTreeOps, V, P: Probe<V>, O: Values<V>>(
    links: &L,
    head: &E,
    objects: &O,
    probe: &mut P,
) -> (Option<Place>, Side)
    requires placed { RepresentsPlaced (RepresentsKept E.kept L.node (L.table links.now) head.now) (O.values objects.now) }
    requires room { HasRoomFor (E.kept head.now) (P.count probe.old) }
    ensures insert_pos { (s : List Place) → RepresentsKept E.kept L.node (L.table links.now) head.now s
        → IsInOrder L.node (L.table links.now) (compared (P.order probe.old) (O.values objects.now)) s result.0 result.1 }
    ensures looks { (s : List Place) → RepresentsKept E.kept L.node (L.table links.now) head.now s
        → InsertLooks P.order P.count (E.kept head.now) (O.values objects.now) probe.old probe.new s }
{
    let last = head.kept_last();
    if is_after(objects, probe, last) {
        return (last, Side::Right);
    }
    let insert_pos = descend(links, head.root(), objects, probe, Side::Right);
    (insert_pos.parent.get(), insert_pos.side)
}

// Returns the insert position in the gap between the neighbors `front` and `back`. If `back` is the first member, `front` is none. If `back` has no left
// subtree, the insert position is below `back`. Otherwise it is below `front`, which is the last member of this subtree.
#[inline]
fn insert_pos_between<L: RBTreeOps>(
    links: &L,
    front: Option<Place>,
    back: Place,
) -> (Option<Place>, Side)
    requires { IsLinked L.linked (L.table links.now) back }
    ensures { (root : Option Place) (gap : Cut) → Represents L.node (L.table links.now) root (join gap) → IsAfter gap front
        → IsBefore gap (Some back) → IsInsertPos L.node (L.table links.now) result.0 result.1 gap }
{
    match links.left(back) {
        None => (Some(back), Side::Left),
        Some(_) => (front, Side::Right),
    }
}

// Returns the insert position in the gap before the member at `place` if the searched key belongs there, otherwise `None`. The function compares this member,
// and if the searched key is less, also the member before it.
#[inline]
fn insert_pos_before<L: RBTreeOps, V, P: Probe<V>, O: Values<V>>(
    links: &L,
    root: Option<Place>,
    place: Place,
    objects: &O,
    probe: &mut P,
) -> Option<(Option<Place>, Side)>
    requires placed { RepresentsPlaced (Represents L.node (L.table links.now) root) (O.values objects.now) }
    requires member { HasMember (Represents L.node (L.table links.now) root) place }
    requires room { P.count probe.old + 1 < 18446744073709551615 }
    ensures insert_pos { IfSome result (λ insert_pos. (s : List Place) → Represents L.node (L.table links.now) root s
        → IsInOrder L.node (L.table links.now) (compared (P.order probe.old) (O.values objects.now)) s insert_pos.0 insert_pos.1) }
    ensures elsewhere { IfNone result ((s : List Place) → Represents L.node (L.table links.now) root s
        → BelongsBefore (less_at (compared (P.order probe.old) (O.values objects.now))) place s → ⊥) }
    ensures counted { (looks : ℕ) × (P.count probe.new ≡ P.count probe.old + looks) × (looks ≤ 2) }
    ensures same { P.order probe.new ≡ P.order probe.old }
{
    if !is_less(objects, probe, Some(place)) {
        return None;
    }
    let front = step_bounded(links, root, Some(place), Side::Left);
    if is_less(objects, probe, front) {
        return None;
    }
    Some(insert_pos_between(links, front, place))
}

// The insert position where the searched key belongs: before the member at `hint`, or otherwise where a descent ends.
#[inline]
pub(crate) fn insert_pos_near<L: RBTreeOps, V, P: Probe<V>, O: Values<V>>(
    links: &L,
    root: Option<Place>,
    hint: Place,
    objects: &O,
    probe: &mut P,
) -> (Option<Place>, Side)
    requires placed { RepresentsPlaced (Represents L.node (L.table links.now) root) (O.values objects.now) }
    requires member { HasMember (Represents L.node (L.table links.now) root) hint }
    requires room { HasRoom (P.count probe.old + 2) }
    ensures insert_pos { (s : List Place) → Represents L.node (L.table links.now) root s
        → IsInOrder L.node (L.table links.now) (compared (P.order probe.old) (O.values objects.now)) s result.0 result.1 }
    ensures looks { (s : List Place) → Represents L.node (L.table links.now) root s
        → HintedLooks P.order P.count (O.values objects.now) hint probe.old probe.new s }
{
    if let Some(insert_pos) = insert_pos_before(links, root, hint, objects, probe) {
        return insert_pos;
    }
    let insert_pos = descend(links, root, objects, probe, Side::Right);
    (insert_pos.parent.get(), insert_pos.side)
}
