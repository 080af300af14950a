//! Calls that link a place and insert it, that remove a member and unlink it, or that replace a member by a place.
//!
//! The repair follows Cormen, Leiserson, Rivest and Stein, Introduction to Algorithms, chapter 13, with three departures. Mirrored cases are written once,
//! by sides, and compiled for each side. A missing child has no node. A child without a sibling that takes its parent's position turns black at once,
//! because it was red.

ghost use Rattle.std.specs.Prelude.{◌≡◌, Some, List, [], ◌∷◌};
ghost use Rattle.std.specs.Bool.{OnTrue, OnFalse};
ghost use Rattle.ic_link_ops.specs.Prelude.{Place, Cut, join, IsBefore, IsCovered, RepresentsPlaced, acquires, releases, Removes, Inserts, Replaces};
ghost use Rattle.ic_rbtree.specs.Comparing.{compared};
ghost use Rattle.ic_rbtree.specs.Insertion.{IsInsertPos};
ghost use Rattle.ic_rbtree.specs.Kept.{RepresentsKept, HasRoomFor, InsertLooks};
ghost use Rattle.ic_rbtree.specs.Ordered.{InsertsInOrder};

use crate::Probe;
use crate::head::TreeHead;
use crate::keys::insert_pos::insert_pos_for;
use ic_link_ops::rbtree::RBTreeOps;
use ic_link_ops::{LinkOps, Side};
use ic_unsafe_ref::{Place, Values};

// Links `place` as a new member on the side `side` of `parent`, which has no child there. If there is no parent, the tree is empty. Returns whether the link
// was acquired.
pub(crate) fn insert<L: RBTreeOps, E: TreeHead>(
    links: &mut L,
    head: &mut E,
    parent: Option<Place>,
    side: Side,
    place: Place,
) -> bool
    requires covered { IsCovered (L.table links.old) place }
    requires insert_pos { (gap : Cut) × RepresentsKept E.kept L.node (L.table links.old) head.old (join gap)
        × IsInsertPos L.node (L.table links.old) parent side gap }
    ensures inserted { (gap : Cut) → RepresentsKept E.kept L.node (L.table links.old) head.old (join gap)
        → IsInsertPos L.node (L.table links.old) parent side gap → OnTrue result
        (Inserts (RepresentsKept E.kept L.node) (L.table links.old) (L.table links.new) head.new gap place) }
    ensures acquired { OnTrue result (L.Trace links.old links.new (acquires place ∷ [])) }
    ensures refused { OnFalse result (L.Refused links.old links.new place) }
    ensures unchanged { OnFalse result (head.new ≡ head.old) }
{
    if !links.acquire_link(place) {
        return false;
    }
    head.attach(links, parent, side, place);
    true
}

// Links `object` as a new member where it belongs by the probe's order, after the members that compare equal. Returns whether the link was acquired. If the
// link was not acquired, no key is compared.
#[inline]
pub(crate) fn insert_in_order<L: RBTreeOps, E: TreeHead, V, P: Probe<V>, O: Values<V>>(
    links: &mut L,
    head: &mut E,
    objects: &O,
    probe: &mut P,
    object: Place,
) -> bool
    requires covered { IsCovered (L.table links.old) object }
    requires placed { RepresentsPlaced (RepresentsKept E.kept L.node (L.table links.old) head.old) (O.values objects.now) }
    requires room { HasRoomFor (E.kept head.old) (P.count probe.old) }
    ensures inserted { (s : List Place) → RepresentsKept E.kept L.node (L.table links.old) head.old s → OnTrue result
        (InsertsInOrder (RepresentsKept E.kept L.node) (compared (P.order probe.old) (O.values objects.now)) (L.table links.old) (L.table links.new)
        head.new s object) }
    ensures acquired { OnTrue result (L.Trace links.old links.new (acquires object ∷ [])) }
    ensures looks { (s : List Place) → RepresentsKept E.kept L.node (L.table links.old) head.old s
        → OnTrue result (InsertLooks P.order P.count (E.kept head.old) (O.values objects.now) probe.old probe.new s) }
    ensures refused { OnFalse result (L.Refused links.old links.new object) }
    ensures unchanged { OnFalse result ((head.new ≡ head.old) × (probe.new ≡ probe.old)) }
{
    if !links.acquire_link(object) {
        return false;
    }
    let (parent, side) = insert_pos_for(&*links, &*head, objects, probe);
    head.attach(links, parent, side, object);
    true
}

// Removes the member at `place` from the tree, and unlinks it.
pub(crate) fn remove<L: RBTreeOps, E: TreeHead>(links: &mut L, head: &mut E, place: Place)
    requires member { (gap : Cut) × RepresentsKept E.kept L.node (L.table links.old) head.old (join gap) × IsBefore gap (Some place) }
    ensures removed { (gap : Cut) → RepresentsKept E.kept L.node (L.table links.old) head.old (join gap) → IsBefore gap (Some place)
        → Removes (RepresentsKept E.kept L.node) (L.table links.old) (L.table links.new) head.new gap }
    ensures released { L.Trace links.old links.new (releases place ∷ []) }
{
    head.unlink(links, place);
    links.release_link(place);
}

// Replaces the member at `place` by `new`: links `new`, and unlinks the member. Returns whether the link of `new` was acquired.
pub(crate) fn replace<L: RBTreeOps, E: TreeHead>(
    links: &mut L,
    head: &mut E,
    place: Place,
    new: Place,
) -> bool
    requires covered { IsCovered (L.table links.old) new }
    requires member { (gap : Cut) × RepresentsKept E.kept L.node (L.table links.old) head.old (join gap) × IsBefore gap (Some place) }
    ensures replaced { (gap : Cut) → RepresentsKept E.kept L.node (L.table links.old) head.old (join gap) → IsBefore gap (Some place)
        → OnTrue result (Replaces (RepresentsKept E.kept L.node) (L.table links.old) (L.table links.new) head.new gap new) }
    ensures exchanged { OnTrue result (L.Trace links.old links.new (acquires new ∷ releases place ∷ [])) }
    ensures refused { OnFalse result (L.Refused links.old links.new new) }
    ensures unchanged { OnFalse result (head.new ≡ head.old) }
{
    if !links.acquire_link(new) {
        return false;
    }
    head.take_place(links, place, new);
    links.release_link(place);
    true
}
