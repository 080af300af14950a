//! Calls that take a place of a ring, but not the ring itself. A place is in at most one ring, and the other places of the ring are found from
//! neighbor to neighbor.
//!
//! ```text
//! remove(&mut links, &object);                 // from whichever ring it is in
//! insert_before(&mut links, place, object)?;   // beside a member; at a head, at the back
//! replace(&mut links, &object, newer)?;        // where the object was
//! ```

ghost use Rattle.std.specs.Prelude.{◌≡◌, ◌≢◌, ◌∷◌, ◌++◌, List, [], Some, OnOk, OnErr, IfErr};
ghost use Rattle.std.specs.Bool.{OnTrue, OnFalse};
ghost use Rattle.ic_link_ops.specs.Prelude.{Place, first_or, last, at_back, at_front, IsCovered, ChangesOnlyIn, acquires, releases, neighbors_at};
ghost use Rattle.ic_ring.specs.Rings.{IsCircle, Represents, InRing, IsRingOf, OthersStay};
ghost use Rattle.ic_ring.specs.RingEdits.{InsertsBesidePlace, right_before, right_after};

use crate::surgery::{bypass, next_of, prev_of, turn_to};
use ic_link_ops::linked_list::LinkedListOps;
use ic_link_ops::{AlreadyLinked, LinkOps};
use ic_unsafe_ref::{Place, UnsafeRef};

/// The place after `place`, which is in a ring. After the last member comes the head. O(1).
///
/// The call requires that the place is in a ring of the table.
#[inline]
pub fn next<L: LinkedListOps>(links: &L, place: Place) -> Place
    requires ring { InRing L.neighbors (L.table links.now) place }
    ensures after { (s : List Place) → Represents L.neighbors (L.table links.now) place s → Some result ≡ first_or s (Some place) }
    ensures ring { InRing L.neighbors (L.table links.now) result }
{
    next_of(links, place)
}

/// The place before `place`, which is in a ring. Before the first member comes the head. O(1).
///
/// The call requires that the place is in a ring of the table.
#[inline]
pub fn prev<L: LinkedListOps>(links: &L, place: Place) -> Place
    requires ring { InRing L.neighbors (L.table links.now) place }
    ensures before { (s : List Place) → Represents L.neighbors (L.table links.now) place s → Some result ≡ last (place ∷ s) }
    ensures ring { InRing L.neighbors (L.table links.now) result }
{
    prev_of(links, place)
}

// Links the place between the neighbors `before` and `after` of a ring, and returns whether its link was acquired.
#[inline]
pub(crate) fn insert_between<L: LinkedListOps>(
    links: &mut L,
    before: Place,
    place: Place,
    after: Place,
) -> bool
    requires covered { IsCovered (L.table links.old) place }
    requires ring { InRing L.neighbors (L.table links.old) after }
    requires before { (neighbors_at L.neighbors (L.table links.old) after).prev ≡ Some before }
    ensures inserted { (s : List Place) → Represents L.neighbors (L.table links.old) after s
        → OnTrue result (IsCircle L.neighbors (L.table links.new).entry (place ∷ after ∷ s)) }
    ensures acquired { OnTrue result (L.Trace links.old links.new (acquires place ∷ [])) }
    ensures refused { OnFalse result (L.Refused links.old links.new place) }
    ensures others { OthersStay L.neighbors (L.table links.old) (L.table links.new) (after ∷ []) }
    ensures extent { (L.table links.new).extent ≡ (L.table links.old).extent }
    ensures beside { (q : Place) → q ≢ before → q ≢ place → q ≢ after → (L.table links.new).entry q ≡ (L.table links.old).entry q }
{
    if !links.link_between(place, Some(before), Some(after)) {
        return false;
    }
    turn_to(links, before, place, after);
    true
}

// Removes the place from between its neighbors `before` and `after`, and unlinks it.
#[inline]
pub(crate) fn unlink<L: LinkedListOps>(links: &mut L, before: Place, place: Place, after: Place)
    requires ring { InRing L.neighbors (L.table links.old) place }
    requires before { (neighbors_at L.neighbors (L.table links.old) place).prev ≡ Some before }
    requires after { (neighbors_at L.neighbors (L.table links.old) place).next ≡ Some after }
    ensures taken { (r : List Place) → Represents L.neighbors (L.table links.old) place r → IsCircle L.neighbors (L.table links.new).entry r }
    ensures released { L.Trace links.old links.new (releases place ∷ []) }
    ensures others { OthersStay L.neighbors (L.table links.old) (L.table links.new) (place ∷ []) }
    ensures extent { (L.table links.new).extent ≡ (L.table links.old).extent }
    ensures beside { (q : Place) → q ≢ before → q ≢ place → q ≢ after → (L.table links.new).entry q ≡ (L.table links.old).entry q }
{
    bypass(links, before, after);
    links.release_link(place);
}

/// Removes the object from the ring that it is in, and unlinks it. O(1). Linux: `list_del`.
///
/// The call requires that the object is in a ring of the table. The other members of the ring stay in their order, and every other ring and every
/// list of the table stays as it is. To end a ring with no members, remove its head.
#[inline]
pub fn remove<T, L: LinkedListOps>(links: &mut L, object: &UnsafeRef<T>)
    requires member { InRing L.neighbors (L.table links.old) object.now }
    ensures removed { (head : Place) (front back : List Place) → Represents L.neighbors (L.table links.old) head (front ++ object.now ∷ back)
        → Represents L.neighbors (L.table links.new) head (front ++ back) }
    ensures released { L.Trace links.old links.new (releases object.now ∷ []) }
    ensures others { OthersStay L.neighbors (L.table links.old) (L.table links.new) (object.now ∷ []) }
    ensures frame { (r : List Place) → IsRingOf L.neighbors (L.table links.old) object.now r
        → ChangesOnlyIn (L.table links.old) (L.table links.new) r }
{
    let place = object.place();
    let prev = prev_of(&*links, place);
    let next = next_of(&*links, place);
    unlink(links, prev, place, next);
}

/// Inserts the object before the place `at`, which is in a ring, unless the object's link is refused. O(1), and it takes no memory.
///
/// An object that is inserted before a head becomes the last member. The call requires that the table covers the object's place, and that `at` is in a ring.
/// If the link is refused, the object is returned and nothing has changed. A plain table refuses the link exactly if the object is linked in this table.
/// Linux: `list_add_tail`.
#[inline]
pub fn insert_before<T, L: LinkedListOps>(
    links: &mut L,
    at: Place,
    object: UnsafeRef<T>,
) -> Result<(), AlreadyLinked<T>>
    requires covered { IsCovered (L.table links.old) object }
    requires ring { InRing L.neighbors (L.table links.old) at }
    ensures { InsertsBesidePlace L.neighbors L.table L.Trace L.Refused right_before at_back links.old at object result links.new }
{
    let prev = prev_of(&*links, at);
    if !insert_between(links, prev, object.place(), at) {
        return Err(AlreadyLinked(object));
    }
    Ok(())
}

/// Inserts the object after the place `at`, which is in a ring, unless the object's link is refused. O(1), and it takes no memory.
///
/// An object that is inserted after a head becomes the first member. The call requires and returns what [`insert_before`] does. Linux: `list_add`.
#[inline]
pub fn insert_after<T, L: LinkedListOps>(
    links: &mut L,
    at: Place,
    object: UnsafeRef<T>,
) -> Result<(), AlreadyLinked<T>>
    requires covered { IsCovered (L.table links.old) object }
    requires ring { InRing L.neighbors (L.table links.old) at }
    ensures { InsertsBesidePlace L.neighbors L.table L.Trace L.Refused right_after at_front links.old at object result links.new }
{
    let next = next_of(&*links, at);
    if !insert_between(links, at, object.place(), next) {
        return Err(AlreadyLinked(object));
    }
    Ok(())
}

/// Replaces an object in a ring by a new object, and unlinks the old object, unless the link of the new object is refused. O(1), and it takes no
/// memory.
///
/// The call requires that the table covers the new object's place, and that the old object is in a ring. If the link is refused, the new object is
/// returned and nothing has changed. Linux: `list_replace`.
#[inline]
pub fn replace<T, L: LinkedListOps>(
    links: &mut L,
    out: &UnsafeRef<T>,
    object: UnsafeRef<T>,
) -> Result<(), AlreadyLinked<T>>
    requires covered { IsCovered (L.table links.old) object }
    requires member { InRing L.neighbors (L.table links.old) out.now }

    ensures replaced { (head : Place) (front back : List Place) → Represents L.neighbors (L.table links.old) head (front ++ out.now ∷ back)
        → OnOk result (Represents L.neighbors (L.table links.new) head (front ++ object ∷ back)) }
    ensures exchanged { OnOk result (L.Trace links.old links.new (acquires object ∷ releases out.now ∷ [])) }
    ensures refused { OnErr result (L.Refused links.old links.new object) }
    ensures unchanged { IfErr result (λ refused. refused.0 ≡ object) }
    ensures others { OthersStay L.neighbors (L.table links.old) (L.table links.new) (out.now ∷ []) }
    ensures frame { (r : List Place) → IsRingOf L.neighbors (L.table links.old) out.now r
        → ChangesOnlyIn (L.table links.old) (L.table links.new) (object ∷ r) }
{
    insert_before(links, out.place(), object)?;
    remove(links, out);
    Ok(())
}
