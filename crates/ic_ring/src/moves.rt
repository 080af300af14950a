//! Calls that move an object within its ring or to another ring. The object stays linked.
//!
//! ```text
//! move_before(&mut links, place, &object);   // from whichever ring it is in
//! late.move_to_back(&mut links, &object);    // and on to the back of another
//! ```

ghost use Rattle.std.specs.Prelude.{◌≡◌, ◌≢◌, ◌∷◌, List, [], Some};
ghost use Rattle.ic_link_ops.specs.Prelude.{Place, IsAbsent, at_front, at_back, IsLinked, neighbors_at};
ghost use Rattle.ic_ring.specs.Rings.{IsCircle, Represents, InRing, OthersStay};
ghost use Rattle.ic_ring.specs.RingEdits.{MovesBesidePlace, MovesToEnd, right_before, right_after};

use crate::ring::Ring;
use crate::surgery::{bypass, next_of, prev_of, set_neighbors, turn_to};
use ic_link_ops::LinkOps;
use ic_link_ops::linked_list::LinkedListOps;
use ic_unsafe_ref::{Place, UnsafeRef};

// Removes the place from its ring. The place stays linked.
#[inline]
fn detach<L: LinkedListOps>(links: &mut L, place: Place)
    requires ring { InRing L.neighbors (L.table links.old) place }
    ensures taken { (r : List Place) → Represents L.neighbors (L.table links.old) place r → IsCircle L.neighbors (L.table links.new).entry r }
    ensures trace_stays { L.Trace links.old links.new [] }
    ensures others { OthersStay L.neighbors (L.table links.old) (L.table links.new) (place ∷ []) }
    ensures extent { (L.table links.new).extent ≡ (L.table links.old).extent }
    ensures beside { (r : List Place) (q : Place) → Represents L.neighbors (L.table links.old) place r → IsAbsent q (place ∷ r)
        → (L.table links.new).entry q ≡ (L.table links.old).entry q }
{
    let prev = prev_of(&*links, place);
    let next = next_of(&*links, place);
    bypass(links, prev, next);
}

// Inserts the place, which is linked and in no ring, between the neighbors `before` and `after` of a ring.
#[inline]
fn insert_linked<L: LinkedListOps>(links: &mut L, before: Place, place: Place, after: Place)
    requires held { IsLinked L.linked (L.table links.old) place }
    requires ring { InRing L.neighbors (L.table links.old) after }
    requires before { (neighbors_at L.neighbors (L.table links.old) after).prev ≡ Some before }
    ensures put { (s : List Place) → Represents L.neighbors (L.table links.old) after s → IsAbsent place (after ∷ s)
        → IsCircle L.neighbors (L.table links.new).entry (place ∷ after ∷ s) }
    ensures trace_stays { L.Trace links.old links.new [] }
    ensures others { (r : List Place) → IsCircle L.neighbors (L.table links.old).entry r → IsAbsent place r → IsAbsent after r
        → IsCircle L.neighbors (L.table links.new).entry r }
    ensures extent { (L.table links.new).extent ≡ (L.table links.old).extent }
    ensures beside { (q : Place) → q ≢ before → q ≢ place → q ≢ after → (L.table links.new).entry q ≡ (L.table links.old).entry q }
{
    set_neighbors(links, place, before, after);
    turn_to(links, before, place, after);
}

/// Moves the object, which may be in any ring, before the place `at`, which is in a ring. O(1), and the object stays linked.
///
/// An object that is moved before a head becomes the last member. The call requires that the object and `at` are in rings of the table, and are different
/// places. Linux: `list_move_tail`.
#[inline]
pub fn move_before<T, L: LinkedListOps>(links: &mut L, at: Place, object: &UnsafeRef<T>)
    requires ring { InRing L.neighbors (L.table links.old) at }
    requires member { InRing L.neighbors (L.table links.old) object.now }
    requires other { at ≢ object.now }
    ensures { MovesBesidePlace L.neighbors L.table L.Trace right_before at_back links.old at object.now links.new }
{
    let place = object.place();
    detach(links, place);
    let prev = prev_of(&*links, at);
    insert_linked(links, prev, place, at);
}

/// Moves the object, which may be in any ring, after the place `at`, which is in a ring. O(1), and the object stays linked.
///
/// An object that is moved after a head becomes the first member. The call requires what [`move_before`] requires. Linux: `list_move`.
#[inline]
pub fn move_after<T, L: LinkedListOps>(links: &mut L, at: Place, object: &UnsafeRef<T>)
    requires ring { InRing L.neighbors (L.table links.old) at }
    requires member { InRing L.neighbors (L.table links.old) object.now }
    requires other { at ≢ object.now }
    ensures { MovesBesidePlace L.neighbors L.table L.Trace right_after at_front links.old at object.now links.new }
{
    let place = object.place();
    detach(links, place);
    let next = next_of(&*links, at);
    insert_linked(links, at, place, next);
}

impl<T> Ring<T> {
    /// Moves the object, which may be in any ring, to the back of this ring. O(1), and the object stays linked.
    ///
    /// The call requires that the object is in a ring of the table, and is not the head of this ring. The call is good for queues in the order of the last
    /// use. Linux: `list_move_tail`.
    #[inline]
    pub fn move_to_back<L: LinkedListOps>(&self, links: &mut L, object: &UnsafeRef<T>)
        requires shown { InRing L.neighbors (L.table links.old) self.now }
        requires member { InRing L.neighbors (L.table links.old) object.now }
        requires other { self.now ≢ object.now }
        ensures { MovesToEnd L.neighbors L.table L.Trace at_back self.now links.old object.now links.new }
    {
        move_before(links, self.head(), object);
    }

    /// Moves the object, which may be in any ring, to the front of this ring. O(1), and the object stays linked.
    ///
    /// The call requires what [`Ring::move_to_back`] requires. Linux: `list_move`.
    #[inline]
    pub fn move_to_front<L: LinkedListOps>(&self, links: &mut L, object: &UnsafeRef<T>)
        requires shown { InRing L.neighbors (L.table links.old) self.now }
        requires member { InRing L.neighbors (L.table links.old) object.now }
        requires other { self.now ≢ object.now }
        ensures { MovesToEnd L.neighbors L.table L.Trace at_front self.now links.old object.now links.new }
    {
        move_after(links, self.head(), object);
    }
}
