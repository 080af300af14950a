//! An edit that joins two rings, or cuts a ring in two: two places exchange their next places.
//!
//! ```text
//! ready.splice_back(&mut links, &late);        // all of `late` after all of `ready`
//! ready.split_after(&mut links, place, &rest); // what stood after the place is in `rest`
//! ```

ghost use Rattle.std.specs.Prelude.{◌≡◌, ◌≢◌, ◌∷◌, ◌++◌, List, [], Some};
ghost use Rattle.ic_link_ops.specs.Prelude.{Place, IsAbsent, IsDisjoint, last, ChangesOnlyIn, neighbors_at};
ghost use Rattle.ic_ring.specs.Rings.{IsCircle, Represents, InRing, IsRingOf, OthersStay};

use crate::ring::Ring;
use crate::surgery::{next_of, prev_of};
use ic_link_ops::LinkOps;
use ic_link_ops::linked_list::LinkedListOps;
use ic_unsafe_ref::Place;

/// Exchanges the next places of two places that are in rings. O(1), and no link is acquired or released.
///
/// If the places are in two rings, the rings are joined. After the first place come the places that followed the second place, up to the second place
/// itself. Then come the places that followed the first place. If the places are in one ring, it is cut in two. A second call with the same places
/// reverts the edit. If both places are the same, nothing changes. The call requires that both places are in rings of the table.
#[inline]
pub fn exchange<L: LinkedListOps>(links: &mut L, first: Place, second: Place)
    requires first { InRing L.neighbors (L.table links.old) first }
    requires second { InRing L.neighbors (L.table links.old) second }
    ensures joins { (r u : List Place) → IsCircle L.neighbors (L.table links.old).entry r → IsCircle L.neighbors (L.table links.old).entry u
        → IsDisjoint r u → Some first ≡ last r → Some second ≡ last u → IsCircle L.neighbors (L.table links.new).entry (r ++ u) }
    ensures cuts { (r u : List Place) → IsCircle L.neighbors (L.table links.old).entry (r ++ u) → Some first ≡ last r → Some second ≡ last u
        → IsCircle L.neighbors (L.table links.new).entry r × IsCircle L.neighbors (L.table links.new).entry u }
    ensures itself { first ≡ second → (q : Place) → neighbors_at L.neighbors (L.table links.new) q ≡ neighbors_at L.neighbors (L.table links.old) q }
    ensures trace_stays { L.Trace links.old links.new [] }
    ensures others { OthersStay L.neighbors (L.table links.old) (L.table links.new) (first ∷ second ∷ []) }
    ensures frame { (r u : List Place) → IsRingOf L.neighbors (L.table links.old) first r → IsRingOf L.neighbors (L.table links.old) second u
        → ChangesOnlyIn (L.table links.old) (L.table links.new) (r ++ u) }
{
    let after_first = next_of(&*links, first);
    let after_second = next_of(&*links, second);
    links.set_next(first, Some(after_second));
    links.set_prev(after_second, Some(first));
    links.set_next(second, Some(after_first));
    links.set_prev(after_first, Some(second));
}

// Moves all members of the ring with the head `given` after the place `at` of another ring. Afterwards the ring with the head `given` is empty.
#[inline]
pub(crate) fn splice_after_place<L: LinkedListOps>(links: &mut L, at: Place, given: Place)
    requires ring { InRing L.neighbors (L.table links.old) at }
    requires apart { (t : List Place) × Represents L.neighbors (L.table links.old) given t × IsAbsent at (given ∷ t) }
    ensures spliced { (r t : List Place) → Represents L.neighbors (L.table links.old) at r → Represents L.neighbors (L.table links.old) given t
        → Represents L.neighbors (L.table links.new) at (t ++ r) × Represents L.neighbors (L.table links.new) given [] }
    ensures trace_stays { L.Trace links.old links.new [] }
    ensures others { OthersStay L.neighbors (L.table links.old) (L.table links.new) (at ∷ given ∷ []) }
    ensures frame { (r t : List Place) → Represents L.neighbors (L.table links.old) at r → Represents L.neighbors (L.table links.old) given t
        → ChangesOnlyIn (L.table links.old) (L.table links.new) ((at ∷ r) ++ (given ∷ t)) }
{
    let end = prev_of(&*links, given);
    exchange(links, at, end);
    exchange(links, at, given);
}

impl<T> Ring<T> {
    /// Moves all members of another ring after the members of this ring. Afterwards the other ring is empty. O(1), and no link is acquired or
    /// released.
    ///
    /// The call requires that the two rings are different. Linux: `list_splice_tail_init`.
    #[inline]
    pub fn splice_back<L: LinkedListOps>(&self, links: &mut L, given: &Ring<T>)
        requires shown { InRing L.neighbors (L.table links.old) self.now }
        requires apart { (t : List Place) × Represents L.neighbors (L.table links.old) given.now t × IsAbsent self.now (given.now ∷ t) }
        ensures spliced { (s t : List Place) → Represents L.neighbors (L.table links.old) self.now s → Represents L.neighbors (L.table links.old) given.now t
            → Represents L.neighbors (L.table links.new) self.now (s ++ t) × Represents L.neighbors (L.table links.new) given.now [] }
        ensures trace_stays { L.Trace links.old links.new [] }
        ensures others { OthersStay L.neighbors (L.table links.old) (L.table links.new) (self.now ∷ given.now ∷ []) }
        ensures frame { (s t : List Place) → Represents L.neighbors (L.table links.old) self.now s → Represents L.neighbors (L.table links.old) given.now t
            → ChangesOnlyIn (L.table links.old) (L.table links.new) ((self.now ∷ s) ++ (given.now ∷ t)) }
    {
        let head = self.head();
        let last = prev_of(&*links, head);
        let given_head = given.head();
        let given_last = prev_of(&*links, given_head);
        exchange(links, last, given_last);
        exchange(links, last, given_head);
    }

    /// Moves the members after a place of this ring to the front of another ring. If the place is the head, all members are moved. O(1), and no link
    /// is acquired or released.
    ///
    /// The call requires that the place is in this ring, as its head or as a member, and that the two rings are different.
    #[inline]
    pub fn split_after<L: LinkedListOps>(&self, links: &mut L, at: Place, rest: &Ring<T>)
        requires cut { (front back : List Place) × Represents L.neighbors (L.table links.old) self.now (front ++ back) × (Some at ≡ last (self.now ∷ front)) }
        requires apart { (t : List Place) × Represents L.neighbors (L.table links.old) rest.now t × IsAbsent self.now (rest.now ∷ t) }
        ensures split { (front back t : List Place) → Represents L.neighbors (L.table links.old) self.now (front ++ back)
            → Some at ≡ last (self.now ∷ front) → Represents L.neighbors (L.table links.old) rest.now t
            → Represents L.neighbors (L.table links.new) self.now front × Represents L.neighbors (L.table links.new) rest.now (back ++ t) }
        ensures trace_stays { L.Trace links.old links.new [] }
        ensures others { OthersStay L.neighbors (L.table links.old) (L.table links.new) (self.now ∷ rest.now ∷ []) }
        ensures frame { (front back t : List Place) → Represents L.neighbors (L.table links.old) self.now (front ++ back)
            → Some at ≡ last (self.now ∷ front) → Represents L.neighbors (L.table links.old) rest.now t
            → ChangesOnlyIn (L.table links.old) (L.table links.new) ((self.now ∷ (front ++ back)) ++ (rest.now ∷ t)) }
    {
        exchange(links, at, rest.head());
        let last = prev_of(&*links, self.head());
        exchange(links, at, last);
    }
}
