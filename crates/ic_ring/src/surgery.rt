//! Functions that read and write neighbors.
//!
//! The calls that write neighbors require no ring. They require only that the places which they write are linked. They are for callers who store rings in
//! words of their own and test these words themselves.
//!
//! ```text
//! bypass(&mut links, before, after);         // out: what stood between the two has left the ring
//! turn_to(&mut links, before, place, after); // in: the place stands between the two already
//! ```

ghost use Rattle.std.specs.Prelude.{◌≡◌, ◌≢◌, ◌∷◌, ◌++◌, [], List, Some, IsSome};
ghost use Rattle.ic_link_ops.specs.Prelude.{Place, IsAbsent, first, last, IsLinked, ChangesOnly, neighbors_at, IsBetween};
ghost use Rattle.ic_ring.specs.Rings.{IsCircle, InRing, TurnsTo};

use ic_link_ops::LinkOps;
use ic_link_ops::linked_list::LinkedListOps;
use ic_unsafe_ref::Place;

// The place in an option that is `Some`. The compiled program does not test whether the option is `Some`. For `None` the function would read the
// first element of an empty slice. The compiler removes bounds checks, so it drops the branch for `None`.
#[inline(always)]
fn there(place: Option<Place>) -> Place
    requires there { IsSome place }
    ensures { place ≡ Some result }
{
    match place {
        Some(place) => place,
        None => {
            let none: &[Place] = &[];
            none[0]
        }
    }
}

// The place after `place`, which is in a ring.
#[inline]
pub(crate) fn next_of<L: LinkedListOps>(links: &L, place: Place) -> Place
    requires { InRing L.neighbors (L.table links.now) place }
    ensures { (neighbors_at L.neighbors (L.table links.now) place).next ≡ Some result }
{
    there(links.next(place))
}

// The place before `place`, which is in a ring.
#[inline]
pub(crate) fn prev_of<L: LinkedListOps>(links: &L, place: Place) -> Place
    requires { InRing L.neighbors (L.table links.now) place }
    ensures { (neighbors_at L.neighbors (L.table links.now) place).prev ≡ Some result }
{
    there(links.prev(place))
}

/// Makes two places neighbors of each other. All places between them, however many, leave the ring and stay linked. O(1).
///
/// The call requires only that both places are linked. It writes only the entries of these two places, whatever other words contain, and links and
/// unlinks nothing. Linux: `__list_del`.
#[inline]
pub fn bypass<L: LinkedListOps>(links: &mut L, before: Place, after: Place)
    requires before { IsLinked L.linked (L.table links.old) before }
    requires after { IsLinked L.linked (L.table links.old) after }
    ensures closed { (p : Place) (r : List Place) → IsCircle L.neighbors (L.table links.old).entry (p ∷ r)
        → Some before ≡ last r → Some after ≡ first r → IsCircle L.neighbors (L.table links.new).entry r }
    ensures stretch { (out r : List Place) → IsCircle L.neighbors (L.table links.old).entry (out ++ r)
        → Some before ≡ last r → Some after ≡ first r → IsCircle L.neighbors (L.table links.new).entry r }
    ensures turned { TurnsTo L.neighbors (L.table links.old) (L.table links.new) before after after before }
    ensures trace_stays { L.Trace links.old links.new [] }
    ensures extent { (L.table links.new).extent ≡ (L.table links.old).extent }
    ensures others { (q : Place) → q ≢ before → q ≢ after → (L.table links.new).entry q ≡ (L.table links.old).entry q }
{
    links.set_next(before, Some(after));
    links.set_prev(after, Some(before));
}

/// Makes two places neighbors of a third place, whose entry already names both of them. Afterwards the third place is in their ring. O(1).
///
/// The call requires only that both places are linked, and that a link word of the table can name the third place. It writes only the entries of the two
/// places, whatever other words contain, and links and unlinks nothing. Linux: `__list_add`. The two neighbors that the entry of the third place names are
/// written by another call, the table's `link_between`.
#[inline]
pub fn turn_to<L: LinkedListOps>(links: &mut L, before: Place, place: Place, after: Place)
    requires before { IsLinked L.linked (L.table links.old) before }
    requires after { IsLinked L.linked (L.table links.old) after }
    requires place { L.CanName place }
    ensures filled { (r : List Place) → IsCircle L.neighbors (L.table links.old).entry r → IsAbsent place r
        → Some before ≡ last r → Some after ≡ first r
        → IsBetween L.neighbors ((L.table links.old).entry place) (Some before) (Some after)
        → IsCircle L.neighbors (L.table links.new).entry (place ∷ r) }
    ensures turned { TurnsTo L.neighbors (L.table links.old) (L.table links.new) before after place place }
    ensures trace_stays { L.Trace links.old links.new [] }
    ensures extent { (L.table links.new).extent ≡ (L.table links.old).extent }
    ensures others { (q : Place) → q ≢ before → q ≢ after → (L.table links.new).entry q ≡ (L.table links.old).entry q }
{
    links.set_next(before, Some(place));
    links.set_prev(after, Some(place));
}

// Sets both neighbors of the linked place. The call does not change the entries of the neighbors.
#[inline]
pub(crate) fn set_neighbors<L: LinkedListOps>(
    links: &mut L,
    place: Place,
    before: Place,
    after: Place,
)
    requires linked { IsLinked L.linked (L.table links.old) place }
    requires before { L.CanName before }
    requires after { L.CanName after }
    ensures stands { IsBetween L.neighbors ((L.table links.new).entry place) (Some before) (Some after) }
    ensures frame { ChangesOnly (L.table links.old) (L.table links.new) place }
    ensures trace_stays { L.Trace links.old links.new [] }
{
    links.set_prev(place, Some(before));
    links.set_next(place, Some(after));
}
