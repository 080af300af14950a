//! These functions walk along one chain, from its first member.
//!
//! ```text
//! let (before, found) = find_in_chain(&links, &objects, &mut probe, front);
//! ```

ghost use Rattle.std.specs.Prelude.{◌≡◌, ◌+◌, ◌<◌, true, List};
ghost use Rattle.ic_link_ops.specs.Prelude.{Place, is_placed, RepresentsPlaced};
ghost use Rattle.ic_hash_table.specs.Searches.{is_place, matches, StopsAt, HasRoom, Looks};
ghost use Rattle.ic_hash_table.specs.Chains.{RepresentsFrom, RepresentsFromSome};

use crate::Probe;
use ic_link_ops::LinkOps;
use ic_link_ops::singly_linked_list::SinglyLinkedListOps;
use ic_unsafe_ref::{Place, UnsafeRef, Values};

// The reference to the object at `place`, or `None` if `place` is `None`.
#[inline]
pub(crate) fn reference<V>(place: Option<Place>) -> Option<UnsafeRef<V>>
    ensures { result ≡ place }
{
    match place {
        Some(place) => Some(UnsafeRef::new(place)),
        None => None,
    }
}

// Whether the object of the member `place` has the searched key.
#[inline]
fn is_match<V, P: Probe<V>, O: Values<V>>(objects: &O, probe: &mut P, place: Place) -> bool
    requires placed { is_placed (O.values objects.now) place ≡ true }
    requires room { P.count probe.old < 18446744073709551615 }
    ensures answer { result ≡ matches (P.equal probe.old) (O.values objects.now) place }
    ensures counted { P.count probe.new ≡ P.count probe.old + 1 }
    ensures same { P.equal probe.new ≡ P.equal probe.old }
    ensures hash { P.hash probe.new ≡ P.hash probe.old }
{
    probe.is_equal(objects.value(place))
}

// Walks along the chain that begins with `front`, up to the first member with the searched key. Returns the member before the found one, and the found one.
#[inline]
pub(crate) fn find_in_chain<V, L: SinglyLinkedListOps, P: Probe<V>, O: Values<V>>(
    links: &L,
    objects: &O,
    probe: &mut P,
    front: Option<Place>,
) -> (Option<Place>, Option<Place>)
    requires placed { RepresentsPlaced (RepresentsFrom L.successor (L.table links.now) front) (O.values objects.now) }
    requires room { HasRoom (P.count probe.old) }
    ensures stops { (s : List Place) → RepresentsFrom L.successor (L.table links.now) front s
        → StopsAt (matches (P.equal probe.old) (O.values objects.now)) s result.0 result.1 }
    ensures looks { (s : List Place) → RepresentsFrom L.successor (L.table links.now) front s
        → Looks P.equal P.count probe.old probe.new s }
    ensures hash { P.hash probe.new ≡ P.hash probe.old }
{
    let mut before = None;
    let mut current = front;
    while let Some(place) = current {
        if is_match(objects, probe, place) {
            return (before, current);
        }
        before = current;
        current = links.next(place);
    }
    (before, None)
}

// Walks along the chain that begins with `front`, up to `place`, without comparing keys. Returns the member before `place`, and `place`. If `place` is no
// member, it returns the last member and `None`.
pub(crate) fn find_place_in_chain<L: SinglyLinkedListOps>(
    links: &L,
    front: Option<Place>,
    place: Place,
) -> (Option<Place>, Option<Place>)
    requires shown { RepresentsFromSome L.successor (L.table links.now) front }
    ensures stops { (s : List Place) → RepresentsFrom L.successor (L.table links.now) front s
        → StopsAt (is_place place) s result.0 result.1 }
{
    let mut before = None;
    let mut current = front;
    while let Some(member) = current {
        if member == place {
            return (before, current);
        }
        before = current;
        current = links.next(member);
    }
    (before, None)
}
