//! The functions that the tests share. The functions make tables of a few places and references to unlinked objects.

ghost use Rattle.std.specs.Prelude.{◌≡◌};
ghost use Rattle.ic_link_ops.specs.Prelude.{table, linked_by, IsCovered, IsUnlinked};

use ic_link_ops::{PlainTable, Words};
use ic_unsafe_ref::{Place, UnsafeRef};
use std::alloc::Global;
use std::process::Abort;

/// Ends the test with a failure unless `is_so` is true.
///
/// What follows from the assertion is proved once here, and not again at each call of this function.
pub(crate) fn check(rt: &impl Abort, is_so: bool) {
    assert!(rt; is_so);
}

/// Returns a table of links that covers four places.
pub(crate) fn covering<W: Words>(rt: &impl Abort, alloc: Global) -> PlainTable<W> {
    let mut links = PlainTable::new(alloc);
    links.cover(4).expect(rt, "memory for links");
    links
}

/// Returns the reference to the object at the place with this index. The place is covered and not linked.
pub(crate) fn unlinked<W: Words, T>(
    rt: &impl Abort,
    links: &PlainTable<W>,
    index: usize,
) -> UnsafeRef<T>
    ensures covered { IsCovered (table W.width W.unlinked links.now) result }
    ensures unlinked { IsUnlinked (linked_by W.is_linked) (table W.width W.unlinked links.now) result }
{
    let place = Place::new(index).expect(rt, "the index of a place");
    assert!(rt; place.index() < links.covers());
    assert!(rt; !links.is_linked(place));
    UnsafeRef::new(place)
}

/// Returns the index of a place, or 9 if there is no place.
pub(crate) fn index(place: Option<Place>) -> usize {
    match place {
        Some(place) => place.index(),
        None => 9,
    }
}

/// Returns the index of an object's place, or 9 if there is no object.
pub(crate) fn index_of<T>(object: Option<UnsafeRef<T>>) -> usize {
    match object {
        Some(object) => object.place().index(),
        None => 9,
    }
}
