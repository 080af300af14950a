//! The functions that the tests share. The functions make tables of a few places and objects, and return the indices of places.

ghost use Rattle.std.specs.Prelude.{◌≡◌, true};
ghost use Rattle.ic_link_ops.specs.Prelude.{index_of, is_placed, IsCovered, table};
ghost use Rattle.ic_link_ops.specs.DoublyEntries.{plain_table};

use ic_link_ops::linked_list::LinkOps;
use ic_link_ops::{PlainTable, Words};
use ic_unsafe_ref::{Objects, Place, UnsafeRef};
use std::alloc::Global;
use std::fmt::Debug;
use std::process::Abort;

/// The message of an assertion that the objects of a test are unlinked at first.
pub(crate) const UNLINKED: &str = "objects that are linked nowhere";

/// The message of an assertion that a test has enough memory.
pub(crate) const MEMORY: &str = "memory";

// The number that means that there is no object. No place has this index.
const NONE: usize = Place::COUNT;

/// Ends the test with a failure unless `is_so` is true.
pub(crate) fn check(rt: &impl Abort, is_so: bool) {
    assert!(rt; is_so);
}

/// Returns the index of a place, or `NONE` if there is no place.
pub(crate) fn index(place: Option<Place>) -> usize {
    match place {
        Some(place) => place.index(),
        None => NONE,
    }
}

/// Returns the index of an object's place, or `NONE` if there is no object.
pub(crate) fn index_of_object<T>(object: Option<UnsafeRef<T>>) -> usize {
    match object {
        Some(object) => object.place().index(),
        None => NONE,
    }
}

/// Returns a table of links that covers five places.
pub(crate) fn covering<W: Words>(rt: &impl Abort, alloc: Global) -> PlainTable<W>
    ensures { (table W.width W.unlinked result).extent.places ≡ 5 }
{
    let mut links = PlainTable::new(alloc);
    links.cover(5).expect(rt, MEMORY);
    links
}

/// Returns the reference to the object at the place with this index.
pub(crate) fn reference(rt: &impl Abort, index: usize) -> UnsafeRef<u64>
    ensures { index_of result ≡ index }
{
    UnsafeRef::new(Place::new(index).expect(rt, "the index of a place"))
}

/// Returns a table of links, and two unlinked objects, at the places 2 and 0.
pub(crate) fn two(rt: &impl Abort, alloc: Global) -> (LinkOps, UnsafeRef<u64>, UnsafeRef<u64>)
    ensures covers { (plain_table result.0).extent.places ≡ 5 }
    ensures first { index_of result.1 ≡ 2 }
    ensures second { index_of result.2 ≡ 0 }
{
    (covering(rt, alloc), reference(rt, 2), reference(rt, 0))
}

/// Returns these values as objects at the places from 0 on.
pub(crate) fn placed<T: Copy + Debug>(rt: &impl Abort, alloc: Global, values: &[T]) -> Objects<T> {
    let mut objects = Objects::new(alloc);
    for value in values {
        let _next = objects.next_place().expect(rt, "a vacant place");
        let _object = UnsafeRef::from_box(&mut objects, *value).expect(rt, MEMORY);
    }
    objects
}

/// Returns the reference to the object at the place with this index. The table covers this place.
pub(crate) fn object<T, W: Words>(
    rt: &impl Abort,
    links: &PlainTable<W>,
    objects: &Objects<T>,
    index: usize,
) -> UnsafeRef<T>
    ensures placed { is_placed objects.now result ≡ true }
    ensures covered { IsCovered (table W.width W.unlinked links.now) result }
{
    let place = Place::new(index).expect(rt, "the index of a place");
    assert!(rt; objects.is_placed(place) && place.index() < links.covers());
    UnsafeRef::new(place)
}
