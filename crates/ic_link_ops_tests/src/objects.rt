//! Tests of objects that are stored and found by their places, with enough memory and with refused memory.

use crate::fixture::{at, check};
use ic_test_support::rationed::Rationed;
use ic_unsafe_ref::{Objects, Place, UnsafeRef};

// Stores the value as an object, if a place is left, and returns the place of the object, or the value that was given back.
fn put(objects: &mut Objects<u64, &Rationed>, value: u64) -> Result<Option<Place>, u64> {
    if objects.next_place().is_none() {
        return Ok(None);
    }
    match UnsafeRef::from_box(objects, value) {
        Ok(object) => Ok(Some(object.place())),
        Err((_, back)) => Err(back),
    }
}

// Sets the value at the place to 25, and removes the object.
fn change_and_take(objects: &mut Objects<u64, &Rationed>, place: Place) -> Option<u64> {
    if let Some(value) = objects.get_mut(place) {
        *value = 25;
    }
    if !objects.is_placed(place) {
        return None;
    }
    Some(UnsafeRef::new(place).into_box(objects))
}

// Returns the value at the place, and whether the call `at` returns a reference to an object there.
fn look(objects: &Objects<u64, &Rationed>, place: Place) -> (Option<u64>, bool) {
    (objects.get(place).copied(), objects.at(place).is_some())
}

// The test places, changes and removes objects. An object for which there is no memory must be given back, and the place of a removed object must be
// used again.
// Promise: an object without memory, always-out-of-memory in objects.
#[test]
fn objects_come_and_go(rt: HostRuntime) {
    let rationed = Rationed::new(rt.alloc(), 0);
    let mut objects = Objects::new(&rationed);
    let (first, second) = (at(&rt, 0), at(&rt, 1));
    let placed = [
        put(&mut objects, 10),
        put(&mut objects, 10),
        put(&mut objects, 20),
    ];
    let taken = change_and_take(&mut objects, second);
    let seen = [look(&objects, first), look(&objects, second)];
    let again = put(&mut objects, 50);
    let (at_first, at_second) = (Ok(Some(first)), Ok(Some(second)));
    check(&rt, placed == [Err(10), at_first, at_second]);
    check(
        &rt,
        taken == Some(25) && seen == [(Some(10), true), (None, false)],
    );
    check(&rt, again == at_second && objects.len() == 2);
}
