//! Tests of the limits of places, and of their order.

use crate::fixture::{LAST, at, check};
use ic_unsafe_ref::Place;
use std::cmp::Ordering;

// Returns the index of a place, if there is a place.
fn index(place: Option<Place>) -> Option<usize> {
    Some(place?.index())
}

// Returns the indices of the last place and of the place after it, which does not exist. Then come the indices of the places that five words name. The
// greatest of these indices is twice the index of the last place.
fn limits() -> [Option<usize>; 7] {
    [
        index(Place::new(4_294_967_295)),
        index(Place::new(4_294_967_296)),
        index(Place::from_word(0)),
        index(Place::from_word(64)),
        index(Place::from_word(34_359_738_368)),
        index(Place::from_word(34_359_738_376)),
        index(Place::from_word(68_719_476_728)),
    ]
}

// A place with the last index must exist, a place after it must not, and words must name the places with the expected indices.
// Promise: limits of places.
#[test]
fn how_far_places_reach(rt: HostRuntime) {
    let wanted = [
        Some(LAST),
        None,
        None,
        Some(7),
        Some(LAST),
        Some(4_294_967_296),
        Some(8_589_934_590),
    ];
    check(&rt, Place::COUNT == 4_294_967_296 && limits() == wanted);
}

// Returns the results of all comparisons of two places.
fn orders(low: Place, high: Place) -> ([Ordering; 3], [bool; 2]) {
    let orders = [low.cmp(&high), high.cmp(&low), low.cmp(&low)];
    (orders, [low < high, low == high])
}

#[test]
fn places_are_in_order(rt: HostRuntime) {
    let orders = orders(at(&rt, 3), at(&rt, 5));
    let wanted = [Ordering::Less, Ordering::Greater, Ordering::Equal];
    check(&rt, orders == (wanted, [true, false]));
}
