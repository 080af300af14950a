//! Tests of errors: the objects that errors give back, the numbers of errors, and the printed texts of errors, places and references.

use crate::fixture::{at, check};
use ic_link_ops::{AlreadyLinked, CoverError, ReplaceError};
use ic_unsafe_ref::{Place, UnsafeRef};
use std::alloc::{AllocError, Global};

// Returns the places of the objects that three refusals of the object at `place` give back.
fn given_back(place: Place) -> [Place; 3] {
    let refused: AlreadyLinked<u64> = AlreadyLinked(UnsafeRef::new(place));
    let null: ReplaceError<u64> = ReplaceError::Null(UnsafeRef::new(place));
    let linked: ReplaceError<u64> = ReplaceError::AlreadyLinked(UnsafeRef::new(place));
    [
        refused.into_object().place(),
        null.into_object().place(),
        linked.into_object().place(),
    ]
}

// Returns the printed text of a place, a copy of a reference to it, a refusal, and the errors of tables.
fn text(alloc: Global, place: Place) -> Result<String, AllocError> {
    let object: UnsafeRef<u64> = UnsafeRef::new(place);
    let refused = AlreadyLinked(object.clone()?);
    let (many, memory) = (CoverError::TooManyPlaces, CoverError::OutOfMemory);
    format!(in alloc; "{place:?} {object:?} {refused:?} {many} {memory}")
}

// Each refusal must give back its object, and errors, places and references must print the expected texts and numbers.
// Promise: text of a reference, texts of errors of tables.
#[test]
fn what_refusals_give_back_and_say(rt: HostRuntime) {
    let place = at(&rt, 0);
    let text = text(rt.alloc(), place).expect(&rt, "memory for a text");
    let numbers = [
        CoverError::TooManyPlaces as u8,
        CoverError::OutOfMemory as u8,
    ];
    check(
        &rt,
        text.as_str() == "0 0 AlreadyLinked(0) TooManyPlaces OutOfMemory",
    );
    check(&rt, given_back(place) == [place; 3] && numbers == [1, 2]);
}
