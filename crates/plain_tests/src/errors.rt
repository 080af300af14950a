//! A test of refusals that the operator `?` converts into an `anyhow::Error`, and of the texts that these errors print.

use ic_link_ops::linked_list::LinkOps;
use ic_link_ops::rbtree::LinkOps as TreeLinkOps;
use ic_link_ops::{AlreadyLinked, ReplaceError};
use ic_plain::example::{ByDeadline, Timer};
use ic_plain::rbtree;
use ic_pool::{PlaceError, Pool};
use ic_rbtree::{Entry, RefusedInsert};
use ic_test_support::rationed::Rationed;
use ic_unsafe_ref::{Objects, Place, UnsafeRef};
use std::alloc::{AllocError, Allocator, Global};
use std::error::Error;
use std::process::Abort;

// Converts the refusal into an `anyhow::Error` by the operator `?`, and returns the error.
fn passed_on<E: Error>(refused: E) -> anyhow::Result<()> {
    let outcome: Result<(), E> = Err(refused);
    outcome?;
    Ok(())
}

// Places a value in a new pool, and returns the error if there is no memory.
fn place_one<A: Allocator + Copy>(alloc: A) -> anyhow::Result<()> {
    let mut pool = Pool::new(alloc, LinkOps::new(alloc));
    let _object = pool.place(10)?;
    Ok(())
}

// Returns the error that refuses the object at the only gap of a new tree.
fn refused_at<A: Allocator, B: Allocator>(
    links: &mut TreeLinkOps<A>,
    objects: &Objects<Timer, B>,
    object: UnsafeRef<Timer>,
) -> anyhow::Result<()> {
    let mut timers = rbtree::new(ByDeadline);
    match timers.entry(links, objects, &30) {
        Entry::Vacant(gap) => passed_on(RefusedInsert { gap, object }),
        Entry::Occupied(_) => Ok(()),
    }
}

// Returns the text that the error of the outcome prints, or an empty text if there is none.
fn text_of(alloc: Global, outcome: anyhow::Result<()>) -> Result<String, AllocError> {
    match outcome {
        Ok(()) => Ok(String::new(alloc)),
        Err(error) => format!(in alloc; "{error}"),
    }
}

// Ends the test with a failure unless the outcome is an error that prints this text.
fn says(rt: &impl Abort, alloc: Global, outcome: anyhow::Result<()>, text: &str) {
    let printed = text_of(alloc, outcome).expect(rt, "memory for a text");
    assert!(rt; printed.as_str() == text);
}

#[test]
fn refusals_are_errors_with_their_texts(rt: HostRuntime) {
    let alloc = rt.alloc();
    let place = Place::new(0).expect(&rt, "a place");
    let linked = passed_on(AlreadyLinked::<u64>(UnsafeRef::new(place)));
    says(&rt, alloc, linked, "the object is linked already");
    let null = passed_on(ReplaceError::<u64>::Null(UnsafeRef::new(place)));
    says(&rt, alloc, null, "no member stands there");
    let other = passed_on(ReplaceError::<u64>::AlreadyLinked(UnsafeRef::new(place)));
    says(&rt, alloc, other, "the object is linked already");
    let full = passed_on(PlaceError::NoPlaceLeft(10));
    says(&rt, alloc, full, "no place is left for another object");
    let short = Rationed::new(alloc, 0);
    says(&rt, alloc, place_one(&short), "out of memory");
    let mut links = TreeLinkOps::new(alloc);
    let objects = Objects::new(alloc);
    let refused = refused_at(&mut links, &objects, UnsafeRef::new(place));
    says(&rt, alloc, refused, "the object is linked already");
}
