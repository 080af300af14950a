//! These functions replace an object's value by another value, and change the index so that it finds the object by the key of the new value.

ghost use Rattle.std.specs.Prelude.{◌≡◌, true, Some};
ghost use Rattle.ic_unsafe_ref.specs.Objects.{is_placed, object_at, with_object};

use crate::{HasKey, Index};
use ic_unsafe_ref::{Objects, Place};
use std::alloc::Allocator;
use std::mem;

// Replaces the value of the object at a place by another value, and returns the old value.
fn exchange<T, A: Allocator>(objects: &mut Objects<T, A>, place: Place, value: T) -> T
    requires { is_placed objects.old place ≡ true }
    ensures value { object_at objects.old place ≡ Some result }
    ensures exchanged { objects.new ≡ with_object objects.old place value }
{
    mem::replace(objects.get_mut(place).unwrap(), value) // proved: one stands there
}

// Replaces the value of an object by another value, moves the object in the index to where the new key belongs, and returns the old value. If both values
// have the same key, the index stays as it is.
pub(crate) fn replace_keyed<T: HasKey, I: Index<T, A>, A: Allocator>(
    index: &mut I,
    links: &mut I::Links,
    objects: &mut Objects<T, A>,
    place: Place,
    value: T,
) -> T
    requires all { I.Has index.old links.old objects.old }
    requires placed { is_placed objects.old place ≡ true }
    ensures all { I.Has index.new links.new objects.new }
    ensures parts { I.parts index.new ≡ I.parts index.old }
    ensures value { object_at objects.old place ≡ Some result }
    ensures exchanged { objects.new ≡ with_object objects.old place value }
{
    if *objects.get(place).unwrap().key() == *value.key() {
        return exchange(objects, place, value);
    }
    index.remove_place(links, &*objects, place);
    let gone = exchange(objects, place, value);
    index.insert_place(links, &*objects, place);
    gone
}
