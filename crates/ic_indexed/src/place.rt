//! A new object is stored at a place, and added to the index.

ghost use Rattle.std.specs.Prelude.{◌≡◌, ◌≤◌, ◌↔◌, ◌^◌, Err, IfOk, IfErr};
ghost use Rattle.ic_unsafe_ref.specs.Objects.{Places};
ghost use Rattle.ic_pool.specs.Refusals.{value_of};

use crate::{HasKey, Index};
use ic_pool::{PlaceError, Pool, Tables};
use ic_unsafe_ref::UnsafeRef;
use std::alloc::Allocator;

// Stores a value as a new object, and inserts the object into the index where its key belongs. Afterwards the list's table covers the object's place, and its
// entries are as they were.
pub(crate) fn place<T: HasKey, I: Index<T, A>, L: Tables, A: Allocator>(
    pool: &mut Pool<T, (I::Links, L), A>,
    index: &mut I,
    value: T,
) -> Result<UnsafeRef<T>, PlaceError<T>>
    requires all { I.Has index.old pool.old.links.0 pool.old.objects }
    ensures placed { IfOk result (λ object. Places pool.old.objects pool.new.objects object value) }
    ensures covered { IfOk result (λ object. L.Covers pool.new.links.1 object) }
    ensures keeps { L.Keeps pool.old.links.1 pool.new.links.1 }
    ensures all { I.Has index.new pool.new.links.0 pool.new.objects }
    ensures parts { I.parts index.new ≡ I.parts index.old }
    ensures refused { IfErr result (λ refused. (value_of refused ≡ value) × (pool.new.objects ≡ pool.old.objects)) }
    ensures full { (result ≡ Err (PlaceError.NoPlaceLeft value)) ↔ 2 ^ 32 ≤ pool.old.objects.next }
{
    let object = match pool.place(value) {
        Ok(object) => object,
        Err(refused) => return Err(refused),
    };
    index.insert_place(&mut pool.links.0, &pool.objects, object.place());
    Ok(object)
}
