//! The pool stores objects together with the tables of their links.
//!
//! ```text
//! let object = pool.place(10)?;
//! pool.get(&object) // Some(&10)
//! pool.remove(object) // 10: it is linked in no table
//! ```

ghost use Rattle.std.specs.Prelude.{◌≡◌, ◌≤◌, ◌↔◌, ◌^◌, true, None, Some, Err, IfOk, IfErr};
ghost use Rattle.std.specs.FinMap as map;
ghost use Rattle.std.specs.Option.{option_copied};
ghost use Rattle.ic_link_ops.specs.Prelude.{Place, Frees, Places, is_placed, object_at};
ghost use Rattle.ic_pool.specs.Refusals.{value_of};

use crate::{PlaceError, Tables};
use ic_link_ops::CoverError;
use ic_unsafe_ref::{Objects, UnsafeRef};
use std::alloc::{Allocator, Global};

/// A store of objects with the tables of their links.
///
/// Both fields are public, because a call of a collection borrows a table, or a table and the objects: `list.push_back(&mut
/// pool.links, ..)`, `tree.insert(&mut pool.links.0, &pool.objects, ..)`. The invariant of a loop over a pool is `IsPooled`
/// (specs/Pooled.antt).
#[derive(Drop)]
pub struct Pool<T, L, A: Allocator = Global> {
    /// The store of objects, each at its place.
    pub objects: Objects<T, A>,
    /// The table of the objects' links, or a pair of tables.
    pub links: L,
}

impl<T, L: Tables, A: Allocator> Pool<T, L, A> {
    ghost use Rattle.std.specs.Borrow.{sem};
    ghost use Rattle.std.specs.Option.{option_copied_mut};
    ghost use Rattle.ic_pool.specs.Lends.{LendsPooled};

    /// An empty pool with the given tables. The call takes no memory. O(1).
    pub fn new(alloc: A, links: L) -> Pool<T, L, A>
        ensures empty { result.objects.values ≡ map.empty }
        ensures vacant { (place : Place) → object_at result.objects place ≡ None }
        ensures first { result.objects.next ≡ 0 }
        ensures links { result.links ≡ links }
    {
        Pool {
            objects: Objects::new(alloc),
            links,
        }
    }

    /// Puts `value` at a place, and first makes room for the links of the new object. O(1), and the call takes memory only if a
    /// table or the objects grow.
    ///
    /// If the call is refused, the error contains the value, and all objects and links are as before. The error is `NoPlaceLeft`
    /// exactly if all 4,294,967,296 places are in use. In every other case the error is `OutOfMemory`, for example if a table
    /// with words of 4 bytes can name no further place.
    ///
    /// If the table is a plain table, the clause `keeps` is the predicate `Grows`. The field `entries` of `Grows` says that each
    /// link is as before, a fact that lemmas on lists require.
    pub fn place(&mut self, value: T) -> Result<UnsafeRef<T>, PlaceError<T>>
        ensures placed { IfOk result (λ object. Places self.old.objects self.new.objects object value) }
        ensures covered { IfOk result (λ object. L.Covers self.new.links object) }
        ensures keeps { L.Keeps self.old.links self.new.links }
        ensures refused { IfErr result (λ refused. (value_of refused ≡ value) × (self.new.objects ≡ self.old.objects)) }
        ensures full { (result ≡ Err (PlaceError.NoPlaceLeft value)) ↔ 2 ^ 32 ≤ self.old.objects.next }
    {
        let Some(place) = self.objects.next_place() else {
            return Err(PlaceError::NoPlaceLeft(value));
        };
        let Ok(()) = self.links.cover(place.index() + 1) else {
            return Err(PlaceError::OutOfMemory(value));
        };
        match UnsafeRef::from_box(&mut self.objects, value) {
            Ok(object) => Ok(object),
            Err(refused) => Err(PlaceError::OutOfMemory(refused.1)),
        }
    }

    /// Removes the object from the pool and returns it. The place of the object is then vacant, and a later object may get the
    /// place. O(1), and the call takes no memory.
    ///
    /// The call requires that the object is placed, and that no table links it.
    pub fn remove(&mut self, object: UnsafeRef<T>) -> T
        requires placed { is_placed self.old.objects object ≡ true }
        requires free { L.IsFree self.old.links object }
        ensures value { object_at self.old.objects object ≡ Some result }
        ensures freed { Frees self.old.objects self.new.objects object }
        ensures links { self.new.links ≡ self.old.links }
    {
        object.into_box(&mut self.objects)
    }

    /// The object at the reference's place, or `None` if the place is vacant. O(1).
    #[inline]
    pub fn get(&self, object: &UnsafeRef<T>) -> Option<&T>
        ensures { option_copied result ≡ object_at self.now.objects object.now }
    {
        self.objects.get(object.place())
    }

    /// A mutable reference to the object at the reference's place, or `None` if the place is vacant. O(1).
    ///
    /// When the borrow ends, the object at the place is the last value that was written through the reference, and nothing else
    /// has changed.
    #[inline]
    pub fn get_mut(&mut self, object: &UnsafeRef<T>) -> Option<&mut T>
        ensures* writes_back { sem 𝓛 (LendsPooled T.row L.row A.row A.Allocator self.entry object.now result) }
        ensures value { option_copied_mut result ≡ object_at self.old.objects object.now }
    {
        self.objects.get_mut(object.place())
    }

    /// Whether there is an object at the reference's place. O(1).
    #[inline]
    pub fn is_placed(&self, object: &UnsafeRef<T>) -> bool
        ensures { result ≡ is_placed self.now.objects object.now }
    {
        self.objects.is_placed(object.place())
    }

    /// The number of objects in the pool. O(1).
    #[inline]
    pub fn len(&self) -> usize
        ensures { result ≡ map.len self.now.objects.values }
    {
        self.objects.len()
    }
}
