//! This file defines the store of objects. Each object is at a place.
//!
//! ```text
//! let first = UnsafeRef::from_box(&mut objects, 10)?;
//! objects.is_placed(first.place()) // true
//! ```

ghost use Rattle.std.specs.Prelude.{◌≡◌, ◌<◌, ◌≤◌, ◌^◌, Some, None, MatchOption, option_copied, if◌then◌else◌};
ghost use Rattle.std.specs.FinMap as map;
ghost use Rattle.ic_unsafe_ref.specs.declared.place.Place.{Place};
ghost use Rattle.ic_unsafe_ref.specs.Places.{index_of};
ghost use Rattle.ic_unsafe_ref.specs.Objects.{object_at, is_placed};

use crate::{Place, UnsafeRef};
use slab::Slab;
use std::alloc::{Allocator, Global};
use std::marker::Model;

/// A store of values of one type. Each value keeps its place until the value is removed.
///
/// In contracts the store consists of a finite map from places to values, and of the index of the place that the next value gets.
#[derive(Drop)]
pub struct Objects<T, A: Allocator = Global> {
    pub(crate) slab: Slab<T, A>,
}

impl<T, A: Allocator> Model for Objects<T, A> {
    ghost use Rattle.std.specs.Prelude.{ℕ, ◌+◌, ◌<◌, ◌^◌};
    ghost use Rattle.std.specs.FinMap as map;
    ghost use Rattle.slab.specs.Slab.{ContainsKey, entries};
    ghost use Rattle.ic_unsafe_ref.specs.Objects.{Objects as Placed, objects_code};

    ghost Value = { Placed T };

    ghost coded = { objects_code T.code };

    ghost view = { λ o. record { values = map.from_entries (entries o.slab); next = o.slab.vacant_key } };

    ghost invariant = { λ o. (key : ℕ) → ContainsKey o.slab key → key + 1 < 2 ^ 33 };
}

impl<T, A: Allocator> Objects<T, A> {
    ghost use Rattle.std.specs.Borrow.{sem};
    ghost use Rattle.std.specs.Option.{option_copied_mut};
    ghost use Rattle.ic_unsafe_ref.specs.Lends.{LendsObject};

    /// A new store without objects. The store takes no memory until the first object is placed. O(1).
    pub fn new(alloc: A) -> Self
        ensures empty { result.values ≡ map.empty }
        ensures vacant { (place : Place) → object_at result place ≡ None }
        ensures first { result.next ≡ 0 }
    {
        Objects {
            slab: Slab::new(alloc),
        }
    }

    /// The number of objects that are in the store. O(1).
    #[inline]
    pub fn len(&self) -> usize
        ensures { result ≡ map.len self.now.values }
    {
        self.slab.len()
    }

    /// The object at `place`, or `None` if the place is vacant. The call makes one look-up. O(1).
    #[inline]
    pub fn get(&self, place: Place) -> Option<&T>
        ensures { option_copied result ≡ object_at self.now place }
    {
        self.slab.get(place.index())
    }

    /// A mutable reference to the object at `place`, or `None` if the place is vacant. The call makes one look-up. O(1).
    ///
    /// When the borrow ends, the object at the place is the last value that was written through the reference, and nothing else
    /// has changed.
    #[inline]
    pub fn get_mut(&mut self, place: Place) -> Option<&mut T>
        ensures* writes_back { sem 𝓛 (LendsObject T.row A.row A.Allocator self.entry place result) }
        ensures value { option_copied_mut result ≡ object_at self.old place }
    {
        self.slab.get_mut(place.index())
    }

    /// Whether there is an object at `place`. The call makes one look-up. O(1).
    #[inline]
    pub fn is_placed(&self, place: Place) -> bool
        ensures { result ≡ is_placed self.now place }
    {
        self.slab.contains(place.index())
    }

    /// A reference to the object at `place`, or `None` if the place is vacant. O(1).
    #[inline]
    pub fn at(&self, place: Place) -> Option<UnsafeRef<T>>
        ensures { result ≡ (if is_placed self.now place then Some place else None) }
    {
        if self.is_placed(place) {
            Some(UnsafeRef::new(place))
        } else {
            None
        }
    }

    /// The vacant place that the next object gets, or `None` if there is no place left. O(1).
    #[inline]
    pub fn next_place(&self) -> Option<Place>
        ensures { MatchOption result (2 ^ 32 ≤ self.now.next)
            (λ place. (index_of place ≡ self.now.next) × self.now.next < 2 ^ 32 × (object_at self.now place ≡ None)) }
    {
        Place::new(self.slab.vacant_key())
    }
}
