//! This file defines references to objects.
//!
//! ```text
//! let object = UnsafeRef::from_box(&mut objects, value)?;
//! list.push_back(&mut links, object)?;
//! ```

ghost use Rattle.std.specs.Prelude.{◌≡◌, ◌<◌, ◌^◌, true, Some, IfOk, IfErr, ⊤};
ghost use Rattle.ic_unsafe_ref.specs.Objects.{Places, Frees, object_at, is_placed};

use crate::{Objects, Place};
use std::alloc::{AllocError, Allocator};
use std::fmt;
use std::marker::{Model, PhantomData};

/// A reference to an object. The reference names the object by its place.
///
/// The reference does not own the object and does not keep it in the store. A place that was freed may be given to another
/// object. An old reference to the freed place then names the new object.
pub struct UnsafeRef<T> {
    place: Place,
    of: PhantomData<T>,
}

impl<T> Model for UnsafeRef<T> {
    ghost use Rattle.ic_unsafe_ref.specs.declared.place.Place.{Place};

    ghost Value = { Place };

    ghost view = { λ r. r.place };
}

impl<T> Drop for UnsafeRef<T> {
    fn drop(self) {
        let UnsafeRef { place: _, of: _ } = self;
    }
}

impl<T> UnsafeRef<T> {
    /// A reference to whichever object is at `place`. O(1).
    #[inline]
    pub fn new(place: Place) -> UnsafeRef<T>
        ensures { result ≡ place }
    {
        UnsafeRef {
            place,
            of: PhantomData,
        }
    }

    /// The place of the object. O(1).
    #[inline]
    pub fn place(&self) -> Place
        ensures { result ≡ self.now }
    {
        self.place
    }

    /// Puts `value` at the place that [`Objects::next_place`] returns, and returns a reference to the value.
    ///
    /// The call requires that a place is left. If there is no memory for the value, the error returns the value and nothing has
    /// changed. O(1) on average, because the store grows from time to time.
    pub fn from_box<A: Allocator>(
        objects: &mut Objects<T, A>,
        value: T,
    ) -> Result<UnsafeRef<T>, (AllocError, T)>
        requires { objects.old.next < 2 ^ 32 }
        ensures placed { IfOk result (λ r. Places objects.old objects.new r value) }
        ensures refused { IfErr result (λ failed. (failed.1 ≡ value) × (objects.new ≡ objects.old)) }
    {
        match objects.slab.insert(value) {
            Ok(index) => Ok(UnsafeRef::new(Place::of_index(index))),
            Err(failed) => Err((AllocError, failed.value)),
        }
    }

    /// Removes the object from its place and returns it. The place is then vacant, and a later object may get the place. Other
    /// references to the removed object then name the later object.
    ///
    /// The call requires that the place has an object. Links are stored apart from objects, so a place that is linked stays
    /// linked. O(1), and the call takes no memory.
    pub fn into_box<A: Allocator>(self, objects: &mut Objects<T, A>) -> T
        requires placed { is_placed objects.old self ≡ true }
        ensures value { object_at objects.old self ≡ Some result }
        ensures freed { Frees objects.old objects.new self }
    {
        objects.slab.remove(self.place.index())
    }
}

impl<T> Clone for UnsafeRef<T> {
    ghost is_clone = { λ r copy. copy ≡ r };

    ghost is_infallible = { λ _. ⊤ };

    /// Returns a reference to the same object, and never fails.
    fn clone(&self) -> Result<Self, AllocError> {
        Ok(UnsafeRef::new(self.place))
    }
}

/// A reference is printed as the index of its place.
impl<T> fmt::Debug for UnsafeRef<T> {
    fn fmt<W: fmt::Write>(&self, f: &mut fmt::Formatter<W>) -> fmt::Result {
        fmt::Debug::fmt(&self.place, f)
    }
}
