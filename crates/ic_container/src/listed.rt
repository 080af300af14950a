//! A container has objects that are all in one list. It is a pool, its table of links and the list, as one value.
//!
//! ```text
//! let object = listed.place_front(10)?;
//! listed.move_to_front(object.place());
//! listed.remove(object.place()) // 10
//! ```

ghost use Rattle.std.specs.Prelude.{◌≡◌, ◌≤◌, ◌↔◌, ◌^◌, ◌++◌, ◌∷◌, [], true, None, Some, Err, List, length, IfOk, IfErr, IfSome, IsTrue, MatchOption};
ghost use Rattle.std.specs.Option.{option_copied};
ghost use Rattle.ic_link_ops.specs.Prelude.{Place, Frees, Places, is_placed, object_at, with_object, first, last};
ghost use Rattle.ic_pool.specs.Refusals.{value_of};
ghost use Rattle.ic_container.specs.Orders.{values_of};
ghost use Rattle.ic_container.specs.Values.{Without};

use crate::{Iter, lists};
use ic_link_ops::linked_list::TwoWords;
use ic_link_ops::{PlainTable, PrevPlace, TwoNarrowWords};
use ic_linked_list::LinkedList;
use ic_pool::{PlaceError, Pool};
use ic_unsafe_ref::{Place, UnsafeRef};
use std::alloc::{Allocator, Global};
use std::marker::Model;
use std::mem;

/// Objects that are all in one list.
///
/// A contract speaks of the objects' places from the front, and of the object at each place (`Order`). `W` is the type of the links' words, which have 8
/// bytes unless another type is named.
#[derive(Drop)]
pub struct Listed<T, A: Allocator = Global, W: PrevPlace = TwoWords> {
    pool: Pool<T, PlainTable<W, A>, A>,
    list: LinkedList<T>,
}

/// Objects that are all in one list, over links of 4-byte words. The links take half the memory, and there can be at most 536,870,911 objects.
pub type NarrowListed<T, A = Global> = Listed<T, A, TwoNarrowWords>;

impl<T, A: Allocator, W: PrevPlace> Model for Listed<T, A, W> {
    ghost use Rattle.ic_link_ops.specs.PlainTables.{linked_by, table};
    ghost use Rattle.ic_link_ops.specs.Readings.{neighbors_of};
    ghost use Rattle.ic_container.specs.Orders.{Order, order_code, order_of, IsListed};

    ghost Value = { Order T };

    ghost coded = { order_code T.code };

    ghost view = { λ l. order_of (neighbors_of W.next_word W.is_linked W.prev) (table W.width W.unlinked) l.pool.objects l.pool.links l.list };

    ghost invariant = { λ l. IsListed (neighbors_of W.next_word W.is_linked W.prev) (linked_by W.is_linked) (table W.width W.unlinked) l.pool.objects l.pool.links l.list };
}

impl<T, A: Allocator> Listed<T, A> {
    /// Makes an empty container. The call takes no memory. O(1).
    pub fn new(alloc: A) -> Listed<T, A>
    where
        A: Copy,
        ensures order { result.order ≡ [] }
        ensures vacant { (place : Place) → object_at result.values place ≡ None }
    {
        Listed::with_words(alloc)
    }
}

impl<T, A: Allocator, W: PrevPlace> Listed<T, A, W> {
    /// Makes an empty container over links with words of the type `W`, for example: `NarrowListed::with_words(rt.alloc())`. The call takes no memory. O(1).
    pub fn with_words(alloc: A) -> Listed<T, A, W>
    where
        A: Copy,
        ensures order { result.order ≡ [] }
        ensures vacant { (place : Place) → object_at result.values place ≡ None }
    {
        Listed {
            pool: Pool::new(alloc, PlainTable::new(alloc)),
            list: LinkedList::new(),
        }
    }

    /// Adds an object at the front. O(1), and at most two requests for memory.
    ///
    /// If the call is refused, the caller gets the value back, and nothing has changed. The error is `NoPlaceLeft` exactly if all 4,294,967,296 places are in
    /// use. Every other error is `OutOfMemory`. `OutOfMemory` is also the error if the links have 4-byte words, and all 536,870,911 places that such words
    /// can name are in use.
    pub fn place_front(&mut self, value: T) -> Result<UnsafeRef<T>, PlaceError<T>>
        ensures placed { IfOk result (λ object. Places self.old.values self.new.values object value) }
        ensures front { IfOk result (λ object. self.new.order ≡ object ∷ self.old.order) }
        ensures refused { IfErr result (λ refused. (value_of refused ≡ value) × (self.new ≡ self.old)) }
        ensures full { (result ≡ Err (PlaceError.NoPlaceLeft value)) ↔ 2 ^ 32 ≤ self.old.values.next }
    {
        let object = match self.pool.place(value) {
            Ok(object) => object,
            Err(refused) => return Err(refused),
        };
        lists::push_front(&mut self.list, &mut self.pool.links, object.place());
        Ok(object)
    }

    /// Adds an object at the back. In all other respects the call does what `place_front` does. O(1).
    pub fn place_back(&mut self, value: T) -> Result<UnsafeRef<T>, PlaceError<T>>
        ensures placed { IfOk result (λ object. Places self.old.values self.new.values object value) }
        ensures back { IfOk result (λ object. self.new.order ≡ self.old.order ++ object ∷ []) }
        ensures refused { IfErr result (λ refused. (value_of refused ≡ value) × (self.new ≡ self.old)) }
        ensures full { (result ≡ Err (PlaceError.NoPlaceLeft value)) ↔ 2 ^ 32 ≤ self.old.values.next }
    {
        let object = match self.pool.place(value) {
            Ok(object) => object,
            Err(refused) => return Err(refused),
        };
        lists::push_back(&mut self.list, &mut self.pool.links, object.place());
        Ok(object)
    }

    /// Moves the object at a place to the front. The other objects keep their order. The call requires that there is an object at the place. O(1), and it
    /// takes no memory.
    pub fn move_to_front(&mut self, place: Place)
        requires placed { is_placed self.old.values place ≡ true }
        ensures moved { (others : List Place) × Without place self.old.order others × (self.new.order ≡ place ∷ others) }
        ensures values { self.new.values ≡ self.old.values }
    {
        lists::move_to_front(&mut self.list, &mut self.pool.links, place);
    }

    /// Moves the object at a place to the back. In all other respects the call does what `move_to_front` does. O(1).
    pub fn move_to_back(&mut self, place: Place)
        requires placed { is_placed self.old.values place ≡ true }
        ensures moved { (others : List Place) × Without place self.old.order others × (self.new.order ≡ others ++ place ∷ []) }
        ensures values { self.new.values ≡ self.old.values }
    {
        lists::move_to_back(&mut self.list, &mut self.pool.links, place);
    }

    /// Replaces the object at the place by another value, and returns the old object. The call requires that there is an object at the place. The order stays
    /// as it was. O(1), and it takes no memory.
    pub fn replace(&mut self, place: Place, value: T) -> T
        requires placed { is_placed self.old.values place ≡ true }
        ensures value { object_at self.old.values place ≡ Some result }
        ensures values { self.new.values ≡ with_object self.old.values place value }
        ensures order { self.new.order ≡ self.old.order }
    {
        mem::replace(self.pool.objects.get_mut(place).unwrap(), value) // proved: one stands there
    }

    /// Removes the object and returns it. The call requires that there is an object at the place. The other objects keep their order. O(1), and it takes no
    /// memory.
    pub fn remove(&mut self, place: Place) -> T
        requires placed { is_placed self.old.values place ≡ true }
        ensures value { object_at self.old.values place ≡ Some result }
        ensures freed { Frees self.old.values self.new.values place }
        ensures removed { Without place self.old.order self.new.order }
    {
        lists::remove(&mut self.list, &mut self.pool.links, place);
        self.pool.remove(UnsafeRef::new(place))
    }

    /// Removes the first object and returns it, or returns `None` if there is no object. The other objects keep their order. O(1), and it takes no memory.
    pub fn pop_first(&mut self) -> Option<T>
        ensures { MatchOption result ((values_of self.old ≡ []) × (self.new ≡ self.old)) (λ first. values_of self.old ≡ first ∷ values_of self.new) }
    {
        let place = self.list.first()?;
        Some(self.remove(place))
    }

    /// Removes the last object and returns it, or returns `None` if there is no object. The other objects keep their order. O(1), and it takes no memory.
    pub fn pop_last(&mut self) -> Option<T>
        ensures { MatchOption result ((values_of self.old ≡ []) × (self.new ≡ self.old)) (λ last. values_of self.old ≡ values_of self.new ++ last ∷ []) }
    {
        let place = self.list.last()?;
        Some(self.remove(place))
    }

    /// Returns how many objects there are. O(1).
    #[inline]
    pub fn len(&self) -> usize
        ensures { result ≡ length (values_of self.now) }
    {
        self.pool.len()
    }

    /// Returns whether there is no object. O(1).
    #[inline]
    pub fn is_empty(&self) -> bool
        ensures { IsTrue result ↔ (values_of self.now ≡ []) }
    {
        self.len() == 0
    }

    /// Returns a walk over the objects in their order, from both ends. O(1), and it takes no memory.
    pub fn iter(&self) -> Iter<'_, T, A, W>
        ensures { result ≡ values_of self.now }
    {
        Iter::new(self.list.iter(&self.pool.links, &self.pool.objects))
    }

    /// Returns the object that a reference names, or `None` if there is no object at the reference's place. O(1).
    pub fn get(&self, object: &UnsafeRef<T>) -> Option<&T>
        ensures { option_copied result ≡ object_at self.now.values object.now }
    {
        self.pool.get(object)
    }

    /// Returns whether there is an object at the place of a reference. O(1).
    pub fn is_placed(&self, object: &UnsafeRef<T>) -> bool
        ensures { result ≡ is_placed self.now.values object.now }
    {
        self.pool.is_placed(object)
    }

    /// Returns the place of the first object, or `None` if there is no object. O(1).
    pub fn first(&self) -> Option<Place>
        ensures first { result ≡ first self.now.order }
        ensures placed { IfSome result (λ place. is_placed self.now.values place ≡ true) }
    {
        self.list.first()
    }

    /// Returns the place of the last object, or `None` if there is no object. O(1).
    pub fn last(&self) -> Option<Place>
        ensures last { result ≡ last self.now.order }
        ensures placed { IfSome result (λ place. is_placed self.now.values place ≡ true) }
        ensures after { (front back : List Place) (place : Place) → result ≡ Some place → self.now.order ≡ front ++ place ∷ back → back ≡ [] }
    {
        self.list.last()
    }
}
