//! Slots: values that are named by handles. The handle of a removed value names nothing.
//!
//! ```text
//! let mut slots = Slots::new(rt.alloc());
//! let first = slots.insert(10)?;
//! slots.remove(first); // Some(10)
//! let second = slots.insert(20)?; // in the same slot
//! slots.get(first) // None: its generation is over
//! ```

ghost use Rattle.std.specs.Prelude.{◌≡◌, ◌+◌, ◌↔◌, true, IsTrue, IsOk, IfOk, IfErr, IfSome, IfNone, OnOk};
ghost use Rattle.std.specs.Option.{option_copied};
ghost use Rattle.ic_unsafe_ref.specs.Objects.{is_placed, object_at, with_object};
ghost use Rattle.ic_pool.specs.Refusals.{lacks_place, value_of};
ghost use Rattle.pool_uses.specs.KeptSlots.{IsTaken};
ghost use Rattle.pool_uses.specs.Slots.{named};

use ic_link_ops::singly_linked_list::LinkOps;
use ic_pool::{PlaceError, Pool};
use ic_singly_linked_list::SinglyLinkedList;
use ic_unsafe_ref::{Place, UnsafeRef};
use std::alloc::{Allocator, Global};
use std::marker::Model;

/// The name of a value of [`Slots`]. It has a place and a generation. The generation distinguishes the values that the slot at this place has one after the
/// other.
#[derive(Clone, Copy, PartialEq, Eq)]
pub struct Handle {
    place: Place,
    generation: u64,
}

// A slot, which is the object at a place. It has a value with its generation, or no value and the generation of the next value.
#[derive(Drop)]
pub(crate) struct Slot<T> {
    pub(crate) generation: u64,
    pub(crate) value: Option<T>,
}

/// Values that are named by handles. A handle names one value, from its insertion until its removal, and never names another.
///
/// A contract sees which value each handle names, and whether `insert` has ever returned the handle. It also sees how many handles name a value,
/// which slots are vacant, and whether all places are in use.
#[derive(Drop)]
pub struct Slots<T, A: Allocator = Global> {
    pool: Pool<Slot<T>, LinkOps<A>, A>,
    vacant: SinglyLinkedList<Slot<T>>,
    len: usize,
}

impl<T, A: Allocator> Model for Slots<T, A> {
    ghost use Rattle.pool_uses.specs.Slots.{Naming, naming_code};
    ghost use Rattle.pool_uses.specs.KeptSlots.{naming_of, IsKept};

    ghost Value = { Naming T };

    ghost coded = { naming_code T.code };

    ghost view = { λ s. naming_of s.pool.objects s.len };

    ghost invariant = { λ s. IsKept s.pool.objects s.pool.links s.vacant s.len };
}

// Fills a slot with a value, and returns its generation.
fn fill<T: Drop, A: Allocator>(
    pool: &mut Pool<Slot<T>, LinkOps<A>, A>,
    slot: &UnsafeRef<Slot<T>>,
    value: T,
) -> u64
    requires placed { is_placed pool.old.objects slot.now ≡ true }
    ensures filled { (s : Slot T) → object_at pool.old.objects slot.now ≡ Some s → (result ≡ s.generation)
        × (pool.new.objects ≡ with_object pool.old.objects slot.now (record s { value = Some value })) }
    ensures links { pool.new.links ≡ pool.old.links }
{
    let slot = pool.get_mut(slot).unwrap();
    slot.value = Some(value);
    slot.generation
}

// Removes the value from a slot and returns it. The slot's generation is then the next one.
fn empty<T, A: Allocator>(pool: &mut Pool<Slot<T>, LinkOps<A>, A>, slot: &UnsafeRef<Slot<T>>) -> T
    requires taken { IsTaken (object_at pool.old.objects slot.now) }
    ensures emptied { (s : Slot T) → object_at pool.old.objects slot.now ≡ Some s → (s.value ≡ Some result)
        × (pool.new.objects ≡ with_object pool.old.objects slot.now (record { generation = s.generation + 1; value = None })) }
    ensures links { pool.new.links ≡ pool.old.links }
{
    let slot = pool.get_mut(slot).unwrap();
    slot.generation += 1;
    slot.value.take().unwrap()
}

impl<T: Drop, A: Allocator> Slots<T, A> {
    ghost use Rattle.pool_uses.specs.Slots.{NamesNothing, HasVacant, IsVacantSlot, IsUnchanged, Inserts, Removes};

    /// Makes a `Slots` in which no handle names a value. It takes no memory.
    pub fn new(alloc: A) -> Slots<T, A>
    where
        A: Copy,
        ensures { NamesNothing result }
    {
        Slots {
            pool: Pool::new(alloc, LinkOps::new(alloc)),
            vacant: SinglyLinkedList::new(),
            len: 0,
        }
    }

    /// Returns how many handles name a value.
    #[inline]
    pub fn len(&self) -> usize
        ensures { result ≡ self.now.count }
    {
        self.len
    }

    /// Returns whether no handle names a value.
    #[inline]
    pub fn is_empty(&self) -> bool
        ensures { IsTrue result ↔ (self.now.count ≡ 0) }
    {
        self.len == 0
    }

    /// Returns the value that the handle names, or `None` for an old handle, even if its slot has another value now. O(1).
    pub fn get(&self, handle: Handle) -> Option<&T>
        ensures { option_copied result ≡ named self.now handle }
    {
        let slot = self.pool.objects.get(handle.place)?;
        if slot.generation == handle.generation {
            slot.value.as_ref()
        } else {
            None
        }
    }

    /// Inserts the value into the slot that became vacant last, or into a new slot if none is vacant. It returns the handle of the value. O(1), and it
    /// takes memory only for a new slot.
    ///
    /// No call returned this handle before. If the value is refused, the caller gets it back, and nothing has changed. The error is `NoPlaceLeft`
    /// exactly if all 4,294,967,296 places are in use, and otherwise `OutOfMemory`. While a slot is vacant, no value is refused, and no slot is
    /// added.
    pub fn insert(&mut self, value: T) -> Result<Handle, PlaceError<T>>
        ensures inserted { IfOk result (λ handle. Inserts handle value self.old self.new) }
        ensures refused { IfErr result (λ refused. (value_of refused ≡ value) × IsUnchanged self.old self.new
            × (lacks_place refused ≡ self.old.is_full)) }
        ensures ready { HasVacant self.old → IsOk result }
        ensures reused { HasVacant self.old → IfOk result (λ handle. IsVacantSlot handle self.old) }
    {
        if let Some(slot) = self.vacant.pop_front(&mut self.pool.links) {
            let generation = fill(&mut self.pool, &slot, value);
            self.len += 1;
            return Ok(Handle {
                place: slot.place(),
                generation,
            });
        }
        let slot = match self.pool.place(Slot {
            generation: 0,
            value: Some(value),
        }) {
            Ok(slot) => slot,
            Err(PlaceError::NoPlaceLeft(slot)) => {
                return Err(PlaceError::NoPlaceLeft(slot.value.unwrap())); // proved: it has one
            }
            Err(PlaceError::OutOfMemory(slot)) => {
                return Err(PlaceError::OutOfMemory(slot.value.unwrap()));
            }
        };
        self.len += 1;
        Ok(Handle {
            place: slot.place(),
            generation: 0,
        })
    }

    /// Removes the value that the handle names and returns it, or returns `None` for an old handle. From then on the handle names nothing. O(1), and
    /// it takes no memory.
    ///
    /// The slot is then vacant, and can get another value. After a slot has had 2^64 - 1 values, its generations are used up, and the call does not
    /// add it to the list of vacant slots again.
    pub fn remove(&mut self, handle: Handle) -> Option<T>
        ensures value { result ≡ named self.old handle }
        ensures removed { IfSome result (λ value. Removes handle self.old self.new) }
        ensures unchanged { IfNone result (IsUnchanged self.old self.new) }
    {
        self.get(handle)?;
        let slot = UnsafeRef::new(handle.place);
        let value = empty(&mut self.pool, &slot);
        self.len -= 1;
        if handle.generation + 1 == u64::MAX {
            return Some(value); // the slot is used up
        }
        let _ = self.vacant.push_front(&mut self.pool.links, slot); // proved: it is not linked
        Some(value)
    }
}
