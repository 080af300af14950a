//! The collections of a world by number. A collection is live until it is disposed of. Each live collection is stored in a list of its field. The
//! number of a disposed collection still takes 8 bytes.
//!
//! ```text
//! let number = collections.push(field, AnyCollection::new(kind))?;
//! collections.members_mut(number).go_null();
//! collections.dispose(number); // it names nothing from then on
//! ```

ghost use Rattle.std.specs.Prelude.{◌≡◌, ◌<◌, ◌↔◌, [], length, map, slice_set, Some, None, IsSome, IsTrue, OnOk, vec_len};
ghost use Rattle.ic_link_ops.specs.Tables.{IsCovered};
ghost use Rattle.ic_any_collection.specs.AnyTables.{table_in};
ghost use Rattle.ic_world.specs.Tables.{at};
ghost use Rattle.ic_world.specs.Collections.{its_field, its_members, AreHeld, HasMember};
ghost use Rattle.ic_world.specs.ByNumber.{items_of, IsTakenOut, Enters, HaveLists, EachHeld, SomeHas};
ghost use Rattle.ic_world.specs.Pieces.{Appends};

use crate::call::Refusal;
use ic_any_collection::{AnyCollection, AnyTable};
use ic_unsafe_ref::Place;
use std::alloc::{AllocError, Allocator, Global};
use std::marker::Model;

// Where a collection is stored: the number of its field, and its index in the list of the live collections of this field.
#[derive(Clone, Copy)]
struct Slot {
    field: u32,
    index: u32,
}

// The index that marks a disposed collection. Each live collection has a lower index.
const DISPOSED: u32 = u32::MAX;

// A live collection of a field, with its number.
#[derive(Drop)]
struct Numbered<T> {
    number: usize,
    members: AnyCollection<T>,
}

/// The collections of all fields, by number. A contract sees them as a list, with `None` for each collection that was disposed of.
#[derive(Drop)]
pub struct CollectionsByNumber<T, M: Allocator + Copy = Global> {
    alloc: M,
    numbers: Vec<Slot, M>,
    // The list of the live collections of each field. A field without a list has no live collection.
    live: Vec<Vec<Numbered<T>, M>, M>,
}

impl<T, M: Allocator + Copy> Model for CollectionsByNumber<T, M> {
    ghost use Rattle.std.specs.Prelude.{List, Option, map};
    ghost use Rattle.ic_world.specs.declared.collection.Collection.{Collection};

    ghost Value = { List (Option (Collection T)) };

    ghost use Rattle.ic_world.specs.ByNumber.{by_number, items_of, AreNumbered};

    ghost view = { λ c. by_number (map items_of c.live.items) c.numbers.items };

    ghost invariant = { λ c. AreNumbered (map items_of c.live.items) c.numbers.items };
}

// Removes the collection at `index` from the list of a field. The last collection of the list moves to this index, and the function returns the
// number of that last collection.
fn take_out<T, M: Allocator>(list: &mut Vec<Numbered<T>, M>, index: usize) -> usize
    requires { index < vec_len list.old }
    ensures { IsTakenOut list.old.items index result list.new.items }
{
    let Some(last) = list.pop() else {
        unreachable!();
    };
    let number = last.number;
    if index < list.len() {
        list[index] = last;
    }
    number
}

// Appends empty lists to `live` until the field has a list, or until memory runs out.
fn cover_field<T, M: Allocator + Copy>(
    live: &mut Vec<Vec<Numbered<T>, M>, M>,
    alloc: M,
    field: usize,
) -> Result<(), AllocError>
    ensures same { HaveLists (map items_of live.old.items) (map items_of live.new.items) }
    ensures there { OnOk result (field < length live.new.items) }
{
    while live.len() <= field {
        if live.push(Vec::new(alloc)).is_err() {
            return Err(AllocError);
        }
    }
    Ok(())
}

// Appends the collection `one` to the list of the field, and returns where it is stored. It returns `None` if memory runs out, or if the field's
// number or the index is too large for a `Slot`.
fn enter<T, M: Allocator + Copy>(
    live: &mut Vec<Vec<Numbered<T>, M>, M>,
    alloc: M,
    field: usize,
    one: Numbered<T>,
) -> Option<Slot>
    ensures { Enters (map items_of live.old.items) field one result (map items_of live.new.items) }
{
    if field > u32::MAX as usize {
        return None;
    }
    if cover_field(live, alloc, field).is_err() {
        return None;
    }
    let list = &mut live[field];
    let index = list.len();
    if index >= DISPOSED as usize {
        return None;
    }
    if list.push(one).is_err() {
        return None;
    }
    Some(Slot {
        field: field as u32,
        index: index as u32,
    })
}

// Returns whether one of the collections in `list` has the object as a member. The function tests one collection after the other.
fn contains_in<T, M: Allocator>(list: &[Numbered<T>], links: &AnyTable<M>, object: Place) -> bool
    requires held { EachHeld (table_in links.now) list.now }
    requires covered { IsCovered (table_in links.now) object }
    ensures { IsTrue result ↔ SomeHas (table_in links.now) object list.now }
{
    for one in list {
        if one.members.contains(links, object) {
            return true;
        }
    }
    false
}

impl<T, M: Allocator + Copy> CollectionsByNumber<T, M> {
    ghost use Rattle.std.specs.Borrow.{sem};
    ghost use Rattle.ic_world.specs.Lends.{LendsMembers};

    /// Makes an empty table of collections. It takes no memory.
    pub(crate) fn new(alloc: M) -> Self
        ensures { result ≡ [] }
    {
        CollectionsByNumber {
            alloc,
            numbers: Vec::new(alloc),
            live: Vec::new(alloc),
        }
    }

    /// Returns the field of a collection, or `None` if there is no collection with this number. O(1).
    #[inline]
    pub(crate) fn field_of(&self, number: usize) -> Option<usize>
        ensures { result ≡ its_field (at self.now number) }
    {
        if number >= self.numbers.len() {
            return None;
        }
        let slot = self.numbers[number];
        if slot.index == DISPOSED {
            return None;
        }
        Some(slot.field as usize)
    }

    /// Returns the members of a collection by a shared reference. O(1).
    #[inline]
    pub(crate) fn members(&self, number: usize) -> &AnyCollection<T>
        requires { IsSome (at self.now number) }
        ensures { Some result.now ≡ its_members (at self.now number) }
    {
        let slot = self.numbers[number];
        &self.live[slot.field as usize][slot.index as usize].members
    }

    /// Returns the members of a collection by a mutable reference. O(1).
    #[inline]
    pub(crate) fn members_mut(&mut self, number: usize) -> &mut AnyCollection<T>
        requires { IsSome (at self.old number) }
        ensures* writes_back { sem 𝓛 (LendsMembers T.row M.row M.Allocator self.entry number result) }
        ensures value { Some result.now ≡ its_members (at self.old number) }
    {
        let slot = self.numbers[number];
        let list = &mut self.live[slot.field as usize];
        let found = &mut list[slot.index as usize];
        &mut found.members
    }

    /// Inserts a collection into a field under the next number, and returns the number. O(1), except for the first collection of a field.
    ///
    /// Refused: `OutOfMemory`, also if the number of the field, or the number of its live collections, does not fit in 32 bits.
    pub(crate) fn push(&mut self, field: usize, members: AnyCollection<T>) -> Result<usize, Refusal>
        ensures { Appends self.old (Some (record { field = field; members = members })) result self.new }
    {
        if self.numbers.try_reserve(1).is_err() {
            return Err(Refusal::OutOfMemory);
        }
        let number = self.numbers.len();
        let one = Numbered { number, members };
        let Some(slot) = enter(&mut self.live, self.alloc, field, one) else {
            return Err(Refusal::OutOfMemory);
        };
        let _ = self.numbers.push(slot);
        Ok(number)
    }

    /// Disposes of a collection. After this call its number names no collection. O(1).
    pub(crate) fn dispose(&mut self, number: usize)
        ensures { self.new ≡ slice_set self.old number None }
    {
        if number >= self.numbers.len() {
            return;
        }
        let slot = self.numbers[number];
        if slot.index == DISPOSED {
            return;
        }
        let moved = take_out(&mut self.live[slot.field as usize], slot.index as usize);
        self.numbers[moved] = slot;
        self.numbers[number].index = DISPOSED;
    }

    /// Returns whether a live collection of the field has the object as a member. It tests the live collections of this field, one after the other,
    /// until one of them has the object.
    pub(crate) fn any_contains(&self, field: usize, links: &AnyTable<M>, object: Place) -> bool
        requires held { AreHeld self.now field (table_in links.now) }
        requires covered { IsCovered (table_in links.now) object }
        ensures { IsTrue result ↔ HasMember self.now field (table_in links.now) object }
    {
        if field >= self.live.len() {
            return false;
        }
        contains_in(&self.live[field], links, object)
    }
}
