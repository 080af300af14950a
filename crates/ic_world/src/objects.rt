//! The objects of a world.
//!
//! ```text
//! let first = world.place(10)?;
//! world.remove_object(first)? // 10, unless it is linked in some field
//! ```

ghost use Rattle.std.specs.Prelude.{◌≡◌, ◌<◌, ◌≤◌, ◌^◌, ℕ, length, Some, IfOk, IfErr, OnOk, map as map_list};
ghost use Rattle.std.specs.List.{list_any};
ghost use Rattle.std.specs.FinMap as map;
ghost use Rattle.std.specs.FinSet as set;
ghost use Rattle.ic_link_ops.specs.Prelude.{index_of, IsCovered};
ghost use Rattle.ic_world.specs.Family.{LinkField};
ghost use Rattle.ic_world.specs.Tables.{table, table_of, left_in, field_in};
ghost use Rattle.ic_world.specs.Growth.{Grows};
ghost use Rattle.ic_world.specs.Pieces.{PlacesValue, SwapsValue};

use crate::World;
use crate::call::{Command, Refusal};
use crate::field::WorldField;
use ic_rbtree::KeyAdapter;
use ic_unsafe_ref::{Objects, Place, UnsafeRef};
use std::alloc::{AllocError, Allocator};
use std::mem;

// Makes each table cover at least the first `count` places, and stops if memory runs out. Each table covers at least `room` places, both before and
// after the call. If memory suffices, `room` is then at least `count`.
fn cover_all<M: Allocator>(
    tables: &mut [WorldField<M>],
    room: &mut usize,
    count: usize,
) -> Result<(), AllocError>
    ensures grows { Grows room.old (map_list table_of tables.old) room.new (map_list table_of tables.new) }
    ensures left { left_in tables.new ≡ left_in tables.old }
    ensures reaches { OnOk result (count ≤ room.new) }
{
    for f in 0..tables.len() {
        if tables[f].links.cover(count).is_err() {
            return Err(AllocError);
        }
    }
    *room = (*room).max(count);
    Ok(())
}

// Stores `value` as a new object, and returns the object's place. If `has_room` is false or memory runs out, it returns a refusal with the value.
fn place_in<V, M: Allocator>(
    objects: &mut Objects<V, M>,
    value: V,
    has_room: bool,
) -> Result<Place, (Refusal, V)>
    requires { objects.old.next < 2 ^ 32 }
    ensures placed { PlacesValue has_room objects.old value result objects.new }
    ensures handed_back { IfErr result (λ refused. refused.1 ≡ value) }
{
    if !has_room {
        return Err((Refusal::OutOfMemory, value));
    }
    match UnsafeRef::from_box(objects, value) {
        Ok(object) => Ok(object.place()),
        Err((_, value)) => Err((Refusal::OutOfMemory, value)),
    }
}

// Replaces the value of an object by another, and returns the old value.
fn swap_value<V, M: Allocator>(
    objects: &mut Objects<V, M>,
    object: Place,
    value: V,
) -> Result<V, (Refusal, V)>
    ensures swapped { SwapsValue objects.old object value result objects.new }
    ensures handed_back { IfErr result (λ refused. refused.1 ≡ value) }
{
    match objects.get_mut(object) {
        None => Err((Refusal::NoSuchObject, value)),
        Some(there) => Ok(mem::replace(there, value)),
    }
}

// Returns whether an object is linked in one of the tables. Each table has to cover the place of the object.
fn is_linked_in_any<M: Allocator>(tables: &[WorldField<M>], object: Place) -> bool
    requires covered { (f : ℕ) → f < length tables.now → IsCovered (table (map_list table_of tables.now) f) object }
    ensures { result ≡ list_any (λ (x : LinkField). set.contains x.linked (index_of object)) (map_list field_in (map_list table_of tables.now)) }
{
    for f in 0..tables.len() {
        if tables[f].links.is_linked(object) {
            return true;
        }
    }
    false
}

impl<A: KeyAdapter, M: Allocator + Copy> World<A, M> {
    ghost use Rattle.ic_world.specs.Step.{Step};
    ghost use Rattle.ic_world.specs.Replies.{reply_of, reply_of_value};
    ghost use Rattle.ic_world.specs.Calls.{object, done};

    /// Stores a value as a new object, after making room for it in each field, and returns its place.
    ///
    /// Refused: `TooManyObjects`, `OutOfMemory`. If the call is refused, the caller gets the value back.
    pub fn place(&mut self, value: A::Value) -> Result<Place, (Refusal, A::Value)>
        ensures step { Step A.Key.cmp A.key_of self.old (Command.Place value) (reply_of_value (λ p. object p) result) self.new }
        ensures handed_back { IfErr result (λ refused. refused.1 ≡ value) }
    {
        let Some(place) = self.objects.next_place() else {
            return Err((Refusal::TooManyObjects, value));
        };
        let count = place.index() + 1;
        let has_room = cover_all(&mut self.fields, &mut self.room, count).is_ok();
        place_in(&mut self.objects, value, has_room)
    }

    /// Removes an object that is linked in no field, and returns its value.
    ///
    /// Refused: `NoSuchObject`, `StillLinked`. The call reads the object's entry in one field after the other, until it finds a field in which the
    /// object is linked. This costs O(fields), even for an object that was never linked. It takes no memory.
    pub fn remove_object(&mut self, object: Place) -> Result<A::Value, Refusal>
        ensures step { Step A.Key.cmp A.key_of self.old (Command.RemoveObject object) (reply_of (λ _. done) result) self.new }
        ensures value { IfOk result (λ value. map.get self.old.objects (index_of object) ≡ Some value) }
    {
        if !self.objects.is_placed(object) {
            return Err(Refusal::NoSuchObject);
        }
        if is_linked_in_any(&self.fields, object) {
            return Err(Refusal::StillLinked);
        }
        Ok(UnsafeRef::new(object).into_box(&mut self.objects))
    }

    /// Replaces the value of an object by another, and returns the old value. The object stays linked where it was.
    ///
    /// Refused: `NoSuchObject`. If the call is refused, the caller gets the new value back. The call takes no memory. If the key of the object
    /// changes, a tree that has the object as a member may then be unsorted.
    pub fn set_value(
        &mut self,
        object: Place,
        value: A::Value,
    ) -> Result<A::Value, (Refusal, A::Value)>
        ensures step { Step A.Key.cmp A.key_of self.old (Command.SetValue object value) (reply_of_value (λ _. done) result) self.new }
        ensures value { IfOk result (λ old. map.get self.old.objects (index_of object) ≡ Some old) }
        ensures handed_back { IfErr result (λ refused. refused.1 ≡ value) }
    {
        swap_value(&mut self.objects, object, value)
    }
}
