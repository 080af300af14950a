//! The fields of a world.
//!
//! ```text
//! let field = world.add_field(Kind::Tree)?;
//! world.is_linked(field, first)? // false: it is in no collection of that field
//! ```

ghost use Rattle.std.specs.Prelude.{◌≡◌, true, IfSome};
ghost use Rattle.ic_any_collection.specs.AnyTables.{table_in};
ghost use Rattle.ic_world.specs.Pieces.{IsFresh};

use crate::World;
use crate::call::{Command, Refusal};
use crate::field::WorldField;
use crate::world::append;
use ic_any_collection::{AnyTable, Kind};
use ic_rbtree::KeyAdapter;
use ic_unsafe_ref::Place;
use std::alloc::Allocator;

// Makes a table of this kind that covers at least `room` places, or returns `None` if there is not enough memory.
fn covering<M: Allocator>(alloc: M, kind: Kind, room: usize) -> Option<AnyTable<M>>
    ensures { IfSome result (λ links. IsFresh kind room (table_in links)) }
{
    let mut links = AnyTable::new(alloc, kind);
    match links.cover(room) {
        Ok(()) => Some(links),
        Err(_) => None,
    }
}

impl<A: KeyAdapter, M: Allocator + Copy> World<A, M> {
    ghost use Rattle.ic_world.specs.Step.{Step};
    ghost use Rattle.ic_world.specs.Family.{is_placed, is_member_in, has_field};
    ghost use Rattle.ic_world.specs.Replies.{reply_of};
    ghost use Rattle.ic_world.specs.Calls.{field, done, linked};

    /// Makes a field with no collection, and returns its number. The table of the field covers the places of all existing objects.
    ///
    /// Refused: `OutOfMemory`.
    pub fn add_field(&mut self, kind: Kind) -> Result<usize, Refusal>
        ensures { Step A.Key.cmp A.key_of self.old (Command.AddField kind) (reply_of (λ f. field f) result) self.new }
    {
        let Some(links) = covering(self.alloc, kind, self.room) else {
            return Err(Refusal::OutOfMemory);
        };
        let field = WorldField {
            links,
            left_linked: false,
        };
        append(&mut self.fields, field)
    }

    /// Returns whether the object is linked in the field: it is a member of one of its collections, or `fast_clear` has left it linked. O(1).
    ///
    /// Refused: `NoSuchField`, `NoSuchObject`.
    pub fn is_linked(&self, field: usize, object: Place) -> Result<bool, Refusal>
        ensures { Step A.Key.cmp A.key_of self.now (Command.IsLinked field object) (reply_of (λ b. linked b) result) self.now }
    {
        if field >= self.fields.len() {
            return Err(Refusal::NoSuchField);
        }
        if !self.objects.is_placed(object) {
            return Err(Refusal::NoSuchObject);
        }
        Ok(self.fields[field].links.is_linked(object))
    }

    // Returns whether an existing object is a member of a collection of the field. It walks no collection if the object is unlinked, because an
    // unlinked object is no member. It also walks none if `fast_clear` was never called in the field, because each linked object is then a member.
    fn is_member(&self, field: usize, object: Place) -> bool
        requires placed { is_placed self.now object ≡ true }
        requires there { has_field self.now field ≡ true }
        ensures { result ≡ is_member_in self.now field object }
    {
        let found = &self.fields[field];
        if !found.links.is_linked(object) {
            return false;
        }
        !found.left_linked || self.collections.any_contains(field, &found.links, object)
    }

    /// Unlinks an object that is linked in a field but is a member of no collection of this field, as `fast_clear` leaves its members. An unlinked
    /// object stays unlinked.
    ///
    /// Refused: `NoSuchField`, `NoSuchObject`, `IsMember`. It costs O(1) if the object is not linked, or if no [`World::fast_clear`] was made in the
    /// field. Otherwise it tests each live collection of the field, and walks each collection that is a list. It takes no memory.
    pub fn force_unlink(&mut self, field: usize, object: Place) -> Result<(), Refusal>
        ensures { Step A.Key.cmp A.key_of self.old (Command.ForceUnlink field object) (reply_of (λ _. done) result) self.new }
    {
        if field >= self.fields.len() {
            return Err(Refusal::NoSuchField);
        }
        if !self.objects.is_placed(object) {
            return Err(Refusal::NoSuchObject);
        }
        if self.is_member(field, object) {
            return Err(Refusal::IsMember);
        }
        self.fields[field].links.force_unlink(object);
        Ok(())
    }
}
