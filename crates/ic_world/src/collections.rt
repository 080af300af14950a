//! Calls that open, dispose of, split, splice and list the collections of a world.
//!
//! ```text
//! let queue = world.open(field, Kind::Doubly)?;
//! let rest = world.split_after(queue)?; // null: all members, in a collection more
//! world.splice_after(queue, rest)?;     // and back
//! ```

ghost use Rattle.std.specs.Prelude.{◌≡◌, true, None, map};
ghost use Rattle.ic_link_ops.specs.Sequences.{IsDisjoint};
ghost use Rattle.ic_any_collection.specs.AnyTables.{table_in};
ghost use Rattle.ic_any_collection.specs.AnyCollection.{kind_in, members_in, Held};
ghost use Rattle.ic_world.specs.Splices.{can_splice, PutsBeside, CanBeJoined, AreJoined};
ghost use Rattle.ic_world.specs.Tables.{table_of, left_in};

use crate::World;
use crate::call::{Command, Refusal};
use crate::calls::bulk_edit::BulkEdit;
use crate::calls::kinds::{has_before, is_list, is_two_way_list, same_kind};
use crate::collections_by_number::CollectionsByNumber;
use crate::field::WorldField;
use crate::taken_part::TakenPart;
use ic_any_collection::{AnyCollection, AnyTable, Kind};
use ic_rbtree::KeyAdapter;
use ic_unsafe_ref::Place;
use std::alloc::Allocator;

// Moves all members of the list `given` into `list`: before the cursor of `list` if `before` is true, and otherwise after it.
fn put_beside<T, M: Allocator>(
    list: &mut AnyCollection<T>,
    links: &mut AnyTable<M>,
    given: AnyCollection<T>,
    before: bool,
)
    requires held { Held (table_in links.old) list.old }
    requires given { Held (table_in links.old) given }
    requires can { can_splice before (kind_in list.old) ≡ true }
    requires kinds { kind_in given ≡ kind_in list.old }
    requires apart { IsDisjoint (members_in (table_in links.old) given) (members_in (table_in links.old) list.old) }
    ensures { PutsBeside before (table_in links.old) (table_in links.new) list.old list.new (members_in (table_in links.old) given) }
{
    if before {
        list.splice_before(links, given);
    } else {
        list.splice_after(links, given);
    }
}

// Moves all members of the list number `given` beside the cursor of the list number `list`, which is of the same field. The list number `given` still
// exists, but is empty.
fn join<T, M: Allocator + Copy>(
    collections: &mut CollectionsByNumber<T, M>,
    tables: &mut Vec<WorldField<M>, M>,
    list: usize,
    given: usize,
    before: bool,
)
    requires { CanBeJoined before (map table_of tables.old.items) collections.old list given }
    ensures joined { AreJoined before (map table_of tables.old.items) (map table_of tables.new.items) collections.old collections.new list given }
    ensures left { left_in tables.new.items ≡ left_in tables.old.items }
{
    let Some(field) = collections.field_of(list) else {
        unreachable!();
    };
    let taken = collections.members_mut(given).take();
    let links = &mut tables[field].links;
    put_beside(collections.members_mut(list), links, taken, before);
}

impl<A: KeyAdapter, M: Allocator + Copy> World<A, M> {
    ghost use Rattle.ic_world.specs.Family.{collection as collection_of};
    ghost use Rattle.ic_world.specs.Several.{StepSplice, refusal_of_open, refusal_of_splice};
    ghost use Rattle.ic_world.specs.Step.{Step};
    ghost use Rattle.ic_world.specs.Calls.{done, opened, items};
    ghost use Rattle.ic_world.specs.Replies.{reply_of, field_and_kind};
    ghost use Rattle.ic_world.specs.Splices.{IsBesideOf};
    ghost use Rattle.ic_world.specs.Apart.{AreApart, AreAllPlaced};
    ghost use Rattle.ic_world.specs.Sound.{IsSound};

    /// Makes an empty collection in a field, with its cursor at null, and returns its number.
    ///
    /// Refused: `NoSuchField`, `WrongKind` if the field cannot have collections of this kind, `OutOfMemory`.
    pub fn open(&mut self, field: usize, kind: Kind) -> Result<usize, Refusal>
        ensures { Step A.Key.cmp A.key_of self.old (Command.Open field kind) (reply_of (λ c. opened c) result) self.new }
    {
        if let Some(refusal) = self.open_refused(field, kind) {
            return Err(refusal);
        }
        self.collections.push(field, AnyCollection::new(kind))
    }

    // Returns why a new collection of this kind in a field is refused, or `None` if it is not refused.
    fn open_refused(&self, field: usize, kind: Kind) -> Option<Refusal>
        ensures { result ≡ refusal_of_open self.now field kind }
    {
        if field >= self.fields.len() {
            return Some(Refusal::NoSuchField);
        }
        if !self.fields[field].links.kind().carries(kind) {
            return Some(Refusal::WrongKind);
        }
        None
    }

    /// Unlinks all members of a collection, and disposes of it. After this call its number names no collection.
    ///
    /// Refused: `NoSuchCollection`. O(members). It takes no memory.
    pub fn dispose(&mut self, collection: usize) -> Result<(), Refusal>
        ensures { Step A.Key.cmp A.key_of self.old (Command.Dispose collection) (reply_of (λ _. done) result) self.new }
    {
        match self.call(collection, &BulkEdit::Clear) {
            Err(refusal) => Err(refusal),
            Ok(()) => {
                self.collections.dispose(collection);
                Ok(())
            }
        }
    }

    /// Moves all members of a collection into a new collection of the same field and kind, and returns the number of the new collection. Both cursors
    /// are then at null.
    ///
    /// Refused: `NoSuchCollection`, `OutOfMemory`. O(1).
    pub fn take(&mut self, collection: usize) -> Result<usize, Refusal>
        ensures { Step A.Key.cmp A.key_of self.old (Command.Take collection) (reply_of (λ c. opened c) result) self.new }
    {
        self.hand_out(collection, TakenPart::All)
    }

    /// Moves the members after the cursor of a list into a new list, and returns the number of the new list. If the cursor is at null, all members
    /// move. The cursor stays.
    ///
    /// Refused: `NoSuchCollection`, `WrongKind` for a tree, `OutOfMemory`. O(1).
    pub fn split_after(&mut self, collection: usize) -> Result<usize, Refusal>
        ensures { Step A.Key.cmp A.key_of self.old (Command.SplitAfter collection) (reply_of (λ c. opened c) result) self.new }
    {
        self.hand_out(collection, TakenPart::After)
    }

    /// Moves the members before the cursor of a list into a new list, and returns the number of the new list. If the cursor is at null, all members
    /// move. The cursor stays.
    ///
    /// Refused: `NoSuchCollection`, `WrongKind` for a tree or a singly linked list, `OutOfMemory`. O(1).
    pub fn split_before(&mut self, collection: usize) -> Result<usize, Refusal>
        ensures { Step A.Key.cmp A.key_of self.old (Command.SplitBefore collection) (reply_of (λ c. opened c) result) self.new }
    {
        self.hand_out(collection, TakenPart::Before)
    }

    /// Returns the members of a collection, from the front.
    ///
    /// Refused: `NoSuchCollection`, `OutOfMemory`. O(members).
    pub fn show(&self, collection: usize) -> Result<Vec<Place, M>, Refusal>
        ensures { Step A.Key.cmp A.key_of self.now (Command.Show collection) (reply_of (λ places. items places.items) result) self.now }
    {
        let Some((members, links)) = self.found(collection) else {
            return Err(Refusal::NoSuchCollection);
        };
        match members.listed(self.alloc, links) {
            Ok(places) => Ok(places),
            Err(_) => Err(Refusal::OutOfMemory),
        }
    }

    /// Returns the members of a collection, from the back.
    ///
    /// Refused: `NoSuchCollection`, `WrongKind` for a singly linked list, `OutOfMemory`. O(members).
    pub fn show_back(&self, collection: usize) -> Result<Vec<Place, M>, Refusal>
        ensures { Step A.Key.cmp A.key_of self.now (Command.ShowBack collection) (reply_of (λ places. items places.items) result) self.now }
    {
        let Some((members, links)) = self.found(collection) else {
            return Err(Refusal::NoSuchCollection);
        };
        if !has_before(members.kind()) {
            return Err(Refusal::WrongKind);
        }
        match members.listed(self.alloc, links) {
            Ok(mut places) => {
                places.reverse();
                Ok(places)
            }
            Err(_) => Err(Refusal::OutOfMemory),
        }
    }

    // Returns the number of a collection's field and the kind of the collection, or `None` if there is no such collection.
    fn seen(&self, collection: usize) -> Option<(usize, Kind)>
        ensures { result ≡ field_and_kind (collection_of self.now collection) }
    {
        let field = self.collections.field_of(collection)?;
        Some((field, self.collections.members(collection).kind()))
    }

    // Returns why a splice is refused, or `None` if it is not refused. Lists of every kind have a splice after the cursor, but only doubly linked and
    // XOR lists have a splice before it.
    fn splice_refused(&self, collection: usize, given: usize, before: bool) -> Option<Refusal>
        ensures { result ≡ refusal_of_splice self.now (can_splice before) collection given }
    {
        let Some((field, kind)) = self.seen(collection) else {
            return Some(Refusal::NoSuchCollection);
        };
        let Some((given_field, given_kind)) = self.seen(given) else {
            return Some(Refusal::NoSuchCollection);
        };
        let has = if before {
            is_two_way_list(kind)
        } else {
            is_list(kind)
        };
        if !has || !same_kind(kind, given_kind) {
            return Some(Refusal::WrongKind);
        }
        if collection == given {
            return Some(Refusal::SameCollection);
        }
        if field != given_field {
            return Some(Refusal::OtherField);
        }
        None
    }

    // Moves all members of the collection `given` beside the cursor of `collection`: before this cursor if `before` is true, and otherwise after it.
    fn splice(&mut self, collection: usize, given: usize, before: bool) -> Result<(), Refusal>
        ensures { StepSplice (IsBesideOf before) (can_splice before) self.old collection given (reply_of (λ _. done) result) self.new }
    {
        if let Some(refusal) = self.splice_refused(collection, given, before) {
            return Err(refusal);
        }
        join(
            &mut self.collections,
            &mut self.fields,
            collection,
            given,
            before,
        );
        Ok(())
    }

    /// Moves all members of the collection `given` after the cursor of `collection`, or to its front if the cursor is at null. Afterwards `given` is
    /// empty, and its cursor is at null. The cursor of `collection` stays.
    ///
    /// Refused: `NoSuchCollection`, `WrongKind` for trees and if the kinds differ, `SameCollection`, `OtherField`. O(1), or O(members of `given`) for
    /// singly linked lists. It takes no memory.
    pub fn splice_after(&mut self, collection: usize, given: usize) -> Result<(), Refusal>
        ensures { Step A.Key.cmp A.key_of self.old (Command.SpliceAfter collection given) (reply_of (λ _. done) result) self.new }
    {
        self.splice(collection, given, false)
    }

    /// Moves all members of the collection `given` before the cursor of `collection`, or to its back if the cursor is at null. Afterwards `given` is
    /// empty, and its cursor is at null. The cursor of `collection` stays.
    ///
    /// Refused: `NoSuchCollection`, `WrongKind` for trees, for singly linked lists and if the kinds differ, `SameCollection`, `OtherField`. O(1). It
    /// takes no memory.
    pub fn splice_before(&mut self, collection: usize, given: usize) -> Result<(), Refusal>
        ensures { Step A.Key.cmp A.key_of self.old (Command.SpliceBefore collection given) (reply_of (λ _. done) result) self.new }
    {
        self.splice(collection, given, true)
    }

    /// Ensures what always holds of a world, so that a caller's proof can use it. The call itself does nothing. Each object is at one of the first
    /// 2^32 places, and each linked place has an object. The field of each collection exists and can have collections of its kind. The members of a
    /// collection are linked in its field, and its cursor is at null or on a member. No place is twice in a collection, or in two collections of one
    /// field.
    pub fn family_is_sound(&self)
        ensures { IsSound self.now }
    {
        let _ = &self.collections;
    }

    /// Ensures that no place is twice in a collection, or in two collections of one field. A caller's proof can use this. The call itself does
    /// nothing.
    pub fn no_member_is_shared(&self)
        ensures { AreApart self.now }
    {
        // This line reads the collections. Because they belong to a world, the invariant of the world holds of them.
        let _ = &self.collections;
    }

    /// Ensures that there is an object at the place of each member of each collection. A caller's proof can use this. The call itself does nothing.
    pub fn every_member_is_placed(&self)
        ensures { AreAllPlaced self.now }
    {
        let _ = &self.collections;
    }
}
