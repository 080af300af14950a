//! A world, and how it makes a call of one of its collections.

ghost use Rattle.std.specs.Prelude.{◌≡◌, [], Some, None, IfSome, IfNone};
ghost use Rattle.ic_any_collection.specs.AnyTables.{table_in};
ghost use Rattle.std.specs.FinMap as map;
ghost use Rattle.ic_world.specs.Calls.{opened};
ghost use Rattle.ic_world.specs.Replies.{reply_of};
ghost use Rattle.ic_world.specs.Pieces.{Appends};

use crate::call::Refusal;
use crate::calls::collection_call::CollectionCall;
use crate::collections_by_number::CollectionsByNumber;
use crate::field::WorldField;
use crate::taken_part::TakenPart;
use ic_any_collection::{AnyCollection, AnyTable};
use ic_rbtree::KeyAdapter;
use ic_unsafe_ref::Objects;
use std::alloc::{Allocator, Global};
use std::marker::Model;

/// Objects by place, and link fields and collections by number.
///
/// A field is a table of links. A collection is a cursor, and the head of a list or tree whose links are in a field. No sequence is stored
/// separately: contracts describe a world by the sequences that its tables represent. A field also has a mark, which says whether `fast_clear` was
/// ever called in the field. Fields are numbered 0, 1, 2 in the order of `add_field`. The collections of all fields are numbered together, in the
/// order in which `open`, `take` and the splits make them. The number of a disposed collection is never used again.
#[derive(Drop)]
pub struct World<A: KeyAdapter, M: Allocator + Copy = Global> {
    pub(crate) adapter: A,
    pub(crate) alloc: M,
    pub(crate) objects: Objects<A::Value, M>,
    // Each field covers at least this many places.
    pub(crate) room: usize,
    pub(crate) fields: Vec<WorldField<M>, M>,
    pub(crate) collections: CollectionsByNumber<A::Value, M>,
}

// Appends an item to the list, and returns the number of the item.
pub(crate) fn append<T: Drop, M: Allocator>(list: &mut Vec<T, M>, item: T) -> Result<usize, Refusal>
    ensures { Appends list.old.items item result list.new.items }
{
    let number = list.len();
    match list.push(item) {
        Ok(()) => Ok(number),
        Err(_) => Err(Refusal::OutOfMemory),
    }
}

impl<A: KeyAdapter, M: Allocator + Copy> Model for World<A, M> {
    ghost use Rattle.std.specs.Prelude.{map};
    ghost use Rattle.ic_world.specs.Family.{Family};
    ghost use Rattle.ic_world.specs.FamilyCodes.{family_code};

    ghost Value = { Family A A.Value };

    ghost coded = { family_code A.code A.Value.code };

    ghost use Rattle.ic_world.specs.Tables.{table_of, family_of};
    ghost use Rattle.ic_world.specs.LeftLinked.{IsKept};

    ghost view = { λ w. family_of w.adapter w.objects (map table_of w.fields.items) w.collections };

    ghost invariant = { λ w. IsKept w.adapter w.objects w.room w.fields.items w.collections };
}

impl<A: KeyAdapter, M: Allocator + Copy> World<A, M> {
    ghost use Rattle.ic_world.specs.Family.{collection as collection_of};
    ghost use Rattle.ic_world.specs.Several.{StepOut};
    ghost use Rattle.ic_world.specs.Step.{StepOn};
    ghost use Rattle.ic_world.specs.Seen.{Sees};

    /// Makes a world with no object, field or collection. It takes no memory.
    pub fn new(alloc: M, adapter: A) -> World<A, M>
        ensures adapter { result.adapter ≡ adapter }
        ensures objects { result.objects ≡ map.empty }
        ensures fields { result.fields ≡ [] }
        ensures collections { result.collections ≡ [] }
    {
        World {
            adapter,
            alloc,
            objects: Objects::new(alloc),
            room: 0,
            fields: Vec::new(alloc),
            collections: CollectionsByNumber::new(alloc),
        }
    }

    /// Returns a shared reference to the objects of the world. [`World::show`] returns the members of a collection.
    #[inline]
    pub fn objects(&self) -> &Objects<A::Value, M>
        ensures { result.now.values ≡ self.now.objects }
    {
        &self.objects
    }

    // Makes a call of one collection. If the caller passes a literal as `call`, the compiler removes the `match` on it.
    #[inline(always)]
    pub(crate) fn call<C: CollectionCall<A>>(
        &mut self,
        collection: usize,
        call: &C,
    ) -> Result<C::Answer, Refusal>
        ensures { StepOn A.Key.cmp A.key_of self.old collection (C.call call.now) (reply_of C.reply result) self.new }
    {
        let Some(field) = self.collections.field_of(collection) else {
            return Err(Refusal::NoSuchCollection);
        };
        if !call.is_placed(&self.objects) {
            return Err(Refusal::NoSuchObject);
        }
        let links = &mut self.fields[field].links;
        let members = self.collections.members_mut(collection);
        call.run(members, links, &self.objects, self.adapter)
    }

    // Moves a part of a collection into a new collection of the same field and kind, and returns the number of the new collection.
    pub(crate) fn hand_out(&mut self, collection: usize, part: TakenPart) -> Result<usize, Refusal>
        ensures { StepOut self.old collection part (reply_of (λ c. opened c) result) self.new }
    {
        let Some(field) = self.collections.field_of(collection) else {
            return Err(Refusal::NoSuchCollection);
        };
        let kind = self.collections.members(collection).kind();
        if !part.is_of(kind) {
            return Err(Refusal::WrongKind);
        }
        match self.collections.push(field, AnyCollection::new(kind)) {
            Err(refusal) => Err(refusal),
            Ok(number) => {
                let links = &mut self.fields[field].links;
                let handed = part.hand_out(self.collections.members_mut(collection), links);
                *self.collections.members_mut(number) = handed;
                Ok(number)
            }
        }
    }

    // Returns shared references to a collection and to the table of its field, or `None` if there is no such collection.
    pub(crate) fn found(
        &self,
        collection: usize,
    ) -> Option<(&AnyCollection<A::Value>, &AnyTable<M>)>
        ensures some { IfSome result (λ found. Sees self.now collection (table_in found.1.now) found.0.now) }
        ensures none { IfNone result (collection_of self.now collection ≡ None) }
    {
        let field = self.collections.field_of(collection)?;
        Some((
            self.collections.members(collection),
            &self.fields[field].links,
        ))
    }
}
