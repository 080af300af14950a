//! Calls of one collection without keys. Each call tests its conditions in the order of the refusals that its comment names, and takes no memory.
//!
//! ```text
//! world.push_back(queue, first)?;
//! world.move_next(queue)?; // Some(first)
//! world.remove(queue)?     // Some(first)
//! ```

use crate::World;
use crate::call::{Command, Refusal};
use crate::calls::bulk_edit::BulkEdit;
use crate::calls::collection_call::{Call, Neighbor};
use crate::calls::gaps::{Put, Swap, Take};
use crate::calls::seek::{Move, Seek};
use ic_any_collection::Gap;
use ic_rbtree::KeyAdapter;
use ic_unsafe_ref::Place;
use std::alloc::Allocator;

impl<A: KeyAdapter, M: Allocator + Copy> World<A, M> {
    ghost use Rattle.ic_world.specs.Step.{Step};
    ghost use Rattle.ic_world.specs.Calls as state;
    ghost use Rattle.ic_world.specs.Calls.{done, object_or_nothing};
    ghost use Rattle.ic_world.specs.Replies.{reply_of};

    /// Inserts an object at the front of a list, and puts the cursor to null. O(1).
    ///
    /// Refused: `NoSuchCollection`, `NoSuchObject`, `WrongKind` for a tree, `AlreadyLinked`.
    pub fn push_front(&mut self, collection: usize, object: Place) -> Result<(), Refusal>
        ensures { Step A.Key.cmp A.key_of self.old (Command.On collection (Call.Put Gap.Front object)) (reply_of (λ _. done) result) self.new }
    {
        self.call(collection, &Put(Gap::Front, object))
    }

    /// Inserts an object at the back of a doubly linked or an XOR list, and puts the cursor to null. O(1).
    ///
    /// Refused: `NoSuchCollection`, `NoSuchObject`, `WrongKind` for other kinds, `AlreadyLinked`.
    pub fn push_back(&mut self, collection: usize, object: Place) -> Result<(), Refusal>
        ensures { Step A.Key.cmp A.key_of self.old (Command.On collection (Call.Put Gap.Back object)) (reply_of (λ _. done) result) self.new }
    {
        self.call(collection, &Put(Gap::Back, object))
    }

    /// Removes the first member of a list and returns it, or returns `None` if there is none. It puts the cursor to null. O(1).
    ///
    /// Refused: `NoSuchCollection`, `WrongKind` for a tree.
    pub fn pop_front(&mut self, collection: usize) -> Result<Option<Place>, Refusal>
        ensures { Step A.Key.cmp A.key_of self.old (Command.On collection (Call.Take Gap.Front)) (reply_of object_or_nothing result) self.new }
    {
        self.call(collection, &Take(Gap::Front))
    }

    /// Removes the last member of a doubly linked or an XOR list and returns it, or returns `None` if there is none. It puts the cursor to null.
    /// O(1).
    ///
    /// Refused: `NoSuchCollection`, `WrongKind` for other kinds.
    pub fn pop_back(&mut self, collection: usize) -> Result<Option<Place>, Refusal>
        ensures { Step A.Key.cmp A.key_of self.old (Command.On collection (Call.Take Gap.Back)) (reply_of object_or_nothing result) self.new }
    {
        self.call(collection, &Take(Gap::Back))
    }

    /// Moves the cursor to the next member, and returns the member that the cursor is then on. From null the cursor goes to the first member, and
    /// from the last member to null. O(1), in a tree O(log n).
    ///
    /// Refused: `NoSuchCollection`.
    pub fn move_next(&mut self, collection: usize) -> Result<Option<Place>, Refusal>
        ensures { Step A.Key.cmp A.key_of self.old (Command.On collection (Call.Move Neighbor.Next)) (reply_of object_or_nothing result) self.new }
    {
        self.call(collection, &Move(Neighbor::Next))
    }

    /// Moves the cursor to the previous member, and returns the member that the cursor is then on. From null the cursor goes to the last member, and
    /// from the first member to null. O(1), in a tree O(log n).
    ///
    /// Refused: `NoSuchCollection`, `WrongKind` for a singly linked list.
    pub fn move_prev(&mut self, collection: usize) -> Result<Option<Place>, Refusal>
        ensures { Step A.Key.cmp A.key_of self.old (Command.On collection (Call.Move Neighbor.Prev)) (reply_of object_or_nothing result) self.new }
    {
        self.call(collection, &Move(Neighbor::Prev))
    }

    /// Moves the cursor to null. O(1).
    ///
    /// Refused: `NoSuchCollection`.
    pub fn go_null(&mut self, collection: usize) -> Result<(), Refusal>
        ensures { Step A.Key.cmp A.key_of self.old (Command.On collection (Call.Seek Seek.Null)) (reply_of (λ _. done) result) self.new }
    {
        self.call(collection, &Seek::Null)
    }

    /// Returns the member that the cursor is on, or `None` if the cursor is at null. O(1).
    ///
    /// Refused: `NoSuchCollection`.
    pub fn current(&self, collection: usize) -> Result<Option<Place>, Refusal>
        ensures { Step A.Key.cmp A.key_of self.now (Command.Current collection) (reply_of object_or_nothing result) self.now }
    {
        match self.found(collection) {
            Some((members, _)) => Ok(members.cursor()),
            None => Err(Refusal::NoSuchCollection),
        }
    }

    /// Puts the cursor on a member. It costs O(members) in a list, O(log n) in a tree, and O(1) if the object is not linked in the field.
    ///
    /// Refused: `NoSuchCollection`, `NoSuchObject`, `WrongKind` for an XOR list, `NotAMember`.
    pub fn seek(&mut self, collection: usize, object: Place) -> Result<(), Refusal>
        ensures { Step A.Key.cmp A.key_of self.old (Command.On collection (Call.Seek (Seek.On object))) (reply_of (λ _. done) result) self.new }
    {
        self.call(collection, &Seek::On(object))
    }

    /// Puts the cursor of an XOR list on the member `object`. `prev` names the member before `object`, or is `None` if `object` is the first member.
    /// O(members), or O(1) if the object is not linked in the field.
    ///
    /// Refused: `NoSuchCollection`, `NoSuchObject` for either object, `WrongKind` for other kinds, `NotAMember`, `NotANeighbour`.
    pub fn seek_with_prev(
        &mut self,
        collection: usize,
        object: Place,
        prev: Option<Place>,
    ) -> Result<(), Refusal>
        ensures { Step A.Key.cmp A.key_of self.old (Command.On collection (Call.Seek (Seek.With Neighbor.Prev object prev))) (reply_of (λ _. done) result) self.new }
    {
        self.call(collection, &Seek::With(Neighbor::Prev, object, prev))
    }

    /// Puts the cursor of an XOR list on the member `object`. `next` names the member after `object`, or is `None` if `object` is the last member.
    /// O(members), or O(1) if the object is not linked in the field.
    ///
    /// Refused: `NoSuchCollection`, `NoSuchObject` for either object, `WrongKind` for other kinds, `NotAMember`, `NotANeighbour`.
    pub fn seek_with_next(
        &mut self,
        collection: usize,
        object: Place,
        next: Option<Place>,
    ) -> Result<(), Refusal>
        ensures { Step A.Key.cmp A.key_of self.old (Command.On collection (Call.Seek (Seek.With Neighbor.Next object next))) (reply_of (λ _. done) result) self.new }
    {
        self.call(collection, &Seek::With(Neighbor::Next, object, next))
    }

    /// Inserts an object after the cursor, or at the front if the cursor is at null. The cursor stays. O(1), in a tree O(log n).
    ///
    /// Refused: `NoSuchCollection`, `NoSuchObject`, `AlreadyLinked`.
    pub fn insert_after(&mut self, collection: usize, object: Place) -> Result<(), Refusal>
        ensures { Step A.Key.cmp A.key_of self.old (Command.On collection (Call.Put Gap.After object)) (reply_of (λ _. done) result) self.new }
    {
        self.call(collection, &Put(Gap::After, object))
    }

    /// Inserts an object before the cursor, or at the back if the cursor is at null. The cursor stays. O(1), in a tree O(log n).
    ///
    /// Refused: `NoSuchCollection`, `NoSuchObject`, `WrongKind` for a singly linked list, `AlreadyLinked`.
    pub fn insert_before(&mut self, collection: usize, object: Place) -> Result<(), Refusal>
        ensures { Step A.Key.cmp A.key_of self.old (Command.On collection (Call.Put Gap.Before object)) (reply_of (λ _. done) result) self.new }
    {
        self.call(collection, &Put(Gap::Before, object))
    }

    /// Removes the member that the cursor is on and returns it, or returns `None` if the cursor is at null. The cursor goes on to the next member.
    /// O(1), in a tree O(log n).
    ///
    /// Refused: `NoSuchCollection`, `WrongKind` for a singly linked list.
    pub fn remove(&mut self, collection: usize) -> Result<Option<Place>, Refusal>
        ensures { Step A.Key.cmp A.key_of self.old (Command.On collection (Call.Take Gap.Before)) (reply_of object_or_nothing result) self.new }
    {
        self.call(collection, &Take(Gap::Before))
    }

    /// Removes the member after the cursor of a singly linked list, or the first one if the cursor is at null. It returns the removed member, or
    /// `None` if there is none. The cursor stays. O(1).
    ///
    /// Refused: `NoSuchCollection`, `WrongKind` for other kinds.
    pub fn remove_next(&mut self, collection: usize) -> Result<Option<Place>, Refusal>
        ensures { Step A.Key.cmp A.key_of self.old (Command.On collection (Call.Take Gap.After)) (reply_of object_or_nothing result) self.new }
    {
        self.call(collection, &Take(Gap::After))
    }

    /// Replaces the member at the cursor by an object, and returns the member. The cursor is then on the object. O(1).
    ///
    /// Refused: `NoSuchCollection`, `NoSuchObject`, `WrongKind` for a singly linked list, `NothingThere` at null, `AlreadyLinked`.
    pub fn replace_with(&mut self, collection: usize, object: Place) -> Result<Place, Refusal>
        ensures { Step A.Key.cmp A.key_of self.old (Command.On collection (Call.Swap Gap.Before object)) (reply_of (λ p. state.object p) result) self.new }
    {
        self.call(collection, &Swap(Gap::Before, object))
    }

    /// Replaces the member after the cursor of a singly linked list by an object, and returns the member. If the cursor is at null, it replaces the
    /// first member. The cursor stays. O(1).
    ///
    /// Refused: `NoSuchCollection`, `NoSuchObject`, `WrongKind` for other kinds, `NothingThere` if there is no such member, `AlreadyLinked`.
    pub fn replace_next_with(&mut self, collection: usize, object: Place) -> Result<Place, Refusal>
        ensures { Step A.Key.cmp A.key_of self.old (Command.On collection (Call.Swap Gap.After object)) (reply_of (λ p. state.object p) result) self.new }
    {
        self.call(collection, &Swap(Gap::After, object))
    }

    /// Reverses an XOR list, and puts the cursor to null. O(1).
    ///
    /// Refused: `NoSuchCollection`, `WrongKind` for other kinds.
    pub fn reverse(&mut self, collection: usize) -> Result<(), Refusal>
        ensures { Step A.Key.cmp A.key_of self.old (Command.On collection (Call.BulkEdit BulkEdit.Reverse)) (reply_of (λ _. done) result) self.new }
    {
        self.call(collection, &BulkEdit::Reverse)
    }

    /// Removes and unlinks all members, and puts the cursor to null. O(members).
    ///
    /// Refused: `NoSuchCollection`.
    pub fn clear(&mut self, collection: usize) -> Result<(), Refusal>
        ensures { Step A.Key.cmp A.key_of self.old (Command.On collection (Call.BulkEdit BulkEdit.Clear)) (reply_of (λ _. done) result) self.new }
    {
        self.call(collection, &BulkEdit::Clear)
    }

    /// Removes all members but leaves them linked, and puts the cursor to null. [`World::force_unlink`] can unlink them one by one. The call marks
    /// the field, because afterwards a linked object of the field need not be a member of a collection. O(1).
    ///
    /// Refused: `NoSuchCollection`.
    pub fn fast_clear(&mut self, collection: usize) -> Result<(), Refusal>
        ensures { Step A.Key.cmp A.key_of self.old (Command.FastClear collection) (reply_of (λ _. done) result) self.new }
    {
        let Some(field) = self.collections.field_of(collection) else {
            return Err(Refusal::NoSuchCollection);
        };
        let _ = self.collections.members_mut(collection).take();
        self.fields[field].left_linked = true;
        Ok(())
    }
}
