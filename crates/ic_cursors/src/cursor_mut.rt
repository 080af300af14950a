//! A cursor that edits a collection.
//!
//! ```text
//! let mut cursor = list.front_mut(&mut links);
//! cursor.insert_after(object)?;  // after the first member
//! let rest = cursor.split_after(); // the object, and all after it
//! ```

ghost use Rattle.std.specs.Prelude.{◌≡◌, ◌↔◌, true, List, None, IsTrue};
ghost use Rattle.std.specs.Option.{option_copied};
ghost use Rattle.ic_link_ops.specs.Prelude.{Place, is_placed, IsAfter, IsBefore, IsCovered, MovesOn, MovesBack, object_there, RepresentsPlaced, InsertsBeside, RemovesThere, ReplacesThere, RemovesNext, ReplacesNext, SplicesBeside, SplitsAfter, SplitsBefore, WhereApart};
ghost use Rattle.ic_cursors.specs.Ordered.{InsertsAmong};

use crate::answers::{inserted, replaced};
use crate::{
    Bidirectional, BidirectionalSplice, Collection, Cursor, CursorOps, ForwardOnly, Ordered,
    Position, Splice,
};
use ic_link_ops::{AlreadyLinked, LinkOps, ReplaceError};
use ic_unsafe_ref::{Objects, Place, UnsafeRef, Values};
use std::alloc::Allocator;

/// A cursor that edits a collection. The cursor borrows the collection and the table of its links.
pub struct CursorMut<'a, C: Collection, L> {
    list: &'a mut C,
    links: &'a mut L,
    current: C::Position,
}

impl<C: Collection, L> Drop for CursorMut<'_, C, L> {
    fn drop(self)
        ensures list { self.exit.0.now ≡ self.entry.list.now }
        ensures links { self.exit.1.0.now ≡ self.entry.links.now }
    {
        let CursorMut {
            list: _,
            links: _,
            current: _,
        } = self;
    }
}

impl<'a, C: Collection, L> CursorMut<'a, C, L> {
    ghost use Rattle.ic_cursors.specs.CursorMut.{list_of, links_of, place_of, position, IsBorrowed};
    ghost use Rattle.ic_cursors.specs.Cursor as reading;

    /// Makes a cursor at the position `current` of the collection `list`. Each kind of collection has calls that make cursors, and these calls use
    /// this function. O(1).
    #[inline]
    pub fn new(list: &'a mut C, links: &'a mut L, current: C::Position) -> CursorMut<'a, C, L>
        ensures borrows { IsBorrowed list.entry links.entry result }
        ensures position { place_of result ≡ current }
    {
        CursorMut {
            list,
            links,
            current,
        }
    }

    /// Whether the cursor is on no member. O(1).
    #[inline]
    pub fn is_null(&self) -> bool
        ensures { IsTrue result ↔ (position C.Position.member self.now ≡ None) }
    {
        self.as_cursor().is_null()
    }

    /// The place of the member that the cursor is on, or `None` if the cursor is on no member. O(1).
    #[inline]
    pub fn get_ptr(&self) -> Option<Place>
        ensures { result ≡ position C.Position.member self.now }
    {
        self.as_cursor().get_ptr()
    }

    /// The object that the cursor is on, or `None` if the cursor is on no member. The call makes one look-up, O(1).
    #[inline]
    pub fn get<'b, A: Allocator>(&self, objects: &'b Objects<C::Object, A>) -> Option<&'b C::Object>
        ensures { option_copied result ≡ object_there objects.now (position C.Position.member self.now) }
    {
        self.as_cursor().get(objects)
    }

    /// Ends the cursor and returns the object that the cursor is on, or `None` if it is on no member. The collection and the table stay as they are.
    /// O(1).
    #[inline]
    pub fn into_ref<'b, A: Allocator>(
        self,
        objects: &'b Objects<C::Object, A>,
    ) -> Option<&'b C::Object>
        ensures answer { option_copied result ≡ object_there objects.now (position C.Position.member self.entry) }
        ensures list { self.exit.0.now ≡ list_of self.entry }
        ensures links { self.exit.1.0.now ≡ links_of self.entry }
    {
        self.get(objects)
    }

    /// A reading cursor at the position of this cursor. O(1).
    #[inline]
    pub fn as_cursor(&self) -> Cursor<'_, C, L>
        ensures list { reading.list_of result ≡ list_of self.now }
        ensures links { reading.links_of result ≡ links_of self.now }
        ensures position { reading.place_of result ≡ place_of self.now }
    {
        Cursor::new(&*self.list, &*self.links, self.current.again())
    }
}

impl<'a, L: LinkOps, C: CursorOps<L>> CursorMut<'a, C, L> {
    ghost use Rattle.ic_cursors.specs.CursorMut.{list_of, links_of, place_of, site_of, IsValid, Moves, Edited};
    ghost use Rattle.ic_cursors.specs.Cursor.{ReadsMoved};

    /// Moves the cursor to the next member or to null, as [`Cursor::move_next`] does.
    #[inline]
    pub fn move_next(&mut self)
        requires stands { IsValid C.IsValidAt self.old }
        ensures { Moves C.head_of C.Position.member C.IsValidAt (MovesOn C.Represents L.table) self.old self.new }
    {
        self.current = self.list.next_of(&*self.links, &self.current);
    }

    /// A reading cursor at the position to which [`CursorMut::move_next`] would move. The call takes as long as the move.
    #[inline]
    pub fn peek_next(&self) -> Cursor<'_, C, L>
        requires stands { IsValid C.IsValidAt self.now }
        ensures { ReadsMoved C.head_of C.Position.member C.IsValidAt (MovesOn C.Represents L.table)
            (list_of self.now) (links_of self.now) (place_of self.now) result }
    {
        let cursor = self.as_cursor();
        cursor.peek_next()
    }

    /// Inserts the object after the cursor, or before the first member if the cursor is on no member, unless the object's link is refused.
    ///
    /// The call requires that the table covers the object's place. The cursor stays where it is. An insert takes O(1) in a list and O(log n) in a
    /// tree.
    #[inline]
    pub fn insert_after(
        &mut self,
        object: UnsafeRef<C::Object>,
    ) -> Result<(), AlreadyLinked<C::Object>>
        requires covered { IsCovered (L.table (links_of self.old)) object }
        requires stands { IsValid C.IsValidAt self.old }
        ensures inserted { InsertsBeside C.Represents L.table L.Trace L.Refused IsAfter
            (site_of C.head_of C.Position.member self.old) object result (site_of C.head_of C.Position.member self.new) }
        ensures kept { Edited C.IsValidAt C.Keeps self.old self.new }
    {
        inserted(
            self.list
                .insert_after_at(self.links, &mut self.current, object.place()),
            object,
        )
    }
}

impl<'a, L: LinkOps, C: Bidirectional<L>> CursorMut<'a, C, L> {
    ghost use Rattle.ic_cursors.specs.CursorMut.{list_of, links_of, place_of, site_of, IsValid, Moves, Edited};
    ghost use Rattle.ic_cursors.specs.Cursor.{ReadsMoved};

    /// Moves the cursor to the previous member or to null, as [`Cursor::move_prev`] does.
    #[inline]
    pub fn move_prev(&mut self)
        requires stands { IsValid C.IsValidAt self.old }
        ensures { Moves C.head_of C.Position.member C.IsValidAt (MovesBack C.Represents L.table) self.old self.new }
    {
        self.current = self.list.prev_of(&*self.links, &self.current);
    }

    /// A reading cursor at the position to which [`CursorMut::move_prev`] would move. The call takes as long as the move.
    #[inline]
    pub fn peek_prev(&self) -> Cursor<'_, C, L>
        requires stands { IsValid C.IsValidAt self.now }
        ensures { ReadsMoved C.head_of C.Position.member C.IsValidAt (MovesBack C.Represents L.table)
            (list_of self.now) (links_of self.now) (place_of self.now) result }
    {
        let cursor = self.as_cursor();
        cursor.peek_prev()
    }

    /// Inserts the object before the cursor, or after the last member if the cursor is on no member, unless the object's link is refused.
    ///
    /// The call requires what [`CursorMut::insert_after`] requires, and takes as long. The cursor stays where it is.
    #[inline]
    pub fn insert_before(
        &mut self,
        object: UnsafeRef<C::Object>,
    ) -> Result<(), AlreadyLinked<C::Object>>
        requires covered { IsCovered (L.table (links_of self.old)) object }
        requires stands { IsValid C.IsValidAt self.old }
        ensures inserted { InsertsBeside C.Represents L.table L.Trace L.Refused IsBefore
            (site_of C.head_of C.Position.member self.old) object result (site_of C.head_of C.Position.member self.new) }
        ensures kept { Edited C.IsValidAt C.Keeps self.old self.new }
    {
        inserted(
            self.list
                .insert_before_at(self.links, &mut self.current, object.place()),
            object,
        )
    }

    /// Removes the member that the cursor is on and returns this member, or `None` if the cursor is on no member.
    ///
    /// The cursor moves to the next member, or to null if there is no next member. A removal takes O(1) in a list and O(log n) in a tree.
    #[inline]
    pub fn remove(&mut self) -> Option<UnsafeRef<C::Object>>
        requires stands { IsValid C.IsValidAt self.old }
        ensures removed { RemovesThere C.Represents L.table L.Trace (site_of C.head_of C.Position.member self.old) result (site_of C.head_of C.Position.member self.new) }
        ensures kept { Edited C.IsValidAt C.Keeps self.old self.new }
    {
        let place = self.list.remove_at(self.links, &mut self.current)?;
        Some(UnsafeRef::new(place))
    }

    /// Replaces the member that the cursor is on by the object, and returns the replaced member.
    ///
    /// The call requires that the table covers the object's place. Afterwards the cursor is on the object. If the cursor is on no member, the call
    /// returns [`ReplaceError::Null`], whether or not the object is linked. O(1).
    #[inline]
    pub fn replace_with(
        &mut self,
        object: UnsafeRef<C::Object>,
    ) -> Result<UnsafeRef<C::Object>, ReplaceError<C::Object>>
        requires covered { IsCovered (L.table (links_of self.old)) object }
        requires stands { IsValid C.IsValidAt self.old }
        ensures replaced { ReplacesThere C.Represents L.table L.Trace L.Refused
            (site_of C.head_of C.Position.member self.old) object result (site_of C.head_of C.Position.member self.new) }
        ensures kept { Edited C.IsValidAt C.Keeps self.old self.new }
    {
        let (out, place) = (self.current.get(), object.place());
        let is_acquired = self.list.replace_at(self.links, &mut self.current, place);
        replaced(out, object, is_acquired)
    }
}

impl<'a, L: LinkOps, C: Ordered<L>> CursorMut<'a, C, L> {
    ghost use Rattle.ic_cursors.specs.CursorMut.{list_of, links_of, site_of, IsValid, Edited};

    /// Inserts the object in the order of the keys, after the members whose keys are not greater, unless the object's link is refused.
    ///
    /// The call requires that an object is at the object's place and at each member, and that the table covers the object's place. The cursor stays
    /// where it is. If the link is refused, the object is returned and nothing else has changed. O(log n).
    #[inline]
    pub fn insert<O: Values<C::Object>>(
        &mut self,
        objects: &O,
        object: UnsafeRef<C::Object>,
    ) -> Result<(), AlreadyLinked<C::Object>>
        requires covered { IsCovered (L.table (links_of self.old)) object }
        requires placed { RepresentsPlaced (C.Represents (L.table (links_of self.old)) (C.head_of (list_of self.old))) (O.values objects.now) }
        requires object { is_placed (O.values objects.now) object ≡ true }
        requires stands { IsValid C.IsValidAt self.old }
        ensures inserted { InsertsAmong C.Represents L.table L.Trace L.Refused (C.order_of (list_of self.old) (O.values objects.now) object)
            (site_of C.head_of C.Position.member self.old) object result (site_of C.head_of C.Position.member self.new) }
        ensures kept { Edited C.IsValidAt C.Keeps self.old self.new }
    {
        inserted(
            self.list
                .insert_in_order(self.links, objects, &mut self.current, object.place()),
            object,
        )
    }
}

impl<'a, L: LinkOps, C: ForwardOnly<L>> CursorMut<'a, C, L> {
    ghost use Rattle.ic_cursors.specs.CursorMut.{links_of, site_of, IsValid, Edited};

    /// Removes the member after the cursor, or the first member if the cursor is on no member, and returns it. If there is no such member, the result
    /// is `None`.
    ///
    /// The cursor stays where it is. O(1).
    #[inline]
    pub fn remove_next(&mut self) -> Option<UnsafeRef<C::Object>>
        requires stands { IsValid C.IsValidAt self.old }
        ensures removed { RemovesNext C.Represents L.table L.Trace (site_of C.head_of C.Position.member self.old) result (site_of C.head_of C.Position.member self.new) }
        ensures kept { Edited C.IsValidAt C.Keeps self.old self.new }
    {
        let place = self.list.remove_next_at(self.links, &mut self.current)?;
        Some(UnsafeRef::new(place))
    }

    /// Replaces the member after the cursor, or the first member if the cursor is on no member, by the object. Returns the replaced member.
    ///
    /// The call requires that the table covers the object's place. If there is no member to replace, the call returns [`ReplaceError::Null`], whether
    /// or not the object is linked. The cursor stays where it is. O(1).
    #[inline]
    pub fn replace_next_with(
        &mut self,
        object: UnsafeRef<C::Object>,
    ) -> Result<UnsafeRef<C::Object>, ReplaceError<C::Object>>
        requires covered { IsCovered (L.table (links_of self.old)) object }
        requires stands { IsValid C.IsValidAt self.old }
        ensures replaced { ReplacesNext C.Represents L.table L.Trace L.Refused
            (site_of C.head_of C.Position.member self.old) object result (site_of C.head_of C.Position.member self.new) }
        ensures kept { Edited C.IsValidAt C.Keeps self.old self.new }
    {
        let place = object.place();
        let (out, is_acquired) = self
            .list
            .replace_next_at(self.links, &mut self.current, place);
        replaced(out, object, is_acquired)
    }
}

impl<'a, L: LinkOps, C: Splice<L>> CursorMut<'a, C, L> {
    ghost use Rattle.ic_cursors.specs.CursorMut.{list_of, links_of, site_of, IsValid, SameBorrows, Edited};

    /// Inserts all members of the given collection after the cursor, or before the first member if the cursor is on no member.
    ///
    /// The call requires that the table also represents the given collection, and that the two collections share no member. The cursor stays where it
    /// is. O(1).
    #[inline]
    pub fn splice_after(&mut self, given: C)
        requires stands { IsValid C.IsValidAt self.old }
        requires given { (s : List Place) × C.Represents (L.table (links_of self.old)) (C.head_of given) s }
        ensures spliced { SplicesBeside C.Represents L.table L.Trace IsAfter
            (site_of C.head_of C.Position.member self.old) (C.head_of given) (site_of C.head_of C.Position.member self.new) }
        ensures kept { WhereApart C.Represents L.table IsAfter (site_of C.head_of C.Position.member self.old) (C.head_of given) (λ gap t. IsValid C.IsValidAt self.new) }
        ensures rest { C.Keeps (list_of self.old) (list_of self.new) }
        ensures borrows { SameBorrows self.old self.new }
    {
        self.list
            .splice_after_at(self.links, &mut self.current, given);
    }

    /// Removes the members after the cursor, or all members if the cursor is on no member, and returns them as a collection.
    ///
    /// The cursor stays where it is. O(1).
    #[inline]
    pub fn split_after(&mut self) -> C
        requires stands { IsValid C.IsValidAt self.old }
        ensures split { SplitsAfter C.Represents L.table L.Trace (site_of C.head_of C.Position.member self.old) (C.head_of result) (site_of C.head_of C.Position.member self.new) }
        ensures kept { Edited C.IsValidAt C.Keeps self.old self.new }
    {
        self.list.split_after_at(self.links, &mut self.current)
    }
}

impl<'a, L: LinkOps, C: BidirectionalSplice<L>> CursorMut<'a, C, L> {
    ghost use Rattle.ic_cursors.specs.CursorMut.{list_of, links_of, site_of, IsValid, SameBorrows, Edited};

    /// Inserts all members of the given collection before the cursor, or after the last member if the cursor is on no member.
    ///
    /// The call requires what [`CursorMut::splice_after`] requires. The cursor stays where it is. O(1).
    #[inline]
    pub fn splice_before(&mut self, given: C)
        requires stands { IsValid C.IsValidAt self.old }
        requires given { (s : List Place) × C.Represents (L.table (links_of self.old)) (C.head_of given) s }
        ensures spliced { SplicesBeside C.Represents L.table L.Trace IsBefore
            (site_of C.head_of C.Position.member self.old) (C.head_of given) (site_of C.head_of C.Position.member self.new) }
        ensures kept { WhereApart C.Represents L.table IsBefore (site_of C.head_of C.Position.member self.old) (C.head_of given) (λ gap t. IsValid C.IsValidAt self.new) }
        ensures rest { C.Keeps (list_of self.old) (list_of self.new) }
        ensures borrows { SameBorrows self.old self.new }
    {
        self.list
            .splice_before_at(self.links, &mut self.current, given);
    }

    /// Removes the members before the cursor, or all members if the cursor is on no member, and returns them as a collection.
    ///
    /// The cursor stays where it is. O(1).
    #[inline]
    pub fn split_before(&mut self) -> C
        requires stands { IsValid C.IsValidAt self.old }
        ensures split { SplitsBefore C.Represents L.table L.Trace (site_of C.head_of C.Position.member self.old) (C.head_of result) (site_of C.head_of C.Position.member self.new) }
        ensures kept { Edited C.IsValidAt C.Keeps self.old self.new }
    {
        self.list.split_before_at(self.links, &mut self.current)
    }
}
