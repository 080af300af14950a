//! A cursor that owns its collection and borrows nothing.
//!
//! ```text
//! let mut cursor = list.cursor_owning(); // null
//! cursor.move_next(&links);
//! cursor.insert_before(&mut links, object)?; // before the first member
//! let list = cursor.into_inner();
//! ```

ghost use Rattle.std.specs.Prelude.{◌≡◌, true, List, None};
ghost use Rattle.ic_link_ops.specs.Prelude.{Place, is_placed, IsAfter, IsBefore, IsCovered, MovesOn, MovesBack, RepresentsPlaced, InsertsBeside, RemovesThere, ReplacesThere, RemovesNext, ReplacesNext, SplicesBeside, SplitsAfter, SplitsBefore, WhereApart};
ghost use Rattle.ic_cursors.specs.Ordered.{InsertsAmong};

use crate::answers::{inserted, replaced};
use crate::{
    Bidirectional, BidirectionalSplice, Collection, Cursor, CursorOps, ForwardOnly, Ordered,
    Position, Splice,
};
use ic_link_ops::{AlreadyLinked, LinkOps, ReplaceError};
use ic_unsafe_ref::{Place, UnsafeRef, Values};

/// A cursor that owns its collection. Each of its calls takes the table of the collection's links.
pub struct CursorOwning<C: Collection> {
    list: C,
    current: C::Position,
}

impl<C: Collection + Drop> Drop for CursorOwning<C> {
    fn drop(self) {
        let CursorOwning {
            list: _,
            current: _,
        } = self;
    }
}

impl<C: Collection> CursorOwning<C> {
    ghost use Rattle.ic_cursors.specs.CursorOwning.{list_of, place_of, position};
    ghost use Rattle.ic_cursors.specs.Cursor as reading;

    /// Makes a cursor at the position `current` of the collection `list`. Each kind of collection has calls that make cursors, and these calls use
    /// this function. O(1).
    #[inline]
    pub fn new(list: C, current: C::Position) -> CursorOwning<C>
        ensures list { list_of result ≡ list }
        ensures position { place_of result ≡ current }
    {
        CursorOwning { list, current }
    }

    /// Ends the cursor and returns the collection. O(1).
    #[inline]
    pub fn into_inner(self) -> C
        ensures { result ≡ list_of self }
    {
        let CursorOwning { list, current: _ } = self;
        list
    }

    /// A reading cursor at the position of this cursor. O(1).
    #[inline]
    pub fn as_cursor<'a, L>(&'a self, links: &'a L) -> Cursor<'a, C, L>
        ensures list { reading.list_of result ≡ list_of self.now }
        ensures links { reading.links_of result ≡ links.now }
        ensures position { reading.place_of result ≡ place_of self.now }
    {
        Cursor::new(&self.list, links, self.current.again())
    }

    /// Lends the collection that the cursor owns, so that a caller can read it. The cursor stays where it is. O(1).
    #[inline]
    pub fn list(&self) -> &C
        ensures { result.now ≡ list_of self.now }
    {
        &self.list
    }

    /// The place of the member that the cursor is on, or `None` if the cursor is on no member. O(1).
    #[inline]
    pub fn get_ptr(&self) -> Option<Place>
        ensures { result ≡ position C.Position.member self.now }
    {
        self.current.get()
    }

    /// Moves the cursor to null (no member) from any position. The call reads no entry, and requires nothing. O(1).
    #[inline]
    pub fn go_null(&mut self)
        ensures list { list_of self.new ≡ list_of self.old }
        ensures null { place_of self.new ≡ C.null_of (list_of self.old) }
        ensures position { position C.Position.member self.new ≡ None }
    {
        self.current = self.list.null_position();
    }
}

impl<C: Collection> CursorOwning<C> {
    ghost use Rattle.ic_cursors.specs.CursorOwning.{list_of, site_of, IsValid, Moves, Edited};

    /// Moves the cursor to the next member or to null, as [`Cursor::move_next`] does.
    #[inline]
    pub fn move_next<L: LinkOps>(&mut self, links: &L)
    where
        C: CursorOps<L>,
        requires stands { IsValid C.IsValidAt links.now self.old }
        ensures { Moves C.head_of C.Position.member C.IsValidAt (MovesOn C.Represents L.table) links.now self.old self.new }
    {
        self.current = self.list.next_of(links, &self.current);
    }

    /// Inserts the object after the cursor, unless its link is refused, as [`CursorMut::insert_after`](crate::CursorMut::insert_after) does.
    #[inline]
    pub fn insert_after<L: LinkOps>(
        &mut self,
        links: &mut L,
        object: UnsafeRef<C::Object>,
    ) -> Result<(), AlreadyLinked<C::Object>>
    where
        C: CursorOps<L>,
        requires covered { IsCovered (L.table links.old) object }
        requires stands { IsValid C.IsValidAt links.old self.old }
        ensures inserted { InsertsBeside C.Represents L.table L.Trace L.Refused IsAfter
            (site_of C.head_of C.Position.member links.old self.old) object result (site_of C.head_of C.Position.member links.new self.new) }
        ensures kept { Edited C.IsValidAt C.Keeps self.old links.new self.new }
    {
        inserted(
            self.list
                .insert_after_at(links, &mut self.current, object.place()),
            object,
        )
    }

    /// Moves the cursor to the previous member or to null, as [`Cursor::move_prev`] does.
    #[inline]
    pub fn move_prev<L: LinkOps>(&mut self, links: &L)
    where
        C: Bidirectional<L>,
        requires stands { IsValid C.IsValidAt links.now self.old }
        ensures { Moves C.head_of C.Position.member C.IsValidAt (MovesBack C.Represents L.table) links.now self.old self.new }
    {
        self.current = self.list.prev_of(links, &self.current);
    }

    /// Inserts the object before the cursor, unless its link is refused, as [`CursorMut::insert_before`](crate::CursorMut::insert_before) does.
    #[inline]
    pub fn insert_before<L: LinkOps>(
        &mut self,
        links: &mut L,
        object: UnsafeRef<C::Object>,
    ) -> Result<(), AlreadyLinked<C::Object>>
    where
        C: Bidirectional<L>,
        requires covered { IsCovered (L.table links.old) object }
        requires stands { IsValid C.IsValidAt links.old self.old }
        ensures inserted { InsertsBeside C.Represents L.table L.Trace L.Refused IsBefore
            (site_of C.head_of C.Position.member links.old self.old) object result (site_of C.head_of C.Position.member links.new self.new) }
        ensures kept { Edited C.IsValidAt C.Keeps self.old links.new self.new }
    {
        inserted(
            self.list
                .insert_before_at(links, &mut self.current, object.place()),
            object,
        )
    }

    /// Removes the member that the cursor is on and returns this member, as [`CursorMut::remove`](crate::CursorMut::remove) does.
    #[inline]
    pub fn remove<L: LinkOps>(&mut self, links: &mut L) -> Option<UnsafeRef<C::Object>>
    where
        C: Bidirectional<L>,
        requires stands { IsValid C.IsValidAt links.old self.old }
        ensures removed { RemovesThere C.Represents L.table L.Trace (site_of C.head_of C.Position.member links.old self.old) result (site_of C.head_of C.Position.member links.new self.new) }
        ensures kept { Edited C.IsValidAt C.Keeps self.old links.new self.new }
    {
        let place = self.list.remove_at(links, &mut self.current)?;
        Some(UnsafeRef::new(place))
    }

    /// Replaces the member that the cursor is on by the object, as [`CursorMut::replace_with`](crate::CursorMut::replace_with) does.
    #[inline]
    pub fn replace_with<L: LinkOps>(
        &mut self,
        links: &mut L,
        object: UnsafeRef<C::Object>,
    ) -> Result<UnsafeRef<C::Object>, ReplaceError<C::Object>>
    where
        C: Bidirectional<L>,
        requires covered { IsCovered (L.table links.old) object }
        requires stands { IsValid C.IsValidAt links.old self.old }
        ensures replaced { ReplacesThere C.Represents L.table L.Trace L.Refused
            (site_of C.head_of C.Position.member links.old self.old) object result (site_of C.head_of C.Position.member links.new self.new) }
        ensures kept { Edited C.IsValidAt C.Keeps self.old links.new self.new }
    {
        let (out, place) = (self.current.get(), object.place());
        let is_acquired = self.list.replace_at(links, &mut self.current, place);
        replaced(out, object, is_acquired)
    }

    /// Inserts the object in the order of the keys, unless its link is refused, as [`CursorMut::insert`](crate::CursorMut::insert) does.
    #[inline]
    pub fn insert<L: LinkOps, O: Values<C::Object>>(
        &mut self,
        links: &mut L,
        objects: &O,
        object: UnsafeRef<C::Object>,
    ) -> Result<(), AlreadyLinked<C::Object>>
    where
        C: Ordered<L>,
        requires covered { IsCovered (L.table links.old) object }
        requires placed { RepresentsPlaced (C.Represents (L.table links.old) (C.head_of (list_of self.old))) (O.values objects.now) }
        requires object { is_placed (O.values objects.now) object ≡ true }
        requires stands { IsValid C.IsValidAt links.old self.old }
        ensures inserted { InsertsAmong C.Represents L.table L.Trace L.Refused (C.order_of (list_of self.old) (O.values objects.now) object)
            (site_of C.head_of C.Position.member links.old self.old) object result (site_of C.head_of C.Position.member links.new self.new) }
        ensures kept { Edited C.IsValidAt C.Keeps self.old links.new self.new }
    {
        inserted(
            self.list
                .insert_in_order(links, objects, &mut self.current, object.place()),
            object,
        )
    }

    /// Removes the member after the cursor and returns it, as [`CursorMut::remove_next`](crate::CursorMut::remove_next) does.
    #[inline]
    pub fn remove_next<L: LinkOps>(&mut self, links: &mut L) -> Option<UnsafeRef<C::Object>>
    where
        C: ForwardOnly<L>,
        requires stands { IsValid C.IsValidAt links.old self.old }
        ensures removed { RemovesNext C.Represents L.table L.Trace (site_of C.head_of C.Position.member links.old self.old) result (site_of C.head_of C.Position.member links.new self.new) }
        ensures kept { Edited C.IsValidAt C.Keeps self.old links.new self.new }
    {
        let place = self.list.remove_next_at(links, &mut self.current)?;
        Some(UnsafeRef::new(place))
    }

    /// Replaces the member after the cursor by the object, as [`CursorMut::replace_next_with`](crate::CursorMut::replace_next_with) does.
    #[inline]
    pub fn replace_next_with<L: LinkOps>(
        &mut self,
        links: &mut L,
        object: UnsafeRef<C::Object>,
    ) -> Result<UnsafeRef<C::Object>, ReplaceError<C::Object>>
    where
        C: ForwardOnly<L>,
        requires covered { IsCovered (L.table links.old) object }
        requires stands { IsValid C.IsValidAt links.old self.old }
        ensures replaced { ReplacesNext C.Represents L.table L.Trace L.Refused
            (site_of C.head_of C.Position.member links.old self.old) object result (site_of C.head_of C.Position.member links.new self.new) }
        ensures kept { Edited C.IsValidAt C.Keeps self.old links.new self.new }
    {
        let place = object.place();
        let (out, is_acquired) = self.list.replace_next_at(links, &mut self.current, place);
        replaced(out, object, is_acquired)
    }

    /// Inserts all members of the given collection after the cursor, as [`CursorMut::splice_after`](crate::CursorMut::splice_after) does.
    #[inline]
    pub fn splice_after<L: LinkOps>(&mut self, links: &mut L, given: C)
    where
        C: Splice<L>,
        requires stands { IsValid C.IsValidAt links.old self.old }
        requires given { (s : List Place) × C.Represents (L.table links.old) (C.head_of given) s }
        ensures spliced { SplicesBeside C.Represents L.table L.Trace IsAfter
            (site_of C.head_of C.Position.member links.old self.old) (C.head_of given) (site_of C.head_of C.Position.member links.new self.new) }
        ensures kept { WhereApart C.Represents L.table IsAfter (site_of C.head_of C.Position.member links.old self.old) (C.head_of given)
            (λ gap t. IsValid C.IsValidAt links.new self.new) }
        ensures rest { C.Keeps (list_of self.old) (list_of self.new) }
    {
        self.list.splice_after_at(links, &mut self.current, given);
    }

    /// Removes the members after the cursor and returns them as a collection, as [`CursorMut::split_after`](crate::CursorMut::split_after) does.
    #[inline]
    pub fn split_after<L: LinkOps>(&mut self, links: &mut L) -> C
    where
        C: Splice<L>,
        requires stands { IsValid C.IsValidAt links.old self.old }
        ensures split { SplitsAfter C.Represents L.table L.Trace (site_of C.head_of C.Position.member links.old self.old) (C.head_of result) (site_of C.head_of C.Position.member links.new self.new) }
        ensures kept { Edited C.IsValidAt C.Keeps self.old links.new self.new }
    {
        self.list.split_after_at(links, &mut self.current)
    }

    /// Inserts all members of the given collection before the cursor, as [`CursorMut::splice_before`](crate::CursorMut::splice_before) does.
    #[inline]
    pub fn splice_before<L: LinkOps>(&mut self, links: &mut L, given: C)
    where
        C: BidirectionalSplice<L>,
        requires stands { IsValid C.IsValidAt links.old self.old }
        requires given { (s : List Place) × C.Represents (L.table links.old) (C.head_of given) s }
        ensures spliced { SplicesBeside C.Represents L.table L.Trace IsBefore
            (site_of C.head_of C.Position.member links.old self.old) (C.head_of given) (site_of C.head_of C.Position.member links.new self.new) }
        ensures kept { WhereApart C.Represents L.table IsBefore (site_of C.head_of C.Position.member links.old self.old) (C.head_of given)
            (λ gap t. IsValid C.IsValidAt links.new self.new) }
        ensures rest { C.Keeps (list_of self.old) (list_of self.new) }
    {
        self.list.splice_before_at(links, &mut self.current, given);
    }

    /// Removes the members before the cursor and returns them as a collection, as [`CursorMut::split_before`](crate::CursorMut::split_before) does.
    #[inline]
    pub fn split_before<L: LinkOps>(&mut self, links: &mut L) -> C
    where
        C: BidirectionalSplice<L>,
        requires stands { IsValid C.IsValidAt links.old self.old }
        ensures split { SplitsBefore C.Represents L.table L.Trace (site_of C.head_of C.Position.member links.old self.old) (C.head_of result) (site_of C.head_of C.Position.member links.new self.new) }
        ensures kept { Edited C.IsValidAt C.Keeps self.old links.new self.new }
    {
        self.list.split_before_at(links, &mut self.current)
    }
}
