//! A cursor that reads a collection.
//!
//! ```text
//! let mut cursor = list.cursor(&links); // null
//! cursor.move_next();                   // the first member, null in an empty list
//! let second = cursor.peek_next().get_ptr();
//! ```

ghost use Rattle.std.specs.Prelude.{◌≡◌, ◌↔◌, None, IsTrue, ⊤};
ghost use Rattle.std.specs.Option.{option_copied};
ghost use Rattle.ic_link_ops.specs.Positions.{MovesOn, MovesBack, object_there};

use crate::{Bidirectional, Collection, CursorOps, Position};
use ic_link_ops::LinkOps;
use ic_unsafe_ref::{Objects, Place, UnsafeRef};
use std::alloc::{AllocError, Allocator};

/// A cursor that reads a collection. It is on a member, or at null, which is between the last member and the first.
pub struct Cursor<'a, C: Collection, L> {
    list: &'a C,
    links: &'a L,
    current: C::Position,
}

impl<C: Collection, L> Drop for Cursor<'_, C, L> {
    fn drop(self) {
        let Cursor {
            list: _,
            links: _,
            current: _,
        } = self;
    }
}

impl<'a, C: Collection, L> Cursor<'a, C, L> {
    ghost use Rattle.ic_cursors.specs.Cursor.{list_of, links_of, place_of, position};

    /// Makes a cursor at the position `current` of the collection `list`. Each kind of collection has calls that make cursors, and these calls use
    /// this function. O(1).
    #[inline]
    pub fn new(list: &'a C, links: &'a L, current: C::Position) -> Cursor<'a, C, L>
        ensures list { list_of result ≡ list.now }
        ensures links { links_of result ≡ links.now }
        ensures position { place_of result ≡ current }
    {
        Cursor {
            list,
            links,
            current,
        }
    }

    /// Whether the cursor is on no member. O(1).
    #[inline]
    pub fn is_null(&self) -> bool
        ensures { IsTrue result ↔ (position C.Position.member self.now ≡ None) }
    {
        self.current.get().is_none()
    }

    /// The place of the member that the cursor is on, or `None` if the cursor is on no member. O(1).
    #[inline]
    pub fn get_ptr(&self) -> Option<Place>
        ensures { result ≡ position C.Position.member self.now }
    {
        self.current.get()
    }

    /// The object that the cursor is on, or `None` if the cursor is on no member. The call makes one look-up, O(1).
    #[inline]
    pub fn get<'b, A: Allocator>(&self, objects: &'b Objects<C::Object, A>) -> Option<&'b C::Object>
        ensures { option_copied result ≡ object_there objects.now (position C.Position.member self.now) }
    {
        objects.get(self.current.get()?)
    }

    /// A reference to the object that the cursor is on, or `None` if the cursor is on no member. O(1).
    #[inline]
    pub fn clone_pointer(&self) -> Option<UnsafeRef<C::Object>>
        ensures { result ≡ position C.Position.member self.now }
    {
        let place = self.current.get()?;
        Some(UnsafeRef::new(place))
    }
}

impl<'a, L: LinkOps, C: CursorOps<L>> Cursor<'a, C, L> {
    ghost use Rattle.ic_cursors.specs.Cursor.{list_of, links_of, place_of, IsValid, ReadsMoved};

    /// Moves the cursor to the next member, or from the last member to null (no member), or from null to the first member.
    ///
    /// After the move, the gap that was right after the cursor is right before the cursor. The call takes O(1) in a list and O(log n) in a tree. A walk over
    /// all members of a tree takes O(n).
    #[inline]
    pub fn move_next(&mut self)
        requires stands { IsValid C.IsValidAt self.old }
        ensures { ReadsMoved C.head_of C.Position.member C.IsValidAt (MovesOn C.Represents L.table)
            (list_of self.old) (links_of self.old) (place_of self.old) self.new }
    {
        self.current = self.list.next_of(self.links, &self.current);
    }

    /// A cursor at the position to which [`Cursor::move_next`] would move. The call takes as long as the move.
    #[inline]
    pub fn peek_next(&self) -> Cursor<'a, C, L>
        requires stands { IsValid C.IsValidAt self.now }
        ensures { ReadsMoved C.head_of C.Position.member C.IsValidAt (MovesOn C.Represents L.table)
            (list_of self.now) (links_of self.now) (place_of self.now) result }
    {
        Cursor {
            list: self.list,
            links: self.links,
            current: self.list.next_of(self.links, &self.current),
        }
    }
}

impl<'a, L: LinkOps, C: Bidirectional<L>> Cursor<'a, C, L> {
    ghost use Rattle.ic_cursors.specs.Cursor.{list_of, links_of, place_of, IsValid, ReadsMoved};

    /// Moves the cursor to the previous member, or from the first member to null (no member), or from null to the last member.
    ///
    /// After the move, the gap that was right before the cursor is right after the cursor. The call takes O(1) in a list and O(log n) in a tree. A walk over
    /// all members of a tree takes O(n).
    #[inline]
    pub fn move_prev(&mut self)
        requires stands { IsValid C.IsValidAt self.old }
        ensures { ReadsMoved C.head_of C.Position.member C.IsValidAt (MovesBack C.Represents L.table)
            (list_of self.old) (links_of self.old) (place_of self.old) self.new }
    {
        self.current = self.list.prev_of(self.links, &self.current);
    }

    /// A cursor at the position to which [`Cursor::move_prev`] would move. The call takes as long as the move.
    #[inline]
    pub fn peek_prev(&self) -> Cursor<'a, C, L>
        requires stands { IsValid C.IsValidAt self.now }
        ensures { ReadsMoved C.head_of C.Position.member C.IsValidAt (MovesBack C.Represents L.table)
            (list_of self.now) (links_of self.now) (place_of self.now) result }
    {
        Cursor {
            list: self.list,
            links: self.links,
            current: self.list.prev_of(self.links, &self.current),
        }
    }
}

impl<C: Collection, L> Clone for Cursor<'_, C, L> {
    ghost is_clone = { λ c copy. copy ≡ c };

    ghost is_infallible = { λ _. ⊤ };

    /// A second cursor at the position of this cursor. The call never fails.
    fn clone(&self) -> Result<Self, AllocError> {
        Ok(Cursor {
            list: self.list,
            links: self.links,
            current: self.current.again(),
        })
    }
}
