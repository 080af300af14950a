//! A cursor that reads a ring.
//!
//! ```text
//! let mut cursor = ready.cursor(&links); // on the head
//! cursor.move_next();                    // on the first member, on the head in an empty ring
//! let first = cursor.get_ptr();
//! ```

ghost use Rattle.std.specs.Prelude.{◌≡◌, ◌↔◌, ◌∷◌, List, None, IsTrue, ⊤};
ghost use Rattle.ic_link_ops.specs.Prelude.{Place, IsMember};
ghost use Rattle.ic_ring.specs.Rings.{InRing, Represents};
ghost use Rattle.ic_ring.specs.RingCursors.{IsOn, LooksUp, MovesOn, MovesBack};

use crate::ring::Ring;
use crate::surgery::{next_of, prev_of};
use ic_link_ops::LinkOps;
use ic_link_ops::linked_list::LinkedListOps;
use ic_unsafe_ref::{Objects, Place};
use std::alloc::{AllocError, Allocator};
use std::marker::PhantomData;

/// A cursor that reads a ring. The cursor is on a member or on the head, which is between the last member and the first.
pub struct Cursor<'a, T, L> {
    links: &'a L,
    of: PhantomData<T>,
    head: Place,
    at: Place,
}

impl<T, L> Drop for Cursor<'_, T, L> {
    fn drop(self) {
        let Cursor {
            links: _,
            of: _,
            head: _,
            at: _,
        } = self;
    }
}

impl<'a, T, L: LinkedListOps> Cursor<'a, T, L> {
    ghost use Rattle.ic_ring.specs.Cursor.{links_of, head_of, at_of, IsValid, Moves};

    // Makes a cursor at the place `at` of the ring with the given head.
    #[inline]
    pub(crate) fn new(links: &'a L, head: Place, at: Place) -> Cursor<'a, T, L>
        ensures links { links_of result ≡ links.now }
        ensures head { head_of result ≡ head }
        ensures at { at_of result ≡ at }
    {
        Cursor {
            links,
            of: PhantomData,
            head,
            at,
        }
    }

    /// Whether the cursor is on the head. O(1).
    #[inline]
    pub fn is_null(&self) -> bool
        ensures { IsTrue result ↔ (at_of self.now ≡ head_of self.now) }
    {
        self.at == self.head
    }

    /// The place of the member that the cursor is on, or `None` if the cursor is on the head. O(1).
    #[inline]
    pub fn get_ptr(&self) -> Option<Place>
        ensures { IsOn (head_of self.now) (at_of self.now) result }
    {
        if self.is_null() { None } else { Some(self.at) }
    }

    /// The object that the cursor is on, or `None` if the cursor is on the head. The call makes one look-up, O(1).
    #[inline]
    pub fn get<'b, A: Allocator>(&self, objects: &'b Objects<T, A>) -> Option<&'b T>
        ensures { LooksUp objects.now (head_of self.now) (at_of self.now) result }
    {
        if self.is_null() {
            None
        } else {
            objects.get(self.at)
        }
    }

    /// Moves the cursor to the next member, or from the last member to the head, or from the head to the first member. O(1).
    ///
    /// The call requires that the cursor is valid. After the move, the gap that was right after the cursor is right before the cursor.
    #[inline]
    pub fn move_next(&mut self)
        requires stands { IsValid L.neighbors L.table self.old }
        ensures { Moves L.neighbors L.table MovesOn self.old self.new }
    {
        self.at = next_of(self.links, self.at);
    }

    /// Moves the cursor to the previous member, or from the first member to the head, or from the head to the last member. O(1).
    ///
    /// The call requires that the cursor is valid. After the move, the gap that was right before the cursor is right after the cursor.
    #[inline]
    pub fn move_prev(&mut self)
        requires stands { IsValid L.neighbors L.table self.old }
        ensures { Moves L.neighbors L.table MovesBack self.old self.new }
    {
        self.at = prev_of(self.links, self.at);
    }
}

impl<T, L> Clone for Cursor<'_, T, L> {
    ghost is_clone = { λ c copy. copy ≡ c };

    ghost is_infallible = { λ _. ⊤ };

    /// A second cursor at the place of this cursor. The call never fails.
    fn clone(&self) -> Result<Self, AllocError> {
        Ok(Cursor {
            links: self.links,
            of: PhantomData,
            head: self.head,
            at: self.at,
        })
    }
}

impl<T> Ring<T> {
    ghost use Rattle.ic_ring.specs.Cursor.{links_of, head_of, at_of, IsValid};

    /// A reading cursor on the head of the ring. O(1).
    ///
    /// The call requires that the table represents the ring.
    #[inline]
    pub fn cursor<'a, L: LinkedListOps>(&self, links: &'a L) -> Cursor<'a, T, L>
        requires shown { InRing L.neighbors (L.table links.now) self.now }
        ensures links { links_of result ≡ links.now }
        ensures head { head_of result ≡ self.now }
        ensures at { at_of result ≡ self.now }
        ensures stands { IsValid L.neighbors L.table result }
    {
        Cursor::new(links, self.head(), self.head())
    }

    /// A reading cursor on the member or the head at the place `at`. O(1).
    ///
    /// The call requires that the place `at` is in this ring.
    #[inline]
    pub fn cursor_at<'a, L: LinkedListOps>(&self, links: &'a L, at: Place) -> Cursor<'a, T, L>
        requires here { (r : List Place) × Represents L.neighbors (L.table links.now) self.now r × IsMember at (self.now ∷ r) }
        ensures links { links_of result ≡ links.now }
        ensures head { head_of result ≡ self.now }
        ensures at { at_of result ≡ at }
        ensures stands { IsValid L.neighbors L.table result }
    {
        Cursor::new(links, self.head(), at)
    }
}
