//! A cursor that edits a ring.
//!
//! ```text
//! let mut cursor = ready.cursor_mut(&mut links); // on the head
//! cursor.move_next();                            // on the first member
//! cursor.insert_after(object)?;                  // after it
//! let removed = cursor.remove();                 // and the cursor is on the object
//! ```

ghost use Rattle.std.specs.Prelude.{◌≡◌, ◌≢◌, ◌↔◌, ◌∷◌, ◌++◌, List, [], None, Some, IsTrue, OnOk, OnSome, IfOk, IfErr, IfSome, IfNone, drop};
ghost use Rattle.ic_link_ops.specs.Prelude.{Place, Cut, join, remove, replace, first_or, IsAbsent, IsMember, IsCovered, acquires, releases};
ghost use Rattle.ic_link_ops.specs.Errors.{object_of, ByCause};
ghost use Rattle.ic_ring.specs.Rings.{InRing, Represents, OthersStay};
ghost use Rattle.ic_ring.specs.RingCursors.{IsAfter, IsBefore, IsOn, LooksUp, MovesOn, MovesBack};

use crate::beside::{insert_after, insert_before, replace, unlink};
use crate::cursor::Cursor;
use crate::exchanges::splice_after_place;
use crate::ring::Ring;
use crate::surgery::{next_of, prev_of};
use ic_link_ops::linked_list::LinkedListOps;
use ic_link_ops::{AlreadyLinked, LinkOps, ReplaceError};
use ic_unsafe_ref::{Objects, Place, UnsafeRef};
use std::alloc::Allocator;
use std::marker::PhantomData;

/// A cursor that edits a ring. It is on a member or on the head, and borrows the table of the ring's links.
pub struct CursorMut<'a, T, L> {
    links: &'a mut L,
    of: PhantomData<T>,
    head: Place,
    at: Place,
}

impl<T, L> Drop for CursorMut<'_, T, L> {
    fn drop(self)
        ensures links { self.exit.0.now ≡ self.entry.links.now }
    {
        let CursorMut {
            links: _,
            of: _,
            head: _,
            at: _,
        } = self;
    }
}

impl<'a, T, L: LinkedListOps> CursorMut<'a, T, L> {
    ghost use Rattle.ic_ring.specs.CursorMut.{links_of, head_of, at_of, IsBorrowed, IsValid, SameRing, Moves, RepresentsAt, ChangesOnlyInRing, StaysInRing, InsertsAtCursor, SplicesAtCursor};
    ghost use Rattle.ic_ring.specs.Cursor as reading;

    // Makes a cursor at the place `at` of the ring with the given head.
    #[inline]
    pub(crate) fn new(links: &'a mut L, head: Place, at: Place) -> CursorMut<'a, T, L>
        ensures borrows { IsBorrowed links.entry result }
        ensures head { head_of result ≡ head }
        ensures at { at_of result ≡ at }
    {
        CursorMut {
            links,
            of: PhantomData,
            head,
            at,
        }
    }

    /// Whether the cursor is on the head. O(1).
    #[inline]
    pub fn is_null(&self) -> bool
        ensures { IsTrue result ↔ (at_of self.now ≡ head_of self.now) }
    {
        self.as_cursor().is_null()
    }

    /// The place of the member that the cursor is on, or `None` if the cursor is on the head. O(1).
    #[inline]
    pub fn get_ptr(&self) -> Option<Place>
        ensures { IsOn (head_of self.now) (at_of self.now) result }
    {
        self.as_cursor().get_ptr()
    }

    /// The object that the cursor is on, or `None` if the cursor is on the head. The call makes one look-up, O(1).
    #[inline]
    pub fn get<'b, A: Allocator>(&self, objects: &'b Objects<T, A>) -> Option<&'b T>
        ensures { LooksUp objects.now (head_of self.now) (at_of self.now) result }
    {
        self.as_cursor().get(objects)
    }

    /// A reading cursor at the place of this cursor. O(1).
    #[inline]
    pub fn as_cursor(&self) -> Cursor<'_, T, L>
        ensures links { reading.links_of result ≡ links_of self.now }
        ensures head { reading.head_of result ≡ head_of self.now }
        ensures at { reading.at_of result ≡ at_of self.now }
    {
        Cursor::new(&*self.links, self.head, self.at)
    }

    /// Moves the cursor to the next member or to the head, as [`Cursor::move_next`] does. O(1).
    #[inline]
    pub fn move_next(&mut self)
        requires stands { IsValid L.neighbors L.table self.old }
        ensures { Moves L.neighbors L.table MovesOn self.old self.new }
    {
        self.at = next_of(&*self.links, self.at);
    }

    /// Moves the cursor to the previous member or to the head, as [`Cursor::move_prev`] does. O(1).
    #[inline]
    pub fn move_prev(&mut self)
        requires stands { IsValid L.neighbors L.table self.old }
        ensures { Moves L.neighbors L.table MovesBack self.old self.new }
    {
        self.at = prev_of(&*self.links, self.at);
    }

    /// Inserts the object after the cursor, unless the object's link is refused. If the cursor is on the head, the object is inserted before the first
    /// member. O(1), and it takes no memory.
    ///
    /// The call requires that the cursor is valid, and that the table covers the object's place. The cursor stays where it is. If the link is
    /// refused, the object is returned and nothing has changed.
    #[inline]
    pub fn insert_after(&mut self, object: UnsafeRef<T>) -> Result<(), AlreadyLinked<T>>
        requires covered { IsCovered (L.table (links_of self.old)) object }
        requires stands { IsValid L.neighbors L.table self.old }
        ensures { InsertsAtCursor L.neighbors L.table L.Trace L.Refused IsAfter self.old object result self.new }
    {
        insert_after(self.links, self.at, object)
    }

    /// Inserts the object before the cursor, unless the object's link is refused. If the cursor is on the head, the object is inserted after the last member.
    /// O(1), and it takes no memory.
    ///
    /// The call requires and returns what [`CursorMut::insert_after`] does.
    #[inline]
    pub fn insert_before(&mut self, object: UnsafeRef<T>) -> Result<(), AlreadyLinked<T>>
        requires covered { IsCovered (L.table (links_of self.old)) object }
        requires stands { IsValid L.neighbors L.table self.old }
        ensures { InsertsAtCursor L.neighbors L.table L.Trace L.Refused IsBefore self.old object result self.new }
    {
        insert_before(self.links, self.at, object)
    }

    /// Removes the member that the cursor is on, unlinks it and returns it, or returns `None` if the cursor is on the head. O(1).
    ///
    /// The call requires that the cursor is valid. The cursor moves to the next member, or to the head if the removed member was the last one. If the cursor
    /// is on the head, nothing changes.
    #[inline]
    pub fn remove(&mut self) -> Option<UnsafeRef<T>>
        requires stands { IsValid L.neighbors L.table self.old }
        ensures answer { IsOn (head_of self.old) (at_of self.old) result }
        ensures removed { (gap : Cut) → RepresentsAt L.neighbors L.table self.old (join gap) → IsBefore (head_of self.old) gap (at_of self.old)
            → OnSome result (RepresentsAt L.neighbors L.table self.new (remove gap)) }
        ensures moved { (gap : Cut) → RepresentsAt L.neighbors L.table self.old (join gap) → IsBefore (head_of self.old) gap (at_of self.old)
            → Some (at_of self.new) ≡ first_or (drop 1 gap.back) (Some (head_of self.old)) }
        ensures released { IfSome result (λ object. L.Trace (links_of self.old) (links_of self.new) (releases object ∷ [])) }
        ensures null { IfNone result (links_of self.new ≡ links_of self.old) }
        ensures kept { StaysInRing L.neighbors L.table self.old self.new (λ s. head_of self.old ∷ s) }
    {
        if self.at == self.head {
            return None;
        }
        let place = self.at;
        let prev = prev_of(&*self.links, place);
        let next = next_of(&*self.links, place);
        unlink(self.links, prev, place, next);
        self.at = next;
        Some(UnsafeRef::new(place))
    }

    /// Replaces the member that the cursor is on by the object, unlinks the replaced member and returns it. O(1), and it takes no memory.
    ///
    /// The call requires that the cursor is valid, and that the table covers the object's place. Afterwards the cursor is on the object. If the
    /// cursor is on the head, or if the object's link is refused, the object is returned and nothing has changed.
    #[inline]
    pub fn replace_with(&mut self, object: UnsafeRef<T>) -> Result<UnsafeRef<T>, ReplaceError<T>>
        requires covered { IsCovered (L.table (links_of self.old)) object }
        requires stands { IsValid L.neighbors L.table self.old }
        ensures answer { IfOk result (λ out. out ≡ at_of self.old) }
        ensures replaced { (gap : Cut) → RepresentsAt L.neighbors L.table self.old (join gap) → IsBefore (head_of self.old) gap (at_of self.old)
            → OnOk result (RepresentsAt L.neighbors L.table self.new (replace gap object)) }
        ensures moved { OnOk result (at_of self.new ≡ object) }
        ensures exchanged { IfOk result (λ out. L.Trace (links_of self.old) (links_of self.new) (acquires object ∷ releases out ∷ [])) }
        ensures refused { IfErr result (ByCause ((at_of self.old ≡ head_of self.old) × (links_of self.new ≡ links_of self.old))
            ((at_of self.old ≢ head_of self.old) × L.Refused (links_of self.old) (links_of self.new) object)) }
        ensures unchanged { IfErr result (λ refused. (object_of refused ≡ object) × (at_of self.new ≡ at_of self.old)) }
        ensures kept { StaysInRing L.neighbors L.table self.old self.new (λ s. object ∷ head_of self.old ∷ s) }
    {
        if self.at == self.head {
            return Err(ReplaceError::Null(object));
        }
        let out = UnsafeRef::new(self.at);
        let place = object.place();
        if let Err(refused) = replace(self.links, &out, object) {
            return Err(ReplaceError::AlreadyLinked(refused.into_object()));
        }
        self.at = place;
        Ok(out)
    }

    /// Moves all members of another ring after the cursor. Afterwards the other ring is empty. O(1), and no link is acquired or released.
    ///
    /// The call requires that the cursor is valid, and that the two rings are different. The cursor stays where it is. Linux: `list_splice_init`.
    #[inline]
    pub fn splice_after(&mut self, given: &Ring<T>)
        requires stands { IsValid L.neighbors L.table self.old }
        requires apart { (t : List Place) × Represents L.neighbors (L.table (links_of self.old)) given.now t × IsAbsent (head_of self.old) (given.now ∷ t) }
        ensures { SplicesAtCursor L.neighbors L.table L.Trace IsAfter self.old given.now self.new }
    {
        splice_after_place(self.links, self.at, given.head());
    }

    /// Moves all members of another ring before the cursor. Afterwards the other ring is empty. O(1), and no link is acquired or released.
    ///
    /// The call requires what [`CursorMut::splice_after`] requires. The cursor stays where it is. Linux: `list_splice_tail_init`.
    #[inline]
    pub fn splice_before(&mut self, given: &Ring<T>)
        requires stands { IsValid L.neighbors L.table self.old }
        requires apart { (t : List Place) × Represents L.neighbors (L.table (links_of self.old)) given.now t × IsAbsent (head_of self.old) (given.now ∷ t) }
        ensures { SplicesAtCursor L.neighbors L.table L.Trace IsBefore self.old given.now self.new }
    {
        let prev = prev_of(&*self.links, self.at);
        splice_after_place(self.links, prev, given.head());
    }

    /// Moves the members after the cursor, or all members if the cursor is on the head, to the front of another ring. O(1), and no link is acquired
    /// or released.
    ///
    /// The call requires that the cursor is valid, and that the two rings are different. The cursor stays where it is.
    #[inline]
    pub fn split_after(&mut self, rest: &Ring<T>)
        requires stands { IsValid L.neighbors L.table self.old }
        requires apart { (t : List Place) × Represents L.neighbors (L.table (links_of self.old)) rest.now t × IsAbsent (head_of self.old) (rest.now ∷ t) }
        ensures split { (gap : Cut) (t : List Place) → RepresentsAt L.neighbors L.table self.old (join gap) → IsAfter (head_of self.old) gap (at_of self.old)
            → Represents L.neighbors (L.table (links_of self.old)) rest.now t
            → RepresentsAt L.neighbors L.table self.new gap.front × Represents L.neighbors (L.table (links_of self.new)) rest.now (gap.back ++ t) }
        ensures trace_stays { L.Trace (links_of self.old) (links_of self.new) [] }
        ensures at { at_of self.new ≡ at_of self.old }
        ensures stands { IsValid L.neighbors L.table self.new }
        ensures others { OthersStay L.neighbors (L.table (links_of self.old)) (L.table (links_of self.new)) (head_of self.old ∷ rest.now ∷ []) }
        ensures frame { (t : List Place) → Represents L.neighbors (L.table (links_of self.old)) rest.now t
            → ChangesOnlyInRing L.neighbors L.table self.old self.new (λ s. (head_of self.old ∷ s) ++ (rest.now ∷ t)) }
        ensures same { SameRing self.old self.new }
    {
        let ring: Ring<T> = Ring::from_head(self.head);
        ring.split_after(self.links, self.at, rest);
    }
}

impl<T> Ring<T> {
    ghost use Rattle.ic_ring.specs.CursorMut.{head_of, at_of, IsBorrowed, IsValid};

    /// An editing cursor on the head of the ring. O(1).
    ///
    /// The call requires that the table represents the ring.
    #[inline]
    pub fn cursor_mut<'a, L: LinkedListOps>(&self, links: &'a mut L) -> CursorMut<'a, T, L>
        requires shown { InRing L.neighbors (L.table links.old) self.now }
        ensures borrows { IsBorrowed links.entry result }
        ensures head { head_of result ≡ self.now }
        ensures at { at_of result ≡ self.now }
        ensures stands { IsValid L.neighbors L.table result }
    {
        CursorMut::new(links, self.head(), self.head())
    }

    /// An editing cursor on the member or the head at the place `at`. O(1).
    ///
    /// The call requires that the place `at` is in this ring.
    #[inline]
    pub fn cursor_mut_at<'a, L: LinkedListOps>(
        &self,
        links: &'a mut L,
        at: Place,
    ) -> CursorMut<'a, T, L>
        requires here { (r : List Place) × Represents L.neighbors (L.table links.old) self.now r × IsMember at (self.now ∷ r) }
        ensures borrows { IsBorrowed links.entry result }
        ensures head { head_of result ≡ self.now }
        ensures at { at_of result ≡ at }
        ensures stands { IsValid L.neighbors L.table result }
    {
        CursorMut::new(links, self.head(), at)
    }
}
