//! This file defines the links of singly linked lists: the trait that a list requires of its table of links, and the plain table.
//!
//! ```text
//! let mut links = LinkOps::new(rt.alloc());
//! links.cover(3)?;
//! ```

ghost use Rattle.std.specs.Prelude.{◌≡◌, Option, true, [], ◌∷◌};
ghost use Rattle.std.specs.Bool.{OnTrue, OnFalse};
ghost use Rattle.ic_link_ops.specs.Base.{Place, IsCovered, IsLinked, IsNameable, ChangesOnly, acquires};
ghost use Rattle.ic_link_ops.specs.SinglyLinkedList.{Successor, successor_at};

use crate::lent_table::LentTable;
use crate::link::{self, NextWord};
use crate::link_ops;
use crate::link_value::LinkValue;
use crate::one_word::{OneNarrowWord, OneWord};
use crate::table::PlainTable;
use crate::word::Word;
use ic_unsafe_ref::Place;
use std::alloc::{Allocator, Global};

/// A table for singly linked lists. The entry of each place names the place after it.
pub trait SinglyLinkedListOps: link_ops::LinkOps {
    // The parts of an entry: whether its place is linked, and which place is after it.
    ghost successor: { Self.Entry → Successor };

    /// The place after `place`. The call requires that `place` is linked. O(1).
    fn next(&self, place: Place) -> Option<Place>
        requires linked { IsLinked Self.linked (Self.table self.now) place }
        ensures { result ≡ (successor_at successor (Self.table self.now) place).next };

    /// Sets the place after `place`. The call requires that `place` is linked, and that the table's words have room for the new
    /// neighbor. O(1).
    fn set_next(&mut self, place: Place, next: Option<Place>)
        requires linked { IsLinked Self.linked (Self.table self.old) place }
        requires next { IsNameable Self.CanName next }
        ensures set { successor_at successor (Self.table self.new) place
            ≡ record (successor_at successor (Self.table self.old) place) { next = next } }
        ensures frame { ChangesOnly (Self.table self.old) (Self.table self.new) place }
        ensures trace_stays { Self.Trace self.old self.new [] };

    /// Links `place` before `next` and returns true, or returns false if the link is refused. The call requires that `place` is
    /// covered, and that the table's words have room for `next`. O(1).
    ///
    /// The call does what `acquire_link` and `set_next` do. A table can implement the call so that it writes the word only once.
    #[inline]
    fn link_before(&mut self, place: Place, next: Option<Place>) -> bool
        requires covered { IsCovered (Self.table self.old) place }
        requires next { IsNameable Self.CanName next }
        ensures acquired { OnTrue result (Self.Trace self.old self.new (acquires place ∷ [])) }
        ensures set { OnTrue result (successor_at successor (Self.table self.new) place ≡ record { linked = true; next = next }) }
        ensures refused { OnFalse result (Self.Refused self.old self.new place) }
        ensures frame { ChangesOnly (Self.table self.old) (Self.table self.new) place }
    {
        if !self.acquire_link(place) {
            return false;
        }
        self.set_next(place, next);
        true
    }

    // The law: the traits `SinglyLinkedListOps` and `LinkOps` agree on whether a place is linked.
    ghost linked_alike: { (e : Self.Entry) → (successor e).linked ≡ Self.linked e };
}

/// The kind of links whose word names the next place.
pub struct Singly;

/// What the plain table of singly linked lists stores at a place: one word.
pub type Link = link::Link<OneWord<Singly>>;

/// The plain table for singly linked lists, with one word for each place. XOR lists can use it as well.
pub type LinkOps<A = Global> = PlainTable<OneWord<Singly>, A>;

/// The plain table for singly linked lists with a value beside each link.
pub type LinkOpsWith<V, A = Global> = PlainTable<OneWord<Singly>, A, V>;

/// What a table with words of 4 bytes stores at a place. A narrow link has half the bytes of a `Link`.
pub type NarrowLink = link::Link<OneNarrowWord<Singly>>;

/// The plain table for singly linked lists with words of 4 bytes. The links of this table are half as large as those of
/// `LinkOps`, and the table has room for 536,870,911 places.
pub type NarrowLinkOps<A = Global> = PlainTable<OneNarrowWord<Singly>, A>;

/// The plain table of narrow links with a value beside each link.
pub type NarrowLinkOpsWith<V, A = Global> = PlainTable<OneNarrowWord<Singly>, A, V>;

impl<W: NextWord, A: Allocator, V: LinkValue> SinglyLinkedListOps for PlainTable<W, A, V> {
    ghost use Rattle.std.specs.Prelude.{refl};
    ghost use Rattle.ic_link_ops.specs.Readings.{successor_of};

    ghost successor = { successor_of W.next_word W.is_linked };

    #[inline]
    fn next(&self, place: Place) -> Option<Place> {
        self.link(place).words.next_word().place()
    }

    #[inline]
    fn set_next(&mut self, place: Place, next: Option<Place>) {
        let index = self.slot(place);
        let entry = &mut self.entries[index];
        entry.words.set_next_word(Word::of(next));
    }

    #[inline]
    fn link_before(&mut self, place: Place, next: Option<Place>) -> bool {
        let index = self.slot(place);
        if self.entries[index].is_linked() {
            return false;
        }
        let linked = &mut self.entries[index];
        linked.link_to(Word::of(next));
        true
    }

    ghost linked_alike = { λ e. refl };
}

impl<W: NextWord, V: LinkValue> SinglyLinkedListOps for LentTable<'_, W, V> {
    ghost use Rattle.std.specs.Prelude.{refl};
    ghost use Rattle.ic_link_ops.specs.Readings.{successor_of};

    ghost successor = { successor_of W.next_word W.is_linked };

    #[inline]
    fn next(&self, place: Place) -> Option<Place> {
        let link = self.link(place);
        link.words.next_word().place()
    }

    #[inline]
    fn set_next(&mut self, place: Place, next: Option<Place>) {
        let index = self.slot(place);
        let link = &mut self.entries[index];
        link.words.set_next_word(Word::of(next));
    }

    #[inline]
    fn link_before(&mut self, place: Place, next: Option<Place>) -> bool {
        let index = self.slot(place);
        if self.entries[index].is_linked() {
            return false;
        }
        let linked = &mut self.entries[index];
        linked.link_to(Word::of(next));
        true
    }

    ghost linked_alike = { λ e. refl };
}
