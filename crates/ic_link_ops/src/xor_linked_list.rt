//! This file defines the links of XOR lists: the trait that a list requires of its table of links, and the plain table.
//!
//! ```text
//! let mut links = LinkOps::new(rt.alloc());
//! links.cover(3)?;
//! ```

ghost use Rattle.std.specs.Prelude.{◌≡◌, Option, [], ◌∷◌};
ghost use Rattle.std.specs.Bool.{OnTrue, OnFalse};
ghost use Rattle.ic_link_ops.specs.Base.{Place, IsCovered, IsLinked, IsNameable, ChangesOnly, acquires};

use crate::lent_table::LentTable;
use crate::link::{self, NextWord};
use crate::link_ops;
use crate::link_value::LinkValue;
use crate::one_word::{OneNarrowWord, OneWord};
use crate::table::PlainTable;
use crate::word::Word;
use ic_unsafe_ref::Place;
use std::alloc::{Allocator, Global};

/// A table for XOR lists. Each entry joins two neighbors in one word, and does not say which of the two comes first in the list.
///
/// A caller has to know one neighbor of a place to read the other neighbor.
pub trait XorLinkedListOps: link_ops::LinkOps {
    // The two places are the neighbors of the entry's place, in either order.
    ghost HasNeighbors: { Self.Entry → Option Place → Option Place → Type 0 };

    // If one neighbor of the place of the entry e is a, `other e a` is the other neighbor.
    ghost other: { Self.Entry → Option Place → Option Place };

    /// The place after `place`, if `prev` is the place before `place`. The call requires that `place` is linked. O(1).
    fn next(&self, place: Place, prev: Option<Place>) -> Option<Place>
        requires linked { IsLinked Self.linked (Self.table self.now) place }
        ensures { result ≡ other ((Self.table self.now).entry place) prev };

    /// The place before `place`, if `next` is the place after `place`. The call requires that `place` is linked. O(1).
    fn prev(&self, place: Place, next: Option<Place>) -> Option<Place>
        requires linked { IsLinked Self.linked (Self.table self.now) place }
        ensures { result ≡ other ((Self.table self.now).entry place) next };

    /// Sets both neighbors of `place`. The call requires that `place` is linked, and that the table's words have room for both
    /// neighbors. O(1).
    fn set(&mut self, place: Place, prev: Option<Place>, next: Option<Place>)
        requires linked { IsLinked Self.linked (Self.table self.old) place }
        requires prev { IsNameable Self.CanName prev }
        requires next { IsNameable Self.CanName next }
        ensures set { HasNeighbors ((Self.table self.new).entry place) prev next }
        ensures linked { IsLinked Self.linked (Self.table self.new) place }
        ensures frame { ChangesOnly (Self.table self.old) (Self.table self.new) place }
        ensures trace_stays { Self.Trace self.old self.new [] };

    /// Replaces the neighbor `old` of `place` by `new`. The call requires that `place` is linked, and that the table's words have
    /// room for `old` and `new`. O(1).
    fn replace_next_or_prev(&mut self, place: Place, old: Option<Place>, new: Option<Place>)
        requires linked { IsLinked Self.linked (Self.table self.old) place }
        requires from { IsNameable Self.CanName old }
        requires to { IsNameable Self.CanName new }
        ensures replaced { (x : Option Place) → HasNeighbors ((Self.table self.old).entry place) old x
            → HasNeighbors ((Self.table self.new).entry place) new x }
        ensures linked { IsLinked Self.linked (Self.table self.new) place }
        ensures frame { ChangesOnly (Self.table self.old) (Self.table self.new) place }
        ensures trace_stays { Self.Trace self.old self.new [] };

    /// Links `place` between `prev` and `next` and returns true, or returns false if the link is refused. The call requires that
    /// `place` is covered, and that the table's words have room for `prev` and `next`. O(1).
    ///
    /// The call does what `acquire_link` and `set` do. A table can implement the call so that it writes the word only once.
    #[inline]
    fn link_between(&mut self, place: Place, prev: Option<Place>, next: Option<Place>) -> bool
        requires covered { IsCovered (Self.table self.old) place }
        requires prev { IsNameable Self.CanName prev }
        requires next { IsNameable Self.CanName next }
        ensures acquired { OnTrue result (Self.Trace self.old self.new (acquires place ∷ [])) }
        ensures set { OnTrue result (HasNeighbors ((Self.table self.new).entry place) prev next) }
        ensures refused { OnFalse result (Self.Refused self.old self.new place) }
        ensures frame { ChangesOnly (Self.table self.old) (Self.table self.new) place }
    {
        if !self.acquire_link(place) {
            return false;
        }
        self.set(place, prev, next);
        true
    }

    // The laws: The order of the two neighbors does not matter. One neighbor determines the other neighbor, and `other` computes
    // it.
    ghost symmetric: { (e : Self.Entry) (a b : Option Place) → HasNeighbors e a b → HasNeighbors e b a };

    ghost one_other: { (e : Self.Entry) (a b c : Option Place) → HasNeighbors e a b → HasNeighbors e a c → b ≡ c };

    ghost finds_other: { (e : Self.Entry) (a b : Option Place) → HasNeighbors e a b → other e a ≡ b };
}

/// The kind of links whose word is the exclusive or of both neighbors' words.
pub struct Xor;

/// What the plain table of XOR lists stores at a place: one word.
pub type Link = link::Link<OneWord<Xor>>;

/// The plain table for XOR lists, with one word for each place. Singly linked lists can use it as well.
pub type LinkOps<A = Global> = PlainTable<OneWord<Xor>, A>;

/// The plain table for XOR lists with a value beside each link.
pub type LinkOpsWith<V, A = Global> = PlainTable<OneWord<Xor>, A, V>;

/// What a table with words of 4 bytes stores at a place. A narrow link has half the bytes of a `Link`.
pub type NarrowLink = link::Link<OneNarrowWord<Xor>>;

/// The plain table for XOR lists with words of 4 bytes. The links of this table are half as large as those of `LinkOps`, and the
/// table has room for 536,870,911 places.
pub type NarrowLinkOps<A = Global> = PlainTable<OneNarrowWord<Xor>, A>;

/// The plain table of narrow links with a value beside each link.
pub type NarrowLinkOpsWith<V, A = Global> = PlainTable<OneNarrowWord<Xor>, A, V>;

impl link::Link<OneWord<Xor>> {
    ghost use Rattle.ic_link_ops.specs.Links.{words_of};
    ghost use Rattle.ic_link_ops.specs.OneWord.{next_word_of};
    ghost use Rattle.ic_link_ops.specs.Words.{printed};

    /// The exclusive or of the neighbors' numbers. The number of a place is `2 * (index + 1)`, and the number for no place is 0.
    /// If the place of the link is unlinked, the result is the mark 1. The link stores four times the exclusive or. O(1).
    #[inline]
    pub fn word(&self) -> u64
        ensures { result ≡ printed (next_word_of (words_of self.now)) }
    {
        let bits = self.words.word.bits();
        bits / 4 + bits % 2
    }
}

impl<W: NextWord, A: Allocator, V: LinkValue> XorLinkedListOps for PlainTable<W, A, V> {
    ghost use Rattle.ic_link_ops.specs.Readings.{HasXorNeighbors, xor_other};
    ghost use Rattle.ic_link_ops.specs.Links.{words_of};
    ghost use Rattle.ic_link_ops.specs.XorLaws.{joins_symmetric, joins_one_other, joins_finds_other};

    ghost HasNeighbors = { HasXorNeighbors W.next_word };

    ghost other = { xor_other W.next_word };

    #[inline]
    fn next(&self, place: Place, prev: Option<Place>) -> Option<Place> {
        self.link(place).words.next_word().other(prev)
    }

    #[inline]
    fn prev(&self, place: Place, next: Option<Place>) -> Option<Place> {
        self.link(place).words.next_word().other(next)
    }

    #[inline]
    fn set(&mut self, place: Place, prev: Option<Place>, next: Option<Place>) {
        let index = self.slot(place);
        let entry = &mut self.entries[index];
        entry.words.set_next_word(Word::between(prev, next));
    }

    #[inline]
    fn link_between(&mut self, place: Place, prev: Option<Place>, next: Option<Place>) -> bool {
        let index = self.slot(place);
        if self.entries[index].is_linked() {
            return false;
        }
        let linked = &mut self.entries[index];
        linked.link_to(Word::between(prev, next));
        true
    }

    #[inline]
    fn replace_next_or_prev(&mut self, place: Place, old: Option<Place>, new: Option<Place>) {
        let index = self.slot(place);
        let entry = &mut self.entries[index];
        let word = entry.words.next_word();
        entry.words.set_next_word(word.replaced(old, new));
    }

    ghost symmetric = { λ e a b j. joins_symmetric (W.next_word (words_of e)) a b j };

    ghost one_other = { λ e a b c j k. joins_one_other (W.next_word (words_of e)) a b c j k };

    ghost finds_other = { λ e a b j. joins_finds_other (W.next_word (words_of e)) a b j };
}

impl<W: NextWord, V: LinkValue> XorLinkedListOps for LentTable<'_, W, V> {
    ghost use Rattle.ic_link_ops.specs.Readings.{HasXorNeighbors, xor_other};
    ghost use Rattle.ic_link_ops.specs.Links.{words_of};
    ghost use Rattle.ic_link_ops.specs.XorLaws.{joins_symmetric, joins_one_other, joins_finds_other};

    ghost HasNeighbors = { HasXorNeighbors W.next_word };

    ghost other = { xor_other W.next_word };

    #[inline]
    fn next(&self, place: Place, prev: Option<Place>) -> Option<Place> {
        let link = self.link(place);
        link.words.next_word().other(prev)
    }

    #[inline]
    fn prev(&self, place: Place, next: Option<Place>) -> Option<Place> {
        let link = self.link(place);
        link.words.next_word().other(next)
    }

    #[inline]
    fn set(&mut self, place: Place, prev: Option<Place>, next: Option<Place>) {
        let index = self.slot(place);
        let link = &mut self.entries[index];
        link.words.set_next_word(Word::between(prev, next));
    }

    #[inline]
    fn link_between(&mut self, place: Place, prev: Option<Place>, next: Option<Place>) -> bool {
        let index = self.slot(place);
        if self.entries[index].is_linked() {
            return false;
        }
        let linked = &mut self.entries[index];
        linked.link_to(Word::between(prev, next));
        true
    }

    #[inline]
    fn replace_next_or_prev(&mut self, place: Place, old: Option<Place>, new: Option<Place>) {
        let index = self.slot(place);
        let link = &mut self.entries[index];
        let word = link.words.next_word();
        link.words.set_next_word(word.replaced(old, new));
    }

    ghost symmetric = { λ e a b j. joins_symmetric (W.next_word (words_of e)) a b j };

    ghost one_other = { λ e a b c j k. joins_one_other (W.next_word (words_of e)) a b c j k };

    ghost finds_other = { λ e a b j. joins_finds_other (W.next_word (words_of e)) a b j };
}
