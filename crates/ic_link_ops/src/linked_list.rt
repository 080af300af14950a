//! This file defines the links of doubly linked lists: the trait that a list requires of its table of links, and the plain table.
//!
//! ```text
//! let mut links = LinkOps::new(rt.alloc());
//! links.cover(3)?;
//! links.is_linked(place) // false, for each of the three places
//! ```

ghost use Rattle.std.specs.Prelude.{◌≡◌, Option, [], ◌∷◌};
ghost use Rattle.std.specs.Bool.{OnTrue, OnFalse};
ghost use Rattle.ic_link_ops.specs.Base.{Place, IsCovered, IsLinked, IsNameable, ChangesOnly, acquires};
ghost use Rattle.ic_link_ops.specs.LinkedList.{Neighbors, neighbors_at, IsBetween};

use crate::bits::Bits;
use crate::lent_table::LentTable;
use crate::link::{self, NextWord, PrevPlace, Words};
use crate::link_ops;
use crate::link_value::LinkValue;
use crate::marked_word::MarkedWord;
use crate::stored_place::StoredPlace;
use crate::table::PlainTable;
use crate::word::Word;
use ic_unsafe_ref::Place;
use std::alloc::{Allocator, Global};

/// A table for doubly linked lists. The entry of each place names the place before it and the place after it.
pub trait LinkedListOps: link_ops::LinkOps {
    // The parts of an entry: whether its place is linked, and which places are before and after it.
    ghost neighbors: { Self.Entry → Neighbors };

    /// The place after `place`. The call requires that `place` is linked. O(1).
    fn next(&self, place: Place) -> Option<Place>
        requires linked { IsLinked Self.linked (Self.table self.now) place }
        ensures { result ≡ (neighbors_at neighbors (Self.table self.now) place).next };

    /// The place before `place`. The call requires that `place` is linked. O(1).
    fn prev(&self, place: Place) -> Option<Place>
        requires linked { IsLinked Self.linked (Self.table self.now) place }
        ensures { result ≡ (neighbors_at neighbors (Self.table self.now) place).prev };

    /// Sets the place after `place`. The call requires that `place` is linked, and that the table's words have room for the new
    /// neighbor. O(1).
    fn set_next(&mut self, place: Place, next: Option<Place>)
        requires linked { IsLinked Self.linked (Self.table self.old) place }
        requires next { IsNameable Self.CanName next }
        ensures set { neighbors_at neighbors (Self.table self.new) place
            ≡ record (neighbors_at neighbors (Self.table self.old) place) { next = next } }
        ensures frame { ChangesOnly (Self.table self.old) (Self.table self.new) place }
        ensures trace_stays { Self.Trace self.old self.new [] };

    /// Sets the place before `place`. The call requires that `place` is linked, and that the table's words have room for the new
    /// neighbor. O(1).
    fn set_prev(&mut self, place: Place, prev: Option<Place>)
        requires linked { IsLinked Self.linked (Self.table self.old) place }
        requires prev { IsNameable Self.CanName prev }
        ensures set { neighbors_at neighbors (Self.table self.new) place
            ≡ record (neighbors_at neighbors (Self.table self.old) place) { prev = prev } }
        ensures frame { ChangesOnly (Self.table self.old) (Self.table self.new) place }
        ensures trace_stays { Self.Trace self.old self.new [] };

    /// Links `place` between `prev` and `next` and returns true, or returns false if the link is refused. The call requires that
    /// `place` is covered, and that the table's words have room for `prev` and `next`. O(1).
    ///
    /// The call does what `acquire_link`, `set_prev` and `set_next` do. A table can implement the call so that it writes each
    /// word only once.
    #[inline]
    fn link_between(&mut self, place: Place, prev: Option<Place>, next: Option<Place>) -> bool
        requires covered { IsCovered (Self.table self.old) place }
        requires prev { IsNameable Self.CanName prev }
        requires next { IsNameable Self.CanName next }
        ensures acquired { OnTrue result (Self.Trace self.old self.new (acquires place ∷ [])) }
        ensures set { OnTrue result (IsBetween neighbors ((Self.table self.new).entry place) prev next) }
        ensures refused { OnFalse result (Self.Refused self.old self.new place) }
        ensures frame { ChangesOnly (Self.table self.old) (Self.table self.new) place }
    {
        if !self.acquire_link(place) {
            return false;
        }
        self.set_prev(place, prev);
        self.set_next(place, next);
        true
    }

    // The law: the traits `LinkedListOps` and `LinkOps` agree on whether a place is linked.
    ghost linked_alike: { (e : Self.Entry) → (neighbors e).linked ≡ Self.linked e };
}

/// The words of a doubly linked list's link. The first word names the next place, or is the mark 1 if the place is unlinked. The
/// second word names the previous place. The integer `B` stores each word.
///
/// Singly linked lists and XOR lists use only the first word.
#[derive(Drop)]
pub struct TwoWords<B: Bits = u64> {
    next: MarkedWord<B>,
    prev: StoredPlace<B>,
}

/// The words of a doubly linked list's link, each of 4 bytes.
pub type TwoNarrowWords = TwoWords<u32>;

/// What the plain table of doubly linked lists stores at a place: two words.
pub type Link = link::Link<TwoWords>;

/// The plain table for doubly linked lists, with two words for each place. Singly linked and XOR lists can use it as well.
pub type LinkOps<A = Global> = PlainTable<TwoWords, A>;

/// The plain table for doubly linked lists with a value beside each link.
pub type LinkOpsWith<V, A = Global> = PlainTable<TwoWords, A, V>;

/// What a table with words of 4 bytes stores at a place. A narrow link has half the bytes of a `Link`.
pub type NarrowLink = link::Link<TwoNarrowWords>;

/// The plain table for doubly linked lists with words of 4 bytes. The links of this table are half as large as those of
/// `LinkOps`, and the table has room for 536,870,911 places.
pub type NarrowLinkOps<A = Global> = PlainTable<TwoNarrowWords, A>;

/// The plain table of narrow links with a value beside each link.
pub type NarrowLinkOpsWith<V, A = Global> = PlainTable<TwoNarrowWords, A, V>;

impl<B: Bits> Words for TwoWords<B> {
    ghost use Rattle.ic_link_ops.specs.TwoWords.{no_words, has_words};
    ghost use Rattle.std.specs.Prelude.{refl};

    ghost unlinked = { no_words };

    ghost is_linked = { has_words };

    ghost width = { B.width };

    #[inline]
    fn unlinked() -> Self {
        TwoWords {
            next: MarkedWord::mark(),
            prev: StoredPlace::of(None),
        }
    }

    #[inline]
    fn is_linked(&self) -> bool {
        self.next.is_word()
    }

    #[inline]
    fn link(&mut self) {
        self.next = MarkedWord::of(Word::none());
    }

    #[inline]
    fn unlink(&mut self) {
        self.next = MarkedWord::mark();
    }

    #[inline]
    fn most_places() -> usize {
        B::most_places()
    }

    ghost starts_unlinked = { refl };
}

impl<B: Bits> NextWord for TwoWords<B> {
    ghost use Rattle.ic_link_ops.specs.TwoWords.{next_word_of, prev_of};

    ghost next_word = { next_word_of };

    ghost KeepsOthers = { λ old new. prev_of new ≡ prev_of old };

    #[inline]
    fn next_word(&self) -> Word {
        self.next.word()
    }

    #[inline]
    fn set_next_word(&mut self, word: Word) {
        self.next = MarkedWord::of(word);
    }
}

impl<B: Bits> PrevPlace for TwoWords<B> {
    ghost use Rattle.ic_link_ops.specs.TwoWords.{prev_of};

    ghost prev = { prev_of };

    #[inline]
    fn prev(&self) -> Option<Place> {
        self.prev.get()
    }

    #[inline]
    fn set_prev(&mut self, place: Option<Place>) {
        self.prev = StoredPlace::of(place);
    }

    ghost keeps_prev = { λ old new h. h };
}

impl<W: PrevPlace, A: Allocator, V: LinkValue> LinkedListOps for PlainTable<W, A, V> {
    ghost use Rattle.std.specs.Prelude.{refl};
    ghost use Rattle.ic_link_ops.specs.Readings.{neighbors_of};

    ghost neighbors = { neighbors_of W.next_word W.is_linked W.prev };

    #[inline]
    fn next(&self, place: Place) -> Option<Place> {
        self.link(place).words.next_word().place()
    }

    #[inline]
    fn prev(&self, place: Place) -> Option<Place> {
        self.link(place).words.prev()
    }

    #[inline]
    fn set_next(&mut self, place: Place, next: Option<Place>) {
        let index = self.slot(place);
        let entry = &mut self.entries[index];
        entry.words.set_next_word(Word::of(next));
    }

    #[inline]
    fn set_prev(&mut self, place: Place, prev: Option<Place>) {
        let index = self.slot(place);
        let entry = &mut self.entries[index];
        entry.words.set_prev(prev);
    }

    #[inline]
    fn link_between(&mut self, place: Place, prev: Option<Place>, next: Option<Place>) -> bool {
        let index = self.slot(place);
        if self.entries[index].is_linked() {
            return false;
        }
        let linked = &mut self.entries[index];
        linked.link_to(Word::of(next));
        linked.words.set_prev(prev);
        true
    }

    ghost linked_alike = { λ e. refl };
}

impl<W: PrevPlace, V: LinkValue> LinkedListOps for LentTable<'_, W, V> {
    ghost use Rattle.std.specs.Prelude.{refl};
    ghost use Rattle.ic_link_ops.specs.Readings.{neighbors_of};

    ghost neighbors = { neighbors_of W.next_word W.is_linked W.prev };

    #[inline]
    fn next(&self, place: Place) -> Option<Place> {
        let link = self.link(place);
        link.words.next_word().place()
    }

    #[inline]
    fn prev(&self, place: Place) -> Option<Place> {
        let link = self.link(place);
        link.words.prev()
    }

    #[inline]
    fn set_next(&mut self, place: Place, next: Option<Place>) {
        let index = self.slot(place);
        let link = &mut self.entries[index];
        link.words.set_next_word(Word::of(next));
    }

    #[inline]
    fn set_prev(&mut self, place: Place, prev: Option<Place>) {
        let index = self.slot(place);
        let link = &mut self.entries[index];
        link.words.set_prev(prev);
    }

    #[inline]
    fn link_between(&mut self, place: Place, prev: Option<Place>, next: Option<Place>) -> bool {
        let index = self.slot(place);
        if self.entries[index].is_linked() {
            return false;
        }
        let linked = &mut self.entries[index];
        linked.link_to(Word::of(next));
        linked.words.set_prev(prev);
        true
    }

    ghost linked_alike = { λ e. refl };
}
