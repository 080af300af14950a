//! The types of this module are the words of a table, a list or a tree, which C and Rattle share. Words may have any bits. Zeroed memory is a table
//! whose places are all unlinked, or an empty list or tree.
//!
//! ```text
//! struct ic_link1 { uint64_t next; };
//! struct ic_link2 { uint64_t next, prev; };
//! struct ic_link2_32 { uint32_t next, prev; };
//! struct ic_link3 { uint64_t left, right, parent; };
//! struct ic_stack { uint64_t head; };
//! struct ic_list  { uint64_t head, tail; };  /* and struct ic_xor_list */
//! struct ic_tree  { uint64_t root; };
//! ```

ghost use Rattle.std.specs.Prelude.{◌≡◌, ◌↔◌, Some, None, true};
ghost use Rattle.ic_raw.specs.Words.{is_marked, narrow_place_in};
ghost use Rattle.ic_link_ops.specs.Prelude.{word_of, no_members};
ghost use Rattle.ic_raw.specs.Doubly.{ends_of, words_of};
ghost use Rattle.ic_raw.specs.Singly.{front_of, word_of_front};
ghost use Rattle.ic_raw.specs.Tree.{root_in, word_of_root};

use crate::number::{narrow_place_in, place_in};
use ic_link_ops::{Bits, NextWord, PrevPlace, Word, Words};
use ic_unsafe_ref::Place;

/// The words of a place in a table of singly linked lists or of XOR lists.
///
/// The lowest bit says whether the place is linked. In a singly linked list, the other bits are the word for the next place. In an XOR list, they are
/// the exclusive or of the words for both neighbors. The word for a place is `8 * (index + 1)`, and the word for none is 0.
#[repr(C)]
#[derive(Clone, Copy)]
pub struct RawOne {
    next: u64,
}

/// The words of a place in a table of doubly linked lists: the word of [`RawOne`] for the next place, and the word for the previous place.
#[repr(C)]
#[derive(Clone, Copy)]
pub struct RawTwo {
    next: u64,
    prev: u64,
}

/// The two words of a place in a table of doubly linked lists or of rings, if each word has 4 bytes. They mean the same as the words of [`RawTwo`],
/// but can name only places with an index below 536,870,911. Later places are out of range.
#[repr(C)]
#[derive(Clone, Copy)]
pub struct RawNarrowTwo {
    next: u32,
    prev: u32,
}

/// The words of a place in a table of trees: the words for its two children and for its parent.
///
/// The lowest bit of the left child's word says whether the place is linked, and the lowest bit of the parent's word says whether the place is black.
#[repr(C)]
#[derive(Clone, Copy)]
pub struct RawThree {
    pub(crate) left: u64,
    pub(crate) right: u64,
    pub(crate) parent: u64,
}

/// A singly linked list is the word for its first place.
#[repr(C)]
#[derive(Clone, Copy)]
pub struct RawFront {
    /// The word for the first place. It is 0 if the list is empty.
    pub head: u64,
}

/// A doubly linked list or an XOR list is two words: one for its first place and one for its last place.
#[repr(C)]
#[derive(Clone, Copy)]
pub struct RawEnds {
    /// The word for the first place. It is 0 if the list is empty.
    pub head: u64,
    /// The word for the last place. It is 0 if the list is empty.
    pub tail: u64,
}

/// A red-black tree is the word for its root.
#[repr(C)]
#[derive(Clone, Copy)]
pub struct RawRoot {
    /// The word for the root. It is 0 if the tree is empty.
    pub root: u64,
}

/// The words of a place in a doubly linked list, which have 8 bytes or 4 bytes each. One comparison of a word tests whether the place is linked and
/// has a given neighbor.
///
/// The methods `is_before` and `is_after` test for exactly the bits that a call writes. If such a test fails, a call makes a second test, which
/// ignores the bits that have no meaning.
pub trait ListWords: PrevPlace {
    ghost use Rattle.std.specs.Prelude.{◌≡◌, true};
    ghost use Rattle.ic_link_ops.specs.Prelude.{place_at};

    /// Returns whether these are the words of a linked place, with `next` after it.
    fn leads(&self, next: Option<Place>) -> bool
        ensures linked { result ≡ true → Self.is_linked self.now ≡ true }
        ensures next { result ≡ true → place_at (Self.next_word self.now) ≡ next }
        ensures leads { Self.is_linked self.now ≡ true → next ≡ place_at (Self.next_word self.now) → result ≡ true };

    /// Returns whether the place is linked with `next` after it, and the word that says so has exactly the bits that a call writes.
    fn is_before(&self, next: Option<Place>) -> bool
        ensures linked { result ≡ true → Self.is_linked self.now ≡ true }
        ensures next { result ≡ true → place_at (Self.next_word self.now) ≡ next };

    /// Returns whether the place is linked with `prev` before it, and the word for `prev` has exactly the bits that a call writes.
    fn is_after(&self, prev: Option<Place>) -> bool
        ensures linked { result ≡ true → Self.is_linked self.now ≡ true }
        ensures prev { result ≡ true → Self.prev self.now ≡ prev };
}

impl Words for RawOne {
    ghost use Rattle.ic_raw.specs.Words.{no_word, is_linked_one};
    ghost use Rattle.std.specs.Prelude.{refl};
    ghost use Rattle.ic_link_ops.specs.Widths.{wide};

    ghost unlinked = { no_word };

    ghost is_linked = { is_linked_one };

    ghost width = { wide };

    #[inline]
    fn unlinked() -> Self {
        RawOne { next: 0 }
    }

    #[inline]
    fn is_linked(&self) -> bool {
        self.next % 2 == 1
    }

    #[inline]
    fn link(&mut self) {
        self.next = 1;
    }

    #[inline]
    fn unlink(&mut self) {
        self.next = 0;
    }

    #[inline]
    fn most_places() -> usize {
        Place::COUNT
    }

    ghost starts_unlinked = { refl };
}

impl NextWord for RawOne {
    ghost use Rattle.ic_raw.specs.Words.{next_of_one};
    ghost use Rattle.std.specs.Prelude.{⊤};

    ghost next_word = { next_of_one };

    ghost KeepsOthers = { λ _ _. ⊤ };

    #[inline]
    #[tactic(auto, using(crate::proofs::Entries::number_read))]
    fn next_word(&self) -> Word {
        Word::of(place_in(self.next))
    }

    #[inline]
    fn set_next_word(&mut self, word: Word) {
        self.next = word.bits() + 1;
    }
}

impl Words for RawTwo {
    ghost use Rattle.ic_raw.specs.Words.{no_words, is_linked_two};
    ghost use Rattle.std.specs.Prelude.{refl};
    ghost use Rattle.ic_link_ops.specs.Widths.{wide};

    ghost unlinked = { no_words };

    ghost is_linked = { is_linked_two };

    ghost width = { wide };

    #[inline]
    fn unlinked() -> Self {
        RawTwo { next: 0, prev: 0 }
    }

    #[inline]
    fn is_linked(&self) -> bool {
        self.next % 2 == 1
    }

    #[inline]
    fn link(&mut self) {
        self.next = 1;
    }

    #[inline]
    fn unlink(&mut self) {
        self.next = 0;
    }

    #[inline]
    fn most_places() -> usize {
        Place::COUNT
    }

    ghost starts_unlinked = { refl };
}

impl NextWord for RawTwo {
    ghost use Rattle.ic_raw.specs.Words.{next_of_two, prev_of_two};

    ghost next_word = { next_of_two };

    ghost KeepsOthers = { λ old new. prev_of_two new ≡ prev_of_two old };

    #[inline]
    #[tactic(auto, using(crate::proofs::Entries::number_read))]
    fn next_word(&self) -> Word {
        Word::of(place_in(self.next))
    }

    #[inline]
    fn set_next_word(&mut self, word: Word) {
        self.next = word.bits() + 1;
    }
}

impl PrevPlace for RawTwo {
    ghost use Rattle.ic_raw.specs.Words.{prev_of_two};

    ghost prev = { prev_of_two };

    #[inline]
    fn prev(&self) -> Option<Place> {
        place_in(self.prev)
    }

    #[inline]
    #[tactic(auto, using(crate::proofs::Entries::place_kept))]
    fn set_prev(&mut self, place: Option<Place>) {
        self.prev = Place::to_word(place);
    }

    ghost keeps_prev = { λ old new h. h };
}

impl ListWords for RawTwo {
    #[inline]
    fn leads(&self, next: Option<Place>) -> bool {
        self.next / 8 % 8_589_934_592 * 8 + self.next % 2 == Place::to_word(next) + 1
    }

    #[inline]
    fn is_before(&self, next: Option<Place>) -> bool {
        self.next == Place::to_word(next) + 1
    }

    #[inline]
    fn is_after(&self, prev: Option<Place>) -> bool {
        self.prev == Place::to_word(prev) && self.next % 2 == 1
    }
}

impl Words for RawNarrowTwo {
    ghost use Rattle.ic_raw.specs.Words.{no_narrow_words, is_linked_narrow};
    ghost use Rattle.std.specs.Prelude.{refl};
    ghost use Rattle.ic_link_ops.specs.Widths.{narrow};

    ghost unlinked = { no_narrow_words };

    ghost is_linked = { is_linked_narrow };

    ghost width = { narrow };

    #[inline]
    fn unlinked() -> Self {
        RawNarrowTwo { next: 0, prev: 0 }
    }

    #[inline]
    fn is_linked(&self) -> bool {
        self.next % 2 == 1
    }

    #[inline]
    fn link(&mut self) {
        self.next = 1;
    }

    #[inline]
    fn unlink(&mut self) {
        self.next = 0;
    }

    #[inline]
    fn most_places() -> usize {
        u32::most_places()
    }

    ghost starts_unlinked = { refl };
}

impl NextWord for RawNarrowTwo {
    ghost use Rattle.ic_raw.specs.Words.{next_of_narrow, prev_of_narrow};

    ghost next_word = { next_of_narrow };

    ghost KeepsOthers = { λ old new. prev_of_narrow new ≡ prev_of_narrow old };

    #[inline]
    #[tactic(auto, using(crate::proofs::Entries::narrow_number_read))]
    fn next_word(&self) -> Word {
        Word::of(narrow_place_in(self.next))
    }

    #[inline]
    fn set_next_word(&mut self, word: Word) {
        self.next = word.bits() as u32 + 1;
    }
}

impl PrevPlace for RawNarrowTwo {
    ghost use Rattle.ic_raw.specs.Words.{prev_of_narrow};

    ghost prev = { prev_of_narrow };

    #[inline]
    fn prev(&self) -> Option<Place> {
        narrow_place_in(self.prev)
    }

    #[inline]
    #[tactic(auto, using(ic_link_ops::proofs::WidthLemmas::word_kept, crate::proofs::Entries::narrow_place_kept))]
    fn set_prev(&mut self, place: Option<Place>) {
        self.prev = Place::to_word(place) as u32;
    }

    ghost keeps_prev = { λ old new h. h };
}

impl ListWords for RawNarrowTwo {
    #[inline]
    fn leads(&self, next: Option<Place>) -> bool {
        u64::from(self.next / 8 % 536_870_912 * 8 + self.next % 2) == Place::to_word(next) + 1
    }

    #[inline]
    fn is_before(&self, next: Option<Place>) -> bool {
        is_marked_word(self.next, next)
    }

    #[inline]
    fn is_after(&self, prev: Option<Place>) -> bool {
        is_word(self.prev, prev) && self.next % 2 == 1
    }
}

// Returns whether `word` has exactly the bits that a call writes for `place`.
#[inline]
fn is_word(word: u32, place: Option<Place>) -> bool
    ensures { result ≡ true → narrow_place_in word ≡ place }
{
    u64::from(word) == Place::to_word(place)
}

// Returns whether `word` has exactly the bits that a call writes at a linked place with `next` after it.
#[inline]
fn is_marked_word(word: u32, next: Option<Place>) -> bool
    ensures linked { result ≡ true → is_marked word ≡ true }
    ensures next { result ≡ true → narrow_place_in word ≡ next }
{
    u64::from(word) == Place::to_word(next) + 1
}

impl Words for RawThree {
    ghost use Rattle.ic_raw.specs.Words.{no_tree_words, is_linked_three};
    ghost use Rattle.std.specs.Prelude.{refl};
    ghost use Rattle.ic_link_ops.specs.Widths.{wide};

    ghost unlinked = { no_tree_words };

    ghost is_linked = { is_linked_three };

    ghost width = { wide };

    #[inline]
    fn unlinked() -> Self {
        RawThree {
            left: 0,
            right: 0,
            parent: 0,
        }
    }

    #[inline]
    fn is_linked(&self) -> bool {
        self.left % 2 == 1
    }

    #[inline]
    fn link(&mut self) {
        self.left = 1;
    }

    #[inline]
    fn unlink(&mut self) {
        self.left = 0;
    }

    #[inline]
    fn most_places() -> usize {
        Place::COUNT
    }

    ghost starts_unlinked = { refl };
}

impl RawFront {
    // Writes the word of the first place.
    #[inline]
    #[tactic(auto, using(crate::proofs::Entries::place_kept))]
    pub(crate) fn set(&mut self, first: Option<Place>)
        ensures set { front_of self.new ≡ first }
        ensures words { self.new ≡ word_of_front (front_of self.new) }
    {
        self.head = Place::to_word(first);
    }
}

impl RawEnds {
    // Writes the word of the last place, and leaves the word of the first place as it is.
    #[inline]
    #[tactic(auto, using(crate::proofs::Entries::place_kept))]
    pub(crate) fn set_last(&mut self, last: Option<Place>)
        ensures set { ends_of self.new ≡ record { head = (ends_of self.old).head; tail = last } }
        ensures words { self.old ≡ words_of (ends_of self.old) → self.new ≡ words_of (ends_of self.new) }
    {
        self.tail = Place::to_word(last);
    }

    // Writes the word of the first place, and leaves the word of the last place as it is.
    #[inline]
    #[tactic(auto, using(crate::proofs::Entries::place_kept))]
    pub(crate) fn set_first(&mut self, first: Option<Place>)
        ensures set { ends_of self.new ≡ record { head = first; tail = (ends_of self.old).tail } }
        ensures words { self.old ≡ words_of (ends_of self.old) → self.new ≡ words_of (ends_of self.new) }
    {
        self.head = Place::to_word(first);
    }

    // Writes the words of the first and the last place.
    #[inline]
    #[tactic(auto, using(crate::proofs::Entries::place_kept))]
    pub(crate) fn set(&mut self, first: Option<Place>, last: Option<Place>)
        ensures set { ends_of self.new ≡ record { head = first; tail = last } }
        ensures words { self.new ≡ words_of (ends_of self.new) }
    {
        *self = RawEnds {
            head: Place::to_word(first),
            tail: Place::to_word(last),
        };
    }

    // Returns whether both words name no place, as those of a list with no members do.
    #[inline]
    pub(crate) fn is_empty(&self) -> bool
        ensures { (result ≡ true) ↔ (ends_of self.now ≡ no_members) }
    {
        place_in(self.head).is_none() && place_in(self.tail).is_none()
    }
}

impl RawRoot {
    // Writes the word of the root.
    #[inline]
    #[tactic(auto, using(crate::proofs::Entries::place_kept))]
    pub(crate) fn set(&mut self, root: Option<Place>)
        ensures set { root_in self.new ≡ root }
        ensures words { self.new ≡ word_of_root (root_in self.new) }
    {
        self.root = Place::to_word(root);
    }
}
