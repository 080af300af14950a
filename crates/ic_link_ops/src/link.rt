//! A link is what a table stores at a place.
//!
//! ```text
//! let link = links.link(place); // &Link
//! link.is_linked() // whether its place is linked
//! ```

ghost use Rattle.std.specs.Prelude.{◌≡◌, ℕ, Bool, true, false, Option, ⊤};
ghost use Rattle.ic_link_ops.specs.Base.{Place, IsNameable};
ghost use Rattle.ic_link_ops.specs.Widths.{Width, HasRoom, CanKeep, most_places, count_nameable};

use crate::link_value::LinkValue;
use crate::word::Word;
use ic_unsafe_ref::Place;
use std::alloc::AllocError;
use std::cmp::min;
use std::fmt;

/// The words of a link. The words store whether the link's place is linked, and the places and the color that the traits
/// `NextWord`, `PrevPlace` and `NodeWords` read.
pub trait Words: Drop {
    // The words of a place that no call has linked.
    ghost unlinked: { Self };

    // `is_linked` says whether the words belong to a linked place.
    ghost is_linked: { Self → Bool };

    // The width of each word that names a place: 8 bytes or 4 bytes.
    ghost width: { Width };

    /// The words that a table stores for a newly covered place. The place is unlinked.
    fn unlinked() -> Self
        ensures { result ≡ unlinked };

    /// Whether the place of these words is linked. The call makes one comparison.
    fn is_linked(&self) -> bool
        ensures { result ≡ is_linked self.now };

    /// Marks the place of these words as linked. The neighbors that the words name afterwards are unspecified.
    fn link(&mut self)
        ensures { is_linked self.new ≡ true };

    /// Marks the place of these words as unlinked. The neighbors that the words name afterwards are unspecified.
    fn unlink(&mut self)
        ensures { is_linked self.new ≡ false };

    /// The greatest number of places that a table with words of this type can cover.
    fn most_places() -> usize
        ensures { result ≡ most_places width };

    /// The number of places, out of the first `places` places, that the words can name.
    #[inline]
    #[tactic(auto, using(crate::proofs::WidthLemmas::all_nameable, crate::proofs::WidthLemmas::some_nameable))]
    fn count_nameable(places: usize) -> usize
        ensures { result ≡ count_nameable width places }
    {
        let most = Self::most_places();
        if most == Place::COUNT {
            places
        } else {
            min(most, places)
        }
    }

    // The law: the words of a new link say that its place is unlinked.
    ghost starts_unlinked: { is_linked unlinked ≡ false };
}

/// Words of a link with a next word. The next word names the next place of a singly or doubly linked list, or both neighbors in
/// an XOR list.
pub trait NextWord: Words {
    // The number that the next word stores.
    ghost next_word: { Self → ℕ };

    // The two states of the words name the same previous place, if words of this type name one.
    ghost KeepsOthers: { Self → Self → Type 0 };

    ghost use Rattle.ic_link_ops.specs.Words.{bits_of};

    /// The next word, for which a word of this width has room. The call requires that the place is linked.
    fn next_word(&self) -> Word
        requires linked { Self.is_linked self.now ≡ true }
        ensures word { bits_of result ≡ next_word self.now }
        ensures kept { CanKeep Self.width (bits_of result) };

    /// Replaces the next word. The call requires that the place is linked, and that a word of this width has room for `word`. The
    /// place stays linked.
    fn set_next_word(&mut self, word: Word)
        requires linked { Self.is_linked self.old ≡ true }
        requires kept { CanKeep Self.width (bits_of word) }
        ensures set { next_word self.new ≡ bits_of word }
        ensures linked { Self.is_linked self.new ≡ Self.is_linked self.old }
        ensures others { KeepsOthers self.old self.new };
}

/// Words of a link that also name the previous place.
pub trait PrevPlace: NextWord {
    // The previous place, or none.
    ghost prev: { Self → Option Place };

    /// The previous place, `None` at the front. If the place of the words is unlinked, the result is the previous place that was
    /// stored last.
    fn prev(&self) -> Option<Place>
        ensures { result ≡ prev self.now };

    /// Replaces the previous place, and keeps the next word. The call requires that the words have room for the name of the new
    /// previous place.
    fn set_prev(&mut self, place: Option<Place>)
        requires named { IsNameable (HasRoom Self.width) place }
        ensures set { prev self.new ≡ place }
        ensures linked { Self.is_linked self.new ≡ Self.is_linked self.old }
        ensures next_word { Self.next_word self.new ≡ Self.next_word self.old };

    // The law: a write of the next word does not change the previous place.
    ghost keeps_prev: { (old new : Self) → Self.KeepsOthers old new → prev new ≡ prev old };
}

/// What a table stores at a place: whether the place is linked, its neighbors, and a value beside them if the table has values.
///
/// A copy of a link belongs to no place. The copy is unlinked and has the initial value.
#[derive(Drop)]
pub struct Link<W, V = ()> {
    pub(crate) words: W,
    pub(crate) value: V,
}

impl<W: Words, V: LinkValue> Link<W, V> {
    ghost use Rattle.ic_link_ops.specs.Links.{link_with, words_of};

    /// An unlinked link with the initial value. A table stores such a link for each newly covered place. O(1).
    #[inline]
    pub fn new() -> Link<W, V>
        ensures { result ≡ link_with W.unlinked V.initial }
    {
        Link {
            words: W::unlinked(),
            value: V::initial(),
        }
    }

    /// Whether the place of this link is linked. O(1).
    #[inline]
    pub fn is_linked(&self) -> bool
        ensures { result ≡ W.is_linked (words_of self.now) }
    {
        self.words.is_linked()
    }
}

impl<W: NextWord, V> Link<W, V> {
    ghost use Rattle.ic_link_ops.specs.Links.{words_of, value_of};
    ghost use Rattle.ic_link_ops.specs.Words.{bits_of};

    // Marks the link's place as linked and stores `word` as its next word. The value stays.
    #[inline]
    pub(crate) fn link_to(&mut self, word: Word)
        requires kept { CanKeep W.width (bits_of word) }
        ensures linked { W.is_linked (words_of self.new) ≡ true }
        ensures next_word { W.next_word (words_of self.new) ≡ bits_of word }
        ensures value { value_of self.new ≡ value_of self.old }
    {
        self.words.link();
        self.words.set_next_word(word);
    }
}

impl<W: Words, V: LinkValue> Default for Link<W, V> {
    ghost use Rattle.ic_link_ops.specs.Links.{link_with};

    ghost is_default = { λ l. l ≡ link_with W.unlinked V.initial };

    /// The unlinked link that [`Link::new`] returns.
    fn default() -> Link<W, V> {
        Link::new()
    }
}

impl<W: Words, V: LinkValue> Clone for Link<W, V> {
    ghost use Rattle.ic_link_ops.specs.Links.{link_with};

    ghost is_clone = { λ _ copy. copy ≡ link_with W.unlinked V.initial };

    ghost is_infallible = { λ _. ⊤ };

    /// Returns an unlinked link, and never fails.
    fn clone(&self) -> Result<Self, AllocError> {
        Ok(Link::new())
    }
}

/// A link is printed as `linked` or `unlinked`.
impl<W: Words, V: LinkValue> fmt::Debug for Link<W, V> {
    fn fmt<F: fmt::Write>(&self, f: &mut fmt::Formatter<F>) -> fmt::Result {
        if self.is_linked() {
            f.write_str("linked")
        } else {
            f.write_str("unlinked")
        }
    }
}
