//! A link consists of words, and this file defines the word.
//!
//! A link stores a place as its word, `8 * (index + 1)`, and stores 0 for no place. Each of these words is therefore a multiple
//! of 8 below `2^36`. The exclusive or of two words is also a multiple of 8 below `2^36`, so a place is read from it without a
//! test of its range.
//!
//! ```text
//! let word = Word::between(Some(first), Some(third));
//! word.other(Some(first)) // Some(third)
//! ```

ghost use Rattle.std.specs.Prelude.{◌≡◌, bit_xor};
ghost use Rattle.ic_unsafe_ref.specs.PlaceWords.{IsWord};
ghost use Rattle.ic_unsafe_ref.specs.Places.{word_of, place_at};

use ic_unsafe_ref::Place;

/// The word of a place, or 0 for no place, or the exclusive or of two such words.
#[derive(Clone, Copy)]
pub struct Word {
    pub(crate) bits: u64,
    pub ghost is_word: { IsWord bits },
}

impl Word {
    ghost use Rattle.ic_link_ops.specs.Words.{bits_of};

    /// The word for no place: 0. O(1).
    #[inline]
    pub fn none() -> Word
        ensures { bits_of result ≡ 0 }
    {
        Word { bits: 0 }
    }

    /// The word for a place or none. O(1).
    #[inline]
    pub fn of(place: Option<Place>) -> Word
        ensures { bits_of result ≡ word_of place }
    {
        Word {
            bits: Place::to_word(place),
        }
    }

    /// The place that the word names, or `None` if the word is 0. The call makes one test. O(1).
    #[inline]
    pub fn place(self) -> Option<Place>
        ensures { result ≡ place_at (bits_of self) }
    {
        Place::from_word(self.bits)
    }

    /// The word that joins the places `prev` and `next`: the exclusive or of their words. O(1).
    #[inline]
    #[tactic(auto, using(ic_unsafe_ref::proofs::PlaceLemmas::xor_fits))]
    pub fn between(prev: Option<Place>, next: Option<Place>) -> Word
        ensures { bits_of result ≡ bit_xor (word_of prev) (word_of next) }
    {
        Word {
            bits: Place::to_word(prev) ^ Place::to_word(next),
        }
    }

    /// One of the two places that the word joins, if `known` is the other place. O(1).
    #[inline]
    #[tactic(auto, using(ic_unsafe_ref::proofs::PlaceLemmas::xor_fits))]
    pub fn other(self, known: Option<Place>) -> Option<Place>
        ensures { result ≡ place_at (bit_xor (bits_of self) (word_of known)) }
    {
        Place::from_word(self.bits ^ Place::to_word(known))
    }

    /// If the word joins `old` and a second place, the result is the word that joins `new` and the second place. O(1).
    #[inline]
    #[tactic(auto, using(ic_unsafe_ref::proofs::PlaceLemmas::xor_fits))]
    pub fn replaced(self, old: Option<Place>, new: Option<Place>) -> Word
        ensures { bits_of result ≡ bit_xor (bit_xor (bits_of self) (word_of old)) (word_of new) }
    {
        Word {
            bits: self.bits ^ Place::to_word(old) ^ Place::to_word(new),
        }
    }

    /// The number that the word stores. O(1).
    #[inline]
    pub fn bits(self) -> u64
        ensures { result ≡ bits_of self }
    {
        self.bits
    }
}
