//! A [`Word`] is stored in a link, with 8 bytes or with 4 bytes.
//!
//! ```text
//! let narrow = NarrowWord::of(Word::of(Some(place))); // 4 bytes; the place has an index below 536,870,911
//! narrow.word().place() // Some(place)
//! ```

ghost use Rattle.std.specs.Prelude.{◌≡◌};
ghost use Rattle.ic_link_ops.specs.Widths.{CanKeep};

use crate::bits::Bits;
use crate::word::Word;
use std::marker::Model;

/// A [`Word`] that is stored in the integer `B`.
///
/// In contracts it is the word.
#[derive(Drop)]
pub struct StoredWord<B: Bits = u64> {
    bits: B,
}

/// A [`Word`] in 4 bytes.
pub type NarrowWord = StoredWord<u32>;

impl<B: Bits> Model for StoredWord<B> {
    ghost use Rattle.ic_unsafe_ref.specs.PlaceWords.{IsWord};
    ghost use Rattle.ic_link_ops.specs.Words.{word_at};
    ghost use Rattle.ic_link_ops.specs.declared.word.Word.{Word};

    ghost Value = { Word };

    ghost view = { λ stored. word_at (B.number stored.bits) };

    ghost invariant = { λ stored. IsWord (B.number stored.bits) };
}

impl<B: Bits> StoredWord<B> {
    ghost use Rattle.ic_link_ops.specs.Words.{bits_of, none};

    /// The word for no place: 0. O(1).
    #[inline]
    pub fn none() -> StoredWord<B>
        ensures { result ≡ none }
    {
        StoredWord { bits: B::of(0) }
    }

    /// Stores `word`. The call requires that the width has room for the word: if it has 4 bytes, the word has to be below 2^32.
    /// O(1).
    #[inline]
    #[tactic(auto, using(crate::proofs::WordLemmas::word_read))]
    pub fn of(word: Word) -> StoredWord<B>
        requires kept { CanKeep B.width (bits_of word) }
        ensures { bits_of result ≡ bits_of word }
    {
        StoredWord {
            bits: B::of(word.bits),
        }
    }

    /// The word that is stored. O(1).
    #[inline]
    #[tactic(auto, using(crate::proofs::WordLemmas::word_read))]
    pub fn word(&self) -> Word
        ensures word { bits_of result ≡ bits_of self.now }
        ensures kept { CanKeep B.width (bits_of result) }
    {
        Word {
            bits: self.bits.get(),
        }
    }
}
