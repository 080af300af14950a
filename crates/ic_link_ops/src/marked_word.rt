//! This file defines a word of a link that can also mark an unlinked place.
//!
//! ```text
//! MarkedWord::<u64>::of(word).is_word() // true
//! NarrowMarkedWord::mark().is_word() // false
//! ```

ghost use Rattle.std.specs.Prelude.{◌≡◌, true};
ghost use Rattle.ic_link_ops.specs.Widths.{CanKeep};

use crate::bits::Bits;
use crate::word::Word;
use std::marker::Model;

// The mark of an unlinked place.
const UNLINKED: u64 = 1;

/// A word, or the mark 1 of an unlinked place, in the integer `B`.
///
/// In contracts it is an `Option<Word>`, and `None` for the mark.
#[derive(Drop)]
pub struct MarkedWord<B: Bits = u64> {
    bits: B,
}

/// A [`Word`] in 4 bytes, or the mark 1 of an unlinked place.
pub type NarrowMarkedWord = MarkedWord<u32>;

impl<B: Bits> Model for MarkedWord<B> {
    ghost use Rattle.std.specs.Prelude.{Option};
    ghost use Rattle.ic_link_ops.specs.Words.{IsMarkOrWord, marked_at};
    ghost use Rattle.ic_link_ops.specs.declared.word.Word.{Word};

    ghost Value = { Option Word };

    ghost view = { λ stored. marked_at (B.number stored.bits) };

    ghost invariant = { λ stored. IsMarkOrWord (B.number stored.bits) };
}

impl<B: Bits> MarkedWord<B> {
    ghost use Rattle.ic_link_ops.specs.Words.{bits_of, marked_bits_of, is_word, mark};

    /// The mark of an unlinked place: 1. No word is 1, since words are multiples of 8. O(1).
    #[inline]
    pub fn mark() -> MarkedWord<B>
        ensures { result ≡ mark }
    {
        MarkedWord {
            bits: B::of(UNLINKED),
        }
    }

    /// The word of a linked place, stored as it is. The call requires that the width has room for the word: if it has 4 bytes,
    /// the word has to be below 2^32. O(1).
    #[inline]
    #[tactic(auto, using(crate::proofs::WordLemmas::marked_read))]
    pub fn of(word: Word) -> MarkedWord<B>
        requires kept { CanKeep B.width (bits_of word) }
        ensures word { marked_bits_of result ≡ bits_of word }
        ensures is_word { is_word result ≡ true }
    {
        MarkedWord {
            bits: B::of(word.bits),
        }
    }

    /// Whether the word is that of a linked place, and not the mark. The call makes one comparison. O(1).
    #[inline]
    pub fn is_word(&self) -> bool
        ensures { result ≡ is_word self.now }
    {
        self.bits.get() != UNLINKED
    }

    /// The word that is stored. The call requires that a word is stored, and not the mark. O(1).
    #[inline]
    #[tactic(auto, using(crate::proofs::WordLemmas::marked_read))]
    pub fn word(&self) -> Word
        requires word { is_word self.now ≡ true }
        ensures word { bits_of result ≡ marked_bits_of self.now }
        ensures kept { CanKeep B.width (bits_of result) }
    {
        Word {
            bits: self.bits.get(),
        }
    }

    /// The number that is stored: the number of a [`Word`], or 1 for the mark. O(1).
    #[inline]
    #[tactic(auto, using(crate::proofs::WordLemmas::marked_read))]
    pub fn bits(&self) -> u64
        ensures { result ≡ marked_bits_of self.now }
    {
        self.bits.get()
    }
}
