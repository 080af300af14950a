//! This file defines links of one word, of 8 bytes or of 4 bytes, for singly linked lists and for XOR lists.
//!
//! ```text
//! xor_linked_list::Link::new().word() // 1: its place is unlinked
//! ```

ghost use Rattle.std.specs.Prelude.{◌≡◌};

use crate::bits::Bits;
use crate::link::{NextWord, Words};
use crate::marked_word::MarkedWord;
use crate::word::Word;
use std::marker::PhantomData;

/// One word for the neighbors, or the mark 1 if the place is unlinked. The integer `B` stores the word. The type parameter `K` is
/// the kind of list.
#[derive(Drop)]
pub struct OneWord<K, B: Bits = u64> {
    pub(crate) word: MarkedWord<B>,
    of: PhantomData<K>,
}

/// One word of 4 bytes for the neighbors, or the mark 1 if the place is unlinked.
pub type OneNarrowWord<K> = OneWord<K, u32>;

impl<K, B: Bits> Words for OneWord<K, B> {
    ghost use Rattle.ic_link_ops.specs.OneWord.{no_word, has_word};
    ghost use Rattle.std.specs.Prelude.{refl};

    ghost unlinked = { no_word };

    ghost is_linked = { has_word };

    ghost width = { B.width };

    #[inline]
    fn unlinked() -> Self {
        OneWord {
            word: MarkedWord::mark(),
            of: PhantomData,
        }
    }

    #[inline]
    fn is_linked(&self) -> bool {
        self.word.is_word()
    }

    #[inline]
    fn link(&mut self) {
        self.word = MarkedWord::of(Word::none());
    }

    #[inline]
    fn unlink(&mut self) {
        self.word = MarkedWord::mark();
    }

    #[inline]
    fn most_places() -> usize {
        B::most_places()
    }

    ghost starts_unlinked = { refl };
}

impl<K, B: Bits> NextWord for OneWord<K, B> {
    ghost use Rattle.ic_link_ops.specs.OneWord.{next_word_of};
    ghost use Rattle.std.specs.Prelude.{⊤};

    ghost next_word = { next_word_of };

    ghost KeepsOthers = { λ _ _. ⊤ };

    #[inline]
    fn next_word(&self) -> Word {
        self.word.word()
    }

    #[inline]
    fn set_next_word(&mut self, word: Word) {
        self.word = MarkedWord::of(word);
    }
}
