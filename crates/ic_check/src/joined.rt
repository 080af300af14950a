//! Tables of XOR links in which the entry of each linked place joins any given place with some other place.
//!
//! ```text
//! // The word of a linked place is that of a place, of none, or the exclusive or of two of these. So beside each place it names another
//! // one, or none, and the check of a list has nothing to refuse there.
//! ```

ghost use Rattle.std.specs.Prelude.{◌≡◌, true, Option};
ghost use Rattle.ic_link_ops.specs.Prelude.{Place, words_of};
ghost use Rattle.ic_unsafe_ref.specs.PlaceWords.{IsWord};
ghost use Rattle.ic_check.specs.Joined.{one_word, two_words, joins_told};

use ic_atomic::{AtomicLinkOps, PlainLinkOps};
use ic_link_ops::linked_list::TwoWords;
use ic_link_ops::xor_linked_list::XorLinkedListOps;
use ic_link_ops::{Bits, LentTable, LinkValue, NextWord, OneWord, PlainTable};
use std::alloc::Allocator;

/// Link words of a place. If the place is linked, its next word is the word of a place, the word of none, or the exclusive or of two such words.
pub trait KeepsWord: NextWord {
    // The law: the next word of a linked place is the word of a place, the word of none, or the exclusive or of two such words.
    ghost keeps_word: { (w : Self) → Self.is_linked w ≡ true → IsWord (Self.next_word w) };
}

impl<K, B: Bits> KeepsWord for OneWord<K, B> {
    ghost keeps_word = { λ w is. one_word w is };
}

impl<B: Bits> KeepsWord for TwoWords<B> {
    ghost keeps_word = { λ w is. two_words w is };
}

/// A table of XOR links. Given any place, or none, as one neighbor, the entry of a linked place returns another neighbor, and the entry joins these two
/// neighbors.
///
/// Plain tables, lent tables and tables of claimed links have this property.
pub trait JoinsAny: XorLinkedListOps {
    // The law: given any place, or none, as one neighbor, the entry of a linked place joins this neighbor with the other neighbor that the entry returns.
    ghost joins_any: { (e : Self.Entry) (a : Option Place) → Self.linked e ≡ true → Self.HasNeighbors e a (Self.other e a) };
}

impl<W: KeepsWord, A: Allocator, V: LinkValue> JoinsAny for PlainTable<W, A, V> {
    ghost joins_any = { λ e a is. joins_told (W.next_word (words_of e)) a (W.keeps_word (words_of e) is) };
}

impl<W: KeepsWord, V: LinkValue> JoinsAny for LentTable<'_, W, V> {
    ghost joins_any = { λ e a is. joins_told (W.next_word (words_of e)) a (W.keeps_word (words_of e) is) };
}

impl<L: PlainLinkOps + JoinsAny, A: Allocator> JoinsAny for AtomicLinkOps<'_, L, A> {
    ghost joins_any = { L.joins_any };
}
