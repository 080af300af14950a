//! Tests of the words of which the links of members and the ends of collections consist.

ghost use Rattle.std.specs.Prelude.{Some};
ghost use Rattle.ic_link_ops.specs.Widths.{HasRoom, narrow};

use crate::fixture::{LAST_NARROW, at, check};
use ic_link_ops::{
    Color, MarkedWord, NarrowMarkedWord, NarrowPlaceWord, NarrowTreeWord, NarrowWord, PlaceWord,
    TreeWord, Word,
};
use ic_unsafe_ref::Place;

// Returns six words as numbers. The first three are the words of no place, of the second place, and of both neighbors. The next two are the words of
// the neighbor that is not `first` and of the neighbor that is not `second`. The last one is the word of both neighbors after `None` replaces `first`.
fn numbers(first: Option<Place>, second: Option<Place>) -> [u64; 6] {
    let both = Word::between(first, second);
    [
        Place::to_word(Word::none().place()),
        Place::to_word(Word::of(second).place()),
        both.bits(),
        Place::to_word(both.other(first)),
        Place::to_word(both.other(second)),
        both.replaced(first, None).bits(),
    ]
}

// Returns a mark, a marked word, and the word that the marked word contains, as numbers. Also returns whether the mark and the marked word are words.
fn marks(word: Word) -> ([u64; 3], [bool; 2]) {
    let (mark, marked) = (MarkedWord::<u64>::mark(), MarkedWord::<u64>::of(word));
    let numbers = [mark.bits(), marked.bits(), marked.word().bits()];
    (numbers, [mark.is_word(), marked.is_word()])
}

// Returns the numbers of a tree's word that is unlinked, that is linked, that then gets a parent, and that then becomes red. Also returns the number of the
// word of its parent, and whether the tree's word is then red and linked.
fn tree_numbers(parent: Option<Place>) -> ([u64; 5], bool) {
    let mut word = TreeWord::<u64>::linked();
    let black = word.number();
    word.set_parent(parent);
    let below = word.number();
    word.set_color(Color::Red);
    let above = Place::to_word(PlaceWord::of(word.parent()).get());
    let is_red = word.color() == Color::Red && word.is_linked();
    let unlinked = TreeWord::<u64>::unlinked().number();
    ([unlinked, black, below, word.number(), above], is_red)
}

// Writes the place into words of 4 bytes of four kinds, and returns the numbers that are read back. The four kinds are a word, a word that may be the
// mark, a place word, and the tree word of a red member with this parent. Also returns whether the mark is a word, whether the marked word is one, and
// whether the tree word is linked and red.
#[tactic(auto, using(ic_link_ops::proofs::WidthLemmas::word_kept))]
fn narrow_numbers(place: Place) -> ([u64; 4], [bool; 3])
    requires named { HasRoom narrow place }
{
    let word = Word::of(Some(place));
    let (mark, marked) = (NarrowMarkedWord::mark(), NarrowMarkedWord::of(word));
    let below = NarrowTreeWord::below(Some(place), Color::Red);
    let numbers = [
        NarrowWord::of(word).word().bits(),
        marked.word().bits(),
        Place::to_word(NarrowPlaceWord::of(Some(place)).get()),
        Place::to_word(below.parent()),
    ];
    let are_words = [
        mark.is_word(),
        marked.is_word(),
        below.is_linked() && below.color() == Color::Red,
    ];
    (numbers, are_words)
}

// Words of 4 bytes for the first and for the last place must be read back unchanged.
// Promise: the word of the last place that 4 bytes name.
#[test]
fn numbers_of_narrow_words(rt: HostRuntime) {
    let is_kept = [false, true, true];
    check(&rt, narrow_numbers(at(&rt, 0)) == ([8; 4], is_kept));
    let last = narrow_numbers(at(&rt, LAST_NARROW));
    check(&rt, last == ([4_294_967_288; 4], is_kept));
    check(&rt, Place::to_word(NarrowWord::none().word().place()) == 0);
}

#[test]
fn numbers_of_words(rt: HostRuntime) {
    let (third, sixth) = (Place::new(2), Place::new(5));
    check(&rt, numbers(third, sixth) == [0, 48, 40, 48, 24, 48]);
    check(&rt, marks(Word::of(sixth)) == ([1, 48, 48], [false, true]));
    check(&rt, tree_numbers(Place::new(0)) == ([0, 3, 7, 6, 8], true));
}
