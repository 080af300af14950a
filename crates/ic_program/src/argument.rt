//! The types of the arguments of calls. Each type reads an argument from the first word of a text, and returns the argument and the text after the
//! word.
//!
//! ```text
//! u64::read(b"12 3\n")      // Some((12, ` 3\n`))
//! Kind::read(b"xor\n")      // Some((Kind::Xor, `\n`))
//! Place::read(b"singly\n")  // None: the word is no number
//! ```

ghost use Rattle.std.specs.Prelude.{ℕ, List, Option};
ghost use Rattle.ic_program.specs.Grammar.{bound_in, kind_in, neighbor_in, number_in, place_in};
ghost use Rattle.ic_program.specs.Text.{BeginsWithNumber, ReadsFirst};

use crate::text::{after_word, first_word};
use crate::word::{bound, kind, neighbor, number, place_of, small_number};
use ic_any_collection::Kind;
use ic_rbtree::Bound;
use ic_unsafe_ref::Place;

/// A type of arguments of calls. Each argument is read from one word of a line.
pub(crate) trait Argument: Copy {
    // `says` is the argument that a word means, or `None` if the word is not an argument of this type.
    ghost says: { List ℕ → Option Self };

    /// Returns the argument that the first word of the text means, and the text after the word. The result is `None` if the word is not an argument
    /// of this type, or if the first line of the text has no word.
    fn read<'l>(text: &'l [u8]) -> Option<(Self, &'l [u8])>
        ensures { ReadsFirst says text.now result };
}

/// A number that is a value or a key. Most numbers have a few digits, and are followed by one space or by a line feed.
impl Argument for u64 {
    ghost says = { number_in };

    #[inline(always)]
    fn read<'l>(text: &'l [u8]) -> Option<(u64, &'l [u8])> {
        if let Some((number, rest)) = small_number(text) {
            return Some((number, rest));
        }
        let number = any_number(text)?;
        Some((number, after_word(text)))
    }
}

// Returns the number that the first word of the text means, with any count of digits. It does not also return the text after the word, because a
// result with a number and a text would be passed through memory.
#[cold]
#[inline(never)]
fn any_number(text: &[u8]) -> Option<u64>
    ensures { BeginsWithNumber text.now result }
{
    let (word, _) = first_word(text);
    number(word)
}

/// The number of a field or of a collection, which need not exist.
impl Argument for usize {
    ghost says = { number_in };

    #[inline(always)]
    fn read<'l>(text: &'l [u8]) -> Option<(usize, &'l [u8])> {
        let (number, rest) = u64::read(text)?;
        Some((number as usize, rest))
    }
}

/// The place of an object, which need not exist.
impl Argument for Place {
    ghost says = { place_in };

    #[inline(always)]
    fn read<'l>(text: &'l [u8]) -> Option<(Place, &'l [u8])> {
        let (index, rest) = usize::read(text)?;
        Some((place_of(index)?, rest))
    }
}

impl Argument for Kind {
    ghost says = { kind_in };

    #[inline]
    fn read<'l>(text: &'l [u8]) -> Option<(Kind, &'l [u8])> {
        let (word, rest) = first_word(text);
        Some((kind(word)?, rest))
    }
}

impl Argument for Bound<u64> {
    ghost says = { bound_in };

    #[inline]
    fn read<'l>(text: &'l [u8]) -> Option<(Bound<u64>, &'l [u8])> {
        let (word, rest) = first_word(text);
        Some((bound(word)?, rest))
    }
}

/// A neighbor: the place of an object, or none if the list has no member on that side.
impl Argument for Option<Place> {
    ghost says = { neighbor_in };

    #[inline]
    fn read<'l>(text: &'l [u8]) -> Option<(Option<Place>, &'l [u8])> {
        let (word, rest) = first_word(text);
        Some((neighbor(word)?, rest))
    }
}
