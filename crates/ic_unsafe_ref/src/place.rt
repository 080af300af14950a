//! A place is a position for one object in the store. The entries of a table name objects by their places.
//!
//! ```text
//! let third = Place::new(2)?; // Some: there are 4,294,967,296 places
//! third.index() // 2
//! ```

ghost use Rattle.std.specs.Prelude.{◌≡◌, ℕ, ◌+◌, ◌*◌, ◌<◌, ◌≤◌, ◌%◌, ◌^◌, MatchOption};
ghost use Rattle.ic_unsafe_ref.specs.PlaceWords.{NamesPlace, IsWord};

use crate::hint::assert_unchecked;
use std::fmt;

/// A place for one object, named by its index. [`Place::new`] makes only places with an index below 4,294,967,296, and tables
/// cover only places with such indexes.
///
/// The number of a place is `2 * (index + 1)`. A place is stored as its word, which is four times its number, and links store a
/// neighbor as its word as well. The word of a place is therefore a multiple of 8 and never 0. A word counts bytes, so a table
/// with entries of one word finds an entry without a shift. A word can be any multiple of 8 below `2^36`, so there are about
/// twice as many words as places that tables cover. The exclusive or of two words is therefore a word again, and a place is read
/// from it without a test of its range.
#[derive(Clone, Copy, PartialEq, Eq, PartialOrd, Ord)]
pub struct Place {
    word: u64,
    pub ghost names_place: { NamesPlace word },
}

impl Place {
    ghost use Rattle.ic_unsafe_ref.specs.Places.{index_of, place_at, word_of};

    /// The greatest number of places that a table can cover.
    pub const COUNT: usize = 4_294_967_296;

    /// The place with the given index, or `None` if the index is 4,294,967,296 or more. O(1).
    #[inline]
    pub fn new(index: usize) -> Option<Place>
        ensures { MatchOption result (2 ^ 32 ≤ index) (λ place. (index_of place ≡ index) × index < 2 ^ 32) }
    {
        if index < Place::COUNT {
            Some(Place::of_index(index))
        } else {
            None
        }
    }

    // The place with the given index.
    #[inline]
    #[tactic(auto, using(crate::proofs::PlaceLemmas::index_of_place))]
    pub(crate) fn of_index(index: usize) -> Place
        requires { index < 2 ^ 32 }
        ensures { index_of result ≡ index }
    {
        Place {
            word: 8 * (index as u64 + 1),
        }
    }

    /// The index of the place, counted from 0. O(1).
    #[inline]
    #[tactic(auto, unfolding(crate::specs::Places::index_of))]
    pub fn index(self) -> usize
        ensures value { result ≡ index_of self }
        ensures small { result + 1 < 2 ^ 33 }
    {
        // If the compiler knows that the word is a multiple of 8, it addresses an entry with no shift and no mask. If it knows
        // that the word is not 0, it drops tests for the end of a list.
        let word = assert_unchecked(self.word, self.word % 8 == 0 && self.word != 0);
        (word / 8 - 1) as usize
    }

    /// The place that a word names, or `None` if the word is 0. The call makes one test.
    ///
    /// Tables and collections store neighbors and ends as words, and copy the words without decoding them. The call requires a
    /// multiple of 8 below `2^36`. [`Place::to_word`] returns such a word, and the exclusive or of two such words is one as well.
    /// O(1).
    #[inline]
    #[tactic(auto, using(crate::proofs::PlaceLemmas::place_at_other))]
    pub fn from_word(word: u64) -> Option<Place>
        requires { IsWord word }
        ensures { result ≡ place_at word }
    {
        if word != 0 {
            Some(Place { word })
        } else {
            None
        }
    }

    /// The word of a place is `8 * (index + 1)`, and the word for no place is 0. O(1).
    #[inline]
    #[tactic(auto, using(crate::proofs::PlaceLemmas::word_is))]
    pub fn to_word(place: Option<Place>) -> u64
        ensures value { result ≡ word_of place }
        ensures fits { IsWord result }
    {
        match place {
            None => 0,
            Some(place) => place.word,
        }
    }
}

impl Place {
    ghost use Rattle.std.specs.Prelude.{◌↔◌, IsTrue};
    ghost use Rattle.ic_unsafe_ref.specs.declared.place.Place.{Place};
    ghost use Rattle.ic_unsafe_ref.specs.Order.{OrdersPlaces};

    /// The law: places are totally ordered by their indexes, and two places compare `Equal` exactly if they are the same.
    pub fn order_is_total()
        ensures { OrdersPlaces ⟦<Place as Ord>⟧.cmp }
    {}
}

/// A place is printed as its index.
impl fmt::Debug for Place {
    fn fmt<W: fmt::Write>(&self, f: &mut fmt::Formatter<W>) -> fmt::Result {
        fmt::Debug::fmt(&self.index(), f)
    }
}
