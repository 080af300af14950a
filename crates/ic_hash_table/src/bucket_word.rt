//! Each bucket of a hash table is a word that names the first member of a chain.
//!
//! ```text
//! let bucket: NarrowPlaceWord = BucketWord::of(None); // an empty bucket of 4 bytes
//! ```

ghost use Rattle.std.specs.Prelude.{◌≡◌, List, Option, map, ⊤};
ghost use Rattle.ic_link_ops.specs.Prelude.{Place, place_at, word_of, IsNameable, HasRoom, narrow};

use ic_link_ops::{LinkOps, NarrowPlaceWord, PlaceWord};
use ic_unsafe_ref::Place;

/// A bucket: a word that stores the first member of a chain, or none.
pub trait BucketWord: Drop {
    // The place that a word names, or none if the word names no place.
    ghost front_of: { Self → Option Place };

    // For each word of a row, in order, the place that the word names, or none.
    ghost fronts: { List Self → List (Option Place) };

    // The word that names a place, or the word that names no place.
    ghost word_for: { Option Place → Self };

    // `CanKeep p`: a bucket word has room for the name of the place p.
    ghost CanKeep: { Place → Type 0 };

    /// Makes the word that names a place, or the word that names no place. It requires that a word has room for the name of the place. O(1).
    fn of(front: Option<Place>) -> Self
        requires kept { IsNameable CanKeep front }
        ensures { result ≡ word_for front };

    /// The place that the word names, or `None` if it names no place. O(1).
    fn get(&self) -> Option<Place>
        ensures { result ≡ front_of self.now };

    // The laws. `fronts` is the row of the places that the words of a row name. If a word has room for the name of a place, the word that is made for the place
    // names it.
    ghost fronts_are: { (words : List Self) → fronts words ≡ map front_of words };

    ghost word_names: { (front : Option Place) → IsNameable CanKeep front → front_of (word_for front) ≡ front };
}

/// A bucket word with room for each place that links of the type `L` can name.
pub trait BucketWordFor<L: LinkOps>: BucketWord {
    ghost keeps_named: { (place : Place) → L.CanName place → Self.CanKeep place };
}

impl BucketWord for PlaceWord {
    ghost use Rattle.std.specs.Prelude.{refl};
    ghost use Rattle.ic_hash_table.specs.BucketLaws.{own_fronts};

    ghost front_of = { λ word. word };

    ghost fronts = { λ words. words };

    ghost word_for = { λ front. front };

    ghost CanKeep = { λ _. ⊤ };

    #[inline]
    fn of(front: Option<Place>) -> PlaceWord {
        PlaceWord::of(front)
    }

    #[inline]
    fn get(&self) -> Option<Place> {
        PlaceWord::get(self)
    }

    ghost fronts_are = { own_fronts };

    ghost word_names = { λ front room. refl };
}

impl<L: LinkOps> BucketWordFor<L> for PlaceWord {
    ghost keeps_named = { λ place named. tt };
}

impl BucketWord for NarrowPlaceWord {
    ghost use Rattle.std.specs.Prelude.{refl};
    ghost use Rattle.ic_hash_table.specs.BucketLaws.{own_fronts};

    ghost front_of = { λ word. word };

    ghost fronts = { λ words. words };

    ghost word_for = { λ front. front };

    ghost CanKeep = { HasRoom narrow };

    #[inline]
    fn of(front: Option<Place>) -> NarrowPlaceWord {
        NarrowPlaceWord::of(front)
    }

    #[inline]
    fn get(&self) -> Option<Place> {
        NarrowPlaceWord::get(self)
    }

    ghost fronts_are = { own_fronts };

    ghost word_names = { λ front room. refl };
}

// Words that name places are multiples of 8 below 2^36, which is this number. `Place::from_word` requires such words.
const WORDS_END: u64 = 68_719_476_736;

// The place that a word names, or `None` if no place has this word.
#[inline]
#[tactic(auto, using(ic_unsafe_ref::proofs::PlaceLemmas::place_at_other))]
fn place_named_by(word: u64) -> Option<Place>
    ensures { result ≡ place_at word }
{
    if word % 8 != 0 || word >= WORDS_END {
        return None;
    }
    Place::from_word(word)
}

/// A plain word: `8 * (index + 1)` names the first member, and 0 names none. A number that is not the word of any place also names none.
impl BucketWord for u64 {
    ghost use Rattle.std.specs.Prelude.{refl};
    ghost use Rattle.ic_unsafe_ref.proofs.PlaceLemmas.{place_at_word};

    ghost front_of = { place_at };

    ghost fronts = { λ words. map place_at words };

    ghost word_for = { word_of };

    ghost CanKeep = { λ _. ⊤ };

    #[inline]
    fn of(front: Option<Place>) -> u64 {
        Place::to_word(front)
    }

    #[inline]
    fn get(&self) -> Option<Place> {
        place_named_by(*self)
    }

    ghost fronts_are = { λ words. refl };

    ghost word_names = { λ front room. place_at_word front };
}

impl<L: LinkOps> BucketWordFor<L> for u64 {
    ghost keeps_named = { λ place named. tt };
}

/// A plain word of 4 bytes, which stores the same numbers as a plain word of 8 bytes.
impl BucketWord for u32 {
    ghost use Rattle.std.specs.Prelude.{refl};
    ghost use Rattle.ic_unsafe_ref.proofs.PlaceLemmas.{place_at_word};

    ghost front_of = { place_at };

    ghost fronts = { λ words. map place_at words };

    ghost word_for = { word_of };

    ghost CanKeep = { HasRoom narrow };

    #[inline]
    #[tactic(auto, using(ic_link_ops::proofs::WidthLemmas::word_kept))]
    fn of(front: Option<Place>) -> u32 {
        let word = Place::to_word(front);
        word as u32
    }

    #[inline]
    fn get(&self) -> Option<Place> {
        place_named_by(u64::from(*self))
    }

    ghost fronts_are = { λ words. refl };

    ghost word_names = { λ front room. place_at_word front };
}
