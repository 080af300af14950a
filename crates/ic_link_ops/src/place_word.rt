//! A place or none is stored in one word. The heads of collections store each of their ends in one word.
//!
//! ```text
//! PlaceWord::of(Some(place)).get() // Some(place)
//! ```

ghost use Rattle.std.specs.Prelude.{◌≡◌};

use ic_unsafe_ref::Place;
use std::marker::Model;

/// A place or none in one word. The heads of collections store each of their ends in one word.
///
/// In contracts the word is an `Option<Place>`.
#[derive(Drop)]
pub struct PlaceWord {
    word: u64,
}

impl Model for PlaceWord {
    ghost use Rattle.std.specs.Prelude.{Option};
    ghost use Rattle.ic_link_ops.specs.Base.{Place, place_at};
    ghost use Rattle.ic_unsafe_ref.specs.PlaceWords.{IsWord};

    ghost Value = { Option Place };

    ghost view = { λ e. place_at e.word };

    ghost invariant = { λ e. IsWord e.word };
}

impl PlaceWord {
    /// The word for an end of a collection: `place` is the member at this end, or `None` if the collection is empty. O(1).
    #[inline]
    #[tactic(auto, using(ic_unsafe_ref::proofs::PlaceLemmas::place_at_word))]
    pub fn of(place: Option<Place>) -> PlaceWord
        ensures { result ≡ place }
    {
        PlaceWord {
            word: Place::to_word(place),
        }
    }

    /// The member at this end of the collection, or `None` if the collection is empty. The call makes one test against 0 and one
    /// shift. O(1).
    #[inline]
    pub fn get(&self) -> Option<Place>
        ensures { result ≡ self.now }
    {
        Place::from_word(self.word)
    }
}
