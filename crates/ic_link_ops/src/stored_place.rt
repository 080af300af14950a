//! A place or none is stored in one word of a link, with 8 bytes or with 4 bytes.
//!
//! ```text
//! NarrowPlaceWord::of(Some(place)).get() // Some(place)
//! ```

ghost use Rattle.std.specs.Prelude.{◌≡◌};
ghost use Rattle.ic_link_ops.specs.Tables.{IsNameable};
ghost use Rattle.ic_link_ops.specs.Widths.{HasRoom};

use crate::bits::Bits;
use ic_unsafe_ref::Place;
use std::marker::Model;

/// A place or none in the integer `B`. A place is stored as its word, `8 * (index + 1)`, and none is stored as 0.
///
/// In contracts it is an `Option<Place>`.
#[derive(Drop)]
pub struct StoredPlace<B: Bits = u64> {
    bits: B,
}

/// A place or none in 4 bytes.
pub type NarrowPlaceWord = StoredPlace<u32>;

impl<B: Bits> Model for StoredPlace<B> {
    ghost use Rattle.std.specs.Prelude.{Option};
    ghost use Rattle.ic_link_ops.specs.Base.{Place, place_at};
    ghost use Rattle.ic_unsafe_ref.specs.PlaceWords.{IsWord};

    ghost Value = { Option Place };

    ghost view = { λ stored. place_at (B.number stored.bits) };

    ghost invariant = { λ stored. IsWord (B.number stored.bits) };
}

impl<B: Bits> StoredPlace<B> {
    /// The word of the place, or the word 0 for none. The call requires that the width has room for the word: if it has 4 bytes,
    /// the index of the place has to be below 536,870,911. O(1).
    #[inline]
    #[tactic(auto, using(ic_unsafe_ref::proofs::PlaceLemmas::place_at_word, crate::proofs::WidthLemmas::word_kept))]
    pub fn of(place: Option<Place>) -> StoredPlace<B>
        requires named { IsNameable (HasRoom B.width) place }
        ensures { result ≡ place }
    {
        StoredPlace {
            bits: B::of(Place::to_word(place)),
        }
    }

    /// The place, `None` if the word is 0. The call makes one test against 0 and one shift. O(1).
    #[inline]
    pub fn get(&self) -> Option<Place>
        ensures { result ≡ self.now }
    {
        Place::from_word(self.bits.get())
    }
}
