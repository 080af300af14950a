//! The functions of this module read a place from a word or from a number, and return the number by which C names a place.
//!
//! ```text
//! place_of(7)   // the place with index 7
//! ```

ghost use Rattle.std.specs.Prelude.{◌≡◌};
ghost use Rattle.ic_raw.specs.Words.{place_in, narrow_place_in, place_of, HasNumber};

use ic_unsafe_ref::Place;

/// Returns the place that a word names, whatever the bits of the word are. The three lowest bits and all bits from `2^36` on are ignored.
#[inline]
pub fn place_in(word: u64) -> Option<Place>
    ensures { result ≡ place_in word }
{
    Place::from_word(word / 8 % 8_589_934_592 * 8)
}

/// Returns the place that a word of 4 bytes names, whatever the bits of the word are. The three lowest bits are ignored.
#[inline]
pub fn narrow_place_in(word: u32) -> Option<Place>
    ensures { result ≡ narrow_place_in word }
{
    Place::from_word(u64::from(word / 8 % 536_870_912 * 8))
}

/// Returns the place with the index `index`, or `None` for [`NONE`](crate::NONE).
#[inline]
pub fn place_of(index: u32) -> Option<Place>
    ensures { result ≡ place_of index }
{
    Place::from_word(8 * u64::from(index.wrapping_add(1)))
}

/// Returns the low 32 bits of the index of `place`. No call inserts a place whose index has more bits.
#[inline]
#[tactic(auto, using(crate::proofs::Numbers::index_named))]
pub fn number_of(place: Place) -> u32
    ensures { HasNumber place result }
{
    (place.index() % 4_294_967_296) as u32
}
