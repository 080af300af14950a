//! What a cursor of an XOR list stores about its position: the member that it is on, and the next place.
//!
//! To read one neighbor from an entry, a cursor must know the other neighbor. Therefore a position is two words. One is the word of its own place.
//! The other is the exclusive or of this word and the word of the next place.

ghost use Rattle.std.specs.Prelude.{◌≡◌, Option, Some, None, IfSome};
ghost use Rattle.ic_unsafe_ref.specs.declared.place.Place.{Place};
ghost use Rattle.ic_xor_linked_list.specs.Position.{position_on, member_of, CachesNext};

use ic_chain::ListPosition;
use ic_cursors::Position;
use ic_link_ops::{PlaceWord, Word};
use ic_unsafe_ref::Place;
use std::marker::Model;

/// A position in an XOR list, and the place after it. The position stores the word of its own place, and the exclusive or of this word and the word
/// of the next place.
#[derive(Drop)]
pub struct PositionWithNext {
    current: PlaceWord,
    both: Word,
}

impl Model for PositionWithNext {
    ghost use Rattle.std.specs.Prelude.{bit_xor, Option};
    ghost use Rattle.ic_unsafe_ref.specs.Places.{place_at, word_of};
    ghost use Rattle.ic_link_ops.specs.Words.{bits_of};
    ghost use Rattle.ic_xor_linked_list.specs.Position.{PlaceAndNext, position_on};

    ghost Value = { Option PlaceAndNext };

    ghost view = { λ p. position_on p.current (place_at (bit_xor (bits_of p.both) (word_of p.current))) };
}

impl PositionWithNext {
    // The position on the place `current`, or at null if it is none. The place after the position is `next`.
    #[inline]
    fn at(current: Option<Place>, next: Option<Place>) -> PositionWithNext
        ensures { result ≡ position_on current next }
    {
        PositionWithNext {
            current: PlaceWord::of(current),
            both: Word::between(current, next),
        }
    }

    /// The place after the member that the position is on. If the position is on no member, the result has no meaning. The call reads no table. O(1).
    #[inline]
    pub fn next(&self) -> Option<Place>
        ensures { IfSome self.now (λ at. result ≡ at.next) }
    {
        self.both.other(self.current.get())
    }
}

impl Position for PositionWithNext {
    ghost member = { member_of };

    #[inline]
    fn get(&self) -> Option<Place> {
        self.current.get()
    }

    #[inline]
    fn again(&self) -> PositionWithNext {
        PositionWithNext::at(self.current.get(), self.next())
    }
}

impl ListPosition for PositionWithNext {
    ghost CachesNext = { CachesNext };

    ghost null = { None };

    #[inline]
    fn null() -> PositionWithNext {
        PositionWithNext::at(None, None)
    }

    #[inline]
    fn of(current: Option<Place>, next: Option<Place>) -> PositionWithNext {
        PositionWithNext::at(current, next)
    }
}
