//! What a cursor stores about its position.
//!
//! ```text
//! position.get()   // the member that it is on, `None` at null
//! position.again() // the same position once more
//! ```

ghost use Rattle.std.specs.Prelude.{◌≡◌, Option};
ghost use Rattle.ic_unsafe_ref.specs.declared.place.Place.{Place};

use ic_link_ops::PlaceWord;
use ic_unsafe_ref::Place;

/// A position is on a member or at null. A kind of collection may store more in a position than the member, for example the next member.
pub trait Position: Drop {
    // The member that the position is on, or none if the position is null.
    ghost member: { Self → Option Place };

    /// The member that the position is on, or `None` if the position is null.
    fn get(&self) -> Option<Place>
        ensures { result ≡ member self.now };

    /// A copy of the position.
    fn again(&self) -> Self
        ensures { result ≡ self.now };
}

impl Position for PlaceWord {
    ghost member = { λ at. at };

    #[inline]
    fn get(&self) -> Option<Place> {
        PlaceWord::get(self)
    }

    #[inline]
    fn again(&self) -> PlaceWord {
        PlaceWord::of(PlaceWord::get(self))
    }
}
