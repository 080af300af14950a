//! What a cursor of a list stores about its position: the member that it is on, and what its kind of list needs in addition.
//!
//! ```text
//! let at: K::Position = ListPosition::of(Some(place), next);
//! at.get() // Some(place)
//! ```

ghost use Rattle.std.specs.Prelude.{◌≡◌, Option, None, ⊤};
ghost use Rattle.ic_unsafe_ref.specs.declared.place.Place.{Place};

use ic_cursors::Position;
use ic_link_ops::PlaceWord;
use ic_unsafe_ref::Place;

/// A position in a list, and what the position stores about the next place.
pub trait ListPosition: Position {
    // What the position stores about the next place is right, if the given place is the next place.
    ghost CachesNext: { Self → Option Place → Type 0 };

    // The position at null.
    ghost null: { Self };

    /// The position at null.
    fn null() -> Self
        ensures null { result ≡ null }
        ensures on { Self.member result ≡ None };

    /// Makes the position on the place `current`, or at null if it is `None`. The place after the position is `next`.
    fn of(current: Option<Place>, next: Option<Place>) -> Self
        ensures on { Self.member result ≡ current }
        ensures caches { CachesNext result next };
}

// A position that stores only its own place, because the entry names the next place.
impl ListPosition for PlaceWord {
    ghost CachesNext = { λ at next. ⊤ };

    ghost null = { None };

    #[inline]
    fn null() -> PlaceWord {
        PlaceWord::of(None)
    }

    #[inline]
    fn of(current: Option<Place>, next: Option<Place>) -> PlaceWord {
        let _ = next;
        PlaceWord::of(current)
    }
}
