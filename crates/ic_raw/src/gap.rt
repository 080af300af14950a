//! A gap is a position between two neighboring members, or at an end of a list. A call edits a list at a gap.
//!
//! ```text
//! GapSide::After  // after a place, before all at none
//! ```

ghost use Rattle.std.specs.Prelude.{◌≡◌, ◌≢◌, ◌↔◌, Some, true, false};
ghost use Rattle.ic_unsafe_ref.specs.declared.place.Place.{Place};
ghost use Rattle.ic_raw.specs.Gaps.{IsApart};

use ic_chain::{LinkList, ListKind};
use ic_unsafe_ref::Place;

/// The side of a place on which a call edits.
#[derive(Clone, Copy)]
pub enum GapSide {
    /// The edit is made in the gap after the place, or in the gap before all members if the caller names no place.
    After,
    /// The edit is made in the gap before the place, or in the gap after all members if the caller names no place.
    Before,
}

/// The places on both sides of a gap, or of a member.
#[derive(Clone, Copy)]
pub struct Gap {
    /// The place before the gap.
    pub before: Option<Place>,
    /// The place after the gap.
    pub after: Option<Place>,
}

impl Gap {
    /// Returns whether `place` is on neither side of the gap.
    #[inline]
    pub fn is_apart(&self, place: Place) -> bool
        ensures { (result ≡ true) ↔ IsApart self.now place }
    {
        let word = Place::to_word(Some(place));
        Place::to_word(self.before) != word && Place::to_word(self.after) != word
    }
}

/// Returns whether both lists begin with the same member. If both arguments are the same list and it has a member, the result is `true`.
#[inline]
pub fn begin_alike<K: ListKind, T>(list: &LinkList<K, T>, given: &LinkList<K, T>) -> bool
    ensures apart { result ≡ false → (p : Place) → given.now.head ≡ Some p → list.now.head ≢ Some p }
    ensures alike { result ≡ true → (p : Place) × (given.now.head ≡ Some p) × (list.now.head ≡ Some p) }
{
    let Some(first) = given.first() else {
        return false;
    };
    Place::to_word(list.first()) == Place::to_word(Some(first))
}
