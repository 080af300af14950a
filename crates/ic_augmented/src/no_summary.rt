//! A plain tree has no summaries, and this type is used in their place.
//!
//! ```text
//! let mut summed = Augmented { links, summaries: NoSummary }; // costs what the links cost
//! ```

ghost use Rattle.std.specs.Prelude.{None};

use crate::summaries::Summaries;
use ic_unsafe_ref::Place;

/// A store of summaries that stores nothing for any place, so there is nothing to recompute.
#[derive(Clone, Copy)]
pub struct NoSummary;

impl Summaries for NoSummary {
    type Summary = ();

    ghost summaries = { λ t. record { fresh = λ p. None; upper = λ p. None; join = λ p a b. tt } };

    ghost Covers = { λ t p. ⊥ };

    ghost count = { λ t. 0 };

    #[inline]
    fn is_fresh(&self, place: Place) -> bool {
        let _ = place;
        false
    }

    #[inline]
    fn upper(&self, place: Place) -> Option<Place> {
        let _ = place;
        None
    }

    #[inline]
    fn invalidate(&mut self, place: Place) {
        let _ = place;
    }
}
