//! The places whose children an edit has written. The view of the table through which the edit runs records these places.
//!
//! ```text
//! let mut written = Written::of(None);
//! let status = tree_calls::remove_by(&mut written, table, tree, 7);
//! recompute_written(&links, sums, kind, &written); // joins the sums anew from each of them up
//! ```

ghost use Rattle.std.specs.Prelude.{◌≡◌, Option, Some, true};
ghost use Rattle.ic_link_ops.specs.Prelude.{Place};
ghost use Rattle.ic_raw_augmented.specs.Written.{is_noted};

use ic_unsafe_ref::Place;

// The number of places for which the record has room. An edit of a tree writes the children of at most 10 places at an insertion and 13 at a removal. The
// record may contain one of these places more than once.
const ROOM: usize = 14;

/// Places whose children were written, in the order of the writes.
#[derive(Drop)]
pub struct Written {
    // The word of each recorded place, or 0 for none.
    pub(crate) words: [u64; 14],
    count: usize,
    // Whether the record had no room for a place, so that any place may be missing.
    pub(crate) is_full: bool,
}

impl Written {
    /// Makes a record that contains the given place, or no place. O(1).
    #[inline]
    pub(crate) fn of(place: Option<Place>) -> Written
        ensures { (q : Place) → place ≡ Some q → is_noted result q ≡ true }
    {
        let mut written = Written {
            words: [0; 14],
            count: 0,
            is_full: false,
        };
        if let Some(place) = place {
            written.note(place);
        }
        written
    }

    /// Records the place. O(1).
    #[inline]
    pub(crate) fn note(&mut self, place: Place)
        ensures here { is_noted self.new place ≡ true }
        ensures others { (q : Place) → is_noted self.old q ≡ true → is_noted self.new q ≡ true }
    {
        let count = self.count;
        if count >= ROOM || self.words[count] != 0 {
            self.is_full = true;
            return;
        }
        self.words[count] = Place::to_word(Some(place));
        self.count = count + 1;
    }
}
