//! Tests read a whole table by these functions.
//!
//! ```text
//! write_linked(&mut text, &links); // `0 2 ` where the places 0 and 2 are linked
//! ```

ghost use Rattle.std.specs.Prelude.{◌≡◌, IsTrue, true};
ghost use Rattle.ic_link_ops.specs.Prelude.{Place, is_placed, IsCovered, table};

use crate::answers::number;
use crate::notes::Text;
use ic_link_ops::{PlainTable, Words};
use ic_unsafe_ref::{Objects, Place};

/// Returns whether there is an object at each covered place.
pub fn are_placed<W: Words>(links: &PlainTable<W>, objects: &Objects<u64>) -> bool
    ensures placed { IsTrue result → (q : Place) → IsCovered (table W.width W.unlinked links.now) q → is_placed objects.now q ≡ true }
{
    for index in 0..links.covers() {
        let Some(place) = Place::new(index) else {
            return false;
        };
        if !objects.is_placed(place) {
            return false;
        }
    }
    true
}

/// Writes the indexes of all places that are linked in the table `links` to `text`.
pub fn write_linked<W: Words>(text: &mut Text, links: &PlainTable<W>) {
    for index in 0..links.covers() {
        if let Some(place) = Place::new(index) {
            if links.is_linked(place) {
                text.add(number(place), " ");
            }
        }
    }
}
