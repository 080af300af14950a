//! A walk around a ring whose words may contain anything.
//!
//! ```text
//! let Some(members) = count_members(&links, head, None) else { .. }; // the links lead around no circle back to the head
//! ```

ghost use Rattle.std.specs.Prelude.{MatchOption};
ghost use Rattle.ic_check.specs.Checked.{IsRepresented, RepresentsNone};
ghost use Rattle.ic_raw.specs.LinkWords.{lent_table, wide_words};
ghost use Rattle.ic_raw_lists.specs.RingOrders.{RingApart};

use ic_raw::ring::beside;
use ic_raw::{GapSide, RawTable, RawTwo};
use ic_unsafe_ref::Place;

// Returns how many members the ring with the head `head` has. The result is `None` if the words represent no ring with this head, or a ring that contains the
// place `apart`. The walk makes at most as many steps as the table has places.
pub(crate) fn count_members(
    links: &RawTable<'_, RawTwo>,
    head: Place,
    apart: Option<Place>,
) -> Option<usize>
    ensures { MatchOption result (RepresentsNone (RingApart (lent_table wide_words links.now) apart head)) (IsRepresented (RingApart (lent_table wide_words links.now) apart head)) }
{
    let mut at = head;
    let mut count: usize = 0;
    while count < links.places() {
        if Place::to_word(apart) == Place::to_word(Some(at)) {
            return None;
        }
        let Some(pair) = beside(links, GapSide::After, at) else {
            return None;
        };
        if pair.1 == head {
            return Some(count);
        }
        at = pair.1;
        count += 1;
    }
    None
}
