//! The check of a ring, which tests whether the words represent a ring with a given head, and counts the members.
//!
//! ```text
//! check(table, 64, &mut members) // OK, or BROKEN where the words represent no ring with this head
//! ```

ghost use Rattle.ic_raw.specs.Words.{place_of};
ghost use Rattle.ic_raw_lists.specs.RingCheckCalls.{RingCheckCall};

use crate::ring_walk::count_members;
use ic_raw::number::place_of;
use ic_raw::{NULL, OK, RawTable, RawTwo};

/// Checks that the words represent a ring with the head `head`, and stores the number of its members in `members`. The head is not counted. If the words
/// represent no ring with this head, the call returns [`BROKEN`](ic_raw::BROKEN). O(n).
///
/// The call writes nothing except `members`. The call returns [`NULL`] if `head` is [`NONE`](ic_raw::NONE). If the result is [`OK`], every other call on this
/// ring does what the comment of that call says.
#[inline]
pub fn check(table: &mut [RawTwo], head: u32, members: &mut u64) -> u32
    ensures { RingCheckCall table.old table.new result (place_of head) members.old members.new }
{
    let Some(place) = place_of(head) else {
        return NULL;
    };
    let links = RawTable::new(table);
    let Some(count) = count_members(&links, place, None) else {
        return links.refusal_of(place);
    };
    *members = count as u64;
    OK
}
