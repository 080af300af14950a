//! The call that checks whether the words of a table represent a ring with a given head, and that counts the members.
//!
//! ```text
//! uint64_t members;
//! if (ic_ring_check(links, 64, 63, &members) != IC_OK)
//!     return -1; // the words represent no ring with the head 63
//! ```

ghost use Rattle.ic_raw.specs.Words.{place_of};
ghost use Rattle.ic_raw_lists.specs.RingCheckCalls.{RingCheckCall};

use ic_raw::RawTwo;
use ic_raw_lists::ring_check_calls;

/// Checks that the words of `table` represent a ring with the head `head`, and stores the number of its members in `members`. The head is not counted. If the
/// words represent no ring with this head, the call returns [`BROKEN`](crate::BROKEN). O(n).
///
/// The call writes nothing except `members`. The call returns [`NULL`](crate::NULL) if `head` is [`NONE`](crate::NONE). If the call returns [`OK`](crate::OK),
/// every other call on this ring does what the comment of that call says.
#[unsafe(no_mangle)]
pub extern "C" fn ic_ring_check(table: &mut [RawTwo], head: u32, members: &mut u64) -> u32
    ensures { RingCheckCall table.old table.new result (place_of head) members.old members.new }
{
    ring_check_calls::check(table, head, members)
}
