//! The call that moves a member of one doubly linked list into another list of the same table.
//!
//! ```text
//! transfer_at(table, list, GapSide::After, NONE, given, 7) // OK: 7 is the first member of `list`, and no longer one of `given`
//! ```

ghost use Rattle.ic_raw.specs.Words.{place_of};
ghost use Rattle.ic_raw_lists.specs.TransferCalls.{TransferCall};

use crate::transfer::{gaps_to_transfer, relocate};
use ic_raw::list_calls::{list_of, write_back};
use ic_raw::number::place_of;
use ic_raw::{GapSide, ListWords, NULL, OK, RawEnds, RawTable};

/// Moves the member `place` of the list `given` into the gap on the side `side` of the member `at` of the list `list`. If `at` is [`NONE`](ic_raw::NONE),
/// `place` moves to the front of `list` for the side `After`, and to the back for `Before`. The member stays linked during the call. O(1).
///
/// The call returns [`NULL`] if `place` is [`NONE`](ic_raw::NONE), else the first fault of `at` and `place`, or else [`BROKEN`](ic_raw::BROKEN). For example,
/// the call returns [`BROKEN`](ic_raw::BROKEN) if both lists begin with the same member. A refused call changes no word.
#[inline]
pub fn transfer_at<W: ListWords>(
    table: &mut [W],
    list: &mut RawEnds,
    side: GapSide,
    at: u32,
    given: &mut RawEnds,
    place: u32,
) -> u32
    ensures { TransferCall W.PrevPlace table.old table.new list.old list.new result side (place_of at) given.old given.new (place_of place) }
{
    let Some(member) = place_of(place) else {
        return NULL;
    };
    let mut links = RawTable::new(table);
    let mut edited = list_of(&*list);
    let mut other = list_of(&*given);
    let Some((from, to)) = gaps_to_transfer(&links, &edited, side, place_of(at), &other, member)
    else {
        return links.refusal_at_both(at, place);
    };
    relocate(&mut links, &mut edited, &mut other, from, member, to);
    write_back(list, edited);
    write_back(given, other);
    OK
}
