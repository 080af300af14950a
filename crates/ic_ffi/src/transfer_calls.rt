//! The calls that move a member of one doubly linked list into another list of the same table.
//!
//! ```text
//! ic_list_transfer_after(links, 64, &ready, IC_NONE, &waiting, 7); // IC_OK: 7 is the first member of `ready`, and no longer one of `waiting`
//! ```

ghost use Rattle.ic_raw.specs.declared.gap.GapSide.TheVariants.{After, Before};
ghost use Rattle.ic_raw.specs.Prelude.{wide_words, place_of};
ghost use Rattle.ic_raw_lists.specs.TransferCalls.{TransferCall};

use ic_raw::{GapSide, RawEnds, RawTwo};
use ic_raw_lists::transfer_calls;

/// Moves the member `place` of the list `given` after the member `at` of the list `list`, or to the front of `list` if `at` is [`NONE`](crate::NONE).
/// The member stays linked during the call. O(1).
///
/// The call returns [`NULL`](crate::NULL) if `place` is [`NONE`](crate::NONE). If `at` or `place` is out of range or not linked, the call returns the status
/// for this fault. Otherwise, if the links do not fit together, for example because both lists begin with the same member, the call returns
/// [`BROKEN`](crate::BROKEN).
#[unsafe(no_mangle)]
pub extern "C" fn ic_list_transfer_after(
    table: &mut [RawTwo],
    list: &mut RawEnds,
    at: u32,
    given: &mut RawEnds,
    place: u32,
) -> u32
    ensures { TransferCall wide_words table.old table.new list.old list.new result After (place_of at) given.old given.new (place_of place) }
{
    transfer_calls::transfer_at(table, list, GapSide::After, at, given, place)
}

/// Moves the member `place` of the list `given` before the member `at` of the list `list`, or to the back of `list` if `at` is [`NONE`](crate::NONE).
/// The member stays linked during the call. O(1).
///
/// The call returns [`NULL`](crate::NULL) if `place` is [`NONE`](crate::NONE). If `at` or `place` is out of range or not linked, the call returns the status
/// for this fault. Otherwise, if the links do not fit together, for example because both lists begin with the same member, the call returns
/// [`BROKEN`](crate::BROKEN).
#[unsafe(no_mangle)]
pub extern "C" fn ic_list_transfer_before(
    table: &mut [RawTwo],
    list: &mut RawEnds,
    at: u32,
    given: &mut RawEnds,
    place: u32,
) -> u32
    ensures { TransferCall wide_words table.old table.new list.old list.new result Before (place_of at) given.old given.new (place_of place) }
{
    transfer_calls::transfer_at(table, list, GapSide::Before, at, given, place)
}
