//! The calls that move a member within a doubly linked list. The member stays linked.
//!
//! ```text
//! ic_list_move_to_front(links, 64, &list, 7); // IC_OK: 7 is the first member, whichever it was
//! ic_list_move_after(links, 64, &list, 9, 7); // IC_OK: and now it is after 9
//! ```

ghost use Rattle.ic_raw.specs.declared.gap.GapSide.TheVariants.{After, Before};
ghost use Rattle.ic_raw.specs.Prelude.{wide_words, place_of};
ghost use Rattle.ic_raw.specs.ListCalls.{MoveCall, MoveToEndCall};

use ic_raw::{GapSide, RawEnds, RawTwo, move_calls};

/// Moves the member `place` after the member `at`, or to the front if `at` is [`NONE`](crate::NONE), or returns [`NULL`](crate::NULL) if `place` is
/// [`NONE`](crate::NONE). The member stays linked during the call. O(1).
///
/// If the member is already there, or if `at` is the same place as `place`, nothing changes.
#[unsafe(no_mangle)]
pub extern "C" fn ic_list_move_after(
    table: &mut [RawTwo],
    list: &mut RawEnds,
    at: u32,
    place: u32,
) -> u32
    ensures { MoveCall wide_words table.old table.new list.old list.new result After (place_of at) (place_of place) }
{
    move_calls::move_at(table, list, GapSide::After, at, place)
}

/// Moves the member `place` before the member `at`, or to the back if `at` is [`NONE`](crate::NONE), or returns [`NULL`](crate::NULL) if `place` is
/// [`NONE`](crate::NONE). The member stays linked during the call. O(1).
///
/// If the member is already there, or if `at` is the same place as `place`, nothing changes.
#[unsafe(no_mangle)]
pub extern "C" fn ic_list_move_before(
    table: &mut [RawTwo],
    list: &mut RawEnds,
    at: u32,
    place: u32,
) -> u32
    ensures { MoveCall wide_words table.old table.new list.old list.new result Before (place_of at) (place_of place) }
{
    move_calls::move_at(table, list, GapSide::Before, at, place)
}

/// Moves the member `place` to the front, or returns [`NULL`](crate::NULL) if `place` is [`NONE`](crate::NONE). The member stays linked during the call. O(1).
///
/// If the member is already the first one, nothing changes.
#[unsafe(no_mangle)]
pub extern "C" fn ic_list_move_to_front(table: &mut [RawTwo], list: &mut RawEnds, place: u32) -> u32
    ensures { MoveToEndCall wide_words table.old table.new list.old list.new result After (place_of place) }
{
    move_calls::move_to_end(table, list, GapSide::After, place)
}

/// Moves the member `place` to the back, or returns [`NULL`](crate::NULL) if `place` is [`NONE`](crate::NONE). The member stays linked during the call. O(1).
///
/// If the member is already the last one, nothing changes.
#[unsafe(no_mangle)]
pub extern "C" fn ic_list_move_to_back(table: &mut [RawTwo], list: &mut RawEnds, place: u32) -> u32
    ensures { MoveToEndCall wide_words table.old table.new list.old list.new result Before (place_of place) }
{
    move_calls::move_to_end(table, list, GapSide::Before, place)
}
