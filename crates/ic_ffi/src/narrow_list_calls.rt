//! The calls of doubly linked lists whose links are words of 4 bytes, so that the table has 8 bytes for each place. Each call `ic_list32_NAME` does the same as
//! the call `ic_list_NAME` in `list_calls`, `move_calls`, `check_calls` or `transfer_calls`. Places from 536,870,911 on are out of range, because no word of 4
//! bytes can name them. A list also has two words of 8 bytes, for its first and its last member.
//!
//! ```text
//! struct ic_link2_32 links[64] = {0};
//! struct ic_list list = {0};
//! uint32_t first;
//! ic_list32_push_back(links, 64, &list, 7);      // IC_OK
//! ic_list32_pop_front(links, 64, &list, &first); // IC_OK, and first is 7
//! ```

ghost use Rattle.std.specs.Prelude.{None};
ghost use Rattle.ic_raw.specs.CheckCalls.{CheckCall};
ghost use Rattle.ic_raw.specs.declared.gap.GapSide.TheVariants.{After, Before};
ghost use Rattle.ic_raw.specs.Doubly.{RepresentsList};
ghost use Rattle.ic_raw.specs.Prelude.{narrow_words, place_of};
ghost use Rattle.ic_raw.specs.ListCalls.{ClearCall, InsertCall, MoveCall, MoveToEndCall};
ghost use Rattle.ic_raw.specs.ListCalls.{PopCall, RemoveCall, ReplaceCall, SpliceCall, SplitCall};
ghost use Rattle.ic_raw_lists.specs.TransferCalls.{TransferCall};

use ic_raw::{GapSide, NONE, RawEnds, RawNarrowTwo, check_calls, list_calls, move_calls};
use ic_raw_lists::transfer_calls;

/// Inserts a place at the front. O(1).
///
/// The call requires and returns what `ic_list_push_front` does.
#[unsafe(no_mangle)]
pub extern "C" fn ic_list32_push_front(
    table: &mut [RawNarrowTwo],
    list: &mut RawEnds,
    place: u32,
) -> u32
    ensures { InsertCall narrow_words table.old table.new list.old list.new result After None (place_of place) }
{
    list_calls::insert_at(table, list, GapSide::After, NONE, place)
}

/// Inserts a place at the back. O(1).
///
/// The call requires and returns what `ic_list_push_back` does.
#[unsafe(no_mangle)]
pub extern "C" fn ic_list32_push_back(
    table: &mut [RawNarrowTwo],
    list: &mut RawEnds,
    place: u32,
) -> u32
    ensures { InsertCall narrow_words table.old table.new list.old list.new result Before None (place_of place) }
{
    list_calls::push_back(table, list, place)
}

/// Removes the first member and stores its number in `popped`, or returns [`NULL`](crate::NULL) if there is none. O(1).
#[unsafe(no_mangle)]
pub extern "C" fn ic_list32_pop_front(
    table: &mut [RawNarrowTwo],
    list: &mut RawEnds,
    popped: &mut u32,
) -> u32
    ensures { PopCall narrow_words table.old table.new list.old list.new result After popped.old popped.new }
{
    list_calls::pop_front(table, list, popped)
}

/// Removes the last member and stores its number in `popped`, or returns [`NULL`](crate::NULL) if there is none. O(1).
#[unsafe(no_mangle)]
pub extern "C" fn ic_list32_pop_back(
    table: &mut [RawNarrowTwo],
    list: &mut RawEnds,
    popped: &mut u32,
) -> u32
    ensures { PopCall narrow_words table.old table.new list.old list.new result Before popped.old popped.new }
{
    list_calls::pop(table, list, GapSide::Before, popped)
}

/// Inserts a place after the member `at`, or at the front if `at` is [`NONE`](crate::NONE). O(1).
///
/// The call requires and returns what `ic_list_insert_after` does.
#[unsafe(no_mangle)]
pub extern "C" fn ic_list32_insert_after(
    table: &mut [RawNarrowTwo],
    list: &mut RawEnds,
    at: u32,
    place: u32,
) -> u32
    ensures { InsertCall narrow_words table.old table.new list.old list.new result After (place_of at) (place_of place) }
{
    list_calls::insert_at(table, list, GapSide::After, at, place)
}

/// Inserts a place before the member `at`, or at the back if `at` is [`NONE`](crate::NONE). O(1).
///
/// The call requires and returns what `ic_list_insert_before` does.
#[unsafe(no_mangle)]
pub extern "C" fn ic_list32_insert_before(
    table: &mut [RawNarrowTwo],
    list: &mut RawEnds,
    at: u32,
    place: u32,
) -> u32
    ensures { InsertCall narrow_words table.old table.new list.old list.new result Before (place_of at) (place_of place) }
{
    list_calls::insert_at(table, list, GapSide::Before, at, place)
}

/// Removes the member `at`, or returns [`NULL`](crate::NULL) if `at` is [`NONE`](crate::NONE). O(1).
#[unsafe(no_mangle)]
pub extern "C" fn ic_list32_remove(table: &mut [RawNarrowTwo], list: &mut RawEnds, at: u32) -> u32
    ensures { RemoveCall narrow_words table.old table.new list.old list.new result (place_of at) }
{
    list_calls::remove(table, list, at)
}

/// Inserts a place where the member `at` is, and removes `at`, or returns [`NULL`](crate::NULL) if `at` is [`NONE`](crate::NONE). O(1).
///
/// The call requires and returns what `ic_list_replace` does.
#[unsafe(no_mangle)]
pub extern "C" fn ic_list32_replace(
    table: &mut [RawNarrowTwo],
    list: &mut RawEnds,
    at: u32,
    place: u32,
) -> u32
    ensures { ReplaceCall narrow_words table.old table.new list.old list.new result (place_of at) (place_of place) }
{
    list_calls::replace(table, list, at, place)
}

/// Moves all members of `given` after the member `at`, or to the front if `at` is [`NONE`](crate::NONE), and leaves `given` empty. O(1).
///
/// The call requires and returns what `ic_list_splice_after` does.
#[unsafe(no_mangle)]
pub extern "C" fn ic_list32_splice_after(
    table: &mut [RawNarrowTwo],
    list: &mut RawEnds,
    at: u32,
    given: &mut RawEnds,
) -> u32
    ensures { SpliceCall narrow_words table.old table.new list.old list.new result After (place_of at) given.old given.new }
{
    list_calls::splice_at(table, list, at, given, GapSide::After)
}

/// Moves all members of `given` before the member `at`, or to the back if `at` is [`NONE`](crate::NONE), and leaves `given` empty. O(1).
///
/// The call requires and returns what `ic_list_splice_before` does.
#[unsafe(no_mangle)]
pub extern "C" fn ic_list32_splice_before(
    table: &mut [RawNarrowTwo],
    list: &mut RawEnds,
    at: u32,
    given: &mut RawEnds,
) -> u32
    ensures { SpliceCall narrow_words table.old table.new list.old list.new result Before (place_of at) given.old given.new }
{
    list_calls::splice_at(table, list, at, given, GapSide::Before)
}

/// Moves all members of `given` to the back of the list, and leaves `given` empty. O(1).
///
/// The call requires and returns what `ic_list_append` does.
#[unsafe(no_mangle)]
pub extern "C" fn ic_list32_append(
    table: &mut [RawNarrowTwo],
    list: &mut RawEnds,
    given: &mut RawEnds,
) -> u32
    ensures { SpliceCall narrow_words table.old table.new list.old list.new result Before None given.old given.new }
{
    list_calls::splice_at(table, list, NONE, given, GapSide::Before)
}

/// Moves all members after the member `at` to `rest`, or all members of the list if `at` is [`NONE`](crate::NONE). O(1).
///
/// The call requires and returns what `ic_list_split_after` does.
#[unsafe(no_mangle)]
pub extern "C" fn ic_list32_split_after(
    table: &mut [RawNarrowTwo],
    list: &mut RawEnds,
    at: u32,
    rest: &mut RawEnds,
) -> u32
    ensures { SplitCall narrow_words table.old table.new list.old list.new result After (place_of at) rest.old rest.new }
{
    list_calls::split_at(table, list, at, rest, GapSide::After)
}

/// Moves all members before the member `at` to `rest`, or all members of the list if `at` is [`NONE`](crate::NONE). O(1).
///
/// The call requires and returns what `ic_list_split_before` does.
#[unsafe(no_mangle)]
pub extern "C" fn ic_list32_split_before(
    table: &mut [RawNarrowTwo],
    list: &mut RawEnds,
    at: u32,
    rest: &mut RawEnds,
) -> u32
    ensures { SplitCall narrow_words table.old table.new list.old list.new result Before (place_of at) rest.old rest.new }
{
    list_calls::split_at(table, list, at, rest, GapSide::Before)
}

/// Removes and unlinks all members. O(n).
///
/// The call requires and returns what `ic_list_clear` does.
#[unsafe(no_mangle)]
pub extern "C" fn ic_list32_clear(table: &mut [RawNarrowTwo], list: &mut RawEnds) -> u32
    ensures { ClearCall narrow_words table.old table.new list.old list.new result }
{
    list_calls::clear(table, list)
}

/// Moves the member `place` after the member `at`, or to the front if `at` is [`NONE`](crate::NONE), or returns [`NULL`](crate::NULL) if `place` is
/// [`NONE`](crate::NONE). The member stays linked during the call. O(1).
///
/// The call requires and returns what `ic_list_move_after` does.
#[unsafe(no_mangle)]
pub extern "C" fn ic_list32_move_after(
    table: &mut [RawNarrowTwo],
    list: &mut RawEnds,
    at: u32,
    place: u32,
) -> u32
    ensures { MoveCall narrow_words table.old table.new list.old list.new result After (place_of at) (place_of place) }
{
    move_calls::move_at(table, list, GapSide::After, at, place)
}

/// Moves the member `place` before the member `at`, or to the back if `at` is [`NONE`](crate::NONE), or returns [`NULL`](crate::NULL) if `place` is
/// [`NONE`](crate::NONE). The member stays linked during the call. O(1).
///
/// The call requires and returns what `ic_list_move_before` does.
#[unsafe(no_mangle)]
pub extern "C" fn ic_list32_move_before(
    table: &mut [RawNarrowTwo],
    list: &mut RawEnds,
    at: u32,
    place: u32,
) -> u32
    ensures { MoveCall narrow_words table.old table.new list.old list.new result Before (place_of at) (place_of place) }
{
    move_calls::move_at(table, list, GapSide::Before, at, place)
}

/// Moves the member `place` to the front, or returns [`NULL`](crate::NULL) if `place` is [`NONE`](crate::NONE). The member stays linked during the call. O(1).
///
/// The call requires and returns what `ic_list_move_to_front` does.
#[unsafe(no_mangle)]
pub extern "C" fn ic_list32_move_to_front(
    table: &mut [RawNarrowTwo],
    list: &mut RawEnds,
    place: u32,
) -> u32
    ensures { MoveToEndCall narrow_words table.old table.new list.old list.new result After (place_of place) }
{
    move_calls::move_to_end(table, list, GapSide::After, place)
}

/// Moves the member `place` to the back, or returns [`NULL`](crate::NULL) if `place` is [`NONE`](crate::NONE). The member stays linked during the call. O(1).
///
/// The call requires and returns what `ic_list_move_to_back` does.
#[unsafe(no_mangle)]
pub extern "C" fn ic_list32_move_to_back(
    table: &mut [RawNarrowTwo],
    list: &mut RawEnds,
    place: u32,
) -> u32
    ensures { MoveToEndCall narrow_words table.old table.new list.old list.new result Before (place_of place) }
{
    move_calls::move_to_end(table, list, GapSide::Before, place)
}

/// Checks that the words of `table` and `list` represent a doubly linked list, and stores in `members` how many members the list has. If the words represent no
/// list, the call returns [`BROKEN`](crate::BROKEN). O(n).
///
/// The call requires and returns what `ic_list_check` does.
#[unsafe(no_mangle)]
pub extern "C" fn ic_list32_check(
    table: &mut [RawNarrowTwo],
    list: &RawEnds,
    members: &mut u64,
) -> u32
    ensures { CheckCall table.old table.new result (RepresentsList narrow_words table.old list.now) members.old members.new }
{
    check_calls::check_list(table, list, members)
}

/// Moves the member `place` of the list `given` after the member `at` of the list `list`, or to the front of `list` if `at` is [`NONE`](crate::NONE).
/// The member stays linked during the call. O(1).
///
/// The call requires and returns what `ic_list_transfer_after` does.
#[unsafe(no_mangle)]
pub extern "C" fn ic_list32_transfer_after(
    table: &mut [RawNarrowTwo],
    list: &mut RawEnds,
    at: u32,
    given: &mut RawEnds,
    place: u32,
) -> u32
    ensures { TransferCall narrow_words table.old table.new list.old list.new result After (place_of at) given.old given.new (place_of place) }
{
    transfer_calls::transfer_at(table, list, GapSide::After, at, given, place)
}

/// Moves the member `place` of the list `given` before the member `at` of the list `list`, or to the back of `list` if `at` is [`NONE`](crate::NONE).
/// The member stays linked during the call. O(1).
///
/// The call requires and returns what `ic_list_transfer_before` does.
#[unsafe(no_mangle)]
pub extern "C" fn ic_list32_transfer_before(
    table: &mut [RawNarrowTwo],
    list: &mut RawEnds,
    at: u32,
    given: &mut RawEnds,
    place: u32,
) -> u32
    ensures { TransferCall narrow_words table.old table.new list.old list.new result Before (place_of at) given.old given.new (place_of place) }
{
    transfer_calls::transfer_at(table, list, GapSide::Before, at, given, place)
}
