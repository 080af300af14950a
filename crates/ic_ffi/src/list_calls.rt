//! The calls of doubly linked lists.
//!
//! ```text
//! struct ic_link2 links[64] = {0};
//! struct ic_list list = {0};
//! uint32_t first;
//! ic_list_push_back(links, 64, &list, 7);      // IC_OK
//! ic_list_pop_front(links, 64, &list, &first); // IC_OK, and first is 7
//! ```

ghost use Rattle.std.specs.Prelude.{None};
ghost use Rattle.ic_raw.specs.declared.gap.GapSide.TheVariants.{After, Before};
ghost use Rattle.ic_raw.specs.Prelude.{wide_words, place_of};
ghost use Rattle.ic_raw.specs.ListCalls.{ClearCall, InsertCall, PopCall, RemoveCall, ReplaceCall, SpliceCall, SplitCall};

use ic_raw::{GapSide, NONE, RawEnds, RawTwo, list_calls};

/// Inserts a place at the front. O(1).
///
/// The place must belong to the table and must not be linked.
#[unsafe(no_mangle)]
pub extern "C" fn ic_list_push_front(table: &mut [RawTwo], list: &mut RawEnds, place: u32) -> u32
    ensures { InsertCall wide_words table.old table.new list.old list.new result After None (place_of place) }
{
    list_calls::insert_at(table, list, GapSide::After, NONE, place)
}

/// Inserts a place at the back. O(1).
///
/// The place must belong to the table and must not be linked.
#[unsafe(no_mangle)]
pub extern "C" fn ic_list_push_back(table: &mut [RawTwo], list: &mut RawEnds, place: u32) -> u32
    ensures { InsertCall wide_words table.old table.new list.old list.new result Before None (place_of place) }
{
    list_calls::push_back(table, list, place)
}

/// Removes the first member and stores its number in `popped`, or returns [`NULL`](crate::NULL) if there is none. O(1).
#[unsafe(no_mangle)]
pub extern "C" fn ic_list_pop_front(
    table: &mut [RawTwo],
    list: &mut RawEnds,
    popped: &mut u32,
) -> u32
    ensures { PopCall wide_words table.old table.new list.old list.new result After popped.old popped.new }
{
    list_calls::pop_front(table, list, popped)
}

/// Removes the last member and stores its number in `popped`, or returns [`NULL`](crate::NULL) if there is none. O(1).
#[unsafe(no_mangle)]
pub extern "C" fn ic_list_pop_back(
    table: &mut [RawTwo],
    list: &mut RawEnds,
    popped: &mut u32,
) -> u32
    ensures { PopCall wide_words table.old table.new list.old list.new result Before popped.old popped.new }
{
    list_calls::pop(table, list, GapSide::Before, popped)
}

/// Inserts a place after the member `at`, or at the front if `at` is [`NONE`](crate::NONE). O(1).
///
/// The place must belong to the table and must not be linked.
#[unsafe(no_mangle)]
pub extern "C" fn ic_list_insert_after(
    table: &mut [RawTwo],
    list: &mut RawEnds,
    at: u32,
    place: u32,
) -> u32
    ensures { InsertCall wide_words table.old table.new list.old list.new result After (place_of at) (place_of place) }
{
    list_calls::insert_at(table, list, GapSide::After, at, place)
}

/// Inserts a place before the member `at`, or at the back if `at` is [`NONE`](crate::NONE). O(1).
///
/// The place must belong to the table and must not be linked.
#[unsafe(no_mangle)]
pub extern "C" fn ic_list_insert_before(
    table: &mut [RawTwo],
    list: &mut RawEnds,
    at: u32,
    place: u32,
) -> u32
    ensures { InsertCall wide_words table.old table.new list.old list.new result Before (place_of at) (place_of place) }
{
    list_calls::insert_at(table, list, GapSide::Before, at, place)
}

/// Removes the member `at`, or returns [`NULL`](crate::NULL) if `at` is [`NONE`](crate::NONE). O(1).
#[unsafe(no_mangle)]
pub extern "C" fn ic_list_remove(table: &mut [RawTwo], list: &mut RawEnds, at: u32) -> u32
    ensures { RemoveCall wide_words table.old table.new list.old list.new result (place_of at) }
{
    list_calls::remove(table, list, at)
}

/// Inserts a place where the member `at` is, and removes `at`, or returns [`NULL`](crate::NULL) if `at` is [`NONE`](crate::NONE). O(1).
///
/// The place must belong to the table and must not be linked.
#[unsafe(no_mangle)]
pub extern "C" fn ic_list_replace(
    table: &mut [RawTwo],
    list: &mut RawEnds,
    at: u32,
    place: u32,
) -> u32
    ensures { ReplaceCall wide_words table.old table.new list.old list.new result (place_of at) (place_of place) }
{
    list_calls::replace(table, list, at, place)
}

/// Moves all members of `given` after the member `at`, or to the front if `at` is [`NONE`](crate::NONE), and leaves `given` empty. O(1).
///
/// If both lists begin with the same member, for example because `given` is the list itself, the call returns [`BROKEN`](crate::BROKEN).
#[unsafe(no_mangle)]
pub extern "C" fn ic_list_splice_after(
    table: &mut [RawTwo],
    list: &mut RawEnds,
    at: u32,
    given: &mut RawEnds,
) -> u32
    ensures { SpliceCall wide_words table.old table.new list.old list.new result After (place_of at) given.old given.new }
{
    list_calls::splice_at(table, list, at, given, GapSide::After)
}

/// Moves all members of `given` before the member `at`, or to the back if `at` is [`NONE`](crate::NONE), and leaves `given` empty. O(1).
///
/// If both lists begin with the same member, for example because `given` is the list itself, the call returns [`BROKEN`](crate::BROKEN).
#[unsafe(no_mangle)]
pub extern "C" fn ic_list_splice_before(
    table: &mut [RawTwo],
    list: &mut RawEnds,
    at: u32,
    given: &mut RawEnds,
) -> u32
    ensures { SpliceCall wide_words table.old table.new list.old list.new result Before (place_of at) given.old given.new }
{
    list_calls::splice_at(table, list, at, given, GapSide::Before)
}

/// Moves all members of `given` to the back of the list, and leaves `given` empty. O(1).
///
/// If both lists begin with the same member, for example because `given` is the list itself, the call returns [`BROKEN`](crate::BROKEN).
#[unsafe(no_mangle)]
pub extern "C" fn ic_list_append(
    table: &mut [RawTwo],
    list: &mut RawEnds,
    given: &mut RawEnds,
) -> u32
    ensures { SpliceCall wide_words table.old table.new list.old list.new result Before None given.old given.new }
{
    list_calls::splice_at(table, list, NONE, given, GapSide::Before)
}

/// Moves all members after the member `at` to `rest`, or all members of the list if `at` is [`NONE`](crate::NONE). O(1).
///
/// If `rest` is not empty, the call returns [`BROKEN`](crate::BROKEN).
#[unsafe(no_mangle)]
pub extern "C" fn ic_list_split_after(
    table: &mut [RawTwo],
    list: &mut RawEnds,
    at: u32,
    rest: &mut RawEnds,
) -> u32
    ensures { SplitCall wide_words table.old table.new list.old list.new result After (place_of at) rest.old rest.new }
{
    list_calls::split_at(table, list, at, rest, GapSide::After)
}

/// Moves all members before the member `at` to `rest`, or all members of the list if `at` is [`NONE`](crate::NONE). O(1).
///
/// If `rest` is not empty, the call returns [`BROKEN`](crate::BROKEN).
#[unsafe(no_mangle)]
pub extern "C" fn ic_list_split_before(
    table: &mut [RawTwo],
    list: &mut RawEnds,
    at: u32,
    rest: &mut RawEnds,
) -> u32
    ensures { SplitCall wide_words table.old table.new list.old list.new result Before (place_of at) rest.old rest.new }
{
    list_calls::split_at(table, list, at, rest, GapSide::Before)
}

/// Removes and unlinks all members. O(n).
///
/// If the links do not lead from the first member to the last, and back, the call returns [`BROKEN`](crate::BROKEN).
#[unsafe(no_mangle)]
pub extern "C" fn ic_list_clear(table: &mut [RawTwo], list: &mut RawEnds) -> u32
    ensures { ClearCall wide_words table.old table.new list.old list.new result }
{
    list_calls::clear(table, list)
}
