//! The calls of singly linked lists.
//!
//! ```text
//! struct ic_link1 links[64] = {0};
//! struct ic_stack stack = {0};
//! uint32_t last;
//! ic_stack_push_front(links, 64, &stack, 7);     // IC_OK
//! ic_stack_pop_front(links, 64, &stack, &last);  // IC_OK, and last is 7
//! ```

ghost use Rattle.std.specs.Prelude.{None};
ghost use Rattle.ic_raw.specs.Words.{place_of};
ghost use Rattle.ic_raw.specs.StackCalls.{ClearCall, InsertCall, PopCall, RemoveCall, ReplaceCall, SpliceCall, SplitCall};

use ic_raw::{RawFront, RawOne, stack_calls};

/// Inserts a place at the front. O(1).
///
/// The place must belong to the table and must not be linked. If the first member is not linked, the call returns [`BROKEN`](crate::BROKEN).
#[unsafe(no_mangle)]
pub extern "C" fn ic_stack_push_front(table: &mut [RawOne], list: &mut RawFront, place: u32) -> u32
    ensures { InsertCall table.old table.new list.old list.new result None (place_of place) }
{
    stack_calls::push_front(table, list, place)
}

/// Removes the first member and stores its number in `popped`, or returns [`NULL`](crate::NULL) if there is none. O(1).
///
/// If the first member is not linked, the call returns [`BROKEN`](crate::BROKEN).
#[unsafe(no_mangle)]
pub extern "C" fn ic_stack_pop_front(
    table: &mut [RawOne],
    list: &mut RawFront,
    popped: &mut u32,
) -> u32
    ensures { PopCall table.old table.new list.old list.new result popped.old popped.new }
{
    stack_calls::pop_front(table, list, popped)
}

/// Inserts a place after the member `at`, or at the front if `at` is [`NONE`](crate::NONE). O(1).
///
/// The place must belong to the table and must not be linked. If the place after `at` is not linked, the call returns [`BROKEN`](crate::BROKEN).
#[unsafe(no_mangle)]
pub extern "C" fn ic_stack_insert_after(
    table: &mut [RawOne],
    list: &mut RawFront,
    at: u32,
    place: u32,
) -> u32
    ensures { InsertCall table.old table.new list.old list.new result (place_of at) (place_of place) }
{
    stack_calls::insert_after(table, list, at, place)
}

/// Removes the member after `at`, or the first member if `at` is [`NONE`](crate::NONE), and stores its number in `removed`. If there is no member to remove,
/// the call returns [`NULL`](crate::NULL). O(1).
///
/// If the place after `at` is not linked, the call returns [`BROKEN`](crate::BROKEN).
#[unsafe(no_mangle)]
pub extern "C" fn ic_stack_remove_after(
    table: &mut [RawOne],
    list: &mut RawFront,
    at: u32,
    removed: &mut u32,
) -> u32
    ensures { RemoveCall table.old table.new list.old list.new result (place_of at) removed.old removed.new }
{
    stack_calls::remove_after(table, list, at, removed)
}

/// Inserts a place where the member after `at` is, or where the first member is if `at` is [`NONE`](crate::NONE). The call removes the replaced member
/// and stores its number in `replaced`. The call returns [`NULL`](crate::NULL) if there is no member to replace. O(1).
///
/// The place must belong to the table and must not be linked. If the place after `at` is not linked, the call returns [`BROKEN`](crate::BROKEN).
#[unsafe(no_mangle)]
pub extern "C" fn ic_stack_replace_after(
    table: &mut [RawOne],
    list: &mut RawFront,
    at: u32,
    place: u32,
    replaced: &mut u32,
) -> u32
    ensures { ReplaceCall table.old table.new list.old list.new result (place_of at) (place_of place) replaced.old replaced.new }
{
    stack_calls::replace_after(table, list, at, place, replaced)
}

/// Moves all members of `given` after the member `at`, or to the front if `at` is [`NONE`](crate::NONE), and leaves `given` empty.
///
/// The call reads one entry of the table for each member of `given`. If the place after `at` is not linked, the call returns [`BROKEN`](crate::BROKEN).
/// The call also returns [`BROKEN`](crate::BROKEN) if both lists begin with the same member, for example because `given` is the list itself, or if the
/// links of `given` lead to no end.
#[unsafe(no_mangle)]
pub extern "C" fn ic_stack_splice_after(
    table: &mut [RawOne],
    list: &mut RawFront,
    at: u32,
    given: &mut RawFront,
) -> u32
    ensures { SpliceCall table.old table.new list.old list.new result (place_of at) given.old given.new }
{
    stack_calls::splice_after(table, list, at, given)
}

/// Moves all members after the member `at` to `rest`, or all members of the list if `at` is [`NONE`](crate::NONE). O(1).
///
/// If `rest` is not empty, or the place after `at` is not linked, the call returns [`BROKEN`](crate::BROKEN).
#[unsafe(no_mangle)]
pub extern "C" fn ic_stack_split_after(
    table: &mut [RawOne],
    list: &mut RawFront,
    at: u32,
    rest: &mut RawFront,
) -> u32
    ensures { SplitCall table.old table.new list.old list.new result (place_of at) rest.old rest.new }
{
    stack_calls::split_after(table, list, at, rest)
}

/// Removes and unlinks all members. O(n).
///
/// If the links do not lead to an end of the list, the call returns [`BROKEN`](crate::BROKEN).
#[unsafe(no_mangle)]
pub extern "C" fn ic_stack_clear(table: &mut [RawOne], list: &mut RawFront) -> u32
    ensures { ClearCall table.old table.new list.old list.new result }
{
    stack_calls::clear(table, list)
}
