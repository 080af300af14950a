//! The calls of XOR linked lists.
//!
//! ```text
//! struct ic_link1 links[64] = {0};
//! struct ic_xor_list list = {0};
//! ic_xor_push_back(links, 64, &list, 7);           // IC_OK
//! ic_xor_push_back(links, 64, &list, 9);           // IC_OK
//! ic_xor_insert_between(links, 64, &list, 7, 8, 9); // IC_OK: 7, 8, 9
//! ```

ghost use Rattle.std.specs.Prelude.{◌≡◌, List, reverse, None};
ghost use Rattle.ic_link_ops.specs.Prelude.{Place, Table};
ghost use Rattle.ic_raw.specs.declared.gap.GapSide.TheVariants.{After, Before};
ghost use Rattle.ic_raw.specs.declared.status.TheConstants.{OK};
ghost use Rattle.ic_raw.specs.declared.words.RawOne.{RawOne};
ghost use Rattle.ic_raw.specs.Prelude.{place_of, ends_of};
ghost use Rattle.ic_raw.specs.Xor.{Represents};
ghost use Rattle.ic_raw.specs.XorCalls.{AppendCall, ClearCall, InsertCall, PopCall, PushCall, RemoveCall, ReplaceCall, SpliceCall, SplitCall};

use ic_raw::{RawEnds, RawOne, xor_calls};

/// Inserts a place at the front. O(1).
///
/// The place must belong to the table and must not be linked. If the first member does not belong to the table, the call returns
/// [`BROKEN`](crate::BROKEN).
#[unsafe(no_mangle)]
pub extern "C" fn ic_xor_push_front(table: &mut [RawOne], list: &mut RawEnds, place: u32) -> u32
    ensures { PushCall table.old table.new list.old list.new result None (ends_of list.old).head (place_of place) }
{
    xor_calls::push_front(table, list, place)
}

/// Inserts a place at the back. O(1).
///
/// The place must belong to the table and must not be linked. If the last member does not belong to the table, the call returns
/// [`BROKEN`](crate::BROKEN).
#[unsafe(no_mangle)]
pub extern "C" fn ic_xor_push_back(table: &mut [RawOne], list: &mut RawEnds, place: u32) -> u32
    ensures { PushCall table.old table.new list.old list.new result (ends_of list.old).tail None (place_of place) }
{
    xor_calls::push_back(table, list, place)
}

/// Removes the first member and stores its number in `popped`, or returns [`NULL`](crate::NULL) if there is none. O(1).
///
/// If the links of the neighbors do not lead back to the member, the call returns [`BROKEN`](crate::BROKEN).
#[unsafe(no_mangle)]
pub extern "C" fn ic_xor_pop_front(
    table: &mut [RawOne],
    list: &mut RawEnds,
    popped: &mut u32,
) -> u32
    ensures { PopCall table.old table.new list.old list.new result After popped.old popped.new }
{
    xor_calls::pop_front(table, list, popped)
}

/// Removes the last member and stores its number in `popped`, or returns [`NULL`](crate::NULL) if there is none. O(1).
///
/// If the links of the neighbors do not lead back to the member, the call returns [`BROKEN`](crate::BROKEN).
#[unsafe(no_mangle)]
pub extern "C" fn ic_xor_pop_back(table: &mut [RawOne], list: &mut RawEnds, popped: &mut u32) -> u32
    ensures { PopCall table.old table.new list.old list.new result Before popped.old popped.new }
{
    xor_calls::pop_back(table, list, popped)
}

/// Inserts a place between the neighbors `before` and `after`. At an end of the list, the argument for the missing neighbor is [`NONE`](crate::NONE). O(1).
///
/// The place must belong to the table and must not be linked. If the links do not make `before` and `after` neighbors, the call returns
/// [`BROKEN`](crate::BROKEN).
#[unsafe(no_mangle)]
pub extern "C" fn ic_xor_insert_between(
    table: &mut [RawOne],
    list: &mut RawEnds,
    before: u32,
    place: u32,
    after: u32,
) -> u32
    ensures { InsertCall table.old table.new list.old list.new result (place_of before) (place_of after) (place_of place) }
{
    xor_calls::insert_between(table, list, before, place, after)
}

/// Removes the member `at`, whose previous member is `before`, or returns [`NULL`](crate::NULL) if `at` is [`NONE`](crate::NONE). O(1).
///
/// If the links of the neighbors do not lead back to the member, the call returns [`BROKEN`](crate::BROKEN).
#[unsafe(no_mangle)]
pub extern "C" fn ic_xor_remove(
    table: &mut [RawOne],
    list: &mut RawEnds,
    before: u32,
    at: u32,
) -> u32
    ensures { RemoveCall table.old table.new list.old list.new result (place_of before) (place_of at) }
{
    xor_calls::remove(table, list, before, at)
}

/// Inserts a place where the member `at` is, whose previous member is `before`. The call removes `at`, or returns [`NULL`](crate::NULL) if `at` is
/// [`NONE`](crate::NONE). O(1).
///
/// The place must belong to the table and must not be linked. If the links of the neighbors do not lead back to the member, the call returns
/// [`BROKEN`](crate::BROKEN).
#[unsafe(no_mangle)]
pub extern "C" fn ic_xor_replace(
    table: &mut [RawOne],
    list: &mut RawEnds,
    before: u32,
    at: u32,
    place: u32,
) -> u32
    ensures { ReplaceCall table.old table.new list.old list.new result (place_of before) (place_of at) (place_of place) }
{
    xor_calls::replace(table, list, before, at, place)
}

/// Moves all members of `given` between the neighbors `before` and `after`, and leaves `given` empty. O(1).
///
/// The call returns [`BROKEN`](crate::BROKEN) if the links do not make `before` and `after` neighbors. The call also returns [`BROKEN`](crate::BROKEN) if the
/// ends of `given` are not the ends of a list, or if both lists begin with the same member.
#[unsafe(no_mangle)]
pub extern "C" fn ic_xor_splice_between(
    table: &mut [RawOne],
    list: &mut RawEnds,
    before: u32,
    given: &mut RawEnds,
    after: u32,
) -> u32
    ensures { SpliceCall table.old table.new list.old list.new result (place_of before) (place_of after) given.old given.new }
{
    xor_calls::splice_between(table, list, before, given, after)
}

/// Moves all members of `given` to the back of the list, and leaves `given` empty. O(1).
///
/// The call returns [`BROKEN`](crate::BROKEN) if both lists begin with the same member, for example because `given` is the list itself. The call also returns
/// [`BROKEN`](crate::BROKEN) if an end of one of the lists does not belong to the table.
#[unsafe(no_mangle)]
pub extern "C" fn ic_xor_append(
    table: &mut [RawOne],
    list: &mut RawEnds,
    given: &mut RawEnds,
) -> u32
    ensures { AppendCall table.old table.new list.old list.new result given.old given.new }
{
    xor_calls::append(table, list, given)
}

/// Cuts the list between the neighbors `before` and `after`, and moves the members from `after` on to `rest`. O(1).
///
/// If the links do not make `before` and `after` neighbors, or if `rest` is not empty, the call returns [`BROKEN`](crate::BROKEN).
#[unsafe(no_mangle)]
pub extern "C" fn ic_xor_split_between(
    table: &mut [RawOne],
    list: &mut RawEnds,
    before: u32,
    after: u32,
    rest: &mut RawEnds,
) -> u32
    ensures { SplitCall table.old table.new list.old list.new result (place_of before) (place_of after) rest.old rest.new }
{
    xor_calls::split_between(table, list, before, after, rest)
}

/// Removes and unlinks all members. O(n).
///
/// If the links do not lead from the first member to the last, the call returns [`BROKEN`](crate::BROKEN).
#[unsafe(no_mangle)]
pub extern "C" fn ic_xor_clear(table: &mut [RawOne], list: &mut RawEnds) -> u32
    ensures { ClearCall table.old table.new list.old list.new result }
{
    xor_calls::clear(table, list)
}

/// Reverses the list. O(1), because the call reads no entry of the table. The call always returns [`OK`](crate::OK).
#[unsafe(no_mangle)]
pub extern "C" fn ic_xor_reverse(list: &mut RawEnds) -> u32
    ensures ok { result ≡ OK }
    ensures reversed { (t : Table RawOne) (s : List Place) → Represents t (ends_of list.old) s → Represents t (ends_of list.new) (reverse s) }
    ensures words { list.new ≡ record { head = list.old.tail; tail = list.old.head } }
{
    xor_calls::reverse(list)
}
