//! The calls that link a run of places at once.
//!
//! ```text
//! struct ic_link2 links[64] = {0};
//! struct ic_list vacant = {0};
//! ic_list_fill(links, 64, &vacant, 0, 64); // IC_OK: 0, 1, .., 63
//! ```

ghost use Rattle.ic_raw.specs.LinkWords.{wide_words};
ghost use Rattle.ic_raw.specs.ListCalls as lists;
ghost use Rattle.ic_raw.specs.StackCalls as stacks;
ghost use Rattle.ic_raw.specs.XorCalls as xor_lists;

use ic_raw::{RawEnds, RawFront, RawOne, RawTwo, fill_calls};

/// Inserts the `count` places `first`, `first + 1` and so on at the back, in this order. O(count).
///
/// Each of these places must belong to the table and must not be linked. If the last member does not belong to the table, the call returns
/// [`BROKEN`](crate::BROKEN). If `count` is 0, nothing changes.
#[unsafe(no_mangle)]
pub extern "C" fn ic_list_fill(
    table: &mut [RawTwo],
    list: &mut RawEnds,
    first: u32,
    count: u32,
) -> u32
    ensures { lists.FillCall wide_words table.old table.new list.old list.new result first count }
{
    fill_calls::fill_list(table, list, first, count)
}

/// Inserts the `count` places `first`, `first + 1` and so on at the front, in this order. O(count).
///
/// Each of these places must belong to the table and must not be linked. If the first member is not linked, the call returns [`BROKEN`](crate::BROKEN).
/// If `count` is 0, nothing changes.
#[unsafe(no_mangle)]
pub extern "C" fn ic_stack_fill(
    table: &mut [RawOne],
    list: &mut RawFront,
    first: u32,
    count: u32,
) -> u32
    ensures { stacks.FillCall table.old table.new list.old list.new result first count }
{
    fill_calls::fill_stack(table, list, first, count)
}

/// Inserts the `count` places `first`, `first + 1` and so on at the back, in this order. O(count).
///
/// Each of these places must belong to the table and must not be linked. If the last member does not belong to the table, the call returns
/// [`BROKEN`](crate::BROKEN). If `count` is 0, nothing changes.
#[unsafe(no_mangle)]
pub extern "C" fn ic_xor_fill(
    table: &mut [RawOne],
    list: &mut RawEnds,
    first: u32,
    count: u32,
) -> u32
    ensures { xor_lists.FillCall table.old table.new list.old list.new result first count }
{
    fill_calls::fill_xor_list(table, list, first, count)
}
