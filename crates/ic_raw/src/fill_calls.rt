//! Each call of this module links a run of places with consecutive numbers at once.
//!
//! ```text
//! fill_list(table, &mut vacant, 0, 64) // OK: 0, 1, .., 63
//! ```

ghost use Rattle.ic_raw.specs.LinkWords.{wide_words};
ghost use Rattle.ic_raw.specs.ListCalls as lists;
ghost use Rattle.ic_raw.specs.StackCalls as stacks;
ghost use Rattle.ic_raw.specs.XorCalls as xor_lists;

use crate::fill::{fill, gap_after_last_of_xor};
use crate::gap::GapSide;
use crate::list::gap_at;
use crate::list_calls::{list_of, write_back};
use crate::stack::gap_after;
use crate::stack_calls::{self, stack_of};
use crate::status::OK;
use crate::table::RawTable;
use crate::words::{RawEnds, RawFront, RawOne, RawTwo};
use crate::xor_calls;

/// Inserts the `count` places `first`, `first + 1` and so on at the back of the list, in the order of their numbers. O(count).
///
/// Each of these places must belong to the table and must not be linked. If the last member is not linked, the call returns
/// [`BROKEN`](crate::BROKEN). If `count` is 0, nothing changes.
#[inline]
pub fn fill_list(table: &mut [RawTwo], list: &mut RawEnds, first: u32, count: u32) -> u32
    ensures { lists.FillCall wide_words table.old table.new list.old list.new result first count }
{
    if count == 0 {
        return OK;
    }
    let mut links = RawTable::new(table);
    let mut edited = list_of(&*list);
    let gap = gap_at(&links, &edited, GapSide::Before, None);
    let status = fill(&mut links, &mut edited, gap, first, count);
    if status != OK {
        return status;
    }
    write_back(list, edited);
    OK
}

/// Inserts the `count` places `first`, `first + 1` and so on at the front of the list, in the order of their numbers. O(count).
///
/// Each of these places must belong to the table and must not be linked. If the first member of the list is not linked, the call returns
/// [`BROKEN`](crate::BROKEN). If `count` is 0, nothing changes.
#[inline]
pub fn fill_stack(table: &mut [RawOne], list: &mut RawFront, first: u32, count: u32) -> u32
    ensures { stacks.FillCall table.old table.new list.old list.new result first count }
{
    if count == 0 {
        return OK;
    }
    let mut links = RawTable::new(table);
    let mut edited = stack_of(&*list);
    let gap = gap_after(&links, &edited, None);
    let status = fill(&mut links, &mut edited, gap, first, count);
    if status != OK {
        return status;
    }
    stack_calls::write_back(list, edited);
    OK
}

/// Inserts the `count` places `first`, `first + 1` and so on at the back of the list, in the order of their numbers. O(count).
///
/// Each of these places must belong to the table and must not be linked. If the last member is not linked, the call returns
/// [`BROKEN`](crate::BROKEN). If `count` is 0, nothing changes.
#[inline]
pub fn fill_xor_list(table: &mut [RawOne], list: &mut RawEnds, first: u32, count: u32) -> u32
    ensures { xor_lists.FillCall table.old table.new list.old list.new result first count }
{
    if count == 0 {
        return OK;
    }
    let mut links = RawTable::new(table);
    let mut edited = xor_calls::list_of(&*list);
    let gap = gap_after_last_of_xor(&links, &edited);
    let status = fill(&mut links, &mut edited, gap, first, count);
    if status != OK {
        return status;
    }
    xor_calls::write_back(list, edited);
    OK
}
