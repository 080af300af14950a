//! A sort and a merge of singly linked lists, by keys in a separate array with one key for each place.
//!
//! ```text
//! uint64_t keys[64] = {0};
//! struct ic_link1 links[64] = {0};
//! struct ic_stack list = {0}, late = {0};
//! ic_stack_sort(links, 64, keys, 64, &list);         // IC_OK: members with equal keys keep their order
//! ic_stack_merge(links, 64, keys, 64, &list, &late); // IC_OK: of those with equal keys, the ones of `list` go first
//! ```

ghost use Rattle.ic_link_ops.specs.SinglyLinkedList.{list_from};
ghost use Rattle.std.specs.Prelude.{None};
ghost use Rattle.ic_raw.specs.Singly.{Represents, list_of};
ghost use Rattle.ic_raw.specs.SortCalls.{MergeCall, SortCall};
ghost use Rattle.ic_raw.specs.Words.{no_word};
ghost use Rattle.ic_raw_lists.specs.Stacks.{word_of};

use ic_raw::{RawFront, RawOne};
use ic_raw_lists::stack_sort_calls;

/// Sorts the list by the keys of its members. Members with equal keys keep their order. O(n log n). The call uses no memory except the stack.
///
/// There must be a key for each place of the table. If the words do not represent a list, the call returns [`BROKEN`](crate::BROKEN).
#[unsafe(no_mangle)]
pub extern "C" fn ic_stack_sort(table: &mut [RawOne], keys: &[u64], list: &mut RawFront) -> u32
    ensures { SortCall Represents no_word list_of word_of (list_from None) keys.now table.old table.new list.old list.new result }
{
    stack_sort_calls::sort(table, keys, list)
}

/// Merges the members of `given` into the list `list` by their keys, and leaves `given` empty. O(n).
///
/// If both lists were sorted, the result is sorted, and among members with equal keys the members of `list` come first. There must be a key for each place of
/// the table. If the words do not represent two lists, or if the two lists share a member, the call returns [`BROKEN`](crate::BROKEN).
#[unsafe(no_mangle)]
pub extern "C" fn ic_stack_merge(
    table: &mut [RawOne],
    keys: &[u64],
    list: &mut RawFront,
    given: &mut RawFront,
) -> u32
    ensures { MergeCall Represents no_word list_of word_of (list_from None) keys.now table.old table.new list.old list.new result given.old given.new }
{
    stack_sort_calls::merge(table, keys, list, given)
}
