//! The calls that check whether the words of a table and a collection represent a list, a tree or a hash table, and that count the members.
//!
//! ```text
//! uint64_t members;
//! if (ic_list_check(links, 64, &list, &members) != IC_OK)
//!     return -1; // the words represent no list
//! ```

ghost use Rattle.ic_raw.specs.Doubly as doubly;
ghost use Rattle.ic_raw.specs.Prelude.{wide_words, RepresentsTree};
ghost use Rattle.ic_raw.specs.Singly as singly;
ghost use Rattle.ic_raw.specs.CheckCalls.{CheckCall, HashCheckCall};

use ic_raw::{RawEnds, RawFront, RawOne, RawRoot, RawThree, RawTwo, check_calls};

/// Checks that the words of `table` and `list` represent a doubly linked list, and stores in `members` how many members the list has. If the words represent no
/// list, the call returns [`BROKEN`](crate::BROKEN). O(n).
///
/// The call writes nothing except `members`. If it returns [`OK`](crate::OK), every other call on this list does what the comment of that call says.
#[unsafe(no_mangle)]
pub extern "C" fn ic_list_check(table: &mut [RawTwo], list: &RawEnds, members: &mut u64) -> u32
    ensures { CheckCall table.old table.new result (doubly.RepresentsList wide_words table.old list.now) members.old members.new }
{
    check_calls::check_list(table, list, members)
}

/// Checks that the words of `table` and `list` represent a singly linked list, and stores in `members` how many members the list has. If the words represent no
/// list, the call returns [`BROKEN`](crate::BROKEN). O(n).
///
/// The call writes nothing except `members`. If it returns [`OK`](crate::OK), every other call on this list does what the comment of that call says.
#[unsafe(no_mangle)]
pub extern "C" fn ic_stack_check(table: &mut [RawOne], list: &RawFront, members: &mut u64) -> u32
    ensures { CheckCall table.old table.new result (singly.RepresentsList table.old list.now) members.old members.new }
{
    check_calls::check_stack(table, list, members)
}

/// Checks that the words of `table` and `tree` represent a red-black tree, and stores in `members` how many members the tree has. If the words represent no
/// tree, the call returns [`BROKEN`](crate::BROKEN). O(n).
///
/// The call writes nothing except `members`, and requires no keys. If it returns [`OK`](crate::OK), every other call on this tree does what the
/// comment of that call says.
#[unsafe(no_mangle)]
pub extern "C" fn ic_tree_check(table: &mut [RawThree], tree: &RawRoot, members: &mut u64) -> u32
    ensures { CheckCall table.old table.new result (RepresentsTree table.old tree.now) members.old members.new }
{
    check_calls::check_tree(table, tree, members)
}

/// Checks that the words of `table` and `buckets` represent a hash table, and stores in `members` how many members the hash table has. If a chain has no end,
/// or if a member is not in the bucket to which its hash leads, the call returns [`BROKEN`](crate::BROKEN). O(b + n) for b buckets and n places.
///
/// The call writes nothing except `members`. There must be a hash for each place of the table, and at least one bucket. If it returns
/// [`OK`](crate::OK), no place is in two chains, and every other call on a chain does what the comment of that call says.
#[unsafe(no_mangle)]
pub extern "C" fn ic_hash_check(
    table: &mut [RawOne],
    hashes: &[u64],
    buckets: &[RawFront],
    members: &mut u64,
) -> u32
    ensures { HashCheckCall hashes.now table.old table.new result members.old members.new buckets.now }
{
    check_calls::check_hash(table, hashes, buckets, members)
}
