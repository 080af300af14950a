//! The calls of trees whose members have sums. The sums are in an array that the caller owns. Some calls edit the tree and keep the sums right. Other calls
//! find the member at a position, the position of a member, the sum of the members before a member, and intervals that overlap.
//!
//! ```text
//! struct ic_sum counts[64] = {0};                                             // each value is 1
//! ic_tree_sums_renew(links, 64, counts, 64, IC_SUM, IC_NONE);                 // IC_OK: all sums are right
//! ic_tree_sums_insert(links, 64, keys, 64, counts, 64, IC_SUM, &tree, 7);     // IC_OK: and they still are
//! ic_tree_sums_find(links, 64, counts, 64, IC_SUM, &tree, IC_NONE, 3, &found); // IC_OK: the member at position 3
//! ic_tree_sums_before(links, 64, counts, 64, IC_SUM, 7, &sum);                // IC_OK: how many members are before 7
//! ```

ghost use Rattle.ic_link_ops.specs.declared.side.Side.TheVariants.{Left, Right};
ghost use Rattle.ic_raw.specs.Words.{place_of};
ghost use Rattle.ic_raw_augmented.specs.EditCalls.{SumsInsertCall, SumsPutCall, SumsRemoveCall};
ghost use Rattle.ic_raw_augmented.specs.SumCalls.{BeforeCall, FindCall, OverlapCall, RenewCall};
ghost use Rattle.ic_raw_augmented.specs.Sums.{kind_of};

use ic_link_ops::Side;
use ic_raw::{RawRoot, RawThree};
use ic_raw_augmented::{Kind, RawSum, edit_calls, sum_calls};

/// Inserts a place by its key, after all members whose key is not greater, and updates the sums that the edit changes. O(log n).
///
/// The place must belong to the table and must not be linked, and there must be a key and a sum for each place of the table.
#[unsafe(no_mangle)]
pub extern "C" fn ic_tree_sums_insert(
    table: &mut [RawThree],
    keys: &[u64],
    sums: &mut [RawSum],
    kind: u32,
    tree: &mut RawRoot,
    place: u32,
) -> u32
    ensures { SumsPutCall (kind_of kind) keys.now sums.old sums.new table.old table.new result tree.old tree.new (place_of place) }
{
    edit_calls::insert(table, keys, sums, Kind::of(kind), tree, place)
}

/// Inserts a place as the left child of the member `at`, and updates the sums that the edit changes. If `at` is [`NONE`](crate::NONE), the place becomes the
/// only member. O(log n).
///
/// The place must belong to the table and must not be linked, and there must be a sum for each place of the table.
#[unsafe(no_mangle)]
pub extern "C" fn ic_tree_sums_insert_left(
    table: &mut [RawThree],
    sums: &mut [RawSum],
    kind: u32,
    tree: &mut RawRoot,
    at: u32,
    place: u32,
) -> u32
    ensures { SumsInsertCall (kind_of kind) sums.old sums.new table.old table.new tree.old tree.new result Left (place_of at) (place_of place) }
{
    edit_calls::insert_at(table, sums, Kind::of(kind), tree, Side::Left, at, place)
}

/// Inserts a place as the right child of the member `at`, and updates the sums that the edit changes. If `at` is [`NONE`](crate::NONE), the place becomes the
/// only member. O(log n).
///
/// The place must belong to the table and must not be linked, and there must be a sum for each place of the table.
#[unsafe(no_mangle)]
pub extern "C" fn ic_tree_sums_insert_right(
    table: &mut [RawThree],
    sums: &mut [RawSum],
    kind: u32,
    tree: &mut RawRoot,
    at: u32,
    place: u32,
) -> u32
    ensures { SumsInsertCall (kind_of kind) sums.old sums.new table.old table.new tree.old tree.new result Right (place_of at) (place_of place) }
{
    edit_calls::insert_at(table, sums, Kind::of(kind), tree, Side::Right, at, place)
}

/// Removes the member `at`, and updates the sums that the edit changes, or returns [`NULL`](crate::NULL) if `at` is [`NONE`](crate::NONE). O(log n).
///
/// There must be a sum for each place of the table.
#[unsafe(no_mangle)]
pub extern "C" fn ic_tree_sums_remove(
    table: &mut [RawThree],
    sums: &mut [RawSum],
    kind: u32,
    tree: &mut RawRoot,
    at: u32,
) -> u32
    ensures { SumsRemoveCall (kind_of kind) sums.old sums.new table.old table.new tree.old tree.new result (place_of at) }
{
    edit_calls::remove(table, sums, Kind::of(kind), tree, at)
}

/// Computes the sum at the member `at` and the sums at the members above `at` again, after the value of `at` has changed. If `at` is
/// [`NONE`](crate::NONE), the call computes all sums of the table. O(log n), and O(p log p) if all sums of p places are computed.
///
/// There must be a sum for each place of the table.
#[unsafe(no_mangle)]
pub extern "C" fn ic_tree_sums_renew(
    table: &mut [RawThree],
    sums: &mut [RawSum],
    kind: u32,
    at: u32,
) -> u32
    ensures { RenewCall (kind_of kind) sums.old sums.new table.old table.new result (place_of at) }
{
    sum_calls::renew(table, sums, Kind::of(kind), at)
}

/// Finds the first member after `at` at which the combined values exceed `bound`, and stores its number in `found`. These are the values of the members after
/// `at` up to and including the found one. If `at` is [`NONE`](crate::NONE), the search and the values begin at the first member. The call returns
/// [`NULL`](crate::NULL) if no member is found. The call writes nothing except `found`. O(log n).
///
/// There must be a sum for each place of the table. If the sums of the tree are not right, the call may find another member, or return
/// [`BROKEN`](crate::BROKEN).
#[unsafe(no_mangle)]
pub extern "C" fn ic_tree_sums_find(
    table: &mut [RawThree],
    sums: &[RawSum],
    kind: u32,
    tree: &RawRoot,
    at: u32,
    bound: u64,
    found: &mut u32,
) -> u32
    ensures { FindCall (kind_of kind) sums.now table.old table.new result tree.now (place_of at) bound found.old found.new }
{
    sum_calls::find(table, sums, Kind::of(kind), tree, at, bound, found)
}

/// Stores in `sum` the combined values of all members before `at`, or returns [`NULL`](crate::NULL) if `at` is [`NONE`](crate::NONE). The call writes
/// nothing except `sum`. O(log n).
///
/// There must be a sum for each place of the table. If the links lead from the member to no root, the call returns [`BROKEN`](crate::BROKEN).
#[unsafe(no_mangle)]
pub extern "C" fn ic_tree_sums_before(
    table: &mut [RawThree],
    sums: &[RawSum],
    kind: u32,
    at: u32,
    sum: &mut u64,
) -> u32
    ensures { BeforeCall (kind_of kind) sums.now table.old table.new result (place_of at) sum.old sum.new }
{
    sum_calls::before(table, sums, Kind::of(kind), at, sum)
}

/// Stores in `found` the number of the first member after `at` whose interval overlaps `[from, to)`, or returns [`NULL`](crate::NULL) if no such member
/// exists. If `at` is [`NONE`](crate::NONE), the search begins at the first member. The interval of a member goes from its key up to its value, and
/// does not contain the value. The call writes nothing except `found`. O(log n).
///
/// There must be a key and a sum for each place of the table. The sums must be of the kind [`Kind::Greatest`], and the keys must not decrease from one
/// member to the next.
#[unsafe(no_mangle)]
pub extern "C" fn ic_tree_sums_overlap(
    table: &mut [RawThree],
    keys: &[u64],
    sums: &[RawSum],
    tree: &RawRoot,
    at: u32,
    from: u64,
    to: u64,
    found: &mut u32,
) -> u32
    ensures { OverlapCall keys.now sums.now table.old table.new result tree.now (place_of at) from to found.old found.new }
{
    sum_calls::overlap(table, keys, sums, tree, at, from, to, found)
}
