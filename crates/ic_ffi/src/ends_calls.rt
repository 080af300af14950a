//! The calls of red-black trees that keep their first and their last member, in two words beside the word of the tree.
//!
//! ```text
//! struct ic_link3 links[64] = {0};
//! struct ic_tree tree = {0};
//! struct ic_tree_ends ends = {0};
//! uint64_t keys[64] = {0};
//! uint32_t first;
//! keys[7] = 30;
//! ic_tree_ends_insert(links, 64, keys, 64, &tree, &ends, 7);   // IC_OK: ends.first and ends.last lead to it
//! ic_tree_ends_pop_first(links, 64, &tree, &ends, &first);     // IC_OK, and first is 7
//! ```

ghost use Rattle.ic_link_ops.specs.declared.side.Side.TheVariants.{Left, Right};
ghost use Rattle.ic_raw.specs.Words.{place_of};
ghost use Rattle.ic_raw_keyed.specs.EndsCalls.{InsertCall, PopFirstCall, PutCall, RemoveCall, ReplaceCall};

use ic_link_ops::Side;
use ic_raw::{RawRoot, RawThree};
use ic_raw_keyed::{RawTreeEnds, ends_calls};

/// Inserts a place by its key, after all members whose key is not greater. O(log n).
///
/// The place must belong to the table and must not be linked, and there must be a key for each place of the table.
#[unsafe(no_mangle)]
pub extern "C" fn ic_tree_ends_insert(
    table: &mut [RawThree],
    keys: &[u64],
    tree: &mut RawRoot,
    ends: &mut RawTreeEnds,
    place: u32,
) -> u32
    ensures { PutCall keys.now table.old table.new tree.old tree.new ends.old ends.new result (place_of place) }
{
    ends_calls::insert(table, keys, tree, ends, place)
}

/// Inserts a place as the left child of the member `at`, or as the only member if `at` is [`NONE`](crate::NONE). O(log n).
///
/// The place must belong to the table and must not be linked. If the member already has a left child, or if `at` is [`NONE`](crate::NONE) and the tree
/// has members, the call returns [`BROKEN`](crate::BROKEN).
#[unsafe(no_mangle)]
pub extern "C" fn ic_tree_ends_insert_left(
    table: &mut [RawThree],
    tree: &mut RawRoot,
    ends: &mut RawTreeEnds,
    at: u32,
    place: u32,
) -> u32
    ensures { InsertCall table.old table.new tree.old tree.new ends.old ends.new result Left (place_of at) (place_of place) }
{
    ends_calls::insert_at(table, tree, ends, Side::Left, at, place)
}

/// Inserts a place as the right child of the member `at`, or as the only member if `at` is [`NONE`](crate::NONE). O(log n).
///
/// The place must belong to the table and must not be linked. If the member already has a right child, or if `at` is [`NONE`](crate::NONE) and the tree
/// has members, the call returns [`BROKEN`](crate::BROKEN).
#[unsafe(no_mangle)]
pub extern "C" fn ic_tree_ends_insert_right(
    table: &mut [RawThree],
    tree: &mut RawRoot,
    ends: &mut RawTreeEnds,
    at: u32,
    place: u32,
) -> u32
    ensures { InsertCall table.old table.new tree.old tree.new ends.old ends.new result Right (place_of at) (place_of place) }
{
    ends_calls::insert_at(table, tree, ends, Side::Right, at, place)
}

/// Removes the member `at`, or returns [`NULL`](crate::NULL) if `at` is [`NONE`](crate::NONE). O(log n).
#[unsafe(no_mangle)]
pub extern "C" fn ic_tree_ends_remove(
    table: &mut [RawThree],
    tree: &mut RawRoot,
    ends: &mut RawTreeEnds,
    at: u32,
) -> u32
    ensures { RemoveCall table.old table.new tree.old tree.new ends.old ends.new result (place_of at) }
{
    ends_calls::remove(table, tree, ends, at)
}

/// Removes the member `at`, and inserts a place where it was, or returns [`NULL`](crate::NULL) if `at` is [`NONE`](crate::NONE). O(1).
///
/// The place must belong to the table and must not be linked.
#[unsafe(no_mangle)]
pub extern "C" fn ic_tree_ends_replace(
    table: &mut [RawThree],
    tree: &mut RawRoot,
    ends: &mut RawTreeEnds,
    at: u32,
    place: u32,
) -> u32
    ensures { ReplaceCall table.old table.new tree.old tree.new ends.old ends.new result (place_of at) (place_of place) }
{
    ends_calls::replace(table, tree, ends, at, place)
}

/// Removes the first member and stores its number in `popped`, or returns [`NULL`](crate::NULL) if the word of the first member names no place.
/// O(log n).
#[unsafe(no_mangle)]
pub extern "C" fn ic_tree_ends_pop_first(
    table: &mut [RawThree],
    tree: &mut RawRoot,
    ends: &mut RawTreeEnds,
    popped: &mut u32,
) -> u32
    ensures { PopFirstCall table.old table.new tree.old tree.new ends.old ends.new result popped.old popped.new }
{
    ends_calls::pop_first(table, tree, ends, popped)
}
