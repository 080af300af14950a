//! The calls of red-black trees.
//!
//! ```text
//! struct ic_link3 links[64] = {0};
//! struct ic_tree tree = {0};
//! ic_tree_insert_left(links, 64, &tree, IC_NONE, 7); // IC_OK: the only member
//! ic_tree_insert_right(links, 64, &tree, 7, 8);      // IC_OK: after it
//! ic_tree_remove(links, 64, &tree, 7);               // IC_OK
//! ```

ghost use Rattle.ic_link_ops.specs.declared.side.Side.TheVariants.{Left, Right};
ghost use Rattle.ic_raw.specs.Words.{place_of};
ghost use Rattle.ic_raw.specs.TreeCalls.{ClearCall, InsertCall, RemoveCall, ReplaceCall, StepCall};

use ic_link_ops::Side;
use ic_raw::{RawRoot, RawThree, tree_calls};

/// Inserts a place as the left child of the member `at`, or as the only member if `at` is [`NONE`](crate::NONE). O(log n).
///
/// The place must belong to the table and must not be linked. If the member already has a left child, or if `at` is [`NONE`](crate::NONE) and the tree
/// has members, the call returns [`BROKEN`](crate::BROKEN).
#[unsafe(no_mangle)]
pub extern "C" fn ic_tree_insert_left(
    table: &mut [RawThree],
    tree: &mut RawRoot,
    at: u32,
    place: u32,
) -> u32
    ensures { InsertCall table.old table.new tree.old tree.new result Left (place_of at) (place_of place) }
{
    tree_calls::insert_at(table, tree, Side::Left, at, place)
}

/// Inserts a place as the right child of the member `at`, or as the only member if `at` is [`NONE`](crate::NONE). O(log n).
///
/// The place must belong to the table and must not be linked. If the member already has a right child, or if `at` is [`NONE`](crate::NONE) and the tree
/// has members, the call returns [`BROKEN`](crate::BROKEN).
#[unsafe(no_mangle)]
pub extern "C" fn ic_tree_insert_right(
    table: &mut [RawThree],
    tree: &mut RawRoot,
    at: u32,
    place: u32,
) -> u32
    ensures { InsertCall table.old table.new tree.old tree.new result Right (place_of at) (place_of place) }
{
    tree_calls::insert_at(table, tree, Side::Right, at, place)
}

/// Removes the member `at`, or returns [`NULL`](crate::NULL) if `at` is [`NONE`](crate::NONE). O(log n).
#[unsafe(no_mangle)]
pub extern "C" fn ic_tree_remove(table: &mut [RawThree], tree: &mut RawRoot, at: u32) -> u32
    ensures { RemoveCall table.old table.new tree.old tree.new result (place_of at) }
{
    tree_calls::remove(table, tree, at)
}

/// Inserts a place where the member `at` is, and removes `at`, or returns [`NULL`](crate::NULL) if `at` is [`NONE`](crate::NONE). O(1).
///
/// The place must belong to the table and must not be linked.
#[unsafe(no_mangle)]
pub extern "C" fn ic_tree_replace(
    table: &mut [RawThree],
    tree: &mut RawRoot,
    at: u32,
    place: u32,
) -> u32
    ensures { ReplaceCall table.old table.new tree.old tree.new result (place_of at) (place_of place) }
{
    tree_calls::replace(table, tree, at, place)
}

/// Stores in `found` the number of the member after `at`, or of the first member if `at` is [`NONE`](crate::NONE). If there is no such member, the call returns
/// [`NULL`](crate::NULL). The call writes nothing except `found`. O(log n), and O(1) on average over a walk.
#[unsafe(no_mangle)]
pub extern "C" fn ic_tree_next(
    table: &mut [RawThree],
    tree: &RawRoot,
    at: u32,
    found: &mut u32,
) -> u32
    ensures { StepCall table.old table.new tree.now result Right (place_of at) found.old found.new }
{
    tree_calls::step_at(table, tree, Side::Right, at, found)
}

/// Stores in `found` the number of the member before `at`, or of the last member if `at` is [`NONE`](crate::NONE). If there is no such member, the call returns
/// [`NULL`](crate::NULL). The call writes nothing except `found`. O(log n), and O(1) on average over a walk.
#[unsafe(no_mangle)]
pub extern "C" fn ic_tree_prev(
    table: &mut [RawThree],
    tree: &RawRoot,
    at: u32,
    found: &mut u32,
) -> u32
    ensures { StepCall table.old table.new tree.now result Left (place_of at) found.old found.new }
{
    tree_calls::step_at(table, tree, Side::Left, at, found)
}

/// Removes and unlinks all members. O(n).
///
/// The call steps from each member to the next one, at most as often as the table has places. If these steps do not lead through linked places to an
/// end, the call returns [`BROKEN`](crate::BROKEN).
#[unsafe(no_mangle)]
pub extern "C" fn ic_tree_clear(table: &mut [RawThree], tree: &mut RawRoot) -> u32
    ensures { ClearCall table.old table.new tree.old tree.new result }
{
    tree_calls::clear(table, tree)
}
