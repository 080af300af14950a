//! The calls that make one red-black tree from two trees, and two trees from one.
//!
//! ```text
//! struct ic_link3 links[64] = {0};
//! struct ic_tree tree = {0}, given = {0}, rest = {0};
//! ic_tree_join(links, 64, &tree, 7, &given);  // IC_OK: the only member
//! ic_tree_append(links, 64, &tree, &given);   // IC_OK: `given` has no members
//! ic_tree_split(links, 64, &tree, 7, &rest);  // IC_OK: 7 is the only member of `rest`, and `tree` is empty
//! ```

ghost use Rattle.ic_raw.specs.Words.{place_of};
ghost use Rattle.ic_raw_trees.specs.TreeMoveCalls.{AppendCall, JoinCall, SplitCall};

use ic_raw::{RawRoot, RawThree};
use ic_raw_trees::tree_move_calls;

/// Moves all members of `given` after the members of `tree`, in their order, and leaves `given` empty. O(n), because the call checks both trees first.
/// The same edit in Rattle, where types guarantee the links, needs no check and takes O(log n).
///
/// The call compares no keys. If the words do not represent two trees that share no member, the call returns [`BROKEN`](crate::BROKEN).
#[unsafe(no_mangle)]
pub extern "C" fn ic_tree_append(
    table: &mut [RawThree],
    tree: &mut RawRoot,
    given: &mut RawRoot,
) -> u32
    ensures { AppendCall table.old table.new tree.old tree.new result given.old given.new }
{
    tree_move_calls::append(table, tree, given)
}

/// Inserts a place after all members of `tree`, moves all members of `given` after the inserted place, and leaves `given` empty. O(n), because the call checks
/// both trees first. The same edit in Rattle, where types guarantee the links, needs no check and takes O(log n).
///
/// The call compares no keys. The place must belong to the table and must not be linked. If the words do not represent two trees that share no member,
/// the call returns [`BROKEN`](crate::BROKEN).
#[unsafe(no_mangle)]
pub extern "C" fn ic_tree_join(
    table: &mut [RawThree],
    tree: &mut RawRoot,
    place: u32,
    given: &mut RawRoot,
) -> u32
    ensures { JoinCall table.old table.new tree.old tree.new result (place_of place) given.old given.new }
{
    tree_move_calls::join(table, tree, place, given)
}

/// Keeps the members before the member `at` in `tree`, and moves `at` and all members after `at` to `rest`, which must be empty. If `at` is
/// [`NONE`](crate::NONE), the call returns [`NULL`](crate::NULL). O(n), because the call checks the tree first. The same edit in Rattle, where types
/// guarantee the links, needs no check and takes O(log n).
///
/// The call compares no keys. If the words do not represent a tree of which `at` is a member, or if `rest` has members, the call returns
/// [`BROKEN`](crate::BROKEN).
#[unsafe(no_mangle)]
pub extern "C" fn ic_tree_split(
    table: &mut [RawThree],
    tree: &mut RawRoot,
    at: u32,
    rest: &mut RawRoot,
) -> u32
    ensures { SplitCall table.old table.new tree.old tree.new result (place_of at) rest.old rest.new }
{
    tree_move_calls::split(table, tree, at, rest)
}
