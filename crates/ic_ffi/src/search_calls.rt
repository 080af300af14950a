//! The calls of red-black trees by keys, which are in a separate array with one key for each place.
//!
//! ```text
//! uint64_t keys[64] = {0};
//! struct ic_link3 links[64] = {0};
//! struct ic_tree tree = {0};
//! uint32_t found;
//! keys[7] = 30;
//! ic_tree_insert(links, 64, keys, 64, &tree, 7);                // IC_OK
//! ic_tree_lower_bound(links, 64, keys, 64, &tree, 20, &found);  // IC_OK, and found is 7
//! ```

ghost use Rattle.ic_raw.specs.declared.search.Target.TheVariants.{Equal, AtLeast, AtMost};
ghost use Rattle.ic_raw.specs.Words.{place_of};
ghost use Rattle.ic_raw.specs.SearchCalls.{FindCall, PutCall};

use ic_raw::{RawRoot, RawThree, Target, search_calls};

/// Inserts a place by its key, after all members whose key is not greater. O(log n).
///
/// The place must belong to the table and must not be linked, and there must be a key for each place of the table.
#[unsafe(no_mangle)]
pub extern "C" fn ic_tree_insert(
    table: &mut [RawThree],
    keys: &[u64],
    tree: &mut RawRoot,
    place: u32,
) -> u32
    ensures { PutCall keys.now table.old table.new result tree.old tree.new (place_of place) }
{
    search_calls::insert(table, keys, tree, place)
}

/// Stores in `found` the number of the first member with the key `key`, or returns [`NULL`](crate::NULL) if no member has the key. The call writes
/// nothing except `found`. O(log n).
///
/// There must be a key for each place of the table, and the keys must not decrease from one member to the next. If the keys are not in this order, the
/// call may find another member or no member.
#[unsafe(no_mangle)]
pub extern "C" fn ic_tree_find(
    table: &mut [RawThree],
    keys: &[u64],
    tree: &RawRoot,
    key: u64,
    found: &mut u32,
) -> u32
    ensures { FindCall keys.now table.old table.new result tree.now key Equal found.old found.new }
{
    search_calls::find_target(table, keys, tree, key, Target::Equal, found)
}

/// Stores in `found` the number of the first member whose key is at least `key`, or returns [`NULL`](crate::NULL) if there is no such member. The call
/// writes nothing except `found`. O(log n).
///
/// There must be a key for each place of the table, and the keys must not decrease from one member to the next. If the keys are not in this order, the
/// call may find another member or no member.
#[unsafe(no_mangle)]
pub extern "C" fn ic_tree_lower_bound(
    table: &mut [RawThree],
    keys: &[u64],
    tree: &RawRoot,
    key: u64,
    found: &mut u32,
) -> u32
    ensures { FindCall keys.now table.old table.new result tree.now key AtLeast found.old found.new }
{
    search_calls::find_target(table, keys, tree, key, Target::AtLeast, found)
}

/// Stores in `found` the number of the last member whose key is at most `key`, or returns [`NULL`](crate::NULL) if there is no such member. The call
/// writes nothing except `found`. O(log n).
///
/// There must be a key for each place of the table, and the keys must not decrease from one member to the next. If the keys are not in this order, the
/// call may find another member or no member.
#[unsafe(no_mangle)]
pub extern "C" fn ic_tree_upper_bound(
    table: &mut [RawThree],
    keys: &[u64],
    tree: &RawRoot,
    key: u64,
    found: &mut u32,
) -> u32
    ensures { FindCall keys.now table.old table.new result tree.now key AtMost found.old found.new }
{
    search_calls::find_target(table, keys, tree, key, Target::AtMost, found)
}
