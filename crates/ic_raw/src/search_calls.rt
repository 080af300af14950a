//! This module has the calls of red-black trees that search and insert by keys. The keys are in a separate array with one key for each place.
//!
//! ```text
//! insert(table, keys, tree, 7)                                 // OK: in the order of keys[0], keys[1] ..
//! find_target(table, keys, tree, 20, Target::AtLeast, &mut found) // OK, and found is 7 where keys[7] is 30
//! ```

ghost use Rattle.std.specs.Prelude.{◌≡◌, Some};
ghost use Rattle.ic_link_ops.specs.Prelude.{Place};
ghost use Rattle.ic_raw.specs.declared.status.TheConstants.{OK};
ghost use Rattle.ic_raw.specs.Words.{place_of};
ghost use Rattle.ic_raw.specs.SearchCalls.{FindCall, PutCall};
ghost use Rattle.ic_raw.specs.Surgery.{HoldsOfViews, ReportsInsertion};

use crate::number::place_of;
use crate::search::{self, Target};
use crate::status::OK;
use crate::surgery::{Plain, Surgery};
use crate::table::RawTable;
use crate::tree_calls::tree_of;
use crate::words::{RawRoot, RawThree};

/// Inserts a place by its key, after all members whose key is not greater. O(log n).
///
/// The place must belong to the table and must not be linked, and there must be a key for each place of the table.
#[inline]
pub fn insert(table: &mut [RawThree], keys: &[u64], tree: &mut RawRoot, place: u32) -> u32
    ensures { PutCall keys.now table.old table.new result tree.old tree.new (place_of place) }
{
    insert_by(&mut Plain, table, keys, tree, place)
}

/// Inserts a place by its key as `insert` does. The edit is made by the caller's implementation `by` of [`Surgery`], which can record the words that
/// it writes.
#[inline]
pub fn insert_by<S: Surgery>(
    by: &mut S,
    table: &mut [RawThree],
    keys: &[u64],
    tree: &mut RawRoot,
    place: u32,
) -> u32
    ensures call { PutCall keys.now table.old table.new result tree.old tree.new (place_of place) }
    ensures reported { (p : Place) → place_of place ≡ Some p → result ≡ OK
        → HoldsOfViews table.old table.new (λ old new. ReportsInsertion S.Reports by.old by.new old new p) }
{
    let mut links = RawTable::new(table);
    let mut edited = tree_of(&*tree);
    if !search::insert(by, &mut links, &mut edited, keys, place_of(place)) {
        return search::refusal_of(&links, keys, place);
    }
    tree.set(edited.root());
    OK
}

/// Stores in `found` the number of the member that `target` means for this key, or returns [`NULL`](crate::NULL) if there is none. The call writes
/// nothing else. O(log n).
///
/// There must be a key for each place of the table, and the keys must not decrease from one member to the next. If they decrease, the call may find
/// another member or none. If there is not a key for each place, the call returns [`OUT_OF_RANGE`](crate::OUT_OF_RANGE). If the words represent no
/// tree, it may return [`BROKEN`](crate::BROKEN).
#[inline]
pub fn find_target(
    table: &mut [RawThree],
    keys: &[u64],
    tree: &RawRoot,
    key: u64,
    target: Target,
    found: &mut u32,
) -> u32
    ensures { FindCall keys.now table.old table.new result tree.now key target found.old found.new }
{
    let links = RawTable::new(table);
    search::store_found(&links, &tree_of(tree), keys, key, target, found)
}
