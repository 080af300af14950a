//! Calls for C that edit a tree and keep its sums right.
//!
//! ```text
//! insert(table, keys, sums, Kind::Sum, tree, 7) // OK: in the order of keys[0], keys[1] ..
//! remove(table, sums, Kind::Sum, tree, 7)       // OK
//! ```

ghost use Rattle.std.specs.Prelude.{◌≡◌, ◌≢◌, ◌≤◌, List, Option, length};
ghost use Rattle.ic_link_ops.specs.Prelude.{Place};
ghost use Rattle.ic_raw.specs.declared.status.TheConstants.{OK};
ghost use Rattle.ic_raw.specs.Tree.{Represents, table_of};
ghost use Rattle.ic_raw.specs.Words.{place_of};
ghost use Rattle.ic_raw_augmented.specs.EditCalls.{SumsInsertCall, SumsPutCall, SumsRemoveCall};
ghost use Rattle.ic_raw_augmented.specs.Sums.{IsSummed, IsSummedBut, KeepsValues};
ghost use Rattle.ic_raw_augmented.specs.Written.{is_noted};

use crate::recompute::recompute_written;
use crate::sums::{Kind, RawSum};
use crate::written::Written;
use ic_link_ops::Side;
use ic_raw::{OK, OUT_OF_RANGE, RawRoot, RawTable, RawThree, place_of, search_calls, tree_calls};

// If an edit was accepted, makes the sums right again at the places whose children the edit has written, and at all members above these places.
fn settle(table: &mut [RawThree], sums: &mut [RawSum], kind: Kind, written: &Written, status: u32)
    requires enough { length table.old ≤ length sums.old }
    ensures right { status ≡ OK → (root : Option Place) (s : List Place) → Represents (table_of table.old) root s
        → IsSummedBut kind (table_of table.old) sums.old s (is_noted written.now) → IsSummed kind (table_of table.old) sums.new s }
    ensures refused { status ≢ OK → sums.new ≡ sums.old }
    ensures kept { KeepsValues sums.old sums.new }
    ensures same { table.new ≡ table.old }
{
    if status != OK {
        return;
    }
    let links = RawTable::new(table);
    recompute_written(&links, sums, kind, written);
}

/// Inserts a place by its key, and updates the sums that the insertion changes. The place comes after all members whose key is not greater than the key of the
/// place. O(log n). The tree is edited as by [`search_calls::insert`].
///
/// The place must belong to the table and must not be linked, and there must be a key and a sum for each place of the table. If the sums were right at all
/// members of the tree before the call, they are right after the call. If there are fewer sums than places, the call returns [`OUT_OF_RANGE`].
pub fn insert(
    table: &mut [RawThree],
    keys: &[u64],
    sums: &mut [RawSum],
    kind: Kind,
    tree: &mut RawRoot,
    place: u32,
) -> u32
    ensures { SumsPutCall kind keys.now sums.old sums.new table.old table.new result tree.old tree.new (place_of place) }
{
    if sums.len() < table.len() {
        return OUT_OF_RANGE;
    }
    let mut written = Written::of(place_of(place));
    let status = search_calls::insert_by(&mut written, table, keys, tree, place);
    settle(table, sums, kind, &written, status);
    status
}

/// Inserts a place as the child of the member `at` on the side `side`, and updates the sums. If `at` is [`NONE`](ic_raw::NONE), the place becomes the only
/// member. O(log n). The tree is edited as by [`tree_calls::insert_at`].
///
/// The place must belong to the table and must not be linked, and there must be a sum for each place of the table. If the sums were right at all members of the
/// tree before the call, they are right after the call. If there are fewer sums than places, the call returns [`OUT_OF_RANGE`].
pub fn insert_at(
    table: &mut [RawThree],
    sums: &mut [RawSum],
    kind: Kind,
    tree: &mut RawRoot,
    side: Side,
    at: u32,
    place: u32,
) -> u32
    ensures { SumsInsertCall kind sums.old sums.new table.old table.new tree.old tree.new result side (place_of at) (place_of place) }
{
    if sums.len() < table.len() {
        return OUT_OF_RANGE;
    }
    let mut written = Written::of(place_of(place));
    let status = tree_calls::insert_at_by(&mut written, table, tree, side, at, place);
    settle(table, sums, kind, &written, status);
    status
}

/// Removes the member `at` as [`tree_calls::remove`] does, and updates the sums that the removal changes. If `at` is [`NONE`](ic_raw::NONE), the call returns
/// [`NULL`](ic_raw::NULL). O(log n).
///
/// There must be a sum for each place of the table. If the sums were right at all members of the tree before the call, they are right after the call. If there
/// are fewer sums than places, the call returns [`OUT_OF_RANGE`].
pub fn remove(
    table: &mut [RawThree],
    sums: &mut [RawSum],
    kind: Kind,
    tree: &mut RawRoot,
    at: u32,
) -> u32
    ensures { SumsRemoveCall kind sums.old sums.new table.old table.new tree.old tree.new result (place_of at) }
{
    if sums.len() < table.len() {
        return OUT_OF_RANGE;
    }
    let mut written = Written::of(None);
    let status = tree_calls::remove_by(&mut written, table, tree, at);
    settle(table, sums, kind, &written, status);
    status
}
