//! This module has the calls of red-black trees without keys, which are edits and steps. A place is a number, and a tree is one word.
//!
//! ```text
//! insert_at(table, tree, Side::Left, NONE, 7) // OK: the only member
//! insert_at(table, tree, Side::Right, 7, 8)   // OK: after it
//! remove(table, tree, 7)                      // OK
//! ```

ghost use Rattle.std.specs.Prelude.{◌≡◌, Some};
ghost use Rattle.ic_link_ops.specs.Prelude.{Place};
ghost use Rattle.ic_rbtree.specs.Tree.{root_of};
ghost use Rattle.ic_raw.specs.declared.status.TheConstants.{OK};
ghost use Rattle.ic_raw.specs.Surgery.{HoldsOfViews, ReportsInsertion, ReportsRemoval};
ghost use Rattle.ic_raw.specs.Words.{place_of};
ghost use Rattle.ic_raw.specs.Tree.{root_in};
ghost use Rattle.ic_raw.specs.TreeCalls.{ClearCall, InsertCall, RemoveCall, ReplaceCall, StepCall};

use crate::number::{place_in, place_of};
use crate::status::{BROKEN, NULL, OK};
use crate::surgery::{Plain, Surgery};
use crate::table::RawTable;
use crate::words::{RawRoot, RawThree};
use crate::{tree, tree_clear};
use ic_link_ops::Side;
use ic_rbtree::RBTree;

// Returns the tree whose root `words` names.
#[inline]
pub(crate) fn tree_of(words: &RawRoot) -> tree::Tree
    ensures { root_of result ≡ root_in words.now }
{
    RBTree::from_root((), place_in(words.root))
}

/// Inserts the place with the number `place` as the child on this side of the member `at`. If `at` is [`NONE`](crate::NONE), the place becomes the
/// only member. O(log n).
///
/// The place must belong to the table and must not be linked. A refused edit leaves the words as they are, and returns the first fault of the two
/// places, or else [`BROKEN`](crate::BROKEN). For example, the call returns [`BROKEN`](crate::BROKEN) if the member already has a child on this side,
/// or if `at` is none and the tree has members.
#[inline]
pub fn insert_at(table: &mut [RawThree], tree: &mut RawRoot, side: Side, at: u32, place: u32) -> u32
    ensures { InsertCall table.old table.new tree.old tree.new result side (place_of at) (place_of place) }
{
    insert_at_by(&mut Plain, table, tree, side, at, place)
}

/// Inserts a place as `insert_at` does. The edit is made by the caller's implementation `by` of [`Surgery`], which can record the words that it
/// writes.
#[inline]
pub fn insert_at_by<S: Surgery>(
    by: &mut S,
    table: &mut [RawThree],
    tree: &mut RawRoot,
    side: Side,
    at: u32,
    place: u32,
) -> u32
    ensures call { InsertCall table.old table.new tree.old tree.new result side (place_of at) (place_of place) }
    ensures reported { (p : Place) → place_of place ≡ Some p → result ≡ OK
        → HoldsOfViews table.old table.new (λ old new. ReportsInsertion S.Reports by.old by.new old new p) }
{
    let mut links = RawTable::new(table);
    let mut edited = tree_of(&*tree);
    if !tree::insert(
        by,
        &mut links,
        &mut edited,
        side,
        place_of(at),
        place_of(place),
    ) {
        return links.refusal(at, place);
    }
    tree.set(edited.root());
    OK
}

/// Removes the member `at`, or returns [`NULL`](crate::NULL) if `at` is [`NONE`](crate::NONE). O(log n).
#[inline]
pub fn remove(table: &mut [RawThree], tree: &mut RawRoot, at: u32) -> u32
    ensures { RemoveCall table.old table.new tree.old tree.new result (place_of at) }
{
    remove_by(&mut Plain, table, tree, at)
}

/// Removes a member as `remove` does. The edit is made by the caller's implementation `by` of [`Surgery`], which can record the words that it writes.
#[inline]
pub fn remove_by<S: Surgery>(by: &mut S, table: &mut [RawThree], tree: &mut RawRoot, at: u32) -> u32
    ensures call { RemoveCall table.old table.new tree.old tree.new result (place_of at) }
    ensures reported { (p : Place) → place_of at ≡ Some p → result ≡ OK
        → HoldsOfViews table.old table.new (λ old new. ReportsRemoval S.Reports by.old by.new old new p) }
{
    let Some(member) = place_of(at) else {
        return NULL;
    };
    let mut links = RawTable::new(table);
    let mut edited = tree_of(&*tree);
    if !tree::remove(by, &mut links, &mut edited, member) {
        return links.refusal_at(at);
    }
    tree.set(edited.root());
    OK
}

/// Inserts a place at the position of the member `at`, and removes `at`. The call returns [`NULL`](crate::NULL) if `at` is [`NONE`](crate::NONE).
/// O(1).
///
/// The place must belong to the table and must not be linked.
#[inline]
pub fn replace(table: &mut [RawThree], tree: &mut RawRoot, at: u32, place: u32) -> u32
    ensures { ReplaceCall table.old table.new tree.old tree.new result (place_of at) (place_of place) }
{
    let Some(member) = place_of(at) else {
        return NULL;
    };
    let mut links = RawTable::new(table);
    let mut edited = tree_of(&*tree);
    if !tree::replace(&mut links, &mut edited, member, place_of(place)) {
        return links.refusal(at, place);
    }
    tree.set(edited.root());
    OK
}

/// Stores in `found` the number of the member on this side of `at`. If `at` is [`NONE`](crate::NONE), the member is the outermost one on the opposite
/// side. The call returns [`NULL`] if there is no such member. The call writes nothing else. O(log n), and O(1) on average over a walk.
///
/// A refused call returns the fault of `at`, or [`BROKEN`](crate::BROKEN) if the links lead to a place that is not linked.
#[inline(always)]
pub fn step_at(table: &mut [RawThree], tree: &RawRoot, side: Side, at: u32, found: &mut u32) -> u32
    ensures { StepCall table.old table.new tree.now result side (place_of at) found.old found.new }
{
    let links = RawTable::new(table);
    tree::step(&links, &tree_of(tree), side, at, found)
}

/// Removes and unlinks all members. O(n).
///
/// If steps from the first member do not lead through linked places to an end, within as many steps as the table has places, the call returns
/// [`BROKEN`].
#[inline]
pub fn clear(table: &mut [RawThree], tree: &mut RawRoot) -> u32
    ensures { ClearCall table.old table.new tree.old tree.new result }
{
    let mut links = RawTable::new(table);
    if !tree_clear::clear(&mut links, &tree_of(&*tree)) {
        return BROKEN;
    }
    tree.set(None);
    OK
}
