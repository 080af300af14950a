//! The calls of red-black trees that keep their first and their last member, in two words beside the word of the tree.
//!
//! ```text
//! insert(table, keys, tree, ends, 7)       // OK: in the order of keys[0], keys[1] ..
//! pop_first(table, tree, ends, &mut first) // OK: the member with the least key leaves, and first is its number
//! ```

ghost use Rattle.std.specs.Prelude.{◌≡◌, ◌≢◌, ◌↔◌, ◌++◌, ◌∷◌, [], List, Option, Some, None, true};
ghost use Rattle.ic_link_ops.specs.declared.side.Side.{Side};
ghost use Rattle.ic_link_ops.specs.Prelude.{Place, Cut, join, insert};
ghost use Rattle.ic_link_ops.specs.Frames.{across};
ghost use Rattle.ic_rbtree.specs.Prelude.{AreIn, IsIn, end_on, IsBeside, StepsTo};
ghost use Rattle.ic_raw.specs.Prelude.{has_place, seen, seen_node, StepEndsIn, place_of};
ghost use Rattle.ic_raw.specs.Tree.{RepresentsTree, IsNoneOrLinkedIn, lent_table, root_in, table_of};
ghost use Rattle.ic_raw_keyed.specs.declared.ends.RawTreeEnds.{RawTreeEnds};
ghost use Rattle.ic_raw_keyed.specs.Ends.{SaysEnds, IsWritten, EndWith, LosesEnd, end_in};
ghost use Rattle.ic_raw_keyed.specs.EndsCalls.{InsertCall, PopFirstCall, PutCall, RemoveCall, ReplaceCall};

use crate::ends::{RawTreeEnds, is_at};
use ic_link_ops::Side;
use ic_raw::{
    BROKEN, NULL, OK, RawRoot, RawTable, RawThree, number_of, place_in, place_of, search_calls,
    tree_calls,
};
use ic_rbtree::step_bounded;
use ic_unsafe_ref::Place;

// Returns whether the place is `None` or belongs to the table.
#[inline]
fn has(links: &RawTable<'_, RawThree>, place: Option<Place>) -> bool
    ensures { (result ≡ true) ↔ IsIn (has_place (lent_table links.now)) place }
{
    match place {
        None => true,
        Some(place) => links.covers(place),
    }
}

// Returns the neighbor of `at` on the side `side`, to which the links lead. The result is `None` if the links come to an end, or if `at` or the root does not
// belong to the table.
#[inline]
fn beside(table: &mut [RawThree], tree: &RawRoot, side: Side, at: Place) -> Option<Place>
    ensures leads { (cut : Cut) → RepresentsTree table.old tree.now (join cut) → IsBeside side cut (Some at) → IsBeside (across side) cut result }
    ensures reached { (q : Place) → result ≡ Some q → StepsTo seen_node (seen (table_of table.old)) (root_in tree.now) side (Some at) q }
    ensures ended { AreIn (has_place (table_of table.old)) (Some at ∷ root_in tree.now ∷ []) → result ≡ None
        → StepEndsIn (table_of table.old) (root_in tree.now) side (Some at) }
    ensures same { table.new ≡ table.old }
{
    let links = RawTable::new(table);
    let root = place_in(tree.root);
    if !has(&links, Some(at)) {
        return None;
    }
    if !has(&links, root) {
        return None;
    }
    step_bounded(&links, root, Some(at), side)
}

/// Inserts a place as the child of the member `at` on the side `side`, or as the only member if `at` is [`NONE`](ic_raw::NONE). O(log n).
///
/// The place must belong to the table and must not be linked. A refused call leaves the words as they are, and returns the first fault of `at` and `place`, or
/// else [`BROKEN`]. For example, the call returns [`BROKEN`] if the member already has a child on this side, or if `at` is none and the tree has members.
#[inline]
pub fn insert_at(
    table: &mut [RawThree],
    tree: &mut RawRoot,
    ends: &mut RawTreeEnds,
    side: Side,
    at: u32,
    place: u32,
) -> u32
    ensures { InsertCall table.old table.new tree.old tree.new ends.old ends.new result side (place_of at) (place_of place) }
{
    let status = tree_calls::insert_at(table, tree, side, at, place);
    if status != OK {
        return status;
    }
    *ends = ends.with(side, place_of(at), place_of(place));
    status
}

// Returns the end on the side `side` after `place` was inserted. The result is `place` if no step leads from `place` to this side, and otherwise the old end
// `end`.
#[inline]
fn end_with(
    table: &mut [RawThree],
    tree: &RawRoot,
    side: Side,
    place: Place,
    end: Option<Place>,
) -> Option<Place>
    ensures shown { (cut : Cut) → RepresentsTree table.old tree.now (insert cut place) → end ≡ end_on side (join cut)
        → result ≡ end_on side (insert cut place) }
    ensures own { AreIn (has_place (table_of table.old)) (Some place ∷ root_in tree.now ∷ [])
        → EndWith (table_of table.old) (root_in tree.now) side (Some place) end result }
    ensures same { table.new ≡ table.old }
{
    match beside(table, tree, side, place) {
        None => Some(place),
        Some(_) => end,
    }
}

/// Inserts a place by its key, after all members whose key is not greater than the key of the place. O(log n).
///
/// The place must belong to the table and must not be linked, and there must be a key for each place of the table. The call makes two steps from the place to
/// find out whether the place has become the first or the last member.
#[inline]
pub fn insert(
    table: &mut [RawThree],
    keys: &[u64],
    tree: &mut RawRoot,
    ends: &mut RawTreeEnds,
    place: u32,
) -> u32
    ensures { PutCall keys.now table.old table.new tree.old tree.new ends.old ends.new result (place_of place) }
{
    let status = search_calls::insert(table, keys, tree, place);
    if status != OK {
        return status;
    }
    let Some(new) = place_of(place) else {
        return status;
    };
    let first = end_with(table, &*tree, Side::Left, new, ends.end(Side::Left));
    let last = end_with(table, &*tree, Side::Right, new, ends.end(Side::Right));
    *ends = RawTreeEnds::of(first, last);
    status
}

// Returns the opposite side.
#[inline]
fn inwards(side: Side) -> Side
    ensures { result ≡ across side }
{
    match side {
        Side::Left => Side::Right,
        Side::Right => Side::Left,
    }
}

// Returns whether the place is `None`, or a linked place of the table.
#[inline]
fn stands(table: &mut [RawThree], place: Option<Place>) -> bool
    ensures stands { (result ≡ true) ↔ IsNoneOrLinkedIn table.old place }
    ensures same { table.new ≡ table.old }
{
    RawTable::new(table).stands(place)
}

// Returns the end on the side `side` after `member` was removed. If `member` was this end, the new end is the place to which a step inwards from `member`
// leads. Otherwise it is the old end `end`. The result is `None` if the step leads to `member` itself or to a place that is not linked.
#[inline]
fn end_without(
    table: &mut [RawThree],
    tree: &RawRoot,
    side: Side,
    member: Place,
    end: Option<Place>,
) -> Option<Option<Place>>
    ensures accepted { (front back : List Place) → RepresentsTree table.old tree.now (front ++ member ∷ back) → result ≢ None }
    ensures shown { (front back : List Place) (after : Option Place) → RepresentsTree table.old tree.now (front ++ member ∷ back)
        → end ≡ end_on side (front ++ member ∷ back) → result ≡ Some after → after ≡ end_on side (front ++ back) }
    ensures own { (after : Option Place) → result ≡ Some after → AreIn (has_place (table_of table.old)) (Some member ∷ root_in tree.now ∷ [])
        → LosesEnd (table_of table.old) (root_in tree.now) side member end after }
    ensures same { table.new ≡ table.old }
{
    if !is_at(end, member) {
        return Some(end);
    }
    let next = beside(table, tree, inwards(side), member);
    if is_at(next, member) {
        return None;
    }
    if !stands(table, next) {
        return None;
    }
    Some(next)
}

// Returns the words of the ends after a member was removed. The result is `None` if `member` is an end, and a step inwards from it leads to `member` itself or
// to a place that is not linked.
#[inline]
fn ends_without(
    table: &mut [RawThree],
    tree: &RawRoot,
    ends: &RawTreeEnds,
    member: Place,
) -> Option<RawTreeEnds>
    ensures accepted { (front back : List Place) → RepresentsTree table.old tree.now (front ++ member ∷ back) → result ≢ None }
    ensures shown { (front back : List Place) (after : RawTreeEnds) → RepresentsTree table.old tree.now (front ++ member ∷ back)
        → SaysEnds ends.now (front ++ member ∷ back) → result ≡ Some after → SaysEnds after (front ++ back) }
    ensures own { (after : RawTreeEnds) → result ≡ Some after → AreIn (has_place (table_of table.old)) (Some member ∷ root_in tree.now ∷ [])
        → (side : Side) → LosesEnd (table_of table.old) (root_in tree.now) side member (end_in side ends.now) (end_in side after) }
    ensures words { (after : RawTreeEnds) → result ≡ Some after → IsWritten after }
    ensures same { table.new ≡ table.old }
{
    let Some(first) = end_without(table, tree, Side::Left, member, ends.end(Side::Left)) else {
        return None;
    };
    let Some(last) = end_without(table, tree, Side::Right, member, ends.end(Side::Right)) else {
        return None;
    };
    Some(RawTreeEnds::of(first, last))
}

/// Removes the member `at`, or returns [`NULL`] if `at` is [`NONE`](ic_raw::NONE). O(log n).
///
/// If the member is an end, a step from the member leads to the next end. The call returns [`BROKEN`] if this step leads to a place that is not linked, or to
/// the member itself.
#[inline]
pub fn remove(table: &mut [RawThree], tree: &mut RawRoot, ends: &mut RawTreeEnds, at: u32) -> u32
    ensures { RemoveCall table.old table.new tree.old tree.new ends.old ends.new result (place_of at) }
{
    let Some(member) = place_of(at) else {
        return NULL;
    };
    let Some(after) = ends_without(table, &*tree, &*ends, member) else {
        return RawTable::new(table).refusal_of(member);
    };
    let status = tree_calls::remove(table, tree, at);
    if status != OK {
        return status;
    }
    *ends = after;
    status
}

/// Replaces the member `at` by `place` and unlinks `at`, or returns [`NULL`] if `at` is [`NONE`](ic_raw::NONE). O(1).
///
/// The place `place` must belong to the table and must not be linked.
#[inline]
pub fn replace(
    table: &mut [RawThree],
    tree: &mut RawRoot,
    ends: &mut RawTreeEnds,
    at: u32,
    place: u32,
) -> u32
    ensures { ReplaceCall table.old table.new tree.old tree.new ends.old ends.new result (place_of at) (place_of place) }
{
    let Some(member) = place_of(at) else {
        return NULL;
    };
    let status = tree_calls::replace(table, tree, at, place);
    if status != OK {
        return status;
    }
    *ends = ends.replaced(member, place_of(place));
    status
}

/// Removes the first member and stores its number in `popped`, or returns [`NULL`] if the word of the first member names no place. O(log n), and O(1) on
/// average for the step to the next member.
///
/// The call returns [`BROKEN`] if no 4-byte number names the first member, if the first member is not linked, or if the links lead from the first member to an
/// unlinked place or back to the first member.
#[inline]
pub fn pop_first(
    table: &mut [RawThree],
    tree: &mut RawRoot,
    ends: &mut RawTreeEnds,
    popped: &mut u32,
) -> u32
    ensures { PopFirstCall table.old table.new tree.old tree.new ends.old ends.new result popped.old popped.new }
{
    let Some(member) = ends.end(Side::Left) else {
        return NULL;
    };
    let number = number_of(member);
    if !is_at(place_of(number), member) {
        return BROKEN;
    }
    if remove(table, tree, ends, number) != OK {
        return BROKEN;
    }
    *popped = number;
    OK
}
