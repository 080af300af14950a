//! The calls that search a tree with sums, and the calls that compute the sums of a tree again.
//!
//! ```text
//! find(table, sums, Kind::Sum, tree, NONE, 3, &mut found)      // OK: the member at position 3, if each value is 1
//! before(table, sums, Kind::Sum, 7, &mut position)             // OK: how many members are before 7
//! overlap(table, starts, sums, tree, NONE, 5, 8, &mut found)   // OK: the first interval that overlaps [5, 8)
//! ```

ghost use Rattle.std.specs.Prelude.{◌≡◌, ◌≢◌, ◌⊎◌, ◌≤◌, ◌∷◌, ◌++◌, [], List, Option, Some, None, true, length, map, filter};
ghost use Rattle.std.specs.Ordering.{nat_cmp};
ghost use Rattle.ic_link_ops.specs.Prelude.{Place, Cut, join, first, IsAfter};
ghost use Rattle.ic_rbtree.specs.Borders.{IsSorted};
ghost use Rattle.ic_raw.specs.declared.status.TheConstants.{OK, NULL};
ghost use Rattle.ic_raw.specs.Answers.{HandsOut, IsFound, IsAccepted, refusal};
ghost use Rattle.ic_raw.specs.Prelude.{IsNoneOrLinked, key_of, keys_fault, HandsOutReached, member_fault, is_linked_three, place_of};
ghost use Rattle.ic_raw.specs.Tree.{Represents, lent_table, root_in};
ghost use Rattle.ic_raw_augmented.specs.declared.sums.Kind.TheVariants.{Greatest};
ghost use Rattle.ic_raw_augmented.specs.Ends.{EndsAbove, FindEnds, OverlapEnds};
ghost use Rattle.ic_raw_augmented.specs.Find.{IsFirstBeyond, overlaps};
ghost use Rattle.ic_raw_augmented.specs.SumCalls.{BeforeCall, FindCall, OverlapCall, RenewCall};
ghost use Rattle.ic_raw_augmented.specs.Sums.{IsSummed, sums_fault, total, value_at};

use crate::find as searches;
use crate::recompute::{recompute_all, recompute_up};
use crate::sums::{Kind, RawSum};
use ic_raw::{
    BROKEN, NULL, OK, OUT_OF_RANGE, RawRoot, RawTable, RawThree, number_of, place_in, place_of,
};
use ic_unsafe_ref::Place;

// Returns whether there is a sum for each place, and the root and the member `at` are each `None` or a linked place.
#[inline]
fn is_searchable(
    links: &RawTable<'_, RawThree>,
    sums: &[RawSum],
    root: Option<Place>,
    at: Option<Place>,
) -> bool
    ensures enough { result ≡ true → (lent_table links.now).extent.places ≤ length sums.now }
    ensures at { result ≡ true → IsNoneOrLinked is_linked_three (lent_table links.now) at }
    ensures root { result ≡ true → IsNoneOrLinked is_linked_three (lent_table links.now) root }
    ensures shown { (lent_table links.now).extent.places ≤ length sums.now → IsNoneOrLinked is_linked_three (lent_table links.now) at
        → IsNoneOrLinked is_linked_three (lent_table links.now) root → result ≡ true }
{
    if sums.len() < links.places() {
        return false;
    }
    links.stands(at) && links.stands(root)
}

// Returns why a tree is not searched: the fault of the member `at`, else [`OUT_OF_RANGE`] if there are fewer sums than places, or else [`BROKEN`].
#[cold]
#[inline(never)]
fn refusal(links: &RawTable<'_, RawThree>, sums: &[RawSum], at: u32) -> u32
    ensures refusal { result ≡ refusal (member_fault is_linked_three (lent_table links.now) (place_of at)
        ∷ sums_fault sums.now (lent_table links.now).extent.places ∷ []) }
    ensures refused { (result ≢ OK) × (result ≢ NULL) }
{
    let fault = links.member_fault(place_of(at));
    if fault != OK {
        return fault;
    }
    if sums.len() < links.places() {
        return OUT_OF_RANGE;
    }
    BROKEN
}

// Returns why a tree is not searched for an interval: the fault of the member `at`, else [`OUT_OF_RANGE`] if there are fewer starts or sums than places, or
// else [`BROKEN`].
#[cold]
#[inline(never)]
fn refusal_of_starts(
    links: &RawTable<'_, RawThree>,
    starts: &[u64],
    sums: &[RawSum],
    at: u32,
) -> u32
    ensures refusal { result ≡ refusal (member_fault is_linked_three (lent_table links.now) (place_of at)
        ∷ keys_fault starts.now (lent_table links.now).extent.places ∷ sums_fault sums.now (lent_table links.now).extent.places ∷ []) }
    ensures refused { (result ≢ OK) × (result ≢ NULL) }
{
    let fault = links.member_fault(place_of(at));
    if fault != OK {
        return fault;
    }
    if starts.len() < links.places() {
        return OUT_OF_RANGE;
    }
    if sums.len() < links.places() {
        return OUT_OF_RANGE;
    }
    BROKEN
}

// Stores in `found` the number of the first member after `at` at which the combined values exceed `bound`.
#[inline]
fn store_found(
    links: &RawTable<'_, RawThree>,
    sums: &[RawSum],
    kind: Kind,
    tree: &RawRoot,
    at: u32,
    bound: u64,
    found: &mut u32,
) -> u32
    ensures found { (cut : Cut) → (lent_table links.now).extent.places ≤ length sums.now → IsAfter cut (place_of at)
        → Represents (lent_table links.now) (root_in tree.now) (join cut) → IsSummed kind (lent_table links.now) sums.now (join cut)
        → HandsOut (IsFirstBeyond kind (value_at sums.now) [] bound cut.back) result found.new }
    ensures reached { result ≡ OK → HandsOutReached (lent_table links.now) (root_in tree.now) (place_of at ∷ []) found.new }
    ensures ended { result ≡ NULL → FindEnds (lent_table links.now) sums.now (root_in tree.now) (place_of at) bound }
    ensures refused { result ≢ OK → found.new ≡ found.old }
    ensures looked { (result ≡ OK) ⊎ (result ≡ NULL) → ((lent_table links.now).extent.places ≤ length sums.now)
        × IsNoneOrLinked is_linked_three (lent_table links.now) (place_of at) × IsNoneOrLinked is_linked_three (lent_table links.now) (root_in tree.now) }
    ensures why { result ≢ OK → result ≢ NULL → result ≡ refusal (member_fault is_linked_three (lent_table links.now) (place_of at)
        ∷ sums_fault sums.now (lent_table links.now).extent.places ∷ []) }
{
    let root = place_in(tree.root);
    let from = place_of(at);
    if !is_searchable(links, sums, root, from) {
        return refusal(links, sums, at);
    }
    let Some(position) = searches::find(links, sums, kind, root, from, bound) else {
        return refusal(links, sums, at);
    };
    let Some(member) = position else {
        return NULL;
    };
    if !links.is_linked(member) {
        return refusal(links, sums, at);
    }
    *found = number_of(member);
    OK
}

// Stores in `found` the number of the first member after `at` whose interval overlaps `[from, to)`.
#[inline]
fn store_overlap(
    links: &RawTable<'_, RawThree>,
    starts: &[u64],
    sums: &[RawSum],
    tree: &RawRoot,
    at: u32,
    from: u64,
    to: u64,
    found: &mut u32,
) -> u32
    ensures found { (cut : Cut) → (lent_table links.now).extent.places ≤ length starts.now → (lent_table links.now).extent.places ≤ length sums.now
        → IsAfter cut (place_of at) → Represents (lent_table links.now) (root_in tree.now) (join cut)
        → IsSummed Greatest (lent_table links.now) sums.now (join cut) → IsSorted nat_cmp (map (key_of starts.now) cut.back)
        → IsFound (first (filter (overlaps (key_of starts.now) (value_at sums.now) from to) cut.back)) result found.new }
    ensures reached { result ≡ OK → HandsOutReached (lent_table links.now) (root_in tree.now) (place_of at ∷ []) found.new }
    ensures ended { result ≡ NULL → OverlapEnds (lent_table links.now) sums.now (root_in tree.now) (place_of at) starts.now from to }
    ensures refused { result ≢ OK → found.new ≡ found.old }
    ensures looked { (result ≡ OK) ⊎ (result ≡ NULL) → ((lent_table links.now).extent.places ≤ length starts.now)
        × ((lent_table links.now).extent.places ≤ length sums.now)
        × IsNoneOrLinked is_linked_three (lent_table links.now) (place_of at) × IsNoneOrLinked is_linked_three (lent_table links.now) (root_in tree.now) }
    ensures why { result ≢ OK → result ≢ NULL → result ≡ refusal (member_fault is_linked_three (lent_table links.now) (place_of at)
        ∷ keys_fault starts.now (lent_table links.now).extent.places ∷ sums_fault sums.now (lent_table links.now).extent.places ∷ []) }
{
    let root = place_in(tree.root);
    let after = place_of(at);
    if starts.len() < links.places() {
        return refusal_of_starts(links, starts, sums, at);
    }
    if !is_searchable(links, sums, root, after) {
        return refusal_of_starts(links, starts, sums, at);
    }
    let Some(position) = searches::overlap(links, sums, starts, root, after, from, to) else {
        return refusal_of_starts(links, starts, sums, at);
    };
    let Some(member) = position else {
        return NULL;
    };
    if !links.is_linked(member) {
        return refusal_of_starts(links, starts, sums, at);
    }
    *found = number_of(member);
    OK
}

// Stores in `sum` the combined values of the members before the member `at`.
#[inline]
fn look_before(
    links: &RawTable<'_, RawThree>,
    sums: &[RawSum],
    kind: Kind,
    at: u32,
    sum: &mut u64,
) -> u32
    ensures links_back { (root : Option Place) (front back : List Place) (p : Place) → place_of at ≡ Some p → (lent_table links.now).extent.places ≤ length sums.now
        → Represents (lent_table links.now) root (front ++ p ∷ back) → IsSummed kind (lent_table links.now) sums.now (front ++ p ∷ back)
        → IsAccepted result (sum.new ≡ total kind (value_at sums.now) front) }
    ensures ended { result ≡ OK → EndsAbove (lent_table links.now) (place_of at) }
    ensures null { result ≡ NULL → place_of at ≡ None }
    ensures none { place_of at ≡ None → result ≡ NULL }
    ensures refused { result ≢ OK → sum.new ≡ sum.old }
    ensures looked { result ≡ OK → ((lent_table links.now).extent.places ≤ length sums.now)
        × IsNoneOrLinked is_linked_three (lent_table links.now) (place_of at) }
    ensures why { result ≢ OK → result ≢ NULL → result ≡ refusal (member_fault is_linked_three (lent_table links.now) (place_of at)
        ∷ sums_fault sums.now (lent_table links.now).extent.places ∷ []) }
{
    let Some(member) = place_of(at) else {
        return NULL;
    };
    if !is_searchable(links, sums, None, Some(member)) {
        return refusal(links, sums, at);
    }
    let Some(all) = searches::sum_before(links, sums, kind, member) else {
        return refusal(links, sums, at);
    };
    *sum = all;
    OK
}

/// Stores in `found` the number of the first member after `at` at which the combined values exceed `bound`. These are the values of the members after `at` up
/// to and including the found one. If `at` is [`NONE`](ic_raw::NONE), the search and the values begin at the first member. The call returns [`NULL`] if there
/// is no such member. The call writes nothing except `found`. O(log n).
///
/// There must be a sum for each place of the table. If the sums of the tree are not right, the call may find another member, or return [`BROKEN`].
#[inline]
pub fn find(
    table: &mut [RawThree],
    sums: &[RawSum],
    kind: Kind,
    tree: &RawRoot,
    at: u32,
    bound: u64,
    found: &mut u32,
) -> u32
    ensures { FindCall kind sums.now table.old table.new result tree.now (place_of at) bound found.old found.new }
{
    let links = RawTable::new(table);
    store_found(&links, sums, kind, tree, at, bound, found)
}

/// Stores in `sum` the combined values of the members before `at`, or returns [`NULL`] if `at` is [`NONE`](ic_raw::NONE). The call writes nothing except `sum`.
/// O(log n).
///
/// There must be a sum for each place of the table. If the links lead from the member to no root, the call returns [`BROKEN`].
#[inline]
pub fn before(table: &mut [RawThree], sums: &[RawSum], kind: Kind, at: u32, sum: &mut u64) -> u32
    ensures { BeforeCall kind sums.now table.old table.new result (place_of at) sum.old sum.new }
{
    let links = RawTable::new(table);
    look_before(&links, sums, kind, at, sum)
}

/// Stores in `found` the number of the first member after `at` whose interval overlaps `[from, to)`. If `at` is [`NONE`](ic_raw::NONE), the search begins at
/// the first member. If there is no such member, the call returns [`NULL`]. The interval of a place begins at the number in `starts`, ends at the value of the
/// place, and does not contain this value. The call writes nothing except `found`. O(log n).
///
/// There must be a start and a sum for each place of the table. The sums must be those of [`Kind::Greatest`], and the starts must not decrease from
/// one member to the next.
#[inline]
pub fn overlap(
    table: &mut [RawThree],
    starts: &[u64],
    sums: &[RawSum],
    tree: &RawRoot,
    at: u32,
    from: u64,
    to: u64,
    found: &mut u32,
) -> u32
    ensures { OverlapCall starts.now sums.now table.old table.new result tree.now (place_of at) from to found.old found.new }
{
    let links = RawTable::new(table);
    store_overlap(&links, starts, sums, tree, at, from, to, found)
}

/// Computes the sum at the member `at` and the sums of the members above it again, after the value of `at` has changed. If `at` is [`NONE`](ic_raw::NONE), the
/// call computes all sums of the table. O(log n), and O(p log p) if all sums of p places are computed.
///
/// There must be a sum for each place of the table.
pub fn renew(table: &mut [RawThree], sums: &mut [RawSum], kind: Kind, at: u32) -> u32
    ensures { RenewCall kind sums.old sums.new table.old table.new result (place_of at) }
{
    let links = RawTable::new(table);
    let from = place_of(at);
    if !is_searchable(&links, &*sums, None, from) {
        return refusal(&links, &*sums, at);
    }
    let Some(member) = from else {
        recompute_all(&links, sums, kind);
        return OK;
    };
    recompute_up(&links, sums, kind, member);
    OK
}
