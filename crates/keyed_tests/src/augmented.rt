//! Tests of trees with summaries. Edits and reads alternate, and each call leaves what the next call requires.

ghost use Rattle.std.specs.Prelude.{◌≡◌, ◌<◌, ◌≤◌, None, List, filter, length, map, min};
ghost use Rattle.std.specs.Ordering.{nat_cmp};
ghost use Rattle.ic_link_ops.specs.Prelude.{Place, index_of, first, IsCovered, node_of};
ghost use Rattle.ic_rbtree.specs.Prelude.{IsSorted, root_of};
ghost use Rattle.ic_rbtree.specs.KeyedTrees.{keyed_table};
ghost use Rattle.ic_augmented.specs.Prelude.{RepresentsAugmented, counts, start_in, overlaps, links_of, summaries_of};
ghost use Rattle.ic_augmented.specs.Greatest.{greatest, number_at, is_greater};
ghost use Rattle.ic_augmented.specs.AugmentedTables.{joined, room_of};
ghost use Rattle.keyed_tests.specs.Ready.{IsReady};

mod intervals;

use crate::asserts::assert_same;
use crate::keyed::{OwnKey, keyed_links};
use ic_augmented::{
    Augmented, AugmentedTable, Counts, Greatest, RecomputeSummaries, Summarize, first_greater,
    first_overlap, index_of, len, nth, propagate, refresh, set_value,
};
use ic_link_ops::LinkValues;
use ic_link_ops::rbtree::{LinkOpsWith, RBTreeOps};
use ic_rbtree::{KeyAdapter, NodeStore, RBTree};
use ic_test_support::objects::{place_at, reference};
use ic_unsafe_ref::{Place, UnsafeRef};
use std::alloc::{Allocator, Global};
use std::process::Abort;

/// Returns an empty tree and a table of links. The table covers as many places as there are keys, each with its key and with room for a summary.
fn empty_tree<V: Summarize<u64>>(
    rt: &impl Abort,
    alloc: Global,
    keys: &[u64],
) -> (
    RBTree<OwnKey>,
    Augmented<LinkOpsWith<u64>, AugmentedTable<V, u64>>,
)
    requires { length keys.now < 4294967296 }
    ensures covers { (keyed_table (links_of result.1)).extent.places ≡ length keys.now }
    ensures ready { IsReady node_of keyed_table (joined V.join V.initial) (λ summaries q. index_of q < room_of summaries) result.0 result.1 }
    ensures empty { root_of result.0 ≡ None }
{
    let mut summaries = AugmentedTable::new(alloc);
    let covered = summaries.cover(keys.len());
    assert!(rt; covered.is_ok());
    let links = keyed_links(rt, alloc, keys);
    (RBTree::new(OwnKey), Augmented { links, summaries })
}

// Inserts the object into the tree at the position of its key, and computes the stale summaries again.
fn put<A: KeyAdapter, L: RBTreeOps + LinkValues<A::Value>, M: RecomputeSummaries>(
    tree: &mut RBTree<A>,
    summed: &mut Augmented<L, M>,
    object: UnsafeRef<A::Value>,
)
    requires covered { IsCovered (L.table (links_of summed.old)) object }
    requires ready { IsReady L.node L.table M.summaries M.Covers tree.old summed.old }
    ensures ready { IsReady L.node L.table M.summaries M.Covers tree.new summed.new }
    ensures extent { (L.table (links_of summed.new)).extent ≡ (L.table (links_of summed.old)).extent }
{
    let _ = tree.insert_keyed(summed, object);
    refresh(tree, summed);
}

// Inserts the object into the tree at the position of its key, and updates only the summaries of the members above the object.
fn put_and_propagate<A: KeyAdapter, L: RBTreeOps + LinkValues<A::Value>, M: RecomputeSummaries>(
    rt: &impl Abort,
    tree: &mut RBTree<A>,
    summed: &mut Augmented<L, M>,
    object: UnsafeRef<A::Value>,
)
    requires covered { IsCovered (L.table (links_of summed.old)) object }
    requires ready { IsReady L.node L.table M.summaries M.Covers tree.old summed.old }
    ensures ready { IsReady L.node L.table M.summaries M.Covers tree.new summed.new }
    ensures extent { (L.table (links_of summed.new)).extent ≡ (L.table (links_of summed.old)).extent }
{
    let place = object.place();
    let inserted = tree.insert_keyed(summed, object);
    assert!(rt; inserted.is_ok());
    propagate(summed, place);
}

// Finds the member at the given position, and returns the position that is computed from this member. Returns the length of the tree if it has no
// member at the given position.
fn position_of_nth<T, N: NodeStore, A: Allocator>(
    tree: &RBTree<T>,
    summed: &Augmented<N, Counts<A>>,
    position: u64,
) -> u64
    requires ready { IsReady N.node N.table counts (λ summaries q. index_of q < room_of summaries) tree.now summed.now }
    ensures least { (s : List Place) → RepresentsAugmented N.node (counts (summaries_of summed.now)) (N.table (links_of summed.now)) (root_of tree.now) s
        → result ≡ min position (length s) }
{
    match nth(tree, summed, position) {
        Some(place) => index_of(summed, place),
        None => len(tree, summed),
    }
}

// Removes the member at the given position, if there is one, updates the counts, and returns the place of the member.
fn take_nth<T: KeyAdapter, L: RBTreeOps, A: Allocator>(
    tree: &mut RBTree<T>,
    summed: &mut Augmented<L, Counts<A>>,
    position: u64,
) -> Option<Place>
    requires ready { IsReady L.node L.table counts (λ summaries q. index_of q < room_of summaries) tree.old summed.old }
    ensures ready { IsReady L.node L.table counts (λ summaries q. index_of q < room_of summaries) tree.new summed.new }
{
    let Some(place) = nth(tree, summed, position) else {
        return None;
    };
    tree.remove(summed, &UnsafeRef::new(place));
    refresh(tree, summed);
    Some(place)
}

// Sets the number of the place, and returns the first member whose number is greater than the bound.
fn first_above<T, L: RBTreeOps, A: Allocator>(
    tree: &RBTree<T>,
    summed: &mut Augmented<L, Greatest<A>>,
    place: Place,
    number: u64,
    bound: u64,
) -> Option<Place>
    requires covered { IsCovered (L.table (links_of summed.old)) place }
    requires ready { IsReady L.node L.table greatest (λ summaries q. index_of q < room_of summaries) tree.now summed.old }
    ensures ready { IsReady L.node L.table greatest (λ summaries q. index_of q < room_of summaries) tree.now summed.new }
    ensures number { number_at (summaries_of summed.new) place ≡ number }
    ensures found { (s : List Place) → RepresentsAugmented L.node (greatest (summaries_of summed.new)) (L.table (links_of summed.new)) (root_of tree.now) s
        → result ≡ first (filter (is_greater (number_at (summaries_of summed.new)) bound) s) }
    ensures extent { (L.table (links_of summed.new)).extent ≡ (L.table (links_of summed.old)).extent }
{
    set_value(summed, place, number);
    refresh(tree, summed);
    first_greater(tree, summed, bound)
}

// Returns the first interval that overlaps `[from, to)`. The interval of a member starts at its key and ends at its number.
fn first_overlapping<L: RBTreeOps + LinkValues<u64>>(
    tree: &RBTree<OwnKey>,
    summed: &Augmented<L, Greatest>,
    from: u64,
    to: u64,
) -> Option<Place>
    requires ready { IsReady L.node L.table greatest (λ summaries q. index_of q < room_of summaries) tree.now summed.now }
    ensures found { (s : List Place) → RepresentsAugmented L.node (greatest (summaries_of summed.now)) (L.table (links_of summed.now)) (root_of tree.now) s
        → IsSorted nat_cmp (map (start_in (L.values (links_of summed.now))) s)
        → result ≡ first (filter (overlaps (start_in (L.values (links_of summed.now))) (number_at (summaries_of summed.now)) from to) s) }
{
    first_overlap(tree, summed, &summed.links, from, to)
}

// Inserts the objects at the places 0, 1 and 2.
fn put_three<L: RBTreeOps + LinkValues<u64>, M: RecomputeSummaries>(
    tree: &mut RBTree<OwnKey>,
    summed: &mut Augmented<L, M>,
)
    requires covers { 3 ≤ (L.table (links_of summed.old)).extent.places }
    requires ready { IsReady L.node L.table M.summaries M.Covers tree.old summed.old }
    ensures ready { IsReady L.node L.table M.summaries M.Covers tree.new summed.new }
    ensures extent { (L.table (links_of summed.new)).extent ≡ (L.table (links_of summed.old)).extent }
{
    for index in 0..3 {
        put(tree, summed, reference(index));
    }
}

// Finds members by their position, and removes members by their position. The keys at the places 0 to 3 are 40, 10, 30 and 20, so the places 1, 3, 2
// and 0 have the positions 0 to 3.
fn play_positions<L: RBTreeOps + LinkValues<u64>>(
    rt: &impl Abort,
    tree: &mut RBTree<OwnKey>,
    summed: &mut Augmented<L, Counts>,
)
    requires covers { (L.table (links_of summed.old)).extent.places ≡ 4 }
    requires ready { IsReady L.node L.table counts (λ summaries q. index_of q < room_of summaries) tree.old summed.old }
{
    put_three(tree, summed);
    put_and_propagate(rt, tree, summed, reference(3));
    assert_same(rt, position_of_nth(&*tree, &*summed, 2), 2);
    assert_same(rt, position_of_nth(&*tree, &*summed, 9), 4);
    assert_same(rt, take_nth(tree, summed, 1), Some(place_at(3)));
    assert_same(rt, take_nth(tree, summed, 3), None);
    assert_same(rt, position_of_nth(&*tree, &*summed, 9), 3);
    assert_same(rt, take_nth(tree, summed, 1), Some(place_at(2)));
}

// Finds the first member with a number above a bound, before and after the number of a member is raised. Then it finds the first interval that overlaps
// a given interval. The keys at the places 0 to 2 are 10, 20 and 30.
fn play_above<L: RBTreeOps + LinkValues<u64>>(
    rt: &impl Abort,
    tree: &mut RBTree<OwnKey>,
    summed: &mut Augmented<L, Greatest>,
)
    requires covers { (L.table (links_of summed.old)).extent.places ≡ 3 }
    requires ready { IsReady L.node L.table greatest (λ summaries q. index_of q < room_of summaries) tree.old summed.old }
{
    put_three(tree, summed);
    let found = first_above(&*tree, summed, place_at(2), 50, 0);
    assert_same(rt, found, Some(place_at(2)));
    let found = first_above(&*tree, summed, place_at(0), 60, 40);
    assert_same(rt, found, Some(place_at(0)));
    let found = first_above(&*tree, summed, place_at(0), 40, 40);
    assert_same(rt, found, Some(place_at(2)));
    let found = first_above(&*tree, summed, place_at(1), 50, 50);
    assert_same(rt, found, None);
    let found = first_overlapping(&*tree, &*summed, 45, 46);
    assert_same(rt, found, Some(place_at(1)));
    assert_same(rt, first_overlapping(&*tree, &*summed, 50, 60), None);
}

#[test]
fn members_by_position(rt: HostRuntime) {
    let (mut tree, mut summed) = empty_tree::<()>(&rt, rt.alloc(), &[40, 10, 30, 20]);
    play_positions(&rt, &mut tree, &mut summed);
}

#[test]
fn the_first_above(rt: HostRuntime) {
    let (mut tree, mut summed) = empty_tree::<u64>(&rt, rt.alloc(), &[10, 20, 30]);
    play_above(&rt, &mut tree, &mut summed);
}
