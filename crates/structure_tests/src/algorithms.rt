//! Tests of the algorithms over lists. Each algorithm is called on a list of eight objects, for every kind of list that has the algorithm.

ghost use Rattle.std.specs.Prelude.{◌≡◌, ◌<◌, ◌≤◌, List, length, true};
ghost use Rattle.ic_link_ops.specs.Prelude.{Place, index_of, is_placed, RepresentsChain, RepresentsSomeChain};
ghost use Rattle.ic_list_algorithms.specs.Runs.{WithinComparisonBound};
ghost use Rattle.structure_tests.specs.OfEight.{HoldsOfEight};

use crate::asserts::{assert_same, assert_true};
use ic_chain::{ForwardLinks, LinkList, ListKind};
use ic_link_ops::linked_list::{LinkOpsWith, TwoWords};
use ic_link_ops::singly_linked_list::Singly;
use ic_link_ops::{LinkOps, LinkValues, OneWord, PlainTable};
use ic_linked_list::DoublyLinked;
use ic_list_algorithms as algorithms;
use ic_list_algorithms::{By, Counted, Following, Natural};
use ic_singly_linked_list::SinglyLinked;
use ic_test_support::objects::{TENS, eight_objects, place_at};
use ic_unsafe_ref::{Objects, Place, UnsafeRef};
use std::process::Abort;

// Inserts the objects at the first `members` places into a new list, in the order of their places.
fn filled<K: ForwardLinks<L>, L: LinkOps>(links: &mut L, members: usize) -> LinkList<K, u64>
    requires few { members ≤ 8 }
    requires covered { (L.table links.old).extent.places ≡ 8 }
    ensures covers { (L.table links.new).extent.places ≡ 8 }
    ensures shown { RepresentsSomeChain K.Between K.kept (L.table links.new) result }
{
    let mut list = LinkList::new();
    for given in 0..members {
        let place = Place::new(members - 1 - given).unwrap();
        let _ = list.push_front(links, UnsafeRef::new(place));
    }
    list
}

// Sorts a list of numbers, and returns how often two numbers were compared.
fn sort_and_count<K: Following<L>, L: LinkOps>(
    list: &mut LinkList<K, u64>,
    links: &mut L,
    objects: &Objects<u64>,
) -> u64
    requires held { HoldsOfEight K.Between K.kept (L.table links.old) list.old objects.now }
    ensures few { (s : List Place) → RepresentsChain K.Between K.kept (L.table links.old) list.old s → WithinComparisonBound 0 result (length s) }
    ensures held { HoldsOfEight K.Between K.kept (L.table links.new) list.new objects.now }
{
    let mut order = Counted::new(Natural);
    algorithms::sort_by(list, links, objects, &mut order);
    order.looks()
}

// Sorts a list by the numbers beside its links, the largest first. Then it sorts the list by these numbers, the smallest first, and merges an empty
// list into it. Returns the first member after each of the two sorts.
fn sorted_keyed<K: Following<L>, L: LinkValues<u64>>(
    list: &mut LinkList<K, u64>,
    links: &mut L,
) -> (Option<usize>, Option<usize>)
    requires shown { RepresentsSomeChain K.Between K.kept (L.table links.old) list.old }
    ensures shown { RepresentsSomeChain K.Between K.kept (L.table links.new) list.new }
    ensures values { L.values links.new ≡ L.values links.old }
{
    let mut largest_first = By::new(|a: &u64, b: &u64| b.cmp(a));
    algorithms::sort_keyed(list, links, &mut largest_first);
    let largest = index_of_first(list);
    algorithms::sort_keyed(list, links, &mut Natural);
    algorithms::merge_keyed(list, links, &mut Natural, LinkList::new());
    (largest, index_of_first(list))
}

// Returns whether the list is in order, its length, its fourth member, and the position and the place of its first member above 40.
fn walked<K: ForwardLinks<L>, L: LinkOps>(
    list: &LinkList<K, u64>,
    links: &L,
    objects: &Objects<u64>,
) -> (bool, usize, Option<usize>, Option<usize>, Option<usize>)
    requires held { HoldsOfEight K.Between K.kept (L.table links.now) list.now objects.now }
{
    (
        algorithms::is_sorted_by(list, links, objects, &mut Natural),
        algorithms::len(list, links),
        index(algorithms::nth(list, links, 3)),
        algorithms::position(list, links, objects, |value: &u64| *value > 40),
        index(algorithms::find(list, links, objects, |value: &u64| *value > 40)),
    )
}

// Returns the index of an object's place, or `None` if there is no object.
fn index(object: Option<UnsafeRef<u64>>) -> Option<usize> {
    match object {
        Some(object) => Some(object.place().index()),
        None => None,
    }
}

// Merges an empty list into a list, and rotates the list by its first two members. Then it sorts the list of numbers, the largest first. Returns the
// first member of the rotated list, and the first member of the sorted list.
fn merged_and_sorted<K: Following<L>, L: LinkOps>(
    list: &mut LinkList<K, u64>,
    links: &mut L,
    objects: &Objects<u64>,
) -> (Option<usize>, Option<usize>)
    requires held { HoldsOfEight K.Between K.kept (L.table links.old) list.old objects.now }
    ensures held { HoldsOfEight K.Between K.kept (L.table links.new) list.new objects.now }
{
    algorithms::merge_by(list, links, objects, &mut Natural, LinkList::new());
    let rotated = turned(list, links);
    let mut largest_first = By::new(|a: &u64, b: &u64| b.cmp(a));
    algorithms::sort_by(list, links, objects, &mut largest_first);
    (rotated, index_of_first(list))
}

// Rotates a list by its first two members, and returns the first member of the rotated list.
fn turned<K: ForwardLinks<L>, L: LinkOps>(
    list: &mut LinkList<K, u64>,
    links: &mut L,
) -> Option<usize>
    requires shown { RepresentsSomeChain K.Between K.kept (L.table links.old) list.old }
    ensures shown { RepresentsSomeChain K.Between K.kept (L.table links.new) list.new }
    ensures extent { (L.table links.new).extent ≡ (L.table links.old).extent }
{
    algorithms::rotate_left(list, links, 2);
    index_of_first(list)
}

// Removes all members except the numbers above 30, and returns the first remaining member.
fn sifted<K: ForwardLinks<L>, L: LinkOps>(
    list: &mut LinkList<K, u64>,
    links: &mut L,
    objects: &Objects<u64>,
) -> Option<usize>
    requires held { HoldsOfEight K.Between K.kept (L.table links.old) list.old objects.now }
    ensures held { HoldsOfEight K.Between K.kept (L.table links.new) list.new objects.now }
{
    algorithms::retain(list, links, objects, |value: &u64| *value > 30);
    index_of_first(list)
}

// Removes each member that has the same hundreds as the member before it, and returns how many members are left.
fn deduped<K: ForwardLinks<L>, L: LinkOps>(
    list: &mut LinkList<K, u64>,
    links: &mut L,
    objects: &Objects<u64>,
) -> usize
    requires held { HoldsOfEight K.Between K.kept (L.table links.old) list.old objects.now }
    ensures held { HoldsOfEight K.Between K.kept (L.table links.new) list.new objects.now }
{
    algorithms::dedup_by(
        list,
        links,
        objects,
        |a: &u64, b: &u64| *a / 100 == *b / 100,
    );
    algorithms::len(list, links)
}

// Returns the index of the first member's place, or `None` if the list is empty.
fn index_of_first<K: ListKind>(list: &LinkList<K, u64>) -> Option<usize> {
    match list.first() {
        Some(place) => Some(place.index()),
        None => None,
    }
}

// Calls each algorithm that all kinds of lists have, on a list of all eight objects, and returns the list.
fn play<K: Following<L>, L: LinkOps>(
    rt: &impl Abort,
    links: &mut L,
    objects: &Objects<u64>,
) -> LinkList<K, u64>
    requires covered { (L.table links.old).extent.places ≡ 8 }
    requires placed { (q : Place) → index_of q < 8 → is_placed objects.now q ≡ true }
    ensures held { HoldsOfEight K.Between K.kept (L.table links.new) result objects.now }
{
    let mut list: LinkList<K, u64> = filled(links, 8);
    let found = walked(&list, &*links, objects);
    assert_same(rt, found, (true, 8, Some(3), Some(4), Some(4)));
    assert_same(rt, sort_and_count(&mut list, links, objects), 12);
    let firsts = merged_and_sorted(&mut list, links, objects);
    assert_same(rt, firsts, (Some(2), Some(7)));
    assert_same(rt, turned(&mut list, links), Some(5));
    let _ = sort_and_count(&mut list, links, objects);
    assert_same(rt, sifted(&mut list, links, objects), Some(3));
    list.clear(links);
    let mut list: LinkList<K, u64> = filled(links, 8);
    assert_same(rt, deduped(&mut list, links, objects), 1);
    list
}

// Calls the algorithms that sort by the numbers beside the links, on a list with the numbers 30, 10 and 20.
fn play_keyed<K: Following<L>, L: LinkValues<u64>>(rt: &impl Abort, links: &mut L)
    requires covered { (L.table links.old).extent.places ≡ 8 }
{
    links.set_value(place_at(0), 30);
    links.set_value(place_at(1), 10);
    links.set_value(place_at(2), 20);
    let mut list: LinkList<K, u64> = filled(links, 3);
    let firsts = sorted_keyed(&mut list, links);
    assert_same(rt, firsts, (Some(0), Some(1)));
    assert_same(rt, turned(&mut list, links), Some(0));
}

// Calls the algorithms on a list that keeps its last member. The empty list that is appended must be empty afterwards.
#[test]
fn algorithms_over_doubly_lists(rt: HostRuntime) {
    let (objects, mut links) = eight_objects(rt.alloc(), TENS).expect(&rt, "memory");
    let mut list = play::<DoublyLinked, PlainTable<TwoWords>>(&rt, &mut links, &objects);
    let mut other = LinkList::new();
    algorithms::append(&mut list, &mut links, &mut other);
    assert_true(&rt, other.is_empty());
}

// Calls the algorithms on a list that keeps only its first member. The empty list is appended by a walk to the last member.
#[test]
fn algorithms_over_singly_lists(rt: HostRuntime) {
    let (objects, mut links) = eight_objects(rt.alloc(), TENS).expect(&rt, "memory");
    let mut list = play::<SinglyLinked, PlainTable<OneWord<Singly>>>(&rt, &mut links, &objects);
    let mut other = LinkList::new();
    algorithms::append_walking(&mut list, &mut links, &mut other);
    assert_true(&rt, other.is_empty());
}

#[test]
fn sorts_by_what_stands_beside_links(rt: HostRuntime) {
    let mut links: LinkOpsWith<u64> = LinkOpsWith::new(rt.alloc());
    let _ = links.cover(8);
    assert!(rt; links.covers() == 8);
    play_keyed::<DoublyLinked, LinkOpsWith<u64>>(&rt, &mut links);
}
