//! Tests of the checks of collections. A check must accept a collection that calls have made, and must refuse it after a member's link is removed. A
//! list that is read from a file is used only after a check has accepted it.

ghost use Rattle.std.specs.Prelude.{◌≡◌, ◌<◌, ◌≤◌, length, IfSome};
ghost use Rattle.ic_link_ops.specs.Prelude.{index_of, IsNameable, table, HasRoom, wide};
ghost use Rattle.ic_link_ops.specs.DoublyEntries as doubly;
ghost use Rattle.ic_rbtree.specs.Prelude.{PlainRepresentsSome, root_of};

use crate::asserts::assert_true;
use ic_chain::LinkList;
use ic_check::{
    NamesItsNext, TellsLinks, TellsNeighbors, check, check_all, check_both, check_marking,
    check_tree, is_sorted,
};
use ic_link_ops::linked_list::LinkedListOps;
use ic_link_ops::{
    OneWord, PlainTable, Words, linked_list, rbtree, singly_linked_list, xor_linked_list,
};
use ic_linked_list::{DoublyLinked, LinkedList};
use ic_rbtree::{KeyAdapter, RBTree};
use ic_singly_linked_list::SinglyLinked;
use ic_test_support::answers::{object, placed};
use ic_test_support::notes::{Answer, Text};
use ic_test_support::tables::are_placed;
use ic_unsafe_ref::{Objects, Place, UnsafeRef};
use ic_xor_linked_list::XorLinkedList;
use std::alloc::Global;
use std::process::Abort;

// Returns the place with this index.
fn place(index: usize) -> Place
    requires { index < 4 }
    ensures { index_of result ≡ index }
{
    Place::new(index).unwrap()
}

// Notes how many members a check has found, or that it has refused the collection.
fn write_found(notes: &mut Text, found: Option<usize>) {
    let answer = match found {
        Some(count) => Answer::Number(count as u64),
        None => Answer::Nothing,
    };
    notes.add(answer, " ");
}

// Returns a list of the objects at the places 2, 1 and 0, in this order.
fn list_of_three<K: TellsNeighbors<PlainTable<W>>, W: Words>(
    links: &mut PlainTable<W>,
) -> LinkList<K, u64>
    requires covered { (table W.width W.unlinked links.old).extent.places ≡ 3 }
    ensures covers { (table W.width W.unlinked links.new).extent.places ≡ 3 }
{
    let mut list = LinkList::new();
    for index in 0..3 {
        let _ = list.push_front(links, UnsafeRef::new(place(index)));
    }
    list
}

// Notes the result of a check of a list of three members, and the result of a check after the second member is unlinked by force.
fn write_list<K: NamesItsNext<PlainTable<W>>, W: Words>(
    rt: &impl Abort,
    alloc: Global,
    notes: &mut Text,
) {
    let mut links = PlainTable::new(alloc);
    let _ = links.cover(3);
    assert!(rt; links.covers() == 3);
    let list: LinkList<K, u64> = list_of_three(&mut links);
    write_found(notes, check(&list, &links));
    links.force_unlink(place(1));
    notes.add(Answer::Truth(links.tells_linked(place(1))), " ");
    write_found(notes, check(&list, &links));
    notes.add(Answer::Number(links.covered_places() as u64), " ");
}

#[test]
fn a_doubly_linked_list_is_checked(rt: HostRuntime) {
    let alloc = rt.alloc();
    let mut notes = Text::new(alloc);
    write_list::<DoublyLinked, linked_list::TwoWords>(&rt, alloc, &mut notes);
    assert_true(&rt, notes.has_words("3 no none 3"));
}

#[test]
fn a_singly_linked_list_is_checked(rt: HostRuntime) {
    let alloc = rt.alloc();
    let mut notes = Text::new(alloc);
    write_list::<SinglyLinked, OneWord<singly_linked_list::Singly>>(&rt, alloc, &mut notes);
    assert_true(&rt, notes.has_words("3 no none 3"));
}

#[test]
fn a_whole_table_is_checked(rt: HostRuntime) {
    let alloc = rt.alloc();
    let mut notes = Text::new(alloc);
    let mut links = linked_list::LinkOps::new(alloc);
    let _ = links.cover(3);
    assert!(rt; links.covers() == 3);
    let list: LinkedList<u64> = list_of_three(&mut links);
    let mut marks = [true; 3];
    write_found(&mut notes, check_all(&[list], &links, &mut marks));
    let none: [LinkedList<u64>; 0] = [];
    write_found(&mut notes, check_all(&none, &links, &mut marks));
    assert_true(&rt, notes.has_words("3 none"));
}

// The check must refuse an XOR list of three members after the second one is unlinked by force, because the other entries still lead to it. A check marks
// places in the array `marks`. All items are true before the first check, to test that a check does not depend on them.
#[test]
fn an_xor_list_is_checked(rt: HostRuntime) {
    let alloc = rt.alloc();
    let mut notes = Text::new(alloc);
    let mut links = xor_linked_list::LinkOps::new(alloc);
    let _ = links.cover(3);
    assert!(rt; links.covers() == 3);
    let list: XorLinkedList<u64> = list_of_three(&mut links);
    let mut marks = [true; 3];
    write_found(&mut notes, check_marking(&list, &links, &mut marks));
    links.force_unlink(place(1));
    write_found(&mut notes, check_marking(&list, &links, &mut marks));
    assert_true(&rt, notes.has_words("3 none"));
}

// Says that a number is its own key.
#[derive(Clone, Copy, Default)]
struct OwnKey;

impl KeyAdapter for OwnKey {
    type Value = u64;

    type Key = u64;

    ghost key_of = { λ _ value. value };

    fn get_key<'v>(&self, value: &'v u64) -> &'v u64 {
        value
    }
}

// Returns a tree of the objects at the first three places, in the order of their places.
fn tree_of_three(links: &mut rbtree::LinkOps) -> RBTree<OwnKey>
    ensures shown { PlainRepresentsSome links.new (root_of result) }
{
    let mut tree = RBTree::new(OwnKey);
    for index in 0..3 {
        if index < links.covers() {
            let mut cursor = tree.cursor_mut(links);
            let _ = cursor.insert_before(UnsafeRef::new(place(index)));
        }
    }
    tree
}

#[test]
fn a_tree_is_checked(rt: HostRuntime) {
    let alloc = rt.alloc();
    let mut notes = Text::new(alloc);
    let mut links = rbtree::LinkOps::new(alloc);
    let _ = links.cover(3);
    let tree = tree_of_three(&mut links);
    assert!(rt; links.covers() == 3);
    write_found(&mut notes, check_tree(&tree, &links));
    links.force_unlink(place(1));
    write_found(&mut notes, check_tree(&tree, &links));
    assert_true(&rt, notes.has_words("3 none"));
}

// A list of the fourth place and a tree of the first three places share a table of tree links, and the check must accept both together. The check must
// refuse the tree alone, because the place of the list is linked in no collection. The check must refuse the tree given twice, because each of its
// places is then in two collections.
#[test]
fn a_table_of_a_list_and_a_tree_is_checked(rt: HostRuntime) {
    let alloc = rt.alloc();
    let mut notes = Text::new(alloc);
    let mut links = rbtree::LinkOps::new(alloc);
    let _ = links.cover(4);
    assert!(rt; links.covers() == 4);
    let mut list: LinkedList<u64> = LinkedList::new();
    let _ = list.push_front(&mut links, UnsafeRef::new(place(3)));
    let trees = [tree_of_three(&mut links)];
    assert!(rt; links.covers() == 4);
    let mut marks = [true; 4];
    write_found(&mut notes, check_both(&[list], &trees, &links, &mut marks));
    let none: [LinkedList<u64>; 0] = [];
    write_found(&mut notes, check_both(&none, &trees, &links, &mut marks));
    write_found(&mut notes, check_both(&trees, &trees, &links, &mut marks));
    assert_true(&rt, notes.has_words("4 none none"));
}

// Notes whether a check finds the keys of a tree of three objects in order. The objects have the given keys, in the order of their places.
fn write_sorted(rt: &impl Abort, alloc: Global, notes: &mut Text, keys: &[u64]) {
    let mut objects = Objects::new(alloc);
    for key in keys {
        let _ = placed(&mut objects, *key);
    }
    let mut links = rbtree::LinkOps::new(alloc);
    let _ = links.cover(3);
    let tree = tree_of_three(&mut links);
    assert!(rt; are_placed(&links, &objects));
    notes.add(Answer::Truth(is_sorted(&tree, &links, &objects)), " ");
}

#[test]
fn the_order_of_a_tree_is_checked(rt: HostRuntime) {
    let alloc = rt.alloc();
    let mut notes = Text::new(alloc);
    write_sorted(&rt, alloc, &mut notes, &[10, 20, 20]);
    write_sorted(&rt, alloc, &mut notes, &[10, 30, 20]);
    assert_true(&rt, notes.has_words("yes no"));
}

// Returns the place that a word of a file names: none for 0, or else the place whose index is one less than the word.
fn end_of(word: usize) -> Option<Place>
    ensures named { IsNameable (HasRoom wide) result }
{
    if word == 0 {
        return None;
    }
    let place = Place::new(word - 1)?;
    Some(place)
}

// Links each place between its two neighbors, which a file names in a pair of words.
fn read_links(links: &mut linked_list::LinkOps, words: &[(usize, usize)])
    requires covered { length words.now ≤ (doubly.plain_table links.old).extent.places }
{
    for index in 0..words.len() {
        if let Some(place) = Place::new(index) {
            let (prev, next) = words[index];
            let _ = links.link_between(place, end_of(prev), end_of(next));
        }
    }
}

// Returns the list with these ends, if the table represents a list with these ends.
fn list_from_file(
    links: &linked_list::LinkOps,
    first: Option<Place>,
    last: Option<Place>,
) -> Option<LinkedList<u64>>
    ensures { IfSome result (λ list. doubly.PlainRepresentsSome links.now list) }
{
    let list = LinkedList::from_ends(first, last);
    if check(&list, links).is_none() {
        return None;
    }
    Some(list)
}

// Notes the first member of a list of two members that is read from these words, or none if the check refuses the list.
fn write_from_file(rt: &impl Abort, alloc: Global, notes: &mut Text, words: &[(usize, usize)])
    requires { length words.now ≡ 2 }
{
    let mut links = linked_list::LinkOps::new(alloc);
    let _ = links.cover(2);
    assert!(rt; links.covers() == 2);
    read_links(&mut links, words);
    match list_from_file(&links, end_of(1), end_of(2)) {
        Some(mut list) => notes.add(object(list.pop_front(&mut links)), " "),
        None => notes.add(Answer::Nothing, " "),
    }
}

#[test]
fn a_list_from_a_file_is_checked(rt: HostRuntime) {
    let alloc = rt.alloc();
    let mut notes = Text::new(alloc);
    write_from_file(&rt, alloc, &mut notes, &[(0, 2), (1, 0)]);
    write_from_file(&rt, alloc, &mut notes, &[(0, 2), (2, 0)]);
    assert_true(&rt, notes.has_words("0 none"));
}
