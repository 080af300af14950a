//! Tests of lists by plain calls. The tests make each plain call at least once.

ghost use Rattle.std.specs.Prelude.{[]};
ghost use Rattle.ic_link_ops.specs.DoublyEntries.{DoublyLink, RepresentsList, PlainRepresentsSome, neighbors_of};
ghost use Rattle.ic_link_ops.specs.LinkedList.{RepresentsSome};
ghost use Rattle.ic_link_ops.specs.Prelude.{table, Table, IsCovered, IsUnlinked};
ghost use Rattle.ic_link_ops.specs.Readings as readings;
ghost use Rattle.ic_plain.specs.SinglyEntries as singly;
ghost use Rattle.ic_plain.specs.XorEntries as xor;

use crate::fixtures::{check, covering, index, index_of, unlinked};
use ic_link_ops::linked_list::NarrowLinkOps;
use ic_link_ops::{AcceptsUnlinked, PlainTable, PrevPlace};
use ic_linked_list::{LinkOps, LinkedList, LinkedListOps};
use ic_plain::example::{add, requeue, reuse, slide};
use ic_plain::{linked_list, singly_linked_list, xor_linked_list};
use ic_singly_linked_list::SinglyLinkedList;
use ic_unsafe_ref::UnsafeRef;
use ic_xor_linked_list::XorLinkedList;
use std::process::Abort;

// Returns a new list. Its contract is stated for the plain table of links with 8-byte words.
fn new_doubly() -> LinkedList<u64>
    ensures empty { (t : Table DoublyLink) → RepresentsList t result [] }
    ensures shows { (t : Table DoublyLink) → RepresentsSome neighbors_of t result }
{
    linked_list::new()
}

fn new_singly() -> SinglyLinkedList<u64>
    ensures empty { (t : Table singly.SinglyLink) → singly.RepresentsList t result [] }
    ensures shows { (t : Table singly.SinglyLink) → singly.RepresentsSomeList t result }
{
    singly_linked_list::new()
}

fn new_xor() -> XorLinkedList<u64>
    ensures empty { (t : Table xor.XorLink) → xor.RepresentsList t result [] }
    ensures shows { (t : Table xor.XorLink) → xor.RepresentsSomeList t result }
{
    xor_linked_list::new()
}

// What a test does with an object that it has inserted at the back of a list.
#[derive(Clone, Copy)]
enum Then {
    MoveToFront,
    // The object is already at the back.
    MoveToBack,
    Remove,
}

// Inserts the object after all members, and then moves or removes it.
fn push_and<L: LinkedListOps + AcceptsUnlinked>(
    list: &mut LinkedList<u64>,
    links: &mut L,
    object: UnsafeRef<u64>,
    then: Then,
)
    requires covered { IsCovered (L.table links.old) object }
    requires unlinked { IsUnlinked L.linked (L.table links.old) object }
    requires shown { RepresentsSome L.neighbors (L.table links.old) list.old }
    ensures shown { RepresentsSome L.neighbors (L.table links.new) list.new }
{
    linked_list::push_back(list, links, UnsafeRef::new(object.place()));
    match then {
        Then::MoveToFront => linked_list::move_to_front(list, links, &object),
        Then::MoveToBack => linked_list::move_to_back(list, links, &object),
        Then::Remove => linked_list::remove(list, links, &object),
    }
}

// Inserts the objects at the places with these indices, one after the other, and moves or removes each of them before it inserts the next one.
fn push_each<W: PrevPlace>(
    rt: &impl Abort,
    list: &mut LinkedList<u64>,
    links: &mut PlainTable<W>,
    steps: &[(usize, Then)],
)
    requires shown { RepresentsSome (readings.neighbors_of W.next_word W.is_linked W.prev) (table W.width W.unlinked links.old) list.old }
    ensures shown { RepresentsSome (readings.neighbors_of W.next_word W.is_linked W.prev) (table W.width W.unlinked links.new) list.new }
{
    for (index, then) in steps {
        let object = unlinked(rt, &*links, *index);
        push_and(list, links, object, *then);
    }
}

// Reuses the last member of the list, which moves it to the front.
fn use_last(list: &mut LinkedList<u64>, links: &mut LinkOps)
    requires shown { PlainRepresentsSome links.old list.old }
    ensures shown { PlainRepresentsSome links.new list.new }
{
    if let Some(last) = linked_list::last(list, links) {
        reuse(list, links, &UnsafeRef::new(last));
    }
}

// Moves the first member to the back.
fn requeue_first(list: &mut LinkedList<u64>, links: &mut LinkOps)
    requires shown { PlainRepresentsSome links.old list.old }
    ensures shown { PlainRepresentsSome links.new list.new }
{
    if let Some(first) = linked_list::first(list, links) {
        requeue(list, links, &UnsafeRef::new(first));
    }
}

#[test]
fn doubly_linked(rt: HostRuntime) {
    let mut links: LinkOps = covering(&rt, rt.alloc());
    let mut list = new_doubly();
    check(&rt, linked_list::is_empty(&list, &links));
    let object = unlinked(&rt, &links, 1);
    linked_list::push_back(&mut list, &mut links, object);
    let object = unlinked(&rt, &links, 0);
    add(&mut list, &mut links, object);
    let steps = [
        (3, Then::Remove),
        (2, Then::MoveToBack),
        (3, Then::MoveToFront),
    ];
    push_each(&rt, &mut list, &mut links, &steps);
    // the order of the members is 3, 0, 1, 2
    use_last(&mut list, &mut links);
    requeue_first(&mut list, &mut links);
    requeue_first(&mut list, &mut links);
    let ends = [
        index(linked_list::first(&list, &links)),
        index(linked_list::last(&list, &links)),
    ];
    let left = [
        index_of(linked_list::pop_back(&mut list, &mut links)),
        index_of(linked_list::pop_front(&mut list, &mut links)),
        index_of(linked_list::pop_front(&mut list, &mut links)),
    ];
    check(&rt, ends == [0, 3] && left == [3, 0, 1]);
}

#[test]
fn xor_linked(rt: HostRuntime) {
    let mut links: ic_xor_linked_list::LinkOps = covering(&rt, rt.alloc());
    let mut list = new_xor();
    let object = unlinked(&rt, &links, 1);
    xor_linked_list::push_front(&mut list, &mut links, object);
    let object = unlinked(&rt, &links, 2);
    xor_linked_list::push_back(&mut list, &mut links, object);
    let ends = [
        index(xor_linked_list::first(&list, &links)),
        index(xor_linked_list::last(&list, &links)),
    ];
    let left = [
        index_of(xor_linked_list::pop_back(&mut list, &mut links)),
        index_of(xor_linked_list::pop_front(&mut list, &mut links)),
    ];
    check(&rt, ends == [1, 2] && left == [2, 1]);
    check(&rt, xor_linked_list::is_empty(&list, &links));
}

#[test]
fn singly_linked(rt: HostRuntime) {
    let mut links: ic_singly_linked_list::LinkOps = covering(&rt, rt.alloc());
    let mut list = new_singly();
    let object = unlinked(&rt, &links, 1);
    singly_linked_list::push_front(&mut list, &mut links, object);
    let object = unlinked(&rt, &links, 2);
    singly_linked_list::push_front(&mut list, &mut links, object);
    let first = index(singly_linked_list::first(&list, &links));
    let left = [
        index_of(singly_linked_list::pop_front(&mut list, &mut links)),
        index_of(singly_linked_list::pop_front(&mut list, &mut links)),
    ];
    check(&rt, first == 2 && left == [2, 1]);
    check(&rt, singly_linked_list::is_empty(&list, &links));
}

// The plain calls of a doubly linked list over links with 4-byte words must leave the members in the right order.
// Promise: plain calls over 4-byte words.
#[test]
fn doubly_linked_over_narrow_links(rt: HostRuntime) {
    let mut links: NarrowLinkOps = covering(&rt, rt.alloc());
    let mut list: LinkedList<u64> = linked_list::new();
    let object = unlinked(&rt, &links, 1);
    linked_list::push_front(&mut list, &mut links, object);
    let steps = [
        (0, Then::Remove),
        (2, Then::MoveToBack),
        (3, Then::MoveToFront),
    ];
    push_each(&rt, &mut list, &mut links, &steps);
    // the order of the members is 3, 1, 2
    let object = unlinked(&rt, &links, 0);
    let first = index_of(slide(&mut list, &mut links, object));
    let ends = [
        index(linked_list::first(&list, &links)),
        index(linked_list::last(&list, &links)),
    ];
    check(&rt, first == 3 && ends == [1, 0]);
}

#[test]
fn xor_linked_over_narrow_links(rt: HostRuntime) {
    let mut links: ic_link_ops::xor_linked_list::NarrowLinkOps = covering(&rt, rt.alloc());
    let mut list: XorLinkedList<u64> = xor_linked_list::new();
    let object = unlinked(&rt, &links, 1);
    xor_linked_list::push_front(&mut list, &mut links, object);
    let object = unlinked(&rt, &links, 2);
    xor_linked_list::push_back(&mut list, &mut links, object);
    let left = [
        index_of(xor_linked_list::pop_back(&mut list, &mut links)),
        index_of(xor_linked_list::pop_front(&mut list, &mut links)),
    ];
    check(&rt, left == [2, 1]);
}

#[test]
fn singly_linked_over_narrow_links(rt: HostRuntime) {
    let mut links: ic_link_ops::singly_linked_list::NarrowLinkOps = covering(&rt, rt.alloc());
    let mut list: SinglyLinkedList<u64> = singly_linked_list::new();
    let object = unlinked(&rt, &links, 1);
    singly_linked_list::push_front(&mut list, &mut links, object);
    let object = unlinked(&rt, &links, 2);
    singly_linked_list::push_front(&mut list, &mut links, object);
    let left = [
        index_of(singly_linked_list::pop_front(&mut list, &mut links)),
        index_of(singly_linked_list::pop_front(&mut list, &mut links)),
    ];
    check(&rt, left == [2, 1]);
}
