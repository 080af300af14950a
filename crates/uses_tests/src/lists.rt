//! Tests of the first steps, a free list, pairs, walks, and tables of a caller's own. Their tables cover a few places.

ghost use Rattle.ic_link_ops.specs.DoublyEntries.{PlainRepresents};
ghost use Rattle.ic_link_ops.specs.PlacedObjects.{RepresentsPlaced};

use crate::fixtures::{
    MEMORY, UNLINKED, check, covering, index, index_of_object, object, placed, two,
};
use ic_link_ops::linked_list::LinkOps;
use ic_linked_list::LinkedList;
use ic_singly_linked_list::SinglyLinkedList;
use ic_test_support::rationed::Rationed;
use ic_unsafe_ref::Objects;
use std::process::Abort;
use uses::either_table::EitherTable;
use uses::first_objects::{ObjectsError, first_objects};
use uses::first_steps::first_steps;
use uses::free_list::{give_and_take, give_back, take};
use uses::recorded_table::{Note, RecordedTable, Recorder};
use uses::retain::retain;
use uses::{borrowed_table, deal, pairs};

#[test]
fn the_first_objects_need_memory(rt: HostRuntime) {
    // The objects and the links need at least two requests for memory. The list of seen values makes one more request, for no more bytes than it needs.
    for request in 0..3 {
        let short = Rationed::new(rt.alloc(), request);
        let is_so = match first_objects(&short, 10, 20) {
            Ok((seen, 10, Some(20))) => request == 2 && matches!(seen.as_slice(), [10, 20]),
            Err(ObjectsError::OutOfMemory) => request < 2,
            _ => false,
        };
        check(&rt, is_so);
    }
}

#[test]
fn the_first_steps_end_on_the_first_object(rt: HostRuntime) {
    let (links, first, second) = two(&rt, rt.alloc());
    let position = first_steps(links, first, second).expect(&rt, UNLINKED);
    check(&rt, index(position) == 2);
}

#[test]
fn the_latest_object_is_taken(rt: HostRuntime) {
    let (mut links, first, second) = two(&rt, rt.alloc());
    let mut free = SinglyLinkedList::new();
    give_back(&mut free, &mut links, first).expect(&rt, UNLINKED);
    let latest = give_and_take(&mut free, &mut links, second).expect(&rt, UNLINKED);
    let oldest = take(&mut free, &mut links);
    check(
        &rt,
        index_of_object(latest) == 0 && index_of_object(oldest) == 2,
    );
}

#[test]
fn two_members_come_off_a_table_that_is_one_of_two(rt: HostRuntime) {
    let (table, first, second) = two(&rt, rt.alloc());
    let (mut list, mut links) = (LinkedList::new(), EitherTable::Second(table));
    links.push_back(&mut list, first).expect(&rt, UNLINKED);
    borrowed_table::push_back(&mut list, &mut links, second).expect(&rt, UNLINKED);
    let (front, back) = pairs::take_both(list, &mut links).expect(&rt, "a list of two");
    let front = front.place();
    let (low, high) = pairs::in_order(front, back.place());
    let is_second = matches!(&links, EitherTable::Second(_));
    check(
        &rt,
        is_second && front.index() == 2 && low.index() == 0 && high.index() == 2,
    );
}

// Makes a list of the first `members` objects, in their order.
fn linked(
    rt: &impl Abort,
    links: &mut LinkOps,
    objects: &Objects<u64>,
    members: usize,
) -> LinkedList<u64>
    ensures members { RepresentsPlaced (PlainRepresents links.new result) objects.now }
{
    let mut list = LinkedList::new();
    for index in 0..members {
        let next = object(rt, links, objects, index);
        list.push_back(links, next).expect(rt, UNLINKED);
    }
    list
}

#[test]
fn two_numbers_are_read(rt: HostRuntime) {
    let objects = placed(&rt, rt.alloc(), &[10, 11, 12]);
    let mut links: LinkOps = covering(&rt, rt.alloc());
    let list = linked(&rt, &mut links, &objects, 2);
    let both = pairs::both(&list, &links, &objects);
    check(&rt, matches!(both, Some((&10, &11))));
    check(&rt, pairs::larger(&list, &links, &objects) == Some(11));
    let mut links: LinkOps = covering(&rt, rt.alloc());
    let list = linked(&rt, &mut links, &objects, 3);
    check(&rt, pairs::larger(&list, &links, &objects).is_none());
}

// A log that stores notes in a vector. A test has enough memory for the vector.
#[derive(Drop)]
struct Log<'r, R: Abort> {
    rt: &'r R,
    notes: Vec<Note>,
}

impl<R: Abort> Recorder for Log<'_, R> {
    ghost notes = { λ log. log.notes.items };

    fn add(&mut self, note: Note) {
        self.notes.push(note).expect(self.rt, MEMORY);
    }
}

#[test]
fn link_steps_are_noted(rt: HostRuntime) {
    let (table, first, _) = two(&rt, rt.alloc());
    let place = first.place();
    let log = Log {
        rt: &rt,
        notes: Vec::new(rt.alloc()),
    };
    let (mut list, mut links) = (LinkedList::new(), RecordedTable::new(table, log));
    links.push_back(&mut list, first).expect(&rt, UNLINKED);
    let taken = links.pop_front(&mut list);
    let notes = &links.recorder().notes;
    check(
        &rt,
        index_of_object(taken) == 2 && notes[0] == Note::Acquired(place),
    );
    check(
        &rt,
        notes.len() == 2 && notes.last() == Some(&Note::Released(place)),
    );
}

#[test]
fn a_cleared_list_is_noted(rt: HostRuntime) {
    let (table, first, _) = two(&rt, rt.alloc());
    let place = first.place();
    let log = Log {
        rt: &rt,
        notes: Vec::new(rt.alloc()),
    };
    let (mut list, mut links) = (LinkedList::new(), RecordedTable::new(table, log));
    links.push_back(&mut list, first).expect(&rt, UNLINKED);
    links.clear(&mut list);
    let notes = &links.recorder().notes;
    check(
        &rt,
        notes.len() == 2 && notes.last() == Some(&Note::Released(place)),
    );
}

fn is_odd(object: &u64) -> bool {
    object % 2 == 1
}

#[test]
fn what_is_kept_is_dealt_from_both_ends(rt: HostRuntime) {
    let objects = placed(&rt, rt.alloc(), &[10, 11, 12, 13, 14]);
    let mut links: LinkOps = covering(&rt, rt.alloc());
    let mut list = linked(&rt, &mut links, &objects, 5);
    {
        let (mut fronts, mut backs) = (Vec::new(rt.alloc()), Vec::new(rt.alloc()));
        let _ = deal::show(&list, &links, &objects, &mut fronts, &mut backs);
        check(
            &rt,
            matches!(fronts.pop(), Some(&12)) && matches!(backs.pop(), Some(&13)),
        );
    }
    retain(&mut list, &mut links, &objects, is_odd);
    let (mut fronts, mut backs) = (Vec::new(rt.alloc()), Vec::new(rt.alloc()));
    let _ = deal::deal(list, &mut links, &mut fronts, &mut backs);
    check(
        &rt,
        index_of_object(fronts.pop()) == 1 && index_of_object(backs.pop()) == 3,
    );
}
