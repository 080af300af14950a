//! A test of rings by rows of calls. Each row expects the result that Linux's own test of its lists (`lib/list-test.c`) expects of the corresponding
//! call.

ghost use Rattle.std.specs.Prelude.{◌≡◌, ◌<◌, List, [], true};
ghost use Rattle.ic_link_ops.specs.Prelude.{Place, index_of, is_placed, IsAbsent};
ghost use Rattle.ic_ring.specs.Rings.{IsCircle, Represents, InRing};
ghost use Rattle.structure_tests.specs.TwoRings.{TwoRings};

mod calls;
mod connections;
mod rows;

use crate::asserts::assert_true;
use crate::ring::calls::{call_both, call_by_cursor, call_ring, exchange_heads};
use crate::ring::connections::write_served;
use crate::ring::rows::{BOTH_RINGS, BY_CURSOR, LAST, MOVED_BY_CURSOR, ONE_RING, Row, TWO_IN_EACH};
use ic_link_ops::LinkOps as _;
use ic_link_ops::linked_list::{LinkOps, LinkedListOps};
use ic_ring::{Ring, bypass, next, prev, turn_to};
use ic_test_support::answers::{object, value, write_places};
use ic_test_support::notes::{Answer, Text};
use ic_test_support::objects::{TENS, eight_objects, place_at};
use ic_unsafe_ref::Objects;
use std::alloc::Global;
use std::process::Abort;

// Returns a ring with no members, whose head is the place with the index `head`.
fn opened<L: LinkedListOps>(rt: &impl Abort, links: &mut L, head: usize) -> Ring<u64>
    requires few { head < 8 }
    requires covers { (L.table links.old).extent.places ≡ 8 }
    ensures covers { (L.table links.new).extent.places ≡ 8 }
    ensures shown { Represents L.neighbors (L.table links.new) result [] }
    ensures ring { InRing L.neighbors (L.table links.new) result }
    ensures others { (r : List Place) → IsCircle L.neighbors (L.table links.old).entry r
        → IsCircle L.neighbors (L.table links.new).entry r × IsAbsent result r }
{
    let opened: Option<Ring<u64>> = Ring::open(links, place_at(head));
    let ring = opened.expect(rt, "a head that is not linked");
    Ring::from_head(ring.head())
}

// Links the two neighbors of the first member to each other, and then to the first member again. Each time it notes which member is the first.
fn write_bypassed<L: LinkedListOps>(notes: &mut Text, links: &mut L, ring: &Ring<u64>)
    requires { InRing L.neighbors (L.table links.old) ring.now }
{
    let head = ring.head();
    let first = next(&*links, head);
    let before = prev(&*links, first);
    let after = next(&*links, first);
    bypass(links, before, after);
    write_places(notes, &[links.next(head)]);
    turn_to(links, before, first, after);
    write_places(notes, &[links.next(head)]);
}

/// Notes all objects of the ring, from the front on, and then the object at the back.
pub(crate) fn write_members<L: LinkedListOps>(
    notes: &mut Text,
    links: &L,
    objects: &Objects<u64>,
    ring: &Ring<u64>,
)
    requires covers { (L.table links.now).extent.places ≡ 8 }
    requires placed { (q : Place) → index_of q < 8 → is_placed objects.now q ≡ true }
    requires shown { InRing L.neighbors (L.table links.now) ring.now }
{
    for number in ring.iter(links, objects) {
        notes.add(Answer::Number(*number), " ");
    }
    let mut walk = ring.iter(links, objects);
    notes.add(value(walk.next_back()), ", ");
}

// Notes the members of both rings.
fn write_rings<L: LinkedListOps>(
    notes: &mut Text,
    links: &L,
    objects: &Objects<u64>,
    ring: &Ring<u64>,
    other: &Ring<u64>,
)
    requires placed { (q : Place) → index_of q < 8 → is_placed objects.now q ≡ true }
    requires two { TwoRings L.neighbors (L.table links.now) ring.now other.now }
{
    write_members(notes, links, objects, ring);
    write_members(notes, links, objects, other);
}

// Notes whether the ring is empty, its first and its last member, and the places before and after its head.
fn write_ends<L: LinkedListOps>(notes: &mut Text, links: &L, ring: &Ring<u64>)
    requires { InRing L.neighbors (L.table links.now) ring.now }
{
    notes.add(Answer::Truth(ring.is_empty(links)), " ");
    let head = ring.head();
    let beside = [Some(prev(links, head)), Some(next(links, head))];
    write_places(notes, &[ring.first(links), ring.last(links)]);
    write_places(notes, &beside);
}

// Notes whether a cursor at the head is on no member. Then it notes the second member, which a cursor finds by two steps from the head, and the last
// one, which a cursor finds by a step back. At last it notes the object of the second member.
fn write_second<L: LinkedListOps>(
    notes: &mut Text,
    links: &L,
    objects: &Objects<u64>,
    ring: &Ring<u64>,
)
    requires { InRing L.neighbors (L.table links.now) ring.now }
{
    let mut cursor = ring.cursor(links);
    cursor.move_next();
    cursor.move_next();
    let second = cursor.get_ptr();
    let number = value(cursor.get(objects));
    let mut cursor = ring.cursor_at(links, ring.head());
    notes.add(Answer::Truth(cursor.is_null()), " ");
    cursor.move_prev();
    write_places(notes, &[second, cursor.get_ptr()]);
    notes.add(number, " ");
}

// Notes the text that the ring prints.
fn write_printed<L: LinkedListOps>(
    notes: &mut Text,
    links: &L,
    objects: &Objects<u64>,
    ring: &Ring<u64>,
    alloc: Global,
)
    requires covers { (L.table links.now).extent.places ≡ 8 }
    requires placed { (q : Place) → index_of q < 8 → is_placed objects.now q ≡ true }
    requires shown { InRing L.neighbors (L.table links.now) ring.now }
{
    let listing = ring.debug(links, objects);
    if let Ok(text) = format!(in alloc; "{listing:?} ") {
        notes.word(text.as_str());
    }
}

// Makes the calls of the rows on two rings, and fails the test unless each call has the result in its row.
fn play_rows<L: LinkedListOps>(
    rt: &impl Abort,
    alloc: Global,
    links: &mut L,
    objects: &Objects<u64>,
    ring: &Ring<u64>,
    other: &Ring<u64>,
    rows: &[(Row, &str)],
)
    requires placed { (q : Place) → index_of q < 8 → is_placed objects.now q ≡ true }
    requires two { TwoRings L.neighbors (L.table links.old) ring.now other.now }
    ensures two { TwoRings L.neighbors (L.table links.new) ring.now other.now }
{
    for (row, expected) in rows {
        let mut notes = Text::new(alloc);
        let back = match *row {
            Row::Ring(call, index) => call_ring(links, ring, call, index),
            Row::Cursor(call, index) => call_by_cursor(links, ring, other, call, index),
            Row::Both(call, index) => call_both(links, ring, other, call, index),
            Row::Ends => {
                write_ends(&mut notes, &*links, ring);
                None
            }
            Row::Second => {
                write_second(&mut notes, &*links, objects, ring);
                None
            }
        };
        notes.add(object(back), " ");
        write_rings(&mut notes, &*links, objects, ring, other);
        assert_true(rt, notes.has_words(expected));
    }
}

/// Makes the calls of all rows on two new rings. Then the successors of the two heads are exchanged. The first ring is used as the queue of a server's
/// connections, and it is printed. At last the neighbors of its first member are linked to each other.
pub(crate) fn play<L: LinkedListOps>(
    rt: &impl Abort,
    alloc: Global,
    links: &mut L,
    objects: &Objects<u64>,
)
    requires covers { (L.table links.old).extent.places ≡ 8 }
    requires placed { (q : Place) → index_of q < 8 → is_placed objects.now q ≡ true }
{
    let ring = opened(rt, links, 6);
    let other = opened(rt, links, 7);
    for rows in [
        ONE_RING,
        BY_CURSOR,
        TWO_IN_EACH,
        MOVED_BY_CURSOR,
        TWO_IN_EACH,
        BOTH_RINGS,
    ] {
        play_rows(rt, alloc, links, objects, &ring, &other, rows);
    }
    let mut notes = Text::new(alloc);
    exchange_heads(links, &ring, &other);
    write_members(&mut notes, &*links, objects, &ring);
    write_served(&mut notes, links, objects, &ring);
    write_printed(&mut notes, &*links, objects, &ring, alloc);
    write_bypassed(&mut notes, links, &ring);
    assert_true(rt, notes.has_words(LAST));
}

#[test]
fn two_rings_by_rows(rt: HostRuntime) {
    let alloc = rt.alloc();
    let (objects, mut links): (_, LinkOps) = eight_objects(alloc, TENS).expect(&rt, "memory");
    play(&rt, alloc, &mut links, &objects);
}
