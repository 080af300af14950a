//! Tests of walks over lists: walks over the objects from both ends, and walks that remove members and are then dropped or finished.

ghost use Rattle.std.specs.Prelude.{◌≡◌};
ghost use Rattle.ic_link_ops.specs.Prelude.{RepresentsChain, RepresentsSomeChain, RepresentsPlaced, table};
ghost use Rattle.ic_chain.specs.Iter.{CanWalk};

use crate::doubly::{DoublyFixture, NarrowDoublyFixture};
use crate::lists::{ListFixture, filled, free_each, list_of};
use crate::notes::{assert_words, write_object};
use crate::singly::{NarrowSinglyFixture, SinglyFixture};
use crate::xor::{NarrowXorFixture, XorFixture};
use ic_chain::{BidirectionalLinks, DoubleEnded, ForwardLinks, Iter, LinkList};
use ic_link_ops::{LinkOps, PlainTable, Words};
use ic_test_support::answers::value;
use ic_test_support::notes::Text;
use ic_test_support::tables::write_linked;
use ic_unsafe_ref::{Objects, UnsafeRef};
use std::process::Abort;

// Notes the objects that a walk returns: one at the front, two at the back, one at the front, and then one at the front and one at the back.
fn write_walk<'a, K: DoubleEnded + BidirectionalLinks<L>, L: LinkOps>(
    notes: &mut Text,
    list: &LinkList<K, u64>,
    links: &'a L,
    objects: &'a Objects<u64>,
)
    requires { RepresentsPlaced (RepresentsChain K.Between K.kept (L.table links.now) list.now) objects.now }
{
    let mut walk = list.iter(links, objects);
    notes.add(value(walk.next()), " ");
    notes.add(value(walk.next_back()), " ");
    notes.add(value(walk.next_back()), " ");
    notes.add(value(walk.next()), " ");
    write_ends(notes, walk);
}

// Notes the next object that a walk returns at the front, and the next one at the back.
fn write_ends<K: DoubleEnded + BidirectionalLinks<L>, L: LinkOps>(
    notes: &mut Text,
    mut walk: Iter<'_, K, u64, L>,
)
    requires can { CanWalk K.keeps_last K.Between L.table (λ objects. objects) walk }
{
    notes.add(value(walk.next()), " ");
    notes.add(value(walk.next_back()), " ");
}

// A walk over a doubly linked list of four members must return each of them once, and then none at either end. A walk over an XOR list of six members
// must return each of them once.
// Promise: a walk from both ends, a walk that only reads.
#[test]
fn walks_from_both_ends(rt: HostRuntime) {
    let alloc = rt.alloc();
    let mut notes = Text::new(alloc);
    {
        let doubly: DoublyFixture = list_of(&rt, alloc, 4);
        // A walk that is dropped after its first object must not change the list.
        let _ = doubly.list.iter(&doubly.links, &doubly.objects).next();
        write_walk(&mut notes, &doubly.list, &doubly.links, &doubly.objects);
    }
    let xor: XorFixture = list_of(&rt, alloc, 6);
    write_walk(&mut notes, &xor.list, &xor.links, &xor.objects);
    assert_words(&rt, &notes, "10 40 30 20 none none  10 60 50 20 30 40");
}

// Removes the first member by a walk, and returns the member. Then it finishes the walk, which unlinks the rest, if `finishes` is true, or drops it.
fn take_first<K: ForwardLinks<L>, L: LinkOps>(
    list: LinkList<K, u64>,
    links: &mut L,
    finishes: bool,
) -> Option<UnsafeRef<u64>>
    requires shown { RepresentsSomeChain K.Between K.kept (L.table links.old) list }
{
    let mut rest = list.into_iter(links);
    let first = rest.next();
    if finishes {
        rest.finish();
    }
    first
}

// Removes the first member by a walk that is then dropped, and notes the member. Then it unlinks each remaining member by force, and before each of
// these calls notes the places that are linked. At last it inserts all members again, and notes the linked places.
fn write_dropped<K: ForwardLinks<PlainTable<W>>, W: Words>(
    rt: &impl Abort,
    notes: &mut Text,
    fixture: &mut ListFixture<K, W>,
)
    requires shown { RepresentsSomeChain K.Between K.kept (table W.width W.unlinked fixture.old.links) fixture.old.list }
{
    let first = take_first(fixture.list.take(), &mut fixture.links, false);
    write_object(notes, first);
    free_each(rt, notes, &mut fixture.links);
    fixture.list = filled(&mut fixture.links, 4);
    write_linked(notes, &fixture.links);
}

// What a test notes of dropped walks, one over a list of each kind.
const DROPPED: &str = "0 1 2 3 2 3 3 0 1 2 3
    0 1 2 3 2 3 3 0 1 2 3
    0 1 2 3 2 3 3 0 1 2 3";

// After a walk is dropped, the members that the walk did not return must still be linked. The test uses one list of each kind, with four members.
// Promise: a dropped walk of a doubly linked list, a dropped walk of a singly linked list, a dropped walk of an XOR list.
#[test]
fn walks_that_are_dropped(rt: HostRuntime) {
    let alloc = rt.alloc();
    let mut notes = Text::new(alloc);
    let mut singly: SinglyFixture = list_of(&rt, alloc, 4);
    write_dropped(&rt, &mut notes, &mut singly);
    let mut doubly: DoublyFixture = list_of(&rt, alloc, 4);
    write_dropped(&rt, &mut notes, &mut doubly);
    let mut xor: XorFixture = list_of(&rt, alloc, 4);
    write_dropped(&rt, &mut notes, &mut xor);
    assert_words(&rt, &notes, DROPPED);
}

// After a walk over a list with links of 4-byte words is dropped, the members that the walk did not return must still be linked.
// Promise: a dropped walk over 4-byte words.
#[test]
fn walks_over_narrow_links_that_are_dropped(rt: HostRuntime) {
    let alloc = rt.alloc();
    let mut notes = Text::new(alloc);
    let mut singly: NarrowSinglyFixture = list_of(&rt, alloc, 4);
    write_dropped(&rt, &mut notes, &mut singly);
    let mut doubly: NarrowDoublyFixture = list_of(&rt, alloc, 4);
    write_dropped(&rt, &mut notes, &mut doubly);
    let mut xor: NarrowXorFixture = list_of(&rt, alloc, 4);
    write_dropped(&rt, &mut notes, &mut xor);
    assert_words(&rt, &notes, DROPPED);
}

// Removes the first and the last member by a walk, and then finishes the walk, which unlinks the rest.
fn finish_both<K: DoubleEnded + BidirectionalLinks<L>, L: LinkOps>(
    list: LinkList<K, u64>,
    links: &mut L,
) -> (Option<UnsafeRef<u64>>, Option<UnsafeRef<u64>>)
    requires shown { RepresentsSomeChain K.Between K.kept (L.table links.old) list }
{
    let mut rest = list.into_iter(links);
    let first = rest.next();
    let last = rest.next_back();
    rest.finish();
    (first, last)
}

// After a walk over a list of four members is finished, no place must be linked. The test uses a singly linked list and an XOR list.
// Promise: a finished walk of a singly linked list, a finished walk of an XOR list.
#[test]
fn walks_that_are_finished(rt: HostRuntime) {
    let alloc = rt.alloc();
    let mut notes = Text::new(alloc);
    let mut singly: SinglyFixture = list_of(&rt, alloc, 4);
    let first = take_first(singly.list.take(), &mut singly.links, true);
    write_object(&mut notes, first);
    notes.word("then ");
    write_linked(&mut notes, &singly.links);
    let mut xor: XorFixture = list_of(&rt, alloc, 4);
    let (first, last) = finish_both(xor.list.take(), &mut xor.links);
    write_object(&mut notes, first);
    write_object(&mut notes, last);
    notes.word("then ");
    write_linked(&mut notes, &xor.links);
    assert_words(&rt, &notes, "0 then  0 3 then");
}
