//! Tests of cursors of an XOR list that are made from a member and one of its neighbors.

ghost use Rattle.ic_link_ops.specs.Chains.{RepresentsChain, RepresentsSomeChain};
ghost use Rattle.ic_cursors.specs.Cursor as reads;
ghost use Rattle.ic_cursors.specs.CursorMut as edits;
ghost use Rattle.ic_chain.specs.Standing.{IsValidAt, HasMemberAfter, HasMemberBefore};

use crate::lists::list_of;
use crate::notes::{assert_words, write_values};
use crate::xor::XorFixture;
use ic_chain::{BidirectionalLinks, LinkList, Reversible};
use ic_cursors::{Cursor, CursorMut};
use ic_link_ops::LinkOps;
use ic_test_support::answers::write_places;
use ic_test_support::notes::Text;
use ic_unsafe_ref::{Objects, UnsafeRef};
use ic_xor_linked_list::laws;
use std::process::Abort;

// Returns the second member and the member before it, which are found by a cursor that starts on the first member.
fn second<K: Reversible + BidirectionalLinks<L>, L: LinkOps>(
    rt: &impl Abort,
    mut cursor: Cursor<'_, LinkList<K, u64>, L>,
) -> (UnsafeRef<u64>, Option<UnsafeRef<u64>>)
    requires stands { reads.IsValid (IsValidAt (RepresentsChain K.Between K.kept) L.table K.Position.member K.Position.CachesNext) cursor }
    ensures { HasMemberAfter (RepresentsChain K.Between K.kept (L.table (reads.links_of cursor.entry)) (reads.list_of cursor.entry)) result.0 result.1 }
{
    let first = cursor.clone_pointer();
    cursor.move_next();
    (cursor.clone_pointer().expect(rt, "a second member"), first)
}

// Returns the last member and the member after it, which is none. The cursor is on the last member.
fn last<K: Reversible + BidirectionalLinks<L>, L: LinkOps>(
    rt: &impl Abort,
    cursor: Cursor<'_, LinkList<K, u64>, L>,
) -> (UnsafeRef<u64>, Option<UnsafeRef<u64>>)
    requires stands { reads.IsValid (IsValidAt (RepresentsChain K.Between K.kept) L.table K.Position.member K.Position.CachesNext) cursor }
    ensures { HasMemberBefore (RepresentsChain K.Between K.kept (L.table (reads.links_of cursor.entry)) (reads.list_of cursor.entry)) result.0 result.1 }
{
    let after = cursor.peek_next().clone_pointer();
    (cursor.clone_pointer().expect(rt, "a last member"), after)
}

// Notes the member to which a step back from the last member would lead, the object of the last member, and the member to which a step from the second
// member leads.
fn write_borrowed<K: Reversible + BidirectionalLinks<L>, L: LinkOps>(
    rt: &impl Abort,
    notes: &mut Text,
    list: &mut LinkList<K, u64>,
    links: &mut L,
    objects: &Objects<u64>,
)
    requires shown { RepresentsSomeChain K.Between K.kept (L.table links.old) list.old }
{
    let (object, next) = last(rt, list.back(&*links));
    let before = list
        .cursor_from_ptr_and_next(&*links, object, next)
        .peek_prev()
        .get_ptr();
    write_places(notes, &[before]);
    let (object, next) = last(rt, list.back(&*links));
    let on_last = list.cursor_mut_from_ptr_and_next(links, object, next);
    write_values(notes, &[on_last.into_ref(objects)]);
    let (object, prev) = second(rt, list.front(&*links));
    let mut on_second = list.cursor_mut_from_ptr_and_prev(links, object, prev);
    write_next(notes, &mut on_second);
}

// Moves the cursor to the next member, and notes the member on which the cursor then is.
fn write_next<K: Reversible + BidirectionalLinks<L>, L: LinkOps>(
    notes: &mut Text,
    cursor: &mut CursorMut<'_, LinkList<K, u64>, L>,
)
    requires stands { edits.IsValid (IsValidAt (RepresentsChain K.Between K.kept) L.table K.Position.member K.Position.CachesNext) cursor.old }
{
    cursor.move_next();
    write_places(notes, &[cursor.get_ptr()]);
}

// Notes the positions of three cursors. The first cursor reads the list and is made on the second member. The other two own the list, and are made on
// the second and on the last member.
fn write_kept<K: Reversible + BidirectionalLinks<L>, L: LinkOps>(
    rt: &impl Abort,
    notes: &mut Text,
    list: LinkList<K, u64>,
    links: &L,
)
    requires shown { RepresentsSomeChain K.Between K.kept (L.table links.now) list }
{
    let (object, prev) = second(rt, list.front(links));
    let read = list.cursor_from_ptr_and_prev(links, object, prev).get_ptr();
    let (object, prev) = second(rt, list.front(links));
    let on_second = list.cursor_owning_from_ptr_and_prev(links, object, prev);
    let kept = on_second.get_ptr();
    let list = on_second.into_inner();
    let (object, next) = last(rt, list.back(links));
    let on_last = list.cursor_owning_from_ptr_and_next(links, object, next);
    write_places(notes, &[read, kept, on_last.get_ptr()]);
}

// The cursors of a list with the members 0, 1 and 2 must be on the expected members. The list is unchanged at first, then reversed, and then reversed
// twice.
// Promise: cursors from an object and a neighbor.
#[test]
fn cursors_from_neighbors(rt: HostRuntime) {
    let alloc = rt.alloc();
    let mut notes = Text::new(alloc);
    {
        let mut fixture: XorFixture = list_of(&rt, alloc, 3);
        write_borrowed(
            &rt,
            &mut notes,
            &mut fixture.list,
            &mut fixture.links,
            &fixture.objects,
        );
    }
    {
        let mut fixture: XorFixture = list_of(&rt, alloc, 3);
        laws::reversed_is_represented(&mut fixture.list, &fixture.links);
        write_borrowed(
            &rt,
            &mut notes,
            &mut fixture.list,
            &mut fixture.links,
            &fixture.objects,
        );
    }
    let mut fixture: XorFixture = list_of(&rt, alloc, 3);
    let twice = laws::reversed_twice(fixture.list.take());
    write_kept(&rt, &mut notes, twice, &fixture.links);
    assert_words(&rt, &notes, "1 30 2  1 10 0  1 1 2");
}
