//! Tests of the doubly linked list: edits by a cursor that borrows the list, cursors that own the list, and a walk that removes its members.

ghost use Rattle.std.specs.Prelude.{◌≡◌};
ghost use Rattle.ic_link_ops.specs.Chains.{RepresentsChain, RepresentsSomeChain};
ghost use Rattle.ic_cursors.specs.CursorMut as edits;
ghost use Rattle.ic_chain.specs.Standing.{IsValidAt};

use crate::lists::{ListFixture, list_of};
use crate::notes::{assert_words, write_object, write_values};
use ic_chain::{BidirectionalLinks, DoubleEnded, LinkList, NamesNext};
use ic_cursors::CursorMut;
use ic_link_ops::linked_list::TwoWords;
use ic_link_ops::{LinkOps, TwoNarrowWords};
use ic_linked_list::DoublyLinked;
use ic_test_support::answers::{replaced, write_places};
use ic_test_support::notes::{Answer, Text};
use ic_test_support::objects::{place_at, reference};
use ic_test_support::tables::write_linked;
use ic_unsafe_ref::UnsafeRef;
use std::process::Abort;

/// A doubly linked list, its links and its objects.
pub(crate) type DoublyFixture = ListFixture<DoublyLinked, TwoWords>;

/// A doubly linked list over links of 4-byte words, its links and its objects.
pub(crate) type NarrowDoublyFixture = ListFixture<DoublyLinked, TwoNarrowWords>;

// Makes each kind of edit by a cursor that is on the last of the members 0, 1 and 2, and notes the results. Then it moves all members before the cursor to
// the gap after the cursor. It notes the member before the cursor, which must be none, and whether two more steps lead to null.
fn write_edits<K: DoubleEnded + BidirectionalLinks<L>, L: LinkOps>(
    notes: &mut Text,
    cursor: &mut CursorMut<'_, LinkList<K, u64>, L>,
)
    requires covers { (L.table (edits.links_of cursor.old)).extent.places ≡ 8 }
    requires stands { edits.IsValid (IsValidAt (RepresentsChain K.Between K.kept) L.table K.Position.member K.Position.CachesNext) cursor.old }
    ensures stands { edits.IsValid (IsValidAt (RepresentsChain K.Between K.kept) L.table K.Position.member K.Position.CachesNext) cursor.new }
    ensures borrows { edits.SameBorrows cursor.old cursor.new }
{
    let _ = cursor.insert_after(reference(3));
    let _ = cursor.insert_before(reference(4));
    notes.add(
        replaced(cursor.replace_with(reference(5)), place_at(5)),
        " ",
    );
    cursor.move_prev();
    cursor.move_prev();
    write_object(notes, cursor.remove());
    let after = cursor.split_after();
    cursor.splice_before(after);
    let in_front = cursor.split_before();
    write_places(notes, &[in_front.last()]);
    cursor.splice_after(in_front);
    cursor.move_prev();
    write_places(notes, &[cursor.get_ptr()]);
    cursor.move_next();
    cursor.move_next();
    notes.add(Answer::Truth(cursor.is_null()), " ");
}

#[test]
fn doubly_linked_list(rt: HostRuntime) {
    let alloc = rt.alloc();
    let mut notes = Text::new(alloc);
    let mut fixture: DoublyFixture = list_of(&rt, alloc, 3);
    let mut cursor = fixture.list.back_mut(&mut fixture.links);
    write_edits(&mut notes, &mut cursor);
    let beside = [
        cursor.as_cursor().get_ptr(),
        cursor.peek_prev().get_ptr(),
        cursor.peek_next().get_ptr(),
    ];
    write_places(&mut notes, &beside);
    write_values(&mut notes, &[cursor.into_ref(&fixture.objects)]);
    assert_words(&rt, &notes, "2 1 3 none no  0 4 5  10");
}

// The edits over links of 4-byte words must have the results that they have over 8-byte words. The edits are made by a cursor that goes from null to
// the last member, and the test notes where the cursor is afterwards.
// Promise: edits of a list over 4-byte words.
#[test]
fn doubly_linked_list_over_narrow_links(rt: HostRuntime) {
    let alloc = rt.alloc();
    let mut notes = Text::new(alloc);
    let mut fixture: NarrowDoublyFixture = list_of(&rt, alloc, 3);
    let mut cursor = fixture.list.cursor_mut(&mut fixture.links);
    cursor.move_prev();
    write_edits(&mut notes, &mut cursor);
    write_places(&mut notes, &[cursor.get_ptr()]);
    assert_words(&rt, &notes, "2 1 3 none no  0");
}

// Notes the positions of three cursors. The first cursor reads the list and is made on the second member by its reference. The other two own the list,
// and are made on the second member by its reference, and at the back.
fn write_on_member<K: NamesNext + DoubleEnded + BidirectionalLinks<L>, L: LinkOps>(
    rt: &impl Abort,
    notes: &mut Text,
    list: LinkList<K, u64>,
    links: &L,
)
    requires shown { RepresentsSomeChain K.Between K.kept (L.table links.now) list }
{
    let place = place_at(1);
    assert!(rt; list.contains(links, place));
    let read = list.cursor_from_ptr(links, UnsafeRef::new(place)).get_ptr();
    let on_second = list.cursor_owning_from_ptr(links, UnsafeRef::new(place));
    let second = on_second.as_cursor(links).get_ptr();
    let at_back = on_second.into_inner().back_owning(links);
    write_places(notes, &[read, second, at_back.get_ptr()]);
}

// The test makes cursors of a list on its members, and removes two of four members by a walk, which is then finished. The cursors must be on the right
// members, and no place must be linked at the end.
// Promise: a finished walk of a doubly linked list.
#[test]
fn doubly_linked_list_by_value(rt: HostRuntime) {
    let alloc = rt.alloc();
    let mut notes = Text::new(alloc);
    {
        let mut fixture: DoublyFixture = list_of(&rt, alloc, 3);
        write_on_member(&rt, &mut notes, fixture.list.take(), &fixture.links);
    }
    {
        // A walk removes the first and the last member of four. The test notes both members, the places that are then linked, and the places that are
        // linked after the walk has unlinked the rest.
        let mut fixture: DoublyFixture = list_of(&rt, alloc, 4);
        let mut rest = fixture.list.take().into_iter(&mut fixture.links);
        write_object(&mut notes, rest.next());
        write_object(&mut notes, rest.next_back());
        write_linked(&mut notes, rest.links());
        rest.finish();
        notes.word("then ");
        write_linked(&mut notes, &fixture.links);
    }
    assert_words(&rt, &notes, "1 1 2  0 3 1 2 then");
}
