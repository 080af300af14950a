//! Tests of each move and each edit of cursors that own their list. No other test and no use makes these calls, because a world edits its lists without
//! such cursors.

ghost use Rattle.std.specs.Prelude.{◌≡◌};
ghost use Rattle.ic_link_ops.specs.Chains.{RepresentsSomeChain};
ghost use Rattle.collections_tests.specs.Ready.{IsReadyList};

use crate::doubly::DoublyFixture;
use crate::lists::list_of;
use crate::notes::{assert_words, write_object};
use crate::singly::SinglyFixture;
use ic_chain::{BidirectionalLinks, DoubleEnded, ForwardLinks, LinkList, SingleEnded};
use ic_link_ops::LinkOps;
use ic_test_support::answers::write_places;
use ic_test_support::notes::Text;
use ic_test_support::objects::reference;

// Notes the positions of a cursor at null, at the front, one step after the front, and at the back.
fn write_moves<K: DoubleEnded + BidirectionalLinks<L>, L: LinkOps>(
    notes: &mut Text,
    list: LinkList<K, u64>,
    links: &L,
)
    requires shown { RepresentsSomeChain K.Between K.kept (L.table links.now) list }
{
    let at_null = list.cursor_owning();
    let null = at_null.get_ptr();
    let mut cursor = at_null.into_inner().front_owning(links);
    let front = cursor.get_ptr();
    cursor.move_next(links);
    let second = cursor.get_ptr();
    let at_back = cursor.into_inner().back_owning(links);
    write_places(notes, &[null, front, second, at_back.get_ptr()]);
}

// Inserts two objects next to the first of the members 0, 1 and 2. Replaces one of them, removes the replacement, and notes both removed objects. Then
// the list is split after the cursor and before it, and the parts are put together in the opposite order. The function notes the position of the
// cursor, the first member, and the position of the cursor after it is moved to null.
fn write_edits<K: DoubleEnded + BidirectionalLinks<L>, L: LinkOps>(
    notes: &mut Text,
    list: LinkList<K, u64>,
    links: &mut L,
)
    requires { IsReadyList K.Between K.kept (L.table links.old) list }
{
    let mut cursor = list.front_owning(&*links);
    let _ = cursor.insert_after(links, reference(3));
    cursor.move_next(&*links);
    let _ = cursor.insert_before(links, reference(4));
    write_object(notes, cursor.replace_with(links, reference(5)).ok());
    write_object(notes, cursor.remove(links));
    cursor.move_prev(&*links);
    let after = cursor.split_after(links);
    cursor.splice_before(links, after);
    let in_front = cursor.split_before(links);
    cursor.splice_after(links, in_front);
    cursor.move_next(&*links);
    write_places(notes, &[cursor.get_ptr(), cursor.list().first()]);
    cursor.go_null();
    write_places(notes, &[cursor.get_ptr()]);
}

// Replaces the member after the first one by the object at 3, removes that object again, and notes both removed objects. The cursor is on the first
// member.
fn write_edits_after<K: SingleEnded + ForwardLinks<L>, L: LinkOps>(
    notes: &mut Text,
    list: LinkList<K, u64>,
    links: &mut L,
)
    requires { IsReadyList K.Between K.kept (L.table links.old) list }
{
    let mut cursor = list.front_owning(&*links);
    write_object(notes, cursor.replace_next_with(links, reference(3)).ok());
    write_object(notes, cursor.remove_next(links));
}

// The test makes each move and edit of cursors that own their list. The positions of the cursors and the removed objects must be right.
// Promise: owning cursors.
#[test]
fn owning_cursors(rt: HostRuntime) {
    let alloc = rt.alloc();
    let mut notes = Text::new(alloc);
    {
        let mut fixture: DoublyFixture = list_of(&rt, alloc, 4);
        write_moves(&mut notes, fixture.list.take(), &fixture.links);
    }
    {
        let mut fixture: DoublyFixture = list_of(&rt, alloc, 3);
        write_edits(&mut notes, fixture.list.take(), &mut fixture.links);
    }
    let mut fixture: SinglyFixture = list_of(&rt, alloc, 2);
    write_edits_after(&mut notes, fixture.list.take(), &mut fixture.links);
    assert_words(&rt, &notes, "none 0 1 3  3 5  0 4  none  1 3");
}
