//! Tests of laws, each of which says what several calls do together. The tests use doubly linked lists.

ghost use Rattle.std.specs.Prelude.{◌≡◌, None};
ghost use Rattle.ic_link_ops.specs.Chains.{RepresentsChain};
ghost use Rattle.ic_link_ops.specs.DoublyEntries.{plain_table, PlainRepresentsSome};
ghost use Rattle.ic_cursors.specs.Cursor as reads;
ghost use Rattle.ic_chain.specs.Standing.{IsValidAt};
ghost use Rattle.collections_tests.specs.Ready.{IsReadyList};

use crate::doubly::DoublyFixture;
use crate::lent::{write_moved, write_turned};
use crate::lists::list_of;
use crate::notes::{assert_words, write_object};
use ic_chain::{BidirectionalLinks, DoubleEnded, ForwardLinks, LinkList, laws};
use ic_cursors::Cursor;
use ic_link_ops::LinkOps;
use ic_test_support::answers::write_places;
use ic_test_support::notes::{Answer, Text};
use ic_test_support::objects::{place_at, reference};
use ic_test_support::tables::write_linked;
use std::process::Abort;

// Inserts an object at the front and removes it again, which leaves the list unchanged. Notes the removed object, and whether it is still a member.
fn write_front<K: ForwardLinks<L>, L: LinkOps>(
    notes: &mut Text,
    list: &mut LinkList<K, u64>,
    links: &mut L,
)
    requires { IsReadyList K.Between K.kept (L.table links.old) list.old }
{
    let object = reference(5);
    let place = object.place();
    laws::push_then_pop_front::<K, L>();
    let Ok(()) = list.push_front(links, object) else {
        return;
    };
    write_object(notes, list.pop_front(links));
    let is_member = list.contains(&*links, place);
    notes.add(Answer::Truth(is_member), " ");
}

// Inserts an object at the back and removes it again, which leaves the list unchanged. Notes the removed object, and the first and the last member of
// the list.
fn write_back<K: DoubleEnded + BidirectionalLinks<L>, L: LinkOps>(
    notes: &mut Text,
    list: &mut LinkList<K, u64>,
    links: &mut L,
)
    requires { IsReadyList K.Between K.kept (L.table links.old) list.old }
{
    laws::push_then_pop::<K, L>();
    let Ok(()) = list.push_back(links, reference(5)) else {
        return;
    };
    write_object(notes, list.pop_back(links));
    write_ends(notes, list.cursor(&*links));
}

// Notes the first and the last member of a list, to which a cursor moves from null.
fn write_ends<K: DoubleEnded + BidirectionalLinks<L>, L: LinkOps>(
    notes: &mut Text,
    mut cursor: Cursor<'_, LinkList<K, u64>, L>,
)
    requires stands { reads.IsValid (IsValidAt (RepresentsChain K.Between K.kept) L.table K.Position.member K.Position.CachesNext) cursor }
    requires null { reads.position K.Position.member cursor ≡ None }
{
    let (front, back) = laws::null_there_and_back(&mut cursor);
    write_places(notes, &[front, back]);
}

// Inserts one object into two lists of two fields, empties the first list, and notes the places that are linked in each field.
fn write_apart(
    rt: &impl Abort,
    notes: &mut Text,
    first: &mut DoublyFixture,
    second: &mut DoublyFixture,
)
    requires first_covers { (plain_table first.old.links).extent.places ≡ 8 }
    requires first_represented { PlainRepresentsSome first.old.links first.old.list }
    requires second_covers { (plain_table second.old.links).extent.places ≡ 8 }
    requires second_represented { PlainRepresentsSome second.old.links second.old.list }
{
    let place = place_at(5);
    assert!(rt; !first.links.is_linked(place) && !second.links.is_linked(place));
    let are_in = laws::fields_are_apart(
        &mut first.list,
        &mut first.links,
        &mut second.list,
        &mut second.links,
        place,
    );
    first.list.fast_clear();
    notes.add(Answer::Truth(are_in & first.list.is_empty()), " ");
    write_linked(notes, &first.links);
    write_linked(notes, &second.links);
}

#[test]
fn laws_of_lists(rt: HostRuntime) {
    let alloc = rt.alloc();
    let mut notes = Text::new(alloc);
    {
        let mut fixture: DoublyFixture = list_of(&rt, alloc, 2);
        write_turned(&mut notes, &mut fixture.list, &mut fixture.links);
        write_front(&mut notes, &mut fixture.list, &mut fixture.links);
    }
    {
        let mut fixture: DoublyFixture = list_of(&rt, alloc, 2);
        write_back(&mut notes, &mut fixture.list, &mut fixture.links);
    }
    {
        let mut fixture: DoublyFixture = list_of(&rt, alloc, 3);
        write_moved(&mut notes, &mut fixture.list, &mut fixture.links);
    }
    let mut first = list_of(&rt, alloc, 2);
    let mut second = list_of(&rt, alloc, 0);
    write_apart(&rt, &mut notes, &mut first, &mut second);
    assert_words(
        &rt,
        &notes,
        "0 1 0 5 no  5 0 1  2 1 0 2 2 1 0 1  yes 0 1 5  5",
    );
}
