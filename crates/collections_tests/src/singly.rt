//! Tests of the singly linked list: a walk, which does not know the last member, and the edits after a cursor.

ghost use Rattle.std.specs.Prelude.{◌≡◌};
ghost use Rattle.ic_link_ops.specs.Chains.{RepresentsChain};
ghost use Rattle.ic_cursors.specs.CursorMut as edits;
ghost use Rattle.ic_chain.specs.Standing.{IsValidAt};

use crate::lists::{ListFixture, list_of};
use crate::notes::{assert_words, write_object, write_values};
use ic_chain::{ForwardLinks, LinkList, SingleEnded};
use ic_cursors::CursorMut;
use ic_link_ops::singly_linked_list::Singly;
use ic_link_ops::{LinkOps, OneNarrowWord, OneWord};
use ic_singly_linked_list::{SinglyLinked, laws};
use ic_test_support::answers::write_places;
use ic_test_support::notes::Text;
use ic_test_support::objects::reference;

/// A singly linked list, its links and its objects.
pub(crate) type SinglyFixture = ListFixture<SinglyLinked, OneWord<Singly>>;

/// A singly linked list over links of 4-byte words, its links and its objects.
pub(crate) type NarrowSinglyFixture = ListFixture<SinglyLinked, OneNarrowWord<Singly>>;

// Replaces the member after the cursor by the object at 3, removes that object again, and notes both removed objects.
fn write_edits<K: SingleEnded + ForwardLinks<L>, L: LinkOps>(
    notes: &mut Text,
    cursor: &mut CursorMut<'_, LinkList<K, u64>, L>,
)
    requires covers { (L.table (edits.links_of cursor.old)).extent.places ≡ 8 }
    requires stands { edits.IsValid (IsValidAt (RepresentsChain K.Between K.kept) L.table K.Position.member K.Position.CachesNext) cursor.old }
{
    write_object(notes, cursor.replace_next_with(reference(3)).ok());
    write_object(notes, cursor.remove_next());
}

// Splits the list after the cursor. Notes the position of the cursor, the first member of the second part, and the member to which a step leads after
// the parts are joined again.
fn write_parts<K: SingleEnded + ForwardLinks<L>, L: LinkOps>(
    notes: &mut Text,
    cursor: &mut CursorMut<'_, LinkList<K, u64>, L>,
)
    requires stands { edits.IsValid (IsValidAt (RepresentsChain K.Between K.kept) L.table K.Position.member K.Position.CachesNext) cursor.old }
{
    laws::split_then_splice::<K, L>();
    let rest = cursor.split_after();
    write_places(notes, &[cursor.get_ptr(), rest.first()]);
    cursor.splice_after(rest);
    cursor.move_next();
    write_places(notes, &[cursor.get_ptr()]);
}

#[test]
fn singly_linked_list(rt: HostRuntime) {
    let alloc = rt.alloc();
    let mut notes = Text::new(alloc);
    let mut fixture: SinglyFixture = list_of(&rt, alloc, 2);
    {
        // A walk over a list of two members must return both members and then none.
        let mut walk = fixture.list.iter(&fixture.links, &fixture.objects);
        write_values(&mut notes, &[walk.next(), walk.next(), walk.next()]);
    }
    write_edits(&mut notes, &mut fixture.list.front_mut(&mut fixture.links));
    let mut fixture: SinglyFixture = list_of(&rt, alloc, 3);
    write_parts(&mut notes, &mut fixture.list.front_mut(&mut fixture.links));
    assert_words(&rt, &notes, "10 20 none  1 3  0 1  1");
}
