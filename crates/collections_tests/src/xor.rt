//! A test of the XOR list. Its cursor stores a neighbor of its member, because an entry leads to one neighbor only if the other neighbor is known.

ghost use Rattle.ic_link_ops.specs.Chains.{RepresentsChain};
ghost use Rattle.ic_cursors.specs.Cursor as reads;
ghost use Rattle.ic_chain.specs.Standing.{IsValidAt};

use crate::lists::{ListFixture, list_of};
use crate::notes::assert_words;
use ic_chain::{BidirectionalLinks, DoubleEnded, LinkList};
use ic_cursors::Cursor;
use ic_link_ops::xor_linked_list::Xor;
use ic_link_ops::{LinkOps, OneNarrowWord, OneWord};
use ic_test_support::answers::write_places;
use ic_test_support::notes::{Answer, Text};
use ic_xor_linked_list::XorLinked;

/// An XOR list, its links and its objects.
pub(crate) type XorFixture = ListFixture<XorLinked, OneWord<Xor>>;

/// An XOR list over links of 4-byte words, its links and its objects.
pub(crate) type NarrowXorFixture = ListFixture<XorLinked, OneNarrowWord<Xor>>;

// Notes the cursor's member and the member before it. After one step back, it notes the member of a copy of the cursor, the member after the copy, and
// whether the cursor is at null.
fn write_read<K: DoubleEnded + BidirectionalLinks<L>, L: LinkOps>(
    notes: &mut Text,
    mut cursor: Cursor<'_, LinkList<K, u64>, L>,
)
    requires stands { reads.IsValid (IsValidAt (RepresentsChain K.Between K.kept) L.table K.Position.member K.Position.CachesNext) cursor }
{
    write_places(notes, &[cursor.get_ptr(), cursor.peek_prev().get_ptr()]);
    cursor.move_prev();
    if let Ok(copy) = cursor.clone() {
        write_places(notes, &[copy.get_ptr(), copy.peek_next().get_ptr()]);
    }
    notes.add(Answer::Truth(cursor.is_null()), " ");
}

// A cursor at the back of an XOR list of five members must be on the member 4, and after one step back on the member 3.
#[test]
fn xor_linked_list(rt: HostRuntime) {
    let alloc = rt.alloc();
    let mut notes = Text::new(alloc);
    let fixture: XorFixture = list_of(&rt, alloc, 5);
    write_read(&mut notes, fixture.list.back(&fixture.links));
    assert_words(&rt, &notes, "4 3 3 4 no");
}
