//! Calls on a list that is lent together with the table of its links, and on a cursor that is made on a member by its reference.

ghost use Rattle.std.specs.Prelude.{◌≡◌};
ghost use Rattle.collections_tests.specs.Ready.{IsReadyList};

use ic_chain::{BidirectionalLinks, DoubleEnded, ForwardLinks, LinkList, NamesBoth, NamesNext};
use ic_link_ops::LinkOps;
use ic_test_support::answers::write_places;
use ic_test_support::notes::Text;
use ic_unsafe_ref::UnsafeRef;

/// Moves the first member to the back, while the list and its links are lent together. Notes the position of a cursor on the moved member, and the
/// first and the last member.
pub(crate) fn write_turned<K: DoubleEnded + NamesNext + ForwardLinks<L>, L: LinkOps>(
    notes: &mut Text,
    list: &mut LinkList<K, u64>,
    links: &mut L,
)
    requires { IsReadyList K.Between K.kept (L.table links.old) list.old }
    ensures { IsReadyList K.Between K.kept (L.table links.new) list.new }
{
    let mut lent = list.lend(links);
    let Some(first) = lent.pop_front() else {
        return;
    };
    let place = first.place();
    let Ok(()) = lent.push_back(first) else {
        return;
    };
    lent.finish();
    let turned = list
        .cursor_mut_from_ptr(links, UnsafeRef::new(place))
        .get_ptr();
    write_places(notes, &[turned, list.first(), list.last()]);
}

/// Removes the last member, inserts it at the front, moves it to the back and to the front, and removes it by its reference. Meanwhile the list and its
/// links are lent together. Notes the first and the last member of the list after each move, and after the list is given back.
pub(crate) fn write_moved<K, L: LinkOps>(
    notes: &mut Text,
    list: &mut LinkList<K, u64>,
    links: &mut L,
)
where
    K: DoubleEnded + NamesBoth<L> + BidirectionalLinks<L>,
    requires { IsReadyList K.Between K.kept (L.table links.old) list.old }
{
    let mut lent = list.lend(links);
    let Some(last) = lent.pop_back() else {
        return;
    };
    let place = last.place();
    let Ok(()) = lent.push_front(last) else {
        return;
    };
    let object = UnsafeRef::new(place);
    write_places(notes, &[lent.list.first(), lent.list.last()]);
    lent.move_to_back(&object);
    write_places(notes, &[lent.list.first(), lent.list.last()]);
    lent.move_to_front(&object);
    write_places(notes, &[lent.list.first(), lent.list.last()]);
    lent.remove(&object);
    lent.finish();
    write_places(notes, &[list.first(), list.last()]);
}
