//! Fixtures for tests of lists of any kind, over the plain table of their links.

ghost use Rattle.std.specs.Prelude.{◌≡◌, ◌≤◌};
ghost use Rattle.ic_link_ops.specs.Prelude.{RepresentsChain, RepresentsSomeChain, RepresentsPlaced, table};

use ic_chain::{ForwardLinks, LinkList, ListKind};
use ic_link_ops::{LinkOps, PlainTable, Words};
use ic_test_support::notes::Text;
use ic_test_support::objects::{TENS, eight_objects, place_at, reference};
use ic_test_support::tables::write_linked;
use ic_unsafe_ref::Objects;
use std::alloc::Global;
use std::process::Abort;

/// A list with its objects and the table of its links. The table covers the places 0 to 7, and the objects at these places are 10 to 80, in order.
pub(crate) struct ListFixture<K: ListKind, W: Words> {
    pub(crate) objects: Objects<u64>,
    pub(crate) links: PlainTable<W>,
    pub(crate) list: LinkList<K, u64>,
}

// The `Drop` of a fixture is not derived. The reason is that the proof of a function that drops a fixture then covers one call of this `drop`, and not
// the drop of each part.
impl<K: ListKind, W: Words> Drop for ListFixture<K, W> {
    fn drop(self) {
        let ListFixture {
            objects: _,
            links: _,
            list: _,
        } = self;
    }
}

/// Inserts the objects at the first `members` places into a new list, in the order of their places.
pub(crate) fn filled<K: ForwardLinks<L>, L: LinkOps>(
    links: &mut L,
    members: usize,
) -> LinkList<K, u64>
    requires covered { (L.table links.old).extent.places ≡ 8 }
    requires few { members ≤ 8 }
    ensures covers { (L.table links.new).extent.places ≡ 8 }
    ensures shown { RepresentsSomeChain K.Between K.kept (L.table links.new) result }
{
    let mut list = LinkList::new();
    for given in 0..members {
        let _ = list.push_front(links, reference(members - 1 - given));
    }
    list
}

/// Returns a list of the objects at the first `members` places, in the order of their places.
pub(crate) fn list_of<K: ForwardLinks<PlainTable<W>>, W: Words>(
    rt: &impl Abort,
    alloc: Global,
    members: usize,
) -> ListFixture<K, W>
    requires { members ≤ 8 }
    ensures covers { (table W.width W.unlinked result.links).extent.places ≡ 8 }
    ensures shown { RepresentsPlaced (RepresentsChain K.Between K.kept (table W.width W.unlinked result.links) result.list) result.objects }
{
    let (objects, mut links) = eight_objects(alloc, TENS).expect(rt, "memory");
    let list = filled(&mut links, members);
    ListFixture {
        objects,
        links,
        list,
    }
}

/// Unlinks each linked place by force, one after the other. Before each of these calls it notes the places that are linked.
pub(crate) fn free_each<W: Words>(rt: &impl Abort, notes: &mut Text, links: &mut PlainTable<W>)
    ensures covers { (table W.width W.unlinked links.new).extent.places ≡ 8 }
{
    for index in 0..8 {
        let place = place_at(index);
        if index < links.covers() && links.is_linked(place) {
            write_linked(notes, links);
            links.force_unlink(place);
        }
    }
    assert!(rt; links.covers() == 8);
}
