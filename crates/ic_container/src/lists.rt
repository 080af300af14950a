//! These calls edit lists, over links whose words have either width. The contract of each call states one edit, in the form in which a container's lemmas
//! use it.
//!
//! ```text
//! lists::push_front(&mut self.order, &mut self.pool.links, place);
//! lists::move_to_front(&mut self.order, &mut self.pool.links, place);
//! ```

ghost use Rattle.std.specs.Prelude.{[], List};
ghost use Rattle.ic_link_ops.specs.Prelude.{Place, IsCovered, IsUnlinked, HasMember};
ghost use Rattle.ic_link_ops.specs.LinkedList.{Represents, RepresentsSome, members};
ghost use Rattle.ic_container.specs.Holds.{ListAdds, ListLeaves, ListMoves};

use ic_link_ops::AcceptsUnlinked;
use ic_link_ops::linked_list::LinkedListOps;
use ic_linked_list::LinkedList;
use ic_plain::linked_list;
use ic_unsafe_ref::{Place, UnsafeRef};

/// Inserts the object at the front. The call requires that the table covers the object's place, and that the object is not linked. O(1), and it takes no
/// memory.
#[inline]
pub fn push_front<T, L: LinkedListOps + AcceptsUnlinked>(
    list: &mut LinkedList<T>,
    links: &mut L,
    place: Place,
)
    requires covered { IsCovered (L.table links.old) place }
    requires unlinked { IsUnlinked L.linked (L.table links.old) place }
    requires shown { RepresentsSome L.neighbors (L.table links.old) list.old }
    ensures { ListAdds L.neighbors L.linked (L.table links.old) (L.table links.new) list.old list.new [] place (members L.neighbors (L.table links.old) list.old) }
{
    linked_list::push_front(list, links, UnsafeRef::new(place));
}

/// Inserts the object at the back. The call requires that the table covers the object's place, and that the object is not linked. O(1), and it takes no
/// memory.
#[inline]
pub fn push_back<T, L: LinkedListOps + AcceptsUnlinked>(
    list: &mut LinkedList<T>,
    links: &mut L,
    place: Place,
)
    requires covered { IsCovered (L.table links.old) place }
    requires unlinked { IsUnlinked L.linked (L.table links.old) place }
    requires shown { RepresentsSome L.neighbors (L.table links.old) list.old }
    ensures { ListAdds L.neighbors L.linked (L.table links.old) (L.table links.new) list.old list.new (members L.neighbors (L.table links.old) list.old) place [] }
{
    linked_list::push_back(list, links, UnsafeRef::new(place));
}

/// Removes a member. The call requires that the object is a member. O(1), and it takes no memory.
#[inline]
pub fn remove<T, L: LinkedListOps + AcceptsUnlinked>(
    list: &mut LinkedList<T>,
    links: &mut L,
    place: Place,
)
    requires member { HasMember (Represents L.neighbors (L.table links.old) list.old) place }
    ensures { (front : List Place) × (back : List Place) × ListLeaves L.neighbors L.linked (L.table links.old) (L.table links.new) list.old list.new front place back }
{
    linked_list::remove(list, links, &UnsafeRef::new(place));
}

/// Moves a member to the front. The other members keep their order, and the moved member stays linked. The call requires that the object is a member. O(1),
/// and it takes no memory.
#[inline]
pub fn move_to_front<T, L: LinkedListOps>(list: &mut LinkedList<T>, links: &mut L, place: Place)
    requires member { HasMember (Represents L.neighbors (L.table links.old) list.old) place }
    ensures { (front : List Place) × (back : List Place) × (after : List Place)
        × ListMoves L.neighbors L.linked (L.table links.old) (L.table links.new) list.old list.new front place back [] after }
{
    linked_list::move_to_front(list, links, &UnsafeRef::new(place));
}

/// Moves a member to the back. The other members keep their order, and the moved member stays linked. The call requires that the object is a member. O(1),
/// and it takes no memory.
#[inline]
pub fn move_to_back<T, L: LinkedListOps>(list: &mut LinkedList<T>, links: &mut L, place: Place)
    requires member { HasMember (Represents L.neighbors (L.table links.old) list.old) place }
    ensures { (front : List Place) × (back : List Place) × (before : List Place)
        × ListMoves L.neighbors L.linked (L.table links.old) (L.table links.new) list.old list.new front place back before [] }
{
    linked_list::move_to_back(list, links, &UnsafeRef::new(place));
}
