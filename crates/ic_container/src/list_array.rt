//! These calls edit an array of lists over one table, whose links have words of either width. The contract of each call states one edit of one list, in the
//! form in which a container's lemmas use it.
//!
//! ```text
//! list_array::push_back(&mut self.lists, &mut self.pool.links, index, place);
//! list_array::move_to_back(&mut self.lists, &mut self.pool.links, index, other, place);
//! let first = list_array::first(&self.lists)?; // of the first list that is not empty
//! ```

ghost use Rattle.std.specs.Prelude.{◌≡◌, ◌<◌, [], ℕ, List, Option, Some, length};
ghost use Rattle.ic_link_ops.specs.Prelude.{Place, IsCovered, IsUnlinked, HasMember};
ghost use Rattle.ic_link_ops.specs.LinkedList.{Represents, RepresentsSome, members};
ghost use Rattle.ic_container.specs.Holds.{HoldsLists};
ghost use Rattle.ic_container.specs.ListArray.{list_at, IsFirst, ListArrayAdds, ListArrayLeaves, ListArrayMoves};

use crate::lists;
use ic_link_ops::AcceptsUnlinked;
use ic_link_ops::linked_list::LinkedListOps;
use ic_linked_list::LinkedList;
use ic_unsafe_ref::Place;

/// Inserts the object at the back of a list. The call requires that the list exists, that the table covers the object's place, and that the object is not
/// linked. O(1), and it takes no memory.
pub fn push_back<T, L: LinkedListOps + AcceptsUnlinked>(
    array: &mut [LinkedList<T>],
    links: &mut L,
    index: usize,
    place: Place,
)
    requires in_bounds { index < length array.old }
    requires covered { IsCovered (L.table links.old) place }
    requires unlinked { IsUnlinked L.linked (L.table links.old) place }
    requires shown { RepresentsSome L.neighbors (L.table links.old) (list_at array.old index) }
    ensures { ListArrayAdds L.neighbors L.linked index (L.table links.old) (L.table links.new) array.old array.new (members L.neighbors (L.table links.old) (list_at array.old index)) place [] }
{
    lists::push_back(&mut array[index], links, place);
}

/// Removes the object from a list. The call requires that the list exists, and that the object is a member of the list. O(1), and it takes no memory.
pub fn remove<T, L: LinkedListOps + AcceptsUnlinked>(
    array: &mut [LinkedList<T>],
    links: &mut L,
    index: usize,
    place: Place,
)
    requires in_bounds { index < length array.old }
    requires member { HasMember (Represents L.neighbors (L.table links.old) (list_at array.old index)) place }
    ensures { (front : List Place) × (back : List Place) × ListArrayLeaves L.neighbors L.linked index (L.table links.old) (L.table links.new) array.old array.new front place back }
{
    lists::remove(&mut array[index], links, place);
}

/// Moves a member of the first list to the back of the second list, and both may be one list. The call requires that both lists exist, and that the object is
/// a member of the first. O(1), and it takes no memory.
pub fn move_to_back<T, L: LinkedListOps + AcceptsUnlinked>(
    array: &mut [LinkedList<T>],
    links: &mut L,
    index: usize,
    other: usize,
    place: Place,
)
    requires in_bounds { index < length array.old }
    requires other_in_bounds { other < length array.old }
    requires owner { (owner : Place → Option ℕ) × HoldsLists L.neighbors L.linked L.table links.old (list_at array.old) owner × (owner place ≡ Some index) }
    ensures { ListArrayMoves L.neighbors L.linked L.table index other links.old links.new array.old array.new place }
{
    remove(array, links, index, place);
    push_back(array, links, other, place);
}

/// Returns the first object of the first list that is not empty, or `None` if all lists are empty. O(1) for each list.
pub fn first<T>(array: &[LinkedList<T>]) -> Option<Place>
    ensures { IsFirst array.now result }
{
    for list in array {
        if let Some(place) = list.first() {
            return Some(place);
        }
    }
    None
}
