//! A doubly linked list over any table whose entries name two neighbors.
//!
//! Each operation takes the table of the link field. Linking takes no memory, and one object can be in lists of several
//! fields. One call removes an object from the middle of a list, given only the object's reference. [`LinkList`] has all calls.
//!
//! ```text
//! let mut links = linked_list::LinkOps::new(rt.alloc());
//! links.cover(2)?;
//! let mut list = LinkedList::new();
//! list.push_back(&mut links, first)?;
//! list.push_back(&mut links, second)?;
//! let taken = list.pop_front(&mut links); // the first
//! let mut cursor = list.front_mut(&mut links);
//! cursor.insert_after(object)?;           // after the second
//! ```
#![tactic(auto)]

mod kind;

use ic_chain::LinkList;
pub use ic_chain::laws;
pub use ic_cursors::DebugWalk;
pub use ic_link_ops::linked_list::{Link, LinkOps, LinkedListOps};
use ic_unsafe_ref::Objects;
pub use kind::DoublyLinked;

/// A doubly linked list of objects. The list stores its first member and its last member.
///
/// This list is good for queues, and if objects are removed from the middle. Contracts name the two ends of the list. The list has the sequence that
/// the table represents for these ends.
pub type LinkedList<T> = LinkList<DoublyLinked, T>;

/// A cursor that reads a list. It is on a member, or at null, which is between the last member and the first.
pub type Cursor<'a, T, L> = ic_cursors::Cursor<'a, LinkedList<T>, L>;

/// A cursor that edits a list. The cursor borrows the list and the table of its links.
pub type CursorMut<'a, T, L> = ic_cursors::CursorMut<'a, LinkedList<T>, L>;

/// A cursor that owns its list. Each of its calls takes the table of the list's links.
pub type CursorOwning<T> = ic_cursors::CursorOwning<LinkedList<T>>;

/// A walk over the objects of a list, from the front and from the back.
pub type Iter<'a, T, L, O = Objects<T>> = ic_chain::Iter<'a, DoublyLinked, T, L, O>;

/// A walk that removes the members of a list, from the front and from the back. The walk unlinks each member that it returns.
pub type IntoIter<'a, T, L> = ic_chain::IntoIter<'a, DoublyLinked, T, L>;
