//! A singly linked list over any table whose entries name the next place.
//!
//! Each operation takes the table of the link field. Linking takes no memory, and one object can be in lists of several
//! fields. An entry does not name the previous place. Therefore calls insert and remove members after a known member. [`LinkList`] has all calls.
//!
//! ```text
//! let mut links = singly_linked_list::LinkOps::new(rt.alloc());
//! links.cover(2)?;
//! let mut list = SinglyLinkedList::new();
//! list.push_front(&mut links, second)?;
//! list.push_front(&mut links, first)?;
//! let mut cursor = list.front_mut(&mut links);
//! let removed = cursor.remove_next();        // the second, and the cursor stays on the first
//! let taken = list.pop_front(&mut links);    // the first
//! ```
#![tactic(auto)]

mod kind;

use ic_chain::LinkList;
pub use ic_chain::laws;
pub use ic_cursors::DebugWalk;
pub use ic_link_ops::singly_linked_list::{Link, LinkOps, SinglyLinkedListOps};
use ic_unsafe_ref::Objects;
pub use kind::{NoTail, SinglyLinked};

/// A singly linked list of objects. The list stores its first member.
///
/// This list is good for stacks and free lists, and if an entry should be one word. Contracts name only the first member. The list has the sequence
/// that the table represents for this first member.
pub type SinglyLinkedList<T> = LinkList<SinglyLinked, T>;

/// A cursor that reads a list. It is on a member, or at null, which is before the first member.
pub type Cursor<'a, T, L> = ic_cursors::Cursor<'a, SinglyLinkedList<T>, L>;

/// A cursor that edits a list. The cursor borrows the list and the table of its links.
pub type CursorMut<'a, T, L> = ic_cursors::CursorMut<'a, SinglyLinkedList<T>, L>;

/// A cursor that owns its list. Each of its calls takes the table of the list's links.
pub type CursorOwning<T> = ic_cursors::CursorOwning<SinglyLinkedList<T>>;

/// A walk over the objects of a list, from the front.
pub type Iter<'a, T, L, O = Objects<T>> = ic_chain::Iter<'a, SinglyLinked, T, L, O>;

/// A walk that removes the members of a list, from the front. The walk unlinks each member that it returns.
pub type IntoIter<'a, T, L> = ic_chain::IntoIter<'a, SinglyLinked, T, L>;
