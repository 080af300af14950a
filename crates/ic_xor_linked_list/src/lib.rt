//! An XOR linked list over any table whose entries join two neighbors in one word.
//!
//! Each operation takes the table of the link field. Linking takes no memory, and one object can be in lists of several fields. To read one neighbor
//! from an entry, a caller must know the other neighbor. Therefore no call removes a member by its reference alone. A list is reversed if its two
//! ends are exchanged. A cursor stores the next place, so that it can read the previous place from the entry. [`LinkList`] has all calls.
//!
//! ```text
//! let mut links = xor_linked_list::LinkOps::new(rt.alloc());
//! links.cover(2)?;
//! let mut list = XorLinkedList::new();
//! list.push_back(&mut links, first)?;
//! list.push_back(&mut links, second)?;
//! list.reverse();
//! let taken = list.pop_front(&mut links); // the second
//! ```
#![tactic(auto)]

mod kind;
pub mod laws;
mod position;

use ic_chain::LinkList;
pub use ic_cursors::DebugWalk;
pub use ic_link_ops::xor_linked_list::{Link, LinkOps, XorLinkedListOps};
use ic_unsafe_ref::Objects;
pub use kind::XorLinked;
pub use position::PositionWithNext;

/// An XOR linked list of objects. The list stores its first and last members.
///
/// This list is good for queues, and for lists that are reversed, because `reverse` is O(1). An entry is one word. A member is reached only by a
/// walk, and removed only at a cursor. Contracts name the two ends of the list. The list has the sequence that the table represents for these ends.
pub type XorLinkedList<T> = LinkList<XorLinked, T>;

/// A cursor that reads a list. It is on a member, or at null, which is between the last member and the first. The cursor also stores the next place.
pub type Cursor<'a, T, L> = ic_cursors::Cursor<'a, XorLinkedList<T>, L>;

/// A cursor that edits a list. The cursor borrows the list and the table of its links, and also stores the next place.
pub type CursorMut<'a, T, L> = ic_cursors::CursorMut<'a, XorLinkedList<T>, L>;

/// A cursor that owns its list, and also stores the next place. Each of its calls takes the table of the list's links.
pub type CursorOwning<T> = ic_cursors::CursorOwning<XorLinkedList<T>>;

/// A walk over the objects of a list, from the front and from the back.
pub type Iter<'a, T, L, O = Objects<T>> = ic_chain::Iter<'a, XorLinked, T, L, O>;

/// A walk that removes the members of a list, from the front and from the back. The walk unlinks each member that it returns.
pub type IntoIter<'a, T, L> = ic_chain::IntoIter<'a, XorLinked, T, L>;
