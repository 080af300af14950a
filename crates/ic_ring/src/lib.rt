//! Rings: doubly linked lists whose head is a place of the same table.
//!
//! A head and its members form a circle, so each place has a neighbor on either side. Calls that remove a member, move it or insert beside it do not
//! take the ring, and no edit tests for an end. Rings are the lists of Linux (`list.h`), but they link places. They are good for objects that often
//! move from queue to queue, and for callers that remove an object without knowing its queue.
//!
//! ```text
//! let mut links = linked_list::LinkOps::new(rt.alloc());
//! links.cover(3)?;            // two objects, and a head
//! let Some(ready) = Ring::open(&mut links, head) else {
//!     return Err(..);         // the head is linked already
//! };
//! ready.push_back(&mut links, first)?;
//! ready.push_back(&mut links, second)?;
//! remove(&mut links, &first); // from whichever ring it is in
//! ```
//!
//! [`Cursor`] reads a ring, and [`CursorMut`] edits it at a position.
#![tactic(auto)]

mod beside;
mod cursor;
mod cursor_mut;
mod exchanges;
mod iter;
mod moves;
mod ring;
mod surgery;

pub use beside::{insert_after, insert_before, next, prev, remove, replace};
pub use cursor::Cursor;
pub use cursor_mut::CursorMut;
pub use exchanges::exchange;
pub use ic_cursors::DebugWalk;
pub use ic_link_ops::linked_list::{Link, LinkOps, LinkedListOps};
pub use iter::Iter;
pub use moves::{move_after, move_before};
pub use ring::Ring;
pub use surgery::{bypass, turn_to};
