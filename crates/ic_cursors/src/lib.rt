//! The cursors of every kind of collection. Each move and each edit of a cursor is written once, for all kinds.
//!
//! A kind of collection implements the following traits, so that cursors work on it:
//!
//! - [`Collection`] names the type of the objects in the collection, and the type of a cursor's position.
//! - [`CursorOps`] has the move to the next member, and the insert after a position.
//! - [`Bidirectional`] has the move to the previous member, the insert before a position, the removal and the replacement.
//! - [`ForwardOnly`] has the removal and the replacement of the member after a position, for a kind without moves to the previous member.
//! - [`Splice`] has the splice and the split after a position, and [`BidirectionalSplice`] has both before a position.
//! - [`Ordered`] has the insert of an object in the order of the keys.
//!
//! [`Cursor`] reads, [`CursorMut`] edits, and [`CursorOwning`] edits and owns its collection. [`DebugWalk`] prints the
//! objects of a walk. Each kind of collection has calls that make cursors and walks.
//!
//! ```text
//! let mut cursor = list.cursor_mut(&mut links); // null
//! cursor.move_next();                           // the first member
//! let removed = cursor.remove();                // and the cursor is on the second
//! ```
#![tactic(auto)]

mod answers;
mod cursor;
mod cursor_mut;
mod cursor_owning;
mod debug_walk;
mod kind;
mod position;

pub use cursor::Cursor;
pub use cursor_mut::CursorMut;
pub use cursor_owning::CursorOwning;
pub use debug_walk::DebugWalk;
pub use kind::{
    Bidirectional, BidirectionalSplice, Collection, CursorOps, ForwardOnly, Ordered, Splice,
};
pub use position::Position;
