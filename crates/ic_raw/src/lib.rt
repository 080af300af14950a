//! Lists, rings, hash tables and red-black trees whose links are words that the caller keeps. A place is a number: the index of its words in the
//! caller's array.
//!
//! ```text
//! let mut last = NONE;
//! list_calls::insert_at(table, list, GapSide::After, NONE, 7) // OK: 7 is the first member
//! list_calls::pop(table, list, GapSide::Before, &mut last)    // OK, and last is 7
//! ```
//!
//! The modules whose names end in `_calls` contain the calls for C, and `ic_ffi` gives each call its C name. No call requires anything of its
//! arguments. Each call tests every link that it follows or changes, and returns a status. If the status is not [`OK`], the call has changed nothing.
//! If several arguments have faults, the contract of the call says which fault gives the status. The fault of a place to insert comes last. The call
//! returns [`BROKEN`] if no argument has a fault but the links do not fit together. It returns [`NULL`] if the caller names no place where a member
//! or a head is needed, or if there is no member to find or to remove.
#![tactic(auto)]

mod chain;
pub mod check_calls;
mod fill;
pub mod fill_calls;
pub mod gap;
pub mod hash_calls;
pub mod list;
pub mod list_calls;
mod marked_tree;
pub mod move_calls;
mod moving;
pub mod nodes;
pub mod number;
pub mod ring;
pub mod ring_calls;
mod ring_moves;
mod search;
pub mod search_calls;
pub mod sort_calls;
pub mod stack;
pub mod stack_calls;
mod status;
mod surgery;
mod table;
mod tree;
pub mod tree_calls;
mod tree_clear;
mod whole;
mod words;
pub mod xor_calls;
mod xor_list;

pub use gap::{Gap, GapSide};
pub use marked_tree::MarkedTree;
pub use number::{number_of, place_in, place_of};
pub use search::Target;
pub use status::{BROKEN, LINKED, NONE, NOT_LINKED, NULL, OK, OUT_OF_RANGE};
pub use surgery::{Plain, Surgery};
pub use table::RawTable;
pub use words::{ListWords, RawEnds, RawFront, RawNarrowTwo, RawOne, RawRoot, RawThree, RawTwo};
