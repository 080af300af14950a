//! This crate has algorithms over lists: a stable sort and a merge in place, walks, and edits of many members.
//!
//! Each algorithm is a function over lists of every kind whose links suffice for it. For example `sort_by` and `merge_by` work on doubly and singly linked
//! lists. No algorithm takes memory. A sort or a merge acquires and releases no link, because it changes only the neighbors of members.
//!
//! ```text
//! let mut by_deadline = By::new(|a: &Task, b: &Task| a.deadline.cmp(&b.deadline));
//! sort_by(&mut ready, &mut links, &tasks, &mut by_deadline);          // tasks with the same deadline keep their order
//! merge_by(&mut ready, &mut links, &tasks, &mut by_deadline, woken);  // and those that were in `ready` go first
//! ```
#![tactic(auto)]

mod following;
mod keeps;
mod member_values;
mod merge;
mod precedes;
mod sift;
mod sort;
mod walks;
mod whole;

pub use following::Following;
pub use merge::{merge_by, merge_keyed};
pub use precedes::{By, Counted, Natural, Precedes};
pub use sift::{dedup_by, retain};
pub use sort::{sort_by, sort_keyed};
pub use walks::{find, is_sorted_by, len, nth, position};
pub use whole::{append, append_walking, rotate_left};
