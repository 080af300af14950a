//! Red-black trees can store a summary of each subtree beside the links. It is the number of the subtree's members, the greatest of the members' numbers, or a
//! summary of your own.
//!
//! An edit marks each summary that may have changed as stale, and `refresh` recomputes the stale summaries. Therefore several edits can share one
//! `refresh`.
//!
//! ```text
//! tree.insert_keyed(&mut summed, object)?;
//! refresh(&tree, &mut summed);
//! nth(&tree, &summed, 3) // the fourth member
//! ```
#![tactic(auto)]

mod augmented;
mod augmented_table;
mod climb;
mod counts;
mod edits;
mod exceeding;
mod fresh;
mod greatest;
mod marking;
mod no_summary;
mod overlaps;
mod pooled;
mod ranks;
mod stale;
mod summaries;

pub use augmented::Augmented;
pub use augmented_table::{AugmentedTable, Cell, Summarize, set_value};
pub use counts::Counts;
pub use edits::{attach_fresh, propagate, refresh, unlink_fresh};
pub use exceeding::first_greater;
pub use fresh::{insert_fresh, remove_fresh};
pub use greatest::Greatest;
pub use no_summary::NoSummary;
pub use overlaps::{first_overlap, next_overlap};
pub use ranks::{index_of, len, nth};
pub use summaries::{RecomputeSummaries, Summaries};
