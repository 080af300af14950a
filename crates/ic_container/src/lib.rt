//! A container has objects, and the collections in which the objects are linked.
//!
//! ```text
//! let mut listed = Listed::new(rt.alloc());
//! let job = listed.place_front(10)?;
//! listed.move_to_front(job.place());
//! ```
//!
//! For containers of your own there is a record for the invariant, `Holds` (specs/Holds.antt). Lemmas prove the invariant again after each edit
//! (proofs/HoldsLemmas.antt). The contract of each call of `lists` states its edit by one record, and these calls are never refused.
#![tactic(auto)]

mod iter;
pub mod list_array;
mod listed;
pub mod lists;
pub mod trees;

pub use iter::Iter;
pub use listed::{Listed, NarrowListed};
