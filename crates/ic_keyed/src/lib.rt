//! A container has values with unique keys, in the order of their use.
//!
//! ```text
//! let mut pages = Keyed::new(rt.alloc());
//! pages.insert(page)?; // before all others, if none has its key
//! let page = pages.get(7); // before all others again
//! let oldest = pages.pop_last();
//! ```
//!
//! A contract speaks of one list of values, from the value that was used last to the oldest. Each call cuts, joins or filters this list of values.
#![tactic(auto)]

mod insert_error;
mod keyed;
mod store;

pub use ic_container::Iter;
pub use ic_indexed::{ByKey, HasKey, Index, NarrowByKey};
pub use insert_error::InsertError;
pub use keyed::{Keyed, NarrowTreeKeyed, TreeKeyed};
