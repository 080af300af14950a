//! The calls of one collection of a world.
//!
//! ```text
//! world.push_back(queue, object)?;
//! let first = world.pop_front(queue)?;
//! ```

pub(crate) mod bulk_edit;
pub(crate) mod collection_call;
pub(crate) mod gaps;
pub(crate) mod insertion;
pub(crate) mod keyed;
pub(crate) mod kinds;
pub(crate) mod probes;
pub(crate) mod search;
pub(crate) mod seek;
pub(crate) mod unkeyed;
