//! A hash table as the index of a container. The container finds objects by their keys, in constant time on average.
//!
//! ```text
//! let buckets = empty_buckets(rt.alloc(), 1024)?; // as many as there will be objects
//! let mut pages = Keyed::with_index(rt.alloc(), HashIndex::new(buckets));
//! pages.insert(page)?;
//! ```
#![tactic(auto)]

mod by_hash;
mod hash_index;

pub use by_hash::{ByHash, NarrowByHash};
pub use hash_index::{HashIndex, HashIndexed, NarrowHashIndex, NarrowHashIndexed};
pub use ic_hash_table::{BucketRow, BucketsFor, empty_buckets, empty_narrow_buckets};
