//! A cache with a capacity: if it is full and gets a new entry, it removes the entry that was touched longest ago.
//!
//! ```text
//! let mut cache = LruCache::new(rt.alloc(), 1000);
//! let gone = cache.insert(7, page)?; // the entry that leaves, if one does
//! let page = cache.get(7); // touched: it leaves last
//! ```
//!
//! Each entry is one object with two links: one in the index of keys, by which a search finds the entry, and one in the list of ages. The last entry
//! of this list leaves first. The index is a tree, or the hash table of `ic_hash_index` over buckets that the caller makes:
//!
//! ```text
//! let index = HashIndex::new(buckets); // as many as entries: O(1) on average
//! let mut cache = LruCache::with_index(rt.alloc(), 1000, index);
//! ```
#![tactic(auto)]

mod cache;
mod entry;
mod insert_error;

pub use cache::{LruCache, NarrowTreeLruCache, TreeLruCache};
pub use entry::Entry;
pub use insert_error::InsertError;
