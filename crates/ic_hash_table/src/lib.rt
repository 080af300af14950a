//! An intrusive hash table, whose links are in any table for singly linked lists.
//!
//! Each bucket stores the first member of a chain, and a member's link names the next one of its chain. The caller provides the buckets, and the objects
//! stay at their places, so no call takes memory. A table grows when it takes one more of its buckets into use, and it never hashes all of its members
//! again.
//!
//! ```text
//! let mut table = HashTable::new(ById, buckets); // a `Vec` of empty buckets, or an array
//! table.insert(&mut links, &objects, first)?;
//! let found = table.find(&links, &objects, &7);
//! let taken = table.remove_by(&mut links, &objects, &7);
//! ```
//!
//! In contracts the table holds a sequence of members: the members of one chain come after the members of the chain before it. An insert adds the object
//! somewhere in the sequence, a removal removes it, and growth reorders the sequence.
#![tactic(auto)]

mod adapter;
mod bucket_word;
mod buckets;
mod chain_edits;
mod chain_search;
mod entry;
mod equal;
mod growth;
mod iter;
mod keyed;
mod narrow_buckets;
mod new_buckets;
mod probe;
mod slots;
mod std_hash;
mod steps;
mod table;
mod whole;

pub use adapter::HashAdapter;
pub use bucket_word::{BucketWord, BucketWordFor};
pub use buckets::{BucketRow, BucketsFor};
pub use entry::{Entry, OccupiedEntry, RefusedInsert, VacantEntry};
pub use iter::Iter;
pub use narrow_buckets::{NarrowLinks, NarrowWords};
pub use new_buckets::{empty_buckets, empty_narrow_buckets};
pub use probe::{KeyProbe, Probe};
pub use slots::Slots;
pub use std_hash::{KeyOf, StdHash};
pub use table::HashTable;
