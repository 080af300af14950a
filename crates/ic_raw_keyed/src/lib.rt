//! Calls for C that are built on `ic_raw`: the calls of red-black trees that keep their first and their last member, and the call by which a hash table grows.
//!
//! ```text
//! ends_calls::insert(table, keys, tree, ends, 7)       // OK, and `ends` says the first member and the last one
//! ends_calls::pop_first(table, tree, ends, &mut first) // OK, and first is the number of the member with the least key
//! growth_calls::move_chain(table, hashes, &mut old[3], new) // OK: the members of old[3] are in the buckets of `new`
//! ```
//!
//! No call requires anything of its arguments. Each call returns a status as the calls of `ic_raw` do, and changes nothing if the status is not `OK`.
#![tactic(auto)]

mod ends;
pub mod ends_calls;
mod growth;
pub mod growth_calls;

pub use ends::RawTreeEnds;
