//! Checks whether a table, whose words may be arbitrary, represents a sequence for a collection.
//!
//! A table that was read from a file, or that others write too, may contain anything. A check walks along the links once, and returns how many members the
//! collection has, or `None` if the table represents no sequence for the collection. The check requires nothing of the words. If the check returns a number,
//! the table represents a sequence for the collection, which is what the contracts of the collection's calls require.
//!
//! ```text
//! let Some(members) = check(&list, &links) else {
//!     return Err(..); // the words are no list
//! };
//! list.push_back(&mut links, object)?;
//! ```
#![tactic(auto)]

mod gather;
mod hash_table;
mod joined;
mod kinds;
mod list;
mod placed;
mod sorted;
mod tells;
mod tree;
mod whole;

pub use gather::Gather;
pub use hash_table::check_hash_table;
pub use joined::{JoinsAny, KeepsWord};
pub use kinds::{NamesItsNext, TellsNeighbors};
pub use list::check;
pub use placed::TellsPlaced;
pub use sorted::is_sorted;
pub use tells::TellsLinks;
pub use tree::check_tree;
pub use whole::{check_all, check_both, check_marking};
