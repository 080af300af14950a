//! Collections and link fields whose kind is chosen when a program runs.
//!
//! ```text
//! let mut links = AnyTable::new(rt.alloc(), Kind::Tree);
//! links.cover(3)?;
//! let mut queue = AnyCollection::new(Kind::Xor);
//! queue.insert(&mut links, Gap::Front, place); // true: it was not linked
//! queue.move_next(&links) // Some(place)
//! ```
//!
//! An [`AnyTable`] is a table of any kind, and every kind can serve singly linked lists and XOR lists. If its entries also name the previous place,
//! it contains a [`TableWithPrev`], which can serve doubly linked lists, too. If it has tree links, it can also serve trees.
//!
//! An [`AnyCollection`] is a collection of any kind, with its cursor. Each call is passed on to the collection's kind and to its table. The contract
//! of a call is the same for every kind. If a kind of collection lacks a call, the call requires that the collection is of another kind.
#![tactic(auto)]

mod any_collection;
mod any_table;
mod at_gap;
mod edits;
mod entry;
mod gap;
mod inner_tables;
mod keyed;
mod kind;
mod moves;
mod readings;
mod table_with_prev;
mod unkeyed;
mod whole;

pub use any_collection::AnyCollection;
pub use any_table::AnyTable;
pub use entry::Entry;
pub use gap::Gap;
pub use kind::Kind;
pub use table_with_prev::TableWithPrev;
pub use unkeyed::Unkeyed;
