//! This crate has calls on lists and on trees over plain tables. The table never refuses the object of such a call.
//!
//! A collection works over any table, so the contracts of its own calls have to treat a link that the table refuses. The calls of this crate require
//! a table that accepts each place that is not linked ([`AcceptsUnlinked`](ic_link_ops::AcceptsUnlinked)), and an object that is not linked yet.
//! Plain tables accept places that are not linked, whether their words have 8 bytes or 4. Each contract is a few clauses, and most callers need no
//! proof file. A call does the same and costs the same as the collection's own call of this name.
//!
//! ```text
//! use ic_plain::{linked_list, rbtree};
//!
//! linked_list::push_back(&mut list, &mut links, object);
//! linked_list::move_to_front(&mut list, &mut links, &other);
//! let oldest = linked_list::pop_back(&mut list, &mut links);
//!
//! rbtree::insert(&mut tree, &mut links, &objects, timer);
//! let earliest = rbtree::pop_front(&mut tree, &mut links);
//! ```
#![tactic(auto)]

pub mod example;
pub mod list;
pub mod rbtree;

// The module of calls on lists is exported under the name of each kind of list.
pub use list as linked_list;
pub use list as singly_linked_list;
pub use list as xor_linked_list;
