//! This crate defines tables of links, and the traits that collections require of a table.
//!
//! All links of one field are in one table, which has an entry for each place that the table covers. A program makes the table
//! once, lets the table cover the places of the program's objects, and passes the table to each call of a collection.
//!
//! ```text
//! let mut links = linked_list::LinkOps::new(rt.alloc());
//! links.cover(1000)?; // the only call that takes memory
//! ```
#![tactic(auto)]

mod accepts_unlinked;
mod bits;
mod color;
mod errors;
mod lent_table;
mod link;
mod link_ops;
mod link_value;
pub mod linked_list;
mod marked_word;
mod node_words;
mod one_word;
mod place_word;
pub mod rbtree;
mod side;
pub mod singly_linked_list;
mod stored_place;
mod stored_word;
mod table;
mod tree_word;
mod word;
pub mod xor_linked_list;

pub use accepts_unlinked::AcceptsUnlinked;
pub use bits::Bits;
pub use color::Color;
pub use errors::{AlreadyLinked, CoverError, ReplaceError};
pub use lent_table::LentTable;
pub use link::{Link, NextWord, PrevPlace, Words};
pub use link_ops::LinkOps;
pub use link_value::{LinkValue, LinkValues};
pub use linked_list::TwoNarrowWords;
pub use marked_word::{MarkedWord, NarrowMarkedWord};
pub use node_words::NodeWords;
pub use one_word::{OneNarrowWord, OneWord};
pub use place_word::PlaceWord;
pub use rbtree::ThreeNarrowWords;
pub use side::Side;
pub use stored_place::{NarrowPlaceWord, StoredPlace};
pub use stored_word::{NarrowWord, StoredWord};
pub use table::PlainTable;
pub use tree_word::{NarrowTreeWord, TreeWord};
pub use word::Word;
