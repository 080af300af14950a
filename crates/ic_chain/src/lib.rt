//! A list over a table of links, written once for every kind: doubly linked, singly linked and XOR lists.
//!
//! Each operation takes the table of the link field. Linking takes no memory, and one object can be in lists of several fields. [`LinkList`] has all calls.
//! The crate of a kind of list implements two groups of traits, which say which words a list stores ([`ListKind`]), and how the list reads and writes the
//! links of a table ([`ForwardLinks`], [`BidirectionalLinks`]).
//!
//! ```text
//! pub type LinkedList<T> = LinkList<DoublyLinked, T>;
//!
//! let mut list = LinkedList::new();
//! list.push_back(&mut links, first)?;
//! list.push_back(&mut links, second)?;
//! let taken = list.pop_front(&mut links); // the first
//! ```
//!
//! A cursor is on a member, or at null, which is between the last member and the first. `Cursor` reads. `CursorMut` edits: it
//! inserts, removes, replaces, splices and splits, each in O(1). `CursorOwning` also edits, and owns its list, so a struct can contain such a cursor.
//! Each of its calls takes the table. [`Iter`] lends the objects, and [`IntoIter`] removes the members.
//!
//! You may store lists in words of your own. For an edit, make a `LinkList` of the words, call a function such as `insert_linked`, and store the words that
//! the `LinkList` then has. The functions whose names end in `_linked`, and `bypass`, `splice_between` and `split_between`, require only that the places
//! which they write are linked.
//!
//! ```text
//! let mut list: LinkedList<Job> = LinkList::from_ends(first, last);
//! list.insert_linked(&mut links, last, place, None); // at the back
//! ```
#![tactic(auto)]

mod cursors;
mod edits;
mod into_iter;
mod iter;
mod kind;
pub mod laws;
mod lent_list;
mod list;
mod neighbors;
mod one_kind;
mod position;
mod whole;

pub use into_iter::IntoIter;
pub use iter::Iter;
pub use kind::{
    BidirectionalLinks, DoubleEnded, ForwardLinks, ListKind, NamesBoth, NamesNext, Reversible,
    SingleEnded,
};
pub use lent_list::LentList;
pub use list::LinkList;
pub use position::ListPosition;
