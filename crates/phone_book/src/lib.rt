//! A phone book: entries that are found by their numbers and by their persons. No two entries have the same number.
//!
//! ```text
//! let mut book = PhoneBook::new(rt.alloc());
//! book.insert(Entry { number: 5550100, person: 7 })?;
//! book.with_number(5550100) // that entry
//! book.of_person(7) // one of this person's entries
//! ```
#![tactic(auto)]

mod entry;
mod insert_error;
mod phone_book;

pub use entry::Entry;
pub use insert_error::InsertError;
pub use phone_book::PhoneBook;
