//! The error that a phone book returns if it does not insert an entry.
//!
//! ```text
//! if let Err(InsertError::NumberTaken(entry)) = book.insert(entry) {
//!     book.remove(entry.number); // makes way for it
//! }
//! ```

use crate::Entry;
use ic_pool::PlaceError;

/// The reason why an entry was not inserted, with the entry.
#[derive(Debug, Drop)]
pub enum InsertError {
    /// Another entry has the number of this entry.
    NumberTaken(Entry),
    /// All places are in use, or there was not enough memory.
    NotPlaced(PlaceError<Entry>),
}
