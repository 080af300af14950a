//! What a contract sees of a place in a table of any kind.
//!
//! ```text
//! (table_in links).entry place // an Entry: `linked`, the word for what follows, ..
//! ```

use ic_link_ops::Color;
use ic_unsafe_ref::Place;

/// What an entry contains, for every kind of table. Only contracts use this type: no table stores it.
#[derive(Clone, Copy)]
pub struct Entry {
    /// Whether the place is linked.
    pub linked: bool,
    /// The word for the next place, or in a table of XOR links the exclusive or of the words of both neighbors.
    pub word: u64,
    /// The previous place, or none in a table that does not store it.
    pub prev: Option<Place>,
    /// The parent, or none in a table that does not store it.
    pub parent: Option<Place>,
    /// The color, or red in a table that does not store it.
    pub color: Color,
}
