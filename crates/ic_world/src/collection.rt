//! A collection of a world.
//!
//! ```text
//! let queue = Collection { field: 0, members: AnyCollection::new(kind) };
//! ```

use ic_any_collection::AnyCollection;

/// The members and the cursor of a collection, and the number of its field.
#[derive(Drop)]
pub struct Collection<T> {
    pub field: usize,
    pub members: AnyCollection<T>,
}
