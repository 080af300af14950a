//! Searches and inserts by keys: descents from the root, and how they compare objects.
//!
//! ```text
//! tree.insert(&mut links, &objects, object)?; // after all with no greater key
//! let cursor = tree.find(&links, &objects, &5); // the first with the key 5
//! ```

pub(crate) mod bounds;
pub(crate) mod descent;
pub(crate) mod entry;
pub(crate) mod find;
pub(crate) mod hinted;
pub(crate) mod insert_pos;
pub mod key_adapter;
pub(crate) mod keyed;
pub(crate) mod ordered;
pub(crate) mod probe;
pub(crate) mod range;
pub(crate) mod search;
