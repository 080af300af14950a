//! A field of a world.
//!
//! ```text
//! let field = WorldField { links, left_linked: false };
//! ```

use ic_any_collection::AnyTable;
use std::alloc::Allocator;

/// The table of a field's links, and the mark `left_linked`, which is true if `fast_clear` was ever called in the field. If it was never called,
/// every object that is linked in the field is a member of a collection of the field.
#[derive(Drop)]
pub struct WorldField<M: Allocator> {
    pub links: AnyTable<M>,
    pub left_linked: bool,
}
