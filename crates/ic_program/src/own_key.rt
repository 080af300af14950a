//! The objects of the program are numbers, and each number is its own key.
//!
//! ```text
//! World::new(alloc, OwnKey) // a world of numbers
//! ```

use ic_rbtree::KeyAdapter;

/// The program's objects are numbers, and a value is its own key.
#[derive(Clone, Copy)]
pub struct OwnKey;

impl KeyAdapter for OwnKey {
    type Value = u64;

    type Key = u64;

    ghost key_of = { λ _ value. value };

    fn get_key<'v>(&self, value: &'v u64) -> &'v u64 {
        value
    }
}
