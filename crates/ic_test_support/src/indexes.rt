//! The indexes over which the tests of keyed containers make their calls.

/// The index of a container: a tree or a hash table, over links of 8-byte or of 4-byte words.
#[derive(Clone, Copy)]
pub enum By {
    /// A tree over links of 8-byte words.
    Tree,
    /// A hash table over links of 8-byte words.
    HashTable,
    /// A tree over links of 4-byte words.
    NarrowTree,
    /// A hash table over links of 4-byte words.
    NarrowHashTable,
}
