//! An adapter finds the key of an object, and computes the hash of a key.
//!
//! ```text
//! impl HashAdapter for ById {
//!     type Value = Task;
//!     type Key = u64;
//!
//!     fn get_key<'v>(&self, task: &'v Task) -> &'v u64 {
//!         &task.id
//!     }
//!
//!     fn hash(&self, id: &u64) -> u64 {
//!         fold_hash(id)
//!     }
//! }
//! ```

ghost use Rattle.std.specs.Prelude.{◌≡◌, ℕ, IsTrue};

/// An adapter says which part of an object is its key, and computes a hash of each key.
///
/// The key depends only on the adapter and the value, and the hash only on the adapter and the key. While a value is not changed, its key and its hash do
/// not change. An adapter must give equal keys the same hash, and nothing else is required. How well the hashes spread determines how far a search walks,
/// but not what it finds.
pub trait HashAdapter: Copy {
    /// The type of the objects whose keys the adapter returns.
    type Value;

    /// The type of the keys, which the table compares by its `Eq`.
    type Key: Eq;

    // The key of a value, as this adapter finds it.
    ghost key_of: { Self → Self.Value → Self.Key };

    // The hash of a key, as this adapter computes it.
    ghost hash_of: { Self → Self.Key → ℕ };

    /// The key of `value`, which is a part of it. O(1).
    fn get_key<'v>(&self, value: &'v Self::Value) -> &'v Self::Key
        ensures { result.now ≡ key_of self.now value.now };

    /// Computes the hash of `key`, whose lowest bits choose the chain where the key's objects belong.
    fn hash(&self, key: &Self::Key) -> u64
        ensures { result ≡ hash_of self.now key.now };

    // The law: equal keys have the same hash.
    ghost equal_alike: { (a : Self) (k l : Self.Key) → IsTrue (Self.Key.eq k l) → hash_of a k ≡ hash_of a l };
}
