//! Keys can be hashed by the trait `Hash` of the standard library, with the hashers that any `BuildHasher` makes.
//!
//! ```text
//! let by_name = StdHash::new(ByName, RandomState::new(&rt)?); // keys that an adversary may pick
//! let table = HashTable::new(by_name, buckets);
//! ```

ghost use Rattle.std.specs.Prelude.{◌≡◌};

use crate::HashAdapter;
use std::hash::{BuildHasher, Hash};

/// Says which part of an object is its key, for keys that implement the standard library's `Hash`.
///
/// The key depends only on the `KeyOf` and on the object. While the object is not changed, its key does not change.
pub trait KeyOf: Copy {
    /// The type of the objects whose keys `get_key` returns.
    type Value;

    /// The type of the keys, which the table compares and hashes.
    type Key: Hash;

    // The key of a value, as `get_key` returns it.
    ghost key_of: { Self → Self.Value → Self.Key };

    /// The key of `value`, which is a part of it. O(1).
    fn get_key<'v>(&self, value: &'v Self::Value) -> &'v Self::Key
        ensures { result.now ≡ key_of self.now value.now };
}

/// An adapter of a hash table that uses the traits of the standard library: a hasher of `S` computes the hash of each key.
///
/// `BuildHasherDefault<FoldHasher>` is quick, and its seed is fixed. Use `RandomState` if an adversary may pick the keys.
#[derive(Clone, Copy)]
pub struct StdHash<K, S> {
    keys: K,
    state: S,
}

impl<K: KeyOf, S: BuildHasher + Copy> StdHash<K, S> {
    ghost use Rattle.ic_hash_table.specs.StdHash.{keys_of, state_of};

    /// The adapter that finds keys by `keys`, and hashes them with the hashers that `state` makes. O(1).
    #[inline]
    pub fn new(keys: K, state: S) -> StdHash<K, S>
        ensures keys { keys_of result ≡ keys }
        ensures state { state_of result ≡ state }
    {
        StdHash { keys, state }
    }
}

impl<K: KeyOf, S: BuildHasher + Copy> HashAdapter for StdHash<K, S> {
    ghost use Rattle.std.proofs.Common.{ap};
    ghost use Rattle.ic_hash_table.specs.StdHash.{keys_of, hash_by, hash_of_writes};

    type Value = K::Value;

    type Key = K::Key;

    ghost key_of = { λ a value. K.key_of (keys_of a) value };

    ghost hash_of = { hash_by S.build_hasher S.Hasher.write S.Hasher.finish K.Key.hash_input };

    #[inline]
    fn get_key<'v>(&self, value: &'v K::Value) -> &'v K::Key {
        self.keys.get_key(value)
    }

    #[inline]
    fn hash(&self, key: &K::Key) -> u64 {
        self.state.hash_one(key)
    }

    ghost equal_alike = { λ a k l e. ap (hash_of_writes S.build_hasher S.Hasher.write S.Hasher.finish a) (K.Key.respects_eq k l e) };
}
