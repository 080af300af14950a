//! The adapter that a hash table uses to hash keys.
//!
//! ```text
//! let table = HashTable::new(ByHash::new(), buckets); // finds pages by their numbers
//! ```

ghost use Rattle.std.specs.Prelude.{◌≡◌};
ghost use Rattle.std.proofs.Common.{ap, eqb-true};
ghost use Rattle.ic_hash_index.specs.HashIndex.{mixed};

use ic_hash_table::HashAdapter;
use ic_indexed::HasKey;
use ic_link_ops::linked_list::TwoWords;
use ic_link_ops::singly_linked_list::Singly;
use ic_link_ops::{OneNarrowWord, OneWord, TwoNarrowWords};
use std::alloc::AllocError;
use std::marker::PhantomData;

/// The adapter that a hash table uses to hash keys. It multiplies a key by a constant, which is 2^64 divided by the golden ratio, rounded down. The hash
/// consists of the bits 32 to 63 of the product, so consecutive keys are spread over the chains.
///
/// A user who chooses the keys can choose them so that all of them are in one chain. `W` is the type of the words of the hash table's links. `O` is
/// the type of the words of the links of the list that a container has beside the hash table.
pub struct ByHash<T, W = OneWord<Singly>, O = TwoWords> {
    of: PhantomData<T>,
    words: PhantomData<W>,
    order: PhantomData<O>,
}

/// The adapter for links with 4-byte words. The links take half the memory, and there can be at most 536,870,911 objects.
pub type NarrowByHash<T> = ByHash<T, OneNarrowWord<Singly>, TwoNarrowWords>;

impl<T> ByHash<T> {
    /// Makes the adapter. An adapter has no data. O(1).
    #[inline]
    pub fn new() -> ByHash<T> {
        ByHash::with_words()
    }
}

impl<T, W, O> ByHash<T, W, O> {
    /// Makes the adapter, for links with words of the types `W` and `O`. O(1).
    #[inline]
    pub fn with_words() -> ByHash<T, W, O> {
        ByHash {
            of: PhantomData,
            words: PhantomData,
            order: PhantomData,
        }
    }
}

impl<T, W, O> Clone for ByHash<T, W, O> {
    ghost use Rattle.std.specs.Prelude.{⊤};

    ghost is_clone = { λ a copy. copy ≡ a };

    ghost is_infallible = { λ _. ⊤ };

    fn clone(&self) -> Result<Self, AllocError> {
        Ok(*self)
    }
}

impl<T, W, O> Copy for ByHash<T, W, O> {}

impl<T: HasKey, W, O> HashAdapter for ByHash<T, W, O> {
    type Value = T;

    type Key = u64;

    ghost key_of = { λ a value. T.key_of value };

    ghost hash_of = { λ a key. mixed key };

    #[inline]
    fn get_key<'v>(&self, value: &'v T) -> &'v u64 {
        value.key()
    }

    #[inline]
    fn hash(&self, key: &u64) -> u64 {
        key.wrapping_mul(11_400_714_819_323_198_485) / 4_294_967_296
    }

    ghost equal_alike = { λ a k l same. ap mixed (eqb-true k l same) };
}
