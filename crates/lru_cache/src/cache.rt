//! The type `LruCache` and its calls.
//!
//! ```text
//! let mut cache = LruCache::new(rt.alloc(), 2); // by a tree; `with_index` by another index
//! cache.insert(1, 'a')?; // None: no entry leaves
//! cache.insert(2, 'b')?; // None
//! cache.get(1); // Some(&'a'), and the entry of 2 is the oldest
//! cache.insert(3, 'c')?; // Some((2, 'b'))
//! ```

ghost use Rattle.std.specs.Prelude.{◌≡◌, ◌<◌, ◌≤◌, ◌↔◌, ◌++◌, ◌∷◌, [], None, length, IsTrue, IsSome, IsOk, IfNone, OnOk, IfOk, IfErr, MatchOption};
ghost use Rattle.std.specs.Option.{option_copied, option_map};
ghost use Rattle.lru_cache.specs.Cache.{IsEmptyCache};

use crate::InsertError;
use crate::entry::Entry;
use ic_keyed::{ByKey, Index, Keyed, NarrowByKey};
use ic_link_ops::{NodeWords, PrevPlace};
use ic_rbtree::RBTree;
use std::alloc::{Allocator, Global};
use std::marker::Model;

/// A cache from `u64` keys to values, with a capacity. If it is full, the insertion of a new key removes the entry that was touched longest ago.
///
/// A contract sees the entries from the one touched last to the oldest, the capacity, and the number of parts into which the index divides the
/// entries. A tree has one part, and a hash table has one part for each chain. No key occurs twice, and there are never more entries than the
/// capacity (`IsSound`). A cache of capacity 0 keeps nothing: it returns each inserted entry at once.
#[derive(Drop)]
pub struct LruCache<V, I: Index<Entry<V>, A>, A: Allocator = Global> {
    entries: Keyed<Entry<V>, I, A>,
    capacity: usize,
}

/// A cache whose entries are in a tree that is sorted by their keys. Each search takes O(log n).
pub type TreeLruCache<V, A = Global> = LruCache<V, RBTree<ByKey<Entry<V>>>, A>;

/// A `TreeLruCache` whose links are 4-byte words. These links take half the memory, and there can be at most 536,870,911 entries.
pub type NarrowTreeLruCache<V, A = Global> = LruCache<V, RBTree<NarrowByKey<Entry<V>>>, A>;

impl<V, I: Index<Entry<V>, A>, A: Allocator> Model for LruCache<V, I, A> {
    ghost use Rattle.std.specs.Prelude.{◌≤◌, length};
    ghost use Rattle.lru_cache.specs.Cache.{Cache, cache_of};

    ghost Value = { Cache V };

    ghost view = { λ c. cache_of c.capacity c.entries };

    ghost invariant = { λ c. length c.entries.values ≤ c.capacity };
}

impl<V, A: Allocator> LruCache<V, RBTree<ByKey<Entry<V>>>, A> {
    /// Makes a cache without entries, with a tree as the index. It takes no memory.
    pub fn new(alloc: A, capacity: usize) -> TreeLruCache<V, A>
    where
        A: Copy,
        ensures { IsEmptyCache capacity 1 result }
    {
        LruCache::by_tree(alloc, capacity)
    }

    /// Makes a cache without entries whose capacity is 18,446,744,073,709,551,615. There are fewer places than this number, so an entry leaves only if a
    /// call removes or replaces it. It takes no memory.
    pub fn unbounded(alloc: A) -> TreeLruCache<V, A>
    where
        A: Copy,
        ensures { IsEmptyCache 18446744073709551615 1 result }
    {
        LruCache::by_tree(alloc, usize::MAX)
    }
}

impl<V, W: NodeWords, O: PrevPlace, A: Allocator> LruCache<V, RBTree<ByKey<Entry<V>, W, O>>, A> {
    /// Makes a cache without entries, with a tree over links of either width as the index: `NarrowTreeLruCache::by_tree(rt.alloc(), 1000)`. It takes
    /// no memory.
    pub fn by_tree(alloc: A, capacity: usize) -> LruCache<V, RBTree<ByKey<Entry<V>, W, O>>, A>
    where
        A: Copy,
        ensures { IsEmptyCache capacity 1 result }
    {
        LruCache {
            entries: Keyed::by_tree(alloc),
            capacity,
        }
    }
}

impl<V, I: Index<Entry<V>, A>, A: Allocator> LruCache<V, I, A> {
    ghost use Rattle.std.specs.Borrow.{sem};
    ghost use Rattle.ic_keyed.specs.Keyed.{EndsWith};
    ghost use Rattle.lru_cache.specs.Cache.{entry_of, pair_of, value_with, inserted, leaves, without, touched, with_entries, IsSound};
    ghost use Rattle.lru_cache.specs.Lends.{EndsAs};

    /// Makes a cache without entries, with this index: `LruCache::with_index(rt.alloc(), 1000, HashIndex::new(buckets))`. It takes no memory.
    ///
    /// It requires that the index is new.
    pub fn with_index(alloc: A, capacity: usize, index: I) -> LruCache<V, I, A>
    where
        A: Copy,
        requires new { I.IsNew index }
        ensures { IsEmptyCache capacity (I.parts index) result }
    {
        LruCache {
            entries: Keyed::with_index(alloc, index),
            capacity,
        }
    }

    /// Returns how many entries there are. O(1).
    #[inline]
    pub fn len(&self) -> usize
        ensures { result ≡ length self.now.entries }
    {
        self.entries.len()
    }

    /// Returns whether there is no entry. O(1).
    #[inline]
    pub fn is_empty(&self) -> bool
        ensures { IsTrue result ↔ (self.now.entries ≡ []) }
    {
        self.entries.is_empty()
    }

    /// Returns the capacity, which is the largest number of entries that the cache may have. O(1).
    #[inline]
    pub fn capacity(&self) -> usize
        ensures { result ≡ self.now.capacity }
    {
        self.capacity
    }

    /// Returns the value of the key, if there is one, and how many entries the search compared. It does not touch the entry.
    ///
    /// With a tree it costs O(log n): it makes at most 2 log2(n + 1) comparisons among n entries. With a hash table it costs O(1) on average: it
    /// compares at most the entries in the chain of the key.
    pub fn find(&self, key: u64) -> (Option<&V>, u64)
        ensures value { option_copied result.0 ≡ value_with key self.now.entries }
        ensures looks { I.IsFew self.now.parts key self.now.entries result.1 }
        ensures sound { IsSound self.now }
    {
        self.entries.keys_differ();
        let (entry, looks) = self.entries.find(key);
        match entry {
            Some(entry) => (Some(&entry.value), looks),
            None => (None, looks),
        }
    }

    /// Returns the value of the key, if there is one. It does not touch the entry, and costs what `find` does.
    pub fn peek(&self, key: u64) -> Option<&V>
        ensures { option_copied result ≡ value_with key self.now.entries }
    {
        Some(&self.entries.peek(key)?.value)
    }

    /// Returns the value of the key, if there is one, and touches the entry. The touched entry moves to the front, and the other entries keep their order.
    /// The call costs what `find` does, and takes no memory.
    pub fn get(&mut self, key: u64) -> Option<&V>
        ensures* touches { sem 𝓛 (EndsAs V.row I.row A.row I.Links.row I.Order.row I.Index I.Links.Tables I.Order.unlinked I.Order.is_linked I.Order.width I.Order.next_word I.Order.KeepsOthers I.Order.prev A.Allocator self.entry (touched key self.old.entries)) }
        ensures value { option_copied result ≡ value_with key self.old.entries }
    {
        if !self.entries.touch(key) {
            return None;
        }
        let newest = self.entries.first()?; // proved: it is that of the key
        Some(&newest.value)
    }

    /// Removes the entry with the key, if there is one, and returns its value. It costs about two searches, and takes no memory.
    pub fn remove(&mut self, key: u64) -> Option<V>
        ensures value { result ≡ value_with key self.old.entries }
        ensures removed { self.new ≡ with_entries self.old (without key self.old.entries) }
    {
        Some(self.entries.remove(key)?.value)
    }

    /// Returns the entry that was touched longest ago, if there is one, without touching it. O(1).
    pub fn peek_oldest(&self) -> Option<(u64, &V)>
        ensures { MatchOption result (self.now.entries ≡ []) (λ oldest. EndsWith (entry_of oldest.0 oldest.1.now) self.now.entries) }
    {
        let oldest = self.entries.last()?;
        Some((oldest.key, &oldest.value))
    }

    /// Removes the entry that was touched longest ago and returns it, or returns `None` if there is no entry. It costs about one search, and takes no
    /// memory.
    pub fn pop_oldest(&mut self) -> Option<(u64, V)>
        ensures oldest { MatchOption result (self.old.entries ≡ [])
            (λ oldest. self.old.entries ≡ self.new.entries ++ entry_of oldest.0 oldest.1 ∷ []) }
        ensures none { IfNone result (self.new ≡ self.old) }
        ensures capacity { self.new.capacity ≡ self.old.capacity }
        ensures parts { self.new.parts ≡ self.old.parts }
    {
        let oldest = self.entries.pop_last()?;
        Some((oldest.key, oldest.value))
    }

    /// Inserts an entry at the front. It returns the entry that leaves the cache, if one does: the entry with the same key, or else the oldest entry
    /// if the cache is full. In a cache of capacity 0 the inserted entry itself leaves.
    ///
    /// If an entry leaves, its object is used again, so that the call takes no memory and cannot fail. Otherwise it takes memory for the entry and
    /// its two links, in at most three requests. If one of them is refused, the caller gets the value back, and nothing has changed. It costs about
    /// three searches.
    pub fn insert(&mut self, key: u64, value: V) -> Result<Option<(u64, V)>, InsertError<V>>
        ensures left { IfOk result (λ left. left ≡ option_map pair_of (leaves (entry_of key value) self.old)) }
        ensures inserted { OnOk result (self.new ≡ with_entries self.old (inserted (entry_of key value) self.old)) }
        ensures refused { IfErr result (λ refused. (refused.0 ≡ value) × (self.new ≡ self.old)) }
        ensures accepted { IsSome (leaves (entry_of key value) self.old) → IsOk result }
        ensures sound { IsSound self.new }
    {
        let left = self.put(key, value);
        self.entries.keys_differ();
        left
    }

    // Does what `insert` does, but its contract does not state that the cache is sound afterwards.
    fn put(&mut self, key: u64, value: V) -> Result<Option<(u64, V)>, InsertError<V>>
        ensures left { IfOk result (λ left. left ≡ option_map pair_of (leaves (entry_of key value) self.old)) }
        ensures inserted { OnOk result (self.new ≡ with_entries self.old (inserted (entry_of key value) self.old)) }
        ensures refused { IfErr result (λ refused. (refused.0 ≡ value) × (self.new ≡ self.old)) }
        ensures accepted { IsSome (leaves (entry_of key value) self.old) → IsOk result }
    {
        if self.capacity == 0 {
            return Ok(Some((key, value)));
        }
        let entry = match self.entries.replace(Entry { key, value }) {
            Ok(gone) => return Ok(Some((gone.key, gone.value))),
            Err(entry) => entry,
        };
        if self.entries.len() == self.capacity {
            match self.entries.replace_last(entry) {
                Ok(oldest) => return Ok(Some((oldest.key, oldest.value))),
                Err(entry) => return Err(InsertError(entry.value)), // proved: there is an oldest one
            }
        }
        match self.entries.insert_new(entry) {
            Ok(()) => {}
            Err(refused) => return Err(InsertError(refused.value)),
        }
        Ok(None)
    }
}
