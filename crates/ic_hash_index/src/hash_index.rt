//! A hash table as the index of a container. The index finds objects by their keys.
//!
//! ```text
//! let buckets = empty_buckets(rt.alloc(), 1024)?;
//! let mut pages = Indexed::with_index(rt.alloc(), HashIndex::new(buckets));
//! ```

ghost use Rattle.std.specs.Prelude.{◌≡◌, length};
ghost use Rattle.std.proofs.Common.{ap};
ghost use Rattle.ic_hash_table.specs.HashTable.{number};
ghost use Rattle.ic_link_ops.specs.PlainTables.{linked_by, table};
ghost use Rattle.ic_link_ops.specs.Readings.{successor_of};
ghost use Rattle.ic_hash_index.specs.HashIndex.{AreEmptyBuckets, mixed, table_of, chains_of, HoldsAll, WithinChainBound, IsNewIndex};
ghost use Rattle.ic_hash_index.specs.HashLaws.{hash_grown, hash_alike};

use crate::ByHash;
use ic_hash_table::{BucketRow, BucketsFor, HashTable, KeyProbe};
use ic_indexed::{HasKey, Index, Indexed};
use ic_link_ops::linked_list::TwoWords;
use ic_link_ops::singly_linked_list::Singly;
use ic_link_ops::{NextWord, OneNarrowWord, OneWord, PlainTable, PrevPlace, TwoNarrowWords};
use ic_unsafe_ref::{Objects, Place, UnsafeRef};
use std::alloc::{Allocator, Global};

/// A hash table as the index of a container.
///
/// A contract names how many chains the index has (`chains_of`), and says whether the index is new (`IsNewIndex`). `B` is the type of its buckets,
/// which must be able to name every place that the links can name. Therefore links of 4-byte words can have buckets of 4 or 8 bytes, and links of
/// 8-byte words have buckets of 8 bytes. `W` is the type of the words of the hash table's links. `O` is the type of the words of the links of the
/// list that the container has beside the hash table.
#[derive(Drop)]
pub struct HashIndex<T, B, W = OneWord<Singly>, O = TwoWords> {
    table: HashTable<ByHash<T, W, O>, B>,
}

/// A hash index whose links have 4-byte words. The links take half the memory, and there can be at most 536,870,911 objects.
pub type NarrowHashIndex<T, B> = HashIndex<T, B, OneNarrowWord<Singly>, TwoNarrowWords>;

/// A container that keeps its objects in a hash table by their keys, and also in a list.
pub type HashIndexed<T, B, A = Global> = Indexed<T, HashIndex<T, B>, A>;

/// A container that keeps its objects in a hash table by their keys, and also in a list. Its links have 4-byte words.
pub type NarrowHashIndexed<T, B, A = Global> = Indexed<T, NarrowHashIndex<T, B>, A>;

impl<T: HasKey, B: BucketRow> HashIndex<T, B> {
    /// Makes an index over the given buckets.
    ///
    /// The call requires that the buckets are empty, and that there are at least one and at most 4,294,967,296 of them. If there are as many buckets
    /// as objects, a search compares one or two objects on average. The call costs O(log n) for n buckets, and takes no memory.
    pub fn new(buckets: B) -> HashIndex<T, B>
        requires { AreEmptyBuckets (B.fronts buckets) }
        ensures new { IsNewIndex B.fronts result }
        ensures parts { chains_of result ≡ length (B.fronts buckets) }
    {
        HashIndex::with_words(buckets)
    }
}

impl<T: HasKey, B: BucketRow, W: NextWord, O: PrevPlace> HashIndex<T, B, W, O> {
    /// Makes an index over the given buckets, for links with words of the types `W` and `O`, for example by `NarrowHashIndex::with_words(buckets)`.
    /// Everything else is as for `new`. O(log n) for n buckets.
    pub fn with_words(buckets: B) -> HashIndex<T, B, W, O>
        requires { AreEmptyBuckets (B.fronts buckets) }
        ensures new { IsNewIndex B.fronts result }
        ensures parts { chains_of result ≡ length (B.fronts buckets) }
    {
        HashIndex {
            table: HashTable::new(ByHash::with_words(), buckets),
        }
    }
}

impl<
    T: HasKey,
    B: BucketsFor<PlainTable<W, A>> + Drop,
    W: NextWord,
    O: PrevPlace,
    A: Allocator,
> Index<T, A> for HashIndex<T, B, W, O> {
    type Links = PlainTable<W, A>;

    type Order = O;

    ghost Has = { λ index links objects. HoldsAll (successor_of W.next_word W.is_linked) (linked_by W.is_linked) (number (λ a. T.key_of) (λ a. mixed)) B.fronts (table W.width W.unlinked links) (table_of index) objects };

    ghost IsNew = { λ index. IsNewIndex B.fronts index };

    ghost parts = { λ index. chains_of index };

    ghost IsFew = { WithinChainBound (λ value. T.key_of value) };

    fn new_links(&self, alloc: A) -> PlainTable<W, A> {
        PlainTable::new(alloc)
    }

    fn find_key(
        &self,
        links: &Self::Links,
        objects: &Objects<T, A>,
        key: u64,
    ) -> (Option<Place>, u64) {
        let mut probe = KeyProbe::new(ByHash::new(), &key);
        match self.table.find_by(links, objects, &mut probe) {
            Some(object) => (Some(object.place()), probe.looks()),
            None => (None, probe.looks()),
        }
    }

    fn insert_place(&mut self, links: &mut Self::Links, objects: &Objects<T, A>, place: Place) {
        let _ = self.table.insert(links, objects, UnsafeRef::new(place)); // proved: it is not linked
    }

    fn remove_place(&mut self, links: &mut Self::Links, objects: &Objects<T, A>, place: Place) {
        let _ = self.table.remove(links, objects, &UnsafeRef::new(place)); // proved: it is a member
    }

    ghost has_grown = { λ table old new objects grows all. hash_grown grows.entries all };

    ghost has_alike = { λ table links old new place out value there puts same all. hash_alike all there puts (ap mixed same) };
}
