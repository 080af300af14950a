//! The buckets of a hash table store the first member of each chain, by the chain's number.
//!
//! ```text
//! let buckets = empty_buckets(rt.alloc(), 1024)?;
//! let table = HashTable::new(ById, buckets);
//! ```

ghost use Rattle.std.specs.Prelude.{◌≡◌, ◌<◌, None, Option, List, length, slice_index_or, set};
ghost use Rattle.ic_link_ops.specs.Prelude.{Place, IsNameable};

use crate::bucket_word::{BucketWord, BucketWordFor};
use ic_link_ops::LinkOps;
use ic_unsafe_ref::Place;
use std::alloc::Allocator;

/// A row of buckets, each of which stores the first member of a chain. The number of buckets is fixed. A row is a `Vec` that the caller has made, an array, or
/// lent memory. No call on a row can take memory.
pub trait BucketRow {
    // The first member of each chain, or none for an empty chain.
    ghost fronts: { Self → List (Option Place) };

    // `CanKeep p`: each bucket has room for the name of the place p.
    ghost CanKeep: { Place → Type 0 };

    // `Rewrites old new`: the row `new` has as many buckets as the row `old`, and a lent row stays in the same memory. Each bucket has its old word, or the
    // word that `set_front` writes for its first member.
    ghost Rewrites: { Self → Self → Type 0 };

    /// The number of buckets. O(1).
    fn count(&self) -> usize
        ensures { result ≡ length (fronts self.now) };

    /// The first member of chain `at`, or `None` if the chain is empty. It requires that `at` is less than the number of buckets. O(1).
    fn front(&self, at: usize) -> Option<Place>
        requires in_bounds { at < length (fronts self.now) }
        ensures { result ≡ slice_index_or (fronts self.now) at None };

    /// Sets the first member of chain `at`, or sets `None` if the chain is to be empty. It requires that `at` is less than the number of buckets, and that
    /// the buckets have room for the name of the place. O(1).
    fn set_front(&mut self, at: usize, front: Option<Place>)
        requires in_bounds { at < length (fronts self.old) }
        requires kept { IsNameable CanKeep front }
        ensures fronts { fronts self.new ≡ set (fronts self.old) at front }
        ensures rewrites { Rewrites self.old self.new };

    // The laws. `Rewrites` holds between a row and itself. If it holds from a to b and from b to c, it holds from a to c. It keeps the number of buckets.
    ghost rewrites_none: { (b : Self) → Rewrites b b };

    ghost rewrites_on: { (a b c : Self) → Rewrites a b → Rewrites b c → Rewrites a c };

    ghost rewrites_count: { (a b : Self) → Rewrites a b → length (fronts b) ≡ length (fronts a) };
}

/// Buckets with room for each place that links of the type `L` can name. Buckets of 8 bytes are for any links, and buckets of 4 bytes are for links whose words
/// have 4 bytes.
pub trait BucketsFor<L: LinkOps>: BucketRow {
    ghost keeps_named: { (place : Place) → L.CanName place → Self.CanKeep place };
}

impl<W: BucketWord, A: Allocator> BucketRow for Vec<W, A> {
    ghost use Rattle.ic_hash_table.specs.Buckets.{AreRewritten};
    ghost use Rattle.ic_hash_table.specs.BucketLaws.{rewritten_none, rewritten_on, rewritten_count, fronts_alike};

    ghost fronts = { λ v. W.fronts v.items };

    ghost CanKeep = { W.CanKeep };

    ghost Rewrites = { λ old new. AreRewritten W.front_of W.word_for old.items new.items };

    #[inline]
    fn count(&self) -> usize {
        self.len()
    }

    #[inline]
    fn front(&self, at: usize) -> Option<Place> {
        self[at].get()
    }

    #[inline]
    fn set_front(&mut self, at: usize, front: Option<Place>) {
        self[at] = W::of(front);
    }

    ghost rewrites_none = { λ b. rewritten_none W.front_of W.word_for b.items };

    ghost rewrites_on = { λ a b c. rewritten_on W.front_of W.word_for a.items b.items c.items };

    ghost rewrites_count = { λ a b r. fronts_alike W.fronts_are _ _ (rewritten_count W.front_of W.word_for a.items b.items r) };
}

impl<L: LinkOps, W: BucketWordFor<L>, A: Allocator> BucketsFor<L> for Vec<W, A> {
    ghost keeps_named = { W.keeps_named };
}

impl<W: BucketWord, const N: usize> BucketRow for [W; N] {
    ghost use Rattle.ic_hash_table.specs.Buckets.{AreRewritten};
    ghost use Rattle.ic_hash_table.specs.BucketLaws.{rewritten_none, rewritten_on, rewritten_count, fronts_alike};

    ghost fronts = { λ a. W.fronts a };

    ghost CanKeep = { W.CanKeep };

    ghost Rewrites = { AreRewritten W.front_of W.word_for };

    #[inline]
    fn count(&self) -> usize {
        N
    }

    #[inline]
    fn front(&self, at: usize) -> Option<Place> {
        self[at].get()
    }

    #[inline]
    fn set_front(&mut self, at: usize, front: Option<Place>) {
        self[at] = W::of(front);
    }

    ghost rewrites_none = { λ b. rewritten_none W.front_of W.word_for b };

    ghost rewrites_on = { λ a b c. rewritten_on W.front_of W.word_for a b c };

    ghost rewrites_count = { λ a b r. fronts_alike W.fronts_are _ _ (rewritten_count W.front_of W.word_for a b r) };
}

impl<L: LinkOps, W: BucketWordFor<L>, const N: usize> BucketsFor<L> for [W; N] {
    ghost keeps_named = { W.keeps_named };
}

/// Buckets in lent memory, for example in a mapped file. When the table is dropped, its caller gets the buckets back.
impl<W: BucketWord> BucketRow for &mut [W] {
    ghost use Rattle.ic_hash_table.specs.Buckets.{AreRewrittenIn};
    ghost use Rattle.ic_hash_table.specs.BucketLaws.{lent_none, lent_on, rewritten_count, fronts_alike};

    ghost fronts = { λ s. W.fronts s.now };

    ghost CanKeep = { W.CanKeep };

    ghost Rewrites = { AreRewrittenIn W.front_of W.word_for };

    #[inline]
    fn count(&self) -> usize {
        let words = &**self;
        words.len()
    }

    #[inline]
    fn front(&self, at: usize) -> Option<Place> {
        let words = &**self;
        words[at].get()
    }

    #[inline]
    fn set_front(&mut self, at: usize, front: Option<Place>) {
        self[at] = W::of(front);
    }

    ghost rewrites_none = { λ b. lent_none W.front_of W.word_for b };

    ghost rewrites_on = { λ a b c r s. lent_on W.front_of W.word_for a b c r s };

    ghost rewrites_count = { λ a b r. fronts_alike W.fronts_are _ _ (rewritten_count W.front_of W.word_for a.now b.now r.1) };
}

impl<L: LinkOps, W: BucketWordFor<L>> BucketsFor<L> for &mut [W] {
    ghost keeps_named = { W.keeps_named };
}
