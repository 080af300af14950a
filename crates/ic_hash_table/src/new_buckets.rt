//! These calls make the empty buckets of a new table.
//!
//! ```text
//! let buckets = empty_buckets(rt.alloc(), 1024)?;
//! let mut table = HashTable::new(ById, buckets);
//! ```

ghost use Rattle.std.specs.Prelude.{◌≡◌, None, IfOk, length};
ghost use Rattle.std.specs.List.{AllByRecursion};

use crate::BucketWord;
use ic_link_ops::{NarrowPlaceWord, PlaceWord};
use std::alloc::{AllocError, Allocator};

// Makes a vector of `count` words that name no place.
fn empty_words<W: BucketWord, A: Allocator>(alloc: A, count: usize) -> Result<Vec<W, A>, AllocError>
    ensures count { IfOk result (λ words. length words.items ≡ count) }
    ensures empty { IfOk result (λ words. AllByRecursion (λ front. front ≡ None) (W.fronts words.items)) }
{
    let mut words = Vec::with_capacity(alloc, count)?;
    for _word in 0..count {
        words.push(W::of(None))?;
    }
    Ok(words)
}

/// Makes `count` empty buckets of 8 bytes each, which have room for every place. O(n) for n buckets.
///
/// It makes one request for memory. If this request is refused, no bucket is made.
pub fn empty_buckets<A: Allocator>(alloc: A, count: usize) -> Result<Vec<PlaceWord, A>, AllocError>
    ensures count { IfOk result (λ buckets. length buckets.items ≡ count) }
    ensures empty { IfOk result (λ buckets. AllByRecursion (λ front. front ≡ None) buckets.items) }
{
    empty_words(alloc, count)
}

/// Makes `count` empty buckets of 4 bytes each, for links whose words have 4 bytes. O(n) for n buckets.
///
/// It makes one request for memory. If this request is refused, no bucket is made.
pub fn empty_narrow_buckets<A: Allocator>(
    alloc: A,
    count: usize,
) -> Result<Vec<NarrowPlaceWord, A>, AllocError>
    ensures count { IfOk result (λ buckets. length buckets.items ≡ count) }
    ensures empty { IfOk result (λ buckets. AllByRecursion (λ front. front ≡ None) buckets.items) }
{
    empty_words(alloc, count)
}
