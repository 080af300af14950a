//! The rows of the tests of the cache. Each row has a call and its expected result.

use crate::cache::calls::{Answer, Call, make};
use ic_hash_index::{HashIndex, NarrowHashIndex};
use ic_indexed::Index;
use ic_link_ops::{NarrowPlaceWord, PlaceWord};
use ic_test_support::indexes::By;
use ic_test_support::rationed::Rationed;
use lru_cache::{Entry, LruCache, NarrowTreeLruCache};
use std::alloc::{Allocator, Global};

type Row = (Call, Answer);

// The rows for three keys in a cache of two entries. The comment after a row lists the keys after the call, and the key that was touched last comes
// first.
const TWO: &[Row] = &[
    (Call::IsEmpty, Answer::Truth(true)),
    (Call::PeekOldest, Answer::Nothing),
    (Call::PopOldest, Answer::Nothing),
    (Call::Looks(1), Answer::Count(0)),
    (Call::Insert(1, 10), Answer::Nothing), // 1
    (Call::Insert(2, 20), Answer::Nothing), // 2 1
    (Call::Len, Answer::Count(2)),
    (Call::PeekOldest, Answer::Entry(1, 10)), // 2 1: no touch
    (Call::Get(1), Answer::Value(10)), // 1 2
    (Call::Insert(3, 30), Answer::Entry(2, 20)), // 3 1
    (Call::Get(2), Answer::Nothing),
    (Call::Peek(1), Answer::Value(10)), // 3 1: no touch
    (Call::Insert(2, 21), Answer::Entry(1, 10)), // 2 3
    (Call::Insert(3, 31), Answer::Entry(3, 30)), // 3 2
    (Call::Len, Answer::Count(2)),
    (Call::Remove(3), Answer::Value(31)), // 2
    (Call::Remove(3), Answer::Nothing),
    (Call::Looks(2), Answer::Count(1)),
    (Call::Insert(18446744073709551615, 40), Answer::Nothing), // the greatest key, and 2
    (Call::Get(2), Answer::Value(21)),
    (Call::PopOldest, Answer::Entry(18446744073709551615, 40)),
    (Call::IsEmpty, Answer::Truth(false)),
    (Call::PopOldest, Answer::Entry(2, 21)),
    (Call::IsEmpty, Answer::Truth(true)),
    (Call::Len, Answer::Count(0)),
];

// In a cache of one entry, each new key must remove the old entry.
const ONE: &[Row] = &[
    (Call::Insert(1, 10), Answer::Nothing),
    (Call::Insert(2, 20), Answer::Entry(1, 10)),
    (Call::Insert(2, 21), Answer::Entry(2, 20)),
    (Call::Get(1), Answer::Nothing),
    (Call::Get(2), Answer::Value(21)),
    (Call::Len, Answer::Count(1)),
];

// If a cache has no bound, an insert must not remove the entry of another key.
const ALL: &[Row] = &[
    (Call::Insert(1, 10), Answer::Nothing),
    (Call::Insert(2, 20), Answer::Nothing),
    (Call::Insert(3, 30), Answer::Nothing),
    (Call::Insert(1, 11), Answer::Entry(1, 10)), // 1 3 2
    (Call::PeekOldest, Answer::Entry(2, 20)),
    (Call::Len, Answer::Count(3)),
];

// A cache with room for no entry must keep nothing.
const NONE: &[Row] = &[
    (Call::Insert(1, 10), Answer::Entry(1, 10)),
    (Call::Get(1), Answer::Nothing),
    (Call::Remove(1), Answer::Nothing),
    (Call::PopOldest, Answer::Nothing),
    (Call::Len, Answer::Count(0)),
];

// Makes the call of each row, and compares its result with the row. A refused insert gives its value back and changes nothing, so the insert is made
// once more. Returns how many inserts were refused, or `None` if a call has another result than its row.
fn play<I: Index<Entry<u64>, A>, A: Allocator>(
    cache: &mut LruCache<u64, I, A>,
    rows: &[Row],
) -> Option<usize> {
    let mut refused: usize = 0;
    for (call, wanted) in rows {
        let mut found = make(cache, *call);
        if let (Call::Insert(_, value), Answer::Refused(back)) = (*call, found) {
            if back != value {
                return None;
            }
            refused = refused.saturating_add(1);
            found = make(cache, *call);
        }
        if found != *wanted {
            return None;
        }
    }
    Some(refused)
}

// Makes the calls of the rows on a new cache that takes its memory from `memory`, with the given index. A hash table has two chains. Returns how many
// inserts were refused, or `None` if a call has another result than its row.
fn play_new(by: By, memory: &Rationed, capacity: usize, rows: &[Row]) -> Option<usize> {
    match by {
        By::Tree => {
            let mut cache = LruCache::new(memory, capacity);
            play(&mut cache, rows)
        }
        By::HashTable => {
            let buckets = [PlaceWord::of(None), PlaceWord::of(None)];
            let mut cache = LruCache::with_index(memory, capacity, HashIndex::new(buckets));
            play(&mut cache, rows)
        }
        By::NarrowTree => {
            let mut cache: NarrowTreeLruCache<u64, &Rationed> = LruCache::by_tree(memory, capacity);
            play(&mut cache, rows)
        }
        By::NarrowHashTable => {
            let buckets = [NarrowPlaceWord::of(None), NarrowPlaceWord::of(None)];
            let index = NarrowHashIndex::with_words(buckets);
            let mut cache = LruCache::with_index(memory, capacity, index);
            play(&mut cache, rows)
        }
    }
}

// Makes the calls of the rows once for each request for memory, and refuses this request. Returns whether exactly one insert is refused each time. There
// must be at least `least` requests. The number is three if the cache keeps an entry, because each table and the objects grow.
fn is_refused_in_turn(by: By, alloc: Global, capacity: usize, rows: &[Row], least: u64) -> bool {
    let memory = Rationed::new(alloc, u64::MAX);
    let mut as_wanted = play_new(by, &memory, capacity, rows) == Some(0);
    let requests = memory.requests();
    as_wanted &= requests >= least;
    for number in 0..requests {
        memory.refuse(number);
        as_wanted &= play_new(by, &memory, capacity, rows) == Some(1);
    }
    as_wanted
}

#[test]
fn a_cache_with_no_bound(rt: HostRuntime) {
    let mut cache = LruCache::unbounded(rt.alloc());
    assert!(rt; cache.capacity() == usize::MAX);
    assert!(rt; play(&mut cache, ALL) == Some(0));
}

#[test]
fn rows_with_each_growth_refused_in_turn(rt: HostRuntime) {
    for by in [By::Tree, By::HashTable, By::NarrowTree, By::NarrowHashTable] {
        assert!(rt; is_refused_in_turn(by, rt.alloc(), 2, TWO, 3));
        assert!(rt; is_refused_in_turn(by, rt.alloc(), 1, ONE, 3));
        assert!(rt; is_refused_in_turn(by, rt.alloc(), 0, NONE, 0));
    }
}
