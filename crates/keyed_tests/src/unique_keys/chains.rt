//! A test of how many pages a search compares. The pages are in a hash table with two buckets, over links of 4-byte words.

use crate::unique_keys::calls::{Answer, Call, Page, make};
use ic_hash_index::{HashIndex, NarrowHashIndex, empty_buckets};
use ic_keyed::Keyed;
use ic_link_ops::PlaceWord;

type Pages = Keyed<Page, NarrowHashIndex<Page, Vec<PlaceWord>>>;

// The calls and their expected results. By the last bit of their hashes, the pages 2, 3, 6 and 7 belong in chain 0, and 1, 4 and 5 in chain 1. A new
// page is inserted at the front of its chain. The comment after a row lists both chains after the call.
const ROWS: &[(Call, Answer)] = &[
    (Call::Insert(2, 20), Answer::Nothing), // 2 and none
    (Call::Insert(1, 10), Answer::Nothing), // 2 and 1
    (Call::Looks(2), Answer::Count(1)),
    (Call::Insert(3, 30), Answer::Nothing), // 3 2 and 1
    (Call::Insert(6, 60), Answer::Nothing), // 6 3 2 and 1
    (Call::Insert(4, 40), Answer::Nothing), // 6 3 2 and 4 1
    (Call::Looks(6), Answer::Count(1)),
    (Call::Looks(3), Answer::Count(2)),
    (Call::Looks(2), Answer::Count(3)),
    (Call::Looks(4), Answer::Count(1)),
    (Call::Looks(1), Answer::Count(2)),
    (Call::Looks(7), Answer::Count(3)), // all of chain 0, and none is found
    (Call::Looks(5), Answer::Count(2)), // all of chain 1
    (Call::Get(2), Answer::Page(2, 20)), // a use moves no page in its chain
    (Call::Looks(2), Answer::Count(3)),
    (Call::Remove(3), Answer::Page(3, 30)), // 6 2 and 4 1
    (Call::Looks(2), Answer::Count(2)),
    (Call::Put(6, 61), Answer::Page(6, 60)), // in the place of its key
    (Call::Looks(6), Answer::Count(1)),
    (Call::PutOver(5, 50), Answer::Page(1, 10)), // 6 2 and 5 4: the oldest one leaves
    (Call::Looks(1), Answer::Count(2)),
    (Call::Looks(4), Answer::Count(2)),
    (Call::PopLast, Answer::Page(4, 40)), // 6 2 and 5
    (Call::Looks(4), Answer::Count(1)),
    (Call::Clear, Answer::Nothing),
    (Call::Looks(2), Answer::Count(0)),
];

// The test makes the calls of the rows on pages in a hash table with two buckets, and each call must have the result of its row.
// Promise: looks in chains.
#[test]
fn looks_in_chains(rt: HostRuntime) {
    let buckets = empty_buckets(rt.alloc(), 2).expect(&rt, "memory for buckets");
    let mut pages: Pages = Keyed::with_index(rt.alloc(), HashIndex::with_words(buckets));
    assert!(rt; pages.reserve(5).is_ok());
    for (call, wanted) in ROWS {
        assert!(rt; make(&mut pages, *call) == *wanted);
    }
}
