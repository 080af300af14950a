//! Tests of a hash table over links of 4-byte words, with buckets of 4 bytes. The edits must have the results that they have over words of 8 bytes.

use crate::asserts::assert_true;
use crate::hash_table::steps::play;
use crate::hash_table::{EDITS, NUMBERS, OwnKey};
use ic_hash_table::{HashTable, empty_narrow_buckets};
use ic_link_ops::singly_linked_list::NarrowLinkOps;
use ic_test_support::objects::eight_objects;

// The edits of a hash table with buckets of 4-byte words must have the results that they have over 8-byte words.
// Promise: edits of a hash table over 4-byte words.
#[test]
fn a_table_of_narrow_buckets(rt: HostRuntime) {
    let alloc = rt.alloc();
    let (objects, mut links): (_, NarrowLinkOps) = eight_objects(alloc, NUMBERS).expect(
        &rt, "memory",
    );
    let buckets = empty_narrow_buckets(alloc, 4).expect(&rt, "memory for buckets");
    let mut table = HashTable::new(OwnKey, buckets);
    assert_true(&rt, play(&mut table, &mut links, &objects, EDITS));
}

// A hash table gets words of 4 bytes that are lent to it, for example the words of a file that is mapped into memory. Its edits must have the expected
// results.
#[test]
fn a_table_of_lent_narrow_words(rt: HostRuntime) {
    let alloc = rt.alloc();
    let (objects, mut links): (_, NarrowLinkOps) = eight_objects(alloc, NUMBERS).expect(
        &rt, "memory",
    );
    let mut words: [u32; 4] = [0, 7, 20, 0];
    let mut table = HashTable::new(OwnKey, &mut words[..]);
    assert_true(&rt, play(&mut table, &mut links, &objects, EDITS));
}
