//! The calls of hash tables. Each bucket is a singly linked list of the members whose hash leads to it.
//!
//! ```text
//! struct ic_link1 links[64] = {0};
//! struct ic_stack buckets[16] = {0};
//! uint64_t keys[64] = {0};
//! uint32_t found;
//! keys[7] = 30;
//! ic_hash_insert(links, 64, buckets, 16, hash(30), 7);                  // IC_OK
//! ic_hash_find(links, 64, keys, 64, buckets, 16, hash(30), 30, &found); // IC_OK, and found is 7
//! ```

ghost use Rattle.ic_raw.specs.Words.{place_of};
ghost use Rattle.ic_raw.specs.HashCalls.{FindCall, InsertCall, NextEqualCall, RemoveCall};

use ic_raw::{RawFront, RawOne, hash_calls};

/// Inserts a place at the front of the chain of `hash`. O(1). The chain is the list in the bucket whose index is `hash` modulo the number of buckets.
///
/// The place must belong to the table and must not be linked, and there must be at least one bucket. If the first member of the chain is not linked,
/// the call returns [`BROKEN`](crate::BROKEN).
#[unsafe(no_mangle)]
pub extern "C" fn ic_hash_insert(
    table: &mut [RawOne],
    buckets: &mut [RawFront],
    hash: u64,
    place: u32,
) -> u32
    ensures { InsertCall table.old table.new buckets.old buckets.new result hash (place_of place) }
{
    hash_calls::insert(table, buckets, hash, place)
}

/// Removes `place` from any position in the chain of `hash`, or returns [`NULL`](crate::NULL) if `place` is [`NONE`](crate::NONE). The call reads one entry of
/// the table for each member from the first one up to the removed one.
///
/// If the place is not a member of the chain, the call returns [`BROKEN`](crate::BROKEN).
#[unsafe(no_mangle)]
pub extern "C" fn ic_hash_remove(
    table: &mut [RawOne],
    buckets: &mut [RawFront],
    hash: u64,
    place: u32,
) -> u32
    ensures { RemoveCall table.old table.new buckets.old buckets.new result hash (place_of place) }
{
    hash_calls::remove(table, buckets, hash, place)
}

/// Stores in `found` the number of the first member with the key `key` in the chain of `hash`. If no member has the key, the call returns
/// [`NULL`](crate::NULL). The call writes nothing except `found`. The call reads one entry of the table for each member up to the found one.
///
/// There must be a key for each place of the table, and at least one bucket. If the links of the chain lead to no end or out of the table, the call
/// returns [`BROKEN`](crate::BROKEN).
#[unsafe(no_mangle)]
pub extern "C" fn ic_hash_find(
    table: &mut [RawOne],
    keys: &[u64],
    buckets: &[RawFront],
    hash: u64,
    key: u64,
    found: &mut u32,
) -> u32
    ensures { FindCall keys.now table.old table.new result found.old found.new buckets.now hash key }
{
    hash_calls::find(table, keys, buckets, hash, key, found)
}

/// Stores in `found` the number of the next member after `at` that has the same key as `at`. If no such member exists, or if `at` is [`NONE`](crate::NONE), the
/// call returns [`NULL`](crate::NULL). The call writes nothing except `found`. The call reads one entry of the table for each member up to the found one.
///
/// There must be a key for each place of the table. If the links lead to no end or out of the table, the call returns [`BROKEN`](crate::BROKEN).
#[unsafe(no_mangle)]
pub extern "C" fn ic_hash_next_equal(
    table: &mut [RawOne],
    keys: &[u64],
    at: u32,
    found: &mut u32,
) -> u32
    ensures { NextEqualCall keys.now table.old table.new result found.old found.new (place_of at) }
{
    hash_calls::next_equal(table, keys, at, found)
}
