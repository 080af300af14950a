//! This module has the calls of hash tables. Each bucket is a singly linked list of the members whose hash leads to it.
//!
//! ```text
//! insert(table, buckets, hash_of(30), 7)                  // OK
//! find(table, keys, buckets, hash_of(30), 30, &mut found) // OK, and found is 7 where keys[7] is 30
//! ```

ghost use Rattle.std.specs.Prelude.{◌≡◌, ◌≢◌, ◌<◌, ◌↔◌, ◌∷◌, [], ℕ, List, Some, length, None};
ghost use Rattle.ic_link_ops.specs.Prelude.{Place, IsMember};
ghost use Rattle.ic_raw.specs.declared.status.TheConstants.{OK, NULL};
ghost use Rattle.ic_raw.specs.Answers.{IsStatus, refusal};
ghost use Rattle.ic_raw.specs.Hash.{slot_of};
ghost use Rattle.ic_raw.specs.Singly.{RepresentsList, IsNoneOrLinkedIn, LosesFront, front_of, list_of, table_of, word_of_front, fault_at, Removed, LeavesChain};
ghost use Rattle.ic_raw.specs.Words.{place_of};
ghost use Rattle.ic_raw.specs.HashCalls.{FindCall, InsertCall, NextEqualCall, RemoveCall};

use crate::chain::{find_from, place_before};
use crate::number::{place_in, place_of};
use crate::stack;
use crate::stack_calls::{push_front, stack_of, write_back};
use crate::status::{NULL, OK, OUT_OF_RANGE};
use crate::table::RawTable;
use crate::words::{RawFront, RawOne};
use ic_link_ops::singly_linked_list::SinglyLinkedListOps;
use ic_unsafe_ref::Place;

// Returns the number of the bucket to which a hash leads, or `None` if there are no buckets.
#[inline]
fn slot(buckets: &[RawFront], hash: u64) -> Option<usize>
    ensures slot { (i : ℕ) → result ≡ Some i → (i ≡ slot_of buckets.now hash) × (i < length buckets.now) }
    ensures none { (result ≡ None) ↔ (length buckets.now ≡ 0) }
{
    if buckets.is_empty() {
        return None;
    }
    Some((hash % buckets.len() as u64) as usize)
}

/// Inserts a place at the front of its chain, which is the list in the bucket with the number `hash % buckets.len()`. O(1).
///
/// The place must belong to the table and must not be linked, and there must be at least one bucket. If the first member of the chain is not linked,
/// the call returns [`BROKEN`](crate::BROKEN).
#[inline]
pub fn insert(table: &mut [RawOne], buckets: &mut [RawFront], hash: u64, place: u32) -> u32
    ensures { InsertCall table.old table.new buckets.old buckets.new result hash (place_of place) }
{
    let Some(at) = slot(&*buckets, hash) else {
        return OUT_OF_RANGE;
    };
    push_front(table, &mut buckets[at], place)
}

// Removes `member` from the list, at whichever position of the list it is, or returns the status of the refusal.
#[inline]
fn remove_from(table: &mut [RawOne], list: &mut RawFront, member: Place) -> u32
    ensures removed { (front back : List Place) → Removed table.old table.new list.old list.new result member front back }
    ensures member { (s : List Place) → RepresentsList table.old list.old s → result ≡ OK → IsMember member s }
    ensures stands { result ≡ OK → IsNoneOrLinkedIn table.old (Some member) }
    ensures own { result ≡ OK → LosesFront (table_of table.old) (Some member) (list_of list.old) (list_of list.new) }
    ensures touched { result ≡ OK → LeavesChain table.old table.new list.old member }
    ensures words { result ≡ OK → list.new ≡ word_of_front (front_of list.new) }
    ensures refused { result ≢ OK → (table.new ≡ table.old) × (list.new ≡ list.old) }
    ensures why { result ≢ OK → result ≡ refusal (fault_at table.old (Some member) ∷ []) }
    ensures other { result ≢ NULL }
    ensures status { IsStatus result }
{
    let mut links = RawTable::new(table);
    let mut edited = stack_of(&*list);
    let Some(before) = place_before(&links, edited.first(), member) else {
        return links.refusal_of(member);
    };
    stack::remove(&mut links, &mut edited, before, member);
    write_back(list, edited);
    OK
}

/// Removes a place from any position of its chain, or returns [`NULL`](crate::NULL) if the argument is [`NONE`](crate::NONE). The call reads one
/// entry of the table for each member of the chain up to the removed one.
///
/// If the place is linked but is not a member of the chain, the call returns [`BROKEN`](crate::BROKEN).
#[inline]
pub fn remove(table: &mut [RawOne], buckets: &mut [RawFront], hash: u64, place: u32) -> u32
    ensures { RemoveCall table.old table.new buckets.old buckets.new result hash (place_of place) }
{
    let Some(member) = place_of(place) else {
        return NULL;
    };
    let Some(at) = slot(&*buckets, hash) else {
        return OUT_OF_RANGE;
    };
    remove_from(table, &mut buckets[at], member)
}

/// Stores in `found` the number of the first member of the chain with this key, or returns [`NULL`](crate::NULL) if there is none. The call writes
/// nothing else. It reads one entry of the table for each member of the chain up to the found one.
///
/// There must be a key for each place of the table, and at least one bucket. If the links of the chain lead to no end or out of the table, the call
/// returns [`BROKEN`](crate::BROKEN).
#[inline]
pub fn find(
    table: &mut [RawOne],
    keys: &[u64],
    buckets: &[RawFront],
    hash: u64,
    key: u64,
    found: &mut u32,
) -> u32
    ensures { FindCall keys.now table.old table.new result found.old found.new buckets.now hash key }
{
    let links = RawTable::new(table);
    if keys.len() < links.places() {
        return OUT_OF_RANGE;
    }
    let Some(at) = slot(buckets, hash) else {
        return OUT_OF_RANGE;
    };
    find_from(&links, keys, key, place_in(buckets[at].head), found)
}

/// Stores in `found` the number of the next member after `at` that has the key of `at`. The call returns [`NULL`](crate::NULL) if there is no such
/// member, or if `at` is [`NONE`](crate::NONE). The call writes nothing else. It reads one entry of the table for each member from `at` to the found
/// one.
///
/// There must be a key for each place of the table. If the links lead to no end or out of the table, the call returns [`BROKEN`](crate::BROKEN).
#[inline]
pub fn next_equal(table: &mut [RawOne], keys: &[u64], at: u32, found: &mut u32) -> u32
    ensures { NextEqualCall keys.now table.old table.new result found.old found.new (place_of at) }
{
    let Some(member) = place_of(at) else {
        return NULL;
    };
    let links = RawTable::new(table);
    if keys.len() < links.places() {
        return OUT_OF_RANGE;
    }
    if !links.is_linked(member) {
        return links.refusal_of(member);
    }
    find_from(
        &links,
        keys,
        keys[member.index()],
        links.next(member),
        found,
    )
}
