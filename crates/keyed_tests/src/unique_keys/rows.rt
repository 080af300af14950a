//! The rows of the tests. Each row has a call, its expected result, and the numbers of the pages after the call.

use crate::unique_keys::calls::{Answer, Call, Page, are, make};
use ic_hash_index::{HashIndex, NarrowHashIndex};
use ic_keyed::{Index, Keyed, NarrowTreeKeyed};
use ic_link_ops::{NarrowPlaceWord, PlaceWord};
use ic_test_support::indexes::By;
use ic_test_support::rationed::Rationed;
use std::alloc::{Allocator, Global};

type Row = (Call, Answer, &'static [u64]);

// The rows of the tests. The rows test the order of use, a key that is already there, and a page that replaces another page.
// Promise: the order of use, a key that is there, one in the place of another.
const ROWS: &[Row] = &[
    (Call::First, Answer::Nothing, &[]),
    (Call::Last, Answer::Nothing, &[]),
    (Call::PopFirst, Answer::Nothing, &[]),
    (Call::PopLast, Answer::Nothing, &[]),
    (Call::Looks(1), Answer::Count(0), &[]),
    (Call::PutOver(1, 1), Answer::Nothing, &[]), // there is no oldest one
    (Call::Insert(1, 10), Answer::Nothing, &[1]),
    (Call::Looks(1), Answer::Count(1), &[1]),
    (Call::Insert(2, 20), Answer::Nothing, &[2, 1]),
    (Call::Insert(3, 30), Answer::Nothing, &[3, 2, 1]),
    (Call::Insert(2, 7), Answer::Taken(2, 7), &[3, 2, 1]), // a key that is there
    (Call::Peek(1), Answer::Page(1, 10), &[3, 2, 1]), // no use
    (Call::Get(1), Answer::Page(1, 10), &[1, 3, 2]),
    (Call::Get(9), Answer::Nothing, &[1, 3, 2]),
    (Call::Touch(3), Answer::Truth(true), &[3, 1, 2]),
    (Call::Touch(3), Answer::Truth(true), &[3, 1, 2]), // the first one
    (Call::Touch(9), Answer::Truth(false), &[3, 1, 2]),
    (Call::First, Answer::Page(3, 30), &[3, 1, 2]),
    (Call::Last, Answer::Page(2, 20), &[3, 1, 2]),
    (Call::Put(1, 11), Answer::Page(1, 10), &[1, 3, 2]), // in the place of its key
    (Call::Put(4, 40), Answer::Nothing, &[4, 1, 3, 2]),
    (Call::PutOver(5, 50), Answer::Page(2, 20), &[5, 4, 1, 3]), // in the place of the oldest
    (Call::PutOver(3, 31), Answer::Page(3, 30), &[3, 5, 4, 1]),
    (Call::Peek(2), Answer::Nothing, &[3, 5, 4, 1]),
    (Call::Remove(5), Answer::Page(5, 50), &[3, 4, 1]), // from the middle
    (Call::Remove(5), Answer::Nothing, &[3, 4, 1]),
    (Call::PopLast, Answer::Page(1, 11), &[3, 4]),
    (Call::PopFirst, Answer::Page(3, 31), &[4]),
    (
        Call::Put(18446744073709551615, 6),
        Answer::Nothing,
        &[18446744073709551615, 4],
    ), // the greatest key
    (
        Call::Put(0, 60),
        Answer::Nothing,
        &[0, 18446744073709551615, 4],
    ), // and the least
    (Call::RetainLarge, Answer::Nothing, &[0, 4]),
    (Call::Clear, Answer::Nothing, &[]),
    (Call::Clear, Answer::Nothing, &[]),
    (Call::RetainLarge, Answer::Nothing, &[]),
    (Call::Insert(4, 1), Answer::Nothing, &[4]),
];

// Returns whether the call inserts a page with this number and this size.
fn puts_in(call: Call, number: u64, size: u64) -> bool {
    match call {
        Call::Insert(put, of) => put == number && of == size,
        Call::Put(put, of) => put == number && of == size,
        _ => false,
    }
}

// Makes the call of each row, and compares its result with the row. An insert that finds no memory gives its page back and changes nothing, so the
// insert is made once more. Returns how many inserts were refused, or `None` if a call has another result than its row.
fn play<I: Index<Page, A>, A: Allocator>(
    pages: &mut Keyed<Page, I, A>,
    rows: &[Row],
) -> Option<usize> {
    let mut refused: usize = 0;
    for (call, wanted, numbers) in rows {
        let mut found = make(pages, *call);
        if let Answer::NoRoom(number, size) = found {
            if !puts_in(*call, number, size) {
                return None;
            }
            refused = refused.saturating_add(1);
            found = make(pages, *call);
        }
        if found != *wanted || !are(&*pages, numbers) {
            return None;
        }
    }
    Some(refused)
}

// Makes the calls of the rows on a new container that takes its memory from `memory`, with the given index. A hash table has two chains. Returns how
// many inserts were refused, or `None` if a call has another result than its row.
fn play_new(by: By, memory: &Rationed, rows: &[Row]) -> Option<usize> {
    match by {
        By::Tree => {
            let mut pages = Keyed::new(memory);
            play(&mut pages, rows)
        }
        By::HashTable => {
            let buckets = [PlaceWord::of(None), PlaceWord::of(None)];
            let mut pages = Keyed::with_index(memory, HashIndex::new(buckets));
            play(&mut pages, rows)
        }
        By::NarrowTree => {
            let mut pages: NarrowTreeKeyed<Page, &Rationed> = Keyed::by_tree(memory);
            play(&mut pages, rows)
        }
        By::NarrowHashTable => {
            let buckets = [NarrowPlaceWord::of(None), NarrowPlaceWord::of(None)];
            let mut pages = Keyed::with_index(memory, NarrowHashIndex::with_words(buckets));
            play(&mut pages, rows)
        }
    }
}

// Makes the calls of the rows once for each request for memory, and refuses this request. Returns whether exactly one insert is refused each time. There
// must be at least three requests, because each table and the objects grow.
fn is_refused_in_turn(by: By, alloc: Global, rows: &[Row]) -> bool {
    let memory = Rationed::new(alloc, u64::MAX);
    let mut as_wanted = play_new(by, &memory, rows) == Some(0);
    let requests = memory.requests();
    as_wanted &= requests >= 3;
    for number in 0..requests {
        memory.refuse(number);
        as_wanted &= play_new(by, &memory, rows) == Some(1);
    }
    as_wanted
}

#[test]
fn rows_with_each_growth_refused_in_turn(rt: HostRuntime) {
    for by in [By::Tree, By::HashTable, By::NarrowTree, By::NarrowHashTable] {
        assert!(rt; is_refused_in_turn(by, rt.alloc(), ROWS));
    }
}
