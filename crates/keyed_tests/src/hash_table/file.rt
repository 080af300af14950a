//! Hash tables whose words are read from a file. Nobody knows whether the words are a correct hash table until a check has accepted them.

ghost use Rattle.std.specs.Prelude.{◌≡◌, ◌≤◌, length};
ghost use Rattle.ic_link_ops.specs.OneWord.{no_word};
ghost use Rattle.ic_link_ops.specs.Prelude.{table, HasRoom, wide, IsNameable};

use crate::asserts::assert_true;
use crate::hash_table::{NUMBERS, OwnKey};
use ic_check::check_hash_table;
use ic_hash_table::HashTable;
use ic_link_ops::singly_linked_list::{LinkOps, SinglyLinkedListOps};
use ic_test_support::answers::object;
use ic_test_support::notes::Text;
use ic_test_support::objects::{eight_objects, place_at};
use ic_unsafe_ref::{Objects, Place, UnsafeRef};
use std::alloc::Global;
use std::process::Abort;

// A file has this number in a word that names no place.
const NONE: usize = 8;

// Returns the place with this index, or `None` if the index is not below 8.
fn named(index: usize) -> Option<Place>
    ensures named { IsNameable (HasRoom wide) result }
{
    if index >= NONE {
        return None;
    }
    Some(place_at(index))
}

// Links the first place of each pair, so that the second place of the pair comes after it. The pairs are read from a file.
fn read_links(links: &mut LinkOps, pairs: &[(usize, usize)])
    requires covers { (table wide no_word links.old).extent.places ≡ 8 }
{
    for index in 0..pairs.len() {
        let (first, after) = pairs[index];
        if first < NONE {
            let _ = links.link_before(place_at(first), named(after));
        }
    }
}

// Returns the first member with this key of the hash table over these buckets. Returns `None` if the words do not represent a hash table with `len`
// members.
fn find_in_file(
    words: &mut [u64],
    links: &LinkOps,
    objects: &Objects<u64>,
    len: usize,
    key: u64,
) -> Option<UnsafeRef<u64>>
    requires some { 1 ≤ length words.old }
    requires few { length words.old ≤ 4294967296 }
{
    let used = words.len();
    let hash = HashTable::from_buckets(OwnKey, words, used, len);
    if !check_hash_table(&hash, links, objects) {
        return None;
    }
    hash.find(links, objects, &key)
}

// Notes which member with this key is found in a hash table of four buckets that consist of these words.
fn write_found(
    rt: &impl Abort,
    alloc: Global,
    notes: &mut Text,
    words: [u64; 4],
    pairs: &[(usize, usize)],
    len: usize,
    key: u64,
) {
    let (objects, mut links): (_, LinkOps) = eight_objects(alloc, NUMBERS).expect(rt, "memory");
    read_links(&mut links, pairs);
    let mut words = words;
    let found = find_in_file(&mut words[..], &links, &objects, len, key);
    notes.add(object(found), " ");
}

// The check must accept the words of one table, and refuse the words of six others, which have a fault each. The numbers 20 and 40 belong in chain 0,
// and 10 and 30 in chain 2. The word 7 names no place. The first table is correct, and its search finds 30. In the second table, 10 is in the wrong
// chain 1. In the third, the chain of 10 and 30 has no end. In the fourth, 40 is in two chains. In the fifth, the count is greater than the number of
// members. In the last two, the first member of a chain is not linked, and is beyond all places.
// Promise: a hash table of a file.
#[test]
fn tables_of_a_file_are_checked(rt: HostRuntime) {
    let alloc = rt.alloc();
    let mut notes = Text::new(alloc);
    let chains = [(0, 3), (3, NONE), (1, NONE)];
    write_found(&rt, alloc, &mut notes, [16, 0, 8, 7], &chains, 3, 30);
    write_found(&rt, alloc, &mut notes, [0, 8, 0, 0], &[(0, NONE)], 1, 10);
    write_found(
        &rt,
        alloc,
        &mut notes,
        [0, 0, 8, 0],
        &[(0, 3), (3, 0)],
        2,
        10,
    );
    let shared = [(0, 5), (1, 5), (5, NONE)];
    write_found(&rt, alloc, &mut notes, [16, 0, 8, 0], &shared, 4, 10);
    write_found(&rt, alloc, &mut notes, [0, 0, 8, 0], &[(0, NONE)], 2, 10);
    write_found(&rt, alloc, &mut notes, [0, 0, 8, 0], &[], 1, 10);
    write_found(&rt, alloc, &mut notes, [0, 0, 80, 0], &[], 1, 10);
    assert_true(&rt, notes.has_words("3 none none none none none none"));
}
