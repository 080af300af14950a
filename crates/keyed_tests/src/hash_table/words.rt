//! Tests of a hash table whose buckets are plain words, for example the words of a file that is mapped into memory. The table is closed, and a new one
//! is made of its words.

ghost use Rattle.std.specs.Prelude.{◌≡◌, ◌<◌, ◌≤◌, None, length, true};
ghost use Rattle.std.specs.List.{AllByRecursion};
ghost use Rattle.ic_link_ops.specs.Prelude.{Place, index_of, is_placed};
ghost use Rattle.ic_hash_table.specs.HashTable.{adapter_of, slots_of, number, HoldsSome, KeepsBuckets};

use crate::asserts::assert_true;
use crate::hash_table::{NUMBERS, OwnKey};
use ic_hash_table::{BucketsFor, HashAdapter, HashTable};
use ic_link_ops::LinkOps as _;
use ic_link_ops::singly_linked_list::{LinkOps, SinglyLinkedListOps};
use ic_test_support::answers::write_places;
use ic_test_support::notes::{Answer, Text};
use ic_test_support::objects::{eight_objects, reference};
use ic_unsafe_ref::{Objects, UnsafeRef};

// Inserts the object into the hash table. Its buckets, its adapter and the number of its chains in use stay the same.
fn put<A: HashAdapter<Value = u64>, L: SinglyLinkedListOps, B: BucketsFor<L>>(
    table: &mut HashTable<A, B>,
    links: &mut L,
    objects: &Objects<u64>,
    index: usize,
)
    requires few { index < 8 }
    requires covers { (L.table links.old).extent.places ≡ 8 }
    requires placed { (q : Place) → index_of q < 8 → is_placed objects.now q ≡ true }
    requires held { HoldsSome L.successor (number A.key_of A.hash_of) B.fronts (L.table links.old) table.old objects.now }
    ensures adapter { adapter_of table.new ≡ adapter_of table.old }
    ensures slots { slots_of table.new ≡ slots_of table.old }
    ensures buckets { KeepsBuckets B.fronts B.Rewrites table.old table.new }
    ensures covers { (L.table links.new).extent.places ≡ 8 }
    ensures held { HoldsSome L.successor (number A.key_of A.hash_of) B.fronts (L.table links.new) table.new objects.now }
{
    let _ = table.insert(links, objects, reference(index));
}

// Inserts two objects into a new table over these buckets, closes it, and makes a table of the buckets again. Returns the member that the second table
// finds by this key.
fn found_again<A: HashAdapter<Value = u64>, L: SinglyLinkedListOps, B: BucketsFor<L> + Drop>(
    adapter: A,
    buckets: B,
    links: &mut L,
    objects: &Objects<u64>,
    key: &A::Key,
) -> Option<UnsafeRef<u64>>
    requires covers { (L.table links.old).extent.places ≡ 8 }
    requires placed { (q : Place) → index_of q < 8 → is_placed objects.now q ≡ true }
    requires count { length (B.fronts buckets) ≡ 4 }
    requires none { AllByRecursion (λ front. front ≡ None) (B.fronts buckets) }
{
    let mut table = HashTable::new(adapter, buckets);
    put(&mut table, links, objects, 0);
    put(&mut table, links, objects, 3);
    let used = table.chains();
    let len = table.len();
    let again = HashTable::from_buckets(adapter, table.into_buckets(), used, len);
    again.find(&*links, objects, key)
}

// Inserts an object into a table over lent words, which has one chain in use. Then it takes a second chain into use, which always succeeds, and empties the
// table. Returns whether the table grew, and the lent words, all of which are 0 again.
fn grown_and_cleared<'a, L: SinglyLinkedListOps>(
    words: &'a mut [u64],
    links: &mut L,
    objects: &Objects<u64>,
) -> (bool, &'a mut [u64])
    requires covers { (L.table links.old).extent.places ≡ 8 }
    requires placed { (q : Place) → index_of q < 8 → is_placed objects.now q ≡ true }
    requires some { 2 ≤ length words.old }
    requires zero { AllByRecursion (λ word. word ≡ 0) words.old }
    ensures grown { result.0 ≡ true }
    ensures zero { AllByRecursion (λ word. word ≡ 0) result.1.now }
    ensures lent { result.1.ghost_name ≡ words.entry.ghost_name }
{
    let mut table = HashTable::with_used(OwnKey, words, 1);
    put(&mut table, links, objects, 0);
    let is_grown = table.grow_one(links, objects);
    table.clear(links);
    (is_grown, table.into_buckets())
}

// The words name no place at first. After two objects are inserted, a search for 10 must find the object at place 0. The numbers 10 and 30 belong in
// chain 2, so the word of chain 2 must name place 3, where 30 is.
#[test]
fn a_table_over_words(rt: HostRuntime) {
    let alloc = rt.alloc();
    let mut notes = Text::new(alloc);
    let (objects, mut links): (_, LinkOps) = eight_objects(alloc, NUMBERS).expect(&rt, "memory");
    let mut words: [u64; 4] = [0, 7, 20, 1_099_511_627_776];
    let found = found_again(OwnKey, &mut words[..], &mut links, &objects, &10);
    if let Some(found) = found {
        write_places(&mut notes, &[Some(found.place())]);
    }
    for word in words {
        notes.add(Answer::Number(word), " ");
    }
    assert_true(&rt, notes.has_words("0  0 7 32 1099511627776"));
}

#[test]
fn lent_words_come_back(rt: HostRuntime) {
    let alloc = rt.alloc();
    let (objects, mut links): (_, LinkOps) = eight_objects(alloc, NUMBERS).expect(&rt, "memory");
    let mut words: [u64; 2] = [0, 0];
    let (is_grown, _) = grown_and_cleared(&mut words[..], &mut links, &objects);
    assert_true(&rt, is_grown);
    assert_true(&rt, words[0] == 0 && words[1] == 0);
}
