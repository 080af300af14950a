//! Tests of hash tables of numbers. Each number is its own key and its own hash, so that its low bits determine the chain to which it belongs. A test is
//! an array of steps, each of which is a call of a table with its expected answer.

ghost use Rattle.std.specs.Prelude.{◌≡◌, ◌<◌, None, length, true};
ghost use Rattle.std.specs.List.{AllByRecursion};
ghost use Rattle.ic_link_ops.specs.Prelude.{Place, index_of, is_placed, table, wide};
ghost use Rattle.ic_link_ops.specs.OneWord.{no_word};

mod entry;
mod equals;
mod file;
mod keyed;
mod narrow;
mod readings;
mod steps;
mod words;

use crate::asserts::assert_true;
use crate::hash_table::equals::{EqualStep, play_equals};
use crate::hash_table::keyed::{KeyedStep, play_keyed};
use crate::hash_table::readings::printed;
use crate::hash_table::steps::{Step, play};
use ic_hash_table::{HashAdapter, HashTable, KeyOf, StdHash, empty_buckets};
use ic_link_ops::singly_linked_list::{LinkOps, LinkOpsWith};
use ic_link_ops::{LinkOps as _, LinkValues, PlaceWord};
use ic_test_support::objects::{eight_objects, place_at};
use ic_unsafe_ref::Objects;
use std::alloc::Global;
use std::hash::{BuildHasherDefault, FoldHasher};
use std::process::Abort;

// The adapter of the hash tables, which says that a number is its own key and its own hash.
#[derive(Clone, Copy)]
struct OwnKey;

impl HashAdapter for OwnKey {
    ghost use Rattle.std.proofs.Common.{eqb-true};

    type Value = u64;

    type Key = u64;

    ghost key_of = { λ _ value. value };

    ghost hash_of = { λ _ key. key };

    fn get_key<'v>(&self, value: &'v u64) -> &'v u64 {
        value
    }

    fn hash(&self, key: &u64) -> u64 {
        *key
    }

    ghost equal_alike = { λ _ k l e. eqb-true k l e };
}

// Says that a number is its own key. The hash of the key is computed by std.
#[derive(Clone, Copy)]
struct ByNumber;

impl KeyOf for ByNumber {
    type Value = u64;

    type Key = u64;

    ghost key_of = { λ _ value. value };

    fn get_key<'v>(&self, value: &'v u64) -> &'v u64 {
        value
    }
}

// The numbers that the tests use as objects. 10 and 20 occur twice.
const NUMBERS: [u64; 8] = [10, 20, 10, 30, 20, 40, 50, 60];

// Returns the numbers `NUMBERS` as objects, a table of links that covers their places, and four empty buckets.
fn fixture(rt: &impl Abort, alloc: Global) -> (Objects<u64>, LinkOps, Vec<PlaceWord>)
    ensures covers { (table wide no_word result.1).extent.places ≡ 8 }
    ensures placed { (q : Place) → index_of q < 8 → is_placed result.0 q ≡ true }
    ensures none { AllByRecursion (λ front. front ≡ None) result.2.items }
    ensures count { length result.2.items ≡ 4 }
{
    let buckets = empty_buckets(alloc, 4).expect(rt, "memory for buckets");
    let (objects, links) = eight_objects(alloc, NUMBERS).expect(rt, "memory");
    (objects, links, buckets)
}

// Each edit of a table, with readings of its contents between the edits.
const EDITS: &[Step] = &[
    Step::Insert(0),
    Step::Insert(1),
    Step::Insert(2),
    Step::Insert(3),
    Step::Members(&[20, 30, 10, 10]),
    Step::Equals(10, 2, Some(0)),
    Step::InsertUnique(4, Some(1)),
    Step::InsertUnique(5, None),
    Step::Remove(3, true),
    Step::Remove(3, false),
    Step::RemoveBy(10, Some(2)),
    Step::Members(&[40, 20, 10]),
    Step::KeepSmall,
    Step::FirstTwo(1, 0),
    Step::FirstOfChain(2, Some(0)),
    Step::Counts(2, 4, false),
    Step::Clear,
    Step::Counts(0, 4, true),
];

#[test]
fn a_table_over_a_vector(rt: HostRuntime) {
    let (objects, mut links, buckets) = fixture(&rt, rt.alloc());
    let mut table = HashTable::new(OwnKey, buckets);
    assert_true(&rt, play(&mut table, &mut links, &objects, EDITS));
}

#[test]
fn a_table_over_an_array(rt: HostRuntime) {
    let (objects, mut links): (_, LinkOps) = eight_objects(rt.alloc(), NUMBERS).expect(
        &rt, "memory",
    );
    let none = || PlaceWord::of(None);
    let mut table = HashTable::new(OwnKey, [none(), none(), none(), none()]);
    assert_true(&rt, play(&mut table, &mut links, &objects, EDITS));
}

// The edits of a hash table over buckets that are lent must have the results that they have over buckets that the table owns.
#[test]
fn a_table_over_a_slice(rt: HostRuntime) {
    let (objects, mut links): (_, LinkOps) = eight_objects(rt.alloc(), NUMBERS).expect(
        &rt, "memory",
    );
    let none = || PlaceWord::of(None);
    let mut words = [none(), none(), none(), none()];
    let mut table = HashTable::new(OwnKey, &mut words[..]);
    assert_true(&rt, play(&mut table, &mut links, &objects, EDITS));
}

// A search looks at both members of a chain of two.
const SEARCH: &[Step] = &[
    Step::Insert(0),
    Step::Insert(3),
    Step::Looks(10, Some(0), 2),
];

// The looks of a search in a new table must be counted, and the table must print its members.
#[test]
fn a_search_is_counted(rt: HostRuntime) {
    let (objects, mut links, buckets) = fixture(&rt, rt.alloc());
    let mut table = HashTable::new(OwnKey, buckets);
    assert_true(&rt, play(&mut table, &mut links, &objects, SEARCH));
    let text = printed(rt.alloc(), &table, &links, &objects).expect(&rt, "memory for a text");
    assert_true(&rt, text.as_str() == "[30, 10]");
}

// One object is inserted and another is removed, each with one search.
const ENTRIES: &[Step] = &[
    Step::Insert(0),
    Step::Insert(3),
    Step::Insert(6),
    Step::Members(&[50, 30, 10]),
    Step::Enter(4, None),
    Step::FirstOfKey(10, Some(6)),
    Step::Leave(10, Some(0)),
    Step::Members(&[20, 50, 30]),
];

#[test]
fn entries(rt: HostRuntime) {
    let (objects, mut links, buckets) = fixture(&rt, rt.alloc());
    let mut table = HashTable::new(OwnKey, buckets);
    assert_true(&rt, play(&mut table, &mut links, &objects, ENTRIES));
}

// An object is entered into a table that has the object at place 0. If both objects have the same key, the call must return the object at place 0, and
// otherwise the entered object.
const ENTERED_EQUAL: &[Step] = &[
    Step::Insert(0),
    Step::EnterOrFind(2, Some(0)),
    Step::Counts(1, 4, false),
];

const ENTERED_OTHER: &[Step] = &[
    Step::Insert(0),
    Step::EnterOrFind(1, Some(1)),
    Step::Counts(2, 4, false),
];

#[test]
fn an_entry_or_the_object(rt: HostRuntime) {
    for steps in [ENTERED_EQUAL, ENTERED_OTHER] {
        let (objects, mut links, buckets) = fixture(&rt, rt.alloc());
        let mut table = HashTable::new(OwnKey, buckets);
        assert_true(&rt, play(&mut table, &mut links, &objects, steps));
    }
}

// A table of four buckets with one chain in use grows and shrinks as far as it can.
const GROWTH: &[Step] = &[
    Step::Insert(0),
    Step::Insert(1),
    Step::Insert(3),
    Step::Grow(true),
    Step::Grow(true),
    Step::Grow(true),
    Step::Grow(false),
    Step::Equals(10, 0, None),
    Step::Counts(3, 4, false),
    Step::Shrink(true),
    Step::Shrink(true),
    Step::Shrink(true),
    Step::Shrink(false),
    Step::Counts(3, 1, false),
];

#[test]
fn a_table_grows_and_shrinks(rt: HostRuntime) {
    let (objects, mut links, buckets) = fixture(&rt, rt.alloc());
    let mut table = HashTable::with_used(OwnKey, buckets, 1);
    assert_true(&rt, play(&mut table, &mut links, &objects, GROWTH));
}

// The object at place 0 is found by its key, and is not found after its removal.
const FOUND: &[Step] = &[
    Step::Insert(0),
    Step::Insert(1),
    Step::Find(10, Some(0)),
    Step::Counts(2, 4, false),
    Step::Leave(10, Some(0)),
    Step::Find(10, None),
];

// A hash table whose keys are hashed by std must find 10 at place 0, and must not find 10 after its removal.
#[test]
fn a_table_by_stds_hash(rt: HostRuntime) {
    let (objects, mut links, buckets) = fixture(&rt, rt.alloc());
    let by_std: StdHash<ByNumber, BuildHasherDefault<FoldHasher>> = StdHash::new(
        ByNumber,
        BuildHasherDefault::new(),
    );
    let mut table = HashTable::new(by_std, buckets);
    assert_true(&rt, play(&mut table, &mut links, &objects, FOUND));
}

// The steps of a test of a table in which several objects have the same key.
const EQUAL_KEYS: &[EqualStep] = &[
    EqualStep::Insert(0),
    EqualStep::Insert(6),
    EqualStep::Insert(2),
    EqualStep::Insert(1),
    EqualStep::Insert(4),
    EqualStep::Members(&[10, 10, 50, 20, 20]),
    EqualStep::Remove(2),
    EqualStep::Members(&[10, 50, 20, 20]),
    EqualStep::Grow,
    EqualStep::Grow,
    EqualStep::Members(&[20, 20, 10, 50]),
    EqualStep::Shrink,
    EqualStep::Members(&[10, 50, 20, 20]),
];

#[test]
fn equal_keys_stand_side_by_side(rt: HostRuntime) {
    let (objects, mut links, buckets) = fixture(&rt, rt.alloc());
    let mut table = HashTable::with_used(OwnKey, buckets, 1);
    assert_true(
        &rt,
        play_equals(&mut table, &mut links, &objects, EQUAL_KEYS),
    );
}

// The edits of a table whose keys are beside the links.
const KEYED: &[KeyedStep] = &[
    KeyedStep::Insert(0),
    KeyedStep::Insert(1),
    KeyedStep::Insert(2),
    KeyedStep::Find(10, Some(2)),
    KeyedStep::Remove(2, true),
    KeyedStep::Remove(2, false),
    KeyedStep::RemoveBy(10, Some(0)),
    KeyedStep::Counts(1, 4, false),
];

#[test]
fn keys_beside_the_links(rt: HostRuntime) {
    let alloc = rt.alloc();
    let mut links: LinkOpsWith<u64> = LinkOpsWith::new(alloc);
    let _ = links.cover(8);
    assert!(rt; links.covers() == 8);
    links.set_value(place_at(0), 10);
    links.set_value(place_at(1), 20);
    links.set_value(place_at(2), 10);
    let buckets = empty_buckets(alloc, 4).expect(&rt, "memory for buckets");
    let mut table = HashTable::new(OwnKey, buckets);
    assert_true(&rt, play_keyed(&mut table, &mut links, KEYED));
}
