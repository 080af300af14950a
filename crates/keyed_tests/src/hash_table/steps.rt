//! The steps of the tests of hash tables. Each step makes one call, and compares its answer with the expected one.

ghost use Rattle.std.specs.Prelude.{◌≡◌, ◌<◌, true};
ghost use Rattle.ic_link_ops.specs.Prelude.{Place, index_of, is_placed};
ghost use Rattle.ic_hash_table.specs.HashTable.{number, HoldsSome, IsNew};

use crate::hash_table::entry::{enter, enter_or_find, leave};
use crate::hash_table::readings::{
    first_of_chain, first_of_key, first_two, has_counts, has_equals, has_members, is_found_by_looks,
};
use ic_hash_table::{BucketsFor, HashAdapter, HashTable};
use ic_link_ops::LinkOps as _;
use ic_link_ops::singly_linked_list::SinglyLinkedListOps;
use ic_test_support::objects::reference;
use ic_unsafe_ref::{Objects, Place, UnsafeRef};

/// A call of a hash table with its arguments, and the answer that the test expects. Each object is given as the index of its place. The objects at the
/// places 0 and 2 have the key 10.
pub(super) enum Step {
    /// Inserts the object, whose link must not be refused.
    Insert(usize),
    /// Inserts the object unless a member has its key. The answer is the first member that has the key.
    InsertUnique(usize, Option<usize>),
    /// Inserts the object at the entry of its key, unless a member has the key. The answer is the first member that had the key.
    Enter(usize, Option<usize>),
    /// Inserts the object at the entry of its key, unless a member has the key. The answer is the member that then has the key.
    EnterOrFind(usize, Option<usize>),
    /// Removes the first member with this key, at the entry of the key. The answer is the member.
    Leave(u64, Option<usize>),
    /// Removes the object. The answer is whether the object was a member.
    Remove(usize, bool),
    /// Removes the first member with this key. The answer is the member.
    RemoveBy(u64, Option<usize>),
    /// Removes all objects except the numbers below 40.
    KeepSmall,
    /// Takes one more bucket into use. The answer is whether there was an unused one.
    Grow(bool),
    /// Takes the last bucket out of use. The answer is whether the call did so.
    Shrink(bool),
    /// Removes all members.
    Clear,
    /// Finds the first member with this key.
    Find(u64, Option<usize>),
    /// Finds the first member with this key. The answer is the member, and how many members the search looked at.
    Looks(u64, Option<usize>, u64),
    /// Finds the first member with this key, and the next member with the same key.
    Equals(u64, usize, Option<usize>),
    /// Finds the first member of the table, and the member after the first one.
    FirstTwo(usize, usize),
    /// Finds the first member of the chain with this number.
    FirstOfChain(usize, Option<usize>),
    /// Finds the first member of the chain to which this key belongs.
    FirstOfKey(u64, Option<usize>),
    /// Walks over all objects of the table, chain by chain. The answer is their numbers.
    Members(&'static [u64]),
    /// Reads how many members and how many chains the table has, and whether it is empty.
    Counts(usize, usize, bool),
}

/// Returns the reference to the object at one of the eight places.
pub(super) fn eighth(index: usize) -> UnsafeRef<u64>
    ensures { index_of result < 8 }
{
    reference(index % 8)
}

/// Returns the index of the object's place, if there is an object.
pub(super) fn object_index(found: Option<UnsafeRef<u64>>) -> Option<usize> {
    match found {
        Some(object) => Some(object.place().index()),
        None => None,
    }
}

// Returns the index of the place, if there is one.
fn place_index(found: Option<Place>) -> Option<usize> {
    match found {
        Some(place) => Some(place.index()),
        None => None,
    }
}

// Takes a step that only reads the table, and returns whether the answer is the expected one.
fn read<A: HashAdapter<Value = u64, Key = u64>, L: SinglyLinkedListOps, B: BucketsFor<L>>(
    table: &HashTable<A, B>,
    links: &L,
    objects: &Objects<u64>,
    step: &Step,
) -> bool
    requires held { HoldsSome L.successor (number A.key_of A.hash_of) B.fronts (L.table links.now) table.now objects.now }
{
    match step {
        Step::Find(key, member) => object_index(table.find(links, objects, key)) == *member,
        Step::Looks(key, member, looks) => {
            is_found_by_looks(table, links, objects, key, *member, *looks)
        }
        Step::Equals(key, member, next) => has_equals(table, links, objects, key, *member, *next),
        Step::FirstTwo(first, second) => {
            let (one, two) = first_two(table, links, objects);
            place_index(one) == Some(*first) && place_index(two) == Some(*second)
        }
        Step::FirstOfChain(chain, first) => {
            place_index(first_of_chain(table, links, objects, *chain)) == *first
        }
        Step::FirstOfKey(key, first) => {
            place_index(first_of_key(table, links, objects, key)) == *first
        }
        Step::Members(numbers) => has_members(table, links, objects, numbers),
        Step::Counts(len, chains, is_empty) => has_counts(table, *len, *chains, *is_empty),
        _ => false,
    }
}

// Takes a step, and returns whether the answer is the expected one.
fn take_step<A: HashAdapter<Value = u64, Key = u64>, L: SinglyLinkedListOps, B: BucketsFor<L>>(
    table: &mut HashTable<A, B>,
    links: &mut L,
    objects: &Objects<u64>,
    step: &Step,
) -> bool
    requires covers { (L.table links.old).extent.places ≡ 8 }
    requires placed { (q : Place) → index_of q < 8 → is_placed objects.now q ≡ true }
    requires held { HoldsSome L.successor (number A.key_of A.hash_of) B.fronts (L.table links.old) table.old objects.now }
    ensures covers { (L.table links.new).extent.places ≡ 8 }
    ensures held { HoldsSome L.successor (number A.key_of A.hash_of) B.fronts (L.table links.new) table.new objects.now }
{
    match step {
        Step::Insert(index) => table.insert(links, objects, eighth(*index)).is_ok(),
        Step::InsertUnique(index, member) => {
            let found = table.insert_unique(links, objects, eighth(*index));
            object_index(found.unwrap_or(None)) == *member
        }
        Step::Enter(index, member) => {
            let found = enter(table.adapter(), table, links, objects, eighth(*index));
            object_index(found) == *member
        }
        Step::EnterOrFind(index, member) => {
            let found = enter_or_find(table.adapter(), table, links, objects, eighth(*index));
            object_index(found) == *member
        }
        Step::Leave(key, member) => object_index(leave(table, links, objects, key)) == *member,
        Step::Remove(index, is_member) => {
            table.remove(links, objects, &eighth(*index)) == *is_member
        }
        Step::RemoveBy(key, member) => {
            object_index(table.remove_by(links, objects, key)) == *member
        }
        Step::KeepSmall => {
            table.retain(links, objects, |number| *number < 40);
            true
        }
        Step::Grow(is_grown) => table.grow_one(links, objects) == *is_grown,
        Step::Shrink(is_shrunk) => table.shrink_one(links) == *is_shrunk,
        Step::Clear => {
            table.clear(links);
            true
        }
        _ => read(&*table, &*links, objects, step),
    }
}

/// Takes all steps with a new table, and returns whether each answer is the expected one.
pub(super) fn play<
    A: HashAdapter<Value = u64, Key = u64>,
    L: SinglyLinkedListOps,
    B: BucketsFor<L>,
>(table: &mut HashTable<A, B>, links: &mut L, objects: &Objects<u64>, steps: &[Step]) -> bool
    requires covers { (L.table links.old).extent.places ≡ 8 }
    requires placed { (q : Place) → index_of q < 8 → is_placed objects.now q ≡ true }
    requires new { IsNew B.fronts table.old }
    ensures held { HoldsSome L.successor (number A.key_of A.hash_of) B.fronts (L.table links.new) table.new objects.now }
{
    let mut as_expected = true;
    for step in steps {
        as_expected &= take_step(table, links, objects, step);
    }
    as_expected
}
