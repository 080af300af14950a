//! Calls of a hash table whose keys are stored beside the links.

ghost use Rattle.std.specs.Prelude.{◌≡◌};
ghost use Rattle.ic_hash_table.specs.HashTable.{number, HoldsSome, IsNew};

use crate::hash_table::readings::has_counts;
use crate::hash_table::steps::{eighth, object_index};
use ic_hash_table::{BucketsFor, HashAdapter, HashTable};
use ic_link_ops::singly_linked_list::SinglyLinkedListOps;
use ic_link_ops::{LinkOps as _, LinkValues};

/// A call of a hash table whose keys are stored beside the links, and the answer that the test expects. Each object is given as the index of its place.
pub(super) enum KeyedStep {
    /// Inserts the object by the key that is stored beside its link. The link must not be refused.
    Insert(usize),
    /// Finds the first member with this key.
    Find(u64, Option<usize>),
    /// Removes the object. The answer is whether the object was a member.
    Remove(usize, bool),
    /// Removes the first member with this key. The answer is the member.
    RemoveBy(u64, Option<usize>),
    /// Reads how many members and how many chains the table has, and whether it is empty.
    Counts(usize, usize, bool),
}

// Takes a step, and returns whether the answer is the expected one.
fn take_step<
    A: HashAdapter<Value = u64, Key = u64>,
    L: SinglyLinkedListOps + LinkValues<u64>,
    B: BucketsFor<L>,
>(table: &mut HashTable<A, B>, links: &mut L, step: &KeyedStep) -> bool
    requires covers { (L.table links.old).extent.places ≡ 8 }
    requires held { HoldsSome L.successor (number A.key_of A.hash_of) B.fronts (L.table links.old) table.old (L.values links.old) }
    ensures covers { (L.table links.new).extent.places ≡ 8 }
    ensures held { HoldsSome L.successor (number A.key_of A.hash_of) B.fronts (L.table links.new) table.new (L.values links.new) }
{
    match step {
        KeyedStep::Insert(index) => table.insert_keyed(links, eighth(*index)).is_ok(),
        KeyedStep::Find(key, member) => {
            object_index(table.find(&*links, &*links, key)) == *member
        }
        KeyedStep::Remove(index, is_member) => {
            table.remove_keyed(links, &eighth(*index)) == *is_member
        }
        KeyedStep::RemoveBy(key, member) => {
            object_index(table.remove_by_keyed(links, key)) == *member
        }
        KeyedStep::Counts(len, chains, is_empty) => has_counts(&*table, *len, *chains, *is_empty),
    }
}

/// Takes all steps with a new table, and returns whether each answer is the expected one.
pub(super) fn play_keyed<
    A: HashAdapter<Value = u64, Key = u64>,
    L: SinglyLinkedListOps + LinkValues<u64>,
    B: BucketsFor<L>,
>(table: &mut HashTable<A, B>, links: &mut L, steps: &[KeyedStep]) -> bool
    requires covers { (L.table links.old).extent.places ≡ 8 }
    requires new { IsNew B.fronts table.old }
{
    let mut as_expected = true;
    for step in steps {
        as_expected &= take_step(table, links, step);
    }
    as_expected
}
