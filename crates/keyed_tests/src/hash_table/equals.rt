//! Hash tables in which several objects have the same key. Objects with the same key are consecutive in their chain.

ghost use Rattle.std.specs.Prelude.{◌≡◌, ◌<◌, true};
ghost use Rattle.ic_link_ops.specs.Prelude.{Place, index_of, is_placed};
ghost use Rattle.ic_hash_table.specs.Prelude.{number, IsNew, HoldsSideBySide};

use crate::hash_table::readings::has_members;
use crate::hash_table::steps::eighth;
use ic_hash_table::{BucketsFor, HashAdapter, HashTable};
use ic_link_ops::LinkOps as _;
use ic_link_ops::singly_linked_list::SinglyLinkedListOps;
use ic_unsafe_ref::Objects;

/// A call of a hash table that keeps objects with equal keys next to each other. Each object is given as the index of its place.
pub(super) enum EqualStep {
    /// Inserts the object next to the members that have the same key. Its link must not be refused.
    Insert(usize),
    /// Removes the object, which must be a member. The order of the remaining members does not change.
    Remove(usize),
    /// Takes one more bucket into use. There must be an unused one.
    Grow,
    /// Takes the last bucket out of use. It must not be the only bucket in use.
    Shrink,
    /// Walks over all objects of the table, chain by chain. The answer is their numbers.
    Members(&'static [u64]),
}

// Takes a step, and returns whether the answer is the expected one.
fn take_step<A: HashAdapter<Value = u64>, L: SinglyLinkedListOps, B: BucketsFor<L>>(
    table: &mut HashTable<A, B>,
    links: &mut L,
    objects: &Objects<u64>,
    step: &EqualStep,
) -> bool
    requires covers { (L.table links.old).extent.places ≡ 8 }
    requires placed { (q : Place) → index_of q < 8 → is_placed objects.now q ≡ true }
    requires beside { HoldsSideBySide L.successor (number A.key_of A.hash_of) B.fronts A.Key.eq A.key_of (L.table links.old) table.old objects.now }
    ensures covers { (L.table links.new).extent.places ≡ 8 }
    ensures beside { HoldsSideBySide L.successor (number A.key_of A.hash_of) B.fronts A.Key.eq A.key_of (L.table links.new) table.new objects.now }
{
    match step {
        EqualStep::Insert(index) => table.insert_equal(links, objects, eighth(*index)).is_ok(),
        EqualStep::Remove(index) => table.remove(links, objects, &eighth(*index)),
        EqualStep::Grow => table.grow_one(links, objects),
        EqualStep::Shrink => table.shrink_one(links),
        EqualStep::Members(numbers) => has_members(&*table, &*links, objects, numbers),
    }
}

/// Takes all steps with a new table, and returns whether each answer is the expected one. Objects with equal keys are consecutive after each step.
pub(super) fn play_equals<A: HashAdapter<Value = u64>, L: SinglyLinkedListOps, B: BucketsFor<L>>(
    table: &mut HashTable<A, B>,
    links: &mut L,
    objects: &Objects<u64>,
    steps: &[EqualStep],
) -> bool
    requires covers { (L.table links.old).extent.places ≡ 8 }
    requires placed { (q : Place) → index_of q < 8 → is_placed objects.now q ≡ true }
    requires new { IsNew B.fronts table.old }
{
    let mut as_expected = true;
    for step in steps {
        as_expected &= take_step(table, links, objects, step);
    }
    as_expected
}
