//! What the tests read of a hash table: its members, its chains, and how many there are.

ghost use Rattle.std.specs.Prelude.{◌≡◌};
ghost use Rattle.ic_hash_table.specs.HashTable.{number, HoldsSome};

use crate::hash_table::steps::object_index;
use ic_hash_table::{BucketsFor, HashAdapter, HashTable, KeyProbe};
use ic_link_ops::LinkOps as _;
use ic_link_ops::singly_linked_list::SinglyLinkedListOps;
use ic_unsafe_ref::{Objects, Place};
use std::alloc::{AllocError, Global};

/// Returns whether the table reports `len` members and `chains` chains, and reports that it is empty exactly if `is_empty` is true.
pub(super) fn has_counts<A, B>(
    table: &HashTable<A, B>,
    len: usize,
    chains: usize,
    is_empty: bool,
) -> bool {
    table.len() == len && table.chains() == chains && table.is_empty() == is_empty
}

/// Returns whether a walk over the table, chain by chain, finds these numbers.
pub(super) fn has_members<A: HashAdapter<Value = u64>, L: SinglyLinkedListOps, B: BucketsFor<L>>(
    table: &HashTable<A, B>,
    links: &L,
    objects: &Objects<u64>,
    numbers: &[u64],
) -> bool
    requires held { HoldsSome L.successor (number A.key_of A.hash_of) B.fronts (L.table links.now) table.now objects.now }
{
    table.iter(links, objects).eq(numbers)
}

/// Returns whether the first member with this key is at the place with the index `member`. The next member with the same key must be at the index `next`.
pub(super) fn has_equals<A: HashAdapter<Value = u64>, L: SinglyLinkedListOps, B: BucketsFor<L>>(
    table: &HashTable<A, B>,
    links: &L,
    objects: &Objects<u64>,
    key: &A::Key,
    member: usize,
    next: Option<usize>,
) -> bool
    requires held { HoldsSome L.successor (number A.key_of A.hash_of) B.fronts (L.table links.now) table.now objects.now }
{
    if let Some(first) = table.find(links, objects, key) {
        let equal = table.next_equal(links, objects, &first);
        return first.place().index() == member && object_index(equal) == next;
    }
    false
}

/// Returns whether the first member with this key is at the place with the index `member`. The search for it must look at as many members as `looks` says.
pub(super) fn is_found_by_looks<
    A: HashAdapter<Value = u64>,
    L: SinglyLinkedListOps,
    B: BucketsFor<L>,
>(
    table: &HashTable<A, B>,
    links: &L,
    objects: &Objects<u64>,
    key: &A::Key,
    member: Option<usize>,
    looks: u64,
) -> bool
    requires held { HoldsSome L.successor (number A.key_of A.hash_of) B.fronts (L.table links.now) table.now objects.now }
{
    let adapter = table.adapter();
    let mut probe = KeyProbe::new(adapter, key);
    let found = table.find_by(links, objects, &mut probe);
    object_index(found) == member && probe.looks() == looks
}

/// Returns the first member of the table, and the member after the first one.
pub(super) fn first_two<A: HashAdapter<Value = u64>, L: SinglyLinkedListOps, B: BucketsFor<L>>(
    table: &HashTable<A, B>,
    links: &L,
    objects: &Objects<u64>,
) -> (Option<Place>, Option<Place>)
    requires held { HoldsSome L.successor (number A.key_of A.hash_of) B.fronts (L.table links.now) table.now objects.now }
{
    let first = table.next(links, objects, None);
    (first, table.next(links, objects, first))
}

/// Returns the first member of the chain with this number, if the chain is in use and has members.
pub(super) fn first_of_chain<A: HashAdapter<Value = u64>, L: SinglyLinkedListOps, B: BucketsFor<L>>(
    table: &HashTable<A, B>,
    links: &L,
    objects: &Objects<u64>,
    chain: usize,
) -> Option<Place>
    requires held { HoldsSome L.successor (number A.key_of A.hash_of) B.fronts (L.table links.now) table.now objects.now }
{
    if chain < table.chains() {
        return table.chain(links, objects, chain).first();
    }
    None
}

/// Returns the first member of the chain to which this key belongs, if the chain has members.
pub(super) fn first_of_key<A: HashAdapter<Value = u64>, L: SinglyLinkedListOps, B: BucketsFor<L>>(
    table: &HashTable<A, B>,
    links: &L,
    objects: &Objects<u64>,
    key: &A::Key,
) -> Option<Place>
    requires held { HoldsSome L.successor (number A.key_of A.hash_of) B.fronts (L.table links.now) table.now objects.now }
{
    let adapter = table.adapter();
    let at = table.slots().slot(adapter.hash(key));
    table.chain(links, objects, at).first()
}

/// Returns the text that the table prints.
pub(super) fn printed<
    A: HashAdapter<Value = u64, Key = u64>,
    L: SinglyLinkedListOps,
    B: BucketsFor<L>,
>(
    alloc: Global,
    table: &HashTable<A, B>,
    links: &L,
    objects: &Objects<u64>,
) -> Result<String, AllocError>
    requires held { HoldsSome L.successor (number A.key_of A.hash_of) B.fronts (L.table links.now) table.now objects.now }
{
    let listing = table.debug(links, objects);
    format!(in alloc; "{listing:?}")
}
