//! Inserts and removals of a hash table by the entry of a key. One search finds the entry, and the insert or the removal makes no second search.

ghost use Rattle.std.specs.Prelude.{◌≡◌, true};
ghost use Rattle.ic_link_ops.specs.Prelude.{is_placed, IsCovered};
ghost use Rattle.ic_hash_table.specs.HashTable.{adapter_of, number, HoldsSome};

use ic_hash_table::{BucketsFor, Entry, HashAdapter, HashTable};
use ic_link_ops::LinkOps as _;
use ic_link_ops::singly_linked_list::SinglyLinkedListOps;
use ic_unsafe_ref::{Objects, UnsafeRef, Values};

/// Inserts the object into the chain of its key's entry, unless a member has the key. Returns the first member that had the key, if there is one.
pub(super) fn enter<A: HashAdapter<Value = u64>, L: SinglyLinkedListOps, B: BucketsFor<L>>(
    adapter: A,
    table: &mut HashTable<A, B>,
    links: &mut L,
    objects: &Objects<u64>,
    object: UnsafeRef<u64>,
) -> Option<UnsafeRef<u64>>
    requires adapter { adapter_of table.old ≡ adapter }
    requires covered { IsCovered (L.table links.old) object }
    requires placed { is_placed objects.now object ≡ true }
    requires held { HoldsSome L.successor (number A.key_of A.hash_of) B.fronts (L.table links.old) table.old objects.now }
    ensures held { HoldsSome L.successor (number A.key_of A.hash_of) B.fronts (L.table links.new) table.new objects.now }
    ensures extent { (L.table links.new).extent ≡ (L.table links.old).extent }
{
    let number = adapter.get_key(objects.value(object.place()));
    match table.entry(links, objects, number) {
        Entry::Occupied(found) => Some(found.get()),
        Entry::Vacant(chain) => {
            let _ = chain.insert(objects, object);
            None
        }
    }
}

/// Inserts the object by `or_insert`, unless a member has its key. Returns the member that then has the key, which is the object itself if it was inserted.
pub(super) fn enter_or_find<A: HashAdapter<Value = u64>, L: SinglyLinkedListOps, B: BucketsFor<L>>(
    adapter: A,
    table: &mut HashTable<A, B>,
    links: &mut L,
    objects: &Objects<u64>,
    given: UnsafeRef<u64>,
) -> Option<UnsafeRef<u64>>
    requires adapter { adapter_of table.old ≡ adapter }
    requires covered { IsCovered (L.table links.old) given }
    requires placed { is_placed objects.now given ≡ true }
    requires held { HoldsSome L.successor (number A.key_of A.hash_of) B.fronts (L.table links.old) table.old objects.now }
    ensures held { HoldsSome L.successor (number A.key_of A.hash_of) B.fronts (L.table links.new) table.new objects.now }
    ensures extent { (L.table links.new).extent ≡ (L.table links.old).extent }
{
    let number = adapter.get_key(objects.value(given.place()));
    match table
        .entry(links, objects, number)
        .or_insert(objects, given)
    {
        Ok(found) => Some(found.get()),
        Err(_) => None,
    }
}

/// Removes the first member with this key at the entry of the key, and returns it, if there is one.
pub(super) fn leave<A: HashAdapter<Value = u64>, L: SinglyLinkedListOps, B: BucketsFor<L>>(
    table: &mut HashTable<A, B>,
    links: &mut L,
    objects: &Objects<u64>,
    key: &A::Key,
) -> Option<UnsafeRef<u64>>
    requires held { HoldsSome L.successor (number A.key_of A.hash_of) B.fronts (L.table links.old) table.old objects.now }
    ensures held { HoldsSome L.successor (number A.key_of A.hash_of) B.fronts (L.table links.new) table.new objects.now }
    ensures extent { (L.table links.new).extent ≡ (L.table links.old).extent }
{
    match table.entry(links, objects, key) {
        Entry::Occupied(found) => Some(found.remove(objects)),
        Entry::Vacant(_) => None,
    }
}
