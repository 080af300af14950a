//! The check of a hash table.
//!
//! ```text
//! let table = HashTable::from_buckets(ById, words, used, len); // words of a file
//! check_hash_table(&table, &links, &objects) // true: the links hold a sequence of members for the table
//! ```

ghost use Rattle.std.specs.Prelude.{◌<◌, List, MatchOption, length};
ghost use Rattle.std.specs.Bool.{Decides};
ghost use Rattle.std.specs.List.{AllByRecursion};
ghost use Rattle.ic_unsafe_ref.specs.declared.place.Place.{Place};
ghost use Rattle.ic_hash_table.specs.Chains.{RepresentsFrom, RepresentsFromSome};
ghost use Rattle.ic_hash_table.specs.HashTable.{adapter_of, front_at, fronts_of, slots_of, number, HasChains, HoldsSome};
ghost use Rattle.ic_hash_table.specs.Slots.{IsWellFormed};
ghost use Rattle.ic_check.specs.Checked.{IsRepresented, RepresentsNone};
ghost use Rattle.ic_check.specs.HashTables.{IsPlacedIn, RepresentsOwn};

use crate::list::check;
use crate::placed::TellsPlaced;
use crate::tells::TellsLinks;
use ic_hash_table::{BucketRow, HashAdapter, HashTable};
use ic_link_ops::LinkOps;
use ic_link_ops::singly_linked_list::SinglyLinkedListOps;
use ic_singly_linked_list::SinglyLinkedList;
use ic_unsafe_ref::{Place, Values};

/// Returns whether the links hold a sequence of members for the hash table.
///
/// The check returns true exactly if each chain ends, no place occurs twice, and each member has an object whose hash leads to the member's chain. There must
/// also be as many members as the table has counted. The check requires nothing of the words of the links and of the buckets. O(b + n) for b buckets and n
/// members, and at most as many further steps as the links cover places. The check computes one hash for each member, makes no comparison, and takes no memory.
pub fn check_hash_table<
    A: HashAdapter,
    B: BucketRow,
    L: SinglyLinkedListOps + TellsLinks,
    O: TellsPlaced<A::Value>,
>(table: &HashTable<A, B>, links: &L, objects: &O) -> bool
    requires chains { HasChains B.fronts table.now }
    ensures { Decides result
        (HoldsSome L.successor (number A.key_of A.hash_of) B.fronts (L.table links.now) table.now (O.values objects.now)) }
{
    let count = table.buckets().count();
    let mut members: usize = 0;
    let mut at = 0;
    while at < count {
        let Some(more) = check_chain(table, links, objects, at) else {
            return false;
        };
        members += more;
        at += 1;
    }
    members == table.len()
}

// Returns the number of members of chain `at`. The result is `None` if the table represents no sequence for this chain, or if a member has no object, or an
// object that belongs in another chain.
fn check_chain<
    A: HashAdapter,
    B: BucketRow,
    L: SinglyLinkedListOps + TellsLinks,
    O: TellsPlaced<A::Value>,
>(table: &HashTable<A, B>, links: &L, objects: &O, at: usize) -> Option<usize>
    requires in_bounds { at < length (fronts_of B.fronts table.now) }
    requires well_formed { IsWellFormed (slots_of table.now) }
    ensures { MatchOption result
        (RepresentsNone (RepresentsOwn L.successor (number A.key_of A.hash_of) B.fronts (L.table links.now) table.now (O.values objects.now) at))
        (IsRepresented (RepresentsOwn L.successor (number A.key_of A.hash_of) B.fronts (L.table links.now) table.now (O.values objects.now) at)) }
{
    let front = table.buckets().front(at);
    let chain: SinglyLinkedList<A::Value> = SinglyLinkedList::from_front(front);
    let Some(members) = check(&chain, links) else {
        return None;
    };
    if are_own(table, links, objects, front, at) {
        Some(members)
    } else {
        None
    }
}

// Returns whether each member of a chain has an object that belongs in chain `at`.
fn are_own<A: HashAdapter, B, L: SinglyLinkedListOps, O: TellsPlaced<A::Value>>(
    table: &HashTable<A, B>,
    links: &L,
    objects: &O,
    front: Option<Place>,
    at: usize,
) -> bool
    requires shown { RepresentsFromSome L.successor (L.table links.now) front }
    requires well_formed { IsWellFormed (slots_of table.now) }
    ensures { (chain : List Place) → RepresentsFrom L.successor (L.table links.now) front chain
        → Decides result (AllByRecursion (IsPlacedIn (slots_of table.now) (number A.key_of A.hash_of (adapter_of table.now)) (O.values objects.now) at) chain) }
{
    let mut current = front;
    while let Some(member) = current {
        if !is_own(table, objects, member, at) {
            return false;
        }
        current = links.next(member);
    }
    true
}

// Returns whether the place has an object that belongs in chain `at`.
fn is_own<A: HashAdapter, B, O: TellsPlaced<A::Value>>(
    table: &HashTable<A, B>,
    objects: &O,
    place: Place,
    at: usize,
) -> bool
    requires well_formed { IsWellFormed (slots_of table.now) }
    ensures { Decides result
        (IsPlacedIn (slots_of table.now) (number A.key_of A.hash_of (adapter_of table.now)) (O.values objects.now) at place) }
{
    if !objects.tells_placed(place) {
        return false;
    }
    let adapter = table.adapter();
    let key = adapter.get_key(objects.value(place));
    table.slots().slot(adapter.hash(key)) == at
}
