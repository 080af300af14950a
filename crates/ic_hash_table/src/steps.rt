//! A step leads from one member of a hash table to the next, through all chains.
//!
//! ```text
//! let mut at = table.next(&links, &objects, None); // the first member
//! while let Some(member) = at {
//!     at = table.next(&links, &objects, Some(member));
//! }
//! ```

ghost use Rattle.std.specs.Prelude.{◌≡◌, ◌≤◌, List, Some, Option, drop};
ghost use Rattle.std.specs.Bool.{⊤};
ghost use Rattle.ic_link_ops.specs.Prelude.{Place, Cut, join, first, IsAfter, IsBefore};
ghost use Rattle.ic_hash_table.specs.Chains.{AreChained};
ghost use Rattle.ic_hash_table.specs.HashTable.{number};

use crate::{BucketRow, HashAdapter, HashTable};
use ic_link_ops::LinkOps;
use ic_link_ops::singly_linked_list::SinglyLinkedListOps;
use ic_unsafe_ref::{Place, Values};

// The first member of the first chain that is not empty, among the chains from number `from` on.
fn first_from<L: SinglyLinkedListOps, B: BucketRow>(
    links: &L,
    buckets: &B,
    from: usize,
) -> Option<Place>
    ensures { (s : List Place) → AreChained L.successor (λ i p. ⊤) (L.table links.now) from (drop from (B.fronts buckets.now)) s
        → result ≡ first s }
{
    let count = buckets.count();
    let mut at = from;
    while at < count {
        let front = buckets.front(at);
        if front.is_some() {
            return front;
        }
        at += 1;
    }
    None
}

impl<A: HashAdapter, B: BucketRow> HashTable<A, B> {
    ghost use Rattle.ic_hash_table.specs.HashTable.{Holds};

    /// Returns the member after `at`, through all chains, or the first member of all if `at` is `None`. Returns `None` if no member follows.
    ///
    /// It requires that `at` is a member or `None`, and that `objects` has every member, with the key that the member was inserted by. A walk over all members
    /// takes one step for each member and each bucket, and compares no keys.
    pub fn next<L: SinglyLinkedListOps, O: Values<A::Value>>(
        &self,
        links: &L,
        objects: &O,
        at: Option<Place>,
    ) -> Option<Place>
        requires stands { (gap : Cut) × Holds L.successor (number A.key_of A.hash_of) B.fronts (L.table links.now) self.now (O.values objects.now) (join gap)
            × IsAfter gap at }
        ensures { (gap : Cut) → Holds L.successor (number A.key_of A.hash_of) B.fronts (L.table links.now) self.now (O.values objects.now) (join gap)
            → IsAfter gap at → IsBefore gap result }
    {
        let Some(place) = at else {
            return first_from(links, &self.buckets, 0);
        };
        let after = links.next(place);
        if after.is_some() {
            return after;
        }
        let chain = self.slot_of_object(objects, place);
        first_from(links, &self.buckets, chain + 1)
    }
}
