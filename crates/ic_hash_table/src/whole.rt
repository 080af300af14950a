//! These calls are about all members of a hash table.
//!
//! ```text
//! table.retain(&mut links, &objects, |task| task.is_ready()); // each other member is unlinked
//! table.clear(&mut links); // and so is each that is left
//! ```

ghost use Rattle.std.specs.Prelude.{◌≡◌, ◌<◌, Bool, None, List, [], length, slice_index_or, slice_set};
ghost use Rattle.ic_link_ops.specs.Prelude.{Place, ChangesOnlyIn, releases_each};
ghost use Rattle.ic_hash_table.specs.Chains.{RepresentsFrom, RepresentsFromSome};

use crate::{BucketsFor, HashAdapter, HashTable};
use ic_link_ops::LinkOps;
use ic_link_ops::singly_linked_list::SinglyLinkedListOps;
use ic_singly_linked_list::SinglyLinkedList;
use ic_unsafe_ref::{UnsafeRef, Values};

// Unlinks the members of chain `at`, and empties its bucket.
fn clear_chain<L: SinglyLinkedListOps, B: BucketsFor<L>>(buckets: &mut B, links: &mut L, at: usize)
    requires in_bounds { at < length (B.fronts buckets.old) }
    requires shown { RepresentsFromSome L.successor (L.table links.old) (slice_index_or (B.fronts buckets.old) at None) }
    ensures empty { B.fronts buckets.new ≡ slice_set (B.fronts buckets.old) at None }
    ensures rewrites { B.Rewrites buckets.old buckets.new }
    ensures released { (chain : List Place) → RepresentsFrom L.successor (L.table links.old) (slice_index_or (B.fronts buckets.old) at None) chain
        → L.Trace links.old links.new (releases_each chain) }
    ensures frame { (chain : List Place) → RepresentsFrom L.successor (L.table links.old) (slice_index_or (B.fronts buckets.old) at None) chain
        → ChangesOnlyIn (L.table links.old) (L.table links.new) chain }
{
    let mut chain: SinglyLinkedList<()> = SinglyLinkedList::from_front(buckets.front(at));
    chain.clear(links);
    buckets.set_front(at, None);
}

impl<A, B> HashTable<A, B> {
    ghost use Rattle.ic_hash_table.specs.HashTable.{IsNew, IsRepresented, ChangesOnlyInMembers};

    /// Removes all members: each member is unlinked, and the table is empty afterwards.
    ///
    /// It requires that the links represent the table's chains. It reads no objects, so the keys of members may have changed. It takes one step for each member
    /// and each bucket, compares no keys, and takes no memory. O(n) in the members and the buckets.
    pub fn clear<L: SinglyLinkedListOps>(&mut self, links: &mut L)
    where
        B: BucketsFor<L>,
        requires shown { (s : List Place) × IsRepresented L.successor B.fronts (L.table links.old) self.old s }
        ensures empty { IsNew B.fronts self.new }
        ensures released { (s : List Place) → IsRepresented L.successor B.fronts (L.table links.old) self.old s
            → L.Trace links.old links.new (releases_each s) }
        ensures kept { ChangesOnlyInMembers L.successor B.fronts B.Rewrites (L.table links.old) (L.table links.new) self.old self.new [] }
    {
        let count = self.buckets.count();
        let mut at = 0;
        while at < count {
            clear_chain(&mut self.buckets, links, at);
            at += 1;
        }
        self.len = 0;
    }
}

impl<A: HashAdapter, B> HashTable<A, B> {
    ghost use Rattle.std.specs.Fn.{CalledAt};
    ghost use Rattle.ic_hash_table.specs.HashTable.{number, Holds, HoldsSome, ChangesOnlyInMembers};
    ghost use Rattle.ic_hash_table.specs.Retained.{AreAnswers, passing, failing};

    /// Removes each member whose object fails the test `keeps`. The other members stay, in their order.
    ///
    /// It requires that `objects` has every member, with the key that the member was inserted by. The test is called once for each member, from the first
    /// on. Removed members are unlinked, and their objects stay where they are. The call takes one step for each member and each bucket, and a walk along
    /// the chain of each member that is removed. It compares no keys, and takes no memory. O(n) in the members and the buckets.
    pub fn retain<L: SinglyLinkedListOps, O: Values<A::Value>, F: FnMut(&A::Value) -> bool>(
        &mut self,
        links: &mut L,
        objects: &O,
        mut keeps: F,
    )
    where
        B: BucketsFor<L>,
        requires held { HoldsSome L.successor (number A.key_of A.hash_of) B.fronts (L.table links.old) self.old (O.values objects.now) }
        requires callable { F.IsAlwaysCallable keeps }
        ensures asked { (s : List Place) → Holds L.successor (number A.key_of A.hash_of) B.fronts (L.table links.old) self.old (O.values objects.now) s
            → (answers : List Bool) × (last : F) × AreAnswers (CalledAt F.FnMut) (O.values objects.now) keeps s answers last
            × Holds L.successor (number A.key_of A.hash_of) B.fronts (L.table links.new) self.new (O.values objects.now) (passing answers s)
            × L.Trace links.old links.new (releases_each (failing answers s)) }
        ensures kept { ChangesOnlyInMembers L.successor B.fronts B.Rewrites (L.table links.old) (L.table links.new) self.old self.new [] }
    {
        self.retain_by(links, objects, &mut keeps);
    }

    // Does what `retain` does, with a borrowed test, so that the caller sees the state of the test after the last call.
    fn retain_by<L: SinglyLinkedListOps, O: Values<A::Value>, F: FnMut(&A::Value) -> bool>(
        &mut self,
        links: &mut L,
        objects: &O,
        keeps: &mut F,
    )
    where
        B: BucketsFor<L>,
        requires held { HoldsSome L.successor (number A.key_of A.hash_of) B.fronts (L.table links.old) self.old (O.values objects.now) }
        requires callable { F.IsAlwaysCallable keeps.old }
        ensures asked { (s : List Place) → Holds L.successor (number A.key_of A.hash_of) B.fronts (L.table links.old) self.old (O.values objects.now) s
            → (answers : List Bool) × AreAnswers (CalledAt F.FnMut) (O.values objects.now) keeps.old s answers keeps.new
            × Holds L.successor (number A.key_of A.hash_of) B.fronts (L.table links.new) self.new (O.values objects.now) (passing answers s)
            × L.Trace links.old links.new (releases_each (failing answers s)) }
        ensures kept { ChangesOnlyInMembers L.successor B.fronts B.Rewrites (L.table links.old) (L.table links.new) self.old self.new [] }
    {
        let mut at = self.next(&*links, objects, None);
        while let Some(place) = at {
            at = self.next(&*links, objects, at);
            if !keeps(objects.value(place)) {
                self.remove(links, objects, &UnsafeRef::new(place));
            }
        }
    }
}
