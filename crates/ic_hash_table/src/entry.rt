//! One search for a key finds the first member with the key, or the chain where an object with the key belongs.
//!
//! ```text
//! match table.entry(&mut links, &objects, &7) {
//!     Entry::Occupied(found) => tasks_done.push(found.remove(&objects))?,
//!     Entry::Vacant(chain) => chain.insert(&objects, task)?, // no second search
//! }
//! let found = table.entry(&mut links, &objects, &7).or_insert(&objects, task)?; // the member that has the key, or the task
//! ```

ghost use Rattle.std.specs.Prelude.{◌≡◌, ◌∷◌, ◌++◌, [], List, Some, None, Ok, true, OnOk, OnErr, IfErr};
ghost use Rattle.ic_link_ops.specs.Prelude.{Place, is_placed, IsCovered, acquires, releases};
ghost use Rattle.ic_hash_table.specs.Entry.{IfOccupied, IfVacant, member_of, CanRemove, CanInsert, IsChainFor, IsFoundIn, IsVacantIn, EntersAt};
ghost use Rattle.ic_hash_table.specs.HashTable.{adapter_of, number, Holds, HoldsSome, HoldsWith, ChangesOnlyInMembers};
ghost use Rattle.ic_hash_table.specs.Searches.{has_key, Finds};

use crate::{BucketRow, BucketsFor, HashAdapter, HashTable};
use ic_link_ops::singly_linked_list::SinglyLinkedListOps;
use ic_link_ops::{AlreadyLinked, LinkOps, PlaceWord};
use ic_unsafe_ref::{UnsafeRef, Values};

/// The first member with a key, together with its hash table and the table of links.
pub struct OccupiedEntry<'a, A, B, L> {
    table: &'a mut HashTable<A, B>,
    links: &'a mut L,
    at: usize,
    before: PlaceWord,
    member: UnsafeRef<()>,
}

impl<A, B, L> Drop for OccupiedEntry<'_, A, B, L> {
    fn drop(self)
        ensures table { self.exit.0.now ≡ self.entry.table.now }
        ensures links { self.exit.1.0.now ≡ self.entry.links.now }
    {
        let OccupiedEntry {
            table: _,
            links: _,
            at: _,
            before: _,
            member: _,
        } = self;
    }
}

/// The chain where objects with the searched key belong, if no member has this key, with the hash table and the table of links.
pub struct VacantEntry<'a, A, B, L> {
    table: &'a mut HashTable<A, B>,
    links: &'a mut L,
    at: usize,
}

impl<A, B, L> Drop for VacantEntry<'_, A, B, L> {
    fn drop(self)
        ensures table { self.exit.0.now ≡ self.entry.table.now }
        ensures links { self.exit.1.0.now ≡ self.entry.links.now }
    {
        let VacantEntry {
            table: _,
            links: _,
            at: _,
        } = self;
    }
}

/// The error of an insert that was refused because the object is linked already. It has the unchanged entry, and the object.
#[derive(Drop)]
pub struct RefusedInsert<'a, A: HashAdapter, B, L> {
    /// The vacant entry of the refused insert, whose hash table is unchanged.
    pub entry: VacantEntry<'a, A, B, L>,
    /// The object whose insert was refused.
    pub object: UnsafeRef<A::Value>,
}

/// The result of a search by [`entry`](HashTable::entry).
#[derive(Drop)]
pub enum Entry<'a, A, B, L> {
    /// A member has the searched key.
    Occupied(OccupiedEntry<'a, A, B, L>),
    /// No member has the searched key.
    Vacant(VacantEntry<'a, A, B, L>),
}

impl<A: HashAdapter, B: BucketRow> HashTable<A, B> {
    /// Finds the first member with `key`, or the chain where an object with `key` belongs.
    ///
    /// It requires that `objects` has every member, with the key that the member was inserted by. It makes as many key comparisons as
    /// [`find`](HashTable::find), and takes no memory. O(length of the chain).
    #[inline]
    pub fn entry<'a, L: SinglyLinkedListOps, O: Values<A::Value>>(
        &'a mut self,
        links: &'a mut L,
        objects: &O,
        key: &A::Key,
    ) -> Entry<'a, A, B, L>
        requires held { HoldsSome L.successor (number A.key_of A.hash_of) B.fronts (L.table links.old) self.old (O.values objects.now) }
        ensures occupied { (s : List Place) → Holds L.successor (number A.key_of A.hash_of) B.fronts (L.table links.old) self.old (O.values objects.now) s
            → IfOccupied result (λ e. Finds (has_key A.Key.eq (A.key_of (adapter_of self.old)) key.now (O.values objects.now)) s (Some (member_of e))) }
        ensures vacant { (s : List Place) → Holds L.successor (number A.key_of A.hash_of) B.fronts (L.table links.old) self.old (O.values objects.now) s
            → IfVacant result (λ e. Finds (has_key A.Key.eq (A.key_of (adapter_of self.old)) key.now (O.values objects.now)) s None) }
        ensures can_remove { IfOccupied result (CanRemove L.successor L.table B.fronts) }
        ensures belongs { IfVacant result (IsChainFor (A.hash_of (adapter_of self.old) key.now)) }
        ensures occupied_borrows { IfOccupied result (IsFoundIn self.entry links.entry) }
        ensures vacant_borrows { IfVacant result (IsVacantIn self.entry links.entry) }
    {
        let (at, before, found) = self.search(&*links, objects, key);
        match found {
            Some(place) => Entry::Occupied(OccupiedEntry {
                table: self,
                links,
                at,
                before: PlaceWord::of(before),
                member: UnsafeRef::new(place),
            }),
            None => Entry::Vacant(VacantEntry {
                table: self,
                links,
                at,
            }),
        }
    }
}

impl<A: HashAdapter, B: BucketsFor<L>, L: SinglyLinkedListOps> OccupiedEntry<'_, A, B, L> {
    /// The member that has the searched key. O(1).
    #[inline]
    pub fn get(&self) -> UnsafeRef<A::Value>
        ensures { result ≡ member_of self.now }
    {
        UnsafeRef::new(self.member.place())
    }

    /// Removes the member of this entry and returns it. O(1): it computes no hash, compares no keys, and takes no memory.
    ///
    /// It requires that `objects` has every member, with the key that the member was inserted by. It also requires that [`entry`](HashTable::entry) or an
    /// insert has returned this entry.
    #[inline]
    pub fn remove<O: Values<A::Value>>(self, objects: &O) -> UnsafeRef<A::Value>
        requires held { HoldsSome L.successor (number A.key_of A.hash_of) B.fronts (L.table self.links.now) self.table.now (O.values objects.now) }
        requires found { CanRemove L.successor L.table B.fronts self }
        ensures member { result ≡ member_of self.entry }
        ensures removed { (front back : List Place)
            → Holds L.successor (number A.key_of A.hash_of) B.fronts (L.table self.entry.links.now) self.entry.table.now (O.values objects.now) (front ++ result ∷ back)
            → Holds L.successor (number A.key_of A.hash_of) B.fronts (L.table self.exit.1.0.now) self.exit.0.now (O.values objects.now) (front ++ back) }
        ensures released { L.Trace self.entry.links.now self.exit.1.0.now (releases result ∷ []) }
        ensures kept { ChangesOnlyInMembers L.successor B.fronts B.Rewrites (L.table self.entry.links.now) (L.table self.exit.1.0.now) self.entry.table.now self.exit.0.now [] }
    {
        let OccupiedEntry {
            table,
            links,
            at,
            before,
            member,
        } = self;
        let place = member.place();
        table.remove_at(links, at, before.get(), place);
        UnsafeRef::new(place)
    }
}

impl<'a, A: HashAdapter, B: BucketsFor<L>, L: SinglyLinkedListOps> VacantEntry<'a, A, B, L> {
    /// Inserts the object, unless its link is refused. O(1): it computes no hash, compares no keys, and takes no memory.
    ///
    /// It requires that `objects` has the object, that the table of links covers its place, and that the object belongs in the entry's chain. An object
    /// whose key equals the searched key belongs there. If the link is refused, the call returns the object, and the table is unchanged.
    #[inline]
    pub fn insert<O: Values<A::Value>>(
        self,
        objects: &O,
        object: UnsafeRef<A::Value>,
    ) -> Result<(), AlreadyLinked<A::Value>>
        requires covered { IsCovered (L.table self.links.now) object }
        requires placed { is_placed (O.values objects.now) object ≡ true }
        requires held { HoldsSome L.successor (number A.key_of A.hash_of) B.fronts (L.table self.links.now) self.table.now (O.values objects.now) }
        requires belongs { CanInsert (number A.key_of A.hash_of) (O.values objects.now) self object }
        ensures inserted { (s : List Place)
            → Holds L.successor (number A.key_of A.hash_of) B.fronts (L.table self.entry.links.now) self.entry.table.now (O.values objects.now) s
            → OnOk result (HoldsWith L.successor (number A.key_of A.hash_of) B.fronts (L.table self.exit.1.0.now) self.exit.0.now (O.values objects.now) s object) }
        ensures acquired { OnOk result (L.Trace self.entry.links.now self.exit.1.0.now (acquires object ∷ [])) }
        ensures refused { OnErr result (L.Refused self.entry.links.now self.exit.1.0.now object) }
        ensures unchanged { IfErr result (λ refused. (refused.0 ≡ object) × (self.exit.0.now ≡ self.entry.table.now)) }
        ensures kept { ChangesOnlyInMembers L.successor B.fronts B.Rewrites (L.table self.entry.links.now) (L.table self.exit.1.0.now) self.entry.table.now self.exit.0.now (object ∷ []) }
    {
        let VacantEntry { table, links, at } = self;
        let front = table.buckets.front(at);
        table.insert_at(links, at, (None, front), object)
    }
    /// Inserts the object as [`insert`](VacantEntry::insert) does, and returns the occupied entry of the new member. O(1).
    ///
    /// It requires what `insert` requires. If the link is refused, the call returns the object and this entry, and the table is unchanged.
    #[inline]
    pub fn insert_entry<O: Values<A::Value>>(
        self,
        objects: &O,
        object: UnsafeRef<A::Value>,
    ) -> Result<OccupiedEntry<'a, A, B, L>, RefusedInsert<'a, A, B, L>>
        requires covered { IsCovered (L.table self.links.now) object }
        requires placed { is_placed (O.values objects.now) object ≡ true }
        requires held { HoldsSome L.successor (number A.key_of A.hash_of) B.fronts (L.table self.links.now) self.table.now (O.values objects.now) }
        requires belongs { CanInsert (number A.key_of A.hash_of) (O.values objects.now) self object }
        ensures entered { EntersAt L.successor L.table B.fronts B.Rewrites (number A.key_of A.hash_of) L.Trace L.Refused (O.values objects.now) self.entry object result }
    {
        let VacantEntry { table, links, at } = self;
        let front = table.buckets.front(at);
        let place = object.place();
        if let Err(refused) = table.insert_at(links, at, (None, front), object) {
            let entry = VacantEntry { table, links, at };
            let object = refused.into_object();
            return Err(RefusedInsert { entry, object });
        }
        Ok(OccupiedEntry {
            table,
            links,
            at,
            before: PlaceWord::of(None),
            member: UnsafeRef::new(place),
        })
    }
}

impl<'a, A: HashAdapter, B: BucketsFor<L>, L: SinglyLinkedListOps> Entry<'a, A, B, L> {
    /// Returns the occupied entry of the member that has the key. If no member has the key, it inserts the object and returns the object's entry.
    ///
    /// For a vacant entry it requires what [`VacantEntry::insert`] requires. If the link is refused, the call returns the object and the vacant entry, and
    /// the table is unchanged. If the entry is occupied, nothing changes. O(length of the chain).
    #[inline]
    pub fn or_insert<O: Values<A::Value>>(
        self,
        objects: &O,
        object: UnsafeRef<A::Value>,
    ) -> Result<OccupiedEntry<'a, A, B, L>, RefusedInsert<'a, A, B, L>>
        requires covered { IfVacant self (λ v. IsCovered (L.table v.links.now) object) }
        requires placed { is_placed (O.values objects.now) object ≡ true }
        requires held { IfVacant self (λ v. HoldsSome L.successor (number A.key_of A.hash_of) B.fronts (L.table v.links.now) v.table.now (O.values objects.now)) }
        requires belongs { IfVacant self (λ v. CanInsert (number A.key_of A.hash_of) (O.values objects.now) v object) }
        ensures occupied { IfOccupied self.entry (λ e. result ≡ Ok e) }
        ensures vacant { IfVacant self.entry (λ v. EntersAt L.successor L.table B.fronts B.Rewrites (number A.key_of A.hash_of) L.Trace L.Refused (O.values objects.now) v object result) }
    {
        match self {
            Entry::Occupied(found) => Ok(found),
            Entry::Vacant(chain) => chain.insert_entry(objects, object),
        }
    }
}
