//! This file has the hash table, with its inserts, searches and removals.
//!
//! ```text
//! table.insert(&mut links, &objects, object)?;
//! let found = table.find(&links, &objects, &7);
//! ```

ghost use Rattle.std.specs.Prelude.{◌≡◌, ◌<◌, ◌≤◌, ◌↔◌, ◌++◌, ◌∷◌, [], List, Some, None, length, true, IsTrue, OnOk, OnErr, IfOk, IfErr, IfSome, IfNone};
ghost use Rattle.std.specs.Bool.{OnTrue, OnFalse};
ghost use Rattle.std.specs.List.{AllByRecursion};
ghost use Rattle.ic_link_ops.specs.Prelude.{Place, Objects, object_at, is_placed, Cut, join, insert, IsAbsent, IsAfter, IsBefore, IsMember, last, IsCovered, RepresentsPlaced, acquires, releases};
ghost use Rattle.ic_link_ops.specs.SinglyLinkedList.{list_from, Represents};
ghost use Rattle.ic_hash_table.specs.Slots.{slot_of};
ghost use Rattle.ic_hash_table.specs.Searches.{found_of, matches, has_key, Finds, StopsAt, HasRoom, Looks};
ghost use Rattle.ic_hash_table.specs.Chains.{RepresentsFrom};

use crate::chain_edits::unlink_after;
use crate::chain_search::{find_in_chain, find_place_in_chain};
use crate::{BucketRow, BucketsFor, HashAdapter, KeyProbe, Probe, Slots};
use ic_link_ops::singly_linked_list::SinglyLinkedListOps;
use ic_link_ops::{AlreadyLinked, LinkOps};
use ic_singly_linked_list::SinglyLinkedList;
use ic_unsafe_ref::{Place, UnsafeRef, Values};

/// An intrusive hash table: the adapter, the buckets with the first member of each chain, and how many members there are.
///
/// A table of links says which members a hash table has. In contracts the members are one sequence, and each has an object with the key that it was
/// inserted by. Never change the key of a member: remove the object, change it, and insert it again.
#[derive(Drop)]
pub struct HashTable<A, B> {
    pub(crate) adapter: A,
    pub(crate) buckets: B,
    pub(crate) slots: Slots,
    pub(crate) len: usize,
}

impl<A, B> HashTable<A, B> {
    ghost use Rattle.ic_hash_table.specs.HashTable.{buckets_of, len_of, slots_of};

    /// A reference to the buckets of the table, which store the first member of each chain. O(1).
    #[inline]
    pub fn buckets(&self) -> &B
        ensures { result.now ≡ buckets_of self.now }
    {
        &self.buckets
    }

    /// The number of members of the table. O(1).
    #[inline]
    pub fn len(&self) -> usize
        ensures { result ≡ len_of self.now }
    {
        self.len
    }

    /// The number of chains that are in use. O(1).
    #[inline]
    pub fn chains(&self) -> usize
        ensures { result ≡ (slots_of self.now).used }
    {
        self.slots.used()
    }

    /// The slots of the table: `table.slots().slot(hash)` is the number of the chain where `hash` belongs. O(1).
    #[inline]
    pub fn slots(&self) -> Slots
        ensures { result ≡ slots_of self.now }
    {
        self.slots
    }

    /// Whether the table has no member. O(1).
    #[inline]
    pub fn is_empty(&self) -> bool
        ensures { IsTrue result ↔ (len_of self.now ≡ 0) }
    {
        self.len == 0
    }
}

impl<A: Copy, B> HashTable<A, B> {
    ghost use Rattle.ic_hash_table.specs.HashTable.{adapter_of};

    /// The adapter with which the table was made. O(1).
    #[inline]
    pub fn adapter(&self) -> A
        ensures { result ≡ adapter_of self.now }
    {
        self.adapter
    }
}

impl<A: HashAdapter, B: BucketRow> HashTable<A, B> {
    ghost use Rattle.ic_hash_table.specs.HashTable.{adapter_of, buckets_of, len_of, slots_of, fronts_of, front_at, number, HasChains, Holds, HoldsSome, IsNew};
    ghost use Rattle.ic_hash_table.specs.Slots.{IsWellFormed};
    ghost use Rattle.ic_hash_table.specs.declared.slots.Slots.{Slots};

    /// Makes a table with no member over these buckets, all of which are in use. With every table of links, the new table holds the empty sequence.
    ///
    /// It requires that the buckets are empty, and that there are 1 to 4,294,967,296 of them. O(log n) for n buckets. It takes no memory.
    pub fn new(adapter: A, buckets: B) -> HashTable<A, B>
        requires some { 1 ≤ length (B.fronts buckets) }
        requires few { length (B.fronts buckets) ≤ 4294967296 }
        requires empty { AllByRecursion (λ front. front ≡ None) (B.fronts buckets) }
        ensures adapter { adapter_of result ≡ adapter }
        ensures empty { IsNew B.fronts result }
        ensures used { (slots_of result).used ≡ length (B.fronts buckets) }
        ensures buckets { buckets_of result ≡ buckets }
    {
        let used = buckets.count();
        HashTable::with_used(adapter, buckets, used)
    }

    /// Makes a table with no member that uses the first `used` of these buckets. [`grow_one`](HashTable::grow_one) takes one more bucket into use.
    ///
    /// It requires what [`new`](HashTable::new) requires, and that there are at least `used` buckets. O(log n) for n buckets.
    pub fn with_used(adapter: A, buckets: B, used: usize) -> HashTable<A, B>
        requires some { 1 ≤ used }
        requires in_bounds { used ≤ length (B.fronts buckets) }
        requires few { used ≤ 4294967296 }
        requires empty { AllByRecursion (λ front. front ≡ None) (B.fronts buckets) }
        ensures adapter { adapter_of result ≡ adapter }
        ensures empty { IsNew B.fronts result }
        ensures used { (slots_of result).used ≡ used }
        ensures buckets { buckets_of result ≡ buckets }
    {
        HashTable {
            adapter,
            buckets,
            slots: Slots::all(used),
            len: 0,
        }
    }

    /// Makes a table from the buckets of an earlier table, which may have members. `used` is how many chains were in use, and `len` is how many members
    /// there were.
    ///
    /// It requires what [`with_used`](HashTable::with_used) requires, except that the buckets need not be empty. It reads no link. If all arguments come from
    /// an earlier table, the new table holds the members that the earlier table held. O(log n) for n chains. It takes no memory.
    pub fn from_buckets(adapter: A, buckets: B, used: usize, len: usize) -> HashTable<A, B>
        requires some { 1 ≤ used }
        requires in_bounds { used ≤ length (B.fronts buckets) }
        requires few { used ≤ 4294967296 }
        ensures adapter { adapter_of result ≡ adapter }
        ensures fronts { fronts_of B.fronts result ≡ B.fronts buckets }
        ensures buckets { buckets_of result ≡ buckets }
        ensures len { len_of result ≡ len }
        ensures used { (slots_of result).used ≡ used }
        ensures chains { HasChains B.fronts result }
        ensures slots { (slots : Slots) → IsWellFormed slots → slots.used ≡ used → slots_of result ≡ slots }
    {
        HashTable {
            adapter,
            buckets,
            slots: Slots::all(used),
            len,
        }
    }

    /// Returns the buckets of the table, with the first members that they have. [`from_buckets`](HashTable::from_buckets) makes the same table from the
    /// buckets again. O(1).
    pub fn into_buckets(self) -> B
        ensures { result ≡ buckets_of self }
    {
        let HashTable {
            adapter: _,
            buckets,
            slots: _,
            len: _,
        } = self;
        buckets
    }

    /// Returns chain `at` as a list, whose `iter` walks over the chain. It requires that the chain is in use, and that `objects` has every member. O(1).
    #[inline]
    pub fn chain<L: SinglyLinkedListOps, O: Values<A::Value>>(
        &self,
        links: &L,
        objects: &O,
        at: usize,
    ) -> SinglyLinkedList<A::Value>
        requires held { HoldsSome L.successor (number A.key_of A.hash_of) B.fronts (L.table links.now) self.now (O.values objects.now) }
        requires in_bounds { at < (slots_of self.now).used }
        ensures front { result ≡ list_from (front_at B.fronts self.now at) }
        ensures placed { RepresentsPlaced (Represents L.successor (L.table links.now) result) (O.values objects.now) }
    {
        let first = self.buckets.front(at);
        SinglyLinkedList::from_front(first)
    }

    /// The first member that equals the searched key, or `None` if no member does.
    ///
    /// It requires that each value which equals the searched key has the hash of the key, and that the probe can count all comparisons. It makes at most
    /// as many comparisons as the chain of the hash has members. It takes no memory. O(length of the chain).
    #[inline]
    pub fn find_by<L: SinglyLinkedListOps, P: Probe<A::Value>, O: Values<A::Value>>(
        &self,
        links: &L,
        objects: &O,
        probe: &mut P,
    ) -> Option<UnsafeRef<A::Value>>
        requires held { HoldsSome L.successor (number A.key_of A.hash_of) B.fronts (L.table links.now) self.now (O.values objects.now) }
        requires alike { (value : A.Value) → P.equal probe.old value ≡ true
            → number A.key_of A.hash_of (adapter_of self.now) value ≡ P.hash probe.old }
        requires room { HasRoom (P.count probe.old) }
        ensures found { (s : List Place) → Holds L.successor (number A.key_of A.hash_of) B.fronts (L.table links.now) self.now (O.values objects.now) s
            → Finds (matches (P.equal probe.old) (O.values objects.now)) s result }
        ensures looks { (chain : List Place)
            → RepresentsFrom L.successor (L.table links.now) (front_at B.fronts self.now (slot_of (slots_of self.now) (P.hash probe.old))) chain
            → Looks P.equal P.count probe.old probe.new chain }
        ensures hash { P.hash probe.new ≡ P.hash probe.old }
    {
        let at = self.slots.slot(probe.hash());
        let (_, found) = find_in_chain(links, objects, probe, self.buckets.front(at));
        match found {
            Some(place) => Some(UnsafeRef::new(place)),
            None => None,
        }
    }

    /// The first member with `key`, or `None` if no member has `key`. It calls `find_by` with a `KeyProbe`.
    ///
    /// It compares the key with one member of a chain after another, up to the member that it finds. O(length of the chain).
    #[inline]
    pub fn find<L: SinglyLinkedListOps, O: Values<A::Value>>(
        &self,
        links: &L,
        objects: &O,
        key: &A::Key,
    ) -> Option<UnsafeRef<A::Value>>
        requires held { HoldsSome L.successor (number A.key_of A.hash_of) B.fronts (L.table links.now) self.now (O.values objects.now) }
        ensures found { (s : List Place) → Holds L.successor (number A.key_of A.hash_of) B.fronts (L.table links.now) self.now (O.values objects.now) s
            → Finds (has_key A.Key.eq (A.key_of (adapter_of self.now)) key.now (O.values objects.now)) s result }
    {
        self.find_by(links, objects, &mut KeyProbe::new(self.adapter, key))
    }
}

impl<A: HashAdapter, B> HashTable<A, B> {
    ghost use Rattle.ic_hash_table.specs.HashTable.{adapter_of, slots_of, number, Holds, HoldsSome, HoldsWith, ChangesOnlyInMembers};

    /// Inserts the object, unless its link is refused. O(1): it computes one hash, compares no keys, and takes no memory.
    ///
    /// It requires that `objects` has the object, and that the table of links covers its place. If the link is refused, the call returns the object, and
    /// the table is unchanged. A plain table of links refuses exactly those objects that it has linked already. Members with an equal key stay in the
    /// table.
    #[inline]
    pub fn insert<L: SinglyLinkedListOps, O: Values<A::Value>>(
        &mut self,
        links: &mut L,
        objects: &O,
        object: UnsafeRef<A::Value>,
    ) -> Result<(), AlreadyLinked<A::Value>>
    where
        B: BucketsFor<L>,
        requires covered { IsCovered (L.table links.old) object }
        requires placed { is_placed (O.values objects.now) object ≡ true }
        requires held { HoldsSome L.successor (number A.key_of A.hash_of) B.fronts (L.table links.old) self.old (O.values objects.now) }
        ensures inserted { (s : List Place) → Holds L.successor (number A.key_of A.hash_of) B.fronts (L.table links.old) self.old (O.values objects.now) s
            → OnOk result (HoldsWith L.successor (number A.key_of A.hash_of) B.fronts (L.table links.new) self.new (O.values objects.now) s object) }
        ensures acquired { OnOk result (L.Trace links.old links.new (acquires object ∷ [])) }
        ensures refused { OnErr result (L.Refused links.old links.new object) }
        ensures unchanged { IfErr result (λ refused. (refused.0 ≡ object) × (self.new ≡ self.old)) }
        ensures kept { ChangesOnlyInMembers L.successor B.fronts B.Rewrites (L.table links.old) (L.table links.new) self.old self.new (object ∷ []) }
    {
        let at = self.slot_of_object(objects, object.place());
        let front = self.buckets.front(at);
        self.insert_at(links, at, (None, front), object)
    }

    /// Removes the object, and returns whether it was a member. If it was not a member, nothing has changed.
    ///
    /// It requires that `objects` has the object, with the key that it was inserted by. The call computes one hash, walks along the object's chain without
    /// comparing keys, and takes no memory. O(length of the chain).
    pub fn remove<L: SinglyLinkedListOps, O: Values<A::Value>>(
        &mut self,
        links: &mut L,
        objects: &O,
        object: &UnsafeRef<A::Value>,
    ) -> bool
    where
        B: BucketsFor<L>,
        requires placed { is_placed (O.values objects.now) object.now ≡ true }
        requires held { HoldsSome L.successor (number A.key_of A.hash_of) B.fronts (L.table links.old) self.old (O.values objects.now) }
        ensures answer { (s : List Place) → Holds L.successor (number A.key_of A.hash_of) B.fronts (L.table links.old) self.old (O.values objects.now) s
            → IsTrue result ↔ IsMember object.now s }
        ensures removed { (front back : List Place)
            → Holds L.successor (number A.key_of A.hash_of) B.fronts (L.table links.old) self.old (O.values objects.now) (front ++ object.now ∷ back)
            → Holds L.successor (number A.key_of A.hash_of) B.fronts (L.table links.new) self.new (O.values objects.now) (front ++ back) }
        ensures released { OnTrue result (L.Trace links.old links.new (releases object.now ∷ [])) }
        ensures nothing { OnFalse result ((self.new ≡ self.old) × (links.new ≡ links.old)) }
        ensures kept { ChangesOnlyInMembers L.successor B.fronts B.Rewrites (L.table links.old) (L.table links.new) self.old self.new [] }
    {
        let Some((at, before)) = self.locate(&*links, objects, object.place()) else {
            return false;
        };
        self.remove_at(links, at, before, object.place());
        true
    }

    /// Inserts the object, unless a member has an equal key or its link is refused.
    ///
    /// If a member has an equal key, the call returns `Some` of the first such member, and changes nothing. If no member has an equal key, it does what
    /// [`insert`](HashTable::insert) does, and returns `None`. A link is refused only if no member has an equal key. The call makes as many key
    /// comparisons as `find`, and takes no memory. O(length of the chain).
    #[inline]
    pub fn insert_unique<L: SinglyLinkedListOps, O: Values<A::Value>>(
        &mut self,
        links: &mut L,
        objects: &O,
        object: UnsafeRef<A::Value>,
    ) -> Result<Option<UnsafeRef<A::Value>>, AlreadyLinked<A::Value>>
    where
        B: BucketsFor<L>,
        requires covered { IsCovered (L.table links.old) object }
        requires placed { is_placed (O.values objects.now) object ≡ true }
        requires held { HoldsSome L.successor (number A.key_of A.hash_of) B.fronts (L.table links.old) self.old (O.values objects.now) }
        ensures found { (value : A.Value) → object_at (O.values objects.now) object ≡ Some value
            → (s : List Place) → Holds L.successor (number A.key_of A.hash_of) B.fronts (L.table links.old) self.old (O.values objects.now) s
            → Finds (has_key A.Key.eq (A.key_of (adapter_of self.old)) (A.key_of (adapter_of self.old) value) (O.values objects.now)) s (found_of result) }
        ensures same { IfOk result (λ found. IfSome found (λ member. (self.new ≡ self.old) × (links.new ≡ links.old))) }
        ensures inserted { (s : List Place) → Holds L.successor (number A.key_of A.hash_of) B.fronts (L.table links.old) self.old (O.values objects.now) s
            → IfOk result (λ found. IfNone found (HoldsWith L.successor (number A.key_of A.hash_of) B.fronts (L.table links.new) self.new (O.values objects.now) s object)) }
        ensures acquired { IfOk result (λ found. IfNone found (L.Trace links.old links.new (acquires object ∷ []))) }
        ensures refused { IfErr result (λ refused. (refused.0 ≡ object) × (self.new ≡ self.old) × L.Refused links.old links.new object) }
        ensures kept { ChangesOnlyInMembers L.successor B.fronts B.Rewrites (L.table links.old) (L.table links.new) self.old self.new (object ∷ []) }
    {
        let key = self.adapter.get_key(objects.value(object.place()));
        if let Some(member) = self.find(&*links, objects, key) {
            return Ok(Some(member));
        }
        self.insert(links, objects, object)?;
        Ok(None)
    }

    /// Removes the first member with `key` and returns it. If no member has `key`, it returns `None` and changes nothing.
    ///
    /// It makes as many key comparisons as `find`, and takes no memory. O(length of the chain).
    #[inline]
    pub fn remove_by<L: SinglyLinkedListOps, O: Values<A::Value>>(
        &mut self,
        links: &mut L,
        objects: &O,
        key: &A::Key,
    ) -> Option<UnsafeRef<A::Value>>
    where
        B: BucketsFor<L>,
        requires held { HoldsSome L.successor (number A.key_of A.hash_of) B.fronts (L.table links.old) self.old (O.values objects.now) }
        ensures found { (s : List Place) → Holds L.successor (number A.key_of A.hash_of) B.fronts (L.table links.old) self.old (O.values objects.now) s
            → Finds (has_key A.Key.eq (A.key_of (adapter_of self.old)) key.now (O.values objects.now)) s result }
        ensures removed { IfSome result (λ object. (front back : List Place)
            → Holds L.successor (number A.key_of A.hash_of) B.fronts (L.table links.old) self.old (O.values objects.now) (front ++ object ∷ back)
            → Holds L.successor (number A.key_of A.hash_of) B.fronts (L.table links.new) self.new (O.values objects.now) (front ++ back)) }
        ensures released { IfSome result (λ object. L.Trace links.old links.new (releases object ∷ [])) }
        ensures nothing { IfNone result ((self.new ≡ self.old) × (links.new ≡ links.old)) }
        ensures kept { ChangesOnlyInMembers L.successor B.fronts B.Rewrites (L.table links.old) (L.table links.new) self.old self.new [] }
    {
        let (at, before, found) = self.search(&*links, objects, key);
        let Some(place) = found else {
            return None;
        };
        self.remove_at(links, at, before, place);
        Some(UnsafeRef::new(place))
    }
}

impl<A: HashAdapter, B: BucketRow> HashTable<A, B> {
    ghost use Rattle.ic_hash_table.specs.Slots.{IsWellFormed};
    ghost use Rattle.ic_hash_table.specs.HashTable.{adapter_of, len_of, slots_of, fronts_of, front_at, number, BelongsIn, Holds, HoldsAt, HoldsSome};

    // The number of the chain where the object belongs.
    #[inline]
    pub(crate) fn slot_of_object<O: Values<A::Value>>(&self, objects: &O, object: Place) -> usize
        requires placed { is_placed (O.values objects.now) object ≡ true }
        requires well_formed { IsWellFormed (slots_of self.now) }
        ensures in_bounds { result < (slots_of self.now).used }
        ensures few { result < 18446744073709551615 }
        ensures belongs { BelongsIn (slots_of self.now) (number A.key_of A.hash_of (adapter_of self.now)) (O.values objects.now) result object }
    {
        let key = self.adapter.get_key(objects.value(object));
        self.slots.slot(self.adapter.hash(key))
    }

    // Returns the number of the chain where objects with `key` belong, the member before the found member, and the found member. The found member is the first
    // member of the chain that has `key`.
    #[inline]
    pub(crate) fn search<L: SinglyLinkedListOps, O: Values<A::Value>>(
        &self,
        links: &L,
        objects: &O,
        key: &A::Key,
    ) -> (usize, Option<Place>, Option<Place>)
        requires held { HoldsSome L.successor (number A.key_of A.hash_of) B.fronts (L.table links.now) self.now (O.values objects.now) }
        ensures in_bounds { result.0 < (slots_of self.now).used }
        ensures slot { result.0 ≡ slot_of (slots_of self.now) (A.hash_of (adapter_of self.now) key.now) }
        ensures found { (s : List Place) → Holds L.successor (number A.key_of A.hash_of) B.fronts (L.table links.now) self.now (O.values objects.now) s
            → Finds (has_key A.Key.eq (A.key_of (adapter_of self.now)) key.now (O.values objects.now)) s result.2 }
        ensures stops { (chain : List Place) → RepresentsFrom L.successor (L.table links.now) (front_at B.fronts self.now result.0) chain
            → StopsAt (has_key A.Key.eq (A.key_of (adapter_of self.now)) key.now (O.values objects.now)) chain result.1 result.2 }
        ensures member { IfSome result.2 (λ p. (ahead back : List Place)
            × RepresentsFrom L.successor (L.table links.now) (front_at B.fronts self.now result.0) (ahead ++ p ∷ back) × (result.1 ≡ last ahead)) }
    {
        let at = self.slots.slot(self.adapter.hash(key));
        let mut probe = KeyProbe::new(self.adapter, key);
        let (before, found) = find_in_chain(links, objects, &mut probe, self.buckets.front(at));
        (at, before, found)
    }

    // Returns the number of the chain that has the member `place`, and the member before `place`. Returns `None` if `place` is no member.
    pub(crate) fn locate<L: SinglyLinkedListOps, O: Values<A::Value>>(
        &self,
        links: &L,
        objects: &O,
        place: Place,
    ) -> Option<(usize, Option<Place>)>
        requires placed { is_placed (O.values objects.now) place ≡ true }
        requires held { HoldsSome L.successor (number A.key_of A.hash_of) B.fronts (L.table links.now) self.now (O.values objects.now) }
        ensures in_bounds { IfSome result (λ r. r.0 < (slots_of self.now).used) }
        ensures member { IfSome result (λ r. (ahead back : List Place)
            × RepresentsFrom L.successor (L.table links.now) (front_at B.fronts self.now r.0) (ahead ++ place ∷ back) × (r.1 ≡ last ahead)) }
        ensures absent { (s : List Place) → Holds L.successor (number A.key_of A.hash_of) B.fronts (L.table links.now) self.now (O.values objects.now) s
            → IfNone result (IsAbsent place s) }
        ensures there { (s : List Place) → Holds L.successor (number A.key_of A.hash_of) B.fronts (L.table links.now) self.now (O.values objects.now) s
            → IfSome result (λ r. IsMember place s) }
    {
        let at = self.slot_of_object(objects, place);
        let (before, found) = find_place_in_chain(links, self.buckets.front(at), place);
        if found.is_none() {
            return None;
        }
        Some((at, before))
    }
}

impl<A: HashAdapter, B> HashTable<A, B> {
    ghost use Rattle.ic_hash_table.specs.HashTable.{adapter_of, slots_of, front_at, number, BelongsIn, Holds, HoldsAt, HoldsSome, ChangesOnlyInMembers};

    // Inserts the object into chain `at`, between the adjacent members `neighbors`. The function reads no object.
    #[inline]
    pub(crate) fn insert_at<L: SinglyLinkedListOps>(
        &mut self,
        links: &mut L,
        at: usize,
        neighbors: (Option<Place>, Option<Place>),
        object: UnsafeRef<A::Value>,
    ) -> Result<(), AlreadyLinked<A::Value>>
    where
        B: BucketsFor<L>,
        requires covered { IsCovered (L.table links.old) object }
        requires held { (objects : Objects A.Value) × HoldsSome L.successor (number A.key_of A.hash_of) B.fronts (L.table links.old) self.old objects }
        requires in_bounds { at < (slots_of self.old).used }
        requires gap { (gap : Cut) × RepresentsFrom L.successor (L.table links.old) (front_at B.fronts self.old at) (join gap)
            × IsAfter gap neighbors.0 × IsBefore gap neighbors.1 }
        ensures inserted { (objects : Objects A.Value) (s : List Place) (gap : Cut)
            → Holds L.successor (number A.key_of A.hash_of) B.fronts (L.table links.old) self.old objects s → is_placed objects object ≡ true
            → BelongsIn (slots_of self.old) (number A.key_of A.hash_of (adapter_of self.old)) objects at object
            → RepresentsFrom L.successor (L.table links.old) (front_at B.fronts self.old at) (join gap) → IsAfter gap neighbors.0 → IsBefore gap neighbors.1
            → OnOk result (HoldsAt L.successor (number A.key_of A.hash_of) B.fronts (L.table links.new) self.new objects s gap object) }
        ensures shows { (gap : Cut) → RepresentsFrom L.successor (L.table links.old) (front_at B.fronts self.old at) (join gap)
            → IsAfter gap neighbors.0 → IsBefore gap neighbors.1
            → OnOk result (RepresentsFrom L.successor (L.table links.new) (front_at B.fronts self.new at) (insert gap object)) }
        ensures acquired { OnOk result (L.Trace links.old links.new (acquires object ∷ [])) }
        ensures refused { OnErr result (L.Refused links.old links.new object) }
        ensures unchanged { IfErr result (λ refused. (refused.0 ≡ object) × (self.new ≡ self.old)) }
        ensures kept { ChangesOnlyInMembers L.successor B.fronts B.Rewrites (L.table links.old) (L.table links.new) self.old self.new (object ∷ []) }
    {
        let (before, after) = neighbors;
        let mut chain: SinglyLinkedList<A::Value> = SinglyLinkedList::from_front(
            self.buckets.front(at),
        );
        if !chain.insert_between(links, before, object.place(), after) {
            return Err(AlreadyLinked(object));
        }
        self.buckets.set_front(at, chain.first());
        self.len += 1;
        Ok(())
    }

    // Removes the member `place`, which comes directly after `before`, from chain `at`. The function reads no object.
    #[inline]
    pub(crate) fn remove_at<L: SinglyLinkedListOps>(
        &mut self,
        links: &mut L,
        at: usize,
        before: Option<Place>,
        place: Place,
    )
    where
        B: BucketsFor<L>,
        requires held { (objects : Objects A.Value) × HoldsSome L.successor (number A.key_of A.hash_of) B.fronts (L.table links.old) self.old objects }
        requires in_bounds { at < (slots_of self.old).used }
        requires member { (ahead back : List Place)
            × RepresentsFrom L.successor (L.table links.old) (front_at B.fronts self.old at) (ahead ++ place ∷ back) × (before ≡ last ahead) }
        ensures removed { (objects : Objects A.Value) (front back : List Place)
            → Holds L.successor (number A.key_of A.hash_of) B.fronts (L.table links.old) self.old objects (front ++ place ∷ back)
            → Holds L.successor (number A.key_of A.hash_of) B.fronts (L.table links.new) self.new objects (front ++ back) }
        ensures released { L.Trace links.old links.new (releases place ∷ []) }
        ensures kept { ChangesOnlyInMembers L.successor B.fronts B.Rewrites (L.table links.old) (L.table links.new) self.old self.new [] }
    {
        let front = unlink_after(links, self.buckets.front(at), before, place);
        self.buckets.set_front(at, front);
        self.len -= 1;
    }
}
