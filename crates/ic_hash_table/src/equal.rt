//! Members of a hash table may have equal keys, and these calls insert them side by side and find them one after another.
//!
//! ```text
//! let mut at = table.find(&links, &objects, &7); // the first member with the key 7
//! while let Some(member) = at {
//!     at = table.next_equal(&links, &objects, &member); // the next one
//! }
//! table.insert_equal(&mut links, &objects, object)?; // beside the members that have its key
//! ```

ghost use Rattle.std.specs.Prelude.{◌≡◌, ◌++◌, ◌∷◌, [], List, Some, true, OnOk, OnErr, IfErr, IfSome};
ghost use Rattle.ic_link_ops.specs.Prelude.{Place, object_at, is_placed, first, IsCovered, HasMember, acquires};
ghost use Rattle.ic_hash_table.specs.HashTable.{adapter_of, number, Holds, HoldsSome, HoldsBefore, ChangesOnlyInMembers};
ghost use Rattle.ic_hash_table.specs.SideBySide.{AreSideBySide, HoldsSideBySide, same_key};
ghost use Rattle.ic_hash_table.specs.Searches.{has_key, Finds};

use crate::chain_search::{find_in_chain, reference};
use crate::{BucketRow, BucketsFor, HashAdapter, HashTable, KeyProbe};
use ic_link_ops::singly_linked_list::SinglyLinkedListOps;
use ic_link_ops::{AlreadyLinked, LinkOps};
use ic_unsafe_ref::{UnsafeRef, Values};

impl<A: HashAdapter, B: BucketRow> HashTable<A, B> {
    /// The next member after `member` that has an equal key, or `None` if no such member follows.
    ///
    /// It requires that `member` is a member of the table, with the key that it was inserted by. To get all members with a key, in their order, begin with
    /// the member that [`find`](HashTable::find) returns. The call compares keys once for each member of the chain after the given one, up to the member
    /// that it finds. It takes no memory. O(length of the chain).
    #[inline]
    pub fn next_equal<L: SinglyLinkedListOps, O: Values<A::Value>>(
        &self,
        links: &L,
        objects: &O,
        member: &UnsafeRef<A::Value>,
    ) -> Option<UnsafeRef<A::Value>>
        requires member { HasMember (Holds L.successor (number A.key_of A.hash_of) B.fronts (L.table links.now) self.now (O.values objects.now)) member.now }
        ensures found { (value : A.Value) → object_at (O.values objects.now) member.now ≡ Some value → (front back : List Place)
            → Holds L.successor (number A.key_of A.hash_of) B.fronts (L.table links.now) self.now (O.values objects.now) (front ++ member.now ∷ back)
            → Finds (has_key A.Key.eq (A.key_of (adapter_of self.now)) (A.key_of (adapter_of self.now) value) (O.values objects.now)) back result }
        ensures beside { (front back : List Place)
            → Holds L.successor (number A.key_of A.hash_of) B.fronts (L.table links.now) self.now (O.values objects.now) (front ++ member.now ∷ back)
            → AreSideBySide (same_key A.Key.eq (A.key_of (adapter_of self.now)) (O.values objects.now)) (front ++ member.now ∷ back)
            → IfSome result (λ next. first back ≡ Some next) }
    {
        let place = member.place();
        let key = self.adapter.get_key(objects.value(place));
        let mut probe = KeyProbe::new(self.adapter, key);
        let (_, found) = find_in_chain(links, objects, &mut probe, links.next(place));
        reference(found)
    }
}

impl<A: HashAdapter, B> HashTable<A, B> {
    /// Inserts the object, directly before the first member with an equal key if there is one, unless its link is refused.
    ///
    /// The object is then the first member with its key. If the other members with this key are side by side, [`next_equal`](HashTable::next_equal) finds
    /// them directly after the object. The call requires what [`insert`](HashTable::insert) requires, and refuses what `insert` refuses. It makes as many
    /// key comparisons as [`find`](HashTable::find), and takes no memory. O(length of the chain).
    #[inline]
    pub fn insert_equal<L: SinglyLinkedListOps, O: Values<A::Value>>(
        &mut self,
        links: &mut L,
        objects: &O,
        object: UnsafeRef<A::Value>,
    ) -> Result<(), AlreadyLinked<A::Value>>
    where
        B: BucketsFor<L>,
        requires covered { IsCovered (L.table links.old) object }
        requires placed { is_placed (O.values objects.now) object ≡ true }
        requires held { HoldsSome L.successor (number A.key_of A.hash_of) B.fronts (L.table links.old) self.old (O.values objects.now) }
        ensures inserted { (value : A.Value) → object_at (O.values objects.now) object ≡ Some value
            → (s : List Place) → Holds L.successor (number A.key_of A.hash_of) B.fronts (L.table links.old) self.old (O.values objects.now) s
            → OnOk result (HoldsBefore L.successor (number A.key_of A.hash_of) B.fronts (L.table links.new) self.new (O.values objects.now)
            (has_key A.Key.eq (A.key_of (adapter_of self.old)) (A.key_of (adapter_of self.old) value) (O.values objects.now)) s object) }
        ensures beside { HoldsSideBySide L.successor (number A.key_of A.hash_of) B.fronts A.Key.eq A.key_of (L.table links.old) self.old (O.values objects.now)
            → OnOk result (HoldsSideBySide L.successor (number A.key_of A.hash_of) B.fronts A.Key.eq A.key_of (L.table links.new) self.new (O.values objects.now)) }
        ensures acquired { OnOk result (L.Trace links.old links.new (acquires object ∷ [])) }
        ensures refused { OnErr result (L.Refused links.old links.new object) }
        ensures unchanged { IfErr result (λ refused. (refused.0 ≡ object) × (self.new ≡ self.old)) }
        ensures kept { ChangesOnlyInMembers L.successor B.fronts B.Rewrites (L.table links.old) (L.table links.new) self.old self.new (object ∷ []) }
    {
        let key = self.adapter.get_key(objects.value(object.place()));
        let (at, before, found) = self.search(&*links, objects, key);
        self.insert_at(links, at, (before, found), object)
    }
}
