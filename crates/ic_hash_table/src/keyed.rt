//! These calls are for a table of links that also stores the values. One read of an entry gives both the value and the link of a member.
//!
//! ```text
//! links.set_value(object.place(), 7);
//! table.insert_keyed(&mut links, object)?;
//! table.find(&links, &links, &7)           // the table is its own values
//! table.remove_by_keyed(&mut links, &7)
//! ```

ghost use Rattle.std.specs.Prelude.{◌≡◌, ◌↔◌, ◌++◌, ◌∷◌, [], List, true, IsTrue, OnOk, OnErr, IfErr, IfSome, IfNone};
ghost use Rattle.std.specs.Bool.{OnTrue, OnFalse};
ghost use Rattle.ic_link_ops.specs.Prelude.{Place, is_placed, IsMember, IsCovered, acquires, releases};
ghost use Rattle.ic_hash_table.specs.HashTable.{adapter_of, number, Holds, HoldsSome, HoldsWith, ChangesOnlyInMembers};
ghost use Rattle.ic_hash_table.specs.Searches.{has_key, Finds};

use crate::{BucketsFor, HashAdapter, HashTable};
use ic_link_ops::singly_linked_list::SinglyLinkedListOps;
use ic_link_ops::{AlreadyLinked, LinkOps, LinkValues};
use ic_unsafe_ref::UnsafeRef;

impl<A: HashAdapter, B> HashTable<A, B> {
    /// Inserts the object, unless its link is refused. It does what [`insert`](HashTable::insert) does, for a table of links that stores the values. O(1).
    ///
    /// It requires that the table of links covers the object's place, and stores the values of the object and of every member. If the link is refused, the
    /// call returns the object, and the table is unchanged.
    #[inline]
    pub fn insert_keyed<L: SinglyLinkedListOps + LinkValues<A::Value>>(
        &mut self,
        links: &mut L,
        object: UnsafeRef<A::Value>,
    ) -> Result<(), AlreadyLinked<A::Value>>
    where
        B: BucketsFor<L>,
        requires covered { IsCovered (L.table links.old) object }
        requires placed { is_placed (L.values links.old) object ≡ true }
        requires held { HoldsSome L.successor (number A.key_of A.hash_of) B.fronts (L.table links.old) self.old (L.values links.old) }
        ensures inserted { (s : List Place) → Holds L.successor (number A.key_of A.hash_of) B.fronts (L.table links.old) self.old (L.values links.old) s
            → OnOk result (HoldsWith L.successor (number A.key_of A.hash_of) B.fronts (L.table links.new) self.new (L.values links.old) s object) }
        ensures values { L.values links.new ≡ L.values links.old }
        ensures acquired { OnOk result (L.Trace links.old links.new (acquires object ∷ [])) }
        ensures refused { OnErr result (L.Refused links.old links.new object) }
        ensures unchanged { IfErr result (λ refused. (refused.0 ≡ object) × (self.new ≡ self.old)) }
        ensures kept { ChangesOnlyInMembers L.successor B.fronts B.Rewrites (L.table links.old) (L.table links.new) self.old self.new (object ∷ []) }
    {
        let at = self.slot_of_object(&*links, object.place());
        let front = self.buckets.front(at);
        self.insert_at(links, at, (None, front), object)
    }

    /// Removes the object, and returns whether it was a member. It does what [`remove`](HashTable::remove) does, for a table of links that stores the values.
    ///
    /// It requires that the table of links stores the object's value, with the key that the object was inserted by. If the object was not a member,
    /// nothing has changed. The call computes one hash, walks along the object's chain without comparing keys, and takes no memory. O(length of the
    /// chain).
    pub fn remove_keyed<L: SinglyLinkedListOps + LinkValues<A::Value>>(
        &mut self,
        links: &mut L,
        object: &UnsafeRef<A::Value>,
    ) -> bool
    where
        B: BucketsFor<L>,
        requires placed { is_placed (L.values links.old) object.now ≡ true }
        requires held { HoldsSome L.successor (number A.key_of A.hash_of) B.fronts (L.table links.old) self.old (L.values links.old) }
        ensures answer { (s : List Place) → Holds L.successor (number A.key_of A.hash_of) B.fronts (L.table links.old) self.old (L.values links.old) s
            → IsTrue result ↔ IsMember object.now s }
        ensures removed { (front back : List Place)
            → Holds L.successor (number A.key_of A.hash_of) B.fronts (L.table links.old) self.old (L.values links.old) (front ++ object.now ∷ back)
            → Holds L.successor (number A.key_of A.hash_of) B.fronts (L.table links.new) self.new (L.values links.old) (front ++ back) }
        ensures values { L.values links.new ≡ L.values links.old }
        ensures released { OnTrue result (L.Trace links.old links.new (releases object.now ∷ [])) }
        ensures nothing { OnFalse result ((self.new ≡ self.old) × (links.new ≡ links.old)) }
        ensures kept { ChangesOnlyInMembers L.successor B.fronts B.Rewrites (L.table links.old) (L.table links.new) self.old self.new [] }
    {
        let Some((at, before)) = self.locate(&*links, &*links, object.place()) else {
            return false;
        };
        self.remove_at(links, at, before, object.place());
        true
    }

    /// Removes the first member with this key and returns it. It does what [`remove_by`](HashTable::remove_by) does, for a table of links that stores the
    /// values.
    ///
    /// If no member has the key, the call returns `None` and changes nothing. It makes as many key comparisons as [`find`](HashTable::find), and takes no
    /// memory. O(length of the chain).
    #[inline]
    pub fn remove_by_keyed<L: SinglyLinkedListOps + LinkValues<A::Value>>(
        &mut self,
        links: &mut L,
        key: &A::Key,
    ) -> Option<UnsafeRef<A::Value>>
    where
        B: BucketsFor<L>,
        requires held { HoldsSome L.successor (number A.key_of A.hash_of) B.fronts (L.table links.old) self.old (L.values links.old) }
        ensures found { (s : List Place) → Holds L.successor (number A.key_of A.hash_of) B.fronts (L.table links.old) self.old (L.values links.old) s
            → Finds (has_key A.Key.eq (A.key_of (adapter_of self.old)) key.now (L.values links.old)) s result }
        ensures removed { IfSome result (λ object. (front back : List Place)
            → Holds L.successor (number A.key_of A.hash_of) B.fronts (L.table links.old) self.old (L.values links.old) (front ++ object ∷ back)
            → Holds L.successor (number A.key_of A.hash_of) B.fronts (L.table links.new) self.new (L.values links.old) (front ++ back)) }
        ensures values { L.values links.new ≡ L.values links.old }
        ensures released { IfSome result (λ object. L.Trace links.old links.new (releases object ∷ [])) }
        ensures nothing { IfNone result ((self.new ≡ self.old) × (links.new ≡ links.old)) }
        ensures kept { ChangesOnlyInMembers L.successor B.fronts B.Rewrites (L.table links.old) (L.table links.new) self.old self.new [] }
    {
        let (at, before, found) = self.search(&*links, &*links, key);
        let Some(place) = found else {
            return None;
        };
        self.remove_at(links, at, before, place);
        Some(UnsafeRef::new(place))
    }
}
