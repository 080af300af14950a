//! Inserts into trees whose table stores the keys.
//!
//! ```text
//! links.set_value(object.place(), 5);
//! tree.insert_keyed(&mut links, object)?; // after the members whose keys are not greater
//! ```

ghost use Rattle.std.specs.Prelude.{◌≡◌, OnOk, OnErr, IfErr, List, [], ◌∷◌};
ghost use Rattle.ic_link_ops.specs.Prelude.{Place, IsCovered, acquires};
ghost use Rattle.ic_rbtree.specs.Comparing.{compared, own_compared};
ghost use Rattle.ic_rbtree.specs.Kept.{RepresentsKept, RepresentsKeptSome, HasRoomFor, InsertLooks};
ghost use Rattle.ic_rbtree.specs.Ordered.{InsertsInOrder};
ghost use Rattle.ic_rbtree.specs.Tree.{head_of, adapter_of};

use crate::head::TreeHead;
use crate::keys::insert_pos::insert_pos_for;
use crate::keys::probe::KeyFirst;
use crate::{KeyAdapter, Probe, RBTree};
use ic_link_ops::rbtree::RBTreeOps;
use ic_link_ops::{AlreadyLinked, LinkOps, LinkValues};
use ic_unsafe_ref::{UnsafeRef, Values};

impl<A: KeyAdapter, E: TreeHead> RBTree<A, E> {
    /// Inserts the object where it belongs by the probe's order, after members that compare equal, unless its link is
    /// refused: [`insert_by`](RBTree::insert_by) for a table that stores the values.
    ///
    /// It requires that the object's place is covered, and that the table represents the tree. The probe's count must be at most `u64::MAX - 66`, or one
    /// less if the tree stores its ends. If the link is refused, no key is compared, the object is returned, and the tree and its links are as they were.
    /// O(log n): v comparisons in a tree of n members, with `2^v <= (n + 1)^2`.
    #[inline]
    pub fn insert_keyed_by<L: RBTreeOps + LinkValues<A::Value>, P: Probe<A::Value>>(
        &mut self,
        links: &mut L,
        probe: &mut P,
        object: UnsafeRef<A::Value>,
    ) -> Result<(), AlreadyLinked<A::Value>>
        requires covered { IsCovered (L.table links.old) object }
        requires shown { RepresentsKeptSome E.kept L.node (L.table links.old) (head_of self.old) }
        requires room { HasRoomFor (E.kept (head_of self.old)) (P.count probe.old) }
        ensures inserted { (s : List Place) → RepresentsKept E.kept L.node (L.table links.old) (head_of self.old) s → OnOk result
            (InsertsInOrder (RepresentsKept E.kept L.node) (compared (P.order probe.old) (L.values links.old)) (L.table links.old)
            (L.table links.new) (head_of self.new) s object) }
        ensures values { L.values links.new ≡ L.values links.old }
        ensures acquired { OnOk result (L.Trace links.old links.new (acquires object ∷ [])) }
        ensures adapter { adapter_of self.new ≡ adapter_of self.old }
        ensures refused { OnErr result (L.Refused links.old links.new object) }
        ensures unchanged { IfErr result (λ refused. (refused.0 ≡ object) × (self.new ≡ self.old)) }
        ensures looks { (s : List Place) → RepresentsKept E.kept L.node (L.table links.old) (head_of self.old) s
            → OnOk result (InsertLooks P.order P.count (E.kept (head_of self.old)) (L.values links.old) probe.old probe.new s) }
        ensures no_look { OnErr result (probe.new ≡ probe.old) }
    {
        let place = object.place();
        if !links.acquire_link(place) {
            return Err(AlreadyLinked(object));
        }
        let own = &*links;
        let (parent, side) = insert_pos_for(own, &self.head, own, probe);
        self.head.attach(links, parent, side, place);
        Ok(())
    }

    /// Inserts the object by the key that the table stores beside its link: [`insert`](RBTree::insert) for a table that stores the
    /// values. A comparison reads one entry, which has the key and the children.
    ///
    /// It requires that the object's place is covered, and that the table represents the tree. If the link is refused, no key is compared, the
    /// object is returned, and the tree and its links are as they were. O(log n).
    #[inline(always)]
    pub fn insert_keyed<L: RBTreeOps + LinkValues<A::Value>>(
        &mut self,
        links: &mut L,
        object: UnsafeRef<A::Value>,
    ) -> Result<(), AlreadyLinked<A::Value>>
        requires covered { IsCovered (L.table links.old) object }
        requires shown { RepresentsKeptSome E.kept L.node (L.table links.old) (head_of self.old) }
        ensures inserted { (s : List Place) → RepresentsKept E.kept L.node (L.table links.old) (head_of self.old) s → OnOk result
            (InsertsInOrder (RepresentsKept E.kept L.node) (own_compared A.Key.cmp (A.key_of (adapter_of self.old)) (L.values links.old) object)
            (L.table links.old) (L.table links.new) (head_of self.new) s object) }
        ensures values { L.values links.new ≡ L.values links.old }
        ensures acquired { OnOk result (L.Trace links.old links.new (acquires object ∷ [])) }
        ensures adapter { adapter_of self.new ≡ adapter_of self.old }
        ensures refused { OnErr result (L.Refused links.old links.new object) }
        ensures unchanged { IfErr result (λ refused. (refused.0 ≡ object) × (self.new ≡ self.old)) }
    {
        let place = object.place();
        if !links.acquire_link(place) {
            return Err(AlreadyLinked(object));
        }
        let own = &*links;
        let mut probe = KeyFirst::new(self.adapter, self.adapter.get_key(own.value(place)));
        let (parent, side) = insert_pos_for(own, &self.head, own, &mut probe);
        self.head.attach(links, parent, side, place);
        Ok(())
    }
}
