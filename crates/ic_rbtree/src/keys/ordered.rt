//! Calls that insert an object where its key belongs.
//!
//! ```text
//! tree.insert(&mut links, &objects, object)?; // after the members whose keys are not greater
//! ```

ghost use Rattle.std.specs.Prelude.{◌≡◌, true};
ghost use Rattle.ic_link_ops.specs.Prelude.{is_placed, IsCovered, RepresentsPlaced};
ghost use Rattle.ic_rbtree.specs.Comparing.{compared, own_compared};
ghost use Rattle.ic_rbtree.specs.Kept.{RepresentsKept, HasRoomFor, InsertLooks};
ghost use Rattle.ic_rbtree.specs.Ordered.{InsertsInOrder};
ghost use Rattle.ic_rbtree.specs.Tree.{head_of, adapter_of};
ghost use Rattle.ic_rbtree.specs.TreeEdits.{InsertsIntoTree, InsertsByProbe};

use crate::head::TreeHead;
use crate::keys::probe::KeyFirst;
use crate::linking::insert_in_order;
use crate::{KeyAdapter, Probe, RBTree};
use ic_cursors::Ordered;
use ic_link_ops::rbtree::RBTreeOps;
use ic_link_ops::{AlreadyLinked, LinkOps, PlaceWord};
use ic_unsafe_ref::{Place, UnsafeRef, Values};

impl<A: KeyAdapter, E: TreeHead, L: RBTreeOps> Ordered<L> for RBTree<A, E> {
    ghost order_of = { λ tree objects object. own_compared A.Key.cmp (A.key_of (adapter_of tree)) objects object };

    // The insert takes O(log n): it makes at most 66 comparisons, and none if the link is refused.
    #[inline]
    fn insert_in_order<O: Values<A::Value>>(
        &mut self,
        links: &mut L,
        objects: &O,
        at: &mut PlaceWord,
        object: Place,
    ) -> bool {
        let _ = at;
        let value = objects.value(object);
        let mut probe = KeyFirst::new(self.adapter, self.adapter.get_key(value));
        insert_in_order(links, &mut self.head, objects, &mut probe, object)
    }
}

impl<A: KeyAdapter, E: TreeHead> RBTree<A, E> {
    /// Inserts the object where it belongs by the probe's order, after members that compare equal, unless its link is refused. A tree that
    /// stores its ends compares the last member first, and makes no descent if the object goes after it.
    ///
    /// It requires that the object's place is covered, and that all members are placed. The probe's count must be at most `u64::MAX - 66`, or one less if
    /// the tree stores its ends. If the link is refused, no key is compared, the object is returned, and the tree and its links are as they were. The
    /// insert of the Rust crate `intrusive-collections` returns a cursor on the object. Here you get this cursor by one more call, `cursor_mut_from_ptr`.
    /// O(log n): v comparisons in a tree of n members, with `2^v <= (n + 1)^2`.
    #[inline]
    pub fn insert_by<L: RBTreeOps, P: Probe<A::Value>, O: Values<A::Value>>(
        &mut self,
        links: &mut L,
        objects: &O,
        probe: &mut P,
        object: UnsafeRef<A::Value>,
    ) -> Result<(), AlreadyLinked<A::Value>>
        requires covered { IsCovered (L.table links.old) object }
        requires placed { RepresentsPlaced (RepresentsKept E.kept L.node (L.table links.old) (head_of self.old)) (O.values objects.now) }
        requires room { HasRoomFor (E.kept (head_of self.old)) (P.count probe.old) }
        ensures { InsertsByProbe E.kept L.node L.table L.Trace L.Refused
            (InsertsInOrder (RepresentsKept E.kept L.node) (compared (P.order probe.old) (O.values objects.now)))
            (InsertLooks P.order P.count (E.kept (head_of self.old)) (O.values objects.now))
            links.old self.old probe.old object result links.new self.new probe.new }
    {
        if !insert_in_order(links, &mut self.head, objects, probe, object.place()) {
            return Err(AlreadyLinked(object));
        }
        Ok(())
    }

    /// Inserts the object where its own key belongs, after members with the same key, unless its link is refused: `insert_by` with a `KeyProbe`. The call
    /// also requires that the object is placed. O(log n).
    #[inline]
    pub fn insert<L: RBTreeOps, O: Values<A::Value>>(
        &mut self,
        links: &mut L,
        objects: &O,
        object: UnsafeRef<A::Value>,
    ) -> Result<(), AlreadyLinked<A::Value>>
        requires covered { IsCovered (L.table links.old) object }
        requires placed { RepresentsPlaced (RepresentsKept E.kept L.node (L.table links.old) (head_of self.old)) (O.values objects.now) }
        requires object { is_placed (O.values objects.now) object ≡ true }
        ensures { InsertsIntoTree E.kept L.node L.table L.Trace L.Refused (InsertsInOrder (RepresentsKept E.kept L.node)
            (own_compared A.Key.cmp (A.key_of (adapter_of self.old)) (O.values objects.now) object)) links.old self.old object result links.new self.new }
    {
        let value = objects.value(object.place());
        let mut probe = KeyFirst::new(self.adapter, self.adapter.get_key(value));
        self.insert_by(links, objects, &mut probe, object)
    }
}
