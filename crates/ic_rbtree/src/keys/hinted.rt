//! Inserts with a hint, which is a member before which the object probably goes. These inserts first try the gap directly before the hint.
//!
//! ```text
//! timers.insert_with_hint(&mut links, &objects, &next, timer)?; // two looks where it goes before `next`
//! ```

ghost use Rattle.std.specs.Prelude.{◌≡◌, ◌+◌, true};
ghost use Rattle.ic_link_ops.specs.Prelude.{is_placed, IsCovered, HasMember, RepresentsPlaced};
ghost use Rattle.ic_rbtree.specs.Comparing.{compared, own_compared, HasRoom};
ghost use Rattle.ic_rbtree.specs.InsertPositions.{HintedLooks};
ghost use Rattle.ic_rbtree.specs.Kept.{RepresentsKept};
ghost use Rattle.ic_rbtree.specs.Ordered.{InsertsInOrder};
ghost use Rattle.ic_rbtree.specs.Tree.{head_of, adapter_of};
ghost use Rattle.ic_rbtree.specs.TreeEdits.{InsertsIntoTree, InsertsByProbe};

use crate::head::TreeHead;
use crate::keys::insert_pos::insert_pos_near;
use crate::{KeyAdapter, KeyProbe, Probe, RBTree};
use ic_link_ops::rbtree::RBTreeOps;
use ic_link_ops::{AlreadyLinked, LinkOps};
use ic_unsafe_ref::{UnsafeRef, Values};

impl<A: KeyAdapter, E: TreeHead> RBTree<A, E> {
    /// Inserts the object where it belongs by the probe's order, with a hint: the member before which it probably goes. The insert first compares the hint
    /// and the member before the hint. If the object does not belong between these two, the insert descends from the root.
    ///
    /// It requires that the object's place is covered, that all members are placed, that the hint is a member, and that the probe's count is
    /// at most `u64::MAX - 68`. If the link is refused, no key is compared, the object is returned, and the tree and its links are as they
    /// were. O(log n): at most two comparisons if the hint is right, otherwise v in a tree of n members, with `2^v <= 2 * (n + 1)^2`.
    #[inline]
    pub fn insert_with_hint_by<L: RBTreeOps, P: Probe<A::Value>, O: Values<A::Value>>(
        &mut self,
        links: &mut L,
        objects: &O,
        probe: &mut P,
        hint: &UnsafeRef<A::Value>,
        object: UnsafeRef<A::Value>,
    ) -> Result<(), AlreadyLinked<A::Value>>
        requires covered { IsCovered (L.table links.old) object }
        requires placed { RepresentsPlaced (RepresentsKept E.kept L.node (L.table links.old) (head_of self.old)) (O.values objects.now) }
        requires member { HasMember (RepresentsKept E.kept L.node (L.table links.old) (head_of self.old)) hint.now }
        requires room { HasRoom (P.count probe.old + 2) }
        ensures { InsertsByProbe E.kept L.node L.table L.Trace L.Refused
            (InsertsInOrder (RepresentsKept E.kept L.node) (compared (P.order probe.old) (O.values objects.now)))
            (HintedLooks P.order P.count (O.values objects.now) hint.now) links.old self.old probe.old object result links.new self.new probe.new }
    {
        let place = object.place();
        if !links.acquire_link(place) {
            return Err(AlreadyLinked(object));
        }
        let root = self.head.root();
        let (parent, side) = insert_pos_near(&*links, root, hint.place(), objects, probe);
        self.head.attach(links, parent, side, place);
        Ok(())
    }

    /// Inserts the object where its own key belongs, after members with the same key, with a hint: `insert_with_hint_by` with a `KeyProbe`. The call also
    /// requires that the object is placed. O(log n), and at most two comparisons if the hint is right.
    #[inline]
    pub fn insert_with_hint<L: RBTreeOps, O: Values<A::Value>>(
        &mut self,
        links: &mut L,
        objects: &O,
        hint: &UnsafeRef<A::Value>,
        object: UnsafeRef<A::Value>,
    ) -> Result<(), AlreadyLinked<A::Value>>
        requires covered { IsCovered (L.table links.old) object }
        requires placed { RepresentsPlaced (RepresentsKept E.kept L.node (L.table links.old) (head_of self.old)) (O.values objects.now) }
        requires member { HasMember (RepresentsKept E.kept L.node (L.table links.old) (head_of self.old)) hint.now }
        requires object { is_placed (O.values objects.now) object ≡ true }
        ensures { InsertsIntoTree E.kept L.node L.table L.Trace L.Refused (InsertsInOrder (RepresentsKept E.kept L.node)
            (own_compared A.Key.cmp (A.key_of (adapter_of self.old)) (O.values objects.now) object)) links.old self.old object result links.new self.new }
    {
        let value = objects.value(object.place());
        let mut probe = KeyProbe::new(self.adapter, self.adapter.get_key(value));
        self.insert_with_hint_by(links, objects, &mut probe, hint, object)
    }
}
