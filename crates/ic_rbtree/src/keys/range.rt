//! Walks over the members between two bounds.
//!
//! ```text
//! for task in tree.range(&links, &objects, Bound::Included(&5), Bound::Excluded(&9)) {
//!     task.run();
//! }
//! ```

ghost use Rattle.std.specs.Prelude.{◌≡◌, true, IfSome, List};
ghost use Rattle.ic_link_ops.specs.Prelude.{Place, is_placed, RepresentsPlaced, values_at};
ghost use Rattle.ic_rbtree.specs.Comparing.{compared_within, order_of, order_there, HasRoomWithin, LooksWithin};
ghost use Rattle.ic_rbtree.specs.Iter.{rest_of, objects_left, CanWalk};
ghost use Rattle.ic_rbtree.specs.Kept.{RepresentsKept};
ghost use Rattle.ic_rbtree.specs.KeyProbe.{key_order, looks_of, HasAdapter};
ghost use Rattle.ic_rbtree.specs.Ranges.{runs_up, IsRange};
ghost use Rattle.ic_rbtree.specs.Tree.{head_of, adapter_of};

use crate::head::TreeHead;
use crate::keys::probe::probe_in_bound;
use crate::{Bound, Iter, KeyAdapter, KeyProbe, RBTree};
use ic_link_ops::LinkOps;
use ic_link_ops::rbtree::RBTreeOps;
use ic_unsafe_ref::{Place, Values};
use std::marker::PhantomData;

impl<A: KeyAdapter, E: TreeHead> RBTree<A, E> {
    // Whether `low` and `high` are both members, and the key at `high` is at least the key at `low`. The comparison is not counted as a look.
    fn runs_up<O: Values<A::Value>>(
        &self,
        objects: &O,
        low: Option<Place>,
        high: Option<Place>,
    ) -> bool
        requires low { IfSome low (λ place. is_placed (O.values objects.now) place ≡ true) }
        requires high { IfSome high (λ place. is_placed (O.values objects.now) place ≡ true) }
        ensures { result ≡ runs_up A.Key.cmp (A.key_of (adapter_of self.now)) (O.values objects.now) low high }
    {
        let Some(low) = low else {
            return false;
        };
        let Some(high) = high else {
            return false;
        };
        let first = self.adapter.get_key(objects.value(low));
        let last = self.adapter.get_key(objects.value(high));
        last.cmp(first).is_ge()
    }

    /// A walk over the objects between two bounds, from the lower border of `min` to the upper border of `max`. The walk is empty if the key at the upper
    /// border is less than the key at the lower border.
    ///
    /// It requires that all members are placed, that both probes have the tree's adapter, and that their counts are at most
    /// `u64::MAX - 66`. O(log n): two descents, each with v comparisons in a tree of n members, with `2^v <= (n + 1)^2`.
    pub fn range_by<'a, L: RBTreeOps, O: Values<A::Value>>(
        &'a self,
        links: &'a L,
        objects: &'a O,
        min: &mut Bound<KeyProbe<'_, A>>,
        max: &mut Bound<KeyProbe<'_, A>>,
    ) -> Iter<'a, A, L, O>
        requires placed { RepresentsPlaced (RepresentsKept E.kept L.node (L.table links.now) (head_of self.now)) (O.values objects.now) }
        requires min_room { HasRoomWithin looks_of min.old }
        requires max_room { HasRoomWithin looks_of max.old }
        requires min_adapter { HasAdapter (adapter_of self.now) min.old }
        requires max_adapter { HasAdapter (adapter_of self.now) max.old }
        ensures range { (s : List Place) → RepresentsKept E.kept L.node (L.table links.now) (head_of self.now) s → IsRange
            (compared_within (key_order A.Key.cmp A.key_of) (O.values objects.now) min.old)
            (compared_within (key_order A.Key.cmp A.key_of) (O.values objects.now) max.old)
            (runs_up A.Key.cmp (A.key_of (adapter_of self.now)) (O.values objects.now)) s (rest_of L.node L.table result) }
        ensures walks { objects_left L.node L.table O.values result ≡ values_at (O.values objects.now) (rest_of L.node L.table result) }
        ensures can_walk { CanWalk L.node L.table O.values result }
        ensures min_looks { (s : List Place) → RepresentsKept E.kept L.node (L.table links.now) (head_of self.now) s
            → LooksWithin (key_order A.Key.cmp A.key_of) looks_of min.old min.new s }
        ensures max_looks { (s : List Place) → RepresentsKept E.kept L.node (L.table links.now) (head_of self.now) s
            → LooksWithin (key_order A.Key.cmp A.key_of) looks_of max.old max.new s }
    {
        let root = self.head.root();
        let low = self.lower(links, objects, min).get();
        let high = self.upper(links, objects, max).get();
        if !self.runs_up(objects, low, high) {
            return Iter {
                root,
                links,
                objects,
                of: PhantomData,
                head: None,
                tail: None,
            };
        }
        Iter {
            root,
            links,
            objects,
            of: PhantomData,
            head: low,
            tail: high,
        }
    }

    /// A walk over the objects whose keys are between two bounds: `range_by` with a `KeyProbe` for each bound. O(log n).
    pub fn range<'a, L: RBTreeOps, O: Values<A::Value>>(
        &'a self,
        links: &'a L,
        objects: &'a O,
        min: Bound<&A::Key>,
        max: Bound<&A::Key>,
    ) -> Iter<'a, A, L, O>
        requires placed { RepresentsPlaced (RepresentsKept E.kept L.node (L.table links.now) (head_of self.now)) (O.values objects.now) }
        ensures range { (s : List Place) → RepresentsKept E.kept L.node (L.table links.now) (head_of self.now) s → IsRange
            (compared_within (order_there A.Key.cmp (A.key_of (adapter_of self.now))) (O.values objects.now) min.entry)
            (compared_within (order_there A.Key.cmp (A.key_of (adapter_of self.now))) (O.values objects.now) max.entry)
            (runs_up A.Key.cmp (A.key_of (adapter_of self.now)) (O.values objects.now)) s (rest_of L.node L.table result) }
        ensures walks { objects_left L.node L.table O.values result ≡ values_at (O.values objects.now) (rest_of L.node L.table result) }
        ensures can_walk { CanWalk L.node L.table O.values result }
    {
        let mut from = probe_in_bound(self.adapter, min);
        let mut to = probe_in_bound(self.adapter, max);
        self.range_by(links, objects, &mut from, &mut to)
    }
}
