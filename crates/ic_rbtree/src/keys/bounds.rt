//! Searches for the first and the last member that meet a bound.
//!
//! ```text
//! let from = tree.lower_bound(&links, &objects, Bound::Included(&5)); // the first with a key of 5 or more
//! let to = tree.upper_bound(&links, &objects, Bound::Excluded(&9)); // the last with a key below 9
//! ```

ghost use Rattle.ic_link_ops.specs.Prelude.{RepresentsPlaced};
ghost use Rattle.ic_rbtree.specs.Comparing.{compared_within, order_there, HasRoomWithin, LooksWithin};
ghost use Rattle.ic_rbtree.specs.Borders.{IsLowerBorder, IsUpperBorder};
ghost use Rattle.ic_rbtree.specs.BoundCursors.{ReadsAtBorder, ReadsAtBorderByProbe, EditsAtBorder, OwnsAtBorder};
ghost use Rattle.ic_rbtree.specs.Kept.{RepresentsKept};
ghost use Rattle.ic_rbtree.specs.Tree.{head_of, adapter_of};

use crate::head::TreeHead;
use crate::keys::probe::probe_in_bound;
use crate::{Bound, Cursor, CursorMut, CursorOwning, KeyAdapter, Probe, RBTree};
use ic_link_ops::LinkOps;
use ic_link_ops::rbtree::RBTreeOps;
use ic_unsafe_ref::Values;

impl<A: KeyAdapter, E: TreeHead> RBTree<A, E> {
    /// A cursor on the first member that meets the bound, null if there is none.
    ///
    /// It requires that all members are placed, and that the count of the bound's probe is at most `u64::MAX - 66`. If the tree
    /// isn't sorted for the probe, the cursor is on a border: on a member that meets the bound and whose predecessor, if any,
    /// doesn't. O(log n): v comparisons in a tree of n members, with `2^v <= (n + 1)^2`, and none for `Unbounded`.
    #[inline]
    pub fn lower_bound_by<'a, L: RBTreeOps, P: Probe<A::Value>, O: Values<A::Value>>(
        &'a self,
        links: &'a L,
        objects: &O,
        bound: &mut Bound<P>,
    ) -> Cursor<'a, A, L, E>
        requires placed { RepresentsPlaced (RepresentsKept E.kept L.node (L.table links.now) (head_of self.now)) (O.values objects.now) }
        requires room { HasRoomWithin P.count bound.old }
        ensures { ReadsAtBorderByProbe E.kept L.node L.table (IsLowerBorder (compared_within P.order (O.values objects.now) bound.old))
            (LooksWithin P.order P.count) self.now links.now bound.old bound.new result }
    {
        Cursor::new(self, links, self.lower(links, objects, bound))
    }

    /// A cursor on the first member whose key meets the bound, null if there is none: `lower_bound_by` with a `KeyProbe`. O(log n).
    #[inline]
    pub fn lower_bound<'a, L: RBTreeOps, O: Values<A::Value>>(
        &'a self,
        links: &'a L,
        objects: &O,
        bound: Bound<&A::Key>,
    ) -> Cursor<'a, A, L, E>
        requires placed { RepresentsPlaced (RepresentsKept E.kept L.node (L.table links.now) (head_of self.now)) (O.values objects.now) }
        ensures { ReadsAtBorder E.kept L.node L.table (IsLowerBorder (compared_within (order_there A.Key.cmp
            (A.key_of (adapter_of self.now))) (O.values objects.now) bound.entry)) self.now links.now result }
    {
        self.lower_bound_by(links, objects, &mut probe_in_bound(self.adapter, bound))
    }

    /// A cursor that edits, on the first member whose key meets the bound, null if there is none. The call finds the member as `lower_bound` does. O(log
    /// n).
    #[inline]
    pub fn lower_bound_mut<'a, L: RBTreeOps, O: Values<A::Value>>(
        &'a mut self,
        links: &'a mut L,
        objects: &O,
        bound: Bound<&A::Key>,
    ) -> CursorMut<'a, A, L, E>
        requires placed { RepresentsPlaced (RepresentsKept E.kept L.node (L.table links.old) (head_of self.old)) (O.values objects.now) }
        ensures { EditsAtBorder E.kept L.node L.table (IsLowerBorder (compared_within (order_there A.Key.cmp
            (A.key_of (adapter_of self.old))) (O.values objects.now) bound.entry)) self.entry links.entry result }
    {
        let current = self.lower(&*links, objects, &mut probe_in_bound(self.adapter, bound));
        CursorMut::new(self, links, current)
    }

    /// A cursor that owns the tree, on the first member whose key meets the bound, null if there is none. The call finds the member as `lower_bound` does.
    /// O(log n).
    #[inline]
    pub fn lower_bound_owning<L: RBTreeOps, O: Values<A::Value>>(
        self,
        links: &L,
        objects: &O,
        bound: Bound<&A::Key>,
    ) -> CursorOwning<A, E>
        requires placed { RepresentsPlaced (RepresentsKept E.kept L.node (L.table links.now) (head_of self)) (O.values objects.now) }
        ensures { OwnsAtBorder E.kept L.node L.table (IsLowerBorder (compared_within (order_there A.Key.cmp
            (A.key_of (adapter_of self))) (O.values objects.now) bound.entry)) self links.now result }
    {
        let current = self.lower(links, objects, &mut probe_in_bound(self.adapter, bound));
        CursorOwning::new(self, current)
    }

    /// A cursor on the last member that meets the bound, null if there is none.
    ///
    /// It requires that all members are placed, and that the count of the bound's probe is at most `u64::MAX - 66`. If the tree
    /// isn't sorted for the probe, the cursor is on a border: on a member that meets the bound and whose successor, if any,
    /// doesn't. O(log n): v comparisons in a tree of n members, with `2^v <= (n + 1)^2`, and none for `Unbounded`.
    #[inline]
    pub fn upper_bound_by<'a, L: RBTreeOps, P: Probe<A::Value>, O: Values<A::Value>>(
        &'a self,
        links: &'a L,
        objects: &O,
        bound: &mut Bound<P>,
    ) -> Cursor<'a, A, L, E>
        requires placed { RepresentsPlaced (RepresentsKept E.kept L.node (L.table links.now) (head_of self.now)) (O.values objects.now) }
        requires room { HasRoomWithin P.count bound.old }
        ensures { ReadsAtBorderByProbe E.kept L.node L.table (IsUpperBorder (compared_within P.order (O.values objects.now) bound.old))
            (LooksWithin P.order P.count) self.now links.now bound.old bound.new result }
    {
        Cursor::new(self, links, self.upper(links, objects, bound))
    }

    /// A cursor on the last member whose key meets the bound, null if there is none: `upper_bound_by` with a `KeyProbe`. O(log n).
    #[inline]
    pub fn upper_bound<'a, L: RBTreeOps, O: Values<A::Value>>(
        &'a self,
        links: &'a L,
        objects: &O,
        bound: Bound<&A::Key>,
    ) -> Cursor<'a, A, L, E>
        requires placed { RepresentsPlaced (RepresentsKept E.kept L.node (L.table links.now) (head_of self.now)) (O.values objects.now) }
        ensures { ReadsAtBorder E.kept L.node L.table (IsUpperBorder (compared_within (order_there A.Key.cmp
            (A.key_of (adapter_of self.now))) (O.values objects.now) bound.entry)) self.now links.now result }
    {
        self.upper_bound_by(links, objects, &mut probe_in_bound(self.adapter, bound))
    }

    /// A cursor that edits, on the last member whose key meets the bound, null if there is none. The call finds the member as `upper_bound` does. O(log n).
    #[inline]
    pub fn upper_bound_mut<'a, L: RBTreeOps, O: Values<A::Value>>(
        &'a mut self,
        links: &'a mut L,
        objects: &O,
        bound: Bound<&A::Key>,
    ) -> CursorMut<'a, A, L, E>
        requires placed { RepresentsPlaced (RepresentsKept E.kept L.node (L.table links.old) (head_of self.old)) (O.values objects.now) }
        ensures { EditsAtBorder E.kept L.node L.table (IsUpperBorder (compared_within (order_there A.Key.cmp
            (A.key_of (adapter_of self.old))) (O.values objects.now) bound.entry)) self.entry links.entry result }
    {
        let current = self.upper(&*links, objects, &mut probe_in_bound(self.adapter, bound));
        CursorMut::new(self, links, current)
    }

    /// A cursor that owns the tree, on the last member whose key meets the bound, null if there is none. The call finds the member as `upper_bound` does.
    /// O(log n).
    #[inline]
    pub fn upper_bound_owning<L: RBTreeOps, O: Values<A::Value>>(
        self,
        links: &L,
        objects: &O,
        bound: Bound<&A::Key>,
    ) -> CursorOwning<A, E>
        requires placed { RepresentsPlaced (RepresentsKept E.kept L.node (L.table links.now) (head_of self)) (O.values objects.now) }
        ensures { OwnsAtBorder E.kept L.node L.table (IsUpperBorder (compared_within (order_there A.Key.cmp
            (A.key_of (adapter_of self))) (O.values objects.now) bound.entry)) self links.now result }
    {
        let current = self.upper(links, objects, &mut probe_in_bound(self.adapter, bound));
        CursorOwning::new(self, current)
    }
}
