//! Searches for the first member with a key.
//!
//! ```text
//! let cursor = tree.find(&links, &objects, &5); // on the first member of key 5, null if there is none
//! ```

ghost use Rattle.std.specs.Prelude.{◌≡◌, List};
ghost use Rattle.ic_link_ops.specs.Prelude.{Place, IsValidCursor, RepresentsPlaced};
ghost use Rattle.ic_rbtree.specs.Comparing.{compared, order_of, HasRoom, Looks};
ghost use Rattle.ic_rbtree.specs.Borders.{Finds};
ghost use Rattle.ic_rbtree.specs.Kept.{RepresentsKept};
ghost use Rattle.ic_rbtree.specs.Tree.{head_of, adapter_of};

use crate::head::TreeHead;
use crate::{Cursor, CursorMut, CursorOwning, KeyAdapter, KeyProbe, Probe, RBTree};
use ic_link_ops::LinkOps;
use ic_link_ops::rbtree::RBTreeOps;
use ic_unsafe_ref::Values;

impl<A: KeyAdapter, E: TreeHead> RBTree<A, E> {
    ghost use Rattle.ic_rbtree.specs.Cursor.{tree_of, links_of, position, site_of};
    ghost use Rattle.ic_rbtree.specs.CursorMut as editing;
    ghost use Rattle.ic_rbtree.specs.CursorOwning as owning;

    /// A cursor on the first member that compares equal, null if there is none.
    ///
    /// It requires that all members are placed, and that the probe's count is at most `u64::MAX - 66`. The search goes left at a member that is greater
    /// than the searched key or equal to it, and right at a member that is less. If the members are not sorted for the probe, the search may miss equal
    /// members. O(log n): v comparisons in a tree of n members, with `2^v <= (n + 1)^2`, each with one look-up of an object.
    #[inline]
    pub fn find_by<'a, L: RBTreeOps, P: Probe<A::Value>, O: Values<A::Value>>(
        &'a self,
        links: &'a L,
        objects: &O,
        probe: &mut P,
    ) -> Cursor<'a, A, L, E>
        requires placed { RepresentsPlaced (RepresentsKept E.kept L.node (L.table links.now) (head_of self.now)) (O.values objects.now) }
        requires room { HasRoom (P.count probe.old) }
        ensures tree { tree_of result ≡ self.now }
        ensures links { links_of result ≡ links.now }
        ensures found { (s : List Place) → RepresentsKept E.kept L.node (L.table links.now) (head_of self.now) s
            → Finds (compared (P.order probe.old) (O.values objects.now)) s (position result) }
        ensures stands { IsValidCursor (RepresentsKept E.kept L.node) L.table (site_of result) }
        ensures looks { (s : List Place) → RepresentsKept E.kept L.node (L.table links.now) (head_of self.now) s
            → Looks P.order P.count probe.old probe.new s }
    {
        Cursor::new(self, links, self.first_equal(links, objects, probe))
    }

    /// A cursor on the first member of this key, null if there is none: `find_by` with a `KeyProbe`. O(log n).
    #[inline]
    pub fn find<'a, L: RBTreeOps, O: Values<A::Value>>(
        &'a self,
        links: &'a L,
        objects: &O,
        key: &A::Key,
    ) -> Cursor<'a, A, L, E>
        requires placed { RepresentsPlaced (RepresentsKept E.kept L.node (L.table links.now) (head_of self.now)) (O.values objects.now) }
        ensures tree { tree_of result ≡ self.now }
        ensures links { links_of result ≡ links.now }
        ensures found { (s : List Place) → RepresentsKept E.kept L.node (L.table links.now) (head_of self.now) s
            → Finds (compared (order_of A.Key.cmp (A.key_of (adapter_of self.now)) key.now) (O.values objects.now)) s (position result) }
        ensures stands { IsValidCursor (RepresentsKept E.kept L.node) L.table (site_of result) }
    {
        self.find_by(links, objects, &mut KeyProbe::new(self.adapter, key))
    }

    /// A cursor that edits, on the first member of this key, null if there is none. The call finds the member as `find` does. O(log n).
    #[inline]
    pub fn find_mut<'a, L: RBTreeOps, O: Values<A::Value>>(
        &'a mut self,
        links: &'a mut L,
        objects: &O,
        key: &A::Key,
    ) -> CursorMut<'a, A, L, E>
        requires placed { RepresentsPlaced (RepresentsKept E.kept L.node (L.table links.old) (head_of self.old)) (O.values objects.now) }
        ensures borrows { editing.IsBorrowed self.entry links.entry result }
        ensures found { (s : List Place) → RepresentsKept E.kept L.node (L.table links.old) (head_of self.old) s
            → Finds (compared (order_of A.Key.cmp (A.key_of (adapter_of self.old)) key.now) (O.values objects.now)) s
            (editing.position result) }
        ensures stands { IsValidCursor (RepresentsKept E.kept L.node) L.table (editing.site_of result) }
    {
        let current = self.first_equal(&*links, objects, &mut KeyProbe::new(self.adapter, key));
        CursorMut::new(self, links, current)
    }

    /// A cursor that owns the tree, on the first member of this key, null if there is none. The call finds the member as `find` does. O(log n).
    #[inline]
    pub fn find_owning<L: RBTreeOps, O: Values<A::Value>>(
        self,
        links: &L,
        objects: &O,
        key: &A::Key,
    ) -> CursorOwning<A, E>
        requires placed { RepresentsPlaced (RepresentsKept E.kept L.node (L.table links.now) (head_of self)) (O.values objects.now) }
        ensures tree { owning.tree_of result ≡ self }
        ensures found { (s : List Place) → RepresentsKept E.kept L.node (L.table links.now) (head_of self) s
            → Finds (compared (order_of A.Key.cmp (A.key_of (adapter_of self)) key.now) (O.values objects.now)) s
            (owning.position result) }
        ensures stands { IsValidCursor (RepresentsKept E.kept L.node) L.table (owning.site_of links.now result) }
    {
        let current = self.first_equal(links, objects, &mut KeyProbe::new(self.adapter, key));
        CursorOwning::new(self, current)
    }
}
