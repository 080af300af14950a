//! Calls on a tree as a whole.
//!
//! ```text
//! let rest = tree.take();      // `tree` is empty now
//! rest.dispose(&mut links);    // and its members are unlinked
//! ```

ghost use Rattle.std.specs.Prelude.{◌≡◌, List};
ghost use Rattle.ic_link_ops.specs.Prelude.{Place, ChangesOnlyIn, releases_each};
ghost use Rattle.ic_rbtree.specs.Kept.{RepresentsKept, RepresentsKeptSome, IsEmptied};
ghost use Rattle.ic_rbtree.specs.Tree.{head_of, adapter_of};

use crate::head::TreeHead;
use crate::{KeyAdapter, RBTree};
use ic_link_ops::LinkOps;
use ic_link_ops::rbtree::RBTreeOps;
use std::mem;

impl<A: KeyAdapter, E: TreeHead> RBTree<A, E> {
    /// Removes all objects from the tree: each member is unlinked, in order, and the tree is empty.
    ///
    /// The call takes one step for each member, and no memory. Trees that share no member with this tree stay as they are. O(n).
    pub fn clear<L: RBTreeOps>(&mut self, links: &mut L)
        requires shown { RepresentsKeptSome E.kept L.node (L.table links.old) (head_of self.old) }

        ensures empty { IsEmptied (E.kept (head_of self.new)) }
        ensures adapter { adapter_of self.new ≡ adapter_of self.old }
        ensures released { (s : List Place) → RepresentsKept E.kept L.node (L.table links.old) (head_of self.old) s
            → L.Trace links.old links.new (releases_each s) }
        ensures frame { (s : List Place) → RepresentsKept E.kept L.node (L.table links.old) (head_of self.old) s
            → ChangesOnlyIn (L.table links.old) (L.table links.new) s }
    {
        self.take().dispose(links);
    }

    /// Removes all objects from a tree and consumes the tree. The table changes as in [`clear`](Self::clear). O(n).
    pub fn dispose<L: RBTreeOps>(self, links: &mut L)
        requires shown { RepresentsKeptSome E.kept L.node (L.table links.old) (head_of self) }

        ensures released { (s : List Place) → RepresentsKept E.kept L.node (L.table links.old) (head_of self) s
            → L.Trace links.old links.new (releases_each s) }
        ensures frame { (s : List Place) → RepresentsKept E.kept L.node (L.table links.old) (head_of self) s
            → ChangesOnlyIn (L.table links.old) (L.table links.new) s }
    {
        self.into_iter(links).finish();
    }
}

impl<A: Copy, E: TreeHead> RBTree<A, E> {
    /// Empties the tree, and leaves the objects that were in it linked. O(1): it reads no table.
    ///
    /// The objects stay linked, so no tree accepts them until the table unlinks them. For a plain table, `force_unlink` unlinks an object.
    #[inline]
    pub fn fast_clear(&mut self)
        ensures empty { IsEmptied (E.kept (head_of self.new)) }
        ensures adapter { adapter_of self.new ≡ adapter_of self.old }
    {
        let _ = self.take();
    }

    /// Returns the tree with all its members, and leaves this tree empty. O(1): it reads no table, and no link changes.
    #[inline]
    pub fn take(&mut self) -> RBTree<A, E>
        ensures whole { result ≡ self.old }
        ensures empty { IsEmptied (E.kept (head_of self.new)) }
        ensures adapter { adapter_of self.new ≡ adapter_of self.old }
    {
        let adapter = self.adapter;
        mem::replace(self, RBTree::empty(adapter))
    }
}
