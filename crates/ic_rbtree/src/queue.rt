//! Removals at both ends, and an insert after all members. These calls compare no keys.
//!
//! ```text
//! let due = timers.pop_front(&mut links);
//! timers.push_back(&mut links, timer)?;
//! ```

ghost use Rattle.ic_link_ops.specs.Prelude.{first, last, at_front, at_back, remove, but_last, IsCovered, Inserts};
ghost use Rattle.ic_rbtree.specs.Kept.{RepresentsKept, RepresentsKeptSome};
ghost use Rattle.ic_rbtree.specs.Tree.{head_of};
ghost use Rattle.ic_rbtree.specs.TreeEdits.{InsertsIntoTree, PopsFromTree};

use crate::head::TreeHead;
use crate::linking::insert;
use crate::{KeyAdapter, RBTree};
use ic_link_ops::rbtree::RBTreeOps;
use ic_link_ops::{AlreadyLinked, LinkOps, Side};
use ic_unsafe_ref::UnsafeRef;

impl<A: KeyAdapter, E: TreeHead> RBTree<A, E> {
    /// Removes the first object and returns it, `None` if the tree is empty. O(log n). If the tree stores its ends, the call makes no descent, and takes
    /// O(1) on average over removals.
    #[inline]
    pub fn pop_front<L: RBTreeOps>(&mut self, links: &mut L) -> Option<UnsafeRef<A::Value>>
        requires shown { RepresentsKeptSome E.kept L.node (L.table links.old) (head_of self.old) }
        ensures { PopsFromTree E.kept L.node L.table L.Trace first (λ s. remove (at_front s)) links.old self.old result links.new self.new }
    {
        let object = UnsafeRef::new(self.first(&*links)?);
        self.remove(links, &object);
        Some(object)
    }

    /// Removes the last object and returns it, `None` if the tree is empty. It costs as much as [`pop_front`](Self::pop_front), O(log n).
    #[inline]
    pub fn pop_back<L: RBTreeOps>(&mut self, links: &mut L) -> Option<UnsafeRef<A::Value>>
        requires shown { RepresentsKeptSome E.kept L.node (L.table links.old) (head_of self.old) }
        ensures { PopsFromTree E.kept L.node L.table L.Trace last but_last links.old self.old result links.new self.new }
    {
        let object = UnsafeRef::new(self.last(&*links)?);
        self.remove(links, &object);
        Some(object)
    }

    /// Inserts the object after all others, whatever its key is, unless its link is refused. It compares no keys. O(log n). If the tree stores its ends,
    /// the call makes no descent, and takes O(1) on average over inserts.
    ///
    /// It requires that the object's place is covered. If the link is refused, the object is returned, and the tree and its
    /// links are as they were.
    #[inline]
    pub fn push_back<L: RBTreeOps>(
        &mut self,
        links: &mut L,
        object: UnsafeRef<A::Value>,
    ) -> Result<(), AlreadyLinked<A::Value>>
        requires covered { IsCovered (L.table links.old) object }
        requires shown { RepresentsKeptSome E.kept L.node (L.table links.old) (head_of self.old) }
        ensures { InsertsIntoTree E.kept L.node L.table L.Trace L.Refused
            (λ t t' head s. Inserts (RepresentsKept E.kept L.node) t t' head (at_back s)) links.old self.old object result links.new self.new }
    {
        let last = self.last(&*links);
        if !insert(links, &mut self.head, last, Side::Right, object.place()) {
            return Err(AlreadyLinked(object));
        }
        Ok(())
    }
}
