//! An entry is the member with a key, or the gap where the key would be inserted.
//!
//! ```text
//! let cursor = tree.entry(&mut links, &objects, &5).or_insert_with(|| object)?;
//! ```

ghost use Rattle.std.specs.Prelude.{◌≡◌, Ok, Some, IsSome, List, codes};
ghost use Rattle.ic_link_ops.specs.Prelude.{Place, IsCovered, IsValidCursor, RepresentsPlaced};
ghost use Rattle.ic_rbtree.specs.Borders.{Finds};
ghost use Rattle.ic_rbtree.specs.Comparing.{compared, order_of, HasRoom, Looks};
ghost use Rattle.ic_rbtree.specs.CursorMut as editing;
ghost use Rattle.ic_rbtree.specs.Entry.{IfOccupied, IfVacant, IsVacantFor, CanInsert, InsertsInto, links_of, IsBorrowed};
ghost use Rattle.ic_rbtree.specs.Kept.{RepresentsKept};
ghost use Rattle.ic_rbtree.specs.Tree.{head_of, adapter_of};

use crate::head::{Root, TreeHead};
use crate::keys::descent::descend;
use crate::linking::insert;
use crate::{CursorMut, KeyAdapter, KeyProbe, Probe, RBTree};
use ic_link_ops::rbtree::RBTreeOps;
use ic_link_ops::{LinkOps, PlaceWord, Side};
use ic_unsafe_ref::{UnsafeRef, Values};
use std::error::Error;
use std::fmt;

/// The gap of a tree where the searched key would be inserted, with the tree and the table of the tree's links.
pub struct InsertCursor<'a, A, L, E = Root> {
    tree: &'a mut RBTree<A, E>,
    links: &'a mut L,
    parent: PlaceWord,
    side: Side,
}

impl<A, L, E> Drop for InsertCursor<'_, A, L, E> {
    fn drop(self)
        ensures tree { self.exit.0.now ≡ self.entry.tree.now }
        ensures links { self.exit.1.0.now ≡ self.entry.links.now }
    {
        let InsertCursor {
            tree: _,
            links: _,
            parent: _,
            side: _,
        } = self;
    }
}

/// The error of an insert that was refused because the object is linked. The error contains the object, and the gap as it was before the insert.
#[derive(Drop)]
pub struct RefusedInsert<'a, A: KeyAdapter, L, E = Root> {
    /// The gap at which the insert was refused. The tree and the table are as they were.
    pub gap: InsertCursor<'a, A, L, E>,
    /// The object that was refused.
    pub object: UnsafeRef<A::Value>,
}

/// Prints the place of the refused object.
impl<A: KeyAdapter, L, E> fmt::Debug for RefusedInsert<'_, A, L, E> {
    fn fmt<W: fmt::Write>(&self, f: &mut fmt::Formatter<W>) -> fmt::Result {
        f.debug_tuple("RefusedInsert").field(&self.object).finish()
    }
}

impl<A: KeyAdapter, L, E> fmt::Display for RefusedInsert<'_, A, L, E> {
    ghost output = { λ _. Some (codes "the object is linked already") };

    fn fmt<W: fmt::Write>(&self, f: &mut fmt::Formatter<W>) -> fmt::Result {
        f.write_str("the object is linked already")
    }
}

impl<A: KeyAdapter, L, E> Error for RefusedInsert<'_, A, L, E> {}

/// The result of `entry`: a cursor on the first member with the key, or the gap where the key would be inserted.
#[derive(Drop)]
pub enum Entry<'a, A: KeyAdapter, L, E: TreeHead = Root> {
    /// A member has the key, and the cursor is on the first member with the key.
    Occupied(CursorMut<'a, A, L, E>),
    /// No member that the search compared has the key.
    Vacant(InsertCursor<'a, A, L, E>),
}

impl<A: KeyAdapter, E: TreeHead> RBTree<A, E> {
    /// The first member that compares equal, or the gap where the search ended.
    ///
    /// It requires that all members are placed, and that the probe's count is at most `u64::MAX - 66`. It descends as `find_by`
    /// does. O(log n): v comparisons in a tree of n members, with `2^v <= (n + 1)^2`.
    pub fn entry_by<'a, L: RBTreeOps, P: Probe<A::Value>, O: Values<A::Value>>(
        &'a mut self,
        links: &'a mut L,
        objects: &O,
        probe: &mut P,
    ) -> Entry<'a, A, L, E>
        requires placed { RepresentsPlaced (RepresentsKept E.kept L.node (L.table links.old) (head_of self.old)) (O.values objects.now) }
        requires room { HasRoom (P.count probe.old) }
        ensures occupied { (s : List Place) → RepresentsKept E.kept L.node (L.table links.old) (head_of self.old) s → IfOccupied result (λ c.
            Finds (compared (P.order probe.old) (O.values objects.now)) s (editing.position c) × IsSome (editing.position c)) }
        ensures stands { IfOccupied result (λ c. IsValidCursor (RepresentsKept E.kept L.node) L.table (editing.site_of c)) }
        ensures vacant { (s : List Place) → RepresentsKept E.kept L.node (L.table links.old) (head_of self.old) s → IfVacant result (λ v.
            IsVacantFor L.node (compared (P.order probe.old) (O.values objects.now)) (L.table links.old) s v) }
        ensures occupied_borrows { IfOccupied result (editing.IsBorrowed self.entry links.entry) }
        ensures vacant_borrows { IfVacant result (IsBorrowed self.entry links.entry) }
        ensures looks { (s : List Place) → RepresentsKept E.kept L.node (L.table links.old) (head_of self.old) s
            → Looks P.order P.count probe.old probe.new s }
    {
        let root = self.head.root();
        let descent = descend(&*links, root, objects, probe, Side::Left);
        if descent.is_equal() {
            let current = PlaceWord::of(descent.back.get());
            return Entry::Occupied(CursorMut::new(self, links, current));
        }
        let parent = PlaceWord::of(descent.parent.get());
        Entry::Vacant(InsertCursor {
            tree: self,
            links,
            parent,
            side: descent.side,
        })
    }

    /// The first member with this key, or the gap where the key would be inserted: `entry_by` with a `KeyProbe`. O(log n).
    pub fn entry<'a, L: RBTreeOps, O: Values<A::Value>>(
        &'a mut self,
        links: &'a mut L,
        objects: &O,
        key: &A::Key,
    ) -> Entry<'a, A, L, E>
        requires placed { RepresentsPlaced (RepresentsKept E.kept L.node (L.table links.old) (head_of self.old)) (O.values objects.now) }
        ensures occupied { (s : List Place) → RepresentsKept E.kept L.node (L.table links.old) (head_of self.old) s → IfOccupied result (λ c.
            Finds (compared (order_of A.Key.cmp (A.key_of (adapter_of self.old)) key.now) (O.values objects.now)) s (editing.position c)
            × IsSome (editing.position c)) }
        ensures stands { IfOccupied result (λ c. IsValidCursor (RepresentsKept E.kept L.node) L.table (editing.site_of c)) }
        ensures vacant { (s : List Place) → RepresentsKept E.kept L.node (L.table links.old) (head_of self.old) s → IfVacant result (λ v.
            IsVacantFor L.node (compared (order_of A.Key.cmp (A.key_of (adapter_of self.old)) key.now) (O.values objects.now))
            (L.table links.old) s v) }
        ensures occupied_borrows { IfOccupied result (editing.IsBorrowed self.entry links.entry) }
        ensures vacant_borrows { IfVacant result (IsBorrowed self.entry links.entry) }
    {
        let mut probe = KeyProbe::new(self.adapter, key);
        self.entry_by(links, objects, &mut probe)
    }
}

impl<'a, A: KeyAdapter, L: RBTreeOps, E: TreeHead> InsertCursor<'a, A, L, E> {
    /// Inserts the object at the gap, whatever its key is, unless its link is refused. Returns a cursor on the object.
    ///
    /// It requires that the object's place is covered. If the link is refused, the object and the gap are returned, and the tree and the table are as they
    /// were. The repair of the tree takes O(log n). The call compares no keys.
    pub fn insert(
        self,
        object: UnsafeRef<A::Value>,
    ) -> Result<CursorMut<'a, A, L, E>, RefusedInsert<'a, A, L, E>>
        requires covered { IsCovered (L.table (links_of self)) object }
        requires vacant { CanInsert E.kept L.node L.table self }
        ensures { InsertsInto E.kept L.node L.table L.Trace L.Refused self.entry object result }
    {
        let InsertCursor {
            tree,
            links,
            parent,
            side,
        } = self;
        if !insert(links, &mut tree.head, parent.get(), side, object.place()) {
            let gap = InsertCursor {
                tree,
                links,
                parent,
                side,
            };
            return Err(RefusedInsert { gap, object });
        }
        let current = PlaceWord::of(Some(object.place()));
        Ok(CursorMut::new(tree, links, current))
    }
}

impl<'a, A: KeyAdapter, L: RBTreeOps, E: TreeHead> Entry<'a, A, L, E> {
    /// Returns the cursor on the member that has the key, or inserts the object at the gap and returns a cursor on it.
    ///
    /// If the entry is vacant, the call requires that the object's place is covered. If the link is refused, the object and the gap are returned, and the
    /// tree and the table are as they were. If the entry is occupied, nothing is linked. O(log n).
    pub fn or_insert(
        self,
        object: UnsafeRef<A::Value>,
    ) -> Result<CursorMut<'a, A, L, E>, RefusedInsert<'a, A, L, E>>
        requires covered { IfVacant self (λ v. IsCovered (L.table (links_of v)) object) }
        requires vacant { IfVacant self (CanInsert E.kept L.node L.table) }
        ensures occupied { IfOccupied self.entry (λ c. result ≡ Ok c) }
        ensures vacant { IfVacant self.entry (λ v. InsertsInto E.kept L.node L.table L.Trace L.Refused v object result) }
    {
        match self {
            Entry::Occupied(cursor) => Ok(cursor),
            Entry::Vacant(gap) => gap.insert(object),
        }
    }

    /// Does what `or_insert` does with the object that `make` returns. It calls `make` only if the entry is vacant. O(log n).
    pub fn or_insert_with<F: FnOnce() -> UnsafeRef<A::Value>>(
        self,
        make: F,
    ) -> Result<CursorMut<'a, A, L, E>, RefusedInsert<'a, A, L, E>>
        requires callable { IfVacant self (λ v. F.pre make) }
        requires covered { IfVacant self (λ v. (object : Place) → F.post make object → IsCovered (L.table (links_of v)) object) }
        requires vacant { IfVacant self (CanInsert E.kept L.node L.table) }
        ensures occupied { IfOccupied self.entry (λ c. result ≡ Ok c) }
        ensures vacant { IfVacant self.entry (λ v. (object : Place) × F.post make object
            × InsertsInto E.kept L.node L.table L.Trace L.Refused v object result) }
    {
        match self {
            Entry::Occupied(cursor) => Ok(cursor),
            Entry::Vacant(gap) => gap.insert(make()),
        }
    }
}
