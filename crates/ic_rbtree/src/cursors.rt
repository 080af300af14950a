//! The cursors of a tree: one that reads, one that edits, and one that edits and owns the tree.
//!
//! ```text
//! let mut cursor = tree.front(&links); // on the first member
//! while let Some(place) = cursor.get_ptr() {
//!     cursor.move_next();
//! }
//! let mut cursor = tree.front_mut(&mut links);
//! let removed = cursor.remove(); // the first, and the cursor is on the second
//! let mut cursor = tree.cursor_owning(); // null; it is handed the table at each call
//! cursor.move_next(&links);
//! let tree = cursor.into_inner();
//! ```

ghost use Rattle.std.specs.Prelude.{◌≡◌, Some, None};
ghost use Rattle.ic_link_ops.specs.declared.side.Side.TheVariants.{Left, Right};
ghost use Rattle.ic_link_ops.specs.Positions.{IsValidCursor, HasMember};
ghost use Rattle.ic_rbtree.specs.Kept.{RepresentsKept, EndIs, HasEnds};
ghost use Rattle.ic_rbtree.specs.Tree.{head_of};

use crate::head::{Root, TreeHead};
use crate::{KeyAdapter, RBTree};
use ic_link_ops::rbtree::RBTreeOps;
use ic_link_ops::{LinkOps, PlaceWord};
use ic_unsafe_ref::UnsafeRef;

/// A cursor that reads: on a member, or at null, which is between the last member and the first.
///
/// Each move takes O(log n).
pub type Cursor<'a, A, L, E = Root> = ic_cursors::Cursor<'a, RBTree<A, E>, L>;

impl<A: KeyAdapter, E: TreeHead> RBTree<A, E> {
    ghost use Rattle.ic_rbtree.specs.Cursor.{tree_of, links_of, position, site_of};

    /// A cursor at null. O(1).
    #[inline]
    pub fn cursor<'a, L: RBTreeOps>(&'a self, links: &'a L) -> Cursor<'a, A, L, E>
        ensures tree { tree_of result ≡ self.now }
        ensures links { links_of result ≡ links.now }
        ensures null { position result ≡ None }
    {
        Cursor::new(self, links, PlaceWord::of(None))
    }

    /// A cursor on the object, which has to be a member. O(1).
    #[inline]
    pub fn cursor_from_ptr<'a, L: RBTreeOps>(
        &'a self,
        links: &'a L,
        object: UnsafeRef<A::Value>,
    ) -> Cursor<'a, A, L, E>
        requires member { HasMember (RepresentsKept E.kept L.node (L.table links.now) (head_of self.now)) object }
        ensures tree { tree_of result ≡ self.now }
        ensures links { links_of result ≡ links.now }
        ensures position { position result ≡ Some object }
        ensures stands { IsValidCursor (RepresentsKept E.kept L.node) L.table (site_of result) }
    {
        Cursor::new(self, links, PlaceWord::of(Some(object.place())))
    }

    /// A cursor on the first member, or at null in an empty tree. O(log n), or O(1) if the tree stores its first member.
    ///
    /// It requires that the table represents the tree, unless the tree stores its ends.
    #[inline]
    pub fn front<'a, L: RBTreeOps>(&'a self, links: &'a L) -> Cursor<'a, A, L, E>
        requires shown { HasEnds L.node (L.table links.now) (E.kept (head_of self.now)) }
        ensures tree { tree_of result ≡ self.now }
        ensures links { links_of result ≡ links.now }
        ensures position { EndIs L.node Left (L.table links.now) (E.kept (head_of self.now)) (position result) }
    {
        Cursor::new(self, links, PlaceWord::of(self.first(links)))
    }

    /// A cursor on the last member, or at null in an empty tree. O(log n), or O(1) if the tree stores its last member.
    ///
    /// It requires that the table represents the tree, unless the tree stores its ends.
    #[inline]
    pub fn back<'a, L: RBTreeOps>(&'a self, links: &'a L) -> Cursor<'a, A, L, E>
        requires shown { HasEnds L.node (L.table links.now) (E.kept (head_of self.now)) }
        ensures tree { tree_of result ≡ self.now }
        ensures links { links_of result ≡ links.now }
        ensures position { EndIs L.node Right (L.table links.now) (E.kept (head_of self.now)) (position result) }
    {
        Cursor::new(self, links, PlaceWord::of(self.last(links)))
    }
}

/// A cursor that edits. The cursor borrows the tree and the table of the tree's links.
///
/// A move, an insert and a removal take O(log n), a replacement O(1). Only `insert` compares keys. With all other edits the caller
/// chooses the order.
pub type CursorMut<'a, A, L, E = Root> = ic_cursors::CursorMut<'a, RBTree<A, E>, L>;

impl<A: KeyAdapter, E: TreeHead> RBTree<A, E> {
    ghost use Rattle.ic_rbtree.specs.CursorMut.{tree_of, links_of, position, site_of, IsBorrowed};

    /// A cursor at null that edits. O(1).
    #[inline]
    pub fn cursor_mut<'a, L: RBTreeOps>(&'a mut self, links: &'a mut L) -> CursorMut<'a, A, L, E>
        ensures borrows { IsBorrowed self.entry links.entry result }
        ensures null { position result ≡ None }
    {
        CursorMut::new(self, links, PlaceWord::of(None))
    }

    /// A cursor that edits, on the object, which has to be a member. O(1).
    #[inline]
    pub fn cursor_mut_from_ptr<'a, L: RBTreeOps>(
        &'a mut self,
        links: &'a mut L,
        object: UnsafeRef<A::Value>,
    ) -> CursorMut<'a, A, L, E>
        requires member { HasMember (RepresentsKept E.kept L.node (L.table links.old) (head_of self.old)) object }
        ensures borrows { IsBorrowed self.entry links.entry result }
        ensures position { position result ≡ Some object }
        ensures stands { IsValidCursor (RepresentsKept E.kept L.node) L.table (site_of result) }
    {
        let current = PlaceWord::of(Some(object.place()));
        CursorMut::new(self, links, current)
    }

    /// A cursor that edits, on the first member, or at null in an empty tree. O(log n), or O(1) if the tree stores its first member.
    ///
    /// It requires that the table represents the tree, unless the tree stores its ends.
    #[inline]
    pub fn front_mut<'a, L: RBTreeOps>(&'a mut self, links: &'a mut L) -> CursorMut<'a, A, L, E>
        requires shown { HasEnds L.node (L.table links.old) (E.kept (head_of self.old)) }
        ensures borrows { IsBorrowed self.entry links.entry result }
        ensures position { EndIs L.node Left (L.table links.old) (E.kept (head_of self.old)) (position result) }
    {
        let current = PlaceWord::of(self.first(&*links));
        CursorMut::new(self, links, current)
    }

    /// A cursor that edits, on the last member, or at null in an empty tree. O(log n), or O(1) if the tree stores its last member.
    ///
    /// It requires that the table represents the tree, unless the tree stores its ends.
    #[inline]
    pub fn back_mut<'a, L: RBTreeOps>(&'a mut self, links: &'a mut L) -> CursorMut<'a, A, L, E>
        requires shown { HasEnds L.node (L.table links.old) (E.kept (head_of self.old)) }
        ensures borrows { IsBorrowed self.entry links.entry result }
        ensures position { EndIs L.node Right (L.table links.old) (E.kept (head_of self.old)) (position result) }
    {
        let current = PlaceWord::of(self.last(&*links));
        CursorMut::new(self, links, current)
    }
}

/// A cursor that owns its tree. Each call takes the table of the tree's links, and costs as much as the call of [`CursorMut`](crate::CursorMut) with this
/// name.
pub type CursorOwning<A, E = Root> = ic_cursors::CursorOwning<RBTree<A, E>>;

impl<A: KeyAdapter, E: TreeHead> RBTree<A, E> {
    ghost use Rattle.ic_rbtree.specs.CursorOwning.{tree_of, position, site_of};

    /// A cursor at null that owns the tree. O(1).
    #[inline]
    pub fn cursor_owning(self) -> CursorOwning<A, E>
        ensures tree { tree_of result ≡ self }
        ensures null { position result ≡ None }
    {
        CursorOwning::new(self, PlaceWord::of(None))
    }

    /// A cursor that owns the tree, on the object, which has to be a member. O(1).
    #[inline]
    pub fn cursor_owning_from_ptr<L: RBTreeOps>(
        self,
        links: &L,
        object: UnsafeRef<A::Value>,
    ) -> CursorOwning<A, E>
        requires member { HasMember (RepresentsKept E.kept L.node (L.table links.now) (head_of self)) object }
        ensures tree { tree_of result ≡ self }
        ensures position { position result ≡ Some object }
        ensures stands { IsValidCursor (RepresentsKept E.kept L.node) L.table (site_of links.now result) }
    {
        let _ = links;
        CursorOwning::new(self, PlaceWord::of(Some(object.place())))
    }

    /// A cursor that owns the tree, on the first member, or at null in an empty tree. O(log n), or O(1) if the tree stores its first member.
    ///
    /// It requires that the table represents the tree, unless the tree stores its ends.
    #[inline]
    pub fn front_owning<L: RBTreeOps>(self, links: &L) -> CursorOwning<A, E>
        requires shown { HasEnds L.node (L.table links.now) (E.kept (head_of self)) }
        ensures tree { tree_of result ≡ self }
        ensures position { EndIs L.node Left (L.table links.now) (E.kept (head_of self)) (position result) }
    {
        let at = PlaceWord::of(self.first(links));
        CursorOwning::new(self, at)
    }

    /// A cursor that owns the tree, on the last member, or at null in an empty tree. O(log n), or O(1) if the tree stores its last member.
    ///
    /// It requires that the table represents the tree, unless the tree stores its ends.
    #[inline]
    pub fn back_owning<L: RBTreeOps>(self, links: &L) -> CursorOwning<A, E>
        requires shown { HasEnds L.node (L.table links.now) (E.kept (head_of self)) }
        ensures tree { tree_of result ≡ self }
        ensures position { EndIs L.node Right (L.table links.now) (E.kept (head_of self)) (position result) }
    {
        let at = PlaceWord::of(self.last(links));
        CursorOwning::new(self, at)
    }
}
