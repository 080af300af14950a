//! The inner table that a field's table contains. The calls of doubly linked lists and of trees use it, because not every kind of table can serve
//! them.
//!
//! ```text
//! tree.remove_at(links.tree_mut(), at) // proved: the field carries trees
//! ```

ghost use Rattle.std.specs.Prelude.{◌≡◌, true};
ghost use Rattle.std.specs.Borrow.{sem};
ghost use Rattle.ic_any_collection.specs.declared.kind.Kind.TheVariants as kind;
ghost use Rattle.ic_any_collection.specs.declared.any_table.AnyTable.TheVariants.{WithPrev};
ghost use Rattle.ic_any_collection.specs.declared.table_with_prev.TableWithPrev.TheVariants.{Tree};
ghost use Rattle.ic_any_collection.specs.Prelude.{carries, kind_of, table_in};
ghost use Rattle.ic_any_collection.specs.TablesWithPrev as with_prev;
ghost use Rattle.ic_any_collection.specs.Lends.{LendsWithPrev, LendsTree, LendsTreeOf};

use crate::{AnyTable, TableWithPrev};
use ic_link_ops::rbtree;
use std::alloc::Allocator;

impl<M: Allocator> AnyTable<M> {
    /// Returns the table whose entries also name the previous place. It requires that the field's table can serve doubly linked lists.
    #[inline(always)]
    pub(crate) fn with_prev(&self) -> &TableWithPrev<M>
        requires carried { carries (kind_of (table_in self.now)) kind.Doubly ≡ true }
        ensures { self.now ≡ WithPrev result.now }
    {
        match self {
            Self::WithPrev(links) => links,
            Self::Singly(_) | Self::Xor(_) => unreachable!(), // proved: these carry no such list
        }
    }

    /// Returns the table whose entries also name the previous place, by a mutable reference.
    #[inline(always)]
    pub(crate) fn with_prev_mut(&mut self) -> &mut TableWithPrev<M>
        requires carried { carries (kind_of (table_in self.old)) kind.Doubly ≡ true }
        ensures* writes_back { sem 𝓛 (LendsWithPrev M.row M.Allocator self.entry result) }
        ensures inner { self.old ≡ WithPrev result.now }
    {
        match self {
            Self::WithPrev(links) => links,
            Self::Singly(_) | Self::Xor(_) => unreachable!(),
        }
    }

    /// Returns the table of tree links. It requires that the field's table can serve trees.
    #[inline(always)]
    pub(crate) fn tree(&self) -> &rbtree::LinkOps<M>
        requires carried { carries (kind_of (table_in self.now)) kind.Tree ≡ true }
        ensures { self.now ≡ WithPrev (Tree result.now) }
    {
        match self {
            Self::WithPrev(TableWithPrev::Tree(links)) => links,
            _ => unreachable!(), // proved: no other one carries trees
        }
    }

    /// Returns the table of tree links of a field's table, by a mutable reference.
    #[inline(always)]
    pub(crate) fn tree_mut(&mut self) -> &mut rbtree::LinkOps<M>
        requires carried { carries (kind_of (table_in self.old)) kind.Tree ≡ true }
        ensures* writes_back { sem 𝓛 (LendsTree M.row M.Allocator self.entry result) }
        ensures inner { self.old ≡ WithPrev (Tree result.now) }
    {
        self.with_prev_mut().tree_mut()
    }
}

impl<M: Allocator> TableWithPrev<M> {
    /// Returns the table of tree links by a mutable reference. It requires that this table can serve trees.
    #[inline(always)]
    fn tree_mut(&mut self) -> &mut rbtree::LinkOps<M>
        requires carried { carries (kind_of (with_prev.table_in self.old)) kind.Tree ≡ true }
        ensures* writes_back { sem 𝓛 (LendsTreeOf M.row M.Allocator self.entry result) }
        ensures inner { self.old ≡ Tree result.now }
    {
        match self {
            Self::Tree(links) => links,
            Self::Doubly(_) => unreachable!(),
        }
    }
}
