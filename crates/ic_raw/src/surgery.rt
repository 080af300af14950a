//! This module inserts and removes members of a tree over a view of the table. A caller can pass an implementation of the trait `Surgery`, which can
//! record the words that an edit writes.
//!
//! ```text
//! search_calls::insert_by(&mut Plain, table, keys, tree, 7) // as `insert`
//! ```

ghost use Rattle.std.specs.Prelude.{Some, [], ◌∷◌, Option};
ghost use Rattle.ic_link_ops.specs.Prelude.{Place, Table};
ghost use Rattle.ic_rbtree.specs.Closed.{ClosesAt, IsSafe, IsSafeBut, StaysClosed};
ghost use Rattle.ic_rbtree.specs.Prelude.{Attaches, TakesAway, root_of};
ghost use Rattle.ic_raw.specs.declared.words.RawThree.{RawThree};
ghost use Rattle.ic_raw.specs.Seen.{seen, seen_node, KeepsMarks};
ghost use Rattle.ic_raw.specs.Tree.{lent_table};

use crate::table::RawTable;
use crate::words::RawThree;
use ic_link_ops::Side;
use ic_rbtree::RBTree;
use ic_unsafe_ref::Place;

/// A type that makes insertions and removals in a tree, over a view of the table. It may record which words it writes.
pub trait Surgery {
    // `Reports a b old new` says what the implementation has recorded between its own states `a` and `b`. The record is about the words that were
    // written between the states `old` and `new` of the table.
    ghost Reports: { Self → Self → Table RawThree → Table RawThree → Type 0 };

    /// Inserts `place` on the side `side` of `parent`, as [`RBTree::attach`] does. O(log n).
    fn attach(
        &mut self,
        links: &mut RawTable<'_, RawThree>,
        tree: &mut RBTree<()>,
        parent: Option<Place>,
        side: Side,
        place: Place,
    )
        requires { IsSafeBut seen_node (seen (lent_table links.old)) (root_of tree.old) place (Some place ∷ parent ∷ []) }
        ensures attached { Attaches seen_node (seen (lent_table links.old)) (seen (lent_table links.new)) (root_of tree.old) (root_of tree.new) parent side place }
        ensures safe { ClosesAt seen_node (seen (lent_table links.old)) (seen (lent_table links.new)) (root_of tree.old) (root_of tree.new) place (Some place ∷ parent ∷ []) }
        ensures keeps_links { KeepsMarks (lent_table links.old) (lent_table links.new) }
        ensures reported { Reports self.old self.new (lent_table links.old) (lent_table links.new) };

    /// Removes the member `place`, as [`RBTree::unlink`] does. O(log n).
    fn unlink(&mut self, links: &mut RawTable<'_, RawThree>, tree: &mut RBTree<()>, place: Place)
        requires { IsSafe seen_node (seen (lent_table links.old)) (root_of tree.old) (Some place ∷ []) }
        ensures taken { TakesAway seen_node (seen (lent_table links.old)) (seen (lent_table links.new)) (root_of tree.old) (root_of tree.new) place }
        ensures safe { StaysClosed seen_node (seen (lent_table links.old)) (seen (lent_table links.new)) (root_of tree.old) (root_of tree.new) (Some place ∷ []) [] }
        ensures keeps_links { KeepsMarks (lent_table links.old) (lent_table links.new) }
        ensures reported { Reports self.old self.new (lent_table links.old) (lent_table links.new) };
}

/// The implementation that inserts and removes members and records nothing.
#[derive(Drop)]
pub struct Plain;

impl Surgery for Plain {
    ghost Reports = { λ a b old new. Unit {0} };

    #[inline(always)]
    fn attach(
        &mut self,
        links: &mut RawTable<'_, RawThree>,
        tree: &mut RBTree<()>,
        parent: Option<Place>,
        side: Side,
        place: Place,
    ) {
        tree.attach(links, parent, side, place);
    }

    #[inline]
    fn unlink(&mut self, links: &mut RawTable<'_, RawThree>, tree: &mut RBTree<()>, place: Place) {
        tree.unlink(links, place);
    }
}
