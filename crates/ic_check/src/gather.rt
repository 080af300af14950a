//! How a check of a whole table counts the members of each collection and marks their places.
//!
//! ```text
//! let members = list.gather(&links, &mut marks)?; // they were unmarked, and are marked now
//! ```

ghost use Rattle.std.specs.Prelude.{◌≡◌, ◌≤◌, MatchOption, List, length};
ghost use Rattle.std.specs.Bool.{OnTrue, OnFalse};
ghost use Rattle.std.proofs.Common.{sym, ◌∙◌};
ghost use Rattle.ic_link_ops.specs.Prelude.{Place, IsDistinct, Table, RepresentsChain};
ghost use Rattle.ic_link_ops.specs.RedBlackTree.{Represents};
ghost use Rattle.ic_link_ops.proofs.Prelude.{represents_one, one_sequence};
ghost use Rattle.ic_rbtree.specs.Tree.{root_of};
ghost use Rattle.ic_check.specs.Checked.{IsRepresented};
ghost use Rattle.ic_check.specs.WholeTables.{AreUnmarked, MarksAlso, MarksLinked, IsGathered, RepresentsNoneUnmarked};

use crate::kinds::TellsNeighbors;
use crate::tells::TellsLinks;
use crate::tree::check_tree;
use ic_chain::LinkList;
use ic_link_ops::Side;
use ic_link_ops::rbtree::RBTreeOps;
use ic_rbtree::RBTree;

/// A collection that a check of a whole table can count and mark: a list of any kind, or a tree.
pub trait Gather<L: TellsLinks> {
    // The statement that a table represents a sequence for the collection.
    ghost Represents: { Self → Table L.Entry → List Place → Type 0 };

    /// Marks the members of the collection and returns their number. The result is `None` if the table represents no sequence for the collection, or if a
    /// member was marked before.
    ///
    /// The call requires nothing of the words, but there must be a mark for each place that the table covers. The call marks only linked places. O(n) for n
    /// members. The call takes no memory.
    fn gather(&self, links: &L, marks: &mut [bool]) -> Option<usize>
        requires room { (L.table links.now).extent.places ≤ length marks.old }
        ensures gathered { MatchOption result (RepresentsNoneUnmarked (Represents self.now (L.table links.now)) marks.old)
            (IsGathered (Represents self.now (L.table links.now)) marks.old marks.new) }
        ensures only { MarksLinked L.linked (L.table links.now) marks.old marks.new }
        ensures length { length marks.new ≡ length marks.old };

    // The laws: a table represents at most one sequence for a collection, and no place occurs twice in this sequence.
    ghost represents_one: { (c : Self) (t : Table L.Entry) (s r : List Place) → Represents c t s → Represents c t r → s ≡ r };

    ghost represents_distinct: { (c : Self) (t : Table L.Entry) (s : List Place) → Represents c t s → IsDistinct s };
}

impl<K: TellsNeighbors<L>, T, L: TellsLinks> Gather<L> for LinkList<K, T> {
    ghost Represents = { λ list t s. RepresentsChain K.Between K.kept t list s };

    fn gather(&self, links: &L, marks: &mut [bool]) -> Option<usize> {
        let mut count: usize = 0;
        let mut before = None;
        let mut current = self.first();
        while let Some(member) = current {
            if !links.tells_linked(member) {
                return None;
            }
            let index = member.index();
            if marks[index] {
                return None;
            }
            if !K::names_prev(links, member, before) {
                return None;
            }
            marks[index] = true;
            let after = K::next(links, member, before);
            before = current;
            current = after;
            count += 1;
        }
        if K::ends_with(self, before) {
            Some(count)
        } else {
            None
        }
    }

    ghost represents_one = { λ list t s r h k. represents_one (λ e a b c x y. sym (K.leads e a b x) ∙ K.leads e a c y) h k };

    ghost represents_distinct = { λ list t s h. h.distinct };
}

impl<A, L: RBTreeOps + TellsLinks> Gather<L> for RBTree<A> {
    ghost Represents = { λ tree t s. Represents L.node t (root_of tree) s };

    fn gather(&self, links: &L, marks: &mut [bool]) -> Option<usize> {
        let Some(members) = check_tree(self, links) else {
            return None;
        };
        if mark(self, links, members, marks) {
            Some(members)
        } else {
            None
        }
    }

    ghost represents_one = { λ tree t s r h k. one_sequence h k };

    ghost represents_distinct = { λ tree t s h. h.held.distinct };
}

// Marks the members of a tree that has `count` members, and returns true. If the call comes to a member that was marked before, it returns false at once.
fn mark<A, L: RBTreeOps + TellsLinks>(
    tree: &RBTree<A>,
    links: &L,
    count: usize,
    marks: &mut [bool],
) -> bool
    requires room { (L.table links.now).extent.places ≤ length marks.old }
    requires shown { IsRepresented (Represents L.node (L.table links.now) (root_of tree.now)) count }
    ensures marked { (s : List Place) → Represents L.node (L.table links.now) (root_of tree.now) s
        → OnTrue result (AreUnmarked marks.old s × MarksAlso marks.old marks.new s) × OnFalse result (AreUnmarked marks.old s → ⊥) }
    ensures only { MarksLinked L.linked (L.table links.now) marks.old marks.new }
    ensures length { length marks.new ≡ length marks.old }
{
    let mut left = count;
    let mut current = tree.step(links, None, Side::Right);
    while let Some(member) = current {
        let index = member.index();
        if marks[index] {
            return false;
        }
        marks[index] = true;
        current = tree.step(links, current, Side::Right);
        left -= 1;
    }
    true
}
