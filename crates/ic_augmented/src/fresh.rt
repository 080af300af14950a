//! These calls insert and remove members, and leave all summaries fresh.
//!
//! ```text
//! insert_fresh(&mut tree, &mut summed, object)?;
//! len(&tree, &summed) // no call renews the counts in between
//! remove_fresh(&mut tree, &mut summed, &object);
//! len(&other, &summed) // nor those of another tree in the table
//! ```

ghost use Rattle.std.specs.Prelude.{◌≡◌, None, OnOk, OnErr, IfErr, List, [], ◌∷◌, ◌++◌};
ghost use Rattle.ic_link_ops.specs.Prelude.{Place, IsCovered, ChangesOnlyIn, HasMember, acquires, releases};
ghost use Rattle.ic_link_ops.specs.RedBlackTree.{Represents};
ghost use Rattle.ic_rbtree.specs.Prelude.{compared, own_order, RepresentsKept, InsertsInOrder};
ghost use Rattle.ic_rbtree.specs.Tree.{head_of, root_in, adapter_of};
ghost use Rattle.ic_augmented.specs.Augmented.{links_of, summaries_of};
ghost use Rattle.ic_augmented.specs.Consistent.{RepresentsConsistent};
ghost use Rattle.ic_augmented.specs.Fresh.{ChangesOnlyInTree, RepresentsFresh};

use crate::augmented::Augmented;
use crate::edits::{attach_fresh, unlink_fresh};
use crate::summaries::RecomputeSummaries;
use ic_link_ops::rbtree::RBTreeOps;
use ic_link_ops::{AlreadyLinked, LinkOps, LinkValues, Side};
use ic_rbtree::{KeyAdapter, KeyProbe, RBTree, TreeHead};
use ic_unsafe_ref::{UnsafeRef, Values};

/// Inserts the object as [`RBTree::insert_keyed`] does, and recomputes the stale summaries of the tree. Afterwards each member has the summary of its
/// subtree.
///
/// The call does what `insert_keyed` and [`refresh`](crate::refresh) do, and is faster. It always descends from the root, even if the tree stores its last
/// member. Each fresh summary of another tree in the table stays right. It requires that the object's place is covered, that the links represent a tree,
/// and that there is room for a summary at each covered place. If the link is refused, the call returns the object, and the tree, its links and its
/// summaries are unchanged. O(log n + v) for v summaries that were stale before.
pub fn insert_fresh<
    A: KeyAdapter,
    E: TreeHead,
    L: RBTreeOps + LinkValues<A::Value>,
    M: RecomputeSummaries,
>(
    tree: &mut RBTree<A, E>,
    summed: &mut Augmented<L, M>,
    object: UnsafeRef<A::Value>,
) -> Result<(), AlreadyLinked<A::Value>>
    requires covered { IsCovered (L.table (links_of summed.old)) object }
    requires shown { (s : List Place) × Represents L.node (L.table (links_of summed.old)) (root_in E.kept tree.old) s }
    requires room { (q : Place) → IsCovered (L.table (links_of summed.old)) q → M.Covers (summaries_of summed.old) q }
    ensures inserted { (s : List Place)
        → RepresentsConsistent L.node (M.summaries (summaries_of summed.old)) (L.table (links_of summed.old)) (root_in E.kept tree.old) s
        → OnOk result (InsertsInOrder (RepresentsFresh L.node (M.summaries (summaries_of summed.new)))
        (compared (own_order A.Key.cmp (A.key_of (adapter_of tree.old)) (L.values (links_of summed.old)) object) (L.values (links_of summed.old)))
        (L.table (links_of summed.old)) (L.table (links_of summed.new)) (root_in E.kept tree.new) s object) }
    ensures kept { (s : List Place) → RepresentsKept E.kept L.node (L.table (links_of summed.old)) (head_of tree.old) s
        → OnOk result (InsertsInOrder (RepresentsKept E.kept L.node)
        (compared (own_order A.Key.cmp (A.key_of (adapter_of tree.old)) (L.values (links_of summed.old)) object) (L.values (links_of summed.old)))
        (L.table (links_of summed.old)) (L.table (links_of summed.new)) (head_of tree.new) s object) }
    ensures acquired { OnOk result (L.Trace (links_of summed.old) (links_of summed.new) (acquires object ∷ [])) }
    ensures beside { ChangesOnlyInTree E.kept L.node L.table M.summaries M.Covers [] (object ∷ []) tree.old tree.new summed.old summed.new }
    ensures refused { OnErr result (L.Refused (links_of summed.old) (links_of summed.new) object) }
    ensures unchanged { IfErr result (λ refused. (refused.0 ≡ object) × (tree.new ≡ tree.old) × (summaries_of summed.new ≡ summaries_of summed.old)) }
{
    let place = object.place();
    if !summed.links.acquire_link(place) {
        return Err(AlreadyLinked(object));
    }
    let links = &summed.links;
    let adapter = tree.adapter();
    let mut probe = KeyProbe::new(adapter, adapter.get_key(links.value(place)));
    let insert_pos = tree.descend(links, links, &mut probe, Side::Right);
    attach_fresh(
        tree,
        summed,
        insert_pos.parent.get(),
        insert_pos.side,
        place,
    );
    Ok(())
}

/// Removes the object as [`RBTree::remove`] does, and recomputes the stale summaries of the tree. Afterwards each member has the summary of its subtree.
///
/// The call does what `remove` and [`refresh`](crate::refresh) do. It recomputes the summaries above the object only as far as they change. The summary of the
/// object's place is stale afterwards. Each fresh summary of another tree in the table stays right. Summaries of other trees also stay fresh, if the parents
/// that are stored in this tree are members of this tree, as in a summed tree. The call requires that the object is a member, and that there is room for a
/// summary at each covered place. O(log n + v) for v summaries that were stale before.
pub fn remove_fresh<A: KeyAdapter, E: TreeHead, L: RBTreeOps, M: RecomputeSummaries>(
    tree: &mut RBTree<A, E>,
    summed: &mut Augmented<L, M>,
    object: &UnsafeRef<A::Value>,
)
    requires member { HasMember (Represents L.node (L.table (links_of summed.old)) (root_in E.kept tree.old)) object.now }
    requires room { (q : Place) → IsCovered (L.table (links_of summed.old)) q → M.Covers (summaries_of summed.old) q }
    ensures removed { (front back : List Place)
        → RepresentsConsistent L.node (M.summaries (summaries_of summed.old)) (L.table (links_of summed.old)) (root_in E.kept tree.old) (front ++ object.now ∷ back)
        → RepresentsFresh L.node (M.summaries (summaries_of summed.new)) (L.table (links_of summed.new)) (root_in E.kept tree.new) (front ++ back) }
    ensures kept { (front back : List Place) → RepresentsKept E.kept L.node (L.table (links_of summed.old)) (head_of tree.old) (front ++ object.now ∷ back)
        → RepresentsKept E.kept L.node (L.table (links_of summed.new)) (head_of tree.new) (front ++ back) }
    ensures stale { (M.summaries (summaries_of summed.new)).fresh object.now ≡ None }
    ensures released { L.Trace (links_of summed.old) (links_of summed.new) (releases object.now ∷ []) }
    ensures frame { (s : List Place) → Represents L.node (L.table (links_of summed.old)) (root_in E.kept tree.old) s
        → ChangesOnlyIn (L.table (links_of summed.old)) (L.table (links_of summed.new)) s }
    ensures beside { ChangesOnlyInTree E.kept L.node L.table M.summaries M.Covers [] [] tree.old tree.new summed.old summed.new }
{
    let place = object.place();
    unlink_fresh(tree, summed, place);
    summed.links.release_link(place);
}
