//! These calls recompute the summaries that edits of a tree have made stale, and some of the calls also make the edit.
//!
//! ```text
//! tree.insert_keyed(&mut summed, object)?;
//! propagate(&mut summed, place);
//! tree.remove(&mut summed, &other);
//! refresh(&tree, &mut summed);
//! unlink_fresh(&mut tree, &mut summed, third); // and renews what has changed
//! ```

ghost use Rattle.std.specs.Prelude.{◌≡◌, Option, Some, None, List, [], ◌∷◌, ◌++◌};
ghost use Rattle.ic_link_ops.specs.Prelude.{Place, Cut, join, insert, IsAbsent, IsDistinct, HasMember};
ghost use Rattle.ic_link_ops.specs.RedBlackTree.{Represents};
ghost use Rattle.ic_rbtree.specs.Prelude.{IsNode, IsSafeBut, KeepsNodes, IsInsertPos, Attaches, TakesAway, head_of, root_in};
ghost use Rattle.ic_rbtree.specs.Kept.{TellsEnds, IsBelow};
ghost use Rattle.ic_augmented.specs.Augmented.{links_of, summaries_of};
ghost use Rattle.ic_augmented.specs.Consistent.{IsSameAt, RepresentsConsistent, RepresentsAugmented};
ghost use Rattle.ic_augmented.specs.Fresh.{ChangesOnlyInTree, RepresentsFresh};

use crate::augmented::Augmented;
use crate::climb::{settle, settle_without};
use crate::marking::{attach_marking, unlink_marking};
use crate::stale::{invalidate_up, refresh_below, refresh_path};
use crate::summaries::RecomputeSummaries;
use ic_link_ops::Side;
use ic_rbtree::{NodeStore, RBTree, TreeHead};
use ic_unsafe_ref::Place;
use std::marker::Brand;

/// Inserts `place`, as [`RBTree::attach`] does, and recomputes the stale summaries of the tree. Afterwards each member has the summary of its subtree.
///
/// The call does what `RBTree::attach` and [`refresh`] do, but is faster. It recomputes the summaries above the place only as far as they change, each from the
/// changed summary below. Each fresh summary of another tree in the table stays right. Summaries of other trees also stay fresh, if the parents that are stored
/// in this tree are members of this tree, as in a summed tree. The call requires what `RBTree::attach` requires, and that there is room for a summary at each
/// linked place. The links must represent a tree in which `place` can be inserted on this side of `parent`. O(log n + v) for v summaries that were stale
/// before.
pub fn attach_fresh<A, E: TreeHead, N: NodeStore, M: RecomputeSummaries>(
    tree: &mut RBTree<A, E>,
    summed: &mut Augmented<N, M>,
    parent: Option<Place>,
    side: Side,
    place: Place,
)
    requires safe { IsSafeBut N.node (N.table (links_of summed.old)) (root_in E.kept tree.old) place (Some place ∷ parent ∷ []) }
    requires insert_pos { (gap : Cut) × IsNode N.node (N.table (links_of summed.old)) place × IsAbsent place (join gap)
        × Represents N.node (N.table (links_of summed.old)) (root_in E.kept tree.old) (join gap) × IsInsertPos N.node (N.table (links_of summed.old)) parent side gap }
    requires covered { (q : Place) → IsNode N.node (N.table (links_of summed.old)) q → M.Covers (summaries_of summed.old) q }
    ensures fresh { (gap : Cut) → IsNode N.node (N.table (links_of summed.old)) place → IsAbsent place (join gap)
        → RepresentsConsistent N.node (M.summaries (summaries_of summed.old)) (N.table (links_of summed.old)) (root_in E.kept tree.old) (join gap)
        → IsInsertPos N.node (N.table (links_of summed.old)) parent side gap
        → RepresentsFresh N.node (M.summaries (summaries_of summed.new)) (N.table (links_of summed.new)) (root_in E.kept tree.new) (insert gap place) }
    ensures attached { Attaches N.node (N.table (links_of summed.old)) (N.table (links_of summed.new)) (root_in E.kept tree.old) (root_in E.kept tree.new) parent side place }
    ensures ends { (gap : Cut) → IsBelow parent side gap → IsDistinct (join gap) → TellsEnds (E.kept (head_of tree.old)) (join gap)
        → TellsEnds (E.kept (head_of tree.new)) (insert gap place) }
    ensures linked { KeepsNodes N.node (N.table (links_of summed.old)) (N.table (links_of summed.new)) }
    ensures keeps_links { N.KeepsLinks (links_of summed.old) (links_of summed.new) }
    ensures beside { ChangesOnlyInTree E.kept N.node N.table M.summaries M.Covers (place ∷ []) (place ∷ []) tree.old tree.new summed.old summed.new }
{
    invalidate_up(&summed.links, &mut summed.summaries, place);
    let edge = attach_marking::<Brand, _, _, _, _>(tree, summed, parent, side, place);
    settle(&summed.links, &mut summed.summaries, place, edge);
    let top = tree.root();
    let _ = refresh_below(&summed.links, &mut summed.summaries, top, None, 67);
}

/// Removes the member at `place`, as [`RBTree::unlink`] does, and recomputes the stale summaries of the tree. Afterwards each member has the summary of
/// its subtree. The place stays linked, and its own summary is stale.
///
/// The call does what `RBTree::unlink` and [`refresh`] do. It recomputes the summaries above the place only as far as they change, each from the changed
/// summary below. Each fresh summary of another tree in the table stays right. Summaries of other trees also stay fresh, if the parents that are stored in this
/// tree are members of this tree, as in a summed tree. The call requires that `place` is a member, and that there is room for a summary at each linked place.
/// O(log n + v) for v summaries that were stale before.
pub fn unlink_fresh<A, E: TreeHead, N: NodeStore, M: RecomputeSummaries>(
    tree: &mut RBTree<A, E>,
    summed: &mut Augmented<N, M>,
    place: Place,
)
    requires member { HasMember (Represents N.node (N.table (links_of summed.old)) (root_in E.kept tree.old)) place }
    requires covered { (q : Place) → IsNode N.node (N.table (links_of summed.old)) q → M.Covers (summaries_of summed.old) q }
    ensures fresh { (front back : List Place)
        → RepresentsConsistent N.node (M.summaries (summaries_of summed.old)) (N.table (links_of summed.old)) (root_in E.kept tree.old) (front ++ place ∷ back)
        → RepresentsFresh N.node (M.summaries (summaries_of summed.new)) (N.table (links_of summed.new)) (root_in E.kept tree.new) (front ++ back) }
    ensures stale { (M.summaries (summaries_of summed.new)).fresh place ≡ None }
    ensures taken { TakesAway N.node (N.table (links_of summed.old)) (N.table (links_of summed.new)) (root_in E.kept tree.old) (root_in E.kept tree.new) place }
    ensures ends { (front back : List Place) → Represents N.node (N.table (links_of summed.old)) (root_in E.kept tree.old) (front ++ place ∷ back)
        → TellsEnds (E.kept (head_of tree.old)) (front ++ place ∷ back) → TellsEnds (E.kept (head_of tree.new)) (front ++ back) }
    ensures keeps_links { N.KeepsLinks (links_of summed.old) (links_of summed.new) }
    ensures beside { ChangesOnlyInTree E.kept N.node N.table M.summaries M.Covers [] [] tree.old tree.new summed.old summed.new }
{
    let edge = unlink_marking::<Brand, _, _, _, _>(tree, summed, place);
    settle_without(&summed.links, &mut summed.summaries, place, edge);
    let top = tree.root();
    let _ = refresh_below(&summed.links, &mut summed.summaries, top, None, 67);
    summed.summaries.invalidate(place);
}

/// Recomputes the stale summaries of the tree. Afterwards each member has the summary of its subtree. The links do not change, and no summary at a place
/// outside the tree changes.
///
/// It requires that the links represent a tree, and that there is room for a summary at each linked place. O(v) for v stale summaries.
pub fn refresh<A, E: TreeHead, N: NodeStore, M: RecomputeSummaries>(
    tree: &RBTree<A, E>,
    summed: &mut Augmented<N, M>,
)
    requires shown { (s : List Place) × Represents N.node (N.table (links_of summed.old)) (root_in E.kept tree.now) s }
    requires covered { (q : Place) → IsNode N.node (N.table (links_of summed.old)) q → M.Covers (summaries_of summed.old) q }
    ensures summed { (s : List Place)
        → RepresentsConsistent N.node (M.summaries (summaries_of summed.old)) (N.table (links_of summed.old)) (root_in E.kept tree.now) s
        → RepresentsAugmented N.node (M.summaries (summaries_of summed.new)) (N.table (links_of summed.new)) (root_in E.kept tree.now) s }
    ensures consistent { (s : List Place)
        → RepresentsConsistent N.node (M.summaries (summaries_of summed.old)) (N.table (links_of summed.old)) (root_in E.kept tree.now) s
        → RepresentsConsistent N.node (M.summaries (summaries_of summed.new)) (N.table (links_of summed.new)) (root_in E.kept tree.now) s }
    ensures others { (s : List Place) → Represents N.node (N.table (links_of summed.old)) (root_in E.kept tree.now) s → (q : Place) → IsAbsent q s
        → IsSameAt (M.summaries (summaries_of summed.old)) (M.summaries (summaries_of summed.new)) q }
    ensures join { (M.summaries (summaries_of summed.new)).join ≡ (M.summaries (summaries_of summed.old)).join }
    ensures covers { (q : Place) → M.Covers (summaries_of summed.old) q → M.Covers (summaries_of summed.new) q }
    ensures links { links_of summed.new ≡ links_of summed.old }
{
    let root = tree.root();
    let _ = refresh_below(&summed.links, &mut summed.summaries, root, None, 67);
}

/// Recomputes the stale summaries of a tree from the member at `place` upwards. Afterwards each member has the summary of its subtree. The links do not
/// change, and nothing stored at a place outside the tree changes.
///
/// The call does what [`refresh`] does. It is faster if the stale summaries are at `place`, on the path from `place` to the root, and beside this path,
/// for example after an insert of `place`. It requires that the place is that of a member, and that there is room for a summary at each linked place.
/// O(log n + v) for v stale summaries.
pub fn propagate<N: NodeStore, M: RecomputeSummaries>(summed: &mut Augmented<N, M>, place: Place)
    requires member { (root : Option Place) × HasMember (Represents N.node (N.table (links_of summed.old)) root) place }
    requires covered { (q : Place) → IsNode N.node (N.table (links_of summed.old)) q → M.Covers (summaries_of summed.old) q }
    ensures summed { (root : Option Place) (front back : List Place)
        → RepresentsConsistent N.node (M.summaries (summaries_of summed.old)) (N.table (links_of summed.old)) root (front ++ place ∷ back)
        → RepresentsAugmented N.node (M.summaries (summaries_of summed.new)) (N.table (links_of summed.new)) root (front ++ place ∷ back) }
    ensures consistent { (root : Option Place) (front back : List Place)
        → RepresentsConsistent N.node (M.summaries (summaries_of summed.old)) (N.table (links_of summed.old)) root (front ++ place ∷ back)
        → RepresentsConsistent N.node (M.summaries (summaries_of summed.new)) (N.table (links_of summed.new)) root (front ++ place ∷ back) }
    ensures others { (root : Option Place) (front back : List Place) → Represents N.node (N.table (links_of summed.old)) root (front ++ place ∷ back)
        → (q : Place) → IsAbsent q (front ++ place ∷ back) → IsSameAt (M.summaries (summaries_of summed.old)) (M.summaries (summaries_of summed.new)) q }
    ensures join { (M.summaries (summaries_of summed.new)).join ≡ (M.summaries (summaries_of summed.old)).join }
    ensures covers { (q : Place) → M.Covers (summaries_of summed.old) q → M.Covers (summaries_of summed.new) q }
    ensures links { links_of summed.new ≡ links_of summed.old }
{
    refresh_path(&summed.links, &mut summed.summaries, place, 67);
}
