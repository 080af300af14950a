//! These functions recompute summaries from a place up to the edge, and above the edge for as long as a summary changes. The edge is the place above the
//! stale summaries of an edit.
//!
//! ```text
//! settle(&links, &mut summaries, place, edge); // up to the edge, and on while summaries change
//! settle_without(&links, &mut summaries, place, edge); // from the edge on, where the place was taken out
//! ```

ghost use Rattle.std.specs.Prelude.{◌≡◌, Bool, false, Option, Some, None, List, ◌∷◌, ◌++◌, IsTrue, IfSome, IfNone};
ghost use Rattle.ic_link_ops.specs.Prelude.{Place, IsAbsent, IsDisjoint, Table, HasMember, Tree, top, times};
ghost use Rattle.ic_link_ops.specs.Frames.{Frame, plug};
ghost use Rattle.ic_link_ops.specs.RedBlackTree.{IsTree, Represents};
ghost use Rattle.ic_rbtree.specs.Closed.{IsIn, IsNode};
ghost use Rattle.ic_augmented.specs.Beside.{IsWrittenIn, IsEdgeOf};
ghost use Rattle.ic_augmented.specs.Changes.{IsAmong, RecomputesAt, PassesOn, ClimbsTo};
ghost use Rattle.ic_augmented.specs.Consistent.{IsSameAt, IsConsistent, IsConsistentBut, IsConsistentTree, IsConsistentBelow, Refreshes};
ghost use Rattle.ic_augmented.specs.Subtrees.{IsSubtree};

use crate::ranks::is_at;
use crate::stale::{invalidate_up, recompute};
use crate::summaries::RecomputeSummaries;
use ic_rbtree::NodeStore;
use ic_unsafe_ref::Place;

// Whether `edge` is above `place` in the tree of `place`.
fn is_above<N: NodeStore>(links: &N, place: Place, edge: Place) -> bool
    requires { (fs : List Frame) × (t : Tree) × IsSubtree N.node (N.table links.now) fs t × (top t ≡ Some place) }
    ensures { IsTrue result → (fs : List Frame) (t : Tree) → IsSubtree N.node (N.table links.now) fs t → top t ≡ Some place → IsAmong edge fs }
{
    let Some(above) = links.parent(place) else {
        return false;
    };
    if is_at(Some(above), edge) {
        return true;
    }
    is_above(links, above, edge)
}

// Writes the summary of the place `here`, after the stale summaries below it. The function reads the parent of `here` itself, because its callers need no
// parent for most summaries. It is not inlined.
#[inline(never)]
fn recompute_whole<N: NodeStore, M: RecomputeSummaries>(
    links: &N,
    summaries: &mut M,
    here: Place,
) -> M::Summary
    requires covered { (q : Place) → IsNode N.node (N.table links.now) q → M.Covers summaries.old q }
    requires tree { (u : Option Place) × (t : Tree) × IsTree N.node (Table.entry (N.table links.now)) u t × (Some here ≡ top t) }
    ensures covers { (q : Place) → M.Covers summaries.old q → M.Covers summaries.new q }
    ensures summary { Some result ≡ (M.summaries summaries.new).fresh here }
    ensures refreshed { (u : Option Place) (t : Tree) → IsTree N.node (Table.entry (N.table links.now)) u t → Some here ≡ top t
        → Refreshes IsConsistentBelow (M.summaries summaries.old) (M.summaries summaries.new) (N.node ((N.table links.now).entry here)).parent t 67 }
{
    let upper = links.parent(here);
    recompute(links, summaries, here, upper, 66)
}

// Recomputes the summary of `place`, because the summary of one child has changed from `from` to `to`. Returns the old and the new summary of `place`, or
// `None` if the old one was stale.
#[inline(always)]
fn recompute_at<N: NodeStore, M: RecomputeSummaries>(
    links: &N,
    summaries: &mut M,
    place: Place,
    from: M::Summary,
    to: M::Summary,
    upper: Option<Place>,
) -> Option<(M::Summary, M::Summary)>
    requires covered { (q : Place) → IsNode N.node (N.table links.now) q → M.Covers summaries.old q }
    requires subtree { (fs : List Frame) × (t : Tree) × IsSubtree N.node (N.table links.now) fs t × (top t ≡ Some place) }
    requires upper { (N.node ((N.table links.now).entry place)).parent ≡ upper }
    ensures covers { (q : Place) → M.Covers summaries.old q → M.Covers summaries.new q }
    ensures join { (M.summaries summaries.new).join ≡ (M.summaries summaries.old).join }
    ensures frame { (fs : List Frame) (t : Tree) → IsSubtree N.node (N.table links.now) fs t → top t ≡ Some place
        → (q : Place) → times q t ≡ 0 → IsSameAt (M.summaries summaries.old) (M.summaries summaries.new) q }
    ensures was { IfSome result (λ change. (M.summaries summaries.old).fresh place ≡ Some change.0) }
    ensures is { IfSome result (λ change. (M.summaries summaries.new).fresh place ≡ Some change.1) }
    ensures recomputed { IfSome result (λ change. RecomputesAt N.node (N.table links.now) (M.summaries summaries.old) (M.summaries summaries.new) place from to upper) }
    ensures stale { IfNone result (((M.summaries summaries.old).fresh place ≡ None) × (summaries.new ≡ summaries.old)) }
{
    if let Some(change) = summaries.rejoin(place, from, to, upper) {
        return Some(change);
    }
    let was = summaries.fresh(place)?;
    Some((was, recompute_whole(links, summaries, place)))
}

// Recomputes the summaries from `place` upwards for as long as they change, because the summary of one child of `place` has changed from `from` to `to`.
fn pass_on<N: NodeStore, M: RecomputeSummaries>(
    links: &N,
    summaries: &mut M,
    place: Place,
    from: M::Summary,
    to: M::Summary,
)
    requires covered { (q : Place) → IsNode N.node (N.table links.now) q → M.Covers summaries.old q }
    requires subtree { (fs : List Frame) × (t : Tree) × IsSubtree N.node (N.table links.now) fs t × (top t ≡ Some place) }
    ensures covers { (q : Place) → M.Covers summaries.old q → M.Covers summaries.new q }
    ensures join { (M.summaries summaries.new).join ≡ (M.summaries summaries.old).join }
    ensures others { (fs : List Frame) (t : Tree) → IsSubtree N.node (N.table links.now) fs t → top t ≡ Some place
        → (q : Place) → times q (plug fs t) ≡ 0 → IsSameAt (M.summaries summaries.old) (M.summaries summaries.new) q }
    ensures consistent { PassesOn N.node (N.table links.now) (M.summaries summaries.old) (M.summaries summaries.new) place from to }
{
    let upper = links.parent(place);
    let Some(change) = recompute_at(links, summaries, place, from, to, upper) else {
        return;
    };
    let (was, is) = change;
    if M::is_same(&was, &is) {
        return;
    }
    let Some(above) = upper else {
        return;
    };
    pass_on(links, summaries, above, was, is);
}

// Recomputes the summary of `edge`, and the summaries above `edge` for as long as they change.
#[inline(always)]
fn climb_on<N: NodeStore, M: RecomputeSummaries>(links: &N, summaries: &mut M, edge: Place)
    requires covered { (q : Place) → IsNode N.node (N.table links.now) q → M.Covers summaries.old q }
    requires subtree { (fs : List Frame) × (t : Tree) × IsSubtree N.node (N.table links.now) fs t × (top t ≡ Some edge) }
    ensures covers { (q : Place) → M.Covers summaries.old q → M.Covers summaries.new q }
    ensures join { (M.summaries summaries.new).join ≡ (M.summaries summaries.old).join }
    ensures others { (fs : List Frame) (t : Tree) → IsSubtree N.node (N.table links.now) fs t → top t ≡ Some edge
        → (q : Place) → times q (plug fs t) ≡ 0 → IsSameAt (M.summaries summaries.old) (M.summaries summaries.new) q }
    ensures consistent { ClimbsTo N.node (N.table links.now) (M.summaries summaries.old) (M.summaries summaries.new) edge edge }
{
    let upper = links.parent(edge);
    let was = summaries.fresh(edge);
    let is = recompute(links, summaries, edge, upper, 66);
    let Some(above) = upper else {
        return;
    };
    let Some(was) = was else {
        return;
    };
    if M::is_same(&was, &is) {
        return;
    }
    pass_on(links, summaries, above, was, is);
}

// Recomputes the summaries from `place` up to `edge`, and the summaries above `edge` for as long as they change.
fn climb<N: NodeStore, M: RecomputeSummaries>(
    links: &N,
    summaries: &mut M,
    place: Place,
    edge: Place,
)
    requires covered { (q : Place) → IsNode N.node (N.table links.now) q → M.Covers summaries.old q }
    requires subtree { (fs : List Frame) × (t : Tree) × IsSubtree N.node (N.table links.now) fs t × (top t ≡ Some place) }
    ensures covers { (q : Place) → M.Covers summaries.old q → M.Covers summaries.new q }
    ensures join { (M.summaries summaries.new).join ≡ (M.summaries summaries.old).join }
    ensures others { (fs : List Frame) (t : Tree) → IsSubtree N.node (N.table links.now) fs t → top t ≡ Some place
        → (q : Place) → times q (plug fs t) ≡ 0 → IsSameAt (M.summaries summaries.old) (M.summaries summaries.new) q }
    ensures consistent { ClimbsTo N.node (N.table links.now) (M.summaries summaries.old) (M.summaries summaries.new) place edge }
{
    if is_at(Some(place), edge) {
        climb_on(links, summaries, place);
        return;
    }
    let upper = links.parent(place);
    let _ = recompute(links, summaries, place, upper, 66);
    let Some(above) = upper else {
        return;
    };
    climb(links, summaries, above, edge);
}

// After an insert of `place`, recomputes the summaries from `place` up to `edge`, and those above `edge` for as long as they change. If `edge` is not above
// `place`, the function makes the summaries from `edge` upwards stale. If there is no edge, it does nothing.
pub(crate) fn settle<N: NodeStore, M: RecomputeSummaries>(
    links: &N,
    summaries: &mut M,
    place: Place,
    edge: Option<Place>,
)
    requires member { (root : Option Place) × HasMember (Represents N.node (N.table links.now) root) place }
    requires covered { (q : Place) → IsNode N.node (N.table links.now) q → M.Covers summaries.old q }
    ensures covers { (q : Place) → M.Covers summaries.old q → M.Covers summaries.new q }
    ensures join { (M.summaries summaries.new).join ≡ (M.summaries summaries.old).join }
    ensures consistent { (root : Option Place) (front back : List Place) (h : Represents N.node (N.table links.now) root (front ++ place ∷ back))
        → IsConsistentBut N.node (N.table links.now) (M.summaries summaries.old) (front ++ place ∷ back) edge → IsConsistentTree (M.summaries summaries.new) h.tree }
    ensures others { (root other : Option Place) (front back t : List Place) → Represents N.node (N.table links.now) root (front ++ place ∷ back)
        → Represents N.node (N.table links.now) other t → IsDisjoint (front ++ place ∷ back) t
        → IsConsistentBut N.node (N.table links.now) (M.summaries summaries.old) t edge → IsConsistent N.node (N.table links.now) (M.summaries summaries.new) t }
    ensures beside { (root : Option Place) (front back : List Place) → Represents N.node (N.table links.now) root (front ++ place ∷ back)
        → (inside : Place → Bool) → IsWrittenIn (M.summaries summaries.old) inside → IsIn inside edge
        → (q : Place) → IsAbsent q (front ++ place ∷ back) → inside q ≡ false → IsSameAt (M.summaries summaries.old) (M.summaries summaries.new) q }
{
    let Some(edge) = edge else {
        return;
    };
    if !is_above(links, place, edge) {
        invalidate_up(links, summaries, edge);
        return;
    }
    climb(links, summaries, place, edge);
}

// After the removal of `place`, recomputes the summary of `edge`, the stale summaries below it, and the summaries above it for as long as they change. If there
// is no edge, or `edge` is `place`, it does nothing, because the summary of every member is right or stale.
pub(crate) fn settle_without<N: NodeStore, M: RecomputeSummaries>(
    links: &N,
    summaries: &mut M,
    place: Place,
    edge: Option<Place>,
)
    requires member { (root : Option Place) × (s : List Place) × Represents N.node (N.table links.now) root s × IsEdgeOf edge place s }
    requires covered { (q : Place) → IsNode N.node (N.table links.now) q → M.Covers summaries.old q }
    ensures covers { (q : Place) → M.Covers summaries.old q → M.Covers summaries.new q }
    ensures join { (M.summaries summaries.new).join ≡ (M.summaries summaries.old).join }
    ensures consistent { (root : Option Place) (s : List Place) → Represents N.node (N.table links.now) root s → IsEdgeOf edge place s → IsAbsent place s
        → IsConsistentBut N.node (N.table links.now) (M.summaries summaries.old) s edge → IsConsistent N.node (N.table links.now) (M.summaries summaries.new) s }
    ensures others { (root other : Option Place) (s t : List Place) → Represents N.node (N.table links.now) root s → IsEdgeOf edge place s
        → Represents N.node (N.table links.now) other t → IsDisjoint s t → IsAbsent place t
        → IsConsistentBut N.node (N.table links.now) (M.summaries summaries.old) t edge → IsConsistent N.node (N.table links.now) (M.summaries summaries.new) t }
    ensures beside { (root : Option Place) (s : List Place) → Represents N.node (N.table links.now) root s → IsEdgeOf edge place s
        → (q : Place) → IsAbsent q s → IsSameAt (M.summaries summaries.old) (M.summaries summaries.new) q }
{
    let Some(highest) = edge else {
        return;
    };
    if is_at(Some(highest), place) {
        return;
    }
    climb_on(links, summaries, highest);
}
