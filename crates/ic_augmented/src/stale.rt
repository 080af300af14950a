//! Some of these functions make summaries stale, and others write them again. The edge is the place whose summary may be wrong during an edit.
//!
//! ```text
//! invalidate_up(&links, &mut summaries, place); // that of the place, and all above
//! refresh_below(&links, &mut summaries, root, None, TURNS); // from the root down, where they are stale
//! refresh_path(&links, &mut summaries, place, TURNS); // from a place up
//! ```

ghost use Rattle.std.specs.Prelude.{◌≡◌, ◌<◌, ◌⊎◌, suc, Bool, true, IsTrue, Option, Some, None, List, length};
ghost use Rattle.ic_link_ops.specs.Prelude.{Place, Table, IsTree, Tree, top, times};
ghost use Rattle.ic_link_ops.specs.Frames.{Frame, plug};
ghost use Rattle.ic_rbtree.specs.Closed.{IsNode};
ghost use Rattle.ic_augmented.specs.Beside.{IsWrittenIn, IsSameBeside, StaysInside};
ghost use Rattle.ic_augmented.specs.Consistent.{IsBelowStale, IsSameAt, IsConsistent, IsConsistentBut, IsConsistentTree, IsConsistentBelow, IsConsistentBeside, KeepsConsistent, KeepsEdge, Refreshes};
ghost use Rattle.ic_augmented.specs.Subtrees.{IsSubtree};
ghost use Rattle.ic_augmented.specs.Summaries.{seen, IsSummed};

use crate::ranks::is_at;
use crate::summaries::{RecomputeSummaries, Summaries};
use ic_link_ops::PlaceWord;
use ic_rbtree::NodeStore;
use ic_unsafe_ref::Place;

// Makes the summary of `place` stale, and then the summaries of the stored parents, one above the other. It ends at a summary that is stale already.
#[inline]
pub(crate) fn invalidate_up<N: NodeStore, M: Summaries>(_links: &N, summaries: &mut M, place: Place)
    ensures stale { (M.summaries summaries.new).fresh place ≡ None }
    ensures covers { (q : Place) → M.Covers summaries.old q → M.Covers summaries.new q }
    ensures closed { (s : List Place) → IsConsistentBut N.node (N.table _links.now) (M.summaries summaries.old) s (Some place)
        → IsConsistent N.node (N.table _links.now) (M.summaries summaries.new) s }
    ensures consistent { KeepsConsistent N.node (N.table _links.now) (N.table _links.now) (M.summaries summaries.old) (M.summaries summaries.new) }
    ensures beside { (inside : Place → Bool) → IsWrittenIn (M.summaries summaries.old) inside → inside place ≡ true
        → IsSameBeside (M.summaries summaries.old) (M.summaries summaries.new) inside }
{
    let mut at = Some(place);
    while let Some(here) = at {
        if !summaries.is_fresh(here) {
            return;
        }
        at = summaries.upper(here);
        summaries.invalidate(here);
    }
}

// Makes the summaries from `edge` up to `place` stale, except the summary of `place`. Only the summary of `place` may be wrong afterwards.
#[inline]
fn invalidate_up_to<N: NodeStore, M: Summaries>(
    _links: &N,
    summaries: &mut M,
    edge: Place,
    place: Place,
)
    ensures covers { (q : Place) → M.Covers summaries.old q → M.Covers summaries.new q }
    ensures edge { KeepsEdge N.node (N.table _links.now) (N.table _links.now) (M.summaries summaries.old) (M.summaries summaries.new) (Some edge) (Some place) }
    ensures beside { (inside : Place → Bool) → IsWrittenIn (M.summaries summaries.old) inside → inside edge ≡ true
        → IsSameBeside (M.summaries summaries.old) (M.summaries summaries.new) inside }
{
    let mut from = Some(edge);
    while let Some(here) = from {
        if is_at(Some(here), place) {
            return;
        }
        if !summaries.is_fresh(here) {
            return;
        }
        from = summaries.upper(here);
        summaries.invalidate(here);
    }
}

// Returns true only if no fresh summary was computed from the summary of `place`.
#[inline]
fn is_below_stale<M: Summaries>(summaries: &M, place: Place) -> bool
    ensures { IsTrue result → IsBelowStale (M.summaries summaries.now) place }
{
    match summaries.upper(place) {
        Some(above) => !summaries.is_fresh(above),
        None => true,
    }
}

// Prepares `place`, which has a fresh summary, for the write of a child, and returns the new edge. If no fresh summary was computed from the summary of
// `place`, only this summary becomes stale. A sibling that moves up in a rotation is an example. Otherwise `place` becomes the edge. Few writes of a child need
// this function, so it is not inlined.
#[inline(never)]
fn move_edge<N: NodeStore, M: Summaries>(
    links: &N,
    summaries: &mut M,
    edge: Place,
    place: Place,
) -> Place
    ensures writable { ((M.summaries summaries.new).fresh place ≡ None) ⊎ (result ≡ place) }
    ensures covers { (q : Place) → M.Covers summaries.old q → M.Covers summaries.new q }
    ensures edge { KeepsEdge N.node (N.table links.now) (N.table links.now) (M.summaries summaries.old) (M.summaries summaries.new) (Some edge) (Some result) }
    ensures beside { (inside : Place → Bool) → inside place ≡ true → StaysInside (M.summaries summaries.old) (M.summaries summaries.new) (Some edge) (Some result) inside }
{
    // In most cases `place` is the parent of `edge`, or another place above `edge`.
    if is_at(summaries.upper(edge), place) {
        summaries.invalidate(edge);
        return place;
    }
    if is_below_stale(&*summaries, place) {
        summaries.invalidate(place);
        return edge;
    }
    invalidate_up_to(links, summaries, edge, place);
    place
}

// Prepares `place` for the write of a child, and returns the edge. Afterwards the summary of `place` is stale, or `place` is the edge, and the summaries from
// the old edge up to `place` are stale.
#[inline]
pub(crate) fn invalidate_from<N: NodeStore, M: Summaries>(
    links: &N,
    summaries: &mut M,
    edge: Option<Place>,
    place: Place,
) -> Option<Place>
    ensures writable { ((M.summaries summaries.new).fresh place ≡ None) ⊎ (result ≡ Some place) }
    ensures covers { (q : Place) → M.Covers summaries.old q → M.Covers summaries.new q }
    ensures edge { KeepsEdge N.node (N.table links.now) (N.table links.now) (M.summaries summaries.old) (M.summaries summaries.new) edge result }
    ensures beside { (inside : Place → Bool) → inside place ≡ true → StaysInside (M.summaries summaries.old) (M.summaries summaries.new) edge result inside }
{
    if is_at(edge, place) {
        return edge;
    }
    if !summaries.is_fresh(place) {
        return edge;
    }
    let Some(from) = edge else {
        return Some(place);
    };
    Some(move_edge(links, summaries, from, place))
}

// Writes the stale summaries at `place` and below it, and returns the summary of `place`. The function descends only into subtrees whose summary is stale.
#[inline(always)]
#[cycle(refresh)]
pub(crate) fn refresh_below<N: NodeStore, M: RecomputeSummaries>(
    links: &N,
    summaries: &mut M,
    place: Option<Place>,
    upper: Option<Place>,
    turns: u32,
) -> Option<M::Summary>
    requires covered { (q : Place) → IsNode N.node (N.table links.now) q → M.Covers summaries.old q }
    requires tree { (u : Option Place) × (t : Tree) × IsTree N.node (Table.entry (N.table links.now)) u t × (place ≡ top t) }
    ensures covers { (q : Place) → M.Covers summaries.old q → M.Covers summaries.new q }
    ensures summary { result ≡ seen (M.summaries summaries.new) place }
    ensures refreshed { (u : Option Place) (t : Tree) → IsTree N.node (Table.entry (N.table links.now)) u t → place ≡ top t
        → Refreshes IsConsistentTree (M.summaries summaries.old) (M.summaries summaries.new) upper t turns }
{
    let here = place?;
    let Some(summary) = summaries.adopt(here, upper) else {
        return refresh_at(links, summaries, here, PlaceWord::of(upper), turns);
    };
    Some(summary)
}

// Writes the summary of the place `here`, and the stale summaries below it. The parent `upper` is passed as a word, which is one argument, while an `Option`
// would be two.
#[cycle(refresh)]
fn refresh_at<N: NodeStore, M: RecomputeSummaries>(
    links: &N,
    summaries: &mut M,
    here: Place,
    upper: PlaceWord,
    turns: u32,
) -> Option<M::Summary>
    requires covered { (q : Place) → IsNode N.node (N.table links.now) q → M.Covers summaries.old q }
    requires tree { (u : Option Place) × (t : Tree) × IsTree N.node (Table.entry (N.table links.now)) u t × (Some here ≡ top t) }
    ensures covers { (q : Place) → M.Covers summaries.old q → M.Covers summaries.new q }
    ensures summary { result ≡ (M.summaries summaries.new).fresh here }
    ensures refreshed { (u : Option Place) (t : Tree) → IsTree N.node (Table.entry (N.table links.now)) u t → Some here ≡ top t
        → Refreshes IsConsistentBelow (M.summaries summaries.old) (M.summaries summaries.new) upper t turns }
{
    if turns == 0 {
        return summaries.fresh(here);
    }
    Some(recompute(links, summaries, here, upper.get(), turns - 1))
}

// Writes the summary of the place `here`, after the stale summaries below it. The function is inlined into the loop that climbs towards the root.
#[inline(always)]
#[cycle(refresh)]
pub(crate) fn recompute<N: NodeStore, M: RecomputeSummaries>(
    links: &N,
    summaries: &mut M,
    here: Place,
    upper: Option<Place>,
    turns: u32,
) -> M::Summary
    requires covered { (q : Place) → IsNode N.node (N.table links.now) q → M.Covers summaries.old q }
    requires tree { (u : Option Place) × (t : Tree) × IsTree N.node (Table.entry (N.table links.now)) u t × (Some here ≡ top t) }
    ensures covers { (q : Place) → M.Covers summaries.old q → M.Covers summaries.new q }
    ensures summary { Some result ≡ (M.summaries summaries.new).fresh here }
    ensures refreshed { (u : Option Place) (t : Tree) → IsTree N.node (Table.entry (N.table links.now)) u t → Some here ≡ top t
        → Refreshes IsConsistentBelow (M.summaries summaries.old) (M.summaries summaries.new) upper t (suc turns) }
{
    let left = links.left(here);
    let right = links.right(here);
    let below_left = refresh_below(links, summaries, left, Some(here), turns);
    let below_right = refresh_below(links, summaries, right, Some(here), turns);
    summaries.write(here, below_left, below_right, upper)
}

// Writes the summaries of `place` and of all places above it, and the stale summaries below each of these places.
pub(crate) fn refresh_path<N: NodeStore, M: RecomputeSummaries>(
    links: &N,
    summaries: &mut M,
    place: Place,
    turns: u32,
)
    requires covered { (q : Place) → IsNode N.node (N.table links.now) q → M.Covers summaries.old q }
    requires subtree { (fs : List Frame) × (t : Tree) × IsSubtree N.node (N.table links.now) fs t × (top t ≡ Some place) }
    ensures others { (fs : List Frame) (t : Tree) → IsSubtree N.node (N.table links.now) fs t → top t ≡ Some place
        → (q : Place) → times q (plug fs t) ≡ 0 → IsSameAt (M.summaries summaries.old) (M.summaries summaries.new) q }
    ensures join { (M.summaries summaries.new).join ≡ (M.summaries summaries.old).join }
    ensures covers { (q : Place) → M.Covers summaries.old q → M.Covers summaries.new q }
    ensures summed { (fs : List Frame) (t : Tree) → IsSubtree N.node (N.table links.now) fs t → top t ≡ Some place → length fs < turns
        → IsConsistentBeside (M.summaries summaries.old) fs → IsConsistentBelow (M.summaries summaries.old) t → IsSummed (M.summaries summaries.new) None (plug fs t) }
{
    if turns == 0 {
        return;
    }
    let upper = links.parent(place);
    let _ = recompute(links, summaries, place, upper, 66);
    let Some(above) = upper else {
        return;
    };
    refresh_path(links, summaries, above, turns - 1);
}
