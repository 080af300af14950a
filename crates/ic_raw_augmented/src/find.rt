//! Searches of a tree by its sums, over a view of the table.
//!
//! ```text
//! find(&links, sums, kind, root, None, bound) // the first member at which the values up to it make more than the bound
//! sum_before(&links, sums, kind, member)      // what the values of the members before it make together
//! ```

ghost use Rattle.std.specs.Prelude.{◌≡◌, ◌≢◌, ◌≤◌, ◌<◌, ◌∷◌, ◌++◌, [], true, Bool, Option, Some, None, IfSome, List, length, map, filter};
ghost use Rattle.std.specs.Ordering.{nat_cmp};
ghost use Rattle.ic_link_ops.specs.Prelude.{Place, Cut, join, first, IsAfter, Table, IsTree, Tree, top, in_order};
ghost use Rattle.ic_link_ops.specs.Frames.{Frame, plug, before, after};
ghost use Rattle.ic_rbtree.specs.Prelude.{IsSorted, IsClosed, IsIn, height};
ghost use Rattle.ic_raw_augmented.specs.Subtrees.{IsSubtree};
ghost use Rattle.ic_raw.specs.Prelude.{key_of, has_place, seen, seen_node, IsSeen};
ghost use Rattle.ic_raw.specs.Tree.{lent_table};
ghost use Rattle.ic_raw_augmented.specs.declared.sums.Kind.TheVariants.{Greatest};
ghost use Rattle.ic_raw_augmented.specs.Ends.{EndsAbove, FindEnds, OverlapEnds};
ghost use Rattle.ic_raw_augmented.specs.Find.{IsFirstBeyond, overlaps};
ghost use Rattle.ic_raw_augmented.specs.Sums.{IsSummed, IsSummedTree, next_end, total, value_at};

use crate::recompute::TURNS;
use crate::sums::{Kind, RawSum, sum_below, value_at};
use ic_link_ops::Side;
use ic_raw::{RawTable, RawThree};
use ic_rbtree::NodeStore;
use ic_unsafe_ref::Place;

// Returns the first member of the subtree at `place` at which the combined values exceed `bound`. The values of the subtree's members up to and including the
// result are combined with `done`, which combines the values before the subtree. The result is `None` if the sums are wrong, or if the way down is longer than
// in any valid tree.
fn first_below(
    links: &RawTable<'_, RawThree>,
    sums: &[RawSum],
    kind: Kind,
    place: Place,
    done: u64,
    bound: u64,
) -> Option<Place>
    requires { has_place (lent_table links.now) place ≡ true }
    ensures found { (up : Option Place) (t : Tree) (s : List Place) → IsTree seen_node (Table.entry (seen (lent_table links.now))) up t → top t ≡ Some place
        → IsSummedTree kind (lent_table links.now) sums.now t → height t ≤ 67 → done ≡ total kind (value_at sums.now) s
        → done ≤ bound → bound < total kind (value_at sums.now) (s ++ in_order t)
        → (m : Place) × (result ≡ Some m) × IsFirstBeyond kind (value_at sums.now) s bound (in_order t) (Some m) }
    ensures in_closed_set { (S : Place → Bool) → IsClosed seen_node (seen (lent_table links.now)) None S → S place ≡ true → IsIn S result }
{
    let mut place = place;
    let mut done = done;
    for _ in 0..TURNS {
        let left = links.left(place);
        let before_it = kind.combine(done, sum_below(sums, left));
        if bound < before_it {
            place = left?;
        } else {
            let with_it = kind.combine(before_it, value_at(sums, place));
            if bound < with_it {
                return Some(place);
            }
            place = links.right(place)?;
            done = with_it;
        }
    }
    None
}

// Returns the first member after the subtree at `place` at which the combined values exceed `bound`. The values of the members after the subtree, up to and
// including the result, are combined with `done`, which combines the values that the search has passed. The result is `Some(None)` if all these values together
// do not exceed `bound`.
fn first_above(
    links: &RawTable<'_, RawThree>,
    sums: &[RawSum],
    kind: Kind,
    place: Place,
    done: u64,
    bound: u64,
) -> Option<Option<Place>>
    requires { has_place (lent_table links.now) place ≡ true }
    ensures found { (fs : List Frame) (t : Tree) (s : List Place) → IsSubtree seen_node (seen (lent_table links.now)) fs t → top t ≡ Some place
        → IsSummedTree kind (lent_table links.now) sums.now (plug fs t) → length fs < 67 → done ≡ total kind (value_at sums.now) s → done ≤ bound
        → (position : Option Place) × (result ≡ Some position) × IsFirstBeyond kind (value_at sums.now) s bound (after fs) position }
    ensures ended { result ≡ Some None → EndsAbove (lent_table links.now) (Some place) }
    ensures in_closed_set { (S : Place → Bool) → IsClosed seen_node (seen (lent_table links.now)) None S → S place ≡ true → IfSome result (λ position. IsIn S position) }
{
    let mut place = place;
    let mut done = done;
    for _ in 0..TURNS {
        let Some(above) = links.parent(place) else {
            return Some(None);
        };
        if !links.is_child(place, above, Side::Right) {
            let with_it = kind.combine(done, value_at(sums, above));
            if bound < with_it {
                return Some(Some(above));
            }
            let right = links.right(above);
            let with_right = kind.combine(with_it, sum_below(sums, right));
            if bound < with_right {
                let next = right?;
                let member = first_below(links, sums, kind, next, with_it, bound)?;
                return Some(Some(member));
            }
            done = with_right;
        }
        place = above;
    }
    None
}

// Returns the root of the subtree whose members come right after `at`: the right child of `at`, or the root of the whole tree if `at` is `None`.
#[inline]
fn next_end(links: &RawTable<'_, RawThree>, root: Option<Place>, at: Option<Place>) -> Option<Place>
    requires { IsIn (has_place (lent_table links.now)) at }
    ensures { result ≡ next_end (lent_table links.now) root at }
{
    match at {
        None => root,
        Some(place) => links.right(place),
    }
}

// Returns the first member after `at` such that the combined values of the members after `at`, up to and including this member, exceed `bound`. If `at` is
// `None`, the search begins at the first member. The result is `Some(None)` if there is no such member, and `None` if the sums or the links are wrong.
pub(crate) fn find(
    links: &RawTable<'_, RawThree>,
    sums: &[RawSum],
    kind: Kind,
    root: Option<Place>,
    at: Option<Place>,
    bound: u64,
) -> Option<Option<Place>>
    requires root { IsIn (has_place (lent_table links.now)) root }
    requires at { IsIn (has_place (lent_table links.now)) at }
    ensures found { (cut : Cut) → IsSeen (lent_table links.now) root (join cut) → IsAfter cut at → IsSummed kind (lent_table links.now) sums.now (join cut)
        → (position : Option Place) × (result ≡ Some position) × IsFirstBeyond kind (value_at sums.now) [] bound cut.back position }
    ensures ended { result ≡ Some None → FindEnds (lent_table links.now) sums.now root at bound }
    ensures in_closed_set { (S : Place → Bool) → IsClosed seen_node (seen (lent_table links.now)) root S → IsIn S at → IfSome result (λ position. IsIn S position) }
{
    let below = next_end(links, root, at);
    let done = sum_below(sums, below);
    if bound < done {
        let next = below?;
        let member = first_below(links, sums, kind, next, 0, bound)?;
        return Some(Some(member));
    }
    let Some(place) = at else {
        return Some(None);
    };
    first_above(links, sums, kind, place, done, bound)
}

// Returns the first member after `at` whose interval overlaps `[from, to)`. The interval of a place begins at the number in `starts` and ends at the value of
// the place.
pub(crate) fn overlap(
    links: &RawTable<'_, RawThree>,
    sums: &[RawSum],
    starts: &[u64],
    root: Option<Place>,
    at: Option<Place>,
    from: u64,
    to: u64,
) -> Option<Option<Place>>
    requires root { IsIn (has_place (lent_table links.now)) root }
    requires at { IsIn (has_place (lent_table links.now)) at }
    requires starts { (lent_table links.now).extent.places ≤ length starts.now }
    ensures found { (cut : Cut) → IsSeen (lent_table links.now) root (join cut) → IsAfter cut at → IsSummed Greatest (lent_table links.now) sums.now (join cut)
        → IsSorted nat_cmp (map (key_of starts.now) cut.back)
        → result ≡ Some (first (filter (overlaps (key_of starts.now) (value_at sums.now) from to) cut.back)) }
    ensures ended { result ≡ Some None → OverlapEnds (lent_table links.now) sums.now root at starts.now from to }
    ensures in_closed_set { (S : Place → Bool) → IsClosed seen_node (seen (lent_table links.now)) root S → IsIn S at → IfSome result (λ position. IsIn S position) }
{
    let position = find(links, sums, Kind::Greatest, root, at, from)?;
    let Some(member) = position else {
        return Some(None);
    };
    if starts[member.index()] < to {
        return Some(Some(member));
    }
    Some(None)
}

// Returns the combined values of the members before the subtree at `place`, combined with `done`. The result is `None` if the way up is longer than in any
// valid tree.
fn sum_above(
    links: &RawTable<'_, RawThree>,
    sums: &[RawSum],
    kind: Kind,
    place: Place,
    done: u64,
) -> Option<u64>
    requires { has_place (lent_table links.now) place ≡ true }
    ensures made { (fs : List Frame) (t : Tree) (s : List Place) → IsSubtree seen_node (seen (lent_table links.now)) fs t → top t ≡ Some place
        → IsSummedTree kind (lent_table links.now) sums.now (plug fs t) → length fs < 67 → done ≡ total kind (value_at sums.now) s
        → result ≡ Some (total kind (value_at sums.now) (before fs ++ s)) }
    ensures ended { IfSome result (λ sum. EndsAbove (lent_table links.now) (Some place)) }
{
    let mut place = place;
    let mut done = done;
    for _ in 0..TURNS {
        let Some(above) = links.parent(place) else {
            return Some(done);
        };
        if links.is_child(place, above, Side::Right) {
            let with_it = kind.combine(value_at(sums, above), done);
            done = kind.combine(sum_below(sums, links.left(above)), with_it);
        }
        place = above;
    }
    None
}

// Returns the combined values of the members before `member`, or `None` if the parents above `member` lead to no root.
pub(crate) fn sum_before(
    links: &RawTable<'_, RawThree>,
    sums: &[RawSum],
    kind: Kind,
    member: Place,
) -> Option<u64>
    requires { has_place (lent_table links.now) member ≡ true }
    ensures made { (root : Option Place) (front back : List Place) → IsSeen (lent_table links.now) root (front ++ member ∷ back)
        → IsSummed kind (lent_table links.now) sums.now (front ++ member ∷ back) → result ≡ Some (total kind (value_at sums.now) front) }
    ensures ended { IfSome result (λ sum. EndsAbove (lent_table links.now) (Some member)) }
{
    let done = sum_below(sums, links.left(member));
    sum_above(links, sums, kind, member, done)
}
