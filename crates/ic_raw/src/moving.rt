//! The functions of this module move a member of a doubly linked list. Before a move, a function finds the places beside the member and the gap to
//! which the member goes.
//!
//! ```text
//! let Some((from, to)) = gaps_to_move(&links, &list, GapSide::After, at, member) else { .. };
//! relocate(&mut links, &mut list, from, member, to);
//! ```

ghost use Rattle.std.specs.Prelude.{◌≡◌, ◌++◌, ◌∷◌, [], List, Option, Some, None, true};
ghost use Rattle.ic_link_ops.specs.Prelude.{Place, Cut, join, KeepsLinked, Ends, Inserts};
ghost use Rattle.ic_raw.specs.declared.gap.Gap.{Gap};
ghost use Rattle.ic_raw.specs.declared.gap.GapSide.TheVariants.{After, Before};
ghost use Rattle.ic_raw.specs.Gaps.{IsBeside, IsMoved, IsNoneOrLinked, StandBeside, gap_of, toward};
ghost use Rattle.ic_raw.specs.Touches.{Touches, sides};
ghost use Rattle.ic_raw.specs.Doubly.{Represents, TellsGap, around, end_on, gap_from};
ghost use Rattle.ic_raw.specs.LinkWords.{lent_table};

use crate::gap::{Gap, GapSide};
use crate::list::{List, beside, between, follows, gap_at, gap_inside, is_after, is_before, leads};
use crate::table::RawTable;
use crate::words::ListWords;
use ic_link_ops::linked_list::LinkedListOps;
use ic_unsafe_ref::Place;

// Returns whether `member` is at the front of the list for `After`, or at the back for `Before`, and has a neighbor in the list. If a tested word of
// the two members does not have exactly the bits that a call writes, the result is `false`.
#[inline]
pub(crate) fn is_at_end<W: ListWords>(
    links: &RawTable<'_, W>,
    list: &List,
    side: GapSide,
    member: Place,
) -> bool
    ensures end { result ≡ true → end_on side list.now ≡ Some member }
    ensures links_back { result ≡ true → TellsGap W.PrevPlace side (lent_table W.PrevPlace links.now) list.now None }
    ensures member { result ≡ true → IsNoneOrLinked W.is_linked (lent_table W.PrevPlace links.now) (Some member) }
    ensures before { result ≡ true → TellsGap W.PrevPlace Before (lent_table W.PrevPlace links.now) list.now (Some member) }
    ensures after { result ≡ true → TellsGap W.PrevPlace After (lent_table W.PrevPlace links.now) list.now (Some member) }
{
    let at = Some(member);
    match side {
        GapSide::After => {
            if !leads(links, list, None, at) || !is_after(links, member, None) {
                return false;
            }
            let Some(second) = links.next(member) else {
                return false;
            };
            is_after(links, second, at)
        }
        GapSide::Before => {
            if !follows(links, list, None, at) || !is_before(links, member, None) {
                return false;
            }
            let Some(second) = links.prev(member) else {
                return false;
            };
            is_before(links, second, at)
        }
    }
}

// Returns the places on both sides of `member`, if the list has a second member, and `member` is at the back for `After`, or at the front for
// `Before`. The tested words of the two members must have exactly the bits that a call writes. Otherwise the function returns `None`.
#[inline]
pub(crate) fn beside_other_end<W: ListWords>(
    links: &RawTable<'_, W>,
    list: &List,
    side: GapSide,
    member: Place,
) -> Option<Gap>
    ensures member { (gap : Gap) → result ≡ Some gap → IsNoneOrLinked W.is_linked (lent_table W.PrevPlace links.now) (Some member) }
    ensures stands { (gap : Gap) → result ≡ Some gap → StandBeside W.is_linked (lent_table W.PrevPlace links.now) gap }
    ensures before { (gap : Gap) → result ≡ Some gap → TellsGap W.PrevPlace Before (lent_table W.PrevPlace links.now) list.now (Some member) }
    ensures after { (gap : Gap) → result ≡ Some gap → TellsGap W.PrevPlace After (lent_table W.PrevPlace links.now) list.now (Some member) }
    ensures sides { (gap : Gap) → result ≡ Some gap → gap ≡ around W.PrevPlace (lent_table W.PrevPlace links.now) list.now (Some member) }
    ensures toward { (gap : Gap) → result ≡ Some gap → (q : Place) × (toward side gap ≡ Some q) }
    ensures shown { (gap : Gap) (front back : List Place) → result ≡ Some gap → Represents W.PrevPlace (lent_table W.PrevPlace links.now) list.now (front ++ member ∷ back)
        → gap ≡ gap_of (record { front = front; back = back }) }
{
    match side {
        GapSide::After => {
            if !is_at_end(links, list, GapSide::Before, member) {
                return None;
            }
            let Some(before) = links.prev(member) else {
                return None;
            };
            Some(Gap {
                before: Some(before),
                after: links.next(member),
            })
        }
        GapSide::Before => {
            if !is_at_end(links, list, GapSide::After, member) {
                return None;
            }
            let Some(after) = links.next(member) else {
                return None;
            };
            Some(Gap {
                before: links.prev(member),
                after: Some(after),
            })
        }
    }
}

// Returns what `gaps_to_move` returns, if `member` has a neighbor on each side and the gap beside `at` is between two members. The tested words must
// have exactly the bits that a call writes. Otherwise the function returns `None`.
#[inline(always)]
pub(crate) fn gaps_inside<W: ListWords>(
    links: &RawTable<'_, W>,
    side: GapSide,
    at: Option<Place>,
    member: Place,
) -> Option<(Gap, Gap)>
    ensures shown { (from to : Gap) (list : Ends) (front back : List Place) (cut : Cut) → result ≡ Some (from, to)
        → Represents W.PrevPlace (lent_table W.PrevPlace links.now) list (front ++ member ∷ back) → join cut ≡ front ++ member ∷ back → IsBeside side cut at
        → (from ≡ gap_of (record { front = front; back = back })) × (to ≡ gap_of cut) }
    ensures at { (from to : Gap) → result ≡ Some (from, to) → IsNoneOrLinked W.is_linked (lent_table W.PrevPlace links.now) at }
    ensures links_back { (from to : Gap) (list : Ends) → result ≡ Some (from, to) → TellsGap W.PrevPlace side (lent_table W.PrevPlace links.now) list at }
    ensures to { (from to : Gap) → result ≡ Some (from, to) → StandBeside W.is_linked (lent_table W.PrevPlace links.now) to }
    ensures member { (from to : Gap) → result ≡ Some (from, to) → IsNoneOrLinked W.is_linked (lent_table W.PrevPlace links.now) (Some member) }
    ensures before { (from to : Gap) (list : Ends) → result ≡ Some (from, to) → TellsGap W.PrevPlace Before (lent_table W.PrevPlace links.now) list (Some member) }
    ensures after { (from to : Gap) (list : Ends) → result ≡ Some (from, to) → TellsGap W.PrevPlace After (lent_table W.PrevPlace links.now) list (Some member) }
    ensures from { (from to : Gap) → result ≡ Some (from, to) → StandBeside W.is_linked (lent_table W.PrevPlace links.now) from }
    ensures sides { (from to : Gap) (list : Ends) → result ≡ Some (from, to)
        → (from ≡ around W.PrevPlace (lent_table W.PrevPlace links.now) list (Some member)) × (to ≡ gap_from W.PrevPlace side (lent_table W.PrevPlace links.now) list at) }
{
    let Some(from) = between(links, member) else {
        return None;
    };
    let Some(to) = gap_inside(links, side, at) else {
        return None;
    };
    Some((from, to))
}

// Returns the places on both sides of `member`, and the gap on this side of the place `at`, into which `member` is to move. The result is `None` if
// the links beside `member` do not lead back to it. It is also `None` if the links on the two sides of the gap do not lead to each other.
#[inline]
pub(crate) fn gaps_to_move<W: ListWords>(
    links: &RawTable<'_, W>,
    list: &List,
    side: GapSide,
    at: Option<Place>,
    member: Place,
) -> Option<(Gap, Gap)>
    ensures shown { (front back : List Place) (cut : Cut) → Represents W.PrevPlace (lent_table W.PrevPlace links.now) list.now (front ++ member ∷ back)
        → join cut ≡ front ++ member ∷ back → IsBeside side cut at
        → result ≡ Some (gap_of (record { front = front; back = back }), gap_of cut) }
    ensures at { (from to : Gap) → result ≡ Some (from, to) → IsNoneOrLinked W.is_linked (lent_table W.PrevPlace links.now) at }
    ensures links_back { (from to : Gap) → result ≡ Some (from, to) → TellsGap W.PrevPlace side (lent_table W.PrevPlace links.now) list.now at }
    ensures to { (from to : Gap) → result ≡ Some (from, to) → StandBeside W.is_linked (lent_table W.PrevPlace links.now) to }
    ensures member { (from to : Gap) → result ≡ Some (from, to) → IsNoneOrLinked W.is_linked (lent_table W.PrevPlace links.now) (Some member) }
    ensures before { (from to : Gap) → result ≡ Some (from, to) → TellsGap W.PrevPlace Before (lent_table W.PrevPlace links.now) list.now (Some member) }
    ensures after { (from to : Gap) → result ≡ Some (from, to) → TellsGap W.PrevPlace After (lent_table W.PrevPlace links.now) list.now (Some member) }
    ensures from { (from to : Gap) → result ≡ Some (from, to) → StandBeside W.is_linked (lent_table W.PrevPlace links.now) from }
    ensures sides { (from to : Gap) → result ≡ Some (from, to)
        → (from ≡ around W.PrevPlace (lent_table W.PrevPlace links.now) list.now (Some member)) × (to ≡ gap_from W.PrevPlace side (lent_table W.PrevPlace links.now) list.now at) }
{
    let Some(to) = gap_at(links, list, side, at) else {
        return None;
    };
    let Some(from) = beside(links, list, Some(member)) else {
        return None;
    };
    Some((from, to))
}

// Moves `member` from between the two places of `from` into the gap `to`, which is not beside `member`. The member stays linked.
#[inline]
pub(crate) fn relocate<W: ListWords>(
    links: &mut RawTable<'_, W>,
    list: &mut List,
    from: Gap,
    member: Place,
    to: Gap,
)
    requires member { IsNoneOrLinked W.is_linked (lent_table W.PrevPlace links.old) (Some member) }
    requires from { StandBeside W.is_linked (lent_table W.PrevPlace links.old) from }
    requires to { StandBeside W.is_linked (lent_table W.PrevPlace links.old) to }
    ensures moved { (front back : List Place) (cut : Cut) → Represents W.PrevPlace (lent_table W.PrevPlace links.old) list.old (front ++ member ∷ back)
        → join cut ≡ front ++ back → from ≡ gap_of (record { front = front; back = back }) → to ≡ gap_of cut
        → Inserts (Represents W.PrevPlace) (lent_table W.PrevPlace links.old) (lent_table W.PrevPlace links.new) list.new cut member }
    ensures linked { KeepsLinked W.is_linked (lent_table W.PrevPlace links.old) (lent_table W.PrevPlace links.new) }
    ensures touched { Touches W.is_linked (lent_table W.PrevPlace links.old) (lent_table W.PrevPlace links.new) [] (Some member ∷ sides from ++ sides to) }
    ensures own { IsMoved from (Some member) to list.old list.new }
    ensures extent { (lent_table W.PrevPlace links.new).extent ≡ (lent_table W.PrevPlace links.old).extent }
{
    list.bypass(links, from.before, member, from.after);
    list.insert_linked(links, to.before, member, to.after);
}
