//! How a member of one doubly linked list moves into another list: the tests of both lists, and the edit over a view of the table.
//!
//! ```text
//! let Some((from, to)) = gaps_to_transfer(&links, &list, GapSide::After, at, &given, member) else { .. };
//! relocate(&mut links, &mut list, &mut given, from, member, to);
//! ```

ghost use Rattle.std.specs.Prelude.{◌≡◌, ◌≢◌, ◌++◌, ◌∷◌, [], List, Option, Some, None};
ghost use Rattle.ic_link_ops.specs.Prelude.{Place, Cut, join, IsDisjoint, KeepsLinked};
ghost use Rattle.ic_raw.specs.declared.gap.Gap.{Gap};
ghost use Rattle.ic_raw.specs.declared.gap.GapSide.TheVariants.{After, Before};
ghost use Rattle.ic_raw.specs.Doubly.{Represents, TellsGap, around, gap_from};
ghost use Rattle.ic_raw.specs.Gaps.{IsApart, IsBeside, PutIn, IsNoneOrLinked, StandBeside, TakenOut, gap_of};
ghost use Rattle.ic_raw.specs.LinkWords.{lent_table};
ghost use Rattle.ic_raw.specs.Touches.{Touches, sides};
ghost use Rattle.ic_raw_lists.specs.TransferCalls.{Transfers};

use ic_raw::gap::begin_alike;
use ic_raw::list::{List, beside, gap_at};
use ic_raw::{Gap, GapSide, ListWords, RawTable};
use ic_unsafe_ref::Place;

// Returns the places on both sides of `member`, which is in the list `given`, and the gap of the list `list` into which `member` is to move. The result is
// `None` if the neighbors of `member` do not name `member` as their neighbor, or if the places on both sides of the gap do not name each other. The result is
// also `None` if `member` is beside the gap, or if both lists begin with the same member.
#[inline]
pub(crate) fn gaps_to_transfer<W: ListWords>(
    links: &RawTable<'_, W>,
    list: &List,
    side: GapSide,
    at: Option<Place>,
    given: &List,
    member: Place,
) -> Option<(Gap, Gap)>
    ensures shown { (cut : Cut) (front back : List Place) → Represents W.PrevPlace (lent_table W.PrevPlace links.now) list.now (join cut) → IsBeside side cut at
        → Represents W.PrevPlace (lent_table W.PrevPlace links.now) given.now (front ++ member ∷ back) → IsDisjoint (front ++ member ∷ back) (join cut)
        → result ≡ Some (gap_of (record { front = front; back = back }), gap_of cut) }
    ensures at { (from to : Gap) → result ≡ Some (from, to) → IsNoneOrLinked W.is_linked (lent_table W.PrevPlace links.now) at }
    ensures links_back { (from to : Gap) → result ≡ Some (from, to) → TellsGap W.PrevPlace side (lent_table W.PrevPlace links.now) list.now at }
    ensures to { (from to : Gap) → result ≡ Some (from, to) → StandBeside W.is_linked (lent_table W.PrevPlace links.now) to }
    ensures member { (from to : Gap) → result ≡ Some (from, to) → IsNoneOrLinked W.is_linked (lent_table W.PrevPlace links.now) (Some member) }
    ensures before { (from to : Gap) → result ≡ Some (from, to) → TellsGap W.PrevPlace Before (lent_table W.PrevPlace links.now) given.now (Some member) }
    ensures after { (from to : Gap) → result ≡ Some (from, to) → TellsGap W.PrevPlace After (lent_table W.PrevPlace links.now) given.now (Some member) }
    ensures from { (from to : Gap) → result ≡ Some (from, to) → StandBeside W.is_linked (lent_table W.PrevPlace links.now) from }
    ensures sides { (from to : Gap) → result ≡ Some (from, to)
        → (from ≡ around W.PrevPlace (lent_table W.PrevPlace links.now) given.now (Some member)) × (to ≡ gap_from W.PrevPlace side (lent_table W.PrevPlace links.now) list.now at) }
    ensures apart { (from to : Gap) (p : Place) → result ≡ Some (from, to) → given.now.head ≡ Some p → list.now.head ≢ Some p }
    ensures away { (from to : Gap) → result ≡ Some (from, to) → IsApart to member }
{
    let Some(to) = gap_at(links, list, side, at) else {
        return None;
    };
    let Some(from) = beside(links, given, Some(member)) else {
        return None;
    };
    if begin_alike(list, given) {
        return None;
    }
    if !to.is_apart(member) {
        return None;
    }
    Some((from, to))
}

// Moves `member` from the list `given` into the gap `to` of the list `list`. `from` has the neighbors of `member` in `given`, and `to` must not be beside
// `member`. The member stays linked.
#[inline]
pub(crate) fn relocate<W: ListWords>(
    links: &mut RawTable<'_, W>,
    list: &mut List,
    given: &mut List,
    from: Gap,
    member: Place,
    to: Gap,
)
    requires member { IsNoneOrLinked W.is_linked (lent_table W.PrevPlace links.old) (Some member) }
    requires from { StandBeside W.is_linked (lent_table W.PrevPlace links.old) from }
    requires to { StandBeside W.is_linked (lent_table W.PrevPlace links.old) to }
    ensures moved { (cut : Cut) (front back : List Place) → Represents W.PrevPlace (lent_table W.PrevPlace links.old) list.old (join cut)
        → Represents W.PrevPlace (lent_table W.PrevPlace links.old) given.old (front ++ member ∷ back) → IsDisjoint (front ++ member ∷ back) (join cut)
        → from ≡ gap_of (record { front = front; back = back }) → to ≡ gap_of cut
        → Transfers W.PrevPlace (lent_table W.PrevPlace links.old) (lent_table W.PrevPlace links.new) list.new given.new cut front member back }
    ensures linked { KeepsLinked W.is_linked (lent_table W.PrevPlace links.old) (lent_table W.PrevPlace links.new) }
    ensures touched { Touches W.is_linked (lent_table W.PrevPlace links.old) (lent_table W.PrevPlace links.new) [] (Some member ∷ sides from ++ sides to) }
    ensures own { PutIn to (Some member) list.old list.new }
    ensures given { TakenOut from given.old given.new }
    ensures extent { (lent_table W.PrevPlace links.new).extent ≡ (lent_table W.PrevPlace links.old).extent }
{
    given.bypass(links, from.before, member, from.after);
    list.insert_linked(links, to.before, member, to.after);
}
