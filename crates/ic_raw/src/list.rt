//! This module has the tests and the edits of the calls of doubly linked lists, over a view of the table.
//!
//! ```text
//! let made = insert(&mut links, &mut list, GapSide::After, at, place);
//! ```

ghost use Rattle.std.specs.Prelude.{◌≡◌, ◌≢◌, ◌++◌, ◌∷◌, [], List, Option, Some, None, true, false};
ghost use Rattle.ic_link_ops.specs.Prelude.{Place, Cut, join, first, last, at_back, IsDisjoint, IsUnlinked, acquires, releases, Ends, Inserts, Removes, Replaces, Splices, neighbors_at};
ghost use Rattle.ic_raw.specs.declared.gap.Gap.{Gap};
ghost use Rattle.ic_raw.specs.declared.gap.GapSide.TheVariants.{After, Before};
ghost use Rattle.ic_raw.specs.Gaps.{AllPutIn, IsBeside, IsCutBeside, PutIn, IsNoneOrLinked, StandBeside, TakenOut, before, gap_of, outermost};
ghost use Rattle.ic_raw.specs.Tables.{IsFree};
ghost use Rattle.ic_raw.specs.Touches.{Touches, sides};
ghost use Rattle.ic_raw.specs.Doubly.{Represents, SplitsBeside, TellsGap, around, gap_from, IsEnd, end_on, next_from, prev_from};
ghost use Rattle.ic_raw.specs.LinkWords.{lent_table, neighbors};

use crate::gap::{Gap, GapSide, begin_alike};
use crate::table::RawTable;
use crate::words::ListWords;
use ic_link_ops::LinkOps;
use ic_link_ops::linked_list::LinkedListOps;
use ic_linked_list::LinkedList;
use ic_unsafe_ref::Place;
use std::mem;

/// A doubly linked list that belongs to the caller.
pub type List = LinkedList<()>;

// Returns the place after `place`, or the first place of the list if `place` is `None`.
#[inline]
fn next_of<W: ListWords>(
    links: &RawTable<'_, W>,
    list: &List,
    place: Option<Place>,
) -> Option<Place>
    requires { IsNoneOrLinked W.is_linked (lent_table W.PrevPlace links.now) place }
    ensures { result ≡ next_from W.PrevPlace (lent_table W.PrevPlace links.now) list.now place }
{
    match place {
        None => list.first(),
        Some(place) => links.next(place),
    }
}

// Returns the place before `place`, or the last place of the list if `place` is `None`.
#[inline]
fn prev_of<W: ListWords>(
    links: &RawTable<'_, W>,
    list: &List,
    place: Option<Place>,
) -> Option<Place>
    requires { IsNoneOrLinked W.is_linked (lent_table W.PrevPlace links.now) place }
    ensures { result ≡ prev_from W.PrevPlace (lent_table W.PrevPlace links.now) list.now place }
{
    match place {
        None => list.last(),
        Some(place) => links.prev(place),
    }
}

// Returns whether `place` is linked or `None`, and `next` is the place after it. If `place` is `None`, `next` has to be the first place of the list.
#[inline]
pub(crate) fn leads<W: ListWords>(
    links: &RawTable<'_, W>,
    list: &List,
    place: Option<Place>,
    next: Option<Place>,
) -> bool
    ensures stands { result ≡ true → IsNoneOrLinked W.is_linked (lent_table W.PrevPlace links.now) place }
    ensures next { result ≡ true → next_from W.PrevPlace (lent_table W.PrevPlace links.now) list.now place ≡ next }
    ensures leads { IsNoneOrLinked W.is_linked (lent_table W.PrevPlace links.now) place → next ≡ next_from W.PrevPlace (lent_table W.PrevPlace links.now) list.now place
        → result ≡ true }
{
    match place {
        None => Place::to_word(list.first()) == Place::to_word(next),
        Some(place) => {
            if !links.covers(place) {
                return false;
            }
            links.at(place).leads(next)
        }
    }
}

// Returns whether `place` is linked or `None`, and `prev` is the place before it. If `place` is `None`, `prev` has to be the last place of the list.
#[inline]
pub(crate) fn follows<W: ListWords>(
    links: &RawTable<'_, W>,
    list: &List,
    place: Option<Place>,
    prev: Option<Place>,
) -> bool
    ensures stands { result ≡ true → IsNoneOrLinked W.is_linked (lent_table W.PrevPlace links.now) place }
    ensures prev { result ≡ true → prev_from W.PrevPlace (lent_table W.PrevPlace links.now) list.now place ≡ prev }
    ensures follows { IsNoneOrLinked W.is_linked (lent_table W.PrevPlace links.now) place → prev ≡ prev_from W.PrevPlace (lent_table W.PrevPlace links.now) list.now place
        → result ≡ true }
{
    if !links.stands(place) {
        return false;
    }
    Place::to_word(prev_of(links, list, place)) == Place::to_word(prev)
}

/// Returns the gap on this side of the place `at`. If `at` is `None`, this is the gap before all members for `After`, and the gap after all members
/// for `Before`. The result is `None` if the links on the two sides of the gap do not lead to each other.
#[inline]
pub fn gap_at<W: ListWords>(
    links: &RawTable<'_, W>,
    list: &List,
    side: GapSide,
    at: Option<Place>,
) -> Option<Gap>
    ensures at { (gap : Gap) → result ≡ Some gap → IsNoneOrLinked W.is_linked (lent_table W.PrevPlace links.now) at }
    ensures stands { (gap : Gap) → result ≡ Some gap → StandBeside W.is_linked (lent_table W.PrevPlace links.now) gap }
    ensures links_back { (gap : Gap) → result ≡ Some gap → TellsGap W.PrevPlace side (lent_table W.PrevPlace links.now) list.now at }
    ensures sides { (gap : Gap) → result ≡ Some gap → gap ≡ gap_from W.PrevPlace side (lent_table W.PrevPlace links.now) list.now at }
    ensures shown { (cut : Cut) → Represents W.PrevPlace (lent_table W.PrevPlace links.now) list.now (join cut) → IsBeside side cut at → result ≡ Some (gap_of cut) }
{
    if !links.stands(at) {
        return None;
    }
    match side {
        GapSide::After => {
            let after = next_of(links, list, at);
            if !follows(links, list, after, at) {
                return None;
            }
            Some(Gap { before: at, after })
        }
        GapSide::Before => {
            let before = prev_of(links, list, at);
            if !leads(links, list, before, at) {
                return None;
            }
            Some(Gap { before, after: at })
        }
    }
}

/// Returns the places on both sides of the member `at`, or the last and the first place of the list if `at` is `None`. The result is `None` if the
/// links of these two places do not lead back to `at`.
#[inline]
pub fn beside<W: ListWords>(links: &RawTable<'_, W>, list: &List, at: Option<Place>) -> Option<Gap>
    ensures at { (gap : Gap) → result ≡ Some gap → IsNoneOrLinked W.is_linked (lent_table W.PrevPlace links.now) at }
    ensures stands { (gap : Gap) → result ≡ Some gap → StandBeside W.is_linked (lent_table W.PrevPlace links.now) gap }
    ensures before { (gap : Gap) → result ≡ Some gap → TellsGap W.PrevPlace Before (lent_table W.PrevPlace links.now) list.now at }
    ensures after { (gap : Gap) → result ≡ Some gap → TellsGap W.PrevPlace After (lent_table W.PrevPlace links.now) list.now at }
    ensures sides { (gap : Gap) → result ≡ Some gap → gap ≡ around W.PrevPlace (lent_table W.PrevPlace links.now) list.now at }
    ensures member { (front back : List Place) (p : Place) → Represents W.PrevPlace (lent_table W.PrevPlace links.now) list.now (front ++ p ∷ back) → at ≡ Some p
        → result ≡ Some (gap_of (record { front = front; back = back })) }
    ensures ends { (s : List Place) → Represents W.PrevPlace (lent_table W.PrevPlace links.now) list.now s → at ≡ None
        → result ≡ Some (gap_of (record { front = s; back = s })) }
{
    if !links.stands(at) {
        return None;
    }
    let before = prev_of(links, list, at);
    if !leads(links, list, before, at) {
        return None;
    }
    let after = next_of(links, list, at);
    if !follows(links, list, after, at) {
        return None;
    }
    Some(Gap { before, after })
}

// Returns whether `place` is a linked place of the table with `next` after it. If the word for the next place does not have exactly the bits that a
// call writes, the result is `false`.
#[inline]
pub(crate) fn is_before<W: ListWords>(
    links: &RawTable<'_, W>,
    place: Place,
    next: Option<Place>,
) -> bool
    ensures stands { result ≡ true → IsNoneOrLinked W.is_linked (lent_table W.PrevPlace links.now) (Some place) }
    ensures next { result ≡ true → (neighbors_at (neighbors W.PrevPlace) (lent_table W.PrevPlace links.now) place).next ≡ next }
{
    links.covers(place) && links.at(place).is_before(next)
}

// Returns whether `place` is a linked place of the table with `prev` before it. If the word for the previous place does not have exactly the bits
// that a call writes, the result is `false`.
#[inline]
pub(crate) fn is_after<W: ListWords>(
    links: &RawTable<'_, W>,
    place: Place,
    prev: Option<Place>,
) -> bool
    ensures stands { result ≡ true → IsNoneOrLinked W.is_linked (lent_table W.PrevPlace links.now) (Some place) }
    ensures prev { result ≡ true → (neighbors_at (neighbors W.PrevPlace) (lent_table W.PrevPlace links.now) place).prev ≡ prev }
{
    links.covers(place) && links.at(place).is_after(prev)
}

// Returns the two neighbors of `member`, if it has both, and the word by which each of them names `member` has exactly the bits that a call writes.
// Otherwise the function returns `None`.
#[inline]
pub(crate) fn between<W: ListWords>(links: &RawTable<'_, W>, member: Place) -> Option<Gap>
    ensures member { (gap : Gap) → result ≡ Some gap → IsNoneOrLinked W.is_linked (lent_table W.PrevPlace links.now) (Some member) }
    ensures stands { (gap : Gap) → result ≡ Some gap → StandBeside W.is_linked (lent_table W.PrevPlace links.now) gap }
    ensures before { (gap : Gap) (list : Ends) → result ≡ Some gap → TellsGap W.PrevPlace Before (lent_table W.PrevPlace links.now) list (Some member) }
    ensures after { (gap : Gap) (list : Ends) → result ≡ Some gap → TellsGap W.PrevPlace After (lent_table W.PrevPlace links.now) list (Some member) }
    ensures sides { (gap : Gap) (list : Ends) → result ≡ Some gap → gap ≡ around W.PrevPlace (lent_table W.PrevPlace links.now) list (Some member) }
    ensures prev { (gap : Gap) → result ≡ Some gap → (q : Place) × (gap.before ≡ Some q) }
    ensures next { (gap : Gap) → result ≡ Some gap → (q : Place) × (gap.after ≡ Some q) }
    ensures shown { (gap : Gap) (list : Ends) (front back : List Place) → result ≡ Some gap → Represents W.PrevPlace (lent_table W.PrevPlace links.now) list (front ++ member ∷ back)
        → gap ≡ gap_of (record { front = front; back = back }) }
{
    if !links.is_linked(member) {
        return None;
    }
    let Some(before) = links.prev(member) else {
        return None;
    };
    let Some(after) = links.next(member) else {
        return None;
    };
    if !is_before(links, before, Some(member)) || !is_after(links, after, Some(member)) {
        return None;
    }
    Some(Gap {
        before: Some(before),
        after: Some(after),
    })
}

// Returns the gap at the end of the list that `side` means: the gap before all members for `After`, or after all members for `Before`. The list must
// have a member at this end. The word by which this member says that it is the outermost one must have exactly the bits that a call writes. Otherwise
// the function returns `None`.
#[inline]
pub(crate) fn gap_at_end<W: ListWords>(
    links: &RawTable<'_, W>,
    list: &List,
    side: GapSide,
) -> Option<Gap>
    ensures links_back { (gap : Gap) → result ≡ Some gap → TellsGap W.PrevPlace side (lent_table W.PrevPlace links.now) list.now None }
    ensures stands { (gap : Gap) → result ≡ Some gap → StandBeside W.is_linked (lent_table W.PrevPlace links.now) gap }
    ensures end { (gap : Gap) → result ≡ Some gap → (q : Place) × (end_on side list.now ≡ Some q) }
    ensures sides { (gap : Gap) → result ≡ Some gap → gap ≡ gap_from W.PrevPlace side (lent_table W.PrevPlace links.now) list.now None }
    ensures shown { (gap : Gap) (s : List Place) → result ≡ Some gap → Represents W.PrevPlace (lent_table W.PrevPlace links.now) list.now s → gap ≡ gap_of (outermost side s) }
{
    match side {
        GapSide::After => {
            let Some(first) = list.first() else {
                return None;
            };
            if !is_after(links, first, None) {
                return None;
            }
            Some(Gap {
                before: None,
                after: Some(first),
            })
        }
        GapSide::Before => {
            let Some(last) = list.last() else {
                return None;
            };
            if !is_before(links, last, None) {
                return None;
            }
            Some(Gap {
                before: Some(last),
                after: None,
            })
        }
    }
}

// Inserts `place` after the last member, if the first word of the last member has exactly the bits that a call writes. Otherwise, or if `place` is
// linked or not a place of the table, the function changes nothing and returns `false`.
#[inline]
pub(crate) fn push_after_last<W: ListWords>(
    links: &mut RawTable<'_, W>,
    list: &mut List,
    place: Option<Place>,
) -> bool
    ensures inserted { (s : List Place) (p : Place) → result ≡ true → Represents W.PrevPlace (lent_table W.PrevPlace links.old) list.old (join (at_back s)) → place ≡ Some p
        → Inserts (Represents W.PrevPlace) (lent_table W.PrevPlace links.old) (lent_table W.PrevPlace links.new) list.new (at_back s) p }
    ensures head { result ≡ true → list.new.head ≡ list.old.head }
    ensures free { result ≡ true → (p : Place) × (place ≡ Some p) × IsFree W.is_linked (lent_table W.PrevPlace links.old) p }
    ensures links_back { result ≡ true → TellsGap W.PrevPlace Before (lent_table W.PrevPlace links.old) list.old None }
    ensures own { result ≡ true → PutIn (gap_from W.PrevPlace Before (lent_table W.PrevPlace links.old) list.old None) place list.old list.new }
    ensures touched { (p : Place) → result ≡ true → place ≡ Some p → Touches W.is_linked (lent_table W.PrevPlace links.old) (lent_table W.PrevPlace links.new)
        (acquires p ∷ []) (Some p ∷ sides (gap_from W.PrevPlace Before (lent_table W.PrevPlace links.old) list.old None)) }
    ensures refused { result ≡ false → (links.new ≡ links.old) × (list.new ≡ list.old) }
    ensures extent { (lent_table W.PrevPlace links.new).extent ≡ (lent_table W.PrevPlace links.old).extent }
{
    let Some(gap) = gap_at_end(&*links, &*list, GapSide::Before) else {
        return false;
    };
    let Some(place) = links.acquire(place) else {
        return false;
    };
    list.insert_linked(links, gap.before, place, gap.after);
    true
}

// Removes the first member and returns it, if a second member is after it. The words of both for the previous place must have exactly the bits that a
// call writes. Otherwise the function changes nothing and returns `None`.
#[inline]
pub(crate) fn pop_before_second<W: ListWords>(
    links: &mut RawTable<'_, W>,
    list: &mut List,
) -> Option<Place>
    ensures removed { (p q : Place) (s : List Place) → result ≡ Some q → Represents W.PrevPlace (lent_table W.PrevPlace links.old) list.old (p ∷ s)
        → (q ≡ p) × Removes (Represents W.PrevPlace) (lent_table W.PrevPlace links.old) (lent_table W.PrevPlace links.new) list.new (before p [] s)
        × IsUnlinked W.is_linked (lent_table W.PrevPlace links.new) p }
    ensures tail { (q : Place) → result ≡ Some q → list.new.tail ≡ list.old.tail }
    ensures first { (q : Place) → result ≡ Some q → list.old.head ≡ Some q }
    ensures stands { (q : Place) → result ≡ Some q → IsNoneOrLinked W.is_linked (lent_table W.PrevPlace links.old) (Some q) }
    ensures outer { (q : Place) → result ≡ Some q → TellsGap W.PrevPlace After (lent_table W.PrevPlace links.old) list.old None }
    ensures inner { (q : Place) → result ≡ Some q → TellsGap W.PrevPlace After (lent_table W.PrevPlace links.old) list.old (Some q) }
    ensures own { (q : Place) → result ≡ Some q → TakenOut (around W.PrevPlace (lent_table W.PrevPlace links.old) list.old (Some q)) list.old list.new }
    ensures touched { (q : Place) → result ≡ Some q → Touches W.is_linked (lent_table W.PrevPlace links.old) (lent_table W.PrevPlace links.new)
        (releases q ∷ []) (Some q ∷ sides (around W.PrevPlace (lent_table W.PrevPlace links.old) list.old (Some q))) }
    ensures refused { result ≡ None → (links.new ≡ links.old) × (list.new ≡ list.old) }
    ensures extent { (lent_table W.PrevPlace links.new).extent ≡ (lent_table W.PrevPlace links.old).extent }
{
    let Some(first) = list.first() else {
        return None;
    };
    if !is_after(&*links, first, None) {
        return None;
    }
    let Some(second) = links.next(first) else {
        return None;
    };
    if !is_after(&*links, second, Some(first)) {
        return None;
    }
    list.bypass(links, None, first, Some(second));
    links.release_link(first);
    Some(first)
}

// Removes `member`, if it has a neighbor on each side, and the word by which each neighbor names `member` has exactly the bits that a call writes.
// Otherwise the function changes nothing and returns `false`.
#[inline]
pub(crate) fn remove_between<W: ListWords>(
    links: &mut RawTable<'_, W>,
    list: &mut List,
    member: Place,
) -> bool
    ensures removed { (front back : List Place) → result ≡ true → Represents W.PrevPlace (lent_table W.PrevPlace links.old) list.old (front ++ member ∷ back)
        → Removes (Represents W.PrevPlace) (lent_table W.PrevPlace links.old) (lent_table W.PrevPlace links.new) list.old (before member front back)
        × IsUnlinked W.is_linked (lent_table W.PrevPlace links.new) member }
    ensures stands { result ≡ true → IsNoneOrLinked W.is_linked (lent_table W.PrevPlace links.old) (Some member) }
    ensures before { result ≡ true → TellsGap W.PrevPlace Before (lent_table W.PrevPlace links.old) list.old (Some member) }
    ensures after { result ≡ true → TellsGap W.PrevPlace After (lent_table W.PrevPlace links.old) list.old (Some member) }
    ensures own { result ≡ true → TakenOut (around W.PrevPlace (lent_table W.PrevPlace links.old) list.old (Some member)) list.old list.old }
    ensures touched { result ≡ true → Touches W.is_linked (lent_table W.PrevPlace links.old) (lent_table W.PrevPlace links.new)
        (releases member ∷ []) (Some member ∷ sides (around W.PrevPlace (lent_table W.PrevPlace links.old) list.old (Some member))) }
    ensures refused { result ≡ false → links.new ≡ links.old }
    ensures extent { (lent_table W.PrevPlace links.new).extent ≡ (lent_table W.PrevPlace links.old).extent }
{
    let Some(gap) = between(&*links, member) else {
        return false;
    };
    list.bypass(links, gap.before, member, gap.after);
    links.release_link(member);
    true
}

// Inserts `place` into the gap on this side of the place `at`, and returns whether it has made this edit.
#[inline]
pub(crate) fn insert<W: ListWords>(
    links: &mut RawTable<'_, W>,
    list: &mut List,
    side: GapSide,
    at: Option<Place>,
    place: Option<Place>,
) -> bool
    ensures inserted { (cut : Cut) (p : Place) → Represents W.PrevPlace (lent_table W.PrevPlace links.old) list.old (join cut) → IsBeside side cut at → place ≡ Some p
        → IsFree W.is_linked (lent_table W.PrevPlace links.old) p
        → (result ≡ true) × Inserts (Represents W.PrevPlace) (lent_table W.PrevPlace links.old) (lent_table W.PrevPlace links.new) list.new cut p }
    ensures free { result ≡ true → (p : Place) × (place ≡ Some p) × IsFree W.is_linked (lent_table W.PrevPlace links.old) p }
    ensures stands { result ≡ true → IsNoneOrLinked W.is_linked (lent_table W.PrevPlace links.old) at }
    ensures links_back { result ≡ true → TellsGap W.PrevPlace side (lent_table W.PrevPlace links.old) list.old at }
    ensures own { result ≡ true → PutIn (gap_from W.PrevPlace side (lent_table W.PrevPlace links.old) list.old at) place list.old list.new }
    ensures touched { (p : Place) → result ≡ true → place ≡ Some p → Touches W.is_linked (lent_table W.PrevPlace links.old) (lent_table W.PrevPlace links.new)
        (acquires p ∷ []) (Some p ∷ sides (gap_from W.PrevPlace side (lent_table W.PrevPlace links.old) list.old at)) }
    ensures refused { result ≡ false → (links.new ≡ links.old) × (list.new ≡ list.old) }
    ensures extent { (lent_table W.PrevPlace links.new).extent ≡ (lent_table W.PrevPlace links.old).extent }
{
    let Some(gap) = gap_at(&*links, &*list, side, at) else {
        return false;
    };
    let Some(place) = links.acquire(place) else {
        return false;
    };
    list.insert_linked(links, gap.before, place, gap.after);
    true
}

// Removes `member`, and returns whether it has made this edit.
#[inline]
pub(crate) fn remove<W: ListWords>(
    links: &mut RawTable<'_, W>,
    list: &mut List,
    member: Place,
) -> bool
    ensures removed { (front back : List Place) → Represents W.PrevPlace (lent_table W.PrevPlace links.old) list.old (front ++ member ∷ back)
        → (result ≡ true) × Removes (Represents W.PrevPlace) (lent_table W.PrevPlace links.old) (lent_table W.PrevPlace links.new) list.new (before member front back)
        × IsUnlinked W.is_linked (lent_table W.PrevPlace links.new) member }
    ensures stands { result ≡ true → IsNoneOrLinked W.is_linked (lent_table W.PrevPlace links.old) (Some member) }
    ensures before { result ≡ true → TellsGap W.PrevPlace Before (lent_table W.PrevPlace links.old) list.old (Some member) }
    ensures after { result ≡ true → TellsGap W.PrevPlace After (lent_table W.PrevPlace links.old) list.old (Some member) }
    ensures own { result ≡ true → TakenOut (around W.PrevPlace (lent_table W.PrevPlace links.old) list.old (Some member)) list.old list.new }
    ensures touched { result ≡ true → Touches W.is_linked (lent_table W.PrevPlace links.old) (lent_table W.PrevPlace links.new)
        (releases member ∷ []) (Some member ∷ sides (around W.PrevPlace (lent_table W.PrevPlace links.old) list.old (Some member))) }
    ensures refused { result ≡ false → (links.new ≡ links.old) × (list.new ≡ list.old) }
    ensures extent { (lent_table W.PrevPlace links.new).extent ≡ (lent_table W.PrevPlace links.old).extent }
{
    let Some(gap) = beside(&*links, &*list, Some(member)) else {
        return false;
    };
    list.bypass(links, gap.before, member, gap.after);
    links.release_link(member);
    true
}

// Returns the gap on this side of the member `at`, if a second member is on the opposite side of the gap. The word by which the second member names
// `at` must have exactly the bits that a call writes. Otherwise the function returns `None`.
#[inline(always)]
pub(crate) fn gap_inside<W: ListWords>(
    links: &RawTable<'_, W>,
    side: GapSide,
    at: Option<Place>,
) -> Option<Gap>
    ensures at { (gap : Gap) → result ≡ Some gap → IsNoneOrLinked W.is_linked (lent_table W.PrevPlace links.now) at }
    ensures stands { (gap : Gap) → result ≡ Some gap → StandBeside W.is_linked (lent_table W.PrevPlace links.now) gap }
    ensures links_back { (gap : Gap) (list : Ends) → result ≡ Some gap → TellsGap W.PrevPlace side (lent_table W.PrevPlace links.now) list at }
    ensures sides { (gap : Gap) (list : Ends) → result ≡ Some gap → gap ≡ gap_from W.PrevPlace side (lent_table W.PrevPlace links.now) list at }
    ensures shown { (gap : Gap) (list : Ends) (cut : Cut) → result ≡ Some gap → Represents W.PrevPlace (lent_table W.PrevPlace links.now) list (join cut)
        → IsBeside side cut at → gap ≡ gap_of cut }
{
    let Some(at) = at else {
        return None;
    };
    if !links.is_linked(at) {
        return None;
    }
    match side {
        GapSide::After => {
            let Some(after) = links.next(at) else {
                return None;
            };
            if !is_after(links, after, Some(at)) {
                return None;
            }
            Some(Gap {
                before: Some(at),
                after: Some(after),
            })
        }
        GapSide::Before => {
            let Some(before) = links.prev(at) else {
                return None;
            };
            if !is_before(links, before, Some(at)) {
                return None;
            }
            Some(Gap {
                before: Some(before),
                after: Some(at),
            })
        }
    }
}

// Returns the outermost member of the list and the two places beside it. The member is the first one for `After`, and the last one for `Before`. The
// result is `None` if the list is empty. It is also `None` if the links across one of the two gaps beside the member do not lead to each other.
#[inline]
fn end_at<W: ListWords>(links: &RawTable<'_, W>, list: &List, side: GapSide) -> Option<(Place, Gap)>
    ensures shown { (front back : List Place) (p : Place) → Represents W.PrevPlace (lent_table W.PrevPlace links.now) list.now (front ++ p ∷ back)
        → IsEnd side front back → result ≡ Some (p, gap_of (record { front = front; back = back })) }
    ensures end { (p : Place) (gap : Gap) → result ≡ Some (p, gap) → end_on side list.now ≡ Some p }
    ensures stands { (p : Place) (gap : Gap) → result ≡ Some (p, gap) → IsNoneOrLinked W.is_linked (lent_table W.PrevPlace links.now) (Some p) }
    ensures beside { (p : Place) (gap : Gap) → result ≡ Some (p, gap) → StandBeside W.is_linked (lent_table W.PrevPlace links.now) gap }
    ensures outer { (p : Place) (gap : Gap) → result ≡ Some (p, gap) → TellsGap W.PrevPlace side (lent_table W.PrevPlace links.now) list.now None }
    ensures inner { (p : Place) (gap : Gap) → result ≡ Some (p, gap) → TellsGap W.PrevPlace side (lent_table W.PrevPlace links.now) list.now (Some p) }
    ensures sides { (p : Place) (gap : Gap) → result ≡ Some (p, gap) → gap ≡ around W.PrevPlace (lent_table W.PrevPlace links.now) list.now (Some p) }
{
    match side {
        GapSide::After => {
            let Some(outer) = gap_at(links, list, GapSide::After, None) else {
                return None;
            };
            let Some(first) = outer.after else {
                return None;
            };
            let Some(inner) = gap_at(links, list, GapSide::After, Some(first)) else {
                return None;
            };
            Some((
                first,
                Gap {
                    before: None,
                    after: inner.after,
                },
            ))
        }
        GapSide::Before => {
            let Some(outer) = gap_at(links, list, GapSide::Before, None) else {
                return None;
            };
            let Some(last) = outer.before else {
                return None;
            };
            let Some(inner) = gap_at(links, list, GapSide::Before, Some(last)) else {
                return None;
            };
            Some((
                last,
                Gap {
                    before: inner.before,
                    after: None,
                },
            ))
        }
    }
}

// Removes the outermost member, which is the first one for `After` and the last one for `Before`, and returns this member. If `end_at` finds no
// member, the function changes nothing and returns `None`.
#[inline]
pub(crate) fn pop<W: ListWords>(
    links: &mut RawTable<'_, W>,
    list: &mut List,
    side: GapSide,
) -> Option<Place>
    ensures popped { (front back : List Place) (p : Place) → Represents W.PrevPlace (lent_table W.PrevPlace links.old) list.old (front ++ p ∷ back)
        → IsEnd side front back → (result ≡ Some p)
        × Removes (Represents W.PrevPlace) (lent_table W.PrevPlace links.old) (lent_table W.PrevPlace links.new) list.new (before p front back)
        × IsUnlinked W.is_linked (lent_table W.PrevPlace links.new) p }
    ensures end { (p : Place) → result ≡ Some p → end_on side list.old ≡ Some p }
    ensures stands { (p : Place) → result ≡ Some p → IsNoneOrLinked W.is_linked (lent_table W.PrevPlace links.old) (Some p) }
    ensures outer { (p : Place) → result ≡ Some p → TellsGap W.PrevPlace side (lent_table W.PrevPlace links.old) list.old None }
    ensures inner { (p : Place) → result ≡ Some p → TellsGap W.PrevPlace side (lent_table W.PrevPlace links.old) list.old (Some p) }
    ensures own { (p : Place) → result ≡ Some p → TakenOut (around W.PrevPlace (lent_table W.PrevPlace links.old) list.old (Some p)) list.old list.new }
    ensures touched { (p : Place) → result ≡ Some p → Touches W.is_linked (lent_table W.PrevPlace links.old) (lent_table W.PrevPlace links.new)
        (releases p ∷ []) (Some p ∷ sides (around W.PrevPlace (lent_table W.PrevPlace links.old) list.old (Some p))) }
    ensures refused { result ≡ None → (links.new ≡ links.old) × (list.new ≡ list.old) }
    ensures extent { (lent_table W.PrevPlace links.new).extent ≡ (lent_table W.PrevPlace links.old).extent }
{
    let Some((member, gap)) = end_at(&*links, &*list, side) else {
        return None;
    };
    list.bypass(links, gap.before, member, gap.after);
    links.release_link(member);
    Some(member)
}

// Inserts `place` at the position of `member`, and removes `member`. The function returns whether it has made this edit.
#[inline]
pub(crate) fn replace<W: ListWords>(
    links: &mut RawTable<'_, W>,
    list: &mut List,
    member: Place,
    place: Option<Place>,
) -> bool
    ensures replaced { (front back : List Place) (p : Place) → Represents W.PrevPlace (lent_table W.PrevPlace links.old) list.old (front ++ member ∷ back)
        → place ≡ Some p → IsFree W.is_linked (lent_table W.PrevPlace links.old) p
        → (result ≡ true) × Replaces (Represents W.PrevPlace) (lent_table W.PrevPlace links.old) (lent_table W.PrevPlace links.new) list.new (before member front back) p
        × IsUnlinked W.is_linked (lent_table W.PrevPlace links.new) member }
    ensures free { result ≡ true → (p : Place) × (place ≡ Some p) × IsFree W.is_linked (lent_table W.PrevPlace links.old) p }
    ensures stands { result ≡ true → IsNoneOrLinked W.is_linked (lent_table W.PrevPlace links.old) (Some member) }
    ensures before { result ≡ true → TellsGap W.PrevPlace Before (lent_table W.PrevPlace links.old) list.old (Some member) }
    ensures after { result ≡ true → TellsGap W.PrevPlace After (lent_table W.PrevPlace links.old) list.old (Some member) }
    ensures own { result ≡ true → PutIn (around W.PrevPlace (lent_table W.PrevPlace links.old) list.old (Some member)) place list.old list.new }
    ensures touched { (p : Place) → result ≡ true → place ≡ Some p → Touches W.is_linked (lent_table W.PrevPlace links.old) (lent_table W.PrevPlace links.new)
        (acquires p ∷ releases member ∷ []) (Some p ∷ Some member ∷ sides (around W.PrevPlace (lent_table W.PrevPlace links.old) list.old (Some member))) }
    ensures refused { result ≡ false → (links.new ≡ links.old) × (list.new ≡ list.old) }
    ensures extent { (lent_table W.PrevPlace links.new).extent ≡ (lent_table W.PrevPlace links.old).extent }
{
    let Some(gap) = beside(&*links, &*list, Some(member)) else {
        return false;
    };
    let Some(place) = links.acquire(place) else {
        return false;
    };
    list.replace_linked(links, gap.before, member, place, gap.after);
    links.release_link(member);
    true
}

// Moves all members of the list `given` into the gap on this side of the place `at`, and returns whether it has made this edit.
#[inline]
pub(crate) fn splice<W: ListWords>(
    links: &mut RawTable<'_, W>,
    list: &mut List,
    side: GapSide,
    at: Option<Place>,
    given: List,
) -> bool
    ensures spliced { (cut : Cut) (t : List Place) → Represents W.PrevPlace (lent_table W.PrevPlace links.old) list.old (join cut) → IsBeside side cut at
        → Represents W.PrevPlace (lent_table W.PrevPlace links.old) given t → IsDisjoint t (join cut)
        → (result ≡ true) × Splices (Represents W.PrevPlace) (lent_table W.PrevPlace links.old) (lent_table W.PrevPlace links.new) list.new cut t }
    ensures stands { result ≡ true → IsNoneOrLinked W.is_linked (lent_table W.PrevPlace links.old) at }
    ensures links_back { result ≡ true → TellsGap W.PrevPlace side (lent_table W.PrevPlace links.old) list.old at }
    ensures front { result ≡ true → TellsGap W.PrevPlace After (lent_table W.PrevPlace links.old) given None }
    ensures back { result ≡ true → TellsGap W.PrevPlace Before (lent_table W.PrevPlace links.old) given None }
    ensures apart { result ≡ true → (p : Place) → given.head ≡ Some p → list.old.head ≢ Some p }
    ensures touched { result ≡ true → Touches W.is_linked (lent_table W.PrevPlace links.old) (lent_table W.PrevPlace links.new) []
        (sides (gap_from W.PrevPlace side (lent_table W.PrevPlace links.old) list.old at) ++ given.head ∷ given.tail ∷ []) }
    ensures own { result ≡ true → AllPutIn (gap_from W.PrevPlace side (lent_table W.PrevPlace links.old) list.old at) given list.old list.new }
    ensures refused { result ≡ false → (links.new ≡ links.old) × (list.new ≡ list.old) }
    ensures extent { (lent_table W.PrevPlace links.new).extent ≡ (lent_table W.PrevPlace links.old).extent }
{
    let Some(gap) = gap_at(&*links, &*list, side, at) else {
        return false;
    };
    let Some(ends) = beside(&*links, &given, None) else {
        return false;
    };
    if begin_alike(&*list, &given) {
        return false;
    }
    list.splice_between(links, gap.before, given, ends.before, gap.after);
    true
}

// Moves all members of the list `given` to the front of the list for `After`, or to the back for `Before`. The function changes nothing and returns
// `false` if `at` is a place, if a list has no members, or if both lists begin with the same member. It also refuses if a tested word at an end of a
// list does not have exactly the bits that a call writes.
#[inline(always)]
pub(crate) fn splice_at_end<W: ListWords>(
    links: &mut RawTable<'_, W>,
    list: &mut List,
    side: GapSide,
    at: Option<Place>,
    given: List,
) -> bool
    ensures spliced { (cut : Cut) (t : List Place) → result ≡ true → Represents W.PrevPlace (lent_table W.PrevPlace links.old) list.old (join cut) → IsBeside side cut at
        → Represents W.PrevPlace (lent_table W.PrevPlace links.old) given t → IsDisjoint t (join cut)
        → Splices (Represents W.PrevPlace) (lent_table W.PrevPlace links.old) (lent_table W.PrevPlace links.new) list.new cut t }
    ensures none { result ≡ true → at ≡ None }
    ensures links_back { result ≡ true → TellsGap W.PrevPlace side (lent_table W.PrevPlace links.old) list.old None }
    ensures front { result ≡ true → TellsGap W.PrevPlace After (lent_table W.PrevPlace links.old) given None }
    ensures back { result ≡ true → TellsGap W.PrevPlace Before (lent_table W.PrevPlace links.old) given None }
    ensures apart { result ≡ true → (p : Place) → given.head ≡ Some p → list.old.head ≢ Some p }
    ensures touched { result ≡ true → Touches W.is_linked (lent_table W.PrevPlace links.old) (lent_table W.PrevPlace links.new) []
        (sides (gap_from W.PrevPlace side (lent_table W.PrevPlace links.old) list.old None) ++ given.head ∷ given.tail ∷ []) }
    ensures own { result ≡ true → AllPutIn (gap_from W.PrevPlace side (lent_table W.PrevPlace links.old) list.old None) given list.old list.new }
    ensures refused { result ≡ false → (links.new ≡ links.old) × (list.new ≡ list.old) }
    ensures extent { (lent_table W.PrevPlace links.new).extent ≡ (lent_table W.PrevPlace links.old).extent }
{
    if at.is_some() {
        return false;
    }
    let Some(gap) = gap_at_end(&*links, &*list, side) else {
        return false;
    };
    let Some(_) = gap_at_end(&*links, &given, GapSide::After) else {
        return false;
    };
    let Some(end) = gap_at_end(&*links, &given, GapSide::Before) else {
        return false;
    };
    if begin_alike(&*list, &given) {
        return false;
    }
    list.splice_between(links, gap.before, given, end.before, gap.after);
    true
}

// Cuts the list at `gap`. The function returns the part after the gap for `After`, or the part before the gap for `Before`, and the list keeps the
// other part.
#[inline]
pub(crate) fn split<W: ListWords>(
    links: &mut RawTable<'_, W>,
    list: &mut List,
    side: GapSide,
    gap: Gap,
) -> List
    requires gap { StandBeside W.is_linked (lent_table W.PrevPlace links.old) gap }
    ensures split { (cut : Cut) → Represents W.PrevPlace (lent_table W.PrevPlace links.old) list.old (join cut) → gap ≡ gap_of cut
        → SplitsBeside W.PrevPlace side (lent_table W.PrevPlace links.old) (lent_table W.PrevPlace links.new) list.new result cut }
    ensures touched { Touches W.is_linked (lent_table W.PrevPlace links.old) (lent_table W.PrevPlace links.new) [] (sides gap) }
    ensures own { IsCutBeside side gap list.old list.new result }
    ensures extent { (lent_table W.PrevPlace links.new).extent ≡ (lent_table W.PrevPlace links.old).extent }
{
    let back = list.split_between(links, gap.before, gap.after);
    match side {
        GapSide::After => back,
        GapSide::Before => mem::replace(list, back),
    }
}
