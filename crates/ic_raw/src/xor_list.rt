//! This module has the tests and the edits of the calls of XOR linked lists, over a view of the table.
//!
//! ```text
//! let made = insert(&mut links, &mut list, before, place, after);
//! ```

ghost use Rattle.std.specs.Prelude.{◌≡◌, ◌≢◌, ◌↔◌, ◌++◌, ◌∷◌, [], List, Option, Some, None, true, false};
ghost use Rattle.ic_link_ops.specs.Prelude.{Place, Cut, join, first, last, IsDisjoint, IsAfter, IsBefore, ChangesOnly, IsLinked, IsUnlinked, acquires, releases, Inserts, Removes, Replaces, Splices, Splits};
ghost use Rattle.ic_raw.specs.Calls.{Clears};
ghost use Rattle.ic_raw.specs.Gaps.{IsCutAt, PutIn, IsNoneOrLinked, TakenOut, Turns, gap_between};
ghost use Rattle.ic_raw.specs.Gaps as gaps;
ghost use Rattle.ic_raw.specs.Tables.{IsFree};
ghost use Rattle.ic_raw.specs.Touches.{Touches};
ghost use Rattle.ic_raw.specs.Words.{is_linked_one, no_word};
ghost use Rattle.ic_raw.specs.Singly.{lent_table};
ghost use Rattle.ic_raw.specs.Xor.{Represents, beyond, GoesOn, Faces, TellsGap, TellsMember, TellsMemberAfter, TellsMemberBefore, TellsEnds, LeadsThrough, OnlyUnlinks};

use crate::gap::begin_alike;
use crate::table::RawTable;
use crate::words::RawOne;
use ic_link_ops::xor_linked_list::XorLinkedListOps;
use ic_link_ops::{LinkOps, Words};
use ic_unsafe_ref::Place;
use ic_xor_linked_list::XorLinkedList;

/// An XOR linked list that belongs to the caller.
pub(crate) type List = XorLinkedList<()>;

// Returns whether the place `beyond` is linked. If `beyond` is `None`, the function returns whether `place` is `end`, an end of the list.
#[inline]
fn goes_on(
    links: &RawTable<'_, RawOne>,
    end: Option<Place>,
    place: Place,
    beyond: Option<Place>,
) -> bool
    ensures { (result ≡ true) ↔ GoesOn (lent_table links.now).entry end place beyond }
{
    match beyond {
        None => Place::to_word(end) == Place::to_word(Some(place)),
        Some(beyond) => links.is_linked(beyond),
    }
}

// Returns whether `place` is linked, and `goes_on` returns `true` for the neighbor of `place` on the side opposite to `neighbor`. If `place` is
// `None`, the function returns whether `neighbor` is `end`, an end of the list.
#[inline]
fn faces(
    links: &RawTable<'_, RawOne>,
    end: Option<Place>,
    place: Option<Place>,
    neighbor: Option<Place>,
) -> bool
    ensures links_back { (result ≡ true) ↔ Faces (lent_table links.now).entry end place neighbor }
    ensures stands { result ≡ true → IsNoneOrLinked is_linked_one (lent_table links.now) place }
{
    let Some(place) = place else {
        return Place::to_word(end) == Place::to_word(neighbor);
    };
    if !links.is_linked(place) {
        return false;
    }
    goes_on(links, end, place, links.next(place, neighbor))
}

// Returns whether the places `before` and `after` are neighbors by their links. At the front of the list `before` is `None`, and at the back `after`
// is `None`.
#[inline]
pub(crate) fn is_gap(
    links: &RawTable<'_, RawOne>,
    list: &List,
    before: Option<Place>,
    after: Option<Place>,
) -> bool
    ensures links_back { result ≡ true → TellsGap (lent_table links.now) list.now before after }
    ensures before { result ≡ true → IsNoneOrLinked is_linked_one (lent_table links.now) before }
    ensures after { result ≡ true → IsNoneOrLinked is_linked_one (lent_table links.now) after }
    ensures shown { (cut : Cut) → Represents (lent_table links.now) list.now (join cut) → IsAfter cut before → IsBefore cut after
        → result ≡ true }
{
    faces(links, list.first(), before, after) && faces(links, list.last(), after, before)
}

// Returns whether the place `member` is between `before` and `after` by their links. For the first member `before` is `None`, and for the last member
// `after` is `None`.
#[inline]
fn is_between(
    links: &RawTable<'_, RawOne>,
    list: &List,
    before: Option<Place>,
    member: Place,
    after: Option<Place>,
) -> bool
    ensures links_back { result ≡ true → TellsMember (lent_table links.now) list.now before member after }
    ensures before { result ≡ true → IsNoneOrLinked is_linked_one (lent_table links.now) before }
    ensures after { result ≡ true → IsNoneOrLinked is_linked_one (lent_table links.now) after }
    ensures shown { (front back : List Place) → Represents (lent_table links.now) list.now (front ++ member ∷ back)
        → before ≡ last front → after ≡ first back → result ≡ true }
{
    let at = Some(member);
    faces(links, list.first(), before, at) && faces(links, list.last(), after, at)
}

// Inserts `place` into the gap between `before` and `after`, and returns whether it has made this edit. The function is always inlined, because a
// call of it would add some 40 instructions to an insertion between neighbors.
#[inline(always)]
pub(crate) fn insert(
    links: &mut RawTable<'_, RawOne>,
    list: &mut List,
    before: Option<Place>,
    place: Option<Place>,
    after: Option<Place>,
) -> bool
    ensures inserted { (cut : Cut) (p : Place) → Represents (lent_table links.old) list.old (join cut) → IsAfter cut before → IsBefore cut after
        → place ≡ Some p → IsFree is_linked_one (lent_table links.old) p
        → (result ≡ true) × Inserts Represents (lent_table links.old) (lent_table links.new) list.new cut p }
    ensures free { result ≡ true → (p : Place) × (place ≡ Some p) × IsFree is_linked_one (lent_table links.old) p }
    ensures links_back { result ≡ true → TellsGap (lent_table links.old) list.old before after }
    ensures touched { (p : Place) → place ≡ Some p → result ≡ true
        → Touches is_linked_one (lent_table links.old) (lent_table links.new) (acquires p ∷ []) (Some p ∷ before ∷ after ∷ []) }
    ensures own { result ≡ true → PutIn (gap_between before after) place list.old list.new }
    ensures before { result ≡ true → IsNoneOrLinked is_linked_one (lent_table links.old) before }
    ensures after { result ≡ true → IsNoneOrLinked is_linked_one (lent_table links.old) after }
    ensures refused { result ≡ false → (links.new ≡ links.old) × (list.new ≡ list.old) }
    ensures extent { (lent_table links.new).extent ≡ (lent_table links.old).extent }
{
    if !is_gap(&*links, &*list, before, after) {
        return false;
    }
    let Some(place) = links.acquire(place) else {
        return false;
    };
    list.insert_linked(links, before, place, after);
    true
}

// Removes `member`, which is between `before` and `after`, and returns whether it has made this edit.
#[inline]
fn take_out(
    links: &mut RawTable<'_, RawOne>,
    list: &mut List,
    before: Option<Place>,
    member: Place,
    after: Option<Place>,
) -> bool
    requires { IsLinked is_linked_one (lent_table links.old) member }
    ensures removed { (front back : List Place) → Represents (lent_table links.old) list.old (front ++ member ∷ back)
        → before ≡ last front → after ≡ first back
        → (result ≡ true) × Removes Represents (lent_table links.old) (lent_table links.new) list.new (gaps.before member front back)
        × IsUnlinked is_linked_one (lent_table links.new) member }
    ensures links_back { result ≡ true → TellsMember (lent_table links.old) list.old before member after }
    ensures touched { result ≡ true
        → Touches is_linked_one (lent_table links.old) (lent_table links.new) (releases member ∷ []) (Some member ∷ before ∷ after ∷ []) }
    ensures own { result ≡ true → TakenOut (gap_between before after) list.old list.new }
    ensures before { result ≡ true → IsNoneOrLinked is_linked_one (lent_table links.old) before }
    ensures refused { result ≡ false → (links.new ≡ links.old) × (list.new ≡ list.old) }
    ensures extent { (lent_table links.new).extent ≡ (lent_table links.old).extent }
{
    if !is_between(&*links, &*list, before, member, after) {
        return false;
    }
    list.bypass(links, before, member, after);
    links.release_link(member);
    true
}

// Removes `member`, which is after `before`, and returns whether it has made this edit.
#[inline]
pub(crate) fn remove(
    links: &mut RawTable<'_, RawOne>,
    list: &mut List,
    before: Option<Place>,
    member: Place,
) -> bool
    ensures removed { (front back : List Place) → Represents (lent_table links.old) list.old (front ++ member ∷ back) → before ≡ last front
        → (result ≡ true) × Removes Represents (lent_table links.old) (lent_table links.new) list.new (gaps.before member front back)
        × IsUnlinked is_linked_one (lent_table links.new) member }
    ensures stands { result ≡ true → IsNoneOrLinked is_linked_one (lent_table links.old) (Some member) }
    ensures before { result ≡ true → IsNoneOrLinked is_linked_one (lent_table links.old) before }
    ensures links_back { result ≡ true → TellsMemberAfter (lent_table links.old) list.old before (Some member) }
    ensures touched { result ≡ true → Touches is_linked_one (lent_table links.old) (lent_table links.new) (releases member ∷ [])
        (Some member ∷ before ∷ beyond (lent_table links.old) (Some member) before ∷ []) }
    ensures own { result ≡ true → TakenOut (gap_between before (beyond (lent_table links.old) (Some member) before)) list.old list.new }
    ensures refused { result ≡ false → (links.new ≡ links.old) × (list.new ≡ list.old) }
    ensures extent { (lent_table links.new).extent ≡ (lent_table links.old).extent }
{
    if !links.is_linked(member) {
        return false;
    }
    let after = links.next(member, before);
    take_out(links, list, before, member, after)
}

// Removes the first member and returns it, if the links lead from it to two more linked places. Otherwise the function changes nothing and returns
// `None`.
#[inline]
pub(crate) fn pop_before_others(links: &mut RawTable<'_, RawOne>, list: &mut List) -> Option<Place>
    ensures removed { (p q : Place) (s : List Place) → result ≡ Some q → Represents (lent_table links.old) list.old (p ∷ s)
        → (q ≡ p) × Removes Represents (lent_table links.old) (lent_table links.new) list.new (gaps.before p [] s)
        × IsUnlinked is_linked_one (lent_table links.new) p }
    ensures tail { (q : Place) → result ≡ Some q → list.new.tail ≡ list.old.tail }
    ensures first { (q : Place) → result ≡ Some q → list.old.head ≡ Some q }
    ensures stands { (q : Place) → result ≡ Some q → IsNoneOrLinked is_linked_one (lent_table links.old) (Some q) }
    ensures links_back { (q : Place) → result ≡ Some q → TellsMemberAfter (lent_table links.old) list.old None (Some q) }
    ensures touched { (q : Place) → result ≡ Some q → Touches is_linked_one (lent_table links.old) (lent_table links.new) (releases q ∷ [])
        (Some q ∷ None ∷ beyond (lent_table links.old) (Some q) None ∷ []) }
    ensures own { (q : Place) → result ≡ Some q → TakenOut (gap_between None (beyond (lent_table links.old) (Some q) None)) list.old list.new }
    ensures refused { result ≡ None → (links.new ≡ links.old) × (list.new ≡ list.old) }
    ensures extent { (lent_table links.new).extent ≡ (lent_table links.old).extent }
{
    let Some(first) = list.first() else {
        return None;
    };
    if !links.is_linked(first) {
        return None;
    }
    let Some(second) = links.next(first, None) else {
        return None;
    };
    if !links.is_linked(second) {
        return None;
    }
    let Some(third) = links.next(second, Some(first)) else {
        return None;
    };
    if !links.is_linked(third) {
        return None;
    }
    list.bypass(links, None, first, Some(second));
    links.release_link(first);
    Some(first)
}

// Removes `member`, which is the last member, and returns whether it has made this edit.
#[inline]
pub(crate) fn remove_last(links: &mut RawTable<'_, RawOne>, list: &mut List, member: Place) -> bool
    ensures removed { (front : List Place) → Represents (lent_table links.old) list.old (front ++ member ∷ [])
        → (result ≡ true) × Removes Represents (lent_table links.old) (lent_table links.new) list.new (gaps.before member front [])
        × IsUnlinked is_linked_one (lent_table links.new) member }
    ensures stands { result ≡ true → IsNoneOrLinked is_linked_one (lent_table links.old) (Some member) }
    ensures links_back { result ≡ true → TellsMemberBefore (lent_table links.old) list.old None (Some member) }
    ensures touched { result ≡ true → Touches is_linked_one (lent_table links.old) (lent_table links.new) (releases member ∷ [])
        (Some member ∷ beyond (lent_table links.old) (Some member) None ∷ None ∷ []) }
    ensures own { result ≡ true → TakenOut (gap_between (beyond (lent_table links.old) (Some member) None) None) list.old list.new }
    ensures refused { result ≡ false → (links.new ≡ links.old) × (list.new ≡ list.old) }
    ensures extent { (lent_table links.new).extent ≡ (lent_table links.old).extent }
{
    if !links.is_linked(member) {
        return false;
    }
    let before = links.prev(member, None);
    take_out(links, list, before, member, None)
}

// Inserts `place` at the position of `member`, which is after `before`, and removes `member`. The function returns whether it has made this edit.
#[inline]
pub(crate) fn replace(
    links: &mut RawTable<'_, RawOne>,
    list: &mut List,
    before: Option<Place>,
    member: Place,
    place: Option<Place>,
) -> bool
    ensures replaced { (front back : List Place) (p : Place) → Represents (lent_table links.old) list.old (front ++ member ∷ back)
        → before ≡ last front → place ≡ Some p → IsFree is_linked_one (lent_table links.old) p
        → (result ≡ true) × Replaces Represents (lent_table links.old) (lent_table links.new) list.new (gaps.before member front back) p
        × IsUnlinked is_linked_one (lent_table links.new) member }
    ensures free { result ≡ true → (p : Place) × (place ≡ Some p) × IsFree is_linked_one (lent_table links.old) p }
    ensures stands { result ≡ true → IsNoneOrLinked is_linked_one (lent_table links.old) (Some member) }
    ensures before { result ≡ true → IsNoneOrLinked is_linked_one (lent_table links.old) before }
    ensures links_back { result ≡ true → TellsMemberAfter (lent_table links.old) list.old before (Some member) }
    ensures touched { (p : Place) → place ≡ Some p → result ≡ true
        → Touches is_linked_one (lent_table links.old) (lent_table links.new) (acquires p ∷ releases member ∷ [])
        (Some p ∷ Some member ∷ before ∷ beyond (lent_table links.old) (Some member) before ∷ []) }
    ensures own { result ≡ true → PutIn (gap_between before (beyond (lent_table links.old) (Some member) before)) place list.old list.new }
    ensures refused { result ≡ false → (links.new ≡ links.old) × (list.new ≡ list.old) }
    ensures extent { (lent_table links.new).extent ≡ (lent_table links.old).extent }
{
    if !links.is_linked(member) {
        return false;
    }
    let after = links.next(member, before);
    if !is_between(&*links, &*list, before, member, after) {
        return false;
    }
    let Some(place) = links.acquire(place) else {
        return false;
    };
    list.replace_linked(links, before, member, place, after);
    links.release_link(member);
    true
}

// Returns whether the links at both ends are those of a list: each end is linked and has no place beyond it, or both ends are `None`.
#[inline]
fn has_ends(links: &RawTable<'_, RawOne>, list: &List) -> bool
    ensures links_back { result ≡ true → TellsEnds (lent_table links.now) list.now }
    ensures first { result ≡ true → IsNoneOrLinked is_linked_one (lent_table links.now) list.now.head }
    ensures last { result ≡ true → IsNoneOrLinked is_linked_one (lent_table links.now) list.now.tail }
    ensures shown { (s : List Place) → Represents (lent_table links.now) list.now s → result ≡ true }
{
    let (first, last) = (list.first(), list.last());
    faces(links, last, first, None) && faces(links, first, last, None)
}

// Moves all members of the list `given` into the gap between `before` and `after`, and returns whether the call is accepted.
#[inline]
pub(crate) fn splice(
    links: &mut RawTable<'_, RawOne>,
    list: &mut List,
    before: Option<Place>,
    given: List,
    after: Option<Place>,
) -> bool
    ensures spliced { (cut : Cut) (t : List Place) → Represents (lent_table links.old) list.old (join cut) → IsAfter cut before
        → IsBefore cut after → Represents (lent_table links.old) given t → IsDisjoint t (join cut)
        → (result ≡ true) × Splices Represents (lent_table links.old) (lent_table links.new) list.new cut t }
    ensures links_back { result ≡ true → TellsGap (lent_table links.old) list.old before after }
    ensures ends { result ≡ true → TellsEnds (lent_table links.old) given }
    ensures apart { result ≡ true → (p : Place) → given.head ≡ Some p → list.old.head ≢ Some p }
    ensures touched { result ≡ true
        → Touches is_linked_one (lent_table links.old) (lent_table links.new) [] (before ∷ after ∷ given.head ∷ given.tail ∷ []) }
    ensures own { (first : Place) → given.head ≡ Some first → result ≡ true
        → Turns (gap_between before after) (Some first) given.tail list.old list.new }
    ensures nothing { given.head ≡ None → result ≡ true → (links.new ≡ links.old) × (list.new ≡ list.old) }
    ensures before { result ≡ true → IsNoneOrLinked is_linked_one (lent_table links.old) before }
    ensures after { result ≡ true → IsNoneOrLinked is_linked_one (lent_table links.old) after }
    ensures refused { result ≡ false → (links.new ≡ links.old) × (list.new ≡ list.old) }
    ensures extent { (lent_table links.new).extent ≡ (lent_table links.old).extent }
{
    if begin_alike(&*list, &given) {
        return false;
    }
    if !is_gap(&*links, &*list, before, after) {
        return false;
    }
    if !has_ends(&*links, &given) {
        return false;
    }
    let end = given.last();
    list.splice_between(links, before, given, end, after);
    true
}

// Cuts the list at the gap between `before` and `after`, and returns whether it has made this edit. The list keeps the members before the gap, and
// `rest` becomes the list of the members after the gap.
#[inline]
pub(crate) fn split(
    links: &mut RawTable<'_, RawOne>,
    list: &mut List,
    before: Option<Place>,
    after: Option<Place>,
    rest: &mut List,
) -> bool
    ensures split { (cut : Cut) → Represents (lent_table links.old) list.old (join cut) → IsAfter cut before → IsBefore cut after
        → (result ≡ true) × Splits Represents (lent_table links.old) (lent_table links.new) list.new rest.new cut.front cut.back }
    ensures links_back { result ≡ true → TellsGap (lent_table links.old) list.old before after }
    ensures touched { result ≡ true → Touches is_linked_one (lent_table links.old) (lent_table links.new) [] (before ∷ after ∷ []) }
    ensures own { result ≡ true → IsCutAt (gap_between before after) list.old list.new rest.new }
    ensures before { result ≡ true → IsNoneOrLinked is_linked_one (lent_table links.old) before }
    ensures after { result ≡ true → IsNoneOrLinked is_linked_one (lent_table links.old) after }
    ensures refused { result ≡ false → (links.new ≡ links.old) × (list.new ≡ list.old) × (rest.new ≡ rest.old) }
    ensures extent { (lent_table links.new).extent ≡ (lent_table links.old).extent }
{
    if !is_gap(&*links, &*list, before, after) {
        return false;
    }
    *rest = list.split_between(links, before, after);
    true
}

// Returns whether the links lead from the first member to the last within as many steps as the table has places.
fn leads_to_last(links: &RawTable<'_, RawOne>, list: &List) -> bool
    ensures ended { result ≡ true → (s : List Place) × LeadsThrough (lent_table links.now) list.now s }
    ensures shown { (s : List Place) → Represents (lent_table links.now) list.now s → result ≡ true }
{
    let Some(front) = list.first() else {
        return Place::to_word(list.last()) == Place::to_word(None);
    };
    let mut prev = None;
    let mut at = front;
    let mut left = links.places();
    while left > 0 {
        if !links.is_linked(at) {
            return false;
        }
        let Some(next) = links.next(at, prev) else {
            return Place::to_word(list.last()) == Place::to_word(Some(at));
        };
        prev = Some(at);
        at = next;
        left -= 1;
    }
    false
}

// Unlinks `place`, and gives it the word of a place that no call has linked.
#[inline]
fn unlink(links: &mut RawTable<'_, RawOne>, place: Place)
    requires linked { IsLinked is_linked_one (lent_table links.old) place }
    ensures frame { ChangesOnly (lent_table links.old) (lent_table links.new) place }
    ensures word { (lent_table links.new).entry place ≡ no_word }
{
    links.entries[place.index()] = RawOne::unlinked();
}

// Unlinks the members one after the other, beginning with the first member.
fn release_all(links: &mut RawTable<'_, RawOne>, list: &List)
    ensures cleared { (s : List Place) → Represents (lent_table links.old) list.now s → Clears is_linked_one (lent_table links.old) (lent_table links.new) s }
    ensures marks { OnlyUnlinks (lent_table links.old) (lent_table links.new) }
    ensures extent { (lent_table links.new).extent ≡ (lent_table links.old).extent }
{
    let mut prev = None;
    let mut at = list.first();
    let mut left = links.places();
    while left > 0 {
        let Some(member) = at else {
            return;
        };
        if !links.is_linked(member) {
            return;
        }
        at = links.next(member, prev);
        unlink(links, member);
        prev = Some(member);
        left -= 1;
    }
}

// Removes all members and returns `true`, if the links lead from the first member to the last. Otherwise the function changes nothing and returns
// `false`.
pub(crate) fn clear(links: &mut RawTable<'_, RawOne>, list: &List) -> bool
    ensures cleared { (s : List Place) → Represents (lent_table links.old) list.now s
        → (result ≡ true) × Clears is_linked_one (lent_table links.old) (lent_table links.new) s }
    ensures ended { result ≡ true → (s : List Place) × LeadsThrough (lent_table links.old) list.now s }
    ensures refused { result ≡ false → links.new ≡ links.old }
    ensures marks { OnlyUnlinks (lent_table links.old) (lent_table links.new) }
    ensures extent { (lent_table links.new).extent ≡ (lent_table links.old).extent }
{
    if !leads_to_last(&*links, list) {
        return false;
    }
    release_all(links, list);
    true
}
