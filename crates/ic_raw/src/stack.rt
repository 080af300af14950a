//! This module has the tests and the edits of the calls of singly linked lists, over a view of the table.
//!
//! ```text
//! let made = insert(&mut links, &mut stack, at, place);
//! ```

ghost use Rattle.std.specs.Prelude.{◌≡◌, ◌≢◌, ◌↔◌, ◌++◌, ◌∷◌, [], List, Some, None, true, false};
ghost use Rattle.ic_link_ops.specs.Prelude.{Place, Cut, join, last, IsDisjoint, IsAfter, IsLinked, IsUnlinked, acquires, releases, end_of, Inserts, Removes, Replaces, Splices, Splits, list_from};
ghost use Rattle.ic_raw.specs.declared.gap.Gap.{Gap};
ghost use Rattle.ic_raw.specs.Gaps.{BeginApart, NamesFree, IsNoneOrLinked, before, gap_of};
ghost use Rattle.ic_raw.specs.Tables.{IsFree};
ghost use Rattle.ic_raw.specs.Touches.{Touches};
ghost use Rattle.ic_raw.specs.Words.{is_linked_one};
ghost use Rattle.ic_raw.specs.Singly.{Represents, RepresentsSome, TellsGap, lent_table, next_from};

use crate::gap::{Gap, begin_alike};
use crate::table::RawTable;
use crate::words::RawOne;
use ic_link_ops::LinkOps;
use ic_link_ops::singly_linked_list::SinglyLinkedListOps;
use ic_singly_linked_list::SinglyLinkedList;
use ic_unsafe_ref::Place;

/// A singly linked list that belongs to the caller.
pub type Stack = SinglyLinkedList<()>;

// Returns the place after `place`, or the first place of the list if `place` is `None`.
#[inline]
fn next_of(links: &RawTable<'_, RawOne>, list: &Stack, place: Option<Place>) -> Option<Place>
    requires { IsNoneOrLinked is_linked_one (lent_table links.now) place }
    ensures { result ≡ next_from (lent_table links.now) list.now place }
{
    match place {
        None => list.first(),
        Some(place) => links.next(place),
    }
}

// Returns the gap after the place `at`, or the gap before all members if `at` is `None`. The result is `None` if a place beside the gap is not
// linked.
#[inline]
pub(crate) fn gap_after(
    links: &RawTable<'_, RawOne>,
    list: &Stack,
    at: Option<Place>,
) -> Option<Gap>
    ensures links_back { (gap : Gap) → result ≡ Some gap → TellsGap (lent_table links.now) list.now at }
    ensures is { (gap : Gap) → result ≡ Some gap
        → gap ≡ record { before = at; after = next_from (lent_table links.now) list.now at } }
    ensures found { TellsGap (lent_table links.now) list.now at
        → result ≡ Some (record { before = at; after = next_from (lent_table links.now) list.now at }) }
    ensures shown { (cut : Cut) → Represents (lent_table links.now) list.now (join cut) → IsAfter cut at → result ≡ Some (gap_of cut) }
{
    if !links.stands(at) {
        return None;
    }
    let after = next_of(links, list, at);
    if !links.stands(after) {
        return None;
    }
    Some(Gap { before: at, after })
}

// Inserts `place` into the gap after the place `at`, and returns whether it has made this edit.
#[inline]
pub(crate) fn insert(
    links: &mut RawTable<'_, RawOne>,
    list: &mut Stack,
    at: Option<Place>,
    place: Option<Place>,
) -> bool
    ensures inserted { (cut : Cut) (p : Place) → Represents (lent_table links.old) list.old (join cut) → IsAfter cut at → place ≡ Some p
        → IsFree is_linked_one (lent_table links.old) p
        → (result ≡ true) × Inserts Represents (lent_table links.old) (lent_table links.new) list.new cut p }
    ensures accepted { (result ≡ true) ↔ NamesFree is_linked_one (lent_table links.old) place × TellsGap (lent_table links.old) list.old at }
    ensures own { result ≡ true → list.new.head ≡ end_of at place list.old.head }
    ensures touched { (p : Place) → place ≡ Some p → result ≡ true
        → Touches is_linked_one (lent_table links.old) (lent_table links.new) (acquires p ∷ []) (Some p ∷ at ∷ []) }
    ensures refused { result ≡ false → (links.new ≡ links.old) × (list.new ≡ list.old) }
    ensures extent { (lent_table links.new).extent ≡ (lent_table links.old).extent }
{
    let Some(gap) = gap_after(&*links, &*list, at) else {
        return false;
    };
    let Some(place) = links.acquire(place) else {
        return false;
    };
    list.insert_linked(links, gap.before, place, gap.after);
    true
}

// Removes `member`, which is the member after `at`, or the first member if `at` is `None`.
#[inline]
pub(crate) fn remove(
    links: &mut RawTable<'_, RawOne>,
    list: &mut Stack,
    at: Option<Place>,
    member: Place,
)
    requires stands { IsNoneOrLinked is_linked_one (lent_table links.old) at }
    requires member { IsLinked is_linked_one (lent_table links.old) member }
    ensures removed { (front back : List Place) → Represents (lent_table links.old) list.old (front ++ member ∷ back) → at ≡ last front
        → Removes Represents (lent_table links.old) (lent_table links.new) list.new (before member front back)
        × IsUnlinked is_linked_one (lent_table links.new) member }
    ensures own { list.new.head ≡ end_of at (next_from (lent_table links.old) list.old (Some member)) list.old.head }
    ensures touched { Touches is_linked_one (lent_table links.old) (lent_table links.new) (releases member ∷ []) (Some member ∷ at ∷ []) }
    ensures extent { (lent_table links.new).extent ≡ (lent_table links.old).extent }
{
    let after = links.next(member);
    list.bypass(links, at, member, after);
    links.release_link(member);
}

// Inserts `place` at the position of `member`, and removes `member`. `member` is the member after `at`, or the first member if `at` is `None`. The
// function returns whether it has made this edit.
#[inline]
pub(crate) fn replace(
    links: &mut RawTable<'_, RawOne>,
    list: &mut Stack,
    at: Option<Place>,
    member: Place,
    place: Option<Place>,
) -> bool
    requires stands { IsNoneOrLinked is_linked_one (lent_table links.old) at }
    requires member { IsLinked is_linked_one (lent_table links.old) member }
    ensures replaced { (front back : List Place) (p : Place) → Represents (lent_table links.old) list.old (front ++ member ∷ back)
        → at ≡ last front → place ≡ Some p → IsFree is_linked_one (lent_table links.old) p
        → (result ≡ true) × Replaces Represents (lent_table links.old) (lent_table links.new) list.new (before member front back) p
        × IsUnlinked is_linked_one (lent_table links.new) member }
    ensures accepted { (result ≡ true) ↔ NamesFree is_linked_one (lent_table links.old) place }
    ensures own { result ≡ true → list.new.head ≡ end_of at place list.old.head }
    ensures touched { (p : Place) → place ≡ Some p → result ≡ true → Touches is_linked_one (lent_table links.old) (lent_table links.new)
        (acquires p ∷ releases member ∷ []) (Some p ∷ Some member ∷ at ∷ []) }
    ensures refused { result ≡ false → (links.new ≡ links.old) × (list.new ≡ list.old) }
    ensures extent { (lent_table links.new).extent ≡ (lent_table links.old).extent }
{
    let after = links.next(member);
    let Some(place) = links.acquire(place) else {
        return false;
    };
    list.replace_linked(links, at, member, place, after);
    links.release_link(member);
    true
}

/// Returns the last member of the list that begins with the place `front`. The result is `None` if the links do not lead through linked places to an
/// end within as many steps as the table has places.
pub fn last_from(links: &RawTable<'_, RawOne>, front: Place) -> Option<Place>
    ensures ended { (end : Place) → result ≡ Some end
        → (s : List Place) × Represents (lent_table links.now) (list_from (Some front)) s × (Some end ≡ last s) }
    ensures shown { (s : List Place) → Represents (lent_table links.now) (list_from (Some front)) s → result ≡ last s }
{
    let mut at = front;
    let mut left = links.places();
    while left > 0 {
        if !links.is_linked(at) {
            return None;
        }
        let Some(next) = links.next(at) else {
            return Some(at);
        };
        at = next;
        left -= 1;
    }
    None
}

// Moves all members of the list `given` into the gap after the place `at`, and returns `true`. If the function refuses, it changes nothing and
// returns `false`.
#[inline]
pub(crate) fn splice(
    links: &mut RawTable<'_, RawOne>,
    list: &mut Stack,
    at: Option<Place>,
    given: Stack,
) -> bool
    ensures spliced { (cut : Cut) (t : List Place) → Represents (lent_table links.old) list.old (join cut) → IsAfter cut at
        → Represents (lent_table links.old) given t → IsDisjoint t (join cut)
        → (result ≡ true) × Splices Represents (lent_table links.old) (lent_table links.new) list.new cut t }
    ensures accepted { (result ≡ true) ↔ TellsGap (lent_table links.old) list.old at × BeginApart list.old.head given.head
        × RepresentsSome (lent_table links.old) given }
    ensures own { result ≡ true → given.head ≢ None → list.new.head ≡ end_of at given.head list.old.head }
    ensures nothing { result ≡ true → given.head ≡ None → (links.new ≡ links.old) × (list.new ≡ list.old) }
    ensures touched { (t : List Place) → Represents (lent_table links.old) given t → result ≡ true
        → Touches is_linked_one (lent_table links.old) (lent_table links.new) [] (at ∷ last t ∷ []) }
    ensures refused { result ≡ false → (links.new ≡ links.old) × (list.new ≡ list.old) }
    ensures extent { (lent_table links.new).extent ≡ (lent_table links.old).extent }
{
    if begin_alike(&*list, &given) {
        return false;
    }
    let Some(gap) = gap_after(&*links, &*list, at) else {
        return false;
    };
    let Some(front) = given.first() else {
        return true;
    };
    let Some(back) = last_from(&*links, front) else {
        return false;
    };
    list.splice_between(links, gap.before, given, Some(back), gap.after);
    true
}

// Cuts the list at the gap after the place `at`, and returns whether it has made this edit. The list keeps the members before the gap, and `rest`
// becomes the list of the members after the gap.
#[inline]
pub(crate) fn split(
    links: &mut RawTable<'_, RawOne>,
    list: &mut Stack,
    at: Option<Place>,
    rest: &mut Stack,
) -> bool
    ensures split { (cut : Cut) → Represents (lent_table links.old) list.old (join cut) → IsAfter cut at
        → (result ≡ true) × Splits Represents (lent_table links.old) (lent_table links.new) list.new rest.new cut.front cut.back }
    ensures accepted { (result ≡ true) ↔ TellsGap (lent_table links.old) list.old at }
    ensures own { result ≡ true → list.new.head ≡ end_of at None list.old.head }
    ensures rest { result ≡ true → rest.new.head ≡ next_from (lent_table links.old) list.old at }
    ensures touched { result ≡ true → Touches is_linked_one (lent_table links.old) (lent_table links.new) [] (at ∷ []) }
    ensures refused { result ≡ false → (links.new ≡ links.old) × (list.new ≡ list.old) × (rest.new ≡ rest.old) }
    ensures extent { (lent_table links.new).extent ≡ (lent_table links.old).extent }
{
    let Some(gap) = gap_after(&*links, &*list, at) else {
        return false;
    };
    *rest = list.split_between(links, gap.before, gap.after);
    true
}
