//! This module has the calls of XOR linked lists. A place is a number, and a list is two words. The caller of an insertion or of a cut names the
//! neighbors between which it is made.
//!
//! ```text
//! push_back(table, list, 7)            // OK
//! push_back(table, list, 9)            // OK
//! insert_between(table, list, 7, 8, 9) // OK: 7, 8, 9
//! ```

ghost use Rattle.std.specs.Prelude.{◌≡◌, ◌≢◌, ◌++◌, ◌∷◌, [], List, reverse, Some, None, true, false};
ghost use Rattle.ic_link_ops.specs.Prelude.{Place, Cut, join, last, IsAfter, IsBefore, IsDisjoint, Table, acquires, releases, no_members};
ghost use Rattle.ic_raw.specs.declared.gap.GapSide.TheVariants.{After, Before};
ghost use Rattle.ic_raw.specs.declared.status.TheConstants.{OK, NULL};
ghost use Rattle.ic_raw.specs.declared.words.RawOne.{RawOne};
ghost use Rattle.ic_raw.specs.Gaps.{PutIn, TakenOut, Turns, gap_between};
ghost use Rattle.ic_raw.specs.Touches.{Touches};
ghost use Rattle.ic_raw.specs.Words.{place_in, place_of, is_linked_one};
ghost use Rattle.ic_raw.specs.Tables.{member_fault, place_fault};
ghost use Rattle.ic_raw.specs.Doubly.{ends_of, words_of};
ghost use Rattle.ic_raw.specs.Singly.{table_of, lent_table};
ghost use Rattle.ic_raw.specs.Xor.{Represents, RepresentsList, FreeIn, IsNoneOrLinkedIn, beyond, TellsGap, TellsMemberAfter, TellsMemberBefore, TellsEnds, Inserted, Removed, Spliced};
ghost use Rattle.ic_raw.specs.Answers.{IsStatus, refusal};
ghost use Rattle.ic_raw.specs.XorCalls.{AppendCall, ClearCall, InsertCall, PopCall, PushCall, RemoveCall, ReplaceCall, SpliceCall, SplitCall};

use crate::number::{number_of, place_in, place_of};
use crate::status::{BROKEN, NULL, OK};
use crate::table::{RawTable, refusal_at_end};
use crate::words::{RawEnds, RawOne};
use crate::xor_list;
use ic_link_ops::xor_linked_list::XorLinkedListOps;
use ic_unsafe_ref::Place;
use ic_xor_linked_list::XorLinkedList;
use std::mem;

// Returns the list whose first and last place `words` names.
#[inline]
pub(crate) fn list_of(words: &RawEnds) -> xor_list::List
    ensures { result ≡ ends_of words.now }
{
    XorLinkedList::from_ends(place_in(words.head), place_in(words.tail))
}

// Writes the first and the last place of `list` to `words`.
#[inline]
pub(crate) fn write_back(words: &mut RawEnds, list: xor_list::List)
    ensures set { ends_of words.new ≡ list }
    ensures words { words.new ≡ words_of (ends_of words.new) }
{
    words.set(list.first(), list.last());
}

// Returns why `place` is not inserted between the members `one` and `other`: the first fault of the three places, or else [`BROKEN`].
#[cold]
#[inline(never)]
fn refusal_with_both(links: &RawTable<'_, RawOne>, one: u32, other: u32, place: u32) -> u32
    ensures refusal { result ≡ refusal (member_fault is_linked_one (lent_table links.now) (place_of one)
        ∷ member_fault is_linked_one (lent_table links.now) (place_of other)
        ∷ place_fault is_linked_one (lent_table links.now) (place_of place) ∷ []) }
    ensures refused { (result ≢ OK) × (result ≢ NULL) }
    ensures status { IsStatus result }
{
    let fault = links.member_fault(place_of(one));
    if fault != OK {
        return fault;
    }
    links.refusal(other, place)
}

// Inserts `place` between the neighbors `before` and `after`, and returns whether it has made this edit. Like `xor_list::insert`, the function is
// always inlined.
#[inline(always)]
fn put(
    table: &mut [RawOne],
    list: &mut RawEnds,
    before: Option<Place>,
    place: Option<Place>,
    after: Option<Place>,
) -> bool
    ensures inserted { (cut : Cut) (p : Place) → IsAfter cut before → IsBefore cut after → place ≡ Some p
        → RepresentsList table.old list.old (join cut) → FreeIn table.old p
        → (result ≡ true) × Inserted table.old table.new list.old list.new OK cut p }
    ensures free { result ≡ true → (p : Place) × (place ≡ Some p) × FreeIn table.old p }
    ensures links_back { result ≡ true → TellsGap (table_of table.old) (ends_of list.old) before after }
    ensures before { result ≡ true → IsNoneOrLinkedIn table.old before }
    ensures after { result ≡ true → IsNoneOrLinkedIn table.old after }
    ensures touched { (p : Place) → place ≡ Some p → result ≡ true
        → Touches is_linked_one (table_of table.old) (table_of table.new) (acquires p ∷ []) (Some p ∷ before ∷ after ∷ []) }
    ensures own { result ≡ true → PutIn (gap_between before after) place (ends_of list.old) (ends_of list.new) }
    ensures words { result ≡ true → list.new ≡ words_of (ends_of list.new) }
    ensures refused { result ≡ false → (table.new ≡ table.old) × (list.new ≡ list.old) }
{
    let mut links = RawTable::new(table);
    let mut edited = list_of(&*list);
    if !xor_list::insert(&mut links, &mut edited, before, place, after) {
        return false;
    }
    write_back(list, edited);
    true
}

// Returns whether `end` is a linked place with a linked neighbor. Both ends of a list of at least two members are such places, and a call at such an
// end has little else to test and write. The contract of the call does not depend on this function, because the call also makes its own tests.
#[inline(always)]
fn has_neighbor(table: &mut [RawOne], end: Option<Place>) -> bool
    ensures kept { table.new ≡ table.old }
{
    let Some(end) = end else {
        return false;
    };
    let links = RawTable::new(table);
    if !links.is_linked(end) {
        return false;
    }
    let Some(neighbor) = links.next(end, None) else {
        return false;
    };
    links.is_linked(neighbor)
}

// Inserts `place` at an end of the list, or returns the status of the refusal. The words `before` and `after` name the neighbors between which the
// place goes, and at least one of the two words names no place.
#[cold]
#[inline(never)]
fn put_slow(table: &mut [RawOne], list: &mut RawEnds, place: u32, before: u64, after: u64) -> u32
    ensures { PushCall table.old table.new list.old list.new result (place_in before) (place_in after) (place_of place) }
{
    if !put(
        table,
        list,
        place_in(before),
        place_of(place),
        place_in(after),
    ) {
        return refusal_at_end(table, place);
    }
    OK
}

/// Inserts a place at the front of the list. O(1).
///
/// The place must belong to the table and must not be linked. If the first member is not linked, the call returns [`BROKEN`].
#[inline]
pub fn push_front(table: &mut [RawOne], list: &mut RawEnds, place: u32) -> u32
    ensures { PushCall table.old table.new list.old list.new result None (ends_of list.old).head (place_of place) }
{
    let word = list.head;
    let first = place_in(word);
    if has_neighbor(table, first) && put(table, list, None, place_of(place), first) {
        return OK;
    }
    put_slow(table, list, place, 0, word)
}

/// Inserts a place at the back of the list. O(1).
///
/// The place must belong to the table and must not be linked. If the last member is not linked, the call returns [`BROKEN`].
#[inline]
pub fn push_back(table: &mut [RawOne], list: &mut RawEnds, place: u32) -> u32
    ensures { PushCall table.old table.new list.old list.new result (ends_of list.old).tail None (place_of place) }
{
    let word = list.tail;
    let last = place_in(word);
    if has_neighbor(table, last) && put(table, list, last, place_of(place), None) {
        return OK;
    }
    put_slow(table, list, place, word, 0)
}

// Removes `member`, which is after `before`, and returns whether it has made this edit.
#[inline]
fn take(table: &mut [RawOne], list: &mut RawEnds, before: Option<Place>, member: Place) -> bool
    ensures removed { (front back : List Place) → before ≡ last front → RepresentsList table.old list.old (front ++ member ∷ back)
        → (result ≡ true) × Removed table.old table.new list.old list.new OK member front back }
    ensures stands { result ≡ true → IsNoneOrLinkedIn table.old (Some member) }
    ensures before { result ≡ true → IsNoneOrLinkedIn table.old before }
    ensures links_back { result ≡ true → TellsMemberAfter (table_of table.old) (ends_of list.old) before (Some member) }
    ensures touched { result ≡ true → Touches is_linked_one (table_of table.old) (table_of table.new) (releases member ∷ [])
        (Some member ∷ before ∷ beyond (table_of table.old) (Some member) before ∷ []) }
    ensures own { result ≡ true
        → TakenOut (gap_between before (beyond (table_of table.old) (Some member) before)) (ends_of list.old) (ends_of list.new) }
    ensures words { result ≡ true → list.new ≡ words_of (ends_of list.new) }
    ensures refused { result ≡ false → (table.new ≡ table.old) × (list.new ≡ list.old) }
{
    let mut links = RawTable::new(table);
    let mut edited = list_of(&*list);
    if !xor_list::remove(&mut links, &mut edited, before, member) {
        return false;
    }
    write_back(list, edited);
    true
}

// Removes `member`, which is the last member, and returns whether it has made this edit.
#[inline]
fn take_last(table: &mut [RawOne], list: &mut RawEnds, member: Place) -> bool
    ensures removed { (front : List Place) → RepresentsList table.old list.old (front ++ member ∷ [])
        → (result ≡ true) × Removed table.old table.new list.old list.new OK member front [] }
    ensures stands { result ≡ true → IsNoneOrLinkedIn table.old (Some member) }
    ensures links_back { result ≡ true → TellsMemberBefore (table_of table.old) (ends_of list.old) None (Some member) }
    ensures touched { result ≡ true → Touches is_linked_one (table_of table.old) (table_of table.new) (releases member ∷ [])
        (Some member ∷ beyond (table_of table.old) (Some member) None ∷ None ∷ []) }
    ensures own { result ≡ true
        → TakenOut (gap_between (beyond (table_of table.old) (Some member) None) None) (ends_of list.old) (ends_of list.new) }
    ensures words { result ≡ true → list.new ≡ words_of (ends_of list.new) }
    ensures refused { result ≡ false → (table.new ≡ table.old) × (list.new ≡ list.old) }
{
    let mut links = RawTable::new(table);
    let mut edited = list_of(&*list);
    if !xor_list::remove_last(&mut links, &mut edited, member) {
        return false;
    }
    write_back(list, edited);
    true
}

// Makes the removal of `pop_front` from any list, or returns the status of the refusal.
#[cold]
#[inline(never)]
fn pop_front_slow(table: &mut [RawOne], list: &mut RawEnds, popped: &mut u32) -> u32
    ensures { PopCall table.old table.new list.old list.new result After popped.old popped.new }
{
    let Some(member) = place_in(list.head) else {
        return NULL;
    };
    if !take(table, list, None, member) {
        return BROKEN;
    }
    *popped = number_of(member);
    OK
}

/// Removes the first member and stores its number in `popped`, or returns [`NULL`] if there is none. O(1).
///
/// If the links beside the member do not lead back to it, the call returns [`BROKEN`].
#[inline]
pub fn pop_front(table: &mut [RawOne], list: &mut RawEnds, popped: &mut u32) -> u32
    ensures { PopCall table.old table.new list.old list.new result After popped.old popped.new }
{
    let mut links = RawTable::new(table);
    let mut edited = list_of(&*list);
    if let Some(first) = xor_list::pop_before_others(&mut links, &mut edited) {
        list.set_first(edited.first());
        *popped = number_of(first);
        return OK;
    }
    pop_front_slow(links.entries, list, popped)
}

/// Removes the last member and stores its number in `popped`, or returns [`NULL`] if there is none. O(1).
///
/// If the links beside the member do not lead back to it, the call returns [`BROKEN`].
#[inline]
pub fn pop_back(table: &mut [RawOne], list: &mut RawEnds, popped: &mut u32) -> u32
    ensures { PopCall table.old table.new list.old list.new result Before popped.old popped.new }
{
    let Some(member) = place_in(list.tail) else {
        return NULL;
    };
    if !take_last(table, list, member) {
        return BROKEN;
    }
    *popped = number_of(member);
    OK
}

/// Inserts a place between the neighbors `before` and `after`. At the front of the list `before` is [`NONE`], and at the back `after` is [`NONE`].
/// O(1).
///
/// The place must belong to the table and must not be linked. If `before` and `after` are not neighbors by their links, the call returns [`BROKEN`].
#[inline]
pub fn insert_between(
    table: &mut [RawOne],
    list: &mut RawEnds,
    before: u32,
    place: u32,
    after: u32,
) -> u32
    ensures { InsertCall table.old table.new list.old list.new result (place_of before) (place_of after) (place_of place) }
{
    let (front, new, back) = (place_of(before), place_of(place), place_of(after));
    if !put(table, list, front, new, back) {
        return refusal_with_both(&RawTable::new(table), before, after, place);
    }
    OK
}

/// Removes the member `at`, whose previous member is `before`. The call returns [`NULL`] if `at` is [`NONE`]. O(1).
///
/// If the links beside the member do not lead back to it, the call returns [`BROKEN`].
#[inline]
pub fn remove(table: &mut [RawOne], list: &mut RawEnds, before: u32, at: u32) -> u32
    ensures { RemoveCall table.old table.new list.old list.new result (place_of before) (place_of at) }
{
    let Some(member) = place_of(at) else {
        return NULL;
    };
    if !take(table, list, place_of(before), member) {
        return RawTable::new(table).refusal_at_both(at, before);
    }
    OK
}

/// Inserts a place at the position of the member `at`, whose previous member is `before`, and removes `at`. The call returns [`NULL`] if `at` is
/// [`NONE`]. O(1).
///
/// The place must belong to the table and must not be linked. If the links beside the member do not lead back to it, the call returns [`BROKEN`].
#[inline]
pub fn replace(table: &mut [RawOne], list: &mut RawEnds, before: u32, at: u32, place: u32) -> u32
    ensures { ReplaceCall table.old table.new list.old list.new result (place_of before) (place_of at) (place_of place) }
{
    let Some(member) = place_of(at) else {
        return NULL;
    };
    let mut links = RawTable::new(table);
    let mut edited = list_of(&*list);
    let (neighbor, new) = (place_of(before), place_of(place));
    if !xor_list::replace(&mut links, &mut edited, neighbor, member, new) {
        return refusal_with_both(&links, at, before, place);
    }
    write_back(list, edited);
    OK
}

// Moves all members of the list `given` between the neighbors `before` and `after`, and returns whether the call is accepted.
#[inline]
fn splice(
    table: &mut [RawOne],
    list: &mut RawEnds,
    before: Option<Place>,
    given: &mut RawEnds,
    after: Option<Place>,
) -> bool
    ensures spliced { (cut : Cut) (t : List Place) → IsAfter cut before → IsBefore cut after → RepresentsList table.old list.old (join cut)
        → RepresentsList table.old given.old t → IsDisjoint t (join cut)
        → (result ≡ true) × Spliced table.old table.new list.old list.new OK given.old cut t }
    ensures emptied { result ≡ true → given.new ≡ words_of no_members }
    ensures before { result ≡ true → IsNoneOrLinkedIn table.old before }
    ensures after { result ≡ true → IsNoneOrLinkedIn table.old after }
    ensures links_back { result ≡ true → TellsGap (table_of table.old) (ends_of list.old) before after }
    ensures ends { result ≡ true → TellsEnds (table_of table.old) (ends_of given.old) }
    ensures apart { result ≡ true → (p : Place) → (ends_of given.old).head ≡ Some p → (ends_of list.old).head ≢ Some p }
    ensures touched { result ≡ true
        → Touches is_linked_one (table_of table.old) (table_of table.new) [] (before ∷ after ∷ (ends_of given.old).head ∷ (ends_of given.old).tail ∷ []) }
    ensures own { (first : Place) → (ends_of given.old).head ≡ Some first → result ≡ true
        → Turns (gap_between before after) (Some first) (ends_of given.old).tail (ends_of list.old) (ends_of list.new) }
    ensures nothing { (ends_of given.old).head ≡ None → result ≡ true → (table.new ≡ table.old) × (ends_of list.new ≡ ends_of list.old) }
    ensures words { result ≡ true → list.new ≡ words_of (ends_of list.new) }
    ensures refused { result ≡ false → (table.new ≡ table.old) × (list.new ≡ list.old) × (given.new ≡ given.old) }
{
    let mut links = RawTable::new(table);
    let mut edited = list_of(&*list);
    if !xor_list::splice(&mut links, &mut edited, before, list_of(&*given), after) {
        return false;
    }
    write_back(list, edited);
    given.set(None, None);
    true
}

/// Moves all members of `given` between the neighbors `before` and `after`, and leaves `given` empty. O(1).
///
/// If `before` and `after` are not neighbors by their links, the call returns [`BROKEN`]. It also returns [`BROKEN`] if the ends of `given` are not
/// those of a list, or if both lists begin with the same member.
#[inline]
pub fn splice_between(
    table: &mut [RawOne],
    list: &mut RawEnds,
    before: u32,
    given: &mut RawEnds,
    after: u32,
) -> u32
    ensures { SpliceCall table.old table.new list.old list.new result (place_of before) (place_of after) given.old given.new }
{
    if !splice(table, list, place_of(before), given, place_of(after)) {
        return RawTable::new(table).refusal_at_both(before, after);
    }
    OK
}

/// Moves all members of `given` to the back of the list, and leaves `given` empty. O(1).
///
/// If both lists begin with the same member, for example if `given` is the list itself, the call returns [`BROKEN`]. It also returns [`BROKEN`] if
/// the last member of the list, or the first or the last member of `given`, is not linked.
#[inline]
pub fn append(table: &mut [RawOne], list: &mut RawEnds, given: &mut RawEnds) -> u32
    ensures { AppendCall table.old table.new list.old list.new result given.old given.new }
{
    let last = place_in(list.tail);
    if !splice(table, list, last, given, None) {
        return BROKEN;
    }
    OK
}

/// Cuts the list between the neighbors `before` and `after`, and moves the members from `after` on to `rest`. O(1).
///
/// If `before` and `after` are not neighbors by their links, or if `rest` is not empty, the call returns [`BROKEN`].
#[inline]
pub fn split_between(
    table: &mut [RawOne],
    list: &mut RawEnds,
    before: u32,
    after: u32,
    rest: &mut RawEnds,
) -> u32
    ensures { SplitCall table.old table.new list.old list.new result (place_of before) (place_of after) rest.old rest.new }
{
    let mut links = RawTable::new(table);
    let mut edited = list_of(&*list);
    let mut part = XorLinkedList::new();
    let (front, back) = (place_of(before), place_of(after));
    if !rest.is_empty() || !xor_list::split(&mut links, &mut edited, front, back, &mut part) {
        return links.refusal_at_both(before, after);
    }
    write_back(list, edited);
    write_back(rest, part);
    OK
}

/// Removes and unlinks all members. O(n).
///
/// If the links do not lead from the first member to the last, the call returns [`BROKEN`].
#[inline]
pub fn clear(table: &mut [RawOne], list: &mut RawEnds) -> u32
    ensures { ClearCall table.old table.new list.old list.new result }
{
    let mut links = RawTable::new(table);
    if !xor_list::clear(&mut links, &list_of(&*list)) {
        return BROKEN;
    }
    list.set(None, None);
    OK
}

/// Reverses the list. O(1): the call reads no entry of the table, and always returns [`OK`].
#[inline]
pub fn reverse(list: &mut RawEnds) -> u32
    ensures ok { result ≡ OK }
    ensures reversed { (t : Table RawOne) (s : List Place) → Represents t (ends_of list.old) s → Represents t (ends_of list.new) (reverse s) }
    ensures words { list.new ≡ record { head = list.old.tail; tail = list.old.head } }
{
    mem::swap(&mut list.head, &mut list.tail);
    OK
}
