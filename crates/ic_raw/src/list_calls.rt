//! This module has the calls of doubly linked lists. A place is a number, and a list is two words.
//!
//! ```text
//! insert_at(table, list, GapSide::After, NONE, 7) // OK: 7 is the first member
//! pop(table, list, GapSide::Before, &mut last)    // OK, and last is the number of the last member
//! ```

ghost use Rattle.std.specs.Prelude.{◌≡◌, ◌≢◌, ◌↔◌, None};
ghost use Rattle.ic_raw.specs.declared.gap.GapSide.TheVariants.{After, Before};
ghost use Rattle.ic_raw.specs.declared.status.TheConstants.{OK, NULL, BROKEN};
ghost use Rattle.ic_raw.specs.Words.{place_of};
ghost use Rattle.ic_raw.specs.Doubly.{end_on, ends_of, words_of};
ghost use Rattle.ic_raw.specs.ListCalls.{ClearCall, InsertCall, PopCall, RemoveCall, ReplaceCall, SpliceCall, SplitCall};

use crate::gap::GapSide;
use crate::number::{number_of, place_in, place_of};
use crate::status::{BROKEN, NONE, NULL, OK};
use crate::table::RawTable;
use crate::words::{ListWords, RawEnds};
use crate::{list, whole};
use ic_linked_list::LinkedList;
use ic_unsafe_ref::Place;

/// Returns the list whose first and last place `words` names.
#[inline]
pub fn list_of(words: &RawEnds) -> list::List
    ensures { result ≡ ends_of words.now }
{
    LinkedList::from_ends(place_in(words.head), place_in(words.tail))
}

/// Writes the first and the last place of `list` to `words`.
#[inline]
pub fn write_back(words: &mut RawEnds, list: list::List)
    ensures set { ends_of words.new ≡ list }
    ensures words { words.new ≡ words_of (ends_of words.new) }
{
    words.set(list.first(), list.last());
}

/// Inserts the place with the number `place` into the gap on this side of the member `at`. If `at` is [`NONE`], the place goes to the front for
/// [`GapSide::After`], or to the back for [`GapSide::Before`]. O(1).
///
/// The place must belong to the table and must not be linked. A refused call changes no word, and returns the first fault of the two places, or else
/// [`BROKEN`].
#[inline]
pub fn insert_at<W: ListWords>(
    table: &mut [W],
    list: &mut RawEnds,
    side: GapSide,
    at: u32,
    place: u32,
) -> u32
    ensures { InsertCall W.PrevPlace table.old table.new list.old list.new result side (place_of at) (place_of place) }
{
    let mut links = RawTable::new(table);
    let mut edited = list_of(&*list);
    if !list::insert(&mut links, &mut edited, side, place_of(at), place_of(place)) {
        return links.refusal(at, place);
    }
    write_back(list, edited);
    OK
}

/// Removes the first member, or the last one if the side is [`GapSide::Before`], and stores the number of the removed member in `popped`. O(1).
///
/// If the list has no member, the call returns [`NULL`]. If the links beside the member do not lead back to it, the call returns [`BROKEN`]. A
/// refused call changes nothing.
#[inline]
pub fn pop<W: ListWords>(
    table: &mut [W],
    list: &mut RawEnds,
    side: GapSide,
    popped: &mut u32,
) -> u32
    ensures { PopCall W.PrevPlace table.old table.new list.old list.new result side popped.old popped.new }
{
    let mut links = RawTable::new(table);
    let mut edited = list_of(&*list);
    let Some(member) = list::pop(&mut links, &mut edited, side) else {
        return refusal_to_pop(&*list, side);
    };
    write_back(list, edited);
    *popped = number_of(member);
    OK
}

// Returns the status of a refused pop: [`NULL`] if the list is empty, or else [`BROKEN`], because the links beside the member do not lead back to it.
#[cold]
#[inline(never)]
fn refusal_to_pop(list: &RawEnds, side: GapSide) -> u32
    ensures null { (result ≡ NULL) ↔ (end_on side (ends_of list.now) ≡ None) }
    ensures why { result ≢ NULL → result ≡ BROKEN }
    ensures refused { result ≢ OK }
{
    let word = match side {
        GapSide::After => list.head,
        GapSide::Before => list.tail,
    };
    match place_in(word) {
        None => NULL,
        Some(_) => BROKEN,
    }
}

// Makes the splice of `splice_at` for any gap and any lists, or returns the status of the refusal.
#[cold]
#[inline(never)]
fn splice_slow<W: ListWords>(
    table: &mut [W],
    list: &mut RawEnds,
    at: u32,
    given: &mut RawEnds,
    side: GapSide,
) -> u32
    ensures { SpliceCall W.PrevPlace table.old table.new list.old list.new result side (place_of at) given.old given.new }
{
    let mut links = RawTable::new(table);
    let mut edited = list_of(&*list);
    let other = list_of(&*given);
    if !list::splice(&mut links, &mut edited, side, place_of(at), other) {
        return links.refusal_at(at);
    }
    write_back(list, edited);
    given.set(None, None);
    OK
}

/// Moves all members of `given` into the gap on this side of the member `at`, and leaves `given` empty. If `at` is [`NONE`], the members go to the
/// front for [`GapSide::After`], or to the back for [`GapSide::Before`]. O(1).
///
/// A refused call changes nothing. It returns the fault of `at`, or else [`BROKEN`], for example if both lists begin with the same member.
#[inline(always)]
pub fn splice_at<W: ListWords>(
    table: &mut [W],
    list: &mut RawEnds,
    at: u32,
    given: &mut RawEnds,
    side: GapSide,
) -> u32
    ensures { SpliceCall W.PrevPlace table.old table.new list.old list.new result side (place_of at) given.old given.new }
{
    let mut links = RawTable::new(table);
    let mut edited = list_of(&*list);
    let other = list_of(&*given);
    if list::splice_at_end(&mut links, &mut edited, side, place_of(at), other) {
        write_back(list, edited);
        given.set(None, None);
        return OK;
    }
    splice_slow(links.entries, list, at, given, side)
}

// Makes the cut of `split_at` at any gap of any list, or returns the status of the refusal.
#[cold]
#[inline(never)]
fn split_slow<W: ListWords>(
    table: &mut [W],
    list: &mut RawEnds,
    at: u32,
    rest: &mut RawEnds,
    side: GapSide,
) -> u32
    ensures { SplitCall W.PrevPlace table.old table.new list.old list.new result side (place_of at) rest.old rest.new }
{
    let mut links = RawTable::new(table);
    let mut edited = list_of(&*list);
    if rest.is_empty() {
        if let Some(gap) = list::gap_at(&links, &edited, side, place_of(at)) {
            let part = list::split(&mut links, &mut edited, side, gap);
            write_back(list, edited);
            write_back(rest, part);
            return OK;
        }
    }
    links.refusal_at(at)
}

/// Cuts the list at the gap on this side of the member `at`. The part after the gap becomes the list `rest` for [`GapSide::After`], or the part
/// before the gap for [`GapSide::Before`]. If `at` is [`NONE`], all members move to `rest`. O(1).
///
/// A refused call changes nothing. It returns the fault of `at`, or else [`BROKEN`], for example if `rest` is not empty before the call.
#[inline(always)]
pub fn split_at<W: ListWords>(
    table: &mut [W],
    list: &mut RawEnds,
    at: u32,
    rest: &mut RawEnds,
    side: GapSide,
) -> u32
    ensures { SplitCall W.PrevPlace table.old table.new list.old list.new result side (place_of at) rest.old rest.new }
{
    let mut links = RawTable::new(table);
    let mut edited = list_of(&*list);
    if rest.is_empty() {
        if let Some(gap) = list::gap_inside(&links, side, place_of(at)) {
            let part = list::split(&mut links, &mut edited, side, gap);
            write_back(list, edited);
            write_back(rest, part);
            return OK;
        }
    }
    split_slow(links.entries, list, at, rest, side)
}

// Makes the insertion of `push_back` into any list, or returns the status of the refusal.
#[cold]
#[inline(never)]
fn push_back_slow<W: ListWords>(table: &mut [W], list: &mut RawEnds, place: u32) -> u32
    ensures { InsertCall W.PrevPlace table.old table.new list.old list.new result Before None (place_of place) }
{
    insert_at(table, list, GapSide::Before, NONE, place)
}

/// Inserts a place at the back of the list. O(1).
///
/// The place must belong to the table and must not be linked.
#[inline]
pub fn push_back<W: ListWords>(table: &mut [W], list: &mut RawEnds, place: u32) -> u32
    ensures { InsertCall W.PrevPlace table.old table.new list.old list.new result Before None (place_of place) }
{
    let mut links = RawTable::new(table);
    let mut edited = list_of(&*list);
    if list::push_after_last(&mut links, &mut edited, place_of(place)) {
        list.set_last(edited.last());
        return OK;
    }
    push_back_slow(links.entries, list, place)
}

// Makes the removal of `pop_front` from any list, or returns the status of the refusal.
#[cold]
#[inline(never)]
fn pop_front_slow<W: ListWords>(table: &mut [W], list: &mut RawEnds, popped: &mut u32) -> u32
    ensures { PopCall W.PrevPlace table.old table.new list.old list.new result After popped.old popped.new }
{
    pop(table, list, GapSide::After, popped)
}

/// Removes the first member and stores its number in `popped`, or returns [`NULL`] if there is none. O(1).
#[inline]
pub fn pop_front<W: ListWords>(table: &mut [W], list: &mut RawEnds, popped: &mut u32) -> u32
    ensures { PopCall W.PrevPlace table.old table.new list.old list.new result After popped.old popped.new }
{
    let mut links = RawTable::new(table);
    let mut edited = list_of(&*list);
    if let Some(first) = list::pop_before_second(&mut links, &mut edited) {
        list.set_first(edited.first());
        *popped = number_of(first);
        return OK;
    }
    pop_front_slow(links.entries, list, popped)
}

// Makes the removal of `remove` for any member of any list, or returns the status of the refusal.
#[cold]
#[inline(never)]
fn remove_slow<W: ListWords>(table: &mut [W], list: &mut RawEnds, at: u32) -> u32
    ensures { RemoveCall W.PrevPlace table.old table.new list.old list.new result (place_of at) }
{
    let Some(member) = place_of(at) else {
        return NULL;
    };
    let mut links = RawTable::new(table);
    let mut edited = list_of(&*list);
    if !list::remove(&mut links, &mut edited, member) {
        return links.refusal_at(at);
    }
    write_back(list, edited);
    OK
}

/// Removes the member `at`, or returns [`NULL`] if `at` is [`NONE`]. O(1).
#[inline]
pub fn remove<W: ListWords>(table: &mut [W], list: &mut RawEnds, at: u32) -> u32
    ensures { RemoveCall W.PrevPlace table.old table.new list.old list.new result (place_of at) }
{
    let Some(member) = place_of(at) else {
        return NULL;
    };
    let mut links = RawTable::new(table);
    if list::remove_between(&mut links, &mut list_of(&*list), member) {
        return OK;
    }
    remove_slow(links.entries, list, at)
}

/// Inserts a place at the position of the member `at`, and removes `at`. The call returns [`NULL`] if `at` is [`NONE`]. O(1).
///
/// The place must belong to the table and must not be linked.
#[inline]
pub fn replace<W: ListWords>(table: &mut [W], list: &mut RawEnds, at: u32, place: u32) -> u32
    ensures { ReplaceCall W.PrevPlace table.old table.new list.old list.new result (place_of at) (place_of place) }
{
    let Some(member) = place_of(at) else {
        return NULL;
    };
    let mut links = RawTable::new(table);
    let mut edited = list_of(&*list);
    if !list::replace(&mut links, &mut edited, member, place_of(place)) {
        return links.refusal(at, place);
    }
    write_back(list, edited);
    OK
}

/// Removes and unlinks all members. O(n).
///
/// The call returns [`BROKEN`] if the links do not lead from the first member to the last one and back.
#[inline]
pub fn clear<W: ListWords>(table: &mut [W], list: &mut RawEnds) -> u32
    ensures { ClearCall W.PrevPlace table.old table.new list.old list.new result }
{
    let mut links = RawTable::new(table);
    if !whole::clear_list(&mut links, &mut list_of(&*list)) {
        return BROKEN;
    }
    list.set(None, None);
    OK
}
