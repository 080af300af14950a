//! This module has the calls of singly linked lists. A place is a number, and a list is one word.
//!
//! ```text
//! push_front(table, list, 7)        // OK
//! pop_front(table, list, &mut last) // OK, and last is 7
//! ```

ghost use Rattle.std.specs.Prelude.{◌≡◌, None};
ghost use Rattle.ic_link_ops.specs.SinglyLinkedList.{list_from};
ghost use Rattle.ic_raw.specs.Words.{place_of};
ghost use Rattle.ic_raw.specs.Singly.{front_of, word_of_front};
ghost use Rattle.ic_raw.specs.StackCalls.{ClearCall, InsertCall, PopCall, RemoveCall, ReplaceCall, SpliceCall, SplitCall};

use crate::number::{number_of, place_in, place_of};
use crate::status::{BROKEN, NONE, NULL, OK};
use crate::table::{RawTable, refusal_at_end};
use crate::words::{RawFront, RawOne};
use crate::{stack, whole};
use ic_singly_linked_list::SinglyLinkedList;

/// Returns the list whose first place `words` names.
#[inline]
pub fn stack_of(words: &RawFront) -> stack::Stack
    ensures { result ≡ list_from (front_of words.now) }
{
    SinglyLinkedList::from_front(place_in(words.head))
}

/// Writes the first place of `list` to `words`.
#[inline]
pub fn write_back(words: &mut RawFront, list: stack::Stack)
    ensures set { front_of words.new ≡ list.head }
    ensures words { words.new ≡ word_of_front (front_of words.new) }
{
    words.set(list.first());
}

/// Inserts a place at the front of the list. O(1).
///
/// The place must belong to the table and must not be linked. If the first member is not linked, the call returns [`BROKEN`].
#[inline]
pub fn push_front(table: &mut [RawOne], list: &mut RawFront, place: u32) -> u32
    ensures { InsertCall table.old table.new list.old list.new result None (place_of place) }
{
    let mut links = RawTable::new(table);
    let mut edited = stack_of(&*list);
    if !stack::insert(&mut links, &mut edited, None, place_of(place)) {
        return refusal_at_end(links.entries, place);
    }
    write_back(list, edited);
    OK
}

// Makes the removal of `pop_front` from any list, or returns the status of the refusal.
#[cold]
#[inline(never)]
fn pop_front_slow(table: &mut [RawOne], list: &mut RawFront, popped: &mut u32) -> u32
    ensures { PopCall table.old table.new list.old list.new result popped.old popped.new }
{
    remove_after(table, list, NONE, popped)
}

/// Removes the first member and stores its number in `popped`, or returns [`NULL`] if there is none. O(1).
///
/// If the first member is not linked, the call returns [`BROKEN`].
#[inline]
pub fn pop_front(table: &mut [RawOne], list: &mut RawFront, popped: &mut u32) -> u32
    ensures { PopCall table.old table.new list.old list.new result popped.old popped.new }
{
    let mut links = RawTable::new(table);
    let mut edited = stack_of(&*list);
    if let Some(member) = edited.first() {
        if links.is_linked(member) {
            stack::remove(&mut links, &mut edited, None, member);
            write_back(list, edited);
            *popped = number_of(member);
            return OK;
        }
    }
    pop_front_slow(links.entries, list, popped)
}

/// Inserts a place after the member `at`, or at the front if `at` is [`NONE`]. O(1).
///
/// The place must belong to the table and must not be linked. If the place after `at` is not linked, the call returns [`BROKEN`].
#[inline]
pub fn insert_after(table: &mut [RawOne], list: &mut RawFront, at: u32, place: u32) -> u32
    ensures { InsertCall table.old table.new list.old list.new result (place_of at) (place_of place) }
{
    let mut links = RawTable::new(table);
    let mut edited = stack_of(&*list);
    if !stack::insert(&mut links, &mut edited, place_of(at), place_of(place)) {
        return links.refusal(at, place);
    }
    write_back(list, edited);
    OK
}

/// Removes the member after `at`, or the first member if `at` is [`NONE`], and stores its number in `removed`. The call returns [`NULL`] if there is
/// no such member. O(1).
///
/// If the place after `at` is not linked, the call returns [`BROKEN`].
#[inline]
pub fn remove_after(table: &mut [RawOne], list: &mut RawFront, at: u32, removed: &mut u32) -> u32
    ensures { RemoveCall table.old table.new list.old list.new result (place_of at) removed.old removed.new }
{
    let mut links = RawTable::new(table);
    let mut edited = stack_of(&*list);
    let Some(gap) = stack::gap_after(&links, &edited, place_of(at)) else {
        return links.refusal_at(at);
    };
    let Some(member) = gap.after else {
        return NULL;
    };
    stack::remove(&mut links, &mut edited, gap.before, member);
    write_back(list, edited);
    *removed = number_of(member);
    OK
}

/// Inserts a place at the position of the member after `at`, or of the first member if `at` is [`NONE`]. The call removes this member and stores its
/// number in `replaced`, or returns [`NULL`] if there is no such member. O(1).
///
/// The place must belong to the table and must not be linked. If the place after `at` is not linked, the call returns [`BROKEN`].
#[inline]
pub fn replace_after(
    table: &mut [RawOne],
    list: &mut RawFront,
    at: u32,
    place: u32,
    replaced: &mut u32,
) -> u32
    ensures { ReplaceCall table.old table.new list.old list.new result (place_of at) (place_of place) replaced.old replaced.new }
{
    let mut links = RawTable::new(table);
    let mut edited = stack_of(&*list);
    let Some(gap) = stack::gap_after(&links, &edited, place_of(at)) else {
        return links.refusal(at, place);
    };
    let Some(member) = gap.after else {
        return NULL;
    };
    if !stack::replace(&mut links, &mut edited, gap.before, member, place_of(place)) {
        return links.refusal(at, place);
    }
    write_back(list, edited);
    *replaced = number_of(member);
    OK
}

/// Moves all members of `given` after the member `at`, or to the front if `at` is [`NONE`], and leaves `given` empty.
///
/// The call reads one entry of the table for each member of `given`. If the place after `at` is not linked, the call returns [`BROKEN`]. It also
/// returns [`BROKEN`] if both lists begin with the same member, for example if `given` is the list itself, or if the links of `given` lead to no end.
#[inline]
pub fn splice_after(table: &mut [RawOne], list: &mut RawFront, at: u32, given: &mut RawFront) -> u32
    ensures { SpliceCall table.old table.new list.old list.new result (place_of at) given.old given.new }
{
    let mut links = RawTable::new(table);
    let mut edited = stack_of(&*list);
    let other = stack_of(&*given);
    if !stack::splice(&mut links, &mut edited, place_of(at), other) {
        return links.refusal_at(at);
    }
    write_back(list, edited);
    given.set(None);
    OK
}

/// Moves all members after the member `at` to `rest`, or all members of the list if `at` is [`NONE`]. O(1).
///
/// If `rest` is not empty, or the place after `at` is not linked, the call returns [`BROKEN`].
#[inline]
pub fn split_after(table: &mut [RawOne], list: &mut RawFront, at: u32, rest: &mut RawFront) -> u32
    ensures { SplitCall table.old table.new list.old list.new result (place_of at) rest.old rest.new }
{
    let mut links = RawTable::new(table);
    let mut edited = stack_of(&*list);
    let mut part = SinglyLinkedList::new();
    let filled = place_in(rest.head).is_some();
    if filled || !stack::split(&mut links, &mut edited, place_of(at), &mut part) {
        return links.refusal_at(at);
    }
    write_back(list, edited);
    write_back(rest, part);
    OK
}

/// Removes and unlinks all members. O(n).
///
/// If the links lead to no end of the list, the call returns [`BROKEN`].
#[inline]
pub fn clear(table: &mut [RawOne], list: &mut RawFront) -> u32
    ensures { ClearCall table.old table.new list.old list.new result }
{
    let mut links = RawTable::new(table);
    if !whole::clear_stack(&mut links, &mut stack_of(&*list)) {
        return BROKEN;
    }
    list.set(None);
    OK
}
