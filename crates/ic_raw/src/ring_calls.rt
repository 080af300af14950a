//! This module has the calls of rings. A ring is a doubly linked list whose head is a place of the table. The arguments of an edit are places, and
//! never a ring.
//!
//! ```text
//! init(table, 64)                    // OK: a ring with no members
//! insert(table, GapSide::Before, 64, 7) // OK: before the head is the back
//! remove(table, 7)                   // OK, from whichever ring it is in
//! ```

ghost use Rattle.std.specs.Prelude.{◌≡◌, ◌≢◌, ◌↔◌, ◌∷◌, [], Some};
ghost use Rattle.ic_raw.specs.declared.status.TheConstants.{OK, NULL};
ghost use Rattle.ic_raw.specs.Answers.{refusal};
ghost use Rattle.ic_raw.specs.LinkWords.{lent_table};
ghost use Rattle.ic_raw.specs.Ring.{AreLinked};
ghost use Rattle.ic_raw.specs.RingCalls.{PopCall, ReplaceCall, MoveCall, SpliceCall};
ghost use Rattle.ic_raw.specs.Tables.{member_fault};
ghost use Rattle.ic_raw.specs.Words.{place_of};
ghost use Rattle.ic_raw.specs.RingCalls.{ExchangeCall, InitCall, InsertCall, RemoveCall};

use crate::gap::GapSide;
use crate::number::{number_of, place_of};
use crate::status::{NULL, OK};
use crate::table::{RawTable, refusal_at_end};
use crate::{ring, ring_moves};
use ic_link_ops::PrevPlace;
use ic_unsafe_ref::Place;

/// Makes a place the head of a ring with no members. O(1).
///
/// The place must belong to the table and must not be linked.
#[inline]
pub fn init<W: PrevPlace>(table: &mut [W], head: u32) -> u32
    ensures { InitCall W.PrevPlace table.old table.new result (place_of head) }
{
    let mut links = RawTable::new(table);
    let Some(_) = ring::close(&mut links, place_of(head)) else {
        return refusal_at_end(links.entries, head);
    };
    OK
}

/// Inserts a place into the ring of the place `at`, on this side of `at`. O(1).
///
/// The place must belong to the table and must not be linked. The call returns [`NULL`] if `at` is [`NONE`](crate::NONE), else the first fault of the
/// two places, or else [`BROKEN`](crate::BROKEN). A refused call changes no word.
#[inline]
pub fn insert<W: PrevPlace>(table: &mut [W], side: GapSide, at: u32, place: u32) -> u32
    ensures { InsertCall W.PrevPlace table.old table.new result side (place_of at) (place_of place) }
{
    let Some(member) = place_of(at) else {
        return NULL;
    };
    let mut links = RawTable::new(table);
    if !ring::insert(&mut links, side, member, place_of(place)) {
        return links.refusal(at, place);
    }
    OK
}

/// Removes a place from the ring in which it is. O(1).
///
/// If the place is a head without members, the call unlinks it, and there is then no such ring.
#[inline]
pub fn remove<W: PrevPlace>(table: &mut [W], place: u32) -> u32
    ensures { RemoveCall W.PrevPlace table.old table.new result (place_of place) }
{
    let Some(member) = place_of(place) else {
        return NULL;
    };
    let mut links = RawTable::new(table);
    if !ring::remove(&mut links, member) {
        return links.refusal_at(place);
    }
    OK
}

/// Exchanges the next places of two places. If the two places are in two rings, the rings become one ring. If they are in one ring, the ring becomes
/// two rings. O(1).
///
/// If one argument is the last member of a ring and the second argument is the head of another ring, the call joins the rings. The members of the
/// second ring, and then its head, are at the back of the joined ring. A second call with the same arguments undoes the first call.
#[inline]
pub fn exchange<W: PrevPlace>(table: &mut [W], one: u32, other: u32) -> u32
    ensures { ExchangeCall W.PrevPlace table.old table.new result (place_of one) (place_of other) }
{
    let Some(first) = place_of(one) else {
        return NULL;
    };
    let Some(second) = place_of(other) else {
        return NULL;
    };
    let mut links = RawTable::new(table);
    if !ring::exchange(&mut links, first, second) {
        return links.refusal_at_both(one, other);
    }
    OK
}

// Returns the status of a refused pop: [`NULL`] if `head` has no members, or else the fault of `head`, or else [`BROKEN`](crate::BROKEN), because the
// links of the head and of its neighbor do not lead to each other.
#[cold]
fn refusal_to_pop<W: PrevPlace>(links: &RawTable<'_, W>, head: Place) -> u32
    ensures null { (result ≡ NULL) ↔ AreLinked W.PrevPlace (lent_table W.PrevPlace links.now) head head }
    ensures why { result ≢ NULL → result ≡ refusal (member_fault W.is_linked (lent_table W.PrevPlace links.now) (Some head) ∷ []) }
    ensures refused { result ≢ OK }
{
    if ring::is_alone(links, head) {
        return NULL;
    }
    links.refusal_of(head)
}

/// Removes the place on this side of a head, and stores the number of the removed place in `popped`. O(1).
///
/// The call returns [`NULL`] if `head` is [`NONE`](crate::NONE) or has no members. A refused call changes neither the words nor the number.
#[inline]
pub fn pop<W: PrevPlace>(table: &mut [W], side: GapSide, head: u32, popped: &mut u32) -> u32
    ensures { PopCall W.PrevPlace table.old table.new result popped.old popped.new side (place_of head) }
{
    let Some(place) = place_of(head) else {
        return NULL;
    };
    let mut links = RawTable::new(table);
    let Some(member) = ring_moves::pop(&mut links, side, place) else {
        return refusal_to_pop(&links, place);
    };
    *popped = number_of(member);
    OK
}

/// Inserts `place` into a ring at the position of `at`, and removes `at`. O(1).
///
/// `place` must belong to the table and must not be linked. The call returns [`NULL`] if `at` is [`NONE`](crate::NONE). A refused call changes no
/// word.
#[inline]
pub fn replace<W: PrevPlace>(table: &mut [W], at: u32, place: u32) -> u32
    ensures { ReplaceCall W.PrevPlace table.old table.new result (place_of at) (place_of place) }
{
    let Some(member) = place_of(at) else {
        return NULL;
    };
    let mut links = RawTable::new(table);
    if !ring_moves::replace(&mut links, member, place_of(place)) {
        return links.refusal(at, place);
    }
    OK
}

/// Moves `place` to this side of `at`, out of any ring of the table. O(1).
///
/// If both places are the same, nothing changes. The call returns [`NULL`] if one of the two places is [`NONE`](crate::NONE). A refused call changes
/// no word.
#[inline]
pub fn move_beside<W: PrevPlace>(table: &mut [W], side: GapSide, at: u32, place: u32) -> u32
    ensures { MoveCall W.PrevPlace table.old table.new result side (place_of at) (place_of place) }
{
    let Some(beside) = place_of(at) else {
        return NULL;
    };
    let Some(member) = place_of(place) else {
        return NULL;
    };
    let mut links = RawTable::new(table);
    if !ring_moves::move_beside(&mut links, side, beside, member) {
        return links.refusal_at_both(at, place);
    }
    OK
}

/// Moves all members of the ring with the head `head` to this side of the place `at` of another ring. O(1).
///
/// The head `head` is then without members. The call returns [`NULL`] if one of the two places is [`NONE`](crate::NONE). It returns
/// [`BROKEN`](crate::BROKEN) if `at` is `head`, and also if the gap on this side of `at` is beside `head`. A refused call changes no word.
#[inline]
pub fn splice<W: PrevPlace>(table: &mut [W], side: GapSide, at: u32, head: u32) -> u32
    ensures { SpliceCall W.PrevPlace table.old table.new result side (place_of at) (place_of head) }
{
    let Some(beside) = place_of(at) else {
        return NULL;
    };
    let Some(given) = place_of(head) else {
        return NULL;
    };
    let mut links = RawTable::new(table);
    if !ring_moves::splice(&mut links, side, beside, given) {
        return links.refusal_at_both(at, head);
    }
    OK
}
