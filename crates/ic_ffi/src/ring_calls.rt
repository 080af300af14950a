//! The calls of rings: doubly linked lists whose head is a place of the table. A call names a ring by places of the ring.
//!
//! ```text
//! struct ic_link2 links[65] = {0};         // 64 objects, and a head at 64
//! ic_ring_init(links, 65, 64);             // IC_OK: a ring with no members
//! ic_ring_insert_before(links, 65, 64, 7); // IC_OK: before the head is the back
//! ic_ring_remove(links, 65, 7);            // IC_OK, from whichever ring it is in
//! ```

ghost use Rattle.ic_raw.specs.declared.gap.GapSide.TheVariants.{After, Before};
ghost use Rattle.ic_raw.specs.Prelude.{wide_words, place_of};
ghost use Rattle.ic_raw.specs.RingCalls.{PopCall, ReplaceCall, MoveCall, SpliceCall};
ghost use Rattle.ic_raw.specs.RingCalls.{ExchangeCall, InitCall, InsertCall, RemoveCall};

use ic_raw::{GapSide, RawTwo, ring_calls};

/// Makes a place the head of a ring with no members. O(1).
///
/// The place must belong to the table and must not be linked. Linux: `INIT_LIST_HEAD`.
#[unsafe(no_mangle)]
pub extern "C" fn ic_ring_init(table: &mut [RawTwo], head: u32) -> u32
    ensures { InitCall wide_words table.old table.new result (place_of head) }
{
    ring_calls::init(table, head)
}

/// Inserts the place `place` after the place `at` of a ring. If `at` is the head, the inserted place becomes the first member. O(1).
///
/// The place must belong to the table and must not be linked. Linux: `list_add`.
#[unsafe(no_mangle)]
pub extern "C" fn ic_ring_insert_after(table: &mut [RawTwo], at: u32, place: u32) -> u32
    ensures { InsertCall wide_words table.old table.new result After (place_of at) (place_of place) }
{
    ring_calls::insert(table, GapSide::After, at, place)
}

/// Inserts the place `place` before the place `at` of a ring. If `at` is the head, the inserted place becomes the last member. O(1).
///
/// The place must belong to the table and must not be linked. Linux: `list_add_tail`.
#[unsafe(no_mangle)]
pub extern "C" fn ic_ring_insert_before(table: &mut [RawTwo], at: u32, place: u32) -> u32
    ensures { InsertCall wide_words table.old table.new result Before (place_of at) (place_of place) }
{
    ring_calls::insert(table, GapSide::Before, at, place)
}

/// Removes a place from the ring in which it is. O(1).
///
/// If the place is a head without members, the place is unlinked, and its ring no longer exists. Linux: `list_del`.
#[unsafe(no_mangle)]
pub extern "C" fn ic_ring_remove(table: &mut [RawTwo], place: u32) -> u32
    ensures { RemoveCall wide_words table.old table.new result (place_of place) }
{
    ring_calls::remove(table, place)
}

/// Exchanges the successors of the places `one` and `other`. If the two places are in two rings, the rings become one. If they are different places of one
/// ring, this ring becomes two. O(1).
///
/// Let `one` be the last member of a ring, and `other` the head of a second ring. After the call, the members of the second ring follow `one`, and `other`
/// follows these members. A second call with the same arguments undoes the first call.
#[unsafe(no_mangle)]
pub extern "C" fn ic_ring_exchange(table: &mut [RawTwo], one: u32, other: u32) -> u32
    ensures { ExchangeCall wide_words table.old table.new result (place_of one) (place_of other) }
{
    ring_calls::exchange(table, one, other)
}

/// Removes the first member of the ring with the head `head`, and stores its number in `popped`. O(1).
#[unsafe(no_mangle)]
pub extern "C" fn ic_ring_pop_front(table: &mut [RawTwo], head: u32, popped: &mut u32) -> u32
    ensures { PopCall wide_words table.old table.new result popped.old popped.new After (place_of head) }
{
    ring_calls::pop(table, GapSide::After, head, popped)
}

/// Removes the last member of the ring with the head `head`, and stores its number in `popped`. O(1).
#[unsafe(no_mangle)]
pub extern "C" fn ic_ring_pop_back(table: &mut [RawTwo], head: u32, popped: &mut u32) -> u32
    ensures { PopCall wide_words table.old table.new result popped.old popped.new Before (place_of head) }
{
    ring_calls::pop(table, GapSide::Before, head, popped)
}

/// Inserts the place `place` into a ring at the position of the place `at`, and removes `at`. O(1).
///
/// The place must belong to the table and must not be linked. Linux: `list_replace`.
#[unsafe(no_mangle)]
pub extern "C" fn ic_ring_replace(table: &mut [RawTwo], at: u32, place: u32) -> u32
    ensures { ReplaceCall wide_words table.old table.new result (place_of at) (place_of place) }
{
    ring_calls::replace(table, at, place)
}

/// Moves the place `place`, which may be in any ring of the table, after the place `at`. If `at` is a head, the moved place becomes the first member. O(1).
///
/// If both places are the same, nothing changes. Linux: `list_move`.
#[unsafe(no_mangle)]
pub extern "C" fn ic_ring_move_after(table: &mut [RawTwo], at: u32, place: u32) -> u32
    ensures { MoveCall wide_words table.old table.new result After (place_of at) (place_of place) }
{
    ring_calls::move_beside(table, GapSide::After, at, place)
}

/// Moves the place `place`, which may be in any ring of the table, before the place `at`. If `at` is a head, the moved place becomes the last member. O(1).
///
/// If both places are the same, nothing changes. Linux: `list_move_tail`.
#[unsafe(no_mangle)]
pub extern "C" fn ic_ring_move_before(table: &mut [RawTwo], at: u32, place: u32) -> u32
    ensures { MoveCall wide_words table.old table.new result Before (place_of at) (place_of place) }
{
    ring_calls::move_beside(table, GapSide::Before, at, place)
}

/// Moves all members of the ring with the head `head` after the place `at` of another ring. O(1).
///
/// The ring of `head` then has no members. Linux: `list_splice_init`.
#[unsafe(no_mangle)]
pub extern "C" fn ic_ring_splice_after(table: &mut [RawTwo], at: u32, head: u32) -> u32
    ensures { SpliceCall wide_words table.old table.new result After (place_of at) (place_of head) }
{
    ring_calls::splice(table, GapSide::After, at, head)
}

/// Moves all members of the ring with the head `head` before the place `at` of another ring. O(1).
///
/// The ring of `head` then has no members. Linux: `list_splice_tail_init`.
#[unsafe(no_mangle)]
pub extern "C" fn ic_ring_splice_before(table: &mut [RawTwo], at: u32, head: u32) -> u32
    ensures { SpliceCall wide_words table.old table.new result Before (place_of at) (place_of head) }
{
    ring_calls::splice(table, GapSide::Before, at, head)
}
