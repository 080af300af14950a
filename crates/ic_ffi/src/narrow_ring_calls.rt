//! The calls of rings whose links are words of 4 bytes, so that the table has 8 bytes for each place. Each call `ic_ring32_NAME` does the same as the call
//! `ic_ring_NAME` of `ring_calls`. Places from 536,870,911 on are out of range, because no word of 4 bytes can name them.
//!
//! ```text
//! struct ic_link2_32 links[65] = {0};         // 64 objects, and a head at 64
//! ic_ring32_init(links, 65, 64);             // IC_OK: a ring with no members
//! ic_ring32_insert_before(links, 65, 64, 7); // IC_OK: before the head is the back
//! ic_ring32_remove(links, 65, 7);            // IC_OK, from whichever ring it is in
//! ```

ghost use Rattle.ic_raw.specs.declared.gap.GapSide.TheVariants.{After, Before};
ghost use Rattle.ic_raw.specs.Prelude.{narrow_words, place_of};
ghost use Rattle.ic_raw.specs.RingCalls.{PopCall, ReplaceCall, MoveCall, SpliceCall};
ghost use Rattle.ic_raw.specs.RingCalls.{ExchangeCall, InitCall, InsertCall, RemoveCall};

use ic_raw::{GapSide, RawNarrowTwo, ring_calls};

/// Makes a place the head of a ring with no members. O(1).
///
/// The call requires and returns what `ic_ring_init` does.
#[unsafe(no_mangle)]
pub extern "C" fn ic_ring32_init(table: &mut [RawNarrowTwo], head: u32) -> u32
    ensures { InitCall narrow_words table.old table.new result (place_of head) }
{
    ring_calls::init(table, head)
}

/// Inserts the place `place` after the place `at` of a ring. If `at` is the head, the inserted place becomes the first member. O(1).
///
/// The call requires and returns what `ic_ring_insert_after` does.
#[unsafe(no_mangle)]
pub extern "C" fn ic_ring32_insert_after(table: &mut [RawNarrowTwo], at: u32, place: u32) -> u32
    ensures { InsertCall narrow_words table.old table.new result After (place_of at) (place_of place) }
{
    ring_calls::insert(table, GapSide::After, at, place)
}

/// Inserts the place `place` before the place `at` of a ring. If `at` is the head, the inserted place becomes the last member. O(1).
///
/// The call requires and returns what `ic_ring_insert_before` does.
#[unsafe(no_mangle)]
pub extern "C" fn ic_ring32_insert_before(table: &mut [RawNarrowTwo], at: u32, place: u32) -> u32
    ensures { InsertCall narrow_words table.old table.new result Before (place_of at) (place_of place) }
{
    ring_calls::insert(table, GapSide::Before, at, place)
}

/// Removes a place from the ring in which it is. O(1).
///
/// The call requires and returns what `ic_ring_remove` does.
#[unsafe(no_mangle)]
pub extern "C" fn ic_ring32_remove(table: &mut [RawNarrowTwo], place: u32) -> u32
    ensures { RemoveCall narrow_words table.old table.new result (place_of place) }
{
    ring_calls::remove(table, place)
}

/// Exchanges the successors of the places `one` and `other`. If the two places are in two rings, the rings become one. If they are different places of one
/// ring, this ring becomes two. O(1).
///
/// The call requires and returns what `ic_ring_exchange` does.
#[unsafe(no_mangle)]
pub extern "C" fn ic_ring32_exchange(table: &mut [RawNarrowTwo], one: u32, other: u32) -> u32
    ensures { ExchangeCall narrow_words table.old table.new result (place_of one) (place_of other) }
{
    ring_calls::exchange(table, one, other)
}

/// Removes the first member of the ring with the head `head`, and stores its number in `popped`. O(1).
#[unsafe(no_mangle)]
pub extern "C" fn ic_ring32_pop_front(
    table: &mut [RawNarrowTwo],
    head: u32,
    popped: &mut u32,
) -> u32
    ensures { PopCall narrow_words table.old table.new result popped.old popped.new After (place_of head) }
{
    ring_calls::pop(table, GapSide::After, head, popped)
}

/// Removes the last member of the ring with the head `head`, and stores its number in `popped`. O(1).
#[unsafe(no_mangle)]
pub extern "C" fn ic_ring32_pop_back(table: &mut [RawNarrowTwo], head: u32, popped: &mut u32) -> u32
    ensures { PopCall narrow_words table.old table.new result popped.old popped.new Before (place_of head) }
{
    ring_calls::pop(table, GapSide::Before, head, popped)
}

/// Inserts the place `place` into a ring at the position of the place `at`, and removes `at`. O(1).
///
/// The call requires and returns what `ic_ring_replace` does.
#[unsafe(no_mangle)]
pub extern "C" fn ic_ring32_replace(table: &mut [RawNarrowTwo], at: u32, place: u32) -> u32
    ensures { ReplaceCall narrow_words table.old table.new result (place_of at) (place_of place) }
{
    ring_calls::replace(table, at, place)
}

/// Moves the place `place`, which may be in any ring of the table, after the place `at`. If `at` is a head, the moved place becomes the first member. O(1).
///
/// The call requires and returns what `ic_ring_move_after` does.
#[unsafe(no_mangle)]
pub extern "C" fn ic_ring32_move_after(table: &mut [RawNarrowTwo], at: u32, place: u32) -> u32
    ensures { MoveCall narrow_words table.old table.new result After (place_of at) (place_of place) }
{
    ring_calls::move_beside(table, GapSide::After, at, place)
}

/// Moves the place `place`, which may be in any ring of the table, before the place `at`. If `at` is a head, the moved place becomes the last member. O(1).
///
/// The call requires and returns what `ic_ring_move_before` does.
#[unsafe(no_mangle)]
pub extern "C" fn ic_ring32_move_before(table: &mut [RawNarrowTwo], at: u32, place: u32) -> u32
    ensures { MoveCall narrow_words table.old table.new result Before (place_of at) (place_of place) }
{
    ring_calls::move_beside(table, GapSide::Before, at, place)
}

/// Moves all members of the ring with the head `head` after the place `at` of another ring. O(1).
///
/// The call requires and returns what `ic_ring_splice_after` does.
#[unsafe(no_mangle)]
pub extern "C" fn ic_ring32_splice_after(table: &mut [RawNarrowTwo], at: u32, head: u32) -> u32
    ensures { SpliceCall narrow_words table.old table.new result After (place_of at) (place_of head) }
{
    ring_calls::splice(table, GapSide::After, at, head)
}

/// Moves all members of the ring with the head `head` before the place `at` of another ring. O(1).
///
/// The call requires and returns what `ic_ring_splice_before` does.
#[unsafe(no_mangle)]
pub extern "C" fn ic_ring32_splice_before(table: &mut [RawNarrowTwo], at: u32, head: u32) -> u32
    ensures { SpliceCall narrow_words table.old table.new result Before (place_of at) (place_of head) }
{
    ring_calls::splice(table, GapSide::Before, at, head)
}
