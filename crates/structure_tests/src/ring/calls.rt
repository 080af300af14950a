//! The calls that the rows of the tests make, on a first and a second ring.

ghost use Rattle.std.specs.Prelude.{◌≡◌, ◌<◌};
ghost use Rattle.ic_link_ops.specs.Prelude.{Place, index_of};
ghost use Rattle.ic_ring.specs.Rings.{InRing};
ghost use Rattle.structure_tests.specs.TwoRings.{TwoRings};

use ic_link_ops::linked_list::LinkedListOps;
use ic_link_ops::{AlreadyLinked, LinkOps, ReplaceError};
use ic_ring::{
    Ring, exchange, insert_after, insert_before, move_after, move_before, remove, replace,
};
use ic_test_support::objects::place_at;
use ic_unsafe_ref::{Place, UnsafeRef};

/// A call of the first ring, of its first member or of its last member. The comment of a call names the call of Linux's lists that does the same, if
/// there is one.
#[derive(Clone, Copy)]
pub(crate) enum Call {
    /// Linux has this call as `list_add`.
    PushFront,
    /// Linux has this call as `list_add_tail`.
    PushBack,
    PopFront,
    PopBack,
    Clear,
    InsertBeforeFirst,
    InsertAfterFirst,
    /// Linux has this call as `list_replace`.
    ReplaceFirst,
    /// Linux has this call as `list_del`.
    RemoveFirst,
    /// Linux has this call as `list_rotate_left`.
    MoveFirstToBack,
    MoveLastToFront,
}

/// A call by a cursor on the first or on the last member of the first ring. The last three calls also have the second ring as an argument.
#[derive(Clone, Copy)]
pub(crate) enum At {
    FirstInsertAfter,
    LastInsertBefore,
    FirstRemove,
    LastReplaceWith,
    FirstSpliceAfter,
    LastSpliceBefore,
    FirstSplitAfter,
}

/// A call that edits both rings, or the second ring.
#[derive(Clone, Copy)]
pub(crate) enum Pair {
    /// Inserts the object at the back of the second ring.
    PushBack,
    /// Moves the first member of the second ring to the back of the first ring. Linux has this call as `list_move_tail`.
    MoveFirstToBack,
    /// Moves the first member of the second ring to the front of the first ring. Linux has this call as `list_move`.
    MoveFirstToFront,
    /// Moves all members of the first ring except its first one to the second ring. Linux's `list_cut_position` moves the members before a cut instead.
    SplitAfterFirst,
    /// Moves all members of the second ring to the back of the first ring. Linux has this call as `list_splice_tail_init`.
    SpliceBack,
}

// Returns the object that the insert refused, if the insert refused one.
fn refused(put: Result<(), AlreadyLinked<u64>>) -> Option<UnsafeRef<u64>> {
    match put {
        Ok(()) => None,
        Err(refused) => Some(refused.into_object()),
    }
}

// Returns the object that a replacement gives back: the object that was replaced, or the object that was refused.
fn given_back(put: Result<UnsafeRef<u64>, ReplaceError<u64>>) -> Option<UnsafeRef<u64>> {
    match put {
        Ok(out) => Some(out),
        Err(refused) => Some(refused.into_object()),
    }
}

// The place of a cursor is `at`, and the place of a reading cursor that is made from it is `read`. Returns the object at this place if both are equal and
// the cursor is not at null.
fn object_on(is_null: bool, at: Option<Place>, read: Option<Place>) -> Option<UnsafeRef<u64>> {
    match at {
        Some(place) if !is_null && read == at => Some(UnsafeRef::new(place)),
        _ => None,
    }
}

// Returns the place of the object that is the argument of a call. It is one of the first six places.
fn argument(index: usize) -> Place
    ensures few { index_of result < 8 }
{
    place_at(index % 6)
}

/// Makes a call of the first ring, and returns the object that the call gives back, if there is one.
pub(crate) fn call_ring<L: LinkedListOps>(
    links: &mut L,
    ring: &Ring<u64>,
    call: Call,
    index: usize,
) -> Option<UnsafeRef<u64>>
    requires two { (other : Place) × TwoRings L.neighbors (L.table links.old) ring.now other }
    ensures two { (other : Place) → TwoRings L.neighbors (L.table links.old) ring.now other → TwoRings L.neighbors (L.table links.new) ring.now other }
{
    let place = argument(index);
    match call {
        Call::PushFront => return refused(ring.push_front(links, UnsafeRef::new(place))),
        Call::PushBack => return refused(ring.push_back(links, UnsafeRef::new(place))),
        Call::PopFront => return ring.pop_front(links),
        Call::PopBack => return ring.pop_back(links),
        Call::Clear => ring.clear(links),
        other => return call_member(links, ring, other, place),
    }
    None
}

// Makes a call of the first or the last member of the ring, if the ring has members, and returns the object that the call refuses, if there is one.
fn call_member<L: LinkedListOps>(
    links: &mut L,
    ring: &Ring<u64>,
    call: Call,
    place: Place,
) -> Option<UnsafeRef<u64>>
    requires few { index_of place < 8 }
    requires two { (other : Place) × TwoRings L.neighbors (L.table links.old) ring.now other }
    ensures two { (other : Place) → TwoRings L.neighbors (L.table links.old) ring.now other → TwoRings L.neighbors (L.table links.new) ring.now other }
{
    let first = ring.first(&*links)?;
    let last = ring.last(&*links)?;
    match call {
        Call::InsertBeforeFirst => {
            return refused(insert_before(links, first, UnsafeRef::new(place)));
        }
        Call::InsertAfterFirst => {
            return refused(insert_after(links, first, UnsafeRef::new(place)));
        }
        Call::ReplaceFirst => {
            return refused(replace(links, &UnsafeRef::new(first), UnsafeRef::new(place)));
        }
        Call::RemoveFirst => remove(links, &UnsafeRef::<u64>::new(first)),
        Call::MoveFirstToBack => ring.move_to_back(links, &UnsafeRef::new(first)),
        Call::MoveLastToFront => ring.move_to_front(links, &UnsafeRef::new(last)),
        _ => {}
    }
    None
}

/// Makes a call by a cursor, and returns the object that the call gives back. If a call gives no object back, the result is the object on which the
/// cursor then is.
pub(crate) fn call_by_cursor<L: LinkedListOps>(
    links: &mut L,
    ring: &Ring<u64>,
    other: &Ring<u64>,
    call: At,
    index: usize,
) -> Option<UnsafeRef<u64>>
    requires two { TwoRings L.neighbors (L.table links.old) ring.now other.now }
    ensures two { TwoRings L.neighbors (L.table links.new) ring.now other.now }
{
    let place = argument(index);
    let mut cursor = ring.cursor_mut_at(links, ring.head());
    match call {
        At::FirstInsertAfter => {
            cursor.move_next();
            return refused(cursor.insert_after(UnsafeRef::new(place)));
        }
        At::LastInsertBefore => {
            cursor.move_prev();
            return refused(cursor.insert_before(UnsafeRef::new(place)));
        }
        At::FirstRemove => {
            cursor.move_next();
            return cursor.remove();
        }
        At::LastReplaceWith => {
            cursor.move_prev();
            return given_back(cursor.replace_with(UnsafeRef::new(place)));
        }
        At::FirstSpliceAfter => {
            cursor.move_next();
            cursor.splice_after(other);
        }
        At::LastSpliceBefore => {
            cursor.move_prev();
            cursor.splice_before(other);
        }
        At::FirstSplitAfter => {
            cursor.move_next();
            cursor.split_after(other);
        }
    }
    object_on(
        cursor.is_null(),
        cursor.get_ptr(),
        cursor.as_cursor().get_ptr(),
    )
}

/// Makes a call of both rings, and returns the object that the call gives back, if there is one.
pub(crate) fn call_both<L: LinkedListOps>(
    links: &mut L,
    ring: &Ring<u64>,
    other: &Ring<u64>,
    call: Pair,
    index: usize,
) -> Option<UnsafeRef<u64>>
    requires two { TwoRings L.neighbors (L.table links.old) ring.now other.now }
    ensures two { TwoRings L.neighbors (L.table links.new) ring.now other.now }
{
    match call {
        Pair::PushBack => return refused(other.push_back(links, UnsafeRef::new(argument(index)))),
        Pair::MoveFirstToBack => {
            let back = other.first(&*links)?;
            move_before(links, ring.head(), &UnsafeRef::<u64>::new(back));
        }
        Pair::MoveFirstToFront => {
            let front = other.first(&*links)?;
            move_after(links, ring.head(), &UnsafeRef::<u64>::new(front));
        }
        Pair::SplitAfterFirst => {
            let first = ring.first(&*links)?;
            ring.split_after(links, first, other);
        }
        Pair::SpliceBack => ring.splice_back(links, other),
    }
    None
}

/// Exchanges the successors of the two heads, which joins the two rings. The head of the second ring is then a member of the first ring.
pub(crate) fn exchange_heads<L: LinkedListOps>(links: &mut L, ring: &Ring<u64>, other: &Ring<u64>)
    requires two { TwoRings L.neighbors (L.table links.old) ring.now other.now }
    ensures covers { (L.table links.new).extent.places ≡ 8 }
    ensures shown { InRing L.neighbors (L.table links.new) ring.now }
{
    exchange(links, ring.head(), other.head());
}
