//! The rows of the tests of rings. Each row has a call on two rings of one table, and the members of both rings after the call. The heads are at the
//! places 6 and 7, and the objects 10 to 60 at the places 0 to 5.
//!
//! The rows make each call at least once. The text of a row has the object that the call returns. Then the text has, for each ring, its members from
//! the front on, and the member that a walk from the back meets first. The notes of `Ends` and `Second` come before these words.

use crate::ring::calls::{At, Call, Pair};
use Row::{Both, Cursor, Ends, Ring, Second};

/// A call of the test. Its number is the index of the place of the object that is the call's argument, if the call has one.
#[derive(Clone, Copy)]
pub(crate) enum Row {
    /// A call of the first ring.
    Ring(Call, usize),
    /// A call by a cursor in the first ring.
    Cursor(At, usize),
    /// A call of both rings, or of the second ring.
    Both(Pair, usize),
    /// The test notes whether the first ring is empty, its first and its last member, and the places before and after its head.
    Ends,
    /// The test notes whether a cursor at the head is on no member. Then it notes the second and the last member of the first ring, and the object of the
    /// second member.
    Second,
}

/// The rows make calls of the first ring. Both rings are new before the first row.
pub(crate) const ONE_RING: &[(Row, &str)] = &[
    (Ends, "yes none none 6 6 none none, none,"),
    (Ring(Call::PushFront, 0), "none 10 10, none,"),
    (Ring(Call::PushFront, 1), "none 20 10 10, none,"),
    (Ring(Call::PushBack, 2), "none 20 10 30 30, none,"),
    (Ring(Call::PushFront, 2), "2 20 10 30 30, none,"),
    (Ring(Call::PushBack, 2), "2 20 10 30 30, none,"),
    (Ring(Call::MoveFirstToBack, 0), "none 10 30 20 20, none,"),
    (Ring(Call::RemoveFirst, 0), "none 30 20 20, none,"),
    (Ring(Call::ReplaceFirst, 3), "none 40 20 20, none,"),
    (Ring(Call::InsertBeforeFirst, 4), "none 50 40 20 20, none,"),
    (
        Ring(Call::InsertAfterFirst, 5),
        "none 50 60 40 20 20, none,",
    ),
    (Ring(Call::MoveLastToFront, 0), "none 20 50 60 40 40, none,"),
    (Ends, "no 1 3 3 1 none 20 50 60 40 40, none,"),
    (Ring(Call::PopFront, 0), "1 50 60 40 40, none,"),
    (Ring(Call::PopBack, 0), "3 50 60 60, none,"),
    (Ring(Call::Clear, 0), "none none, none,"),
    (Ends, "yes none none 6 6 none none, none,"),
    (Ring(Call::PopFront, 0), "none none, none,"),
    (Ring(Call::PopBack, 0), "none none, none,"),
];

/// The rows make calls by a cursor in the first ring, which has no members before the first row.
pub(crate) const BY_CURSOR: &[(Row, &str)] = &[
    (Cursor(At::FirstInsertAfter, 0), "none 10 10, none,"),
    (Cursor(At::FirstInsertAfter, 1), "none 10 20 20, none,"),
    (Cursor(At::FirstInsertAfter, 2), "none 10 30 20 20, none,"),
    (
        Cursor(At::LastInsertBefore, 3),
        "none 10 30 40 20 20, none,",
    ),
    (Cursor(At::LastReplaceWith, 4), "1 10 30 40 50 50, none,"),
    (Cursor(At::FirstRemove, 0), "0 30 40 50 50, none,"),
    (Second, "yes 3 4 40 none 30 40 50 50, none,"),
];

/// The rows clear the first ring, and insert two objects into each ring.
pub(crate) const TWO_IN_EACH: &[(Row, &str)] = &[
    (Ring(Call::Clear, 0), "none none, none,"),
    (Ring(Call::PushBack, 0), "none 10 10, none,"),
    (Ring(Call::PushBack, 1), "none 10 20 20, none,"),
    (Both(Pair::PushBack, 2), "none 10 20 20, 30 30,"),
    (Both(Pair::PushBack, 3), "none 10 20 20, 30 40 40,"),
];

/// The rows make calls by a cursor that move members between the two rings. Each ring has two members before the first row.
pub(crate) const MOVED_BY_CURSOR: &[(Row, &str)] = &[
    (Cursor(At::FirstSplitAfter, 0), "0 10 10, 20 30 40 40,"),
    (Both(Pair::MoveFirstToBack, 0), "none 10 20 20, 30 40 40,"),
    (Cursor(At::FirstSpliceAfter, 0), "0 10 30 40 20 20, none,"),
    (Ring(Call::MoveLastToFront, 0), "none 20 10 30 40 40, none,"),
    (Both(Pair::SplitAfterFirst, 0), "none 20 20, 10 30 40 40,"),
    (Both(Pair::MoveFirstToFront, 0), "none 10 20 20, 30 40 40,"),
    (Cursor(At::LastSpliceBefore, 0), "1 10 30 40 20 20, none,"),
];

/// The rows make calls of both rings. Each ring has two members before the first row.
pub(crate) const BOTH_RINGS: &[(Row, &str)] = &[
    (Both(Pair::MoveFirstToBack, 0), "none 10 20 30 30, 40 40,"),
    (
        Both(Pair::MoveFirstToFront, 0),
        "none 40 10 20 30 30, none,",
    ),
    (Both(Pair::SplitAfterFirst, 0), "none 40 40, 10 20 30 30,"),
    (Both(Pair::SpliceBack, 0), "none 40 10 20 30 30, none,"),
    // The last rows make the ring with which the calls after the rows begin.
    (Ring(Call::MoveLastToFront, 0), "none 30 40 10 20 20, none,"),
    (Ring(Call::PushFront, 4), "none 50 30 40 10 20 20, none,"),
];

/// The notes that the test makes after the rows. The second ring is empty when the successors of the two heads are exchanged, and the notes begin with the
/// members of the first ring. Then come the notes of [`write_served`], and the text that the ring prints. At last the first member is bypassed and linked
/// again, and the first member is noted each time.
///
/// [`write_served`]: crate::ring::connections::write_served
pub(crate) const LAST: &str =
    "80 50 30 40 10 20 20,  30 40 10 20 80 80,  2 3 40  3  yes none yes  [10, 20]  1 0";
