//! The rows of the tests of the allocator of addresses. Each row has a call and its expected result.

use crate::regions::calls::{Answer, Call, make};
use ic_test_support::rationed::Rationed;
use region_allocator::{FreeError, RegionAllocator};
use std::alloc::{Allocator, Global};

type Row = (Call, Answer);

// Addresses that are freed in pieces must become one region. For example, the piece from 0 on joins the region after it, and the last piece joins the
// regions on both sides.
const JOINED: &[Row] = &[
    (Call::IsEmpty, Answer::Truth(true)),
    (Call::Allocate(1), Answer::Nothing),
    (Call::Free(0, 100), Answer::Done),
    (Call::Allocate(30), Answer::At(0)),
    (Call::Allocate(70), Answer::At(30)),
    (Call::IsEmpty, Answer::Truth(true)),
    (Call::Free(40, 10), Answer::Done),
    (Call::Free(50, 10), Answer::Done),
    (Call::Free(0, 40), Answer::Done),
    (Call::Free(80, 20), Answer::Done),
    (Call::Allocate(61), Answer::Nothing),
    (Call::Free(60, 20), Answer::Done),
    (Call::Allocate(100), Answer::At(0)),
    (Call::IsEmpty, Answer::Truth(true)),
];

// The allocator must take the start of the first region that is long enough, even if a later region fits better.
const FIRST_FIT: &[Row] = &[
    (Call::Allocate(0), Answer::Nothing),
    (Call::Free(300, 20), Answer::Done),
    (Call::Free(100, 50), Answer::Done),
    (Call::Free(200, 10), Answer::Done),
    (Call::Allocate(10), Answer::At(100)),
    (Call::Allocate(30), Answer::At(110)),
    (Call::Allocate(15), Answer::At(300)),
    (Call::Allocate(0), Answer::At(140)),
    (Call::Allocate(10), Answer::At(140)),
    (Call::IsFree(140), Answer::Truth(false)),
    (Call::IsFree(315), Answer::Truth(true)),
    (Call::Allocate(6), Answer::At(200)),
    (Call::Allocate(5), Answer::At(315)),
    (Call::Allocate(5), Answer::Nothing),
    (Call::IsFree(205), Answer::Truth(false)),
    (Call::IsFree(206), Answer::Truth(true)),
    (Call::Allocate(4), Answer::At(206)),
    (Call::IsEmpty, Answer::Truth(true)),
];

// The allocator must refuse to free addresses that are free already. The addresses 100 to 143 are freed first.
const REFUSED: &[Row] = &[
    (Call::Free(100, 44), Answer::Done),
    (Call::Free(143, 10), Answer::Refused(FreeError::Overlaps)),
    (Call::Free(90, 11), Answer::Refused(FreeError::Overlaps)),
    (Call::Free(110, 10), Answer::Refused(FreeError::Overlaps)),
    (Call::Free(90, 90), Answer::Refused(FreeError::Overlaps)),
    (Call::Free(50, 0), Answer::Refused(FreeError::Empty)),
    (
        Call::Free(18446744073709551615, 1),
        Answer::Refused(FreeError::TooLong),
    ),
    (Call::Free(18446744073709551614, 1), Answer::Done),
    (Call::IsFree(18446744073709551614), Answer::Truth(true)),
    (Call::Allocate(44), Answer::At(100)),
];

// A freed region that touches no other region needs memory. A freed region that joins another region needs no memory.
const FIRST: Row = (Call::Free(0, 100), Answer::Done);

const REFUSAL: Row = (Call::Free(0, 100), Answer::Refused(FreeError::OutOfMemory));

const JOINING: Row = (Call::Free(100, 1), Answer::Done);

// Makes the call of the row, and returns whether it has the result of the row.
fn answers<A: Allocator>(space: &mut RegionAllocator<A>, row: Row) -> bool {
    make(space, row.0) == row.1
}

// Makes the calls of the rows, and returns whether each call has the result of its row.
fn plays(space: &mut RegionAllocator, rows: &[Row]) -> bool {
    let mut as_wanted = true;
    for row in rows {
        as_wanted &= answers(space, *row);
    }
    as_wanted
}

// Refuses the request for memory with this number. Returns whether the refused call changes nothing and succeeds when it is made again, and whether a freed
// region that joins another one then requests no memory.
fn is_refused_once(memory: &Rationed, number: u64) -> bool {
    let mut space = RegionAllocator::new(memory);
    memory.refuse(number);
    let refused = answers(&mut space, REFUSAL) && space.is_empty();
    let freed = answers(&mut space, FIRST);
    memory.refuse(0);
    refused && freed && answers(&mut space, JOINING)
}

// Returns whether the refusal of each of the three requests for the first region changes nothing.
fn is_refused_in_turn(alloc: Global) -> bool {
    let memory = Rationed::new(alloc, u64::MAX);
    let mut as_wanted = true;
    for number in 0..3 {
        as_wanted &= is_refused_once(&memory, number);
    }
    as_wanted
}

#[test]
fn rows_answer_as_worked_out(rt: HostRuntime) {
    let mut space = RegionAllocator::new(rt.alloc());
    assert!(rt; plays(&mut space, JOINED));
    assert!(rt; plays(&mut space, FIRST_FIT));
    assert!(rt; plays(&mut space, REFUSED));
}

#[test]
fn a_refused_request_changes_nothing(rt: HostRuntime) {
    assert!(rt; is_refused_in_turn(rt.alloc()));
}
