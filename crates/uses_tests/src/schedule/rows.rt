//! The rows of the tests of the scheduler. Each row has a call and its expected result.

use crate::schedule::calls::{Answer, Call, make};
use ic_test_support::rationed::Rationed;
use scheduler::Scheduler;
use std::alloc::{Allocator, Global};

type Row = (Call, Answer);

// The greatest number of bytes that the calls of the rows may request: 256 for each of the nine tasks that they add.
const BYTES: u64 = 2304;

// A tick must move the due tasks in the order of their deadlines, and tasks with the same deadline in the order in which they were added. There must be
// eight queues.
// Promise: ticks by deadline, a second tick, a deadline that has passed, the last deadline, eight queues, add-always-refused.
const TICKS: &[Row] = &[
    (Call::Add(5, 0, 10), Answer::Done),
    (Call::Add(3, 1, 11), Answer::Done),
    (Call::Add(5, 0, 12), Answer::Done),
    (Call::Add(9, 0, 13), Answer::Done),
    (Call::Tick(4), Answer::Moved(1)),
    (Call::Next(1), Answer::Task(3, 11)),
    (Call::Next(0), Answer::Nothing),
    (Call::Tick(5), Answer::Moved(2)),
    (Call::Next(0), Answer::Task(5, 10)),
    (Call::Next(0), Answer::Task(5, 12)),
    (Call::Next(0), Answer::Nothing),
    (Call::Add(2, 0, 14), Answer::Done),
    (Call::Add(1, 0, 15), Answer::Done),
    (Call::Next(0), Answer::Nothing),
    (Call::Tick(2), Answer::Moved(2)),
    (Call::Next(0), Answer::Task(1, 15)),
    (Call::Next(0), Answer::Task(2, 14)),
    (Call::Tick(18446744073709551615), Answer::Moved(1)),
    (Call::Next(0), Answer::Task(9, 13)),
    (Call::Next(0), Answer::Nothing),
    (Call::Tick(0), Answer::Moved(0)),
    (Call::Next(7), Answer::Nothing),
    (Call::Next(8), Answer::NoQueue),
];

// Tasks that a later tick moves must come after the tasks that an earlier tick moved, whatever their deadlines are.
// Promise: ticks after one another.
const TWO_TICKS: &[Row] = &[
    (Call::Add(7, 2, 16), Answer::Done),
    (Call::Tick(7), Answer::Moved(1)),
    (Call::Add(7, 2, 17), Answer::Done),
    (Call::Add(6, 2, 18), Answer::Done),
    (Call::Tick(7), Answer::Moved(2)),
    (Call::Next(2), Answer::Task(7, 16)),
    (Call::Next(2), Answer::Task(6, 18)),
    (Call::Next(2), Answer::Task(7, 17)),
    (Call::Next(2), Answer::Nothing),
];

// Makes the call of each row, and compares its result with the row. A refused call gives its value back and changes nothing, so the call is made once
// more. Returns how many calls were refused, or `None` if a call has another result than its row.
fn play<A: Allocator>(tasks: &mut Scheduler<u64, A>, rows: &[Row]) -> Option<usize> {
    let mut refused: usize = 0;
    for (call, wanted) in rows {
        let mut found = make(tasks, *call);
        if let (Call::Add(_, _, value), Answer::Refused(22, back)) = (*call, found) {
            if back != value {
                return None;
            }
            refused = refused.saturating_add(1);
            found = make(tasks, *call);
        }
        if found != *wanted {
            return None;
        }
    }
    Some(refused)
}

// Makes the calls of the first rows and then the calls of the second rows on one scheduler that takes its memory from `memory`. Returns how many calls
// of the first rows were refused, or `None` if a call has a wrong result or a call of the second rows is refused.
fn play_both(memory: &Rationed, rows: &[Row], others: &[Row]) -> Option<usize> {
    let mut tasks = Scheduler::new(memory);
    let refused = play(&mut tasks, rows);
    match play(&mut tasks, others) {
        Some(0) => refused,
        _ => None,
    }
}

// Makes the calls of the rows once for each request for memory, and refuses this request. Returns whether exactly one call of `rows` is refused each time.
// There must be at least three requests, because each table and the objects grow. All requests together must be for at most `BYTES` bytes.
fn is_refused_in_turn(alloc: Global, rows: &[Row], others: &[Row]) -> bool {
    let memory = Rationed::new(alloc, u64::MAX);
    let mut as_wanted = play_both(&memory, rows, others) == Some(0);
    let requests = memory.requests();
    as_wanted &= requests >= 3 && memory.bytes() <= BYTES;
    for number in 0..requests {
        memory.refuse(number);
        as_wanted &= play_both(&memory, rows, others) == Some(1);
    }
    as_wanted
}

// The test makes the calls of the rows, with each request for memory refused in turn. Each refusal must refuse exactly one call, and all other calls
// must have the results of their rows.
// Promise: a scheduler without memory.
#[test]
fn rows_with_each_growth_refused_in_turn(rt: HostRuntime) {
    assert!(rt; is_refused_in_turn(rt.alloc(), TICKS, TWO_TICKS));
}
