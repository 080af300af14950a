//! A test of workers who divide the first places among themselves, and wait for each other at a gate.

use ic_atomic::{ClaimsError, Gate};
use ic_unsafe_ref::Place;
use ic_workers::{doubles, fan_out};
use std::alloc::Global;
use std::sync::Wait;
use std::sync::atomic::{AtomicU64, Ordering};
use std::thread;
use std::thread::Threads;
use std::time::{Clock, Duration};

// The greatest number of turns that a worker waits for the other worker.
const TURNS: u64 = 10_000;

// A row has the number of workers, and the number of places that they divide among themselves. A session tests the result of a single worker.
const ROWS: &[(usize, usize)] = &[
    (2, 100),
    (4, 1000),
    (64, 100),
    (2, 0),
    (0, 0),
    (2, 4_294_967_297),
];

// The number of all places.
const MOST_PLACES: usize = 4_294_967_296;

// The notes about a worker: `CAME` means that it has begun, and `MET` that it met the other worker.
const CAME: u64 = 1;

const MET: u64 = 2;

// A gate that notes the first result of each of two workers. The gate then lets the worker wait until the first result of the other worker is noted,
// for a limited number of turns. The first worker also waits before its first claim, so that it does not get the first place.
#[derive(Drop)]
struct Meeting<'c, C> {
    clock: &'c C,
    turns: u64,
    first: AtomicU64,
    second: AtomicU64,
}

impl<C: Clock> Meeting<'_, C> {
    // Waits until the first result of the other worker is noted, and returns whether it is. In each turn the call reads the note of the other worker,
    // and then waits for a millisecond.
    fn waits_for(&self, other: &AtomicU64) -> bool {
        for _turn in 0..self.turns {
            if other.load(Ordering::SeqCst) != 0 {
                return true;
            }
            thread::sleep(self.clock, Duration::from_millis(1));
        }
        false
    }

    fn meet(&self, own: &AtomicU64, other: &AtomicU64) {
        own.store(CAME, Ordering::SeqCst);
        if self.waits_for(other) {
            own.store(MET, Ordering::SeqCst);
        }
    }

    // Returns whether each of the two workers met the other one.
    fn is_met(&self) -> bool {
        let (first, second) = (
            self.first.load(Ordering::SeqCst),
            self.second.load(Ordering::SeqCst),
        );
        (first == MET) & (second == MET)
    }
}

impl<C: Clock> Gate for Meeting<'_, C> {
    ghost Reported = { λ gate worker answered. Unit {0} };

    fn passed(&self, worker: usize, answered: usize) {
        match (worker, answered) {
            (1, 0) => {
                let _ = self.waits_for(&self.second);
            }
            (1, 1) => self.meet(&self.first, &self.second),
            (2, 1) => self.meet(&self.second, &self.first),
            _ => {}
        }
    }
}

// Returns whether the list of the first worker does not begin with the first place.
fn is_after(lists: &[Vec<Place>]) -> bool {
    let [list, ..] = lists else {
        return true;
    };
    match list.first() {
        Some(place) => place.index() > 0,
        None => true,
    }
}

// Returns whether each place is in exactly one list of a worker, and two workers meet if there are at least two workers and a place to claim. If there
// are more places than can exist, the call returns whether the workers are refused with the error `TooManyPlaces`. If workers ran one after the other,
// or did not report to the gate, they would not meet. The first list is the list of the worker that the gate treats as the first.
fn is_shared<R: Threads + Wait + Clock + Sync>(
    rt: &R,
    alloc: Global,
    workers: usize,
    places: usize,
) -> bool {
    let is_meeting = (workers > 1) & (places > 0);
    let gate = Meeting {
        clock: rt,
        turns: if is_meeting { TURNS } else { 0 },
        first: AtomicU64::new(0),
        second: AtomicU64::new(0),
    };
    let lists = match fan_out(rt, alloc, workers, places, &gate) {
        Ok(lists) => lists,
        Err(error) => return places > MOST_PLACES && error == ClaimsError::TooManyPlaces,
    };
    let mut listed: usize = 0;
    for list in &lists {
        listed = listed.saturating_add(list.len());
    }
    let is_each_once = (listed == places) & (doubles(places, &lists) == 0);
    let is_met = !is_meeting | (gate.is_met() & is_after(&lists));
    is_each_once & (lists.len() == workers) & is_met
}

// Returns whether the workers of each row have the right result.
fn are_shared<R: Threads + Wait + Clock + Sync>(
    rt: &R,
    alloc: Global,
    rows: &[(usize, usize)],
) -> bool {
    let mut as_wanted = true;
    for (workers, places) in rows {
        as_wanted &= is_shared(rt, alloc, *workers, *places);
    }
    as_wanted
}

// The workers of each row divide the places among themselves. Each place must be in exactly one list, and two workers must meet while they work.
// Promise: workers overlap, workers-in-turn.
#[test]
fn workers_meet_and_share_places_out(rt: HostRuntime) {
    assert!(rt; are_shared(&rt, rt.alloc(), ROWS));
}
