//! A test of claims by several threads.

use crate::equipped::{Act, HolderWithClaims, equipped};
use ic_atomic::Claims;
use std::alloc::Global;
use std::process::Abort;
use std::thread;
use std::thread::Threads;

// The number of turns in which a thread tries four places a thousand times each.
const TURNS: usize = 4_000;

// Claims place 0 and keeps it, and claims four other places in turn. The holder checks and releases each of these four places that it gets. The call
// returns whether the holder got place 0, and whether all checks and releases returned true.
fn take_turns(mut hand: HolderWithClaims) -> (bool, bool) {
    let is_had = hand.make(Act::Claim, 0);
    let mut all_true = true;
    for turn in 0..TURNS {
        let index = 1 + turn % 4;
        if hand.make(Act::Claim, index) {
            all_true &= hand.make(Act::Look, index);
            all_true &= hand.make(Act::Release, index);
        }
    }
    (is_had, all_true)
}

// Lets all holders except one run in threads of their own. The call returns whether exactly one holder got place 0, and whether the remaining holder
// can claim each of the four other places at the end, if these places exist.
fn share<R: Abort + Threads + Sync>(rt: &R, alloc: Global, places: usize, holders: usize) -> bool {
    let (claims, holders) = Claims::new(alloc, places, holders).expect(rt, "claims");
    let mut equipped = equipped(alloc, &claims, holders);
    let mut last = equipped.pop().expect(rt, "a hand");
    let done = thread::map_vec(rt, equipped, &take_turns).expect(rt, "room");
    let mut one_had = false;
    let mut as_wanted = true;
    for (is_had, all_true) in &done {
        as_wanted &= *all_true & !(*is_had & one_had);
        one_had |= *is_had;
    }
    for index in 0..places {
        as_wanted &= last.make(Act::Claim, index) == (index > 0);
    }
    as_wanted & one_had
}

// Two threads try one place, and eight threads try one place and share four more. In both cases exactly one thread must get the first place, and all
// other places must be free at the end.
// Promise: two threads and one place, eight threads and four places.
#[test]
fn threads_share_places(rt: HostRuntime) {
    let alloc = rt.alloc();
    assert!(rt; share(&rt, alloc, 1, 3) & share(&rt, alloc, 5, 9));
}
