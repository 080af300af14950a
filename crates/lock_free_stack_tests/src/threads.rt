//! A test with threads that push places and threads that take places.

ghost use Rattle.std.specs.Prelude.{◌≡◌, ◌<◌, ◌+◌, All};
ghost use Rattle.ic_lock_free_stack.specs.Holders.{stacks_of, spent_by, IsOf, IsNew};

use crate::places::{Order, put, take};
use ic_lock_free_stack::{Holder, Stacks};
use std::alloc::{AllocError, Global};
use std::process::Abort;
use std::thread;
use std::thread::Threads;

// The number of turns in which a thread tries to push a place, or takes all places.
const TURNS: usize = 50_000;

// A holder of stacks that works in a thread. The holder pushes places if `pushes` is true, or else takes places.
#[derive(Drop)]
struct HolderWithStacks<'c> {
    stacks: &'c Stacks,
    holder: Holder,
    pushes: bool,
    alloc: Global,
    ghost made: { IsOf stacks.now holder },
    ghost some: { 0 < stacks_of stacks.now },
    ghost fresh: { spent_by holder ≡ 0 },
}

// Tries to claim and push places, one after the other, and returns how many places it pushed.
fn push_some(stacks: &Stacks, mut holder: Holder) -> usize
    requires made { IsOf stacks.now holder }
    requires some { 0 < stacks_of stacks.now }
    requires fresh { spent_by holder ≡ 0 }
{
    let mut pushed: usize = 0;
    for turn in 0..TURNS {
        let places = stacks.places();
        if places > 0 && put(stacks, &mut holder, 0, turn % places) {
            pushed = pushed.wrapping_add(1);
        }
    }
    pushed
}

// Takes all places of the stack in each turn, and returns how many places it took.
fn take_some(alloc: Global, stacks: &Stacks, mut holder: Holder) -> Result<usize, AllocError>
    requires made { IsOf stacks.now holder }
    requires some { 0 < stacks_of stacks.now }
    requires fresh { spent_by holder ≡ 0 }
{
    let mut taken: usize = 0;
    let mut batch = Vec::new(alloc);
    for _ in 0..TURNS {
        batch.clear();
        take(stacks, &mut holder, 0, Order::LastFirst, &mut batch)?;
        taken = taken.wrapping_add(batch.len());
    }
    Ok(taken)
}

// Lets the holder push or take places, and returns how many places it pushed, and how many it took.
fn work(hand: HolderWithStacks) -> (usize, usize) {
    let HolderWithStacks {
        stacks,
        holder,
        pushes,
        alloc,
    } = hand;
    if pushes {
        (push_some(stacks, holder), 0)
    } else {
        (0, take_some(alloc, stacks, holder).unwrap_or(0))
    }
}

// Returns each holder together with the stacks. The first `takers` holders take places, and the others push places.
fn equipped<'c>(
    alloc: Global,
    stacks: &'c Stacks,
    mut holders: Vec<Holder>,
    takers: usize,
) -> Result<Vec<HolderWithStacks<'c>>, AllocError>
    requires some { 0 < stacks_of stacks.now }
    requires made { All (λ h. IsOf stacks.now h × IsNew h) holders.items }
{
    let mut equipped = Vec::new(alloc);
    while let Some(holder) = holders.pop() {
        let pushes = holders.len() >= takers;
        equipped.push(HolderWithStacks {
            stacks,
            holder,
            pushes,
            alloc,
        })?;
    }
    Ok(equipped)
}

/// Lets `pushers` threads push and `takers` threads take. Returns whether the places in the stack at the end are as many as were pushed and not taken.
pub(crate) fn share<R: Abort + Threads + Sync>(
    rt: &R,
    alloc: Global,
    places: usize,
    pushers: usize,
    takers: usize,
) -> bool
    requires { pushers + takers < 1000 }
{
    let (stacks, mut holders) = Stacks::new(alloc, places, 1, pushers + takers + 1).expect(
        rt, "stacks",
    );
    let last = holders.pop().expect(rt, "a holder");
    let equipped = equipped(alloc, &stacks, holders, takers).expect(rt, "room");
    let done = thread::map_vec(rt, equipped, &work).expect(rt, "room");
    let mut pushed: usize = 0;
    let mut taken: usize = 0;
    for (one_pushed, one_took) in &done {
        pushed = pushed.wrapping_add(*one_pushed);
        taken = taken.wrapping_add(*one_took);
    }
    let mut rest = Vec::new(alloc);
    let mut receiver = last;
    take(&stacks, &mut receiver, 0, Order::LastFirst, &mut rest).expect(rt, "room");
    pushed == taken.wrapping_add(rest.len())
}
