//! A test with a thread that lends places, and threads that free the lent places.

ghost use Rattle.std.specs.Prelude.{◌≡◌, ◌<◌, ◌≤◌, ◌+◌, All, List, vec_len};
ghost use Rattle.ic_unsafe_ref.specs.declared.place.Place.{Place};
ghost use Rattle.ic_lock_free_stack.specs.Holders.{stacks_of, spent_by, IsOf, IsNew, HasChain};

use crate::places::{Order, take};
use ic_lock_free_stack::{Chain, Holder, Stacks};
use ic_unsafe_ref::Place;
use stack_uses::remote_frees::{Owner, free, free_all};
use std::alloc::{AllocError, Global};
use std::process::Abort;
use std::thread;
use std::thread::Threads;

// The number of turns in which the owner lends a place, and in which a worker looks for places that are lent to it.
const TURNS: usize = 20_000;

// A holder that works in a thread. The holder with the number 0 is the owner of the places. Each other holder is a worker, and places are lent to it by
// the stack with its number.
#[derive(Drop)]
struct Party<'c> {
    stacks: &'c Stacks,
    holder: Holder,
    number: usize,
    ghost made: { IsOf stacks.now holder },
    ghost two: { 1 < stacks_of stacks.now },
    ghost inside: { number < stacks_of stacks.now },
    ghost fresh: { spent_by holder ≡ 0 },
}

// The owner owns all places, lends them to the workers in turn, and gives each eighth place back to itself. At the end the call returns how many places
// the owner still has.
fn give_out(stacks: &Stacks, holder: Holder) -> usize
    requires made { IsOf stacks.now holder }
    requires two { 1 < stacks_of stacks.now }
    requires fresh { spent_by holder ≡ 0 }
{
    let mut owner = Owner::new(stacks, holder, 0);
    for index in 0..stacks.places() {
        if let Some(place) = Place::new(index) {
            let _owned = owner.own(stacks, place);
        }
    }
    let workers = stacks.stacks() - 1;
    for turn in 0..TURNS {
        match owner.take(stacks) {
            Some(place) if turn % 8 == 7 => owner.give_back(stacks, place),
            Some(place) => owner.lend(stacks, 1 + turn % workers, place),
            None => {}
        }
    }
    let mut left: usize = 0;
    for _ in 0..TURNS {
        if owner.take(stacks).is_some() {
            left = left.wrapping_add(1);
        }
    }
    left
}

// Frees the first place of a chain by one call, and then all other places of the chain at once by a second call.
fn free_both_ways(stacks: &Stacks, holder: &mut Holder, lent: Chain)
    requires some { 0 < stacks_of stacks.now }
    requires made { IsOf stacks.now holder.old }
    requires shown { (s : List Place) × HasChain stacks.now holder.old lent s }
    requires room { spent_by holder.old < 1000000000 }
    ensures made { IsOf stacks.now holder.new }
    ensures spent { spent_by holder.new ≤ spent_by holder.old + 2 }
{
    let mut rest = lent;
    let Some(first) = stacks.next(holder, &mut rest) else {
        return;
    };
    free(stacks, holder, 0, first);
    free_all(stacks, holder, 0, rest);
}

// Frees the places that are lent to the worker with this number, as they come.
fn free_lent(stacks: &Stacks, mut holder: Holder, number: usize)
    requires made { IsOf stacks.now holder }
    requires two { 1 < stacks_of stacks.now }
    requires inside { number < stacks_of stacks.now }
    requires fresh { spent_by holder ≡ 0 }
{
    for _ in 0..TURNS {
        let lent = stacks.take_all(&mut holder, number);
        free_both_ways(stacks, &mut holder, lent);
    }
}

// Lets the party work, and returns how many places it still has at the end. A worker then has none.
fn work(party: Party) -> usize {
    let Party {
        stacks,
        holder,
        number,
    } = party;
    if number == 0 {
        return give_out(stacks, holder);
    }
    free_lent(stacks, holder, number);
    0
}

// Returns a party for each holder. There are at most as many holders as stacks.
fn parties<'c>(
    alloc: Global,
    stacks: &'c Stacks,
    mut holders: Vec<Holder>,
) -> Result<Vec<Party<'c>>, AllocError>
    requires two { 1 < stacks_of stacks.now }
    requires many { vec_len holders ≤ stacks_of stacks.now }
    requires made { All (λ h. IsOf stacks.now h × IsNew h) holders.items }
{
    let mut parties = Vec::new(alloc);
    while let Some(holder) = holders.pop() {
        parties.push(Party {
            stacks,
            holder,
            number: holders.len(),
        })?;
    }
    Ok(parties)
}

/// Lets an owner lend places to this many workers. Returns whether each place is at the end in some stack, or still with the owner.
pub(crate) fn come_back<R: Abort + Threads + Sync>(
    rt: &R,
    alloc: Global,
    places: usize,
    workers: usize,
) -> bool
    requires { (0 < workers) × (workers < 1000) }
{
    let (stacks, mut holders) = Stacks::new(alloc, places, workers + 1, workers + 2).expect(
        rt, "stacks",
    );
    let mut last = holders.pop().expect(rt, "a holder");
    let parties = parties(alloc, &stacks, holders).expect(rt, "room");
    let done = thread::map_vec(rt, parties, &work).expect(rt, "room");
    let mut found = 0usize;
    for left in &done {
        found = found.wrapping_add(*left);
    }
    let mut rest = Vec::new(alloc);
    for stack in 0..workers + 1 {
        take(&stacks, &mut last, stack, Order::LastFirst, &mut rest).expect(rt, "room");
    }
    found.wrapping_add(rest.len()) == places
}
