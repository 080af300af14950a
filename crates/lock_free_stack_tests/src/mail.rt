//! A test with threads that send places to a mailbox, and a thread that receives the places.

ghost use Rattle.std.specs.Prelude.{◌≡◌, ◌<◌, ◌≤◌, All, List, vec_len};
ghost use Rattle.ic_unsafe_ref.specs.declared.place.Place.{Place};
ghost use Rattle.ic_lock_free_stack.specs.Holders.{stacks_of, spent_by, IsOf, IsNew};
ghost use Rattle.stack_uses.specs.Mail.{holder_of, HasReceived};

use ic_lock_free_stack::{Holder, Stacks};
use ic_unsafe_ref::Place;
use stack_uses::mailbox::{Receiver, send};
use std::alloc::{AllocError, Global};
use std::process::Abort;
use std::thread;
use std::thread::Threads;

// The number of places that each sender sends, in the order of their indexes.
const SENT: usize = 2000;

// The number of turns in each of which the receiver tries to receive a place.
const TURNS: usize = 100_000;

// A holder that works in a thread. The holder is the receiver if `receives` is true, or else the sender with this number.
#[derive(Drop)]
struct Correspondent<'c> {
    stacks: &'c Stacks,
    holder: Holder,
    number: usize,
    receives: bool,
    alloc: Global,
    ghost made: { IsOf stacks.now holder },
    ghost some: { 0 < stacks_of stacks.now },
    ghost new: { IsNew holder },
}

// Sends all places of the sender with this number to the mailbox.
fn send_all(stacks: &Stacks, mut holder: Holder, number: usize)
    requires made { IsOf stacks.now holder }
    requires some { 0 < stacks_of stacks.now }
    requires fresh { spent_by holder ≡ 0 }
{
    for i in 0..SENT {
        if let Some(place) = Place::new(number.wrapping_mul(SENT).wrapping_add(i)) {
            if place.index() < stacks.places() {
                let _sent = send(stacks, &mut holder, 0, place);
            }
        }
    }
}

// Receives places in this many turns, and returns their indexes, in the order in which they came.
fn receive_some(
    alloc: Global,
    stacks: &Stacks,
    holder: Holder,
    turns: usize,
) -> Result<Vec<usize>, AllocError>
    requires made { IsOf stacks.now holder × IsNew holder }
    requires some { 0 < stacks_of stacks.now }
    requires turns { turns ≤ 1000000 }
{
    let mut receiver = Receiver::new(stacks, holder, 0);
    let mut indexes = Vec::new(alloc);
    for _ in 0..turns {
        if let Some(place) = receiver.receive(stacks) {
            receiver.give_up(stacks, place);
            indexes.push(place.index())?;
        }
    }
    Ok(indexes)
}

// Lets the correspondent work, and returns the indices of the places that it received. A sender receives none.
fn work(correspondent: Correspondent) -> Vec<usize> {
    let Correspondent {
        stacks,
        holder,
        number,
        receives,
        alloc,
    } = correspondent;
    if receives {
        return receive_some(alloc, stacks, holder, TURNS).unwrap_or(Vec::new(alloc));
    }
    send_all(stacks, holder, number);
    Vec::new(alloc)
}

// Returns a correspondent for each holder. The first holder is the receiver, and all others are senders.
fn correspondents<'c>(
    alloc: Global,
    stacks: &'c Stacks,
    mut holders: Vec<Holder>,
) -> Result<Vec<Correspondent<'c>>, AllocError>
    requires some { 0 < stacks_of stacks.now }
    requires made { All (λ h. IsOf stacks.now h × IsNew h) holders.items }
{
    let mut correspondents = Vec::new(alloc);
    while let Some(holder) = holders.pop() {
        let number = holders.len();
        correspondents.push(Correspondent {
            stacks,
            holder,
            number: number.wrapping_sub(1),
            receives: number == 0,
            alloc,
        })?;
    }
    Ok(correspondents)
}

// Returns whether all places of each sender came, in the order in which the sender sent them.
fn are_in_order(rt: &impl Abort, alloc: Global, indexes: &[usize], senders: usize) -> bool {
    let mut wanted = Vec::new(alloc);
    for number in 0..senders {
        wanted.push(number.wrapping_mul(SENT)).expect(rt, "room");
    }
    for index in indexes {
        let Some(next) = wanted.get_mut(*index / SENT) else {
            return false;
        };
        if *next != *index {
            return false;
        }
        *next = next.wrapping_add(1);
    }
    indexes.len() == senders.wrapping_mul(SENT)
}

/// Lets this many senders send their places, and lets one receiver and then a second one receive them. Returns whether all places came, and the places
/// of each sender in their order.
pub(crate) fn deliver<R: Abort + Threads + Sync>(rt: &R, alloc: Global, senders: usize) -> bool
    requires { senders < 1000 }
{
    let places = senders.wrapping_mul(SENT);
    let (stacks, mut holders) = Stacks::new(alloc, places, 1, senders + 2).expect(rt, "stacks");
    let last = holders.pop().expect(rt, "a holder");
    let correspondents = correspondents(alloc, &stacks, holders).expect(rt, "room");
    let done = thread::map_vec(rt, correspondents, &work).expect(rt, "room");
    let mut all = Vec::new(alloc);
    for got in &done {
        for index in got {
            all.push(*index).expect(rt, "room");
        }
    }
    let rest = receive_some(alloc, &stacks, last, 1000000).expect(rt, "room");
    for index in &rest {
        all.push(*index).expect(rt, "room");
    }
    are_in_order(rt, alloc, all.as_slice(), senders)
}
