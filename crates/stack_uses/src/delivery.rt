//! Threads send places to one mailbox, and the thread that started them receives the places.
//!
//! ```text
//! let came = deliver(&rt, rt.alloc(), 4, 250)?; // 1,000 places of 4 senders, each sender's in the order of their indexes
//! ```

ghost use Rattle.std.specs.Prelude.{◌≡◌, ◌<◌, ◌≤◌, ◌+◌, ◌-◌, ◌*◌, ◌↔◌, [], All, List, IfOk, Err, vec_len, length};
ghost use Rattle.ic_unsafe_ref.specs.declared.place.Place.{Place};
ghost use Rattle.ic_lock_free_stack.specs.Holders.{places_of, stacks_of, holders_of, record_of, IsOf, IsNew};
ghost use Rattle.stack_uses.specs.Delivery.{IsReady, AreReady, HasSent, HaveSent, HasTaken, HasDone, IsDelivered};

use crate::mailbox::{Receiver, send};
use ic_lock_free_stack::{Holder, Stacks, StacksError};
use ic_unsafe_ref::Place;
use std::alloc::{AllocError, Allocator};
use std::thread;
use std::thread::Threads;

// The number of the mailbox to which all senders send.
const MAILBOX: usize = 0;

// A sender before its thread begins. It is to send `count` places, from the place with the index `first` on.
#[derive(Drop)]
struct Sender<'c, A: Allocator> {
    stacks: &'c Stacks<A>,
    holder: Holder,
    first: usize,
    count: usize,
}

// Sends each place of the sender, in the order of the places' indices, and returns the sender's holder.
fn send_each<A: Allocator>(sender: Sender<'_, A>) -> Holder
    requires { IsReady sender.stacks.now sender.first sender.count sender }
    ensures { HasSent sender.entry.stacks.now sender.entry.first sender.entry.count result }
{
    let Sender {
        stacks,
        mut holder,
        first,
        count,
    } = sender;
    for index in first..first + count {
        if let Some(place) = Place::new(index) {
            let _is_sent = send(stacks, &mut holder, MAILBOX, place);
        }
    }
    holder
}

// Makes one sender of `count` places for each holder.
fn senders<'c, A: Allocator + Copy>(
    alloc: A,
    stacks: &'c Stacks<A>,
    holders: Vec<Holder, A>,
    count: usize,
) -> Result<Vec<Sender<'c, A>, A>, AllocError>
    requires fresh { All (λ h. IsOf stacks.now h × (record_of h ≡ [])) holders.items }
    requires some { 0 < stacks_of stacks.now }
    requires room { vec_len holders * count ≤ places_of stacks.now }
    requires small { places_of stacks.now ≤ 4294967296 }
    ensures ready { IfOk result (λ senders. AreReady stacks.now 0 count senders.items) }
    ensures len { IfOk result (λ senders. vec_len senders ≡ vec_len holders) }
{
    let mut senders = Vec::new(alloc);
    let mut first = 0;
    for holder in holders {
        senders.push(Sender {
            stacks,
            holder,
            first,
            count,
        })?;
        first += count;
    }
    Ok(senders)
}

// Receives the places that come to the mailbox, with as many calls of `receive_all` as `turns` says.
fn receive_some<A: Allocator>(
    alloc: A,
    stacks: &Stacks<A>,
    holder: Holder,
    turns: usize,
) -> Result<(Holder, Vec<Place, A>), AllocError>
    requires made { IsOf stacks.now holder }
    requires fresh { record_of holder ≡ [] }
    requires some { 0 < stacks_of stacks.now }
    requires turns { turns ≤ 4294967296 }
    ensures { IfOk result (λ done. HasTaken stacks.now turns done.0 done.1.items) }
{
    let mut receiver = Receiver::new(stacks, holder, MAILBOX);
    let mut came = Vec::new(alloc);
    for _ in 0..turns {
        receiver.receive_all(stacks, &mut came)?;
    }
    Ok((receiver.into_holder(), came))
}

// Lets each sender send its places in a thread of its own, and returns the holders of the senders in order.
fn send_in_threads<R: Threads + Sync, A: Allocator + Copy + Send + Sync>(
    rt: &R,
    stacks: &Stacks<A>,
    senders: Vec<Sender<'_, A>, A>,
    count: usize,
) -> Result<Vec<Holder, A>, AllocError>
    requires { AreReady stacks.now 0 count senders.items }
    ensures sent { IfOk result (λ sent. HaveSent stacks.now 0 count sent.items) }
    ensures len { IfOk result (λ sent. vec_len sent ≡ vec_len senders.entry) }
{
    let _ = stacks;
    let _ = count;
    thread::map_vec(rt, senders, &send_each)
}

// Lets the senders send in their threads while the caller's thread receives.
fn send_and_receive<R: Threads + Sync, A: Allocator + Copy + Send + Sync>(
    rt: &R,
    alloc: A,
    stacks: &Stacks<A>,
    senders: Vec<Sender<'_, A>, A>,
    receiver: Holder,
    count: usize,
) -> Result<(Vec<Holder, A>, Vec<Place, A>), AllocError>
    requires ready { AreReady stacks.now 0 count senders.items }
    requires made { IsOf stacks.now receiver }
    requires fresh { record_of receiver ≡ [] }
    requires some { 0 < stacks_of stacks.now }
    requires small { places_of stacks.now ≤ 4294967296 }
    ensures done { IfOk result (λ done. HasDone stacks.now count done.0.items done.1.items) }
    ensures len { IfOk result (λ done. vec_len done.0 ≡ vec_len senders.entry + 1) }
{
    let turns = stacks.places();
    let sends = move || -> Result<Vec<Holder, A>, AllocError>
        requires { AreReady stacks.now 0 count senders.items }
        ensures sent { IfOk result (λ sent. HaveSent stacks.entry.now 0 count sent.items) }
        ensures len { IfOk result (λ sent. vec_len sent ≡ vec_len senders.entry) }
    { send_in_threads(rt, stacks, senders, count) };
    let receives = move || -> Result<(Holder, Vec<Place, A>), AllocError>
        requires { IsOf stacks.now receiver × (record_of receiver ≡ []) × (0 < stacks_of stacks.now) × (turns ≤ 4294967296) }
        ensures { IfOk result (λ done. HasTaken stacks.entry.now turns done.0 done.1.items) }
    { receive_some(alloc, stacks, receiver, turns) };
    let (sent, received) = thread::join(rt, sends, receives);
    let mut holders = sent?;
    let (receiver, came) = received?;
    holders.push(receiver)?;
    Ok((holders, came))
}

// Receives all places that are still in the mailbox after all senders have sent. An audit of all holders before the call, and an audit after it, prove that
// no place comes later.
fn receive_rest<A: Allocator>(
    stacks: &Stacks<A>,
    mut holders: Vec<Holder, A>,
    mut came: Vec<Place, A>,
    count: usize,
) -> Result<Vec<Place, A>, AllocError>
    requires done { HasDone stacks.now count holders.items came.items }
    requires all { vec_len holders ≡ holders_of stacks.now }
    requires some { 0 < stacks_of stacks.now }
    ensures { IfOk result (λ all. IsDelivered (vec_len holders - 1) count all.items) }
{
    let _ = count;
    stacks.audit(&mut holders);
    let holder = holders.pop().unwrap(); // proved: the receiver's is the last
    let mut receiver = Receiver::new(stacks, holder, MAILBOX);
    receiver.receive_all(stacks, &mut came)?;
    holders.push(receiver.into_holder())?;
    stacks.audit(&mut holders);
    Ok(came)
}

// Lets the last of the holders receive what all other holders send.
fn deliver_over<R: Threads + Sync, A: Allocator + Copy + Send + Sync>(
    rt: &R,
    alloc: A,
    stacks: &Stacks<A>,
    mut holders: Vec<Holder, A>,
    count: usize,
) -> Result<Vec<Place, A>, AllocError>
    requires fresh { All (λ h. IsOf stacks.now h × IsNew h) holders.items }
    requires all { vec_len holders ≡ holders_of stacks.now }
    requires one { 0 < vec_len holders }
    requires some { 0 < stacks_of stacks.now }
    requires room { (vec_len holders - 1) * count ≤ places_of stacks.now }
    requires small { places_of stacks.now ≤ 4294967296 }
    ensures { IfOk result (λ came. IsDelivered (vec_len holders - 1) count came.items) }
{
    let receiver = holders.pop().unwrap(); // proved: there is one
    let senders = senders(alloc, stacks, holders, count)?;
    let (holders, came) = send_and_receive(rt, alloc, stacks, senders, receiver, count)?;
    receive_rest(stacks, holders, came, count)
}

/// Lets `senders` threads send `places` places each to one mailbox, and returns the received places, in the order in which they came.
///
/// Each sender sends in a thread of its own, in the order of the places' indices. The first sender sends the places from 0 on, and each later sender
/// those after the places of the sender before it. The caller's thread receives meanwhile, and receives the rest when all senders are done. Every
/// sent place comes exactly once, and the places of each sender come in the order in which it sent them. The contract leaves open how the places of
/// several senders are interleaved.
///
/// It requires at most 65,534 senders. The call is refused if the senders have more than 4,294,967,296 places together, or if memory runs out. It
/// then waits until the senders that have begun are done, before it returns. It joins its threads, and takes no lock. O(senders * places).
pub fn deliver<R: Threads + Sync, A: Allocator + Copy + Send + Sync>(
    rt: &R,
    alloc: A,
    senders: usize,
    places: usize,
) -> Result<Vec<Place, A>, StacksError>
    requires senders { senders < 65535 }
    ensures too_many { (result ≡ Err StacksError.TooManyPlaces) ↔ (4294967296 < senders * places) }
    ensures delivered { IfOk result (λ came. IsDelivered senders places came.items) }
{
    let Some(all) = senders.checked_mul(places) else {
        return Err(StacksError::TooManyPlaces);
    };
    let (stacks, holders) = Stacks::new(alloc, all, 1, senders + 1)?;
    match deliver_over(rt, alloc, &stacks, holders, places) {
        Ok(came) => Ok(came),
        Err(AllocError) => Err(StacksError::OutOfMemory),
    }
}
