//! Threads that all try to claim the same places.

ghost use Rattle.std.specs.Prelude.{◌≡◌, ◌<◌, ◌≤◌, ◌↔◌, [], All, IfOk, Err, vec_len, length};
ghost use Rattle.std.specs.List.{AllZip};
ghost use Rattle.ic_atomic.specs.Prelude.{places_of, holders_of, record_of, IsOf};
ghost use Rattle.ic_workers.specs.SharedOut.{SharedOut, IsReportedOfEach, places_in};
ghost use Rattle.ic_workers.specs.Claimed.{IsRow, ClaimedAsOneList};
ghost use Rattle.ic_workers.specs.Parties.{IsReady, HasGathered, HasTaken};

use crate::party::{ClaimedAll, Gathered, Offer, Party};
use ic_atomic::{Claims, ClaimsError, Gate, Holder};
use ic_unsafe_ref::{Place, UnsafeRef};
use std::alloc::{AllocError, Allocator};
use std::snapshot::Snapshot;
use std::sync::Wait;
use std::thread;
use std::thread::Threads;

// Returns the first `count` places, in order.
fn first_places<A: Allocator>(alloc: A, count: usize) -> Result<Vec<UnsafeRef<()>, A>, AllocError>
    requires { count ≤ 4294967296 }
    ensures row { IfOk result (λ places. IsRow 0 places.items) }
    ensures len { IfOk result (λ places. vec_len places ≡ count) }
{
    let mut places = Vec::new(alloc);
    for index in 0..count {
        if let Some(place) = Place::new(index) {
            places.push(UnsafeRef::new(place))?;
        }
    }
    Ok(places)
}

// Makes a party for each holder, with links and a list of its own.
fn parties<'c, A: Allocator + Copy>(
    alloc: A,
    offer: &Offer<'c, A>,
    holders: Vec<Holder, A>,
) -> Result<Vec<Party<'c, A>, A>, AllocError>
    requires fresh { All (λ h. IsOf offer.now.claims.now h × (record_of h ≡ [])) holders.items }
    requires row { IsRow 0 offer.now.offered.now }
    requires long { length offer.now.offered.now ≡ places_of offer.now.claims.now }
    ensures ready { IfOk result (λ parties. All (IsReady offer.now.claims.now) parties.items) }
    ensures len { IfOk result (λ parties. vec_len parties ≡ vec_len holders) }
{
    let mut parties = Vec::new(alloc);
    for holder in holders {
        parties.push(Party::new(alloc, offer, holder)?)?;
    }
    Ok(parties)
}

// Lets each party work in a thread of its own, and returns all parties' results when all threads are done. The parties are numbered from 1.
fn in_threads<R: Threads + Wait + Sync, A: Allocator + Copy + Send + Sync, G: Gate + Sync>(
    rt: &R,
    alloc: A,
    claims: &Claims<A>,
    parties: Vec<Party<'_, A>, A>,
    gate: &G,
) -> Result<Vec<Gathered<A>, A>, AllocError>
    requires { All (IsReady claims.now) parties.items }
    ensures gathered { IfOk result (λ done. All (HasGathered claims.now) done.items) }
    ensures reported { IfOk result (λ done. IsReportedOfEach (G.Reported gate.now) (vec_len done) (places_of claims.now)) }
    ensures len { IfOk result (λ done. vec_len done ≡ vec_len parties.entry) }
{
    thread::scope(
        thread::scope_env(),
        rt,
        |scope| -> Result<Vec<Gathered<A>, A>, AllocError>
            requires { All (IsReady claims.now) parties.items }
            ensures { IfOk result (λ done. All (HasGathered claims.entry.now) done.items
                × IsReportedOfEach (G.Reported gate.entry.now) (vec_len done) (places_of claims.entry.now)
                × (vec_len done ≡ vec_len parties.entry)) }
        {
            let mut threads = Vec::new(alloc);
            for party in parties {
                let number = threads.len() + 1;
                let promise = ClaimedAll {
                    claims: Snapshot::of(claims),
                    gate: Snapshot::of(gate),
                    number,
                };
                let thread = scope.spawn_with(
                    promise,
                    move || -> Gathered<A>
                        requires { IsReady party.claims.now party }
                        ensures { HasGathered party.entry.claims.now result
                            × G.Reported gate.entry.now number (places_of party.entry.claims.now) }
                    { party.work(number, gate) },
                )?;
                threads.push(thread)?;
            }
            Ok(thread::join_promised(rt, threads)?)
        },
    )
}

// Returns the holders of the workers, and the places in the workers' lists.
fn take_apart<A: Allocator + Copy>(
    alloc: A,
    claims: &Claims<A>,
    done: Vec<Gathered<A>, A>,
) -> Result<(Vec<Holder, A>, Vec<Vec<Place, A>, A>), AllocError>
    requires { All (HasGathered claims.now) done.items }
    ensures taken { IfOk result (λ parts. AllZip (HasTaken claims.now) parts.0.items (places_in parts.1.items)) }
    ensures len { IfOk result (λ parts. vec_len parts.1 ≡ vec_len done) }
{
    let _ = claims;
    let mut holders = Vec::new(alloc);
    let mut lists = Vec::new(alloc);
    for gathered in done {
        let (holder, places) = gathered.into_places(alloc)?;
        holders.push(holder)?;
        lists.push(places)?;
    }
    Ok((holders, lists))
}

// Lets all holders of the claims claim the places in threads of their own, and returns the list of each holder.
fn fan_out_over<R: Threads + Wait + Sync, A: Allocator + Copy + Send + Sync, G: Gate + Sync>(
    rt: &R,
    alloc: A,
    claims: &Claims<A>,
    holders: Vec<Holder, A>,
    gate: &G,
) -> Result<Vec<Vec<Place, A>, A>, AllocError>
    requires fresh { All (λ h. IsOf claims.now h × (record_of h ≡ [])) holders.items }
    requires all { vec_len holders ≡ holders_of claims.now }
    requires small { places_of claims.now ≤ 4294967296 }
    ensures shared { IfOk result (λ lists. SharedOut (holders_of claims.now) (places_of claims.now) (places_in lists.items)) }
    ensures one_list { IfOk result (λ lists. ClaimedAsOneList (holders_of claims.now) (places_of claims.now) (places_in lists.items)) }
    ensures reported { IfOk result (λ lists. IsReportedOfEach (G.Reported gate.now) (holders_of claims.now) (places_of claims.now)) }
{
    let offered = first_places(alloc, claims.places())?;
    let offer = Offer {
        claims,
        offered: &offered,
    };
    let parties = parties(alloc, &offer, holders)?;
    let done = in_threads(rt, alloc, claims, parties, gate)?;
    let (mut holders, lists) = take_apart(alloc, claims, done)?;
    claims.audit(&mut holders);
    Ok(lists)
}

/// Starts `workers` threads that all try to claim the first `places` places. The call returns a list for each worker, in the order of the workers. A worker's
/// list has the places that the worker got.
///
/// Each worker has links and a list of its own. A worker tries to claim each place, in rising order, and appends the places that it gets to its list. The
/// workers are numbered from 1, and each reports its progress to the gate under its number, as in [`gather`](ic_atomic::gather). The contract leaves open which
/// worker gets which place. Each worker gets a rising list, and each place is in exactly one of the lists. One sequence of steps has each worker's claims in
/// the order in which the worker made them. The result of every claim follows from this sequence.
///
/// The call is refused if `places` is above 4,294,967,296, if there is not enough memory, or if a thread cannot be started. The error for a thread that cannot
/// be started is also `OutOfMemory`. A refused call first waits until the workers that have begun are done. The call waits for all its threads. The call
/// allocates all memory before it starts the first thread, except the memory for the lists at the end. O(workers * places).
pub fn fan_out<R: Threads + Wait + Sync, A: Allocator + Copy + Send + Sync, G: Gate + Sync>(
    rt: &R,
    alloc: A,
    workers: usize,
    places: usize,
    gate: &G,
) -> Result<Vec<Vec<Place, A>, A>, ClaimsError>
    ensures too_many { (result ≡ Err ClaimsError.TooManyPlaces) ↔ (4294967296 < places) }
    ensures shared { IfOk result (λ lists. SharedOut workers places (places_in lists.items)) }
    ensures one_list { IfOk result (λ lists. ClaimedAsOneList workers places (places_in lists.items)) }
    ensures reported { IfOk result (λ lists. IsReportedOfEach (G.Reported gate.now) workers places) }
{
    let (claims, holders) = Claims::new(alloc, places, workers)?;
    match fan_out_over(rt, alloc, &claims, holders, gate) {
        Ok(lists) => Ok(lists),
        Err(AllocError) => Err(ClaimsError::OutOfMemory),
    }
}
