//! Calls that claim and push places, and calls that take places and give them up.

ghost use Rattle.std.specs.Prelude.{◌≡◌, ◌<◌, ◌≤◌, ◌+◌, All, List, OnOk, map, vec_len};
ghost use Rattle.ic_unsafe_ref.specs.declared.place.Place.{Place};
ghost use Rattle.ic_unsafe_ref.specs.Places.{index_of};
ghost use Rattle.ic_lock_free_stack.specs.declared.step.Entry.{Entry};
ghost use Rattle.ic_lock_free_stack.specs.Holders.{places_of, stacks_of, holders_of, party_of, spent_by, IsOf, HasChain};
ghost use Rattle.lock_free_stack_tests.specs.Emptied.{IsEmptied};

use ic_lock_free_stack::{
    Chain, Holder, Stacks, calls_go_in_turn, history_laws, nothing_is_lost, places_come_in_order,
};
use ic_unsafe_ref::Place;
use stack_uses::mailbox::mail_comes_in_order;
use std::alloc::AllocError;

/// Claims the place with this index and pushes it to the stack. Returns whether the place could be claimed.
pub fn put(stacks: &Stacks, holder: &mut Holder, stack: usize, index: usize) -> bool
    requires stack { stack < stacks_of stacks.now }
    requires made { IsOf stacks.now holder.old }
    requires room { spent_by holder.old < 1000000000 }
    ensures made { IsOf stacks.now holder.new }
    ensures spent { spent_by holder.new ≤ spent_by holder.old + 1 }
{
    match Place::new(index) {
        Some(place) if index < stacks.places() => {
            if stacks.claim(holder, place) {
                stacks.push(holder, stack, place);
                true
            } else {
                false
            }
        }
        _ => false,
    }
}

/// Claims two places and pushes both at once, with `front` before `back`. Returns whether both places could be claimed.
pub fn put_pair(
    stacks: &Stacks,
    holder: &mut Holder,
    stack: usize,
    front: Place,
    back: Place,
) -> bool
    requires stack { stack < stacks_of stacks.now }
    requires front { index_of front < places_of stacks.now }
    requires back { index_of back < places_of stacks.now }
    requires made { IsOf stacks.now holder.old }
    requires room { spent_by holder.old < 1000000000 }
    ensures made { IsOf stacks.now holder.new }
    ensures spent { spent_by holder.new ≤ spent_by holder.old + 1 }
{
    if !stacks.claim(holder, back) {
        return false;
    }
    let mut chain = Chain::new();
    stacks.link(holder, &mut chain, back);
    let both = stacks.claim(holder, front);
    if both {
        stacks.link(holder, &mut chain, front);
        stacks.push_all(holder, stack, chain, back);
    } else {
        stacks.release(holder, back);
    }
    both
}

/// The order in which the members of a stack are taken.
#[derive(Clone, Copy)]
pub enum Order {
    /// The place that was pushed last comes first.
    LastFirst,
    /// The place that was pushed first comes first.
    FirstFirst,
}

/// Takes all members of a stack, gives up each place, and appends their indexes to `indexes`, in this order.
pub fn take(
    stacks: &Stacks,
    holder: &mut Holder,
    stack: usize,
    order: Order,
    indexes: &mut Vec<usize>,
) -> Result<(), AllocError>
    requires made { IsOf stacks.now holder.old }
    requires stack { stack < stacks_of stacks.now }
    requires room { spent_by holder.old < 1000000000 }
    ensures made { IsOf stacks.now holder.new }
    ensures spent { spent_by holder.new ≤ spent_by holder.old + 1 }
{
    let taken = stacks.take_all(holder, stack);
    if matches!(order, Order::LastFirst) {
        return give_up(stacks, holder, taken, indexes);
    }
    let turned = stacks.reversed(holder, taken);
    give_up(stacks, holder, turned, indexes)
}

/// Takes all members that a stack still has, between two audits of all holders. By the laws of stacks, each place that was pushed to the stack has then
/// been taken.
pub fn empty_out(stacks: &Stacks, holders: &mut Vec<Holder>, stack: usize) -> Result<(), AllocError>
    requires stack { stack < stacks_of stacks.now }
    requires made { All (λ h. IsOf stacks.now h × (spent_by h < 1000000000)) holders.old.items }
    requires all { vec_len holders.old ≡ holders_of stacks.now }
    requires some { 0 < vec_len holders.old }
    ensures emptied { OnOk result ((order : List Entry) × IsEmptied stack order (map party_of holders.new.items)) }
    ensures made { OnOk result (All (λ h. IsOf stacks.now h) holders.new.items) }
{
    stacks.audit(holders);
    let mut last = holders.pop().unwrap(); // proved: there is one
    let _ = stacks.take_all(&mut last, stack);
    holders.push(last)?;
    stacks.audit(holders);
    calls_go_in_turn(); // so no step was made beside that of the last one,
    history_laws(); // and it left the stack empty
    nothing_is_lost();
    places_come_in_order();
    mail_comes_in_order();
    Ok(())
}

// Gives up each place of a chain, and appends their indexes to `indexes`, in the order of the chain.
fn give_up(
    stacks: &Stacks,
    holder: &mut Holder,
    chain: Chain,
    indexes: &mut Vec<usize>,
) -> Result<(), AllocError>
    requires made { IsOf stacks.now holder.old }
    requires shown { (s : List Place) × HasChain stacks.now holder.old chain s }
    ensures made { IsOf stacks.now holder.new }
    ensures spent { spent_by holder.new ≡ spent_by holder.old }
{
    let mut chain = chain;
    while let Some(place) = stacks.next(holder, &mut chain) {
        indexes.push(place.index())?;
        stacks.release(holder, place);
    }
    Ok(())
}
