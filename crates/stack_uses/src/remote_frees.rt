//! Places that one thread lends and any thread frees, as in an allocator's list of remote frees.
//!
//! ```text
//! let mut owner = Owner::new(&stacks, holder, 0);
//! owner.own(&stacks, place);                     // once for each place that it is to give out
//! let place = owner.take(&stacks).unwrap();      // to be used, and to be lent to another thread's stack
//! owner.lend(&stacks, 1, place);
//! // in another thread, which has taken its stack
//! free(&stacks, &mut worker, 0, place);          // back to the owner, with no lock; `free_all` frees many at once
//! ```
//!
//! The owner takes places from a chain of its own, with one load for each place. Only if this chain is empty, it takes all freed places with one swap.

ghost use Rattle.std.specs.Prelude.{◌≡◌, ◌<◌, ◌≤◌, ◌+◌, ℕ, true, false, [], ◌∷◌, reverse, List, Some, IfSome, IfNone};
ghost use Rattle.std.specs.Bool.{OnTrue, OnFalse};
ghost use Rattle.ic_unsafe_ref.specs.declared.place.Place.{Place};
ghost use Rattle.ic_unsafe_ref.specs.Places.{index_of};
ghost use Rattle.ic_lock_free_stack.specs.declared.step.Step.TheVariants.{Push, TakeAll};
ghost use Rattle.ic_lock_free_stack.specs.Prelude.{is_in, same, holds, most_steps, GivesUp, places_of, stacks_of, record_of, spent_by, Steps, IsOf, HasChain, KeepsChains};
ghost use Rattle.stack_uses.specs.Frees.{user_of, stack_of, HasFree};

use ic_lock_free_stack::{Chain, Holder, Stacks};
use ic_unsafe_ref::Place;
use std::alloc::Allocator;

/// An owner of places, which lends them to other threads. It takes back the places that were freed to the stack with the number `stack`.
#[derive(Drop)]
pub struct Owner {
    holder: Holder,
    stack: usize,
    free: Chain,
}

/// Frees a place from any thread, so that its owner can take it back. It waits for nobody.
///
/// Every chain of the user that does not contain the place stays unchanged, so that the user may free a chain place by place.
pub fn free<A: Allocator>(stacks: &Stacks<A>, user: &mut Holder, stack: usize, place: Place)
    requires stack { stack < stacks_of stacks.now }
    requires place { index_of place < places_of stacks.now }
    requires made { IsOf stacks.now user.old }
    requires held { holds place (record_of user.old) ≡ true }
    requires room { spent_by user.old < most_steps }
    ensures made { IsOf stacks.now user.new }
    ensures step { Steps user.old user.new (Push stack (place ∷ [])) }
    ensures freed { GivesUp (record_of user.old) (record_of user.new) place }
    ensures chains { KeepsChains stacks.now user.old user.new (λ p. same p place) }
{
    stacks.push(user, stack, place);
}

/// Frees all places of a chain with one push. It makes a load and a store for each place, and waits for nobody.
pub fn free_all<A: Allocator>(stacks: &Stacks<A>, user: &mut Holder, stack: usize, chain: Chain)
    requires stack { stack < stacks_of stacks.now }
    requires made { IsOf stacks.now user.old }
    requires shown { (s : List Place) × HasChain stacks.now user.old chain s }
    requires room { spent_by user.old < most_steps }
    ensures made { IsOf stacks.now user.new }
    ensures freed { (p : Place) (s : List Place) → HasChain stacks.now user.old chain (p ∷ s) → Steps user.old user.new (Push stack (reverse (p ∷ s))) }
    ensures none { HasChain stacks.now user.old chain [] → user.new ≡ user.old }
    ensures spent { spent_by user.new ≤ spent_by user.old + 1 }
{
    if let Some(last) = chain.first() {
        let turned = stacks.reversed(user, chain);
        stacks.push_all(user, stack, turned, last);
    }
}

impl Owner {
    /// Makes an owner that has no free place yet.
    pub fn new<A: Allocator>(stacks: &Stacks<A>, holder: Holder, stack: usize) -> Owner
        requires stack { stack < stacks_of stacks.now }
        requires made { IsOf stacks.now holder }
        ensures none { HasFree stacks.now result [] }
        ensures holder { user_of result ≡ holder }
        ensures stack { stack_of result ≡ stack }
    {
        let _ = stacks;
        Owner {
            holder,
            stack,
            free: Chain::new(),
        }
    }

    /// Claims a place, so that the owner can lend it, and returns whether the claim succeeded. It fails if somebody holds the place. It makes one
    /// compare-exchange and one store.
    pub fn own<A: Allocator>(&mut self, stacks: &Stacks<A>, place: Place) -> bool
        requires place { index_of place < places_of stacks.now }
        requires kept { (s : List Place) × HasFree stacks.now self.old s }
        ensures kept { (s : List Place) × HasFree stacks.now self.new s }
        ensures owned { (s : List Place) → HasFree stacks.now self.old s → OnTrue result (HasFree stacks.now self.new (place ∷ s)) }
        ensures refused { (s : List Place) → HasFree stacks.now self.old s → OnFalse result (HasFree stacks.now self.new s) }
        ensures stack { stack_of self.new ≡ stack_of self.old }
        ensures spent { spent_by (user_of self.new) ≡ spent_by (user_of self.old) }
    {
        let is_claimed = stacks.claim(&mut self.holder, place);
        if is_claimed {
            stacks.link(&mut self.holder, &mut self.free, place);
        }
        is_claimed
    }

    /// Returns a free place, or `None` if the owner has no free place. The owner then holds the returned place, but does not count it as free. The call
    /// waits for nobody.
    ///
    /// It requires that its holder has made fewer than 281,474,976,710,656 pushes and calls that take all. It makes one load. If the owner's chain is
    /// empty, the call also makes one swap, which takes all freed places. O(1).
    pub fn take<A: Allocator>(&mut self, stacks: &Stacks<A>) -> Option<Place>
        requires kept { (s : List Place) × HasFree stacks.now self.old s }
        requires room { spent_by (user_of self.old) < most_steps }
        ensures kept { (s : List Place) × HasFree stacks.now self.new s }
        ensures some { IfSome result (λ p. (t : List Place) × HasFree stacks.now self.new t × (is_in p t ≡ false)
            × (index_of p < places_of stacks.now) × (holds p (record_of (user_of self.new)) ≡ true)) }
        ensures own { (p : Place) (t : List Place) → HasFree stacks.now self.old (p ∷ t) → (result ≡ Some p) × HasFree stacks.now self.new t }
        ensures none { IfNone result (HasFree stacks.now self.new []) }
        ensures empty { IfNone result (Steps (user_of self.old) (user_of self.new) (TakeAll (stack_of self.old) [])) }
        ensures stack { stack_of self.new ≡ stack_of self.old }
        ensures spent { spent_by (user_of self.new) ≤ spent_by (user_of self.old) + 1 }
    {
        self.refill(stacks);
        stacks.next(&mut self.holder, &mut self.free)
    }

    // Takes all freed places into the owner's chain, if the chain is empty.
    fn refill<A: Allocator>(&mut self, stacks: &Stacks<A>)
        requires kept { (s : List Place) × HasFree stacks.now self.old s }
        requires room { spent_by (user_of self.old) < most_steps }
        ensures kept { (s : List Place) × HasFree stacks.now self.new s }
        ensures own { (p : Place) (t : List Place) → HasFree stacks.now self.old (p ∷ t) → HasFree stacks.now self.new (p ∷ t) }
        ensures took { HasFree stacks.now self.old [] → (s : List Place) × HasFree stacks.now self.new s
            × Steps (user_of self.old) (user_of self.new) (TakeAll (stack_of self.old) s) }
        ensures stack { stack_of self.new ≡ stack_of self.old }
        ensures spent { spent_by (user_of self.new) ≤ spent_by (user_of self.old) + 1 }
    {
        if self.free.is_empty() {
            self.free = stacks.take_all(&mut self.holder, self.stack);
        }
    }

    /// Puts a place that the owner holds, but does not count as free, back into its own free places. It makes one store.
    pub fn give_back<A: Allocator>(&mut self, stacks: &Stacks<A>, place: Place)
        requires place { index_of place < places_of stacks.now }
        requires held { holds place (record_of (user_of self.old)) ≡ true }
        requires out { (s : List Place) × HasFree stacks.now self.old s × (is_in place s ≡ false) }
        ensures back { (s : List Place) → HasFree stacks.now self.old s → HasFree stacks.now self.new (place ∷ s) }
        ensures stack { stack_of self.new ≡ stack_of self.old }
        ensures spent { spent_by (user_of self.new) ≡ spent_by (user_of self.old) }
    {
        stacks.link(&mut self.holder, &mut self.free, place); // to be given out next
    }

    /// Lends a place that the owner holds and does not count as free, to any thread that takes from the stack with this number.
    pub fn lend<A: Allocator>(&mut self, stacks: &Stacks<A>, to: usize, place: Place)
        requires to { to < stacks_of stacks.now }
        requires place { index_of place < places_of stacks.now }
        requires held { holds place (record_of (user_of self.old)) ≡ true }
        requires out { (s : List Place) × HasFree stacks.now self.old s × (is_in place s ≡ false) }
        requires room { spent_by (user_of self.old) < most_steps }
        ensures lent { GivesUp (record_of (user_of self.old)) (record_of (user_of self.new)) place }
        ensures kept { (s : List Place) × HasFree stacks.now self.new s }
        ensures others { (s : List Place) → HasFree stacks.now self.old s → is_in place s ≡ false → HasFree stacks.now self.new s }
        ensures stack { stack_of self.new ≡ stack_of self.old }
        ensures spent { spent_by (user_of self.new) ≤ spent_by (user_of self.old) + 1 }
    {
        stacks.push(&mut self.holder, to, place);
    }
}
