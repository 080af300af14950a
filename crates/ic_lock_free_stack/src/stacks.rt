//! The words of places and of heads, which threads share.

ghost use Rattle.std.specs.Prelude.{◌≡◌, true, false, ◌<◌, ◌≤◌, ◌+◌, ℕ, List, [], ◌∷◌, ◌++◌, drop, IfSome};
ghost use Rattle.std.specs.Bool.{OnTrue, OnFalse};
ghost use Rattle.ic_unsafe_ref.specs.declared.place.Place.{Place};
ghost use Rattle.ic_unsafe_ref.specs.Places.{index_of};
ghost use Rattle.ic_lock_free_stack.specs.Ends.{first};

use crate::held::{HeldAccounts, Size};
use crate::rule::{
    After, Claimed, Compared, FirstOff, Followed, Linked, Looked, OneHistory, Peeked, Released,
    Seated, TookAll, Tried,
};
use atomic_table::{Seat, Table};
use ic_unsafe_ref::Place;
use std::alloc::{AllocError, Allocator, Global};
use thiserror::Error;

/// Claims on places, and stacks of claimed places: there is a word for each place, and a word for the head of each stack.
///
/// The word of a place is 0 if the place is free. Otherwise a holder holds the place, or the place is in a stack and its word names the next member. Threads
/// share the stacks by reference, and a holder makes each call. Between any two atomic steps there is one history of all holders' steps.
#[derive(Drop)]
pub struct Stacks<A: Allocator = Global> {
    table: Table<(), HeldAccounts, Size, OneHistory, A>,
    places: usize,
    stacks: usize,
    ghost words: { table.shared.table_id.words ≡ places + stacks },
    ghost keyed_places: { table.shared.key.places ≡ places },
    ghost keyed_stacks: { table.shared.key.stacks ≡ stacks },
    ghost some: { 0 < stacks },
    ghost fits: { places + stacks ≤ 8589934592 },
}

/// A token of no bytes, by which a caller claims, pushes and takes places. The holder has the record of its own steps, which only contracts see.
///
/// If a holder is dropped, the places that it holds stay held.
#[derive(Drop)]
pub struct Holder {
    seat: Seat<(), HeldAccounts>,
}

/// A chain of places that a holder holds, each linked to the next. The holder has taken the places from a stack, or has linked the places itself.
///
/// If a chain is dropped, the holder still holds the places of the chain.
#[derive(Drop)]
pub struct Chain {
    first: Option<Place>,
}

impl Chain {
    ghost use Rattle.ic_lock_free_stack.specs.Holders.{first_of, IsNoChain};

    /// Makes an empty chain, for any stacks and any holder. O(1).
    pub fn new() -> Chain
        ensures { IsNoChain result }
    {
        Chain { first: None }
    }

    /// Returns the first place of the chain, or `None` if the chain is empty. O(1).
    #[inline]
    pub fn first(&self) -> Option<Place>
        ensures { result ≡ first_of self.now }
    {
        self.first
    }

    /// Returns whether the chain is empty. O(1).
    #[inline]
    pub fn is_empty(&self) -> bool
        ensures empty { OnTrue result (IsNoChain self.now) }
        ensures some { OnFalse result (IsNoChain self.now → ⊥) }
    {
        self.first.is_none()
    }
}

/// Why no stacks were made.
#[derive(Clone, Copy, PartialEq, Eq, Debug, Error)]
pub enum StacksError {
    /// The caller requested more than 4,294,967,296 places.
    #[error("TooManyPlaces")]
    TooManyPlaces = 1,
    /// There was no memory for the stacks.
    #[error("OutOfMemory")]
    OutOfMemory = 2,
}

impl<A: Allocator + Copy> Stacks<A> {
    ghost use Rattle.std.specs.Prelude.{replicate, map, vec_len, All, IfOk, ◌↔◌};
    ghost use Rattle.std.specs.List.{range_with_len};
    ghost use Rattle.ic_lock_free_stack.specs.Held.{fresh};
    ghost use Rattle.ic_lock_free_stack.specs.Holders.{places_of, stacks_of, holders_of, IsSeatOf, hand_with, name_of, IsOf, IsNew};

    /// Makes `stacks` empty stacks over the free places whose index is below `places`. The call also makes `holders` holders, whose records are empty.
    ///
    /// The call is refused if `places` is above 4,294,967,296, or if there is no memory, and then nothing is made. The call requires at least one stack and at
    /// most 65,535 holders. The call makes at most four requests for memory, for one word for each place and each stack, and for the holders. No other call
    /// requests memory. O(places + stacks + holders).
    pub fn new(
        alloc: A,
        places: usize,
        stacks: usize,
        holders: usize,
    ) -> Result<(Stacks<A>, Vec<Holder, A>), StacksError>
        requires stacks { (0 < stacks) × (stacks ≤ 4294967296) }
        requires holders { holders < 65536 }
        ensures too_many { (result ≡ Err StacksError.TooManyPlaces) ↔ (4294967296 < places) }
        ensures places { IfOk result (λ made. places_of made.0 ≡ places) }
        ensures stacks { IfOk result (λ made. stacks_of made.0 ≡ stacks) }
        ensures all { IfOk result (λ made. holders_of made.0 ≡ holders) }
        ensures holders { IfOk result (λ made. vec_len made.1 ≡ holders) }
        ensures fresh { IfOk result (λ made. All (λ h. IsOf made.0 h × IsNew h) made.1.items) }
        ensures named { IfOk result (λ made. map name_of made.1.items ≡ range_with_len 0 holders) }
    {
        if places > Place::COUNT {
            return Err(StacksError::TooManyPlaces);
        }
        let Ok((made, mut dealer)) = Stacks::free(alloc, places, stacks, holders) else {
            return Err(StacksError::OutOfMemory);
        };
        let mut all = Vec::new(alloc);
        if all.reserve(holders).is_err() {
            return Err(StacksError::OutOfMemory);
        }
        for _ in 0..holders {
            all.push_reserved(Holder {
                seat: made.first_of(&mut dealer),
            });
        }
        Ok((made, all))
    }

    // Makes stacks, and a seat that has the accounts of all holders.
    fn free(
        alloc: A,
        places: usize,
        stacks: usize,
        holders: usize,
    ) -> Result<(Stacks<A>, Seat<(), HeldAccounts>), AllocError>
        requires places { places ≤ 4294967296 }
        requires stacks { (0 < stacks) × (stacks ≤ 4294967296) }
        requires holders { holders < 65536 }
        ensures places { IfOk result (λ made. places_of made.0 ≡ places) }
        ensures stacks { IfOk result (λ made. stacks_of made.0 ≡ stacks) }
        ensures all { IfOk result (λ made. holders_of made.0 ≡ holders) }
        ensures seat { IfOk result (λ made. IsSeatOf made.0 made.1) }
        ensures hand { IfOk result (λ made. made.1.me.0 ≡ hand_with made.0 (map fresh (range_with_len 0 holders))) }
    {
        let mut words = vec![in alloc; 0; places + stacks]?;
        for i in places..places + stacks {
            words[i] = 1;
        }
        let size = Size {
            places,
            stacks,
            holders,
        };
        let (table, dealer) = Table::of_words(alloc, words.as_slice(), &size)?;
        Ok((
            Stacks {
                table,
                places,
                stacks,
            },
            dealer,
        ))
    }
}

impl<A: Allocator> Stacks<A> {
    ghost use Rattle.std.specs.Prelude.{map, vec_len, All, slice_index_or, reverse, Some, ◌≢◌};
    ghost use Rattle.ic_lock_free_stack.specs.Ends.{last as last_of};
    ghost use Rattle.ic_lock_free_stack.specs.declared.step.Entry.{Entry};
    ghost use Rattle.ic_lock_free_stack.specs.declared.stacks.Holder.{Holder};
    ghost use Rattle.ic_lock_free_stack.specs.Held.{without_first, only_first, both_hands};
    ghost use Rattle.ic_lock_free_stack.specs.OneHistory.{IsSeen, IsHistory};
    ghost use Rattle.ic_lock_free_stack.specs.Holders.{holders_of, IsSeatOf, party_of, AreOneHistory, NoneTwice};
    ghost use Rattle.ic_lock_free_stack.specs.declared.step.Step.TheVariants.{Claim, Release, Push, TakeAll};
    ghost use Rattle.ic_lock_free_stack.specs.Moments.{is_in, same, IsOnce, stack_after};
    ghost use Rattle.ic_lock_free_stack.specs.Records.{holds, HoldsAlso, HoldsAll, GivesUp, GivesUpAll, HoldsTheSame, most_steps};
    ghost use Rattle.ic_lock_free_stack.specs.Holders.{places_of, stacks_of, record_of, spent_by, seen_of, Steps, Stays, Looks, IsOf, IsReady, HasChain, KeepsChains};

    // Moves the first account of `seat` to a new seat, and returns the new seat.
    fn first_of(&self, seat: &mut Seat<(), HeldAccounts>) -> Seat<(), HeldAccounts>
        requires seat { IsSeatOf self.now seat.old }
        ensures seat { IsSeatOf self.now seat.new }
        ensures rest { seat.new.me.0 ≡ without_first seat.old.me.0 }
        ensures made { IsSeatOf self.now result × (result.me.1 ≡ []) }
        ensures first { result.me.0 ≡ only_first seat.old.me.0 }
    {
        self.table.shared.split_seat::<FirstOff>(seat)
    }

    // Appends the accounts of the seat `other` to the accounts of the seat `seat`, and consumes `other`.
    fn put_after(&self, seat: &mut Seat<(), HeldAccounts>, other: Seat<(), HeldAccounts>)
        requires seat { IsSeatOf self.now seat.old }
        requires other { IsSeatOf self.now other × (other.me.1 ≡ []) }
        ensures seat { IsSeatOf self.now seat.new }
        ensures both { seat.new.me.0 ≡ both_hands seat.old.me.0 other.me.0 }
    {
        self.table.shared.join_seat::<After>(seat, other);
    }

    /// Returns the number of places. A place belongs to the stacks if its index is smaller than this number. O(1).
    #[inline]
    pub fn places(&self) -> usize
        ensures { result ≡ places_of self.now }
    {
        self.places
    }

    /// Returns the number of stacks. O(1).
    #[inline]
    pub fn stacks(&self) -> usize
        ensures { result ≡ stacks_of self.now }
    {
        self.stacks
    }

    /// Proves to its caller that the records of the given holders are parts of one history, which each of these holders has seen afterwards.
    ///
    /// The history has the steps of all holders, and continues what each given holder had seen. No place is held by two of the given holders. The call
    /// changes no word and no record, and chains stay as they are. The call is never refused, and waits for no other thread. The call makes four loads for
    /// each holder and two more: O(holders).
    pub fn audit<B: Allocator>(&self, holders: &mut Vec<Holder, B>)
        requires made { All (λ h. IsOf self.now h) holders.old.items }
        ensures made { All (λ h. IsOf self.now h) holders.new.items }
        ensures same { map party_of holders.new.items ≡ map party_of holders.old.items }
        ensures history { (order : List Entry) × AreOneHistory self.now order (map party_of holders.new.items)
            × (vec_len holders.new ≡ holders_of self.now → IsHistory order (map party_of holders.new.items))
            × All (λ h. seen_of h ≡ order) holders.new.items
            × All (λ h. IsSeen (seen_of h) order) holders.old.items }
        ensures chains { (k : ℕ) (d : Holder) → k < vec_len holders.old
            → KeepsChains self.now (slice_index_or holders.old.items k d) (slice_index_or holders.new.items k d) (λ p. false) }
        ensures apart { NoneTwice (map party_of holders.new.items) }
    {
        let words = &self.table.shared;
        // The contract of a load is about one seat, so all accounts are first moved to one seat.
        let mut all = words.load_new_seat::<Seated>(0).1;
        for i in 0..holders.len() {
            let account = self.first_of(&mut holders[i].seat);
            self.put_after(&mut all, account);
        }
        words.load::<Compared>(&mut all, 0);
        for i in 0..holders.len() {
            let account = self.first_of(&mut all);
            self.put_after(&mut holders[i].seat, account);
        }
    }

    /// Claims `place` and returns true, or returns false if the place is not free. The call makes one compare-exchange, and waits for no other thread: O(1).
    #[inline]
    pub fn claim(&self, holder: &mut Holder, place: Place) -> bool
        requires place { index_of place < places_of self.now }
        requires made { IsOf self.now holder.old }
        ensures made { IsOf self.now holder.new }
        ensures step { Steps holder.old holder.new (Claim place result) }
        ensures claimed { OnTrue result (HoldsAlso (record_of holder.old) (record_of holder.new) place) }
        ensures refused { OnFalse result (HoldsTheSame (record_of holder.old) (record_of holder.new)) }
        ensures chains { KeepsChains self.now holder.old holder.new (λ p. false) }
    {
        let words = &self.table.shared;
        let found = words.compare_exchange::<Claimed>(&mut holder.seat, place.index(), 0, 1);
        found == 0
    }

    /// Releases `place`, so that any holder may claim the place afterwards. The call makes one store, and waits for no other thread: O(1).
    #[inline]
    pub fn release(&self, holder: &mut Holder, place: Place)
        requires place { index_of place < places_of self.now }
        requires made { IsOf self.now holder.old }
        requires held { holds place (record_of holder.old) ≡ true }
        ensures made { IsOf self.now holder.new }
        ensures step { Steps holder.old holder.new (Release place) }
        ensures released { GivesUp (record_of holder.old) (record_of holder.new) place }
        ensures chains { KeepsChains self.now holder.old holder.new (λ p. same p place) }
    {
        let words = &self.table.shared;
        words.store::<Released>(&mut holder.seat, place.index(), 0);
    }

    /// Returns whether the stack with the given number is empty, at a moment no earlier than the last moment that the holder had seen. The call makes one
    /// load, and waits for no other thread: O(1).
    ///
    /// After the call the holder has seen the history up to the moment to which the result belongs. The moment of the result is during the call, but the
    /// contract states less: if the holder has seen nothing yet, any moment since the stacks were made is possible. After a [`Stacks::audit`] of all holders,
    /// each holder has seen all steps.
    #[inline]
    pub fn is_empty(&self, holder: &mut Holder, stack: usize) -> bool
        requires stack { stack < stacks_of self.now }
        requires made { IsOf self.now holder.old }
        ensures made { IsOf self.now holder.new }
        ensures looked { Looks holder.old holder.new }
        ensures empty { OnTrue result (stack_after (seen_of holder.new) stack ≡ []) }
        ensures some { OnFalse result (stack_after (seen_of holder.new) stack ≢ []) }
        ensures chains { KeepsChains self.now holder.old holder.new (λ p. false) }
    {
        let words = &self.table.shared;
        words.load::<Peeked>(&mut holder.seat, self.places + stack) == 1
    }

    /// Pushes `place` to the front of the stack with the given number. Afterwards the holder no longer holds the place.
    ///
    /// The call requires that the holder holds the place, and that the holder has made fewer than 281,474,976,710,656 pushes and calls that take all members.
    /// The call is never refused, takes no lock and waits for no other thread. The call makes one load, and then a store and a compare-exchange for each try.
    /// A try fails only if another holder has changed a head in between, so there is at most one try more than there are changes. O(1) a try.
    #[inline]
    pub fn push(&self, holder: &mut Holder, stack: usize, place: Place)
        requires stack { stack < stacks_of self.now }
        requires place { index_of place < places_of self.now }
        requires made { IsOf self.now holder.old }
        requires held { holds place (record_of holder.old) ≡ true }
        requires room { spent_by holder.old < most_steps }
        ensures made { IsOf self.now holder.new }
        ensures step { Steps holder.old holder.new (Push stack (place ∷ [])) }
        ensures pushed { GivesUp (record_of holder.old) (record_of holder.new) place }
        ensures chains { KeepsChains self.now holder.old holder.new (λ p. same p place) }
    {
        self.push_linked(holder, stack, place, place);
    }

    /// Pushes a chain to the front of the stack with the given number, in the order of the chain: the chain's first place becomes the stack's first. Afterwards
    /// the holder no longer holds the places of the chain.
    ///
    /// The call requires that the chain is not empty, and that `last` is the last place of the chain, for example the place that was linked first. In
    /// everything else the call is like [`Stacks::push`], and makes as many steps, whatever the number of places. O(1) a try.
    #[inline]
    pub fn push_all(&self, holder: &mut Holder, stack: usize, chain: Chain, last: Place)
        requires stack { stack < stacks_of self.now }
        requires made { IsOf self.now holder.old }
        requires shown { (s : List Place) × HasChain self.now holder.old chain s × (last_of s ≡ Some last) }
        requires room { spent_by holder.old < most_steps }
        ensures made { IsOf self.now holder.new }
        ensures step { (s : List Place) → HasChain self.now holder.old chain s → Steps holder.old holder.new (Push stack s) }
        ensures pushed { (s : List Place) → HasChain self.now holder.old chain s → GivesUpAll (record_of holder.old) (record_of holder.new) s }
        ensures chains { (s : List Place) → HasChain self.now holder.old chain s → KeepsChains self.now holder.old holder.new (λ p. is_in p s) }
    {
        let first = chain.first.unwrap(); // proved: it has a last place
        self.push_linked(holder, stack, first, last);
    }

    // Pushes the places of a list that begins with `front` and ends with `back`. Each of these places except `back` is linked to the next one.
    #[inline]
    fn push_linked(&self, holder: &mut Holder, stack: usize, front: Place, back: Place)
        requires stack { stack < stacks_of self.now }
        requires made { IsOf self.now holder.old }
        requires ready { (s : List Place) × IsReady self.now holder.old front back s }
        requires room { spent_by holder.old < most_steps }
        ensures made { IsOf self.now holder.new }
        ensures step { (s : List Place) → IsReady self.now holder.old front back s → Steps holder.old holder.new (Push stack s) }
        ensures pushed { (s : List Place) → IsReady self.now holder.old front back s → GivesUpAll (record_of holder.old) (record_of holder.new) s }
        ensures chains { (s : List Place) → IsReady self.now holder.old front back s → KeepsChains self.now holder.old holder.new (λ p. is_in p s) }
    {
        let words = &self.table.shared;
        let link = Place::to_word(Some(front)) + 1;
        let mut head = words.load::<Looked>(&mut holder.seat, self.places + stack);
        for _ in 0..u64::MAX {
            words.store::<Linked>(&mut holder.seat, back.index(), head);
            let found = words.compare_exchange::<Tried>(
                &mut holder.seat,
                self.places + stack,
                head,
                link,
            );
            if found == head {
                return;
            }
            head = found;
        }
        unreachable!()
    }

    /// Takes all members of the stack with the given number, the last pushed first, and leaves the stack empty. Afterwards the holder holds each of these
    /// members.
    ///
    /// The call requires that the holder has made fewer than 281,474,976,710,656 pushes and calls that take all members. The call makes one swap, and waits
    /// for no other thread: O(1). [`Stacks::next`] returns the members of the chain one by one.
    #[inline]
    pub fn take_all(&self, holder: &mut Holder, stack: usize) -> Chain
        requires stack { stack < stacks_of self.now }
        requires made { IsOf self.now holder.old }
        requires room { spent_by holder.old < most_steps }
        ensures made { IsOf self.now holder.new }
        ensures took { (s : List Place) × IsOnce s
            × Steps holder.old holder.new (TakeAll stack s)
            × HoldsAll (record_of holder.old) (record_of holder.new) s
            × HasChain self.now holder.new result s }
        ensures chains { KeepsChains self.now holder.old holder.new (λ p. false) }
    {
        let words = &self.table.shared;
        let found = words.swap::<TookAll>(&mut holder.seat, self.places + stack, 1);
        Chain {
            first: Place::from_word(found - 1),
        }
    }

    /// Adds `place` at the front of a chain. The call makes one store: O(1).
    ///
    /// The call requires that the holder holds the place, and that the place is not in the chain. The call makes no step of the history, because no other
    /// holder sees a chain.
    #[inline]
    pub fn link(&self, holder: &mut Holder, chain: &mut Chain, place: Place)
        requires place { index_of place < places_of self.now }
        requires made { IsOf self.now holder.old }
        requires held { holds place (record_of holder.old) ≡ true }
        requires shown { (s : List Place) × HasChain self.now holder.old chain.old s × (is_in place s ≡ false) }
        ensures made { IsOf self.now holder.new }
        ensures stays { Stays holder.old holder.new }
        ensures linked { (s : List Place) → HasChain self.now holder.old chain.old s → HasChain self.now holder.new chain.new (place ∷ s) }
        ensures chains { KeepsChains self.now holder.old holder.new (λ p. same p place) }
    {
        let words = &self.table.shared;
        let next = Place::to_word(chain.first) + 1;
        words.store::<Linked>(&mut holder.seat, place.index(), next);
        chain.first = Some(place);
    }

    /// Removes the first place from a chain and returns it, or `None` if the chain is empty. The holder still holds the place. The call makes one load: O(1).
    ///
    /// The call requires that the chain is intact, which means that the holder has released or pushed no place of the chain.
    #[inline]
    pub fn next(&self, holder: &mut Holder, chain: &mut Chain) -> Option<Place>
        requires made { IsOf self.now holder.old }
        requires shown { (s : List Place) × HasChain self.now holder.old chain.old s }
        ensures same { holder.new ≡ holder.old }
        ensures answer { (s : List Place) → HasChain self.now holder.old chain.old s → result ≡ first s }
        ensures found { (s : List Place) → HasChain self.now holder.old chain.old s → IfSome result
            (λ p. (index_of p < places_of self.now) × (holds p (record_of holder.old) ≡ true) × (is_in p (drop 1 s) ≡ false)) }
        ensures rest { (s : List Place) → HasChain self.now holder.old chain.old s → HasChain self.now holder.new chain.new (drop 1 s) }
    {
        let place = chain.first?;
        let words = &self.table.shared;
        let found = words.load::<Followed>(&mut holder.seat, place.index());
        chain.first = Place::from_word(found - 1);
        Some(place)
    }

    /// Reverses the chain: if the chain was taken from a stack, the place that was pushed first comes first afterwards. The call makes one load and one store
    /// for each place: O(n).
    ///
    /// The holder rewrites the words of its own places, and makes no step of the history.
    pub fn reversed(&self, holder: &mut Holder, chain: Chain) -> Chain
        requires made { IsOf self.now holder.old }
        requires shown { (s : List Place) × HasChain self.now holder.old chain s }
        ensures made { IsOf self.now holder.new }
        ensures stays { Stays holder.old holder.new }
        ensures reversed { (s : List Place) → HasChain self.now holder.old chain s → HasChain self.now holder.new result (reverse s) }
        ensures chains { (s : List Place) → HasChain self.now holder.old chain s → KeepsChains self.now holder.old holder.new (λ p. is_in p s) }
    {
        let mut chain = chain;
        let mut turned = Chain::new();
        while let Some(place) = self.next(holder, &mut chain) {
            self.link(holder, &mut turned, place);
        }
        turned
    }
}
