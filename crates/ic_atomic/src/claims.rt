//! The claim words, which threads share.

ghost use Rattle.std.specs.Prelude.{◌≡◌, true, ◌<◌, ◌≤◌, ◌+◌, ◌↔◌, [], ◌∷◌, ◌++◌, map, replicate, vec_len, if◌then◌else◌, All, IfOk};
ghost use Rattle.std.specs.Bool.{OnTrue, OnFalse};
ghost use Rattle.ic_unsafe_ref.specs.Places.{index_of};

use crate::held::{HeldRecords, Size};
use crate::rule::{After, Claimed, Compared, FirstOff, Looked, OneList, Released, Seated};
use atomic_table::{Seat, Table};
use ic_unsafe_ref::Place;
use std::alloc::{AllocError, Allocator, Global};
use thiserror::Error;

/// Claims on places: a word for each place, which is 1 if some holder holds the place and 0 if none does.
///
/// Threads share the claims by reference. A word changes only in single atomic steps, and each step is a call of a holder. Between any two steps the records of
/// all holders can be merged into one list of steps. Each step has the result that it would have if one thread made all steps in the order of this list. The
/// claims are made with a fixed number of holders, each with one record, and no call adds a holder.
#[derive(Drop)]
pub struct Claims<A: Allocator = Global> {
    table: Table<(), HeldRecords, Size, OneList, A>,
    places: usize,
    ghost counted: { table.shared.key.words ≡ table.shared.table_id.words },
    ghost room: { places < table.shared.table_id.words },
}

/// A token of no bytes, with which a party claims places. The holder has the record of its own steps, which only contracts see.
///
/// If a holder is dropped, the places that it holds stay held.
#[derive(Drop)]
pub struct Holder {
    seat: Seat<(), HeldRecords>,
}

/// Why no claims were made.
#[derive(Clone, Copy, PartialEq, Eq, Debug, Error)]
pub enum ClaimsError {
    /// The caller requested more than 4,294,967,296 places.
    #[error("TooManyPlaces")]
    TooManyPlaces = 1,
    /// There was no memory for the claims.
    #[error("OutOfMemory")]
    OutOfMemory = 2,
}

impl<A: Allocator + Copy> Claims<A> {
    ghost use Rattle.ic_atomic.specs.Holders.{places_of, holders_of, IsSeatOf, hand_of, hand_with, record_of, IsOf};

    /// Makes claims on the places with an index below `places`, all of them free, and `holders` holders, whose records
    /// are empty.
    ///
    /// No other holder of these claims is ever made, so each thread that claims places has to get one of these holders.
    ///
    /// The call is refused if `places` is above 4,294,967,296, or if there is no memory, and then nothing is made. The call makes at most four requests for
    /// memory, for one word for each place and for the holders. No other call requests memory. O(places + holders).
    pub fn new(
        alloc: A,
        places: usize,
        holders: usize,
    ) -> Result<(Claims<A>, Vec<Holder, A>), ClaimsError>
        ensures too_many { (result ≡ Err ClaimsError.TooManyPlaces) ↔ (4294967296 < places) }
        ensures places { IfOk result (λ made. places_of made.0 ≡ places) }
        ensures all { IfOk result (λ made. holders_of made.0 ≡ holders) }
        ensures holders { IfOk result (λ made. vec_len made.1 ≡ holders) }
        ensures fresh { IfOk result (λ made. All (λ h. IsOf made.0 h × (record_of h ≡ [])) made.1.items) }
    {
        if places > Place::COUNT {
            return Err(ClaimsError::TooManyPlaces);
        }
        let Ok((claims, mut dealer)) = Claims::free(alloc, places, holders) else {
            return Err(ClaimsError::OutOfMemory);
        };
        let mut made = Vec::new(alloc);
        if made.reserve(holders).is_err() {
            return Err(ClaimsError::OutOfMemory);
        }
        for _ in 0..holders {
            made.push_reserved(Holder {
                seat: claims.first_of(&mut dealer),
            });
        }
        Ok((claims, made))
    }

    // Makes claims, and a seat that has the records of all holders. There is one word more than there are places, so that there is always a word to load.
    fn free(
        alloc: A,
        places: usize,
        holders: usize,
    ) -> Result<(Claims<A>, Seat<(), HeldRecords>), AllocError>
        requires { places ≤ 4294967296 }
        ensures places { IfOk result (λ made. places_of made.0 ≡ places) }
        ensures all { IfOk result (λ made. holders_of made.0 ≡ holders) }
        ensures seat { IfOk result (λ made. IsSeatOf made.0 made.1) }
        ensures hand { IfOk result (λ made. hand_of made.1 ≡ hand_with made.0 (replicate holders [])) }
    {
        let words = vec![in alloc; 0; places + 1]?;
        let size = Size {
            words: places + 1,
            holders,
        };
        let (table, dealer) = Table::of_words(alloc, words.as_slice(), &size)?;
        Ok((Claims { table, places }, dealer))
    }
}

impl<A: Allocator> Claims<A> {
    ghost use Rattle.ic_atomic.specs.declared.step.Step.TheVariants.{Claim, Release, Look};
    ghost use Rattle.ic_atomic.specs.Records.{event, holds, HoldsAlso, GivesUp, HoldsTheSame};
    ghost use Rattle.ic_atomic.specs.Held.{without_first, only_first, both_hands};
    ghost use Rattle.ic_atomic.specs.Holders.{places_of, holders_of, IsSeatOf, hand_of, HasNoSlot, record_of, IsOf, AreOneList, AreWholeList, NoneTwice};

    // Moves the first record of `seat` to a new seat.
    fn first_of(&self, seat: &mut Seat<(), HeldRecords>) -> Seat<(), HeldRecords>
        requires seat { IsSeatOf self.now seat.old }
        ensures seat { IsSeatOf self.now seat.new }
        ensures rest { hand_of seat.new ≡ without_first (hand_of seat.old) }
        ensures made { IsSeatOf self.now result × HasNoSlot result }
        ensures first { hand_of result ≡ only_first (hand_of seat.old) }
    {
        self.table.shared.split_seat::<FirstOff>(seat)
    }

    // Appends the records of the seat `other` to the records of the seat `seat`, and consumes `other`.
    fn put_after(&self, seat: &mut Seat<(), HeldRecords>, other: Seat<(), HeldRecords>)
        requires seat { IsSeatOf self.now seat.old }
        requires other { IsSeatOf self.now other × HasNoSlot other }
        ensures seat { IsSeatOf self.now seat.new }
        ensures both { hand_of seat.new ≡ both_hands (hand_of seat.old) (hand_of other) }
    {
        self.table.shared.join_seat::<After>(seat, other);
    }

    /// Returns the number of places that can be claimed. A place can be claimed if its index is smaller than this number. O(1).
    #[inline]
    pub fn places(&self) -> usize
        ensures { result ≡ places_of self.now }
    {
        self.places
    }

    /// Claims `place` and returns true, or returns false if some holder holds it.
    ///
    /// The call requires that the place is one of these claims' places, and that the holder was made with these claims. The result is false exactly if a holder
    /// held the place at this step: the calling holder or another, living or dropped. If the result is false, the call changes only the record of `holder`. The
    /// call makes one compare-exchange, O(1), and waits for no other thread.
    #[inline]
    pub fn claim(&self, holder: &mut Holder, place: Place) -> bool
        requires place { index_of place < places_of self.now }
        requires made { IsOf self.now holder.old }
        ensures made { IsOf self.now holder.new }
        ensures step { record_of holder.new
            ≡ record_of holder.old ++ event (Claim place) (if result then 0 else 1) ∷ [] }
        ensures claimed { OnTrue result (HoldsAlso (record_of holder.old) (record_of holder.new) place) }
        ensures refused { OnFalse result (HoldsTheSame (record_of holder.old) (record_of holder.new)) }
    {
        let words = &self.table.shared;
        let found = words.compare_exchange::<Claimed>(&mut holder.seat, place.index(), 0, 1);
        found == 0
    }

    /// Releases `place`, so that any holder may claim the place afterwards.
    ///
    /// The call requires that `holder` holds the place, and that `holder` was made with these claims. The call makes one store, O(1), and waits for no other
    /// thread.
    #[inline]
    pub fn release(&self, holder: &mut Holder, place: Place)
        requires place { index_of place < places_of self.now }
        requires made { IsOf self.now holder.old }
        requires held { holds place (record_of holder.old) ≡ true }
        ensures made { IsOf self.now holder.new }
        ensures step { record_of holder.new
            ≡ record_of holder.old ++ event (Release place) 1 ∷ [] }
        ensures released { GivesUp (record_of holder.old) (record_of holder.new) place }
    {
        let words = &self.table.shared;
        words.store::<Released>(&mut holder.seat, place.index(), 0);
    }

    /// Returns whether any holder holds `place`: the calling holder or another, living or dropped.
    ///
    /// The call requires that the place is one of these claims' places, and that the holder was made with these claims. The result may be out of date when the
    /// call returns, unless the calling holder holds the place. The call makes one load, O(1), and waits for no other thread.
    #[inline]
    pub fn look(&self, holder: &mut Holder, place: Place) -> bool
        requires place { index_of place < places_of self.now }
        requires made { IsOf self.now holder.old }
        ensures made { IsOf self.now holder.new }
        ensures step { record_of holder.new
            ≡ record_of holder.old ++ event (Look place) (if result then 1 else 0) ∷ [] }
        ensures kept { HoldsTheSame (record_of holder.old) (record_of holder.new) }
    {
        let words = &self.table.shared;
        let found = words.load::<Looked>(&mut holder.seat, place.index());
        found == 1
    }

    /// Proves to its caller that the records of the given holders are parts of one list of steps.
    ///
    /// The list has the steps of all holders of the claims. If the caller passes all holders, the list consists of just their records. No place is held by two
    /// of the given holders. Use this call if you have the holders of several threads together, for example after a join. The call requires that each holder
    /// was made with these claims. You may pass any number of the claims' holders, in any order. The call changes neither a word nor a record, and is never
    /// refused. The call makes four loads for each holder and two more, O(holders). It waits for no other thread, and takes no memory.
    pub fn audit<B: Allocator>(&self, holders: &mut Vec<Holder, B>)
        requires made { All (λ h. IsOf self.now h) holders.old.items }
        ensures made { All (λ h. IsOf self.now h) holders.new.items }
        ensures same { map record_of holders.new.items ≡ map record_of holders.old.items }
        ensures one_list { AreOneList self.now (map record_of holders.new.items) }
        ensures whole { vec_len holders.new ≡ holders_of self.now
            → AreWholeList self.now (map record_of holders.new.items) }
        ensures apart { NoneTwice (map record_of holders.new.items) }
    {
        let words = &self.table.shared;
        // The contract of a load speaks of the records of one seat, so all records are first moved to one seat.
        let mut all = words.load_new_seat::<Seated>(0).1;
        for i in 0..holders.len() {
            let record = self.first_of(&mut holders[i].seat);
            self.put_after(&mut all, record);
        }
        words.load::<Compared>(&mut all, 0);
        for i in 0..holders.len() {
            let record = self.first_of(&mut all);
            self.put_after(&mut holders[i].seat, record);
        }
    }
}
