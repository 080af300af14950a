//! A table has one entry for each place. The entries are words that a caller lends.
//!
//! ```text
//! let mut links = RawTable::new(words);
//! links.covers(place) // whether there is such a place
//! ```

ghost use Rattle.std.specs.Prelude.{◌≡◌, ◌≢◌, ◌↔◌, ◌∷◌, ◌<◌, [], length, Some, None, true, IsTrue};
ghost use Rattle.ic_link_ops.specs.Prelude.{Place, index_of, IsCovered, IsLinked, ChangesOnly, table_of, nameable};
ghost use Rattle.ic_raw.specs.declared.status.TheConstants.{OK, NULL};
ghost use Rattle.ic_raw.specs.Tables.{IsView, IsFree, raw_entries, nameable_table, member_fault, place_fault};
ghost use Rattle.ic_raw.specs.Gaps.{IsNoneOrLinked};
ghost use Rattle.ic_raw.specs.Answers.{refusal};
ghost use Rattle.ic_raw.specs.Words.{place_of};

use crate::number::place_of;
use crate::status::{BROKEN, LINKED, NONE, NOT_LINKED, OK, OUT_OF_RANGE};
use ic_link_ops::linked_list::LinkedListOps;
use ic_link_ops::singly_linked_list::SinglyLinkedListOps;
use ic_link_ops::xor_linked_list::XorLinkedListOps;
use ic_link_ops::{LinkOps, NextWord, PrevPlace, Word, Words};
use ic_unsafe_ref::Place;

/// A view of the words of a table, which are an array with one element for each place.
///
/// Words of 4 bytes can name only the first 536,870,911 places. Later places do not belong to the table. The view implements the link traits of the
/// collections that its words can serve. `LentTable` of `ic_link_ops` is a similar view, but over links of a generic type, which a function for C
/// cannot take.
pub struct RawTable<'a, W> {
    pub(crate) entries: &'a mut [W],
}

impl<W> Drop for RawTable<'_, W> {
    fn drop(self)
        ensures words { self.exit.0.now ≡ self.entry.entries.now }
    {
        let RawTable { entries: _ } = self;
    }
}

impl<'a, W> RawTable<'a, W> {
    /// Makes a view of these words. O(1).
    #[inline]
    pub fn new(words: &'a mut [W]) -> RawTable<'a, W>
        ensures { IsView words.entry result }
    {
        RawTable { entries: words }
    }
}

impl<W: Words> RawTable<'_, W> {
    /// Returns how many places the table has. O(1).
    #[inline]
    #[tactic(auto, using(ic_link_ops::proofs::WidthLemmas::nameable_count))]
    pub fn places(&self) -> usize
        ensures { result ≡ (nameable_table W.width W.unlinked self.now).extent.places }
    {
        W::count_nameable(self.entries.len())
    }

    /// Returns whether `place` belongs to the table. O(1).
    #[inline]
    pub fn covers(&self, place: Place) -> bool
        ensures { IsTrue result ↔ IsCovered (nameable_table W.width W.unlinked self.now) place }
    {
        // The index is the word of the place divided by 8, minus 1. The added 1 cancels this subtraction, which saves an instruction.
        place.index() + 1 <= self.places()
    }

    // Returns the words of `place`.
    #[inline]
    #[tactic(auto, using(ic_link_ops::proofs::WidthLemmas::nameable_fits, ic_link_ops::proofs::WidthLemmas::nameable_read))]
    pub(crate) fn at(&self, place: Place) -> &W
        requires covered { IsCovered (nameable_table W.width W.unlinked self.now) place }
        ensures { result.now ≡ (nameable_table W.width W.unlinked self.now).entry place }
    {
        let entries = &*self.entries;
        &entries[place.index()]
    }

    // Returns the index at which the words of a place are.
    #[inline]
    #[tactic(auto, using(ic_link_ops::proofs::WidthLemmas::nameable_fits))]
    fn slot(&self, place: Place) -> usize
        requires covered { IsCovered (nameable_table W.width W.unlinked self.now) place }
        ensures value { result ≡ index_of place }
        ensures in_bounds { result < length (raw_entries self.now) }
    {
        place.index()
    }

    // Returns the index at which the words of a linked place are.
    #[inline]
    fn slot_of_linked(&self, place: Place) -> usize
        requires linked { IsLinked W.is_linked (nameable_table W.width W.unlinked self.now) place }
        ensures value { result ≡ index_of place }
        ensures in_bounds { result < length (raw_entries self.now) }
    {
        place.index()
    }

    /// Returns whether `place` is a linked place of the table. O(1).
    #[inline]
    pub fn is_linked(&self, place: Place) -> bool
        ensures { result ≡ W.is_linked ((nameable_table W.width W.unlinked self.now).entry place) }
    {
        if !self.covers(place) {
            return false;
        }
        self.at(place).is_linked()
    }

    /// Returns whether `place` is `None` or a linked place of the table. O(1).
    #[inline]
    pub fn stands(&self, place: Option<Place>) -> bool
        ensures { (result ≡ true) ↔ IsNoneOrLinked W.is_linked (nameable_table W.width W.unlinked self.now) place }
    {
        match place {
            None => true,
            Some(place) => self.is_linked(place),
        }
    }

    /// Marks `place` as linked and returns it, if it belongs to the table and is not linked. Otherwise the result is `None`. O(1).
    #[inline]
    pub fn acquire(&mut self, place: Option<Place>) -> Option<Place>
        ensures accepted { (p : Place) → place ≡ Some p → IsFree W.is_linked (nameable_table W.width W.unlinked self.old) p → result ≡ Some p }
        ensures same { (p : Place) → result ≡ Some p → place ≡ Some p }
        ensures free { (p : Place) → result ≡ Some p → IsFree W.is_linked (nameable_table W.width W.unlinked self.old) p }
        ensures linked { (p : Place) → result ≡ Some p → IsLinked W.is_linked (nameable_table W.width W.unlinked self.new) p }
        ensures frame { (p : Place) → result ≡ Some p → ChangesOnly (nameable_table W.width W.unlinked self.old) (nameable_table W.width W.unlinked self.new) p }
        ensures refused { result ≡ None → self.new ≡ self.old }
    {
        let place = place?;
        if !self.covers(place) {
            return None;
        }
        if !self.acquire_link(place) {
            return None;
        }
        Some(place)
    }

    /// Returns [`OK`] if `member` is `None` or a linked place of the table, or else its fault. O(1).
    #[inline]
    pub fn member_fault(&self, member: Option<Place>) -> u32
        ensures fault { result ≡ member_fault W.is_linked (nameable_table W.width W.unlinked self.now) member }
        ensures named { result ≢ NULL }
    {
        let Some(member) = member else {
            return OK;
        };
        if self.is_linked(member) {
            return OK;
        }
        if self.covers(member) {
            NOT_LINKED
        } else {
            OUT_OF_RANGE
        }
    }

    /// Returns [`OK`] if `place` belongs to the table and is not linked, or else its fault. O(1).
    #[inline]
    pub fn place_fault(&self, place: Option<Place>) -> u32
        ensures fault { result ≡ place_fault W.is_linked (nameable_table W.width W.unlinked self.now) place }
        ensures named { result ≢ NULL }
    {
        let Some(place) = place else {
            return OUT_OF_RANGE;
        };
        if !self.covers(place) {
            return OUT_OF_RANGE;
        }
        if self.is_linked(place) { LINKED } else { OK }
    }

    /// Returns why a call at `member` is refused: the fault of `member`, or else [`BROKEN`]. O(1).
    ///
    /// Unlike `refusal_at`, this function takes the place itself, so that a caller that has the place need not keep its number.
    #[cold]
    #[inline(never)]
    pub fn refusal_of(&self, member: Place) -> u32
        ensures refusal { result ≡ refusal (member_fault W.is_linked (nameable_table W.width W.unlinked self.now) (Some member) ∷ []) }
        ensures refused { (result ≢ OK) × (result ≢ NULL) }
    {
        let fault = self.member_fault(Some(member));
        if fault != OK {
            return fault;
        }
        BROKEN
    }

    /// Returns why a call at the member `at` is refused: the fault of `at`, or else [`BROKEN`]. O(1).
    #[cold]
    #[inline(never)]
    pub fn refusal_at(&self, at: u32) -> u32
        ensures refusal { result ≡ refusal (member_fault W.is_linked (nameable_table W.width W.unlinked self.now) (place_of at) ∷ []) }
        ensures refused { (result ≢ OK) × (result ≢ NULL) }
    {
        let fault = self.member_fault(place_of(at));
        if fault != OK {
            return fault;
        }
        BROKEN
    }

    /// Returns why a call at the members `one` and `other` is refused: the first fault of the two, or else [`BROKEN`]. O(1).
    #[cold]
    #[inline(never)]
    pub fn refusal_at_both(&self, one: u32, other: u32) -> u32
        ensures refusal { result ≡ refusal (member_fault W.is_linked (nameable_table W.width W.unlinked self.now) (place_of one)
            ∷ member_fault W.is_linked (nameable_table W.width W.unlinked self.now) (place_of other) ∷ []) }
        ensures refused { (result ≢ OK) × (result ≢ NULL) }
    {
        let fault = self.member_fault(place_of(one));
        if fault != OK {
            return fault;
        }
        let fault = self.member_fault(place_of(other));
        if fault != OK {
            return fault;
        }
        BROKEN
    }

    /// Returns why `place` is not inserted at the member `at`: the fault of `at`, else the fault of `place`, or else [`BROKEN`]. O(1).
    #[cold]
    #[inline(never)]
    pub fn refusal(&self, at: u32, place: u32) -> u32
        ensures refusal { result ≡ refusal (member_fault W.is_linked (nameable_table W.width W.unlinked self.now) (place_of at)
            ∷ place_fault W.is_linked (nameable_table W.width W.unlinked self.now) (place_of place) ∷ []) }
        ensures refused { (result ≢ OK) × (result ≢ NULL) }
    {
        let fault = self.member_fault(place_of(at));
        if fault != OK {
            return fault;
        }
        let fault = self.place_fault(place_of(place));
        if fault != OK {
            return fault;
        }
        BROKEN
    }
}

/// Returns why `place` is not inserted at an end of a list: the fault of `place`, or else [`BROKEN`]. O(1).
///
/// The function borrows the words instead of the view, so that the compiler keeps no view in memory for a refused call.
#[cold]
#[inline(never)]
pub(crate) fn refusal_at_end<W: Words>(words: &mut [W], place: u32) -> u32
    ensures refusal { result ≡ refusal (place_fault W.is_linked (table_of W.unlinked (nameable W.width words.old)) (place_of place) ∷ []) }
    ensures refused { (result ≢ OK) × (result ≢ NULL) }
    ensures kept { words.new ≡ words.old }
{
    RawTable::new(words).refusal(NONE, place)
}

impl<W: Words> LinkOps for RawTable<'_, W> {
    ghost use Rattle.ic_link_ops.specs.EntryLaws.{linked_in_range};
    ghost use Rattle.ic_link_ops.specs.Prelude.{TraceIs, HasRoom, nameable_has_room};
    ghost use Rattle.ic_link_ops.specs.StepLaws.{replays_on};
    ghost use Rattle.std.proofs.Common.{ap, refl};

    type Entry = W;

    ghost table = { nameable_table W.width W.unlinked };

    ghost linked = { W.is_linked };

    ghost CanName = { HasRoom W.width };

    ghost Trace = { λ old new s. TraceIs W.is_linked (nameable_table W.width W.unlinked old) (nameable_table W.width W.unlinked new) s };

    ghost Refused = { λ old new p. IsLinked W.is_linked (nameable_table W.width W.unlinked old) p × (new ≡ old) };

    #[inline]
    fn acquire_link(&mut self, place: Place) -> bool {
        let index = self.slot(place);
        if self.entries[index].is_linked() {
            return false;
        }
        let words = &mut self.entries[index];
        words.link();
        true
    }

    #[inline]
    fn release_link(&mut self, place: Place) {
        let index = self.slot_of_linked(place);
        let words = &mut self.entries[index];
        words.unlink();
    }

    ghost linked_is_covered = { λ t p h. linked_in_range W.is_linked W.unlinked W.starts_unlinked (nameable W.width (raw_entries t)) (index_of p) h };

    ghost covered_has_name = { λ t p covered. nameable_has_room W.width (raw_entries t) p covered };

    ghost does_nothing = { λ t q. refl };

    ghost does_on = { λ a b c s t h k. replays_on W.is_linked s t (nameable_table W.width W.unlinked a) (nameable_table W.width W.unlinked b) (nameable_table W.width W.unlinked c) h k };

    ghost does_replay = { λ old new s h. h };

    ghost refused_keeps = { λ old new p h. ap (nameable_table W.width W.unlinked) h.1 };
}

impl<W: PrevPlace> LinkedListOps for RawTable<'_, W> {
    ghost use Rattle.std.specs.Prelude.{refl};
    ghost use Rattle.ic_raw.specs.Tables.{neighbors_of};

    ghost neighbors = { neighbors_of W.next_word W.is_linked W.prev };

    #[inline]
    fn next(&self, place: Place) -> Option<Place> {
        self.at(place).next_word().place()
    }

    #[inline]
    fn prev(&self, place: Place) -> Option<Place> {
        self.at(place).prev()
    }

    #[inline]
    fn set_next(&mut self, place: Place, next: Option<Place>) {
        let index = self.slot_of_linked(place);
        let words = &mut self.entries[index];
        words.set_next_word(Word::of(next));
    }

    #[inline]
    fn set_prev(&mut self, place: Place, prev: Option<Place>) {
        let index = self.slot_of_linked(place);
        let words = &mut self.entries[index];
        words.set_prev(prev);
    }

    ghost linked_alike = { λ e. refl };
}

impl<W: NextWord> SinglyLinkedListOps for RawTable<'_, W> {
    ghost use Rattle.std.specs.Prelude.{refl};
    ghost use Rattle.ic_raw.specs.Tables.{successor_of};

    ghost successor = { successor_of W.next_word W.is_linked };

    #[inline]
    fn next(&self, place: Place) -> Option<Place> {
        self.at(place).next_word().place()
    }

    #[inline]
    fn set_next(&mut self, place: Place, next: Option<Place>) {
        let index = self.slot_of_linked(place);
        let words = &mut self.entries[index];
        words.set_next_word(Word::of(next));
    }

    ghost linked_alike = { λ e. refl };
}

impl<W: NextWord> XorLinkedListOps for RawTable<'_, W> {
    ghost use Rattle.ic_link_ops.specs.XorLaws.{joins_symmetric, joins_one_other, joins_finds_other};
    ghost use Rattle.ic_raw.specs.Tables.{joins_of, other_of};

    ghost HasNeighbors = { joins_of W.next_word };

    ghost other = { other_of W.next_word };

    #[inline]
    fn next(&self, place: Place, prev: Option<Place>) -> Option<Place> {
        self.at(place).next_word().other(prev)
    }

    #[inline]
    fn prev(&self, place: Place, next: Option<Place>) -> Option<Place> {
        self.at(place).next_word().other(next)
    }

    #[inline]
    fn set(&mut self, place: Place, prev: Option<Place>, next: Option<Place>) {
        let index = self.slot_of_linked(place);
        let words = &mut self.entries[index];
        words.set_next_word(Word::between(prev, next));
    }

    #[inline]
    fn replace_next_or_prev(&mut self, place: Place, old: Option<Place>, new: Option<Place>) {
        let index = self.slot_of_linked(place);
        let words = &mut self.entries[index];
        let word = words.next_word();
        words.set_next_word(word.replaced(old, new));
    }

    ghost symmetric = { λ e a b j. joins_symmetric (W.next_word e) a b j };

    ghost one_other = { λ e a b c j k. joins_one_other (W.next_word e) a b c j k };

    ghost finds_other = { λ e a b j. joins_finds_other (W.next_word e) a b j };
}
