//! The plain table stores links of any kind.
//!
//! ```text
//! let mut links = linked_list::LinkOps::new(rt.alloc());
//! links.cover(3)?;
//! links.is_linked(place) // false, for each of the three places
//! ```

ghost use Rattle.std.specs.Prelude.{◌≡◌, ◌<◌, ◌≤◌, ◌↔◌, length, max, OnOk, OnErr, IsOk, Err};
ghost use Rattle.std.specs.Bool.{OnTrue, OnFalse};
ghost use Rattle.ic_link_ops.specs.Base.{Place, IsCovered, IsLinked, IsUnlinked, ChangesOnly};

use crate::errors::CoverError;
use crate::link::{Link, Words};
use crate::link_ops::LinkOps;
use crate::link_value::LinkValue;
use ic_unsafe_ref::Place;
use std::alloc::{Allocator, Global};

/// A table with one link for each place that it covers, in one `Vec`. The table's type says whether a value is stored beside each
/// link.
///
/// Each kind of collection has its own plain table with the name `LinkOps`. A kind of collection can use a table if the words of
/// the table can store the links of this kind.
#[derive(Drop)]
pub struct PlainTable<W, A: Allocator = Global, V = ()> {
    pub(crate) entries: Vec<Link<W, V>, A>,
}

impl<W: Words, A: Allocator, V: LinkValue> PlainTable<W, A, V> {
    ghost use Rattle.ic_unsafe_ref.specs.Places.{index_of};
    ghost use Rattle.ic_link_ops.specs.Links.{link_with};
    ghost use Rattle.ic_link_ops.specs.PlainTables.{entries, entry_at, table_beside, linked_by};
    ghost use Rattle.ic_link_ops.specs.LentTables.{LendsLinks};
    ghost use Rattle.ic_link_ops.specs.Widths.{most_places};
    ghost use Rattle.std.specs.Borrow.{sem};

    /// A new table that covers no place and takes no memory. O(1).
    pub fn new(alloc: A) -> PlainTable<W, A, V>
        ensures { (table_beside W.width W.unlinked V.initial V.printed result).extent.places ≡ 0 }
    {
        PlainTable {
            entries: Vec::new(alloc),
        }
    }

    /// The number of places that the table covers. A place is covered if its index is smaller than this number. O(1).
    #[inline]
    #[tactic(auto, using(crate::proofs::WidthLemmas::nameable_count, crate::proofs::WidthLemmas::nameable_fits, crate::proofs::WidthLemmas::nameable_read, crate::proofs::WidthLemmas::nameable_written))]
    pub fn covers(&self) -> usize
        ensures { result ≡ (table_beside W.width W.unlinked V.initial V.printed self.now).extent.places }
    {
        W::count_nameable(self.entries.len())
    }

    // The index at which the `Vec` stores the link of `place`. The call requires that the table covers `place`.
    #[inline]
    #[tactic(auto, using(crate::proofs::WidthLemmas::nameable_fits))]
    pub(crate) fn slot(&self, place: Place) -> usize
        requires covered { IsCovered (table_beside W.width W.unlinked V.initial V.printed self.now) place }
        ensures value { result ≡ index_of place }
        ensures in_bounds { result < length (entries self.now) }
    {
        place.index()
    }

    // The index at which the `Vec` stores the link of `place`. The call requires that `place` is linked.
    #[inline]
    pub(crate) fn slot_of_linked(&self, place: Place) -> usize
        requires linked { IsLinked (linked_by W.is_linked) (table_beside W.width W.unlinked V.initial V.printed self.now) place }
        ensures value { result ≡ index_of place }
        ensures in_bounds { result < length (entries self.now) }
    {
        place.index()
    }

    /// The link of `place`. The call requires that the table covers `place`. O(1).
    #[inline]
    #[tactic(auto, using(crate::proofs::WidthLemmas::nameable_count, crate::proofs::WidthLemmas::nameable_fits, crate::proofs::WidthLemmas::nameable_read, crate::proofs::WidthLemmas::nameable_written))]
    pub fn link(&self, place: Place) -> &Link<W, V>
        requires covered { IsCovered (table_beside W.width W.unlinked V.initial V.printed self.now) place }
        ensures { result.now ≡ (table_beside W.width W.unlinked V.initial V.printed self.now).entry place }
    {
        &self.entries[place.index()]
    }

    /// Whether `place` is linked. The call requires that the table covers `place`. O(1).
    #[inline]
    #[tactic(auto, using(crate::proofs::WidthLemmas::nameable_count, crate::proofs::WidthLemmas::nameable_fits, crate::proofs::WidthLemmas::nameable_read, crate::proofs::WidthLemmas::nameable_written))]
    pub fn is_linked(&self, place: Place) -> bool
        requires covered { IsCovered (table_beside W.width W.unlinked V.initial V.printed self.now) place }
        ensures { result ≡ linked_by W.is_linked ((table_beside W.width W.unlinked V.initial V.printed self.now).entry place) }
    {
        self.entries[place.index()].is_linked()
    }

    /// Unlinks `place`, whichever call linked it. If `place` is unlinked already, it stays unlinked. The call requires that the
    /// table covers `place`. O(1).
    ///
    /// Every other entry stays, so each collection in which `place` is not a member keeps its sequence. Use this call for objects
    /// that `fast_clear` left linked. The call breaks a collection in which `place` is a member.
    #[inline]
    #[tactic(auto, using(crate::proofs::WidthLemmas::nameable_count, crate::proofs::WidthLemmas::nameable_fits, crate::proofs::WidthLemmas::nameable_read, crate::proofs::WidthLemmas::nameable_written))]
    pub fn force_unlink(&mut self, place: Place)
        requires covered { IsCovered (table_beside W.width W.unlinked V.initial V.printed self.old) place }
        ensures unlinked { IsUnlinked (linked_by W.is_linked) (table_beside W.width W.unlinked V.initial V.printed self.new) place }
        ensures frame { ChangesOnly (table_beside W.width W.unlinked V.initial V.printed self.old) (table_beside W.width W.unlinked V.initial V.printed self.new) place }
    {
        let index = self.slot(place);
        let entry = &mut self.entries[index];
        entry.words.unlink();
    }

    /// Lends the links, in the order of their places. [`LentTable::new`](crate::LentTable::new) makes a table of the lent links.
    ///
    /// When the borrow ends, the table has the links that were written last. O(1).
    #[inline]
    pub fn lend(&mut self) -> &mut [Link<W, V>]
        ensures* writes_back { sem 𝓛 (LendsLinks W.row A.row V.row A.Allocator self.entry result) }
        ensures links { result.now ≡ entries self.old }
    {
        self.entries.as_mut_slice()
    }

    /// Covers the first `count` places, with an unlinked entry for each newly covered place.
    ///
    /// The greatest possible `count` is 4,294,967,296, or 536,870,911 if the words have 4 bytes. The call is refused if `count`
    /// is greater, or if there is no memory. A refused call changes nothing. The entries that exist already stay as they are. If
    /// at least `count` places are covered already, nothing changes. The call requests memory at most once. O(n) in the number of
    /// newly covered places.
    pub fn cover(&mut self, count: usize) -> Result<(), CoverError>
        ensures too_many { (result ≡ Err CoverError.TooManyPlaces) ↔ most_places W.width < count }
        ensures covers { OnOk result ((table_beside W.width W.unlinked V.initial V.printed self.new).extent.places ≡ max (table_beside W.width W.unlinked V.initial V.printed self.old).extent.places count) }
        ensures stays { (q : Place) → (table_beside W.width W.unlinked V.initial V.printed self.new).entry q
            ≡ (table_beside W.width W.unlinked V.initial V.printed self.old).entry q }
        ensures covered { (q : Place) → IsCovered (table_beside W.width W.unlinked V.initial V.printed self.old) q → IsCovered (table_beside W.width W.unlinked V.initial V.printed self.new) q }
        ensures enough { count ≤ (table_beside W.width W.unlinked V.initial V.printed self.old).extent.places → count ≤ most_places W.width → IsOk result }
        ensures refused { OnErr result (entries self.new ≡ entries self.old) }
    {
        if count > W::most_places() {
            return Err(CoverError::TooManyPlaces);
        }
        if count <= self.entries.len() {
            return Ok(());
        }
        if !self.grow(count) {
            return Err(CoverError::OutOfMemory);
        }
        Ok(())
    }

    // Extends the table to `count` links, and returns whether there was memory for the new links. Each new link is unlinked.
    fn grow(&mut self, count: usize) -> bool
        requires more { length (entries self.old) < count }
        ensures grown { OnTrue result (length (entries self.new) ≡ count) }
        ensures stays { (q : Place) → entry_at (link_with W.unlinked V.initial) (entries self.new) q ≡ entry_at (link_with W.unlinked V.initial) (entries self.old) q }
        ensures refused { OnFalse result (entries self.new ≡ entries self.old) }
    {
        self.entries.resize(count, Link::new()).is_ok()
    }
}

impl<W: Words, A: Allocator, V: LinkValue> LinkOps for PlainTable<W, A, V> {
    ghost use Rattle.ic_unsafe_ref.specs.Places.{index_of};
    ghost use Rattle.ic_link_ops.specs.Links.{link_with};
    ghost use Rattle.ic_link_ops.specs.PlainTables.{entries, table_beside, linked_by};
    ghost use Rattle.ic_link_ops.specs.EntryLaws.{linked_in_range};
    ghost use Rattle.ic_link_ops.specs.LinkSteps.{TraceIs};
    ghost use Rattle.ic_link_ops.specs.StepLaws.{replays_on};
    ghost use Rattle.std.proofs.Common.{ap, refl};
    ghost use Rattle.ic_link_ops.specs.Widths.{HasRoom, nameable, nameable_has_room};

    type Entry = Link<W, V>;

    ghost table = { table_beside W.width W.unlinked V.initial V.printed };

    ghost linked = { linked_by W.is_linked };

    ghost CanName = { HasRoom W.width };

    ghost Trace = { λ old new s. TraceIs (linked_by W.is_linked) (table_beside W.width W.unlinked V.initial V.printed old) (table_beside W.width W.unlinked V.initial V.printed new) s };

    ghost Refused = { λ old new p. IsLinked (linked_by W.is_linked) (table_beside W.width W.unlinked V.initial V.printed old) p × (new ≡ old) };

    #[inline]
    fn acquire_link(&mut self, place: Place) -> bool {
        let index = self.slot(place);
        if self.entries[index].is_linked() {
            return false;
        }
        let entry = &mut self.entries[index];
        entry.words.link();
        true
    }

    #[inline]
    fn release_link(&mut self, place: Place) {
        let index = self.slot_of_linked(place);
        let link = &mut self.entries[index];
        link.words.unlink();
    }

    ghost linked_is_covered = { λ t p h. linked_in_range (linked_by W.is_linked) (link_with W.unlinked V.initial) W.starts_unlinked (nameable W.width (entries t)) (index_of p) h };

    ghost covered_has_name = { λ t p covered. nameable_has_room W.width (entries t) p covered };

    ghost does_nothing = { λ t q. refl };

    ghost does_on = { λ a b c s t h k. replays_on (linked_by W.is_linked) s t (table_beside W.width W.unlinked V.initial V.printed a) (table_beside W.width W.unlinked V.initial V.printed b) (table_beside W.width W.unlinked V.initial V.printed c) h k };

    ghost does_replay = { λ old new s h. h };

    ghost refused_keeps = { λ old new p h. ap (table_beside W.width W.unlinked V.initial V.printed) h.1 };
}
