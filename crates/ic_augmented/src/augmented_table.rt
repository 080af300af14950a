//! A table stores a value and a summary for each place in one `Vec`, for all values whose summaries can be joined.
//!
//! ```text
//! let mut lengths = Greatest::new(alloc); // the values are numbers, and each summary is the greatest
//! lengths.cover(1000)?; // the only call that takes memory
//! ```

ghost use Rattle.std.specs.Prelude.{◌≡◌, ◌≢◌, ◌<◌, ◌≤◌, ◌↔◌, ⊤, Err, OnOk, OnErr, IsOk, IsTrue, IfSome, max, Option, Some, List};
ghost use Rattle.ic_link_ops.specs.Prelude.{Place, index_of, IsAbsent, times_in};
ghost use Rattle.ic_link_ops.specs.declared.errors.CoverError.TheVariants as CoverError;
ghost use Rattle.ic_augmented.specs.Beside.{IsWrittenWithin};
ghost use Rattle.ic_augmented.specs.Changes.{Rejoins};
ghost use Rattle.ic_augmented.specs.Consistent.{IsConsistent, IsSameAt};
ghost use Rattle.ic_augmented.specs.AugmentedTables.{joined, room_of, value_of};
ghost use Rattle.ic_augmented.specs.Augmented.{links_of, summaries_of};
ghost use Rattle.ic_augmented.specs.Summaries.{seen, Writes};

use crate::augmented::Augmented;
use crate::stale::invalidate_up;
use crate::summaries::{RecomputeSummaries, Summaries};
use ic_link_ops::{CoverError, PlaceWord};
use ic_rbtree::NodeStore;
use ic_unsafe_ref::Place;
use std::alloc::{AllocError, Allocator, Global};

/// A type of values that have summaries. The summary of a subtree is computed from its root's value and from the summaries of the two subtrees below the
/// root.
pub trait Summarize<S>: Copy + Drop {
    // The value that a place has until another one is set.
    ghost initial: { Self };

    // The summary of a subtree, computed from its root's value and from the summaries of its left and its right subtree.
    ghost join: { Self → Option S → Option S → S };

    /// The value that a place has until another one is set.
    fn initial() -> Self
        ensures { result ≡ initial };

    /// Computes the summary of a subtree from its root's value and from the summaries of the left and the right subtree. The summary of a side without
    /// members is `None`.
    fn join(self, left: Option<S>, right: Option<S>) -> S
        ensures { result ≡ join self left right };

    /// Computes the new summary of a subtree from its old summary `was`, if the summary on one side has changed from `from` to `to`. Returns `None` if
    /// these three summaries do not determine the new one.
    fn rejoin(self, was: S, from: S, to: S) -> Option<S>
        ensures { IfSome result (Rejoins (join self) from to was) };

    /// Whether two summaries are known to be equal. If it returns false, they may still be equal.
    fn is_same(a: &S, b: &S) -> bool
        ensures { IsTrue result → a.now ≡ b.now };

    // The law: if two values give equal summaries with each pair of summaries of two subtrees, the values are equal.
    ghost tells: { (x y : Self) → ((a b : Option S) → join x a b ≡ join y a b) → x ≡ y };
}

/// The cell of a place has its value, the summary of the subtree there, and the stored parent. The stored parent is the parent that the place had when the
/// summary was written. If the summary is stale, the cell has no summary.
///
/// A copy of a cell belongs to no place, so it has the initial value and no summary.
#[derive(Drop)]
pub struct Cell<V, S> {
    value: V,
    summary: Option<S>,
    upper: PlaceWord,
}

impl<V: Summarize<S>, S: Drop> Cell<V, S> {
    ghost use Rattle.ic_augmented.specs.AugmentedTables.{blank};

    fn blank() -> Cell<V, S>
        ensures { result ≡ blank V.initial }
    {
        Cell {
            value: V::initial(),
            summary: None,
            upper: PlaceWord::of(None),
        }
    }
}

impl<V: Summarize<S>, S: Drop> Clone for Cell<V, S> {
    ghost use Rattle.ic_augmented.specs.AugmentedTables.{blank};

    ghost is_clone = { λ _ copy. copy ≡ blank V.initial };

    ghost is_infallible = { λ _. ⊤ };

    /// Makes a cell with the initial value and no summary. It never fails.
    fn clone(&self) -> Result<Self, AllocError> {
        Ok(Cell::blank())
    }
}

/// A table that stores a value and a summary for each place.
#[derive(Drop)]
pub struct AugmentedTable<V, S, A: Allocator = Global> {
    pub(crate) cells: Vec<Cell<V, S>, A>,
}

impl<V: Summarize<S>, S: Copy + Drop, A: Allocator> AugmentedTable<V, S, A> {
    ghost use Rattle.ic_augmented.specs.AugmentedTables.{joined, room_of, value_of};

    /// Makes a table that has room for no place. It takes no memory. O(1).
    pub fn new(alloc: A) -> AugmentedTable<V, S, A>
        ensures { room_of result ≡ 0 }
    {
        AugmentedTable {
            cells: Vec::new(alloc),
        }
    }

    /// Makes room for the first `count` places. The new places have the initial value and no summary.
    ///
    /// The call is refused if `count` is above 4,294,967,296, or if there is no memory. A refused call makes no room. All values and summaries stay. If
    /// there is already room for `count` places, nothing changes. It makes at most one request for memory. O(n) in the places that are new.
    pub fn cover(&mut self, count: usize) -> Result<(), CoverError>
        ensures too_many { (result ≡ Err CoverError.TooManyPlaces) ↔ 4294967296 < count }
        ensures covers { OnOk result (room_of self.new ≡ max (room_of self.old) count) }
        ensures values { (q : Place) → value_of V.initial self.new q ≡ value_of V.initial self.old q }
        ensures stays { (q : Place) → IsSameAt (joined V.join V.initial self.old) (joined V.join V.initial self.new) q }
        ensures enough { count ≤ room_of self.old → count ≤ 4294967296 → IsOk result }
        ensures refused { OnErr result (room_of self.new ≡ room_of self.old) }
    {
        if count > Place::COUNT {
            return Err(CoverError::TooManyPlaces);
        }
        if count <= self.cells.len() {
            return Ok(());
        }
        match self.cells.resize(count, Cell::blank()) {
            Ok(()) => Ok(()),
            Err(_) => Err(CoverError::OutOfMemory),
        }
    }

    /// The value of `place`, or the initial value if there is no room for the place. O(1).
    #[inline]
    pub fn value(&self, place: Place) -> V
        ensures { result ≡ value_of V.initial self.now place }
    {
        let index = place.index();
        if index < self.cells.len() {
            self.cells[index].value
        } else {
            V::initial()
        }
    }

    /// The stored summary of the subtree at the place `end`. It is `None` if the summary is stale or `end` is `None`. O(1).
    #[inline]
    pub fn summary(&self, end: Option<Place>) -> Option<S>
        ensures { result ≡ seen (joined V.join V.initial self.now) end }
    {
        let place = end?;
        let index = place.index();
        if index < self.cells.len() {
            self.cells[index].summary
        } else {
            None
        }
    }
}

impl<V: Summarize<u64>, A: Allocator> AugmentedTable<V, u64, A> {
    ghost use Rattle.ic_augmented.specs.AugmentedTables.{joined, or_zero};

    /// The stored summary, a number, of the subtree at the place `end`. It is 0 if the summary is stale or `end` is `None`. O(1).
    #[inline]
    pub fn total(&self, end: Option<Place>) -> u64
        ensures { result ≡ or_zero (seen (joined V.join V.initial self.now) end) }
    {
        self.summary(end).unwrap_or(0)
    }
}

impl<V: Summarize<S>, S: Copy + Drop, A: Allocator> Summaries for AugmentedTable<V, S, A> {
    ghost use Rattle.ic_augmented.specs.AugmentedTables.{joined, room_of, is_kept};
    ghost use Rattle.std.specs.List.{sum_by};

    type Summary = S;

    ghost summaries = { joined V.join V.initial };

    ghost Covers = { λ t p. index_of p < room_of t };

    ghost count = { λ t. sum_by (λ cell. is_kept cell.summary) t.cells.items };

    #[inline]
    fn is_fresh(&self, place: Place) -> bool {
        self.summary(Some(place)).is_some()
    }

    #[inline]
    fn upper(&self, place: Place) -> Option<Place> {
        let index = place.index();
        if index < self.cells.len() {
            self.cells[index].upper.get()
        } else {
            None
        }
    }

    #[inline]
    fn invalidate(&mut self, place: Place) {
        let index = place.index();
        if index < self.cells.len() {
            let cell = &mut self.cells[index];
            cell.summary = None;
        }
    }
}

impl<V: Summarize<S>, S: Copy + Drop, A: Allocator> RecomputeSummaries for AugmentedTable<V, S, A> {
    #[inline]
    fn adopt(&mut self, place: Place, upper: Option<Place>) -> Option<S> {
        let index = place.index();
        let cell = &self.cells[index];
        let summary = cell.summary?;
        let adopted = &mut self.cells[index];
        adopted.upper = PlaceWord::of(upper);
        Some(summary)
    }

    #[inline]
    fn fresh(&self, place: Place) -> Option<S> {
        self.summary(Some(place))
    }

    #[inline]
    fn rejoin(&mut self, place: Place, from: S, to: S, upper: Option<Place>) -> Option<(S, S)> {
        let index = place.index();
        let cell = &self.cells[index];
        let was = cell.summary?;
        let is = cell.value.rejoin(was, from, to)?;
        let recomputed = &mut self.cells[index];
        // `recomputed.summary` is `Some` already, so only the summary inside it is written.
        if let Some(summary) = &mut recomputed.summary {
            *summary = is;
        }
        recomputed.upper = PlaceWord::of(upper);
        Some((was, is))
    }

    #[inline]
    fn is_same(a: &S, b: &S) -> bool {
        V::is_same(a, b)
    }

    #[inline]
    fn write(&mut self, place: Place, left: Option<S>, right: Option<S>, upper: Option<Place>) -> S
        requires covered { index_of place < room_of self.old }
        ensures covers { (q : Place) → index_of q < room_of self.old → index_of q < room_of self.new }
        ensures summary { result ≡ (joined V.join V.initial self.old).join place left right }
        ensures written { Writes (joined V.join V.initial self.old) (joined V.join V.initial self.new) place
            (Some ((joined V.join V.initial self.old).join place left right)) upper }
    {
        let cell = &mut self.cells[place.index()];
        let summary = cell.value.join(left, right);
        cell.summary = Some(summary);
        cell.upper = PlaceWord::of(upper);
        summary
    }
}

/// Sets the value of `place`, and makes each summary stale that depends on the value.
///
/// It requires that there is room for the place. Each fresh summary of every tree in the table stays right. Summaries of other trees also stay fresh, if the
/// parents that are stored in the place's tree are members of this tree. In a summed tree they are. O(log n).
pub fn set_value<N: NodeStore, V: Summarize<S>, S: Copy + Drop, A: Allocator>(
    summed: &mut Augmented<N, AugmentedTable<V, S, A>>,
    place: Place,
    value: V,
)
    requires covered { index_of place < room_of (summaries_of summed.old) }
    ensures set { value_of V.initial (summaries_of summed.new) place ≡ value }
    ensures values { (q : Place) → q ≢ place → value_of V.initial (summaries_of summed.new) q ≡ value_of V.initial (summaries_of summed.old) q }
    ensures consistent { (s : List Place)
        → IsConsistent N.node (N.table (links_of summed.old)) (joined V.join V.initial (summaries_of summed.old)) s
        → IsConsistent N.node (N.table (links_of summed.new)) (joined V.join V.initial (summaries_of summed.new)) s }
    ensures same { (s : List Place) → 1 ≤ times_in place s → IsWrittenWithin (joined V.join V.initial (summaries_of summed.old)) s
        → (q : Place) → IsAbsent q s → IsSameAt (joined V.join V.initial (summaries_of summed.old)) (joined V.join V.initial (summaries_of summed.new)) q }
    ensures covers { (q : Place) → index_of q < room_of (summaries_of summed.old) → index_of q < room_of (summaries_of summed.new) }
    ensures links { links_of summed.new ≡ links_of summed.old }
{
    invalidate_up(&summed.links, &mut summed.summaries, place);
    let cell = &mut summed.summaries.cells[place.index()];
    cell.value = value;
}
