//! A store of summaries is kept beside the links of a tree.
//!
//! ```text
//! summaries.invalidate(place); // its summary is stale now
//! ```

ghost use Rattle.std.specs.Prelude.{◌≡◌, ◌<◌, ℕ, true, Some, IfSome, IfNone, IsTrue};
ghost use Rattle.ic_unsafe_ref.specs.declared.place.Place.{Place};
ghost use Rattle.ic_augmented.specs.Changes.{Rejoins};
ghost use Rattle.ic_augmented.specs.Summaries as specs;
ghost use Rattle.ic_augmented.specs.Summaries.{is_fresh, Invalidates, Writes};

use ic_unsafe_ref::Place;

/// A store with a summary and a stored parent for each place. The summary is fresh or stale, and the stored parent is the parent that the place had when the
/// summary was written.
pub trait Summaries {
    /// The type of a subtree's summary.
    type Summary: Drop;

    // The stored summary and parent of each place, and the function that computes a place's summary from the summaries of its two subtrees.
    ghost summaries: { Self → specs.Summaries Self.Summary };

    // `Covers t p`: the store t has room for a summary of the place p.
    ghost Covers: { Self → Place → Type 0 };

    // The number of places whose summary is fresh.
    ghost count: { Self → ℕ };

    /// Whether the summary of `place` is fresh. O(1).
    fn is_fresh(&self, place: Place) -> bool
        ensures { result ≡ is_fresh ((summaries self.now).fresh place) };

    /// The parent that `place` had when its summary was written. O(1).
    fn upper(&self, place: Place) -> Option<Place>
        ensures { result ≡ (summaries self.now).upper place };

    /// Makes the summary of `place` stale. O(1).
    fn invalidate(&mut self, place: Place)
        ensures covers { (q : Place) → Covers self.old q → Covers self.new q }
        ensures invalidated { Invalidates (summaries self.old) (summaries self.new) place }
        ensures fewer { is_fresh ((summaries self.old).fresh place) ≡ true → count self.new < count self.old };
}

/// A store whose summaries can be recomputed.
pub trait RecomputeSummaries: Summaries {
    /// Stores `upper` as the parent of `place`, and returns the summary of `place`. If the summary is stale, it returns `None` and changes nothing. It
    /// requires room for a summary of `place`. O(1).
    fn adopt(&mut self, place: Place, upper: Option<Place>) -> Option<Self::Summary>
        requires covered { Self.Covers self.old place }
        ensures covers { (q : Place) → Self.Covers self.old q → Self.Covers self.new q }
        ensures summary { result ≡ (Self.summaries self.old).fresh place }
        ensures written { IfSome result (λ summary. Writes (Self.summaries self.old) (Self.summaries self.new) place ((Self.summaries self.old).fresh place) upper) }
        ensures kept { IfNone result (self.new ≡ self.old) };

    /// The summary of `place`, or `None` if the summary is stale. O(1).
    fn fresh(&self, place: Place) -> Option<Self::Summary>
        ensures { result ≡ (Self.summaries self.now).fresh place };

    /// Recomputes the summary of `place`, if the summary of one subtree has changed from `from` to `to`. It sets the parent of `place`, and returns the
    /// old and the new summary. It returns `None`, and changes nothing, if the summary is stale or cannot be computed from the old summary and this change
    /// alone. It requires room for a summary of `place`. O(1).
    fn rejoin(
        &mut self,
        place: Place,
        from: Self::Summary,
        to: Self::Summary,
        upper: Option<Place>,
    ) -> Option<(Self::Summary, Self::Summary)>
        requires covered { Self.Covers self.old place }
        ensures covers { (q : Place) → Self.Covers self.old q → Self.Covers self.new q }
        ensures was { IfSome result (λ change. (Self.summaries self.old).fresh place ≡ Some change.0) }
        ensures written { IfSome result (λ change. Writes (Self.summaries self.old) (Self.summaries self.new) place (Some change.1) upper) }
        ensures is { IfSome result (λ change. Rejoins ((Self.summaries self.old).join place) from to change.0 change.1) }
        ensures kept { IfNone result (self.new ≡ self.old) };

    /// Whether two summaries are known to be equal. If it returns false, they may still be equal. O(1).
    fn is_same(a: &Self::Summary, b: &Self::Summary) -> bool
        ensures { IsTrue result → a.now ≡ b.now };

    /// Computes the summary of `place` from the place's value and the given summaries of both subtrees, writes the summary and returns it. It requires
    /// room for a summary of `place`. O(1).
    fn write(
        &mut self,
        place: Place,
        left: Option<Self::Summary>,
        right: Option<Self::Summary>,
        upper: Option<Place>,
    ) -> Self::Summary
        requires covered { Self.Covers self.old place }
        ensures covers { (q : Place) → Self.Covers self.old q → Self.Covers self.new q }
        ensures summary { result ≡ (Self.summaries self.old).join place left right }
        ensures written { Writes (Self.summaries self.old) (Self.summaries self.new) place (Some ((Self.summaries self.old).join place left right)) upper };
}
