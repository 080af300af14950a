//! A lent table gives access to the links that a plain table lends. A loop over a lent table reads the address of the links only
//! once.
//!
//! ```text
//! fn pop_all(list: &mut LinkedList<Job>, links: &mut [Link]) {
//!     let mut links = LentTable::new(links);
//!     while let Some(job) = list.pop_front(&mut links) { .. }
//! }
//! pop_all(&mut list, table.lend());
//! ```

ghost use Rattle.std.specs.Prelude.{◌≡◌, ◌<◌, length};
ghost use Rattle.ic_link_ops.specs.Base.{Place, IsCovered, IsLinked, IsUnlinked, ChangesOnly};

use crate::link::{Link, Words};
use crate::link_ops::LinkOps;
use crate::link_value::LinkValue;
use ic_unsafe_ref::Place;

/// A table of the links that a plain table lends. The lent table exists for as long as the links are borrowed.
///
/// A lent table has the same link traits as the plain table. Each call on the plain table reads the address of the links. In a
/// loop over the lent table the calls do not read the address again. When the borrow ends, the plain table has the links as the
/// lent table left them. Pass the lent links to a function that contains the loop, as in the example at the top of this file. The
/// contract of this function then states what the links are after the loop.
pub struct LentTable<'a, W, V = ()> {
    pub(crate) entries: &'a mut [Link<W, V>],
}

impl<W, V> Drop for LentTable<'_, W, V> {
    fn drop(self)
        ensures links { self.exit.0.now ≡ self.entry.entries.now }
    {
        let LentTable { entries: _ } = self;
    }
}

impl<'a, W, V> LentTable<'a, W, V> {
    ghost use Rattle.ic_link_ops.specs.LentTables.{IsView};

    /// The lent table of the links that [`PlainTable::lend`](crate::PlainTable::lend) lends. O(1).
    ///
    /// The lent table covers the places of the lent links that its words can name. If the words have 4 bytes, these are at most
    /// the first 536,870,911 places. Words of 8 bytes can name all places.
    #[inline]
    pub fn new(links: &'a mut [Link<W, V>]) -> LentTable<'a, W, V>
        ensures { IsView links.entry result }
    {
        LentTable { entries: links }
    }
}

impl<W: Words, V: LinkValue> LentTable<'_, W, V> {
    ghost use Rattle.ic_unsafe_ref.specs.Places.{index_of};
    ghost use Rattle.ic_link_ops.specs.PlainTables.{linked_by};
    ghost use Rattle.ic_link_ops.specs.LentTables.{lent_entries, lent_table};

    /// The number of places that the table covers. A place is covered if its index is smaller than this number. O(1).
    #[inline]
    #[tactic(auto, using(crate::proofs::WidthLemmas::nameable_count, crate::proofs::WidthLemmas::nameable_fits, crate::proofs::WidthLemmas::nameable_read))]
    pub fn covers(&self) -> usize
        ensures { result ≡ (lent_table W.width W.unlinked V.initial V.printed self.now).extent.places }
    {
        W::count_nameable(self.entries.len())
    }

    // The index at which the lent slice stores the link of `place`. The call requires that the table covers `place`.
    #[inline]
    #[tactic(auto, using(crate::proofs::WidthLemmas::nameable_fits))]
    pub(crate) fn slot(&self, place: Place) -> usize
        requires covered { IsCovered (lent_table W.width W.unlinked V.initial V.printed self.now) place }
        ensures value { result ≡ index_of place }
        ensures in_bounds { result < length (lent_entries self.now) }
    {
        place.index()
    }

    /// The link of `place`. The call requires that the table covers `place`. O(1).
    #[inline]
    #[tactic(auto, using(crate::proofs::WidthLemmas::nameable_count, crate::proofs::WidthLemmas::nameable_fits, crate::proofs::WidthLemmas::nameable_read))]
    pub fn link(&self, place: Place) -> &Link<W, V>
        requires covered { IsCovered (lent_table W.width W.unlinked V.initial V.printed self.now) place }
        ensures { result.now ≡ (lent_table W.width W.unlinked V.initial V.printed self.now).entry place }
    {
        let entries = &*self.entries;
        &entries[place.index()]
    }

    /// Whether `place` is linked. The call requires that the table covers `place`. O(1).
    #[inline]
    pub fn is_linked(&self, place: Place) -> bool
        requires covered { IsCovered (lent_table W.width W.unlinked V.initial V.printed self.now) place }
        ensures { result ≡ linked_by W.is_linked ((lent_table W.width W.unlinked V.initial V.printed self.now).entry place) }
    {
        self.link(place).is_linked()
    }

    /// Unlinks `place`, whichever call linked it, as [`PlainTable::force_unlink`](crate::PlainTable::force_unlink)
    /// does. O(1).
    #[inline]
    pub fn force_unlink(&mut self, place: Place)
        requires covered { IsCovered (lent_table W.width W.unlinked V.initial V.printed self.old) place }
        ensures unlinked { IsUnlinked (linked_by W.is_linked) (lent_table W.width W.unlinked V.initial V.printed self.new) place }
        ensures frame { ChangesOnly (lent_table W.width W.unlinked V.initial V.printed self.old) (lent_table W.width W.unlinked V.initial V.printed self.new) place }
    {
        let index = self.slot(place);
        let link = &mut self.entries[index];
        link.words.unlink();
    }
}

impl<W: Words, V: LinkValue> LinkOps for LentTable<'_, W, V> {
    ghost use Rattle.ic_unsafe_ref.specs.Places.{index_of};
    ghost use Rattle.ic_link_ops.specs.Links.{link_with};
    ghost use Rattle.ic_link_ops.specs.PlainTables.{linked_by};
    ghost use Rattle.ic_link_ops.specs.LentTables.{lent_entries, lent_table};
    ghost use Rattle.ic_link_ops.specs.EntryLaws.{linked_in_range};
    ghost use Rattle.ic_link_ops.specs.LinkSteps.{TraceIs};
    ghost use Rattle.ic_link_ops.specs.StepLaws.{replays_on};
    ghost use Rattle.std.proofs.Common.{ap, refl};
    ghost use Rattle.ic_link_ops.specs.Widths.{HasRoom, nameable, nameable_has_room};

    type Entry = Link<W, V>;

    ghost table = { lent_table W.width W.unlinked V.initial V.printed };

    ghost linked = { linked_by W.is_linked };

    ghost CanName = { HasRoom W.width };

    ghost Trace = { λ old new s. TraceIs (linked_by W.is_linked) (lent_table W.width W.unlinked V.initial V.printed old) (lent_table W.width W.unlinked V.initial V.printed new) s };

    ghost Refused = { λ old new p. IsLinked (linked_by W.is_linked) (lent_table W.width W.unlinked V.initial V.printed old) p × (new ≡ old) };

    #[inline]
    fn acquire_link(&mut self, place: Place) -> bool {
        let index = self.slot(place);
        if self.entries[index].is_linked() {
            return false;
        }
        let link = &mut self.entries[index];
        link.words.link();
        true
    }

    #[inline]
    fn release_link(&mut self, place: Place) {
        self.force_unlink(place);
    }

    ghost linked_is_covered = { λ t p h. linked_in_range (linked_by W.is_linked) (link_with W.unlinked V.initial) W.starts_unlinked (nameable W.width (lent_entries t)) (index_of p) h };

    ghost covered_has_name = { λ t p covered. nameable_has_room W.width (lent_entries t) p covered };

    ghost does_nothing = { λ t q. refl };

    ghost does_on = { λ a b c s t h k. replays_on (linked_by W.is_linked) s t (lent_table W.width W.unlinked V.initial V.printed a) (lent_table W.width W.unlinked V.initial V.printed b) (lent_table W.width W.unlinked V.initial V.printed c) h k };

    ghost does_replay = { λ old new s h. h };

    ghost refused_keeps = { λ old new p h. ap (lent_table W.width W.unlinked V.initial V.printed) h.1 };
}
