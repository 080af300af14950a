//! Tables of links for objects that threads share: a table claims a place before it links the place.
//!
//! ```text
//! let mut links = linked_list::AtomicLinkOps::new(&claims, holder, table);
//! list.push_back(&mut links, object)?; // Err where any party holds the object's place
//! links.holds(place) // whether this party does
//! let (holder, table) = links.into_parts();
//! ```

ghost use Rattle.std.specs.Prelude.{◌≡◌, ◌≤◌, List, [], ◌∷◌, ◌++◌, true, false, if◌then◌else◌};
ghost use Rattle.ic_link_ops.specs.Prelude.{Place, IsCovered, IsUnlinked, ChangesOnly, releases};
ghost use Rattle.ic_atomic.specs.Records.{event, holds};
ghost use Rattle.ic_atomic.specs.Holders.{places_of, IsSeatOf, hand_of, hand_with, record_of, IsOf};

use crate::claims::{Claims, Holder};
use crate::plain_link_ops::PlainLinkOps;
use ic_link_ops::LinkOps;
use ic_unsafe_ref::Place;
use std::alloc::{Allocator, Global};

/// A table of links whose linked places are exactly the places that its holder holds.
///
/// The table refuses a link exactly if some holder, living or dropped, holds the place. Each link is one claim by the table's holder, and each unlink is one
/// release. No other thread reads or writes the entries of the table, so no call waits. If the table is dropped, the places that its holder holds stay held.
#[derive(Drop)]
pub struct AtomicLinkOps<'c, L: PlainLinkOps, A: Allocator = Global> {
    claims: &'c Claims<A>,
    holder: Holder,
    pub(crate) links: L,
    ghost table: { IsSeatOf claims.now holder.seat },
    ghost hand: { hand_of holder.seat ≡ hand_with claims.now (record_of holder ∷ []) },
    ghost covered: { (L.LinkOps.table links).extent.places ≤ places_of claims.now },
    ghost held: { (p : Place) → L.LinkOps.linked ((L.LinkOps.table links).entry p) ≡ holds p (record_of holder) },
}

impl<'c, L: PlainLinkOps, A: Allocator> AtomicLinkOps<'c, L, A> {
    ghost use Rattle.ic_atomic.specs.AtomicLinks.{claims_of, holder_of, record_in, links_of, Gains};
    ghost use Rattle.ic_atomic.specs.declared.step.Step.TheVariants.{Look};

    /// Makes a table of claimed places from a table of links, the claims, and the holder that claims the places.
    ///
    /// The call requires that the holder was made with the claims and holds nothing. The table of links must have no linked place, and may cover only places of
    /// the claims. O(1).
    pub fn new(claims: &'c Claims<A>, holder: Holder, links: L) -> AtomicLinkOps<'c, L, A>
        requires made { IsOf claims.now holder }
        requires covered { (L.table links).extent.places ≤ places_of claims.now }
        requires holds_nothing { (p : Place) → holds p (record_of holder) ≡ false }
        requires links_nothing { (p : Place) → IsUnlinked L.linked (L.table links) p }
        ensures claims { claims_of result ≡ claims.now }
        ensures holder { holder_of result ≡ holder }
        ensures links { links_of result ≡ links }
    {
        AtomicLinkOps {
            claims,
            holder,
            links,
        }
    }

    /// Returns the number of places that the table covers. A place is covered if its index is smaller than this number. O(1).
    #[inline]
    pub fn covers(&self) -> usize
        ensures { result ≡ (L.table (links_of self.now)).extent.places }
    {
        self.links.covers()
    }

    /// Returns whether the holder of this table holds `place`. The holder holds a place exactly if this table links the place. The call requires that the table
    /// covers the place. O(1).
    #[inline]
    pub fn holds(&self, place: Place) -> bool
        requires covered { IsCovered (L.table (links_of self.now)) place }
        ensures linked { result ≡ L.linked ((L.table (links_of self.now)).entry place) }
        ensures held { result ≡ holds place (record_in self.now) }
    {
        self.links.is_linked(place)
    }

    /// Returns whether any holder holds `place`: the holder of this table or another, living or dropped. The call is a look, which is a step of this table's
    /// holder.
    ///
    /// The call requires that the table covers the place. The result may be out of date when the call returns, unless this table's holder holds the place. The
    /// call makes one load, O(1), and waits for no other thread.
    #[inline]
    pub fn is_linked(&mut self, place: Place) -> bool
        requires covered { IsCovered (L.table (links_of self.old)) place }
        ensures step { record_in self.new ≡ record_in self.old ++ event (Look place) (if result then 1 else 0) ∷ [] }
        ensures claims { claims_of self.new ≡ claims_of self.old }
        ensures links { links_of self.new ≡ links_of self.old }
    {
        let AtomicLinkOps {
            claims,
            holder,
            links: _,
        } = self;
        claims.look(holder, place)
    }

    /// Unlinks `place`, which the holder of this table holds, and releases the place.
    ///
    /// The call requires that the holder of this table holds the place. The other entries stay as they are, so each collection without this member keeps its
    /// sequence. O(1).
    #[inline]
    pub fn force_unlink(&mut self, place: Place)
        requires held { holds place (record_in self.old) ≡ true }
        ensures released { Gains L.Trace self.old self.new (releases place ∷ []) }
        ensures frame { ChangesOnly (L.table (links_of self.old)) (L.table (links_of self.new)) place }
    {
        self.release_link(place);
    }

    /// Returns the holder, with its record, and the table of links. The table still links the places that the holder holds. O(1).
    pub fn into_parts(self) -> (Holder, L)
        ensures made { IsOf (claims_of self.entry) result.0 }
        ensures holder { result.0 ≡ holder_of self.entry }
        ensures links { result.1 ≡ links_of self.entry }
        ensures held { (p : Place) → L.linked ((L.table result.1).entry p) ≡ holds p (record_of result.0) }
    {
        let AtomicLinkOps {
            claims: _,
            holder,
            links,
        } = self;
        (holder, links)
    }
}

impl<L: PlainLinkOps, A: Allocator> LinkOps for AtomicLinkOps<'_, L, A> {
    ghost use Rattle.std.proofs.Common.{ap};
    ghost use Rattle.ic_atomic.specs.AtomicLinks.{links_of, Gains, Fails};
    ghost use Rattle.ic_atomic.specs.AtomicLinkLaws.{gains_nothing, gains_on};

    type Entry = L::Entry;

    ghost table = { λ t. L.table (links_of t) };

    ghost linked = { L.linked };

    ghost CanName = { L.CanName };

    ghost Trace = { Gains L.Trace };

    ghost Refused = { Fails };

    #[inline]
    fn acquire_link(&mut self, place: Place) -> bool {
        let AtomicLinkOps {
            claims,
            holder,
            links,
        } = self;
        claims.claim(holder, place) && links.acquire_link(place)
    }

    #[inline]
    fn release_link(&mut self, place: Place) {
        let AtomicLinkOps {
            claims,
            holder,
            links,
        } = self;
        links.release_link(place);
        claims.release(holder, place);
    }

    ghost linked_is_covered = { λ t p h. L.linked_is_covered (links_of t) p h };

    ghost covered_has_name = { λ t p covered. L.covered_has_name (links_of t) p covered };

    ghost does_nothing = { λ t. gains_nothing L.Trace t (L.does_nothing (links_of t)) };

    ghost does_on = { λ a b c s t h k. gains_on L.Trace L.does_on a b c s t h k };

    ghost does_replay = { λ old new s h. L.does_replay (links_of old) (links_of new) s h.did };

    ghost refused_keeps = { λ old new p h. ap L.table h.links };
}
