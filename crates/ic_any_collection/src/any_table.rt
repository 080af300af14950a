//! The table of a link field, of any of the four kinds. Every kind of table can serve singly linked lists and XOR lists.
//!
//! ```text
//! let mut links = AnyTable::new(rt.alloc(), Kind::Xor);
//! links.cover(3)?;
//! links.kind() // Kind::Xor, whatever is done with it
//! ```

ghost use Rattle.std.specs.Prelude.{◌≡◌, ◌≤◌, ◌<◌, ◌↔◌, max, OnOk, OnErr, IsOk, Err};
ghost use Rattle.ic_link_ops.specs.Prelude.{Place, IsCovered, IsLinked, IsUnlinked, ChangesOnly};

use crate::entry::Entry;
use crate::kind::Kind;
use crate::table_with_prev::TableWithPrev;
use ic_link_ops::singly_linked_list::SinglyLinkedListOps;
use ic_link_ops::xor_linked_list::XorLinkedListOps;
use ic_link_ops::{CoverError, LinkOps, linked_list, rbtree, singly_linked_list, xor_linked_list};
use ic_unsafe_ref::Place;
use std::alloc::{Allocator, Global};

// Makes the call `$call` on the table in `$table`, of whatever kind the table is. In the call, the table has the name `$links`.
macro_rules! on_table {
    ($table:expr, $links:ident => $call:expr) => {
        match $table {
            AnyTable::Singly($links) => $call,
            AnyTable::Xor($links) => $call,
            AnyTable::WithPrev(TableWithPrev::Doubly($links)) => $call,
            AnyTable::WithPrev(TableWithPrev::Tree($links)) => $call,
        }
    };
}

/// The table of a link field. No call changes its kind.
#[derive(Drop)]
pub enum AnyTable<M: Allocator = Global> {
    /// A table of singly links.
    Singly(singly_linked_list::LinkOps<M>),
    /// A table of XOR links.
    Xor(xor_linked_list::LinkOps<M>),
    /// A table of doubly links, or of tree links.
    WithPrev(TableWithPrev<M>),
}

impl<M: Allocator> AnyTable<M> {
    ghost use Rattle.ic_any_collection.specs.Entries.{is_linked, kind_of};
    ghost use Rattle.ic_any_collection.specs.AnyTables.{table_in};

    /// Makes a table of this kind that covers no place. It takes no memory.
    pub fn new(alloc: M, kind: Kind) -> AnyTable<M>
        ensures covers { (table_in result).extent.places ≡ 0 }
        ensures kind { kind_of (table_in result) ≡ kind }
    {
        match kind {
            Kind::Singly => Self::Singly(singly_linked_list::LinkOps::new(alloc)),
            Kind::Xor => Self::Xor(xor_linked_list::LinkOps::new(alloc)),
            Kind::Doubly => Self::WithPrev(TableWithPrev::Doubly(linked_list::LinkOps::new(alloc))),
            Kind::Tree => Self::WithPrev(TableWithPrev::Tree(rbtree::LinkOps::new(alloc))),
        }
    }

    /// Returns the kind of the table.
    #[inline]
    pub fn kind(&self) -> Kind
        ensures { result ≡ kind_of (table_in self.now) }
    {
        match self {
            Self::Singly(_) => Kind::Singly,
            Self::Xor(_) => Kind::Xor,
            Self::WithPrev(TableWithPrev::Doubly(_)) => Kind::Doubly,
            Self::WithPrev(TableWithPrev::Tree(_)) => Kind::Tree,
        }
    }

    /// Returns how many places the table covers. It covers each place whose index is below this number.
    #[inline]
    pub fn covers(&self) -> usize
        ensures { result ≡ (table_in self.now).extent.places }
    {
        on_table!(self, links => links.covers())
    }

    /// Returns whether `place` is linked. It requires that the table covers the place. O(1).
    #[inline]
    pub fn is_linked(&self, place: Place) -> bool
        requires covered { IsCovered (table_in self.now) place }
        ensures { result ≡ is_linked ((table_in self.now).entry place) }
    {
        on_table!(self, links => links.is_linked(place))
    }

    /// Unlinks `place`, whichever collection linked it. An unlinked place stays unlinked. It requires that the table covers the place. O(1).
    ///
    /// Every other entry stays as it is, so each collection of which the place is not a member keeps its sequence.
    #[inline]
    pub fn force_unlink(&mut self, place: Place)
        requires covered { IsCovered (table_in self.old) place }
        ensures unlinked { IsUnlinked is_linked (table_in self.new) place }
        ensures frame { ChangesOnly (table_in self.old) (table_in self.new) place }
    {
        on_table!(self, links => links.force_unlink(place))
    }

    /// Covers the first `count` places, with an unlinked entry for each place that is new.
    ///
    /// The call is refused if `count` is above 4,294,967,296 or there is not enough memory, and then nothing has changed. Existing entries stay, and
    /// if the table already covers `count` places, nothing changes. It makes at most one request for memory.
    pub fn cover(&mut self, count: usize) -> Result<(), CoverError>
        ensures too_many { (result ≡ Err CoverError.TooManyPlaces) ↔ 4294967296 < count }
        ensures covers { OnOk result ((table_in self.new).extent.places ≡ max (table_in self.old).extent.places count) }
        ensures stays { (q : Place) → (table_in self.new).entry q ≡ (table_in self.old).entry q }
        ensures identity { (table_in self.new).extent.identity ≡ (table_in self.old).extent.identity }
        ensures enough { count ≤ (table_in self.old).extent.places → count ≤ 4294967296 → IsOk result }
        ensures refused { OnErr result ((table_in self.new).extent ≡ (table_in self.old).extent) }
    {
        on_table!(self, links => links.cover(count))
    }
}

impl<M: Allocator> LinkOps for AnyTable<M> {
    ghost use Rattle.std.proofs.Common.{ap, refl};
    ghost use Rattle.ic_link_ops.specs.LinkSteps.{TraceIs};
    ghost use Rattle.ic_link_ops.specs.StepLaws.{replays_on};
    ghost use Rattle.ic_any_collection.specs.Entries.{is_linked};
    ghost use Rattle.ic_any_collection.specs.AnyTables.{table_in, covered_where_linked};
    ghost use Rattle.std.specs.Prelude.{⊤};

    type Entry = Entry;

    ghost table = { table_in };

    ghost linked = { is_linked };

    ghost CanName = { λ p. ⊤ };

    ghost Trace = { λ old new s. TraceIs is_linked (table_in old) (table_in new) s };

    ghost Refused = { λ old new p. IsLinked is_linked (table_in old) p × (new ≡ old) };

    #[inline]
    fn acquire_link(&mut self, place: Place) -> bool {
        on_table!(self, links => links.acquire_link(place))
    }

    #[inline]
    fn release_link(&mut self, place: Place) {
        on_table!(self, links => links.release_link(place))
    }

    ghost linked_is_covered = { covered_where_linked };

    ghost covered_has_name = { λ t p covered. tt };

    ghost does_nothing = { λ t q. refl };

    ghost does_on = { λ a b c s t h k. replays_on is_linked s t (table_in a) (table_in b) (table_in c) h k };

    ghost does_replay = { λ old new s h. h };

    ghost refused_keeps = { λ old new p h. ap table_in h.1 };
}

impl<M: Allocator> SinglyLinkedListOps for AnyTable<M> {
    ghost use Rattle.std.specs.Prelude.{refl};
    ghost use Rattle.ic_any_collection.specs.Entries.{successor};

    ghost successor = { successor };

    #[inline]
    fn next(&self, place: Place) -> Option<Place> {
        on_table!(self, links => SinglyLinkedListOps::next(links, place))
    }

    #[inline]
    fn set_next(&mut self, place: Place, next: Option<Place>) {
        on_table!(self, links => SinglyLinkedListOps::set_next(links, place, next))
    }

    #[inline]
    fn link_before(&mut self, place: Place, next: Option<Place>) -> bool {
        on_table!(self, links => links.link_before(place, next))
    }

    ghost linked_alike = { λ e. refl };
}

impl<M: Allocator> XorLinkedListOps for AnyTable<M> {
    ghost use Rattle.ic_any_collection.specs.Entries.{HasNeighbors, other};
    ghost use Rattle.ic_link_ops.specs.XorLaws.{joins_symmetric, joins_one_other, joins_finds_other};

    ghost HasNeighbors = { HasNeighbors };

    ghost other = { other };

    #[inline]
    fn next(&self, place: Place, prev: Option<Place>) -> Option<Place> {
        on_table!(self, links => XorLinkedListOps::next(links, place, prev))
    }

    #[inline]
    fn prev(&self, place: Place, next: Option<Place>) -> Option<Place> {
        on_table!(self, links => XorLinkedListOps::prev(links, place, next))
    }

    #[inline]
    fn set(&mut self, place: Place, prev: Option<Place>, next: Option<Place>) {
        on_table!(self, links => links.set(place, prev, next))
    }

    #[inline]
    fn link_between(&mut self, place: Place, prev: Option<Place>, next: Option<Place>) -> bool {
        on_table!(self, links => XorLinkedListOps::link_between(links, place, prev, next))
    }

    #[inline]
    fn replace_next_or_prev(&mut self, place: Place, old: Option<Place>, new: Option<Place>) {
        on_table!(self, links => links.replace_next_or_prev(place, old, new))
    }

    ghost symmetric = { λ e a b j. joins_symmetric e.word a b j };

    ghost one_other = { λ e a b c j k. joins_one_other e.word a b c j k };

    ghost finds_other = { λ e a b j. joins_finds_other e.word a b j };
}
