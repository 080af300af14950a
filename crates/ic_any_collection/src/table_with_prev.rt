//! One type for the two kinds of tables whose entries also name the previous place.
//!
//! ```text
//! if let AnyTable::WithPrev(links) = &mut field {
//!     list.push_back(links, object)?;
//! }
//! ```

ghost use Rattle.std.specs.Prelude.{◌≡◌};
ghost use Rattle.ic_link_ops.specs.Prelude.{Place, IsLinked};

use crate::entry::Entry;
use ic_link_ops::linked_list::LinkedListOps;
use ic_link_ops::{LinkOps, linked_list, rbtree};
use ic_unsafe_ref::Place;
use std::alloc::{Allocator, Global};

// Makes the call `$call` on the table in `$table`, of either kind. In the call, the table has the name `$links`.
macro_rules! on_table {
    ($table:expr, $links:ident => $call:expr) => {
        match $table {
            TableWithPrev::Doubly($links) => $call,
            TableWithPrev::Tree($links) => $call,
        }
    };
}

/// A table that can serve doubly linked lists. No call changes its kind.
#[derive(Drop)]
pub enum TableWithPrev<M: Allocator = Global> {
    /// A table of doubly links.
    Doubly(linked_list::LinkOps<M>),
    /// A table of tree links.
    Tree(rbtree::LinkOps<M>),
}

impl<M: Allocator> LinkOps for TableWithPrev<M> {
    ghost use Rattle.std.proofs.Common.{ap, refl};
    ghost use Rattle.ic_link_ops.specs.LinkSteps.{TraceIs};
    ghost use Rattle.ic_link_ops.specs.StepLaws.{replays_on};
    ghost use Rattle.ic_any_collection.specs.Entries.{is_linked};
    ghost use Rattle.ic_any_collection.specs.TablesWithPrev.{table_in, covered_where_linked};
    ghost use Rattle.std.specs.Prelude.{⊤};

    type Entry = Entry;

    ghost table = { table_in };

    ghost linked = { is_linked };

    ghost CanName = { λ p. ⊤ };

    ghost Trace = { λ old new s. TraceIs is_linked (table_in old) (table_in new) s };

    ghost Refused = { λ old new p. IsLinked is_linked (table_in old) p × (new ≡ old) };

    #[inline]
    fn acquire_link(&mut self, place: Place) -> bool {
        on_table!(self, links => links.acquire_link(place))
    }

    #[inline]
    fn release_link(&mut self, place: Place) {
        on_table!(self, links => links.release_link(place))
    }

    ghost linked_is_covered = { covered_where_linked };

    ghost covered_has_name = { λ t p covered. tt };

    ghost does_nothing = { λ t q. refl };

    ghost does_on = { λ a b c s t h k. replays_on is_linked s t (table_in a) (table_in b) (table_in c) h k };

    ghost does_replay = { λ old new s h. h };

    ghost refused_keeps = { λ old new p h. ap table_in h.1 };
}

impl<M: Allocator> LinkedListOps for TableWithPrev<M> {
    ghost use Rattle.std.specs.Prelude.{refl};
    ghost use Rattle.ic_any_collection.specs.Entries.{neighbors};

    ghost neighbors = { neighbors };

    #[inline]
    fn next(&self, place: Place) -> Option<Place> {
        on_table!(self, links => LinkedListOps::next(links, place))
    }

    #[inline]
    fn prev(&self, place: Place) -> Option<Place> {
        on_table!(self, links => LinkedListOps::prev(links, place))
    }

    #[inline]
    fn set_next(&mut self, place: Place, next: Option<Place>) {
        on_table!(self, links => LinkedListOps::set_next(links, place, next))
    }

    #[inline]
    fn set_prev(&mut self, place: Place, prev: Option<Place>) {
        on_table!(self, links => LinkedListOps::set_prev(links, place, prev))
    }

    #[inline]
    fn link_between(&mut self, place: Place, prev: Option<Place>, next: Option<Place>) -> bool {
        on_table!(self, links => LinkedListOps::link_between(links, place, prev, next))
    }

    ghost linked_alike = { λ e. refl };
}
