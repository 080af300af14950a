//! This file defines the trait of tables that refuse to link a place only if the place is linked already.
//!
//! ```text
//! links.acquire_link(place) // false exactly if the place is linked in this table
//! ```

ghost use Rattle.ic_link_ops.specs.Base.{Place, IsLinked};

use crate::{LentTable, LinkOps, LinkValue, PlainTable, Words};
use std::alloc::Allocator;

/// A table that links each place that it covers, unless the place is linked in it already.
///
/// Every plain table has this trait, with words of 8 or 4 bytes, and with or without values. A lent table has the trait, too. A
/// table of claimed links does not have the trait, because it also refuses a place that another holder has claimed.
pub trait AcceptsUnlinked: LinkOps {
    // The law: if a table refuses the link of a place, the place is linked in the table.
    ghost refused_is_linked: { (old new : Self) (p : Place) → Self.Refused old new p → IsLinked Self.linked (Self.table old) p };
}

impl<W: Words, A: Allocator, V: LinkValue> AcceptsUnlinked for PlainTable<W, A, V> {
    ghost refused_is_linked = { λ old new p refused. refused.0 };
}

impl<W: Words, V: LinkValue> AcceptsUnlinked for LentTable<'_, W, V> {
    ghost refused_is_linked = { λ old new p refused. refused.0 };
}
