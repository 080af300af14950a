//! The functions and constants that all tests of this crate share.

ghost use Rattle.std.specs.Prelude.{◌≡◌};
ghost use Rattle.ic_link_ops.specs.Prelude.{index_of, IsCovered, IsLinked, table, linked_by};

use ic_link_ops::{LinkOps, PlainTable, Words};
use ic_unsafe_ref::Place;
use std::alloc::Global;
use std::process::Abort;

/// `LAST` is the index of the last place. `LAST_NARROW` is the index of the last place for which words of 4 bytes have a number.
pub(crate) const LAST: usize = 4_294_967_295;

pub(crate) const LAST_NARROW: usize = 536_870_910;

/// Ends the test with a failure unless `is_so` is true.
pub(crate) fn check(rt: &impl Abort, is_so: bool) {
    assert!(rt; is_so);
}

/// Returns the place with this index.
pub(crate) fn at(rt: &impl Abort, index: usize) -> Place
    ensures at { index_of result ≡ index }
{
    Place::new(index).expect(rt, "the index of a place")
}

/// Returns a table of one place, and the place, which is linked.
pub(crate) fn one_linked<W: Words>(rt: &impl Abort, alloc: Global) -> (PlainTable<W>, Place)
    ensures covered { IsCovered (table W.width W.unlinked result.0) result.1 }
    ensures linked { IsLinked (linked_by W.is_linked) (table W.width W.unlinked result.0) result.1 }
{
    let mut links = PlainTable::new(alloc);
    links.cover(1).expect(rt, "memory for a link");
    let place = at(rt, 0);
    let _had = links.acquire_link(place);
    assert!(rt; links.is_linked(place));
    (links, place)
}
