//! A test of the values beside links: the value that is there at first, and the value after each call.

ghost use Rattle.ic_link_ops.specs.Tables.{IsCovered};

use crate::fixture::{at, check};
use ic_link_ops::rbtree::{LinkOpsWith, ThreeWords};
use ic_link_ops::{LentTable, Link, LinkValues};
use ic_unsafe_ref::{Place, Values};

// Returns the value beside a link at three times: at first, after it is set, and after the place is linked.
fn values<L: LinkValues<u64>>(links: &mut L, place: Place, value: u64) -> [u64; 3]
    requires covered { IsCovered (L.table links.old) place }
    ensures covered { IsCovered (L.table links.new) place }
{
    let first = *links.value(place);
    links.set_value(place, value);
    let set = *links.value(place);
    let _ = links.acquire_link(place);
    [first, set, *links.value(place)]
}

// Returns the value beside a link in a view of the links at three times: at first, after it is set, and after the place is linked. The place may be
// linked before.
fn values_by_view(links: &mut [Link<ThreeWords, u64>], place: Place, value: u64) -> [u64; 3] {
    let mut links = LentTable::new(links);
    if place.index() < links.covers() {
        return values(&mut links, place, value);
    }
    [0; 3]
}

#[test]
fn values_beside_links(rt: HostRuntime) {
    let mut links: LinkOpsWith<u64> = LinkOpsWith::new(rt.alloc());
    let (place, other) = (at(&rt, 0), at(&rt, 1));
    let _ = links.cover(2);
    if place.index() >= links.covers() {
        return check(&rt, false);
    }
    let found = [
        values(&mut links, place, 30),
        values_by_view(links.lend(), place, 50),
        values_by_view(links.lend(), other, 70),
    ];
    check(&rt, found == [[0, 30, 30], [30, 50, 50], [0, 70, 70]]);
}
