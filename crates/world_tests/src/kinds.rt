//! A test of tables whose kind is chosen when a program runs.

use ic_any_collection::AnyTable;
use ic_unsafe_ref::Place;
use ic_world::Kind;
use std::alloc::Global;

// Makes a table of this kind that covers three places, and returns how many of the first four places are covered and unlinked.
fn unlinked_of_three(alloc: Global, kind: Kind) -> usize {
    let mut links = AnyTable::new(alloc, kind);
    let _ = links.cover(3);
    let mut unlinked = 0usize;
    for index in 0..4 {
        if let Some(place) = Place::new(index) {
            if index < links.covers() && !links.is_linked(place) {
                unlinked = unlinked.wrapping_add(1);
            }
        }
    }
    unlinked
}

#[test]
fn tables_of_each_kind(rt: HostRuntime) {
    for kind in [Kind::Singly, Kind::Xor, Kind::Doubly, Kind::Tree] {
        assert!(rt; unlinked_of_three(rt.alloc(), kind) == 3);
    }
}
