//! This file makes the objects of tests: numbers at the first eight places.

ghost use Rattle.std.specs.Prelude.{◌≡◌, ◌<◌, true, IfSome};
ghost use Rattle.ic_link_ops.specs.Prelude.{Place, index_of, is_placed, table};

use crate::answers::placed;
use crate::tables::are_placed;
use ic_link_ops::{PlainTable, Words};
use ic_unsafe_ref::{Objects, Place, UnsafeRef};
use std::alloc::Global;

/// The eight numbers 10, 20 and so on to 80, in this order.
pub const TENS: [u64; 8] = [10, 20, 30, 40, 50, 60, 70, 80];

/// Returns a store with `numbers` at the places 0 to 7, and a table of links that covers these places. The result is `None` if memory runs out.
pub fn eight_objects<W: Words>(
    alloc: Global,
    numbers: [u64; 8],
) -> Option<(Objects<u64>, PlainTable<W>)>
    ensures covers { IfSome result (λ made. (table W.width W.unlinked made.1).extent.places ≡ 8) }
    ensures placed { IfSome result (λ made. (q : Place) → index_of q < 8 → is_placed made.0 q ≡ true) }
{
    let mut objects = Objects::new(alloc);
    for number in numbers {
        let _ = placed(&mut objects, number);
    }
    let mut links = PlainTable::new(alloc);
    let _ = links.cover(8);
    if links.covers() == 8 && are_placed(&links, &objects) {
        Some((objects, links))
    } else {
        None
    }
}

/// Returns the place with the index `index`.
pub fn place_at(index: usize) -> Place
    requires { index < 4294967296 }
    ensures { index_of result ≡ index }
{
    Place::new(index).unwrap()
}

/// Returns the reference to the object at the place with the index `index`.
pub fn reference(index: usize) -> UnsafeRef<u64>
    requires { index < 4294967296 }
    ensures { index_of result ≡ index }
{
    UnsafeRef::new(place_at(index))
}
