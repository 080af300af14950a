//! Places that are in several lists.

ghost use Rattle.std.specs.Prelude.{◌≡◌, ℕ, All};
ghost use Rattle.ic_workers.specs.SharedOut.{has, Rises, places_in};
ghost use Rattle.ic_workers.specs.Doubles.{times, doubles_below};

use ic_unsafe_ref::Place;
use std::alloc::Allocator;

// Returns whether `list` contains the place with the index `index`. The indexes in the list must rise, because the function makes a binary search.
fn stands_in(list: &[Place], index: usize) -> bool
    requires { (high : ℕ) × Rises 0 high list.now }
    ensures { result ≡ has list.now index }
{
    let mut low = 0;
    let mut high = list.len();
    while low < high {
        let middle = low + (high - low) / 2;
        let found = list[middle].index();
        if found == index {
            return true;
        }
        if found < index {
            low = middle + 1;
        } else {
            high = middle;
        }
    }
    false
}

// Returns how many of the lists contain the place with the index `index`.
fn lists_with<A: Allocator>(lists: &[Vec<Place, A>], index: usize) -> usize
    requires { (high : ℕ) × All (Rises 0 high) (places_in lists.now) }
    ensures { result ≡ times (places_in lists.now) index }
{
    let mut count = 0;
    for list in lists {
        if stands_in(list, index) {
            count += 1;
        }
    }
    count
}

/// Returns how many of the first `places` places are in more than one of the lists.
///
/// The call requires that the indexes rise in each list, as they do in the lists of [`fan_out`](crate::fan_out). O(places * lists * log(places)). The call
/// takes no memory.
pub fn doubles<A: Allocator>(places: usize, lists: &[Vec<Place, A>]) -> usize
    requires rises { All (Rises 0 places) (places_in lists.now) }
    ensures { result ≡ doubles_below places (places_in lists.now) }
{
    let mut found = 0;
    for index in 0..places {
        if lists_with(lists, index) > 1 {
            found += 1;
        }
    }
    found
}
