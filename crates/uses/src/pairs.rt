//! Calls that read or take the members of a list of two from both ends, and a call that returns two places in order.
//!
//! ```text
//! let (left, right) = pairs::both(&list, &links, &objects)?;
//! let more = pairs::larger(&bids, &bid_links, &amounts)?; // of two numbers
//! let (low, high) = pairs::in_order(first, second);
//! ```

ghost use Rattle.std.specs.Prelude.{◌≡◌, ◌≢◌, ◌≤◌, ◌⊎◌, ℕ, max, Some, None, List, [], ◌∷◌, length, IfSome, IfNone};
ghost use Rattle.ic_link_ops.specs.Prelude.{Place, index_of, RepresentsPlaced, values_at, releases};
ghost use Rattle.ic_link_ops.specs.LinkedList.{Represents, RepresentsSome};

use ic_link_ops::linked_list::LinkedListOps;
use ic_linked_list::LinkedList;
use ic_unsafe_ref::{Objects, Place, UnsafeRef};
use std::alloc::Allocator;

/// Returns the two places, the one with the smaller index first. O(1).
pub fn in_order(first: Place, second: Place) -> (Place, Place)
    ensures sorted { index_of result.0 ≤ index_of result.1 }
    ensures same { ((result.0 ≡ first) × (result.1 ≡ second)) ⊎ ((result.0 ≡ second) × (result.1 ≡ first)) }
{
    Place::order_is_total();
    if second < first {
        (second, first)
    } else {
        (first, second)
    }
}

/// Returns the two objects of a list of two, or `None` if the list has another number of objects. O(1).
///
/// It requires that the table represents a sequence for the list, whose members are placed.
pub fn both<'a, T, L: LinkedListOps, A: Allocator>(
    list: &LinkedList<T>,
    links: &'a L,
    objects: &'a Objects<T, A>,
) -> Option<(&'a T, &'a T)>
    requires placed { RepresentsPlaced (Represents L.neighbors (L.table links.now) list.now) objects.now }
    ensures both { (s : List Place) → Represents L.neighbors (L.table links.now) list.now s
        → IfSome result (λ pair. values_at objects.now s ≡ pair.0.now ∷ pair.1.now ∷ []) }
    ensures none { (s : List Place) → Represents L.neighbors (L.table links.now) list.now s
        → IfNone result (length (values_at objects.now s) ≢ 2) }
{
    let mut walk = list.iter(links, objects);
    let first = walk.next()?;
    let second = walk.next_back()?;
    if walk.next().is_some() {
        return None;
    }
    Some((first, second))
}

/// Returns the larger of the two numbers of a list of two, or `None` if the list has another number of members. O(1).
///
/// It requires what [`both`] requires.
pub fn larger<L: LinkedListOps>(
    list: &LinkedList<u64>,
    links: &L,
    objects: &Objects<u64>,
) -> Option<u64>
    requires placed { RepresentsPlaced (Represents L.neighbors (L.table links.now) list.now) objects.now }
    ensures larger { (s : List Place) (a b : ℕ) → Represents L.neighbors (L.table links.now) list.now s
        → values_at objects.now s ≡ a ∷ b ∷ [] → result ≡ Some (max a b) }
    ensures none { (s : List Place) → Represents L.neighbors (L.table links.now) list.now s
        → length (values_at objects.now s) ≢ 2 → result ≡ None }
{
    let (first, second) = both(list, links, objects)?;
    Some((*first).max(*second))
}

/// Removes and returns the two members of a list of two, or returns `None` if the list has another number of members. O(1).
///
/// It requires that the table represents a sequence for the list. If the list has another number of members, the call removes and unlinks at most
/// three of them, and the other members stay linked.
pub fn take_both<T, L: LinkedListOps>(
    list: LinkedList<T>,
    links: &mut L,
) -> Option<(UnsafeRef<T>, UnsafeRef<T>)>
    requires shown { RepresentsSome L.neighbors (L.table links.old) list }
    ensures both { (s : List Place) → Represents L.neighbors (L.table links.old) list s
        → IfSome result (λ pair. s ≡ pair.0 ∷ pair.1 ∷ []) }
    ensures none { (s : List Place) → Represents L.neighbors (L.table links.old) list s → IfNone result (length s ≢ 2) }
    ensures released { IfSome result (λ pair. L.Trace links.old links.new (releases pair.0 ∷ releases pair.1 ∷ [])) }
{
    let mut rest = list.into_iter(links);
    let first = rest.next()?;
    let second = rest.next_back()?;
    if rest.next().is_some() {
        return None;
    }
    Some((first, second))
}
