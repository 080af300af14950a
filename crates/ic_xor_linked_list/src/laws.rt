//! Laws about several calls of an XOR list. Each law is the contract of a function. Two laws are special to XOR lists: `reverse` reverses the
//! sequence, and two reversals restore the sequence. The other laws hold for every list.
//!
//! ```text
//! laws::reversed_is_represented(&mut list, &links); // its members in the opposite order
//! ```

ghost use Rattle.std.specs.Prelude.{◌≡◌, List, reverse};
ghost use Rattle.ic_unsafe_ref.specs.declared.place.Place.{Place};
ghost use Rattle.ic_link_ops.specs.XorLinkedList.{Represents};

use crate::XorLinkedList;
pub use ic_chain::laws::{
    fields_are_apart, null_there_and_back, push_then_pop, push_then_pop_front, split_then_splice,
};
use ic_link_ops::xor_linked_list::XorLinkedListOps;

/// The law of a reversal: if a table represents a sequence for the list, it represents the reversed sequence for the reversed list.
///
/// No entry of an XOR list states which neighbor of its place comes first. Therefore the call writes no entry. O(1).
pub fn reversed_is_represented<T, L: XorLinkedListOps>(list: &mut XorLinkedList<T>, links: &L)
    ensures shown { (s : List Place) → Represents L.linked L.HasNeighbors (L.table links.now) list.old s
        → Represents L.linked L.HasNeighbors (L.table links.now) list.new (reverse s) }
{
    let _ = links;
    list.reverse();
}

/// The law of two reversals: a list that is reversed twice is as it was, so a table represents the same sequence for it.
///
/// The call takes no table, so it writes no entry. O(1).
pub fn reversed_twice<T>(list: XorLinkedList<T>) -> XorLinkedList<T>
    ensures { result ≡ list }
{
    let mut twice = list;
    twice.reverse();
    twice.reverse();
    twice
}
