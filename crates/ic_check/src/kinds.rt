//! What a walk from the front of a list tests at each place, for each kind of list.
//!
//! ```text
//! DoublyLinked::names_prev(&links, place, prev) // whether the entry of the place names `prev`
//! ```

ghost use Rattle.std.specs.Prelude.{◌≡◌, Option};
ghost use Rattle.std.specs.Bool.{Decides};
ghost use Rattle.std.proofs.Common.{refl};
ghost use Rattle.ic_link_ops.specs.Prelude.{Place, IsLinked};

use crate::joined::JoinsAny;
use ic_chain::{ForwardLinks, LinkList};
use ic_link_ops::LinkOps;
use ic_link_ops::linked_list::LinkedListOps;
use ic_link_ops::singly_linked_list::SinglyLinkedListOps;
use ic_linked_list::DoublyLinked;
use ic_singly_linked_list::SinglyLinked;
use ic_unsafe_ref::Place;
use ic_xor_linked_list::XorLinked;

/// A kind of lists that can test whether the entry of a place agrees with the place that a walk visited before this place.
///
/// Each kind has this test: doubly and singly linked lists over all tables, and XOR lists over tables that are
/// [`JoinsAny`].
pub trait TellsNeighbors<L: LinkOps>: ForwardLinks<L> {
    /// Returns whether `place` comes after `prev`, as the entry of `place` says. The call requires that the place is linked. The call reads at most one entry.
    fn names_prev(links: &L, place: Place, prev: Option<Place>) -> bool
        requires linked { IsLinked L.linked (L.table links.now) place }
        ensures { Decides result (Self.Between ((L.table links.now).entry place) prev (Self.step ((L.table links.now).entry place) prev)) };

    /// Returns whether the list stores `last` as its last member. If lists of this kind store no last member, the result is true. The call reads no links.
    fn ends_with<T>(list: &LinkList<Self, T>, last: Option<Place>) -> bool
        ensures { Decides result (list.now.tail ≡ Self.kept last) };
}

/// A kind of lists whose entries alone name the next place, so a walk that ends has met no place twice.
///
/// Doubly and singly linked lists have this property, and XOR lists do not: an entry of an XOR list names another next place if another place comes before it.
pub trait NamesItsNext<L: LinkOps>: TellsNeighbors<L> {
    // The law: the entry of a place determines the next place, whatever place comes before.
    ghost tells_after: { (e : L.Entry) (b c : Option Place) → Self.step e b ≡ Self.step e c };
}

impl<L: LinkedListOps> TellsNeighbors<L> for DoublyLinked {
    #[inline]
    fn names_prev(links: &L, place: Place, prev: Option<Place>) -> bool {
        is_same(links.prev(place), prev)
    }

    #[inline]
    fn ends_with<T>(list: &LinkList<DoublyLinked, T>, last: Option<Place>) -> bool {
        is_same(list.last(), last)
    }
}

impl<L: LinkedListOps> NamesItsNext<L> for DoublyLinked {
    ghost tells_after = { λ e b c. refl };
}

impl<L: SinglyLinkedListOps> TellsNeighbors<L> for SinglyLinked {
    #[inline]
    fn names_prev(_: &L, _: Place, _: Option<Place>) -> bool {
        true
    }

    #[inline]
    fn ends_with<T>(_: &LinkList<SinglyLinked, T>, _: Option<Place>) -> bool {
        true
    }
}

impl<L: SinglyLinkedListOps> NamesItsNext<L> for SinglyLinked {
    ghost tells_after = { λ e b c. refl };
}

impl<L: JoinsAny> TellsNeighbors<L> for XorLinked {
    #[inline]
    fn names_prev(_: &L, _: Place, _: Option<Place>) -> bool {
        true
    }

    #[inline]
    fn ends_with<T>(list: &LinkList<XorLinked, T>, last: Option<Place>) -> bool {
        is_same(last, list.last())
    }
}

// Returns whether two ends are the same place or both none. The call makes one comparison of words.
#[inline]
pub(crate) fn is_same(a: Option<Place>, b: Option<Place>) -> bool
    ensures { Decides result (a ≡ b) }
{
    Place::to_word(a) == Place::to_word(b)
}
