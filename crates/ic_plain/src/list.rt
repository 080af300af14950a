//! These calls are on lists of every kind, over a table that accepts each place that is not linked. Plain tables accept such places, with words of 8 bytes or
//! of 4.
//!
//! A call has the type bounds of the collection's own call. The bounds determine which kinds of lists have the call. Instead of `list` you can also write the
//! name of a kind, such as `linked_list`.
//!
//! ```text
//! let mut list: LinkedList<Job> = linked_list::new();
//! linked_list::push_front(&mut list, &mut links, object); // no answer: it is not linked
//! linked_list::pop_front(&mut list, &mut links)           // the object
//! ```

ghost use Rattle.std.specs.Prelude.{◌≡◌, ◌↔◌, ◌∷◌, [], List, IsTrue, drop, ◌++◌};
ghost use Rattle.ic_link_ops.specs.Prelude.{Place, first, last, but_last, at_front, at_back, IsCovered, IsUnlinked, Unlinks, ChangesOnlyIn, HasMember, empty_list, RepresentsChain, RepresentsSomeChain};
ghost use Rattle.ic_plain.specs.ListEdits.{Pushes, Moves, Pops};

use ic_chain::{BidirectionalLinks, DoubleEnded, ForwardLinks, LinkList, ListKind, NamesBoth};
use ic_link_ops::{AcceptsUnlinked, LinkOps};
use ic_unsafe_ref::{Place, UnsafeRef};

/// A new list with no members. Every table represents the empty sequence for it. The call takes no memory. O(1).
#[inline]
pub fn new<K: ListKind, T>() -> LinkList<K, T>
    ensures empty { result ≡ empty_list K.kept }
{
    LinkList::new()
}

/// Whether the list has no members. O(1).
#[inline]
pub fn is_empty<K: ForwardLinks<L>, T, L: LinkOps>(list: &LinkList<K, T>, links: &L) -> bool
    requires shown { RepresentsSomeChain K.Between K.kept (L.table links.now) list.now }
    ensures empty { (s : List Place) → RepresentsChain K.Between K.kept (L.table links.now) list.now s → IsTrue result ↔ (s ≡ []) }
{
    let _ = links;
    list.is_empty()
}

/// The place of the first member, or `None` in an empty list. O(1).
#[inline]
pub fn first<K: ForwardLinks<L>, T, L: LinkOps>(list: &LinkList<K, T>, links: &L) -> Option<Place>
    requires shown { RepresentsSomeChain K.Between K.kept (L.table links.now) list.now }
    ensures first { (s : List Place) → RepresentsChain K.Between K.kept (L.table links.now) list.now s → result ≡ first s }
{
    let _ = links;
    list.first()
}

/// The place of the last member, or `None` in an empty list. O(1).
#[inline]
pub fn last<K: DoubleEnded + ForwardLinks<L>, T, L: LinkOps>(
    list: &LinkList<K, T>,
    links: &L,
) -> Option<Place>
    requires shown { RepresentsSomeChain K.Between K.kept (L.table links.now) list.now }
    ensures last { (s : List Place) → RepresentsChain K.Between K.kept (L.table links.now) list.now s → result ≡ last s }
{
    let _ = links;
    list.last()
}

/// Inserts the object before all other members. The call requires that the table covers the object's place, and that the object is not linked. O(1).
#[inline]
pub fn push_front<K: ForwardLinks<L>, T, L: AcceptsUnlinked>(
    list: &mut LinkList<K, T>,
    links: &mut L,
    object: UnsafeRef<T>,
)
    requires covered { IsCovered (L.table links.old) object }
    requires unlinked { IsUnlinked L.linked (L.table links.old) object }
    requires shown { RepresentsSomeChain K.Between K.kept (L.table links.old) list.old }
    ensures { Pushes (RepresentsChain K.Between K.kept) L.linked at_front (L.table links.old) list.old object (L.table links.new) list.new }
{
    let _ = list.push_front(links, object); // proved: it is not linked
}

/// Inserts the object after all other members. The call requires that the table covers the object's place, and that the object is not linked. O(1).
#[inline]
pub fn push_back<K: DoubleEnded + ForwardLinks<L>, T, L: AcceptsUnlinked>(
    list: &mut LinkList<K, T>,
    links: &mut L,
    object: UnsafeRef<T>,
)
    requires covered { IsCovered (L.table links.old) object }
    requires unlinked { IsUnlinked L.linked (L.table links.old) object }
    requires shown { RepresentsSomeChain K.Between K.kept (L.table links.old) list.old }
    ensures { Pushes (RepresentsChain K.Between K.kept) L.linked at_back (L.table links.old) list.old object (L.table links.new) list.new }
{
    let _ = list.push_back(links, object); // proved: it is not linked
}

/// Removes the first member and returns it, or `None` if the list is empty. O(1).
#[inline]
pub fn pop_front<K: ForwardLinks<L>, T, L: LinkOps>(
    list: &mut LinkList<K, T>,
    links: &mut L,
) -> Option<UnsafeRef<T>>
    requires shown { RepresentsSomeChain K.Between K.kept (L.table links.old) list.old }
    ensures { Pops (RepresentsChain K.Between K.kept) L.linked L.table first (drop 1) links.old list.old result links.new list.new }
{
    list.pop_front(links)
}

/// Removes the last member and returns it, or `None` if the list is empty. O(1).
#[inline]
pub fn pop_back<K: DoubleEnded + BidirectionalLinks<L>, T, L: LinkOps>(
    list: &mut LinkList<K, T>,
    links: &mut L,
) -> Option<UnsafeRef<T>>
    requires shown { RepresentsSomeChain K.Between K.kept (L.table links.old) list.old }
    ensures { Pops (RepresentsChain K.Between K.kept) L.linked L.table last but_last links.old list.old result links.new list.new }
{
    list.pop_back(links)
}

/// Removes the object from the list. It requires that the object is a member. O(1).
#[inline]
pub fn remove<K: NamesBoth<L>, T, L: LinkOps>(
    list: &mut LinkList<K, T>,
    links: &mut L,
    object: &UnsafeRef<T>,
)
    requires member { HasMember (RepresentsChain K.Between K.kept (L.table links.old) list.old) object.now }
    ensures shown { (front back : List Place) → RepresentsChain K.Between K.kept (L.table links.old) list.old (front ++ object.now ∷ back)
        → RepresentsChain K.Between K.kept (L.table links.new) list.new (front ++ back) }
    ensures shows { RepresentsSomeChain K.Between K.kept (L.table links.new) list.new }
    ensures unlinked { Unlinks L.linked (L.table links.old) (L.table links.new) object.now }
    ensures frame { (s : List Place) → RepresentsChain K.Between K.kept (L.table links.old) list.old s
        → ChangesOnlyIn (L.table links.old) (L.table links.new) s }
{
    list.remove(links, object);
}

/// Moves the object before all other members. The call requires that the object is a member. It stays linked. O(1).
#[inline]
pub fn move_to_front<K: DoubleEnded + NamesBoth<L>, T, L: LinkOps>(
    list: &mut LinkList<K, T>,
    links: &mut L,
    object: &UnsafeRef<T>,
)
    requires member { HasMember (RepresentsChain K.Between K.kept (L.table links.old) list.old) object.now }
    ensures { Moves (RepresentsChain K.Between K.kept) L.linked at_front (L.table links.old) list.old object.now (L.table links.new) list.new }
{
    list.move_to_front(links, object);
}

/// Moves the object after all other members. The call requires that the object is a member. It stays linked. O(1).
#[inline]
pub fn move_to_back<K: DoubleEnded + NamesBoth<L>, T, L: LinkOps>(
    list: &mut LinkList<K, T>,
    links: &mut L,
    object: &UnsafeRef<T>,
)
    requires member { HasMember (RepresentsChain K.Between K.kept (L.table links.old) list.old) object.now }
    ensures { Moves (RepresentsChain K.Between K.kept) L.linked at_back (L.table links.old) list.old object.now (L.table links.new) list.new }
{
    list.move_to_back(links, object);
}
