//! Which kinds of collections have which calls.
//!
//! ```text
//! has_before(Kind::Singly) // false: no call of a singly linked list goes back
//! ```

ghost use Rattle.std.specs.Prelude.{◌≡◌};
ghost use Rattle.ic_any_collection.specs.AnyCollection as kinds;
ghost use Rattle.ic_world.specs.Family as family;

use ic_any_collection::Kind;
use ic_unsafe_ref::Place;

// Returns whether collections of the kind have calls at the position before the cursor.
#[inline]
pub(crate) fn has_before(kind: Kind) -> bool
    ensures { result ≡ kinds.has_before kind }
{
    !matches!(kind, Kind::Singly)
}

// Returns whether the kind is a list. Every kind except the tree is a list.
#[inline]
pub(crate) fn is_list(kind: Kind) -> bool
    ensures { result ≡ kinds.is_list kind }
{
    !matches!(kind, Kind::Tree)
}

// Returns whether the kind is the doubly linked list or the XOR list, which also have calls at the back.
#[inline]
pub(crate) fn is_two_way_list(kind: Kind) -> bool
    ensures { result ≡ kinds.is_two_way_list kind }
{
    matches!(kind, Kind::Doubly | Kind::Xor)
}

#[inline]
pub(crate) fn is_xor(kind: Kind) -> bool
    ensures { result ≡ kinds.is_xor kind }
{
    matches!(kind, Kind::Xor)
}

#[inline]
pub(crate) fn is_tree(kind: Kind) -> bool
    ensures { result ≡ kinds.is_tree kind }
{
    matches!(kind, Kind::Tree)
}

// Returns whether the place of a member suffices to put a cursor on it, in collections of this kind. In an XOR list a neighbor has to be named, too.
#[inline]
pub(crate) fn has_pointer(kind: Kind) -> bool
    ensures { result ≡ kinds.has_pointer kind }
{
    !matches!(kind, Kind::Xor)
}

// Returns whether two kinds are equal.
#[inline]
pub(crate) fn same_kind(kind: Kind, other: Kind) -> bool
    ensures { result ≡ family.same_kind kind other }
{
    kind as u8 == other as u8
}

// Returns whether two positions are equal.
#[inline]
pub(crate) fn same_position(position: Option<Place>, other: Option<Place>) -> bool
    ensures { result ≡ family.same_position position other }
{
    match (position, other) {
        (None, None) => true,
        (Some(place), Some(other)) => place.index() == other.index(),
        _ => false,
    }
}
