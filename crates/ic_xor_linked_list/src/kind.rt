//! The kind of XOR lists. Each entry stores the exclusive or of the words of its two neighbors, and a list stores its first and last members.
//!
//! ```text
//! let list: LinkList<XorLinked, Job> = LinkList::new();
//! ```

ghost use Rattle.std.specs.Prelude.{true, ⊤};
ghost use Rattle.std.proofs.Common.{refl};
ghost use Rattle.ic_link_ops.specs.XorLinkedList.{IsJoined};

use crate::position::PositionWithNext;
use ic_chain::{BidirectionalLinks, DoubleEnded, ForwardLinks, ListKind, ListPosition, Reversible};
use ic_link_ops::xor_linked_list::XorLinkedListOps;
use ic_link_ops::{LinkOps, PlaceWord};
use ic_unsafe_ref::Place;

/// The kind of lists whose entries store the exclusive or of the words of both neighbors.
pub struct XorLinked;

impl ListKind for XorLinked {
    type Tail = PlaceWord;

    type Position = PositionWithNext;

    ghost kept = { λ last. last };

    ghost kept_last = { λ tail. tail };

    ghost keeps_last = { true };

    #[inline]
    fn keep(last: Option<Place>) -> PlaceWord {
        PlaceWord::of(last)
    }

    #[inline]
    fn kept_last(tail: &PlaceWord) -> Option<Place> {
        tail.get()
    }

    #[inline]
    fn keeps_last() -> bool {
        true
    }

    ghost tells_last = { λ last. refl };

    ghost tells_nothing = { λ never p q. absurd (cc) };
}

impl DoubleEnded for XorLinked {
    ghost keeps_both = { refl };
}

impl Reversible for XorLinked {}

impl<L: XorLinkedListOps> ForwardLinks<L> for XorLinked {
    ghost Between = { IsJoined L.linked L.HasNeighbors };

    ghost step = { L.other };

    ghost NamesPrev = { ⊤ };

    ghost ReadsNext = { ⊤ };

    #[inline]
    fn next(links: &L, place: Place, prev: Option<Place>) -> Option<Place> {
        links.next(place, prev)
    }

    #[inline]
    fn next_at(links: &L, place: Place, at: &PositionWithNext) -> Option<Place> {
        let _ = links;
        let _ = place;
        at.next()
    }

    #[inline]
    fn position_at(links: &L, place: Place, prev: Option<Place>) -> PositionWithNext {
        ListPosition::of(Some(place), links.next(place, prev))
    }

    #[inline]
    fn set_next(links: &mut L, place: Place, from: Option<Place>, to: Option<Place>) {
        links.replace_next_or_prev(place, from, to);
    }

    #[inline]
    fn set_prev(links: &mut L, place: Place, from: Option<Place>, to: Option<Place>) {
        links.replace_next_or_prev(place, from, to);
    }

    #[inline]
    fn set_neighbors(links: &mut L, place: Place, prev: Option<Place>, next: Option<Place>) {
        links.set(place, prev, next);
    }

    #[inline]
    fn link_between(links: &mut L, place: Place, prev: Option<Place>, next: Option<Place>) -> bool {
        links.link_between(place, prev, next)
    }

    ghost between_linked = { λ e b a h. h.linked };

    ghost leads = { λ e b a h. L.finds_other e b a h.joined };
}

impl<L: XorLinkedListOps> BidirectionalLinks<L> for XorLinked {
    ghost step_back = { L.other };

    #[inline]
    fn prev(links: &L, place: Place, next: Option<Place>) -> Option<Place> {
        links.prev(place, next)
    }

    ghost leads_back = { λ e b a h. L.finds_other e a b (L.symmetric e b a h.joined) };
}
