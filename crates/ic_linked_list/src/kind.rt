//! The kind of doubly linked lists. Each entry names both neighbors of its place, and a list stores its first and last members.
//!
//! ```text
//! let list: LinkList<DoublyLinked, Job> = LinkList::new();
//! ```

ghost use Rattle.std.specs.Prelude.{true, ⊤};
ghost use Rattle.std.proofs.Common.{refl, sym, ◌∙◌};
ghost use Rattle.ic_link_ops.specs.LinkedList.{IsBetween, next_of};

use ic_chain::{BidirectionalLinks, DoubleEnded, ForwardLinks, ListKind, NamesBoth, NamesNext};
use ic_link_ops::linked_list::LinkedListOps;
use ic_link_ops::{LinkOps, PlaceWord};
use ic_unsafe_ref::Place;

/// The kind of lists whose entries name both neighbors of a place.
pub struct DoublyLinked;

impl ListKind for DoublyLinked {
    type Tail = PlaceWord;

    type Position = PlaceWord;

    ghost kept = { λ last. last };

    ghost kept_last = { λ tail. tail };

    ghost keeps_last = { true };

    #[inline]
    fn keep(last: Option<Place>) -> PlaceWord {
        PlaceWord::of(last)
    }

    #[inline]
    fn kept_last(tail: &PlaceWord) -> Option<Place> {
        tail.get()
    }

    #[inline]
    fn keeps_last() -> bool {
        true
    }

    ghost tells_last = { λ last. refl };

    ghost tells_nothing = { λ never p q. absurd (cc) };
}

impl DoubleEnded for DoublyLinked {
    ghost keeps_both = { refl };
}

impl NamesNext for DoublyLinked {
    ghost caches_nothing = { λ at next. tt };
}

impl<L: LinkedListOps> ForwardLinks<L> for DoublyLinked {
    ghost Between = { IsBetween L.neighbors };

    ghost step = { next_of L.neighbors };

    ghost NamesPrev = { ⊤ };

    ghost ReadsNext = { ⊥ };

    #[inline]
    fn next(links: &L, place: Place, prev: Option<Place>) -> Option<Place> {
        let _ = prev;
        links.next(place)
    }

    #[inline]
    fn next_at(links: &L, place: Place, at: &PlaceWord) -> Option<Place> {
        let _ = at;
        links.next(place)
    }

    #[inline]
    fn position_at(links: &L, place: Place, prev: Option<Place>) -> PlaceWord {
        let _ = links;
        let _ = prev;
        PlaceWord::of(Some(place))
    }

    #[inline]
    fn set_next(links: &mut L, place: Place, from: Option<Place>, to: Option<Place>) {
        let _ = from;
        links.set_next(place, to);
    }

    #[inline]
    fn set_prev(links: &mut L, place: Place, from: Option<Place>, to: Option<Place>) {
        let _ = from;
        links.set_prev(place, to);
    }

    #[inline]
    fn set_neighbors(links: &mut L, place: Place, prev: Option<Place>, next: Option<Place>) {
        links.set_prev(place, prev);
        links.set_next(place, next);
    }

    #[inline]
    fn link_between(links: &mut L, place: Place, prev: Option<Place>, next: Option<Place>) -> bool {
        links.link_between(place, prev, next)
    }

    ghost between_linked = { λ e b a h. sym (L.linked_alike e) ∙ h.linked };

    ghost leads = { λ e b a h. h.next };
}

impl<L: LinkedListOps> BidirectionalLinks<L> for DoublyLinked {
    ghost step_back = { λ e after. (L.neighbors e).prev };

    #[inline]
    fn prev(links: &L, place: Place, next: Option<Place>) -> Option<Place> {
        let _ = next;
        links.prev(place)
    }

    ghost leads_back = { λ e b a h. h.prev };
}

impl<L: LinkedListOps> NamesBoth<L> for DoublyLinked {
    ghost tells_before = { λ e a a'. refl };
}
