//! The kind of singly linked lists. Each entry names only the next place, and a list stores only its first member.
//!
//! ```text
//! let list: LinkList<SinglyLinked, Job> = LinkList::new();
//! ```

ghost use Rattle.std.specs.Prelude.{None, false};
ghost use Rattle.std.proofs.Common.{refl, sym, ◌∙◌};
ghost use Rattle.ic_link_ops.specs.SinglyLinkedList.{IsFollowed, next_of};

use ic_chain::{ForwardLinks, ListKind, NamesNext, SingleEnded};
use ic_link_ops::singly_linked_list::SinglyLinkedListOps;
use ic_link_ops::{LinkOps, PlaceWord};
use ic_unsafe_ref::Place;
use std::marker::Model;

/// The kind of lists whose entries name only the next place.
pub struct SinglyLinked;

/// A singly linked list stores nothing about its last member. This empty type is what it stores.
#[derive(Drop)]
pub struct NoTail;

impl Model for NoTail {
    ghost use Rattle.std.specs.Prelude.{⊤};

    ghost Value = { ⊤ };

    ghost view = { λ tail. tt };
}

impl ListKind for SinglyLinked {
    type Tail = NoTail;

    type Position = PlaceWord;

    ghost kept = { λ last. tt };

    ghost kept_last = { λ tail. None };

    ghost keeps_last = { false };

    #[inline]
    fn keep(last: Option<Place>) -> NoTail {
        let _ = last;
        NoTail
    }

    #[inline]
    fn kept_last(tail: &NoTail) -> Option<Place> {
        let _ = tail;
        None
    }

    #[inline]
    fn keeps_last() -> bool {
        false
    }

    ghost tells_last = { λ last. (refl, refl) };

    ghost tells_nothing = { λ none p q. refl };
}

impl SingleEnded for SinglyLinked {
    ghost keeps_one = { refl };
}

impl NamesNext for SinglyLinked {
    ghost caches_nothing = { λ at next. tt };
}

impl<L: SinglyLinkedListOps> ForwardLinks<L> for SinglyLinked {
    ghost Between = { IsFollowed L.successor };

    ghost step = { next_of L.successor };

    ghost NamesPrev = { ⊥ };

    ghost ReadsNext = { ⊥ };

    #[inline]
    fn next(links: &L, place: Place, prev: Option<Place>) -> Option<Place> {
        let _ = prev;
        links.next(place)
    }

    #[inline]
    fn next_at(links: &L, place: Place, at: &PlaceWord) -> Option<Place> {
        let _ = at;
        links.next(place)
    }

    #[inline]
    fn position_at(links: &L, place: Place, prev: Option<Place>) -> PlaceWord {
        let _ = links;
        let _ = prev;
        PlaceWord::of(Some(place))
    }

    #[inline]
    fn set_next(links: &mut L, place: Place, from: Option<Place>, to: Option<Place>) {
        let _ = from;
        links.set_next(place, to);
    }

    // This call writes nothing, because no entry of a singly linked list names the previous place.
    #[inline]
    fn set_prev(links: &mut L, place: Place, from: Option<Place>, to: Option<Place>) {
        let _ = &*links;
        let _ = place;
        let _ = from;
        let _ = to;
    }

    #[inline]
    fn set_neighbors(links: &mut L, place: Place, prev: Option<Place>, next: Option<Place>) {
        let _ = prev;
        links.set_next(place, next);
    }

    #[inline]
    fn link_between(links: &mut L, place: Place, prev: Option<Place>, next: Option<Place>) -> bool {
        let _ = prev;
        links.link_before(place, next)
    }

    ghost between_linked = { λ e b a h. sym (L.linked_alike e) ∙ h.linked };

    ghost leads = { λ e b a h. h.next };
}
