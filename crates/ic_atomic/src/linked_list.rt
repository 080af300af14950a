//! Doubly linked lists over places that are claimed.
//!
//! ```text
//! let mut links = linked_list::AtomicLinkOps::new(&claims, holder, table);
//! list.push_back(&mut links, object)?;
//! ```

use crate::plain_link_ops::PlainLinkOps;
use ic_link_ops::linked_list::{LinkOps, LinkedListOps};
use ic_unsafe_ref::Place;
use std::alloc::{Allocator, Global};

/// The plain table for doubly linked lists over claimed places.
pub type AtomicLinkOps<'c, A = Global> = crate::AtomicLinkOps<'c, LinkOps<A>, A>;

impl<L: PlainLinkOps + LinkedListOps, A: Allocator> LinkedListOps
    for crate::AtomicLinkOps<'_, L, A> {
    ghost neighbors = { L.neighbors };

    #[inline]
    fn next(&self, place: Place) -> Option<Place> {
        self.links.next(place)
    }

    #[inline]
    fn prev(&self, place: Place) -> Option<Place> {
        self.links.prev(place)
    }

    #[inline]
    fn set_next(&mut self, place: Place, next: Option<Place>) {
        self.links.set_next(place, next);
    }

    #[inline]
    fn set_prev(&mut self, place: Place, prev: Option<Place>) {
        self.links.set_prev(place, prev);
    }

    ghost linked_alike = { L.LinkedListOps.linked_alike };
}
