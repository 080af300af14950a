//! Singly linked lists over places that are claimed.
//!
//! ```text
//! let mut links = singly_linked_list::AtomicLinkOps::new(&claims, holder, table);
//! list.push_front(&mut links, object)?;
//! ```

use crate::plain_link_ops::PlainLinkOps;
use ic_link_ops::singly_linked_list::{LinkOps, SinglyLinkedListOps};
use ic_unsafe_ref::Place;
use std::alloc::{Allocator, Global};

/// The plain table for singly linked lists over claimed places.
pub type AtomicLinkOps<'c, A = Global> = crate::AtomicLinkOps<'c, LinkOps<A>, A>;

impl<L: PlainLinkOps + SinglyLinkedListOps, A: Allocator> SinglyLinkedListOps
    for crate::AtomicLinkOps<'_, L, A> {
    ghost successor = { L.successor };

    #[inline]
    fn next(&self, place: Place) -> Option<Place> {
        self.links.next(place)
    }

    #[inline]
    fn set_next(&mut self, place: Place, next: Option<Place>) {
        self.links.set_next(place, next);
    }

    ghost linked_alike = { L.SinglyLinkedListOps.linked_alike };
}
