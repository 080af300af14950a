//! XOR linked lists over places that are claimed.
//!
//! ```text
//! let mut links = xor_linked_list::AtomicLinkOps::new(&claims, holder, table);
//! list.push_back(&mut links, object)?;
//! ```

use crate::plain_link_ops::PlainLinkOps;
use ic_link_ops::xor_linked_list::{LinkOps, XorLinkedListOps};
use ic_unsafe_ref::Place;
use std::alloc::{Allocator, Global};

/// The plain table for XOR lists over claimed places.
pub type AtomicLinkOps<'c, A = Global> = crate::AtomicLinkOps<'c, LinkOps<A>, A>;

impl<L: PlainLinkOps + XorLinkedListOps, A: Allocator> XorLinkedListOps
    for crate::AtomicLinkOps<'_, L, A> {
    ghost HasNeighbors = { L.HasNeighbors };

    ghost other = { L.other };

    #[inline]
    fn next(&self, place: Place, prev: Option<Place>) -> Option<Place> {
        self.links.next(place, prev)
    }

    #[inline]
    fn prev(&self, place: Place, next: Option<Place>) -> Option<Place> {
        self.links.prev(place, next)
    }

    #[inline]
    fn set(&mut self, place: Place, prev: Option<Place>, next: Option<Place>) {
        self.links.set(place, prev, next);
    }

    #[inline]
    fn replace_next_or_prev(&mut self, place: Place, old: Option<Place>, new: Option<Place>) {
        self.links.replace_next_or_prev(place, old, new);
    }

    ghost symmetric = { L.symmetric };

    ghost one_other = { L.one_other };

    ghost finds_other = { L.finds_other };
}
