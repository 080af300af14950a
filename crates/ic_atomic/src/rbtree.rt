//! Red-black trees over places that are claimed.
//!
//! ```text
//! let mut links = rbtree::AtomicLinkOps::new(&claims, holder, table);
//! tree.insert(&mut links, &objects, object)?; // its repairs touch no claim
//! ```

use crate::plain_link_ops::PlainLinkOps;
use ic_link_ops::Color;
use ic_link_ops::rbtree::{LinkOps, RBTreeOps};
use ic_unsafe_ref::Place;
use std::alloc::{Allocator, Global};

/// The plain table for red-black trees over claimed places.
pub type AtomicLinkOps<'c, A = Global> = crate::AtomicLinkOps<'c, LinkOps<A>, A>;

impl<L: PlainLinkOps + RBTreeOps, A: Allocator> RBTreeOps for crate::AtomicLinkOps<'_, L, A> {
    ghost node = { L.node };

    #[inline]
    fn left(&self, place: Place) -> Option<Place> {
        self.links.left(place)
    }

    #[inline]
    fn right(&self, place: Place) -> Option<Place> {
        self.links.right(place)
    }

    #[inline]
    fn parent(&self, place: Place) -> Option<Place> {
        self.links.parent(place)
    }

    #[inline]
    fn color(&self, place: Place) -> Color {
        self.links.color(place)
    }

    #[inline]
    fn set_left(&mut self, place: Place, left: Option<Place>) {
        self.links.set_left(place, left);
    }

    #[inline]
    fn set_right(&mut self, place: Place, right: Option<Place>) {
        self.links.set_right(place, right);
    }

    #[inline]
    fn set_parent(&mut self, place: Place, parent: Option<Place>) {
        self.links.set_parent(place, parent);
    }

    #[inline]
    fn set_color(&mut self, place: Place, color: Color) {
        self.links.set_color(place, color);
    }

    #[inline]
    fn set_parent_and_color(&mut self, place: Place, parent: Option<Place>, color: Color) {
        self.links.set_parent_and_color(place, parent, color);
    }

    ghost linked_alike = { L.RBTreeOps.linked_alike };
}
