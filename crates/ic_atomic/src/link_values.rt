//! Values beside links whose places are claimed.
//!
//! ```text
//! let mut links = AtomicLinkOps::new(&claims, holder, table);
//! links.set_value(place, deadline); // whoever holds the place
//! ```

use crate::atomic_link_ops::AtomicLinkOps;
use crate::plain_link_ops::PlainLinkOps;
use ic_link_ops::LinkValues;
use ic_unsafe_ref::{Place, Values};
use std::alloc::Allocator;

impl<V, L: PlainLinkOps + LinkValues<V>, A: Allocator> Values<V> for AtomicLinkOps<'_, L, A> {
    ghost use Rattle.ic_atomic.specs.AtomicLinks.{links_of};

    ghost values = { λ t. L.values (links_of t) };

    #[inline]
    fn value(&self, place: Place) -> &V {
        self.links.value(place)
    }
}

impl<V, L: PlainLinkOps + LinkValues<V>, A: Allocator> LinkValues<V> for AtomicLinkOps<'_, L, A> {
    ghost use Rattle.ic_atomic.specs.AtomicLinks.{links_of};

    ghost LinksAlike = { L.LinksAlike };

    #[inline]
    fn set_value(&mut self, place: Place, value: V) {
        self.links.set_value(place, value);
    }

    ghost covered_has_value = { λ t p covered. L.covered_has_value (links_of t) p covered };

    ghost values_stay = { λ old new e. L.values_stay (links_of old) (links_of new) e };
}
