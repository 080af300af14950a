//! A walk over a list that removes each member that it returns.
//!
//! ```text
//! let mut rest = list.into_iter(&mut links);
//! let first = rest.next();      // unlinked now
//! rest.finish();                // and all others
//! ```

ghost use Rattle.std.specs.Prelude.{◌≡◌, List};
ghost use Rattle.std.specs.Iterator.{item_count};
ghost use Rattle.ic_link_ops.specs.Prelude.{Place, ChangesOnlyIn, releases_each, RepresentsChain, RepresentsSomeChain};
ghost use Rattle.ic_link_ops.specs.Taking.{Leaves, CanTake, TakesFirst, TakesLast};

use crate::LinkList;
use crate::kind::{BidirectionalLinks, DoubleEnded, ForwardLinks, ListKind};
use ic_link_ops::LinkOps;
use ic_unsafe_ref::UnsafeRef;

/// A walk that removes and returns the members of a list. `next` takes the first member. `next_back` takes the last member, if the entries of the
/// kind can be read from back to front.
///
/// The walk unlinks each member that it returns, and no other member. If the walk is dropped, the remaining members stay linked: call
/// [`finish`](Self::finish) to unlink them.
pub struct IntoIter<'a, K: ListKind, T, L> {
    list: LinkList<K, T>,
    links: &'a mut L,
}

impl<K: ListKind, T, L> Drop for IntoIter<'_, K, T, L> {
    fn drop(self)
        ensures links { self.exit.1.0.now ≡ self.entry.links.now }
    {
        let IntoIter { list: _, links: _ } = self;
    }
}

impl<'a, T, L: LinkOps, K: ForwardLinks<L>> Iterator for IntoIter<'a, K, T, L> {
    type Item = UnsafeRef<T>;

    ghost use Rattle.ic_chain.specs.IntoIter.{rest_of, members_left};

    ghost can_next = { λ t. CanTake (RepresentsChain K.Between K.kept) L.table (rest_of t) };

    ghost next_gives = { λ s r t. TakesFirst (RepresentsChain K.Between K.kept) L.table L.Trace (rest_of s) r (rest_of t) };

    ghost remaining = { item_count (members_left K.step L.table) };

    /// Removes the first remaining member and returns it, or `None` if none is left. O(1).
    #[inline]
    fn next(&mut self) -> Option<UnsafeRef<T>> {
        self.list.pop_front(self.links)
    }
}

impl<'a, T, L: LinkOps, K: DoubleEnded + BidirectionalLinks<L>> DoubleEndedIterator
    for IntoIter<'a, K, T, L> {
    ghost use Rattle.ic_chain.specs.IntoIter.{rest_of};

    ghost can_next_back = { λ t. CanTake (RepresentsChain K.Between K.kept) L.table (rest_of t) };

    ghost next_back_gives = { λ s r t. TakesLast (RepresentsChain K.Between K.kept) L.table L.Trace (rest_of s) r (rest_of t) };

    /// Removes the last remaining member and returns it, or `None` if none is left. O(1).
    #[inline]
    fn next_back(&mut self) -> Option<UnsafeRef<T>> {
        self.list.pop_back(self.links)
    }
}

impl<'a, T, L: LinkOps, K: ForwardLinks<L>> IntoIter<'a, K, T, L> {
    ghost use Rattle.ic_chain.specs.IntoIter.{rest_of};

    /// The table of links in its current state, while the walk borrows it. O(1).
    #[inline]
    pub fn links(&self) -> &L
        ensures { result.now ≡ self.now.links.now }
    {
        self.links
    }

    /// Unlinks the members that the walk has not returned. The call makes one step for each of these members, and takes no memory. O(n).
    pub fn finish(self)
        requires can_take { CanTake (RepresentsChain K.Between K.kept) L.table (rest_of self) }
        ensures released { (w : List Place) → Leaves (RepresentsChain K.Between K.kept) L.table (rest_of self.entry) w
            → L.Trace self.entry.links.now self.exit.1.0.now (releases_each w) }
        ensures frame { (w : List Place) → Leaves (RepresentsChain K.Between K.kept) L.table (rest_of self.entry) w
            → ChangesOnlyIn (L.table self.entry.links.now) (L.table self.exit.1.0.now) w }
    {
        let IntoIter { list, links } = self;
        list.dispose(links);
    }
}

impl<K: ListKind, T> LinkList<K, T> {
    /// Makes a walk that removes the members of the list. The call itself unlinks no member: O(1).
    pub fn into_iter<'a, L: LinkOps>(self, links: &'a mut L) -> IntoIter<'a, K, T, L>
    where
        K: ForwardLinks<L>,
        requires shown { RepresentsSomeChain K.Between K.kept (L.table links.old) self }
        ensures list { result.list ≡ self }
        ensures links { result.links.now ≡ links.entry.now }
        ensures same_links { result.links.ghost_name ≡ links.entry.ghost_name }
    {
        IntoIter { list: self, links }
    }
}
