//! How a list of any kind implements the calls of cursors: the moves from a position, and the edits at a position.
//!
//! An edit "after" a position is made in the gap after the position's member, or in the first gap if the position is null. An edit "before" a position is
//! made in the gap before its member, or in the last gap if the position is null. An edit after the position also renews what the position stores about the
//! next place. The traits in `ic_cursors` document what each call does.

ghost use Rattle.std.specs.Prelude.{◌≡◌, List, ⊤};
ghost use Rattle.ic_link_ops.specs.Prelude.{Cut, join, IsAfter, IsBefore, RepresentsChain};
ghost use Rattle.ic_chain.specs.Standing.{IsValidAt};

use crate::LinkList;
use crate::kind::{BidirectionalLinks, DoubleEnded, ForwardLinks, ListKind, SingleEnded};
use crate::position::ListPosition;
use ic_cursors::{
    Bidirectional, BidirectionalSplice, Collection, CursorOps, ForwardOnly, Position, Splice,
};
use ic_link_ops::LinkOps;
use ic_unsafe_ref::Place;
use std::mem;

impl<K: ListKind, T> Collection for LinkList<K, T> {
    type Object = T;

    type Position = K::Position;

    type Head = LinkList<K, T>;

    ghost head_of = { λ list. list };

    ghost Keeps = { λ old new. ⊤ };

    ghost null_of = { λ list. K.Position.null };

    #[inline]
    fn null_position(&self) -> K::Position {
        ListPosition::null()
    }
}

// These functions find the neighbors of a position for an edit. They read an end of the list inline, because edits are often made at null. A cursor's
// move reads an end only when it leaves null, so it calls a function that is not inlined.
impl<K: ListKind, T> LinkList<K, T> {
    // The member after the position, or the first member of the list if the position is null.
    #[inline]
    fn after<L: LinkOps>(&self, links: &L, at: &K::Position) -> Option<Place>
    where
        K: ForwardLinks<L>,
        requires { IsValidAt (RepresentsChain K.Between K.kept) L.table K.Position.member K.Position.CachesNext links.now self.now at.now }
        ensures { (gap : Cut) → RepresentsChain K.Between K.kept (L.table links.now) self.now (join gap) → IsAfter gap (K.Position.member at.now) → IsBefore gap result }
    {
        match at.get() {
            None => self.first(),
            Some(place) => K::next_at(links, place, at),
        }
    }

    /// The position on the member `current`, or at null if `current` is `None`, in the form that a cursor of the list stores. `prev` is the member
    /// before the position.
    ///
    /// If the kind of list makes a position from the member's entry, the call requires that `prev` is the member before `current`. The call reads at most one
    /// entry: O(1).
    #[inline]
    pub fn position_at<L: LinkOps>(
        &self,
        links: &L,
        prev: Option<Place>,
        current: Option<Place>,
    ) -> K::Position
    where
        K: ForwardLinks<L>,
        requires shown { K.ReadsNext → (gap : Cut) × RepresentsChain K.Between K.kept (L.table links.now) self.now (join gap)
            × IsAfter gap prev × IsBefore gap current }
        ensures on { K.Position.member result ≡ current }
        ensures kept { (gap : Cut) → RepresentsChain K.Between K.kept (L.table links.now) self.now (join gap) → IsAfter gap prev → IsBefore gap current
            → IsValidAt (RepresentsChain K.Between K.kept) L.table K.Position.member K.Position.CachesNext links.now self.now result }
    {
        match current {
            None => ListPosition::null(),
            Some(place) => K::position_at(links, place, prev),
        }
    }
}

impl<K: DoubleEnded, T> LinkList<K, T> {
    // The member before the position, or the last member of the list if the position is null.
    #[inline]
    fn before<L: LinkOps>(&self, links: &L, at: &K::Position) -> Option<Place>
    where
        K: BidirectionalLinks<L>,
        requires { IsValidAt (RepresentsChain K.Between K.kept) L.table K.Position.member K.Position.CachesNext links.now self.now at.now }
        ensures { (gap : Cut) → RepresentsChain K.Between K.kept (L.table links.now) self.now (join gap) → IsBefore gap (K.Position.member at.now) → IsAfter gap result }
    {
        match at.get() {
            None => self.last(),
            Some(place) => {
                let after = K::next_at(links, place, at);
                K::prev(links, place, after)
            }
        }
    }
}

impl<T, L: LinkOps, K: ForwardLinks<L>> CursorOps<L> for LinkList<K, T> {
    ghost Represents = { RepresentsChain K.Between K.kept };

    ghost IsValidAt = { IsValidAt (RepresentsChain K.Between K.kept) L.table K.Position.member K.Position.CachesNext };

    #[inline]
    fn next_of(&self, links: &L, at: &K::Position) -> K::Position {
        let current = at.get();
        match current {
            None => self.position_at(links, current, self.head_from_null()),
            Some(_) => self.position_at(links, current, self.after(links, at)),
        }
    }

    #[inline]
    fn insert_after_at(&mut self, links: &mut L, at: &mut K::Position, object: Place) -> bool {
        let current = at.get();
        let after = self.after(&*links, at);
        if !self.insert_between(links, current, object, after) {
            return false;
        }
        *at = ListPosition::of(current, Some(object));
        true
    }
}

impl<T, L: LinkOps, K: SingleEnded + ForwardLinks<L>> ForwardOnly<L> for LinkList<K, T> {
    #[inline]
    fn remove_next_at(&mut self, links: &mut L, at: &mut K::Position) -> Option<Place> {
        let current = at.get();
        let place = self.after(&*links, at)?;
        let after = K::next(&*links, place, current);
        self.unlink(links, current, place, after);
        *at = ListPosition::of(current, after);
        Some(place)
    }

    #[inline]
    fn replace_next_at(
        &mut self,
        links: &mut L,
        at: &mut K::Position,
        object: Place,
    ) -> (Option<Place>, bool) {
        let current = at.get();
        let next = self.after(&*links, at);
        let Some(out) = next else {
            return (None, false);
        };
        let after = K::next(&*links, out, current);
        if !self.replace(links, current, out, object, after) {
            return (next, false);
        }
        *at = ListPosition::of(current, Some(object));
        (next, true)
    }
}

impl<T, L: LinkOps, K: DoubleEnded + BidirectionalLinks<L>> Bidirectional<L> for LinkList<K, T> {
    #[inline]
    fn prev_of(&self, links: &L, at: &K::Position) -> K::Position {
        let current = at.get();
        match current {
            None => ListPosition::of(self.last_from_null(), current),
            Some(_) => ListPosition::of(self.before(links, at), current),
        }
    }

    #[inline]
    fn insert_before_at(&mut self, links: &mut L, at: &mut K::Position, object: Place) -> bool {
        let current = at.get();
        let before = self.before(&*links, at);
        if !self.insert_between(links, before, object, current) {
            return false;
        }
        true
    }

    #[inline]
    fn remove_at(&mut self, links: &mut L, at: &mut K::Position) -> Option<Place> {
        let place = at.get()?;
        let before = self.before(&*links, at);
        let after = self.after(&*links, at);
        self.unlink(links, before, place, after);
        *at = self.position_at(&*links, before, after);
        Some(place)
    }

    #[inline]
    fn replace_at(&mut self, links: &mut L, at: &mut K::Position, object: Place) -> bool {
        let Some(out) = at.get() else {
            return false;
        };
        let before = self.before(&*links, at);
        let after = self.after(&*links, at);
        if !self.replace(links, before, out, object, after) {
            return false;
        }
        *at = ListPosition::of(Some(object), after);
        true
    }
}

impl<T, L: LinkOps, K: ForwardLinks<L>> Splice<L> for LinkList<K, T> {
    #[inline]
    fn splice_after_at(&mut self, links: &mut L, at: &mut K::Position, given: LinkList<K, T>) {
        let current = at.get();
        let after = self.after(&*links, at);
        let first = given.first();
        let last = given.last_before(&*links, after);
        self.splice_between(links, current, given, last, after);
        *at = ListPosition::of(current, first.or(after));
    }

    #[inline]
    fn split_after_at(&mut self, links: &mut L, at: &mut K::Position) -> LinkList<K, T> {
        let current = at.get();
        let after = self.after(&*links, at);
        let rest = self.split_between(links, current, after);
        *at = ListPosition::of(current, None);
        rest
    }
}

impl<T, L: LinkOps, K: DoubleEnded + BidirectionalLinks<L>> BidirectionalSplice<L>
    for LinkList<K, T> {
    #[inline]
    fn splice_before_at(&mut self, links: &mut L, at: &mut K::Position, given: LinkList<K, T>) {
        let current = at.get();
        let before = self.before(&*links, at);
        let last = given.last();
        self.splice_between(links, before, given, last, current);
    }

    #[inline]
    fn split_before_at(&mut self, links: &mut L, at: &mut K::Position) -> LinkList<K, T> {
        let current = at.get();
        let before = self.before(&*links, at);
        let rest = self.split_between(links, before, current);
        mem::replace(self, rest)
    }
}
