//! Calls that only read a collection: they return its members from the front, and whether a place is a member.
//!
//! ```text
//! queue.listed(alloc, &field)?     // the places of all members
//! queue.contains(&field, place)    // whether the place is one of them
//! ```

ghost use Rattle.std.specs.Prelude.{◌≡◌, ◌↔◌, Option, Some, None, IsTrue, IfOk, IfSome, IfNone, drop};
ghost use Rattle.ic_link_ops.specs.Prelude.{Place, Cut, join, first, last, IsAfter, IsBefore, IsMember, IsAbsent, IsCovered};
ghost use Rattle.ic_any_collection.specs.Prelude.{table_in, members_in, Held, AtGap};

use crate::{AnyCollection, AnyTable};
use ic_cursors::{CursorOps, Position};
use ic_link_ops::PlaceWord;
use ic_unsafe_ref::Place;
use std::alloc::{AllocError, Allocator};

impl<T> AnyCollection<T> {
    // Returns the first member of the collection, or `None` if it is empty.
    #[inline]
    fn front<M: Allocator>(&self, links: &AnyTable<M>) -> Option<Place>
        requires held { Held (table_in links.now) self.now }
        ensures { result ≡ first (members_in (table_in links.now) self.now) }
    {
        match self {
            Self::Singly(list, _) => list.first(),
            Self::Doubly(list, _) => list.first(),
            Self::Xor(list, _) => list.first(),
            Self::Tree(tree, _) => tree.first(links.tree()),
        }
    }

    /// Returns the member after `place`, or `None` if `place` is the last. It requires that `place` is a member, and that `prev` is the member before
    /// `place`. O(1), in a tree O(log n).
    #[inline]
    pub fn after<M: Allocator>(
        &self,
        links: &AnyTable<M>,
        prev: Option<Place>,
        place: Place,
    ) -> Option<Place>
        requires held { Held (table_in links.now) self.now }
        requires member { AtGap (members_in (table_in links.now) self.now) (λ gap. IsAfter gap prev × IsBefore gap (Some place)) }
        ensures { (gap : Cut) → join gap ≡ members_in (table_in links.now) self.now → IsAfter gap prev → IsBefore gap (Some place)
            → result ≡ first (drop 1 gap.back) }
    {
        let at = PlaceWord::of(Some(place));
        match self {
            Self::Singly(list, _) => list.next_of(links, &at).get(),
            Self::Doubly(list, _) => list.next_of(links.with_prev(), &at).get(),
            Self::Xor(list, _) => list.position_at(links, prev, Some(place)).next(),
            Self::Tree(tree, _) => tree.next_of(links.tree(), &at).get(),
        }
    }

    /// Returns the members from the front, in memory of `alloc`. O(members).
    pub fn listed<M: Allocator, N: Allocator>(
        &self,
        alloc: N,
        links: &AnyTable<M>,
    ) -> Result<Vec<Place, N>, AllocError>
        requires held { Held (table_in links.now) self.now }
        ensures { IfOk result (λ places. places.items ≡ members_in (table_in links.now) self.now) }
    {
        let mut places = Vec::new(alloc);
        let mut prev = None;
        let mut current = self.front(links);
        while let Some(place) = current {
            places.push(place)?;
            current = self.after(links, prev, place);
            prev = Some(place);
        }
        Ok(places)
    }

    /// Returns the member before the member `place`, or `Some(None)` if `place` is the first member. If `place` is no member, it returns `None`. It
    /// walks from the front: O(members).
    pub fn find_prev<M: Allocator>(
        &self,
        links: &AnyTable<M>,
        place: Place,
    ) -> Option<Option<Place>>
        requires held { Held (table_in links.now) self.now }
        ensures member { IfSome result (λ prev. AtGap (members_in (table_in links.now) self.now)
            (λ gap. IsAfter gap prev × IsBefore gap (Some place))) }
        ensures none { IfNone result (IsAbsent place (members_in (table_in links.now) self.now)) }
    {
        let mut prev = None;
        let mut current = self.front(links);
        while let Some(member) = current {
            if member == place {
                return Some(prev);
            }
            current = self.after(links, prev, member);
            prev = Some(member);
        }
        None
    }

    /// Returns whether the place is a member. It requires that the table covers the place. In a list it walks from the front, in O(members). In a
    /// tree it climbs to the root, in O(log n).
    pub fn contains<M: Allocator>(&self, links: &AnyTable<M>, place: Place) -> bool
        requires held { Held (table_in links.now) self.now }
        requires covered { IsCovered (table_in links.now) place }
        ensures { IsTrue result ↔ IsMember place (members_in (table_in links.now) self.now) }
    {
        match self {
            Self::Singly(list, _) => list.contains(links, place),
            Self::Doubly(list, _) => list.contains(links.with_prev(), place),
            Self::Xor(list, _) => list.contains(links, place),
            Self::Tree(tree, _) => tree.contains(links.tree(), place),
        }
    }
}
