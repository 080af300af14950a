//! Edits of a collection at a gap: at its ends, and beside its cursor.
//!
//! ```text
//! queue.insert(&mut field, Gap::Back, place)  // true: it was not linked
//! queue.insert(&mut field, Gap::Front, place) // false: nothing has changed
//! queue.move_next(&field);
//! queue.remove(&mut field, Gap::Before)      // Some(place)
//! ```

ghost use Rattle.std.specs.Prelude.{◌≡◌, is_some, true};
ghost use Rattle.std.specs.Bool.{OnTrue, OnFalse};
ghost use Rattle.ic_link_ops.specs.Prelude.{first, IsCovered, IsLinked};
ghost use Rattle.ic_any_collection.specs.Prelude.{table_in, is_linked, can_insert, can_remove, can_replace, IsGapAt, IsFrontOf, rests, onward, onto, kind_in, cursor_in, members_in, Held, AtGap, Puts, TakesIfAny, SwapsIfAny, IsUnchanged};

use crate::gap::Gap;
use crate::{AnyCollection, AnyTable, at_gap};
use ic_cursors::{Bidirectional, ForwardOnly};
use ic_unsafe_ref::Place;
use std::alloc::Allocator;

impl<T> AnyCollection<T> {
    /// Inserts the object into the gap, and returns whether the object's link was acquired. If the object is already linked, the call returns
    /// `false`, and nothing changes. Otherwise, if the gap is an end of a list, the cursor goes to null. At other gaps it stays. O(1), in a tree
    /// O(log n).
    ///
    /// It requires that the collection's kind can insert into the gap, as [`Gap::can_insert`] says, and that the table covers the object's place.
    #[inline(always)]
    pub fn insert<M: Allocator>(&mut self, links: &mut AnyTable<M>, gap: Gap, object: Place) -> bool
        requires held { Held (table_in links.old) self.old }
        requires can { can_insert gap (kind_in self.old) ≡ true }
        requires covered { IsCovered (table_in links.old) object }
        ensures inserted { OnTrue result (AtGap (members_in (table_in links.old) self.old) (λ cut. IsGapAt gap (cursor_in self.old) cut
            × Puts (table_in links.old) (table_in links.new) self.old self.new cut object (rests gap (cursor_in self.old)))) }
        ensures refused { OnFalse result (IsLinked is_linked (table_in links.old) object × IsUnchanged links.old links.new self.old self.new) }
    {
        match self {
            Self::Singly(list, at) => at_gap::insert_after(list, links, at, gap, object),
            Self::Doubly(list, at) => at_gap::insert(list, links.with_prev_mut(), at, gap, object),
            Self::Xor(list, at) => at_gap::insert(list, links, at, gap, object),
            Self::Tree(tree, at) => at_gap::insert(tree, links.tree_mut(), at, gap, object),
        }
    }

    /// Removes the member after the gap, or the last member if the gap is at the back, and returns it. It returns `None` if there is no such member.
    /// If the gap is an end of a list, the cursor goes to null. Otherwise, a cursor that is on the removed member goes to the next member. O(1), in a
    /// tree O(log n).
    ///
    /// It requires that the collection's kind can remove at the gap, as [`Gap::can_remove`] says.
    #[inline(always)]
    pub fn remove<M: Allocator>(&mut self, links: &mut AnyTable<M>, gap: Gap) -> Option<Place>
        requires held { Held (table_in links.old) self.old }
        requires can { can_remove gap (kind_in self.old) ≡ true }
        ensures { AtGap (members_in (table_in links.old) self.old) (λ cut. IsFrontOf gap (members_in (table_in links.old) self.old) (cursor_in self.old) cut
            × (result ≡ first cut.back) × TakesIfAny links.old links.new self.old self.new cut (onward gap (cursor_in self.old) cut) result) }
    {
        match self {
            Self::Singly(list, at) => at_gap::remove_after(list, links, at, gap),
            Self::Doubly(list, at) => at_gap::remove(list, links.with_prev_mut(), at, gap),
            Self::Xor(list, at) => at_gap::remove(list, links, at, gap),
            Self::Tree(tree, at) => tree.remove_at(links.tree_mut(), at),
        }
    }

    /// Replaces the member after the gap by the object. It returns the replaced member, and whether the object's link was acquired. A cursor that was
    /// on the replaced member is then on the object. If no member follows the gap, or if the object is already linked, nothing changes. O(1).
    ///
    /// It requires that the collection's kind can replace at the gap, as [`Gap::can_replace`] says, and that the table covers the object's place.
    #[inline(always)]
    pub fn replace<M: Allocator>(
        &mut self,
        links: &mut AnyTable<M>,
        gap: Gap,
        object: Place,
    ) -> (Option<Place>, bool)
        requires held { Held (table_in links.old) self.old }
        requires can { can_replace gap (kind_in self.old) ≡ true }
        requires covered { IsCovered (table_in links.old) object }
        ensures { AtGap (members_in (table_in links.old) self.old) (λ cut. IsFrontOf gap (members_in (table_in links.old) self.old) (cursor_in self.old) cut
            × (is_some result.0 ≡ is_some (first cut.back)) × SwapsIfAny links.old links.new self.old self.new cut object (onto gap (cursor_in self.old) object) result.0 result.1) }
    {
        let _ = gap;
        match self {
            Self::Singly(list, at) => list.replace_next_at(links, at, object),
            Self::Doubly(list, at) => at_gap::replace(list, links.with_prev_mut(), at, object),
            Self::Xor(list, at) => at_gap::replace(list, links, at, object),
            Self::Tree(tree, at) => at_gap::replace(tree, links.tree_mut(), at, object),
        }
    }
}
