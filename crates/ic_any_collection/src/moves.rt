//! Moves of a collection's cursor.
//!
//! ```text
//! queue.go_null();
//! queue.move_next(&field) // the first member, or none
//! ```

ghost use Rattle.std.specs.Prelude.{◌≡◌, List, Some, None, true};
ghost use Rattle.ic_link_ops.specs.Prelude.{Place, first, last, IsAfter, IsBefore, Table};
ghost use Rattle.ic_any_collection.specs.Prelude.{Entry, table_in, kind_in, cursor_in, members_in, has_before, is_xor, Keeps, Held, Alike, AtGap, Moves};

use crate::{AnyCollection, AnyTable};
use ic_chain::ListPosition;
use ic_cursors::{Bidirectional, CursorOps, Position};
use ic_link_ops::PlaceWord;
use ic_unsafe_ref::Place;
use std::alloc::Allocator;

// Moves the position `at` to the position `to`, and returns the member at `to`, or `None` at null.
#[inline]
fn moved_to<P: Position>(at: &mut P, to: P) -> Option<Place>
    ensures moved { at.new ≡ to }
    ensures answer { result ≡ P.member to }
{
    *at = to;
    at.get()
}

impl<T> AnyCollection<T> {
    /// Moves the cursor to null. It reads no table, and requires nothing. O(1).
    #[inline]
    pub fn go_null(&mut self)
        ensures kept { (t : Table Entry) (s : List Place) → Keeps t self.old s → Keeps t self.new s }
        ensures alike { Alike self.old self.new }
        ensures null { cursor_in self.new ≡ None }
    {
        let null = PlaceWord::of(None);
        match self {
            Self::Singly(_, at) => *at = null,
            Self::Doubly(_, at) => *at = null,
            Self::Xor(_, at) => *at = ListPosition::null(),
            Self::Tree(_, at) => *at = null,
        }
    }

    /// Moves the cursor to the next member, and returns the member that the cursor is then on. From null the cursor goes to the first member, and
    /// from the last member to null. O(1), in a tree O(log n).
    ///
    /// It requires that the field's table represents the members of the collection. All calls that have the table as an argument require this.
    #[inline]
    pub fn move_next<M: Allocator>(&mut self, links: &AnyTable<M>) -> Option<Place>
        requires held { Held (table_in links.now) self.old }
        ensures moved { AtGap (members_in (table_in links.now) self.old) (λ gap. IsAfter gap (cursor_in self.old)
            × Moves (table_in links.now) self.old self.new (first gap.back)) }
        ensures answer { result ≡ cursor_in self.new }
    {
        match self {
            Self::Singly(list, at) => moved_to(at, list.next_of(links, at)),
            Self::Doubly(list, at) => moved_to(at, list.next_of(links.with_prev(), at)),
            Self::Xor(list, at) => moved_to(at, list.next_of(links, at)),
            Self::Tree(tree, at) => moved_to(at, tree.next_of(links.tree(), at)),
        }
    }

    /// Moves the cursor to the previous member, and returns the member that the cursor is then on. From null the cursor goes to the last member, and
    /// from the first member to null. O(1), in a tree O(log n).
    ///
    /// It requires that the collection is not a singly linked list.
    #[inline]
    pub fn move_prev<M: Allocator>(&mut self, links: &AnyTable<M>) -> Option<Place>
        requires held { Held (table_in links.now) self.old }
        requires can { has_before (kind_in self.old) ≡ true }
        ensures moved { AtGap (members_in (table_in links.now) self.old) (λ gap. IsBefore gap (cursor_in self.old)
            × Moves (table_in links.now) self.old self.new (last gap.front)) }
        ensures answer { result ≡ cursor_in self.new }
    {
        match self {
            Self::Singly(..) => unreachable!(),
            Self::Doubly(list, at) => moved_to(at, list.prev_of(links.with_prev(), at)),
            Self::Xor(list, at) => moved_to(at, list.prev_of(links, at)),
            Self::Tree(tree, at) => moved_to(at, tree.prev_of(links.tree(), at)),
        }
    }

    /// Puts the cursor on the member `place`. In an XOR list it requires that `prev` is the member before `place`, or `None` if `place` is the first
    /// member. Other kinds ignore `prev`. O(1).
    #[inline]
    pub fn stand_on<M: Allocator>(&mut self, links: &AnyTable<M>, prev: Option<Place>, place: Place)
        requires held { Held (table_in links.now) self.old }
        requires member { AtGap (members_in (table_in links.now) self.old) (λ gap. IsBefore gap (Some place)
            × (is_xor (kind_in self.old) ≡ true → IsAfter gap prev)) }
        ensures { Moves (table_in links.now) self.old self.new (Some place) }
    {
        let there = PlaceWord::of(Some(place));
        match self {
            Self::Singly(_, at) => *at = there,
            Self::Doubly(_, at) => *at = there,
            Self::Xor(list, at) => *at = list.position_at(links, prev, Some(place)),
            Self::Tree(_, at) => *at = there,
        }
    }
}
