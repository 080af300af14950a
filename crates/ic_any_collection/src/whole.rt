//! Calls that move or unlink all members of a collection, or the members on one side of its cursor.
//!
//! ```text
//! let after = queue.split_after(&mut field);
//! queue.splice_after(&mut field, after); // as it was
//! queue.unlink_all(&mut field);
//! ```

ghost use Rattle.std.specs.Prelude.{◌≡◌, List, None, [], true};
ghost use Rattle.std.specs.Prelude.{reverse};
ghost use Rattle.ic_link_ops.specs.Prelude.{Place, IsAfter, IsBefore, IsDisjoint, Table, ChangesOnlyIn, TraceIs, releases_each};
ghost use Rattle.ic_any_collection.specs.Prelude.{is_linked, Entry, table_in, kind_in, cursor_in, members_in, is_list, is_two_way_list, is_xor, Keeps, Held, Alike, AtGap, Empties, PutsAll, Parts};

use crate::{AnyCollection, AnyTable};
use ic_chain::ListPosition;
use ic_cursors::{BidirectionalSplice, Splice};
use std::alloc::Allocator;
use std::mem;

impl<T> AnyCollection<T> {
    /// Returns a collection with all members and with its cursor at null, and leaves `self` empty. It costs O(1), because it reads no table and
    /// changes no link.
    #[inline]
    pub fn take(&mut self) -> AnyCollection<T>
        ensures whole { (t : Table Entry) (s : List Place) → Keeps t self.old s → Keeps t result s }
        ensures whole_alike { Alike self.old result }
        ensures whole_null { cursor_in result ≡ None }
        ensures empty { (t : Table Entry) (s : List Place) → Keeps t self.old s → Keeps t self.new [] }
        ensures empty_alike { Alike self.old self.new }
        ensures empty_null { cursor_in self.new ≡ None }
    {
        let empty = AnyCollection::new(self.kind());
        let mut taken = mem::replace(self, empty);
        taken.go_null();
        taken
    }

    /// Unlinks all members of a collection and drops it. It makes one step for each member.
    pub fn dispose<M: Allocator>(self, links: &mut AnyTable<M>)
        requires held { Held (table_in links.old) self }
        ensures released { TraceIs is_linked (table_in links.old) (table_in links.new) (releases_each (members_in (table_in links.old) self)) }
        ensures frame { ChangesOnlyIn (table_in links.old) (table_in links.new) (members_in (table_in links.old) self) }
    {
        match self {
            Self::Singly(list, _) => list.dispose(links),
            Self::Doubly(list, _) => list.dispose(links.with_prev_mut()),
            Self::Xor(list, _) => list.dispose(links),
            Self::Tree(tree, _) => tree.dispose(links.tree_mut()),
        }
    }

    /// Unlinks all members and leaves the collection empty, with its cursor at null. It makes one step for each member.
    #[inline]
    pub fn unlink_all<M: Allocator>(&mut self, links: &mut AnyTable<M>)
        requires held { Held (table_in links.old) self.old }
        ensures { Empties (table_in links.old) (table_in links.new) self.old self.new }
    {
        self.take().dispose(links);
    }

    /// Moves all members of the collection `given` after the cursor, or to the front if the cursor is at null. The cursor stays.
    ///
    /// It requires that both collections are lists of one kind, that the table `links` represents the members of both, and that they share no member.
    /// O(1). For singly linked lists it reads one entry for each given member.
    #[inline]
    pub fn splice_after<M: Allocator>(&mut self, links: &mut AnyTable<M>, given: AnyCollection<T>)
        requires held { Held (table_in links.old) self.old }
        requires given { Held (table_in links.old) given }
        requires can { is_list (kind_in self.old) ≡ true }
        requires kinds { kind_in given ≡ kind_in self.old }
        requires apart { IsDisjoint (members_in (table_in links.old) given) (members_in (table_in links.old) self.old) }
        ensures { AtGap (members_in (table_in links.old) self.old) (λ gap. IsAfter gap (cursor_in self.old)
            × PutsAll (table_in links.old) (table_in links.new) self.old self.new gap (members_in (table_in links.old) given)) }
    {
        match given {
            Self::Singly(given, _) => {
                if let Self::Singly(list, at) = self {
                    list.splice_after_at(links, at, given);
                }
            }
            Self::Doubly(given, _) => {
                if let Self::Doubly(list, at) = self {
                    list.splice_after_at(links.with_prev_mut(), at, given);
                }
            }
            Self::Xor(given, _) => {
                if let Self::Xor(list, at) = self {
                    list.splice_after_at(links, at, given);
                }
            }
            Self::Tree(..) => unreachable!(),
        }
    }

    /// Moves all members of the collection `given` before the cursor, or to the back if the cursor is at null. The cursor stays.
    ///
    /// It requires that both collections are doubly linked lists, or both are XOR lists. It also requires that the table `links` represents the
    /// members of both, and that they share no member. O(1).
    #[inline]
    pub fn splice_before<M: Allocator>(&mut self, links: &mut AnyTable<M>, given: AnyCollection<T>)
        requires held { Held (table_in links.old) self.old }
        requires given { Held (table_in links.old) given }
        requires can { is_two_way_list (kind_in self.old) ≡ true }
        requires kinds { kind_in given ≡ kind_in self.old }
        requires apart { IsDisjoint (members_in (table_in links.old) given) (members_in (table_in links.old) self.old) }
        ensures { AtGap (members_in (table_in links.old) self.old) (λ gap. IsBefore gap (cursor_in self.old)
            × PutsAll (table_in links.old) (table_in links.new) self.old self.new gap (members_in (table_in links.old) given)) }
    {
        match given {
            Self::Doubly(given, _) => {
                if let Self::Doubly(list, at) = self {
                    list.splice_before_at(links.with_prev_mut(), at, given);
                }
            }
            Self::Xor(given, _) => {
                if let Self::Xor(list, at) = self {
                    list.splice_before_at(links, at, given);
                }
            }
            Self::Singly(..) | Self::Tree(..) => unreachable!(),
        }
    }

    /// Returns the members after the cursor as a collection, or all members if the cursor is at null. The cursor stays.
    ///
    /// It requires that the collection is a list. O(1).
    #[inline]
    pub fn split_after<M: Allocator>(&mut self, links: &mut AnyTable<M>) -> AnyCollection<T>
        requires held { Held (table_in links.old) self.old }
        requires can { is_list (kind_in self.old) ≡ true }
        ensures { AtGap (members_in (table_in links.old) self.old) (λ gap. IsAfter gap (cursor_in self.old)
            × Parts (table_in links.old) (table_in links.new) self.old self.new gap.front gap.back result) }
    {
        match self {
            Self::Singly(list, at) => Self::Singly(
                list.split_after_at(links, at),
                ListPosition::null(),
            ),
            Self::Doubly(list, at) => Self::Doubly(
                list.split_after_at(links.with_prev_mut(), at),
                ListPosition::null(),
            ),
            Self::Xor(list, at) => Self::Xor(list.split_after_at(links, at), ListPosition::null()),
            Self::Tree(..) => unreachable!(),
        }
    }

    /// Returns the members before the cursor as a collection, or all members if the cursor is at null. The cursor stays.
    ///
    /// It requires that the collection is a doubly linked list or an XOR list. O(1).
    #[inline]
    pub fn split_before<M: Allocator>(&mut self, links: &mut AnyTable<M>) -> AnyCollection<T>
        requires held { Held (table_in links.old) self.old }
        requires can { is_two_way_list (kind_in self.old) ≡ true }
        ensures { AtGap (members_in (table_in links.old) self.old) (λ gap. IsBefore gap (cursor_in self.old)
            × Parts (table_in links.old) (table_in links.new) self.old self.new gap.back gap.front result) }
    {
        match self {
            Self::Doubly(list, at) => Self::Doubly(
                list.split_before_at(links.with_prev_mut(), at),
                ListPosition::null(),
            ),
            Self::Xor(list, at) => Self::Xor(list.split_before_at(links, at), ListPosition::null()),
            Self::Singly(..) | Self::Tree(..) => unreachable!(),
        }
    }

    /// Reverses an XOR list, and moves its cursor to null. It costs O(1), because it writes no entry.
    ///
    /// It requires that the collection is an XOR list.
    #[inline]
    pub fn reverse<M: Allocator>(&mut self, links: &AnyTable<M>)
        requires held { Held (table_in links.now) self.old }
        requires can { is_xor (kind_in self.old) ≡ true }
        ensures kept { Keeps (table_in links.now) self.new (reverse (members_in (table_in links.now) self.old)) }
        ensures alike { Alike self.old self.new }
        ensures null { cursor_in self.new ≡ None }
    {
        let _ = links;
        let Self::Xor(list, at) = self else {
            unreachable!()
        };
        list.reverse();
        *at = ListPosition::null();
    }
}
