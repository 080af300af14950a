//! Calls that make the cursors of a list. One kind of cursor reads the list, one edits it, and one edits the list and owns it.
//!
//! ```text
//! let mut cursor = list.front(&links); // on the first member
//! while let Some(place) = cursor.get_ptr() {
//!     cursor.move_next();
//! }
//! let mut cursor = list.cursor_mut(&mut links);
//! cursor.move_next();
//! let removed = cursor.remove(); // and the cursor goes on to the second
//! let mut cursor = list.cursor_owning(); // null; it is handed the table at each call
//! cursor.move_next(&links);
//! let list = cursor.into_inner();
//! ```

ghost use Rattle.std.specs.Prelude.{◌≡◌, List, Option, Some, None};
ghost use Rattle.ic_link_ops.specs.Prelude.{Place, Cut, join, first, last, IsAfter, IsBefore, HasMember, RepresentsChain, RepresentsSomeChain};
ghost use Rattle.ic_chain.specs.Standing.{IsValidAt, HasMemberAfter, HasMemberBefore};

use crate::LinkList;
use crate::kind::{DoubleEnded, ForwardLinks, ListKind, NamesNext, Reversible};
use crate::position::ListPosition;
use ic_cursors::{Cursor, CursorMut, CursorOwning};
use ic_link_ops::LinkOps;
use ic_unsafe_ref::{Place, UnsafeRef};

// The place of the object that the caller passed as a neighbor, or `None` if the caller passed none.
#[inline]
fn place_of<T>(object: Option<UnsafeRef<T>>) -> Option<Place>
    ensures { result ≡ object }
{
    match object {
        None => None,
        Some(object) => Some(object.place()),
    }
}

impl<K: ListKind, T> LinkList<K, T> {
    ghost use Rattle.ic_cursors.specs.Cursor.{list_of, links_of, position, IsValid};

    /// A reading cursor at null, which is between the last member and the first. O(1).
    #[inline]
    pub fn cursor<'a, L: LinkOps>(&'a self, links: &'a L) -> Cursor<'a, LinkList<K, T>, L>
    where
        K: ForwardLinks<L>,
        ensures list { list_of result ≡ self.now }
        ensures links { links_of result ≡ links.now }
        ensures null { position K.Position.member result ≡ None }
        ensures kept { RepresentsSomeChain K.Between K.kept (L.table links.now) self.now
            → IsValid (IsValidAt (RepresentsChain K.Between K.kept) L.table K.Position.member K.Position.CachesNext) result }
    {
        let at: K::Position = ListPosition::null();
        Cursor::new(self, links, at)
    }

    /// A cursor on the first member, or at null in an empty list. O(1).
    #[inline]
    pub fn front<'a, L: LinkOps>(&'a self, links: &'a L) -> Cursor<'a, LinkList<K, T>, L>
    where
        K: ForwardLinks<L>,
        requires shown { K.ReadsNext → RepresentsSomeChain K.Between K.kept (L.table links.now) self.now }
        ensures list { list_of result ≡ self.now }
        ensures links { links_of result ≡ links.now }
        ensures position { (s : List Place) → RepresentsChain K.Between K.kept (L.table links.now) self.now s → position K.Position.member result ≡ first s }
        ensures kept { RepresentsSomeChain K.Between K.kept (L.table links.now) self.now
            → IsValid (IsValidAt (RepresentsChain K.Between K.kept) L.table K.Position.member K.Position.CachesNext) result }
    {
        let at = self.position_at(links, None, self.first());
        Cursor::new(self, links, at)
    }
}

impl<K: DoubleEnded, T> LinkList<K, T> {
    ghost use Rattle.ic_cursors.specs.Cursor.{list_of, links_of, position, IsValid};

    /// A cursor on the last member, or at null in an empty list. O(1).
    #[inline]
    pub fn back<'a, L: LinkOps>(&'a self, links: &'a L) -> Cursor<'a, LinkList<K, T>, L>
    where
        K: ForwardLinks<L>,
        ensures list { list_of result ≡ self.now }
        ensures links { links_of result ≡ links.now }
        ensures position { (s : List Place) → RepresentsChain K.Between K.kept (L.table links.now) self.now s → position K.Position.member result ≡ last s }
        ensures kept { RepresentsSomeChain K.Between K.kept (L.table links.now) self.now
            → IsValid (IsValidAt (RepresentsChain K.Between K.kept) L.table K.Position.member K.Position.CachesNext) result }
    {
        let at: K::Position = ListPosition::of(self.last(), None);
        Cursor::new(self, links, at)
    }
}

impl<K: NamesNext, T> LinkList<K, T> {
    ghost use Rattle.ic_cursors.specs.Cursor.{list_of, links_of, position, IsValid};

    /// A reading cursor on the object. The call requires that the object is a member. The call reads no entry: O(1).
    #[inline]
    pub fn cursor_from_ptr<'a, L: LinkOps>(
        &'a self,
        links: &'a L,
        object: UnsafeRef<T>,
    ) -> Cursor<'a, LinkList<K, T>, L>
    where
        K: ForwardLinks<L>,
        requires member { HasMember (RepresentsChain K.Between K.kept (L.table links.now) self.now) object }
        ensures list { list_of result ≡ self.now }
        ensures links { links_of result ≡ links.now }
        ensures position { position K.Position.member result ≡ Some object }
        ensures kept { IsValid (IsValidAt (RepresentsChain K.Between K.kept) L.table K.Position.member K.Position.CachesNext) result }
    {
        let at: K::Position = ListPosition::of(Some(object.place()), None);
        Cursor::new(self, links, at)
    }
}

impl<K: Reversible, T> LinkList<K, T> {
    ghost use Rattle.ic_cursors.specs.Cursor.{list_of, links_of, position, IsValid};

    /// A reading cursor on the object. The call requires that the object is a member, and that `prev` is the member before it, or `None` if it is the
    /// first member. The call reads one entry: O(1).
    #[inline]
    pub fn cursor_from_ptr_and_prev<'a, L: LinkOps>(
        &'a self,
        links: &'a L,
        object: UnsafeRef<T>,
        prev: Option<UnsafeRef<T>>,
    ) -> Cursor<'a, LinkList<K, T>, L>
    where
        K: ForwardLinks<L>,
        requires member { HasMemberAfter (RepresentsChain K.Between K.kept (L.table links.now) self.now) object prev }
        ensures list { list_of result ≡ self.now }
        ensures links { links_of result ≡ links.now }
        ensures position { position K.Position.member result ≡ Some object }
        ensures kept { IsValid (IsValidAt (RepresentsChain K.Between K.kept) L.table K.Position.member K.Position.CachesNext) result }
    {
        let at: K::Position = K::position_at(links, object.place(), place_of(prev));
        Cursor::new(self, links, at)
    }

    /// A reading cursor on the object. The call requires that the object is a member, and that `next` is the member after it, or `None` if it is the
    /// last member. The call reads no entry: O(1).
    #[inline]
    pub fn cursor_from_ptr_and_next<'a, L: LinkOps>(
        &'a self,
        links: &'a L,
        object: UnsafeRef<T>,
        next: Option<UnsafeRef<T>>,
    ) -> Cursor<'a, LinkList<K, T>, L>
    where
        K: ForwardLinks<L>,
        requires member { HasMemberBefore (RepresentsChain K.Between K.kept (L.table links.now) self.now) object next }
        ensures list { list_of result ≡ self.now }
        ensures links { links_of result ≡ links.now }
        ensures position { position K.Position.member result ≡ Some object }
        ensures kept { IsValid (IsValidAt (RepresentsChain K.Between K.kept) L.table K.Position.member K.Position.CachesNext) result }
    {
        let at: K::Position = ListPosition::of(Some(object.place()), place_of(next));
        Cursor::new(self, links, at)
    }
}

impl<K: ListKind, T> LinkList<K, T> {
    ghost use Rattle.ic_cursors.specs.CursorMut.{position, IsBorrowed, IsValid};

    /// A cursor at null, between the last member and the first, that edits the list. O(1).
    #[inline]
    pub fn cursor_mut<'a, L: LinkOps>(
        &'a mut self,
        links: &'a mut L,
    ) -> CursorMut<'a, LinkList<K, T>, L>
    where
        K: ForwardLinks<L>,
        ensures borrows { IsBorrowed self.entry links.entry result }
        ensures null { position K.Position.member result ≡ None }
        ensures kept { RepresentsSomeChain K.Between K.kept (L.table links.old) self.old
            → IsValid (IsValidAt (RepresentsChain K.Between K.kept) L.table K.Position.member K.Position.CachesNext) result }
    {
        let at: K::Position = ListPosition::null();
        CursorMut::new(self, links, at)
    }

    /// An editing cursor on the first member, or at null in an empty list. O(1).
    #[inline]
    pub fn front_mut<'a, L: LinkOps>(
        &'a mut self,
        links: &'a mut L,
    ) -> CursorMut<'a, LinkList<K, T>, L>
    where
        K: ForwardLinks<L>,
        requires shown { K.ReadsNext → RepresentsSomeChain K.Between K.kept (L.table links.old) self.old }
        ensures borrows { IsBorrowed self.entry links.entry result }
        ensures position { (s : List Place) → RepresentsChain K.Between K.kept (L.table links.old) self.old s → position K.Position.member result ≡ first s }
        ensures kept { RepresentsSomeChain K.Between K.kept (L.table links.old) self.old
            → IsValid (IsValidAt (RepresentsChain K.Between K.kept) L.table K.Position.member K.Position.CachesNext) result }
    {
        let at = self.position_at(&*links, None, self.first());
        CursorMut::new(self, links, at)
    }
}

impl<K: DoubleEnded, T> LinkList<K, T> {
    ghost use Rattle.ic_cursors.specs.CursorMut.{position, IsBorrowed, IsValid};

    /// An editing cursor on the last member, or at null in an empty list. O(1).
    #[inline]
    pub fn back_mut<'a, L: LinkOps>(
        &'a mut self,
        links: &'a mut L,
    ) -> CursorMut<'a, LinkList<K, T>, L>
    where
        K: ForwardLinks<L>,
        ensures borrows { IsBorrowed self.entry links.entry result }
        ensures position { (s : List Place) → RepresentsChain K.Between K.kept (L.table links.old) self.old s → position K.Position.member result ≡ last s }
        ensures kept { RepresentsSomeChain K.Between K.kept (L.table links.old) self.old
            → IsValid (IsValidAt (RepresentsChain K.Between K.kept) L.table K.Position.member K.Position.CachesNext) result }
    {
        let at: K::Position = ListPosition::of(self.last(), None);
        CursorMut::new(self, links, at)
    }
}

impl<K: NamesNext, T> LinkList<K, T> {
    ghost use Rattle.ic_cursors.specs.CursorMut.{position, IsBorrowed, IsValid};

    /// An editing cursor on the object. The call requires that the object is a member. The call reads no entry: O(1).
    #[inline]
    pub fn cursor_mut_from_ptr<'a, L: LinkOps>(
        &'a mut self,
        links: &'a mut L,
        object: UnsafeRef<T>,
    ) -> CursorMut<'a, LinkList<K, T>, L>
    where
        K: ForwardLinks<L>,
        requires member { HasMember (RepresentsChain K.Between K.kept (L.table links.old) self.old) object }
        ensures borrows { IsBorrowed self.entry links.entry result }
        ensures position { position K.Position.member result ≡ Some object }
        ensures kept { IsValid (IsValidAt (RepresentsChain K.Between K.kept) L.table K.Position.member K.Position.CachesNext) result }
    {
        let at: K::Position = ListPosition::of(Some(object.place()), None);
        CursorMut::new(self, links, at)
    }
}

impl<K: Reversible, T> LinkList<K, T> {
    ghost use Rattle.ic_cursors.specs.CursorMut.{position, IsBorrowed, IsValid};

    /// An editing cursor on the object. The call requires that the object is a member, and that `prev` is the member before it, or `None` if it is
    /// the first member. The call reads one entry: O(1).
    #[inline]
    pub fn cursor_mut_from_ptr_and_prev<'a, L: LinkOps>(
        &'a mut self,
        links: &'a mut L,
        object: UnsafeRef<T>,
        prev: Option<UnsafeRef<T>>,
    ) -> CursorMut<'a, LinkList<K, T>, L>
    where
        K: ForwardLinks<L>,
        requires member { HasMemberAfter (RepresentsChain K.Between K.kept (L.table links.old) self.old) object prev }
        ensures borrows { IsBorrowed self.entry links.entry result }
        ensures position { position K.Position.member result ≡ Some object }
        ensures kept { IsValid (IsValidAt (RepresentsChain K.Between K.kept) L.table K.Position.member K.Position.CachesNext) result }
    {
        let at: K::Position = K::position_at(&*links, object.place(), place_of(prev));
        CursorMut::new(self, links, at)
    }

    /// An editing cursor on the object. The call requires that the object is a member, and that `next` is the member after it, or `None` if it is the
    /// last member. The call reads no entry: O(1).
    #[inline]
    pub fn cursor_mut_from_ptr_and_next<'a, L: LinkOps>(
        &'a mut self,
        links: &'a mut L,
        object: UnsafeRef<T>,
        next: Option<UnsafeRef<T>>,
    ) -> CursorMut<'a, LinkList<K, T>, L>
    where
        K: ForwardLinks<L>,
        requires member { HasMemberBefore (RepresentsChain K.Between K.kept (L.table links.old) self.old) object next }
        ensures borrows { IsBorrowed self.entry links.entry result }
        ensures position { position K.Position.member result ≡ Some object }
        ensures kept { IsValid (IsValidAt (RepresentsChain K.Between K.kept) L.table K.Position.member K.Position.CachesNext) result }
    {
        let at: K::Position = ListPosition::of(Some(object.place()), place_of(next));
        CursorMut::new(self, links, at)
    }
}

impl<K: ListKind, T> LinkList<K, T> {
    ghost use Rattle.ic_cursors.specs.CursorOwning.{list_of, place_of, position, IsValid};

    /// A cursor at null, between the last member and the first, that owns the list. The call reads no table. O(1).
    #[inline]
    pub fn cursor_owning(self) -> CursorOwning<LinkList<K, T>>
        ensures list { list_of result ≡ self }
        ensures null { place_of result ≡ K.Position.null }
        ensures position { position K.Position.member result ≡ None }
    {
        let at: K::Position = ListPosition::null();
        CursorOwning::new(self, at)
    }

    /// A cursor that owns the list, on the first member, or at null in an empty list. O(1).
    #[inline]
    pub fn front_owning<L: LinkOps>(self, links: &L) -> CursorOwning<LinkList<K, T>>
    where
        K: ForwardLinks<L>,
        requires shown { K.ReadsNext → RepresentsSomeChain K.Between K.kept (L.table links.now) self }
        ensures list { list_of result ≡ self }
        ensures position { (s : List Place) → RepresentsChain K.Between K.kept (L.table links.now) self s → position K.Position.member result ≡ first s }
        ensures kept { RepresentsSomeChain K.Between K.kept (L.table links.now) self
            → IsValid (IsValidAt (RepresentsChain K.Between K.kept) L.table K.Position.member K.Position.CachesNext) links.now result }
    {
        let at = self.position_at(links, None, self.first());
        CursorOwning::new(self, at)
    }
}

impl<K: DoubleEnded, T> LinkList<K, T> {
    ghost use Rattle.ic_cursors.specs.CursorOwning.{list_of, place_of, position, IsValid};

    /// A cursor that owns the list, on the last member, or at null in an empty list. O(1).
    #[inline]
    pub fn back_owning<L: LinkOps>(self, links: &L) -> CursorOwning<LinkList<K, T>>
    where
        K: ForwardLinks<L>,
        ensures list { list_of result ≡ self }
        ensures position { (s : List Place) → RepresentsChain K.Between K.kept (L.table links.now) self s → position K.Position.member result ≡ last s }
        ensures kept { RepresentsSomeChain K.Between K.kept (L.table links.now) self
            → IsValid (IsValidAt (RepresentsChain K.Between K.kept) L.table K.Position.member K.Position.CachesNext) links.now result }
    {
        let _ = links;
        let at: K::Position = ListPosition::of(self.last(), None);
        CursorOwning::new(self, at)
    }
}

impl<K: NamesNext, T> LinkList<K, T> {
    ghost use Rattle.ic_cursors.specs.CursorOwning.{list_of, place_of, position, IsValid};

    /// A cursor that owns the list. It begins on the object. The call requires that the object is a member. The call reads no entry: O(1).
    #[inline]
    pub fn cursor_owning_from_ptr<L: LinkOps>(
        self,
        links: &L,
        object: UnsafeRef<T>,
    ) -> CursorOwning<LinkList<K, T>>
    where
        K: ForwardLinks<L>,
        requires member { HasMember (RepresentsChain K.Between K.kept (L.table links.now) self) object }
        ensures list { list_of result ≡ self }
        ensures position { position K.Position.member result ≡ Some object }
        ensures kept { IsValid (IsValidAt (RepresentsChain K.Between K.kept) L.table K.Position.member K.Position.CachesNext) links.now result }
    {
        let _ = links;
        let at: K::Position = ListPosition::of(Some(object.place()), None);
        CursorOwning::new(self, at)
    }
}

impl<K: Reversible, T> LinkList<K, T> {
    ghost use Rattle.ic_cursors.specs.CursorOwning.{list_of, place_of, position, IsValid};

    /// A cursor that owns the list. It begins on the object. The call requires that the object is a member, and that `prev` is the member before it,
    /// or `None` if it is the first member. The call reads one entry: O(1).
    #[inline]
    pub fn cursor_owning_from_ptr_and_prev<L: LinkOps>(
        self,
        links: &L,
        object: UnsafeRef<T>,
        prev: Option<UnsafeRef<T>>,
    ) -> CursorOwning<LinkList<K, T>>
    where
        K: ForwardLinks<L>,
        requires member { HasMemberAfter (RepresentsChain K.Between K.kept (L.table links.now) self) object prev }
        ensures list { list_of result ≡ self }
        ensures position { position K.Position.member result ≡ Some object }
        ensures kept { IsValid (IsValidAt (RepresentsChain K.Between K.kept) L.table K.Position.member K.Position.CachesNext) links.now result }
    {
        let at: K::Position = K::position_at(links, object.place(), place_of(prev));
        CursorOwning::new(self, at)
    }

    /// A cursor that owns the list. It begins on the object. The call requires that the object is a member, and that `next` is the member after it,
    /// or `None` if it is the last member. The call reads no entry: O(1).
    #[inline]
    pub fn cursor_owning_from_ptr_and_next<L: LinkOps>(
        self,
        links: &L,
        object: UnsafeRef<T>,
        next: Option<UnsafeRef<T>>,
    ) -> CursorOwning<LinkList<K, T>>
    where
        K: ForwardLinks<L>,
        requires member { HasMemberBefore (RepresentsChain K.Between K.kept (L.table links.now) self) object next }
        ensures list { list_of result ≡ self }
        ensures position { position K.Position.member result ≡ Some object }
        ensures kept { IsValid (IsValidAt (RepresentsChain K.Between K.kept) L.table K.Position.member K.Position.CachesNext) links.now result }
    {
        let _ = links;
        let at: K::Position = ListPosition::of(Some(object.place()), place_of(next));
        CursorOwning::new(self, at)
    }
}
