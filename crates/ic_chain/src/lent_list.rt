//! A value that borrows a list and the table of its links together, for a loop of many calls.
//!
//! ```text
//! fn run_all<L: LinkedListOps>(list: &mut LinkedList<Job>, links: &mut L) {
//!     let mut lent = list.lend(links);
//!     while let Some(job) = lent.pop_front() { .. }
//! }
//! let mut links = LentTable::new(table.lend());
//! run_all(&mut list, &mut links); // the list and the table have what `lent` showed last
//! ```

ghost use Rattle.std.specs.Prelude.{◌≡◌, ◌++◌, ◌∷◌, List, []};
ghost use Rattle.ic_link_ops.specs.Prelude.{Place, first, last, at_front, at_back, remove, but_last, IsCovered, ChangesOnlyIn, HasMember, releases, RepresentsChain, RepresentsSomeChain};
ghost use Rattle.ic_chain.specs.ListEdits.{PushesAtEnd, PopsAtEnd, MovesToEnd};

use crate::LinkList;
use crate::kind::{BidirectionalLinks, DoubleEnded, ForwardLinks, ListKind, NamesBoth};
use ic_link_ops::{AlreadyLinked, LinkOps};
use ic_unsafe_ref::UnsafeRef;

/// A list and the table of its links, while both are borrowed together.
///
/// Each call over `&mut LinkList` reads the list's ends from memory. In a loop over a `LentList` the ends can stay in registers. Over a view of the links
/// ([`LentTable`](ic_link_ops::LentTable)), no call reads the address of the links again. When the `LentList` goes out of scope, the borrowed list gets its
/// current members back. Calls that a `LentList` lacks can be made on its fields, for example `lent.list.cursor_mut(lent.links)`.
pub struct LentList<'a, K: ListKind, T, L> {
    original: &'a mut LinkList<K, T>,
    /// The list, whose ends are part of the `LentList` until it is dropped.
    pub list: LinkList<K, T>,
    /// The table of the list's links.
    pub links: &'a mut L,
}

impl<K: ListKind, T, L> Drop for LentList<'_, K, T, L> {
    /// Writes the ends of the list back to the borrowed list.
    #[inline]
    fn drop(self)
        ensures list { self.exit.0.now ≡ self.entry.list }
        ensures links { self.exit.1.1.0.now ≡ self.entry.links.now }
    {
        let LentList {
            original,
            list,
            links: _,
        } = self;
        *original = list;
    }
}

impl<K: ListKind, T> LinkList<K, T> {
    /// Borrows the list together with the table of its links. O(1).
    ///
    /// The borrowed list gets its members back when the `LentList` is dropped, or by [`LentList::finish`]. Until then the borrowed list is empty.
    #[inline]
    pub fn lend<'a, L>(&'a mut self, links: &'a mut L) -> LentList<'a, K, T, L>
        ensures list { result.list ≡ self.old }
        ensures original { result.original.ghost_name ≡ self.entry.ghost_name }
        ensures links { result.links.now ≡ links.entry.now }
        ensures same_links { result.links.ghost_name ≡ links.entry.ghost_name }
    {
        let list = self.take();
        LentList {
            original: self,
            list,
            links,
        }
    }
}

impl<K: ListKind, T, L> LentList<'_, K, T, L> {
    /// Ends the borrow. Like a drop, the call gives the borrowed list its members back. O(1).
    #[inline]
    pub fn finish(self)
        ensures list { self.exit.0.now ≡ self.entry.list }
        ensures links { self.exit.1.1.0.now ≡ self.entry.links.now }
    {}
}

impl<T, L: LinkOps, K: ForwardLinks<L>> LentList<'_, K, T, L> {
    ghost use Rattle.ic_chain.specs.LentLists.{SameLoans};

    /// Inserts the object at the front of the list, as [`LinkList::push_front`] does. O(1).
    #[inline]
    pub fn push_front(&mut self, object: UnsafeRef<T>) -> Result<(), AlreadyLinked<T>>
        requires covered { IsCovered (L.table self.old.links.now) object }
        requires shown { RepresentsSomeChain K.Between K.kept (L.table self.old.links.now) self.old.list }
        ensures pushed { PushesAtEnd (RepresentsChain K.Between K.kept) L.table L.Trace L.Refused at_front
            self.old.list self.old.links.now object result self.new.list self.new.links.now }
        ensures same { SameLoans self.old self.new }
    {
        self.list.push_front(self.links, object)
    }

    /// Removes the object at the front of the list, as [`LinkList::pop_front`] does. O(1).
    #[inline]
    pub fn pop_front(&mut self) -> Option<UnsafeRef<T>>
        requires shown { RepresentsSomeChain K.Between K.kept (L.table self.old.links.now) self.old.list }
        ensures popped { PopsAtEnd (RepresentsChain K.Between K.kept) L.table L.Trace first (λ s. remove (at_front s))
            self.old.list self.old.links.now result self.new.list self.new.links.now }
        ensures same { SameLoans self.old self.new }
    {
        self.list.pop_front(self.links)
    }
}

impl<T, L: LinkOps, K: DoubleEnded + ForwardLinks<L>> LentList<'_, K, T, L> {
    ghost use Rattle.ic_chain.specs.LentLists.{SameLoans};

    /// Inserts the object at the back of the list, as [`LinkList::push_back`] does. O(1).
    #[inline]
    pub fn push_back(&mut self, object: UnsafeRef<T>) -> Result<(), AlreadyLinked<T>>
        requires covered { IsCovered (L.table self.old.links.now) object }
        requires shown { RepresentsSomeChain K.Between K.kept (L.table self.old.links.now) self.old.list }
        ensures pushed { PushesAtEnd (RepresentsChain K.Between K.kept) L.table L.Trace L.Refused at_back
            self.old.list self.old.links.now object result self.new.list self.new.links.now }
        ensures same { SameLoans self.old self.new }
    {
        self.list.push_back(self.links, object)
    }
}

impl<T, L: LinkOps, K: DoubleEnded + BidirectionalLinks<L>> LentList<'_, K, T, L> {
    ghost use Rattle.ic_chain.specs.LentLists.{SameLoans};

    /// Removes the object at the back of the list, as [`LinkList::pop_back`] does. O(1).
    #[inline]
    pub fn pop_back(&mut self) -> Option<UnsafeRef<T>>
        requires shown { RepresentsSomeChain K.Between K.kept (L.table self.old.links.now) self.old.list }
        ensures popped { PopsAtEnd (RepresentsChain K.Between K.kept) L.table L.Trace last but_last
            self.old.list self.old.links.now result self.new.list self.new.links.now }
        ensures same { SameLoans self.old self.new }
    {
        self.list.pop_back(self.links)
    }
}

impl<T, L: LinkOps, K: DoubleEnded + NamesBoth<L>> LentList<'_, K, T, L> {
    ghost use Rattle.ic_chain.specs.LentLists.{SameLoans};

    /// Removes the object, which must be a member, from the list, as [`LinkList::remove`] does. O(1).
    #[inline]
    pub fn remove(&mut self, object: &UnsafeRef<T>)
        requires member { HasMember (RepresentsChain K.Between K.kept (L.table self.old.links.now) self.old.list) object.now }
        ensures removed { (front back : List Place) → RepresentsChain K.Between K.kept (L.table self.old.links.now) self.old.list (front ++ object.now ∷ back)
            → RepresentsChain K.Between K.kept (L.table self.new.links.now) self.new.list (front ++ back) }
        ensures released { L.Trace self.old.links.now self.new.links.now (releases object.now ∷ []) }
        ensures frame { (s : List Place) → RepresentsChain K.Between K.kept (L.table self.old.links.now) self.old.list s → ChangesOnlyIn (L.table self.old.links.now) (L.table self.new.links.now) s }
        ensures same { SameLoans self.old self.new }
    {
        self.list.remove(self.links, object);
    }

    /// Moves the object, which must be a member, after all other members, as [`LinkList::move_to_back`] does. O(1).
    #[inline]
    pub fn move_to_back(&mut self, object: &UnsafeRef<T>)
        requires member { HasMember (RepresentsChain K.Between K.kept (L.table self.old.links.now) self.old.list) object.now }
        ensures to_end { MovesToEnd (RepresentsChain K.Between K.kept) L.table L.Trace at_back
            self.old.list self.old.links.now object.now self.new.list self.new.links.now }
        ensures same { SameLoans self.old self.new }
    {
        self.list.move_to_back(self.links, object);
    }

    /// Moves the object, which must be a member, before all other members, as [`LinkList::move_to_front`] does. O(1).
    #[inline]
    pub fn move_to_front(&mut self, object: &UnsafeRef<T>)
        requires member { HasMember (RepresentsChain K.Between K.kept (L.table self.old.links.now) self.old.list) object.now }
        ensures to_end { MovesToEnd (RepresentsChain K.Between K.kept) L.table L.Trace at_front
            self.old.list self.old.links.now object.now self.new.list self.new.links.now }
        ensures same { SameLoans self.old self.new }
    {
        self.list.move_to_front(self.links, object);
    }
}
