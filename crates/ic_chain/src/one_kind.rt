//! Calls that only lists of some kinds have.

ghost use Rattle.std.specs.Prelude.{◌≡◌, ◌++◌, ◌∷◌, List, []};
ghost use Rattle.ic_link_ops.specs.Prelude.{Place, at_front, at_back, IsLinked, ChangesOnlyIn, HasMember, releases, list_head, RepresentsChain};
ghost use Rattle.ic_chain.specs.ListEdits.{MovesToEnd};

use crate::LinkList;
use crate::kind::{DoubleEnded, ListKind, NamesBoth, Reversible};
use ic_link_ops::LinkOps;
use ic_unsafe_ref::{Place, UnsafeRef};

impl<K: ListKind, T> LinkList<K, T> {
    /// Removes the object from the list. The object must be a member. O(1).
    ///
    /// The other members stay in their order, and every other list of the table stays as it was.
    #[inline]
    pub fn remove<L: LinkOps>(&mut self, links: &mut L, object: &UnsafeRef<T>)
    where
        K: NamesBoth<L>,
        requires member { HasMember (RepresentsChain K.Between K.kept (L.table links.old) self.old) object.now }
        ensures removed { (front back : List Place) → RepresentsChain K.Between K.kept (L.table links.old) self.old (front ++ object.now ∷ back)
            → RepresentsChain K.Between K.kept (L.table links.new) self.new (front ++ back) }
        ensures released { L.Trace links.old links.new (releases object.now ∷ []) }
        ensures frame { (s : List Place) → RepresentsChain K.Between K.kept (L.table links.old) self.old s
            → ChangesOnlyIn (L.table links.old) (L.table links.new) s }
    {
        let place = object.place();
        let before = K::prev(&*links, place, None);
        let after = K::next(&*links, place, before);
        self.unlink(links, before, place, after);
    }
}

impl<K: DoubleEnded, T> LinkList<K, T> {
    /// Moves the object after all other members. The object must be a member. O(1), and it takes no memory.
    ///
    /// The other members keep their order. The object stays linked, so no table can refuse it, and no other thread can find it unlinked.
    #[inline]
    pub fn move_to_back<L: LinkOps>(&mut self, links: &mut L, object: &UnsafeRef<T>)
    where
        K: NamesBoth<L>,
        requires member { HasMember (RepresentsChain K.Between K.kept (L.table links.old) self.old) object.now }
        ensures { MovesToEnd (RepresentsChain K.Between K.kept) L.table L.Trace at_back self.old links.old object.now self.new links.new }
    {
        let place = object.place();
        self.detach(links, place);
        let last = self.last();
        self.insert_linked(links, last, place, None);
    }

    /// Moves the object before all other members. The object must be a member. O(1), and it takes no memory.
    ///
    /// The other members keep their order, and the object stays linked, as in [`LinkList::move_to_back`].
    #[inline]
    pub fn move_to_front<L: LinkOps>(&mut self, links: &mut L, object: &UnsafeRef<T>)
    where
        K: NamesBoth<L>,
        requires member { HasMember (RepresentsChain K.Between K.kept (L.table links.old) self.old) object.now }
        ensures { MovesToEnd (RepresentsChain K.Between K.kept) L.table L.Trace at_front self.old links.old object.now self.new links.new }
    {
        let place = object.place();
        self.detach(links, place);
        let first = self.first();
        self.insert_linked(links, None, place, first);
    }

    // Removes the member from between its neighbors. The member stays linked.
    #[inline]
    fn detach<L: LinkOps>(&mut self, links: &mut L, place: Place)
    where
        K: NamesBoth<L>,
        requires member { HasMember (RepresentsChain K.Between K.kept (L.table links.old) self.old) place }
        ensures removed { (front back : List Place) → RepresentsChain K.Between K.kept (L.table links.old) self.old (front ++ place ∷ back)
            → RepresentsChain K.Between K.kept (L.table links.new) self.new (front ++ back) }
        ensures held { IsLinked L.linked (L.table links.new) place }
        ensures trace_stays { L.Trace links.old links.new [] }
        ensures frame { (s : List Place) → RepresentsChain K.Between K.kept (L.table links.old) self.old s
            → ChangesOnlyIn (L.table links.old) (L.table links.new) s }
    {
        let before = K::prev(&*links, place, None);
        let after = K::next(&*links, place, before);
        self.bypass(links, before, place, after);
    }
}

impl<K: Reversible, T> LinkList<K, T> {
    /// Reverses the list. The two ends of the list are exchanged, and no entry is written: O(1).
    #[inline]
    pub fn reverse(&mut self)
        ensures { self.new ≡ list_head (K.kept_last self.old.tail) (K.kept self.old.head) }
    {
        *self = LinkList::from_ends(self.last(), self.first());
    }
}
