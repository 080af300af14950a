//! A list of any kind, and its calls.
//!
//! ```text
//! list.push_back(&mut links, object)?;
//! let first = list.pop_front(&mut links);
//! ```

ghost use Rattle.std.specs.Prelude.{◌≡◌, ◌≢◌, ◌↔◌, ◌++◌, ◌∷◌, List, [], Option, Some, None, IsTrue};
ghost use Rattle.ic_link_ops.specs.Prelude.{Place, Cut, join, first, last, IsDisjoint, IsAfter, IsBefore, at_front, at_back, remove, but_last, IsCovered, IsLinked, IsNameable, ChangesOnlyIn, acquires, releases, Inserts, Splices, Splits, list_head, empty_list, RepresentsChain, RepresentsSomeChain, TurnsEnds};
ghost use Rattle.std.specs.Bool.{OnTrue, OnFalse};
ghost use Rattle.ic_chain.specs.ListEdits.{PushesAtEnd, PopsAtEnd, ComesBetween};
ghost use Rattle.ic_chain.specs.SplitEnds.{SplitsEnds};
ghost use Rattle.ic_chain.specs.Walk.{KnowsLast};

use crate::kind::{BidirectionalLinks, DoubleEnded, ForwardLinks, ListKind, SingleEnded};
use crate::neighbors::{last_from, set_next_or_head, set_prev_or_tail};
use ic_link_ops::{AlreadyLinked, LinkOps, PlaceWord};
use ic_unsafe_ref::{Place, UnsafeRef};
use std::marker::{Model, PhantomData};
use std::mem;

/// A list of objects, of any kind. It stores its first member, and what its kind stores about the last member.
///
/// Contracts name only these two values. The list has the sequence that the table represents for them.
pub struct LinkList<K: ListKind, T> {
    head: PlaceWord,
    tail: K::Tail,
    of: PhantomData<T>,
    kind: PhantomData<K>,
}

impl<K: ListKind, T> Model for LinkList<K, T> {
    ghost use Rattle.ic_link_ops.specs.Chains.{ListHead};

    ghost Value = { ListHead K.Tail };

    ghost view = { λ l. record { head = l.head; tail = l.tail } };
}

impl<K: ListKind, T> Drop for LinkList<K, T> {
    fn drop(self) {
        let LinkList {
            head: _,
            tail: _,
            of: _,
            kind: _,
        } = self;
    }
}

impl<K: ListKind, T> Default for LinkList<K, T> {
    ghost is_default = { λ l. l ≡ empty_list K.kept };

    /// An empty list.
    fn default() -> LinkList<K, T> {
        LinkList::new()
    }
}

impl<K: ListKind, T> LinkList<K, T> {
    /// An empty list: every table represents the empty sequence for it. O(1).
    pub fn new() -> LinkList<K, T>
        ensures { result ≡ empty_list K.kept }
    {
        LinkList::from_ends(None, None)
    }

    /// The list with the given first and last members, for callers who store the ends of their lists themselves. O(1).
    ///
    /// The call requires nothing of the two ends: the list has the sequence, if any, that a table represents for it. [`LinkList::first`] returns the
    /// first end. [`LinkList::last`] returns the last end, if the kind stores it.
    #[inline]
    pub fn from_ends(first: Option<Place>, last: Option<Place>) -> LinkList<K, T>
        ensures { result ≡ list_head first (K.kept last) }
    {
        LinkList {
            head: PlaceWord::of(first),
            tail: K::keep(last),
            of: PhantomData,
            kind: PhantomData,
        }
    }

    /// Whether the list has no members. The call reads no links. O(1).
    #[inline]
    pub fn is_empty(&self) -> bool
        ensures { IsTrue result ↔ (self.now.head ≡ None) }
    {
        self.head.get().is_none()
    }

    /// The first member, or `None` in an empty list. The call reads no links. O(1).
    #[inline]
    pub fn first(&self) -> Option<Place>
        ensures { result ≡ self.now.head }
    {
        self.head.get()
    }

    // The first member, for a cursor that moves from null. A walk around the list makes this move only once. Therefore the call is not inlined, so that the
    // code for a move from a member is one load.
    #[cold]
    #[inline(never)]
    pub(crate) fn head_from_null(&self) -> Option<Place>
        ensures { result ≡ self.now.head }
    {
        self.first()
    }

    // The last member that the list stores, or `None` if the kind does not store its last member.
    #[inline]
    pub(crate) fn kept_last(&self) -> Option<Place>
        ensures { result ≡ K.kept_last self.now.tail }
    {
        K::kept_last(&self.tail)
    }
}

impl<K: SingleEnded, T> LinkList<K, T> {
    /// The list with the given first member, for callers who store the first member of their lists themselves. O(1).
    ///
    /// The call requires nothing of the place: the list has the sequence, if any, that a table represents for it. [`LinkList::first`] returns the place.
    #[inline]
    pub fn from_front(first: Option<Place>) -> LinkList<K, T>
        ensures { result ≡ list_head first (K.kept None) }
    {
        LinkList::from_ends(first, None)
    }
}

impl<K: ListKind, T> LinkList<K, T> {
    /// Inserts the object at the front of the list, unless its link is refused. O(1), and it takes no memory.
    ///
    /// The call requires and returns what [`LinkList::push_back`] does. The call is good for stacks, and for lists in the order of the last use.
    #[inline]
    pub fn push_front<L: LinkOps>(
        &mut self,
        links: &mut L,
        object: UnsafeRef<T>,
    ) -> Result<(), AlreadyLinked<T>>
    where
        K: ForwardLinks<L>,
        requires covered { IsCovered (L.table links.old) object }
        requires shown { RepresentsSomeChain K.Between K.kept (L.table links.old) self.old }
        ensures { PushesAtEnd (RepresentsChain K.Between K.kept) L.table L.Trace L.Refused at_front self.old links.old object result self.new links.new }
    {
        let head = self.first();
        if !self.insert_between(links, None, object.place(), head) {
            return Err(AlreadyLinked(object));
        }
        Ok(())
    }

    /// Removes the object at the front of the list and returns it, or `None` if the list is empty. O(1).
    #[inline]
    pub fn pop_front<L: LinkOps>(&mut self, links: &mut L) -> Option<UnsafeRef<T>>
    where
        K: ForwardLinks<L>,
        requires shown { RepresentsSomeChain K.Between K.kept (L.table links.old) self.old }
        ensures { PopsAtEnd (RepresentsChain K.Between K.kept) L.table L.Trace first (λ s. remove (at_front s)) self.old links.old result self.new links.new }
    {
        let front = self.first()?;
        let after = K::next(&*links, front, None);
        self.unlink(links, None, front, after);
        Some(UnsafeRef::new(front))
    }

    // The last member of the list, right after which a splice is to link `after`. If the kind does not store the last member, a walk finds it, or the result
    // is `None` if `after` is `None`.
    #[inline]
    pub(crate) fn last_before<L: LinkOps>(&self, links: &L, after: Option<Place>) -> Option<Place>
    where
        K: ForwardLinks<L>,
        requires { RepresentsSomeChain K.Between K.kept (L.table links.now) self.now }
        ensures { (s : List Place) → RepresentsChain K.Between K.kept (L.table links.now) self.now s → KnowsLast K.keeps_last result after (last s) }
    {
        if K::keeps_last() {
            return self.kept_last();
        }
        after?;
        last_from::<K, L>(links, self.first()?)
    }

    // Links the object between the neighbors of the member `out`, and unlinks `out`. Returns whether the object's link was acquired.
    #[inline]
    pub(crate) fn replace<L: LinkOps>(
        &mut self,
        links: &mut L,
        before: Option<Place>,
        out: Place,
        object: Place,
        after: Option<Place>,
    ) -> bool
    where
        K: ForwardLinks<L>,
        requires covered { IsCovered (L.table links.old) object }
        requires shown { (front back : List Place) × RepresentsChain K.Between K.kept (L.table links.old) self.old (front ++ out ∷ back)
            × (before ≡ last front) × (after ≡ first back) }
        ensures replaced { (front back : List Place) → RepresentsChain K.Between K.kept (L.table links.old) self.old (front ++ out ∷ back)
            → before ≡ last front → after ≡ first back
            → OnTrue result (RepresentsChain K.Between K.kept (L.table links.new) self.new (front ++ object ∷ back)) }
        ensures exchanged { OnTrue result (L.Trace links.old links.new (acquires object ∷ releases out ∷ [])) }
        ensures refused { OnFalse result (L.Refused links.old links.new object) }
        ensures unchanged { OnFalse result (self.new ≡ self.old) }
        ensures frame { (front back : List Place) → RepresentsChain K.Between K.kept (L.table links.old) self.old (front ++ out ∷ back)
            → before ≡ last front → after ≡ first back
            → OnTrue result (ChangesOnlyIn (L.table links.old) (L.table links.new) (object ∷ front ++ out ∷ back)) }
    {
        if !links.acquire_link(object) {
            return false;
        }
        self.replace_linked(links, before, out, object, after);
        links.release_link(out);
        true
    }

    // Removes the member from between the neighbors `before` and `after`, and unlinks it.
    #[inline]
    pub(crate) fn unlink<L: LinkOps>(
        &mut self,
        links: &mut L,
        before: Option<Place>,
        place: Place,
        after: Option<Place>,
    )
    where
        K: ForwardLinks<L>,
        requires shown { (front back : List Place) × RepresentsChain K.Between K.kept (L.table links.old) self.old (front ++ place ∷ back)
            × (before ≡ last front) × (after ≡ first back) }
        ensures removed { (front back : List Place) → RepresentsChain K.Between K.kept (L.table links.old) self.old (front ++ place ∷ back)
            → before ≡ last front → after ≡ first back
            → RepresentsChain K.Between K.kept (L.table links.new) self.new (front ++ back) }
        ensures released { L.Trace links.old links.new (releases place ∷ []) }
        ensures frame { (front back : List Place) → RepresentsChain K.Between K.kept (L.table links.old) self.old (front ++ place ∷ back)
            → before ≡ last front → after ≡ first back
            → ChangesOnlyIn (L.table links.old) (L.table links.new) (front ++ place ∷ back) }
    {
        self.bypass(links, before, place, after);
        links.release_link(place);
    }

    /// Inserts the place into the gap between two neighbors, and returns whether its link was acquired. O(1), and it takes no
    /// memory.
    ///
    /// The call requires that the table covers the place, and that the neighbors are the members before and after one gap. A neighbor beyond an end
    /// of the list is `None`. If the link is refused, the list is as it was.
    #[inline]
    pub fn insert_between<L: LinkOps>(
        &mut self,
        links: &mut L,
        before: Option<Place>,
        place: Place,
        after: Option<Place>,
    ) -> bool
    where
        K: ForwardLinks<L>,
        requires covered { IsCovered (L.table links.old) place }
        requires shown { (gap : Cut) × RepresentsChain K.Between K.kept (L.table links.old) self.old (join gap)
            × IsAfter gap before × IsBefore gap after }
        ensures inserted { (gap : Cut) → RepresentsChain K.Between K.kept (L.table links.old) self.old (join gap)
            → IsAfter gap before → IsBefore gap after → OnTrue result (Inserts (RepresentsChain K.Between K.kept)
            (L.table links.old) (L.table links.new) self.new gap place) }
        ensures acquired { OnTrue result (L.Trace links.old links.new (acquires place ∷ [])) }
        ensures refused { OnFalse result (L.Refused links.old links.new place) }
        ensures unchanged { OnFalse result (self.new ≡ self.old) }
        ensures frame { (gap : Cut) → RepresentsChain K.Between K.kept (L.table links.old) self.old (join gap)
            → IsAfter gap before → IsBefore gap after
            → ChangesOnlyIn (L.table links.old) (L.table links.new) (place ∷ join gap) }
    {
        if !K::link_between(links, place, before, after) {
            return false;
        }
        let inserted = Some(place);
        set_next_or_head::<K, L>(links, &mut self.head, before, after, inserted);
        set_prev_or_tail::<K, L>(links, &mut self.tail, after, before, inserted);
        true
    }
}

// The calls of lists that store their last member.
impl<K: DoubleEnded, T> LinkList<K, T> {
    /// The last member, or `None` in an empty list. The call reads no links. O(1).
    #[inline]
    pub fn last(&self) -> Option<Place>
        ensures { result ≡ K.kept_last self.now.tail }
    {
        self.kept_last()
    }

    // The last member, for a cursor that moves from null. A walk around the list makes this move once, so the call is not inlined.
    #[cold]
    #[inline(never)]
    pub(crate) fn last_from_null(&self) -> Option<Place>
        ensures { result ≡ K.kept_last self.now.tail }
    {
        self.last()
    }

    /// Inserts the object at the back of the list, unless its link is refused. O(1), and it takes no memory.
    ///
    /// The call requires that the table covers the object's place. If the link is refused, the object is returned and the list is as it was. A plain
    /// table refuses the link exactly if the object is already linked in this table.
    #[inline]
    pub fn push_back<L: LinkOps>(
        &mut self,
        links: &mut L,
        object: UnsafeRef<T>,
    ) -> Result<(), AlreadyLinked<T>>
    where
        K: ForwardLinks<L>,
        requires covered { IsCovered (L.table links.old) object }
        requires shown { RepresentsSomeChain K.Between K.kept (L.table links.old) self.old }
        ensures { PushesAtEnd (RepresentsChain K.Between K.kept) L.table L.Trace L.Refused at_back self.old links.old object result self.new links.new }
    {
        let tail = self.last();
        if !self.insert_between(links, tail, object.place(), None) {
            return Err(AlreadyLinked(object));
        }
        Ok(())
    }

    /// Removes the object at the back of the list and returns it, or `None` if the list is empty. O(1).
    #[inline]
    pub fn pop_back<L: LinkOps>(&mut self, links: &mut L) -> Option<UnsafeRef<T>>
    where
        K: BidirectionalLinks<L>,
        requires shown { RepresentsSomeChain K.Between K.kept (L.table links.old) self.old }
        ensures { PopsAtEnd (RepresentsChain K.Between K.kept) L.table L.Trace last but_last self.old links.old result self.new links.new }
    {
        let back = self.last()?;
        let before = K::prev(&*links, back, None);
        self.unlink(links, before, back, None);
        Some(UnsafeRef::new(back))
    }
}

// These calls are for callers who store lists in words of their own, and test these words themselves. None of the calls requires that the table represents a
// sequence.
impl<K: ListKind, T> LinkList<K, T> {
    /// Inserts `place`, which must be linked already, between two neighbors. O(1).
    ///
    /// The call requires only that the places which it writes are linked: `place`, and those neighbors that are not `None`.
    #[inline]
    pub fn insert_linked<L: LinkOps>(
        &mut self,
        links: &mut L,
        before: Option<Place>,
        place: Place,
        after: Option<Place>,
    )
    where
        K: ForwardLinks<L>,
        requires held { IsLinked L.linked (L.table links.old) place }
        requires before { (q : Place) → before ≡ Some q → IsLinked L.linked (L.table links.old) q }
        requires after { K.NamesPrev → (q : Place) → after ≡ Some q → IsLinked L.linked (L.table links.old) q }
        requires next { IsNameable L.CanName after }
        ensures { ComesBetween (RepresentsChain K.Between K.kept) L.table L.Trace K.kept K.NamesPrev []
            self.old links.old before place after self.new links.new }
    {
        set_next_or_head::<K, L>(links, &mut self.head, before, after, Some(place));
        set_prev_or_tail::<K, L>(links, &mut self.tail, after, before, Some(place));
        K::set_neighbors(links, place, before, after);
    }

    /// Replaces the member `out` by a place between the same neighbors. The place must be linked already. O(1).
    ///
    /// The call requires only that the places which it writes are linked: the new place, and those neighbors that are not `None`. The replaced member
    /// stays linked.
    #[inline]
    pub fn replace_linked<L: LinkOps>(
        &mut self,
        links: &mut L,
        before: Option<Place>,
        out: Place,
        place: Place,
        after: Option<Place>,
    )
    where
        K: ForwardLinks<L>,
        requires held { IsLinked L.linked (L.table links.old) place }
        requires before { (q : Place) → before ≡ Some q → IsLinked L.linked (L.table links.old) q }
        requires after { K.NamesPrev → (q : Place) → after ≡ Some q → IsLinked L.linked (L.table links.old) q }
        requires next { IsNameable L.CanName after }
        requires out { IsNameable L.CanName (Some out) }
        ensures { ComesBetween (RepresentsChain K.Between K.kept) L.table L.Trace K.kept K.NamesPrev (out ∷ [])
            self.old links.old before place after self.new links.new }
    {
        set_next_or_head::<K, L>(links, &mut self.head, before, Some(out), Some(place));
        set_prev_or_tail::<K, L>(links, &mut self.tail, after, Some(out), Some(place));
        K::set_neighbors(links, place, before, after);
    }

    /// Removes the member `out` from between its two neighbors. O(1).
    ///
    /// The call requires only that the neighbors that are not `None` are linked. It makes each neighbor name the other neighbor. If a neighbor is
    /// `None`, the end of the list is set instead. The member stays linked: unlink it by the table's `release_link`.
    #[inline]
    pub fn bypass<L: LinkOps>(
        &mut self,
        links: &mut L,
        before: Option<Place>,
        out: Place,
        after: Option<Place>,
    )
    where
        K: ForwardLinks<L>,
        requires before { (q : Place) → before ≡ Some q → IsLinked L.linked (L.table links.old) q }
        requires after { K.NamesPrev → (q : Place) → after ≡ Some q → IsLinked L.linked (L.table links.old) q }
        requires next { IsNameable L.CanName after }
        requires out { IsNameable L.CanName (Some out) }
        ensures shows { (front back : List Place) → RepresentsChain K.Between K.kept (L.table links.old) self.old (front ++ out ∷ back)
            → before ≡ last front → after ≡ first back
            → RepresentsChain K.Between K.kept (L.table links.new) self.new (front ++ back) }
        ensures ends { TurnsEnds K.kept self.old self.new before after after before }
        ensures trace_stays { L.Trace links.old links.new [] }
        ensures extent { (L.table links.new).extent ≡ (L.table links.old).extent }
        ensures others { (q : Place) → before ≢ Some q → (K.NamesPrev → after ≢ Some q)
            → (L.table links.new).entry q ≡ (L.table links.old).entry q }
    {
        set_next_or_head::<K, L>(links, &mut self.head, before, Some(out), after);
        set_prev_or_tail::<K, L>(links, &mut self.tail, after, Some(out), before);
    }

    /// Inserts all members of the given list, whose last member is `end`, between two neighbors. O(1). If the given list is empty, nothing changes.
    ///
    /// The call requires only that the places which it writes are linked: both neighbors and both ends of the given list, if they are not `None`.
    /// `end` may be `None` if the kind does not store the last member and there is no neighbor after the gap.
    #[inline]
    pub fn splice_between<L: LinkOps>(
        &mut self,
        links: &mut L,
        before: Option<Place>,
        given: LinkList<K, T>,
        end: Option<Place>,
        after: Option<Place>,
    )
    where
        K: ForwardLinks<L>,
        requires before { (q : Place) → before ≡ Some q → IsLinked L.linked (L.table links.old) q }
        requires after { K.NamesPrev → (q : Place) → after ≡ Some q → IsLinked L.linked (L.table links.old) q }
        requires next { IsNameable L.CanName after }
        requires given { IsNameable L.CanName given.head }
        requires first { K.NamesPrev → (q : Place) → given.head ≡ Some q → IsLinked L.linked (L.table links.old) q }
        requires end { (q : Place) → end ≡ Some q → IsLinked L.linked (L.table links.old) q }
        ensures spliced { (gap : Cut) (t : List Place) → RepresentsChain K.Between K.kept (L.table links.old) self.old (join gap)
            → IsAfter gap before → IsBefore gap after → RepresentsChain K.Between K.kept (L.table links.old) given t
            → KnowsLast K.keeps_last end after (last t) → IsDisjoint t (join gap) → Splices (RepresentsChain K.Between K.kept)
            (L.table links.old) (L.table links.new) self.new gap t }
        ensures nothing { given.head ≡ None → (self.new ≡ self.old) × (links.new ≡ links.old) }
        ensures ends { (first : Place) → given.head ≡ Some first → TurnsEnds K.kept self.old self.new before after (Some first) end }
        ensures trace_stays { L.Trace links.old links.new [] }
        ensures extent { (L.table links.new).extent ≡ (L.table links.old).extent }
        ensures others { (q : Place) → before ≢ Some q → (K.NamesPrev → after ≢ Some q) → (K.NamesPrev → given.head ≢ Some q)
            → end ≢ Some q → (L.table links.new).entry q ≡ (L.table links.old).entry q }
    {
        let Some(first) = given.first() else {
            return;
        };
        set_next_or_head::<K, L>(links, &mut self.head, before, after, Some(first));
        set_prev_or_tail::<K, L>(links, &mut self.tail, after, before, end);
        K::set_prev(links, first, None, before);
        match end {
            Some(end) => K::set_next(links, end, None, after),
            None => {}
        }
    }

    /// Cuts the list between two neighbors. The list keeps the members before the cut, and the members after the cut are returned as a list. O(1).
    ///
    /// The call requires only that the neighbors that are not `None` are linked.
    #[inline]
    pub fn split_between<L: LinkOps>(
        &mut self,
        links: &mut L,
        before: Option<Place>,
        after: Option<Place>,
    ) -> LinkList<K, T>
    where
        K: ForwardLinks<L>,
        requires before { (q : Place) → before ≡ Some q → IsLinked L.linked (L.table links.old) q }
        requires after { K.NamesPrev → (q : Place) → after ≡ Some q → IsLinked L.linked (L.table links.old) q }
        requires next { IsNameable L.CanName after }
        ensures split { (gap : Cut) → RepresentsChain K.Between K.kept (L.table links.old) self.old (join gap)
            → IsAfter gap before → IsBefore gap after → Splits (RepresentsChain K.Between K.kept)
            (L.table links.old) (L.table links.new) self.new result gap.front gap.back }
        ensures ends { SplitsEnds K.kept self.old self.new result before after }
        ensures trace_stays { L.Trace links.old links.new [] }
        ensures extent { (L.table links.new).extent ≡ (L.table links.old).extent }
        ensures others { (q : Place) → before ≢ Some q → (K.NamesPrev → after ≢ Some q)
            → (L.table links.new).entry q ≡ (L.table links.old).entry q }
    {
        set_next_or_head::<K, L>(links, &mut self.head, before, after, None);
        set_prev_or_tail::<K, L>(links, &mut self.tail, after, before, None);
        LinkList {
            head: PlaceWord::of(after),
            tail: mem::replace(&mut self.tail, K::keep(before)),
            of: PhantomData,
            kind: PhantomData,
        }
    }
}
