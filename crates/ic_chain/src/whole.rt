//! Calls that concern all members of a list.
//!
//! ```text
//! let rest = list.take();      // `list` is empty now
//! rest.dispose(&mut links);    // and its members are unlinked
//! ```

ghost use Rattle.std.specs.Prelude.{◌≡◌, ◌↔◌, List, IsTrue};
ghost use Rattle.ic_link_ops.specs.Prelude.{Place, IsMember, ChangesOnlyIn, releases_each, RepresentsChain, RepresentsSomeChain, empty_list};

use crate::LinkList;
use crate::kind::{ForwardLinks, ListKind};
use ic_link_ops::LinkOps;
use ic_unsafe_ref::Place;
use std::mem;

impl<K: ListKind, T> LinkList<K, T> {
    /// Whether the place is a member of the list. The call walks from the front, and takes no memory: O(n).
    pub fn contains<L: LinkOps>(&self, links: &L, place: Place) -> bool
    where
        K: ForwardLinks<L>,
        requires shown { RepresentsSomeChain K.Between K.kept (L.table links.now) self.now }
        ensures { (s : List Place) → RepresentsChain K.Between K.kept (L.table links.now) self.now s → IsTrue result ↔ IsMember place s }
    {
        let mut current = self.first();
        let mut prev = None;
        while let Some(member) = current {
            if member == place {
                return true;
            }
            current = K::next(links, member, prev);
            prev = Some(member);
        }
        false
    }

    /// Removes all objects from the list. Each member is unlinked, and the list is then empty.
    ///
    /// The call makes one step for each member, and takes no memory. Lists that share no member with this list stay as they are. O(n).
    pub fn clear<L: LinkOps>(&mut self, links: &mut L)
    where
        K: ForwardLinks<L>,
        requires shown { RepresentsSomeChain K.Between K.kept (L.table links.old) self.old }

        ensures empty { self.new ≡ empty_list K.kept }
        ensures released { (s : List Place) → RepresentsChain K.Between K.kept (L.table links.old) self.old s
            → L.Trace links.old links.new (releases_each s) }
        ensures frame { (s : List Place) → RepresentsChain K.Between K.kept (L.table links.old) self.old s
            → ChangesOnlyIn (L.table links.old) (L.table links.new) s }
    {
        let mut current = self.first();
        let mut prev = None;
        self.fast_clear();
        while let Some(place) = current {
            current = K::next(&*links, place, prev);
            links.release_link(place);
            prev = Some(place);
        }
    }

    /// Removes all objects from a list and consumes the list. The table changes as in [`clear`](Self::clear). O(n).
    pub fn dispose<L: LinkOps>(self, links: &mut L)
    where
        K: ForwardLinks<L>,
        requires shown { RepresentsSomeChain K.Between K.kept (L.table links.old) self }

        ensures released { (s : List Place) → RepresentsChain K.Between K.kept (L.table links.old) self s
            → L.Trace links.old links.new (releases_each s) }
        ensures frame { (s : List Place) → RepresentsChain K.Between K.kept (L.table links.old) self s
            → ChangesOnlyIn (L.table links.old) (L.table links.new) s }
    {
        let mut list = self;
        list.clear(links);
    }

    /// Empties the list, and leaves the objects that were in it linked. The call reads no table: O(1).
    ///
    /// The objects stay linked, so no list accepts them until the table unlinks them. For a plain table, `force_unlink` unlinks an object.
    #[inline]
    pub fn fast_clear(&mut self)
        ensures empty { self.new ≡ empty_list K.kept }
    {
        let _ = self.take();
    }

    /// Returns the list with all its members, and leaves this list empty. The call reads no table, and no link changes: O(1).
    #[inline]
    pub fn take(&mut self) -> LinkList<K, T>
        ensures whole { result ≡ self.old }
        ensures empty { self.new ≡ empty_list K.kept }
    {
        mem::take(self)
    }
}
