//! A walk returns the objects of a hash table one after another.
//!
//! ```text
//! for task in table.iter(&links, &objects) {
//!     task.run();
//! }
//! println!(rt; "{:?}", table.debug(&links, &objects))?; // [20, 10]
//! ```

ghost use Rattle.std.specs.Prelude.{◌≡◌, List, Option, Some, ⊤};
ghost use Rattle.ic_link_ops.specs.Prelude.{Place, values_at, GivesFirst};
ghost use Rattle.ic_hash_table.specs.HashTable.{number, Holds, HoldsSome};

use crate::{BucketRow, HashAdapter, HashTable};
use ic_cursors::DebugWalk;
use ic_link_ops::LinkOps;
use ic_link_ops::singly_linked_list::SinglyLinkedListOps;
use ic_unsafe_ref::{Objects, Place, Values};
use std::alloc::AllocError;
use std::marker::PhantomData;

/// A walk over the objects of a hash table: it visits chain after chain, and each chain from its first member on.
///
/// The bound `A::Key: 'a` holds for every key that is a part of its object. Only callers that are generic in the adapter have to write this bound.
pub struct Iter<'a, A: HashAdapter, B, L, O = Objects<<A as HashAdapter>::Value>>
where
    A::Key: 'a,
{
    table: &'a HashTable<A, B>,
    links: &'a L,
    objects: &'a O,
    of: PhantomData<&'a A::Value>,
    at: Option<Place>,
}

impl<A: HashAdapter, B, L, O> Drop for Iter<'_, A, B, L, O> {
    fn drop(self) {
        let Iter {
            table: _,
            links: _,
            objects: _,
            of: _,
            at: _,
        } = self;
    }
}

impl<'a, A: HashAdapter, B: BucketRow, L: SinglyLinkedListOps, O: Values<A::Value>> Iterator
    for Iter<'a, A, B, L, O> {
    type Item = &'a A::Value;

    ghost use Rattle.std.specs.Iterator.{item_count};
    ghost use Rattle.ic_hash_table.specs.Iter.{objects_left, CanWalk};

    ghost can_next = { CanWalk L.successor L.table (number A.key_of A.hash_of) B.fronts O.values };

    ghost next_gives = { GivesFirst (objects_left L.successor L.table B.fronts O.values) };

    ghost remaining = { item_count (objects_left L.successor L.table B.fronts O.values) };

    /// The next object, or `None` if none is left. The whole walk takes one step for each member and each bucket, and compares no keys.
    fn next(&mut self) -> Option<&'a A::Value> {
        let place = self.table.next(self.links, self.objects, self.at)?;
        let objects: &'a O = self.objects;
        let value = objects.value(place);
        self.at = Some(place);
        Some(value)
    }
}

impl<A: HashAdapter, B, L, O> Clone for Iter<'_, A, B, L, O> {
    ghost is_clone = { λ t copy. copy ≡ t };

    ghost is_infallible = { λ _. ⊤ };

    /// Makes a second walk, which has the same objects left. It never fails.
    fn clone(&self) -> Result<Self, AllocError> {
        Ok(Iter {
            table: self.table,
            links: self.links,
            objects: self.objects,
            of: PhantomData,
            at: self.at,
        })
    }
}

impl<A: HashAdapter, B: BucketRow> HashTable<A, B> {
    ghost use Rattle.ic_hash_table.specs.Iter.{objects_left, CanWalk};

    /// A walk over the objects of the table, chain by chain. It requires that `objects` has every member, with the key that the member was inserted by.
    /// O(1).
    pub fn iter<'a, L: SinglyLinkedListOps, O: Values<A::Value>>(
        &'a self,
        links: &'a L,
        objects: &'a O,
    ) -> Iter<'a, A, B, L, O>
        requires held { HoldsSome L.successor (number A.key_of A.hash_of) B.fronts (L.table links.now) self.now (O.values objects.now) }
        ensures walks { (s : List Place) → Holds L.successor (number A.key_of A.hash_of) B.fronts (L.table links.now) self.now (O.values objects.now) s
            → objects_left L.successor L.table B.fronts O.values result ≡ values_at (O.values objects.now) s }
        ensures can_walk { CanWalk L.successor L.table (number A.key_of A.hash_of) B.fronts O.values result }
    {
        Iter {
            table: self,
            links,
            objects,
            of: PhantomData,
            at: None,
        }
    }

    /// A value that prints the objects of the table, chain by chain. `{:?}` writes `[10, 20]`, and `{:#?}` writes each object on lines of its own. It requires
    /// that `objects` has every member, with the key that the member was inserted by. O(1). It takes no memory.
    pub fn debug<'a, L: SinglyLinkedListOps, O: Values<A::Value>>(
        &'a self,
        links: &'a L,
        objects: &'a O,
    ) -> DebugWalk<Iter<'a, A, B, L, O>>
        requires held { HoldsSome L.successor (number A.key_of A.hash_of) B.fronts (L.table links.now) self.now (O.values objects.now) }
        ensures lists { (s : List Place) → Holds L.successor (number A.key_of A.hash_of) B.fronts (L.table links.now) self.now (O.values objects.now) s
            → objects_left L.successor L.table B.fronts O.values result ≡ values_at (O.values objects.now) s }
    {
        DebugWalk::new(self.iter(links, objects))
    }
}
