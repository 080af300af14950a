//! A walk returns the objects of a container in their order.
//!
//! ```text
//! for job in listed.iter() {
//!     job.report();
//! }
//! let last = listed.iter().next_back();
//! ```

ghost use Rattle.std.specs.Prelude.{⊤};
ghost use Rattle.ic_link_ops.specs.Walk.{GivesFirst, GivesLast};

use ic_link_ops::linked_list::TwoWords;
use ic_link_ops::{PlainTable, PrevPlace};
use ic_unsafe_ref::Objects;
use std::alloc::Allocator;
use std::marker::Model;

/// A walk over objects in their order. `next` returns the first object that the walk has not returned yet, and `next_back` the last such object.
///
/// A contract speaks of the list of the objects that the walk has not returned. `W` is the type of the words of the container's links.
#[derive(Drop)]
pub struct Iter<'a, T, A: Allocator, W: PrevPlace = TwoWords> {
    walk: ic_linked_list::Iter<'a, T, PlainTable<W, A>, Objects<T, A>>,
}

impl<'a, T, A: Allocator, W: PrevPlace> Model for Iter<'a, T, A, W> {
    ghost use Rattle.std.specs.Prelude.{List};
    ghost use Rattle.ic_link_ops.specs.PlainTables.{table};
    ghost use Rattle.ic_link_ops.specs.Readings.{neighbors_of};
    ghost use Rattle.ic_container.specs.Walks.{left_of, CanWalkOn};

    ghost Value = { List T };

    ghost view = { λ i. left_of (neighbors_of W.next_word W.is_linked W.prev) (table W.width W.unlinked) i.walk };

    ghost invariant = { λ i. CanWalkOn (neighbors_of W.next_word W.is_linked W.prev) (table W.width W.unlinked) i.walk };
}

impl<'a, T, A: Allocator, W: PrevPlace> Iter<'a, T, A, W> {
    ghost use Rattle.std.specs.Prelude.{◌≡◌};
    ghost use Rattle.ic_link_ops.specs.PlainTables.{table};
    ghost use Rattle.ic_link_ops.specs.Readings.{neighbors_of};
    ghost use Rattle.ic_container.specs.Walks.{left_of, CanWalkOn};

    /// Makes a walk over the objects of a list. The call requires that the table represents the list when the walk begins. O(1), and it takes no memory.
    pub fn new(
        walk: ic_linked_list::Iter<'a, T, PlainTable<W, A>, Objects<T, A>>,
    ) -> Iter<'a, T, A, W>
        requires { CanWalkOn (neighbors_of W.next_word W.is_linked W.prev) (table W.width W.unlinked) walk }
        ensures { result ≡ left_of (neighbors_of W.next_word W.is_linked W.prev) (table W.width W.unlinked) walk.entry }
    {
        Iter { walk }
    }
}

impl<'a, T, A: Allocator, W: PrevPlace> Iterator for Iter<'a, T, A, W> {
    type Item = &'a T;

    ghost use Rattle.std.specs.Prelude.{List};
    ghost use Rattle.std.specs.Iterator.{item_count};

    ghost can_next = { λ _. ⊤ };

    ghost next_gives = { GivesFirst (λ (left : List T). left) };

    ghost remaining = { item_count (λ (left : List T). left) };

    /// Returns the first object that the walk has not returned yet. O(1).
    fn next(&mut self) -> Option<&'a T> {
        self.walk.next()
    }
}

impl<'a, T, A: Allocator, W: PrevPlace> DoubleEndedIterator for Iter<'a, T, A, W> {
    ghost use Rattle.std.specs.Prelude.{List};

    ghost can_next_back = { λ _. ⊤ };

    ghost next_back_gives = { GivesLast (λ (left : List T). left) };

    /// Returns the last object that the walk has not returned yet. O(1).
    fn next_back(&mut self) -> Option<&'a T> {
        self.walk.next_back()
    }
}
