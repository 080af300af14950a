//! These examples of callers have contracts, and no example needs a proof file.
//!
//! ```text
//! example::add(&mut recent, &mut links, object);
//! example::reuse(&mut recent, &mut links, &other);  // before all others
//! example::requeue(&mut waiting, &mut links, &job); // after all others
//! example::slide(&mut window, &mut narrow_links, object); // the first one, which is out of the window now
//!
//! example::schedule(&mut timers, &mut links, &objects, timer);
//! example::first_from(&timers, &links, &objects, 30); // the number of the first that is due at 30 or later
//! example::reschedule(&mut timers, &mut links, &objects, &timer); // after those with the same deadline
//! ```

ghost use Rattle.std.specs.Prelude.{◌≡◌, ◌++◌, ◌∷◌, [], true, List, drop};
ghost use Rattle.std.specs.Ordering.{nat_cmp};
ghost use Rattle.ic_link_ops.specs.Prelude.{Place, is_placed, first, IsCovered, IsUnlinked, HasMember, node_of};
ghost use Rattle.ic_link_ops.specs.DoublyEntries.{is_linked, plain_table, PlainRepresents, PlainRepresentsSome};
ghost use Rattle.ic_link_ops.specs.LinkedList.{Represents, RepresentsSome};
ghost use Rattle.ic_rbtree.specs.PlainTrees as tree;
ghost use Rattle.ic_rbtree.specs.Tree.{root_of};
ghost use Rattle.ic_plain.specs.SortedTrees.{IsInOrder};

use crate::{linked_list, rbtree};
use ic_link_ops::AcceptsUnlinked;
use ic_link_ops::linked_list::{LinkOps, LinkedListOps};
use ic_link_ops::rbtree::LinkOps as TreeLinkOps;
use ic_linked_list::LinkedList;
use ic_rbtree::{KeyAdapter, RBTree};
use ic_unsafe_ref::{Objects, UnsafeRef};
use std::alloc::Allocator;

/// Inserts an object that is not linked, before all other members. O(1).
pub fn add<T, A: Allocator>(list: &mut LinkedList<T>, links: &mut LinkOps<A>, object: UnsafeRef<T>)
    requires covered { IsCovered (plain_table links.old) object }
    requires unlinked { IsUnlinked is_linked (plain_table links.old) object }
    requires shown { PlainRepresentsSome links.old list.old }
    ensures added { (s : List Place) → PlainRepresents links.old list.old s → PlainRepresents links.new list.new (object ∷ s) }
{
    linked_list::push_front(list, links, object);
}

/// Moves a member before all other members, because it was used. O(1).
pub fn reuse<T, A: Allocator>(
    list: &mut LinkedList<T>,
    links: &mut LinkOps<A>,
    object: &UnsafeRef<T>,
)
    requires member { HasMember (PlainRepresents links.old list.old) object.now }
    ensures moved { (front back : List Place) → PlainRepresents links.old list.old (front ++ object.now ∷ back)
        → PlainRepresents links.new list.new (object.now ∷ (front ++ back)) }
{
    linked_list::move_to_front(list, links, object);
}

/// Removes a member, and inserts it again after all other members. O(1).
pub fn requeue<T, A: Allocator>(
    list: &mut LinkedList<T>,
    links: &mut LinkOps<A>,
    object: &UnsafeRef<T>,
)
    requires member { HasMember (PlainRepresents links.old list.old) object.now }
    ensures moved { (front back : List Place) → PlainRepresents links.old list.old (front ++ object.now ∷ back)
        → PlainRepresents links.new list.new ((front ++ back) ++ object.now ∷ []) }
{
    linked_list::remove(list, links, object);
    linked_list::push_back(list, links, UnsafeRef::new(object.place()));
}

/// Inserts an object that is not linked after all other members, and removes and returns the first member, as a sliding window does. The links may
/// have words of 8 bytes or of 4. O(1).
pub fn slide<T, L: LinkedListOps + AcceptsUnlinked>(
    window: &mut LinkedList<T>,
    links: &mut L,
    object: UnsafeRef<T>,
) -> Option<UnsafeRef<T>>
    requires covered { IsCovered (L.table links.old) object }
    requires unlinked { IsUnlinked L.linked (L.table links.old) object }
    requires shown { RepresentsSome L.neighbors (L.table links.old) window.old }
    ensures first { (s : List Place) → Represents L.neighbors (L.table links.old) window.old s → result ≡ first (s ++ object ∷ []) }
    ensures left { (s : List Place) → Represents L.neighbors (L.table links.old) window.old s
        → Represents L.neighbors (L.table links.new) window.new (drop 1 (s ++ object ∷ [])) }
    ensures shown { RepresentsSome L.neighbors (L.table links.new) window.new }
{
    linked_list::push_back(window, links, object);
    linked_list::pop_front(window, links)
}

/// A timer: an object that waits until it is due.
#[derive(Drop)]
pub struct Timer {
    /// The number by which the owner of the timer knows it.
    pub number: u64,
    /// The time from which on the timer is due.
    pub deadline: u64,
}

/// The adapter whose key is the deadline of a timer.
#[derive(Clone, Copy, Default)]
pub struct ByDeadline;

impl KeyAdapter for ByDeadline {
    type Value = Timer;

    type Key = u64;

    ghost key_of = { λ _ timer. timer.deadline };

    #[inline]
    fn get_key<'v>(&self, timer: &'v Timer) -> &'v u64 {
        &timer.deadline
    }
}

/// Inserts a timer that is not linked, after the timers with the same deadline or an earlier one. O(log n).
pub fn schedule<A: Allocator, B: Allocator>(
    timers: &mut RBTree<ByDeadline>,
    links: &mut TreeLinkOps<A>,
    objects: &Objects<Timer, B>,
    timer: UnsafeRef<Timer>,
)
    requires covered { IsCovered (tree.plain_table links.old) timer }
    requires unlinked { IsUnlinked tree.is_linked (tree.plain_table links.old) timer }
    requires object { is_placed objects.now timer ≡ true }
    requires sorted { IsInOrder nat_cmp ⟦<ByDeadline as KeyAdapter>⟧.key_of node_of (tree.plain_table links.old) timers.old objects.now }
    ensures sorted { IsInOrder nat_cmp ⟦<ByDeadline as KeyAdapter>⟧.key_of node_of (tree.plain_table links.new) timers.new objects.now }
{
    rbtree::insert(timers, links, objects, timer);
}

/// The number of the first timer that is due at `time` or later, or `None` if all timers are due before `time`. O(log n).
pub fn first_from<A: Allocator, B: Allocator>(
    timers: &RBTree<ByDeadline>,
    links: &TreeLinkOps<A>,
    objects: &Objects<Timer, B>,
    time: u64,
) -> Option<u64>
    requires sorted { IsInOrder nat_cmp ⟦<ByDeadline as KeyAdapter>⟧.key_of node_of (tree.plain_table links.now) timers.now objects.now }
{
    let place = rbtree::lower_bound(timers, links, objects, &time)?;
    Some(objects.get(place)?.number)
}

/// Removes a timer, and inserts it again after the timers with the same deadline. O(log n).
pub fn reschedule<A: Allocator, B: Allocator>(
    timers: &mut RBTree<ByDeadline>,
    links: &mut TreeLinkOps<A>,
    objects: &Objects<Timer, B>,
    timer: &UnsafeRef<Timer>,
)
    requires member { HasMember (tree.PlainRepresents links.old (root_of timers.old)) timer.now }
    requires object { is_placed objects.now timer.now ≡ true }
    requires sorted { IsInOrder nat_cmp ⟦<ByDeadline as KeyAdapter>⟧.key_of node_of (tree.plain_table links.old) timers.old objects.now }
    ensures sorted { IsInOrder nat_cmp ⟦<ByDeadline as KeyAdapter>⟧.key_of node_of (tree.plain_table links.new) timers.new objects.now }
{
    rbtree::remove(timers, links, timer);
    rbtree::insert(timers, links, objects, UnsafeRef::new(timer.place()));
}
