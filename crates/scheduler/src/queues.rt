//! The eight queues of a scheduler, which are lists over one table of links.

ghost use Rattle.std.specs.Prelude.{◌≡◌, ◌≢◌, ◌++◌, ◌∷◌, [], ℕ, List, IfSome, IfNone};
ghost use Rattle.ic_link_ops.specs.Prelude.{Place, first, remove, at_front, IsCovered, IsUnlinked, ChangesOnlyIn, LinksAlso, Unlinks, no_members};
ghost use Rattle.ic_link_ops.specs.DoublyEntries.{is_linked, plain_table, PlainRepresents, PlainRepresentsSome};
ghost use Rattle.scheduler.specs.Kept.{list_at};

use crate::Queue;
use crate::task::Task;
use ic_link_ops::linked_list::LinkOps;
use ic_linked_list::LinkedList;
use ic_unsafe_ref::UnsafeRef;
use std::alloc::Allocator;
use std::array;

/// The lists of the eight queues. The list of a queue is at the index that is the queue's number.
pub(crate) type Queues<V> = [LinkedList<Task<V>>; 8];

// Makes eight empty queues.
pub(crate) fn no_queues<V>() -> Queues<V>
    ensures { (q : ℕ) → list_at result q ≡ no_members }
{
    array::from_fn(|_| LinkedList::new())
}

// Inserts a task at the back of the queue.
pub(crate) fn enqueue<V, A: Allocator>(
    queues: &mut Queues<V>,
    links: &mut LinkOps<A>,
    queue: Queue,
    object: UnsafeRef<Task<V>>,
)
    requires covered { IsCovered (plain_table links.old) object }
    requires unlinked { IsUnlinked is_linked (plain_table links.old) object }
    requires shown { PlainRepresentsSome links.old (list_at queues.old queue) }
    ensures pushed { (s : List Place) → PlainRepresents links.old (list_at queues.old queue) s
        → PlainRepresents links.new (list_at queues.new queue) (s ++ object ∷ []) }
    ensures others { (q : ℕ) → q ≢ queue → list_at queues.new q ≡ list_at queues.old q }
    ensures linked { LinksAlso is_linked (plain_table links.old) (plain_table links.new) object }
    ensures frame { (s : List Place) → PlainRepresents links.old (list_at queues.old queue) s
        → ChangesOnlyIn (plain_table links.old) (plain_table links.new) (object ∷ s) }
{
    let _ = queues[queue.number()].push_back(links, object); // proved: it is not linked
}

// Removes the task at the front of the queue and returns it, or returns `None` if the queue is empty.
pub(crate) fn dequeue<V, A: Allocator>(
    queues: &mut Queues<V>,
    links: &mut LinkOps<A>,
    queue: Queue,
) -> Option<UnsafeRef<Task<V>>>
    requires shown { PlainRepresentsSome links.old (list_at queues.old queue) }
    ensures answer { (s : List Place) → PlainRepresents links.old (list_at queues.old queue) s → result ≡ first s }
    ensures popped { (s : List Place) → PlainRepresents links.old (list_at queues.old queue) s
        → PlainRepresents links.new (list_at queues.new queue) (remove (at_front s)) }
    ensures others { (q : ℕ) → q ≢ queue → list_at queues.new q ≡ list_at queues.old q }
    ensures released { IfSome result (Unlinks is_linked (plain_table links.old) (plain_table links.new)) }
    ensures none { IfNone result ((queues.new ≡ queues.old) × (links.new ≡ links.old)) }
    ensures frame { (s : List Place) → PlainRepresents links.old (list_at queues.old queue) s
        → ChangesOnlyIn (plain_table links.old) (plain_table links.new) s }
{
    queues[queue.number()].pop_front(links)
}
