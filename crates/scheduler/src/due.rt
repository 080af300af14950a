//! Moves due tasks from the tree of deadlines to their queues.
//!
//! ```text
//! let moved = move_due(&mut deadlines, &mut deadline_links, &objects, &mut queue_links, &mut queues, now);
//! ```

ghost use Rattle.std.specs.Prelude.{◌≡◌, ◌≤◌, true, false, length, List};
ghost use Rattle.std.specs.Bool.{OnTrue, OnFalse};
ghost use Rattle.std.specs.List.{AllByRecursion};
ghost use Rattle.ic_link_ops.specs.Prelude.{Place, first};
ghost use Rattle.ic_rbtree.specs.CursorMut.{tree_of, links_of, position, SameBorrows};
ghost use Rattle.ic_rbtree.specs.Prelude.{PlainRepresents, root_of};
ghost use Rattle.scheduler.specs.Kept.{schedule_of, IsKept};
ghost use Rattle.scheduler.specs.Schedule.{IsUnchanged, Ticks, MovesFirst, is_due};

use crate::queues::{Queues, enqueue};
use crate::task::Task;
use crate::timer_queue::{ByDeadline, take_due_at};
use ic_link_ops::{linked_list, rbtree};
use ic_rbtree::{CursorMut, RBTree};
use ic_unsafe_ref::Objects;
use std::alloc::Allocator;

// Moves the first waiting task, on which the cursor is, to the back of its queue if the task is due. It returns whether it moved a task. There are
// fewer than 2^33 places, so that a count of the moves cannot overflow.
#[inline]
fn move_first<V, A: Allocator>(
    cursor: &mut CursorMut<'_, ByDeadline<Task<V>>, rbtree::LinkOps<A>>,
    objects: &Objects<Task<V>, A>,
    queue_links: &mut linked_list::LinkOps<A>,
    queues: &mut Queues<V>,
    now: u64,
) -> bool
    requires kept { IsKept objects.now (links_of cursor.old) (root_of (tree_of cursor.old)) queue_links.old queues.old }
    requires front { (s : List Place) → PlainRepresents (links_of cursor.old) (root_of (tree_of cursor.old)) s → position cursor.old ≡ first s }
    ensures kept { IsKept objects.now (links_of cursor.new) (root_of (tree_of cursor.new)) queue_links.new queues.new }
    ensures front { (s : List Place) → PlainRepresents (links_of cursor.new) (root_of (tree_of cursor.new)) s → position cursor.new ≡ first s }
    ensures few { length (schedule_of objects.now (links_of cursor.old) (root_of (tree_of cursor.old)) queue_links.old queues.old).waiting
        ≤ 8589934591 }
    ensures moved { OnTrue result (MovesFirst now
        (schedule_of objects.now (links_of cursor.old) (root_of (tree_of cursor.old)) queue_links.old queues.old)
        (schedule_of objects.now (links_of cursor.new) (root_of (tree_of cursor.new)) queue_links.new queues.new)) }
    ensures unchanged { OnFalse result (IsUnchanged
        (schedule_of objects.now (links_of cursor.old) (root_of (tree_of cursor.old)) queue_links.old queues.old)
        (schedule_of objects.now (links_of cursor.new) (root_of (tree_of cursor.new)) queue_links.new queues.new)) }
    ensures none_due { OnFalse result (AllByRecursion (λ task. is_due now task ≡ false)
        (schedule_of objects.now (links_of cursor.old) (root_of (tree_of cursor.old)) queue_links.old queues.old).waiting) }
    ensures borrows { SameBorrows cursor.old cursor.new }
{
    let Some(object) = take_due_at(cursor, objects, now) else {
        return false;
    };
    let queue = objects.get(object.place()).unwrap().queue; // proved: a task stands there
    enqueue(queues, queue_links, queue, object);
    true
}

// Moves the tasks that are due to the backs of their queues, the earliest first, and returns how many tasks it moved. A cursor goes from each task to
// the next one, so that only the first task needs a search.
pub(crate) fn move_due<V, A: Allocator>(
    deadlines: &mut RBTree<ByDeadline<Task<V>>>,
    deadline_links: &mut rbtree::LinkOps<A>,
    objects: &Objects<Task<V>, A>,
    queue_links: &mut linked_list::LinkOps<A>,
    queues: &mut Queues<V>,
    now: u64,
) -> usize
    requires kept { IsKept objects.now deadline_links.old (root_of deadlines.old) queue_links.old queues.old }
    ensures kept { IsKept objects.now deadline_links.new (root_of deadlines.new) queue_links.new queues.new }
    ensures ticks { Ticks now
        (schedule_of objects.now deadline_links.old (root_of deadlines.old) queue_links.old queues.old)
        (schedule_of objects.now deadline_links.new (root_of deadlines.new) queue_links.new queues.new) result }
{
    let mut cursor = deadlines.front_mut(deadline_links);
    let mut moved = 0;
    while move_first(&mut cursor, objects, queue_links, queues, now) {
        moved += 1;
    }
    moved
}
