//! The type `Scheduler` and its calls.

ghost use Rattle.std.specs.Prelude.{◌≡◌, [], true, OnOk, IsErr, IfErr, IfSome, IfNone};

use crate::due::move_due;
use crate::queues::{Queues, dequeue, no_queues};
use crate::task::Task;
use crate::timer_queue::{ByDeadline, schedule};
use crate::{AddError, Queue};
use ic_link_ops::{linked_list, rbtree};
use ic_pool::{PlaceError, Pool};
use ic_rbtree::RBTree;
use std::alloc::{Allocator, Global};
use std::marker::Model;

/// Tasks that wait for their deadlines, and eight queues of tasks whose deadlines have come.
///
/// A contract sees the waiting tasks in the order of their deadlines, the tasks of each queue from its front, and whether all places are in use. Each
/// task is linked either in the tree of deadlines or in the list of its queue, and never in both.
#[derive(Drop)]
pub struct Scheduler<V, A: Allocator = Global> {
    pool: Pool<Task<V>, (linked_list::LinkOps<A>, rbtree::LinkOps<A>), A>,
    deadlines: RBTree<ByDeadline<Task<V>>>,
    queues: Queues<V>,
}

impl<V, A: Allocator> Model for Scheduler<V, A> {
    ghost use Rattle.scheduler.specs.Schedule.{Schedule};
    ghost use Rattle.scheduler.specs.Kept.{schedule_of, IsKept};
    ghost use Rattle.ic_rbtree.specs.Tree.{root_of};

    ghost Value = { Schedule V };

    ghost view = { λ s. schedule_of s.pool.objects s.pool.links.1 (root_of s.deadlines) s.pool.links.0 s.queues };

    ghost invariant = { λ s. IsKept s.pool.objects s.pool.links.1 (root_of s.deadlines) s.pool.links.0 s.queues };
}

impl<V, A: Allocator> Scheduler<V, A> {
    ghost use Rattle.scheduler.specs.Schedule.{IsEmpty, IsOnceEach, IsScheduleOf, IsUnchanged, Adds, Ticks, TakesFront, queue_at, task_of};
    ghost use Rattle.scheduler.specs.Refusals.{number_of, refusal_number, value_of};

    /// Makes a scheduler with no task. It takes no memory.
    #[tactic(auto, using(crate::proofs::Keeping::kept_none))]
    pub fn new(alloc: A) -> Scheduler<V, A>
    where
        A: Copy,
        ensures { IsEmpty result }
    {
        let links = (
            linked_list::LinkOps::new(alloc),
            rbtree::LinkOps::new(alloc),
        );
        Scheduler {
            pool: Pool::new(alloc, links),
            deadlines: RBTree::new(ByDeadline::new()),
            queues: no_queues(),
        }
    }

    /// Adds a task, which then waits, even if its deadline has passed. O(log n).
    ///
    /// If the task is refused, the caller gets the value back, and nothing has changed. The error is `TooManyTasks` exactly if all 4,294,967,296
    /// places are in use, and otherwise `OutOfMemory`. It makes at most three requests for memory.
    pub fn add(&mut self, deadline: u64, queue: Queue, value: V) -> Result<(), AddError<V>>
        ensures added { OnOk result (Adds (task_of deadline queue value) self.old self.new) }
        ensures refused { IfErr result (λ refused. (value_of refused ≡ value) × IsUnchanged self.old self.new
            × (number_of refused ≡ refusal_number self.old.is_full)) }
        ensures full { self.old.is_full ≡ true → IsErr result }
    {
        let task = Task {
            deadline,
            queue,
            value,
        };
        // The pool makes room for the task in both tables, so that the task can later move to its queue without taking memory.
        let object = match self.pool.place(task) {
            Ok(object) => object,
            Err(PlaceError::NoPlaceLeft(task)) => return Err(AddError::TooManyTasks(task.value)),
            Err(PlaceError::OutOfMemory(task)) => return Err(AddError::OutOfMemory(task.value)),
        };
        let (objects, links) = (&self.pool.objects, &mut self.pool.links.1);
        let _ = schedule(&mut self.deadlines, links, objects, object); // proved: it is not linked
        Ok(())
    }

    /// Moves the tasks that are due at `now` to the backs of their queues, the earliest first. Tasks with equal deadlines move in the order in which they
    /// were added. It returns how many tasks it moved. It costs O(log n), plus O(1) on average for each moved task, and takes no memory.
    pub fn tick(&mut self, now: u64) -> usize
        ensures { Ticks now self.old self.new result }
    {
        move_due(
            &mut self.deadlines,
            &mut self.pool.links.1,
            &self.pool.objects,
            &mut self.pool.links.0,
            &mut self.queues,
            now,
        )
    }

    /// Removes the task at the front of the queue and returns it with its deadline, or returns `None` if the queue is empty. O(1), and it takes no
    /// memory.
    pub fn next_task(&mut self, queue: Queue) -> Option<(u64, V)>
        ensures taken { IfSome result (λ answer. TakesFront (task_of answer.0 queue answer.1) self.old self.new) }
        ensures none { IfNone result ((queue_at self.old queue ≡ []) × IsUnchanged self.old self.new) }
    {
        let object = dequeue(&mut self.queues, &mut self.pool.links.0, queue)?;
        let task = self.pool.remove(object);
        Some((task.deadline, task.value))
    }

    /// States, for use in a caller's proof, that each task is either in the tree of waiting tasks or in one queue. The call itself does nothing.
    pub fn each_task_is_once(&self)
        ensures { IsOnceEach self.now }
    {
        // This function reads a part of a scheduler, and the invariant holds for every scheduler.
        let _ = self.pool.len();
    }

    /// States, for use in a caller's proof, that the waiting tasks are sorted by deadline. So `IsScheduleOf` holds of the list of these tasks. The call
    /// itself does nothing.
    pub fn stands_for_what_waits(&self)
        ensures { IsScheduleOf self.now self.now.waiting }
    {
        let _ = self.pool.len();
    }
}
