//! The type `JobQueue` and its calls.
//!
//! ```text
//! let mut queue = JobQueue::new(rt.alloc());
//! queue.add(Job { number: 1, seconds: 30 })?;
//! queue.add(Job { number: 2, seconds: 5 })?;
//! queue.take_next(); // Some(Job { number: 1, seconds: 30 })
//! ```

ghost use Rattle.std.specs.Prelude.{◌≡◌, ◌++◌, ◌∷◌, [], false, OnOk, IfErr, IfSome, IfNone};
ghost use Rattle.ic_pool.specs.Refusals.{lacks_place, value_of};

use ic_link_ops::linked_list::LinkOps;
use ic_linked_list::LinkedList;
use ic_pool::{PlaceError, Pool};
use std::alloc::{Allocator, Global};
use std::marker::Model;

/// A job that waits to be run.
#[derive(Drop, PartialEq, Eq, Debug)]
pub struct Job {
    /// The number of the job. The caller chooses it.
    pub number: u64,
    /// The number of seconds that the job will run.
    pub seconds: u32,
}

/// A queue of waiting jobs, in the order in which they were added.
///
/// A contract sees the waiting jobs as a list, and whether all places are in use.
#[derive(Drop)]
pub struct JobQueue<A: Allocator = Global> {
    pool: Pool<Job, LinkOps<A>, A>,
    waiting: LinkedList<Job>,
}

impl<A: Allocator> Model for JobQueue<A> {
    ghost use Rattle.job_queue.specs.Kept.{Jobs, queue_of, IsKept};

    ghost Value = { Jobs };

    ghost view = { λ queue. queue_of queue.pool.objects queue.pool.links queue.waiting };

    ghost invariant = { λ queue. IsKept queue.pool.objects queue.pool.links queue.waiting };
}

impl<A: Allocator> JobQueue<A> {
    /// Makes a queue in which no job waits. It takes no memory.
    pub fn new(alloc: A) -> JobQueue<A>
    where
        A: Copy,
        ensures waiting { result.waiting ≡ [] }
        ensures room { result.is_full ≡ false }
    {
        JobQueue {
            pool: Pool::new(alloc, LinkOps::new(alloc)),
            waiting: LinkedList::new(),
        }
    }

    /// Adds a job at the back of the queue. O(1), and it takes memory only if the pool grows.
    ///
    /// If the job is refused, the caller gets it back, and the queue has not changed. The error is `NoPlaceLeft` exactly if all 4,294,967,296 places
    /// are in use, and otherwise `OutOfMemory`.
    pub fn add(&mut self, job: Job) -> Result<(), PlaceError<Job>>
        ensures added { OnOk result (self.new.waiting ≡ self.old.waiting ++ job ∷ []) }
        ensures refused { IfErr result (λ refused. (value_of refused ≡ job) × (self.new ≡ self.old) × (lacks_place refused ≡ self.old.is_full)) }
    {
        let object = self.pool.place(job)?; // with room for its link
        self.waiting
            .push_back(&mut self.pool.links, object)
            .unwrap(); // proved: a new object is not linked
        Ok(())
    }

    /// Removes the job that has waited longest and returns it, or returns `None` if no job waits. O(1), and it takes no memory.
    pub fn take_next(&mut self) -> Option<Job>
        ensures taken { IfSome result (λ job. self.old.waiting ≡ job ∷ self.new.waiting) }
        ensures none { IfNone result ((self.old.waiting ≡ []) × (self.new ≡ self.old)) }
    {
        let object = self.waiting.pop_front(&mut self.pool.links)?;
        Some(self.pool.remove(object)) // proved: it is linked nowhere now
    }
}
