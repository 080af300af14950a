//! The queue of jobs with four priorities.
//!
//! ```text
//! let job = queue.push(Priority::Urgent, 1)?;
//! queue.reprioritize(&job, Priority::Low);
//! let first = queue.pop(); // 1
//! ```

ghost use Rattle.std.specs.Prelude.{◌≡◌, ℕ, None, IfOk, IfErr, IfSome, IfNone, [], List};
ghost use Rattle.std.specs.Bool.{OnTrue, OnFalse};
ghost use Rattle.ic_link_ops.specs.Prelude.{object_at, no_members};
ghost use Rattle.ic_container.specs.ListArray.{list_at, members_at, IsEmpty, IsUnchanged, Pushes, Renews, TakesFirst, TakesOut};
ghost use Rattle.ic_pool.specs.Refusals.{value_of};
ghost use Rattle.structure_tests.specs.Jobs.{job_of, list_index_of_job};

use crate::containers::{Job, Priority};
use ic_container::list_array;
use ic_link_ops::linked_list::LinkOps;
use ic_linked_list::LinkedList;
use ic_pool::{PlaceError, Pool};
use ic_unsafe_ref::UnsafeRef;
use std::alloc::{Allocator, Global};
use std::array;
use std::marker::Model;

/// A queue of waiting jobs, which returns the most urgent jobs first.
///
/// A contract describes the queue by the references of each list, from its front on, and by the job of each reference.
#[derive(Drop)]
pub struct JobQueue<V, A: Allocator = Global> {
    pool: Pool<Job<V>, LinkOps<A>, A>,
    lists: [LinkedList<Job<V>>; 4],
}

impl<V, A: Allocator> Model for JobQueue<V, A> {
    ghost use Rattle.std.specs.Coded.{codes};
    ghost use Rattle.ic_container.specs.ListArray.{ListArray, list_array_code, list_array_of, IsListArray};
    ghost use Rattle.structure_tests.specs.declared.containers.job.Job.{Job};
    ghost use Rattle.structure_tests.specs.Jobs.{list_index_of_job};

    ghost Value = { ListArray (Job V) };

    ghost coded = { list_array_code (Prim.hlevel (codes, V.code)) };

    ghost view = { λ q. list_array_of q.pool.objects q.pool.links q.lists };

    ghost invariant = { λ q. IsListArray list_index_of_job q.pool.objects q.pool.links q.lists };
}

// Returns four lists that have no jobs.
fn empty_lists<V>() -> [LinkedList<Job<V>>; 4]
    ensures { (i : ℕ) → list_at result i ≡ no_members }
{
    array::from_fn(|_| LinkedList::new())
}

impl<V, A: Allocator> JobQueue<V, A> {
    /// Makes a queue in which no job waits. The call takes no memory.
    pub fn new(alloc: A) -> JobQueue<V, A>
    where
        A: Copy,
        ensures { IsEmpty result }
    {
        JobQueue {
            pool: Pool::new(alloc, LinkOps::new(alloc)),
            lists: empty_lists(),
        }
    }

    /// Adds a job after the other jobs of its priority, and returns the reference by which it can be canceled. If there is no memory for the job, the
    /// caller gets the job back, and nothing has changed. O(1), and the call makes at most two requests for memory.
    pub fn push(
        &mut self,
        priority: Priority,
        value: V,
    ) -> Result<UnsafeRef<Job<V>>, PlaceError<Job<V>>>
        ensures pushed { IfOk result (λ job. Pushes list_index_of_job job (job_of priority value) self.old self.new) }
        ensures refused { IfErr result (λ refused. (value_of refused ≡ job_of priority value) × IsUnchanged self.old self.new) }
    {
        let job = match self.pool.place(Job { priority, value }) {
            Ok(job) => job,
            Err(refused) => return Err(refused),
        };
        let (lists, links) = (&mut self.lists, &mut self.pool.links);
        list_array::push_back(lists, links, priority.list_index(), job.place());
        Ok(job)
    }

    /// Gives a job another priority, and moves it after the jobs that have that priority. If no job has this reference, the call returns `false`, and
    /// nothing has changed. O(1), and the call takes no memory.
    pub fn reprioritize(&mut self, job: &UnsafeRef<Job<V>>, priority: Priority) -> bool
        ensures moved { OnTrue result ((value : V) × (was : Priority) × Renews list_index_of_job job.now (job_of was value) (job_of priority value) self.old self.new) }
        ensures none { OnFalse result ((object_at self.old.values job.now ≡ None) × IsUnchanged self.old self.new) }
    {
        let Some(it) = self.pool.objects.get_mut(job.place()) else {
            return false;
        };
        let index = it.priority.list_index();
        it.priority = priority;
        let (lists, links) = (&mut self.lists, &mut self.pool.links);
        list_array::move_to_back(lists, links, index, priority.list_index(), job.place());
        true
    }

    /// Removes the waiting job with this reference and returns it. If no job has this reference, the call returns `None`, and nothing has changed.
    /// O(1), and the call takes no memory.
    pub fn cancel(&mut self, job: &UnsafeRef<Job<V>>) -> Option<Job<V>>
        ensures cancelled { IfSome result (λ it. TakesOut list_index_of_job job.now it self.old self.new) }
        ensures none { IfNone result ((object_at self.old.values job.now ≡ None) × IsUnchanged self.old self.new) }
    {
        let index = self.pool.get(job)?.priority.list_index();
        let (lists, links) = (&mut self.lists, &mut self.pool.links);
        list_array::remove(lists, links, index, job.place());
        Some(self.pool.remove(UnsafeRef::new(job.place())))
    }

    /// Removes the first job of the most urgent priority that has a job, and returns it. If no job waits, the call returns `None`, and nothing has changed.
    /// O(1), and the call takes no memory.
    pub fn pop(&mut self) -> Option<Job<V>>
        ensures taken { IfSome result (λ job. TakesFirst list_index_of_job job self.old self.new) }
        ensures none { IfNone result (((i : ℕ) → members_at self.old i ≡ []) × IsUnchanged self.old self.new) }
    {
        let first = list_array::first(&self.lists)?;
        self.cancel(&UnsafeRef::new(first))
    }
}
