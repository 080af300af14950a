//! Timers: values that wait for their deadlines. A caller can cancel a timer before it is due.
//!
//! ```text
//! let mut timers = Timers::new(rt.alloc());
//! let tea = timers.add(5, 10)?;
//! timers.cancel(&tea); // Some((5, 10))
//! timers.take_due(now) // the first one with a deadline of at most `now`
//! timers.take_all_due(now, &mut due)?; // and all others that are due
//! ```

ghost use Rattle.std.specs.Prelude.{◌≡◌, ◌<◌, ◌≤◌, ◌++◌, false, [], OnOk, OnErr, IfOk, IfErr, IfSome, IfNone, vec_len, vec_capacity};
ghost use Rattle.std.specs.List.{AllByRecursion};
ghost use Rattle.ic_pool.specs.Refusals.{lacks_place, value_of};

use ic_container::trees;
use ic_link_ops::rbtree::LinkOps;
use ic_pool::{PlaceError, Pool};
use ic_rbtree::RBTree;
use ic_unsafe_ref::UnsafeRef;
use scheduler::timer_queue::{ByDeadline, HasDeadline, take_due};
use std::alloc::{AllocFailed, Allocator, Global};
use std::marker::Model;

/// A waiting value with its deadline, as it is stored at a place.
#[derive(Drop)]
pub struct Timer<V> {
    pub(crate) deadline: u64,
    pub(crate) value: V,
}

impl<V> HasDeadline for Timer<V> {
    ghost deadline = { λ timer. timer.deadline };

    #[inline]
    fn deadline(&self) -> &u64 {
        &self.deadline
    }
}

/// Values that wait for their deadlines.
///
/// A contract sees the waiting timers as a list, sorted by deadline, and among equal deadlines in the order in which they were added. Each timer has
/// the reference by which a caller can cancel it, its deadline and its value.
#[derive(Drop)]
pub struct Timers<V, A: Allocator = Global> {
    pool: Pool<Timer<V>, LinkOps<A>, A>,
    queue: RBTree<ByDeadline<Timer<V>>>,
}

impl<V, A: Allocator> Model for Timers<V, A> {
    ghost use Rattle.ic_rbtree.specs.Tree.{root_of};
    ghost use Rattle.ic_container.specs.Trees.{HasAll};
    ghost use Rattle.pool_uses.specs.Timers.{Timetable, timetable_code};
    ghost use Rattle.pool_uses.specs.KeptTimers.{deadline_of, timetable_of};

    ghost Value = { Timetable V };

    ghost coded = { timetable_code V.code };

    ghost view = { λ t. timetable_of t.pool.objects t.pool.links (root_of t.queue) };

    ghost invariant = { λ t. HasAll deadline_of t.pool.links (root_of t.queue) t.pool.objects };
}

impl<V, A: Allocator> Timers<V, A> {
    ghost use Rattle.pool_uses.specs.Timers.{Waiting, timer_of, Adds, Cancels, TakesFirst, TakesAll, NamesNone};
    ghost use Rattle.scheduler.specs.Timers.{handed_back};

    /// Makes a `Timers` in which no value waits. It takes no memory.
    pub fn new(alloc: A) -> Timers<V, A>
    where
        A: Copy,
        ensures waiting { result.waiting ≡ [] }
        ensures room { result.is_full ≡ false }
    {
        Timers {
            pool: Pool::new(alloc, LinkOps::new(alloc)),
            queue: RBTree::new(ByDeadline::new()),
        }
    }

    /// Adds a value, which then waits, even if its deadline has passed. O(log n).
    ///
    /// It returns the reference by which a caller can cancel the timer. If the value is refused, the caller gets the value back, and nothing has
    /// changed. The error is `NoPlaceLeft` exactly if all 4,294,967,296 places are in use, and otherwise `OutOfMemory`. It makes at most two requests
    /// for memory.
    pub fn add(&mut self, deadline: u64, value: V) -> Result<UnsafeRef<Timer<V>>, PlaceError<V>>
        ensures added { IfOk result (λ timer. Adds (timer_of timer deadline value) self.old.waiting self.new.waiting) }
        ensures refused { IfErr result (λ refused. (value_of refused ≡ value) × (self.new ≡ self.old)
            × (lacks_place refused ≡ self.old.is_full)) }
    {
        let timer = match self.pool.place(Timer { deadline, value }) {
            Ok(timer) => timer,
            Err(PlaceError::NoPlaceLeft(timer)) => return Err(PlaceError::NoPlaceLeft(timer.value)),
            Err(PlaceError::OutOfMemory(timer)) => return Err(PlaceError::OutOfMemory(timer.value)),
        };
        let (objects, links) = (&self.pool.objects, &mut self.pool.links);
        trees::insert(&mut self.queue, links, objects, timer.place());
        Ok(timer)
    }

    /// Cancels a timer, and returns its deadline and its value, or `None` if no waiting timer has this reference. O(log n), and it takes no memory.
    ///
    /// The place of the timer is used again, so that a reference that the caller keeps longer may later name another timer.
    pub fn cancel(&mut self, timer: &UnsafeRef<Timer<V>>) -> Option<(u64, V)>
        ensures cancelled { IfSome result (λ answer. Cancels (timer_of timer.now answer.0 answer.1) self.old.waiting self.new.waiting) }
        ensures none { IfNone result (NamesNone timer.now self.old.waiting × (self.new ≡ self.old)) }
    {
        if !self.pool.is_placed(timer) {
            return None;
        }
        let (objects, links) = (&self.pool.objects, &mut self.pool.links);
        trees::remove(&mut self.queue, links, objects, timer.place());
        let timer = self.pool.remove(UnsafeRef::new(timer.place()));
        Some((timer.deadline, timer.value))
    }

    /// Removes the first timer if its deadline is at most `now`, and returns its deadline and its value. Otherwise it returns `None`. O(log n), and
    /// it takes no memory.
    pub fn take_due(&mut self, now: u64) -> Option<(u64, V)>
        ensures taken { IfSome result (λ answer. TakesFirst now answer.0 answer.1 self.old.waiting self.new.waiting) }
        ensures none { IfNone result (AllByRecursion (λ (timer : Waiting V). now < timer.deadline) self.old.waiting × (self.new ≡ self.old)) }
    {
        let timer = take_due(
            &mut self.queue,
            &mut self.pool.links,
            &self.pool.objects,
            now,
        )?;
        let timer = self.pool.remove(timer);
        Some((timer.deadline, timer.value))
    }

    /// Removes all timers that are due at `now`, the earliest first, and appends each with its deadline to `due`. O(k log n) for k removed timers.
    ///
    /// It takes memory only for `due`, and none if `due` has room. If `due` cannot grow, the call returns the timer for which there was no room, and
    /// the other timers still wait.
    pub fn take_all_due<C: Allocator>(
        &mut self,
        now: u64,
        due: &mut Vec<(u64, V), C>,
    ) -> Result<(), AllocFailed<(u64, V)>>
        ensures taken { TakesAll now due.old.items (due.new.items ++ handed_back result) self.old.waiting self.new.waiting }
        ensures none_due { OnOk result (AllByRecursion (λ (timer : Waiting V). now < timer.deadline) self.new.waiting) }
        ensures full { OnErr result (vec_capacity due.old ≤ vec_len due.new) }
    {
        while let Some(timer) = self.take_due(now) {
            due.push(timer)?;
        }
        Ok(())
    }
}
