//! The calls of a scheduler of numbers, and their results, as values of two enums.

ghost use Rattle.std.specs.Prelude.{◌≡◌, ◌≢◌, ◌∷◌, ℕ, List};
ghost use Rattle.ic_link_ops.specs.Prelude.{Place, IsAbsent};
ghost use Rattle.scheduler.specs.Schedule.{places_at};

use scheduler::{AddError, Queue, Scheduler};
use std::alloc::Allocator;

/// A call of a scheduler. The call names a queue by its number.
#[derive(Clone, Copy)]
pub(crate) enum Call {
    Add(u64, usize, u64),
    Tick(u64),
    Next(usize),
}

/// The result of a call of the scheduler.
#[derive(Clone, Copy, PartialEq)]
pub(crate) enum Answer {
    Done,
    Moved(usize),
    Task(u64, u64),
    Nothing,
    Refused(u8, u64),
    NoQueue,
}

/// Makes the call on the scheduler, and returns its result.
pub(crate) fn make<A: Allocator>(tasks: &mut Scheduler<u64, A>, call: Call) -> Answer {
    let number = match call {
        Call::Tick(now) => {
            let (moved, again) = tick_twice(tasks, now);
            return Answer::Moved(moved + again);
        }
        Call::Add(_, number, _) | Call::Next(number) => number,
    };
    let Some(queue) = Queue::new(number) else {
        return Answer::NoQueue;
    };
    match call {
        Call::Add(deadline, _, value) => added(tasks.add(deadline, queue, value)),
        _ => taken(take_next(tasks, queue)),
    }
}

// Calls `tick` twice with the same time `now`, and returns how many tasks each call moved. A law of the scheduler says that its waiting tasks are sorted by
// deadline. With this law, the contract of `tick` implies that the second tick moves no task.
fn tick_twice<V, A: Allocator>(tasks: &mut Scheduler<V, A>, now: u64) -> (usize, usize)
    ensures { result.1 ≡ 0 }
{
    tasks.stands_for_what_waits();
    let moved = tasks.tick(now);
    let again = tasks.tick(now);
    (moved, again)
}

// Removes the next task of a queue. By a law of the scheduler the task was only in this queue: it did not wait, and was in no other queue.
fn take_next<V, A: Allocator>(tasks: &mut Scheduler<V, A>, queue: Queue) -> Option<(u64, V)>
    ensures { (p : Place) (s : List Place) → places_at tasks.old queue ≡ p ∷ s
        → IsAbsent p tasks.old.waiting_at × ((other : ℕ) → queue ≢ other → IsAbsent p (places_at tasks.old other)) }
{
    tasks.each_task_is_once();
    tasks.next_task(queue)
}

fn added(given: Result<(), AddError<u64>>) -> Answer {
    let Err(refused) = given else {
        return Answer::Done;
    };
    let number = refused.number();
    match refused {
        AddError::TooManyTasks(value) | AddError::OutOfMemory(value) => {
            Answer::Refused(number, value)
        }
    }
}

fn taken(task: Option<(u64, u64)>) -> Answer {
    match task {
        Some((deadline, value)) => Answer::Task(deadline, value),
        None => Answer::Nothing,
    }
}
