//! A scheduler: tasks wait for their deadlines, and then move to the queues for which they were added.
//!
//! ```text
//! let mut scheduler = Scheduler::new(rt.alloc());
//! scheduler.add(5, queue, task)?;
//! let moved = scheduler.tick(now); // those that are due go to their queues
//! let next = scheduler.next_task(queue); // a deadline and its task
//! ```
//!
//! Each task is one object with two links. While the task waits, it is linked in the tree of deadlines. Once it was due, it is linked in the list of
//! its queue. Therefore a task moves from the tree to the list without taking memory. The module [`timer_queue`] has this tree for objects of your
//! own.
#![tactic(auto)]

mod add_error;
mod due;
mod queue;
mod queues;
mod scheduler;
mod task;
pub mod timer_queue;

pub use add_error::AddError;
pub use queue::Queue;
pub use scheduler::Scheduler;
