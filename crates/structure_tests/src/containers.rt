//! A container that has several lists over one table of links: a job queue with four priorities. A job can be canceled by its reference.
//!
//! ```text
//! let mut queue = JobQueue::new(rt.alloc());
//! let job = queue.push(Priority::Normal, 10)?;
//! queue.cancel(&job) // the job, wherever it stood
//! queue.pop() // the first of the most urgent ones
//! ```

mod job;
#[cfg(test)]
mod job_queue;

pub use job::{Job, Priority};
#[cfg(test)]
pub use job_queue::JobQueue;

#[cfg(test)]
mod tests;
