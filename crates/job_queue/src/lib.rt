//! A queue of jobs, which is a first example: a list of values of a struct of your own, with its proof.
#![tactic(auto)]

mod queue;

pub use queue::{Job, JobQueue};

#[cfg(test)]
mod tests {
    use super::*;

    const FIRST: Job = Job {
        number: 1,
        seconds: 30,
    };

    const SECOND: Job = Job {
        number: 2,
        seconds: 5,
    };

    #[test]
    fn jobs_leave_in_their_order(rt: HostRuntime) {
        let mut queue = JobQueue::new(rt.alloc());
        assert!(rt; queue.add(FIRST).is_ok() && queue.add(SECOND).is_ok());
        let left = [queue.take_next(), queue.take_next(), queue.take_next()];
        assert!(rt; left == [Some(FIRST), Some(SECOND), None]);
    }
}
