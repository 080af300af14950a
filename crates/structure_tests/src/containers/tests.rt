//! A test makes each call of the job queue at least once.

use crate::asserts::{assert_same, assert_true};
use crate::containers::{Job, JobQueue, Priority};
use ic_unsafe_ref::UnsafeRef;
use std::process::Abort;

// Adds a job to the queue, and fails the test if there is no memory for the job.
fn added(
    rt: &impl Abort,
    queue: &mut JobQueue<u64>,
    priority: Priority,
    value: u64,
) -> UnsafeRef<Job<u64>> {
    match queue.push(priority, value) {
        Ok(job) => job,
        Err(_) => panic!(rt; "no room"),
    }
}

// Returns the value of a job that was removed from the queue, if there is one.
fn value(job: Option<Job<u64>>) -> Option<u64> {
    Some(job?.value)
}

#[test]
fn urgent_first_and_cancelled(rt: HostRuntime) {
    let mut queue = JobQueue::new(rt.alloc());
    let _first = added(&rt, &mut queue, Priority::Normal, 10);
    let second = added(&rt, &mut queue, Priority::Normal, 20);
    let third = added(&rt, &mut queue, Priority::Low, 30);
    let _urgent = added(&rt, &mut queue, Priority::Urgent, 1);
    assert_true(&rt, queue.reprioritize(&third, Priority::Normal));
    assert_same(&rt, value(queue.cancel(&second)), Some(20));
    assert_same(&rt, queue.reprioritize(&second, Priority::Urgent), false);
    assert_same(&rt, value(queue.pop()), Some(1));
    assert_same(&rt, value(queue.pop()), Some(10));
    assert_same(&rt, value(queue.pop()), Some(30));
    assert_same(&rt, value(queue.pop()), None);
}
