//! A plain scheduler, which is slow because it scans all tasks, and a test that compares it with the real scheduler by calls that look random.

use crate::schedule::calls::{Answer, Call, make};
use crate::schedule::random::Random;
use scheduler::Scheduler;

// A task with the arguments of the call that added it.
#[derive(Clone, Copy)]
struct Task {
    deadline: u64,
    queue: usize,
    value: u64,
}

// The waiting tasks, in the order in which they were added, and the due tasks, in the order in which they were moved.
#[derive(Drop)]
struct Plain {
    waiting: Vec<Task>,
    moved: Vec<Task>,
}

// Returns the position of the task with the least deadline, if the task is due at the time `now`. Of several tasks with the least deadline it is the
// first one.
fn earliest(tasks: &[Task], now: u64) -> Option<usize> {
    let mut found = None;
    let mut least = now;
    for index in 0..tasks.len() {
        let deadline = tasks[index].deadline;
        if deadline < least || (deadline == least && found.is_none()) {
            found = Some(index);
            least = deadline;
        }
    }
    found
}

// Returns the position of the first task of a queue, if the queue has a task.
fn first_in(tasks: &[Task], queue: usize) -> Option<usize> {
    for index in 0..tasks.len() {
        if tasks[index].queue == queue {
            return Some(index);
        }
    }
    None
}

// Removes the task at this position and returns it, if there is one.
fn take(tasks: &mut Vec<Task>, number: Option<usize>) -> Option<Task> {
    let index = number?;
    if index < tasks.len() {
        Some(tasks.remove(index))
    } else {
        None
    }
}

impl Plain {
    fn call(&mut self, call: Call) -> Answer {
        match call {
            Call::Add(deadline, queue, value) => {
                let _ = self.waiting.push(Task {
                    deadline,
                    queue,
                    value,
                });
                Answer::Done
            }
            Call::Tick(now) => Answer::Moved(self.tick(now)),
            Call::Next(queue) => {
                let number = first_in(&self.moved, queue);
                let task = take(&mut self.moved, number);
                match task {
                    Some(task) => Answer::Task(task.deadline, task.value),
                    None => Answer::Nothing,
                }
            }
        }
    }

    fn tick(&mut self, now: u64) -> usize {
        let mut moved = 0;
        for before in 0..self.waiting.len() {
            let number = earliest(&self.waiting, now);
            if let Some(task) = take(&mut self.waiting, number) {
                let _ = self.moved.push(task);
                moved = before + 1;
            }
        }
        moved
    }
}

// Returns a call that looks random. The call adds a task with one of twenty deadlines to one of eight queues, makes a tick, or removes the next task of
// a queue.
fn any_call(random: &mut Random, value: u64) -> Call {
    let deadline = random.below(20) as u64;
    let queue = random.below(8);
    match random.below(5) {
        0 | 1 => Call::Add(deadline, queue, value),
        2 => Call::Tick(deadline),
        _ => Call::Next(queue),
    }
}

// Returns whether the scheduler and the plain scheduler give the same results for a thousand calls.
fn are_alike(tasks: &mut Scheduler<u64>, plain: &mut Plain) -> bool {
    let mut random = Random::new(1);
    let mut as_wanted = true;
    for value in 0..1000 {
        let next = any_call(&mut random, value);
        as_wanted &= make(tasks, next) == plain.call(next);
    }
    as_wanted
}

#[test]
fn a_thousand_calls_answer_as_a_plain_scheduler_does(rt: HostRuntime) {
    let alloc = rt.alloc();
    let mut plain = Plain {
        waiting: Vec::new(alloc),
        moved: Vec::new(alloc),
    };
    let mut tasks = Scheduler::new(alloc);
    assert!(rt; are_alike(&mut tasks, &mut plain));
}
