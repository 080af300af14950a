use crate::frees::come_back;
use crate::mail::deliver;
use crate::places::{Order, empty_out, put, put_pair, take};
use crate::threads::share;
use ic_lock_free_stack::Stacks;
use ic_unsafe_ref::Place;
use std::test::Fail;

// One holder pushes places and another one takes them. The place that was pushed last must come first, or last if the chain is reversed.
// Promise: the last pushed comes first.
#[test]
fn last_pushed_first(rt: HostRuntime) -> Result<(), Fail> {
    let Ok((stacks, mut holders)) = Stacks::new(rt.alloc(), 5, 2, 2) else {
        panic!(rt; "no memory")
    };
    let mut got = Vec::new(rt.alloc());
    let mut receiver = holders.pop().expect(&rt, "a holder");
    let mut sender = holders.pop().expect(&rt, "a holder");
    assert!(rt; put(&stacks, &mut sender, 1, 3));
    assert!(rt; put(&stacks, &mut sender, 1, 0));
    assert!(rt; put(&stacks, &mut sender, 1, 4));
    assert!(rt; !put(&stacks, &mut receiver, 0, 3));
    take(&stacks, &mut receiver, 0, Order::LastFirst, &mut got)?;
    assert!(rt; got.len() == 0);
    take(&stacks, &mut receiver, 1, Order::LastFirst, &mut got)?;
    assert!(rt; got.as_slice() == [4, 0, 3].as_slice());
    assert!(rt; put(&stacks, &mut receiver, 0, 3));
    assert!(rt; put(&stacks, &mut sender, 0, 1));
    got.clear();
    take(&stacks, &mut sender, 0, Order::FirstFirst, &mut got)?;
    assert!(rt; got.as_slice() == [3, 1].as_slice());
    assert!(rt; stacks.is_empty(&mut sender, 0));
    Ok(())
}

// A holder pushes two places at once, and takes all members. The pushed places must come in their order, and before the place that was pushed earlier.
// Promise: a chain is pushed at once.
#[test]
fn a_chain_is_pushed_at_once(rt: HostRuntime) -> Result<(), Fail> {
    let Ok((stacks, mut holders)) = Stacks::new(rt.alloc(), 5, 1, 1) else {
        panic!(rt; "no memory")
    };
    let mut got = Vec::new(rt.alloc());
    let mut holder = holders.pop().expect(&rt, "a holder");
    let front = Place::new(2).expect(&rt, "a place");
    let back = Place::new(4).expect(&rt, "a place");
    assert!(rt; put(&stacks, &mut holder, 0, 1));
    assert!(rt; put_pair(&stacks, &mut holder, 0, front, back));
    assert!(rt; !put_pair(&stacks, &mut holder, 0, front, back));
    take(&stacks, &mut holder, 0, Order::LastFirst, &mut got)?;
    assert!(rt; got.as_slice() == [2, 4, 1].as_slice());
    assert!(rt; put(&stacks, &mut holder, 0, 3));
    holders.push(holder)?;
    empty_out(&stacks, &mut holders, 0)?;
    Ok(())
}

// Threads push places while other threads take them. Each pushed place must be taken, except the places that are in the stack at the end.
// Promise: threads push and take.
#[test]
fn threads_push_and_take(rt: HostRuntime) {
    let alloc = rt.alloc();
    assert!(rt; share(&rt, alloc, 8, 3, 1));
    assert!(rt; share(&rt, alloc, 1, 2, 2));
    assert!(rt; share(&rt, alloc, 1000, 4, 4));
}

// Threads send places to a mailbox, and all places must be received. The places of each sender must come in the order in which they were sent.
// Promise: a mailbox of several senders.
#[test]
fn mail_comes_in_order(rt: HostRuntime) {
    let alloc = rt.alloc();
    assert!(rt; deliver(&rt, alloc, 1));
    assert!(rt; deliver(&rt, alloc, 3));
}

// An owner lends places to threads, which free them. At the end each place must be in a stack or with its owner.
// Promise: places freed by other threads.
#[test]
fn places_come_back(rt: HostRuntime) {
    let alloc = rt.alloc();
    assert!(rt; come_back(&rt, alloc, 1, 1));
    assert!(rt; come_back(&rt, alloc, 100, 3));
}
