//! Tests of the containers over pools.

use crate::fixtures::check;
use ic_link_ops::{linked_list, singly_linked_list};
use ic_pool::{PlaceError, Pool};
use ic_test_support::rationed::Rationed;
use pool_uses::{Slots, Timers};

#[test]
fn an_object_has_room_in_both_tables(rt: HostRuntime) {
    let links = (
        linked_list::LinkOps::new(rt.alloc()),
        singly_linked_list::LinkOps::new(rt.alloc()),
    );
    let mut pool = Pool::new(rt.alloc(), links);
    let is_so = match pool.place(10) {
        Ok(object) => {
            if let Some(value) = pool.get_mut(&object) {
                *value = 20;
            }
            let is_twenty = matches!(pool.get(&object), Some(20));
            let place = object.place();
            if pool.links.0.is_linked(place) || pool.links.1.is_linked(place) {
                false
            } else {
                is_twenty && pool.is_placed(&object) && pool.remove(object) == 20 && pool.len() == 0
            }
        }
        Err(_) => false,
    };
    check(&rt, is_so);
}

#[test]
fn an_old_handle_names_nothing(rt: HostRuntime) {
    // The table and the objects each make one request for memory. A slot that is vacant again needs no request.
    for request in 0..3 {
        let short = Rationed::new(rt.alloc(), request);
        let mut slots = Slots::new(&short);
        let is_so = match slots.insert(10) {
            Ok(first) => {
                let taken = slots.remove(first);
                let second = slots.insert(20);
                request == 2
                    && taken == Some(10)
                    && slots.get(first).is_none()
                    && slots.remove(first).is_none()
                    && matches!(second, Ok(second) if matches!(slots.get(second), Some(20)))
                    && slots.len() == 1
                    && !slots.is_empty()
            }
            Err(PlaceError::OutOfMemory(10)) => request < 2 && slots.is_empty(),
            Err(_) => false,
        };
        check(&rt, is_so);
    }
}

#[test]
fn timers_are_taken_by_deadline_and_called_off(rt: HostRuntime) {
    // The table and the objects each make one request for memory.
    for request in 0..3 {
        let short = Rationed::new(rt.alloc(), request);
        let mut timers = Timers::new(&short);
        let is_so = match timers.add(5, 10) {
            Ok(first) => {
                let second = timers.add(3, 20);
                request == 2
                    && second.is_ok()
                    && timers.take_due(2).is_none()
                    && matches!(timers.take_due(5), Some((3, 20)))
                    && matches!(timers.cancel(&first), Some((5, 10)))
                    && timers.cancel(&first).is_none()
                    && timers.take_due(9).is_none()
            }
            Err(PlaceError::OutOfMemory(10)) => request < 2,
            Err(_) => false,
        };
        check(&rt, is_so);
    }
}

#[test]
fn all_timers_that_are_due_are_taken_in_order(rt: HostRuntime) {
    // The first request for memory for the vector is refused, so the caller gets the earliest timer back.
    let short = Rationed::new(rt.alloc(), 0);
    let mut due = Vec::new(&short);
    let mut timers = Timers::new(rt.alloc());
    let mut is_so = true;
    for (deadline, value) in [(5, 10), (9, 20), (3, 30), (5, 40)] {
        is_so &= timers.add(deadline, value).is_ok();
    }
    let refused = timers.take_all_due(6, &mut due);
    let taken = timers.take_all_due(6, &mut due);
    is_so = is_so
        && matches!(refused, Err(refused) if refused.value == (3, 30))
        && taken.is_ok()
        && matches!(due.pop(), Some((5, 40)))
        && matches!(due.pop(), Some((5, 10)))
        && due.is_empty()
        && timers.take_due(8).is_none()
        && matches!(timers.take_due(9), Some((9, 20)));
    check(&rt, is_so);
}
