//! Tests of timers that are scheduled in a mixed order, and of a ring of nodes that are in the order of their points.

use crate::fixtures::{UNLINKED, check, covering, index, index_of_object, object, placed};
use ic_link_ops::rbtree::LinkOps;
use ic_rbtree::RBTree;
use ic_test_support::rationed::Rationed;
use scheduler::timer_queue::{ByDeadline, HasDeadline, cancel, schedule, take_all_due, take_due};
use uses::ring::{ByPoint, Node, leave, node_before, owner_of};

// A value that waits for its deadline.
#[derive(Copy, Clone, Debug)]
struct Timer {
    deadline: u64,
}

impl HasDeadline for Timer {
    ghost deadline = { λ timer. timer.deadline };

    fn deadline(&self) -> &u64 {
        &self.deadline
    }
}

const TIMERS: [Timer; 5] = [
    Timer { deadline: 30 },
    Timer { deadline: 10 },
    Timer { deadline: 20 },
    Timer { deadline: 10 },
    Timer { deadline: 20 },
];

#[test]
fn the_earliest_timer_is_taken_first(rt: HostRuntime) {
    let objects = placed(&rt, rt.alloc(), &TIMERS);
    let mut links: LinkOps = covering(&rt, rt.alloc());
    let mut timers = RBTree::new(ByDeadline::new());
    // The order of the timers is 1, 3, 4, 2, 0. The timers at the places 4 and 2 have the same deadline, and the timer at 4 is scheduled first.
    for index in [4, 1, 0, 3, 2] {
        let timer = object(&rt, &links, &objects, index);
        schedule(&mut timers, &mut links, &objects, timer).expect(&rt, UNLINKED);
    }
    let other = object(&rt, &links, &objects, 4);
    assert!(rt; timers.contains(&links, other.place()));
    cancel(&mut timers, &mut links, other);
    let short = Rationed::new(rt.alloc(), 0);
    let mut due = Vec::new(&short);
    let refused = take_all_due(&mut timers, &mut links, &objects, 29, &mut due);
    let first = refused.expect_err(&rt, "a refused growth").value;
    let _ = take_all_due(&mut timers, &mut links, &objects, 29, &mut due);
    let last = take_due(&mut timers, &mut links, &objects, 30);
    check(
        &rt,
        first.place().index() == 1 && index_of_object(last) == 0,
    );
    check(
        &rt,
        index_of_object(due.pop()) == 2 && index_of_object(due.pop()) == 3,
    );
}

// Three nodes, at the points 70, 10 and 40.
const NODES: [Node; 3] = [
    Node {
        point: 70,
        server: 0,
    },
    Node {
        point: 10,
        server: 1,
    },
    Node {
        point: 40,
        server: 0,
    },
];

// A row has a hash, the place of the node to which a key with this hash belongs, and the place of the node before that node.
const OWNERS: [(u64, usize, usize); 8] = [
    (0, 1, 0),
    (10, 1, 0),
    (11, 2, 1),
    (40, 2, 1),
    (41, 0, 2),
    (70, 0, 2),
    (71, 1, 0),
    (u64::MAX, 1, 0),
];

#[test]
fn a_key_belongs_to_the_next_node(rt: HostRuntime) {
    let objects = placed(&rt, rt.alloc(), &NODES);
    let mut links: LinkOps = covering(&rt, rt.alloc());
    let mut ring = RBTree::new(ByPoint);
    for index in 0..3 {
        let node = object(&rt, &links, &objects, index);
        ring.insert(&mut links, &objects, node)
            .expect(&rt, UNLINKED);
    }
    for (hash, owner, before) in OWNERS {
        let hand = owner_of(ring, &links, &objects, hash);
        let found = index(hand.get_ptr());
        let hand = node_before(hand.into_inner(), &links, &objects, hash);
        check(&rt, found == owner && index(hand.get_ptr()) == before);
        ring = hand.into_inner();
    }
    let (left, hand) = leave(ring, &mut links, &objects, 40);
    check(
        &rt,
        index_of_object(left) == 2 && index(hand.get_ptr()) == 0,
    );
    let (left, hand) = leave(hand.into_inner(), &mut links, &objects, 40);
    check(&rt, left.is_none() && hand.get_ptr().is_none());
}
