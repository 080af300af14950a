//! Tests of the tree by plain calls. The tests make each plain call at least once.

ghost use Rattle.std.specs.Ordering.{nat_cmp};
ghost use Rattle.ic_link_ops.specs.Prelude.{table, IsCovered, node_of};
ghost use Rattle.ic_link_ops.specs.RedBlackTree.{RepresentsSome};
ghost use Rattle.ic_rbtree.specs.Prelude.{node_by, plain_table, PlainRepresentsSome, root_of};
ghost use Rattle.ic_plain.specs.SortedTrees.{IsInOrder};

use crate::fixtures::{check, covering, index, index_of, unlinked};
use ic_link_ops::rbtree::NarrowLinkOps;
use ic_link_ops::{NodeWords, PlainTable};
use ic_plain::example::{ByDeadline, Timer, first_from, reschedule, schedule};
use ic_plain::rbtree;
use ic_rbtree::{KeyAdapter, LinkOps, RBTree};
use ic_unsafe_ref::{Objects, Place, UnsafeRef};
use std::alloc::Global;
use std::process::Abort;

// Returns timers with these deadlines, at the places from 0 on.
fn timers_at(rt: &impl Abort, alloc: Global, deadlines: &[u64]) -> Objects<Timer> {
    let mut objects = Objects::new(alloc);
    for deadline in deadlines {
        let timer = Timer {
            number: 7,
            deadline: *deadline,
        };
        let _next = objects.next_place().expect(rt, "a vacant place");
        let placed = UnsafeRef::from_box(&mut objects, timer);
        assert!(rt; placed.is_ok());
    }
    objects
}

// Inserts the timer at the place with this index into the tree, by the plain call.
fn add<W: NodeWords>(
    rt: &impl Abort,
    tree: &mut RBTree<ByDeadline>,
    links: &mut PlainTable<W>,
    objects: &Objects<Timer>,
    index: usize,
)
    requires sorted { IsInOrder nat_cmp ⟦<ByDeadline as KeyAdapter>⟧.key_of (node_by W.node) (table W.width W.unlinked links.old) tree.old objects.now }
    requires shown { RepresentsSome (node_by W.node) (table W.width W.unlinked links.old) (root_of tree.old) }
    ensures sorted { IsInOrder nat_cmp ⟦<ByDeadline as KeyAdapter>⟧.key_of (node_by W.node) (table W.width W.unlinked links.new) tree.new objects.now }
    ensures shown { RepresentsSome (node_by W.node) (table W.width W.unlinked links.new) (root_of tree.new) }
{
    let timer = unlinked(rt, &*links, index);
    assert!(rt; objects.is_placed(timer.place()));
    rbtree::insert(tree, links, objects, timer);
}

// Inserts the timer at the place with this index into the tree, by the example function `schedule`.
fn schedule_at(
    rt: &impl Abort,
    tree: &mut RBTree<ByDeadline>,
    links: &mut LinkOps,
    objects: &Objects<Timer>,
    index: usize,
)
    requires sorted { IsInOrder nat_cmp ⟦<ByDeadline as KeyAdapter>⟧.key_of node_of (plain_table links.old) tree.old objects.now }
    ensures sorted { IsInOrder nat_cmp ⟦<ByDeadline as KeyAdapter>⟧.key_of node_of (plain_table links.new) tree.new objects.now }
    ensures shown { PlainRepresentsSome links.new (root_of tree.new) }
{
    let timer = unlinked(rt, &*links, index);
    assert!(rt; objects.is_placed(timer.place()));
    schedule(tree, links, objects, timer);
}

// Moves the member at this place after the other members with the same deadline, by the example function `reschedule`.
fn reschedule_at(
    rt: &impl Abort,
    tree: &mut RBTree<ByDeadline>,
    links: &mut LinkOps,
    objects: &Objects<Timer>,
    place: Place,
)
    requires shown { PlainRepresentsSome links.old (root_of tree.old) }
    requires sorted { IsInOrder nat_cmp ⟦<ByDeadline as KeyAdapter>⟧.key_of node_of (plain_table links.old) tree.old objects.now }
    ensures sorted { IsInOrder nat_cmp ⟦<ByDeadline as KeyAdapter>⟧.key_of node_of (plain_table links.new) tree.new objects.now }
    ensures shown { PlainRepresentsSome links.new (root_of tree.new) }
{
    assert!(rt; place.index() < links.covers());
    assert!(rt; tree.contains(&*links, place));
    assert!(rt; objects.is_placed(place));
    reschedule(tree, links, objects, &UnsafeRef::new(place));
}

// Returns the indices of the places before and after a member.
fn beside(rt: &impl Abort, tree: &RBTree<ByDeadline>, links: &LinkOps, place: Place) -> [usize; 2]
    requires covered { IsCovered (plain_table links.now) place }
    requires shown { PlainRepresentsSome links.now (root_of tree.now) }
{
    assert!(rt; tree.contains(links, place));
    [
        index(rbtree::prev(tree, links, place)),
        index(rbtree::next(tree, links, place)),
    ]
}

#[test]
fn tree_in_order(rt: HostRuntime) {
    let objects = timers_at(&rt, rt.alloc(), &[30, 10, 20, 10]);
    let mut links: LinkOps = covering(&rt, rt.alloc());
    let mut tree = rbtree::new(ByDeadline);
    check(&rt, rbtree::is_empty(&tree, &links));
    add(&rt, &mut tree, &mut links, &objects, 0);
    add(&rt, &mut tree, &mut links, &objects, 3);
    add(&rt, &mut tree, &mut links, &objects, 2);
    schedule_at(&rt, &mut tree, &mut links, &objects, 1);
    let third = Place::new(3).expect(&rt, "the index of a place");
    // the order of the members is 3, 1, 2, 0 before this call, and 1, 3, 2, 0 after it
    reschedule_at(&rt, &mut tree, &mut links, &objects, third);
    let ends = [
        index(rbtree::first(&tree, &links)),
        index(rbtree::last(&tree, &links)),
    ];
    let found = [
        index(rbtree::find(&tree, &links, &objects, &10)),
        index(rbtree::find(&tree, &links, &objects, &15)),
        index(rbtree::lower_bound(&tree, &links, &objects, &15)),
        index(rbtree::lower_bound(&tree, &links, &objects, &31)),
    ];
    assert!(rt; third.index() < links.covers());
    let sides = beside(&rt, &tree, &links, third);
    let left = [
        index_of(rbtree::remove_key(&mut tree, &mut links, &objects, &10)),
        index_of(rbtree::pop_back(&mut tree, &mut links)),
        index_of(rbtree::pop_front(&mut tree, &mut links)),
    ];
    check(&rt, ends == [1, 0] && found == [1, 9, 2, 9]);
    check(&rt, sides == [1, 2] && left == [1, 0, 3]);
    check(&rt, first_from(&tree, &links, &objects, 20) == Some(7));
}

#[test]
fn tree_in_order_over_narrow_links(rt: HostRuntime) {
    let objects = timers_at(&rt, rt.alloc(), &[30, 10, 20, 10]);
    let mut links: NarrowLinkOps = covering(&rt, rt.alloc());
    let mut tree = rbtree::new(ByDeadline);
    // the order of the members will be 1, 3, 2, 0
    add(&rt, &mut tree, &mut links, &objects, 0);
    add(&rt, &mut tree, &mut links, &objects, 1);
    add(&rt, &mut tree, &mut links, &objects, 2);
    add(&rt, &mut tree, &mut links, &objects, 3);
    let found = [
        index(rbtree::find(&tree, &links, &objects, &10)),
        index(rbtree::lower_bound(&tree, &links, &objects, &15)),
    ];
    let left = [
        index_of(rbtree::remove_key(&mut tree, &mut links, &objects, &10)),
        index_of(rbtree::pop_back(&mut tree, &mut links)),
        index_of(rbtree::pop_front(&mut tree, &mut links)),
    ];
    check(&rt, found == [1, 2] && left == [1, 0, 3]);
}
