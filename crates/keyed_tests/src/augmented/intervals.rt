//! The test that Linux has of its interval trees (`lib/interval_tree_test.c`). The test makes a hundred random intervals. At each of a hundred points,
//! a tree and a plain loop must count equally many intervals that contain the point.

ghost use Rattle.std.specs.Prelude.{◌≡◌, ◌<◌, List, filter, length};
ghost use Rattle.ic_link_ops.specs.Prelude.{Place, IsCovered};
ghost use Rattle.ic_rbtree.specs.Tree.{root_of};
ghost use Rattle.ic_augmented.specs.Prelude.{RepresentsAugmented, greatest, number_at, start_in, overlaps, links_of, summaries_of};
ghost use Rattle.keyed_tests.specs.Ready.{AreIntervals};

use super::empty_tree;
use crate::asserts::assert_same;
use crate::keyed::OwnKey;
use ic_augmented::{
    Augmented, Greatest, first_overlap, insert_fresh, next_overlap, refresh, set_value,
};
use ic_link_ops::LinkValues;
use ic_link_ops::rbtree::RBTreeOps;
use ic_rbtree::RBTree;
use ic_test_support::objects::reference;
use ic_unsafe_ref::{Place, UnsafeRef};
use std::process::Abort;

// The generator of random numbers that the Linux kernel has. The generator keeps four words, and computes each new word from the old one by shifts and
// exclusive or.
#[derive(Drop)]
struct Random {
    words: [u32; 4],
}

impl Random {
    // Returns a generator with the seed that the kernel's test uses.
    fn new() -> Random {
        Random {
            words: [0x408c_3c09; 4],
        }
    }

    // Returns the next random number, which is below 2^32.
    fn next(&mut self) -> u64
        ensures { result < 4294967296 }
    {
        let [a, b, c, d] = self.words;
        let a = ((a & 0xffff_fffe) << 18) ^ (((a << 6) ^ a) >> 13);
        let b = ((b & 0xffff_fff8) << 2) ^ (((b << 2) ^ b) >> 27);
        let c = ((c & 0xffff_fff0) << 7) ^ (((c << 13) ^ c) >> 21);
        let d = ((d & 0xffff_ff80) << 13) ^ (((d << 3) ^ d) >> 12);
        self.words = [a, b, c, d];
        u64::from((a ^ b ^ c ^ d) >> 4)
    }
}

// Returns a hundred random intervals, as the array of their starts and the array of their ends. In the kernel an interval contains its end. Here an
// interval contains only the numbers before its end.
fn random_intervals(random: &mut Random) -> ([u64; 100], [u64; 100]) {
    let mut starts = [0; 100];
    let mut ends = [0; 100];
    for index in 0..100 {
        let last = random.next();
        starts[index] = random.next() % last.max(1);
        ends[index] = last + 1;
    }
    (starts, ends)
}

// Returns how many of these intervals contain the point, by a loop that tests each interval.
fn plain_count(starts: &[u64; 100], ends: &[u64; 100], point: u64) -> u64 {
    let mut count = 0;
    for index in 0..100 {
        if starts[index] <= point && point < ends[index] {
            count += 1;
        }
    }
    count
}

// Stores the end of the interval as the number of its place, and inserts the interval into the tree.
fn put<L: RBTreeOps + LinkValues<u64>>(
    rt: &impl Abort,
    tree: &mut RBTree<OwnKey>,
    summed: &mut Augmented<L, Greatest>,
    interval: UnsafeRef<u64>,
    end: u64,
)
    requires covered { IsCovered (L.table (links_of summed.old)) interval }
    requires intervals { AreIntervals L.node L.table L.values tree.old summed.old }
    ensures intervals { AreIntervals L.node L.table L.values tree.new summed.new }
    ensures extent { (L.table (links_of summed.new)).extent ≡ (L.table (links_of summed.old)).extent }
{
    set_value(summed, interval.place(), end);
    let inserted = insert_fresh(tree, summed, interval);
    assert!(rt; inserted.is_ok());
}

// Returns how many intervals of the tree overlap `[from, to)`.
fn count_overlaps<L: RBTreeOps + LinkValues<u64>>(
    tree: &RBTree<OwnKey>,
    summed: &Augmented<L, Greatest>,
    from: u64,
    to: u64,
) -> u64
    requires intervals { AreIntervals L.node L.table L.values tree.now summed.now }
    ensures counted { (s : List Place) → RepresentsAugmented L.node (greatest (summaries_of summed.now)) (L.table (links_of summed.now)) (root_of tree.now) s
        → result ≡ length (filter (overlaps (start_in (L.values (links_of summed.now))) (number_at (summaries_of summed.now)) from to) s) }
{
    let mut count = 0;
    let mut at = first_overlap(tree, summed, &summed.links, from, to);
    while let Some(place) = at {
        count += 1;
        at = next_overlap(summed, &summed.links, place, from, to);
    }
    count
}

// Removes the first interval that overlaps `[from, to)`, if there is one, and returns its place.
fn take_first<L: RBTreeOps + LinkValues<u64>>(
    tree: &mut RBTree<OwnKey>,
    summed: &mut Augmented<L, Greatest>,
    from: u64,
    to: u64,
) -> Option<Place>
    requires intervals { AreIntervals L.node L.table L.values tree.old summed.old }
    ensures intervals { AreIntervals L.node L.table L.values tree.new summed.new }
    ensures extent { (L.table (links_of summed.new)).extent ≡ (L.table (links_of summed.old)).extent }
{
    let place = first_overlap(tree, summed, &summed.links, from, to)?;
    tree.remove(summed, &UnsafeRef::new(place));
    refresh(tree, summed);
    Some(place)
}

// Inserts a hundred intervals, and compares the counts of the tree and of the loop at a hundred points. Then it removes all intervals, and the tree
// must count none.
fn play<L: RBTreeOps + LinkValues<u64>>(
    rt: &impl Abort,
    random: &mut Random,
    starts: &[u64; 100],
    ends: &[u64; 100],
    tree: &mut RBTree<OwnKey>,
    summed: &mut Augmented<L, Greatest>,
)
    requires covers { (L.table (links_of summed.old)).extent.places ≡ 100 }
    requires intervals { AreIntervals L.node L.table L.values tree.old summed.old }
{
    for _ in 0..2 {
        for index in 0..100 {
            put(rt, tree, summed, reference(index), ends[index]);
        }
        for _ in 0..100 {
            let point = random.next();
            let count = count_overlaps(&*tree, &*summed, point, point + 1);
            assert_same(rt, count, plain_count(starts, ends, point));
        }
        for _ in 0..100 {
            assert!(rt; take_first(tree, summed, 0, u64::MAX).is_some());
        }
        assert_same(rt, count_overlaps(&*tree, &*summed, 0, u64::MAX), 0);
    }
}

#[test]
fn intervals_at_random(rt: HostRuntime) {
    let mut random = Random::new();
    let (starts, ends) = random_intervals(&mut random);
    let (mut tree, mut summed) = empty_tree::<u64>(&rt, rt.alloc(), &starts);
    play(&rt, &mut random, &starts, &ends, &mut tree, &mut summed);
}
