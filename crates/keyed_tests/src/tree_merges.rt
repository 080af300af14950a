//! Tests of merges, unions, intersections and differences of two trees. The first tree has 10, 20, 30 and 40, and the second tree has 20, 30, 50 and
//! 60.

ghost use Rattle.std.specs.Prelude.{◌≡◌, ◌<◌, true};
ghost use Rattle.ic_link_ops.specs.Prelude.{Place, index_of, is_placed, RepresentsPlaced};
ghost use Rattle.ic_link_ops.specs.RedBlackTree.{Represents};
ghost use Rattle.ic_rbtree.specs.Tree.{root_of};
ghost use Rattle.ic_tree_merges.specs.TwoTrees.{TwoRepresented};

use crate::asserts::assert_true;
use crate::keyed::OwnKey;
use ic_link_ops::LinkOps as _;
use ic_link_ops::rbtree::{LinkOps, RBTreeOps};
use ic_rbtree::RBTree;
use ic_test_support::notes::{Answer, Text};
use ic_test_support::objects::{eight_objects, reference};
use ic_tree_merges::{ByKeys, difference, intersection, merge, union};
use ic_unsafe_ref::Objects;
use std::process::Abort;

// Inserts the object into the tree at the position of its number. A second tree in the same table does not change.
fn put<L: RBTreeOps>(
    tree: &mut RBTree<OwnKey>,
    links: &mut L,
    objects: &Objects<u64>,
    index: usize,
    other: &RBTree<OwnKey>,
)
    requires few { index < 8 }
    requires covers { (L.table links.old).extent.places ≡ 8 }
    requires placed { (q : Place) → index_of q < 8 → is_placed objects.now q ≡ true }
    requires two { TwoRepresented (Represents L.node) objects.now (L.table links.old) (root_of tree.old) (root_of other.now) }
    ensures covers { (L.table links.new).extent.places ≡ 8 }
    ensures two { TwoRepresented (Represents L.node) objects.now (L.table links.new) (root_of tree.new) (root_of other.now) }
{
    let _ = other;
    let _ = tree.insert(links, objects, reference(index));
}

// Returns a tree of the first four objects and a tree of the last four objects.
fn two_trees<L: RBTreeOps>(
    links: &mut L,
    objects: &Objects<u64>,
) -> (RBTree<OwnKey>, RBTree<OwnKey>)
    requires covers { (L.table links.old).extent.places ≡ 8 }
    requires placed { (q : Place) → index_of q < 8 → is_placed objects.now q ≡ true }
    ensures two { TwoRepresented (Represents L.node) objects.now (L.table links.new) (root_of result.0) (root_of result.1) }
{
    let mut tree = RBTree::new(OwnKey);
    let mut other = RBTree::new(OwnKey);
    for index in 0..4 {
        put(&mut tree, links, objects, index, &other);
    }
    for index in 4..8 {
        put(&mut other, links, objects, index, &tree);
    }
    (tree, other)
}

// Merges the tree `other` into the tree `tree`, and returns how often two objects were compared.
fn merged<L: RBTreeOps>(
    tree: &mut RBTree<OwnKey>,
    links: &mut L,
    objects: &Objects<u64>,
    other: RBTree<OwnKey>,
) -> u64
    requires two { TwoRepresented (Represents L.node) objects.now (L.table links.old) (root_of tree.old) (root_of other) }
    ensures shown { RepresentsPlaced (Represents L.node (L.table links.new) (root_of tree.new)) objects.now }
{
    let mut order = ByKeys::new(OwnKey);
    merge(tree, links, objects, &mut order, other);
    order.looks()
}

// The members that a tree keeps when another tree parts it.
#[derive(Clone, Copy)]
enum Kept {
    // The members whose keys the other tree also has.
    Common,
    // The members whose keys the other tree does not have.
    Rest,
}

// Keeps in `tree` the members that `part` names, and returns a tree of the remaining members.
fn parted<L: RBTreeOps>(
    tree: &mut RBTree<OwnKey>,
    links: &mut L,
    objects: &Objects<u64>,
    other: &RBTree<OwnKey>,
    part: Kept,
) -> RBTree<OwnKey>
    requires two { TwoRepresented (Represents L.node) objects.now (L.table links.old) (root_of tree.old) (root_of other.now) }
    ensures kept { RepresentsPlaced (Represents L.node (L.table links.new) (root_of tree.new)) objects.now }
    ensures rest { RepresentsPlaced (Represents L.node (L.table links.new) (root_of result)) objects.now }
{
    match part {
        Kept::Common => intersection(tree, links, objects, &mut ByKeys::new(OwnKey), other),
        Kept::Rest => difference(tree, links, objects, &mut ByKeys::new(OwnKey), other),
    }
}

// Moves to `tree` the members of `other` whose keys `tree` does not have, and returns a tree of the members of `other` whose keys both trees have.
fn united<L: RBTreeOps>(
    tree: &mut RBTree<OwnKey>,
    links: &mut L,
    objects: &Objects<u64>,
    other: RBTree<OwnKey>,
) -> RBTree<OwnKey>
    requires two { TwoRepresented (Represents L.node) objects.now (L.table links.old) (root_of tree.old) (root_of other) }
    ensures united { RepresentsPlaced (Represents L.node (L.table links.new) (root_of tree.new)) objects.now }
    ensures doubles { RepresentsPlaced (Represents L.node (L.table links.new) (root_of result)) objects.now }
{
    union(tree, links, objects, &mut ByKeys::new(OwnKey), other)
}

// Notes the numbers of the tree, from the first member to the last.
fn write_members<L: RBTreeOps>(
    notes: &mut Text,
    tree: &RBTree<OwnKey>,
    links: &L,
    objects: &Objects<u64>,
)
    requires placed { RepresentsPlaced (Represents L.node (L.table links.now) (root_of tree.now)) objects.now }
{
    for number in tree.iter(links, objects) {
        notes.add(Answer::Number(*number), " ");
    }
}

// Notes the members of two trees that are merged. There must be at most eight comparisons, because each comparison except the last one moves a member.
fn write_merged<L: RBTreeOps>(
    rt: &impl Abort,
    notes: &mut Text,
    links: &mut L,
    objects: &Objects<u64>,
)
    requires covers { (L.table links.old).extent.places ≡ 8 }
    requires placed { (q : Place) → index_of q < 8 → is_placed objects.now q ≡ true }
{
    let (mut tree, other) = two_trees(links, objects);
    let looks = merged(&mut tree, links, objects, other);
    assert_true(rt, looks <= 8);
    write_members(notes, &tree, &*links, objects);
}

// Notes the members of the union of two trees, and the members of the second tree whose keys both trees had.
fn write_united<L: RBTreeOps>(notes: &mut Text, links: &mut L, objects: &Objects<u64>)
    requires covers { (L.table links.old).extent.places ≡ 8 }
    requires placed { (q : Place) → index_of q < 8 → is_placed objects.now q ≡ true }
{
    let (mut tree, other) = two_trees(links, objects);
    let doubles = united(&mut tree, links, objects, other);
    write_members(notes, &tree, &*links, objects);
    write_members(notes, &doubles, &*links, objects);
}

// Notes the members that the first tree keeps, and the members that it does not keep.
fn write_parted<L: RBTreeOps>(notes: &mut Text, links: &mut L, objects: &Objects<u64>, part: Kept)
    requires covers { (L.table links.old).extent.places ≡ 8 }
    requires placed { (q : Place) → index_of q < 8 → is_placed objects.now q ≡ true }
{
    let (mut tree, other) = two_trees(links, objects);
    let rest = parted(&mut tree, links, objects, &other, part);
    write_members(notes, &tree, &*links, objects);
    write_members(notes, &rest, &*links, objects);
}

const NUMBERS: [u64; 8] = [10, 20, 30, 40, 20, 30, 50, 60];

#[test]
fn two_trees_in_one(rt: HostRuntime) {
    let alloc = rt.alloc();
    let mut notes = Text::new(alloc);
    let (objects, mut links): (_, LinkOps) = eight_objects(alloc, NUMBERS).expect(&rt, "memory");
    write_merged(&rt, &mut notes, &mut links, &objects);
    let (objects, mut links): (_, LinkOps) = eight_objects(alloc, NUMBERS).expect(&rt, "memory");
    write_united(&mut notes, &mut links, &objects);
    assert_true(
        &rt,
        notes.has_words("10 20 20 30 30 40 50 60  10 20 30 40 50 60  20 30"),
    );
}

#[test]
fn a_tree_parted_by_another(rt: HostRuntime) {
    let alloc = rt.alloc();
    let mut notes = Text::new(alloc);
    for part in [Kept::Common, Kept::Rest] {
        let (objects, mut links): (_, LinkOps) = eight_objects(alloc, NUMBERS).expect(
            &rt, "memory",
        );
        write_parted(&mut notes, &mut links, &objects, part);
    }
    assert_true(&rt, notes.has_words("20 30  10 40  10 40  20 30"));
}
