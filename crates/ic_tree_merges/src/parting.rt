//! These calls split a tree by another tree: into the members that are equal to a member of the other tree, and the rest. A run is a sequence of members, each
//! of which is the right child of the member before it.
//!
//! ```text
//! let rest = intersection(&mut tree, &mut links, &objects, &mut order, &other); // `tree` keeps what `other` has, too
//! let common = difference(&mut tree, &mut links, &objects, &mut order, &other); // `tree` keeps what `other` has not
//! let doubles = union(&mut tree, &mut links, &objects, &mut order, other); // `tree` has each key of both
//! ```

ghost use Rattle.std.specs.Prelude.{◌≡◌, ◌≤◌, ◌+◌, ◌*◌, List, length, true, IfSome};
ghost use Rattle.ic_link_ops.specs.Prelude.{Place, is_placed, IsDistinct, IsDisjoint, ArePlaced};
ghost use Rattle.ic_link_ops.specs.RedBlackTree.{Represents};
ghost use Rattle.ic_rbtree.specs.Tree.{root_of, adapter_of};
ghost use Rattle.ic_tree_merges.specs.Merges.{compared_at};
ghost use Rattle.ic_tree_merges.specs.TwoTrees.{TwoRepresented, SplitsTree, UnitesTo, RepresentsLowest};
ghost use Rattle.ic_tree_merges.specs.Vines.{ends_of, standing, IsRun, PartsRun};

use crate::compares::Compares;
use crate::merging::merge;
use crate::vine::Vine;
use ic_link_ops::Side;
use ic_rbtree::{NodeStore, RBTree, RBTreeBuilder};
use ic_unsafe_ref::{Place, Values};
use std::cmp::Ordering;

// How the member `place` compares with the member `other`, or `Less` if `other` is `None`.
#[inline]
fn standing<V, O: Values<V>, C: Compares<V>>(
    objects: &O,
    order: &mut C,
    place: Place,
    other: Option<Place>,
) -> Ordering
    requires placed { is_placed (O.values objects.now) place ≡ true }
    requires other_placed { IfSome other (λ p. is_placed (O.values objects.now) p ≡ true) }
    ensures answer { result ≡ standing (compared_at (C.order order.old) (O.values objects.now)) place other }
    ensures counted { C.looks order.new ≤ C.looks order.old + 1 }
    ensures same { C.order order.new ≡ C.order order.old }
{
    match other {
        Some(other) => order.compare(objects.value(place), objects.value(other)),
        None => Ordering::Less,
    }
}

// Makes two vines of the run that begins with `first`. One has the members that are equal to a member of the tree `other`, and one has the rest.
fn part_run<V, B, N: NodeStore, O: Values<V>, C: Compares<V>>(
    nodes: &mut N,
    objects: &O,
    order: &mut C,
    first: Option<Place>,
    other: &RBTree<B>,
) -> (Vine, Vine)
    requires run { (s u : List Place) × IsRun N.node (O.values objects.now) (N.table nodes.old) first s × IsDistinct s
        × Represents N.node (N.table nodes.old) (root_of other.now) u × ArePlaced (O.values objects.now) u × IsDisjoint u s }
    ensures parted { (s u : List Place) → IsRun N.node (O.values objects.now) (N.table nodes.old) first s → IsDistinct s
        → Represents N.node (N.table nodes.old) (root_of other.now) u → IsDisjoint u s
        → PartsRun N.node (compared_at (C.order order.old) (O.values objects.now)) (N.table nodes.old) (N.table nodes.new)
        (ends_of result.0) (ends_of result.1) s u }
    ensures few { (s u : List Place) → IsRun N.node (O.values objects.now) (N.table nodes.old) first s → IsDistinct s
        → Represents N.node (N.table nodes.old) (root_of other.now) u → IsDisjoint u s
        → C.looks order.new ≤ C.looks order.old + (length s + length u) }
    ensures same { C.order order.new ≡ C.order order.old }
    ensures keeps_links { N.KeepsLinks nodes.old nodes.new }
{
    let mut left = first;
    let mut right = other.step(&*nodes, None, Side::Right);
    let mut common = Vine::new();
    let mut rest = Vine::new();
    for _count in 0..u64::MAX {
        let Some(place) = left else {
            return (common, rest);
        };
        match standing(objects, order, place, right) {
            Ordering::Less => left = rest.push_back(nodes, place),
            Ordering::Equal => left = common.push_back(nodes, place),
            Ordering::Greater => right = other.step(&*nodes, right, Side::Right),
        }
    }
    (common, rest)
}

// Splits `tree` into two trees. One has the members that are equal to a member of the tree `other`, and one has the rest.
fn part<A: Copy + Drop, B, V, N: NodeStore, O: Values<V>, C: Compares<V>>(
    tree: RBTree<A>,
    nodes: &mut N,
    objects: &O,
    order: &mut C,
    other: &RBTree<B>,
) -> (RBTree<A>, RBTree<A>)
    requires two { TwoRepresented (Represents N.node) (O.values objects.now) (N.table nodes.old) (root_of tree) (root_of other.now) }
    ensures { SplitsTree N.node N.table N.KeepsLinks C.order C.looks (O.values objects.now) nodes.old order.old tree other.now nodes.new order.new
        result.0 result.1 }
{
    let adapter = tree.adapter();
    let run = tree.into_builder(nodes);
    let front = run.first();
    let (common_vine, rest_vine) = part_run(nodes, objects, order, front, other);
    let common_builder = RBTreeBuilder::from_ends(adapter, common_vine.first, common_vine.last);
    let common = common_builder.build(nodes);
    let rest_builder = RBTreeBuilder::from_ends(adapter, rest_vine.first, rest_vine.last);
    let rest = rest_builder.build(nodes);
    (common, rest)
}

/// Keeps the members of `tree` that are equal to a member of `other`, and returns the rest as a tree, in order.
///
/// It requires that the two trees share no member, and that `objects` has every member. If both trees were in order, the call keeps exactly the members that
/// are equal to a member of `other`. The tree `other` stays as it is. Both resulting trees have the least height. The call takes no memory, and acquires and
/// releases no link. Trees that share no member with `tree` stay as they are. It makes at most n + m comparisons, and takes O(n + m).
pub fn intersection<A: Copy + Drop, B, V, N: NodeStore, O: Values<V>, C: Compares<V>>(
    tree: &mut RBTree<A>,
    nodes: &mut N,
    objects: &O,
    order: &mut C,
    other: &RBTree<B>,
) -> RBTree<A>
    requires two { TwoRepresented (Represents N.node) (O.values objects.now) (N.table nodes.old) (root_of tree.old) (root_of other.now) }
    ensures { SplitsTree N.node N.table N.KeepsLinks C.order C.looks (O.values objects.now) nodes.old order.old tree.old other.now nodes.new order.new
        tree.new result }
{
    let whole = tree.take();
    let (common, rest) = part(whole, nodes, objects, order, other);
    *tree = common;
    rest
}

/// Keeps the members of `tree` that are equal to no member of `other`, and returns the rest as a tree, in order.
///
/// It requires that the two trees share no member, and that `objects` has every member. If both trees were in order, the call returns exactly the members that
/// are equal to a member of `other`. The tree `other` stays as it is. Both resulting trees have the least height. The call takes no memory, and acquires and
/// releases no link. Trees that share no member with `tree` stay as they are. It makes at most n + m comparisons, and takes O(n + m).
pub fn difference<A: Copy + Drop, B, V, N: NodeStore, O: Values<V>, C: Compares<V>>(
    tree: &mut RBTree<A>,
    nodes: &mut N,
    objects: &O,
    order: &mut C,
    other: &RBTree<B>,
) -> RBTree<A>
    requires two { TwoRepresented (Represents N.node) (O.values objects.now) (N.table nodes.old) (root_of tree.old) (root_of other.now) }
    ensures { SplitsTree N.node N.table N.KeepsLinks C.order C.looks (O.values objects.now) nodes.old order.old tree.old other.now nodes.new order.new
        result tree.new }
{
    let whole = tree.take();
    let (common, rest) = part(whole, nodes, objects, order, other);
    *tree = rest;
    common
}

/// Moves each member of `other` that is equal to no member of `tree` into `tree`. Returns the rest of `other` as a tree, in order.
///
/// It requires that the two trees share no member, and that `objects` has every member. If both trees were in order, both results are in order, and the call
/// returns exactly the members that are equal to a member of `tree`. Both resulting trees have the least height. The call takes no memory, and acquires and
/// releases no link. Trees that share no member with these two trees stay as they are. It makes at most 2 (n + m) comparisons, and takes O(n + m).
pub fn union<A: Copy + Drop, V, N: NodeStore, O: Values<V>, C: Compares<V>>(
    tree: &mut RBTree<A>,
    nodes: &mut N,
    objects: &O,
    order: &mut C,
    other: RBTree<A>,
) -> RBTree<A>
    requires two { TwoRepresented (Represents N.node) (O.values objects.now) (N.table nodes.old) (root_of tree.old) (root_of other) }
    ensures united { (s u : List Place) → Represents N.node (N.table nodes.old) (root_of tree.old) s → Represents N.node (N.table nodes.old) (root_of other) u
        → IsDisjoint s u → UnitesTo (Represents N.node) (compared_at (C.order order.old) (O.values objects.now)) (N.table nodes.old) (N.table nodes.new)
        (root_of tree.new) (root_of result) s u }
    ensures lowest { RepresentsLowest N.node (N.table nodes.new) (root_of tree.new) × RepresentsLowest N.node (N.table nodes.new) (root_of result) }
    ensures few { (s u : List Place) → Represents N.node (N.table nodes.old) (root_of tree.old) s → Represents N.node (N.table nodes.old) (root_of other) u
        → IsDisjoint s u → C.looks order.new ≤ C.looks order.old + 2 * (length s + length u) }
    ensures same { C.order order.new ≡ C.order order.old }
    ensures keeps_links { N.KeepsLinks nodes.old nodes.new }
    ensures adapter { adapter_of tree.new ≡ adapter_of tree.old }
    ensures doubles_adapter { adapter_of result ≡ adapter_of other }
{
    let (doubles, added) = part(other, nodes, objects, order, &*tree);
    merge(tree, nodes, objects, order, added);
    doubles
}
