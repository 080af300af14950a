//! Tests of the builder of trees: objects are appended in the order of their keys, a tree is built of them, and the tree is turned into a builder
//! again.

ghost use Rattle.std.specs.Prelude.{◌≡◌, ◌<◌, List};
ghost use Rattle.ic_link_ops.specs.Prelude.{Place, first, IsCovered, node_of};
ghost use Rattle.ic_link_ops.specs.RedBlackTree.{Represents, RepresentsSome};
ghost use Rattle.ic_rbtree.specs.Builder.{ends_of};
ghost use Rattle.ic_rbtree.specs.Prelude.{IsLowest, root_of, RepresentsVine, RepresentsVineSome};
ghost use Rattle.ic_rbtree.specs.KeyedTrees.{keyed_table};

use crate::asserts::{assert_same, assert_true};
use crate::keyed::{OwnKey, keyed_links};
use ic_link_ops::LinkValues;
use ic_link_ops::rbtree::{LinkOpsWith, RBTreeOps};
use ic_rbtree::{KeyAdapter, RBTree, RBTreeBuilder};
use ic_test_support::objects::{place_at, reference};
use ic_unsafe_ref::{Place, UnsafeRef};
use std::process::Abort;

// Appends the object to the members of the builder, unless the object is linked, and returns the last member of the builder afterwards.
fn push<A: KeyAdapter, L: RBTreeOps>(
    builder: &mut RBTreeBuilder<A>,
    links: &mut L,
    object: UnsafeRef<A::Value>,
) -> Option<Place>
    requires covered { IsCovered (L.table links.old) object }
    requires shown { RepresentsVineSome L.node (L.table links.old) (ends_of builder.old) }
    ensures shown { RepresentsVineSome L.node (L.table links.new) (ends_of builder.new) }
    ensures extent { (L.table links.new).extent ≡ (L.table links.old).extent }
{
    let _ = builder.push_back(links, object);
    builder.last()
}

// Removes the first member of the builder, if the builder has members, and returns the place of the removed member.
fn pop<A: KeyAdapter, L: RBTreeOps>(builder: &mut RBTreeBuilder<A>, links: &mut L) -> Option<Place>
    requires shown { RepresentsVineSome L.node (L.table links.old) (ends_of builder.old) }
    ensures first { (s : List Place) → RepresentsVine L.node (L.table links.old) (ends_of builder.old) s → result ≡ first s }
    ensures shown { RepresentsVineSome L.node (L.table links.new) (ends_of builder.new) }
    ensures extent { (L.table links.new).extent ≡ (L.table links.old).extent }
{
    let object = builder.pop_front(links)?;
    Some(object.place())
}

// Turns the tree into a builder, appends the object to its members, and builds a tree again. Returns the built tree and its first member.
fn built_anew<A: KeyAdapter, L: RBTreeOps>(
    tree: RBTree<A>,
    links: &mut L,
    object: UnsafeRef<A::Value>,
) -> (Option<Place>, RBTree<A>)
    requires covered { IsCovered (L.table links.old) object }
    requires shown { RepresentsSome L.node (L.table links.old) (root_of tree) }
    ensures shown { RepresentsSome L.node (L.table links.new) (root_of result.1) }
    ensures lowest { (s : List Place) (h : Represents L.node (L.table links.new) (root_of result.1) s) → IsLowest h.tree }
{
    let mut builder = tree.into_builder(links);
    let _ = push(&mut builder, links, object);
    let first = builder.first();
    (first, builder.build(links))
}

// Returns whether the members of the tree have these keys, in this order.
fn has_keys<L: RBTreeOps + LinkValues<u64>>(tree: &RBTree<OwnKey>, links: &L, keys: &[u64]) -> bool
    requires shown { RepresentsSome L.node (L.table links.now) (root_of tree.now) }
{
    tree.iter(links, links).eq(keys)
}

// Appends three objects to a builder, removes the first one, and builds a tree of the other two. Then the tree is built again with a fourth object. The
// table of links has the keys 10 to 40 beside the links.
fn play<L: RBTreeOps + LinkValues<u64>>(rt: &impl Abort, links: &mut L)
    requires covers { (L.table links.old).extent.places ≡ 4 }
{
    let mut builder = RBTreeBuilder::new(OwnKey);
    for index in 0..3 {
        let last = push(&mut builder, links, reference(index));
        assert_same(rt, last, Some(place_at(index)));
    }
    let last = push(&mut builder, links, reference(0));
    assert_same(rt, last, Some(place_at(2)));
    let front = pop(&mut builder, links);
    assert_same(rt, front, Some(place_at(0)));
    let tree = builder.build(links);
    let (first, tree) = built_anew(tree, links, reference(3));
    assert_same(rt, first, Some(place_at(1)));
    assert_true(rt, has_keys(&tree, &*links, &[20, 30, 40]));
}

#[test]
fn built_of_objects_in_order(rt: HostRuntime) {
    let mut links = keyed_links(&rt, rt.alloc(), &[10, 20, 30, 40]);
    play(&rt, &mut links);
}
