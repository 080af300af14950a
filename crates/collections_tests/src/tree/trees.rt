//! Fixtures for tests of trees of objects that are their own keys.

ghost use Rattle.std.specs.Prelude.{◌≡◌, ◌<◌, ◌≤◌, true};
ghost use Rattle.ic_link_ops.specs.Prelude.{Place, index_of, is_placed, RepresentsPlaced};
ghost use Rattle.ic_rbtree.specs.Prelude.{plain_table, PlainRepresents, PlainRepresentsSome, root_of};

use ic_link_ops::rbtree::LinkOps;
use ic_rbtree::{KeyAdapter, RBTree};
use ic_test_support::objects::{TENS, eight_objects, reference};
use ic_test_support::tables::are_placed;
use ic_unsafe_ref::Objects;
use std::alloc::Global;
use std::process::Abort;

/// Says that a number is its own key.
#[derive(Clone, Copy, Default)]
pub(crate) struct OwnKey;

impl KeyAdapter for OwnKey {
    type Value = u64;

    type Key = u64;

    ghost key_of = { λ _ value. value };

    fn get_key<'v>(&self, value: &'v u64) -> &'v u64 {
        value
    }
}

/// A tree with its objects and the table of its links. The table covers the places 0 to 7, and there is an object at each of these places.
pub(crate) struct TreeFixture {
    pub(crate) objects: Objects<u64>,
    pub(crate) links: LinkOps,
    pub(crate) tree: RBTree<OwnKey>,
}

// The `Drop` of a fixture is not derived. The reason is that the proof of a function that drops a fixture then covers one call of this `drop`, and not
// the drop of each part.
impl Drop for TreeFixture {
    fn drop(self) {
        let TreeFixture {
            objects: _,
            links: _,
            tree: _,
        } = self;
    }
}

// Inserts the object at the place with this index, before all members of the tree if `in_front` is true, or else after all members.
fn put(tree: &mut RBTree<OwnKey>, links: &mut LinkOps, index: usize, in_front: bool)
    requires few { index < 8 }
    requires covered { index < (plain_table links.old).extent.places }
    requires shown { PlainRepresentsSome links.old (root_of tree.old) }
    ensures shown { PlainRepresentsSome links.new (root_of tree.new) }
{
    if in_front {
        let mut cursor = tree.cursor_mut(links);
        let _ = cursor.insert_after(reference(index));
    } else {
        let _ = tree.push_back(links, reference(index));
    }
}

/// Inserts the objects at the first `members` places into a new tree. Each is inserted at the front if `in_front` is true, or else at the back.
pub(crate) fn filled(links: &mut LinkOps, members: usize, in_front: bool) -> RBTree<OwnKey>
    requires { members ≤ 8 }
    ensures shown { PlainRepresentsSome links.new (root_of result) }
{
    let mut tree = RBTree::default();
    for index in 0..members {
        if index < links.covers() {
            put(&mut tree, links, index, in_front);
        }
    }
    tree
}

/// Returns a tree of the objects at the first `members` places, in the order of their places. The objects at the eight places are `numbers`.
pub(crate) fn tree_over(
    rt: &impl Abort,
    alloc: Global,
    numbers: [u64; 8],
    members: usize,
) -> TreeFixture
    requires { members ≤ 8 }
    ensures covers { (plain_table result.links).extent.places ≡ 8 }
    ensures placed { (q : Place) → index_of q < 8 → is_placed result.objects q ≡ true }
    ensures shown { RepresentsPlaced (PlainRepresents result.links (root_of result.tree)) result.objects }
{
    let (objects, mut links) = eight_objects(alloc, numbers).expect(rt, "memory");
    let tree = filled(&mut links, members, false);
    assert!(rt; links.covers() == 8);
    assert!(rt; are_placed(&links, &objects));
    TreeFixture {
        objects,
        links,
        tree,
    }
}

/// Returns a tree of the objects at the first `members` places, in the order of their places. The objects are 10 to 80.
pub(crate) fn tree_of(rt: &impl Abort, alloc: Global, members: usize) -> TreeFixture
    requires { members ≤ 8 }
    ensures covers { (plain_table result.links).extent.places ≡ 8 }
    ensures placed { (q : Place) → index_of q < 8 → is_placed result.objects q ≡ true }
    ensures shown { RepresentsPlaced (PlainRepresents result.links (root_of result.tree)) result.objects }
{
    tree_over(rt, alloc, TENS, members)
}
