//! Tests of searches by keys, with cursors that borrow the tree, of the entry of a key, and of keys in an array.

ghost use Rattle.std.specs.Prelude.{◌≡◌, ◌<◌, length};
ghost use Rattle.ic_link_ops.specs.Prelude.{index_of, RepresentsPlaced};
ghost use Rattle.ic_link_ops.specs.RedBlackTree.{Represents};
ghost use Rattle.ic_rbtree.specs.Tree.{root_of};

use crate::notes::{assert_words, write_values};
use crate::tree::trees::{OwnKey, tree_of};
use ic_link_ops::rbtree::RBTreeOps;
use ic_rbtree::{Bound, RBTree};
use ic_test_support::answers::write_places;
use ic_test_support::notes::{Answer, Text};
use ic_test_support::objects::{place_at, reference};
use ic_test_support::tables::write_linked;
use ic_unsafe_ref::{Objects, Place, Values};

// Returns the key of a place. The key is the item of `keys` at the index of the place.
fn key_at(keys: &[u64], place: Place) -> u64
    requires in_range { index_of place < length keys.now }
{
    *keys.value(place)
}

// Notes the results of three searches: the first member with the key 40, the first member whose key is at least 40, and the last member whose key is
// below 40.
fn write_searches<L: RBTreeOps>(
    notes: &mut Text,
    tree: &mut RBTree<OwnKey>,
    links: &mut L,
    objects: &Objects<u64>,
)
    requires { RepresentsPlaced (Represents L.node (L.table links.old) (root_of tree.old)) objects.now }
{
    let (from, below) = (Bound::Included(&40), Bound::Excluded(&40));
    let found = tree.find_mut(links, objects, &40).into_ref(objects);
    write_values(notes, &[found]);
    let found = tree.lower_bound_mut(links, objects, from).into_ref(objects);
    write_values(notes, &[found]);
    let found = tree
        .upper_bound_mut(links, objects, below)
        .into_ref(objects);
    write_values(notes, &[found]);
}

// Inserts the object at 7 at the entry of the key, if no member has the key. Notes whether the closure that makes the object was called, and the member
// on which the cursor then is.
fn write_entry<L: RBTreeOps>(
    notes: &mut Text,
    tree: &mut RBTree<OwnKey>,
    links: &mut L,
    objects: &Objects<u64>,
    key: &u64,
)
    requires covers { (L.table links.old).extent.places ≡ 8 }
    requires shown { RepresentsPlaced (Represents L.node (L.table links.old) (root_of tree.old)) objects.now }
{
    let object = reference(7);
    let entry = tree.entry(links, objects, key);
    let at = match &entry.or_insert_with(|| {
        notes.word("made ");
        object
    }) {
        Ok(cursor) => cursor.get_ptr(),
        Err(_) => None,
    };
    write_places(notes, &[at]);
}

// The test makes the searches in a tree of seven members. In a tree of 10, 20 and 30, the entry of the key 25 must insert an object, and the entry of
// the key 30 must find its member.
// Promise: a closure that is not called.
#[test]
fn searches_and_entries(rt: HostRuntime) {
    let alloc = rt.alloc();
    let mut notes = Text::new(alloc);
    {
        let mut fixture = tree_of(&rt, alloc, 7);
        write_searches(
            &mut notes,
            &mut fixture.tree,
            &mut fixture.links,
            &fixture.objects,
        );
    }
    for key in &[25, 30] {
        let mut fixture = tree_of(&rt, alloc, 3);
        write_entry(
            &mut notes,
            &mut fixture.tree,
            &mut fixture.links,
            &fixture.objects,
            key,
        );
        write_linked(&mut notes, &fixture.links);
    }
    let key = key_at(&[30, 10, 40], place_at(1));
    notes.add(Answer::Number(key), " ");
    assert_words(&rt, &notes, "40 40 30  made 7 0 1 2 7  2 0 1 2  10");
}
