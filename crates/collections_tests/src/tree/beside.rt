//! Tests of trees over a table that stores the key of each member next to its link.

ghost use Rattle.std.specs.Prelude.{◌≡◌};
ghost use Rattle.ic_link_ops.specs.Prelude.{IsCovered, RepresentsPlaced};
ghost use Rattle.ic_link_ops.specs.RedBlackTree.{Represents};
ghost use Rattle.ic_rbtree.specs.Kept.{RepresentsWithEnds};
ghost use Rattle.ic_rbtree.specs.Tree.{root_of, ends_of};

use crate::notes::assert_words;
use crate::tree::trees::OwnKey;
use ic_link_ops::rbtree::{LinkOpsWith, NarrowLinkOpsWith, RBTreeOps};
use ic_link_ops::{Link, LinkValues, ThreeNarrowWords};
use ic_rbtree::{KeyAdapter, KeyProbe, RBTree, RBTreeCached};
use ic_test_support::answers::write_places;
use ic_test_support::notes::{Answer, Text};
use ic_test_support::objects::{place_at, reference};
use ic_unsafe_ref::{UnsafeRef, Values};

// Inserts the object at the position of its key, and notes the first member of the tree.
fn write_inserted<L: RBTreeOps + LinkValues<u64>>(
    notes: &mut Text,
    tree: &mut RBTree<OwnKey>,
    links: &mut L,
    object: UnsafeRef<u64>,
)
    requires covered { IsCovered (L.table links.old) object }
    requires placed { RepresentsPlaced (Represents L.node (L.table links.old) (root_of tree.old)) (L.values links.old) }
    ensures placed { RepresentsPlaced (Represents L.node (L.table links.new) (root_of tree.new)) (L.values links.new) }
    ensures extent { (L.table links.new).extent ≡ (L.table links.old).extent }
{
    let _ = tree.insert_keyed(links, object);
    write_places(notes, &[tree.front(&*links).get_ptr()]);
}

// Inserts the object at the position that a probe for the key finds, and notes with how many members the probe compared the key.
fn write_looks<L: RBTreeOps + LinkValues<u64>>(
    notes: &mut Text,
    tree: &mut RBTree<OwnKey>,
    links: &mut L,
    key: &u64,
    object: UnsafeRef<u64>,
)
    requires covered { IsCovered (L.table links.old) object }
    requires placed { RepresentsPlaced (Represents L.node (L.table links.old) (root_of tree.old)) (L.values links.old) }
{
    let mut probe = KeyProbe::new(OwnKey, key);
    let _ = tree.insert_keyed_by(links, &mut probe, object);
    notes.add(Answer::Number(probe.looks()), " ");
}

// Inserts the object at the position of its key into a tree that keeps its first and last member, and notes both of them.
fn write_inserted_cached<K: KeyAdapter, L: RBTreeOps + LinkValues<K::Value>>(
    notes: &mut Text,
    tree: &mut RBTreeCached<K>,
    links: &mut L,
    object: UnsafeRef<K::Value>,
)
    requires covered { IsCovered (L.table links.old) object }
    requires placed { RepresentsPlaced (RepresentsWithEnds L.node (L.table links.old) (ends_of tree.old)) (L.values links.old) }
    ensures placed { RepresentsPlaced (RepresentsWithEnds L.node (L.table links.new) (ends_of tree.new)) (L.values links.new) }
    ensures extent { (L.table links.new).extent ≡ (L.table links.old).extent }
{
    let _ = tree.insert_keyed(links, object);
    write_places(notes, &[tree.first(&*links), tree.last(&*links)]);
}

#[test]
fn keys_beside_links(rt: HostRuntime) {
    let mut notes = Text::new(rt.alloc());
    let mut links: LinkOpsWith<u64> = LinkOpsWith::new(rt.alloc());
    let _ = links.cover(4);
    assert!(rt; links.covers() == 4);
    links.set_value(place_at(0), 20);
    links.set_value(place_at(1), 10);
    let mut tree = RBTree::new(OwnKey);
    write_inserted(&mut notes, &mut tree, &mut links, reference(0));
    write_inserted(&mut notes, &mut tree, &mut links, reference(1));
    links.set_value(place_at(2), 20);
    links.set_value(place_at(3), 10);
    let mut tree = RBTree::with_ends(OwnKey);
    write_inserted_cached(&mut notes, &mut tree, &mut links, reference(2));
    write_inserted_cached(&mut notes, &mut tree, &mut links, reference(3));
    assert_words(&rt, &notes, "0 1 2 2 3 2");
}

// A probe for a key that is less than the keys of the root and of the root's left child must compare two members.
#[test]
fn probe_beside_links(rt: HostRuntime) {
    let mut notes = Text::new(rt.alloc());
    let mut links: LinkOpsWith<u64> = LinkOpsWith::new(rt.alloc());
    let _ = links.cover(3);
    assert!(rt; links.covers() == 3);
    links.set_value(place_at(0), 20);
    links.set_value(place_at(1), 10);
    let mut tree = RBTree::new(OwnKey);
    write_inserted(&mut notes, &mut tree, &mut links, reference(0));
    write_inserted(&mut notes, &mut tree, &mut links, reference(1));
    write_looks(&mut notes, &mut tree, &mut links, &5, reference(2));
    assert_words(&rt, &notes, "0 1 2");
}

// A tree link of 4-byte words takes 12 bytes, and 16 bytes with a key of 4 bytes beside it.
const _: () = prove!(size_of::<Link<ThreeNarrowWords, u32>>() == 16);

/// Says that a number of 4 bytes is its own key.
#[derive(Clone, Copy)]
struct OwnNarrowKey;

impl KeyAdapter for OwnNarrowKey {
    type Value = u32;

    type Key = u32;

    ghost key_of = { λ _ value. value };

    fn get_key<'v>(&self, value: &'v u32) -> &'v u32 {
        value
    }
}

// Inserts the objects at the first three places, whose keys are 20, 10 and 30, and notes the first and the last member each time. Then it notes the
// members with the keys 20, 30 and 0, of which the last does not exist.
fn write_three<L: RBTreeOps + LinkValues<u32>>(notes: &mut Text, links: &mut L)
    requires covers { (L.table links.old).extent.places ≡ 4 }
{
    links.set_value(place_at(0), 20_u32);
    links.set_value(place_at(1), 10_u32);
    links.set_value(place_at(2), 30_u32);
    let mut tree = RBTree::with_ends(OwnNarrowKey);
    write_inserted_cached(notes, &mut tree, links, UnsafeRef::new(place_at(0)));
    write_inserted_cached(notes, &mut tree, links, UnsafeRef::new(place_at(1)));
    write_inserted_cached(notes, &mut tree, links, UnsafeRef::new(place_at(2)));
    let own = &*links;
    let found = [
        tree.find(own, own, &20_u32).get_ptr(),
        tree.find(own, own, &30_u32).get_ptr(),
        tree.find(own, own, &0_u32).get_ptr(),
    ];
    write_places(notes, &found);
}

// A tree over links of 4-byte words, with keys of 4 bytes beside the links, must have the right ends after each insert and find members by their keys.
// Promise: keys beside 4-byte words.
#[test]
fn keys_beside_narrow_links(rt: HostRuntime) {
    let mut notes = Text::new(rt.alloc());
    let mut links: NarrowLinkOpsWith<u32> = NarrowLinkOpsWith::new(rt.alloc());
    let _ = links.cover(4);
    assert!(rt; links.covers() == 4);
    write_three(&mut notes, &mut links);
    assert_words(&rt, &notes, "0 0 1 0 1 2 0 2 none");
}
