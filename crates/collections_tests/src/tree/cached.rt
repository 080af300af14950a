//! A test of a tree that keeps its first and its last member, as a queue needs.

ghost use Rattle.std.specs.Prelude.{◌≡◌, true};
ghost use Rattle.ic_link_ops.specs.Prelude.{is_placed, IsCovered, RepresentsPlaced};
ghost use Rattle.ic_rbtree.specs.Kept.{ended, RepresentsWithEnds, RepresentsKeptSome};
ghost use Rattle.ic_rbtree.specs.Tree.{ends_of};

use crate::notes::{assert_words, write_object};
use crate::tree::trees::OwnKey;
use ic_link_ops::LinkOps;
use ic_link_ops::rbtree::{self, RBTreeOps};
use ic_rbtree::{RBTree, WithEnds};
use ic_test_support::answers::write_places;
use ic_test_support::notes::{Answer, Text};
use ic_test_support::objects::{TENS, eight_objects, reference};
use ic_unsafe_ref::{Objects, UnsafeRef};

// Inserts the object at the position of its key, and notes the first and the last member of the tree.
fn write_inserted<L: RBTreeOps>(
    notes: &mut Text,
    tree: &mut RBTree<OwnKey, WithEnds>,
    links: &mut L,
    objects: &Objects<u64>,
    object: UnsafeRef<u64>,
)
    requires covered { IsCovered (L.table links.old) object }
    requires object { is_placed objects.now object ≡ true }
    requires placed { RepresentsPlaced (RepresentsWithEnds L.node (L.table links.old) (ends_of tree.old)) objects.now }
    ensures placed { RepresentsPlaced (RepresentsWithEnds L.node (L.table links.new) (ends_of tree.new)) objects.now }
    ensures extent { (L.table links.new).extent ≡ (L.table links.old).extent }
{
    let _ = tree.insert(links, objects, object);
    write_places(notes, &[tree.first(links), tree.last(links)]);
}

// Removes the first and the last member, and notes both. Then it notes the first and the last of the remaining members, and whether the tree is empty.
fn write_taken<L: RBTreeOps>(notes: &mut Text, tree: &mut RBTree<OwnKey, WithEnds>, links: &mut L)
    requires shown { RepresentsKeptSome ended L.node (L.table links.old) (ends_of tree.old) }
{
    let first = tree.pop_front(links);
    let last = tree.pop_back(links);
    write_object(notes, first);
    write_object(notes, last);
    write_places(
        notes,
        &[tree.front(links).get_ptr(), tree.back(links).get_ptr()],
    );
    notes.add(Answer::Truth(tree.is_empty()), " ");
}

// Splits the tree before its last member, and notes the ends of both parts. Then it appends the second part again, and notes the ends of the whole
// tree.
fn write_split<L: RBTreeOps>(notes: &mut Text, tree: &mut RBTree<OwnKey, WithEnds>, links: &mut L)
    requires shown { RepresentsKeptSome ended L.node (L.table links.old) (ends_of tree.old) }
    ensures shown { RepresentsKeptSome ended L.node (L.table links.new) (ends_of tree.new) }
{
    let Some(last) = tree.last(links) else {
        return;
    };
    let mut rest = tree.split_off(links, &UnsafeRef::new(last));
    write_places(
        notes,
        &[
            tree.first(links),
            tree.last(links),
            rest.first(links),
            rest.last(links),
        ],
    );
    tree.append(links, &mut rest);
    write_places(
        notes,
        &[tree.first(links), tree.last(links), rest.first(links)],
    );
}

#[test]
fn ends(rt: HostRuntime) {
    let alloc = rt.alloc();
    let mut notes = Text::new(alloc);
    let (objects, mut links): (_, rbtree::LinkOps) = eight_objects(alloc, TENS).expect(
        &rt, "memory",
    );
    let mut tree = RBTree::with_ends(OwnKey);
    write_inserted(&mut notes, &mut tree, &mut links, &objects, reference(2));
    write_inserted(&mut notes, &mut tree, &mut links, &objects, reference(4));
    write_inserted(&mut notes, &mut tree, &mut links, &objects, reference(1));
    write_split(&mut notes, &mut tree, &mut links);
    let mut tree = tree.forget_ends().keep_ends(&links);
    write_taken(&mut notes, &mut tree, &mut links);
    assert_words(&rt, &notes, "2 2 2 4 1 4  1 2 4 4 1 4 none  1 4 2 2 no");
}
