//! Tests of a walk over the objects of a tree whose keys are in a range, and of a walk that removes members.

ghost use Rattle.ic_link_ops.specs.PlacedObjects.{RepresentsPlaced};
ghost use Rattle.ic_link_ops.specs.RedBlackTree.{Represents};
ghost use Rattle.ic_rbtree.specs.Prelude.{PlainRepresentsSome, root_of};

use crate::lists::free_each;
use crate::notes::{assert_words, write_object};
use crate::tree::trees::{OwnKey, TreeFixture, filled, tree_of};
use ic_link_ops::rbtree::RBTreeOps;
use ic_rbtree::{Bound, RBTree};
use ic_test_support::answers::value;
use ic_test_support::notes::Text;
use ic_test_support::tables::write_linked;
use ic_unsafe_ref::Objects;

// Notes the objects that a walk over the keys from 20 up to below 40 returns: one at the back, one at the front, and then none at the back.
fn write_range<'a, L: RBTreeOps>(
    notes: &mut Text,
    tree: &RBTree<OwnKey>,
    links: &'a L,
    objects: &'a Objects<u64>,
)
    requires { RepresentsPlaced (Represents L.node (L.table links.now) (root_of tree.now)) objects.now }
{
    let (from, below) = (Bound::Included(&20), Bound::Excluded(&40));
    let mut walk = tree.range(links, objects, from, below);
    notes.add(value(walk.next_back()), " ");
    notes.add(value(walk.next()), " ");
    notes.add(value(walk.next_back()), " ");
}

// The rows for a walk that removes members. A row has the number of members, whether the walk also removes the last member, and whether the walk is
// then finished or dropped.
// Promise: the tree iterator, a walk of seven from both ends, a dropped walk of a tree, a finished walk of a tree.
const TAKEN: &[(usize, bool, bool)] = &[
    (7, true, true),
    (7, true, false),
    (2, false, true),
    (0, true, true),
    (4, false, false),
];

// Removes the first member, and also the last one if `from_back` is true, by a walk. Notes the removed members and the places that are then linked.
// Then it finishes the walk if `finishes` is true, or drops it.
fn write_taken(notes: &mut Text, fixture: &mut TreeFixture, from_back: bool, finishes: bool)
    requires shown { PlainRepresentsSome fixture.old.links (root_of fixture.old.tree) }
{
    let mut rest = fixture.tree.take().into_iter(&mut fixture.links);
    write_object(notes, rest.next());
    if from_back {
        write_object(notes, rest.next_back());
    }
    write_linked(notes, rest.links());
    if finishes {
        rest.finish();
    }
}

#[test]
fn walks(rt: HostRuntime) {
    let alloc = rt.alloc();
    let mut notes = Text::new(alloc);
    {
        let fixture = tree_of(&rt, alloc, 7);
        write_range(&mut notes, &fixture.tree, &fixture.links, &fixture.objects);
    }
    for (members, from_back, finishes) in TAKEN {
        let mut fixture = tree_of(&rt, alloc, *members % 8);
        write_taken(&mut notes, &mut fixture, *from_back, *finishes);
        notes.word("then ");
        free_each(&rt, &mut notes, &mut fixture.links);
        let _ = filled(&mut fixture.links, *members % 8, false);
        write_linked(&mut notes, &fixture.links);
    }
    assert_words(
        &rt,
        &notes,
        "30 20 none
        0 6 1 2 3 4 5 then 0 1 2 3 4 5 6
        0 6 1 2 3 4 5 then 1 2 3 4 5 2 3 4 5 3 4 5 4 5 5 0 1 2 3 4 5 6
        0 1 then 0 1
        none none then
        0 1 2 3 then 1 2 3 2 3 3 0 1 2 3",
    );
}
