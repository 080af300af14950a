//! A test of how often the calls that take a key read a value. A call reads one value for each member that it looks at, and an insert reads one more,
//! for the key of the inserted object.

ghost use Rattle.std.specs.Prelude.{◌≡◌, true};
ghost use Rattle.ic_link_ops.specs.Prelude.{is_placed, IsCovered, RepresentsPlaced};
ghost use Rattle.ic_rbtree.specs.Prelude.{RepresentsKept, PlainRepresents, head_of, root_of};

use crate::notes::assert_words;
use crate::tree::summaries::member_at;
use crate::tree::trees::{OwnKey, TreeFixture, tree_of, tree_over};
use ic_link_ops::rbtree::RBTreeOps;
use ic_rbtree::{RBTree, TreeHead};
use ic_test_support::notes::{Answer, Text};
use ic_test_support::objects::reference;
use ic_unsafe_ref::{Objects, Place, UnsafeRef, Values};
use std::cell::Cell;
use std::process::Abort;

// The values of objects, with a count of how often a value was read.
#[derive(Drop)]
struct Counted<'o> {
    objects: &'o Objects<u64>,
    reads: Cell<u64>,
}

impl<'o> Counted<'o> {
    // Returns values over these objects, with a count of 0 reads.
    fn of(objects: &'o Objects<u64>) -> Counted<'o>
        ensures { result.objects.now ≡ objects.now }
    {
        Counted {
            objects,
            reads: Cell::new(0),
        }
    }

    // Notes how often a value was read.
    fn write_reads(&self, notes: &mut Text) {
        notes.add(Answer::Number(self.reads.get()), " ");
    }
}

impl Values<u64> for Counted<'_> {
    ghost values = { λ counted. counted.objects.now };

    fn value(&self, place: Place) -> &u64 {
        self.reads.set(self.reads.get().wrapping_add(1));
        self.objects.value(place)
    }
}

// Inserts the object at the position of its key, and notes how often a value was read.
fn write_insert<E: TreeHead, L: RBTreeOps>(
    notes: &mut Text,
    tree: &mut RBTree<OwnKey, E>,
    links: &mut L,
    objects: &Objects<u64>,
    object: UnsafeRef<u64>,
)
    requires covered { IsCovered (L.table links.old) object }
    requires placed { RepresentsPlaced (RepresentsKept E.kept L.node (L.table links.old) (head_of tree.old)) objects.now }
    requires object { is_placed objects.now object ≡ true }
{
    let counted = Counted::of(objects);
    let _ = tree.insert(links, &counted, object);
    counted.write_reads(notes);
}

// Searches the entry of the key 80, and notes how often a value was read.
fn write_entry(notes: &mut Text, fixture: &mut TreeFixture)
    requires placed { RepresentsPlaced (PlainRepresents fixture.old.links (root_of fixture.old.tree)) fixture.old.objects }
{
    let counted = Counted::of(&fixture.objects);
    let _ = fixture.tree.entry(&mut fixture.links, &counted, &80);
    counted.write_reads(notes);
}

// Inserts the object with the member at the given position as the hint, and notes how often a value was read.
fn write_insert_with_hint<E: TreeHead, L: RBTreeOps>(
    rt: &impl Abort,
    notes: &mut Text,
    tree: &mut RBTree<OwnKey, E>,
    links: &mut L,
    objects: &Objects<u64>,
    position: usize,
    object: UnsafeRef<u64>,
)
    requires covered { IsCovered (L.table links.old) object }
    requires placed { RepresentsPlaced (RepresentsKept E.kept L.node (L.table links.old) (head_of tree.old)) objects.now }
    requires object { is_placed objects.now object ≡ true }
{
    let hint = member_at(rt, &*tree, &*links, position);
    let counted = Counted::of(objects);
    let _ = tree.insert_with_hint(links, &counted, &hint, object);
    counted.write_reads(notes);
}

// Seven numbers in rising order, and an eighth number that belongs before the fourth one.
const SEVEN_AND_ONE: [u64; 8] = [10, 20, 30, 50, 60, 70, 80, 40];

// The calls must look at exactly as many members as follows from the shape of the tree. If seven members are inserted in rising order, the second is the
// root. The path from the root down its right side leads over the fourth and the sixth member to the seventh. An insert after all members must look at four
// members, and at one member if the tree keeps its last member. A search of the entry of a greater key must look at four members. An insert before the
// fourth member must look at two members if the fourth is the hint, and at four if the hint is the second member, whose key is less than the new key. If
// the hint is the last member, the insert must look at five members, because the member before the last is greater than the new one.
// Promise: looks of plain calls.
#[test]
fn plain_calls_look_once(rt: HostRuntime) {
    let alloc = rt.alloc();
    let mut notes = Text::new(alloc);
    let mut fixture = tree_of(&rt, alloc, 7);
    write_insert(
        &mut notes,
        &mut fixture.tree,
        &mut fixture.links,
        &fixture.objects,
        reference(7),
    );
    let mut fixture = tree_of(&rt, alloc, 7);
    let mut tree = RBTree::from_root(OwnKey, fixture.tree.root()).keep_ends(&fixture.links);
    write_insert(
        &mut notes,
        &mut tree,
        &mut fixture.links,
        &fixture.objects,
        reference(7),
    );
    write_entry(&mut notes, &mut tree_of(&rt, alloc, 7));
    for position in [3, 1, 6] {
        let mut fixture = tree_over(&rt, alloc, SEVEN_AND_ONE, 7);
        write_insert_with_hint(
            &rt,
            &mut notes,
            &mut fixture.tree,
            &mut fixture.links,
            &fixture.objects,
            position,
            reference(7),
        );
    }
    assert_words(&rt, &notes, "5 2 4 3 5 6");
}
