//! Tests of the positions at which cursors of a tree begin, and of inserts by a cursor that borrows the tree and by a cursor that owns the tree.

ghost use Rattle.std.specs.Prelude.{◌≡◌, ◌<◌, true};
ghost use Rattle.ic_link_ops.specs.Prelude.{Place, index_of, is_placed, RepresentsPlaced};
ghost use Rattle.ic_link_ops.specs.RedBlackTree.{RepresentsSome};
ghost use Rattle.ic_rbtree.specs.Prelude.{plain_table, PlainRepresents, root_of};

use crate::notes::assert_words;
use crate::tree::trees::{OwnKey, TreeFixture, tree_of};
use ic_link_ops::rbtree::RBTreeOps;
use ic_rbtree::RBTree;
use ic_test_support::answers::write_places;
use ic_test_support::notes::{Answer, Text};
use ic_test_support::objects::reference;
use ic_test_support::tables::write_linked;
use std::process::Abort;

// Notes the positions of two cursors that borrow the tree, at null and at the back. Then it notes the positions of cursors that own the tree, at null, at
// the front and at the back. At last it empties the tree.
fn write_ends<L: RBTreeOps>(notes: &mut Text, tree: RBTree<OwnKey>, links: &L)
    requires shown { RepresentsSome L.node (L.table links.now) (root_of tree) }
{
    let null = tree.cursor(links).get_ptr();
    let back = tree.back(links).get_ptr();
    write_places(notes, &[null, back]);
    let at_null = tree.cursor_owning();
    let kept_null = at_null.get_ptr();
    let at_front = at_null.into_inner().front_owning(links);
    let front = at_front.get_ptr();
    let at_back = at_front.into_inner().back_owning(links);
    write_places(notes, &[kept_null, front, at_back.get_ptr()]);
    let mut tree = at_back.into_inner();
    tree.fast_clear();
    notes.add(Answer::Truth(tree.is_empty()), " ");
}

// Inserts the object at 3 by a cursor on the last of the members 0, 1 and 2, and notes the member after the cursor.
fn write_inserted(notes: &mut Text, fixture: &mut TreeFixture)
    requires covers { (plain_table fixture.old.links).extent.places ≡ 8 }
    requires placed { (q : Place) → index_of q < 8 → is_placed fixture.old.objects q ≡ true }
    requires shown { RepresentsPlaced (PlainRepresents fixture.old.links (root_of fixture.old.tree)) fixture.old.objects }
{
    let mut cursor = fixture.tree.back_mut(&mut fixture.links);
    let _ = cursor.insert(&fixture.objects, reference(3));
    cursor.move_next();
    write_places(notes, &[cursor.get_ptr()]);
}

// Inserts the object at 3 by a cursor that owns the tree and is made on the member 2 by its reference. Notes the member after the cursor.
fn write_kept(rt: &impl Abort, notes: &mut Text, fixture: &mut TreeFixture)
    requires covers { (plain_table fixture.old.links).extent.places ≡ 8 }
    requires placed { (q : Place) → index_of q < 8 → is_placed fixture.old.objects q ≡ true }
    requires shown { RepresentsPlaced (PlainRepresents fixture.old.links (root_of fixture.old.tree)) fixture.old.objects }
{
    let TreeFixture {
        objects,
        links,
        tree,
    } = fixture;
    let object = reference(2);
    assert!(rt; tree.contains(links, object.place()));
    let mut cursor = tree.take().cursor_owning_from_ptr(links, object);
    let _ = cursor.insert(links, objects, reference(3));
    cursor.move_next(links);
    write_places(notes, &[cursor.get_ptr()]);
}

#[test]
fn cursors(rt: HostRuntime) {
    let alloc = rt.alloc();
    let mut notes = Text::new(alloc);
    {
        let mut fixture = tree_of(&rt, alloc, 3);
        write_ends(&mut notes, fixture.tree.take(), &fixture.links);
        write_linked(&mut notes, &fixture.links);
    }
    write_inserted(&mut notes, &mut tree_of(&rt, alloc, 3));
    write_kept(&rt, &mut notes, &mut tree_of(&rt, alloc, 3));
    assert_words(&rt, &notes, "none 2  none 0 2  yes 0 1 2  3  3");
}
