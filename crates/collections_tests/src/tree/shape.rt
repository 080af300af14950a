//! A test of the shape of a tree. The test reads the shape from the table of the tree's links.

ghost use Rattle.std.specs.Prelude.{◌≡◌, ◌<◌};
ghost use Rattle.ic_rbtree.specs.Prelude.{plain_table, PlainRepresentsSome, root_of};

use crate::notes::assert_words;
use crate::tree::trees::{TreeFixture, filled, tree_of};
use ic_link_ops::rbtree::LinkOps;
use ic_rbtree::{Color, RBTreeOps};
use ic_test_support::answers::{number, write_places};
use ic_test_support::notes::{Answer, Text};
use ic_test_support::objects::reference;
use ic_unsafe_ref::Place;

// Notes the entry of the table at each place. For example, `3b 1 none 19` means that the member 3 is black, that its left child is 1, that it has no
// right child, and that its third word is 19. If a place is not linked, only its third word is noted.
fn write_links(notes: &mut Text, links: &LinkOps) {
    for index in 0..links.covers() {
        let Some(place) = Place::new(index) else {
            return;
        };
        if links.is_linked(place) {
            let color = match links.color(place) {
                Color::Red => "r ",
                Color::Black => "b ",
            };
            notes.add(number(place), color);
            write_places(notes, &[links.left(place), links.right(place)]);
        }
        notes.add(Answer::Number(links.link(place).words()[2]), " ");
    }
}

// Removes the object at the place with the index `leaving`, if it is a member, and notes the position of the cursor after the removal. Then it notes the
// shape of the tree.
fn write_without(notes: &mut Text, fixture: &mut TreeFixture, leaving: usize)
    requires few { leaving < 8 }
    requires covers { (plain_table fixture.old.links).extent.places ≡ 8 }
    requires shown { PlainRepresentsSome fixture.old.links (root_of fixture.old.tree) }
{
    let object = reference(leaving);
    if fixture.tree.contains(&fixture.links, object.place()) {
        let mut cursor = fixture.tree.cursor_mut_from_ptr(&mut fixture.links, object);
        let _ = cursor.remove();
        write_places(notes, &[cursor.get_ptr()]);
    }
    write_links(notes, &fixture.links);
}

// The index of the place of the member that each round of the test removes. The number 7 means that the round removes no member.
const LEAVING: &[usize] = &[7, 0, 3, 1, 6];

// The test compares the shape of a tree of seven members, which are inserted in rising order, with the expected one. Then it compares the shapes after
// the removal of the first member, of the root's right child, of the root, and of a red leaf. At last it compares the shape of seven members that are
// inserted in falling order.
// Promise: shape of seven members in order, shape without the first, shape without the fourth, shape of seven members from the back.
// Promise: third words of seven members.
#[test]
fn shapes(rt: HostRuntime) {
    let alloc = rt.alloc();
    let mut notes = Text::new(alloc);
    for leaving in LEAVING {
        write_without(&mut notes, &mut tree_of(&rt, alloc, 7), *leaving % 8);
    }
    let mut fixture = tree_of(&rt, alloc, 0);
    fixture.tree = filled(&mut fixture.links, 7, true);
    write_links(&mut notes, &fixture.links);
    assert_words(
        &rt,
        &notes,
        "0b none none 11  1b 0 3 3  2b none none 19  3r 2 5 10  4r none none 26  5b 4 6 19  6r none none 26  0
        1  0  1b none 2 19  2r none none 10  3b 1 5 3  4r none none 26  5b 4 6 19  6r none none 26  0
        4  0b none none 11  1b 0 4 3  2b none none 23  0  4r 2 5 10  5b none 6 23  6r none none 26  0
        2  0b none none 15  0  2b 0 5 3  3b none 4 27  4r none none 18  5r 3 6 14  6b none none 27  0
        none  0b none none 11  1b 0 3 3  2b none none 19  3r 2 5 10  4r none none 26  5b 4 none 19  0  0
        0b none none 11  1b 3 0 3  2b none none 19  3r 5 2 10  4r none none 26  5b 6 4 19  6r none none 26  0",
    );
}
