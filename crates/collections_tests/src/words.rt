//! Tests of the words of the links of an XOR list. The word of a member is the exclusive or of the numbers of its two neighbors. The number of a place
//! is `2 * (index + 1)`, and 0 means that there is no neighbor. The word 1 means that a place is unlinked.

use crate::lists::{ListFixture, list_of};
use crate::notes::{assert_words, write_object};
use crate::xor::XorFixture;
use ic_link_ops::rbtree::ThreeWords;
use ic_link_ops::xor_linked_list::LinkOps;
use ic_test_support::notes::{Answer, Text};
use ic_test_support::objects::place_at;
use ic_unsafe_ref::Place;
use ic_xor_linked_list::XorLinked;

// Notes the words of all places that are covered.
fn write_words(notes: &mut Text, links: &LinkOps) {
    for index in 0..links.covers() {
        if let Some(place) = Place::new(index) {
            notes.add(Answer::Number(links.link(place).word()), " ");
        }
    }
}

// The words of a list of the places 0, 1 and 2 must be right before and after the member 1 is removed.
// Promise: words of an XOR list, words after a removal.
#[test]
fn words_of_an_xor_list(rt: HostRuntime) {
    let alloc = rt.alloc();
    let mut notes = Text::new(alloc);
    let mut fixture: XorFixture = list_of(&rt, alloc, 3);
    write_words(&mut notes, &fixture.links);
    {
        let mut cursor = fixture.list.front_mut(&mut fixture.links);
        cursor.move_next();
        write_object(&mut notes, cursor.remove());
    }
    write_words(&mut notes, &fixture.links);
    assert_words(&rt, &notes, "4 4 4 1 1 1 1 1  1  6 1 2 1 1 1 1 1");
}

// A list of the places 0, 1 and 2 in a table of tree links must have right words. Each link has the list's word on the right. Its third word must mean
// that the place is linked, black and without a parent.
// Promise: an XOR list in a table of trees.
#[test]
fn words_of_an_xor_list_in_a_tree_table(rt: HostRuntime) {
    let alloc = rt.alloc();
    let mut notes = Text::new(alloc);
    let fixture: ListFixture<XorLinked, ThreeWords> = list_of(&rt, alloc, 3);
    for index in 0..3 {
        let [_, right, third] = fixture.links.link(place_at(index)).words();
        notes.add(Answer::Number(right), " ");
        notes.add(Answer::Number(third), " ");
    }
    assert_words(&rt, &notes, "4 3  4 3  4 3");
}
