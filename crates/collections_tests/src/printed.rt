//! A test of the texts that lists, trees and links print.

use crate::doubly::DoublyFixture;
use crate::lists::list_of;
use crate::tree::trees::tree_of;
use ic_test_support::objects::place_at;

// The test prints a list on one line, a tree with each object on a line of its own, and the link of the first member of the list. The link must print
// `linked`, and after the removal of the member `unlinked`.
// Promise: text of an entry, text of a list.
#[test]
fn printed(rt: HostRuntime) {
    let alloc = rt.alloc();
    let mut lists: DoublyFixture = list_of(&rt, alloc, 4);
    {
        let trees = tree_of(&rt, alloc, 2);
        let list = lists.list.debug(&lists.links, &lists.objects);
        let tree = trees.tree.debug(&trees.links, &trees.objects);
        let link = lists.links.link(place_at(0));
        let text = format!(in alloc; "{list:?} {tree:#?} {link:?}");
        let text = text.expect(&rt, "memory for a text");
        assert!(rt; text.as_str() == "[10, 20, 30, 40] [\n    10,\n    20,\n] linked");
    }
    let _ = lists.list.pop_front(&mut lists.links);
    assert!(rt; lists.links.covers() == 8);
    let link = lists.links.link(place_at(0));
    let text = format!(in alloc; "{link:?}").expect(&rt, "memory for a text");
    assert!(rt; text.as_str() == "unlinked");
}
