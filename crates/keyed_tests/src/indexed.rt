//! A test of objects that are found by a key and also have an order, in which objects can be inserted at both ends. The container of unique keys
//! inserts objects only at the front.

use crate::asserts::assert_same;
use crate::unique_keys::calls::Page;
use ic_indexed::{Indexed, TreeIndexed};

// The test inserts a page at the front and a page at the back. The first and the last page must be right, and a search by number must find only these
// pages.
// Promise: objects at both ends of an order.
#[test]
fn pages_at_both_ends(rt: HostRuntime) {
    let mut pages: TreeIndexed<Page> = Indexed::new(rt.alloc());
    let front = pages.place_front(Page {
        number: 2,
        size: 20,
    });
    let back = pages.place_back(Page {
        number: 1,
        size: 10,
    });
    let (Ok(front), Ok(back)) = (front, back) else {
        panic!(rt; "no memory");
    };
    assert_same(&rt, pages.first(), Some(front.place()));
    assert_same(&rt, pages.last(), Some(back.place()));
    assert_same(&rt, pages.place_of(1), Some(back.place()));
    assert_same(&rt, pages.place_of(3), None);
}
