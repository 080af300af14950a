//! This module has the calls that make one red-black tree from two trees, and two trees from one. All members stay linked.
//!
//! ```text
//! append(table, tree, given)  // OK: the members of `given` come after those of `tree`, and `given` is empty
//! join(table, tree, 7, given) // OK: so does 7, between both
//! split(table, tree, 7, rest) // OK: `tree` has the members before 7, and `rest` has 7 and all after it
//! ```

ghost use Rattle.ic_raw.specs.Words.{place_of};
ghost use Rattle.ic_raw_trees.specs.TreeMoveCalls.{AppendCall, JoinCall, SplitCall};

use crate::faults::{member_fault, place_fault};
use crate::shown::{has_member, represents_both, tree_of, write_back};
use ic_raw::{BROKEN, MarkedTree, NULL, OK, OUT_OF_RANGE, RawRoot, RawThree, place_of};
use ic_unsafe_ref::UnsafeRef;

/// Moves all members of `given` after the members of `tree`, in their order, and leaves `given` empty. O(n), because the call checks both trees first. The same
/// edit in Rattle needs no check and takes O(log n), because types guarantee the links there.
///
/// The call compares no keys. If the words do not represent two trees that share no member, the call returns [`BROKEN`](ic_raw::BROKEN).
pub fn append(table: &mut [RawThree], tree: &mut RawRoot, given: &mut RawRoot) -> u32
    ensures { AppendCall table.old table.new tree.old tree.new result given.old given.new }
{
    let mut links = MarkedTree::new(table);
    let mut edited = tree_of(&*tree);
    let mut moved = tree_of(&*given);
    if !represents_both(&links, &edited, &moved) {
        return BROKEN;
    }
    edited.append(&mut links, &mut moved);
    write_back(tree, &edited);
    write_back(given, &moved);
    OK
}

/// Inserts a place after all members of `tree`, moves all members of `given` after the inserted place, and leaves `given` empty. O(n), because the call checks
/// both trees first. The same edit in Rattle needs no check and takes O(log n), because types guarantee the links there.
///
/// The call compares no keys. The place must belong to the table and must not be linked. If the words do not represent two trees that share no
/// member, the call returns [`BROKEN`](ic_raw::BROKEN).
pub fn join(table: &mut [RawThree], tree: &mut RawRoot, place: u32, given: &mut RawRoot) -> u32
    ensures { JoinCall table.old table.new tree.old tree.new result (place_of place) given.old given.new }
{
    let Some(object) = place_of(place) else {
        return OUT_OF_RANGE;
    };
    let fault = place_fault(table, object);
    if fault != OK {
        return fault;
    }
    let mut links = MarkedTree::new(table);
    let mut edited = tree_of(&*tree);
    let mut later = tree_of(&*given);
    if !represents_both(&links, &edited, &later) {
        return BROKEN;
    }
    let _ = edited.join(&mut links, UnsafeRef::new(object), &mut later); // proved: it is not linked
    write_back(tree, &edited);
    write_back(given, &later);
    OK
}

/// Keeps the members before the member `at` in `tree`, and moves `at` and all members after `at` to `rest`, which must be empty. The call returns
/// [`NULL`](ic_raw::NULL) if `at` is [`NONE`](ic_raw::NONE). O(n), because the call checks the tree first. The same edit in Rattle needs no check and takes
/// O(log n), because types guarantee the links there.
///
/// The call compares no keys. If the words do not represent a tree of which `at` is a member, or if `rest` has a root, the call returns
/// [`BROKEN`](ic_raw::BROKEN).
pub fn split(table: &mut [RawThree], tree: &mut RawRoot, at: u32, rest: &mut RawRoot) -> u32
    ensures { SplitCall table.old table.new tree.old tree.new result (place_of at) rest.old rest.new }
{
    let Some(member) = place_of(at) else {
        return NULL;
    };
    let fault = member_fault(table, member);
    if fault != OK {
        return fault;
    }
    let mut links = MarkedTree::new(table);
    let mut edited = tree_of(&*tree);
    if tree_of(&*rest).root().is_some() {
        return BROKEN;
    }
    if !has_member(&links, &edited, member) {
        return BROKEN;
    }
    let handed = edited.split_off(&mut links, &UnsafeRef::new(member));
    write_back(tree, &edited);
    write_back(rest, &handed);
    OK
}
