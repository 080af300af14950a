//! Tests of two trees in one table of summaries. If a member is inserted into one of the trees or removed from it, all summaries of the other tree stay
//! fresh.

ghost use Rattle.std.specs.Prelude.{◌≡◌, ◌<◌, ◌≤◌, None};
ghost use Rattle.ic_link_ops.specs.Prelude.{Place, index_of, IsCovered};
ghost use Rattle.ic_rbtree.specs.Tree.{root_of};
ghost use Rattle.ic_augmented.specs.Prelude.{counts, links_of, summaries_of, room_of};
ghost use Rattle.collections_tests.specs.Filled.{IsFilled};

use crate::notes::assert_words;
use crate::tree::trees::OwnKey;
use ic_augmented::{Augmented, Counts, insert_fresh, nth, remove_fresh};
use ic_link_ops::LinkValues;
use ic_link_ops::rbtree::{LinkOpsWith, RBTreeOps};
use ic_rbtree::RBTree;
use ic_test_support::answers::write_places;
use ic_test_support::notes::Text;
use ic_test_support::objects::reference;
use std::alloc::Global;
use std::process::Abort;

// Inserts the objects at the first `members` places into the tree.
fn fill<L: RBTreeOps + LinkValues<u64>>(
    rt: &impl Abort,
    tree: &mut RBTree<OwnKey>,
    summed: &mut Augmented<L, Counts>,
    members: usize,
)
    requires few { members < 4 }
    requires none { IsFilled L.node L.table (root_of tree.old) summed.old 0 }
    ensures filled { IsFilled L.node L.table (root_of tree.new) summed.new members }
{
    for index in 0..members {
        let next = reference(index);
        let put = insert_fresh(tree, summed, next);
        assert!(rt; put.is_ok());
    }
}

// Fills the first of two trees, inserts the object at the next place into the second tree, and removes it again if `leaves` is true. Then it notes the
// first tree's member at position 0. No call computes the counts of the first tree again after the edits of the second tree.
fn play<L: RBTreeOps + LinkValues<u64>>(
    rt: &impl Abort,
    notes: &mut Text,
    summed: &mut Augmented<L, Counts>,
    members: usize,
    leaves: bool,
)
    requires few { members < 4 }
    requires covers { (L.table (links_of summed.old)).extent.places ≡ 4 }
    requires room { (q : Place) → IsCovered (L.table (links_of summed.old)) q → index_of q < room_of (summaries_of summed.old) }
    requires stale { (q : Place) → (counts (summaries_of summed.old)).fresh q ≡ None }
{
    let mut first = RBTree::new(OwnKey);
    fill(rt, &mut first, summed, members);
    let mut second = RBTree::new(OwnKey);
    let object = reference(members);
    let beside = insert_fresh(&mut second, summed, object);
    assert!(rt; beside.is_ok());
    if leaves {
        let leaving = reference(members);
        remove_fresh(&mut second, summed, &leaving);
    }
    write_places(notes, &[nth(&first, &*summed, 0)]);
}

// Returns counts with room for four places. The count of each place is still stale.
fn four_counts(rt: &impl Abort, alloc: Global) -> Counts
    ensures room { 4 ≤ room_of result }
    ensures stale { (q : Place) → (counts result).fresh q ≡ None }
{
    let mut summaries = Counts::new(alloc);
    let covered = summaries.cover(4);
    assert!(rt; covered.is_ok());
    summaries
}

// Calls `play` with a new table that covers four places, and compares the notes with the expected words.
fn assert_played(rt: &impl Abort, alloc: Global, members: usize, leaves: bool, words: &str)
    requires few { members < 4 }
{
    let mut notes = Text::new(alloc);
    let mut links: LinkOpsWith<u64> = LinkOpsWith::new(alloc);
    let _ = links.cover(4);
    assert!(rt; links.covers() == 4);
    let summaries = four_counts(rt, alloc);
    let mut summed = Augmented { links, summaries };
    play(rt, &mut notes, &mut summed, members, leaves);
    assert_words(rt, &notes, words);
}

// A member is inserted into the second tree of a table, and the first tree must still find its member by the position 0.
// Promise: a tree stays summed while another one of its table gets a member.
#[test]
fn a_tree_beside_another(rt: HostRuntime) {
    assert_played(&rt, rt.alloc(), 1, false, "0");
}

// A member is inserted into the second tree of a table and removed again, and the first tree must still find its member by the position 0. The first tree
// has three members. The member at position 0 is then below the root, and is found by the counts.
// Promise: a tree stays summed while another one of its table loses a member.
#[test]
fn a_removal_beside_another(rt: HostRuntime) {
    assert_played(&rt, rt.alloc(), 3, true, "0");
}
