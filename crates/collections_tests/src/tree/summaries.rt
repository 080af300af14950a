//! Tests of the summaries of a tree. After each edit and a `refresh`, the summaries of the members must be right. The tests use trees with and without kept
//! ends, and two kinds of summaries.

ghost use Rattle.std.specs.Prelude.{◌≡◌, ◌<◌, true, List};
ghost use Rattle.ic_link_ops.specs.Prelude.{Place, index_of, is_placed, HasMember};
ghost use Rattle.ic_rbtree.specs.Kept.{IsEmptied, RepresentsKept, RepresentsKeptSome};
ghost use Rattle.ic_rbtree.specs.Tree.{head_of, root_in};
ghost use Rattle.ic_augmented.specs.Prelude.{RepresentsAugmented, links_of, summaries_of, room_of};
ghost use Rattle.collections_tests.specs.Ready.{IsReady};

use crate::notes::assert_words;
use crate::tree::trees::OwnKey;
use ic_augmented::{
    Augmented, AugmentedTable, Counts, Greatest, RecomputeSummaries, Summarize, first_greater,
    first_overlap, index_of, len, nth, refresh, set_value,
};
use ic_link_ops::rbtree::{self, RBTreeOps};
use ic_rbtree::{Entry, RBTree, RefusedInsert, TreeHead};
use ic_test_support::answers::write_places;
use ic_test_support::notes::{Answer, Text};
use ic_test_support::objects::{TENS, eight_objects, place_at, reference};
use ic_unsafe_ref::{Objects, UnsafeRef};
use std::alloc::Global;
use std::marker::Model;
use std::process::Abort;

// A kind of summaries that the tests use, with a function that notes what a test reads of these summaries.
trait Readings: RecomputeSummaries + Drop {
    // Notes what the test reads of the summaries of this tree.
    fn note<E: TreeHead, L: RBTreeOps>(
        notes: &mut Text,
        tree: &RBTree<OwnKey, E>,
        summed: &Augmented<L, Self>,
    )
        requires shown { (s : List Place) × RepresentsAugmented L.node (Self.summaries (summaries_of summed.now)) (L.table (links_of summed.now)) (root_in E.kept tree.now) s };
}

// Notes the number of members, and the member at each position. The position that is computed from that member must be the same position.
impl Readings for Counts {
    fn note<E: TreeHead, L: RBTreeOps>(
        notes: &mut Text,
        tree: &RBTree<OwnKey, E>,
        summed: &Augmented<L, Counts>,
    ) {
        let count = len(tree, summed);
        notes.add(Answer::Number(count), " ");
        for position in 0..count {
            let found = nth(tree, summed, position);
            write_places(notes, &[found]);
            if let Some(place) = found {
                if index_of(summed, place) != position {
                    notes.word("astray ");
                }
            }
        }
    }
}

// Notes the first member whose number is greater than 25, the first whose number is greater than 45, and the first whose number is greater than 65.
impl Readings for Greatest {
    fn note<E: TreeHead, L: RBTreeOps>(
        notes: &mut Text,
        tree: &RBTree<OwnKey, E>,
        summed: &Augmented<L, Greatest>,
    ) {
        write_places(
            notes,
            &[
                first_greater(tree, summed, 25),
                first_greater(tree, summed, 45),
                first_greater(tree, summed, 65),
            ],
        );
    }
}

/// Returns the member at this position. The test fails if the tree has no member there.
pub(crate) fn member_at<E: TreeHead, L: RBTreeOps>(
    rt: &impl Abort,
    tree: &RBTree<OwnKey, E>,
    links: &L,
    position: usize,
) -> UnsafeRef<u64>
    requires shown { RepresentsKeptSome E.kept L.node (L.table links.now) (head_of tree.now) }
    ensures member { HasMember (RepresentsKept E.kept L.node (L.table links.now) (head_of tree.now)) result }
{
    let mut cursor = tree.front(links);
    for _step in 0..position {
        cursor.move_next();
    }
    UnsafeRef::new(cursor.get_ptr().expect(rt, "a member"))
}

// Inserts the object at the entry of its key, if no member has the key.
fn put_at_entry<E: TreeHead, L: RBTreeOps, M: RecomputeSummaries>(
    rt: &impl Abort,
    tree: &mut RBTree<OwnKey, E>,
    summed: &mut Augmented<L, M>,
    objects: &Objects<u64>,
    key: u64,
    object: UnsafeRef<u64>,
)
    requires few { index_of object < 8 }
    requires placed { (q : Place) → index_of q < 8 → is_placed objects.now q ≡ true }
    requires ready { IsReady E.kept L.node L.table M.summaries M.Covers tree.old summed.old }
    ensures ready { IsReady E.kept L.node L.table M.summaries M.Covers tree.new summed.new }
{
    match tree.entry(summed, objects, &key) {
        Entry::Occupied(_found) => {}
        vacant => match vacant.or_insert(object) {
            Ok(_cursor) => {}
            Err(
                RefusedInsert {
                    gap: _gap,
                    object: _object,
                },
            ) => panic!(rt; "the object is linked"),
        },
    }
}

// One edit of a tree. If the edit inserts an object, its last number is the index of the object's place. Each other number is the position of a member, or
// the key of an `AtEntry`.
enum Edit {
    ByKey(usize),
    AtEntry(u64, usize),
    WithHint(usize, usize),
    Before(usize, usize),
    Replace(usize, usize),
    RemoveAt(usize),
    Remove(usize),
    PopFront,
    PopBack,
    Parts(usize),
    Join(usize, usize),
    Clear,
}

// Returns the reference to the object at one of the eight places.
fn eighth(place: usize) -> UnsafeRef<u64>
    ensures { index_of result < 8 }
{
    reference(place % 8)
}

// The edits of a test. The comment of each edit lists the members that the tree has after the edit.
const EDITS: &[Edit] = &[
    Edit::ByKey(3), // 3
    Edit::WithHint(0, 1), // 1 3: before the hint
    Edit::WithHint(0, 6), // 1 3 6: elsewhere
    Edit::ByKey(5), // 1 3 5 6
    Edit::WithHint(2, 4), // 1 3 4 5 6
    Edit::WithHint(4, 0), // 0 1 3 4 5 6
    Edit::Before(2, 2), // 0 1 2 3 4 5 6
    Edit::Replace(5, 7), // 0 1 2 3 4 7 6
    Edit::RemoveAt(1), // 0 2 3 4 7 6
    Edit::Remove(3), // 0 2 3 7 6
    Edit::PopFront, // 2 3 7 6
    Edit::PopBack, // 2 3 7
    Edit::Before(0, 6), // 6 2 3 7
    Edit::Before(3, 5), // 6 2 3 5 7
    Edit::Parts(2), // 6 2 and 3 5 7, and then 6 2 3 5 7
    Edit::Join(1, 1), // 6 1 2 3 5 7
    Edit::Clear, // none
    Edit::ByKey(2), // 2
    Edit::AtEntry(40, 3), // 2 3
    Edit::AtEntry(10, 0), // 0 2 3
    Edit::AtEntry(30, 5), // 0 2 3: the member at 2 has that key
];

// A tree with its objects, its links and its summaries. The links and summaries have room for the places 0 to 7, and there is an object at each of these
// places. Each fresh summary is right.
#[derive(Drop)]
struct SummedTree<E: TreeHead, L: RBTreeOps, M: Readings> {
    objects: Objects<u64>,
    summed: Augmented<L, M>,
    tree: RBTree<OwnKey, E>,
}

impl<E: TreeHead, L: RBTreeOps, M: Readings> Model for SummedTree<E, L, M> {
    ghost use Rattle.std.specs.Prelude.{⊤};
    ghost use Rattle.collections_tests.specs.Ready.{IsKept};

    ghost Value = { ⊤ };

    ghost view = { λ tree. tt };

    ghost invariant = { λ tree. IsKept E.kept L.node L.table M.summaries M.Covers tree.objects tree.tree tree.summed };
}

// In each method, `place` is the index of the place of the inserted object, and `position` is the position of the member at which the edit is made.
impl<E: TreeHead, L: RBTreeOps, M: Readings> SummedTree<E, L, M> {
    // Inserts the object at the position of its key.
    fn insert(&mut self, rt: &impl Abort, place: usize) {
        let object = eighth(place);
        let inserted = self.tree.insert(&mut self.summed, &self.objects, object);
        assert!(rt; inserted.is_ok());
    }

    // Inserts the object at the entry of the key, if no member has the key.
    fn insert_at_entry(&mut self, rt: &impl Abort, key: u64, place: usize) {
        let object = eighth(place);
        put_at_entry(
            rt,
            &mut self.tree,
            &mut self.summed,
            &self.objects,
            key,
            object,
        );
    }

    // Inserts the object at the position of its key, with a member as the hint.
    fn insert_with_hint(&mut self, rt: &impl Abort, position: usize, place: usize) {
        let object = eighth(place);
        let hint = member_at(rt, &self.tree, &self.summed, position);
        let inserted = self
            .tree
            .insert_with_hint(&mut self.summed, &self.objects, &hint, object);
        assert!(rt; inserted.is_ok());
    }

    // Inserts the object before a member, by a cursor.
    fn insert_before(&mut self, rt: &impl Abort, position: usize, place: usize) {
        let object = eighth(place);
        let member = member_at(rt, &self.tree, &self.summed, position);
        let mut cursor = self.tree.cursor_mut_from_ptr(&mut self.summed, member);
        let inserted = cursor.insert_before(object);
        assert!(rt; inserted.is_ok());
    }

    // Replaces a member by the object, with a cursor.
    fn replace(&mut self, rt: &impl Abort, position: usize, place: usize) {
        let object = eighth(place);
        let member = member_at(rt, &self.tree, &self.summed, position);
        let mut cursor = self.tree.cursor_mut_from_ptr(&mut self.summed, member);
        let replaced = cursor.replace_with(object);
        assert!(rt; replaced.is_ok());
    }

    // Removes a member, by a cursor.
    fn remove_by_cursor(&mut self, rt: &impl Abort, position: usize) {
        let member = member_at(rt, &self.tree, &self.summed, position);
        let mut cursor = self.tree.cursor_mut_from_ptr(&mut self.summed, member);
        let _ = cursor.remove();
    }

    // Removes a member, by its reference.
    fn remove(&mut self, rt: &impl Abort, position: usize) {
        let member = member_at(rt, &self.tree, &self.summed, position);
        self.tree.remove(&mut self.summed, &member);
    }

    // Removes the first member, if there is one.
    fn pop_front(&mut self) {
        let _ = self.tree.pop_front(&mut self.summed);
    }

    // Removes the last member, if there is one.
    fn pop_back(&mut self) {
        let _ = self.tree.pop_back(&mut self.summed);
    }

    // Removes all members.
    fn clear(&mut self) {
        self.tree.clear(&mut self.summed);
    }

    // Splits the tree before a member, notes the summaries of both parts, and appends the second part to the first one again.
    fn write_parts(&mut self, rt: &impl Abort, notes: &mut Text, position: usize) {
        let member = member_at(rt, &self.tree, &self.summed, position);
        let mut rest = self.tree.split_off(&mut self.summed, &member);
        refresh(&self.tree, &mut self.summed);
        M::note(notes, &self.tree, &self.summed);
        refresh(&rest, &mut self.summed);
        M::note(notes, &rest, &self.summed);
        self.tree.append(&mut self.summed, &mut rest);
    }

    // Splits the tree before a member, and appends the second part to the first one again, with the object between both parts.
    fn join(&mut self, rt: &impl Abort, position: usize, place: usize) {
        let object = eighth(place);
        let member = member_at(rt, &self.tree, &self.summed, position);
        let mut rest = self.tree.split_off(&mut self.summed, &member);
        let joined = self.tree.join(&mut self.summed, object, &mut rest);
        assert!(rt; joined.is_ok());
    }

    // Makes the edit.
    fn make(&mut self, rt: &impl Abort, notes: &mut Text, edit: &Edit) {
        match edit {
            Edit::ByKey(place) => self.insert(rt, *place),
            Edit::AtEntry(key, place) => self.insert_at_entry(rt, *key, *place),
            Edit::WithHint(at, place) => self.insert_with_hint(rt, *at, *place),
            Edit::Before(at, place) => self.insert_before(rt, *at, *place),
            Edit::Replace(at, place) => self.replace(rt, *at, *place),
            Edit::RemoveAt(at) => self.remove_by_cursor(rt, *at),
            Edit::Remove(at) => self.remove(rt, *at),
            Edit::PopFront => self.pop_front(),
            Edit::PopBack => self.pop_back(),
            Edit::Parts(at) => self.write_parts(rt, notes, *at),
            Edit::Join(at, place) => self.join(rt, *at, *place),
            Edit::Clear => self.clear(),
        }
    }

    // Updates the summaries, and notes what the test reads of them.
    fn write_summaries(&mut self, notes: &mut Text) {
        refresh(&self.tree, &mut self.summed);
        M::note(notes, &self.tree, &self.summed);
    }

    // Makes all edits, and notes the summaries after each edit.
    fn play(&mut self, rt: &impl Abort, notes: &mut Text) {
        for edit in EDITS {
            self.make(rt, notes, edit);
            self.write_summaries(notes);
        }
    }
}

// Sets the number of a place.
fn set_number<E: TreeHead, L: RBTreeOps>(
    numbered: &mut SummedTree<E, L, Greatest>,
    place: usize,
    number: u64,
)
    requires few { place < 8 }
{
    set_value(&mut numbered.summed, place_at(place), number);
}

// Notes the first member that overlaps 15 to 35, the first that overlaps 45 to 50, and the first that overlaps 20 to 30. The interval of a member goes
// from the value of its object to its number.
fn write_overlaps<E: TreeHead, L: RBTreeOps>(
    notes: &mut Text,
    numbered: &SummedTree<E, L, Greatest>,
) {
    let (tree, summed, objects) = (&numbered.tree, &numbered.summed, &numbered.objects);
    for (from, to) in [(15, 35), (45, 50), (20, 30)] {
        write_places(notes, &[first_overlap(tree, summed, objects, from, to)]);
    }
}

// Returns summaries with room for the places 0 to 7.
fn eight_summaries<V: Summarize<u64>>(rt: &impl Abort, alloc: Global) -> AugmentedTable<V, u64>
    ensures room { (q : Place) → index_of q < 8 → index_of q < room_of result }
{
    let mut summaries: AugmentedTable<V, u64> = AugmentedTable::new(alloc);
    let covered = summaries.cover(8);
    assert!(rt; covered.is_ok());
    summaries
}

// Returns the empty tree with these summaries, over the objects 10 to 80.
fn over_tens<E: TreeHead, M: Readings>(
    rt: &impl Abort,
    alloc: Global,
    tree: RBTree<OwnKey, E>,
    summaries: M,
) -> SummedTree<E, rbtree::LinkOps, M>
    requires empty { IsEmptied (E.kept (head_of tree)) }
    requires room { (q : Place) → index_of q < 8 → M.Covers summaries q }
{
    let (objects, links): (_, rbtree::LinkOps) = eight_objects(alloc, TENS).expect(rt, "memory");
    SummedTree {
        objects,
        summed: Augmented { links, summaries },
        tree,
    }
}

// Makes all edits in an empty tree with counts. After each edit, the number of members and the member at each position must be right.
fn play_counts<E: TreeHead>(rt: &impl Abort, alloc: Global, tree: RBTree<OwnKey, E>)
    requires empty { IsEmptied (E.kept (head_of tree)) }
{
    let mut notes = Text::new(alloc);
    let summaries: Counts = eight_summaries(rt, alloc);
    let mut summed = over_tens(rt, alloc, tree, summaries);
    summed.play(rt, &mut notes);
    assert_words(
        rt,
        &notes,
        "1 3
        2 1 3
        3 1 3 6
        4 1 3 5 6
        5 1 3 4 5 6
        6 0 1 3 4 5 6
        7 0 1 2 3 4 5 6
        7 0 1 2 3 4 7 6
        6 0 2 3 4 7 6
        5 0 2 3 7 6
        4 2 3 7 6
        3 2 3 7
        4 6 2 3 7
        5 6 2 3 5 7
        2 6 2  3 3 5 7  5 6 2 3 5 7
        6 6 1 2 3 5 7
        0
        1 2
        2 2 3
        3 0 2 3
        3 0 2 3",
    );
}

// The numbers at the places 0 to 7.
const NUMBERS: [u64; 8] = [20, 40, 30, 60, 80, 70, 50, 10];

// Makes all edits in an empty tree whose places have numbers. After each edit, the first members with a number above 25, above 45 and above 65 must be
// right.
fn play_greatest<E: TreeHead>(rt: &impl Abort, alloc: Global, tree: RBTree<OwnKey, E>)
    requires empty { IsEmptied (E.kept (head_of tree)) }
{
    let mut notes = Text::new(alloc);
    let summaries: Greatest = eight_summaries(rt, alloc);
    let mut summed = over_tens(rt, alloc, tree, summaries);
    for place in 0..8 {
        set_number(&mut summed, place, NUMBERS[place]);
    }
    summed.play(rt, &mut notes);
    write_overlaps(&mut notes, &summed);
    assert_words(
        rt,
        &notes,
        "3 3 none
        1 3 none
        1 3 none
        1 3 5
        1 3 4
        1 3 4
        1 3 4
        1 3 4
        2 3 4
        2 3 none
        2 3 none
        2 3 none
        6 6 none
        6 6 5
        6 6 none  3 3 5  6 6 5
        6 6 5
        none none none
        2 none none
        2 3 none
        2 3 none
        2 3 none
        0 3 none",
    );
}

// The test makes all edits in a tree that keeps its ends and in a tree that does not. After each edit the counts of the members must be right.
// Promise: counts after each edit.
#[test]
fn counts_after_each_edit(rt: HostRuntime) {
    let alloc = rt.alloc();
    play_counts(&rt, alloc, RBTree::new(OwnKey));
    play_counts(&rt, alloc, RBTree::with_ends(OwnKey));
}

// The test makes all edits in a tree that keeps its ends and in a tree that does not. After each edit the first members with a number above each bound must
// be right.
// Promise: greatest numbers after each edit.
#[test]
fn greatest_after_each_edit(rt: HostRuntime) {
    let alloc = rt.alloc();
    play_greatest(&rt, alloc, RBTree::new(OwnKey));
    play_greatest(&rt, alloc, RBTree::with_ends(OwnKey));
}
