//! The functions of this module search a tree by keys, and insert a place where its key belongs, over a view of the table.
//!
//! ```text
//! let member = find(&links, &tree, keys, key, Target::AtLeast);
//! ```

ghost use Rattle.std.specs.Prelude.{◌≡◌, ◌≢◌, ◌⊎◌, ◌≤◌, ◌∷◌, [], List, Bool, Option, Some, length, None, IfSome, true, false};
ghost use Rattle.ic_link_ops.specs.Prelude.{Place, is_placed, at_indexes, Cut, join, LinksAlso};
ghost use Rattle.ic_link_ops.specs.Frames.{child_on};
ghost use Rattle.ic_link_ops.specs.RedBlackTree as trees;
ghost use Rattle.ic_rbtree.specs.Prelude.{IsIn, AreIn, IsClosed, goes_left, gap_in, side_of, InsertsInOrder, root_of};
ghost use Rattle.ic_raw.specs.declared.status.TheConstants.{OK, NULL};
ghost use Rattle.ic_raw.specs.Answers.{HandsOut, refusal};
ghost use Rattle.ic_raw.specs.Gaps.{IsNoneOrLinked};
ghost use Rattle.ic_raw.specs.declared.search.InsertPos.{InsertPos};
ghost use Rattle.ic_raw.specs.Keys.{against, key_of, keys_fault, at_root, past, EndsIn, EndsBelow, HasTurned, IsTarget, Meets, NamesTarget, equals_of, SearchEnds};
ghost use Rattle.ic_raw.specs.Seen.{seen, seen_node, named_within, has_place, StaysWithin, HandsOutReached};
ghost use Rattle.ic_raw.specs.Surgery.{ReportsInsertion};
ghost use Rattle.ic_raw.specs.Tables.{IsFree, place_fault};
ghost use Rattle.ic_raw.specs.Tree.{Represents, IsInsertPos, lent_table};
ghost use Rattle.ic_raw.specs.Words.{is_linked_three, place_in, place_of};

use crate::status::{BROKEN, NONE, OUT_OF_RANGE};
use crate::surgery::Surgery;
use crate::table::RawTable;
use crate::tree::{self, Tree};
use crate::words::RawThree;
use ic_link_ops::{PlaceWord, Side, Words};
use ic_rbtree::NodeStore;
use ic_unsafe_ref::{Place, Values};
use std::cmp::Ordering;

// A search makes at most this many turns of its loop, with at most three comparisons in each turn. In a valid red-black tree every way down is
// shorter.
const TURNS: u32 = 22;

/// Says which member a search by a key returns.
#[derive(Clone, Copy)]
pub enum Target {
    /// The search returns the first member with the key.
    Equal,
    /// The search returns the first member whose key is at least the given key.
    AtLeast,
    /// The search returns the last member whose key is at most the given key.
    AtMost,
}

/// The gap between two members that a search from the root has reached.
#[derive(Drop)]
pub struct InsertPos {
    // The member that has the gap on one of its sides, or `None` in an empty tree. `side` is the side of this member on which the gap is.
    parent: PlaceWord,
    side: Side,
    // The members before and after the gap.
    front: PlaceWord,
    back: PlaceWord,
}

// The words for both children of a place, and the word for the child to which a search goes.
#[derive(Clone, Copy)]
struct Children {
    left: u64,
    right: u64,
    picked: u64,
}

// Returns whether there is a key for each place, and the root is `None` or linked.
#[inline]
pub(crate) fn is_searchable(links: &RawTable<'_, RawThree>, tree: &Tree, keys: &[u64]) -> bool
    ensures keys { result ≡ true → (lent_table links.now).extent.places ≤ length keys.now }
    ensures root { result ≡ true → IsNoneOrLinked is_linked_three (lent_table links.now) (root_of tree.now) }
    ensures shown { (s : List Place) → Represents (lent_table links.now) (root_of tree.now) s
        → (lent_table links.now).extent.places ≤ length keys.now → result ≡ true }
{
    if keys.len() < links.places() {
        return false;
    }
    links.stands(tree.root())
}

// Returns why a tree is not searched: the fault of the keys, or else [`BROKEN`].
#[cold]
#[inline(never)]
fn refusal(links: &RawTable<'_, RawThree>, keys: &[u64]) -> u32
    ensures refusal { result ≡ refusal (keys_fault keys.now (lent_table links.now).extent.places ∷ []) }
    ensures refused { (result ≢ OK) × (result ≢ NULL) }
{
    if keys.len() < links.places() {
        return OUT_OF_RANGE;
    }
    BROKEN
}

// Returns why a place is not inserted by its key: the fault of the keys, else the fault of the place, or else [`BROKEN`].
#[cold]
#[inline(never)]
pub(crate) fn refusal_of(links: &RawTable<'_, RawThree>, keys: &[u64], place: u32) -> u32
    ensures refusal { result ≡ refusal (keys_fault keys.now (lent_table links.now).extent.places
        ∷ place_fault is_linked_three (lent_table links.now) (place_of place) ∷ []) }
    ensures refused { (result ≢ OK) × (result ≢ NULL) }
{
    if keys.len() < links.places() {
        return OUT_OF_RANGE;
    }
    links.refusal(NONE, place)
}

// Compares the key `key` with the key of a place.
#[inline]
fn compare_at(keys: &[u64], key: u64, place: Place) -> Ordering
    requires { is_placed (at_indexes keys.now) place ≡ true }
    ensures { result ≡ against key keys.now place }
{
    key.cmp(keys.value(place))
}

// Returns whether a search goes to the left at a member. `order` is the result of the comparison of the searched key with the key of the member. If
// the two keys are equal, the search goes to the side `equals`.
#[inline]
fn goes_left(order: Ordering, equals: Side) -> bool
    ensures { result ≡ goes_left equals order }
{
    match equals {
        Side::Left => order.is_le(),
        Side::Right => order.is_lt(),
    }
}

impl InsertPos {
    // Returns the way of a search at its start, when it has not passed any member.
    #[inline]
    fn new() -> InsertPos
        ensures { result ≡ at_root }
    {
        InsertPos {
            parent: PlaceWord::of(None),
            side: Side::Left,
            front: PlaceWord::of(None),
            back: PlaceWord::of(None),
        }
    }

    // Goes down from the member `place` to its left side if `left` is true, or else to its right side.
    #[inline]
    fn pass(&mut self, place: Place, left: bool)
        ensures { self.new ≡ past self.old place left }
    {
        self.parent = PlaceWord::of(Some(place));
        if left {
            self.side = Side::Left;
            self.back = PlaceWord::of(Some(place));
        } else {
            self.side = Side::Right;
            self.front = PlaceWord::of(Some(place));
        }
    }

    // Returns whether a place can be inserted into the gap: the gap is below a linked place, or the tree has no root.
    #[inline]
    fn is_open(&self, links: &RawTable<'_, RawThree>, tree: &Tree) -> bool
        requires { IsIn (has_place (lent_table links.now)) self.now.parent }
        ensures { (cut : Cut) → Represents (lent_table links.now) (root_of tree.now) (join cut)
            → IsInsertPos self.now.side (lent_table links.now) self.now.parent cut → result ≡ true }
    {
        match self.parent.get() {
            None => tree.root().is_none(),
            Some(parent) => links.at(parent).is_linked(),
        }
    }
}

// Compares `key` with the key of `place`, and notes in `way` that the search passes `place`. The function picks the word for the child without a
// branch, because a processor would predict every second branch wrongly if the keys are in random order.
#[inline]
fn look_at(
    links: &RawTable<'_, RawThree>,
    keys: &[u64],
    key: u64,
    equals: Side,
    place: Place,
    way: &mut InsertPos,
) -> Children
    requires keys { (lent_table links.now).extent.places ≤ length keys.now }
    requires here { has_place (lent_table links.now) place ≡ true }
    ensures passed { way.new ≡ past way.old place (goes_left equals (against key keys.now place)) }
    ensures below { named_within (lent_table links.now).extent.places (place_in result.picked)
        ≡ child_on (side_of (goes_left equals (against key keys.now place))) (seen_node ((seen (lent_table links.now)).entry place)) }
    ensures either { (result.picked ≡ result.left) ⊎ (result.picked ≡ result.right) }
{
    let words = links.at(place);
    let (left, right) = (words.left, words.right);
    let goes_left = goes_left(compare_at(keys, key, place), equals);
    way.pass(place, goes_left);
    let picked = if goes_left { left } else { right };
    Children {
        left,
        right,
        picked,
    }
}

// Returns `way`, the way of a search that has come to its end. The condition of the `if` is never true, but it reads the words for both children.
// Without this condition the compiler would load only one of the two words, from an address that depends on the comparison.
#[inline]
fn end(children: Children, way: InsertPos) -> Option<InsertPos>
    requires { (children.picked ≡ children.left) ⊎ (children.picked ≡ children.right) }
    ensures { result ≡ Some way }
{
    let number = children.picked / 8 % 8_589_934_592 * 8;
    if number > children.left && number > children.right {
        return None;
    }
    Some(way)
}

// Goes down from the root to the gap where `key` belongs. At a member with an equal key the search goes to the side `equals`. The result is `None` if
// the way is longer than in any valid tree. [`RBTree::descend`](ic_rbtree::RBTree::descend) makes the same search with any probe, but only in a table
// that represents the tree. It also keeps the last equal member, which takes more instructions for each comparison.
#[inline]
fn descend(
    links: &RawTable<'_, RawThree>,
    tree: &Tree,
    keys: &[u64],
    key: u64,
    equals: Side,
) -> Option<InsertPos>
    requires keys { (lent_table links.now).extent.places ≤ length keys.now }
    requires root { IsNoneOrLinked is_linked_three (lent_table links.now) (root_of tree.now) }
    ensures ends { (s : List Place) (h : trees.Represents seen_node (seen (lent_table links.now)) (root_of tree.now) s)
        → (way : InsertPos) × (result ≡ Some way) × EndsIn (lent_table links.now) (gap_in (λ p. goes_left equals (against key keys.now p)) h.tree) way }
    ensures down { result ≢ None
        → EndsBelow (seen (lent_table links.now)) (λ p. goes_left equals (against key keys.now p)) (root_of tree.now) }
    ensures turned { IfSome result (λ way. HasTurned (λ p. goes_left equals (against key keys.now p)) way) }
    ensures in_closed_set { (S : Place → Bool) → IsClosed seen_node (seen (lent_table links.now)) (root_of tree.now) S
        → IfSome result (λ way. AreIn S (way.parent ∷ way.front ∷ way.back ∷ [])) }
{
    let mut way = InsertPos::new();
    let Some(root) = tree.root() else {
        return Some(way);
    };
    let mut place = root;
    for _ in 0..TURNS {
        let first = look_at(links, keys, key, equals, place, &mut way);
        let Some(second) = links.named(first.picked) else {
            return end(first, way);
        };
        let next = look_at(links, keys, key, equals, second, &mut way);
        let Some(third) = links.named(next.picked) else {
            return end(next, way);
        };
        let last = look_at(links, keys, key, equals, third, &mut way);
        let Some(below) = links.named(last.picked) else {
            return end(last, way);
        };
        place = below;
    }
    None
}

// Returns the side to which a search goes at a member whose key is equal to the searched key.
#[inline]
fn equals_of(target: Target) -> Side
    ensures { result ≡ equals_of target }
{
    match target {
        Target::Equal | Target::AtLeast => Side::Left,
        Target::AtMost => Side::Right,
    }
}

// Returns the member that `target` means for `key`, or `Some(None)` if there is none. The result is `None` if the links lead to no end.
#[inline]
pub(crate) fn find(
    links: &RawTable<'_, RawThree>,
    tree: &Tree,
    keys: &[u64],
    key: u64,
    target: Target,
) -> Option<Option<Place>>
    requires keys { (lent_table links.now).extent.places ≤ length keys.now }
    requires root { IsNoneOrLinked is_linked_three (lent_table links.now) (root_of tree.now) }
    ensures found { (s : List Place) → Represents (lent_table links.now) (root_of tree.now) s
        → (member : Option Place) × (result ≡ Some member) × IsTarget target (against key keys.now) s member }
    ensures ended { result ≢ None → SearchEnds target keys.now key (lent_table links.now) (root_of tree.now) }
    ensures bounded { (q : Place) → result ≡ Some (Some q) → Meets target (against key keys.now q) }
    ensures in_closed_set { (S : Place → Bool) → IsClosed seen_node (seen (lent_table links.now)) (root_of tree.now) S → IfSome result (λ member. IsIn S member) }
{
    let Some(way) = descend(links, tree, keys, key, equals_of(target)) else {
        return None;
    };
    match target {
        Target::Equal => {
            let Some(member) = way.back.get() else {
                return Some(None);
            };
            if compare_at(keys, key, member).is_eq() {
                Some(Some(member))
            } else {
                Some(None)
            }
        }
        Target::AtLeast => Some(way.back.get()),
        Target::AtMost => Some(way.front.get()),
    }
}

// Stores in `found` the number of the member that `target` means for `key`, or returns the status of the refusal.
#[inline]
pub(crate) fn store_found(
    links: &RawTable<'_, RawThree>,
    tree: &Tree,
    keys: &[u64],
    key: u64,
    target: Target,
    found: &mut u32,
) -> u32
    ensures found { (s : List Place) → Represents (lent_table links.now) (root_of tree.now) s
        → (lent_table links.now).extent.places ≤ length keys.now → HandsOut (IsTarget target (against key keys.now) s) result found.new }
    ensures reached { result ≡ OK → HandsOutReached (lent_table links.now) (root_of tree.now) [] found.new }
    ensures bounded { result ≡ OK → NamesTarget target keys.now key (lent_table links.now) found.new }
    ensures ended { result ≡ NULL → SearchEnds target keys.now key (lent_table links.now) (root_of tree.now) }
    ensures refused { result ≢ OK → found.new ≡ found.old }
    ensures looked { (result ≡ OK) ⊎ (result ≡ NULL) → ((lent_table links.now).extent.places ≤ length keys.now)
        × IsNoneOrLinked is_linked_three (lent_table links.now) (root_of tree.now) }
    ensures why { result ≢ OK → result ≢ NULL → result ≡ refusal (keys_fault keys.now (lent_table links.now).extent.places ∷ []) }
{
    if !is_searchable(links, tree, keys) {
        return refusal(links, keys);
    }
    let Some(member) = find(links, tree, keys, key, target) else {
        return BROKEN;
    };
    tree::hand_out(links, member, found)
}

// Inserts `place` by its key, after all members whose key is not greater, and returns whether it has made this edit.
#[inline]
pub(crate) fn insert<S: Surgery>(
    surgery: &mut S,
    links: &mut RawTable<'_, RawThree>,
    tree: &mut Tree,
    keys: &[u64],
    place: Option<Place>,
) -> bool
    ensures inserted { (s : List Place) (p : Place) → Represents (lent_table links.old) (root_of tree.old) s → place ≡ Some p
        → (lent_table links.old).extent.places ≤ length keys.now → IsFree is_linked_three (lent_table links.old) p
        → (result ≡ true) × InsertsInOrder Represents (against (key_of keys.now p) keys.now) (lent_table links.old) (lent_table links.new)
        (root_of tree.new) s p }
    ensures free { result ≡ true → (p : Place) × (place ≡ Some p) × IsFree is_linked_three (lent_table links.old) p }
    ensures keys { result ≡ true → (lent_table links.old).extent.places ≤ length keys.now }
    ensures root { result ≡ true → IsNoneOrLinked is_linked_three (lent_table links.old) (root_of tree.old) }
    ensures linked { (p : Place) → place ≡ Some p → result ≡ true → LinksAlso is_linked_three (lent_table links.old) (lent_table links.new) p }
    ensures in_closed_set { result ≡ true
        → StaysWithin (lent_table links.old) (lent_table links.new) (root_of tree.old) (root_of tree.new) place None [] }
    ensures reported { (p : Place) → place ≡ Some p → result ≡ true
        → ReportsInsertion S.Reports surgery.old surgery.new (lent_table links.old) (lent_table links.new) p }
    ensures refused { result ≡ false → (links.new ≡ links.old) × (tree.new ≡ tree.old) }
    ensures extent { (lent_table links.new).extent ≡ (lent_table links.old).extent }
{
    if !is_searchable(&*links, &*tree, keys) {
        return false;
    }
    let Some(own) = place else {
        return false;
    };
    if !links.covers(own) {
        return false;
    }
    let Some(way) = descend(&*links, &*tree, keys, keys[own.index()], Side::Right) else {
        return false;
    };
    if !way.is_open(&*links, &*tree) {
        return false;
    }
    tree::put(surgery, links, tree, way.side, way.parent.get(), place)
}
