//! This module has the tests and the edits of the calls of red-black trees, over a view of the table.
//!
//! ```text
//! let made = remove(&mut Plain, &mut links, &mut tree, member);
//! ```

ghost use Rattle.std.specs.Prelude.{◌≡◌, ◌≢◌, ◌↔◌, ◌⊎◌, ◌++◌, ◌∷◌, [], List, Option, Some, None, true, false};
ghost use Rattle.ic_link_ops.specs.Prelude.{Place, Cut, join, IsLinked, IsUnlinked, ChangesOnly, LinksAlso, Unlinks, Exchanges, Inserts, Removes, Replaces, node_at};
ghost use Rattle.ic_link_ops.specs.Frames.{across, child_on};
ghost use Rattle.ic_rbtree.specs.Prelude.{IsIn, AreIn, IsBeside, root_of};
ghost use Rattle.ic_raw.specs.declared.status.TheConstants.{OK, NULL, BROKEN};
ghost use Rattle.ic_raw.specs.Answers.{IsFound, refusal};
ghost use Rattle.ic_raw.specs.Gaps.{IsNoneOrLinked, before};
ghost use Rattle.ic_raw.specs.Seen.{IsWithin, StaysWithin, HandsOutStep, StepEndsIn, has_place};
ghost use Rattle.ic_raw.specs.Surgery.{ReportsInsertion, ReportsRemoval};
ghost use Rattle.ic_raw.specs.Tables.{IsFree, member_fault};
ghost use Rattle.ic_raw.specs.Words.{is_linked_three, place_of, HasNumber};
ghost use Rattle.ic_raw.specs.Tree.{Represents, IsInsertPos, TellsInsertPos, lent_table, node};

use crate::number::{number_of, place_in, place_of};
use crate::status::{BROKEN, NULL, OK};
use crate::surgery::Surgery;
use crate::table::RawTable;
use crate::words::RawThree;
use ic_link_ops::{LinkOps, Side, Words};
use ic_rbtree::{RBTree, step_bounded};
use ic_unsafe_ref::Place;

/// A tree that belongs to the caller.
pub(crate) type Tree = RBTree<()>;

// Returns whether the root is a linked place of the table. The function compares the word of the root with the word of the last place of the table,
// because this comparison needs no shift.
#[inline]
fn has_root(links: &RawTable<'_, RawThree>, tree: &Tree) -> bool
    ensures root { result ≡ true → IsNoneOrLinked is_linked_three (lent_table links.now) (root_of tree.now) }
    ensures shown { root_of tree.now ≢ None → IsNoneOrLinked is_linked_three (lent_table links.now) (root_of tree.now) → result ≡ true }
{
    let Some(root) = tree.root() else {
        return false;
    };
    if Place::to_word(Some(root)) > 8 * links.entries.len() as u64 {
        return false;
    }
    links.at(root).is_linked()
}

// Returns whether the place `at` and the root are linked. If `at` is `None`, the function returns whether the root is `None` or linked.
#[inline]
pub(crate) fn stand(links: &RawTable<'_, RawThree>, tree: &Tree, at: Option<Place>) -> bool
    ensures at { result ≡ true → IsNoneOrLinked is_linked_three (lent_table links.now) at }
    ensures root { result ≡ true → IsNoneOrLinked is_linked_three (lent_table links.now) (root_of tree.now) }
    ensures shown { (side : Side) (cut : Cut) → Represents (lent_table links.now) (root_of tree.now) (join cut) → IsBeside side cut at
        → result ≡ true }
{
    match at {
        None => links.stands(tree.root()),
        Some(member) => {
            if !links.is_linked(member) {
                return false;
            }
            has_root(links, tree)
        }
    }
}

// Returns whether `member` may be a member of the tree: it and the root are linked, and if its words name no parent, it is the root. This test
// excludes the root of another tree.
#[inline]
fn may_hold(links: &RawTable<'_, RawThree>, tree: &Tree, member: Place) -> bool
    ensures at { result ≡ true → IsNoneOrLinked is_linked_three (lent_table links.now) (Some member) }
    ensures root { result ≡ true → IsNoneOrLinked is_linked_three (lent_table links.now) (root_of tree.now) }
    ensures own { result ≡ true → (node_at node (lent_table links.now) member).parent ≡ None → root_of tree.now ≡ Some member }
    ensures shown { (front back : List Place) → Represents (lent_table links.now) (root_of tree.now) (front ++ member ∷ back) → result ≡ true }
{
    if !stand(links, tree, Some(member)) {
        return false;
    }
    match place_in(links.at(member).parent) {
        None => Place::to_word(tree.root()) == Place::to_word(Some(member)),
        Some(_) => true,
    }
}

// Returns the child on this side of `place`, which is linked.
#[inline]
fn child(links: &RawTable<'_, RawThree>, place: Place, side: Side) -> Option<Place>
    requires { IsLinked is_linked_three (lent_table links.now) place }
    ensures { result ≡ child_on side (node_at node (lent_table links.now) place) }
{
    let words = links.at(place);
    match side {
        Side::Left => place_in(words.left),
        Side::Right => place_in(words.right),
    }
}

// Returns whether a place can be inserted on this side of `at`: `at` has no child there, or `at` is `None` and the tree is empty.
#[inline]
fn is_insert_pos(links: &RawTable<'_, RawThree>, tree: &Tree, side: Side, at: Option<Place>) -> bool
    ensures at { result ≡ true → IsNoneOrLinked is_linked_three (lent_table links.now) at }
    ensures root { result ≡ true → IsNoneOrLinked is_linked_three (lent_table links.now) (root_of tree.now) }
    ensures links_back { result ≡ true → TellsInsertPos side (lent_table links.now) (root_of tree.now) at }
    ensures shown { (cut : Cut) → Represents (lent_table links.now) (root_of tree.now) (join cut) → IsInsertPos side (lent_table links.now) at cut
        → result ≡ true }
{
    if !stand(links, tree, at) {
        return false;
    }
    match at {
        None => tree.root().is_none(),
        Some(at) => child(links, at, side).is_none(),
    }
}

// Marks `place` as linked and returns it, if it belongs to the table and is not linked. The words of the place then name no other place.
#[inline]
fn acquire(links: &mut RawTable<'_, RawThree>, place: Option<Place>) -> Option<Place>
    ensures accepted { (p : Place) → place ≡ Some p → IsFree is_linked_three (lent_table links.old) p → result ≡ Some p }
    ensures same { (p : Place) → result ≡ Some p → place ≡ Some p }
    ensures free { (p : Place) → result ≡ Some p → IsFree is_linked_three (lent_table links.old) p }
    ensures linked { (p : Place) → result ≡ Some p → IsLinked is_linked_three (lent_table links.new) p }
    ensures bare { (p : Place) → result ≡ Some p → IsWithin (lent_table links.new) p }
    ensures frame { (p : Place) → result ≡ Some p → ChangesOnly (lent_table links.old) (lent_table links.new) p }
    ensures refused { result ≡ None → links.new ≡ links.old }
{
    let Some(place) = links.acquire(place) else {
        return None;
    };
    links.entries[place.index()] = RawThree {
        left: 1,
        right: 0,
        parent: 0,
    };
    Some(place)
}

// Inserts `place` on this side of the place `at` of the table, or as the root if `at` is `None`. The function returns whether it has made this edit.
// It refuses a `place` that does not belong to the table or is linked.
#[inline(always)]
pub(crate) fn put<S: Surgery>(
    surgery: &mut S,
    links: &mut RawTable<'_, RawThree>,
    tree: &mut Tree,
    side: Side,
    at: Option<Place>,
    place: Option<Place>,
) -> bool
    requires { AreIn (has_place (lent_table links.old)) (at ∷ root_of tree.old ∷ []) }
    ensures inserted { (cut : Cut) (p : Place) → Represents (lent_table links.old) (root_of tree.old) (join cut)
        → IsInsertPos side (lent_table links.old) at cut → place ≡ Some p → IsFree is_linked_three (lent_table links.old) p
        → (result ≡ true) × Inserts Represents (lent_table links.old) (lent_table links.new) (root_of tree.new) cut p }
    ensures free { result ≡ true → (p : Place) × (place ≡ Some p) × IsFree is_linked_three (lent_table links.old) p }
    ensures linked { (p : Place) → place ≡ Some p → result ≡ true → LinksAlso is_linked_three (lent_table links.old) (lent_table links.new) p }
    ensures in_closed_set { result ≡ true
        → StaysWithin (lent_table links.old) (lent_table links.new) (root_of tree.old) (root_of tree.new) place None (at ∷ []) }
    ensures reported { (p : Place) → place ≡ Some p → result ≡ true
        → ReportsInsertion S.Reports surgery.old surgery.new (lent_table links.old) (lent_table links.new) p }
    ensures refused { result ≡ false → (links.new ≡ links.old) × (tree.new ≡ tree.old) }
    ensures extent { (lent_table links.new).extent ≡ (lent_table links.old).extent }
{
    let Some(place) = acquire(links, place) else {
        return false;
    };
    surgery.attach(links, tree, at, side, place);
    true
}

// Inserts `place` on this side of the member `at`, or as the only member if `at` is `None`. The function returns whether it has made this edit.
#[inline(always)]
pub(crate) fn insert<S: Surgery>(
    surgery: &mut S,
    links: &mut RawTable<'_, RawThree>,
    tree: &mut Tree,
    side: Side,
    at: Option<Place>,
    place: Option<Place>,
) -> bool
    ensures inserted { (cut : Cut) (p : Place) → Represents (lent_table links.old) (root_of tree.old) (join cut)
        → IsInsertPos side (lent_table links.old) at cut → place ≡ Some p → IsFree is_linked_three (lent_table links.old) p
        → (result ≡ true) × Inserts Represents (lent_table links.old) (lent_table links.new) (root_of tree.new) cut p }
    ensures free { result ≡ true → (p : Place) × (place ≡ Some p) × IsFree is_linked_three (lent_table links.old) p }
    ensures stands { result ≡ true → IsNoneOrLinked is_linked_three (lent_table links.old) at }
    ensures root { result ≡ true → IsNoneOrLinked is_linked_three (lent_table links.old) (root_of tree.old) }
    ensures links_back { result ≡ true → TellsInsertPos side (lent_table links.old) (root_of tree.old) at }
    ensures linked { (p : Place) → place ≡ Some p → result ≡ true → LinksAlso is_linked_three (lent_table links.old) (lent_table links.new) p }
    ensures in_closed_set { result ≡ true
        → StaysWithin (lent_table links.old) (lent_table links.new) (root_of tree.old) (root_of tree.new) place None (at ∷ []) }
    ensures reported { (p : Place) → place ≡ Some p → result ≡ true
        → ReportsInsertion S.Reports surgery.old surgery.new (lent_table links.old) (lent_table links.new) p }
    ensures refused { result ≡ false → (links.new ≡ links.old) × (tree.new ≡ tree.old) }
    ensures extent { (lent_table links.new).extent ≡ (lent_table links.old).extent }
{
    if !is_insert_pos(&*links, &*tree, side, at) {
        return false;
    }
    put(surgery, links, tree, side, at, place)
}

// Removes `member`, and returns whether it has made this edit.
#[inline]
pub(crate) fn remove<S: Surgery>(
    surgery: &mut S,
    links: &mut RawTable<'_, RawThree>,
    tree: &mut Tree,
    member: Place,
) -> bool
    ensures removed { (front back : List Place) → Represents (lent_table links.old) (root_of tree.old) (front ++ member ∷ back)
        → (result ≡ true) × Removes Represents (lent_table links.old) (lent_table links.new) (root_of tree.new) (before member front back)
        × IsUnlinked is_linked_three (lent_table links.new) member }
    ensures stands { result ≡ true → IsNoneOrLinked is_linked_three (lent_table links.old) (Some member) }
    ensures root { result ≡ true → IsNoneOrLinked is_linked_three (lent_table links.old) (root_of tree.old) }
    ensures own { result ≡ true → (node_at node (lent_table links.old) member).parent ≡ None → root_of tree.old ≡ Some member }
    ensures unlinked { result ≡ true → Unlinks is_linked_three (lent_table links.old) (lent_table links.new) member }
    ensures in_closed_set { result ≡ true → StaysWithin (lent_table links.old) (lent_table links.new) (root_of tree.old) (root_of tree.new) None (Some member)
        (Some member ∷ []) }
    ensures reported { result ≡ true → ReportsRemoval S.Reports surgery.old surgery.new (lent_table links.old) (lent_table links.new) member }
    ensures refused { result ≡ false → (links.new ≡ links.old) × (tree.new ≡ tree.old) }
    ensures extent { (lent_table links.new).extent ≡ (lent_table links.old).extent }
{
    if !may_hold(&*links, &*tree, member) {
        return false;
    }
    surgery.unlink(links, tree, member);
    links.release_link(member);
    true
}

// Inserts `place` at the position of `member`, and removes `member`. The function returns whether it has made this edit.
#[inline]
pub(crate) fn replace(
    links: &mut RawTable<'_, RawThree>,
    tree: &mut Tree,
    member: Place,
    place: Option<Place>,
) -> bool
    ensures replaced { (front back : List Place) (p : Place) → Represents (lent_table links.old) (root_of tree.old) (front ++ member ∷ back)
        → place ≡ Some p → IsFree is_linked_three (lent_table links.old) p
        → (result ≡ true) × Replaces Represents (lent_table links.old) (lent_table links.new) (root_of tree.new) (before member front back) p
        × IsUnlinked is_linked_three (lent_table links.new) member }
    ensures free { result ≡ true → (p : Place) × (place ≡ Some p) × IsFree is_linked_three (lent_table links.old) p }
    ensures stands { result ≡ true → IsNoneOrLinked is_linked_three (lent_table links.old) (Some member) }
    ensures root { result ≡ true → IsNoneOrLinked is_linked_three (lent_table links.old) (root_of tree.old) }
    ensures own { result ≡ true → (node_at node (lent_table links.old) member).parent ≡ None → root_of tree.old ≡ Some member }
    ensures exchanged { (p : Place) → place ≡ Some p → result ≡ true
        → Exchanges is_linked_three (lent_table links.old) (lent_table links.new) p member }
    ensures in_closed_set { result ≡ true → StaysWithin (lent_table links.old) (lent_table links.new) (root_of tree.old) (root_of tree.new) place (Some member)
        (Some member ∷ []) }
    ensures refused { result ≡ false → (links.new ≡ links.old) × (tree.new ≡ tree.old) }
    ensures extent { (lent_table links.new).extent ≡ (lent_table links.old).extent }
{
    if !may_hold(&*links, &*tree, member) {
        return false;
    }
    let Some(place) = acquire(links, place) else {
        return false;
    };
    tree.take_place(links, member, place);
    links.release_link(member);
    true
}

// Stores the number of `member` in `found` and returns `true`, if there is a member and it is linked. Otherwise the function changes nothing and
// returns `false`.
#[inline(always)]
fn tell(links: &RawTable<'_, RawThree>, member: Option<Place>, found: &mut u32) -> bool
    requires { IsIn (has_place (lent_table links.now)) member }
    ensures links_back { result ≡ true → (q : Place) × (member ≡ Some q) × IsLinked is_linked_three (lent_table links.now) q × HasNumber q found.new }
    ensures not_told { result ≡ false → found.new ≡ found.old }
    ensures stands { IsNoneOrLinked is_linked_three (lent_table links.now) member → member ≢ None → result ≡ true }
{
    let Some(place) = member else {
        return false;
    };
    if !links.at(place).is_linked() {
        return false;
    }
    *found = number_of(place);
    true
}

// Returns the status of a call that stores no number: [`NULL`] if there is no member, or else [`BROKEN`], because the place of the member is not
// linked.
#[inline]
fn nothing_told(member: Option<Place>) -> u32
    ensures null { (result ≡ NULL) ↔ (member ≡ None) }
    ensures why { result ≢ NULL → result ≡ BROKEN }
    ensures refused { result ≢ OK }
{
    match member {
        None => NULL,
        Some(_) => BROKEN,
    }
}

// Returns what `nothing_told` returns. The function is not inlined, so that a walk uses no register for a status that calls seldom return.
#[cold]
#[inline(never)]
fn nothing_found(member: Option<Place>) -> u32
    ensures null { (result ≡ NULL) ↔ (member ≡ None) }
    ensures why { result ≢ NULL → result ≡ BROKEN }
    ensures refused { result ≢ OK }
{
    nothing_told(member)
}

// Stores the number of the member in `found`, or returns the status of the refusal: there is no member, or its place is not linked.
#[inline]
pub(crate) fn hand_out(
    links: &RawTable<'_, RawThree>,
    member: Option<Place>,
    found: &mut u32,
) -> u32
    requires { IsIn (has_place (lent_table links.now)) member }
    ensures found { IsNoneOrLinked is_linked_three (lent_table links.now) member → IsFound member result found.new }
    ensures refused { result ≢ OK → found.new ≡ found.old }
    ensures links_back { result ≡ OK → (q : Place) × (member ≡ Some q) × IsLinked is_linked_three (lent_table links.now) q × HasNumber q found.new }
    ensures null { (result ≡ NULL) ↔ (member ≡ None) }
    ensures why { result ≢ OK → result ≢ NULL → result ≡ BROKEN }
{
    if tell(links, member, found) {
        return OK;
    }
    nothing_told(member)
}

// Stores in `found` the number of the outermost member on the side opposite to `side`, or returns the status of the refusal.
//
// The function is not inlined, so that a step from a member uses no register for this case.
#[inline(never)]
fn step_from_none(links: &RawTable<'_, RawThree>, tree: &Tree, side: Side, found: &mut u32) -> u32
    ensures found { (cut : Cut) (member : Option Place) → Represents (lent_table links.now) (root_of tree.now) (join cut)
        → IsBeside side cut None → IsBeside (across side) cut member → IsFound member result found.new }
    ensures stepped { result ≡ OK → HandsOutStep (lent_table links.now) (root_of tree.now) side None found.new }
    ensures ended { result ≡ NULL → StepEndsIn (lent_table links.now) (root_of tree.now) side None }
    ensures refused { result ≢ OK → found.new ≡ found.old }
    ensures looked { (result ≡ OK) ⊎ (result ≡ NULL) → IsNoneOrLinked is_linked_three (lent_table links.now) (root_of tree.now) }
    ensures why { result ≢ OK → result ≢ NULL → result ≡ BROKEN }
{
    if !links.stands(tree.root()) {
        return BROKEN;
    }
    hand_out(links, step_bounded(links, tree.root(), None, side), found)
}

// Stores in `found` the number of the member on this side of the member `at`, or returns the status of the refusal. If `at` is none, the member is
// the outermost one on the opposite side.
#[inline(always)]
pub(crate) fn step(
    links: &RawTable<'_, RawThree>,
    tree: &Tree,
    side: Side,
    at: u32,
    found: &mut u32,
) -> u32
    ensures found { (cut : Cut) (member : Option Place) → Represents (lent_table links.now) (root_of tree.now) (join cut)
        → IsBeside side cut (place_of at) → IsBeside (across side) cut member → IsFound member result found.new }
    ensures stepped { result ≡ OK → HandsOutStep (lent_table links.now) (root_of tree.now) side (place_of at) found.new }
    ensures ended { result ≡ NULL → StepEndsIn (lent_table links.now) (root_of tree.now) side (place_of at) }
    ensures refused { result ≢ OK → found.new ≡ found.old }
    ensures looked { (result ≡ OK) ⊎ (result ≡ NULL) → IsNoneOrLinked is_linked_three (lent_table links.now) (place_of at)
        × IsNoneOrLinked is_linked_three (lent_table links.now) (root_of tree.now) }
    ensures why { result ≢ OK → result ≢ NULL → result ≡ refusal (member_fault is_linked_three (lent_table links.now) (place_of at) ∷ []) }
{
    let Some(member) = place_of(at) else {
        return step_from_none(links, tree, side, found);
    };
    if !stand(links, tree, Some(member)) {
        return links.refusal_of(member);
    }
    let beside = step_bounded(links, tree.root(), Some(member), side);
    if tell(links, beside, found) {
        return OK;
    }
    nothing_found(beside)
}
