//! This module removes all members of a tree at once.
//!
//! ```text
//! clear(&mut links, &tree) // whether it could: each member is unlinked then
//! ```

ghost use Rattle.std.specs.Prelude.{◌≡◌, ◌↔◌, ◌∷◌, [], List, Some, None, true, false};
ghost use Rattle.ic_link_ops.specs.Prelude.{Place, Cut, join, IsAfter, IsBefore, IsCovered, IsUnlinked, ChangesOnly};
ghost use Rattle.ic_link_ops.specs.declared.side.Side.TheVariants.{Right};
ghost use Rattle.ic_rbtree.specs.Prelude.{AreIn, IsIn, StepsTo, root_of};
ghost use Rattle.ic_raw.specs.Calls.{Clears};
ghost use Rattle.ic_raw.specs.Gaps.{IsNoneOrLinked};
ghost use Rattle.ic_raw.specs.Seen.{seen, seen_node, has_place, StepEndsIn};
ghost use Rattle.ic_raw.specs.Tree.{Represents, lent_table};
ghost use Rattle.ic_raw.specs.TreeShape.{IsSeen, LeadsToEnd, OnlyUnmarks, unmarked};
ghost use Rattle.ic_raw.specs.Words.{is_linked_three};

use crate::table::RawTable;
use crate::tree::Tree;
use crate::words::RawThree;
use ic_link_ops::Side;
use ic_rbtree::step_bounded;
use ic_unsafe_ref::Place;

// Returns whether the place is `None` or belongs to the table.
#[inline]
fn has(links: &RawTable<'_, RawThree>, place: Option<Place>) -> bool
    ensures { (result ≡ true) ↔ IsIn (has_place (lent_table links.now)) place }
{
    match place {
        None => true,
        Some(place) => links.covers(place),
    }
}

// Returns the member after the place `at`, or the first member if `at` is `None`. The result is `None` if there is no such member, or if `at` or the
// root does not belong to the table.
#[inline]
fn next_of(links: &RawTable<'_, RawThree>, tree: &Tree, at: Option<Place>) -> Option<Place>
    ensures leads { (gap : Cut) → IsSeen (lent_table links.now) (root_of tree.now) (join gap) → IsAfter gap at → IsBefore gap result }
    ensures reached { (q : Place) → result ≡ Some q → StepsTo seen_node (seen (lent_table links.now)) (root_of tree.now) Right at q }
    ensures ended { AreIn (has_place (lent_table links.now)) (at ∷ root_of tree.now ∷ []) → result ≡ None
        → StepEndsIn (lent_table links.now) (root_of tree.now) Right at }
{
    if !has(links, at) {
        return None;
    }
    if !has(links, tree.root()) {
        return None;
    }
    step_bounded(links, tree.root(), at, Side::Right)
}

// Returns whether steps from the first member lead through linked places to an end, within as many steps as the table has places.
fn leads_to_end(links: &RawTable<'_, RawThree>, tree: &Tree) -> bool
    ensures shown { (s : List Place) → Represents (lent_table links.now) (root_of tree.now) s → result ≡ true }
    ensures ended { IsNoneOrLinked is_linked_three (lent_table links.now) (root_of tree.now) → result ≡ true
        → LeadsToEnd (lent_table links.now) (root_of tree.now) None }
{
    let mut at = next_of(links, tree, None);
    let mut left = links.places();
    while left > 0 {
        let Some(member) = at else {
            return true;
        };
        if !links.is_linked(member) {
            return false;
        }
        at = next_of(links, tree, at);
        left -= 1;
    }
    at.is_none()
}

// Clears the bit that marks `place` as linked. The words of the place name the same places as before, so that steps can still follow them.
#[inline]
fn unmark(links: &mut RawTable<'_, RawThree>, place: Place)
    requires covered { IsCovered (lent_table links.old) place }
    ensures unlinked { IsUnlinked is_linked_three (lent_table links.new) place }
    ensures frame { ChangesOnly (lent_table links.old) (lent_table links.new) place }
    ensures kept { (lent_table links.new).entry place ≡ unmarked ((lent_table links.old).entry place) }
    ensures seen { (q : Place) → seen_node ((seen (lent_table links.new)).entry q) ≡ seen_node ((seen (lent_table links.old)).entry q) }
{
    let words = &mut links.entries[place.index()];
    words.left = words.left / 2 * 2;
}

// Unlinks the members one after the other, beginning with the first member.
fn unmark_all(links: &mut RawTable<'_, RawThree>, tree: &Tree)
    ensures cleared { (s : List Place) → Represents (lent_table links.old) (root_of tree.now) s
        → Clears is_linked_three (lent_table links.old) (lent_table links.new) s }
    ensures marks { OnlyUnmarks (lent_table links.old) (lent_table links.new) }
    ensures extent { (lent_table links.new).extent ≡ (lent_table links.old).extent }
{
    let mut at = next_of(&*links, tree, None);
    let mut left = links.places();
    while left > 0 {
        let Some(member) = at else {
            return;
        };
        if !links.covers(member) {
            return;
        }
        at = next_of(&*links, tree, at);
        unmark(links, member);
        left -= 1;
    }
}

// Removes all members and returns `true`, if steps lead from the first member to an end. Otherwise the function changes nothing and returns `false`.
pub(crate) fn clear(links: &mut RawTable<'_, RawThree>, tree: &Tree) -> bool
    ensures cleared { (s : List Place) → Represents (lent_table links.old) (root_of tree.now) s
        → (result ≡ true) × Clears is_linked_three (lent_table links.old) (lent_table links.new) s }
    ensures ended { result ≡ true → LeadsToEnd (lent_table links.old) (root_of tree.now) None }
    ensures root { result ≡ true → IsNoneOrLinked is_linked_three (lent_table links.old) (root_of tree.now) }
    ensures refused { result ≡ false → links.new ≡ links.old }
    ensures marks { OnlyUnmarks (lent_table links.old) (lent_table links.new) }
    ensures extent { (lent_table links.new).extent ≡ (lent_table links.old).extent }
{
    if !links.stands(tree.root()) {
        return false;
    }
    if !leads_to_end(&*links, tree) {
        return false;
    }
    unmark_all(links, tree);
    true
}
