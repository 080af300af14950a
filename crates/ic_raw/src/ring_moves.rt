//! The functions of this module make the pops, replacements, moves and splices of rings, over a view of the table. Each function makes several edits.
//! It tests everything that it needs before it writes, so that a refusal changes no word.
//!
//! ```text
//! let popped = pop(&mut links, GapSide::After, head);
//! let made = move_beside(&mut links, GapSide::Before, head, place);
//! ```

ghost use Rattle.std.specs.Prelude.{◌≡◌, ◌≢◌, ◌∷◌, ◌++◌, List, [], Option, Some, None, true, false};
ghost use Rattle.ic_link_ops.specs.Prelude.{Place, IsDisjoint, IsLinked, IsUnlinked, acquires, releases};
ghost use Rattle.ic_raw.specs.LinkWords.{lent_table};
ghost use Rattle.ic_raw.specs.Ring.{IsCircle, AreLinked, Makes, MakesTwo, around, beside, neighbor_on, put_in, all_put_in};
ghost use Rattle.ic_raw.specs.Tables.{IsFree};
ghost use Rattle.ic_raw.specs.Touches.{Touches};

use crate::gap::GapSide;
use crate::ring::{Pair, around, beside, close_gap, cross, link_between, remove};
use crate::table::RawTable;
use ic_link_ops::linked_list::LinkedListOps;
use ic_link_ops::{LinkOps, PrevPlace};
use ic_unsafe_ref::Place;

// Returns the second place of a pair of neighbors if the side is `After`, and the first place if the side is `Before`.
#[inline]
fn neighbor_on(side: GapSide, pair: Pair) -> Place
    ensures { result ≡ neighbor_on side pair }
{
    match side {
        GapSide::After => pair.1,
        GapSide::Before => pair.0,
    }
}

// Removes the place on this side of `head`, and returns this place. The result is `None` if `head` is in no ring or has no members.
#[inline]
pub(crate) fn pop<W: PrevPlace>(
    links: &mut RawTable<'_, W>,
    side: GapSide,
    head: Place,
) -> Option<Place>
    ensures popped { (p : Place) (r : List Place) → IsCircle W.PrevPlace (lent_table W.PrevPlace links.old) (put_in side head p r)
        → (result ≡ Some p) × Makes W.PrevPlace (lent_table W.PrevPlace links.old) (lent_table W.PrevPlace links.new) (put_in side head p r) (head ∷ r) }
    ensures empty { IsCircle W.PrevPlace (lent_table W.PrevPlace links.old) (head ∷ []) → result ≡ None }
    ensures linked { (p : Place) → result ≡ Some p → IsLinked W.is_linked (lent_table W.PrevPlace links.old) p }
    ensures unlinked { (p : Place) → result ≡ Some p → IsUnlinked W.is_linked (lent_table W.PrevPlace links.new) p }
    ensures beside { (p : Place) → result ≡ Some p → beside W.PrevPlace side (lent_table W.PrevPlace links.old) head ≡ Some p }
    ensures touched { (p : Place) → result ≡ Some p → Touches W.is_linked (lent_table W.PrevPlace links.old) (lent_table W.PrevPlace links.new) (releases p ∷ [])
        (Some p ∷ around W.PrevPlace (lent_table W.PrevPlace links.old) p) }
    ensures refused { result ≡ None → links.new ≡ links.old }
    ensures extent { (lent_table W.PrevPlace links.new).extent ≡ (lent_table W.PrevPlace links.old).extent }
{
    let Some(pair) = beside(&*links, side, head) else {
        return None;
    };
    let member = neighbor_on(side, pair);
    if member == head {
        return None;
    }
    if !remove(links, member) {
        return None;
    }
    Some(member)
}

// Returns the place that is after `own` when `own` has replaced `at`: `next`, which is the next place of `at`, or `own` if `at` is alone in its ring.
#[inline]
fn next_without(at: Place, next: Place, own: Place) -> Place
    ensures alone { next ≡ at → result ≡ own }
    ensures other { next ≢ at → result ≡ next }
{
    if next == at { own } else { next }
}

// Inserts `place` into a ring at the position of the place `at`, and removes `at`. The function returns whether it has made this edit.
#[inline]
pub(crate) fn replace<W: PrevPlace>(
    links: &mut RawTable<'_, W>,
    at: Place,
    place: Option<Place>,
) -> bool
    ensures replaced { (p : Place) (r : List Place) → place ≡ Some p → IsFree W.is_linked (lent_table W.PrevPlace links.old) p
        → IsCircle W.PrevPlace (lent_table W.PrevPlace links.old) (at ∷ r)
        → (result ≡ true) × Makes W.PrevPlace (lent_table W.PrevPlace links.old) (lent_table W.PrevPlace links.new) (p ∷ at ∷ r) (p ∷ r) }
    ensures free { result ≡ true → (p : Place) × (place ≡ Some p) × IsFree W.is_linked (lent_table W.PrevPlace links.old) p }
    ensures unlinked { result ≡ true → IsUnlinked W.is_linked (lent_table W.PrevPlace links.new) at }
    ensures before { result ≡ true → (q : Place) × AreLinked W.PrevPlace (lent_table W.PrevPlace links.old) q at }
    ensures after { result ≡ true → (q : Place) × AreLinked W.PrevPlace (lent_table W.PrevPlace links.old) at q }
    ensures touched { (p : Place) → place ≡ Some p → result ≡ true
        → Touches W.is_linked (lent_table W.PrevPlace links.old) (lent_table W.PrevPlace links.new) (acquires p ∷ releases at ∷ [])
        (Some p ∷ Some at ∷ around W.PrevPlace (lent_table W.PrevPlace links.old) at) }
    ensures refused { result ≡ false → links.new ≡ links.old }
    ensures extent { (lent_table W.PrevPlace links.new).extent ≡ (lent_table W.PrevPlace links.old).extent }
{
    let Some(pair) = around(&*links, at) else {
        return false;
    };
    let Some(own) = links.acquire(place) else {
        return false;
    };
    link_between(links, (pair.0, at), own);
    close_gap(links, own, next_without(at, pair.1, own));
    links.release_link(at);
    true
}

// Moves `place` from any ring of the table to this side of the place `at`, and returns whether the call is accepted.
#[inline]
pub(crate) fn move_beside<W: PrevPlace>(
    links: &mut RawTable<'_, W>,
    side: GapSide,
    at: Place,
    place: Place,
) -> bool
    ensures apart { (r s : List Place) → IsCircle W.PrevPlace (lent_table W.PrevPlace links.old) (place ∷ r) → IsCircle W.PrevPlace (lent_table W.PrevPlace links.old) (at ∷ s)
        → IsDisjoint (place ∷ r) (at ∷ s)
        → (result ≡ true) × MakesTwo W.PrevPlace (lent_table W.PrevPlace links.old) (lent_table W.PrevPlace links.new) (place ∷ r ++ at ∷ s) r (put_in side at place s) }
    ensures in_circle { (r s : List Place) → IsCircle W.PrevPlace (lent_table W.PrevPlace links.old) (place ∷ r ++ at ∷ s)
        → (result ≡ true) × Makes W.PrevPlace (lent_table W.PrevPlace links.old) (lent_table W.PrevPlace links.new) (place ∷ r ++ at ∷ s) (put_in side at place (s ++ r)) }
    ensures itself { (r : List Place) → at ≡ place → IsCircle W.PrevPlace (lent_table W.PrevPlace links.old) (place ∷ r) → (result ≡ true) × (links.new ≡ links.old) }
    ensures before { result ≡ true → (q : Place) × AreLinked W.PrevPlace (lent_table W.PrevPlace links.old) q place }
    ensures after { result ≡ true → (q : Place) × AreLinked W.PrevPlace (lent_table W.PrevPlace links.old) place q }
    ensures linked { result ≡ true → IsLinked W.is_linked (lent_table W.PrevPlace links.old) at }
    ensures touched { result ≡ true → Touches W.is_linked (lent_table W.PrevPlace links.old) (lent_table W.PrevPlace links.new) []
        (Some place ∷ around W.PrevPlace (lent_table W.PrevPlace links.old) place ++ Some at ∷ beside W.PrevPlace side (lent_table W.PrevPlace links.old) at ∷ []) }
    ensures refused { result ≡ false → links.new ≡ links.old }
    ensures extent { (lent_table W.PrevPlace links.new).extent ≡ (lent_table W.PrevPlace links.old).extent }
{
    let Some(from) = around(&*links, place) else {
        return false;
    };
    if at == place {
        return true;
    }
    let Some(to) = beside(&*links, side, at) else {
        return false;
    };
    if neighbor_on(side, to) == place {
        return true;
    }
    close_gap(links, from.0, from.1);
    link_between(links, to, place);
    true
}

// Moves all members of the head `given` to this side of the place `at` of another ring, and returns whether the call is accepted. The function
// refuses if `at` is `given`, and also if the gap on this side of `at` is beside `given`.
#[inline]
pub(crate) fn splice<W: PrevPlace>(
    links: &mut RawTable<'_, W>,
    side: GapSide,
    at: Place,
    given: Place,
) -> bool
    ensures spliced { (r s : List Place) → IsCircle W.PrevPlace (lent_table W.PrevPlace links.old) (at ∷ r) → IsCircle W.PrevPlace (lent_table W.PrevPlace links.old) (given ∷ s)
        → IsDisjoint (at ∷ r) (given ∷ s)
        → (result ≡ true) × MakesTwo W.PrevPlace (lent_table W.PrevPlace links.old) (lent_table W.PrevPlace links.new) (at ∷ r ++ given ∷ s) (all_put_in side at r s) (given ∷ []) }
    ensures before { result ≡ true → (q : Place) × AreLinked W.PrevPlace (lent_table W.PrevPlace links.old) q given }
    ensures after { result ≡ true → (q : Place) × AreLinked W.PrevPlace (lent_table W.PrevPlace links.old) given q }
    ensures linked { result ≡ true → IsLinked W.is_linked (lent_table W.PrevPlace links.old) at }
    ensures other { result ≡ true → at ≢ given }
    ensures touched { result ≡ true → Touches W.is_linked (lent_table W.PrevPlace links.old) (lent_table W.PrevPlace links.new) []
        (Some given ∷ around W.PrevPlace (lent_table W.PrevPlace links.old) given ++ Some at ∷ beside W.PrevPlace side (lent_table W.PrevPlace links.old) at ∷ []) }
    ensures refused { result ≡ false → links.new ≡ links.old }
    ensures extent { (lent_table W.PrevPlace links.new).extent ≡ (lent_table W.PrevPlace links.old).extent }
{
    let Some(from) = around(&*links, given) else {
        return false;
    };
    let Some(to) = beside(&*links, side, at) else {
        return false;
    };
    if to.0 == given {
        return false;
    }
    if to.0 == from.0 {
        return false;
    }
    if from.0 == given {
        return true;
    }
    close_gap(links, from.0, from.1);
    cross(links, to, from);
    links.set_prev(given, Some(given));
    links.set_next(given, Some(given));
    true
}
