//! This module has the tests and the edits of the calls of rings, over a view of the table. The arguments of a call are places, and never a ring.
//!
//! ```text
//! let made = remove(&mut links, place);
//! ```

ghost use Rattle.std.specs.Prelude.{◌≡◌, ◌≢◌, ◌∷◌, ◌++◌, List, [], Option, Some, None, IsSome, true, false};
ghost use Rattle.ic_link_ops.specs.Prelude.{Place, IsAbsent, IsDisjoint, first, last, IsLinked, IsUnlinked, ChangesOnly, acquires, releases};
ghost use Rattle.ic_raw.specs.declared.gap.GapSide.TheVariants.{After};
ghost use Rattle.ic_raw.specs.LinkWords.{lent_table};
ghost use Rattle.ic_raw.specs.Ring.{IsCircle, AreLinked, Makes, MakesTwo, around, beside, own_on, put_in};
ghost use Rattle.ic_raw.specs.Tables.{IsFree};
ghost use Rattle.ic_raw.specs.Touches.{Touches};

use crate::gap::GapSide;
use crate::table::RawTable;
use ic_link_ops::linked_list::LinkedListOps;
use ic_link_ops::{LinkOps, PrevPlace};
use ic_ring::{bypass, turn_to};
use ic_unsafe_ref::Place;

/// A pair of neighbors in a ring: the second place is directly after the first place.
pub type Pair = (Place, Place);

// Returns the places `before` and `after`, if both are linked and name each other: `after` is the next place of `before`, and `before` is the
// previous place of `after`.
#[inline]
fn pair<W: PrevPlace>(
    links: &RawTable<'_, W>,
    before: Option<Place>,
    after: Option<Place>,
) -> Option<Pair>
    ensures links_back { (x : Place × Place) → result ≡ Some x → AreLinked W.PrevPlace (lent_table W.PrevPlace links.now) x.0 x.1 × (before ≡ Some x.0) × (after ≡ Some x.1) }
    ensures tells { (x : Place × Place) → before ≡ Some x.0 → after ≡ Some x.1 → AreLinked W.PrevPlace (lent_table W.PrevPlace links.now) x.0 x.1 → result ≡ Some x }
{
    let before = before?;
    let after = after?;
    if !links.is_linked(before) {
        return None;
    }
    if !links.is_linked(after) {
        return None;
    }
    if Place::to_word(links.next(before)) != Place::to_word(Some(after)) {
        return None;
    }
    if Place::to_word(links.prev(after)) != Place::to_word(Some(before)) {
        return None;
    }
    Some((before, after))
}

/// Returns the place `at` and its neighbor on this side, in the order of the ring, if both are linked and name each other.
#[inline]
pub fn beside<W: PrevPlace>(links: &RawTable<'_, W>, side: GapSide, at: Place) -> Option<Pair>
    ensures links_back { (x : Place × Place) → result ≡ Some x → AreLinked W.PrevPlace (lent_table W.PrevPlace links.now) x.0 x.1 × (own_on side x ≡ at) }
    ensures tells { (x : Place × Place) → AreLinked W.PrevPlace (lent_table W.PrevPlace links.now) x.0 x.1 → own_on side x ≡ at → result ≡ Some x }
{
    if !links.is_linked(at) {
        return None;
    }
    match side {
        GapSide::After => pair(links, Some(at), links.next(at)),
        GapSide::Before => pair(links, links.prev(at), Some(at)),
    }
}

// Returns the two neighbors of `place`, if all three places are linked and both neighbors name `place`.
#[inline]
pub(crate) fn around<W: PrevPlace>(links: &RawTable<'_, W>, place: Place) -> Option<Pair>
    ensures links_back { (x : Place × Place) → result ≡ Some x → AreLinked W.PrevPlace (lent_table W.PrevPlace links.now) x.0 place × AreLinked W.PrevPlace (lent_table W.PrevPlace links.now) place x.1 }
    ensures tells { (r : List Place) → IsCircle W.PrevPlace (lent_table W.PrevPlace links.now) (place ∷ r) → IsSome result }
{
    let Some(before) = beside(links, GapSide::Before, place) else {
        return None;
    };
    let Some(after) = beside(links, GapSide::After, place) else {
        return None;
    };
    Some((before.0, after.1))
}

// Returns whether `place` is linked and is its own neighbor on both sides, as a head without members is.
#[inline]
pub(crate) fn is_alone<W: PrevPlace>(links: &RawTable<'_, W>, place: Place) -> bool
    ensures links_back { result ≡ true → AreLinked W.PrevPlace (lent_table W.PrevPlace links.now) place place }
    ensures tells { AreLinked W.PrevPlace (lent_table W.PrevPlace links.now) place place → result ≡ true }
{
    let Some(_) = pair(links, Some(place), Some(place)) else {
        return false;
    };
    true
}

// Makes a ring of `place` alone and returns `place`, if it belongs to the table and is not linked. Otherwise the function changes nothing and returns
// `None`.
#[inline]
pub(crate) fn close<W: PrevPlace>(
    links: &mut RawTable<'_, W>,
    place: Option<Place>,
) -> Option<Place>
    ensures accepted { (p : Place) → place ≡ Some p → IsFree W.is_linked (lent_table W.PrevPlace links.old) p → result ≡ Some p }
    ensures free { (p : Place) → result ≡ Some p → (place ≡ Some p) × IsFree W.is_linked (lent_table W.PrevPlace links.old) p }
    ensures circle { (p : Place) → result ≡ Some p → IsCircle W.PrevPlace (lent_table W.PrevPlace links.new) (p ∷ []) }
    ensures frame { (p : Place) → result ≡ Some p → ChangesOnly (lent_table W.PrevPlace links.old) (lent_table W.PrevPlace links.new) p }
    ensures refused { result ≡ None → links.new ≡ links.old }
{
    let place = links.acquire(place)?;
    links.set_prev(place, Some(place));
    links.set_next(place, Some(place));
    Some(place)
}

// Inserts `place`, which is linked but in no ring, between the two neighbors of `pair`.
#[inline]
pub(crate) fn link_between<W: PrevPlace>(links: &mut RawTable<'_, W>, pair: Pair, place: Place)
    requires held { IsLinked W.is_linked (lent_table W.PrevPlace links.old) place }
    requires links_back { AreLinked W.PrevPlace (lent_table W.PrevPlace links.old) pair.0 pair.1 }
    ensures inserted { (side : GapSide) (at : Place) (r : List Place) → own_on side pair ≡ at → IsCircle W.PrevPlace (lent_table W.PrevPlace links.old) (at ∷ r)
        → IsAbsent place (at ∷ r) → IsCircle W.PrevPlace (lent_table W.PrevPlace links.new) (put_in side at place r) }
    ensures others { (q : Place) → q ≢ place → q ≢ pair.0 → q ≢ pair.1 → (lent_table W.PrevPlace links.new).entry q ≡ (lent_table W.PrevPlace links.old).entry q }
    ensures extent { (lent_table W.PrevPlace links.new).extent ≡ (lent_table W.PrevPlace links.old).extent }
    ensures trace_stays { (q : Place) → W.is_linked ((lent_table W.PrevPlace links.new).entry q) ≡ W.is_linked ((lent_table W.PrevPlace links.old).entry q) }
{
    links.set_prev(place, Some(pair.0));
    links.set_next(place, Some(pair.1));
    turn_to(links, pair.0, place, pair.1);
}

// Makes the linked places `before` and `after` neighbors in a ring. The places that were between the two leave the ring, but they stay linked.
#[inline]
pub(crate) fn close_gap<W: PrevPlace>(links: &mut RawTable<'_, W>, before: Place, after: Place)
    requires before { IsLinked W.is_linked (lent_table W.PrevPlace links.old) before }
    requires after { IsLinked W.is_linked (lent_table W.PrevPlace links.old) after }
    ensures closed { (p : Place) (r : List Place) → IsCircle W.PrevPlace (lent_table W.PrevPlace links.old) (p ∷ r) → Some before ≡ last r → Some after ≡ first r
        → IsCircle W.PrevPlace (lent_table W.PrevPlace links.new) r }
    ensures joined { AreLinked W.PrevPlace (lent_table W.PrevPlace links.new) before after }
    ensures links_back { (x y : Place) → x ≢ before → y ≢ after → AreLinked W.PrevPlace (lent_table W.PrevPlace links.old) x y → AreLinked W.PrevPlace (lent_table W.PrevPlace links.new) x y }
    ensures others { (q : Place) → q ≢ before → q ≢ after → (lent_table W.PrevPlace links.new).entry q ≡ (lent_table W.PrevPlace links.old).entry q }
    ensures extent { (lent_table W.PrevPlace links.new).extent ≡ (lent_table W.PrevPlace links.old).extent }
    ensures trace_stays { (q : Place) → W.is_linked ((lent_table W.PrevPlace links.new).entry q) ≡ W.is_linked ((lent_table W.PrevPlace links.old).entry q) }
{
    links.set_next(before, Some(after));
    links.set_prev(after, Some(before));
}

// Exchanges the second places of two pairs of neighbors. Two rings become one ring, or one ring becomes two rings.
#[inline]
pub(crate) fn cross<W: PrevPlace>(links: &mut RawTable<'_, W>, first: Pair, second: Pair)
    requires first { AreLinked W.PrevPlace (lent_table W.PrevPlace links.old) first.0 first.1 }
    requires second { AreLinked W.PrevPlace (lent_table W.PrevPlace links.old) second.0 second.1 }
    ensures joins { (r s : List Place) → IsCircle W.PrevPlace (lent_table W.PrevPlace links.old) r → IsCircle W.PrevPlace (lent_table W.PrevPlace links.old) s → IsDisjoint r s
        → last r ≡ Some first.0 → last s ≡ Some second.0 → Makes W.PrevPlace (lent_table W.PrevPlace links.old) (lent_table W.PrevPlace links.new) (r ++ s) (r ++ s) }
    ensures cuts { (r s : List Place) → IsCircle W.PrevPlace (lent_table W.PrevPlace links.old) (r ++ s) → last r ≡ Some first.0 → last s ≡ Some second.0
        → MakesTwo W.PrevPlace (lent_table W.PrevPlace links.old) (lent_table W.PrevPlace links.new) (r ++ s) r s }
    ensures others { (q : Place) → q ≢ first.0 → q ≢ first.1 → q ≢ second.0 → q ≢ second.1
        → (lent_table W.PrevPlace links.new).entry q ≡ (lent_table W.PrevPlace links.old).entry q }
    ensures extent { (lent_table W.PrevPlace links.new).extent ≡ (lent_table W.PrevPlace links.old).extent }
    ensures trace_stays { (q : Place) → W.is_linked ((lent_table W.PrevPlace links.new).entry q) ≡ W.is_linked ((lent_table W.PrevPlace links.old).entry q) }
{
    links.set_next(first.0, Some(second.1));
    links.set_prev(second.1, Some(first.0));
    links.set_next(second.0, Some(first.1));
    links.set_prev(first.1, Some(second.0));
}

// Removes `place` from the ring in which it is, and returns whether it has made this edit.
#[inline]
pub(crate) fn remove<W: PrevPlace>(links: &mut RawTable<'_, W>, place: Place) -> bool
    ensures removed { (r : List Place) → IsCircle W.PrevPlace (lent_table W.PrevPlace links.old) (place ∷ r)
        → (result ≡ true) × Makes W.PrevPlace (lent_table W.PrevPlace links.old) (lent_table W.PrevPlace links.new) (place ∷ r) r }
    ensures unlinked { result ≡ true → IsUnlinked W.is_linked (lent_table W.PrevPlace links.new) place }
    ensures before { result ≡ true → (q : Place) × AreLinked W.PrevPlace (lent_table W.PrevPlace links.old) q place }
    ensures after { result ≡ true → (q : Place) × AreLinked W.PrevPlace (lent_table W.PrevPlace links.old) place q }
    ensures touched { result ≡ true → Touches W.is_linked (lent_table W.PrevPlace links.old) (lent_table W.PrevPlace links.new) (releases place ∷ [])
        (Some place ∷ around W.PrevPlace (lent_table W.PrevPlace links.old) place) }
    ensures refused { result ≡ false → links.new ≡ links.old }
    ensures extent { (lent_table W.PrevPlace links.new).extent ≡ (lent_table W.PrevPlace links.old).extent }
{
    let Some(pair) = around(&*links, place) else {
        return false;
    };
    bypass(links, pair.0, pair.1);
    links.release_link(place);
    true
}

// Inserts `place` on this side of the place `at`, which is in a ring. The function returns whether it has made this edit.
#[inline]
pub(crate) fn insert<W: PrevPlace>(
    links: &mut RawTable<'_, W>,
    side: GapSide,
    at: Place,
    place: Option<Place>,
) -> bool
    ensures inserted { (p : Place) (r : List Place) → place ≡ Some p → IsFree W.is_linked (lent_table W.PrevPlace links.old) p
        → IsCircle W.PrevPlace (lent_table W.PrevPlace links.old) (at ∷ r)
        → (result ≡ true) × Makes W.PrevPlace (lent_table W.PrevPlace links.old) (lent_table W.PrevPlace links.new) (p ∷ at ∷ r) (put_in side at p r) }
    ensures free { result ≡ true → (p : Place) × (place ≡ Some p) × IsFree W.is_linked (lent_table W.PrevPlace links.old) p }
    ensures links_back { result ≡ true → (x : Place × Place) × AreLinked W.PrevPlace (lent_table W.PrevPlace links.old) x.0 x.1 × (own_on side x ≡ at) }
    ensures touched { (p : Place) → place ≡ Some p → result ≡ true → Touches W.is_linked (lent_table W.PrevPlace links.old) (lent_table W.PrevPlace links.new) (acquires p ∷ [])
        (Some p ∷ Some at ∷ beside W.PrevPlace side (lent_table W.PrevPlace links.old) at ∷ []) }
    ensures refused { result ≡ false → links.new ≡ links.old }
    ensures extent { (lent_table W.PrevPlace links.new).extent ≡ (lent_table W.PrevPlace links.old).extent }
{
    let Some(pair) = beside(&*links, side, at) else {
        return false;
    };
    let Some(own) = links.acquire(place) else {
        return false;
    };
    link_between(links, pair, own);
    true
}

// Exchanges the next places of `one` and `other`, which are in rings. Two rings become one ring, or one ring becomes two rings. The function returns
// whether it has made this edit.
#[inline]
pub(crate) fn exchange<W: PrevPlace>(links: &mut RawTable<'_, W>, one: Place, other: Place) -> bool
    ensures joins { (r s : List Place) → IsCircle W.PrevPlace (lent_table W.PrevPlace links.old) r → IsCircle W.PrevPlace (lent_table W.PrevPlace links.old) s → IsDisjoint r s
        → last r ≡ Some one → last s ≡ Some other
        → (result ≡ true) × Makes W.PrevPlace (lent_table W.PrevPlace links.old) (lent_table W.PrevPlace links.new) (r ++ s) (r ++ s) }
    ensures cuts { (r s : List Place) → IsCircle W.PrevPlace (lent_table W.PrevPlace links.old) (r ++ s) → last r ≡ Some one → last s ≡ Some other
        → (result ≡ true) × MakesTwo W.PrevPlace (lent_table W.PrevPlace links.old) (lent_table W.PrevPlace links.new) (r ++ s) r s }
    ensures links_back { result ≡ true → (q : Place) × AreLinked W.PrevPlace (lent_table W.PrevPlace links.old) one q }
    ensures other { result ≡ true → (q : Place) × AreLinked W.PrevPlace (lent_table W.PrevPlace links.old) other q }
    ensures touched { result ≡ true → Touches W.is_linked (lent_table W.PrevPlace links.old) (lent_table W.PrevPlace links.new) []
        (Some one ∷ beside W.PrevPlace After (lent_table W.PrevPlace links.old) one ∷ Some other ∷ beside W.PrevPlace After (lent_table W.PrevPlace links.old) other ∷ []) }
    ensures refused { result ≡ false → links.new ≡ links.old }
    ensures extent { (lent_table W.PrevPlace links.new).extent ≡ (lent_table W.PrevPlace links.old).extent }
{
    let Some(first) = beside(&*links, GapSide::After, one) else {
        return false;
    };
    let Some(second) = beside(&*links, GapSide::After, other) else {
        return false;
    };
    cross(links, first, second);
    true
}
