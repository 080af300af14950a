//! Functions that compute sums again, over a view of the table.
//!
//! ```text
//! recompute_up(&links, sums, kind, place); // from a place up, as long as a sum changes
//! recompute_all(&links, sums, kind);       // from each place of the table
//! ```

ghost use Rattle.std.specs.Prelude.{◌≡◌, ◌≤◌, ◌+◌, Bool, true, Option, Some, List, length};
ghost use Rattle.ic_link_ops.specs.Prelude.{Place, index_of};
ghost use Rattle.ic_raw.specs.Prelude.{also, has_place, IsSeen};
ghost use Rattle.ic_raw.specs.Tree.{lent_table};
ghost use Rattle.ic_raw_augmented.specs.Written.{is_noted};
ghost use Rattle.ic_raw_augmented.specs.Sums.{IsSummed, IsSummedBut, KeepsValues, StaysBeside, is_child_of, is_from};

use crate::sums::{Kind, RawSum, joined, set_sum, sum_below};
use crate::written::Written;
use ic_link_ops::Side;
use ic_raw::{RawTable, RawThree, place_in};
use ic_rbtree::NodeStore;
use ic_unsafe_ref::Place;

/// The greatest number of turns of a loop that goes up or down a tree. No way up or down a valid red-black tree needs more turns.
pub(crate) const TURNS: u32 = 67;

// Returns whether the words of the place `above` name `place` as a child.
#[inline]
fn is_below(links: &RawTable<'_, RawThree>, place: Place, above: Place) -> bool
    requires place { has_place (lent_table links.now) place ≡ true }
    requires above { has_place (lent_table links.now) above ≡ true }
    ensures { result ≡ is_child_of (lent_table links.now) above place }
{
    links.is_child(place, above, Side::Left) || links.is_child(place, above, Side::Right)
}

// Computes the sum at `place` again, and then the sums of the members above, one after the other, until a sum does not change. If the words represent no tree,
// some sums may stay wrong.
pub(crate) fn recompute_up(
    links: &RawTable<'_, RawThree>,
    sums: &mut [RawSum],
    kind: Kind,
    place: Place,
)
    requires inside { has_place (lent_table links.now) place ≡ true }
    requires enough { (lent_table links.now).extent.places ≤ length sums.old }
    ensures right { (root : Option Place) (s : List Place) (but : Place → Bool) → IsSeen (lent_table links.now) root s
        → IsSummedBut kind (lent_table links.now) sums.old s (also (Some place) but) → IsSummedBut kind (lent_table links.now) sums.new s but }
    ensures kept { KeepsValues sums.old sums.new }
    ensures beside { StaysBeside (lent_table links.now) sums.old sums.new place }
{
    let mut place = place;
    for _ in 0..TURNS {
        let sum = joined(links, &*sums, kind, place);
        if sum_below(&*sums, Some(place)) == sum {
            return;
        }
        set_sum(sums, place, sum);
        let Some(above) = links.parent(place) else {
            return;
        };
        if !is_below(links, place, above) {
            return;
        }
        place = above;
    }
}

// Computes all sums of the table again.
pub(crate) fn recompute_all(links: &RawTable<'_, RawThree>, sums: &mut [RawSum], kind: Kind)
    requires enough { (lent_table links.now).extent.places ≤ length sums.old }
    ensures right { (root : Option Place) (s : List Place) → IsSeen (lent_table links.now) root s → IsSummed kind (lent_table links.now) sums.new s }
    ensures kept { KeepsValues sums.old sums.new }
{
    let mut index = 0;
    while index < links.places() {
        recompute_index(links, sums, kind, index);
        index += 1;
    }
}

// Returns the place with the given index.
#[inline]
fn place_at(index: usize) -> Option<Place>
    ensures { (q : Place) → index_of q ≡ index → result ≡ Some q }
{
    place_in((index as u64).wrapping_add(1).wrapping_mul(8))
}

// Computes the sums again at `place` and at the members above. If `place` is `None` or not in the table, the call does nothing.
fn recompute_from(
    links: &RawTable<'_, RawThree>,
    sums: &mut [RawSum],
    kind: Kind,
    place: Option<Place>,
)
    requires enough { (lent_table links.now).extent.places ≤ length sums.old }
    ensures right { (root : Option Place) (s : List Place) (but : Place → Bool) → IsSeen (lent_table links.now) root s
        → IsSummedBut kind (lent_table links.now) sums.old s (also place but) → IsSummedBut kind (lent_table links.now) sums.new s but }
    ensures kept { KeepsValues sums.old sums.new }
{
    let Some(place) = place else {
        return;
    };
    if !links.covers(place) {
        return;
    }
    recompute_up(links, sums, kind, place);
}

// Computes the sums again at the place with the index `index`, and at the members above.
fn recompute_index(links: &RawTable<'_, RawThree>, sums: &mut [RawSum], kind: Kind, index: usize)
    requires enough { (lent_table links.now).extent.places ≤ length sums.old }
    ensures right { (root : Option Place) (s : List Place) → IsSeen (lent_table links.now) root s
        → IsSummedBut kind (lent_table links.now) sums.old s (is_from index) → IsSummedBut kind (lent_table links.now) sums.new s (is_from (index + 1)) }
    ensures kept { KeepsValues sums.old sums.new }
{
    recompute_from(links, sums, kind, place_at(index));
}

// Computes the sums again at each place whose children an edit has written, and at the members above.
pub(crate) fn recompute_written(
    links: &RawTable<'_, RawThree>,
    sums: &mut [RawSum],
    kind: Kind,
    written: &Written,
)
    requires enough { (lent_table links.now).extent.places ≤ length sums.old }
    ensures right { (root : Option Place) (s : List Place) → IsSeen (lent_table links.now) root s
        → IsSummedBut kind (lent_table links.now) sums.old s (is_noted written.now) → IsSummed kind (lent_table links.now) sums.new s }
    ensures kept { KeepsValues sums.old sums.new }
{
    if written.is_full {
        recompute_all(links, sums, kind);
        return;
    }
    for word in &written.words {
        recompute_from(links, sums, kind, place_in(*word));
    }
}
