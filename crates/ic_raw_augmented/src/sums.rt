//! The sums that a caller keeps beside the places of a table, and how two values are combined.
//!
//! ```text
//! struct ic_sum { uint64_t value, sum; };
//! ```

ghost use Rattle.std.specs.Prelude.{◌≡◌, ◌≢◌, ◌<◌, max, length, true};
ghost use Rattle.ic_link_ops.specs.Prelude.{Place, index_of};
ghost use Rattle.ic_raw.specs.Seen.{has_place};
ghost use Rattle.ic_raw.specs.Tree.{lent_table};
ghost use Rattle.ic_raw_augmented.specs.Sums.{KeepsValues, combined, joined_at, kind_of, sum_at, sum_below, value_at};

use ic_raw::{RawTable, RawThree};
use ic_rbtree::NodeStore;
use ic_unsafe_ref::Place;

/// What a caller keeps for each place in addition to the link of the place: a value and a sum. The caller writes the value. The calls write the sum, which
/// combines the values of the place and of all members below it.
#[repr(C)]
#[derive(Clone, Copy)]
pub struct RawSum {
    /// The value of the place. The caller writes the value, and no call changes the value.
    pub value: u64,
    /// The combined values of the place and of all members below it. The calls write the sum.
    pub sum: u64,
}

/// How the values of a tree's members are combined.
#[derive(Clone, Copy)]
pub enum Kind {
    /// The values are added, up to at most `u64::MAX`. With the value 1 at each place, the sum counts members.
    Sum,
    /// The greatest of the values is taken.
    Greatest,
}

impl Kind {
    /// Returns the kind with the given number: [`Kind::Sum`] for 0, and [`Kind::Greatest`] for any other number. O(1).
    #[inline]
    pub fn of(number: u32) -> Kind
        ensures { result ≡ kind_of number }
    {
        if number == 0 {
            Kind::Sum
        } else {
            Kind::Greatest
        }
    }

    // Returns two numbers combined: their sum up to `u64::MAX`, or the greater number.
    #[inline]
    pub(crate) fn combine(self, a: u64, b: u64) -> u64
        ensures { result ≡ combined self a b }
    {
        match self {
            Kind::Sum => a.saturating_add(b),
            Kind::Greatest => greater(a, b),
        }
    }
}

// Returns the greater of two numbers.
#[inline]
fn greater(a: u64, b: u64) -> u64
    ensures { result ≡ max a b }
{
    if a < b { b } else { a }
}

// Returns the value of `place`, or 0 if `sums` has no entry for `place`.
#[inline]
pub(crate) fn value_at(sums: &[RawSum], place: Place) -> u64
    ensures { result ≡ value_at sums.now place }
{
    let index = place.index();
    if index < sums.len() {
        sums[index].value
    } else {
        0
    }
}

// Returns the sum at `end`, the root of a subtree, or 0 if `end` is `None`, so that the subtree is empty.
#[inline]
pub(crate) fn sum_below(sums: &[RawSum], end: Option<Place>) -> u64
    ensures { result ≡ sum_below sums.now end }
{
    let Some(place) = end else {
        return 0;
    };
    let index = place.index();
    if index < sums.len() {
        sums[index].sum
    } else {
        0
    }
}

// Writes the sum at a place.
#[inline]
pub(crate) fn set_sum(sums: &mut [RawSum], place: Place, sum: u64)
    requires enough { index_of place < length sums.old }
    ensures set { sum_at sums.new place ≡ sum }
    ensures others { (q : Place) → q ≢ place → sum_at sums.new q ≡ sum_at sums.old q }
    ensures kept { KeepsValues sums.old sums.new }
{
    let kept = &mut sums[place.index()];
    kept.sum = sum;
}

// Returns the value of a place combined with the sums of its two children.
#[inline]
pub(crate) fn joined(
    links: &RawTable<'_, RawThree>,
    sums: &[RawSum],
    kind: Kind,
    place: Place,
) -> u64
    requires { has_place (lent_table links.now) place ≡ true }
    ensures { result ≡ joined_at kind (lent_table links.now) sums.now place }
{
    let left = sum_below(sums, links.left(place));
    let right = sum_below(sums, links.right(place));
    kind.combine(left, kind.combine(value_at(sums, place), right))
}
