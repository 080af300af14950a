//! How the members of a chain move to other buckets, over a view of the table.
//!
//! ```text
//! let back = reverse(&mut links, front);       // so that those of one bucket keep their order
//! spread(&mut links, hashes, back, buckets);
//! ```

ghost use Rattle.std.specs.Prelude.{◌≡◌, ◌<◌, ◌≤◌, ◌%◌, ℕ, List, Option, Some, length, reverse, slice_set, true};
ghost use Rattle.std.specs.List.{AllByRecursion};
ghost use Rattle.ic_link_ops.specs.Prelude.{Place, index_of, ChangesOnly, IsLinked, ChangesOnlyIn, KeepsLinked, list_from, successor_at};
ghost use Rattle.ic_raw.specs.Prelude.{bucket_at, is_linked_one};
ghost use Rattle.ic_raw.specs.Singly.{Represents, front_of, lent_table, successor, word_of_front};
ghost use Rattle.ic_raw_keyed.specs.Growth.{LeadsToLinked, slot_for};
ghost use Rattle.ic_raw_keyed.specs.Spreading.{Spreads};

use ic_link_ops::singly_linked_list::SinglyLinkedListOps;
use ic_raw::{RawFront, RawOne, RawTable, place_in};
use ic_unsafe_ref::Place;

// Returns the number of the bucket to which the hash of a place leads.
#[inline]
fn slot_for(hashes: &[u64], count: usize, place: Place) -> usize
    requires keys { index_of place < length hashes.now }
    requires any { 1 ≤ count }
    ensures slot { result ≡ slot_for hashes.now count place }
    ensures fits { result < count }
{
    (hashes[place.index()] % count as u64) as usize
}

// Returns the first member of the chain in a bucket.
#[inline]
fn front_at(buckets: &[RawFront], slot: usize) -> Option<Place>
    requires { slot < length buckets.now }
    ensures { result ≡ front_of (bucket_at buckets.now slot) }
{
    place_in(buckets[slot].head)
}

// Makes the place `first` the first member of the chain in a bucket.
#[inline]
fn set_front(buckets: &mut [RawFront], slot: usize, first: Place)
    requires { slot < length buckets.old }
    ensures { buckets.new ≡ slice_set buckets.old slot (word_of_front (Some first)) }
{
    buckets[slot] = RawFront {
        head: Place::to_word(Some(first)),
    };
}

// Makes `after` the next place of the linked place `place`, and returns the next place that `place` had before.
#[inline]
fn turn(links: &mut RawTable<'_, RawOne>, place: Place, after: Option<Place>) -> Option<Place>
    requires { IsLinked is_linked_one (lent_table links.old) place }
    ensures next { result ≡ (successor_at successor (lent_table links.old) place).next }
    ensures set { successor_at successor (lent_table links.new) place ≡ record { linked = true; next = after } }
    ensures frame { ChangesOnly (lent_table links.old) (lent_table links.new) place }
    ensures links { KeepsLinked is_linked_one (lent_table links.old) (lent_table links.new) }
{
    let next = links.next(place);
    links.set_next(place, after);
    next
}

// Returns whether the links from `front` on lead to an end, and each place on the way belongs in a bucket that is empty or begins with a linked place.
pub(crate) fn can_move(
    links: &RawTable<'_, RawOne>,
    hashes: &[u64],
    front: Option<Place>,
    buckets: &[RawFront],
) -> bool
    requires keys { (lent_table links.now).extent.places ≤ length hashes.now }
    requires any { 1 ≤ length buckets.now }
    ensures ended { result ≡ true → (s : List Place) × Represents (lent_table links.now) (list_from front) s
        × AllByRecursion (LeadsToLinked (lent_table links.now) hashes.now buckets.now) s }
    ensures shown { (s : List Place) → Represents (lent_table links.now) (list_from front) s
        → AllByRecursion (LeadsToLinked (lent_table links.now) hashes.now buckets.now) s → result ≡ true }
{
    let mut current = front;
    let mut left = links.places();
    while left > 0 {
        let Some(place) = current else {
            return true;
        };
        if !links.is_linked(place) {
            return false;
        }
        if !links.stands(front_at(buckets, slot_for(hashes, buckets.len(), place))) {
            return false;
        }
        current = links.next(place);
        left -= 1;
    }
    current.is_none()
}

// Reverses a list, and returns its new first member.
pub(crate) fn reverse(links: &mut RawTable<'_, RawOne>, front: Option<Place>) -> Option<Place>
    requires { (s : List Place) × Represents (lent_table links.old) (list_from front) s }
    ensures reversed { (s : List Place) → Represents (lent_table links.old) (list_from front) s
        → Represents (lent_table links.new) (list_from result) (reverse s) }
    ensures frame { (s : List Place) → Represents (lent_table links.old) (list_from front) s → ChangesOnlyIn (lent_table links.old) (lent_table links.new) s }
    ensures links { KeepsLinked is_linked_one (lent_table links.old) (lent_table links.new) }
{
    let mut back = None;
    let mut at = front;
    let mut left = links.places();
    while left > 0 {
        let Some(place) = at else {
            return back;
        };
        at = turn(links, place, back);
        back = Some(place);
        left -= 1;
    }
    back
}

// Moves each member of a list, one after the other, to the front of the bucket to which the hash of the member leads.
pub(crate) fn spread(
    links: &mut RawTable<'_, RawOne>,
    hashes: &[u64],
    front: Option<Place>,
    buckets: &mut [RawFront],
)
    requires shown { (r : List Place) × Represents (lent_table links.old) (list_from front) r }
    requires keys { (lent_table links.old).extent.places ≤ length hashes.now }
    requires any { 1 ≤ length buckets.old }
    ensures spread { (r : List Place) → Represents (lent_table links.old) (list_from front) r → Spreads hashes.now links.old links.new buckets.old buckets.new r }
    ensures links { KeepsLinked is_linked_one (lent_table links.old) (lent_table links.new) }
    ensures count { length buckets.new ≡ length buckets.old }
{
    let mut at = front;
    let mut left = links.places();
    while left > 0 {
        let Some(place) = at else {
            return;
        };
        let slot = slot_for(hashes, buckets.len(), place);
        at = turn(links, place, front_at(&*buckets, slot));
        set_front(buckets, slot, place);
        left -= 1;
    }
}
