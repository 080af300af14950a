//! The calls of this module check that the words represent a list, a tree or a hash table, and count its members.
//!
//! ```text
//! check_list(table, list, &mut members) // OK, or BROKEN where the words represent no list
//! ```

ghost use Rattle.std.specs.Prelude.{◌<◌, ◌≤◌, MatchOption, length};
ghost use Rattle.ic_check.specs.Checked.{IsRepresented, RepresentsNone};
ghost use Rattle.ic_raw.specs.Doubly as doubly;
ghost use Rattle.ic_raw.specs.Singly as singly;
ghost use Rattle.ic_raw.specs.Tables.{raw_entries};
ghost use Rattle.ic_raw.specs.Tree.{RepresentsTree};
ghost use Rattle.ic_raw.specs.CheckCalls.{CheckCall, HashCheckCall, HoldsByHash, IsOwnChain};

use crate::list_calls::list_of;
use crate::marked_tree::MarkedTree;
use crate::number::place_in;
use crate::stack_calls::stack_of;
use crate::status::{BROKEN, OK, OUT_OF_RANGE};
use crate::table::RawTable;
use crate::tree_calls::tree_of;
use crate::words::{RawEnds, RawFront, RawOne, RawRoot, RawThree};
use ic_check::{TellsLinks, check};
use ic_link_ops::singly_linked_list::SinglyLinkedListOps;
use ic_link_ops::{PrevPlace, Words};
use ic_unsafe_ref::Place;

impl<W: Words> TellsLinks for RawTable<'_, W> {
    #[inline]
    fn covered_places(&self) -> usize {
        self.places()
    }

    #[inline]
    fn tells_linked(&self, place: Place) -> bool {
        self.is_linked(place)
    }
}

/// Checks that the words represent a doubly linked list, and stores the number of its members in `members`. If the words represent none, the call
/// returns [`BROKEN`]. O(n).
///
/// The call writes nothing else. If it returns [`OK`], each other call does with this list what the comment of that call says.
#[inline]
pub fn check_list<W: PrevPlace>(table: &mut [W], list: &RawEnds, members: &mut u64) -> u32
    ensures { CheckCall table.old table.new result (doubly.RepresentsList W.PrevPlace table.old list.now) members.old members.new }
{
    let links = RawTable::new(table);
    let Some(count) = check(&list_of(list), &links) else {
        return BROKEN;
    };
    *members = count as u64;
    OK
}

/// Checks that the words represent a singly linked list, and stores the number of its members in `members`. If the words represent none, the call
/// returns [`BROKEN`]. O(n).
///
/// The call writes nothing else. If it returns [`OK`], each other call does with this list what the comment of that call says.
#[inline]
pub fn check_stack(table: &mut [RawOne], list: &RawFront, members: &mut u64) -> u32
    ensures { CheckCall table.old table.new result (singly.RepresentsList table.old list.now) members.old members.new }
{
    let links = RawTable::new(table);
    let Some(count) = check(&stack_of(list), &links) else {
        return BROKEN;
    };
    *members = count as u64;
    OK
}

/// Checks that the words represent a red-black tree, and stores the number of its members in `members`. If the words represent none, the call returns
/// [`BROKEN`]. O(n).
///
/// The call writes nothing else, and it requires no keys. If it returns [`OK`], each other call does with this tree what the comment of that call
/// says.
#[inline]
pub fn check_tree(table: &mut [RawThree], tree: &RawRoot, members: &mut u64) -> u32
    ensures { CheckCall table.old table.new result (RepresentsTree table.old tree.now) members.old members.new }
{
    let links = MarkedTree::new(table);
    let Some(count) = ic_check::check_tree(&tree_of(tree), &links) else {
        return BROKEN;
    };
    *members = count as u64;
    OK
}

// Returns how many members the chain in the bucket `at` has, or `None` if the chain has no end or if the hash of a member leads to another bucket.
fn own_members(
    links: &RawTable<'_, RawOne>,
    hashes: &[u64],
    buckets: &[RawFront],
    at: usize,
) -> Option<usize>
    requires hashes { (singly.lent_table links.now).extent.places ≤ length hashes.now }
    requires in_bounds { at < length buckets.now }
    ensures { MatchOption result (RepresentsNone (IsOwnChain (raw_entries links.now) hashes.now buckets.now at))
        (IsRepresented (IsOwnChain (raw_entries links.now) hashes.now buckets.now at)) }
{
    let mut current = place_in(buckets[at].head);
    let mut members = 0;
    while let Some(place) = current {
        if members >= links.places() {
            return None;
        }
        if !links.is_linked(place) {
            return None;
        }
        if (hashes[place.index()] % buckets.len() as u64) as usize != at {
            return None;
        }
        current = links.next(place);
        members += 1;
    }
    Some(members)
}

// Returns how many members all chains have together, or `None` if a chain has no end or if the hash of a member leads to another bucket.
fn all_members(links: &RawTable<'_, RawOne>, hashes: &[u64], buckets: &[RawFront]) -> Option<usize>
    requires hashes { (singly.lent_table links.now).extent.places ≤ length hashes.now }
    ensures { MatchOption result (RepresentsNone (HoldsByHash (raw_entries links.now) hashes.now buckets.now))
        (IsRepresented (HoldsByHash (raw_entries links.now) hashes.now buckets.now)) }
{
    let mut members = 0;
    let mut at = 0;
    while at < buckets.len() {
        let Some(more) = own_members(links, hashes, buckets, at) else {
            return None;
        };
        members += more;
        at += 1;
    }
    Some(members)
}

/// Checks that the words represent a hash table, and stores the number of its members in `members`. The call returns [`BROKEN`] if a chain has no
/// end, or if a member is not in the bucket to which its hash leads. O(b + n) for b buckets and n places.
///
/// The call writes nothing else. There must be a hash for each place of the table, and at least one bucket. If the call returns [`OK`], no place is
/// in two chains, and each other call does with each chain what the comment of that call says.
#[inline]
pub fn check_hash(
    table: &mut [RawOne],
    hashes: &[u64],
    buckets: &[RawFront],
    members: &mut u64,
) -> u32
    ensures { HashCheckCall hashes.now table.old table.new result members.old members.new buckets.now }
{
    let links = RawTable::new(table);
    if hashes.len() < links.places() {
        return OUT_OF_RANGE;
    }
    if buckets.is_empty() {
        return OUT_OF_RANGE;
    }
    let Some(count) = all_members(&links, hashes, buckets) else {
        return BROKEN;
    };
    *members = count as u64;
    OK
}
