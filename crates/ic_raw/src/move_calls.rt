//! This module has the calls that move a member of a doubly linked list. The member stays linked.
//!
//! ```text
//! move_to_end(table, list, GapSide::After, 7) // OK: 7 is the first member, whichever it was
//! move_at(table, list, GapSide::After, 9, 7)  // OK: and now it is after 9
//! ```

ghost use Rattle.ic_raw.specs.Words.{place_of};
ghost use Rattle.ic_raw.specs.ListCalls.{MoveCall, MoveToEndCall};

use crate::gap::GapSide;
use crate::list::{between, gap_at_end};
use crate::list_calls::{list_of, write_back};
use crate::moving;
use crate::number::place_of;
use crate::status::{NONE, NULL, OK};
use crate::table::RawTable;
use crate::words::{ListWords, RawEnds};

// Makes the move of `move_at` for any member and any gap, or returns the status of the refusal. If the member is already beside the gap, nothing
// changes.
#[cold]
#[inline(never)]
fn move_slow<W: ListWords>(
    table: &mut [W],
    list: &mut RawEnds,
    side: GapSide,
    at: u32,
    place: u32,
) -> u32
    ensures { MoveCall W.PrevPlace table.old table.new list.old list.new result side (place_of at) (place_of place) }
{
    let Some(member) = place_of(place) else {
        return NULL;
    };
    let mut links = RawTable::new(table);
    let mut edited = list_of(&*list);
    let Some((from, to)) = moving::gaps_to_move(&links, &edited, side, place_of(at), member) else {
        return links.refusal_at_both(at, place);
    };
    if !to.is_apart(member) {
        return OK;
    }
    moving::relocate(&mut links, &mut edited, from, member, to);
    write_back(list, edited);
    OK
}

/// Moves the member `place` into the gap on this side of the member `at`. If `at` is [`NONE`], the member goes to the front for [`GapSide::After`],
/// or to the back for [`GapSide::Before`]. The member stays linked during the call. O(1).
///
/// If the member is already in this position, nothing changes. The call returns [`NULL`] if `place` is [`NONE`], else the first fault of the two
/// places, or else [`BROKEN`](crate::BROKEN). A refused call changes no word.
#[inline(always)]
pub fn move_at<W: ListWords>(
    table: &mut [W],
    list: &mut RawEnds,
    side: GapSide,
    at: u32,
    place: u32,
) -> u32
    ensures { MoveCall W.PrevPlace table.old table.new list.old list.new result side (place_of at) (place_of place) }
{
    let Some(member) = place_of(place) else {
        return NULL;
    };
    let mut links = RawTable::new(table);
    let mut edited = list_of(&*list);
    let Some((from, to)) = moving::gaps_inside(&links, side, place_of(at), member) else {
        return move_slow(links.entries, list, side, at, place);
    };
    if !to.is_apart(member) {
        return OK;
    }
    moving::relocate(&mut links, &mut edited, from, member, to);
    write_back(list, edited);
    OK
}

// Makes the move of `move_to_end` in any list, or returns the status of the refusal.
#[cold]
#[inline(never)]
fn move_to_end_slow<W: ListWords>(
    table: &mut [W],
    list: &mut RawEnds,
    side: GapSide,
    place: u32,
) -> u32
    ensures { MoveToEndCall W.PrevPlace table.old table.new list.old list.new result side (place_of place) }
{
    let Some(member) = place_of(place) else {
        return NULL;
    };
    let mut links = RawTable::new(table);
    let mut edited = list_of(&*list);
    if let Some(from) = moving::beside_other_end(&links, &edited, side, member) {
        if let Some(to) = gap_at_end(&links, &edited, side) {
            moving::relocate(&mut links, &mut edited, from, member, to);
            write_back(list, edited);
            return OK;
        }
    }
    move_slow(links.entries, list, side, NONE, place)
}

/// Moves a member to the front of its list, or to the back if the side is [`GapSide::Before`]. The member stays linked during the call. O(1).
///
/// If the member is already at this end, nothing changes. The call returns [`NULL`] if `place` is [`NONE`], else the fault of the member, or else
/// [`BROKEN`](crate::BROKEN). A refused call changes no word.
#[inline(always)]
pub fn move_to_end<W: ListWords>(
    table: &mut [W],
    list: &mut RawEnds,
    side: GapSide,
    place: u32,
) -> u32
    ensures { MoveToEndCall W.PrevPlace table.old table.new list.old list.new result side (place_of place) }
{
    let Some(member) = place_of(place) else {
        return NULL;
    };
    let mut links = RawTable::new(table);
    let mut edited = list_of(&*list);
    if let Some(from) = between(&links, member) {
        if let Some(to) = gap_at_end(&links, &edited, side) {
            moving::relocate(&mut links, &mut edited, from, member, to);
            write_back(list, edited);
            return OK;
        }
    }
    if moving::is_at_end(&links, &edited, side, member) {
        return OK;
    }
    move_to_end_slow(links.entries, list, side, place)
}
