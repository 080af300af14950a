//! Tests of tables: how many places they can cover, and whether a place is linked in a table and in a view of the table.

ghost use Rattle.std.specs.Prelude.{◌≤◌};

use crate::fixture::{at, check, one_linked};
use ic_link_ops::singly_linked_list::{Link, LinkOps};
use ic_link_ops::{
    LentTable, LinkOps as _, PlainTable, Words, linked_list, rbtree, singly_linked_list,
    xor_linked_list,
};
use ic_test_support::rationed::Rationed;
use ic_unsafe_ref::Place;

// The greatest number of places that a table can have: `MOST` with words of 8 bytes, `MOST_NARROW` with words of 4 bytes.
const MOST: usize = 4_294_967_296;

const MOST_NARROW: usize = 536_870_911;

// Lets the table cover this many places. Returns the number of the error, or 0 if there is none, and how many places the table then covers.
fn cover<W: Words>(links: &mut PlainTable<W, &Rationed>, count: usize) -> [usize; 2] {
    let refused = match links.cover(count) {
        Ok(()) => 0,
        Err(refused) => refused as usize,
    };
    [refused, links.covers()]
}

// Links the place if it is covered, and returns whether it is covered and was not linked before.
fn link<W: Words>(links: &mut PlainTable<W, &Rationed>, place: Place) -> bool {
    place.index() < links.covers() && links.acquire_link(place)
}

// Returns whether a new table grows if there is memory, and does not change if its growth is refused, even after it covers a linked place. Its words
// have numbers for the first `most` places. To cover `most` places the table requests memory, but one place more is refused without a request.
fn grows<W: Words>(
    mut links: PlainTable<W, &Rationed>,
    memory: &Rationed,
    place: Place,
    most: usize,
) -> bool
    requires few { most ≤ 4294967296 }
{
    memory.refuse(0);
    let new = [
        cover(&mut links, most + 1),
        cover(&mut links, most),
        cover(&mut links, 3),
    ];
    let is_linked = link(&mut links, place);
    memory.refuse(0);
    let grown = [
        cover(&mut links, 9),
        cover(&mut links, most + 1),
        cover(&mut links, 2),
    ];
    let is_linked_again = link(&mut links, place);
    // the number 1 means that the table cannot have this many places, and 2 that there is no memory
    new == [[1, 0], [2, 0], [0, 3]]
        && grown == [[2, 3], [1, 3], [0, 3]]
        && [is_linked, is_linked_again] == [true, false]
        && cover(&mut links, 9) == [0, 9]
}

// Tables of four kinds must grow if there is memory, and must not change if their growth is refused.
// Promise: limits of a table, a table without memory, always-out-of-memory in a table.
#[test]
fn tables_grow_where_there_is_memory(rt: HostRuntime) {
    let memory = Rationed::new(rt.alloc(), 0);
    let place = at(&rt, 0);
    let singly = LinkOps::new(&memory);
    check(&rt, grows(singly, &memory, place, MOST));
    let doubly = linked_list::LinkOps::new(&memory);
    check(&rt, grows(doubly, &memory, place, MOST));
    let xor = xor_linked_list::LinkOps::new(&memory);
    check(&rt, grows(xor, &memory, place, MOST));
    let tree = rbtree::LinkOps::new(&memory);
    check(&rt, grows(tree, &memory, place, MOST));
    // each of the four tables makes four requests, of which two are refused
    check(&rt, memory.requests() == 16);
}

// Tables of 4-byte words must grow if there is memory, and must not change if their growth is refused.
// Promise: limits of a narrow table.
#[test]
fn narrow_tables_grow_where_there_is_memory(rt: HostRuntime) {
    let memory = Rationed::new(rt.alloc(), 0);
    let place = at(&rt, 0);
    let singly = singly_linked_list::NarrowLinkOps::new(&memory);
    check(&rt, grows(singly, &memory, place, MOST_NARROW));
    let doubly = linked_list::NarrowLinkOps::new(&memory);
    check(&rt, grows(doubly, &memory, place, MOST_NARROW));
    let xor = xor_linked_list::NarrowLinkOps::new(&memory);
    check(&rt, grows(xor, &memory, place, MOST_NARROW));
    let tree = rbtree::NarrowLinkOps::new(&memory);
    check(&rt, grows(tree, &memory, place, MOST_NARROW));
    check(&rt, memory.requests() == 16);
}

// Returns whether each of four links is linked: the link, a copy of it, a new link and the default link.
fn copies(link: &Link) -> Option<[bool; 4]> {
    let copy = link.clone().ok()?;
    let (new, default) = (Link::new(), Link::default());
    Some([
        link.is_linked(),
        copy.is_linked(),
        new.is_linked(),
        default.is_linked(),
    ])
}

// Returns four facts about a linked place in a view. The first two are whether the place can be linked again, and whether it is still linked after it
// is unlinked by force. The last two are whether it can then be linked, and whether it is linked after its release.
fn by_view(links: &mut [Link], place: Place) -> [bool; 4] {
    let mut links = LentTable::new(links);
    if place.index() >= links.covers() {
        return [true; 4];
    }
    let had = links.acquire_link(place);
    links.force_unlink(place);
    let forced = links.link(place).is_linked();
    let again = links.acquire_link(place);
    if links.is_linked(place) {
        links.release_link(place);
    }
    [had, forced, again, links.is_linked(place)]
}

#[test]
fn a_link_copied_and_viewed(rt: HostRuntime) {
    let (mut links, place): (LinkOps, Place) = one_linked(&rt, rt.alloc());
    let found = copies(links.link(place));
    let viewed = by_view(links.lend(), place);
    check(&rt, found == Some([true, false, false, false]));
    check(&rt, viewed == [false, false, true, false]);
    check(
        &rt,
        place.index() < links.covers() && !links.is_linked(place),
    );
}
