//! Tests of what the links of a table contain about neighbors, for each kind of collection that can use the table.

ghost use Rattle.std.specs.Prelude.{◌≡◌};
ghost use Rattle.ic_link_ops.specs.Prelude.{Place, IsCovered, IsLinked, IsNameable, HasRoom};

use crate::fixture::{LAST, LAST_NARROW, at, check, one_linked};
use ic_link_ops::linked_list::LinkedListOps;
use ic_link_ops::rbtree::{self, RBTreeOps};
use ic_link_ops::singly_linked_list::SinglyLinkedListOps;
use ic_link_ops::xor_linked_list::{self, XorLinkedListOps};
use ic_link_ops::{Color, LentTable, Link, LinkOps, NodeWords, linked_list};
use ic_unsafe_ref::Place;

// Sets the place after a linked place, and returns the place after it as the table has it.
fn singly<L: SinglyLinkedListOps>(links: &mut L, place: Place, next: Option<Place>) -> Option<Place>
    requires linked { IsLinked L.linked (L.table links.old) place }
    requires next { IsNameable L.CanName next }
    ensures linked { IsLinked L.linked (L.table links.new) place }
{
    links.set_next(place, next);
    links.next(place)
}

// Sets the places before and after a linked place, and returns both as the table has them.
fn doubly<L: LinkedListOps>(
    links: &mut L,
    place: Place,
    prev: Option<Place>,
    next: Option<Place>,
) -> [Option<Place>; 2]
    requires linked { IsLinked L.linked (L.table links.old) place }
    requires prev { IsNameable L.CanName prev }
    requires next { IsNameable L.CanName next }
    ensures linked { IsLinked L.linked (L.table links.new) place }
{
    links.set_prev(place, prev);
    links.set_next(place, next);
    [links.prev(place), links.next(place)]
}

// Sets the place before a linked place in an XOR list to `first`, and the place after it to none and then to `last`. Returns both places as the table has
// them.
fn xor<L: XorLinkedListOps>(
    links: &mut L,
    place: Place,
    first: Place,
    last: Place,
) -> [Option<Place>; 2]
    requires linked { IsLinked L.linked (L.table links.old) place }
    requires first { L.CanName first }
    requires last { L.CanName last }
    ensures linked { IsLinked L.linked (L.table links.new) place }
{
    let (prev, next) = (Some(first), Some(last));
    links.set(place, prev, None);
    links.replace_next_or_prev(place, None, next);
    [links.prev(place, next), links.next(place, prev)]
}

// Sets the left child of a linked place to the first place, its right child and its parent to the last place, and its color to red. Returns the
// children, the parent and the color as the table has them.
fn tree<L: RBTreeOps>(
    links: &mut L,
    place: Place,
    first: Place,
    last: Place,
) -> ([Option<Place>; 3], Color)
    requires linked { IsLinked L.linked (L.table links.old) place }
    requires first { L.CanName first }
    requires last { L.CanName last }
    ensures linked { IsLinked L.linked (L.table links.new) place }
{
    links.set_left(place, Some(first));
    links.set_right(place, Some(last));
    links.set_parent(place, Some(last));
    links.set_color(place, Color::Red);
    let found = [links.left(place), links.right(place), links.parent(place)];
    (found, links.color(place))
}

// Returns whether each of the four kinds of links reads back what was written at a linked place. The four kinds write the next place, both neighbors,
// both neighbors in an XOR list, and a red member of a tree. The links name the first and the last place that the table can name.
fn four_kinds<L: RBTreeOps + LinkedListOps + SinglyLinkedListOps + XorLinkedListOps>(
    links: &mut L,
    place: Place,
    first: Place,
    last: Place,
) -> [bool; 4]
    requires linked { IsLinked L.linked (L.table links.old) place }
    requires first { L.CanName first }
    requires last { L.CanName last }
    ensures linked { IsLinked L.linked (L.table links.new) place }
    ensures covered { IsCovered (L.table links.new) place }
{
    let (one, other) = (Some(first), Some(last));
    let is_singly = singly(links, place, other) == other;
    let is_doubly = doubly(links, place, other, None) == [other, None];
    let is_xor = xor(links, place, first, last) == [one, other];
    let is_tree = tree(links, place, first, last) == ([one, other, other], Color::Red);
    [is_singly, is_doubly, is_xor, is_tree]
}

// Links the place in a view of the links, and returns whether each of the four kinds of links then reads back in this view what was written.
fn four_kinds_by_view<W: NodeWords>(
    links: &mut [Link<W>],
    place: Place,
    first: Place,
    last: Place,
) -> [bool; 4]
    requires first { HasRoom W.width first }
    requires last { HasRoom W.width last }
{
    let mut links = LentTable::new(links);
    if place.index() < links.covers() && links.acquire_link(place) && links.is_linked(place) {
        return four_kinds(&mut links, place, first, last);
    }
    [false; 4]
}

// In a table of tree links, each of the four kinds of links must read back what was written, and the words of the link must be the expected numbers.
// Promise: words of a tree link, third word below the last place.
#[test]
fn four_kinds_in_a_table_of_trees(rt: HostRuntime) {
    let (mut links, place): (rbtree::LinkOps, Place) = one_linked(&rt, rt.alloc());
    let (first, last) = (at(&rt, 0), at(&rt, LAST));
    let linked = links.link(place).words();
    let is_kept = four_kinds(&mut links, place, first, last);
    let written = links.link(place).words();
    links.release_link(place);
    let released = links.link(place).words();
    let is_kept_by_view = four_kinds_by_view(links.lend(), place, first, last);
    let new = rbtree::Link::new().words();
    check(&rt, [is_kept, is_kept_by_view] == [[true; 4]; 2]);
    check(&rt, [new, linked] == [[0, 0, 0], [0, 0, 3]]);
    let red_below_the_last = [2, 8_589_934_592, 17_179_869_186];
    let unlinked = [2, 8_589_934_592, 0];
    check(&rt, [written, released] == [red_below_the_last, unlinked]);
}

// In a table of tree links with words of 4 bytes, each of the four kinds of links must read back what was written.
// Promise: the last place that a narrow table names.
#[test]
fn four_kinds_in_a_narrow_table_of_trees(rt: HostRuntime) {
    let (mut links, place): (rbtree::NarrowLinkOps, Place) = one_linked(&rt, rt.alloc());
    let (first, last) = (at(&rt, 0), at(&rt, LAST_NARROW));
    let is_kept = four_kinds(&mut links, place, first, last);
    links.release_link(place);
    let is_kept_by_view = four_kinds_by_view(links.lend(), place, first, last);
    check(&rt, [is_kept, is_kept_by_view] == [[true; 4]; 2]);
}

// Writes the neighbors of a linked place as an XOR list does, and returns whether a doubly and a singly linked list read `wanted` as the place after
// it.
fn is_read<L: LinkedListOps + SinglyLinkedListOps + XorLinkedListOps>(
    links: &mut L,
    place: Place,
    prev: Place,
    next: Place,
    wanted: Option<Place>,
) -> bool
    requires linked { IsLinked L.linked (L.table links.old) place }
    requires prev { L.CanName prev }
    requires next { L.CanName next }
    ensures linked { IsLinked L.linked (L.table links.new) place }
{
    links.set(place, Some(prev), Some(next));
    let by_doubly = LinkedListOps::next(links, place);
    [by_doubly, SinglyLinkedListOps::next(links, place)] == [wanted; 2]
}

// Other kinds of lists must read the words that an XOR list has written. They must read the word of the neighbors 0 and 2 as the place 1, the word of the
// first and the last place as a place that no table can cover, and the word of two equal neighbors as no place.
// Promise: a word of another kind.
#[test]
fn what_an_xor_list_wrote_is_read_by_others(rt: HostRuntime) {
    let (mut links, place): (linked_list::LinkOps, Place) = one_linked(&rt, rt.alloc());
    let (first, third, last) = (at(&rt, 0), at(&rt, 2), at(&rt, LAST));
    let second = is_read(&mut links, place, first, third, Place::new(1));
    let far = Place::from_word(34_359_738_376);
    let beyond = is_read(&mut links, place, first, last, far);
    let none = is_read(&mut links, place, third, third, None);
    check(&rt, [second, beyond, none] == [true; 3]);
}

// The word of an XOR link must be the expected number if the link is new, if its member is alone, and if its member is between the first and the last
// place.
// Promise: numbers of the first and the last place.
#[test]
fn words_of_an_xor_list(rt: HostRuntime) {
    let (mut links, place): (xor_linked_list::LinkOps, Place) = one_linked(&rt, rt.alloc());
    let (first, last) = (Some(at(&rt, 0)), Some(at(&rt, LAST)));
    let new = xor_linked_list::Link::new().word();
    let alone = links.link(place).word();
    links.set(place, first, last);
    let between = links.link(place).word();
    let is_last = XorLinkedListOps::next(&links, place, first) == last;
    check(
        &rt,
        is_last && [new, alone, between] == [1, 0, 8_589_934_594],
    );
}
