//! Edits of a collection of one kind at a gap. Each edit gets the position of the collection's cursor as an argument, and may move it.
//!
//! ```text
//! at_gap::insert(list, links, at, Gap::Back, place) // whether its link was acquired: then it is the last member, and `at` is null
//! at_gap::remove(list, links, at, Gap::Front)      // the first member, which is out, and `at` is null
//! ```

ghost use Rattle.std.specs.Prelude.{◌≡◌, true, List};
ghost use Rattle.std.specs.Bool.{OnTrue, OnFalse};
ghost use Rattle.ic_link_ops.specs.Prelude.{Place, IsAfter, IsBefore, IsCovered, site, ReplacesThere};
ghost use Rattle.ic_any_collection.specs.Prelude.{RepresentsChain, IsValidAt, can_remove, from, is_after, rests, InsertsInGap, RemovesInGap};
ghost use Rattle.ic_cursors.specs.Answers as answer;
ghost use Rattle.ic_cursors.specs.Edited.{Edited};
ghost use Rattle.ic_any_collection.specs.declared.kind.Kind.TheVariants as kind;

use crate::gap::Gap;
use ic_chain::{BidirectionalLinks, DoubleEnded, LinkList, ListPosition};
use ic_cursors::{Bidirectional, Collection, CursorOps, ForwardOnly, Position};
use ic_link_ops::LinkOps;
use ic_unsafe_ref::{Place, UnsafeRef};

// Returns the position from which an edit at the gap is made: null if the gap is an end of the list, and otherwise the cursor's position.
#[inline]
fn start<C: Collection>(list: &C, gap: Gap, at: &C::Position) -> C::Position
    ensures start { result ≡ from gap (C.null_of list.now) at.now }
    ensures member { C.Position.member result ≡ rests gap (C.Position.member at.now) }
{
    match gap {
        Gap::Front | Gap::Back => list.null_position(),
        Gap::Before | Gap::After => at.again(),
    }
}

// Moves the cursor to the position `there` after an edit, if the object's link was acquired. If the object was already linked, the cursor stays.
#[inline]
fn settled<P: Position>(at: &mut P, there: P, acquired: bool) -> bool
    ensures same { result ≡ acquired }
    ensures goes { OnTrue result (at.new ≡ there) }
    ensures stays { OnFalse result (at.new ≡ at.old) }
{
    if acquired {
        *at = there;
    }
    acquired
}

/// Inserts the object into the gap `Front` or `After`, and returns whether the object's link was acquired.
#[inline(always)]
pub(crate) fn insert_after<C: CursorOps<L>, L: LinkOps>(
    list: &mut C,
    links: &mut L,
    at: &mut C::Position,
    gap: Gap,
    object: Place,
) -> bool
    requires after { is_after gap ≡ true }
    requires covered { IsCovered (L.table links.old) object }
    requires stands { C.IsValidAt links.old list.old (from gap (C.null_of list.old) at.old) }
    ensures { InsertsInGap C.Represents L.table L.Trace C.IsValidAt C.head_of C.Position.member C.Object L.Refused gap object result
        links.old links.new list.old list.new at.old at.new }
{
    let mut there = start(&*list, gap, &*at);
    let acquired = list.insert_after_at(links, &mut there, object);
    settled(at, there, acquired)
}

/// Inserts the object into the gap, and returns whether the object's link was acquired.
#[inline(always)]
pub(crate) fn insert<C: Bidirectional<L>, L: LinkOps>(
    list: &mut C,
    links: &mut L,
    at: &mut C::Position,
    gap: Gap,
    object: Place,
) -> bool
    requires covered { IsCovered (L.table links.old) object }
    requires stands { C.IsValidAt links.old list.old (from gap (C.null_of list.old) at.old) }
    ensures { InsertsInGap C.Represents L.table L.Trace C.IsValidAt C.head_of C.Position.member C.Object L.Refused gap object result
        links.old links.new list.old list.new at.old at.new }
{
    if gap.is_after() {
        return insert_after(list, links, at, gap, object);
    }
    let mut there = start(&*list, gap, &*at);
    let acquired = list.insert_before_at(links, &mut there, object);
    settled(at, there, acquired)
}

/// Removes the member after the gap `Front` or `After`, and returns it. It returns `None` if there is no such member.
#[inline(always)]
pub(crate) fn remove_after<C: ForwardOnly<L>, L: LinkOps>(
    list: &mut C,
    links: &mut L,
    at: &mut C::Position,
    gap: Gap,
) -> Option<Place>
    requires can { can_remove gap kind.Singly ≡ true }
    requires stands { C.IsValidAt links.old list.old (from gap (C.null_of list.old) at.old) }
    ensures { RemovesInGap C.Represents L.table L.Trace C.IsValidAt C.head_of C.Position.member gap result
        links.old links.new list.old list.new at.old at.new }
{
    let mut there = start(&*list, gap, &*at);
    let out = list.remove_next_at(links, &mut there);
    *at = there;
    out
}

// Returns the place of an object, or `None` if there is no object.
#[inline]
fn place_of<T>(object: Option<UnsafeRef<T>>) -> Option<Place>
    ensures { result ≡ object }
{
    match object {
        None => None,
        Some(object) => Some(object.place()),
    }
}

/// Removes the member after the gap, or the last member if the gap is at the back, and returns it. The list has to be doubly linked, or an XOR list.
#[inline(always)]
pub(crate) fn remove<K: DoubleEnded + BidirectionalLinks<L>, T, L: LinkOps>(
    list: &mut LinkList<K, T>,
    links: &mut L,
    at: &mut K::Position,
    gap: Gap,
) -> Option<Place>
    requires can { can_remove gap kind.Doubly ≡ true }
    requires stands { IsValidAt (RepresentsChain K.Between K.kept) L.table K.Position.member K.Position.CachesNext links.old list.old at.old }
    ensures { RemovesInGap (RepresentsChain K.Between K.kept) L.table L.Trace
        (IsValidAt (RepresentsChain K.Between K.kept) L.table K.Position.member K.Position.CachesNext) (λ list. list) K.Position.member gap result
        links.old links.new list.old list.new at.old at.new }
{
    match gap {
        Gap::Front => {
            let out = list.pop_front(links);
            *at = ListPosition::null();
            place_of(out)
        }
        Gap::Back => {
            let out = list.pop_back(links);
            *at = ListPosition::null();
            place_of(out)
        }
        Gap::Before => list.remove_at(links, at),
        Gap::After => unreachable!(), // proved: such a list has no call for it
    }
}

/// Replaces the member at the position by the object. It returns the replaced member, and whether the object's link was acquired.
#[inline(always)]
pub(crate) fn replace<C: Bidirectional<L>, L: LinkOps>(
    list: &mut C,
    links: &mut L,
    at: &mut C::Position,
    object: Place,
) -> (Option<Place>, bool)
    requires covered { IsCovered (L.table links.old) object }
    requires stands { C.IsValidAt links.old list.old at.old }
    ensures out { result.0 ≡ C.Position.member at.old }
    ensures replaced { ReplacesThere C.Represents L.table L.Trace L.Refused (site links.old (C.head_of list.old) (C.Position.member at.old)) object
        (answer.replaced {T = C.Object} (C.Position.member at.old) object result.1) (site links.new (C.head_of list.new) (C.Position.member at.new)) }
    ensures kept { Edited C.IsValidAt C.Keeps list.old links.new list.new at.new }
{
    let out = at.get();
    (out, list.replace_at(links, at, object))
}
