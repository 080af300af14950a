//! Checks that use a mark for each place: the check of a list of any kind, and the check of a whole table.
//!
//! ```text
//! check_marking(&xor_list, &links, &mut marks)     // Some(3): the table represents three members for the list
//! check_all(&[ready, waiting], &links, &mut marks) // Some(5): five members, and nothing else is linked
//! check_both(&lists, &trees, &links, &mut marks)   // the same of a table with lists and trees
//! ```

ghost use Rattle.std.specs.Prelude.{◌≡◌, ◌<◌, ◌≤◌, MatchOption, length, true, false};
ghost use Rattle.std.specs.Bool.{Decides};
ghost use Rattle.ic_link_ops.specs.Prelude.{Place, index_of, IsLinked, RepresentsChain};
ghost use Rattle.ic_check.specs.WholeTables.{RepresentsAll, RepresentsBoth, RepresentsEachOnce, IsGathered, RepresentsNoneUnmarked, IsMissed, ChecksMarking, MarksLinked, is_marked, many_marked};

use crate::gather::Gather;
use crate::kinds::TellsNeighbors;
use crate::tells::TellsLinks;
use ic_chain::LinkList;
use ic_unsafe_ref::Place;

// The greatest number of places that words can name.
const ALL_PLACES: usize = 8_589_934_591;

/// Returns the number of members that the table represents for a list of any kind. The result is `None` if the table represents no sequence for the list.
///
/// If the entries of a list do not name the next place by themselves, a walk may visit a place twice and still end as the list requires. The check finds such a
/// repetition because it takes a mark for each place that the table covers. The old values of the marks do not matter. If the check returns a number, exactly
/// the members are marked afterwards. If the check returns `None`, it has marked only linked places. The check requires nothing of the words. O(n) for n
/// places. The check takes no memory.
pub fn check_marking<K: TellsNeighbors<L>, T, L: TellsLinks>(
    list: &LinkList<K, T>,
    links: &L,
    marks: &mut [bool],
) -> Option<usize>
    requires room { (L.table links.now).extent.places ≤ length marks.old }
    ensures { ChecksMarking (RepresentsChain K.Between K.kept (L.table links.now) list.now) L.linked (L.table links.now) marks.old result marks.new }
{
    clear(marks);
    list.gather(links, marks)
}

/// Returns the number of members of all given collections together. The result is `None` if the table represents no sequence for one of the collections, if two
/// collections share a place, or if a linked place is no member.
///
/// The collections are lists of one kind, or trees. The check requires nothing of the words, but there must be a mark for each place that the table covers. The
/// old values of the marks do not matter. The check sets marks as [`check_marking`] does. O(n) for n places. The check takes no memory.
pub fn check_all<C: Gather<L>, L: TellsLinks>(
    collections: &[C],
    links: &L,
    marks: &mut [bool],
) -> Option<usize>
    requires room { (L.table links.now).extent.places ≤ length marks.old }
    ensures { ChecksMarking (RepresentsAll (λ c. C.Represents c (L.table links.now)) L.linked (L.table links.now) collections.now)
        L.linked (L.table links.now) marks.old result marks.new }
{
    clear(marks);
    let Some(count) = gather_each(collections, links, marks) else {
        return None;
    };
    if are_all_marked(links, marks) {
        Some(count)
    } else {
        None
    }
}

/// Checks a table with collections of two kinds, such as lists and trees, as [`check_all`] does. The call has the requirements and the cost of [`check_all`],
/// and sets marks as [`check_all`] does.
pub fn check_both<C: Gather<L>, D: Gather<L>, L: TellsLinks>(
    first: &[C],
    second: &[D],
    links: &L,
    marks: &mut [bool],
) -> Option<usize>
    requires room { (L.table links.now).extent.places ≤ length marks.old }
    ensures { ChecksMarking
        (RepresentsBoth (λ c. C.Represents c (L.table links.now)) (λ c. D.Represents c (L.table links.now)) L.linked (L.table links.now)
        first.now second.now)
        L.linked (L.table links.now) marks.old result marks.new }
{
    clear(marks);
    let Some(count) = gather_each(first, links, marks) else {
        return None;
    };
    let Some(more) = gather_each(second, links, marks) else {
        return None;
    };
    if are_all_marked(links, marks) {
        Some(count + more)
    } else {
        None
    }
}

// Marks the members of all given collections, and returns their number. The result is `None` if the table represents no sequence for one of the collections, if
// two collections share a place, or if a member was marked before.
fn gather_each<C: Gather<L>, L: TellsLinks>(
    collections: &[C],
    links: &L,
    marks: &mut [bool],
) -> Option<usize>
    requires room { (L.table links.now).extent.places ≤ length marks.old }
    ensures gathered { MatchOption result
        (RepresentsNoneUnmarked (RepresentsEachOnce (λ c. C.Represents c (L.table links.now)) collections.now) marks.old)
        (IsGathered (RepresentsEachOnce (λ c. C.Represents c (L.table links.now)) collections.now) marks.old marks.new) }
    ensures only { MarksLinked L.linked (L.table links.now) marks.old marks.new }
    ensures length { length marks.new ≡ length marks.old }
{
    let mut count: usize = 0;
    let mut index = 0;
    while index < collections.len() {
        let collection = &collections[index];
        let Some(members) = collection.gather(links, marks) else {
            return None;
        };
        count += members;
        index += 1;
    }
    Some(count)
}

// Removes all marks.
fn clear(marks: &mut [bool])
    ensures cleared { (p : Place) → is_marked marks.new p ≡ false }
    ensures none { many_marked marks.new ≡ 0 }
    ensures length { length marks.new ≡ length marks.old }
{
    for index in 0..marks.len() {
        marks[index] = false;
    }
}

// Returns whether each linked place is marked.
fn are_all_marked<L: TellsLinks>(links: &L, marks: &[bool]) -> bool
    requires room { (L.table links.now).extent.places ≤ length marks.now }
    ensures { Decides result ((p : Place) → IsLinked L.linked (L.table links.now) p → is_marked marks.now p ≡ true) }
{
    for index in 0..links.covered_places() {
        if is_missed(links, marks, index) {
            return false;
        }
    }
    true
}

// Returns whether the place with the given index is linked and not marked.
fn is_missed<L: TellsLinks>(links: &L, marks: &[bool], index: usize) -> bool
    requires few { index < length marks.now }
    ensures { Decides result (IsMissed L.linked (L.table links.now) marks.now index) }
{
    let Some(place) = place_at(index) else {
        return false;
    };
    if !links.tells_linked(place) {
        return false;
    }
    !marks[index]
}

// Returns the place with the given index, or `None` if no place has this index.
fn place_at(index: usize) -> Option<Place>
    ensures { MatchOption result (8589934591 ≤ index) (λ place. index_of place ≡ index) }
{
    if index >= ALL_PLACES {
        return None;
    }
    Place::from_word(8 * (index as u64 + 1))
}
