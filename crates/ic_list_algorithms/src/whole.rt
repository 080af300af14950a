//! These calls append a list to another list, or rotate a list.
//!
//! ```text
//! append(&mut list, &mut links, &mut other);   // `other` is empty then
//! rotate_left(&mut list, &mut links, 2);       // the first two members go after all others
//! ```

ghost use Rattle.std.specs.Prelude.{◌≡◌, ◌++◌, List, [], drop, take};
ghost use Rattle.ic_link_ops.specs.Prelude.{Place, first, last, ChangesOnlyIn, RepresentsChain, RepresentsSomeChain, empty_list};
ghost use Rattle.ic_list_algorithms.specs.Effects.{Appends};
ghost use Rattle.ic_list_algorithms.specs.TwoLists.{TwoLists};

use ic_chain::{DoubleEnded, ForwardLinks, LinkList, SingleEnded};
use ic_link_ops::LinkOps;
use ic_unsafe_ref::Place;

/// Appends all members of another list to this list, and leaves the other list empty. O(1).
///
/// The call requires that the two lists share no member. No link is acquired or released.
pub fn append<K: DoubleEnded + ForwardLinks<L>, T, L: LinkOps>(
    list: &mut LinkList<K, T>,
    links: &mut L,
    other: &mut LinkList<K, T>,
)
    requires two { TwoLists (RepresentsChain K.Between K.kept) (L.table links.old) list.old other.old }
    ensures { Appends (RepresentsChain K.Between K.kept) L.table L.Trace (empty_list K.kept) links.old links.new list.old other.old list.new other.new }
{
    let last = list.last();
    let end = other.last();
    let given = other.take();
    list.splice_between(links, last, given, end, None);
}

/// Appends all members of another list to this list, and leaves the other list empty. It is for lists that do not store their last member, so it
/// walks to the last member of this list. O(n).
///
/// The call requires what [`append`] requires. No link is acquired or released.
pub fn append_walking<K: SingleEnded + ForwardLinks<L>, T, L: LinkOps>(
    list: &mut LinkList<K, T>,
    links: &mut L,
    other: &mut LinkList<K, T>,
)
    requires two { TwoLists (RepresentsChain K.Between K.kept) (L.table links.old) list.old other.old }
    ensures { Appends (RepresentsChain K.Between K.kept) L.table L.Trace (empty_list K.kept) links.old links.new list.old other.old list.new other.new }
{
    let last = last_walking::<K, T, L>(&*list, &*links);
    let given = other.take();
    list.splice_between(links, last, given, None, None);
}

/// Rotates the list: its first `n` members go after all other members, in their order. A list of at most `n` members stays as it is.
///
/// The call walks from the front to the back: O(n). No link is acquired or released.
pub fn rotate_left<K: ForwardLinks<L>, T, L: LinkOps>(
    list: &mut LinkList<K, T>,
    links: &mut L,
    n: usize,
)
    requires shown { RepresentsSomeChain K.Between K.kept (L.table links.old) list.old }
    ensures rotated { (s : List Place) → RepresentsChain K.Between K.kept (L.table links.old) list.old s
        → RepresentsChain K.Between K.kept (L.table links.new) list.new (drop n s ++ take n s) }
    ensures frame { (s : List Place) → RepresentsChain K.Between K.kept (L.table links.old) list.old s
        → ChangesOnlyIn (L.table links.old) (L.table links.new) s }
    ensures trace_stays { L.Trace links.old links.new [] }
{
    let (before, after) = gap_at::<K, T, L>(&*list, &*links, n);
    let mut rest = list.split_between(links, before, after);
    let last = last_walking::<K, T, L>(&rest, &*links);
    let front = list.take();
    rest.splice_between(links, last, front, before, None);
    *list = rest;
}

// The members before and after the gap that comes after the first `n` members. If the list has at most `n` members, the gap is the last gap, after
// all members.
pub(crate) fn gap_at<K: ForwardLinks<L>, T, L: LinkOps>(
    list: &LinkList<K, T>,
    links: &L,
    n: usize,
) -> (Option<Place>, Option<Place>)
    requires shown { RepresentsSomeChain K.Between K.kept (L.table links.now) list.now }
    ensures { (s : List Place) → RepresentsChain K.Between K.kept (L.table links.now) list.now s
        → (result.0 ≡ last (take n s)) × (result.1 ≡ first (drop n s)) }
{
    let mut left = n;
    let mut current = list.first();
    let mut prev = None;
    while let Some(member) = current {
        if left == 0 {
            return (prev, current);
        }
        left -= 1;
        current = K::next(links, member, prev);
        prev = Some(member);
    }
    (prev, None)
}

// The last member, or `None` if the list is empty. The call walks from the front.
fn last_walking<K: ForwardLinks<L>, T, L: LinkOps>(
    list: &LinkList<K, T>,
    links: &L,
) -> Option<Place>
    requires shown { RepresentsSomeChain K.Between K.kept (L.table links.now) list.now }
    ensures { (s : List Place) → RepresentsChain K.Between K.kept (L.table links.now) list.now s → result ≡ last s }
{
    let (last, _) = gap_at::<K, T, L>(list, links, usize::MAX);
    last
}
