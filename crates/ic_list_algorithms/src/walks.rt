//! Walks over a list return how many members it has, its nth member, the first member for which a test holds, or whether it is in order.
//!
//! ```text
//! let members = len(&list, &links);
//! let third = nth(&list, &links, 2);
//! let late = find(&list, &links, &tasks, |task: &Task| task.deadline < now);
//! ```

ghost use Rattle.std.specs.Prelude.{◌≡◌, ◌↔◌, ℕ, Bool, true, Some, None, IsTrue, MatchOption, List, length, drop};
ghost use Rattle.std.specs.Fn.{ComputesKey, CalledAt};
ghost use Rattle.ic_link_ops.specs.Prelude.{Place, is_placed, first, RepresentsPlaced, RepresentsChain, RepresentsSomeChain};
ghost use Rattle.ic_list_algorithms.specs.Asked.{AnswersNo, AsksAt, AsksAfter, FindsFirst, OrderedInTurn};
ghost use Rattle.ic_list_algorithms.specs.Ordered.{GoesBy, IsOrdered};
ghost use Rattle.ic_list_algorithms.specs.Runs.{less_at};
ghost use Rattle.ic_list_algorithms.specs.Walks.{test_at, HoldsNowhere, HoldsFirst, comes_after, are_neighbors_ordered};

use crate::precedes::Precedes;
use crate::whole::gap_at;
use ic_chain::{ForwardLinks, LinkList};
use ic_link_ops::LinkOps;
use ic_unsafe_ref::{Place, UnsafeRef, Values};

/// The number of members of the list. The call walks from the front, and reads one entry for each member: O(n).
pub fn len<K: ForwardLinks<L>, T, L: LinkOps>(list: &LinkList<K, T>, links: &L) -> usize
    requires shown { RepresentsSomeChain K.Between K.kept (L.table links.now) list.now }
    ensures { (s : List Place) → RepresentsChain K.Between K.kept (L.table links.now) list.now s → result ≡ length s }
{
    let mut count = 0;
    let mut current = list.first();
    let mut prev = None;
    while let Some(member) = current {
        count += 1;
        current = K::next(links, member, prev);
        prev = Some(member);
    }
    count
}

/// The member at position `n`, counted from 0, or `None` if the list has at most `n` members. The call walks from the front: O(n).
pub fn nth<K: ForwardLinks<L>, T, L: LinkOps>(
    list: &LinkList<K, T>,
    links: &L,
    n: usize,
) -> Option<UnsafeRef<T>>
    requires shown { RepresentsSomeChain K.Between K.kept (L.table links.now) list.now }
    ensures { (s : List Place) → RepresentsChain K.Between K.kept (L.table links.now) list.now s → result ≡ first (drop n s) }
{
    let (_, after) = gap_at::<K, T, L>(list, links, n);
    match after {
        Some(place) => Some(UnsafeRef::new(place)),
        None => None,
    }
}

/// The position of the first member for which the test holds, counted from 0, or `None` if the test holds for no member.
///
/// The call requires that an object is at each member. It walks from the front, and calls the test once for each member up to the found member. The
/// test may change its own state between calls. O(n).
pub fn position<K: ForwardLinks<L>, T, V, L: LinkOps, O: Values<V>, F: FnMut(&V) -> bool>(
    list: &LinkList<K, T>,
    links: &L,
    objects: &O,
    test: F,
) -> Option<usize>
    requires callable { F.IsAlwaysCallable test }
    requires placed { RepresentsPlaced (RepresentsChain K.Between K.kept (L.table links.now) list.now) (O.values objects.now) }
    ensures found { (s : List Place) (holds : V → Bool) → RepresentsChain K.Between K.kept (L.table links.now) list.now s → ComputesKey F.FnMut holds test
        → MatchOption result (HoldsNowhere (test_at holds (O.values objects.now)) s)
        (λ at. (q : Place) × HoldsFirst (test_at holds (O.values objects.now)) s at q) }
    ensures asked { (s : List Place) → RepresentsChain K.Between K.kept (L.table links.now) list.now s
        → MatchOption result ((after : F) × AnswersNo (AsksAt (O.values objects.now) (CalledAt F.FnMut)) test s after)
        (λ at. (q : Place) × (after : F) × FindsFirst (AsksAt (O.values objects.now) (CalledAt F.FnMut)) test s after at q) }
{
    let mut test = test;
    let (at, _) = find_first(list, links, objects, &mut test)?;
    Some(at)
}

/// The first member for which the test holds, or `None` if the test holds for no member. The call requires and costs what [`position`] does. O(n).
pub fn find<K: ForwardLinks<L>, T, V, L: LinkOps, O: Values<V>, F: FnMut(&V) -> bool>(
    list: &LinkList<K, T>,
    links: &L,
    objects: &O,
    test: F,
) -> Option<UnsafeRef<T>>
    requires callable { F.IsAlwaysCallable test }
    requires placed { RepresentsPlaced (RepresentsChain K.Between K.kept (L.table links.now) list.now) (O.values objects.now) }
    ensures found { (s : List Place) (holds : V → Bool) → RepresentsChain K.Between K.kept (L.table links.now) list.now s → ComputesKey F.FnMut holds test
        → MatchOption result (HoldsNowhere (test_at holds (O.values objects.now)) s)
        (λ object. (at : ℕ) × HoldsFirst (test_at holds (O.values objects.now)) s at object) }
    ensures asked { (s : List Place) → RepresentsChain K.Between K.kept (L.table links.now) list.now s
        → MatchOption result ((after : F) × AnswersNo (AsksAt (O.values objects.now) (CalledAt F.FnMut)) test s after)
        (λ object. (at : ℕ) × (after : F) × FindsFirst (AsksAt (O.values objects.now) (CalledAt F.FnMut)) test s after at object) }
{
    let mut test = test;
    let (_, place) = find_first(list, links, objects, &mut test)?;
    Some(UnsafeRef::new(place))
}

// The position of the first member for which the test holds, and this member. Returns `None` if the test holds for no member.
fn find_first<K: ForwardLinks<L>, T, V, L: LinkOps, O: Values<V>, F: FnMut(&V) -> bool>(
    list: &LinkList<K, T>,
    links: &L,
    objects: &O,
    test: &mut F,
) -> Option<(usize, Place)>
    requires callable { F.IsAlwaysCallable test.old }
    requires placed { RepresentsPlaced (RepresentsChain K.Between K.kept (L.table links.now) list.now) (O.values objects.now) }
    ensures found { (s : List Place) (holds : V → Bool) → RepresentsChain K.Between K.kept (L.table links.now) list.now s → ComputesKey F.FnMut holds test.old
        → MatchOption result (HoldsNowhere (test_at holds (O.values objects.now)) s)
        (λ found. HoldsFirst (test_at holds (O.values objects.now)) s found.0 found.1) }
    ensures asked { (s : List Place) → RepresentsChain K.Between K.kept (L.table links.now) list.now s
        → MatchOption result (AnswersNo (AsksAt (O.values objects.now) (CalledAt F.FnMut)) test.old s test.new)
        (λ found. FindsFirst (AsksAt (O.values objects.now) (CalledAt F.FnMut)) test.old s test.new found.0 found.1) }
{
    let mut at = 0;
    let mut current = list.first();
    let mut prev = None;
    while let Some(member) = current {
        let found = test(objects.value(member));
        if found {
            return Some((at, member));
        }
        at += 1;
        current = K::next(links, member, prev);
        prev = Some(member);
    }
    None
}

/// Whether the list is in order: no member has to go before the member right before it. The call walks from the front, and compares each pair of
/// neighbors once, up to the first pair that is out of order.
///
/// The call requires that an object is at each member. If the order follows a strict weak order of values, then no member of a list in order has to
/// go before an earlier member. O(n).
pub fn is_sorted_by<K: ForwardLinks<L>, T, V, L: LinkOps, O: Values<V>, C: Precedes<V>>(
    list: &LinkList<K, T>,
    links: &L,
    objects: &O,
    order: &mut C,
) -> bool
    requires ready { C.ready order.old }
    requires placed { RepresentsPlaced (RepresentsChain K.Between K.kept (L.table links.now) list.now) (O.values objects.now) }
    ensures neighbors { (s : List Place) (lt : V → V → Bool) → RepresentsChain K.Between K.kept (L.table links.now) list.now s → C.obeys order.old lt
        → result ≡ are_neighbors_ordered (less_at lt (O.values objects.now)) s }
    ensures ordered { (s : List Place) (lt : V → V → Bool) → RepresentsChain K.Between K.kept (L.table links.now) list.now s → GoesBy C.obeys order.old lt
        → IsTrue result ↔ IsOrdered (less_at lt (O.values objects.now)) s }
    ensures asked { (s : List Place) → RepresentsChain K.Between K.kept (L.table links.now) list.now s
        → OrderedInTurn (AsksAfter (O.values objects.now) C.asks) order.old None s result order.new }
    ensures again { C.ready order.new }
    ensures obeys { (lt : V → V → Bool) → C.obeys order.old lt → C.obeys order.new lt }
{
    let mut current = list.first();
    let mut prev = None;
    while let Some(member) = current {
        if !may_stand_after::<V, O, C>(objects, order, prev, member) {
            return false;
        }
        current = K::next(links, member, prev);
        prev = Some(member);
    }
    true
}

// Whether `member` may come after the member `prev`: it does not go before `prev` in the order, or `prev` is none.
fn may_stand_after<V, O: Values<V>, C: Precedes<V>>(
    objects: &O,
    order: &mut C,
    prev: Option<Place>,
    member: Place,
) -> bool
    requires ready { C.ready order.old }
    requires placed { is_placed (O.values objects.now) member ≡ true }
    requires prev { (q : Place) → prev ≡ Some q → is_placed (O.values objects.now) q ≡ true }
    ensures answer { (lt : V → V → Bool) → C.obeys order.old lt → result ≡ comes_after (less_at lt (O.values objects.now)) prev member }
    ensures asked { AsksAfter (O.values objects.now) C.asks order.old prev member result order.new }
    ensures again { C.ready order.new }
    ensures obeys { (lt : V → V → Bool) → C.obeys order.old lt → C.obeys order.new lt }
{
    let Some(before) = prev else {
        return true;
    };
    !order.precedes(objects.value(member), objects.value(before))
}
