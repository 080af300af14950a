//! These edits keep some members of a list and unlink the others. `retain` keeps the members that pass a test, and `dedup_by` keeps one of neighbors that are
//! the same.
//!
//! ```text
//! retain(&mut list, &mut links, &tasks, |task: &Task| !task.is_done());
//! dedup_by(&mut list, &mut links, &tasks, |a: &Task, b: &Task| a.name == b.name);
//! ```

ghost use Rattle.std.specs.Prelude.{◌≡◌, ◌∷◌, ◌++◌, Bool, true, not, Option, Some, None, List};
ghost use Rattle.std.specs.List.{filter};
ghost use Rattle.std.specs.List.Retain.{IsFiltered, IsDeduped};
ghost use Rattle.std.specs.Fn.{ComputesKey, ComputesOnPairs, CalledAt, CalledAtTwo};
ghost use Rattle.ic_link_ops.specs.Prelude.{Place, is_placed, last, RepresentsPlaced, RepresentsChain};
ghost use Rattle.ic_list_algorithms.specs.Asked.{AsksAt, AsksBoth, AsksBeside, KeepsInTurn};
ghost use Rattle.ic_list_algorithms.specs.Walks.{test_at};
ghost use Rattle.ic_list_algorithms.specs.Sifts.{sift as sifted, sift_out, keep_at, dedup, duplicates, SiftsTo, SiftsOne};

use crate::keeps::{Differs, Keeps, Passes};
use ic_chain::{ForwardLinks, LinkList};
use ic_link_ops::LinkOps;
use ic_unsafe_ref::{Place, Values};

/// Keeps the members for which the test holds, in their order, and unlinks the other members.
///
/// The call requires that an object is at each member. It walks from the front, and calls the test once for each member. The test may change its own
/// state between calls. O(n), and no memory.
pub fn retain<K: ForwardLinks<L>, T, V, L: LinkOps, O: Values<V>, F: FnMut(&V) -> bool>(
    list: &mut LinkList<K, T>,
    links: &mut L,
    objects: &O,
    test: F,
)
    requires callable { F.IsAlwaysCallable test }
    requires placed { RepresentsPlaced (RepresentsChain K.Between K.kept (L.table links.old) list.old) (O.values objects.now) }
    ensures retained { (s : List Place) (holds : V → Bool) → RepresentsChain K.Between K.kept (L.table links.old) list.old s
        → SiftsTo (RepresentsChain K.Between K.kept) L.table L.Trace (ComputesKey F.FnMut holds test) links.old links.new list.new s
        (filter (test_at holds (O.values objects.now)) s) (filter (λ q. not (test_at holds (O.values objects.now) q)) s) }
    ensures asked { (s : List Place) → RepresentsChain K.Between K.kept (L.table links.old) list.old s
        → (kept : List Place) × RepresentsChain K.Between K.kept (L.table links.new) list.new kept
        × IsFiltered (AsksAt (O.values objects.now) (CalledAt F.FnMut)) test s kept }
{
    let mut keep = Passes::new(test);
    sift::<K, T, V, L, O, Passes<F>>(list, links, objects, &mut keep);
}

/// Of neighboring members that are the same, keeps the first member, and unlinks the others.
///
/// The test gets the member that was kept last, and the next member. The call requires that an object is at each member. O(n), with one call of the
/// test for each member except the first, and no memory.
pub fn dedup_by<K: ForwardLinks<L>, T, V, L: LinkOps, O: Values<V>, F: FnMut(&V, &V) -> bool>(
    list: &mut LinkList<K, T>,
    links: &mut L,
    objects: &O,
    same: F,
)
    requires callable { F.IsAlwaysCallable same }
    requires placed { RepresentsPlaced (RepresentsChain K.Between K.kept (L.table links.old) list.old) (O.values objects.now) }
    ensures firsts_stay { (s : List Place) (alike : V → V → Bool) → RepresentsChain K.Between K.kept (L.table links.old) list.old s
        → SiftsTo (RepresentsChain K.Between K.kept) L.table L.Trace (ComputesOnPairs F.FnMut alike same) links.old links.new list.new s
        (dedup alike (O.values objects.now) s) (duplicates alike (O.values objects.now) s) }
    ensures asked { (s : List Place) → RepresentsChain K.Between K.kept (L.table links.old) list.old s
        → (kept : List Place) × RepresentsChain K.Between K.kept (L.table links.new) list.new kept
        × IsDeduped (AsksBoth (O.values objects.now) (CalledAtTwo F.FnMut)) same s kept }
{
    let mut keep = Differs::new(same);
    sift::<K, T, V, L, O, Differs<F>>(list, links, objects, &mut keep);
}

// Keeps the members that the choice `keep` keeps, and unlinks the other members.
fn sift<K: ForwardLinks<L>, T, V, L: LinkOps, O: Values<V>, S: Keeps<V>>(
    list: &mut LinkList<K, T>,
    links: &mut L,
    objects: &O,
    keep: &mut S,
)
    requires ready { S.ready keep.old }
    requires placed { RepresentsPlaced (RepresentsChain K.Between K.kept (L.table links.old) list.old) (O.values objects.now) }
    ensures sifted { (s : List Place) (test : Option V → V → Bool) → RepresentsChain K.Between K.kept (L.table links.old) list.old s
        → SiftsTo (RepresentsChain K.Between K.kept) L.table L.Trace (S.obeys keep.old test) links.old links.new list.new s
        (sifted (keep_at test (O.values objects.now)) None s) (sift_out (keep_at test (O.values objects.now)) None s) }
    ensures asked { (s : List Place) → RepresentsChain K.Between K.kept (L.table links.old) list.old s
        → (kept : List Place) × RepresentsChain K.Between K.kept (L.table links.new) list.new kept
        × KeepsInTurn (AsksBeside (O.values objects.now) S.asks) keep.old None s kept keep.new }
{
    let mut current = list.first();
    let mut prev = None;
    while let Some(member) = current {
        let (last_kept, after) = sift_one::<K, T, V, L, O, S>(
            list, links, objects, keep, prev, member,
        );
        prev = last_kept;
        current = after;
    }
}

// Keeps `member`, or removes and unlinks it, as the choice `keep` says. Returns the member that was kept last, and the next member.
fn sift_one<K: ForwardLinks<L>, T, V, L: LinkOps, O: Values<V>, S: Keeps<V>>(
    list: &mut LinkList<K, T>,
    links: &mut L,
    objects: &O,
    keep: &mut S,
    prev: Option<Place>,
    member: Place,
) -> (Option<Place>, Option<Place>)
    requires ready { S.ready keep.old }
    requires shown { (front back : List Place) × RepresentsChain K.Between K.kept (L.table links.old) list.old (front ++ member ∷ back) × (prev ≡ last front) }
    requires placed { is_placed (O.values objects.now) member ≡ true }
    requires prev_placed { (q : Place) → prev ≡ Some q → is_placed (O.values objects.now) q ≡ true }
    ensures sifted { (kept : Bool) × ((test : Option V → V → Bool) → S.obeys keep.old test → keep_at test (O.values objects.now) prev member ≡ kept)
        × ((front back : List Place) → RepresentsChain K.Between K.kept (L.table links.old) list.old (front ++ member ∷ back) → prev ≡ last front
        → SiftsOne (RepresentsChain K.Between K.kept) L.table L.Trace kept links.old links.new list.new front member back result.0 result.1)
        × AsksBeside (O.values objects.now) S.asks keep.old prev member kept keep.new }
    ensures again { S.ready keep.new }
    ensures obeys { (test : Option V → V → Bool) → S.obeys keep.old test → S.obeys keep.new test }
{
    let after = K::next(&*links, member, prev);
    if is_kept::<V, O, S>(objects, keep, prev, member) {
        return (Some(member), after);
    }
    list.bypass(links, prev, member, after);
    links.release_link(member);
    (prev, after)
}

// Whether the choice `keep` keeps `member`, if `prev` is the member that was kept last.
fn is_kept<V, O: Values<V>, S: Keeps<V>>(
    objects: &O,
    keep: &mut S,
    prev: Option<Place>,
    member: Place,
) -> bool
    requires ready { S.ready keep.old }
    requires placed { is_placed (O.values objects.now) member ≡ true }
    requires prev_placed { (q : Place) → prev ≡ Some q → is_placed (O.values objects.now) q ≡ true }
    ensures answer { (test : Option V → V → Bool) → S.obeys keep.old test → keep_at test (O.values objects.now) prev member ≡ result }
    ensures asked { AsksBeside (O.values objects.now) S.asks keep.old prev member result keep.new }
    ensures again { S.ready keep.new }
    ensures obeys { (test : Option V → V → Bool) → S.obeys keep.old test → S.obeys keep.new test }
{
    match prev {
        None => keep.keeps_first(objects.value(member)),
        Some(prev) => keep.keeps(objects.value(prev), objects.value(member)),
    }
}
