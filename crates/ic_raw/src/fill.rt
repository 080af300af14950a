//! A run is a sequence of places with consecutive numbers. One call inserts all places of a run into a list.
//!
//! ```text
//! let status = fill(&mut links, &mut list, gap, first, count);
//! ```

ghost use Rattle.std.specs.Prelude.{◌≡◌, ◌≢◌, Option, Some, None, List, true};
ghost use Rattle.ic_link_ops.specs.Prelude.{Place, Cut, join, at_back, RepresentsChain, TurnsEnds, Splices};
ghost use Rattle.ic_raw.specs.declared.gap.Gap.{Gap};
ghost use Rattle.ic_raw.specs.declared.status.TheConstants.{OK};
ghost use Rattle.ic_raw.specs.Answers.{IsStatus, refusal};
ghost use Rattle.ic_raw.specs.Fills.{IsFreeRun, TouchesRun, run_faults, first_fault, last_of_run};
ghost use Rattle.ic_raw.specs.Gaps.{StandBeside, gap_between, gap_of};
ghost use Rattle.ic_raw.specs.Tables.{nameable_table, place_fault};
ghost use Rattle.ic_raw.specs.Words.{is_linked_one, place_of};
ghost use Rattle.ic_raw.specs.Singly as singly;
ghost use Rattle.ic_raw.specs.Xor as xor;

use crate::gap::Gap;
use crate::number::place_of;
use crate::status::{BROKEN, OK};
use crate::table::RawTable;
use crate::words::RawOne;
use crate::xor_list;
use ic_chain::{ForwardLinks, LinkList};
use ic_link_ops::Words;
use ic_unsafe_ref::Place;

// Returns the first fault of the `count` places from the number `first` on, or [`OK`] if each of them belongs to the table and is not linked.
fn run_fault<W: Words>(links: &RawTable<'_, W>, first: u32, count: u32) -> u32
    ensures fault { result ≡ first_fault (run_faults (place_fault W.is_linked (nameable_table W.width W.unlinked links.now)) first count) }
    ensures status { IsStatus result }
{
    let mut number = first;
    let mut left = count;
    while left > 0 {
        let fault = links.place_fault(place_of(number));
        if fault != OK {
            return fault;
        }
        number += 1;
        left -= 1;
    }
    OK
}

// Inserts the run of `count` places from the number `first` on into `gap`. The function links each place of the run after the place before it. It
// ends early if a place cannot be acquired.
//
// The clause `filled` has a premise, which the caller proves for its kind of lists: an entry that names the neighbors of a member is the entry of a
// linked place.
fn link_run<'a, W: Words, K: ForwardLinks<RawTable<'a, W>>>(
    links: &mut RawTable<'a, W>,
    list: &mut LinkList<K, ()>,
    gap: Gap,
    first: u32,
    count: u32,
)
    requires stand { StandBeside W.is_linked (nameable_table W.width W.unlinked links.old) gap }
    ensures filled { ((e : W) (b a : Option Place) → K.Between e b a → W.is_linked e ≡ true)
        → (cut : Cut) (free : IsFreeRun W.is_linked (nameable_table W.width W.unlinked links.old) first count)
        → RepresentsChain K.Between K.kept (nameable_table W.width W.unlinked links.old) list.old (join cut) → gap ≡ gap_of cut
        → Splices (RepresentsChain K.Between K.kept) (nameable_table W.width W.unlinked links.old) (nameable_table W.width W.unlinked links.new) list.new cut free.run }
    ensures ends { IsFreeRun W.is_linked (nameable_table W.width W.unlinked links.old) first count → count ≢ 0
        → TurnsEnds K.kept list.old list.new gap.before gap.after (place_of first) (last_of_run first count) }
    ensures touched { (K.NamesPrev → gap.after ≡ None) → (free : IsFreeRun W.is_linked (nameable_table W.width W.unlinked links.old) first count)
        → TouchesRun W.is_linked (nameable_table W.width W.unlinked links.old) (nameable_table W.width W.unlinked links.new) free.run gap.before }
    ensures extent { (nameable_table W.width W.unlinked links.new).extent ≡ (nameable_table W.width W.unlinked links.old).extent }
{
    let mut before = gap.before;
    let mut number = first;
    let mut left = count;
    while left > 0 {
        let Some(place) = links.acquire(place_of(number)) else {
            return;
        };
        list.insert_linked(links, before, place, gap.after);
        before = Some(place);
        number += 1;
        left -= 1;
    }
}

/// Inserts the run of `count` places from the number `first` on into `gap`. O(count). If a place of the run does not belong to the table or is
/// linked, or if `gap` is `None`, the function changes nothing and returns the status of the refusal.
pub(crate) fn fill<'a, W: Words, K: ForwardLinks<RawTable<'a, W>>>(
    links: &mut RawTable<'a, W>,
    list: &mut LinkList<K, ()>,
    gap: Option<Gap>,
    first: u32,
    count: u32,
) -> u32
    requires stand { (g : Gap) → gap ≡ Some g → StandBeside W.is_linked (nameable_table W.width W.unlinked links.old) g }
    ensures filled { ((e : W) (b a : Option Place) → K.Between e b a → W.is_linked e ≡ true)
        → (cut : Cut) (free : IsFreeRun W.is_linked (nameable_table W.width W.unlinked links.old) first count)
        → RepresentsChain K.Between K.kept (nameable_table W.width W.unlinked links.old) list.old (join cut) → gap ≡ Some (gap_of cut)
        → (result ≡ OK) × Splices (RepresentsChain K.Between K.kept) (nameable_table W.width W.unlinked links.old) (nameable_table W.width W.unlinked links.new) list.new cut free.run }
    ensures accepted { IsFreeRun W.is_linked (nameable_table W.width W.unlinked links.old) first count → gap ≢ None → result ≡ OK }
    ensures free { result ≡ OK → IsFreeRun W.is_linked (nameable_table W.width W.unlinked links.old) first count }
    ensures gap { result ≡ OK → (g : Gap) × (gap ≡ Some g) }
    ensures ends { result ≡ OK → count ≢ 0 → (g : Gap) → gap ≡ Some g
        → TurnsEnds K.kept list.old list.new g.before g.after (place_of first) (last_of_run first count) }
    ensures touched { result ≡ OK → (g : Gap) → gap ≡ Some g → (K.NamesPrev → g.after ≡ None)
        → (free : IsFreeRun W.is_linked (nameable_table W.width W.unlinked links.old) first count)
        → TouchesRun W.is_linked (nameable_table W.width W.unlinked links.old) (nameable_table W.width W.unlinked links.new) free.run g.before }
    ensures refused { result ≢ OK → (links.new ≡ links.old) × (list.new ≡ list.old) }
    ensures extent { (nameable_table W.width W.unlinked links.new).extent ≡ (nameable_table W.width W.unlinked links.old).extent }
    ensures why { result ≢ OK
        → result ≡ refusal (run_faults (place_fault W.is_linked (nameable_table W.width W.unlinked links.old)) first count) }
    ensures status { IsStatus result }
{
    let fault = run_fault(&*links, first, count);
    if fault != OK {
        return fault;
    }
    let Some(gap) = gap else {
        return BROKEN;
    };
    link_run(links, list, gap, first, count);
    OK
}

/// Returns the gap after the last member of an XOR list. The result is `None` if the links on the two sides of the gap do not lead to each other.
pub(crate) fn gap_after_last_of_xor(
    links: &RawTable<'_, RawOne>,
    list: &xor_list::List,
) -> Option<Gap>
    ensures links_back { (gap : Gap) → result ≡ Some gap → xor.TellsGap (singly.lent_table links.now) list.now list.now.tail None }
    ensures stand { (gap : Gap) → result ≡ Some gap → StandBeside is_linked_one (singly.lent_table links.now) gap }
    ensures is { (gap : Gap) → result ≡ Some gap → gap ≡ gap_between list.now.tail None }
    ensures shown { (s : List Place) → xor.Represents (singly.lent_table links.now) list.now (join (at_back s)) → result ≡ Some (gap_of (at_back s)) }
{
    let before = list.last();
    if !xor_list::is_gap(links, list, before, None) {
        return None;
    }
    Some(Gap {
        before,
        after: None,
    })
}
