//! Laws about several calls of a list, made one after the other. Each law is the contract of a function.
//!
//! ```text
//! split_then_splice::<DoublyLinked, LinkOps>(); // split, and spliced again, the list is what it was
//! ```
//!
//! `split_then_splice` and the two laws of pushes and pops have an empty body, because their clauses are about calls that the caller makes. Call such
//! a function where your proof needs its law. The other laws make their calls themselves.
//!
//! The laws of collections of every kind are lemmas for proofs (`CollectionLaws` of `ic_link_ops`). They say that every table represents the empty sequence
//! for a new collection, and at most one sequence for any collection. They also say that an edit leaves all other collections as they were.

ghost use Rattle.std.specs.Prelude.{◌≡◌, List, [], ◌∷◌, None, IsTrue};
ghost use Rattle.ic_link_ops.specs.Prelude.{Place, insert, remove, at_front, at_back, first, last, but_last, IsCovered, ChangesOnlyIn, acquires, RepresentsChain, RepresentsSomeChain};
ghost use Rattle.ic_cursors.specs.Cursor as reads;
ghost use Rattle.ic_chain.specs.Laws.{SplitsApart, SplitThenSplice, PushThenPop};

use crate::LinkList;
use crate::kind::{BidirectionalLinks, DoubleEnded, ForwardLinks};
use ic_cursors::{Bidirectional, Cursor};
use ic_link_ops::LinkOps;
use ic_unsafe_ref::{Place, UnsafeRef};

/// Moves a cursor from null to the next member and back, and then to the previous member and back. The call returns the first member and the last
/// member.
///
/// At the end the cursor is at null again. Both results are `None` for an empty collection. The call requires that the cursor is valid and at null, and that
/// its kind of collection has moves in both directions.
pub fn null_there_and_back<C: Bidirectional<L>, L: LinkOps>(
    cursor: &mut Cursor<'_, C, L>,
) -> (Option<Place>, Option<Place>)
    requires stands { reads.IsValid C.IsValidAt cursor.old }
    requires null { reads.position C.Position.member cursor.old ≡ None }
    ensures there { (s : List Place) → C.Represents (L.table (reads.links_of cursor.old)) (C.head_of (reads.list_of cursor.old)) s
        → result.0 ≡ first s }
    ensures back { (s : List Place) → C.Represents (L.table (reads.links_of cursor.old)) (C.head_of (reads.list_of cursor.old)) s
        → result.1 ≡ last s }
    ensures again { (s : List Place) → C.Represents (L.table (reads.links_of cursor.old)) (C.head_of (reads.list_of cursor.old)) s
        → reads.position C.Position.member cursor.new ≡ None }
    ensures kept { reads.IsValid C.IsValidAt cursor.new }
    ensures list { reads.list_of cursor.new ≡ reads.list_of cursor.old }
    ensures links { reads.links_of cursor.new ≡ reads.links_of cursor.old }
{
    cursor.move_next();
    let front = cursor.get_ptr();
    cursor.move_prev();
    cursor.move_prev();
    let back = cursor.get_ptr();
    cursor.move_next();
    (front, back)
}

/// The law of a split and a splice: a list that is split after a position is as it was, if the removed members are spliced in after this position.
///
/// The law holds over any table.
///
/// The law is about the results of `split_after` and `splice_after`, and makes no call. The table represents both parts of the split, and the parts
/// share no member, so one part may be spliced into the other (`apart`). The clause `kept` of `splice_after` states that the cursor is valid after
/// the splice.
pub fn split_then_splice<K: ForwardLinks<L>, L: LinkOps>()
    ensures apart { SplitsApart (RepresentsChain K.Between K.kept) L.table L.Trace }
    ensures as_it_was { SplitThenSplice (RepresentsChain K.Between K.kept) L.table L.Trace }
{}

/// Inserts one object at the front of two lists of any kinds, which link objects by two different fields. The call returns true, because both lists
/// accept the object.
///
/// A link of the object in one field does not make the object linked in the other field. O(1).
///
/// The call requires that both tables cover the object's place and do not refuse it, and that each table represents a sequence. A plain table refuses
/// only a place that is linked in it.
pub fn fields_are_apart<K: ForwardLinks<L>, J: ForwardLinks<M>, T, L: LinkOps, M: LinkOps>(
    first: &mut LinkList<K, T>,
    first_links: &mut L,
    second: &mut LinkList<J, T>,
    second_links: &mut M,
    object: Place,
) -> bool
    requires first_covered { IsCovered (L.table first_links.old) object }
    requires first_accepts { (links : L) → L.Refused first_links.old links object → ⊥ }
    requires first_represented { RepresentsSomeChain K.Between K.kept (L.table first_links.old) first.old }
    requires second_covered { IsCovered (M.table second_links.old) object }
    requires second_accepts { (links : M) → M.Refused second_links.old links object → ⊥ }
    requires second_represented { RepresentsSomeChain J.Between J.kept (M.table second_links.old) second.old }
    ensures answer { IsTrue result }
    ensures first { (s : List Place) → RepresentsChain K.Between K.kept (L.table first_links.old) first.old s
        → RepresentsChain K.Between K.kept (L.table first_links.new) first.new (insert (at_front s) object) }
    ensures first_linked { L.Trace first_links.old first_links.new (acquires object ∷ []) }
    ensures first_frame { (s : List Place) → RepresentsChain K.Between K.kept (L.table first_links.old) first.old s
        → ChangesOnlyIn (L.table first_links.old) (L.table first_links.new) (object ∷ s) }
    ensures second { (s : List Place) → RepresentsChain J.Between J.kept (M.table second_links.old) second.old s
        → RepresentsChain J.Between J.kept (M.table second_links.new) second.new (insert (at_front s) object) }
    ensures second_linked { M.Trace second_links.old second_links.new (acquires object ∷ []) }
    ensures second_frame { (s : List Place) → RepresentsChain J.Between J.kept (M.table second_links.old) second.old s
        → ChangesOnlyIn (M.table second_links.old) (M.table second_links.new) (object ∷ s) }
{
    let in_first = first
        .push_front(first_links, UnsafeRef::new(object))
        .is_ok();
    let in_second = second
        .push_front(second_links, UnsafeRef::new(object))
        .is_ok();
    in_first && in_second
}

/// The law of a push and a pop at the front: `pop_front` returns the object that `push_front` accepted, and the list has its old members again.
///
/// After both calls the same places are linked as before, and every other list is as it was, over any table. The law is about the results of `push_front` and
/// `pop_front`, and makes no call.
pub fn push_then_pop_front<K: ForwardLinks<L>, L: LinkOps>()
    ensures { PushThenPop (RepresentsChain K.Between K.kept) L.table L.Trace L.linked at_front first (λ s. remove (at_front s)) }
{}

/// The law of a push and a pop at the back: `pop_back` returns the object that `push_back` accepted, and the list has its old members again.
pub fn push_then_pop<K: DoubleEnded + BidirectionalLinks<L>, L: LinkOps>()
    ensures { PushThenPop (RepresentsChain K.Between K.kept) L.table L.Trace L.linked at_back last but_last }
{}
