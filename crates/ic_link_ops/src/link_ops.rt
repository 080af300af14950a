//! This file defines what every table of links can do, whatever the kind of collection.

ghost use Rattle.std.specs.Prelude.{◌≡◌, Bool, List, [], ◌∷◌, ◌++◌};
ghost use Rattle.std.specs.Bool.{OnTrue, OnFalse};
ghost use Rattle.ic_link_ops.specs.Base.{Place, Table, IsCovered, IsLinked, ChangesOnly, LinkStep, acquires, releases, TraceIs};

use ic_unsafe_ref::Place;

/// A table of links has one entry for each place that the table covers. The entry says whether the place is linked.
///
/// Collections use only this trait and the trait of their kind. A plain table refuses to link exactly the places that are linked
/// in it already. A table of claimed links also refuses a place that another holder has claimed.
///
/// A setter belongs to one kind of collection and changes one entry. The contract of a setter states only what collections of
/// this kind read in the entry afterwards. The contract states nothing about what collections of other kinds read in the entry,
/// because kinds share words. For example, a call that sets a next place also changes the word that an XOR list reads. No
/// collection is harmed by this, because a linked place is a member of only one collection of the table. After you called a
/// setter of another kind at a place, set each link of your kind there before you read it.
///
/// The plain tables are `linked_list::LinkOps`, `singly_linked_list::LinkOps`, `xor_linked_list::LinkOps` and `rbtree::LinkOps`.
///
/// ```text
/// if links.acquire_link(place) {
///     // the place is ours to link, and an insert writes its neighbors
///     links.release_link(place);
/// }
/// ```
pub trait LinkOps {
    /// All that the table stores at a place.
    type Entry;

    // The table at this moment: the number of places that it covers, and the entry of each place.
    ghost table: { Self → Table Self.Entry };

    // `linked` says whether an entry belongs to a linked place.
    ghost linked: { Self.Entry → Bool };

    // A link word of a table of this type can name the place. Whether it can does not depend on what the table contains.
    ghost CanName: { Place → Type 0 };

    // Between the first state and the second state, the table made exactly the steps of the list, in this order.
    ghost Trace: { Self → Self → List LinkStep → Type 0 };

    // The table refused to link the place between the first state and the second state, and no entry has changed.
    ghost Refused: { Self → Self → Place → Type 0 };

    /// Links `place` and returns true, or returns false if the table refuses the link.
    ///
    /// The call requires that the table covers `place`. O(1).
    fn acquire_link(&mut self, place: Place) -> bool
        requires covered { IsCovered (table self.old) place }
        ensures acquired { OnTrue result (Trace self.old self.new (acquires place ∷ [])) }
        ensures refused { OnFalse result (Refused self.old self.new place) }
        ensures frame { ChangesOnly (table self.old) (table self.new) place };

    /// Unlinks `place`. The call requires that `place` is linked. O(1).
    fn release_link(&mut self, place: Place)
        requires linked { IsLinked linked (table self.old) place }
        ensures released { Trace self.old self.new (releases place ∷ []) }
        ensures frame { ChangesOnly (table self.old) (table self.new) place };

    // The laws: Only covered places are linked. A link word can name every covered place. A table that stays the same has made no
    // step. The steps from `a` to `b`, followed by those from `b` to `c`, lead from `a` to `c`. The steps determine which places
    // are linked. A refusal changes no entry.
    ghost linked_is_covered: { (t : Self) (p : Place) → IsLinked linked (table t) p → IsCovered (table t) p };

    ghost covered_has_name: { (t : Self) (p : Place) → IsCovered (table t) p → CanName p };

    ghost does_nothing: { (t : Self) → Trace t t [] };

    ghost does_on: { (a b c : Self) (s t : List LinkStep) → Trace a b s → Trace b c t → Trace a c (s ++ t) };

    ghost does_replay: { (old new : Self) (s : List LinkStep) → Trace old new s → TraceIs linked (table old) (table new) s };

    ghost refused_keeps: { (old new : Self) (p : Place) → Refused old new p → table new ≡ table old };
}
