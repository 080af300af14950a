//! What each kind of list must implement: which words a list stores, and how the list reads and writes the links of a table.
//!
//! A kind is a unit struct, such as `DoublyLinked` for doubly linked lists. No call takes a value of the unit struct.
//!
//! ```text
//! pub struct DoublyLinked;
//! impl ListKind for DoublyLinked { .. }                          // what a list keeps
//! impl<L: LinkedListOps> ForwardLinks<L> for DoublyLinked { .. } // over each table of doubly links
//! pub type LinkedList<T> = LinkList<DoublyLinked, T>;
//! ```

ghost use Rattle.std.specs.Prelude.{◌≡◌, ◌≢◌, Option, Bool, true, false, Some, None, [], ◌∷◌};
ghost use Rattle.std.specs.Bool.{OnTrue, OnFalse};
ghost use Rattle.ic_link_ops.specs.Prelude.{Place, IsCovered, IsLinked, IsNameable, ChangesOnly, acquires};
ghost use Rattle.ic_link_ops.specs.Turns.{TurnsAfter, TurnsBefore};
ghost use Rattle.ic_chain.specs.Walk.{WalkEnds};

use crate::position::ListPosition;
use ic_link_ops::LinkOps;
use ic_unsafe_ref::Place;

/// A kind of lists says what a list stores about its last member, and what a cursor stores about its position.
pub trait ListKind {
    /// What a list stores about its last member: the place, or nothing.
    type Tail: Drop;

    /// What a cursor of the list stores about its position.
    type Position: ListPosition;

    // What a list stores about the given last member, or about none if the list is empty.
    ghost kept: { Option Place → Self.Tail };

    // The last member, read from what the list stores about it, or none if the list stores nothing. `keeps_last` says whether the kind stores its
    // last member.
    ghost kept_last: { Self.Tail → Option Place };

    ghost keeps_last: { Bool };

    /// What the list stores about its last member `last`, which is `None` for an empty list.
    fn keep(last: Option<Place>) -> Self::Tail
        ensures { result ≡ kept last };

    /// The last member, read from what the list stores about it. The result is `None` for an empty list, and if the kind does not store its last
    /// member.
    fn kept_last(tail: &Self::Tail) -> Option<Place>
        ensures { result ≡ kept_last tail.now };

    /// Whether lists of the kind store their last member.
    fn keeps_last() -> bool
        ensures { result ≡ keeps_last };

    // The laws: what a list stores about its last member determines this member, if the kind stores it. A kind that stores no last member stores the
    // same for every list.
    ghost tells_last: { (last : Option Place) → WalkEnds keeps_last (kept_last (kept last)) None last };

    ghost tells_nothing: { keeps_last ≡ false → (p q : Option Place) → kept p ≡ kept q };
}

/// A kind whose lists store their last member.
pub trait DoubleEnded: ListKind {
    // The law: lists of the kind store their last member.
    ghost keeps_both: { Self.keeps_last ≡ true };
}

/// A kind whose lists store only their first member.
pub trait SingleEnded: ListKind {
    // The law: lists of the kind do not store their last member.
    ghost keeps_one: { Self.keeps_last ≡ false };
}

/// A kind of lists in which the entry of a member names the next place, so that a cursor's position need not store the next place.
pub trait NamesNext: ListKind {
    // The law: what a position stores about the next member is right for every next member, because a position of the kind stores no next member.
    ghost caches_nothing: { (at : Self.Position) (next : Option Place) → Self.Position.CachesNext at next };
}

/// A kind whose entries do not say which of two neighbors is before a member and which is after it. The two ends of a list alone give its direction.
pub trait Reversible: DoubleEnded {}

/// How lists of a kind read and write the links of a table, in the direction from the first member to the last.
pub trait ForwardLinks<L: LinkOps>: ListKind {
    // The entry is linked between the given previous place and the given next place, each of which is none beyond an end.
    ghost Between: { L.Entry → Option Place → Option Place → Type 0 };

    // The next place, which an entry determines together with the given previous place.
    ghost step: { L.Entry → Option Place → Option Place };

    // Whether the entries of the kind name the previous place. `ReadsNext` says whether a position on a member is made by reading the member's entry.
    ghost NamesPrev: { Type 0 };

    ghost ReadsNext: { Type 0 };

    /// The place after `place`, if `prev` is the place before it. The call reads one entry.
    fn next(links: &L, place: Place, prev: Option<Place>) -> Option<Place>
        requires linked { IsLinked L.linked (L.table links.now) place }
        ensures { result ≡ step ((L.table links.now).entry place) prev };

    /// The place after `place`, if the position `at` is on `place`. The call reads at most one entry.
    fn next_at(links: &L, place: Place, at: &Self::Position) -> Option<Place>
        requires linked { IsLinked L.linked (L.table links.now) place }
        requires on { Self.Position.member at.now ≡ Some place }
        ensures { (prev next : Option Place) → Between ((L.table links.now).entry place) prev next → Self.Position.CachesNext at.now next → result ≡ next };

    /// The position on `place`, if `prev` is the place before it. The call reads at most one entry.
    fn position_at(links: &L, place: Place, prev: Option<Place>) -> Self::Position
        requires linked { ReadsNext → IsLinked L.linked (L.table links.now) place }
        ensures on { Self.Position.member result ≡ Some place }
        ensures caches { (next : Option Place) → Between ((L.table links.now).entry place) prev next → Self.Position.CachesNext result next };

    /// Sets the place after `place` to `to`, if it was `from` before. The call writes one entry.
    fn set_next(links: &mut L, place: Place, from: Option<Place>, to: Option<Place>)
        requires linked { IsLinked L.linked (L.table links.old) place }
        requires from { IsNameable L.CanName from }
        requires to { IsNameable L.CanName to }
        ensures turns { TurnsAfter Between (L.table links.old).entry (L.table links.new).entry (Some place) from to }
        ensures frame { ChangesOnly (L.table links.old) (L.table links.new) place }
        ensures trace_stays { L.Trace links.old links.new [] };

    /// Sets the place before `place` to `to`, if it was `from` before. The call writes one entry, or none if the entries of the kind do not name the
    /// previous place.
    fn set_prev(links: &mut L, place: Place, from: Option<Place>, to: Option<Place>)
        requires linked { NamesPrev → IsLinked L.linked (L.table links.old) place }
        requires from { IsNameable L.CanName from }
        requires to { IsNameable L.CanName to }
        ensures turns { TurnsBefore Between (L.table links.old).entry (L.table links.new).entry (Some place) from to }
        ensures frame { ChangesOnly (L.table links.old) (L.table links.new) place }
        ensures others { (q : Place) → (NamesPrev → q ≢ place) → (L.table links.new).entry q ≡ (L.table links.old).entry q }
        ensures trace_stays { L.Trace links.old links.new [] };

    /// Sets both neighbors of the linked place `place` to `prev` and `next`.
    fn set_neighbors(links: &mut L, place: Place, prev: Option<Place>, next: Option<Place>)
        requires linked { IsLinked L.linked (L.table links.old) place }
        requires prev { IsNameable L.CanName prev }
        requires next { IsNameable L.CanName next }
        ensures set { Between ((L.table links.new).entry place) prev next }
        ensures frame { ChangesOnly (L.table links.old) (L.table links.new) place }
        ensures trace_stays { L.Trace links.old links.new [] };

    /// Links `place` between the places `prev` and `next` and returns true, or returns false if the link is refused.
    fn link_between(links: &mut L, place: Place, prev: Option<Place>, next: Option<Place>) -> bool
        requires covered { IsCovered (L.table links.old) place }
        requires prev { IsNameable L.CanName prev }
        requires next { IsNameable L.CanName next }
        ensures acquired { OnTrue result (L.Trace links.old links.new (acquires place ∷ [])) }
        ensures set { OnTrue result (Between ((L.table links.new).entry place) prev next) }
        ensures refused { OnFalse result (L.Refused links.old links.new place) }
        ensures frame { ChangesOnly (L.table links.old) (L.table links.new) place };

    // The laws: if an entry is linked between two places, it says that its place is linked, and `step` returns the next place for the entry and the previous
    // place.
    ghost between_linked: { (e : L.Entry) (b a : Option Place) → Between e b a → L.linked e ≡ true };

    ghost leads: { (e : L.Entry) (b a : Option Place) → Between e b a → step e b ≡ a };
}

/// How lists of a kind read the links of a table also in the direction from the last member to the first.
pub trait BidirectionalLinks<L: LinkOps>: ForwardLinks<L> {
    // The previous place, which an entry determines together with the given next place.
    ghost step_back: { L.Entry → Option Place → Option Place };

    /// The place before `place`, if `next` is the place after it. The call reads one entry.
    fn prev(links: &L, place: Place, next: Option<Place>) -> Option<Place>
        requires linked { IsLinked L.linked (L.table links.now) place }
        ensures { result ≡ step_back ((L.table links.now).entry place) next };

    // The law: if an entry is linked between two places, `step_back` returns the previous place for the entry and the next place.
    ghost leads_back: { (e : L.Entry) (b a : Option Place) → Self.Between e b a → step_back e a ≡ b };
}

/// A kind of lists in which an entry names each neighbor of its place without knowledge of the other neighbor.
pub trait NamesBoth<L: LinkOps>: BidirectionalLinks<L> {
    // The law: the entry alone determines the previous place, because `step_back` returns the same place for every given next place.
    ghost tells_before: { (e : L.Entry) (a a' : Option Place) → Self.step_back e a ≡ Self.step_back e a' };
}
