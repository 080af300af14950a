//! Functions that set a neighbor of a member, or an end of the list if there is no neighbor, and a function that finds the last member.

ghost use Rattle.std.specs.Prelude.{◌≡◌, ◌≢◌, Option, Some, None, List, []};
ghost use Rattle.ic_link_ops.specs.Prelude.{Place, last, IsLinked, IsNameable};
ghost use Rattle.ic_link_ops.specs.Chains.{end_of, TurnsTail, IsStretch};
ghost use Rattle.ic_link_ops.specs.Turns.{TurnsAfter, TurnsBefore};

use crate::kind::ForwardLinks;
use ic_link_ops::{LinkOps, PlaceWord};
use ic_unsafe_ref::Place;

/// Sets the place after `place` to `next`, if it was `from` before. If `place` is `None`, `next` becomes the list's first member.
#[inline]
pub(crate) fn set_next_or_head<K: ForwardLinks<L>, L: LinkOps>(
    links: &mut L,
    head: &mut PlaceWord,
    place: Option<Place>,
    from: Option<Place>,
    next: Option<Place>,
)
    requires linked { (q : Place) → place ≡ Some q → IsLinked L.linked (L.table links.old) q }
    requires from { IsNameable L.CanName from }
    requires to { IsNameable L.CanName next }
    ensures turns { TurnsAfter K.Between (L.table links.old).entry (L.table links.new).entry place from next }
    ensures extent { (L.table links.new).extent ≡ (L.table links.old).extent }
    ensures trace_stays { L.Trace links.old links.new [] }
    ensures head { head.new ≡ end_of place next head.old }
{
    match place {
        Some(place) => K::set_next(links, place, from, next),
        None => *head = PlaceWord::of(next),
    }
}

/// Sets the place before `place` to `prev`, if it was `from` before. If `place` is `None`, `prev` becomes the list's last member.
#[inline]
pub(crate) fn set_prev_or_tail<K: ForwardLinks<L>, L: LinkOps>(
    links: &mut L,
    tail: &mut K::Tail,
    place: Option<Place>,
    from: Option<Place>,
    prev: Option<Place>,
)
    requires linked { K.NamesPrev → (q : Place) → place ≡ Some q → IsLinked L.linked (L.table links.old) q }
    requires from { IsNameable L.CanName from }
    requires to { IsNameable L.CanName prev }
    ensures turns { TurnsBefore K.Between (L.table links.old).entry (L.table links.new).entry place from prev }
    ensures others { (q : Place) → (K.NamesPrev → place ≢ Some q) → (L.table links.new).entry q ≡ (L.table links.old).entry q }
    ensures extent { (L.table links.new).extent ≡ (L.table links.old).extent }
    ensures trace_stays { L.Trace links.old links.new [] }
    ensures tail { TurnsTail K.kept tail.old tail.new place prev }
{
    match place {
        Some(place) => K::set_prev(links, place, from, prev),
        None => *tail = K::keep(prev),
    }
}

/// The last member of the list whose first member is `first`. The call reads one entry for each member.
pub(crate) fn last_from<K: ForwardLinks<L>, L: LinkOps>(links: &L, first: Place) -> Option<Place>
    requires rest { (s : List Place) × IsStretch K.Between (L.table links.now).entry None (Some first) (last s) None s }
    ensures { (s : List Place) → IsStretch K.Between (L.table links.now).entry None (Some first) (last s) None s → result ≡ last s }
{
    let mut prev = None;
    let mut member = first;
    while let Some(next) = K::next(links, member, prev) {
        prev = Some(member);
        member = next;
    }
    Some(member)
}
