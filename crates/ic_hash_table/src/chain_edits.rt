//! These functions edit one chain. They insert a member at its front, remove the member after a given one, or insert all members of a second chain at its
//! front.
//!
//! ```text
//! let front = unlink_after(&mut links, front, before, place);
//! ```

ghost use Rattle.std.specs.Prelude.{◌≡◌, ◌≢◌, Option, List, [], ◌∷◌, ◌++◌};
ghost use Rattle.ic_link_ops.specs.Prelude.{Place, IsAbsent, IsDisjoint, last, IsLinked, IsNameable, ChangesOnlyIn, releases};
ghost use Rattle.ic_hash_table.specs.Chains.{RepresentsFrom, RepresentsFromSome};

use ic_cursors::{Collection, Splice};
use ic_link_ops::LinkOps;
use ic_link_ops::singly_linked_list::SinglyLinkedListOps;
use ic_singly_linked_list::SinglyLinkedList;
use ic_unsafe_ref::Place;

// Removes the member `place` from the chain that begins with `front`, and unlinks it. The member `before` comes directly before `place`. Returns the chain's
// first member after the removal.
#[inline]
pub(crate) fn unlink_after<L: SinglyLinkedListOps>(
    links: &mut L,
    front: Option<Place>,
    before: Option<Place>,
    place: Place,
) -> Option<Place>
    requires member { (ahead back : List Place) × RepresentsFrom L.successor (L.table links.old) front (ahead ++ place ∷ back)
        × (before ≡ last ahead) }
    ensures removed { (ahead back : List Place) → RepresentsFrom L.successor (L.table links.old) front (ahead ++ place ∷ back)
        → before ≡ last ahead → RepresentsFrom L.successor (L.table links.new) result (ahead ++ back) }
    ensures released { L.Trace links.old links.new (releases place ∷ []) }
    ensures frame { (ahead back : List Place) → RepresentsFrom L.successor (L.table links.old) front (ahead ++ place ∷ back)
        → before ≡ last ahead → ChangesOnlyIn (L.table links.old) (L.table links.new) (ahead ++ place ∷ back) }
{
    let mut chain: SinglyLinkedList<()> = SinglyLinkedList::from_front(front);
    let after = links.next(place);
    chain.bypass(links, before, place, after);
    links.release_link(place);
    chain.first()
}

// Inserts the linked `place`, which is in no chain yet, at the front of the chain that begins with `front`. Returns the chain's new first member, which is
// `place`.
#[inline]
pub(crate) fn link_front<L: SinglyLinkedListOps>(
    links: &mut L,
    place: Place,
    front: Option<Place>,
) -> Option<Place>
    requires linked { IsLinked L.linked (L.table links.old) place }
    requires front { IsNameable L.CanName front }
    ensures shows { (s : List Place) → RepresentsFrom L.successor (L.table links.old) front s → IsAbsent place s
        → RepresentsFrom L.successor (L.table links.new) result (place ∷ s) }
    ensures others { (q : Place) → q ≢ place → (L.table links.new).entry q ≡ (L.table links.old).entry q }
    ensures extent { (L.table links.new).extent ≡ (L.table links.old).extent }
    ensures trace_stays { L.Trace links.old links.new [] }
{
    let mut chain: SinglyLinkedList<()> = SinglyLinkedList::from_front(front);
    chain.insert_linked(links, None, place, front);
    chain.first()
}

// Inserts all members of the chain that begins with `front` before the members of the chain that begins with `rest`. Returns the first member of the joined
// chain.
pub(crate) fn join_chains<L: SinglyLinkedListOps>(
    links: &mut L,
    front: Option<Place>,
    rest: Option<Place>,
) -> Option<Place>
    requires shown { RepresentsFromSome L.successor (L.table links.old) front }
    requires rest { RepresentsFromSome L.successor (L.table links.old) rest }
    ensures joined { (s t : List Place) → RepresentsFrom L.successor (L.table links.old) front s → RepresentsFrom L.successor (L.table links.old) rest t → IsDisjoint s t
        → RepresentsFrom L.successor (L.table links.new) result (s ++ t) }
    ensures frame { (s t : List Place) → RepresentsFrom L.successor (L.table links.old) front s → RepresentsFrom L.successor (L.table links.old) rest t → IsDisjoint s t
        → ChangesOnlyIn (L.table links.old) (L.table links.new) (s ++ t) }
    ensures trace_stays { L.Trace links.old links.new [] }
{
    let mut chain: SinglyLinkedList<()> = SinglyLinkedList::from_front(rest);
    let mut at = chain.null_position();
    chain.splice_after_at(links, &mut at, SinglyLinkedList::from_front(front));
    chain.first()
}
