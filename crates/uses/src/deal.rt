//! Deals the members of a list to two vectors, in turns from the front and the back of the list.
//!
//! ```text
//! deal::represent(&list, &links, &objects, &mut seen_first, &mut seen_last)?;
//! deal::deal(list, &mut links, &mut fronts, &mut backs)?;
//! ```

ghost use Rattle.std.specs.Prelude.{◌≡◌, ◌+◌, ◌≤◌, ◌⊎◌, ◌↔◌, List, ◌++◌, map, reverse, OnOk, OnErr, vec_len, vec_capacity};
ghost use Rattle.std.specs.Iterator.{IsFinite};
ghost use Rattle.ic_link_ops.specs.Prelude.{Place, RepresentsPlaced, values_at};
ghost use Rattle.ic_link_ops.specs.LinkedList.{Represents, RepresentsSome};
ghost use Rattle.uses.specs.Hands.{gained, GrowInTurns, HasDealt, IsOver};

use ic_link_ops::linked_list::LinkedListOps;
use ic_linked_list::LinkedList;
use ic_unsafe_ref::{Objects, UnsafeRef};
use std::alloc::{AllocError, Allocator};

// Appends the items of a walk to two vectors, in turns from the walk's front and back, until a call for an item returns `None`. It stops earlier only if a
// vector has no room left.
fn in_turns<I: DoubleEndedIterator + Drop, A: Allocator>(
    mut walk: I,
    fronts: &mut Vec<I::Item, A>,
    backs: &mut Vec<I::Item, A>,
) -> Result<(), AllocError>
where
    I::Item: Drop,
    requires can { I.can_next walk }
    requires either_end { (s : I) → I.can_next s ↔ I.can_next_back s }
    requires ends { IsFinite (I.remaining walk) }
    ensures dealt { (end : I)
        × HasDealt I.next_gives I.next_back_gives walk end fronts.old.items fronts.new.items backs.old.items backs.new.items
        × OnOk result (IsOver I.next_gives I.next_back_gives I.can_next end) }
    ensures turns { (vec_len backs.new + vec_len fronts.old ≤ vec_len fronts.new + vec_len backs.old)
        × (vec_len fronts.new + vec_len backs.old ≤ vec_len backs.new + vec_len fronts.old + 1) }
    ensures refused { OnErr result
        ((vec_capacity fronts.old ≤ vec_len fronts.new) ⊎ (vec_capacity backs.old ≤ vec_len backs.new)) }
{
    while let Some(first) = walk.next() {
        fronts.push(first)?;
        let Some(last) = walk.next_back() else {
            return Ok(());
        };
        backs.push(last)?;
    }
    Ok(())
}

/// Deals the members of a list to two vectors, in turns one from the front and one from the back, until none is left.
///
/// It requires that the table represents a sequence for the list. Each member is unlinked as it is dealt. If a vector cannot grow, the members dealt so far
/// are unlinked, and so is the member for which the vector had no room. All other members stay linked. The call takes one step for each member, and memory
/// only for the vectors.
pub fn deal<T, L: LinkedListOps, A: Allocator>(
    list: LinkedList<T>,
    links: &mut L,
    fronts: &mut Vec<UnsafeRef<T>, A>,
    backs: &mut Vec<UnsafeRef<T>, A>,
) -> Result<(), AllocError>
    requires shown { RepresentsSome L.neighbors (L.table links.old) list }
    ensures dealt { (s : List Place) → Represents L.neighbors (L.table links.old) list s
        → OnOk result (gained fronts.old.items fronts.new.items ++ reverse (gained backs.old.items backs.new.items) ≡ s) }
    ensures grown { GrowInTurns fronts.old backs.old fronts.new backs.new result }
{
    in_turns(list.into_iter(links), fronts, backs)
}

/// Deals references to the objects of a list to two vectors, in turns one from the front and one from the back. It stops when all are dealt.
///
/// It requires that the table represents a sequence for the list, whose members are placed. If a vector cannot grow, both vectors keep the references that
/// were dealt before. The call takes one step for each member, and memory only for the vectors.
pub fn show<'a, T, L: LinkedListOps, A: Allocator, B: Allocator>(
    list: &LinkedList<T>,
    links: &'a L,
    objects: &'a Objects<T, A>,
    fronts: &mut Vec<&'a T, B>,
    backs: &mut Vec<&'a T, B>,
) -> Result<(), AllocError>
    requires placed { RepresentsPlaced (Represents L.neighbors (L.table links.now) list.now) objects.now }
    ensures shows { (s : List Place) → Represents L.neighbors (L.table links.now) list.now s
        → OnOk result (map (λ x. x.now) (gained fronts.old.items fronts.new.items)
        ++ reverse (map (λ x. x.now) (gained backs.old.items backs.new.items)) ≡ values_at objects.now s) }
    ensures grown { GrowInTurns fronts.old backs.old fronts.new backs.new result }
{
    in_turns(list.iter(links, objects), fronts, backs)
}
