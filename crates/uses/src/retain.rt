//! Keeps the members of a list that pass a test, and removes all other members in one walk.
//!
//! ```text
//! retain::retain(&mut sessions, &mut links, &objects, |session| session.is_alive());
//! ```

ghost use Rattle.std.specs.Prelude.{List};
ghost use Rattle.std.specs.Fn.{FnReturnsAt};
ghost use Rattle.ic_link_ops.specs.Prelude.{Place, ChangesOnlyIn, RepresentsPlaced, releases_each};
ghost use Rattle.ic_link_ops.specs.LinkedList.{Represents};
ghost use Rattle.uses.specs.Retain.{Parts, TellsOf};

use ic_link_ops::linked_list::LinkedListOps;
use ic_linked_list::LinkedList;
use ic_unsafe_ref::Objects;
use std::alloc::Allocator;

/// Removes each member whose object fails the test. The other members stay, in their order.
///
/// It requires that the table represents a sequence for the list, whose members are placed. It calls the test once for each member, from the front.
/// The removed objects are unlinked, but keep their places. It takes one step for each member, and no memory.
pub fn retain<T, L: LinkedListOps, A: Allocator, F: Fn(&T) -> bool>(
    list: &mut LinkedList<T>,
    links: &mut L,
    objects: &Objects<T, A>,
    keeps: F,
)
    requires placed { RepresentsPlaced (Represents L.neighbors (L.table links.old) list.old) objects.now }
    requires callable { F.IsAlwaysCallable keeps }
    ensures retained { (s : List Place) → Represents L.neighbors (L.table links.old) list.old s → (kept gone : List Place)
        × Parts (TellsOf objects.now (FnReturnsAt F.Fn keeps)) s kept gone
        × Represents L.neighbors (L.table links.new) list.new kept × L.Trace links.old links.new (releases_each gone) }
    ensures frame { (s : List Place) → Represents L.neighbors (L.table links.old) list.old s
        → ChangesOnlyIn (L.table links.old) (L.table links.new) s }
{
    let mut cursor = list.front_mut(links);
    while let Some(object) = cursor.get(objects) {
        if keeps(object) {
            cursor.move_next();
        } else {
            cursor.remove();
        }
    }
}
