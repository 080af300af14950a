//! Connections in queues. Each queue is a ring. A connection that closes is removed from its queue, and the caller does not need to know which queue this
//! is.

ghost use Rattle.std.specs.Prelude.{◌≡◌, ◌≢◌, ◌<◌, ◌∷◌, ◌++◌, List, [], IfSome, Some, true};
ghost use Rattle.ic_link_ops.specs.Prelude.{Place, index_of, object_at, is_placed, IsMember, at_back, at_front, first, insert, remove, releases};
ghost use Rattle.ic_ring.specs.Rings.{InRing, Represents, RepresentsBeside};

use crate::ring::write_members;
use ic_link_ops::LinkOps;
use ic_link_ops::linked_list::LinkedListOps;
use ic_ring::{Ring, remove};
use ic_test_support::answers::{object, value, write_places};
use ic_test_support::notes::{Answer, Text};
use ic_unsafe_ref::{Objects, Place, UnsafeRef};

/// Moves a connection, which is being used, from whichever queue it is in to the back of the idle queue.
pub(crate) fn touch<L: LinkedListOps>(links: &mut L, idle: &Ring<u64>, connection: &UnsafeRef<u64>)
    requires queued { InRing L.neighbors (L.table links.old) connection.now }
    requires idle { InRing L.neighbors (L.table links.old) idle.now }
    requires other { idle.now ≢ connection.now }
    ensures touched { (s : List Place) → RepresentsBeside L.neighbors (L.table links.old) connection.now idle.now s
        → Represents L.neighbors (L.table links.new) idle.now (insert (at_back s) connection.now) }
    ensures extent { (L.table links.new).extent ≡ (L.table links.old).extent }
{
    idle.move_to_back(links, connection);
}

/// Closes a connection: removes it from its queue, without naming the queue.
pub(crate) fn close<L: LinkedListOps>(links: &mut L, connection: &UnsafeRef<u64>)
    requires queued { InRing L.neighbors (L.table links.old) connection.now }
    ensures left { (queue : Place) (front back : List Place) → Represents L.neighbors (L.table links.old) queue (front ++ connection.now ∷ back)
        → Represents L.neighbors (L.table links.new) queue (front ++ back) }
    ensures unlinked { L.Trace links.old links.new (releases connection.now ∷ []) }
    ensures extent { (L.table links.new).extent ≡ (L.table links.old).extent }
{
    remove(links, connection);
}

/// Removes the connection that has been idle longest, which is the first one of the queue, and returns it, if there is one.
pub(crate) fn close_oldest<L: LinkedListOps>(
    links: &mut L,
    idle: &Ring<u64>,
) -> Option<UnsafeRef<u64>>
    requires idle { InRing L.neighbors (L.table links.old) idle.now }
    ensures oldest { (s : List Place) → Represents L.neighbors (L.table links.old) idle.now s → result ≡ first s }
    ensures others { (s : List Place) → Represents L.neighbors (L.table links.old) idle.now s → Represents L.neighbors (L.table links.new) idle.now (remove (at_front s)) }
    ensures extent { (L.table links.new).extent ≡ (L.table links.old).extent }
    ensures unlinked { IfSome result (λ connection. L.Trace links.old links.new (releases connection ∷ [])) }
{
    idle.pop_front(links)
}

// Removes the first connection of the queue. Returns the removed connection, the new first connection, and the number of the new first connection.
fn close_first<L: LinkedListOps>(
    links: &mut L,
    objects: &Objects<u64>,
    queue: &Ring<u64>,
) -> (Option<UnsafeRef<u64>>, Option<Place>, Option<u64>)
    requires queue { InRing L.neighbors (L.table links.old) queue.now }
    ensures closed { (one : Place) (s : List Place) → Represents L.neighbors (L.table links.old) queue.now (one ∷ s)
        → (result.0 ≡ Some one) × Represents L.neighbors (L.table links.new) queue.now s × (result.1 ≡ first s) }
    ensures number { (one next : Place) (s : List Place) → Represents L.neighbors (L.table links.old) queue.now (one ∷ next ∷ s)
        → result.2 ≡ object_at objects.now next }
    ensures queue { InRing L.neighbors (L.table links.new) queue.now }
    ensures extent { (L.table links.new).extent ≡ (L.table links.old).extent }
{
    let mut cursor = queue.cursor_mut(links);
    cursor.move_next();
    let closed = cursor.remove();
    (closed, cursor.get_ptr(), cursor.get(objects).copied())
}

// Returns whether the connection is the last one in the queue. A connection is the last one if the head comes after it.
fn is_last<L: LinkedListOps>(links: &L, queue: &Ring<u64>, connection: &UnsafeRef<u64>) -> bool
    requires here { (r : List Place) × Represents L.neighbors (L.table links.now) queue.now r × IsMember connection.now (queue.now ∷ r) }
    ensures last { (s : List Place) → Represents L.neighbors (L.table links.now) queue.now (s ++ connection.now ∷ []) → result ≡ true }
{
    let mut cursor = queue.cursor_at(links, connection.place());
    cursor.move_next();
    cursor.is_null()
}

// Removes the connection from the queue. Returns the connection that came after it, and whether there is none.
fn close_here<L: LinkedListOps>(
    links: &mut L,
    queue: &Ring<u64>,
    connection: &UnsafeRef<u64>,
) -> (Option<Place>, bool)
    requires here { (r : List Place) × Represents L.neighbors (L.table links.old) queue.now r × IsMember connection.now (queue.now ∷ r) }
    ensures queue { InRing L.neighbors (L.table links.new) queue.now }
    ensures extent { (L.table links.new).extent ≡ (L.table links.old).extent }
{
    let mut cursor = queue.cursor_mut_at(links, connection.place());
    let _ = cursor.remove();
    (cursor.as_cursor().get_ptr(), cursor.is_null())
}

// Removes the last connection of the queue, if there is one. Returns whether it was the last, the connection that came after it, and whether there is none.
fn close_last<L: LinkedListOps>(links: &mut L, queue: &Ring<u64>) -> (bool, Option<Place>, bool)
    requires queue { InRing L.neighbors (L.table links.old) queue.now }
    ensures queue { InRing L.neighbors (L.table links.new) queue.now }
    ensures extent { (L.table links.new).extent ≡ (L.table links.old).extent }
{
    let Some(last) = queue.last(&*links) else {
        return (false, None, true);
    };
    let connection = UnsafeRef::new(last);
    let was_last = is_last(&*links, queue, &connection);
    let (after, is_none) = close_here(links, queue, &connection);
    (was_last, after, is_none)
}

// Moves the first member of the ring to the back, as Linux's `list_rotate_left` does.
fn rotate_left<L: LinkedListOps>(links: &mut L, ring: &Ring<u64>)
    requires covers { (L.table links.old).extent.places ≡ 8 }
    requires shown { InRing L.neighbors (L.table links.old) ring.now }
    ensures covers { (L.table links.new).extent.places ≡ 8 }
    ensures shown { InRing L.neighbors (L.table links.new) ring.now }
{
    let Some(first) = ring.first(&*links) else {
        return;
    };
    touch(links, ring, &UnsafeRef::new(first));
}

// Removes the first member by a call that does not name the queue, as Linux's `list_del` does.
fn remove_first<L: LinkedListOps>(links: &mut L, queue: &Ring<u64>)
    requires queue { InRing L.neighbors (L.table links.old) queue.now }
    ensures queue { InRing L.neighbors (L.table links.new) queue.now }
    ensures extent { (L.table links.new).extent ≡ (L.table links.old).extent }
{
    let Some(first) = queue.first(&*links) else {
        return;
    };
    close(links, &UnsafeRef::new(first));
}

/// Makes the calls of a server on a queue of connections, and notes what the calls return.
///
/// The first connection is used and moves to the back. The new first connection is closed, and the members are noted. A cursor closes the connection that
/// is then the first, and the function notes the next first connection and its number. Then the connection that has been idle longest is closed, and
/// finally the last one.
pub(crate) fn write_served<L: LinkedListOps>(
    notes: &mut Text,
    links: &mut L,
    objects: &Objects<u64>,
    queue: &Ring<u64>,
)
    requires covers { (L.table links.old).extent.places ≡ 8 }
    requires placed { (q : Place) → index_of q < 8 → is_placed objects.now q ≡ true }
    requires shown { InRing L.neighbors (L.table links.old) queue.now }
    ensures covers { (L.table links.new).extent.places ≡ 8 }
    ensures shown { InRing L.neighbors (L.table links.new) queue.now }
{
    rotate_left(links, queue);
    remove_first(links, queue);
    write_members(notes, &*links, objects, queue);
    let (closed, first, number) = close_first(links, objects, queue);
    notes.add(object(closed), " ");
    write_places(notes, &[first]);
    notes.add(value(number.as_ref()), " ");
    notes.add(object(close_oldest(links, queue)), " ");
    let (was_last, after, is_none) = close_last(links, queue);
    notes.add(Answer::Truth(was_last), " ");
    write_places(notes, &[after]);
    notes.add(Answer::Truth(is_none), " ");
}
