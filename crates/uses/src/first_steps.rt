//! First steps: two objects are pushed into a new list, and a cursor moves to the first of them.
//!
//! ```text
//! let position = first_steps(links, first, second)?; // Some(first)
//! ```

ghost use Rattle.std.specs.Prelude.{◌≡◌, ◌≢◌, ◌↔◌, Some, IsOk, IfOk, IfErr, if◌then◌else◌};
ghost use Rattle.ic_link_ops.specs.Tables.{IsCovered, IsUnlinked};
ghost use Rattle.ic_link_ops.specs.DoublyEntries.{is_linked, plain_table};

use ic_link_ops::AlreadyLinked;
use ic_link_ops::linked_list::{LinkOps, LinkedListOps};
use ic_linked_list::LinkedList;
use ic_unsafe_ref::{Place, UnsafeRef};
use std::alloc::Allocator;

/// Pushes two objects into a new list, moves a new cursor once, and returns the object on which the cursor then is. This is the first of the two objects.
///
/// It requires that the table covers both places, and consumes the table. If an object is linked already, or pushed twice, the caller gets it back.
/// O(1), and it takes no memory.
pub fn first_steps<T, A: Allocator>(
    mut links: LinkOps<A>,
    first: UnsafeRef<T>,
    second: UnsafeRef<T>,
) -> Result<Option<Place>, AlreadyLinked<T>>
    requires first { IsCovered (plain_table links) first }
    requires second { IsCovered (plain_table links) second }
    ensures accepted { IsOk result ↔ (IsUnlinked is_linked (plain_table links) first
        × IsUnlinked is_linked (plain_table links) second × (second ≢ first)) }
    ensures position { IfOk result (λ position. position ≡ Some first) }
    ensures refused { IfErr result (λ refused. refused.0
        ≡ (if is_linked ((plain_table links).entry first) then first else second)) }
{
    let mut list = LinkedList::new();
    list.push_back(&mut links, first)?; // Err(AlreadyLinked(first)) if it is linked in this field
    list.push_back(&mut links, second)?;
    let mut cursor = list.cursor(&links); // null
    cursor.move_next(); // on the first
    Ok(cursor.get_ptr())
}
