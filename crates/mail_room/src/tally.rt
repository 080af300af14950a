//! Counts the places that came in the order in which their sender sent them.

ghost use Rattle.std.specs.Prelude.{◌≡◌, ◌≤◌, ◌+◌, ◌/◌, ◌%◌, IfOk, length, set};
ghost use Rattle.std.specs.Bool.{OnTrue, OnFalse};
ghost use Rattle.mail_room.specs.Tally.{in_order_of, IsNext};

use ic_unsafe_ref::Place;
use std::alloc::{AllocError, Allocator};

/// Returns how many of the places in `came` came as the next place of their sender, if each sender sends `places` places. The sender with the number `k`
/// sends the places from the index `k * places` on.
///
/// A place that comes a second time does not count, and a place of the same sender after a lost place does not count either.
pub fn in_order<A: Allocator>(
    alloc: A,
    senders: usize,
    places: usize,
    came: &[Place],
) -> Result<usize, AllocError>
    ensures counted { IfOk result (λ count. count ≡ in_order_of senders places came.now) }
    ensures few { IfOk result (λ count. count ≤ length came.now) }
{
    let mut numbers = vec![in alloc; 0; senders]?;
    let mut count = 0;
    for place in came {
        if is_next(&mut numbers, places, place.index()) {
            count += 1;
        }
    }
    Ok(count)
}

// Returns whether the place with this index is the next place of its sender. If it is, the call adds 1 to the sender's number in `numbers`.
fn is_next<A: Allocator>(numbers: &mut Vec<usize, A>, places: usize, index: usize) -> bool
    ensures next { OnTrue result (IsNext numbers.old.items places index) }
    ensures counted { OnTrue result (numbers.new.items ≡ set numbers.old.items (index / places) (index % places + 1)) }
    ensures other { OnFalse result (IsNext numbers.old.items places index → ⊥) }
    ensures same { OnFalse result (numbers.new.items ≡ numbers.old.items) }
{
    if places == 0 {
        return false;
    }
    let sender = index / places;
    if sender >= numbers.len() || numbers[sender] != index % places {
        return false;
    }
    numbers[sender] += 1;
    true
}
