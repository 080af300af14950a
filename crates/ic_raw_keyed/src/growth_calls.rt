//! The call by which a hash table grows, or shrinks: it moves the members of one chain to the buckets of another array.
//!
//! ```text
//! move_chain(table, hashes, &mut old[3], buckets) // OK: old[3] is empty, and its members are in `buckets`
//! ```

ghost use Rattle.ic_raw_keyed.specs.GrowthCalls.{MoveChainCall};

use crate::growth::{can_move, reverse, spread};
use ic_raw::{BROKEN, OK, OUT_OF_RANGE, RawFront, RawOne, RawTable, place_in};

/// Moves each member of `chain` to the front of a bucket of the array `buckets`, and leaves `chain` empty. The index of the bucket is the hash of the member
/// modulo the number of buckets. Each place stays linked, and members that go to the same bucket keep their order. The call reads three entries of the table
/// for each member.
///
/// There must be a hash for each place of the table, and at least one bucket. The call returns [`BROKEN`] if the links of the chain lead to no end or out of
/// the table. The call also returns [`BROKEN`] if the bucket of a member begins with a place that is not linked.
pub fn move_chain(
    table: &mut [RawOne],
    hashes: &[u64],
    chain: &mut RawFront,
    buckets: &mut [RawFront],
) -> u32
    ensures { MoveChainCall hashes.now table.old table.new chain.old chain.new buckets.old buckets.new result }
{
    let mut links = RawTable::new(table);
    if hashes.len() < links.places() {
        return OUT_OF_RANGE;
    }
    if buckets.is_empty() {
        return OUT_OF_RANGE;
    }
    let front = place_in(chain.head);
    if !can_move(&links, hashes, front, &*buckets) {
        return BROKEN;
    }
    let back = reverse(&mut links, front);
    spread(&mut links, hashes, back, buckets);
    chain.head = 0;
    OK
}
