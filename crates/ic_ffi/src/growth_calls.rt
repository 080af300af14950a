//! The call by which a hash table grows or shrinks. The call moves the members of one chain to the buckets of another array.
//!
//! ```text
//! struct ic_link1 links[64] = {0};
//! struct ic_stack few[16] = {0}, many[32] = {0};
//! uint64_t hashes[64] = {0};
//! for (uint32_t i = 0; i < 16; i++)
//!     status = ic_hash_move_chain(links, 64, hashes, 64, &few[i], many, 32); // IC_OK: few[i] is empty then
//! ```

ghost use Rattle.ic_raw_keyed.specs.GrowthCalls.{MoveChainCall};

use ic_raw::{RawFront, RawOne};
use ic_raw_keyed::growth_calls;

/// Moves each member of `chain` to the front of a bucket of the array `buckets`, and leaves `chain` empty. The index of the bucket is the hash of the member
/// modulo the number of buckets. Each place stays linked, and members that go to the same bucket keep their order. The call reads three entries of the table
/// for each member.
///
/// There must be a hash for each place of the table, and at least one bucket. The call returns [`BROKEN`](crate::BROKEN) if the links of the chain lead
/// to no end or out of the table. The call also returns [`BROKEN`](crate::BROKEN) if the bucket of a member begins with a place that is not linked.
#[unsafe(no_mangle)]
pub extern "C" fn ic_hash_move_chain(
    table: &mut [RawOne],
    hashes: &[u64],
    chain: &mut RawFront,
    buckets: &mut [RawFront],
) -> u32
    ensures { MoveChainCall hashes.now table.old table.new chain.old chain.new buckets.old buckets.new result }
{
    growth_calls::move_chain(table, hashes, chain, buckets)
}
