//! A sort and a merge of rings, by keys in a separate array with one key for each place.
//!
//! ```text
//! uint64_t keys[64] = {0};
//! ic_ring_sort(links, 64, keys, 64, 63);      // IC_OK: the members of the head 63 are in order, and those with equal keys keep theirs
//! ic_ring_merge(links, 64, keys, 64, 63, 62); // IC_OK: it has those of the head 62, too, and of members with equal keys its own go first
//! ```

ghost use Rattle.ic_raw.specs.Words.{place_of};
ghost use Rattle.ic_raw_lists.specs.RingSortCalls.{RingMergeCall, RingSortCall};

use ic_raw::RawTwo;
use ic_raw_lists::ring_sort_calls;

/// Sorts the members of the ring with the head `head` by their keys. Members with equal keys keep their order. O(n log n). The call uses no memory
/// except the stack.
///
/// There must be a key for each place of the table. The call returns [`NULL`](crate::NULL) if `head` is [`NONE`](crate::NONE), and
/// [`BROKEN`](crate::BROKEN) if the words do not represent a ring with this head.
#[unsafe(no_mangle)]
pub extern "C" fn ic_ring_sort(table: &mut [RawTwo], keys: &[u64], head: u32) -> u32
    ensures { RingSortCall keys.now table.old table.new result (place_of head) }
{
    ring_sort_calls::sort(table, keys, head)
}

/// Merges the members of the ring with the head `given` into the ring with the head `head` by their keys, and leaves `given` without members. O(n).
///
/// If both rings were sorted, the result is sorted, and among members with equal keys the members of the ring with the head `head` come first. There
/// must be a key for each place of the table. The call returns [`NULL`](crate::NULL) if one of the two heads is [`NONE`](crate::NONE), and
/// [`BROKEN`](crate::BROKEN) if the words do not represent two rings with these heads.
#[unsafe(no_mangle)]
pub extern "C" fn ic_ring_merge(table: &mut [RawTwo], keys: &[u64], head: u32, given: u32) -> u32
    ensures { RingMergeCall keys.now table.old table.new result (place_of head) (place_of given) }
{
    ring_sort_calls::merge(table, keys, head, given)
}
