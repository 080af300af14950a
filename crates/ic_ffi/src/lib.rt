//! Calls for C on lists, rings, hash tables and red-black trees, with their checks, sorts and merges. All words of a collection are in memory that the caller
//! owns.
//!
//! ```text
//! struct ic_link2 links[64] = {0};  // 64 places, none of them linked
//! struct ic_list list = {0};        // no members
//! ic_list_push_back(links, 64, &list, 7);
//!
//! struct ic_link3 nodes[64] = {0};
//! struct ic_tree tree = {0};
//! ic_tree_insert(nodes, 64, keys, 64, &tree, 7);  // in the order of keys[0 .. 63]
//! ```
//!
//! This crate only gives each call its C name. The body of each call is in `ic_raw`, `ic_raw_lists`, `ic_raw_keyed`, `ic_raw_trees` or
//! `ic_raw_augmented`, in a module with the same name as the module here.
//!
//! No call requires anything of its arguments. Each call tests every link that it follows or changes, returns a status, and changes nothing if the status is
//! not [`OK`]. The status is that of the first fault. Each call tests first the members that the caller names, in their order, then the keys, and then the
//! place to insert. If the members, the keys and the place have no fault but the links do not fit together, the call returns [`BROKEN`]. [`NULL`] means that
//! the caller named no place where one is needed, or that a search found none.
#![tactic(auto)]

mod check_calls;
mod ends_calls;
mod fill_calls;
mod growth_calls;
mod hash_calls;
mod list_calls;
mod move_calls;
mod narrow_list_calls;
mod narrow_ring_calls;
mod ring_calls;
mod ring_check_calls;
mod ring_sort_calls;
mod search_calls;
mod sort_calls;
mod stack_calls;
mod stack_sort_calls;
mod sum_calls;
mod transfer_calls;
mod tree_calls;
mod tree_move_calls;
mod xor_calls;

pub use ic_raw::{
    BROKEN, LINKED, NONE, NOT_LINKED, NULL, OK, OUT_OF_RANGE, RawEnds, RawFront, RawNarrowTwo,
    RawOne, RawRoot, RawThree, RawTwo,
};
pub use ic_raw_augmented::RawSum;
pub use ic_raw_keyed::RawTreeEnds;
