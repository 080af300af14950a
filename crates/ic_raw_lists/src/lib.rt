//! Functions that sort, merge and check lists and rings and move members between lists, over words that belong to the caller.
//!
//! ```text
//! stack_sort_calls::sort(table, keys, list)                             // OK: members with equal keys keep their order
//! transfer_calls::transfer_at(table, list, GapSide::After, NONE, given, 7) // OK: 7 is the first member of `list`, and no longer one of `given`
//! ring_check_calls::check(table, 64, &mut members)                      // OK, or BROKEN where the words represent no ring with this head
//! ```
//!
//! Each module contains the calls of the module of `ic_ffi` with the same name. No function requires anything of its arguments. Each function tests every link
//! that it follows or changes, returns a status of `ic_raw`, and changes nothing if the status is not `OK`.
#![tactic(auto)]

pub mod ring_check_calls;
mod ring_order;
pub mod ring_sort_calls;
mod ring_walk;
pub mod stack_sort_calls;
mod transfer;
pub mod transfer_calls;
