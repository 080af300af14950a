//! Calls for C of trees with sums. They find the member at a position, the position of a member, the sum of the values before a member, and intervals that
//! overlap.
//!
//! ```text
//! struct ic_sum counts[100] = {0};                                    // each value is 1
//! find(table, sums, Kind::Sum, tree, NONE, 3, &mut found)             // OK: the member at position 3
//! before(table, sums, Kind::Sum, 7, &mut position)                    // OK: how many members are before 7
//! overlap(table, starts, sums, tree, NONE, 5, 8, &mut found)          // OK: the first interval that overlaps [5, 8)
//! renew(table, sums, Kind::Sum, 7)                                    // OK: after the value of 7 was changed
//! ```
//!
//! No call requires anything of its arguments. Each call returns a status as the calls of `ic_raw` do, and changes nothing if the status is not `OK`.
#![tactic(auto)]

pub mod edit_calls;
mod find;
mod noting;
mod recompute;
pub mod sum_calls;
mod sums;
mod written;

pub use sums::{Kind, RawSum};
pub use written::Written;
