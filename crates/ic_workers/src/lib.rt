//! Workers in threads of their own. All workers try to claim the same places, and each place is claimed by exactly one worker.
//!
//! ```text
//! let lists = fan_out(&rt, rt.alloc(), 4, 1000, &gate)?; // a list of places for each of 4 workers
//! doubles(1000, &lists) // 0: no place stands in two of them
//! ```
#![tactic(auto)]

mod doubled;
mod party;
mod sharing;

pub use doubled::doubles;
pub use sharing::fan_out;
