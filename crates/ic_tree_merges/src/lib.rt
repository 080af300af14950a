//! This crate makes the union, the intersection or the difference of two trees in order, in O(n + m) and with no memory.
//!
//! Each tree becomes a vine, which is a list along right children. The vines are merged or split, and each result is built into a tree
//! of the least height. No link is acquired or released.
//!
//! ```text
//! let mut order = ByKeys::new(ByDeadline);
//! merge(&mut tree, &mut links, &objects, &mut order, other); // all members of both
//! let rest = intersection(&mut tree, &mut links, &objects, &mut order, &other); // `tree` keeps what `other` has, too
//! ```
#![tactic(auto)]

mod compares;
mod merging;
mod parting;
mod vine;

pub use compares::{ByKeys, Compares};
pub use merging::merge;
pub use parting::{difference, intersection, union};
