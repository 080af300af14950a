//! Calls for C that are built on `ic_raw`. They make one red-black tree from two trees, or two trees from one.
//!
//! ```text
//! tree_move_calls::append(table, tree, given)  // OK: the members of `given` come after those of `tree`, and `given` is empty
//! tree_move_calls::join(table, tree, 7, given) // OK: so does 7, between both
//! tree_move_calls::split(table, tree, 7, rest) // OK: `tree` has the members before 7, and `rest` has 7 and all after it
//! ```
//!
//! No call requires anything of its arguments. Each call checks first that the words represent the trees of the call, which takes O(n), and returns
//! [`BROKEN`](ic_raw::BROKEN) if they do not. Then the call makes the edit of `ic_rbtree`, which takes O(log n). A call returns a status as the calls
//! of `ic_raw` do, and changes nothing if the status is not [`OK`](ic_raw::OK).
#![tactic(auto)]

mod faults;
mod shown;
pub mod tree_move_calls;
