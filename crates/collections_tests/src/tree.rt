//! Tests of the red-black tree.

mod beside;
mod cached;
mod cursors;
mod keys;
mod looks;
mod shape;
mod summaries;
pub(crate) mod trees;
mod two_trees;
mod walks;
