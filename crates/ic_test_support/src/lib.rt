//! This crate has what several crates of tests use. There are notes of the results of calls, numbers at the first eight places, functions that read a
//! whole table, the indexes of keyed containers, and an allocator that refuses a chosen request. All of this is in one crate, because each additional crate costs time in the gate.
#![tactic(auto)]

pub mod answers;
pub mod indexes;
pub mod notes;
pub mod objects;
pub mod rationed;
pub mod tables;
