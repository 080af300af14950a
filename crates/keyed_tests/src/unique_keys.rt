//! The tests of the container of unique keys. Its rows of calls are made over a tree and over a hash table, with enough memory and with each request
//! for memory refused in turn.

pub(crate) mod calls;
mod chains;
mod rows;
