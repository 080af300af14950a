//! Tests of the structures that find objects by a key or a position: hash tables, trees with summaries, and trees that are built in order, merged and
//! parted. A test makes each of their calls as a user's program does.
#![tactic(auto)]

#[cfg(test)]
mod asserts;
#[cfg(test)]
mod augmented;
#[cfg(test)]
mod builder;
#[cfg(test)]
mod hash_table;
#[cfg(test)]
mod indexed;
#[cfg(test)]
mod keyed;
#[cfg(test)]
mod tree_merges;
#[cfg(test)]
mod unique_keys;
