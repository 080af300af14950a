//! Tests of the plain calls, each of which is made once, and of refusals that the operator `?` converts into an `anyhow::Error`.
#![tactic(auto)]

#[cfg(test)]
mod errors;
#[cfg(test)]
mod fixtures;
#[cfg(test)]
mod lists;
#[cfg(test)]
mod trees;
