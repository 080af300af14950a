//! Tests of the structures over lists. The tests make each call of these structures as a user's program does, and build a container with contracts out
//! of lists.
#![tactic(auto)]

#[cfg(test)]
mod algorithms;
#[cfg(test)]
mod asserts;
#[cfg(test)]
mod check;
#[cfg(test)]
mod claimed;
pub mod containers;
#[cfg(test)]
mod listed;
#[cfg(test)]
mod ring;
