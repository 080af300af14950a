//! Tests of stacks that threads share, and of their uses. Each place that is pushed must be taken exactly once, and in the right order.
#![tactic(auto)]

#[cfg(test)]
mod frees;
#[cfg(test)]
mod mail;
mod places;
#[cfg(test)]
mod tests;
#[cfg(test)]
mod threads;
