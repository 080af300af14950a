//! Tests of claims: parties claim places in turn and in threads, parties link places that they have claimed, and workers divide places among
//! themselves.
#![tactic(auto)]

#[cfg(test)]
mod collections;
#[cfg(test)]
mod equipped;
#[cfg(test)]
mod links;
#[cfg(test)]
mod makings;
#[cfg(test)]
mod parties;
#[cfg(test)]
mod threads;
#[cfg(test)]
mod turns;
#[cfg(test)]
mod workers;
