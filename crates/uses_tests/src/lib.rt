//! Tests of the uses of the collections. The scheduler, the cache and the allocator are tested by rows of calls, and each smaller use is tested once.
#![tactic(auto)]

#[cfg(test)]
mod book;
#[cfg(test)]
mod by_hash;
#[cfg(test)]
mod cache;
#[cfg(test)]
mod fixtures;
#[cfg(test)]
mod lists;
#[cfg(test)]
mod pools;
#[cfg(test)]
mod regions;
#[cfg(test)]
mod schedule;
#[cfg(test)]
mod threads;
#[cfg(test)]
mod trees;
