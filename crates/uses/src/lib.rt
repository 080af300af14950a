//! Examples of how a caller uses the collections and the claims. Each example has a contract, and a test runs it.
#![tactic(auto)]

pub mod borrowed_table;
pub mod claim_log;
pub mod deal;
pub mod either_table;
pub mod first_objects;
pub mod first_steps;
pub mod free_list;
pub mod pairs;
pub mod race;
pub mod recorded_table;
pub mod retain;
pub mod ring;
pub mod shared_jobs;
pub mod shared_pool;
