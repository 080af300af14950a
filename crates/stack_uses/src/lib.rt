//! Examples of how a caller uses lock-free stacks. Each example has a contract, and a test runs it in threads.
#![tactic(auto)]

pub mod delivery;
pub mod mailbox;
pub mod remote_frees;
