//! Examples of types over pools, as a user would publish them. Each type is a struct with private fields, and contracts see only what it represents.
#![tactic(auto)]

mod slots;
mod timers;

pub use slots::{Handle, Slots};
pub use timers::{Timer, Timers};
