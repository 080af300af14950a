//! Stacks of claimed places. Threads push to them without a lock, and one call takes all members at once.
//!
//! ```text
//! let (stacks, holders) = Stacks::new(rt.alloc(), 1000, 1, 3)?; // 1,000 places, one stack, three holders
//! // in a sender's thread, with its own holder
//! if stacks.claim(&mut sender, place) {
//!     stacks.push(&mut sender, 0, place); // and from then on the sender doesn't hold the place
//! }
//! // in the receiver's
//! let mut chain = stacks.take_all(&mut receiver, 0); // the receiver holds each of them
//! while let Some(place) = stacks.next(&mut receiver, &mut chain) { // the last pushed first
//!     stacks.release(&mut receiver, place);
//! }
//! // where holders of several threads are together again: what their records say together
//! stacks.audit(&mut holders);
//! ```
//!
//! No call takes a single member, so the ABA problem does not arise. If a push finds the head that it has read, it may link its places to this head, whatever
//! happened in between.
#![tactic(auto)]

mod held;
mod laws;
mod rule;
mod stacks;
mod step;

pub use laws::{calls_go_in_turn, history_laws, nothing_is_lost, places_come_in_order};
pub use stacks::{Chain, Holder, Stacks, StacksError};
pub use step::{Entry, History, Record, Step};
