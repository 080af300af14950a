//! Claims on places, with one word for each place. The steps of all threads on these words can be merged into one list of steps.
//!
//! Without a lock, each object that threads share is in the collections of at most one holder. A holder claims a place by one compare-exchange on the place's
//! word, and releases the place by one store. By one load, a holder learns whether any holder holds a place.
//!
//! ```text
//! let (claims, holders) = Claims::new(rt.alloc(), 1000, 2)?;
//! // in a thread with its own holder
//! if claims.claim(&mut holder, place) {
//!     // nobody held the place, and now this holder does
//!     claims.release(&mut holder, place);
//! }
//! // where holders of several threads are together again: what their records say together
//! claims.audit(&mut holders);
//! ```
//!
//! [`Core`] makes the same steps on a plain value of one thread, and returns the same results as the claims.
#![tactic(auto)]

mod atomic_link_ops;
mod claims;
mod gathering;
mod held;
mod link_values;
pub mod linked_list;
mod machine;
mod plain_link_ops;
pub mod rbtree;
mod rule;
pub mod singly_linked_list;
mod step;
pub mod xor_linked_list;

pub use atomic_link_ops::AtomicLinkOps;
pub use claims::{Claims, ClaimsError, Holder};
pub use gathering::{Gate, gather};
pub use machine::Core;
pub use plain_link_ops::PlainLinkOps;
pub use step::{Event, Record, Step};
