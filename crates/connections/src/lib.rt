//! A table of connections, which are found by their ids. The connections that have been idle for longest are closed first.
//!
//! ```text
//! let mut table = ConnectionTable::new(rt.alloc());
//! table.open(7)?;
//! table.advance_to(30);
//! table.expire_idle(20, &mut gone)?; // it was idle for 30
//! ```
#![tactic(auto)]

mod connection;
mod open_error;
mod table;

pub use connection::Connection;
pub use open_error::OpenError;
pub use table::{ConnectionTable, TreeConnections};
