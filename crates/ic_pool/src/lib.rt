//! A pool keeps objects together with the tables of their links. The tables have room for the links of all objects.
//!
//! ```text
//! let mut pool = Pool::new(rt.alloc(), linked_list::LinkOps::new(rt.alloc()));
//! let object = pool.place(10)?; // there is room for its link
//! list.push_back(&mut pool.links, object)?;
//! ```
#![tactic(auto)]

mod place_error;
mod pool;
mod tables;

pub use place_error::PlaceError;
pub use pool::Pool;
pub use tables::Tables;
