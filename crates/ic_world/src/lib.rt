//! A world of objects, link fields and collections of every kind, in which every call tests its conditions itself.
//!
//! ```text
//! let mut world = World::new(rt.alloc(), adapter);
//! let field = world.add_field(Kind::Tree)?;
//! let queue = world.open(field, Kind::Tree)?;
//! let first = world.place(10)?;
//! world.insert(queue, first)?; // 0 looks
//! world.show(queue)?           // the place of the first object
//! ```
#![tactic(auto)]

mod call;
mod calls;
mod collection;
mod collections;
mod collections_by_number;
mod field;
mod fields;
mod objects;
mod run;
mod taken_part;
mod world;

pub use call::{Answer, Command, Refusal};
pub use calls::bulk_edit::BulkEdit;
pub use calls::collection_call::{Call, Neighbor};
pub use calls::insertion::Insertion;
pub use calls::search::Search;
pub use calls::seek::Seek;
pub use ic_any_collection::{Gap, Kind};
pub use ic_rbtree::Bound;
pub use world::World;
