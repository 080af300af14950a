//! This crate keeps objects at places, and provides references to them.
//!
//! An intrusive collection links objects that already exist. In this crate an object is a value in [`Objects`]. The object is
//! kept at a [`Place`], and an [`UnsafeRef`] names the object by its place.
//!
//! ```text
//! let mut objects = Objects::new(rt.alloc());
//! let task = UnsafeRef::from_box(&mut objects, Task::new())?;
//! objects.get(task.place()) // Some(&Task)
//! let done = task.into_box(&mut objects); // the place is vacant again
//! ```
#![tactic(auto)]

mod hint;
mod objects;
mod place;
mod unsafe_ref;
mod values;

pub use objects::Objects;
pub use place::Place;
pub use unsafe_ref::UnsafeRef;
pub use values::Values;
