//! The program over a world: each line of its input is a command, and it answers each command by one line.
//!
//! ```text
//! let mut world = World::new(alloc, OwnKey);
//! Line::of(b"field doubly") // Line::Call(Command::AddField(Kind::Doubly))
//! world.answer(Command::AddField(Kind::Doubly)) // printed as `field 0`
//! run_program(&rt, alloc, &[], &mut reader, &mut writer) // answers each line of the reader, and gives the status
//! ```
#![tactic(auto)]

mod answers;
mod argument;
mod fast_path;
mod fault;
mod line;
mod names;
mod own_key;
mod program;
mod session;
mod short_answer;
mod text;
mod word;
mod workers;
mod writing;

pub use answers::push_answer;
pub use fault::Fault;
pub use line::Line;
pub use own_key::OwnKey;
pub use program::{Ending, FAULT, run_lines, run_program};
pub use workers::{Workers, workers_of};
