//! Why a run ends before the end of its input.
//!
//! ```text
//! Fault::NotText(7) // printed as `input is not UTF-8, line 7`
//! ```

ghost use Rattle.std.specs.Prelude.{IsTrue};
ghost use Rattle.ic_program.specs.HowFar.{is_loss};

use std::fmt;
use std::io::{self, ErrorKind};

/// Why a run ends before the end of its input, with the status 3. The text of a fault is a line without a line feed.
#[derive(Clone, Copy, PartialEq, Eq)]
pub enum Fault {
    /// The line with this number, counted from 1, is not UTF-8.
    NotText(u64),
    /// Reading failed after this many lines.
    Reading(u64),
    /// An answer could not be written.
    Writing,
    /// There was not enough memory outside the world.
    Memory,
}

impl Fault {
    /// Returns the fault for an error of the writer: `Memory` if the writer lacks memory, and otherwise `Writing`.
    pub(crate) fn of_writer(error: &io::Error) -> Fault
        ensures { IsTrue (is_loss result) }
    {
        match error.kind() {
            ErrorKind::OutOfMemory => Fault::Memory,
            _ => Fault::Writing,
        }
    }
}

impl fmt::Display for Fault {
    fn fmt<W: fmt::Write>(&self, f: &mut fmt::Formatter<W>) -> fmt::Result {
        match self {
            Fault::NotText(line) => write!(f, "input is not UTF-8, line {line}"),
            Fault::Reading(lines) => write!(f, "cannot read after line {lines}"),
            Fault::Writing => f.write_str("cannot write"),
            Fault::Memory => f.write_str("out of memory"),
        }
    }
}
