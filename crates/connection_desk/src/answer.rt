//! The line of text that answers a command.

use crate::apply::{Outcome, apply};
use crate::command::Command;
use connections::{Connection, ConnectionTable, OpenError};
use ic_keyed::Index;
use std::alloc::{AllocError, Allocator, Global};

/// Carries out a command on the table, and returns a line of text that says how the command ended.
pub fn answer<I: Index<Connection, A>, A: Allocator>(
    alloc: Global,
    table: &mut ConnectionTable<I, A>,
    command: Command,
) -> Result<String, AllocError> {
    let mut gone = Vec::new(alloc);
    let id = command.number();
    match apply(table, command, &mut gone)? {
        Outcome::Opened => format!(in alloc; "opened {id}"),
        Outcome::Refused(OpenError::AlreadyOpen) => format!(in alloc; "{id} is open"),
        Outcome::Refused(OpenError::NoRoom) => format!(in alloc; "no room for {id}"),
        Outcome::Touched => format!(in alloc; "touched {id}"),
        Outcome::Closed(closed) => format!(in alloc; "closed {id}, seen at {}", closed.seen),
        Outcome::Found(found) => format!(in alloc; "{id} was seen at {}", found.seen),
        Outcome::NotOpen => format!(in alloc; "{id} is not open"),
        Outcome::Now(now) => format!(in alloc; "it is {now}"),
        Outcome::Expired => list(alloc, &gone),
    }
}

// Returns a line with the ids of the closed connections, in their order.
fn list(alloc: Global, gone: &[Connection]) -> Result<String, AllocError> {
    let mut line = String::from_str(alloc, "expired")?;
    for connection in gone {
        let id = format!(in alloc; " {}", connection.id)?;
        line.push_str(id.as_str())?;
    }
    Ok(line)
}
