//! Carries out commands on the table.

ghost use Rattle.std.specs.Prelude.{IfOk};
ghost use Rattle.connection_desk.specs.Does.{Does};

use crate::command::Command;
use connections::{Connection, ConnectionTable, OpenError};
use ic_keyed::Index;
use std::alloc::{AllocError, Allocator};

/// How a command ended.
#[derive(Clone, Copy, PartialEq, Eq, Debug)]
pub enum Outcome {
    Opened,
    Refused(OpenError),
    Touched,
    Closed(Connection),
    Found(Connection),
    NotOpen,
    Now(u64),
    Expired,
}

/// Carries out a command on the table, and returns how it ended. It appends the connections that expire to `gone`.
pub fn apply<I: Index<Connection, A>, A: Allocator, C: Allocator>(
    table: &mut ConnectionTable<I, A>,
    command: Command,
    gone: &mut Vec<Connection, C>,
) -> Result<Outcome, AllocError>
    ensures { IfOk result (λ outcome. Does command outcome gone.old.items gone.new.items table.old table.new) }
{
    match command {
        Command::Open(id) => match table.open(id) {
            Ok(()) => Ok(Outcome::Opened),
            Err(error) => Ok(Outcome::Refused(error)),
        },
        Command::Touch(id) => {
            if table.touch(id) {
                return Ok(Outcome::Touched);
            }
            Ok(Outcome::NotOpen)
        }
        Command::Close(id) => match table.close(id) {
            Some(closed) => Ok(Outcome::Closed(closed)),
            None => Ok(Outcome::NotOpen),
        },
        Command::Show(id) => match table.find(id) {
            Some(found) => Ok(Outcome::Found(*found)),
            None => Ok(Outcome::NotOpen), // it is not shown
        },
        Command::Time(time) => {
            table.advance_to(time);
            Ok(Outcome::Now(table.clock()))
        }
        Command::Expire(count) => {
            table.expire(count, gone)?;
            Ok(Outcome::Expired)
        }
        Command::Idle(limit) => {
            table.expire_idle(limit, gone)?;
            Ok(Outcome::Expired)
        }
    }
}
