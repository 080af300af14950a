//! Reads commands for a table of connections, such as `open 7`, and prints an answer to each.
#![tactic(auto)]

mod answer;
mod apply;
mod command;

use connections::ConnectionTable;
use std::io;

fn main(rt: HostRuntime) -> io::Result<()> {
    let mut table = ConnectionTable::new(rt.alloc());
    for line in rt.lines(rt.alloc()) {
        let line = line?;
        match command::read(line.as_str()) {
            Some(command) => {
                let text = answer::answer(rt.alloc(), &mut table, command)?;
                println!(rt; "{text}")?;
            }
            None => println!(rt; "no command: {}", line.as_str())?,
        }
    }
    Ok(())
}
