//! The program over an allocator that refuses one request: `rationed N` refuses the request with number N, counted from 0, and `rationed none` refuses
//! none. The program writes on standard error how many requests there were.
//!
//! If the second argument is `list`, the program runs all calls as one list of commands, and skips lines that are not calls. If the second argument is
//! `count`, the program makes each call by its method, and writes how many requests the call made, and for how many bytes in all.
#![tactic(auto)]

mod methods;

use crate::methods::call;
use ic_program::{FAULT, Line, OwnKey, push_answer, run_lines};
use ic_test_support::rationed::Rationed;
use ic_world::{Command, World};
use std::alloc::{AllocError, Global};
use std::env;
use std::io::{self, BufRead, BufReader, BufWriter, Write};
use std::process::ExitCode;

// Returns the number of the request to refuse. If the word is not a number, the result is `u64::MAX`, which refuses no request.
fn request_in(word: Option<String>) -> u64 {
    match word {
        Some(word) => word.parse().unwrap_or(u64::MAX),
        None => u64::MAX,
    }
}

// Reads calls from the reader, one for each line, and returns them. Lines that are not calls are skipped.
fn commands_of(alloc: Global, reader: &mut impl BufRead) -> io::Result<Vec<Command<u64, u64>>> {
    let mut commands = Vec::new(alloc);
    for line in reader.lines(alloc) {
        if let Line::Call(command) = Line::of(line?.as_bytes()) {
            commands.push(command)?;
        }
    }
    Ok(commands)
}

// Runs the calls as one list on a world that takes its memory from this allocator, and appends the answers to the lines.
fn run_list(
    memory: &Rationed,
    commands: &[Command<u64, u64>],
    lines: &mut Vec<u8>,
) -> Result<(), AllocError> {
    let mut answers = Vec::new(memory);
    let ran = World::new(memory, OwnKey).run(commands, &mut answers);
    ran?;
    for answer in &answers {
        push_answer(lines, answer)?;
    }
    Ok(())
}

// Makes the calls on a world over this allocator. For each call it appends a line that says how many requests for memory the call made, and for how
// many bytes.
fn count_each(
    memory: &Rationed,
    commands: &[Command<u64, u64>],
    lines: &mut Vec<u8>,
) -> io::Result<()> {
    let mut world = World::new(memory, OwnKey);
    for command in commands {
        let (requests, bytes) = (memory.requests(), memory.bytes());
        call(&mut world, *command);
        let requests = memory.requests().saturating_sub(requests);
        let bytes = memory.bytes().saturating_sub(bytes);
        writeln!(lines, "{requests} {bytes}")?;
    }
    Ok(())
}

// Reads calls from the reader, makes them as one list if `is_list` is true, or else one by one, and writes the lines about them.
fn run_calls(
    alloc: Global,
    memory: &Rationed,
    is_list: bool,
    reader: &mut impl BufRead,
    writer: &mut impl Write,
) -> io::Result<()> {
    let commands = commands_of(alloc, reader)?;
    let mut lines = Vec::new(alloc);
    if is_list {
        run_list(memory, &commands, &mut lines)?;
    } else {
        count_each(memory, &commands, &mut lines)?;
    }
    writer.write_all(&lines)?;
    writer.flush()
}

// Runs the program in the way that the second argument names, and returns its exit status.
fn status_of(
    alloc: Global,
    memory: &Rationed,
    way: Option<&str>,
    reader: &mut impl BufRead,
    writer: &mut impl Write,
) -> u8 {
    let Some(way) = way else {
        return match run_lines(memory, reader, writer) {
            Ok(ending) => ending as u8,
            Err(_) => FAULT,
        };
    };
    match run_calls(alloc, memory, way == "list", reader, writer) {
        Ok(()) => 0,
        Err(_) => FAULT,
    }
}

// Runs the program over the standard streams, and returns its exit status.
fn status_over_streams(rt: &HostRuntime, memory: &Rationed, way: Option<&str>) -> io::Result<u8> {
    let mut reader = BufReader::new(rt.alloc(), rt.reader())?;
    let mut writer = BufWriter::new(rt.alloc(), io::writer(rt))?;
    Ok(status_of(rt.alloc(), memory, way, &mut reader, &mut writer))
}

// Runs the program with its arguments, and writes how many requests for memory there were.
fn run(rt: &HostRuntime) -> io::Result<u8> {
    let mut words = env::args(rt)?;
    let _name = words.next();
    let memory = Rationed::new(rt.alloc(), request_in(words.next()));
    let way = words.next();
    let status = status_over_streams(rt, &memory, way.as_deref());
    let _ = eprintln!(rt; "{} requests", memory.requests());
    status
}

fn main(rt: HostRuntime) -> ExitCode {
    ExitCode::from(run(&rt).unwrap_or(FAULT))
}
