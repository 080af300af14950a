//! A world at the command line: the program reads calls from standard input, one on each line, and prints the answer to each call.
#![tactic(auto)]

use ic_program::{FAULT, Fault, run_program};
use std::alloc::{AllocError, Global};
use std::env::FillError;
use std::io::{self, BufReader, BufWriter};
use std::process::ExitCode;
use std::rt::Env;
use std::str;
use std::sync::Wait;
use std::thread::Threads;

// The program reads at most this many bytes at once.
const CAPACITY: usize = 65536;

// The program knows no argument that is longer than this many bytes.
const LONGEST: usize = 32;

/// Returns the arguments after the program's name. If one of them is not UTF-8, or longer than any argument that the program knows, it returns a
/// single empty word instead of all of them.
fn arguments(rt: &(impl Env + AllocGlobal)) -> Result<Vec<String>, AllocError> {
    let mut words = Vec::new(rt.alloc());
    for number in 1..usize::MAX {
        let mut word = [0; LONGEST];
        let length = match rt.arg(number, &mut word) {
            Ok(length) => length,
            Err(FillError::NotPresent) => break,
            Err(FillError::TooLong) => return unknown(rt),
        };
        let Ok(text) = str::from_utf8(&word[..length]) else {
            return unknown(rt);
        };
        words.push(String::from_str(rt.alloc(), text)?)?;
    }
    Ok(words)
}

// Returns the single empty word that replaces all arguments if one of them is not UTF-8 or is too long.
fn unknown(rt: &impl AllocGlobal) -> Result<Vec<String>, AllocError> {
    Ok(vec![in rt.alloc(); String::new(rt.alloc())]?)
}

/// Runs the program over the standard streams, and returns its status. It returns an error if there is not enough memory to begin.
fn run(
    rt: &(impl Env + Input + Print + Eprint + AllocGlobal + Threads + Wait + Sync),
    alloc: Global,
) -> io::Result<u8> {
    let words = arguments(rt)?;
    let mut reader = BufReader::with_capacity(alloc, CAPACITY, rt.reader())?;
    let mut writer = BufWriter::new(alloc, io::writer(rt))?;
    Ok(run_program(rt, alloc, &words, &mut reader, &mut writer))
}

fn main(rt: HostRuntime) -> ExitCode {
    match run(&rt, rt.alloc()) {
        Ok(status) => ExitCode::from(status),
        Err(_) => {
            let _ = eprintln!(rt; "{}", Fault::Memory);
            ExitCode::from(FAULT)
        }
    }
}
