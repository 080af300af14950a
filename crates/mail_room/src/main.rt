//! Lets threads send places to one mailbox, and prints how many places came, how many of them in order, and whether any was lost.
#![tactic(auto)]

ghost use Rattle.std.specs.Prelude.{◌≤◌, IfSome};

mod tally;

use stack_uses::delivery::deliver;
use std::env::FillError;
use std::process::ExitCode;
use std::rt::Env;
use std::thread::Threads;
use std::{io, str};

// The largest number of senders, and the largest number of places of each sender, that the program accepts.
const MOST_SENDERS: usize = 64;

const MOST_PLACES: usize = 100_000;

// The largest number of bytes of an argument that the program accepts.
const LONGEST: usize = 32;

// The request of the caller: the number of senders, and the number of places that each sender sends.
struct Request {
    senders: usize,
    places: usize,
}

// Reads the program's argument at this position as a number. Returns `None` if there is no number at this position.
fn number(rt: &impl Env, argument: usize) -> Option<usize> {
    let mut word = [0; LONGEST];
    let length = rt.arg(argument, &mut word).ok()?;
    str::from_utf8(&word[..length]).ok()?.parse::<usize>().ok()
}

// Returns the numbers in the arguments `W N`, or `None` if there are other arguments or a number is out of range.
fn asked(rt: &impl Env) -> Option<Request>
    ensures senders { IfSome result (λ asked. asked.senders ≤ 64) }
    ensures places { IfSome result (λ asked. asked.places ≤ 100000) }
{
    let senders = number(rt, 1)?;
    let places = number(rt, 2)?;
    let is_last = matches!(rt.arg(3, &mut [0; LONGEST]), Err(FillError::NotPresent));
    if !is_last || senders < 1 || senders > MOST_SENDERS || places > MOST_PLACES {
        return None;
    }
    Some(Request { senders, places })
}

// Lets the senders send their places. Prints how many places were sent, how many came, how many came out of order, and how many were lost.
fn run<R: Print + AllocGlobal + Threads + Sync>(rt: &R, asked: Request) -> io::Result<()>
    requires senders { asked.senders ≤ 64 }
    requires places { asked.places ≤ 100000 }
{
    let Request { senders, places } = asked;
    let Ok(came) = deliver(rt, rt.alloc(), senders, places) else {
        return Err(io::Error::from(io::ErrorKind::OutOfMemory));
    };
    let in_order = tally::in_order(rt.alloc(), senders, places, &came)?;
    let sent = senders * places;
    let all_came = came.len() == sent;
    let all_in_order = in_order == sent;
    prove!(all_came); // as `deliver` says
    prove!(all_in_order);
    println!(rt; "sent {sent}")?;
    println!(rt; "came {}", came.len())?;
    println!(rt; "out of order {}", came.len() - in_order)?;
    println!(rt; "lost {}", sent - in_order)
}

fn main(rt: HostRuntime) -> ExitCode {
    let Some(asked) = asked(&rt) else {
        let _ = println!(rt; "bad arguments");
        return ExitCode::from(2);
    };
    match run(&rt, asked) {
        Ok(()) => ExitCode::from(0),
        Err(error) => {
            let _ = eprintln!(rt; "{error}");
            ExitCode::from(3)
        }
    }
}
