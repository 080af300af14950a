//! Workers that share out the first places: the arguments that start them, and what the program prints.
//!
//! ```text
//! workers_of(&words) // Some of 4 workers and 1000 places, for the words `workers 4 1000`
//! ```

ghost use Rattle.std.specs.Prelude.{◌≡◌, ◌++◌, IfSome, IfNone, IfOk, OnOk, OnErr, All};
ghost use Rattle.ic_workers.specs.SharedOut.{Rises, places_in};
ghost use Rattle.ic_program.specs.Arguments.{AskFor};
ghost use Rattle.ic_program.specs.Printed.{worker_line, workers_text};
ghost use Rattle.ic_program.specs.Shared.{HaveShared, HaveSharedSoFar};

use crate::answers::{push_items, push_numbered};
use crate::fault::Fault;
use crate::word::number;
use crate::writing::write_whole;
use ic_atomic::Gate;
use ic_unsafe_ref::Place;
use ic_workers::{doubles, fan_out};
use std::alloc::{AllocError, Allocator};
use std::io::Write;
use std::sync::Wait;
use std::thread::Threads;

// The program accepts at most this many workers and this many places.
const MOST_WORKERS: u64 = 64;

const MOST_PLACES: u64 = 1_000_000;

/// The number of workers, and the number of places that they share out.
#[derive(Clone, Copy, PartialEq, Eq, Debug)]
pub struct Workers {
    /// The number of workers, from 1 to 64.
    pub workers: usize,
    /// The number of places, at most 1,000,000.
    pub places: usize,
}

/// Returns the numbers in the words `workers W N`. It returns `None` for other words, and if W or N is not a number or is out of its bounds.
pub fn workers_of(words: &[String]) -> Option<Workers>
    ensures asked { IfSome result (AskFor words.now) }
    ensures none { IfNone result ((asked : Workers) → AskFor words.now asked → ⊥) }
{
    let [name, workers, places] = words else {
        return None;
    };
    if name.as_str() != "workers" {
        return None;
    }
    let workers = number(workers.as_bytes())?;
    let places = number(places.as_bytes())?;
    if workers < 1 || workers > MOST_WORKERS || places > MOST_PLACES {
        return None;
    }
    Some(Workers {
        workers: workers as usize,
        places: places as usize,
    })
}

// A gate that lets every worker pass.
struct Open;

impl Gate for Open {
    ghost Reported = { λ gate worker answered. Unit {0} };

    fn passed(&self, worker: usize, answered: usize) {
        let _ = (worker, answered);
    }
}

/// Lets the workers share out the places, each in a thread of its own. It writes which places each worker got, and how many places more than one
/// worker got. By the contract of `fan_out` this number is 0. If memory runs out, it writes nothing.
pub(crate) fn run_workers<S: Threads + Wait + Sync, M: Allocator + Copy + Send + Sync, W: Write>(
    rt: &S,
    alloc: M,
    asked: Workers,
    writer: &mut W,
) -> Result<(), Fault>
    ensures shared { OnOk result (HaveShared asked (W.contents writer.old) (W.contents writer.new)) }
    ensures cut { OnErr result (HaveSharedSoFar asked (W.contents writer.old) (W.contents writer.new)) }
{
    let Ok(lists) = fan_out(rt, alloc, asked.workers, asked.places, &Open) else {
        return Err(Fault::Memory);
    };
    let Ok(text) = workers_text_of(alloc, asked.places, &lists) else {
        return Err(Fault::Memory);
    };
    write_whole(writer, &text)
}

// Returns the text of the result: a line for each list of `lists`, and then a line that says how many of the first `places` places are in more than
// one list.
fn workers_text_of<M: Allocator + Copy>(
    alloc: M,
    places: usize,
    lists: &[Vec<Place, M>],
) -> Result<Vec<u8, M>, AllocError>
    requires { All (Rises 0 places) (places_in lists.now) }
    ensures { IfOk result (λ text. text.items ≡ workers_text places (places_in lists.now)) }
{
    let mut text = Vec::new(alloc);
    for (before, list) in lists.iter().enumerate() {
        push_worker(&mut text, before + 1, list)?;
    }
    push_numbered(&mut text, b"doubles ", doubles(places, lists) as u64, b"\n")?;
    Ok(text)
}

// Appends the line of the worker with this number.
fn push_worker<M: Allocator>(
    text: &mut Vec<u8, M>,
    number: usize,
    list: &[Place],
) -> Result<(), AllocError>
    ensures { OnOk result (text.new.items ≡ text.old.items ++ worker_line number list.now) }
{
    push_numbered(text, b"worker ", number as u64, b" ")?;
    push_items(text, list, b"\n")
}
