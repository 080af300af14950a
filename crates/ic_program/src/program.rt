//! The whole program, for any reader and any writer.

ghost use Rattle.std.specs.Prelude.{◌≡◌, ◌≢◌, ◌⊎◌, ◌<◌, ℕ, [], false, IsSome, IsTrue, OnSome, Ok, Err, IfOk, IfErr, OnOk, OnErr, codes, length};
ghost use Rattle.std.specs.Io.KnownBytes.{Appends, Keeps, IsAtEnd, append_known};
ghost use Rattle.ic_program.specs.Arguments.{AskFor};
ghost use Rattle.ic_program.specs.Printed.{no_command_at};
ghost use Rattle.ic_program.specs.Played.{IsRun, IsRunSoFar, CutTo, NoneLeft, NoCommandLeft};
ghost use Rattle.ic_program.specs.HowFar.{Ends, EndsStopped, HowFar, IsLeftToRead, is_loss, lines_of_both};
ghost use Rattle.ic_program.specs.Shared.{HaveShared, HaveSharedSoFar};

use crate::fault::Fault;
use crate::session::{Session, Stop};
use crate::workers::{Workers, run_workers, workers_of};
use crate::writing::write_whole;
use itoa::Buffer;
use std::alloc::Allocator;
use std::io::{self, BufRead, ErrorKind, Write};
use std::sync::Wait;
use std::thread::Threads;

/// The status after a fault of reading or writing, after input that is not UTF-8, or if memory runs out.
pub const FAULT: u8 = 3;

/// How a run without a fault ends. The number of each case is the status of the program.
#[derive(Clone, Copy)]
pub enum Ending {
    /// The run ended at the end of the input.
    Finished = 0,
    /// The run ended at a line that is not a command, or at arguments that the program does not know.
    NotUnderstood = 2,
}

/// Runs the program. `words` are its arguments, and `rt` is the argument of `main`.
///
/// Without arguments it runs the calls that it reads from `reader`, as [`run_lines`] does. With the arguments `workers W N`, for W from 1 to 64 and N
/// at most 1,000,000, it lets W threads share out the first N places. It writes for each thread which places the thread got, and then how many places
/// were given to more than one thread. For any other arguments it writes `bad arguments`.
///
/// It returns the program's status: 0 at the end of the input, and 2 at a line that is not a command and for bad arguments. The status is 3 after a
/// fault of reading or writing, after input that is not UTF-8, or if memory outside the world runs out. If there was a fault, a line on standard
/// error says which one.
pub fn run_program<
    S: Threads + Wait + Eprint + Sync,
    M: Allocator + Copy + Send + Sync,
    R: BufRead,
    W: Write,
>(rt: &S, alloc: M, words: &[String], reader: &mut R, writer: &mut W) -> u8
    ensures status { (result ≡ 0) ⊎ (result ≡ 2) ⊎ (result ≡ FAULT) }
    ensures finished { words.now ≡ [] → result ≡ 0 → IsRun (R.remaining reader.old) (W.contents writer.old) (W.contents writer.new) NoneLeft []
        × OnSome (R.remaining reader.old) (IsAtEnd (R.remaining reader.new)) }
    ensures not_understood { words.now ≡ [] → result ≡ 2 → (line : ℕ)
        × IsRun (R.remaining reader.old) (W.contents writer.old) (W.contents writer.new) (NoCommandLeft line) (no_command_at line) }
    ensures always { words.now ≡ [] → IsRunSoFar (R.remaining reader.old) (W.contents writer.old) (W.contents writer.new) }
    ensures arguments { 0 < length words.now → ((asked : Workers) → AskFor words.now asked → ⊥) → result ≢ FAULT → (result ≡ 2)
        × Appends (W.contents writer.old) (W.contents writer.new) (codes "bad arguments\n") }
    ensures arguments_always { 0 < length words.now → ((asked : Workers) → AskFor words.now asked → ⊥)
        → CutTo (append_known (W.contents writer.old) (codes "bad arguments\n")) (W.contents writer.new) }
    ensures workers { (asked : Workers) → AskFor words.now asked → (result ≢ 2)
        × (result ≡ 0 → HaveShared asked (W.contents writer.old) (W.contents writer.new)) }
    ensures workers_always { (asked : Workers) → AskFor words.now asked → HaveSharedSoFar asked (W.contents writer.old) (W.contents writer.new) }
    ensures reader { 0 < length words.now → reader.new ≡ reader.old }
{
    if words.is_empty() {
        return status_of(rt, run_lines(alloc, reader, writer));
    }
    let ending = match workers_of(words) {
        Some(asked) => match run_workers(rt, alloc, asked, writer) {
            Ok(()) => Ok(Ending::Finished),
            Err(fault) => Err(fault),
        },
        None => refuse_arguments(writer),
    };
    let flushed = writer.flush();
    status_of(rt, ended(ending, flushed))
}

/// Runs calls on a new world, one for each line that it reads from `reader`. It writes the answer to each call on a line of its own.
///
/// The run ends:
///
/// - At the end of the input.
/// - At a line that is no command. A notice with the number of the line is written after the answers to the lines before it, and
///   nothing more is read.
/// - By a fault of reading or writing, by input that is not UTF-8, or if memory outside the world runs out. The answers to the
///   lines before the fault are written, as far as the writer takes them.
///
/// It writes and flushes all answers before the reader waits for more. It costs O(1) for each call, plus the cost of the call itself and of the bytes
/// read and written.
pub fn run_lines<M: Allocator + Copy, R: BufRead, W: Write>(
    alloc: M,
    reader: &mut R,
    writer: &mut W,
) -> Result<Ending, Fault>
    ensures run { Ends result (R.remaining reader.old) (W.contents writer.old) (W.contents writer.new) }
    ensures read { result ≡ Ok Ending.Finished → OnSome (R.remaining reader.old) (IsAtEnd (R.remaining reader.new)) }
{
    let ending = answer_input(alloc, reader, writer);
    let flushed = writer.flush();
    ended(ending, flushed)
}

// Returns how a run ended, after the writer was flushed. If flushing failed, a run that had no fault ends with this fault.
fn ended(ending: Result<Ending, Fault>, flushed: io::Result<()>) -> Result<Ending, Fault>
    ensures ending { IfOk result (λ end. ending ≡ Ok end) }
    ensures fault { (fault : Fault) → result ≡ Err fault → (ending ≡ Err fault) ⊎ IsTrue (is_loss fault) }
{
    match (ending, flushed) {
        (Ok(_), Err(error)) => Err(Fault::of_writer(&error)),
        (ending, _) => ending,
    }
}

// Returns the status of the program for the way in which a run ended. If the run ended by a fault, it writes a line to standard error.
fn status_of<S: Eprint>(rt: &S, ending: Result<Ending, Fault>) -> u8
    ensures { (result ≡ FAULT) ⊎ ((ending ≡ Ok Ending.Finished) × (result ≡ 0)) ⊎ ((ending ≡ Ok Ending.NotUnderstood) × (result ≡ 2)) }
{
    match ending {
        Ok(ending) => ending as u8,
        Err(fault) => {
            let _ = eprintln!(rt; "{fault}");
            FAULT
        }
    }
}

// Writes that the program does not know its arguments.
fn refuse_arguments<W: Write>(writer: &mut W) -> Result<Ending, Fault>
    ensures status { IfOk result (λ ending. ending ≡ Ending.NotUnderstood) }
    ensures text { OnOk result (Appends (W.contents writer.old) (W.contents writer.new) (codes "bad arguments\n")) }
    ensures cut { CutTo (append_known (W.contents writer.old) (codes "bad arguments\n")) (W.contents writer.new) }
{
    match write_whole(writer, b"bad arguments\n") {
        Ok(()) => Ok(Ending::NotUnderstood),
        Err(fault) => Err(fault),
    }
}

// Answers each line in turn, until the input ends or a line is no command. If a fault occurs, it has answered the lines before the fault. It writes
// the answers before the reader waits for more bytes.
fn answer_input<M: Allocator + Copy, R: BufRead, W: Write>(
    alloc: M,
    reader: &mut R,
    writer: &mut W,
) -> Result<Ending, Fault>
    ensures run { Ends result (R.remaining reader.old) (W.contents writer.old) (W.contents writer.new) }
    ensures read { result ≡ Ok Ending.Finished → OnSome (R.remaining reader.old) (IsAtEnd (R.remaining reader.new)) }
{
    let Ok(mut session) = Session::new(alloc) else {
        return Err(Fault::Memory);
    };
    let mut cut = Vec::new(alloc);
    for _round in 0..u64::MAX {
        let read = answer_next(&mut session, &mut cut, reader, writer);
        session.write(writer)?;
        match read {
            Ok(true) => flush(writer)?,
            Ok(false) => return Ok(Ending::Finished),
            Err(stop) => return stopped(stop, session.lines, writer),
        }
    }
    // There were more reads than the counter can count.
    Err(Fault::Reading(session.lines))
}

// Flushes the writer.
fn flush<W: Write>(writer: &mut W) -> Result<(), Fault>
    ensures kept { Keeps (W.contents writer.old) (W.contents writer.new) }
    ensures lost { IfErr result (λ fault. IsTrue (is_loss fault)) }
{
    match writer.flush() {
        Ok(()) => Ok(()),
        Err(error) => Err(Fault::of_writer(&error)),
    }
}

// Answers the lines that end in the bytes that the reader has next, and returns `false` at the end of the input. At the end, the bytes of an
// incomplete line count as a line.
fn answer_next<M: Allocator + Copy, R: BufRead, W: Write>(
    session: &mut Session<M>,
    cut: &mut Vec<u8, M>,
    reader: &mut R,
    writer: &mut W,
) -> Result<bool, Stop>
    ensures answered { HowFar result session.old.lines session.new.lines (IsLeftToRead cut.new.items (R.remaining reader.new))
        (lines_of_both cut.old.items (R.remaining reader.old))
        session.old.world session.new.world (append_known (W.contents writer.old) session.old.answers.items)
        (append_known (W.contents writer.new) session.new.answers.items) }
    ensures known { OnSome (R.remaining reader.old) (IsSome (R.remaining reader.new)) }
    ensures end { result ≡ Ok false → OnSome (R.remaining reader.old) (IsAtEnd (R.remaining reader.new)) }
{
    match reader.fill_buf() {
        Ok([]) => {
            session.answer_lines(cut, writer)?;
            Ok(false)
        }
        Ok(lent) => {
            session.answer_all(cut, lent, writer)?;
            let taken = lent.len();
            reader.consume(taken);
            Ok(true)
        }
        // The read was interrupted, and the next read tries again.
        Err(error) if error.kind() == ErrorKind::Interrupted => Ok(true),
        Err(_) => Err(Stop::Fault(Fault::Reading(session.lines))),
    }
}

// Returns how a run ends that stopped at the line with this number. If the line is not a command, it first writes a notice.
fn stopped<W: Write>(stop: Stop, line: u64, writer: &mut W) -> Result<Ending, Fault>
    ensures { EndsStopped stop line result (W.contents writer.old) (W.contents writer.new) }
{
    match stop {
        Stop::NoCommand => match write_notice(writer, line) {
            Ok(()) => Ok(Ending::NotUnderstood),
            Err(fault) => Err(fault),
        },
        Stop::Fault(fault) => Err(fault),
    }
}

// Writes the notice that the line with this number is not a command.
fn write_notice<W: Write>(writer: &mut W, line: u64) -> Result<(), Fault>
    ensures written { OnOk result (Appends (W.contents writer.old) (W.contents writer.new) (no_command_at line)) }
    ensures cut { OnErr result (CutTo (append_known (W.contents writer.old) (no_command_at line)) (W.contents writer.new)) }
    ensures lost { IfErr result (λ fault. IsTrue (is_loss fault)) }
{
    write_whole(writer, b"line ")?;
    write_whole(writer, Buffer::new().format(line).as_bytes())?;
    write_whole(writer, b": no command\n")
}
