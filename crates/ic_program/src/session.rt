//! A world whose calls are lines of text, and the lines of its answers.
//!
//! ```text
//! let mut session = Session::new(alloc)?;
//! session.answer_lines(b"field doubly\n", &mut writer)?;
//! session.write(&mut writer)?; // `field 0` and a line feed
//! ```

ghost use Rattle.std.specs.Prelude.{◌≡◌, ◌++◌, ◌+◌, ◌-◌, ◌<◌, ◌⊎◌, ℕ, ◌≤◌, List, [], IsTrue, Some, IfOk, IfErr, OnOk, OnErr, length, take, drop};
ghost use Rattle.std.specs.Str.{IsUtf8};
ghost use Rattle.std.specs.Str.Lines.{lines};
ghost use Rattle.std.specs.Io.KnownBytes.{Keeps, append_known};
ghost use Rattle.ic_program.specs.Printed.{line_of};
ghost use Rattle.ic_program.specs.Played.{IsNew, CutTo};
ghost use Rattle.ic_program.specs.HowFar.{is_loss, AnswersCall, HowFar, IsLost};
ghost use Rattle.ic_program.specs.Text.{line_in, HasFeed, HaveEnded};
ghost use Rattle.ic_program.specs.ShortAnswers.{reply_of_short};
ghost use Rattle.ic_world.specs.Answers.{reply_in};

use crate::answers::push_answer;
use crate::fast_path::answer_fast;
use crate::fault::Fault;
use crate::line::Line;
use crate::own_key::OwnKey;
use crate::short_answer::ShortAnswer;
use crate::text::first_line;
use crate::writing::write_whole;
use ic_world::{Answer, Command, World};
use memchr::{memchr, memrchr};
use std::alloc::{AllocError, Allocator};
use std::io::Write;
use std::str;

// The number of bytes of answers that may wait to be written. The buffer has room for this many bytes from the beginning.
const ROOM: usize = 65536;

/// Why a session stops answering lines.
#[derive(Clone, Copy)]
pub(crate) enum Stop {
    /// The line is UTF-8, but it is not a command.
    NoCommand,
    /// The line could not be read or answered.
    Fault(Fault),
}

/// A world, and the lines of answers that are not written yet.
#[derive(Drop)]
pub(crate) struct Session<M: Allocator + Copy> {
    pub(crate) world: World<OwnKey, M>,
    /// The answers, each with its line feed.
    pub(crate) answers: Vec<u8, M>,
    /// The number of lines that were read.
    pub(crate) lines: u64,
}

impl<M: Allocator + Copy> Session<M> {
    /// Makes a session with a new world and no answers.
    pub(crate) fn new(alloc: M) -> Result<Session<M>, AllocError>
        ensures { IfOk result (λ session. IsNew session.world × (session.answers.items ≡ []) × (session.lines ≡ 0)) }
    {
        // The world is made last, so that an early return has no world to drop.
        let answers = Vec::with_capacity(alloc, ROOM)?;
        Ok(Session {
            world: World::new(alloc, OwnKey),
            answers,
            lines: 0,
        })
    }

    /// Writes the answers that are not written yet, and clears the buffer.
    pub(crate) fn write<W: Write>(&mut self, writer: &mut W) -> Result<(), Fault>
        ensures written { OnOk result (Keeps (append_known (W.contents writer.old) self.old.answers.items) (W.contents writer.new)) }
        ensures cut { OnErr result (CutTo (append_known (W.contents writer.old) self.old.answers.items) (W.contents writer.new)) }
        ensures lost { IfErr result (λ fault. IsTrue (is_loss fault)) }
        ensures none { self.new.answers.items ≡ [] }
        ensures world { self.new.world ≡ self.old.world }
        ensures lines { self.new.lines ≡ self.old.lines }
    {
        let written = write_whole(writer, &self.answers);
        self.answers.clear();
        written
    }

    /// Answers the lines of a text. Empty lines have no answer. If it stops at a line, it has answered the lines before this line.
    ///
    /// As soon as more than 64 KB of answers wait to be written, it writes them.
    pub(crate) fn answer_lines<W: Write>(&mut self, text: &[u8], writer: &mut W) -> Result<(), Stop>
        ensures { HowFar result self.old.lines self.new.lines (λ _ others. others ≡ []) (Some (lines text.now)) self.old.world self.new.world
            (append_known (W.contents writer.old) self.old.answers.items) (append_known (W.contents writer.new) self.new.answers.items) }
    {
        let mut rest = text;
        while !rest.is_empty() {
            let taken = self.answer_first(rest)?;
            rest = &rest[taken..];
            self.make_room(writer)?;
        }
        Ok(())
    }

    // Writes the answers if more than `ROOM` bytes of answers wait to be written.
    #[inline(always)]
    fn make_room<W: Write>(&mut self, writer: &mut W) -> Result<(), Stop>
        ensures written { OnOk result (Keeps (append_known (W.contents writer.old) self.old.answers.items)
            (append_known (W.contents writer.new) self.new.answers.items)) }
        ensures cut { OnErr result (CutTo (append_known (W.contents writer.old) self.old.answers.items)
            (append_known (W.contents writer.new) self.new.answers.items)) }
        ensures lost { IfErr result IsLost }
        ensures world { self.new.world ≡ self.old.world }
        ensures lines { self.new.lines ≡ self.old.lines }
    {
        if self.answers.len() <= ROOM {
            return Ok(());
        }
        self.write_some(writer)
    }

    // Writes the answers, because more than `ROOM` bytes of answers wait to be written.
    #[cold]
    #[inline(never)]
    fn write_some<W: Write>(&mut self, writer: &mut W) -> Result<(), Stop>
        ensures written { OnOk result (Keeps (append_known (W.contents writer.old) self.old.answers.items)
            (append_known (W.contents writer.new) self.new.answers.items)) }
        ensures cut { OnErr result (CutTo (append_known (W.contents writer.old) self.old.answers.items)
            (append_known (W.contents writer.new) self.new.answers.items)) }
        ensures lost { IfErr result IsLost }
        ensures world { self.new.world ≡ self.old.world }
        ensures lines { self.new.lines ≡ self.old.lines }
    {
        match self.write(writer) {
            Ok(()) => Ok(()),
            Err(fault) => Err(Stop::Fault(fault)),
        }
    }

    // Answers the first line of a text, and returns how many bytes are before the next line.
    //
    // No function that `answer_first` calls on the fast path returns a result through memory. Because of this, no memory need be cleared for each
    // line.
    #[inline(always)]
    fn answer_first(&mut self, text: &[u8]) -> Result<usize, Stop>
        requires { 0 < length text.now }
        ensures answered { HowFar result self.old.lines self.new.lines (λ taken others. others ≡ lines (drop taken text.now))
            (Some (lines text.now)) self.old.world self.new.world
            (Some self.old.answers.items) (Some self.new.answers.items) }
        ensures in_bounds { IfOk result (λ taken. taken ≤ length text.now) }
        ensures some { IfOk result (λ taken. 0 < taken) }
    {
        let Some(number) = self.lines.checked_add(1) else {
            // There are more lines than the counter can count.
            return Err(Stop::Fault(Fault::Reading(self.lines)));
        };
        self.lines = number;
        match answer_fast(&mut self.world, text) {
            Some((answer, rest)) => {
                let taken = text.len().saturating_sub(rest.len());
                push_short(&mut self.answers, answer)?;
                Ok(taken)
            }
            None => self.answer_other(text),
        }
    }

    // Answers the first line of a text if its call is not on the fast path, and returns how many bytes are before the next line. `self.lines` already
    // counts the line.
    #[cold]
    #[inline(never)]
    fn answer_other(&mut self, text: &[u8]) -> Result<usize, Stop>
        requires { (0 < length text.now) × (0 < self.old.lines) }
        ensures answered { HowFar result (self.old.lines - 1) self.new.lines (λ taken others. others ≡ lines (drop taken text.now))
            (Some (lines text.now)) self.old.world self.new.world
            (Some self.old.answers.items) (Some self.new.answers.items) }
        ensures in_bounds { IfOk result (λ taken. taken ≤ length text.now) }
        ensures some { IfOk result (λ taken. 0 < taken) }
    {
        let (said, rest) = Line::first_of(text);
        let taken = text.len().saturating_sub(rest.len());
        match said {
            Line::Empty => Ok(taken),
            Line::Call(command) => {
                self.call(command)?;
                Ok(taken)
            }
            Line::NoCommand => Err(stop_at(text, self.lines)),
        }
    }

    // Makes the call, and appends its answer.
    #[cold]
    #[inline(never)]
    fn call(&mut self, command: Command<u64, u64>) -> Result<(), Stop>
        ensures answered { OnOk result (AnswersCall command self.old.world self.new.world self.old.answers.items self.new.answers.items) }
        ensures none { OnErr result (self.new.answers.items ≡ self.old.answers.items) }
        ensures lost { IfErr result IsLost }
        ensures lines { self.new.lines ≡ self.old.lines }
    {
        push(
            &mut self.answers,
            &ic_world_laws::answer(&mut self.world, command),
        )
    }

    // Answers the incomplete line in `cut`, if the line ends in `bytes`, and returns the bytes after the line. If `cut` is empty or the line does not
    // end, it returns all bytes.
    fn answer_cut<'b, W: Write>(
        &mut self,
        cut: &mut Vec<u8, M>,
        bytes: &'b [u8],
        writer: &mut W,
    ) -> Result<&'b [u8], Stop>
        ensures answered { (more : List ℕ) → HowFar result self.old.lines self.new.lines
            (λ rest others. others ≡ lines (cut.new.items ++ (rest.now ++ more)))
            (Some (lines (cut.old.items ++ (bytes.now ++ more)))) self.old.world self.new.world
            (append_known (W.contents writer.old) self.old.answers.items) (append_known (W.contents writer.new) self.new.answers.items) }
        ensures ended { IfOk result (λ rest. HasFeed rest.now → cut.new.items ≡ []) }
    {
        if cut.is_empty() {
            return Ok(bytes);
        }
        let Some(feed) = memchr(b'\n', bytes) else {
            return Ok(bytes);
        };
        keep(cut, &bytes[..feed + 1])?;
        let answered = self.answer_lines(cut, writer);
        cut.clear();
        answered?;
        Ok(&bytes[feed + 1..])
    }

    /// Answers the lines that end in `bytes`, as [`answer_lines`](Session::answer_lines) does, and keeps the bytes of an incomplete line in `cut`.
    pub(crate) fn answer_all<W: Write>(
        &mut self,
        cut: &mut Vec<u8, M>,
        bytes: &[u8],
        writer: &mut W,
    ) -> Result<(), Stop>
        ensures { (more : List ℕ) → HowFar result self.old.lines self.new.lines (λ _ others. others ≡ lines (cut.new.items ++ more))
            (Some (lines (cut.old.items ++ (bytes.now ++ more)))) self.old.world self.new.world
            (append_known (W.contents writer.old) self.old.answers.items) (append_known (W.contents writer.new) self.new.answers.items) }
    {
        let rest = self.answer_cut(cut, bytes, writer)?;
        let ended = ended_bytes(rest);
        self.answer_lines(&rest[..ended], writer)?;
        keep(cut, &rest[ended..])
    }
}

// Returns how many bytes the complete lines at the beginning of `bytes` have in all.
fn ended_bytes(bytes: &[u8]) -> usize
    ensures ended { HaveEnded (take result bytes.now) }
    ensures in_bounds { result ≤ length bytes.now }
    ensures feed { 0 < result → HasFeed bytes.now }
{
    match memrchr(b'\n', bytes) {
        Some(feed) => feed + 1,
        None => 0,
    }
}

// Appends bytes to the bytes of an incomplete line.
#[inline]
fn keep<M: Allocator>(cut: &mut Vec<u8, M>, bytes: &[u8]) -> Result<(), Stop>
    ensures kept { OnOk result (cut.new.items ≡ cut.old.items ++ bytes.now) }
    ensures lost { IfErr result IsLost }
{
    match cut.extend_from_slice(bytes) {
        Ok(()) => Ok(()),
        Err(_) => Err(Stop::Fault(Fault::Memory)),
    }
}

// Appends the line of an answer to the lines of the earlier answers.
#[inline]
fn push<M: Allocator>(answers: &mut Vec<u8, M>, answer: &Answer<M>) -> Result<(), Stop>
    ensures put { OnOk result (answers.new.items ≡ answers.old.items ++ line_of (reply_in answer.now)) }
    ensures none { OnErr result (answers.new.items ≡ answers.old.items) }
    ensures lost { IfErr result IsLost }
{
    match push_answer(answers, answer) {
        Ok(()) => Ok(()),
        Err(_) => Err(Stop::Fault(Fault::Memory)),
    }
}

// Appends the line of a short answer to the lines of the earlier answers.
#[inline(always)]
fn push_short<M: Allocator>(answers: &mut Vec<u8, M>, answer: ShortAnswer) -> Result<(), Stop>
    ensures put { OnOk result (answers.new.items ≡ answers.old.items ++ line_of (reply_of_short answer)) }
    ensures none { OnErr result (answers.new.items ≡ answers.old.items) }
    ensures lost { IfErr result IsLost }
{
    match answer.push(answers) {
        Ok(()) => Ok(()),
        Err(_) => Err(Stop::Fault(Fault::Memory)),
    }
}

// Returns why the session stops at the first line of the text, which is not a command: the line is UTF-8 or not. `number` is the number of the line.
// Only a line that is not a command needs this test, because a command has only ASCII characters.
fn stop_at(text: &[u8], number: u64) -> Stop
    ensures { ((result ≡ Stop.NoCommand) × IsUtf8 (line_in text.now))
        ⊎ ((result ≡ Stop.Fault (Fault.NotText number)) × ¬ (IsUtf8 (line_in text.now))) }
{
    match str::from_utf8(first_line(text)) {
        Ok(_) => Stop::NoCommand,
        Err(_) => Stop::Fault(Fault::NotText(number)),
    }
}
