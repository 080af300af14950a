//! The answers of most calls, and their lines. A short answer is fixed words, or an object.
//!
//! ```text
//! done(world.push_back(0, place)).push(&mut lines)? // puts `ok` and a line feed after the others
//! ```

ghost use Rattle.std.specs.Prelude.{◌≡◌, ◌++◌, ◌≤◌, OnOk, OnErr, take};
ghost use Rattle.std.specs.Io.{StartsWith};
ghost use Rattle.ic_world.specs.Calls as reply;
ghost use Rattle.ic_world.specs.Replies.{reply_of};
ghost use Rattle.ic_program.specs.Printed.{line_of};
ghost use Rattle.ic_program.specs.ShortAnswers.{reply_in_words, reply_of_short};

use crate::answers::{push_place, push_start};
use ic_unsafe_ref::Place;
use ic_world::Refusal;
use std::alloc::{AllocError, Allocator};

/// An answer that consists of fixed words.
#[derive(Clone, Copy)]
pub(crate) enum InWords {
    /// The call is done.
    Done,
    /// The call has no object to return.
    Nothing,
    /// The call was refused.
    Refused(Refusal),
}

/// The answer of a frequent call.
#[derive(Clone, Copy)]
pub(crate) enum ShortAnswer {
    /// The answer is fixed words.
    InWords(InWords),
    /// The answer is the place of an object.
    Object(Place),
}

impl ShortAnswer {
    /// Appends the line of the answer. If there is not enough memory, the lines stay as they were. O(1).
    #[inline(always)]
    pub(crate) fn push<M: Allocator>(self, lines: &mut Vec<u8, M>) -> Result<(), AllocError>
        ensures put { OnOk result (lines.new.items ≡ lines.old.items ++ line_of (reply_of_short self)) }
        ensures refused { OnErr result (lines.new.items ≡ lines.old.items) }
    {
        let before = lines.len();
        let pushed = self.push_line(lines);
        if pushed.is_err() {
            lines.truncate(before);
        }
        pushed
    }

    // Appends the line of the answer. If there is not enough memory, a part of the line may have been appended.
    #[inline(always)]
    fn push_line<M: Allocator>(self, lines: &mut Vec<u8, M>) -> Result<(), AllocError>
        ensures put { OnOk result (lines.new.items ≡ lines.old.items ++ line_of (reply_of_short self)) }
        ensures begun { StartsWith lines.new.items lines.old.items }
    {
        match self {
            ShortAnswer::InWords(words) => {
                let (text, length) = line_in_words(words);
                push_start(lines, text, length)
            }
            ShortAnswer::Object(object) => push_place(lines, object),
        }
    }
}

/// Returns the short answer for the result of a call that returns nothing.
#[inline(always)]
pub(crate) fn done(answer: Result<(), Refusal>) -> ShortAnswer
    ensures { reply_of_short result ≡ reply_of (λ _. reply.done) answer }
{
    match answer {
        Ok(()) => ShortAnswer::InWords(InWords::Done),
        Err(refusal) => ShortAnswer::InWords(InWords::Refused(refusal)),
    }
}

/// Returns the short answer for the result of a call that returns an object, or none.
#[inline(always)]
pub(crate) fn found(answer: Result<Option<Place>, Refusal>) -> ShortAnswer
    ensures { reply_of_short result ≡ reply_of reply.object_or_nothing answer }
{
    match answer {
        Ok(Some(object)) => ShortAnswer::Object(object),
        Ok(None) => ShortAnswer::InWords(InWords::Nothing),
        Err(refusal) => ShortAnswer::InWords(InWords::Refused(refusal)),
    }
}

/// Returns the short answer for the result of a call that returns an object.
#[inline(always)]
pub(crate) fn replaced(answer: Result<Place, Refusal>) -> ShortAnswer
    ensures { reply_of_short result ≡ reply_of (λ object. reply.object object) answer }
{
    match answer {
        Ok(object) => ShortAnswer::Object(object),
        Err(refusal) => ShortAnswer::InWords(InWords::Refused(refusal)),
    }
}

// Returns an array that begins with the line of these words, and the length of this line.
#[inline(always)]
fn line_in_words(words: InWords) -> (&'static [u8; 32], usize)
    ensures line { take result.1 result.0.now ≡ line_of (reply_in_words words) }
    ensures in_bounds { result.1 ≤ 32 }
{
    match words {
        InWords::Done => (b"ok\n                             ", 3),
        InWords::Nothing => (b"none\n                           ", 5),
        InWords::Refused(refusal) => refused(refusal),
    }
}

/// Returns an array that begins with the line of the refusal, and the length of this line.
#[inline(always)]
pub(crate) fn refused(refusal: Refusal) -> (&'static [u8; 32], usize)
    ensures line { take result.1 result.0.now ≡ line_of (reply.refused refusal) }
    ensures in_bounds { result.1 ≤ 32 }
{
    match refusal {
        Refusal::NoSuchField => (b"refused 1 NoSuchField\n          ", 22),
        Refusal::NoSuchCollection => (b"refused 2 NoSuchCollection\n     ", 27),
        Refusal::NoSuchObject => (b"refused 3 NoSuchObject\n         ", 23),
        Refusal::WrongKind => (b"refused 4 WrongKind\n            ", 20),
        Refusal::SameCollection => (b"refused 5 SameCollection\n       ", 25),
        Refusal::OtherField => (b"refused 6 OtherField\n           ", 21),
        Refusal::NothingThere => (b"refused 7 NothingThere\n         ", 23),
        Refusal::NotAMember => (b"refused 8 NotAMember\n           ", 21),
        Refusal::NotANeighbour => (b"refused 9 NotANeighbour\n        ", 24),
        Refusal::AlreadyLinked => (b"refused 10 AlreadyLinked\n       ", 25),
        Refusal::IsMember => (b"refused 11 IsMember\n            ", 20),
        Refusal::StillLinked => (b"refused 12 StillLinked\n         ", 23),
        Refusal::TooManyObjects => (b"refused 13 TooManyObjects\n      ", 26),
        Refusal::OutOfMemory => (b"refused 14 OutOfMemory\n         ", 23),
    }
}
