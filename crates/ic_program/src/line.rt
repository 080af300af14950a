//! What a line means: a call of a world, if it has the name of the call and the call's arguments in order.
//!
//! ```text
//! Line::of(b"push_back 0 3") // Line::Call(Command::On(0, Call::Put(Gap::Back, place 3)))
//! Line::of(b"jump")          // Line::NoCommand
//! ```

ghost use Rattle.std.specs.Prelude.{◌≡◌, ℕ, false, [], Some, IfSome, IfNone, IsTrue};
ghost use Rattle.ic_world.specs.declared.call.Command.{Command};
ghost use Rattle.ic_program.specs.Grammar.{command_in, said_in, one as one_argument, two as two_arguments, three as three_arguments};
ghost use Rattle.ic_program.specs.Slots.{IsNoCallAt};
ghost use Rattle.ic_program.specs.Text.{after_line as after_first_line, begins_with, line_in, words_in, IsCall, IsName, IsNoCall, IsOneLine, Passes};

use crate::argument::Argument;
use crate::fast_path::fast_call_at;
use crate::names::after_name;
use crate::text::{after_line, after_space, without_spaces};
use ic_world::{BulkEdit, Call, Command, Insertion, Neighbor, Search, Seek};

/// What a line means.
#[derive(Clone, Copy)]
pub enum Line {
    /// The line has no words.
    Empty,
    /// The line is a call.
    Call(Command<u64, u64>),
    /// The line is not a call.
    NoCommand,
}

impl Line {
    /// Parses these bytes as one line. The words of the line, which are separated by spaces, are the name of a call and the call's arguments in
    /// order.
    ///
    /// It requires nothing, and takes no memory. A number is 1 to 20 decimal digits with a value below 2^64, and an object's number is below 2^32. A
    /// kind is `singly`, `doubly`, `xor` or `tree`. A bound is `included:K`, `excluded:K` or `unbounded`. A neighbor is an object's number, or
    /// `none`. A `\n` or `\r\n` at the end is ignored. O(bytes).
    pub fn of(line: &[u8]) -> Line
        ensures { IsOneLine line.now → result ≡ said_in (line_in line.now) }
    {
        let (said, rest) = Line::first_of(line);
        match rest {
            [] => said,
            _ => Line::NoCommand,
        }
    }

    /// Parses the first line of a text, and returns what the line means, and the text after the line. If the line is not a call, the returned text is
    /// the whole text.
    ///
    /// The program first tries [`answer_fast`](crate::fast_path::answer_fast), which finds nearly all calls.
    #[cold]
    #[inline(never)]
    pub(crate) fn first_of<'l>(text: &'l [u8]) -> (Line, &'l [u8])
        ensures said { result.0 ≡ said_in (line_in text.now) }
        ensures after { Passes result.0 text.now result.1.now }
    {
        if let Some(rest) = after_line(text) {
            return (Line::Empty, rest);
        }
        let start = without_spaces(text);
        if let Some((command, rest)) = call_at(slot_of(start), start) {
            return (Line::Call(command), rest);
        }
        for slot in 0..SLOTS {
            if let Some((command, rest)) = call_at(slot, start) {
                return (Line::Call(command), rest);
            }
        }
        (Line::NoCommand, text)
    }
}

// The number of slots.
const SLOTS: u64 = 64;

/// Returns the slot of the first eight letters of a text, or of its first word and a space if the word is shorter. Names that begin alike share a
/// slot, and every other name has a slot of its own. No proof depends on the slots: if a slot were wrong, `first_of` would still find the call.
#[inline(always)]
pub(crate) fn slot_of(text: &[u8]) -> u64 {
    let Some(bytes) = text.first_chunk::<8>() else {
        return SLOTS;
    };
    let bytes = u64::from_le_bytes(*bytes);
    // The lowest set bit of `ends` is the top bit of the first byte that is not a letter. Higher bits may be set even if their byte is a letter.
    let ends = bytes.wrapping_sub(0x2121_2121_2121_2121) & !bytes & 0x8080_8080_8080_8080;
    let letters = bytes & ends.wrapping_sub(1);
    letters.wrapping_mul(0x39e9_f5d9_8f2d_bcef) >> 58
}

// A row of the table of calls. If the text begins with the name in the row, the row returns the command with its arguments, and the text after the
// line. In a row with `on`, the command is a call of the collection that the first argument names.
macro_rules! call {
    ($text:ident, $name:literal($first:ident) => $($command:tt)*) => {{
        let ($first, rest) = one($text, $name)?;
        Some((Command::$($command)*, rest))
    }};
    ($text:ident, $name:literal($first:ident, $second:ident) => $($command:tt)*) => {{
        let ($first, $second, rest) = two($text, $name)?;
        Some((Command::$($command)*, rest))
    }};
    ($text:ident, $name:literal($first:ident, $second:ident, $third:ident) => $($command:tt)*) => {{
        let ($first, $second, $third, rest) = three($text, $name)?;
        Some((Command::$($command)*, rest))
    }};
    ($text:ident, $name:literal($collection:ident $(, $given:ident)*) on $($call:tt)*) => {
        call!($text, $name($collection $(, $given)*) => On($collection, Call::$($call)*))
    };
}

// Returns the call in the first line of a text, and the text after the line, if the call has this slot.
#[cold]
#[inline(never)]
fn call_at<'l>(slot: u64, text: &'l [u8]) -> Option<(Command<u64, u64>, &'l [u8])>
    ensures said { IfSome result (λ read. (command_in (words_in text.now) ≡ Some read.0) × (read.1.now ≡ after_first_line text.now)) }
    ensures none { IfNone result (begins_with 32 text.now ≡ false → IsNoCallAt slot (words_in text.now)) }
{
    match slot {
        34 => call!(text, b"place "(value) => Place(value)),
        56 => call!(text, b"remove_object "(object) => RemoveObject(object)),
        46 => call!(text, b"set_value "(object, value) => SetValue(object, value)),
        29 => call!(text, b"field "(kind) => AddField(kind)),
        54 => call!(text, b"open "(field, kind) => Open(field, kind)),
        15 => call!(text, b"dispose "(collection) => Dispose(collection)),
        0 => call!(text, b"clear "(collection) on BulkEdit(BulkEdit::Clear)),
        36 => call!(text, b"fast_clear "(collection) => FastClear(collection)),
        24 => call!(text, b"take "(collection) => Take(collection)),
        44 => call!(text, b"show "(collection) => Show(collection)),
        28 => call!(text, b"show_back "(collection) => ShowBack(collection)),
        9 => call!(text, b"seek "(collection, object) on Seek(Seek::On(object))),
        27 => match three(text, b"seek_with_prev ") {
            Some((collection, object, neighbor, rest)) => Some((
                Command::On(
                    collection,
                    Call::Seek(Seek::With(Neighbor::Prev, object, neighbor)),
                ),
                rest,
            )),
            None => call!(text, b"seek_with_next "(collection, object, neighbor)
                on Seek(Seek::With(Neighbor::Next, object, neighbor))),
        },
        26 => call!(text, b"splice_after "(collection, other) => SpliceAfter(collection, other)),
        22 => call!(text, b"splice_before "(collection, other) => SpliceBefore(collection, other)),
        63 => call!(text, b"split_after "(collection) => SplitAfter(collection)),
        50 => call!(text, b"split_before "(collection) => SplitBefore(collection)),
        62 => call!(text, b"reverse "(collection) on BulkEdit(BulkEdit::Reverse)),
        35 => call!(text, b"find "(collection, key) on Search(Search::Find(key))),
        43 => call!(text, b"lower_bound "(collection, bound) on Search(Search::LowerBound(bound))),
        58 => call!(text, b"upper_bound "(collection, bound) on Search(Search::UpperBound(bound))),
        52 => call!(text, b"range "(collection, low, high) => Range(collection, low, high)),
        42 => call!(text, b"insert "(collection, object) on Insertion(Insertion::Insert(object))),
        7 =>
            call!(text, b"cursor_insert "(collection, object) on Insertion(Insertion::CursorInsert(object))),
        3 => call!(text, b"entry "(collection, key, object) on Enter(key, object)),
        32 => call!(text, b"is_linked "(field, object) => IsLinked(field, object)),
        40 => call!(text, b"force_unlink "(field, object) => ForceUnlink(field, object)),
        _ => fast_call_at(slot, text),
    }
}

/// If a text begins with this name, returns the argument after the name, and the text after the line.
#[inline(always)]
pub(crate) fn one<'l, const N: usize, A: Argument>(
    text: &'l [u8],
    name: &[u8; N],
) -> Option<(A, &'l [u8])>
    requires { IsName N name.now }
    ensures said { IfSome result (λ read. (call : A → Command ℕ ℕ) → IsCall name.now (one_argument A.says call) text.now (call read.0) read.1.now) }
    ensures none { IfNone result ((call : A → Command ℕ ℕ) → IsNoCall name.now (one_argument A.says call) text.now) }
{
    let (first, rest) = A::read(after_name(text, name)?)?;
    Some((first, after_line(rest)?))
}

/// If a text begins with this name, returns the two arguments after the name, and the text after the line.
#[inline(always)]
pub(crate) fn two<'l, const N: usize, A: Argument, B: Argument>(
    text: &'l [u8],
    name: &[u8; N],
) -> Option<(A, B, &'l [u8])>
    requires { IsName N name.now }
    ensures said { IfSome result (λ read. (call : A → B → Command ℕ ℕ) →
        IsCall name.now (two_arguments A.says B.says call) text.now (call read.0 read.1) read.2.now) }
    ensures none { IfNone result ((call : A → B → Command ℕ ℕ) → IsNoCall name.now (two_arguments A.says B.says call) text.now) }
{
    let (first, rest) = A::read(after_name(text, name)?)?;
    let (second, rest) = B::read(after_space(rest))?;
    Some((first, second, after_line(rest)?))
}

// If a text begins with this name, returns the three arguments after the name, and the text after the line.
#[inline(always)]
fn three<'l, const N: usize, A: Argument, B: Argument, C: Argument>(
    text: &'l [u8],
    name: &[u8; N],
) -> Option<(A, B, C, &'l [u8])>
    requires { IsName N name.now }
    ensures said { IfSome result (λ read. (call : A → B → C → Command ℕ ℕ) →
        IsCall name.now (three_arguments A.says B.says C.says call) text.now (call read.0 read.1 read.2) read.3.now) }
    ensures none { IfNone result ((call : A → B → C → Command ℕ ℕ) → IsNoCall name.now (three_arguments A.says B.says C.says call) text.now) }
{
    let (first, rest) = A::read(after_name(text, name)?)?;
    let (second, rest) = B::read(after_space(rest))?;
    let (third, rest) = C::read(after_space(rest))?;
    Some((first, second, third, after_line(rest)?))
}
