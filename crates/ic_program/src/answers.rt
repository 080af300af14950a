//! How the program prints the line of an answer.
//!
//! ```text
//! push_answer(&mut lines, &Answer::Object(place))? // puts `object 3` and a line feed after the others
//! ```

ghost use Rattle.std.specs.Prelude.{◌≡◌, ◌++◌, ◌<◌, ◌+◌, ◌%◌, ◌≤◌, [], ◌∷◌, take, OnOk, OnErr, codes, decimal};
ghost use Rattle.std.specs.Io.{StartsWith};
ghost use Rattle.ic_world.specs.Answers.{reply_in};
ghost use Rattle.ic_world.specs.Calls as reply;
ghost use Rattle.ic_program.specs.Printed.{line_of, items_of, number_at};

use crate::short_answer::refused;
use ic_unsafe_ref::Place;
use ic_world::Answer;
use itoa::Buffer;
use std::alloc::{AllocError, Allocator};

/// Appends the line of an answer: its text, and a line feed. `ShortAnswer::push` does this for the answers of the most frequent calls.
///
/// It uses no formatter, because a formatter would take as long as the call itself. If there is not enough memory, the lines stay as they were.
/// O(bytes).
#[inline]
pub fn push_answer<M: Allocator, N: Allocator>(
    lines: &mut Vec<u8, M>,
    answer: &Answer<N>,
) -> Result<(), AllocError>
    ensures put { OnOk result (lines.new.items ≡ lines.old.items ++ line_of (reply_in answer.now)) }
    ensures refused { OnErr result (lines.new.items ≡ lines.old.items) }
{
    let before = lines.len();
    let pushed = push_line(lines, answer);
    if pushed.is_err() {
        lines.truncate(before);
    }
    pushed
}

// Appends the line of an answer. If there is not enough memory, a part of the line may have been appended.
#[inline]
fn push_line<M: Allocator, N: Allocator>(
    lines: &mut Vec<u8, M>,
    answer: &Answer<N>,
) -> Result<(), AllocError>
    ensures put { OnOk result (lines.new.items ≡ lines.old.items ++ line_of (reply_in answer.now)) }
    ensures begun { StartsWith lines.new.items lines.old.items }
{
    match answer {
        Answer::Done => lines.extend_from_slice(b"ok\n"),
        Answer::Nothing => lines.extend_from_slice(b"none\n"),
        Answer::Linked(true) => lines.extend_from_slice(b"linked\n"),
        Answer::Linked(false) => lines.extend_from_slice(b"unlinked\n"),
        Answer::Refused(refusal) => {
            let (line, length) = refused(*refusal);
            push_start(lines, line, length)
        }
        Answer::Object(object) => push_place(lines, *object),
        Answer::Field(number) => push_numbered(lines, b"field ", *number as u64, b"\n"),
        Answer::Collection(number) => push_numbered(lines, b"collection ", *number as u64, b"\n"),
        Answer::Found(None, looks) => push_numbered(lines, b"none looks ", *looks, b"\n"),
        Answer::Looked(looks) => push_numbered(lines, b"ok looks ", *looks, b"\n"),
        Answer::Found(Some(object), looks) => push_object(lines, b"object ", *object, *looks),
        Answer::Entry(true, object, looks) => {
            push_object(lines, b"occupied object ", *object, *looks)
        }
        Answer::Entry(false, object, looks) => {
            push_object(lines, b"inserted object ", *object, *looks)
        }
        Answer::Items(places) => push_items(lines, places, b"\n"),
        Answer::Range(places, first, second) => push_range(lines, places, *first, *second),
    }
}

/// Appends the line of an answer that is an object.
#[inline(always)]
pub(crate) fn push_place<M: Allocator>(
    lines: &mut Vec<u8, M>,
    object: Place,
) -> Result<(), AllocError>
    ensures put { OnOk result (lines.new.items ≡ lines.old.items ++ line_of (reply.object object)) }
    ensures begun { StartsWith lines.new.items lines.old.items }
{
    if object.index() < 1000 {
        return push_short(lines, object.index() as u64);
    }
    push_numbered(lines, b"object ", object.index() as u64, b"\n")
}

/// Appends the bytes `words`, the number in decimal digits, and the bytes `after`.
pub(crate) fn push_numbered<M: Allocator>(
    lines: &mut Vec<u8, M>,
    words: &[u8],
    number: u64,
    after: &[u8],
) -> Result<(), AllocError>
    ensures put { OnOk result (lines.new.items ≡ lines.old.items ++ (words.now ++ decimal number ++ after.now)) }
    ensures begun { StartsWith lines.new.items lines.old.items }
{
    lines.extend_from_slice(words)?;
    lines.extend_from_slice(Buffer::new().format(number).as_bytes())?;
    lines.extend_from_slice(after)
}

// Appends a line with the bytes `words`, the number of the object, and `looks`, the number of compared keys.
fn push_object<M: Allocator>(
    lines: &mut Vec<u8, M>,
    words: &[u8],
    object: Place,
    looks: u64,
) -> Result<(), AllocError>
    ensures put { OnOk result (lines.new.items
        ≡ lines.old.items ++ (words.now ++ number_at object ++ codes " looks " ++ decimal looks ++ codes "\n")) }
    ensures begun { StartsWith lines.new.items lines.old.items }
{
    push_numbered(lines, words, object.index() as u64, b" looks ")?;
    push_numbered(lines, b"", looks, b"\n")
}

/// Appends the word `items`, the number of the object at each place of `places`, and the bytes `after`.
pub(crate) fn push_items<M: Allocator>(
    lines: &mut Vec<u8, M>,
    places: &[Place],
    after: &[u8],
) -> Result<(), AllocError>
    ensures put { OnOk result (lines.new.items ≡ lines.old.items ++ (items_of places.now ++ after.now)) }
    ensures begun { StartsWith lines.new.items lines.old.items }
{
    lines.extend_from_slice(b"items")?;
    for place in places {
        push_numbered(lines, b" ", place.index() as u64, b"")?;
    }
    lines.extend_from_slice(after)
}

// Appends the line of a range. It has the numbers of keys that the two searches compared, `first` and `second`.
fn push_range<M: Allocator>(
    lines: &mut Vec<u8, M>,
    places: &[Place],
    first: u64,
    second: u64,
) -> Result<(), AllocError>
    ensures put { OnOk result (lines.new.items
        ≡ lines.old.items ++ (items_of places.now ++ codes " looks " ++ decimal first ++ codes " " ++ decimal second ++ codes "\n")) }
    ensures begun { StartsWith lines.new.items lines.old.items }
{
    push_items(lines, places, b" looks ")?;
    push_numbered(lines, b"", first, b" ")?;
    push_numbered(lines, b"", second, b"\n")
}

// Appends the line of the object with this number, which has at most three digits. It copies a fixed number of bytes, and then cuts off those that do
// not belong to the line.
#[inline(always)]
fn push_short<M: Allocator>(lines: &mut Vec<u8, M>, number: u64) -> Result<(), AllocError>
    requires { number < 1000 }
    ensures put { OnOk result (lines.new.items ≡ lines.old.items ++ (codes "object " ++ decimal number ++ codes "\n")) }
    ensures begun { StartsWith lines.new.items lines.old.items }
{
    let (line, length) = short_line(number);
    push_start(lines, &line, length)
}

/// Appends the first `length` bytes of `bytes` to the lines. It copies all bytes of `bytes`, and then cuts off those that do not belong to the line.
#[inline(always)]
pub(crate) fn push_start<const N: usize, M: Allocator>(
    lines: &mut Vec<u8, M>,
    bytes: &[u8; N],
    length: usize,
) -> Result<(), AllocError>
    requires { length ≤ N }
    ensures put { OnOk result (lines.new.items ≡ lines.old.items ++ take length bytes.now) }
    ensures begun { StartsWith lines.new.items lines.old.items }
{
    let before = lines.len();
    lines.extend_from_slice(bytes)?;
    lines.truncate(before + length);
    Ok(())
}

// Returns an array that begins with the line of the object with this number, and the length of this line.
#[inline(always)]
#[tactic(auto, using(crate::proofs::Decimals::one_digit, crate::proofs::Decimals::two_digits, crate::proofs::Decimals::three_digits))]
fn short_line(number: u64) -> ([u8; 11], usize)
    requires { number < 1000 }
    ensures line { take result.1 result.0 ≡ codes "object " ++ decimal number ++ codes "\n" }
    ensures in_bounds { result.1 ≤ 11 }
{
    let [hundreds, tens, ones] = [digit(number / 100), digit(number / 10), digit(number)];
    match number {
        0..10 => (object_line(ones, b'\n', 0, 0), 9),
        10..100 => (object_line(tens, ones, b'\n', 0), 10),
        _ => (object_line(hundreds, tens, ones, b'\n'), 11),
    }
}

// Returns `object ` followed by four bytes.
#[inline(always)]
fn object_line(first: u8, second: u8, third: u8, fourth: u8) -> [u8; 11]
    ensures { result ≡ codes "object " ++ (first ∷ second ∷ third ∷ fourth ∷ []) }
{
    [
        b'o', b'b', b'j', b'e', b'c', b't', b' ', first, second, third, fourth,
    ]
}

// Returns the last decimal digit of a number, as an ASCII character.
#[inline(always)]
fn digit(number: u64) -> u8
    ensures { result ≡ 48 + number % 10 }
{
    b'0' + (number % 10) as u8
}
