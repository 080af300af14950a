//! What a single word of a line means: a number, the place of an object, a kind, a bound of keys, or a neighbor.
//!
//! ```text
//! number(b"0042")      // Some(42)
//! number(b"+42")       // None: there is a sign
//! kind(b"xor")         // Some(Kind::Xor)
//! bound(b"included:7") // Some(Bound::Included(7))
//! neighbor(b"none")    // Some(None): none stands there
//! ```

ghost use Rattle.std.specs.Prelude.{◌≡◌, ◌<◌, ◌≤◌, ◌↔◌, is_some, IsSome, IfSome, length};
ghost use Rattle.std.specs.Char.{digit_value, is_ascii_digit};
ghost use Rattle.std.specs.Str.Parse.{digits_value};
ghost use Rattle.ic_program.specs.Grammar.{bound_in, kind_in, neighbor_in, nth_place, number_in, place_in};
ghost use Rattle.ic_program.specs.Number.{IsNumber, IsLeading, MoreDigits, leading_digits};
ghost use Rattle.ic_program.specs.Text.{Reads};

use crate::text::word_ends;
use ic_any_collection::Kind;
use ic_rbtree::Bound;
use ic_unsafe_ref::Place;

// The most digits of a number, including leading zeros.
const MOST_DIGITS: usize = 20;

/// Returns the kind with this name: `singly`, `doubly`, `xor` or `tree`. For any other word it returns `None`.
pub(crate) fn kind(word: &[u8]) -> Option<Kind>
    ensures { result ≡ kind_in word.now }
{
    match word {
        b"singly" => Some(Kind::Singly),
        b"doubly" => Some(Kind::Doubly),
        b"xor" => Some(Kind::Xor),
        b"tree" => Some(Kind::Tree),
        _ => None,
    }
}

/// Returns the bound of keys that a word means: `included:K` or `excluded:K` with a number K, or `unbounded`. For any other word it returns `None`.
/// O(bytes).
pub(crate) fn bound(word: &[u8]) -> Option<Bound<u64>>
    ensures { result ≡ bound_in word.now }
{
    if let Some(key) = word.strip_prefix(b"included:") {
        return Some(Bound::Included(number(key)?));
    }
    if let Some(key) = word.strip_prefix(b"excluded:") {
        return Some(Bound::Excluded(number(key)?));
    }
    match word {
        b"unbounded" => Some(Bound::Unbounded),
        _ => None,
    }
}

/// Returns the neighbor that a word means: the number of an object, or `none` if the list has no member on that side. For any other word the outer
/// result is `None`. O(bytes).
pub(crate) fn neighbor(word: &[u8]) -> Option<Option<Place>>
    ensures { result ≡ neighbor_in word.now }
{
    match word {
        b"none" => Some(None),
        _ => Some(Some(place(word)?)),
    }
}

// Returns the place with the number that the word means, if the number is below 4,294,967,296. There need not be an object at this place. For any
// other word it returns `None`.
fn place(word: &[u8]) -> Option<Place>
    ensures { result ≡ place_in word.now }
{
    place_of(number(word)? as usize)
}

/// Returns the place with this number, if the number is below 4,294,967,296.
#[inline(always)]
pub(crate) fn place_of(number: usize) -> Option<Place>
    ensures { result ≡ nth_place number }
{
    Place::new(number)
}

/// Returns the value of a word that consists of 1 to 20 decimal digits, if the value is below 2^64. For any other word, also one with a sign, it
/// returns `None`. O(digits).
pub(crate) fn number(word: &[u8]) -> Option<u64>
    ensures { result ≡ number_in word.now }
{
    match leading_number(word) {
        Some((number, digits)) if digits == word.len() => Some(number),
        _ => None,
    }
}

/// Returns the value of the leading digits of a text, and their count. The result is `None` if there are no digits or more than 20, or if their value
/// is 2^64 or more. O(digits).
#[inline]
pub(crate) fn leading_number(text: &[u8]) -> Option<(u64, usize)>
    ensures valid { IsSome result ↔ IsNumber (leading_digits text.now) }
    ensures value { IfSome result (λ read. read.0 ≡ digits_value 10 (leading_digits text.now)) }
    ensures digits { IfSome result (λ read. read.1 ≡ length (leading_digits text.now)) }
    ensures in_bounds { IfSome result (λ read. read.1 ≤ length text.now) }
{
    let mut number = 0;
    let mut digits = 0;
    for digit in text {
        if !digit.is_ascii_digit() {
            break;
        }
        number = with_digit(number, *digit)?;
        digits += 1;
    }
    if digits == 0 || digits > MOST_DIGITS {
        return None;
    }
    Some((number, digits))
}

// Returns the number with one more decimal digit at its end. It returns `None` if the byte `digit` is not a digit, or if the new number is not below
// 2^64.
#[inline]
fn with_digit(number: u64, digit: u8) -> Option<u64>
    ensures { MoreDigits number digit result }
{
    if !digit.is_ascii_digit() {
        return None;
    }
    number.checked_mul(10)?.checked_add((digit - b'0') as u64)
}

/// Returns the number in the first word of a line, and the text after the word. It finds a number only if the word has 1 to 4 digits and is not at
/// the end of the text. If it returns `None`, the word may still be a number.
#[inline(always)]
pub(crate) fn small_number<'l>(text: &'l [u8]) -> Option<(u64, &'l [u8])>
    ensures { IfSome result (λ read. Reads number_in text.now read.0 read.1.now) }
{
    let (number, digits) = few_digits(text)?;
    let rest = &text[digits..];
    if !word_ends(rest) {
        return None;
    }
    Some((number, rest))
}

// Returns the value of the leading digits of a text, and their count, if there are 1 to 4 digits. It has no loop.
#[inline(always)]
fn few_digits(text: &[u8]) -> Option<(u64, usize)>
    ensures read { IfSome result (λ read. IsLeading text.now read.0 read.1) }
    ensures in_bounds { IfSome result (λ read. (1 ≤ read.1) × (read.1 ≤ 4) × (5 ≤ length text.now)) }
{
    if text.len() < 5 {
        return None;
    }
    let Some(first) = digit(text[0]) else {
        return None;
    };
    let Some(second) = digit(text[1]) else {
        return Some((first, 1));
    };
    let Some(third) = digit(text[2]) else {
        return Some((first * 10 + second, 2));
    };
    let Some(fourth) = digit(text[3]) else {
        return Some(((first * 10 + second) * 10 + third, 3));
    };
    if digit(text[4]).is_some() {
        return None;
    }
    Some((((first * 10 + second) * 10 + third) * 10 + fourth, 4))
}

// Returns the value of a digit, or `None` for any other byte.
#[inline(always)]
fn digit(byte: u8) -> Option<u64>
    ensures some { IfSome result (λ digit. (digit ≡ digit_value byte) × (digit < 10)) }
    ensures digit { is_some result ≡ is_ascii_digit byte }
{
    if byte.is_ascii_digit() {
        return Some((byte - b'0') as u64);
    }
    None
}
