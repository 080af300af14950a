//! The notes of a test are the results of its calls, written into a text one after the other.
//!
//! ```text
//! notes.add(object(list.pop_front(&mut links)), " "); // `0 `, or `none `
//! ```

use std::alloc::Global;
use std::fmt::{self, Write};

/// The result of a call in the form in which a test notes it.
#[derive(Drop)]
pub enum Answer {
    /// The call has no result. The text is `none`.
    Nothing,
    /// The result is a number: the index of an object's place, or a count.
    Number(u64),
    /// The result is whether something holds. The text is `yes` or `no`.
    Truth(bool),
    /// The call was refused, for a reason in one word.
    Refused(&'static str),
}

impl fmt::Display for Answer {
    fn fmt<W: fmt::Write>(&self, f: &mut fmt::Formatter<W>) -> fmt::Result {
        match self {
            Answer::Nothing => f.write_str("none"),
            Answer::Number(number) => number.fmt(f),
            Answer::Truth(true) => f.write_str("yes"),
            Answer::Truth(false) => f.write_str("no"),
            Answer::Refused(reason) => f.write_str(reason),
        }
    }
}

/// A text that is written piece by piece, and whether all pieces could be written.
///
/// A call that writes a piece returns nothing, so a function that writes many pieces has only one exit. This saves work, because the check proves each
/// exit separately.
#[derive(Drop)]
pub struct Text {
    text: String,
    is_whole: bool,
}

impl Text {
    /// Returns an empty text.
    pub fn new(alloc: Global) -> Text {
        Text {
            text: String::new(alloc),
            is_whole: true,
        }
    }

    /// Writes `word` to the end of the text.
    pub fn word(&mut self, word: &str) {
        self.is_whole &= self.text.write_str(word).is_ok();
    }

    /// Writes `answer` to the end of the text, and then the string `after`.
    pub fn add(&mut self, answer: Answer, after: &str) {
        self.is_whole &= write!(self.text, "{answer}{after}").is_ok();
    }

    /// Returns whether the whole text could be written, and consists of the words in `words`. The number of spaces between the words does not matter.
    pub fn has_words(&self, words: &str) -> bool {
        self.is_whole && self.text.split_whitespace().eq(words.split_whitespace())
    }
}
