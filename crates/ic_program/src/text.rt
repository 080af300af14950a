//! A text of lines: the ends of its first line, and of the words of that line.
//!
//! ```text
//! first_word(b"  push_back 0 3\n")   // `push_back`, and the text from the space after it on
//! after_line(b" \r\npop_front 0\n") // Some(`pop_front 0\n`): the line has no more words
//! ```

ghost use Rattle.std.specs.Prelude.{◌≡◌, ◌≢◌, ◌≤◌, ℕ, true, false, List, [], IfSome, MatchOption, drop, length};
ghost use Rattle.std.specs.Bool.{OnTrue};
ghost use Rattle.ic_program.specs.Text.{after_line as after_first_line, after_spaces, ends_word, ends_line as is_line_end, line_in, word_in, words_in, ReadsWord};

/// Returns the text without the spaces at its beginning. Most texts begin with none.
#[inline(always)]
pub(crate) fn without_spaces<'l>(text: &'l [u8]) -> &'l [u8]
    ensures { result.now ≡ after_spaces text.now }
{
    match text {
        [b' ', ..] => without_more_spaces(text),
        _ => text,
    }
}

// Returns the text without the spaces at its beginning. `without_spaces` calls this function only if the text begins with a space.
#[cold]
#[inline(never)]
fn without_more_spaces<'l>(text: &'l [u8]) -> &'l [u8]
    ensures { result.now ≡ after_spaces text.now }
{
    let mut rest = text;
    while let [b' ', others @ ..] = rest {
        rest = others;
    }
    rest
}

/// Returns the text after its first byte if this byte is a space, and otherwise the whole text.
#[inline(always)]
pub(crate) fn after_space<'l>(text: &'l [u8]) -> &'l [u8]
    ensures words { words_in result.now ≡ words_in text.now }
    ensures after { after_first_line result.now ≡ after_first_line text.now }
{
    match text {
        [b' ', rest @ ..] => rest,
        _ => without_space(text),
    }
}

// Returns the text as it is. `after_space` calls this function only if the text does not begin with a space. Because this is a function of its own,
// the processor predicts that a text begins with a space, and does not wait for the test.
#[cold]
#[inline(never)]
fn without_space<'l>(text: &'l [u8]) -> &'l [u8]
    ensures { result.now ≡ text.now }
{
    text
}

/// Returns the text after the line, if the line has no more words. A line ends with `\n`, with `\r\n` or at the end of the text.
#[inline(always)]
pub(crate) fn after_line<'l>(text: &'l [u8]) -> Option<&'l [u8]>
    ensures { MatchOption result (words_in text.now ≢ []) (λ rest. (words_in text.now ≡ []) × (rest.now ≡ after_first_line text.now)) }
{
    match text {
        [b'\n', rest @ ..] => Some(rest),
        _ => {
            let taken = other_line(text)?;
            Some(&text[taken..])
        }
    }
}

// Returns how many bytes of a text are before its next line, if the first line has no words. `after_line` calls it if the text does not begin with
// `\n`. It returns a number instead of a text, because a number stays in a register.
#[cold]
#[inline(never)]
fn other_line(text: &[u8]) -> Option<usize>
    ensures end { MatchOption result (words_in text.now ≢ []) (λ taken. (words_in text.now ≡ []) × (drop taken text.now ≡ after_first_line text.now)) }
    ensures in_bounds { IfSome result (λ taken. taken ≤ length text.now) }
{
    match after_end(without_spaces(text)) {
        Some(rest) => Some(text.len().saturating_sub(rest.len())),
        None => None,
    }
}

// Returns the text after the end of a line, if the text begins with the end of a line.
fn after_end<'l>(text: &'l [u8]) -> Option<&'l [u8]>
    ensures { MatchOption result (is_line_end text.now ≡ false) (λ rest. (is_line_end text.now ≡ true) × (rest.now ≡ after_first_line text.now)) }
{
    match text {
        [] => Some(text),
        [b'\n', rest @ ..] => Some(rest),
        [b'\r', b'\n', rest @ ..] => Some(rest),
        _ => None,
    }
}

/// Returns whether the text begins with a space or `\n`, each of which ends a word. If not, a word may still end here with `\r\n`, or at the end of
/// the text.
#[inline(always)]
pub(crate) fn word_ends(text: &[u8]) -> bool
    ensures { OnTrue result (ends_word text.now ≡ true) }
{
    match text {
        [b' ', ..] => true,
        [b'\n', ..] => true,
        _ => false,
    }
}

/// Returns the first word of the line, which is empty if there is none, and the text after that word. O(bytes).
#[cold]
#[inline(never)]
pub(crate) fn first_word<'l>(text: &'l [u8]) -> (&'l [u8], &'l [u8])
    ensures { ReadsWord text.now result.0.now result.1.now }
{
    let start = without_spaces(text);
    let length = word_length(start);
    (&start[..length], &start[length..])
}

/// Returns the text after the first word of the line. O(bytes).
#[cold]
#[inline(never)]
pub(crate) fn after_word<'l>(text: &'l [u8]) -> &'l [u8]
    ensures { (word : List ℕ) × ReadsWord text.now word result.now }
{
    let (_, rest) = first_word(text);
    rest
}

// Returns how many bytes at the beginning of a text are its first word: the bytes before the next space and before the end of the line.
fn word_length(text: &[u8]) -> usize
    ensures length { result ≡ length (word_in text.now) }
    ensures in_bounds { result ≤ length text.now }
{
    for (at, byte) in text.iter().enumerate() {
        if *byte == b' ' || after_end(&text[at..]).is_some() {
            return at;
        }
    }
    text.len()
}

/// Returns the first line, without the `\n` or `\r\n` at its end. O(bytes).
#[cold]
#[inline(never)]
pub(crate) fn first_line<'l>(text: &'l [u8]) -> &'l [u8]
    ensures { result.now ≡ line_in text.now }
{
    &text[..line_length(text)]
}

// Returns how many bytes at the beginning of a text are its first line: the bytes before `\n` or `\r\n`, or all bytes.
fn line_length(text: &[u8]) -> usize
    ensures length { result ≡ length (line_in text.now) }
    ensures in_bounds { result ≤ length text.now }
{
    for (at, _) in text.iter().enumerate() {
        if after_end(&text[at..]).is_some() {
            return at;
        }
    }
    text.len()
}
