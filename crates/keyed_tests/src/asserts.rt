//! The functions by which a test compares what it found with what it expects.
//!
//! ```text
//! assert_true(&rt, notes.has_words("1 2 3"));
//! assert_same(&rt, list.first(), Some(place));
//! ```

use std::process::Abort;

/// Ends the test with a failure unless `is_so` is true.
///
/// What follows from the assertion is proved once here, and not again at each call of this function.
pub(crate) fn assert_true(rt: &impl Abort, is_so: bool) {
    assert!(rt; is_so);
}

/// Ends the test with a failure unless `found` and `expected` are equal. The comparison is proved once here, and not again at each call of this
/// function.
pub(crate) fn assert_same<T: PartialEq + Copy>(rt: &impl Abort, found: T, expected: T) {
    assert!(rt; found == expected);
}
