//! Functions that note the results of a test's calls, and that compare the notes with the expected words.

use ic_test_support::answers::{object, value};
use ic_test_support::notes::Text;
use ic_unsafe_ref::UnsafeRef;
use std::process::Abort;

/// Notes the values of these objects, and `none` where there is no object.
pub(crate) fn write_values(notes: &mut Text, found: &[Option<&u64>]) {
    for given in found {
        notes.add(value(*given), " ");
    }
}

/// Notes the place of an object that was removed, or `none` if none was removed.
pub(crate) fn write_object(notes: &mut Text, taken: Option<UnsafeRef<u64>>) {
    notes.add(object(taken), " ");
}

/// Ends the test with a failure unless the notes have exactly these words.
///
/// What follows from the assertion is proved once here, and not again in each test.
pub(crate) fn assert_words(rt: &impl Abort, notes: &Text, words: &str) {
    assert!(rt; notes.has_words(words));
}
