//! These functions turn the results of a collection's calls into answers that a test can note. The objects of the tests are numbers.
//!
//! ```text
//! object(list.pop_front(&mut links)) // `none`, or the index of the place where the object stands
//! ```

use crate::notes::{Answer, Text};
use ic_link_ops::ReplaceError;
use ic_unsafe_ref::{Objects, Place, UnsafeRef};

/// Returns the answer for a place, which is its index.
pub fn number(place: Place) -> Answer {
    Answer::Number(place.index() as u64)
}

/// Returns the answer for an object that a call returns: the index of its place, or `none` if there is no object.
pub fn object(found: Option<UnsafeRef<u64>>) -> Answer {
    match found {
        Some(object) => number(object.place()),
        None => Answer::Nothing,
    }
}

/// Returns the answer for the position of a cursor: the index of the member's place, or `none` at null.
pub fn standing(at: Option<Place>) -> Answer {
    match at {
        Some(place) => number(place),
        None => Answer::Nothing,
    }
}

/// Returns the answer for an object's value: the value, or `none` if there is no object.
pub fn value(found: Option<&u64>) -> Answer {
    match found {
        Some(value) => Answer::Number(*value),
        None => Answer::Nothing,
    }
}

/// Returns the answer for the result `given` of a replacement: the place of the replaced member, or the reason of the refusal, `null` or `linked`. The
/// answer is `another` if the error contains another object than the one at `place`.
pub fn replaced(given: Result<UnsafeRef<u64>, ReplaceError<u64>>, place: Place) -> Answer {
    match &given {
        Ok(out) => number(out.place()),
        Err(ReplaceError::Null(back)) if back.place() == place => Answer::Refused("null"),
        Err(ReplaceError::AlreadyLinked(back)) if back.place() == place => {
            Answer::Refused("linked")
        }
        Err(_) => Answer::Refused("another"),
    }
}

/// Places an object with the value `value`. The answer is the object's place, or `full` if no place is left, or `memory` if there is no memory.
pub fn placed(objects: &mut Objects<u64>, value: u64) -> Answer {
    let Some(next) = objects.next_place() else {
        return Answer::Refused("full");
    };
    let _small = next.index();
    match UnsafeRef::from_box(objects, value) {
        Ok(object) => number(object.place()),
        Err(_) => Answer::Refused("memory"),
    }
}

/// Writes the index of each place in `found` to the notes, or `none` if there is no place.
pub fn write_places(notes: &mut Text, found: &[Option<Place>]) {
    for at in found {
        notes.add(standing(*at), " ");
    }
}
