//! This file defines the error of a value that was not placed.
//!
//! ```text
//! if let Err(refused) = pool.place(value) {
//!     let value = refused.into_value(); // it comes back
//! }
//! let object = pool.place(other)?; // in a function that returns the same error, or an `anyhow::Result`
//! ```
//!
//! The error is a `std::error::Error` if the values can be printed and dropped.

ghost use Rattle.std.specs.Prelude.{◌≡◌, Some};

use std::error::Error;
use std::fmt;

/// The reason why a value was not placed. The error contains the value.
#[derive(Debug, Drop)]
pub enum PlaceError<T> {
    /// There is no place left for another object.
    NoPlaceLeft(T),
    /// There was no memory for the object or for its links.
    OutOfMemory(T),
}

impl<T> PlaceError<T> {
    ghost use Rattle.ic_pool.specs.Refusals.{value_of};

    /// The value that was refused. O(1).
    #[inline]
    pub fn into_value(self) -> T
        ensures { result ≡ value_of self }
    {
        match self {
            PlaceError::NoPlaceLeft(value) => value,
            PlaceError::OutOfMemory(value) => value,
        }
    }
}

impl<T> fmt::Display for PlaceError<T> {
    ghost use Rattle.ic_pool.specs.Refusals.{place_text};

    ghost output = { λ refused. Some (place_text refused) };

    fn fmt<W: fmt::Write>(&self, f: &mut fmt::Formatter<W>) -> fmt::Result {
        match self {
            PlaceError::NoPlaceLeft(_) => f.write_str("no place is left for another object"),
            PlaceError::OutOfMemory(_) => f.write_str("out of memory"),
        }
    }
}

impl<T: fmt::Debug + Drop> Error for PlaceError<T> {}
