//! This file defines the errors of calls that are refused.
//!
//! ```text
//! if let Err(refused) = list.push_back(&mut links, object) {
//!     let object = refused.into_object(); // it is in some list of this field
//! }
//! list.push_back(&mut links, other)?; // in a function that returns an `anyhow::Result`
//! ```
//!
//! Each error is a `std::error::Error`, whatever the type of the objects is, so `?` turns the error into an `anyhow::Error`. The
//! contract of each error type states the text that the error prints.

ghost use Rattle.std.specs.Prelude.{◌≡◌, Some, codes};

use ic_unsafe_ref::UnsafeRef;
use std::{error, fmt};
use thiserror::Error;

/// The object that the caller wanted to insert is linked already. The error contains the object.
pub struct AlreadyLinked<T>(pub UnsafeRef<T>);

/// The debug text of the error contains the place of the object.
impl<T> fmt::Debug for AlreadyLinked<T> {
    fn fmt<W: fmt::Write>(&self, f: &mut fmt::Formatter<W>) -> fmt::Result {
        f.debug_tuple("AlreadyLinked").field(&self.0).finish()
    }
}

impl<T> fmt::Display for AlreadyLinked<T> {
    ghost output = { λ _. Some (codes "the object is linked already") };

    fn fmt<W: fmt::Write>(&self, f: &mut fmt::Formatter<W>) -> fmt::Result {
        f.write_str("the object is linked already")
    }
}

impl<T> error::Error for AlreadyLinked<T> {}

impl<T> AlreadyLinked<T> {
    /// The object that was refused. O(1).
    #[inline]
    pub fn into_object(self) -> UnsafeRef<T>
        ensures answer { result ≡ self.0 }
    {
        let AlreadyLinked(object) = self;
        object
    }
}

impl<T> Drop for AlreadyLinked<T> {
    fn drop(self) {
        let AlreadyLinked(_) = self;
    }
}

/// The reason why a call replaced no member. The error contains the object that the caller passed.
pub enum ReplaceError<T> {
    /// The cursor was on no member, or there was no member at the position that the call replaces.
    Null(UnsafeRef<T>),
    /// The object is linked already. This is also the error if the object is itself the member that the call would replace.
    AlreadyLinked(UnsafeRef<T>),
}

impl<T> ReplaceError<T> {
    ghost use Rattle.ic_link_ops.specs.Errors.{object_of};

    /// The object that was refused. O(1).
    #[inline]
    pub fn into_object(self) -> UnsafeRef<T>
        ensures answer { result ≡ object_of self }
    {
        match self {
            ReplaceError::Null(object) => object,
            ReplaceError::AlreadyLinked(object) => object,
        }
    }
}

/// The debug text of the error contains the cause and the place of the object.
impl<T> fmt::Debug for ReplaceError<T> {
    fn fmt<W: fmt::Write>(&self, f: &mut fmt::Formatter<W>) -> fmt::Result {
        match self {
            ReplaceError::Null(object) => f.debug_tuple("Null").field(object).finish(),
            ReplaceError::AlreadyLinked(object) => {
                f.debug_tuple("AlreadyLinked").field(object).finish()
            }
        }
    }
}

impl<T> fmt::Display for ReplaceError<T> {
    ghost use Rattle.ic_link_ops.specs.Errors.{replace_text};

    ghost output = { λ refused. Some (replace_text refused) };

    fn fmt<W: fmt::Write>(&self, f: &mut fmt::Formatter<W>) -> fmt::Result {
        match self {
            ReplaceError::Null(_) => f.write_str("no member stands there"),
            ReplaceError::AlreadyLinked(_) => f.write_str("the object is linked already"),
        }
    }
}

impl<T> error::Error for ReplaceError<T> {}

impl<T> Drop for ReplaceError<T> {
    fn drop(self) {
        match self {
            ReplaceError::Null(_) => {}
            ReplaceError::AlreadyLinked(_) => {}
        }
    }
}

/// The reason why a table could not cover more places.
#[derive(Clone, Copy, PartialEq, Eq, Debug, Error)]
pub enum CoverError {
    /// The caller requested more than 4,294,967,296 places, or more than 536,870,911 places if the words have 4 bytes.
    #[error("TooManyPlaces")]
    TooManyPlaces = 1,
    /// There was no memory for the entries.
    #[error("OutOfMemory")]
    OutOfMemory = 2,
}
