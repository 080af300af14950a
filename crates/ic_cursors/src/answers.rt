//! What a call of a cursor returns, given whether the object's link was acquired. The cursor's kind of collection returns that boolean.
//!
//! ```text
//! replaced(None, object, false) // Err(ReplaceError::Null(object))
//! ```

ghost use Rattle.std.specs.Prelude.{◌≡◌};
ghost use Rattle.ic_cursors.specs.Answers as answer;

use ic_link_ops::{AlreadyLinked, ReplaceError};
use ic_unsafe_ref::{Place, UnsafeRef};

/// The result of an insert of the object. It is an error if the object's link was refused (`is_acquired` is false).
#[inline]
pub(crate) fn inserted<T>(is_acquired: bool, object: UnsafeRef<T>) -> Result<(), AlreadyLinked<T>>
    ensures { result ≡ answer.inserted object is_acquired }
{
    if !is_acquired {
        return Err(AlreadyLinked(object));
    }
    Ok(())
}

/// The result of a call that replaces the member `out` by the object. It is an error if `out` is `None`, because then there was no member to replace. It is
/// also an error if the object's link was refused (`is_acquired` is false).
#[inline]
pub(crate) fn replaced<T>(
    out: Option<Place>,
    object: UnsafeRef<T>,
    is_acquired: bool,
) -> Result<UnsafeRef<T>, ReplaceError<T>>
    ensures { result ≡ answer.replaced out object is_acquired }
{
    match out {
        None => Err(ReplaceError::Null(object)),
        Some(out) => {
            if is_acquired {
                Ok(UnsafeRef::new(out))
            } else {
                Err(ReplaceError::AlreadyLinked(object))
            }
        }
    }
}
