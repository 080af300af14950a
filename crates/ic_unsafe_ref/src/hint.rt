//! This file lets the compiler use conditions that are proved.
//!
//! ```text
//! let word = assert_unchecked(self.word, self.word % 8 == 0); // a multiple of 8, for all that is compiled after it
//! ```

ghost use Rattle.std.specs.Prelude.{◌≡◌, true};

/// Returns the value, and lets the compiler assume the condition `holds`, which is proved.
///
/// The call requires that the condition holds, and the compiled program does not test the condition. If the condition failed, the
/// function would read the first element of an empty slice. The compiler removes bounds checks in this function, so it drops the
/// second branch, and it assumes the condition in all code that follows. If the second branch were `unreachable!()`, the compiler
/// would keep the test.
#[inline(always)]
pub(crate) fn assert_unchecked<T: Copy>(value: T, holds: bool) -> T
    requires holds { holds ≡ true }
    ensures { result ≡ value }
{
    if holds {
        return value;
    }
    let none: &[&T] = &[];
    *none[0]
}
