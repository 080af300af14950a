//! This file defines the integers in which links store their words. A word has 8 bytes, or 4 bytes in a narrow link.
//!
//! A word of 4 bytes stores the number of a [`Word`](crate::Word) as a word of 8 bytes does, so no read and no write shifts the
//! number.
//!
//! ```text
//! u32::most_places() // 536,870,911
//! ```

ghost use Rattle.std.specs.Prelude.{◌≡◌, ℕ};
ghost use Rattle.ic_link_ops.specs.Widths.{Width, CanKeep, most_places};

use ic_unsafe_ref::Place;

/// An integer that stores one word of a link: `u64`, or `u32` in narrow links.
pub trait Bits: Copy {
    // The width of the integer: 8 bytes or 4 bytes.
    ghost width: { Width };

    // The number that the integer stores.
    ghost number: { Self → ℕ };

    /// The greatest number of places that words of this width can name.
    fn most_places() -> usize
        ensures { result ≡ most_places width };

    /// The integer that stores the number of a word. The call requires that the integer has room for the number.
    fn of(word: u64) -> Self
        requires kept { CanKeep width word }
        ensures { number result ≡ word };

    /// The number that the integer stores.
    fn get(self) -> u64
        ensures value { result ≡ number self }
        ensures kept { CanKeep width (number self) };
}

impl Bits for u64 {
    ghost use Rattle.ic_link_ops.specs.Widths.{wide};

    ghost width = { wide };

    ghost number = { λ bits. bits };

    #[inline]
    fn most_places() -> usize {
        Place::COUNT
    }

    #[inline]
    fn of(word: u64) -> Self {
        word
    }

    #[inline]
    fn get(self) -> u64 {
        self
    }
}

impl Bits for u32 {
    ghost use Rattle.ic_link_ops.specs.Widths.{narrow};

    ghost width = { narrow };

    ghost number = { λ bits. bits };

    /// The word `8 * (index + 1)` of each of these places, and the exclusive or of two such words, is below 2^32.
    #[inline]
    fn most_places() -> usize {
        536_870_911
    }

    #[inline]
    fn of(word: u64) -> Self {
        word as u32
    }

    #[inline]
    fn get(self) -> u64 {
        u64::from(self)
    }
}
