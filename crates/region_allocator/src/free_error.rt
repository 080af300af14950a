//! The error of a call that does not free addresses.
//!
//! ```text
//! space.free(90, 20) // Err(FreeError::Overlaps): 90 to 99 are free already
//! ```

/// The reason why addresses were not freed. The allocator has not changed then.
#[derive(Clone, Copy, PartialEq, Eq, Debug)]
pub enum FreeError {
    /// There are no addresses to free.
    Empty,
    /// The addresses end after `u64::MAX`.
    TooLong,
    /// One of the addresses is already free.
    Overlaps,
    /// All places for regions are in use.
    TooManyRegions,
    /// There was not enough memory for the region or its links.
    OutOfMemory,
}
