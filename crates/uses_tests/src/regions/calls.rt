//! The calls of an allocator of addresses, and their results, as values of two enums.

use region_allocator::{FreeError, RegionAllocator};
use std::alloc::Allocator;

/// A call of an allocator of addresses.
#[derive(Clone, Copy)]
pub(crate) enum Call {
    Free(u64, u64),
    Allocate(u64),
    IsFree(u64),
    IsEmpty,
}

/// The result of a call of the allocator.
#[derive(Clone, Copy, PartialEq)]
pub(crate) enum Answer {
    Done,
    Refused(FreeError),
    At(u64),
    Nothing,
    Truth(bool),
}

/// Makes the call on the allocator, and returns its result.
pub(crate) fn make<A: Allocator>(space: &mut RegionAllocator<A>, call: Call) -> Answer {
    match call {
        Call::Free(start, length) => match space.free(start, length) {
            Ok(()) => Answer::Done,
            Err(error) => Answer::Refused(error),
        },
        Call::Allocate(length) => match space.allocate(length) {
            Some(start) => Answer::At(start),
            None => Answer::Nothing,
        },
        Call::IsFree(address) => Answer::Truth(space.is_free(address)),
        Call::IsEmpty => Answer::Truth(space.is_empty()),
    }
}
