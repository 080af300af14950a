//! An allocator for tests that refuses one chosen request for memory.
//!
//! The allocator is for tests that refuse each growth of a container in turn. A test makes a container over a `&Rationed`, chooses the request that is
//! to fail, and checks what the call returns and what the container then has. If a growth is refused, the container keeps the block that it had.

ghost use Rattle.std.specs.Prelude.{◌≡◌, ◌+◌, ◌<◌, ◌↔◌, min, IsTrue};

use std::alloc::{AllocError, Allocator, Global};
use std::cell::Cell;

// The number of requests so far, the sum of their bytes, and the number of the request to refuse.
#[derive(Clone, Copy)]
struct Count {
    asked: u64,
    bytes: u64,
    refused: u64,
}

impl Count {
    // Returns whether the next request is to be refused. If `refused` is `u64::MAX`, no request is refused, even if `asked` has reached `u64::MAX`.
    fn is_refused(self) -> bool
        ensures { IsTrue result ↔ ((self.asked ≡ self.refused) × (self.refused < u64.MAX)) }
    {
        self.asked == self.refused && self.refused < u64::MAX
    }

    fn one_more(self, size: usize) -> Count
        ensures asked { result.asked ≡ min (self.asked + 1) u64.MAX }
        ensures bytes { result.bytes ≡ min (self.bytes + size) u64.MAX }
        ensures refused { result.refused ≡ self.refused }
    {
        Count {
            asked: self.asked.saturating_add(1),
            bytes: self.bytes.saturating_add(size as u64),
            refused: self.refused,
        }
    }

    fn refusing(self, n: u64) -> Count
        ensures asked { result.asked ≡ self.asked }
        ensures bytes { result.bytes ≡ self.bytes }
        ensures refused { result.refused ≡ min (self.asked + n) u64.MAX }
    {
        Count {
            asked: self.asked,
            bytes: self.bytes,
            refused: self.asked.saturating_add(n),
        }
    }
}

// Counts one more request, for `size` bytes, and returns whether this request is to be refused.
fn refuses_next(count: &Cell<Count>, size: usize) -> bool {
    let before = count.get();
    count.set(before.one_more(size));
    before.is_refused()
}

/// An allocator that refuses one chosen request for memory, and passes every other request on to a second allocator, the allocator below. A container
/// is made over a `&Rationed`, because a `&Rationed` is also an allocator and is `Copy`.
///
/// A request is an allocation, for example the one by which a container moves its items to a larger or a smaller block. The return of a block is not a
/// request. It goes to the allocator below, and never fails.
#[derive(Drop)]
pub struct Rationed<A: Allocator = Global> {
    alloc: A,
    count: Cell<Count>,
}

impl<A: Allocator> Rationed<A> {
    /// Returns an allocator that passes requests on to `alloc`, and that refuses the request with the number `refused`, counted from 0. If `refused` is
    /// `u64::MAX`, no request is refused.
    pub fn new(alloc: A, refused: u64) -> Rationed<A> {
        Rationed {
            alloc,
            count: Cell::new(Count {
                asked: 0,
                bytes: 0,
                refused,
            }),
        }
    }

    /// Returns how many requests for memory have been made to this allocator, including a refused one. The count stays at `u64::MAX` once it is there.
    pub fn requests(&self) -> u64 {
        self.count.get().asked
    }

    /// Returns the sum of the bytes of all requests, including a refused request. Freed memory is not subtracted. The sum stays at `u64::MAX` once it
    /// is there.
    pub fn bytes(&self) -> u64 {
        self.count.get().bytes
    }

    /// Chooses one request to refuse, instead of the request that was chosen before. It is the request with the number `n`, and the next request has
    /// the number 0. If `n` is `u64::MAX`, no request is refused. `requests` and `bytes` continue to count.
    pub fn refuse(&self, n: u64) {
        self.count.set(self.count.get().refusing(n));
    }
}

unsafe impl<A: Allocator> Allocator for Rationed<A> {
    ghost dealloc_token = { λ rationed ty block. A.dealloc_token rationed.alloc ty block };

    fn allocate(&self, size: usize, align: usize) -> Result<*mut u8, AllocError> {
        if refuses_next(&self.count, size) {
            return Err(AllocError);
        }
        self.alloc.allocate(size, align)
    }

    unsafe fn deallocate(&self, ptr: *mut u8, size: usize, align: usize) {
        self.alloc.deallocate(ptr, size, align);
    }
}
