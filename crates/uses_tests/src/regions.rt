//! The tests of the allocator of addresses. Its rows of calls are made with enough memory, and with each request for memory refused in turn.

mod calls;
mod rows;
