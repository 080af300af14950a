//! The tests of the scheduler. Its rows of calls are made with enough memory, and with each request for memory refused in turn. Calls that look random
//! are compared with a plain scheduler.

mod calls;
mod plain;
mod random;
mod rows;
