//! The hand of a seat of the claim words, which is the list of the records that the seat has.

use crate::step::Record;
use std::collections::LinkedList;

// The number of words and of records that the claims have.
#[derive(Drop)]
pub(crate) struct Size {
    pub(crate) words: usize,
    pub(crate) holders: usize,
}

// The records that a seat has. A holder's seat has one record, and a seat that has given its records away has none. No value of this type is made.
pub(crate) struct HeldRecords {
    pub(crate) size: Size,
    pub(crate) records: LinkedList<Record>,
}
